// The login phase of a session: login requests are read, each does what its turn says, and its answer is written.
ghost use Rattle.std.specs.Prelude.{◌≡◌, false, true, [], IfSome, IsSome, OnSome, length};
ghost use Rattle.ar_iscsi.specs.LoginPhase as session;
ghost use Rattle.ar_iscsi.specs.Digest.{no_digests};
ghost use Rattle.ar_iscsi.specs.LoginTurn.{LoginTurn, MayLogIn};
ghost use Rattle.ar_iscsi.specs.Phase as phase;

use crate::login::{LoginResult, LoginWork, login_turn};
use crate::negotiation::SessionKind;
use crate::receive::{ReceiveEnd, Received, receive_pdu};
use crate::request::segment_len;
use crate::verdict::LoginStatus;
use ar_frames::{Port, Sent, Sink, Source, send};
use ar_target::LoginObserver;
use std::alloc::Global;

/// How a login phase ended.
#[derive(Clone, Copy, Debug, PartialEq, Eq)]
pub enum LoginEnd {
    /// The full feature phase begins.
    Entered,
    /// A request was refused with this status.
    Refused(LoginStatus),
    /// No whole PDU was read, for this reason.
    Unread(ReceiveEnd),
    /// A write faulted.
    Write,
    /// A response or the initiator's name couldn't be allocated.
    NoMemory,
    /// 2^64 - 1 requests were answered.
    Bound,
}

// What became of a request.
#[derive(Clone, Copy)]
pub(crate) enum RequestResult {
    // It was read and answered, and the login goes on.
    Answered,
    Ended(LoginEnd),
}

/// Runs the login phase of a session. `buffer` receives data segments. The host that a normal session names is given to
/// the port once, where the full feature phase begins.
pub fn log_in<R: Source, W: Sink, P: Port + LoginObserver>(
    alloc: Global,
    reader: &mut R,
    writer: &mut W,
    port: &mut P,
    work: &mut LoginWork,
    buffer: &mut [u8],
) -> LoginEnd
    requires unlogged { P.has_login port.old ≡ false }
    requires room { length buffer.old ≡ phase.most_segment }
    requires empty { work.old.out.items ≡ [] }
    ensures runs { session.RunsLogin P.logins
        (record {
          source = R.state reader.old;
          sink = W.state writer.old;
          spot = record { state = work.old.state; text = work.old.text.items };
          port = port.old;
        })
        result
        (record {
          source = R.state reader.new;
          sink = W.state writer.new;
          spot = record { state = work.new.state; text = work.new.text.items };
          port = port.new;
        }) }
    ensures logged { result ≡ LoginEnd.Entered → work.new.state.so_far.kind ≡ SessionKind.Normal
        → P.has_login port.new ≡ true }
{
    for _ in 0..u64::MAX {
        match answer_next(alloc, reader, writer, port, work, buffer) {
            RequestResult::Answered => {}
            RequestResult::Ended(reason) => return reason,
        }
    }
    LoginEnd::Bound
}

// Reads a request, does what it asks for, and writes the answer.
fn answer_next<R: Source, W: Sink, P: Port + LoginObserver>(
    alloc: Global,
    reader: &mut R,
    writer: &mut W,
    port: &mut P,
    work: &mut LoginWork,
    buffer: &mut [u8],
) -> RequestResult
    requires unlogged { P.has_login port.old ≡ false }
    requires room { length buffer.old ≡ phase.most_segment }
    requires empty { work.old.out.items ≡ [] }
    ensures next { session.NextRequest P.logins
        (record {
          source = R.state reader.old;
          sink = W.state writer.old;
          spot = record { state = work.old.state; text = work.old.text.items };
          port = port.old;
        })
        result
        (record {
          source = R.state reader.new;
          sink = W.state writer.new;
          spot = record { state = work.new.state; text = work.new.text.items };
          port = port.new;
        }) }
    ensures unlogged { result ≡ RequestResult.Answered → P.has_login port.new ≡ false }
    ensures logged { result ≡ RequestResult.Ended LoginEnd.Entered → work.new.state.so_far.kind ≡ SessionKind.Normal
        → P.has_login port.new ≡ true }
    ensures emptied { result ≡ RequestResult.Answered → work.new.out.items ≡ [] }
{
    match receive_pdu(reader, buffer) {
        Received::Pdu(header) => {
            let len = segment_len(&header) as usize;
            let carried = &buffer[..len];
            let answered = answer_request(alloc, writer, port, work, &header, carried);
            result_of_request(answered)
        }
        Received::Nothing(reason) => RequestResult::Ended(LoginEnd::Unread(reason)),
        // (a login has no digests)
        Received::Damaged(_) => unreachable!(),
    }
}

// Does what a request asks for, and writes the answer. None: memory for it ran out.
fn answer_request<W: Sink, P: Port + LoginObserver>(
    alloc: Global,
    writer: &mut W,
    port: &mut P,
    work: &mut LoginWork,
    header: &[u8; 48],
    carried: &[u8],
) -> Option<(LoginResult, Sent)>
    requires unlogged { P.has_login port.old ≡ false }
    requires empty { work.old.out.items ≡ [] }
    ensures answers { phase.AnswersPdu no_digests (LoginTurn P.logins) (MayLogIn P.logins) header.now carried.now
        (W.state writer.old) (record { state = work.old.state; text = work.old.text.items }) port.old result
        (W.state writer.new) (record { state = work.new.state; text = work.new.text.items }) port.new }
    ensures unlogged { IfSome result (λ answered. answered.0 ≡ LoginResult.Next → P.has_login port.new ≡ false) }
    ensures logged { IfSome result (λ answered. answered.0 ≡ LoginResult.Entered
        → work.new.state.so_far.kind ≡ SessionKind.Normal
        → P.has_login port.new ≡ true) }
    ensures emptied { OnSome result (work.new.out.items ≡ []) }
{
    match login_turn(work, alloc, port, header, carried) {
        Ok(left) => {
            let sent = send(writer, &work.out);
            work.out.clear();
            Some((left, sent))
        }
        Err(_) => None,
    }
}

// What becomes of the login after an answer.
fn result_of_request(answered: Option<(LoginResult, Sent)>) -> RequestResult
    ensures is { result ≡ session.result_of_request answered }
    ensures next { result ≡ RequestResult.Answered → IfSome answered (λ answered. answered.0 ≡ LoginResult.Next) }
    ensures entered { result ≡ RequestResult.Ended LoginEnd.Entered
        → IfSome answered (λ answered. answered.0 ≡ LoginResult.Entered) }
    ensures some { result ≡ RequestResult.Answered → IsSome answered }
    ensures some_entered { result ≡ RequestResult.Ended LoginEnd.Entered → IsSome answered }
{
    match answered {
        Some((left, sent)) => result_of_login_turn(left, sent),
        None => RequestResult::Ended(LoginEnd::NoMemory),
    }
}

fn result_of_login_turn(left: LoginResult, sent: Sent) -> RequestResult
    ensures is { result ≡ session.result_of_login_turn left sent }
    ensures next { result ≡ RequestResult.Answered → left ≡ LoginResult.Next }
    ensures entered { result ≡ RequestResult.Ended LoginEnd.Entered → left ≡ LoginResult.Entered }
{
    match (left, sent) {
        (_, Sent::Part(_)) => RequestResult::Ended(LoginEnd::Write),
        (LoginResult::Next, Sent::Whole) => RequestResult::Answered,
        (LoginResult::Entered, Sent::Whole) => RequestResult::Ended(LoginEnd::Entered),
        (LoginResult::Refused(status), Sent::Whole) => RequestResult::Ended(LoginEnd::Refused(
            status,
        )),
    }
}
