// One step of a session: read a frame, announce it, execute it at the port, write the reply, report it.
ghost use Rattle.std.specs.Prelude.{◌≡◌, ◌<◌, ◌≤◌, ◌+◌, ◌^◌, true};
ghost use Rattle.ar_frames.specs.FrameStep.{AnswersRequest, RefusesRequest, FrameStep, result_after};

use crate::end::EndReason;
use crate::frame::Request;
use crate::observer::Observer;
use crate::port::Port;
use crate::receive::{Incoming, receive};
use crate::reply::send_reply;
use crate::stream::{Sink, Source};
use crate::transfer::Sent;
use ar_disks::Host;
use std::alloc::Global;

// The result of a step.
#[derive(Clone, Copy)]
pub(crate) enum FrameResult {
    Answered,
    // The frame was read, and its reply wasn't written whole.
    Unsent,
    // No whole frame was read, for this reason.
    Ended(EndReason),
}

// A session's state between frames. Only a step changes it.
#[derive(Drop)]
pub(crate) struct SessionState {
    // The number of commands that were given to the port.
    given: u64,
}

impl SessionState {
    // The state of a new session: no command was given.
    pub fn new() -> SessionState
        ensures { result.given ≡ 0 }
    {
        SessionState { given: 0 }
    }
}

// Reads a frame, executes it at the port and writes the reply. A frame whose data couldn't be allocated gets BUSY.
pub(crate) fn serve_frame<R: Source, W: Sink, P: Port, O: Observer>(
    alloc: Global,
    reader: &mut R,
    writer: &mut W,
    port: &mut P,
    observer: &mut O,
    host: Host,
    state: &mut SessionState,
) -> FrameResult
    requires logged { P.has_login port.old ≡ true }
    requires room { state.old.given < 2 ^ 63 }
    ensures step { FrameStep P.commands P.refuses O.announces O.reports host (R.state reader.old) (R.state reader.new)
        (W.state writer.old) (W.state writer.new) port.old port.new observer.old observer.new
        state.old.given
        state.new.given
        result }
    ensures logged { P.has_login port.new ≡ true }
    ensures given { state.new.given ≤ state.old.given + 1 }
{
    match receive(alloc, reader) {
        Incoming::Whole(request) => answer(writer, port, observer, host, state, request),
        Incoming::Lost { tag, cdb } => refuse(writer, port, tag, &cdb),
        Incoming::Ended(reason) => FrameResult::Ended(reason),
    }
}

// Executes a request at the port and writes the reply. The observer sees the request before its data are given away,
// and how far the reply was written.
fn answer<W: Sink, P: Port, O: Observer>(
    writer: &mut W,
    port: &mut P,
    observer: &mut O,
    host: Host,
    state: &mut SessionState,
    request: Request,
) -> FrameResult
    requires logged { P.has_login port.old ≡ true }
    requires room { state.old.given < 2 ^ 63 }
    ensures answers { AnswersRequest P.commands P.refuses O.announces O.reports host
        (W.state writer.old) (W.state writer.new)
        port.old port.new observer.old observer.new request result
        state.old.given
        state.new.given }
    ensures logged { P.has_login port.new ≡ true }
    ensures given { state.new.given ≡ state.old.given + 1 }
{
    state.given += 1;
    observer.before(host, state.given, &request);
    let Request {
        tag,
        lun,
        cdb,
        payload,
    } = request;
    let reply = port.command(lun, &cdb, payload);
    let sent = send_reply(writer, tag, &reply);
    observer.after(host, state.given, sent);
    result_of(sent)
}

// Writes the port's BUSY to a frame whose data couldn't be allocated.
fn refuse<W: Sink, P: Port>(writer: &mut W, port: &mut P, tag: u64, cdb: &[u8; 16]) -> FrameResult
    requires { P.has_login port.old ≡ true }
    ensures refuses { RefusesRequest P.refuses (W.state writer.old) (W.state writer.new) port.old port.new tag cdb.now
        result }
{
    let reply = port.refuse(cdb);
    result_of(send_reply(writer, tag, &reply))
}

fn result_of(sent: Sent) -> FrameResult
    ensures { result ≡ result_after sent }
{
    match sent {
        Sent::Whole => FrameResult::Answered,
        Sent::Part(_) => FrameResult::Unsent,
    }
}
