// The full feature phase of a session: PDUs are read, each does what its turn says, and its answer is written. A peer
// that is silent between two of them is pinged.
ghost use Rattle.std.specs.Prelude.{◌≡◌, false, true, [], vec_len};
ghost use Rattle.ar_iscsi.specs.Phase.{most_segment};
ghost use Rattle.ar_iscsi.specs.Session as session;
ghost use Rattle.ar_iscsi.specs.Waiting.{is_next_waiting};

use crate::digest::CrcTable;
use crate::flow::Flow;
use crate::pdu_read::PduRead;
use crate::receive::{ReceiveEnd, Received, receive_sent};
use crate::request::{initiator_pdu, segment_len};
use crate::response::ping_pdu;
use crate::tasks::Tasks;
use crate::terms::Terms;
use crate::turn::TurnEnd;
use ar_frames::{Sent, Sink, Source};
use ar_target::ResetPort;
use std::alloc::Global;
use std::marker::Model;

/// The longest data segment that is received, in bytes: the target's MaxRecvDataSegmentLength.
pub const MOST_SEGMENT: usize = 262_144;

/// Why a full feature phase ended.
#[derive(Clone, Copy, Debug, PartialEq, Eq)]
pub enum FeatureEnd {
    /// No whole PDU was read, for this reason.
    Unread(ReceiveEnd),
    /// A write faulted.
    Write,
    /// The initiator has logged out.
    LoggedOut,
    /// A WRITE's data came out of order.
    BrokenData,
    /// A PDU with a CmdSN was rejected.
    Rejected,
    /// A PDU was rejected whose data digest is wrong.
    WrongData,
    /// An answer couldn't be allocated.
    NoMemory,
    /// 2^64 - 1 PDUs were served or pings sent.
    Bound,
}

// What became of a PDU.
#[derive(Clone, Copy)]
pub(crate) enum PduResult {
    // It was read and answered, or a ping was sent in its place.
    Served,
    Ended(FeatureEnd),
}

/// A session in its full feature phase, between two PDUs.
#[derive(Drop)]
pub struct Session {
    tasks: Tasks,
    // Receives data segments.
    buffer: Vec<u8>,
    // For digests.
    table: CrcTable,
}

impl Model for Session {
    ghost use Rattle.std.specs.Prelude.{◌≡◌, [], vec_len};
    ghost use Rattle.ar_iscsi.specs.Arrival.{FeatureSpot};
    ghost use Rattle.ar_iscsi.specs.Phase.{most_segment};

    ghost Value = { FeatureSpot };

    ghost view = { λ session. session.tasks.spot };

    ghost invariant = { λ session. (session.tasks.out ≡ []) × (vec_len session.buffer ≡ most_segment) };
}

impl Session {
    /// A session that begins with these numbers.
    pub fn new(alloc: Global, flow: Flow, buffer: Vec<u8>) -> Session
        requires { vec_len buffer ≡ most_segment }
        ensures { result ≡ record { session = record { flow = flow; bytes = [] }; waiting = [] } }
    {
        Session {
            tasks: Tasks::new(alloc, flow),
            buffer,
            table: CrcTable::new(),
        }
    }

    /// Serves the session to its end.
    pub fn serve<R: Source, W: Sink, P: ResetPort>(
        &mut self,
        reader: &mut R,
        writer: &mut W,
        port: &mut P,
        terms: &Terms<'_>,
    ) -> FeatureEnd
        requires { P.has_login port.old ≡ true }
        ensures { session.RunsFeature P.commands P.refuses P.resets terms.now.address.now terms.now.limits
            (record { source = R.state reader.old; sink = W.state writer.old; spot = self.old; port = port.old })
            result
            (record { source = R.state reader.new; sink = W.state writer.new; spot = self.new; port = port.new }) }
    {
        for _ in 0..u64::MAX {
            match self.serve_pdu(reader, writer, port, terms) {
                PduResult::Served => {}
                PduResult::Ended(reason) => return reason,
            }
        }
        FeatureEnd::Bound
    }

    // Serves the oldest PDU that waits, once no data are collected, and otherwise one that is read.
    fn serve_pdu<R: Source, W: Sink, P: ResetPort>(
        &mut self,
        reader: &mut R,
        writer: &mut W,
        port: &mut P,
        terms: &Terms<'_>,
    ) -> PduResult
        requires { P.has_login port.old ≡ true }
        ensures next { session.NextIsServed P.commands P.refuses P.resets terms.now.address.now terms.now.limits
            (record { source = R.state reader.old; sink = W.state writer.old; spot = self.old; port = port.old })
            result
            (record { source = R.state reader.new; sink = W.state writer.new; spot = self.new; port = port.new }) }
        ensures stays { P.has_login port.new ≡ true }
    {
        match self.tasks.take_waiting() {
            Some(pdu) => {
                let answered = self
                    .tasks
                    .answer_waiting(writer, port, terms, &self.table, &pdu);
                result_of_answer(answered)
            }
            None => self.serve_arrival(reader, writer, port, terms),
        }
    }

    // Reads a PDU, does what it asks for, and writes the answer, a Reject if its data digest is wrong; or pings a peer
    // that is silent.
    fn serve_arrival<R: Source, W: Sink, P: ResetPort>(
        &mut self,
        reader: &mut R,
        writer: &mut W,
        port: &mut P,
        terms: &Terms<'_>,
    ) -> PduResult
        requires none_next { is_next_waiting self.old.session.flow self.old.waiting ≡ false }
        requires logged { P.has_login port.old ≡ true }
        ensures next { session.NextIsServed P.commands P.refuses P.resets terms.now.address.now terms.now.limits
            (record { source = R.state reader.old; sink = W.state writer.old; spot = self.old; port = port.old })
            result
            (record { source = R.state reader.new; sink = W.state writer.new; spot = self.new; port = port.new }) }
        ensures stays { P.has_login port.new ≡ true }
    {
        await_request(reader);
        match receive_sent(reader, &mut self.buffer, terms.limits.digests, &self.table) {
            Received::Pdu(header) => {
                let len = segment_len(&header) as usize;
                let pdu = PduRead {
                    header: &header,
                    fields: initiator_pdu(&header),
                    carried: &self.buffer[..len],
                };
                let answered = self
                    .tasks
                    .answer_arrival(writer, port, terms, &self.table, &pdu);
                result_of_answer(answered)
            }
            Received::Damaged(header) => {
                let digests = terms.limits.digests;
                let rejected = self
                    .tasks
                    .answer_damaged(writer, digests, &self.table, &header);
                result_of_answer(rejected)
            }
            Received::Nothing(reason) => {
                let pinged = self.ping_silent(reader, writer, terms, reason);
                result_of_ping(reason, pinged)
            }
        }
    }

    // Pings a peer that is silent between two PDUs. None: a read faulted for another reason, or memory ran out.
    fn ping_silent<R: Source, W: Sink>(
        &self,
        reader: &R,
        writer: &mut W,
        terms: &Terms<'_>,
        reason: ReceiveEnd,
    ) -> Option<Sent>
        ensures { session.MayPing terms.now.limits.digests self.now.session.flow reason (W.state writer.old) result
            (W.state writer.new) }
    {
        let flow = self.tasks.flow();
        let ping = ping_pdu(flow.free_tag(), flow.numbers());
        let digests = terms.limits.digests;
        match (reason, is_silent(reader)) {
            (ReceiveEnd::Idle, true) => {
                self.table.send(self.tasks.alloc(), writer, digests, &ping)
            }
            _ => None,
        }
    }
}

// Notes that the session waits for a PDU, so that its stream ends the wait once the peer is silent.
fn await_request<R: Source>(reader: &R) {
    if let Some(progress) = reader.progress() {
        progress.await_request();
    }
}

// Whether a read faulted only because the peer is silent.
fn is_silent<R: Source>(reader: &R) -> bool {
    match reader.progress() {
        Some(progress) => progress.take_silence(),
        None => false,
    }
}

// What becomes of the session where no PDU was read.
fn result_of_ping(reason: ReceiveEnd, pinged: Option<Sent>) -> PduResult
    ensures { result ≡ session.result_of_ping reason pinged }
{
    match pinged {
        Some(sent) => result_of_turn(TurnEnd::Next, sent),
        None => PduResult::Ended(FeatureEnd::Unread(reason)),
    }
}

// What becomes of the session after an answer.
fn result_of_answer(answered: Option<(TurnEnd, Sent)>) -> PduResult
    ensures { result ≡ session.result_of_answer answered }
{
    match answered {
        Some((turned, sent)) => result_of_turn(turned, sent),
        None => PduResult::Ended(FeatureEnd::NoMemory),
    }
}

fn result_of_turn(turned: TurnEnd, sent: Sent) -> PduResult
    ensures { result ≡ session.result_of_turn turned sent }
{
    match (turned, sent) {
        (_, Sent::Part(_)) => PduResult::Ended(FeatureEnd::Write),
        (TurnEnd::Next, Sent::Whole) => PduResult::Served,
        (TurnEnd::LoggedOut, Sent::Whole) => PduResult::Ended(FeatureEnd::LoggedOut),
        (TurnEnd::BrokenData, Sent::Whole) => PduResult::Ended(FeatureEnd::BrokenData),
        (TurnEnd::Rejected, Sent::Whole) => PduResult::Ended(FeatureEnd::Rejected),
        (TurnEnd::WrongData, Sent::Whole) => PduResult::Ended(FeatureEnd::WrongData),
    }
}
