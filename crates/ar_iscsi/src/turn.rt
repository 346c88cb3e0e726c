// A turn of the full feature phase: what a PDU of the initiator does, and the bytes that answer it. `Err`: an answer
// can't be allocated.
ghost use Rattle.std.specs.Prelude.{◌≡◌, ◌<◌, ◌≤◌, ◌+◌, ◌++◌, ◌^◌, true, [], IfOk, IfSome, IfNone, IsTrue, OnOk};
ghost use Rattle.std.specs.Prelude.{length, take};
ghost use Rattle.ar_frames.specs.Stream.{Sending};
ghost use Rattle.ar_iscsi.specs.Digest.{sent_by};
ghost use Rattle.ar_iscsi.specs.Management.{managed_bytes, managed_flow};
ghost use Rattle.ar_iscsi.specs.Turn as turn;
ghost use Rattle.ar_iscsi.specs.Flow.{received, reopened};
ghost use Rattle.ar_iscsi.specs.Task.{AsksFrom, Completes, GetsBusy, MayGive, SuitsData, most_in};
ghost use Rattle.ar_iscsi.specs.Targets.{targets_answer};

use crate::answer::Answer;
use crate::digest::{CrcTable, Digests};
use crate::flow::{Collecting, Flow};
use crate::management::drops_collected;
use crate::negotiation::Limits;
use crate::pdu_read::PduRead;
use crate::reaction::{
    COMMAND_NOT_SUPPORTED, PROTOCOL_ERROR, Reaction, to_logout, to_nop_out, to_text,
};
use crate::request::{InitiatorPdu, ScsiCommand, TaskManagement};
use crate::response::{NO_LUN, NO_TAG, TargetPdu};
use crate::targets::answer_targets;
use crate::task::{CommandStep, DataStep, ask, command_step, complete, data_step, most_in, refuse};
use crate::terms::Terms;
use crate::waiting_pdu::Early;
use ar_frames::{Port, Sent, Sink};
use bytes::Bytes;
use std::alloc::{AllocError, Global};
use std::marker::Model;
use std::mem;

/// How a turn leaves the session.
#[derive(Clone, Copy, Debug, PartialEq, Eq)]
pub enum TurnEnd {
    /// It goes on.
    Next,
    /// The initiator has logged out.
    LoggedOut,
    /// A WRITE's data came out of order.
    BrokenData,
    /// A PDU with a CmdSN was rejected.
    Rejected,
    /// A PDU was rejected whose data digest is wrong.
    WrongData,
}

/// A session's work on one PDU: its numbers, the data that it has collected for a WRITE, and the answer so far.
#[derive(Drop)]
pub(crate) struct Work {
    alloc: Global,
    flow: Flow,
    collected: Vec<u8>,
    out: Answer,
}

impl Model for Work {
    ghost use Rattle.ar_iscsi.specs.Turn.{TurnWork};

    ghost Value = { TurnWork };

    ghost view = { λ work. record {
      spot = record { flow = work.flow; bytes = work.collected.items };
      out = work.out;
    } };
}

impl Work {
    /// The work of a session with these numbers, which has collected nothing.
    pub(crate) fn new(alloc: Global, flow: Flow) -> Work
        ensures { result ≡ record { spot = record { flow = flow; bytes = [] }; out = [] } }
    {
        Work {
            alloc,
            flow,
            collected: Vec::new(alloc),
            out: Answer::new(alloc),
        }
    }

    pub(crate) fn alloc(&self) -> Global {
        self.alloc
    }

    pub(crate) fn flow(&self) -> Flow
        ensures { result ≡ self.now.spot.flow }
    {
        self.flow
    }

    /// Does what a PDU asks for, and puts the answer into `out`, which is empty before. `early` are the unsolicited
    /// data of a WRITE that came before its turn. `Err`: an answer can't be allocated, and the port may have done one
    /// command.
    pub(crate) fn take_turn<P: Port>(
        &mut self,
        port: &mut P,
        terms: &Terms<'_>,
        pdu: &PduRead<'_>,
        early: &Early,
    ) -> Result<TurnEnd, AllocError>
        requires logged { P.has_login port.old ≡ true }
        requires empty { self.old.out ≡ [] }
        ensures turn { IfOk result (λ ended. turn.FeatureTurn P.commands P.refuses terms.now.address.now
            terms.now.limits early.now pdu.now.fields pdu.now.header.now pdu.now.carried.now self.old.spot port.old
            self.new.out self.new.spot port.new ended) }
        ensures once { MayGive P.commands port.old port.new }
        ensures stays { P.has_login port.new ≡ true }
    {
        match pdu.fields {
            InitiatorPdu::ScsiCommand(command) => {
                let step = command_step(&self.flow, &terms.limits, &command, pdu.carried.len());
                self.command_turn(port, &terms.limits, &command, pdu, early, step)
            }
            InitiatorPdu::DataOut(data) => {
                let step = data_step(&self.flow, &data, self.collected.len(), pdu.carried.len());
                self.data_turn(port, &terms.limits, pdu.carried, step)
            }
            InitiatorPdu::NopOut(nop) => {
                let flow = self.flow.received(nop.immediate);
                let reaction = to_nop_out(&self.flow, &nop);
                self.react(terms, pdu, flow, reaction)
            }
            InitiatorPdu::Text(request) => {
                let flow = self.flow.received(request.immediate);
                let reaction = to_text(&self.flow, &request);
                self.react(terms, pdu, flow, reaction)
            }
            InitiatorPdu::Logout(request) => {
                let flow = self.flow.received(request.immediate);
                let reaction = to_logout(&self.flow, &request);
                self.react(terms, pdu, flow, reaction)
            }
            // (done when it was read)
            InitiatorPdu::TaskManagement(_) => Ok(TurnEnd::Next),
            InitiatorPdu::Login(_) => self.reject(pdu.header, PROTOCOL_ERROR),
            InitiatorPdu::Unknown(_) => self.reject(pdu.header, COMMAND_NOT_SUPPORTED),
        }
    }

    /// Sends a response in this state.
    pub(crate) fn respond(
        &mut self,
        flow: Flow,
        pdu: TargetPdu,
        segment: &[u8],
        end: TurnEnd,
    ) -> Result<TurnEnd, AllocError>
        requires empty { self.old.out ≡ [] }
        requires short { length segment.now < 2 ^ 24 }
        ensures { IfOk result (λ ended. turn.Responds flow pdu segment.now self.old.spot.bytes self.new.out
            self.new.spot ended end) }
    {
        self.out.put(pdu, flow.numbers(), segment)?;
        self.flow = flow.answered();
        Ok(end)
    }

    /// Counts a command that was dropped. No response tells the initiator of the room that it leaves in the window, so
    /// a NOP-In does: else an initiator whose window is full would wait for ever.
    pub(crate) fn count_dropped(&mut self) -> Result<TurnEnd, AllocError>
        requires { self.old.out ≡ [] }
        ensures { IfOk result (λ ended. turn.CountsDropped self.old.spot self.new.out self.new.spot ended) }
    {
        let flow = self.flow.received(false);
        let pdu = TargetPdu::NopIn {
            lun: NO_LUN,
            task_tag: NO_TAG,
        };
        self.out.put(pdu, flow.numbers(), &[])?;
        self.flow = flow;
        Ok(TurnEnd::Next)
    }

    /// Drops the WRITE whose data are collected, if it is meant by a request.
    pub(crate) fn drop_collected(&mut self, request: &TaskManagement)
        ensures flow { self.new.spot.flow ≡ managed_flow request.now self.old.spot.flow }
        ensures bytes { self.new.spot.bytes ≡ managed_bytes request.now self.old.spot.flow self.old.spot.bytes }
        ensures out { self.new.out ≡ self.old.out }
    {
        if drops_collected(request, self.flow.collecting) {
            self.flow = self.flow.reopened();
            self.collected.clear();
        }
    }

    /// Sends the answer with the digests that were agreed on. None: memory for it ran out, and nothing was written.
    pub(crate) fn send<W: Sink>(
        &self,
        writer: &mut W,
        digests: Digests,
        table: &CrcTable,
    ) -> Option<Sent>
        ensures sent { IfSome result (λ sent. Sending (W.state writer.old) (W.state writer.new)
            (sent_by digests self.now.out) sent) }
        ensures same { IfNone result (W.state writer.new ≡ W.state writer.old) }
    {
        self.out.send_with(self.alloc, writer, digests, table)
    }

    /// Empties the answer.
    pub(crate) fn clear(&mut self)
        ensures { self.new ≡ record { spot = self.old.spot; out = [] } }
    {
        self.out.clear();
    }

    // Rejects a PDU for a reason, with its header. It isn't counted, so that one with a CmdSN leaves a gap in front of
    // those that were sent after it: the session ends.
    fn reject(&mut self, header: &[u8; 48], reason: u8) -> Result<TurnEnd, AllocError>
        requires empty { self.old.out ≡ [] }
        ensures { IfOk result (λ ended. turn.IsRejected header.now reason self.old.spot self.new.out self.new.spot
            ended) }
    {
        let flow = self.flow;
        let end = rejected_end(header);
        self.respond(flow, TargetPdu::Reject { reason }, header, end)
    }

    // Answers a text request in this state.
    fn respond_text(
        &mut self,
        terms: &Terms<'_>,
        pdu: &PduRead<'_>,
        flow: Flow,
        response: TargetPdu,
    ) -> Result<TurnEnd, AllocError>
        requires empty { self.old.out ≡ [] }
        ensures { IfOk result (λ ended. turn.RespondsText pdu.now.header.now
            (targets_answer terms.now.address.now terms.now.limits.host pdu.now.carried.now)
            (most_in terms.now.limits) flow response self.old.spot self.new.out self.new.spot ended) }
    {
        let mut answer = Vec::new(self.alloc);
        answer_targets(&mut answer, terms.address, terms.limits.host, pdu.carried)?;
        if answer.len() <= most_in(&terms.limits) as usize {
            self.respond(flow, response, &answer, TurnEnd::Next)
        } else {
            self.reject(pdu.header, COMMAND_NOT_SUPPORTED)
        }
    }

    // Does what a request asks for that needs no port, by its reaction; `flow` counts the request.
    fn react(
        &mut self,
        terms: &Terms<'_>,
        pdu: &PduRead<'_>,
        flow: Flow,
        reaction: Reaction,
    ) -> Result<TurnEnd, AllocError>
        requires empty { self.old.out ≡ [] }
        ensures { IfOk result (λ ended. turn.ReactionTurn terms.now.address.now terms.now.limits pdu.now.header.now
            pdu.now.carried.now flow reaction self.old.spot self.new.out self.new.spot ended) }
    {
        match reaction {
            Reaction::Ignores => Ok(TurnEnd::Next),
            Reaction::Counts => {
                self.flow = flow;
                Ok(TurnEnd::Next)
            }
            Reaction::Answers(response) => self.respond(flow, response, &[], TurnEnd::Next),
            Reaction::Echoes(response) => self.echo(&terms.limits, flow, response, pdu.carried),
            Reaction::AnswersText(response) => self.respond_text(terms, pdu, flow, response),
            Reaction::Closes(response) => self.respond(flow, response, &[], TurnEnd::LoggedOut),
            Reaction::Rejects(reason) => self.reject(pdu.header, reason),
        }
    }

    // Sends a response that carries what the request did, as far as the initiator receives it.
    fn echo(
        &mut self,
        limits: &Limits,
        flow: Flow,
        pdu: TargetPdu,
        carried: &[u8],
    ) -> Result<TurnEnd, AllocError>
        requires empty { self.old.out ≡ [] }
        ensures { IfOk result (λ ended. turn.Responds flow pdu (take (most_in limits.now) carried.now)
            self.old.spot.bytes self.new.out self.new.spot ended TurnEnd.Next) }
    {
        let len = carried.len().min(most_in(limits) as usize);
        self.respond(flow, pdu, &carried[..len], TurnEnd::Next)
    }

    // Does what a command asks for by its step.
    fn command_turn<P: Port>(
        &mut self,
        port: &mut P,
        limits: &Limits,
        command: &ScsiCommand,
        pdu: &PduRead<'_>,
        early: &Early,
        step: CommandStep,
    ) -> Result<TurnEnd, AllocError>
        requires logged { P.has_login port.old ≡ true }
        requires empty { self.old.out ≡ [] }
        requires suits { SuitsData (length pdu.now.carried.now) step }
        ensures turn { IfOk result (λ ended. turn.CommandTurn P.commands P.refuses limits.now command.now early.now
            pdu.now.header.now pdu.now.carried.now step self.old.spot port.old self.new.out self.new.spot port.new
            ended) }
        ensures once { MayGive P.commands port.old port.new }
        ensures stays { P.has_login port.new ≡ true }
    {
        match step {
            CommandStep::Ignores => Ok(TurnEnd::Next),
            CommandStep::Rejects(reason) => self.reject(pdu.header, reason),
            CommandStep::Refuses => {
                let flow = self.flow.received(command.immediate);
                self.refuse_done(port, limits, flow, command, 0)
            }
            CommandStep::Runs { wanted } => {
                self.run_command(port, limits, command, &pdu.carried[..wanted as usize])
            }
            CommandStep::Collects { wanted } => {
                self.collect(port, limits, command, pdu.carried, wanted)
            }
            CommandStep::Awaits(c) => {
                let flow = self.flow.received(command.immediate);
                let c = early.collecting.unwrap_or(c);
                self.await_data(port, limits, flow, &c, pdu.carried, &early.bytes)
            }
        }
    }

    // Gives a command to the port with the data that it carries.
    fn run_command<P: Port>(
        &mut self,
        port: &mut P,
        limits: &Limits,
        command: &ScsiCommand,
        payload: &[u8],
    ) -> Result<TurnEnd, AllocError>
        requires logged { P.has_login port.old ≡ true }
        requires empty { self.old.out ≡ [] }
        ensures done { OnOk result (turn.IsDone P.commands P.refuses limits.now
            (received self.old.spot.flow command.now.immediate) command.now payload.now 0 port.old port.new
            self.new.out self.new.spot.flow) }
        ensures next { IfOk result (λ ended. ended ≡ TurnEnd.Next) }
        ensures once { MayGive P.commands port.old port.new }
        ensures stays { P.has_login port.new ≡ true }
    {
        let flow = self.flow.received(command.immediate);
        match shared_copy(self.alloc, payload) {
            Some(payload) => self.finish(port, limits, flow, command, payload, 0),
            None => self.refuse_done(port, limits, flow, command, 0),
        }
    }

    // Gives a command that is complete to the port, in this state.
    fn finish<P: Port>(
        &mut self,
        port: &mut P,
        limits: &Limits,
        flow: Flow,
        command: &ScsiCommand,
        payload: Bytes,
        asked: u32,
    ) -> Result<TurnEnd, AllocError>
        requires logged { P.has_login port.old ≡ true }
        requires empty { self.old.out ≡ [] }
        ensures done { OnOk result (Completes P.commands flow limits.now command.now payload asked port.old port.new []
            self.new.out self.new.spot.flow) }
        ensures next { IfOk result (λ ended. ended ≡ TurnEnd.Next) }
        ensures once { MayGive P.commands port.old port.new }
        ensures stays { P.has_login port.new ≡ true }
    {
        let after = complete(port, flow, limits, &mut self.out, command, payload, asked)?;
        self.flow = after;
        Ok(TurnEnd::Next)
    }

    // Has the port refuse a command, in this state.
    fn refuse_done<P: Port>(
        &mut self,
        port: &mut P,
        limits: &Limits,
        flow: Flow,
        command: &ScsiCommand,
        asked: u32,
    ) -> Result<TurnEnd, AllocError>
        requires logged { P.has_login port.old ≡ true }
        requires empty { self.old.out ≡ [] }
        ensures refused { OnOk result (GetsBusy P.refuses flow limits.now command.now asked port.old port.new []
            self.new.out self.new.spot.flow) }
        ensures next { IfOk result (λ ended. ended ≡ TurnEnd.Next) }
        ensures same { port.new ≡ port.old }
        ensures collected { self.new.spot.bytes ≡ self.old.spot.bytes }
    {
        let after = refuse(port, flow, limits, &mut self.out, command, asked)?;
        self.flow = after;
        Ok(TurnEnd::Next)
    }

    // Begins to collect a command's data: those that it carries, and those that the first R2T asks for.
    fn collect<P: Port>(
        &mut self,
        port: &mut P,
        limits: &Limits,
        command: &ScsiCommand,
        carried: &[u8],
        wanted: u32,
    ) -> Result<TurnEnd, AllocError>
        requires logged { P.has_login port.old ≡ true }
        requires empty { self.old.out ≡ [] }
        requires more { length carried.now < wanted }
        ensures starts { OnOk result (turn.StartsData P.refuses limits.now
            (received self.old.spot.flow command.now.immediate) command.now wanted carried.now port.old self.new.out
            self.new.spot port.new) }
        ensures next { IfOk result (λ ended. ended ≡ TurnEnd.Next) }
        ensures same { port.new ≡ port.old }
    {
        let flow = self.flow.received(command.immediate);
        if hold(&mut self.collected, carried, wanted as usize) {
            self.ask_for(limits, flow, command, wanted, carried.len() as u32, 0)
        } else {
            self.refuse_done(port, limits, flow, command, 0)
        }
    }

    // Goes on with a command that unsolicited data follow, in this state; `early` are those that came before its turn.
    fn await_data<P: Port>(
        &mut self,
        port: &mut P,
        limits: &Limits,
        flow: Flow,
        c: &Collecting,
        carried: &[u8],
        early: &[u8],
    ) -> Result<TurnEnd, AllocError>
        requires logged { P.has_login port.old ≡ true }
        requires empty { self.old.out ≡ [] }
        ensures awaits { OnOk result (turn.AwaitsData P.commands P.refuses limits.now c.now (carried.now ++ early.now)
            flow port.old self.new.out self.new.spot port.new) }
        ensures next { IfOk result (λ ended. ended ≡ TurnEnd.Next) }
        ensures once { MayGive P.commands port.old port.new }
        ensures stays { P.has_login port.new ≡ true }
    {
        let room = c.wanted.max(c.burst_end) as usize;
        if hold_both(&mut self.collected, carried, early, room) {
            self.flow = flow;
            self.take_all(port, limits, c)
        } else {
            self.refuse_done(port, limits, flow, &c.command, 0)
        }
    }

    // Asks for more data of a command, in this state.
    fn ask_for(
        &mut self,
        limits: &Limits,
        flow: Flow,
        command: &ScsiCommand,
        wanted: u32,
        have: u32,
        asked: u32,
    ) -> Result<TurnEnd, AllocError>
        requires empty { self.old.out ≡ [] }
        requires within { have ≤ wanted }
        ensures asks { OnOk result (AsksFrom flow limits.now command.now wanted have asked [] self.new.out
            self.new.spot.flow) }
        ensures next { IfOk result (λ ended. ended ≡ TurnEnd.Next) }
        ensures collected { self.new.spot.bytes ≡ self.old.spot.bytes }
    {
        let after = ask(flow, limits, &mut self.out, *command, wanted, have, asked)?;
        self.flow = after;
        Ok(TurnEnd::Next)
    }

    // Does what a Data-Out PDU asks for by its step; it carries `carried`.
    fn data_turn<P: Port>(
        &mut self,
        port: &mut P,
        limits: &Limits,
        carried: &[u8],
        step: DataStep,
    ) -> Result<TurnEnd, AllocError>
        requires logged { P.has_login port.old ≡ true }
        requires empty { self.old.out ≡ [] }
        ensures turn { IfOk result (λ ended. turn.DataTurn P.commands P.refuses limits.now carried.now step
            self.old.spot port.old self.new.out self.new.spot port.new ended) }
        ensures once { MayGive P.commands port.old port.new }
        ensures stays { P.has_login port.new ≡ true }
    {
        match step {
            DataStep::Ignores => Ok(TurnEnd::Next),
            DataStep::Breaks => Ok(TurnEnd::BrokenData),
            DataStep::Takes(c) => self.take_data(port, limits, &c, carried),
        }
    }

    // Takes the next data of a WRITE.
    fn take_data<P: Port>(
        &mut self,
        port: &mut P,
        limits: &Limits,
        c: &Collecting,
        carried: &[u8],
    ) -> Result<TurnEnd, AllocError>
        requires logged { P.has_login port.old ≡ true }
        requires empty { self.old.out ≡ [] }
        ensures takes { OnOk result (turn.TakesData P.commands P.refuses limits.now c.now
            (self.old.spot.bytes ++ carried.now) self.old.spot.flow port.old self.new.out self.new.spot port.new) }
        ensures next { IfOk result (λ ended. ended ≡ TurnEnd.Next) }
        ensures once { MayGive P.commands port.old port.new }
        ensures stays { P.has_login port.new ≡ true }
    {
        self.collected.extend_from_slice(carried)?;
        self.take_all(port, limits, c)
    }

    // Goes on with a WRITE whose data are in `collected` as far as they came.
    fn take_all<P: Port>(
        &mut self,
        port: &mut P,
        limits: &Limits,
        c: &Collecting,
    ) -> Result<TurnEnd, AllocError>
        requires logged { P.has_login port.old ≡ true }
        requires empty { self.old.out ≡ [] }
        ensures takes { OnOk result (turn.TakesData P.commands P.refuses limits.now c.now self.old.spot.bytes
            self.old.spot.flow port.old self.new.out self.new.spot port.new) }
        ensures next { IfOk result (λ ended. ended ≡ TurnEnd.Next) }
        ensures once { MayGive P.commands port.old port.new }
        ensures stays { P.has_login port.new ≡ true }
    {
        let have = self.collected.len();
        if have < c.burst_end as usize {
            self.flow = self.flow.awaiting(c);
            Ok(TurnEnd::Next)
        } else if have < c.wanted as usize {
            let flow = self.flow;
            self.ask_for(limits, flow, &c.command, c.wanted, have as u32, c.asked)
        } else {
            self.finish_collected(port, limits, c)
        }
    }

    // Gives a WRITE to the port with the data that were collected, as far as its block takes them.
    fn finish_collected<P: Port>(
        &mut self,
        port: &mut P,
        limits: &Limits,
        c: &Collecting,
    ) -> Result<TurnEnd, AllocError>
        requires logged { P.has_login port.old ≡ true }
        requires empty { self.old.out ≡ [] }
        ensures done { OnOk result (turn.IsDone P.commands P.refuses limits.now (reopened self.old.spot.flow)
            c.now.command (take c.now.wanted self.old.spot.bytes) c.now.asked port.old port.new self.new.out
            self.new.spot.flow) }
        ensures next { IfOk result (λ ended. ended ≡ TurnEnd.Next) }
        ensures once { MayGive P.commands port.old port.new }
        ensures stays { P.has_login port.new ≡ true }
    {
        let flow = self.flow.reopened();
        let alloc = self.alloc;
        let mut collected = mem::replace(&mut self.collected, Vec::new(alloc));
        collected.truncate(c.wanted as usize);
        match shared(collected) {
            Some(payload) => self.finish(port, limits, flow, &c.command, payload, c.asked),
            None => self.refuse_done(port, limits, flow, &c.command, c.asked),
        }
    }
}

// How a session goes on after a Reject.
fn rejected_end(header: &[u8; 48]) -> TurnEnd
    ensures { result ≡ turn.rejected_end header.now }
{
    let code = header[0] % 128;
    let is_numbered = code == 0x00 || code == 0x01 || code == 0x02 || code == 0x04 || code == 0x06;
    if is_numbered {
        TurnEnd::Rejected
    } else {
        TurnEnd::Next
    }
}

// The data in a buffer of their own. None: the allocation failed.
pub(crate) fn shared_copy(alloc: Global, payload: &[u8]) -> Option<Bytes>
    ensures same { IfSome result (λ bytes. bytes ≡ payload.now) }
    ensures some { IfNone result (0 < length payload.now) }
{
    if payload.is_empty() {
        return Some(Bytes::new());
    }
    Bytes::copy_from_slice(alloc, payload).ok()
}

// Makes `into` hold these bytes, with room for `len` in all. False: the allocation failed.
fn hold(into: &mut Vec<u8>, bytes: &[u8], len: usize) -> bool
    ensures { IsTrue result → into.new.items ≡ bytes.now }
{
    into.clear();
    if into.reserve_exact(len).is_err() {
        return false;
    }
    into.extend_from_slice(bytes).is_ok()
}

// Makes `into` hold these bytes and more, with room for `len` in all. False: the allocation failed.
fn hold_both(into: &mut Vec<u8>, bytes: &[u8], more: &[u8], len: usize) -> bool
    ensures { IsTrue result → into.new.items ≡ bytes.now ++ more.now }
{
    hold(into, bytes, len) && into.extend_from_slice(more).is_ok()
}

// Makes the bytes of a vector shareable. None: the allocation failed.
pub(crate) fn shared(bytes: Vec<u8>) -> Option<Bytes>
    ensures same { IfSome result (λ shared. shared ≡ bytes.items) }
    ensures some { IfNone result (0 < length bytes.items) }
{
    if bytes.is_empty() {
        return Some(Bytes::new());
    }
    match Bytes::from_vec(bytes) {
        Ok(shared) => Some(shared),
        Err(_) => None,
    }
}
