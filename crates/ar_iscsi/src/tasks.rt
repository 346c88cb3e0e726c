// The tasks of a session: the one at hand, and the PDUs that wait for it. Each is done in its turn, and answered.
ghost use Rattle.std.specs.Prelude.{◌≡◌, true, [], IfNone, IfOk, IfSome};
ghost use Rattle.ar_iscsi.specs.Arrival.{ArrivalTurn, MayUse};
ghost use Rattle.ar_iscsi.specs.Phase.{AnswersPdu};
ghost use Rattle.ar_iscsi.specs.Request.{initiator_pdu};
ghost use Rattle.ar_iscsi.specs.Session as session;
ghost use Rattle.ar_iscsi.specs.Task.{MayGive};

use crate::digest::{CrcTable, Digests};
use crate::flow::Flow;
use crate::pdu_read::PduRead;
use crate::reaction::DATA_DIGEST_ERROR;
use crate::request::word;
use crate::response::TargetPdu;
use crate::terms::Terms;
use crate::turn::{TurnEnd, Work};
use crate::waiting::is_next_waiting;
use crate::waiting_pdu::{WaitingPdu, WaitingState};
use ar_frames::{Port, Sent, Sink};
use ar_target::ResetPort;
use std::alloc::{AllocError, Global};
use std::marker::Model;

/// The tasks of a session, and the answer to the one at hand.
#[derive(Drop)]
pub(crate) struct Tasks {
    pub work: Work,
    // The PDUs that wait for the data of a WRITE, the oldest first.
    pub waiting: Vec<WaitingPdu>,
}

impl Model for Tasks {
    ghost use Rattle.ar_iscsi.specs.Arrival.{FeatureWork};

    ghost Value = { FeatureWork };

    ghost view = { λ tasks. record {
      spot = record { session = tasks.work.spot; waiting = tasks.waiting.items };
      out = tasks.work.out;
    } };
}

impl Tasks {
    /// No tasks, in a session with these numbers.
    pub(crate) fn new(alloc: Global, flow: Flow) -> Tasks
        ensures { result ≡ record {
          spot = record { session = record { flow = flow; bytes = [] }; waiting = [] };
          out = [];
        } }
    {
        Tasks {
            work: Work::new(alloc, flow),
            waiting: Vec::new(alloc),
        }
    }

    pub(crate) fn alloc(&self) -> Global {
        self.work.alloc()
    }

    pub(crate) fn flow(&self) -> Flow
        ensures { result ≡ self.now.spot.session.flow }
    {
        self.work.flow()
    }

    /// Takes the oldest PDU that waits, if no data are collected.
    pub(crate) fn take_waiting(&mut self) -> Option<WaitingPdu>
        ensures takes { session.TakesWaiting self.old.spot.session.flow self.old.spot.waiting result
            self.new.spot.waiting }
        ensures session { self.new.spot.session ≡ self.old.spot.session }
        ensures out { self.new.out ≡ self.old.out }
        ensures same { IfNone result (self.new ≡ self.old) }
    {
        if is_next_waiting(&self.work.flow(), &self.waiting) {
            Some(self.waiting.remove(0))
        } else {
            None
        }
    }

    /// Does what a PDU that was read asks for, and writes the answer. None: memory for it ran out.
    pub(crate) fn answer_arrival<W: Sink, P: ResetPort>(
        &mut self,
        writer: &mut W,
        port: &mut P,
        terms: &Terms<'_>,
        table: &CrcTable,
        pdu: &PduRead<'_>,
    ) -> Option<(TurnEnd, Sent)>
        requires logged { P.has_login port.old ≡ true }
        requires empty { self.old.out ≡ [] }
        requires decoded { pdu.now.fields ≡ initiator_pdu pdu.now.header.now }
        ensures answers { AnswersPdu terms.now.limits.digests
            (ArrivalTurn P.commands P.refuses P.resets terms.now.address.now terms.now.limits)
            (MayUse P.commands P.resets) pdu.now.header.now pdu.now.carried.now (W.state writer.old) self.old.spot
            port.old result (W.state writer.new) self.new.spot port.new }
        ensures stays { P.has_login port.new ≡ true }
        ensures emptied { self.new.out ≡ [] }
    {
        match self.take_arrival(port, terms, pdu) {
            Ok(turned) => {
                let sent = self.work.send(writer, terms.limits.digests, table);
                self.work.clear();
                Some((turned, sent?))
            }
            Err(_) => {
                self.work.clear();
                None
            }
        }
    }

    /// Does what a PDU that waited asks for, and writes the answer. None: memory for it ran out.
    pub(crate) fn answer_waiting<W: Sink, P: Port>(
        &mut self,
        writer: &mut W,
        port: &mut P,
        terms: &Terms<'_>,
        table: &CrcTable,
        pdu: &WaitingPdu,
    ) -> Option<(TurnEnd, Sent)>
        requires logged { P.has_login port.old ≡ true }
        requires empty { self.old.out ≡ [] }
        ensures answers { AnswersPdu terms.now.limits.digests
            (session.WaitingTurn P.commands P.refuses terms.now.address.now terms.now.limits pdu.now.state
            pdu.now.early pdu.now.fields)
            (MayGive P.commands) pdu.now.header pdu.now.carried (W.state writer.old) self.old.spot.session port.old
            result (W.state writer.new) self.new.spot.session port.new }
        ensures waiting { self.new.spot.waiting ≡ self.old.spot.waiting }
        ensures stays { P.has_login port.new ≡ true }
        ensures emptied { self.new.out ≡ [] }
    {
        match self.turn_waiting(port, terms, pdu) {
            Ok(turned) => {
                let sent = self.work.send(writer, terms.limits.digests, table);
                self.work.clear();
                Some((turned, sent?))
            }
            Err(_) => {
                self.work.clear();
                None
            }
        }
    }

    /// Rejects a PDU whose data digest is wrong. It does nothing else, and isn't counted: at ErrorRecoveryLevel 0 the
    /// session ends. None: memory for the Reject ran out, and nothing was written.
    pub(crate) fn answer_damaged<W: Sink>(
        &mut self,
        writer: &mut W,
        digests: Digests,
        table: &CrcTable,
        header: &[u8; 48],
    ) -> Option<(TurnEnd, Sent)>
        requires empty { self.old.out ≡ [] }
        ensures rejects { IfSome result (λ answered. session.RejectsDamaged digests header.now self.old.spot
            (W.state writer.old) self.new.spot (W.state writer.new) answered.0 answered.1) }
        ensures same { IfNone result (W.state writer.new ≡ W.state writer.old) }
        ensures emptied { self.new.out ≡ [] }
    {
        let flow = self.work.flow();
        let reject = TargetPdu::Reject {
            reason: DATA_DIGEST_ERROR,
        };
        match self.work.respond(flow, reject, header, TurnEnd::WrongData) {
            Ok(turned) => {
                let sent = self.work.send(writer, digests, table);
                self.work.clear();
                Some((turned, sent?))
            }
            Err(_) => {
                self.work.clear();
                None
            }
        }
    }

    // Does what is left to do with a PDU that waited.
    fn turn_waiting<P: Port>(
        &mut self,
        port: &mut P,
        terms: &Terms<'_>,
        pdu: &WaitingPdu,
    ) -> Result<TurnEnd, AllocError>
        requires logged { P.has_login port.old ≡ true }
        requires empty { self.old.out ≡ [] }
        ensures turn { IfOk result (λ ended. session.WaitingTurn P.commands P.refuses terms.now.address.now
            terms.now.limits pdu.now.state pdu.now.early pdu.now.fields pdu.now.header pdu.now.carried
            self.old.spot.session port.old self.new.out self.new.spot.session port.new ended) }
        ensures waiting { self.new.spot.waiting ≡ self.old.spot.waiting }
        ensures once { MayGive P.commands port.old port.new }
        ensures stays { P.has_login port.new ≡ true }
    {
        match pdu.state {
            WaitingState::Undone => {
                let read = PduRead {
                    header: &pdu.header,
                    fields: pdu.fields,
                    carried: pdu.carried.as_slice(),
                };
                self.work.take_turn(port, terms, &read, &pdu.early)
            }
            WaitingState::Dropped => self.work.count_dropped(),
            WaitingState::Answered(response) => {
                let flow = self.work.flow().received(false);
                let response = TargetPdu::TaskManagementResponse {
                    task_tag: word(&pdu.header, 4),
                    response,
                };
                self.work.respond(flow, response, &[], TurnEnd::Next)
            }
        }
    }
}
