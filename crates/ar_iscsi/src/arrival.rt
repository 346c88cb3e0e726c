// A PDU that was read: it waits while the data of a WRITE before it are collected, and is done otherwise. A task
// management request is done at once, and its response waits.
ghost use Rattle.std.specs.Prelude.{◌≡◌, true, [], IfOk, length};
ghost use Rattle.ar_iscsi.specs.Arrival as arrival;
ghost use Rattle.ar_iscsi.specs.Waiting.{waits};

use crate::early::{gather_early, has_broken, has_early};
use crate::negotiation::Limits;
use crate::pdu_read::PduRead;
use crate::request::{DataOut, InitiatorPdu, TaskManagement};
use crate::response::TargetPdu;
use crate::tasks::Tasks;
use crate::terms::Terms;
use crate::turn::TurnEnd;
use crate::waiting::{keep, no_early, waits};
use crate::waiting_pdu::WaitingState;
use ar_target::ResetPort;
use std::alloc::AllocError;

impl Tasks {
    /// Does what a PDU that was read asks for, or keeps it until the data of a WRITE before it have come. The answer is
    /// put into `out`, which is empty before. `Err`: memory ran out, and the port may have done one command, or have
    /// reset units.
    pub(crate) fn take_arrival<P: ResetPort>(
        &mut self,
        port: &mut P,
        terms: &Terms<'_>,
        pdu: &PduRead<'_>,
    ) -> Result<TurnEnd, AllocError>
        requires logged { P.has_login port.old ≡ true }
        requires empty { self.old.out ≡ [] }
        ensures turn { IfOk result (λ ended. arrival.ArrivalFor P.commands P.refuses P.resets terms.now.address.now
            terms.now.limits pdu.now.header.now pdu.now.carried.now pdu.now.fields
            (waits self.old.spot.session.flow (length self.old.spot.waiting) pdu.now.fields) self.old.spot port.old
            self.new.out self.new.spot port.new ended) }
        ensures once { arrival.MayUse P.commands P.resets port.old port.new }
        ensures stays { P.has_login port.new ≡ true }
    {
        let is_after = waits(&self.work.flow(), self.waiting.len(), &pdu.fields);
        if let InitiatorPdu::TaskManagement(request) = pdu.fields {
            return self.take_management(port, pdu, &request, is_after);
        }
        if let InitiatorPdu::DataOut(data) = pdu.fields {
            if has_early(&self.waiting, &terms.limits, &data, pdu.carried.len()) {
                return self.take_early(&terms.limits, &data, pdu.carried);
            }
        }
        if is_after {
            keep(
                &mut self.waiting,
                self.work.alloc(),
                pdu,
                WaitingState::Undone,
            )?;
            return Ok(TurnEnd::Next);
        }
        self.work.take_turn(port, terms, pdu, &no_early())
    }

    // Keeps unsolicited data of a WRITE that waits, if they are its next ones.
    fn take_early(
        &mut self,
        limits: &Limits,
        data: &DataOut,
        carried: &[u8],
    ) -> Result<TurnEnd, AllocError>
        ensures ends { IfOk result (λ ended. arrival.EarlyEnd limits.now data.now carried.now self.old.spot.waiting
            self.new.spot.waiting ended) }
        ensures session { self.new.spot.session ≡ self.old.spot.session }
        ensures out { self.new.out ≡ self.old.out }
    {
        if has_broken(&self.waiting, limits, data, carried.len()) {
            return Ok(TurnEnd::BrokenData);
        }
        gather_early(&mut self.waiting, self.work.alloc(), limits, data, carried)?;
        Ok(TurnEnd::Next)
    }

    // Does what a task management request asks for that was read. `is_after`: it is the next in CmdSN's order after
    // those that wait, so that its response waits, too.
    fn take_management<P: ResetPort>(
        &mut self,
        port: &mut P,
        pdu: &PduRead<'_>,
        request: &TaskManagement,
        is_after: bool,
    ) -> Result<TurnEnd, AllocError>
        requires logged { P.has_login port.old ≡ true }
        requires empty { self.old.out ≡ [] }
        requires fields { pdu.now.fields ≡ InitiatorPdu.TaskManagement request.now }
        ensures turn { IfOk result (λ ended. arrival.ManagementTurn P.resets pdu.now.header.now pdu.now.carried.now
            request.now is_after self.old.spot port.old self.new.out self.new.spot port.new ended) }
        ensures once { arrival.MayUse P.commands P.resets port.old port.new }
        ensures stays { P.has_login port.new ≡ true }
    {
        if is_after {
            return self.answer_later(port, pdu, request);
        }
        if self.work.flow().accepts(request.immediate, request.cmd_sn) {
            return self.answer_now(port, request);
        }
        Ok(TurnEnd::Next)
    }

    // Does what a task management request asks for, and keeps its response after those that wait.
    fn answer_later<P: ResetPort>(
        &mut self,
        port: &mut P,
        pdu: &PduRead<'_>,
        request: &TaskManagement,
    ) -> Result<TurnEnd, AllocError>
        requires logged { P.has_login port.old ≡ true }
        requires empty { self.old.out ≡ [] }
        requires fields { pdu.now.fields ≡ InitiatorPdu.TaskManagement request.now }
        ensures turn { IfOk result (λ ended. arrival.AnswersLater P.resets pdu.now.header.now pdu.now.carried.now
            request.now self.old.spot port.old self.new.out self.new.spot port.new ended) }
        ensures once { arrival.MayUse P.commands P.resets port.old port.new }
        ensures stays { P.has_login port.new ≡ true }
    {
        let response = self.manage_tasks(port, request);
        let state = WaitingState::Answered(response);
        keep(&mut self.waiting, self.work.alloc(), pdu, state)?;
        Ok(TurnEnd::Next)
    }

    // Does what a task management request asks for, and sends its response.
    fn answer_now<P: ResetPort>(
        &mut self,
        port: &mut P,
        request: &TaskManagement,
    ) -> Result<TurnEnd, AllocError>
        requires logged { P.has_login port.old ≡ true }
        requires empty { self.old.out ≡ [] }
        ensures turn { IfOk result (λ ended. arrival.AnswersNow P.resets request.now self.old.spot port.old
            self.new.out self.new.spot port.new ended) }
        ensures once { arrival.MayUse P.commands P.resets port.old port.new }
        ensures stays { P.has_login port.new ≡ true }
    {
        let response = self.manage_tasks(port, request);
        let flow = self.work.flow().received(request.immediate);
        let pdu = TargetPdu::TaskManagementResponse {
            task_tag: request.task_tag,
            response,
        };
        self.work.respond(flow, pdu, &[], TurnEnd::Next)
    }
}
