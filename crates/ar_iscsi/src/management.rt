// Task management: which commands a request means, what it does, and its response. A request is done when it is read,
// since it may mean the WRITE whose data would have to come first.
ghost use Rattle.std.specs.Prelude.{◌≡◌, ◌==◌, true, map};
ghost use Rattle.std.specs.List.{list_any};
ghost use Rattle.ar_iscsi.specs.Arrival.{ManagesTasks, MayUse};
ghost use Rattle.ar_iscsi.specs.Management as rule;

use crate::flow::{Collecting, Flow, lun_number};
use crate::request::{InitiatorPdu, Lun, ScsiCommand, TaskManagement};
use crate::tasks::Tasks;
use crate::waiting_pdu::{WaitingPdu, WaitingState};
use ar_target::{ResetOutcome, ResetPort};

impl Tasks {
    /// Drops the commands that a task management request means, resets its units, and returns its response.
    pub(crate) fn manage_tasks<P: ResetPort>(
        &mut self,
        port: &mut P,
        request: &TaskManagement,
    ) -> u8
        requires logged { P.has_login port.old ≡ true }
        ensures manages { ManagesTasks P.resets request.now self.old.spot port.old self.new.spot port.new result }
        ensures once { MayUse P.commands P.resets port.old port.new }
        ensures stays { P.has_login port.new ≡ true }
        ensures out { self.new.out ≡ self.old.out }
    {
        let is_there = means_one(request, &self.work.flow(), &self.waiting);
        drop_waiting(request, &mut self.waiting);
        self.work.drop_collected(request);
        let outcome = reset_units(request, port);
        response_to(request, is_there, outcome)
    }
}

// Whether a request means a command that is there.
fn means_one(request: &TaskManagement, flow: &Flow, waiting: &[WaitingPdu]) -> bool
    ensures { result ≡ rule.means_one request.now flow.now waiting.now }
{
    drops_collected(request, flow.collecting) || drops_one(request, waiting)
}

// Whether a request means one of those that wait.
fn drops_one(request: &TaskManagement, waiting: &[WaitingPdu]) -> bool
    ensures { result ≡ list_any (rule.drops request.now) waiting.now }
{
    let mut is_there = false;
    for pdu in waiting {
        is_there = is_there || drops(request, pdu);
    }
    is_there
}

// Drops the commands that wait and are meant by a request.
fn drop_waiting(request: &TaskManagement, waiting: &mut Vec<WaitingPdu>)
    ensures { waiting.new.items ≡ map (rule.managed_by request.now) waiting.old.items }
{
    for pdu in waiting.iter_mut() {
        manage(request, pdu);
    }
}

// Drops a command if it is meant by a request.
fn manage(request: &TaskManagement, pdu: &mut WaitingPdu)
    ensures { pdu.new ≡ rule.managed_by request.now pdu.old }
{
    if drops(request, pdu) {
        pdu.state = WaitingState::Dropped;
    }
}

/// Whether a request means the WRITE whose data are collected.
pub(crate) fn drops_collected(request: &TaskManagement, collecting: Option<Collecting>) -> bool
    ensures { result ≡ rule.drops_collected request.now collecting }
{
    match collecting {
        Some(c) => means(request, &c.command),
        None => false,
    }
}

// Whether a request means a command that waits.
fn drops(request: &TaskManagement, pdu: &WaitingPdu) -> bool
    ensures { result ≡ rule.drops request.now pdu.now }
{
    match &pdu.fields {
        InitiatorPdu::ScsiCommand(command) => means(request, command),
        _ => false,
    }
}

// Whether a request means this command: by its task tag, by its unit, or as every command.
fn means(request: &TaskManagement, command: &ScsiCommand) -> bool
    ensures { result ≡ rule.means request.now command.now }
{
    match request.function {
        1 => command.task_tag == request.referenced_tag,
        2 | 4 | 5 => same_unit(command.lun, request.lun),
        6 => true,
        _ => false,
    }
}

// Whether two LUNs address the same unit.
fn same_unit(lun: Lun, other: Lun) -> bool
    ensures { result ≡ rule.same_unit lun other }
{
    (lun.high == other.high && lun.low == other.low)
        || same_number(lun_number(lun), lun_number(other))
}

fn same_number(lun: Option<u8>, other: Option<u8>) -> bool
    ensures { result ≡ rule.same_number lun other }
{
    match (lun, other) {
        (Some(lun), Some(other)) => lun == other,
        _ => false,
    }
}

// Resets what a request asks for: a unit, all units of the host, or nothing.
fn reset_units<P: ResetPort>(request: &TaskManagement, port: &mut P) -> ResetOutcome
    requires logged { P.has_login port.old ≡ true }
    ensures resets { rule.ResetsAtPort P.resets request.now port.old result port.new }
    ensures once { MayUse P.commands P.resets port.old port.new }
    ensures stays { P.has_login port.new ≡ true }
{
    match request.function {
        5 => reset_number(lun_number(request.lun), port),
        6 => port.reset(None),
        _ => ResetOutcome::Done,
    }
}

// Resets the unit of this number; a LUN of another form has none.
fn reset_number<P: ResetPort>(lun: Option<u8>, port: &mut P) -> ResetOutcome
    requires logged { P.has_login port.old ≡ true }
    ensures resets { rule.ResetsNumber P.resets lun port.old result port.new }
    ensures once { MayUse P.commands P.resets port.old port.new }
    ensures stays { P.has_login port.new ≡ true }
{
    match lun {
        Some(lun) => port.reset(Some(lun)),
        None => ResetOutcome::NoUnit,
    }
}

// The response to a request, by whether it means a command that is there, and the outcome of its reset.
fn response_to(request: &TaskManagement, is_there: bool, outcome: ResetOutcome) -> u8
    ensures { result ≡ rule.response_to request.now is_there outcome }
{
    match request.function {
        1 if is_there => 0,
        1 => 1,
        2 | 4 => 0,
        5 | 6 => reset_response(outcome),
        8 => 4,
        3 | 7 => 5,
        _ => 255,
    }
}

fn reset_response(outcome: ResetOutcome) -> u8
    ensures { result ≡ rule.reset_response outcome }
{
    match outcome {
        ResetOutcome::Done => 0,
        ResetOutcome::NoUnit => 2,
    }
}
