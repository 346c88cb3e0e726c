// The UNIT ATTENTION of a new session or a reset, and of a change of the host's units: each unit reports it once, to
// the first command that isn't exempt. A reset is reported before a change, and its report covers a change that is due
// too; REPORT LUNS covers a change at all units.
ghost use Rattle.std.specs.Prelude.{◌≡◌, ◌<◌, false, true, slice_set};
ghost use Rattle.ar_frames.specs.Frame.{IsReply};
ghost use Rattle.ar_target.specs.Attention as attention;

use crate::own_commands::{INQUIRY, ask, cut_reply, handed_on, presence};
use crate::request::Request;
use ar_disks::MAX_LUN;
use ar_frames::Port;
use ar_scsi::{Reply, Sense, Status, sense18};
use std::alloc::Global;

/// UNIT ATTENTION, POWER ON, RESET, OR BUS DEVICE RESET OCCURRED.
pub const RESET_OCCURRED: Sense = Sense {
    key: 0x06,
    asc: 0x29,
    ascq: 0x00,
};

/// UNIT ATTENTION, REPORTED LUNS DATA HAS CHANGED.
pub const LUNS_CHANGED: Sense = Sense {
    key: 0x06,
    asc: 0x3F,
    ascq: 0x0E,
};

/// What the units of a session have yet to report.
#[derive(Drop)]
pub(crate) struct Pending {
    /// For LUNs 0 to 7, whether the unit hasn't reported yet that the session is new, or a reset.
    pub resets: [bool; 8],
    /// For LUNs 0 to 7, whether the unit hasn't reported yet that the inventory of the host's units has changed.
    pub changes: [bool; 8],
    /// How often it had changed when the session looked last.
    pub seen: u64,
}

/// What came of a report that was due.
#[derive(Drop)]
pub(crate) enum Report {
    /// It was made by this reply.
    Made(Reply),
    /// It is still due, and this reply is the answer.
    Due(Reply),
    /// There is no unit at this LUN.
    NoUnit,
}

/// What the units of a new session have to report, where the inventory has changed `count` times so far.
pub(crate) fn of_new_session(count: u64) -> Pending
    ensures { result ≡ attention.of_new_session count }
{
    Pending {
        resets: [true; 8],
        changes: [false; 8],
        seen: count,
    }
}

/// Each unit has to report that the inventory has changed, unless the session has seen this count.
pub(crate) fn look(pending: &mut Pending, count: u64)
    ensures { pending.new ≡ attention.looked pending.old count }
{
    if count != pending.seen {
        pending.changes = [true; 8];
        pending.seen = count;
    }
}

/// Whether a command at `lun` has to make a report, if there is a unit.
pub(crate) fn owes_report(pending: &Pending, lun: u8, request: Request, cdb: &[u8; 16]) -> bool
    ensures { result ≡ attention.owes_report pending.now lun request cdb.now }
{
    (is_marked(&pending.resets, lun) || is_marked(&pending.changes, lun)) && reports(request, cdb)
}

/// What the unit at `lun` reports first, if it has to.
pub(crate) fn sense_due(pending: &Pending, lun: u8) -> Sense
    ensures { result ≡ attention.sense_due pending.now lun }
{
    if is_marked(&pending.resets, lun) {
        RESET_OCCURRED
    } else {
        LUNS_CHANGED
    }
}

// Whether a LUN is marked.
fn is_marked(marks: &[bool; 8], lun: u8) -> bool
    ensures { result ≡ attention.is_marked marks.now lun }
{
    match marks.get(usize::from(lun)) {
        Some(is_marked) => *is_marked,
        None => false,
    }
}

// Whether a request reports a UNIT ATTENTION.
fn reports(request: Request, cdb: &[u8; 16]) -> bool
    ensures { result ≡ attention.reports request cdb.now }
{
    match request {
        Request::Given => cdb[0] != 0x12,
        Request::StandardData { .. } => false,
        Request::InvalidAtTarget(_) => false,
        Request::Vpd { .. } => false,
        Request::ReportLuns { .. } => false,
        Request::ReportWellKnown { .. } => false,
        _ => true,
    }
}

/// The unit at `lun` has to report a reset.
pub(crate) fn make_due(pending: &mut Pending, lun: u8)
    ensures { pending.new ≡ attention.due pending.old lun }
{
    if lun <= MAX_LUN {
        pending.resets[usize::from(lun)] = true;
    }
}

/// Each unit has to report a reset.
pub(crate) fn make_all_due(pending: &mut Pending)
    ensures { pending.new ≡ attention.all_due pending.old }
{
    pending.resets = [true; 8];
}

/// The unit at `lun` has made its report.
pub(crate) fn settle(pending: &mut Pending, lun: u8)
    ensures { pending.new ≡ attention.settled pending.old lun }
{
    unmark(&mut pending.resets, lun);
    unmark(&mut pending.changes, lun);
}

// Takes the mark of a LUN away.
fn unmark(marks: &mut [bool; 8], lun: u8)
    ensures { marks.new ≡ attention.without_mark marks.old lun }
{
    if lun <= MAX_LUN {
        marks[usize::from(lun)] = false;
    }
}

/// A command was answered: a REPORT LUNS that is GOOD has shown the inventory as it is.
pub(crate) fn see_reply(pending: &mut Pending, request: Request, status: Status)
    ensures { pending.new ≡ attention.after_reply pending.old request status }
{
    if shows_inventory(request, status) {
        pending.changes = [false; 8];
    }
}

// Whether a command with this status has shown the inventory of the host's units.
fn shows_inventory(request: Request, status: Status) -> bool
    ensures { result ≡ attention.shows_inventory request status }
{
    match (request, status) {
        (Request::ReportLuns { .. } | Request::ReportWellKnown { .. }, Status::Good) => true,
        _ => false,
    }
}

/// Reports `sense` if the port states that there is a unit at `lun`. The port is asked by an INQUIRY, which leaves the
/// unit's own UNIT ATTENTION pending.
pub(crate) fn make_report<P: Port>(
    alloc: Global,
    port: &mut P,
    lun: u8,
    request: Request,
    sense: Sense,
) -> Report
    requires { P.has_login port.old ≡ true }
    ensures attempts { attention.AttemptsReport P.commands port.old lun request sense result port.new }
    ensures reply { attention.HasReply result }
    ensures stays { P.has_login port.new ≡ true }
{
    let own_reply = ask(port, lun, &INQUIRY);
    match presence(&own_reply) {
        Some(true) => report_of_unit(alloc, request, sense),
        Some(false) => Report::NoUnit,
        None => Report::Due(handed_on(own_reply)),
    }
}

// The report, or BUSY if out of memory for the data of a REQUEST SENSE.
fn report_of_unit(alloc: Global, request: Request, sense: Sense) -> Report
    ensures report { attention.IsReport request sense result }
    ensures reply { attention.HasReply result }
{
    let Request::RequestSense { len } = request else {
        return Report::Made(Reply::check(sense));
    };
    let reply = cut_reply(alloc, &sense18(sense), usize::from(len));
    match reply.status {
        Status::Busy => Report::Due(reply),
        Status::Good | Status::CheckCondition => Report::Made(reply),
    }
}
