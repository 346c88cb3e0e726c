// What each call adds to the counts: the rule is written out by hand, and no row reads it from the array.
use crate::rig::{Play, Rig, plays};
use ar_scsi::Status;
use ar_served::{Counts, HostCounts, OperationCounts, ReplyCounts};
use std::process::Abort;
use std::sync::ledger::Ledger;
use test_support::{Call, FOUR_GROUPS, Shape, Work, event};

/// What a call adds.
#[derive(Clone, Copy, Debug)]
pub enum Added {
    Nothing,
    /// A command of a host: its kind, the status of its reply, the bytes of the reply, and those of its data-out.
    Command(u8, Kind, Status, u64, u64),
    /// A step of maintenance.
    Step(Work),
}

/// Which replies a command is counted with.
#[derive(Clone, Copy, Debug)]
pub enum Kind {
    Ready,
    Inquiry,
    Capacity,
    Read,
    Write,
    Other,
}

/// A call, and what it adds.
pub type Count = (Call, Added);

const INQUIRY: [u8; 10] = [0x12, 0, 0, 0, 5, 0, 0, 0, 0, 0];

const READ_CAPACITY: [u8; 10] = [0x25, 0, 0, 0, 0, 0, 0, 0, 0, 0];

// READ (10) and WRITE (10) of no sectors, this one with bits that no unit knows (WRPROTECT).
const READ_NONE: [u8; 10] = [0x28, 0, 0, 0, 0, 0, 0, 0, 0, 0];

const WRITE_PROTECTED: [u8; 10] = [0x2A, 0x20, 0, 0, 0, 0, 0, 0, 0, 0];

// The first half of READ (16) of no sectors, and of WRITE (16).
const READ_16: [u8; 10] = [0x88, 0, 0, 0, 0, 0, 0, 0, 0, 0];

const WRITE_16: [u8; 10] = [0x8A, 0, 0, 0, 0, 0, 0, 0, 0, 0];

// REPORT LUNS.
const UNKNOWN: [u8; 10] = [0xA0, 0, 0, 0, 0, 0, 0, 0, 0, 0];

/// Four groups, behind a cache of four blocks.
const CACHED: Shape = Shape {
    cache: 4,
    ..FOUR_GROUPS
};

#[test]
fn commands_are_counted_by_host(rt: HostRuntime) {
    let (good, check) = (Status::Good, Status::CheckCondition);
    let rows = [
        (Call::Make(0, 0, 4), Added::Nothing),
        (Call::Make(3, 1, 4), Added::Nothing),
        (
            Call::Write(0, 0, 1, 1, 0xAA),
            Added::Command(0, Kind::Write, good, 0, 512),
        ),
        (
            Call::Force(3, 1, 0, 2, 0xAB),
            Added::Command(3, Kind::Write, good, 0, 1024),
        ),
        // Past the unit's end nothing is accepted.
        (
            Call::Write(0, 0, 3, 2, 0xAC),
            Added::Command(0, Kind::Write, check, 0, 0),
        ),
        (
            Call::Read(0, 0, 0),
            Added::Command(0, Kind::Read, good, 1024, 0),
        ),
        (
            Call::Read(0, 0, 3),
            Added::Command(0, Kind::Read, check, 0, 0),
        ),
        // Of a unit that isn't there.
        (
            Call::Write(1, 0, 0, 1, 0xAD),
            Added::Command(1, Kind::Write, check, 0, 0),
        ),
        (
            Call::Command(1, 0, INQUIRY),
            Added::Command(1, Kind::Inquiry, good, 5, 0),
        ),
        (
            Call::Ready(2, 0),
            Added::Command(2, Kind::Ready, check, 0, 0),
        ),
        (
            Call::Command(0, 0, READ_CAPACITY),
            Added::Command(0, Kind::Capacity, good, 8, 0),
        ),
        // By operation code, whatever the other fields hold.
        (
            Call::Command(0, 0, READ_NONE),
            Added::Command(0, Kind::Read, good, 0, 0),
        ),
        (
            Call::Command(0, 0, READ_16),
            Added::Command(0, Kind::Read, good, 0, 0),
        ),
        (
            Call::Command(0, 0, WRITE_16),
            Added::Command(0, Kind::Write, good, 0, 0),
        ),
        (
            Call::Command(0, 0, WRITE_PROTECTED),
            Added::Command(0, Kind::Write, check, 0, 0),
        ),
        (
            Call::Command(0, 0, UNKNOWN),
            Added::Command(0, Kind::Other, check, 0, 0),
        ),
        // A pending UNIT ATTENTION takes the place of the command.
        (Call::Grow(0, 0, 6), Added::Nothing),
        (
            Call::Write(0, 0, 0, 2, 0xAE),
            Added::Command(0, Kind::Write, check, 0, 0),
        ),
        (
            Call::Write(0, 0, 0, 2, 0xAE),
            Added::Command(0, Kind::Write, good, 0, 1024),
        ),
        // A failed array counts, too.
        (Call::DiskOut(0), Added::Nothing),
        (Call::DiskOut(1), Added::Nothing),
        (
            Call::Write(0, 0, 0, 2, 0xAF),
            Added::Command(0, Kind::Write, check, 0, 0),
        ),
        (
            Call::Command(0, 0, READ_CAPACITY),
            Added::Command(0, Kind::Capacity, good, 8, 0),
        ),
        (Call::Remove(0, 0), Added::Nothing),
    ];
    plays(&rt, FOUR_GROUPS, Play::Count(&rows));
}

#[test]
fn steps_that_do_something_are_counted_by_kind(rt: HostRuntime) {
    let rows = [
        (Call::Make(0, 0, 4), Added::Nothing),
        (Call::Work(Work::Flush), Added::Nothing),
        (
            Call::Write(0, 0, 0, 2, 0xAA),
            Added::Command(0, Kind::Write, Status::Good, 0, 1024),
        ),
        (Call::Work(Work::Flush), Added::Step(Work::Flush)),
        (Call::Work(Work::Flush), Added::Nothing),
        (Call::Work(Work::Demote), Added::Step(Work::Demote)),
        (Call::Work(Work::Demote), Added::Nothing),
        (Call::Work(Work::Clean), Added::Nothing),
        (Call::Work(Work::Balance), Added::Nothing),
        (Call::AddDisk, Added::Nothing),
        (Call::Work(Work::Balance), Added::Step(Work::Balance)),
        (Call::DiskOut(0), Added::Nothing),
        (Call::Work(Work::Rebuild), Added::Nothing),
        (Call::Replace(0), Added::Nothing),
        (Call::Work(Work::Rebuild), Added::Step(Work::Rebuild)),
        (Call::DiskOut(1), Added::Nothing),
        (Call::Work(Work::Rebuild), Added::Nothing),
        (Call::Work(Work::Flush), Added::Nothing),
    ];
    plays(&rt, CACHED, Play::Count(&rows));
}

/// Makes calls one after another, and compares what each has added.
pub fn counts_rows<L: Ledger, R: Abort + AllocGlobal>(
    rt: &R,
    shape: Shape,
    rig: &mut Rig<L>,
    rows: &[Count],
) {
    for (number, row) in rows.iter().enumerate() {
        count_row(rt, shape, rig, number, *row);
    }
}

fn count_row<L: Ledger, R: Abort + AllocGlobal>(
    rt: &R,
    shape: Shape,
    rig: &mut Rig<L>,
    number: usize,
    (call, added): Count,
) {
    let wanted = with(rig.counts(), added);
    let outcome = rig.step(event(rt.alloc(), shape, call).expect(rt, "memory"));
    drop(outcome);
    let met = rig.counts();
    assert!(rt;
        met == wanted,
        "row {number}: after {call:?} {met:?}, not {wanted:?}"
    );
}

// Counts, and what is added.
fn with(counts: Counts, added: Added) -> Counts {
    let mut counts = counts;
    match added {
        Added::Nothing => {}
        Added::Command(host, kind, status, read, written) => {
            let host = &mut counts.hosts[usize::from(host % 4)];
            *host = HostCounts {
                commands: host.commands.saturating_add(1),
                read: host.read.saturating_add(read),
                written: host.written.saturating_add(written),
                replies: with_reply(host.replies, kind, status),
            };
        }
        Added::Step(work) => {
            let tasks = &mut counts.tasks;
            let count = match work {
                Work::Flush => &mut tasks.flushed,
                Work::Demote => &mut tasks.demoted,
                Work::Clean => &mut tasks.cleaned,
                Work::Balance => &mut tasks.balanced,
                Work::Rebuild => &mut tasks.rebuilt,
            };
            *count = count.saturating_add(1);
        }
    }
    counts
}

// Replies, and one more.
fn with_reply(replies: OperationCounts, kind: Kind, status: Status) -> OperationCounts {
    let mut replies = replies;
    match kind {
        Kind::Ready => replies.ready = one_more(replies.ready, status),
        Kind::Inquiry => replies.inquiry = one_more(replies.inquiry, status),
        Kind::Capacity => replies.capacity = one_more(replies.capacity, status),
        Kind::Read => replies.read = one_more(replies.read, status),
        Kind::Write => replies.write = one_more(replies.write, status),
        Kind::Other => replies.other = one_more(replies.other, status),
    }
    replies
}

// Replies of one kind, and one more.
fn one_more(counts: ReplyCounts, status: Status) -> ReplyCounts {
    let mut counts = counts;
    match status {
        Status::Good => counts.good = counts.good.saturating_add(1),
        Status::CheckCondition => counts.check = counts.check.saturating_add(1),
        Status::Busy => counts.busy = counts.busy.saturating_add(1),
    }
    counts
}
