// What was done since the start, in numbers for an operator. Each saturates, so that no count refuses a command.
ghost use Rattle.std.specs.Prelude.{◌≡◌};
ghost use Rattle.ar_served.specs.Counts.{counts_after, host_counts_after, operations_after, replies_after};
ghost use Rattle.ar_served.specs.Counts.{task_counts_after, no_counts, no_host, no_operations, no_replies, no_tasks};
ghost use Rattle.ar_served.specs.Counts.{is_idle};

use crate::Task;
use ar_core::{Balance, Flush, Move, Outcome, OutcomeOf, Rebuild};
use ar_disks::{Disk, Host};
use ar_scsi::{Reply, Status};

const TEST_UNIT_READY: u8 = 0x00;

const INQUIRY: u8 = 0x12;

const READ_CAPACITY_10: u8 = 0x25;

const READ_10: u8 = 0x28;

const WRITE_10: u8 = 0x2A;

const READ_16: u8 = 0x88;

const WRITE_16: u8 = 0x8A;

/// What was done since the start. The numbers saturate.
#[derive(Clone, Copy, Debug, PartialEq, Eq)]
pub struct Counts {
    /// By host, 0 to 3.
    pub hosts: [HostCounts; 4],
    pub tasks: TaskCounts,
}

/// What was done for one host.
#[derive(Clone, Copy, Debug, PartialEq, Eq)]
pub struct HostCounts {
    /// Commands with a reply other than BUSY.
    pub commands: u64,
    /// Bytes returned in replies.
    pub read: u64,
    /// Bytes of data-out of commands that ended with GOOD.
    pub written: u64,
    /// Its replies, BUSY too, by the operation of their commands.
    pub replies: OperationCounts,
}

/// Replies by the operation code of their commands, whatever their other fields hold. (SPC-3 has the codes of the first
/// two, SBC-2 those of the others.)
#[derive(Clone, Copy, Debug, PartialEq, Eq)]
pub struct OperationCounts {
    /// TEST UNIT READY, 00h.
    pub ready: ReplyCounts,
    /// INQUIRY, 12h.
    pub inquiry: ReplyCounts,
    /// READ CAPACITY (10), 25h.
    pub capacity: ReplyCounts,
    /// READ (10), 28h, and READ (16), 88h.
    pub read: ReplyCounts,
    /// WRITE (10), 2Ah, and WRITE (16), 8Ah.
    pub write: ReplyCounts,
    /// Any other code, which no unit knows.
    pub other: ReplyCounts,
}

/// Replies by status.
#[derive(Clone, Copy, Debug, PartialEq, Eq)]
pub struct ReplyCounts {
    /// GOOD.
    pub good: u64,
    /// CHECK CONDITION.
    pub check: u64,
    /// BUSY.
    pub busy: u64,
}

/// Maintenance steps that did something, by kind, in the background or by an operator's order.
#[derive(Clone, Copy, Debug, PartialEq, Eq)]
pub struct TaskCounts {
    /// Blocks destaged by `Task::Flush`.
    pub flushed: u64,
    /// Blocks moved to parity groups by `Task::Demote`.
    pub demoted: u64,
    /// Blocks moved out of their groups by `Task::Clean`.
    pub cleaned: u64,
    /// Groups formed or members moved by `Task::Balance`.
    pub balanced: u64,
    /// Steps of `Task::Rebuild`.
    pub rebuilt: u64,
}

impl Counts {
    /// Returns counts of nothing.
    pub fn new() -> Counts
        ensures { result ≡ no_counts }
    {
        Counts {
            hosts: [HostCounts::NONE; 4],
            tasks: TaskCounts::NONE,
        }
    }

    /// Counts a command of `host` with `sent` bytes of data-out.
    pub fn add_command(&mut self, host: Host, cdb: [u8; 16], sent: u64, reply: &Reply)
        ensures { self.new ≡ counts_after self.old host.number cdb sent reply.now }
    {
        let number = usize::from(host.number());
        self.hosts[number] = self.hosts[number].after(cdb, sent, reply);
    }

    /// Counts a step of background work that did something.
    pub fn add_task(&mut self, task: Task)
        ensures { self.new ≡ record self.old { tasks = task_counts_after self.old.tasks task } }
    {
        self.tasks = self.tasks.after(task);
    }
}

impl HostCounts {
    const NONE: HostCounts = HostCounts {
        commands: 0,
        read: 0,
        written: 0,
        replies: OperationCounts::NONE,
    };

    // The counts after a command with `sent` bytes of data-out.
    fn after(self, cdb: [u8; 16], sent: u64, reply: &Reply) -> HostCounts
        ensures { result ≡ host_counts_after self cdb sent reply.now }
    {
        let replies = self.replies.after(cdb[0], reply.status);
        let written = match reply.status {
            Status::Busy => return HostCounts { replies, ..self },
            Status::Good => self.written.saturating_add(sent),
            Status::CheckCondition => self.written,
        };
        HostCounts {
            commands: self.commands.saturating_add(1),
            read: self.read.saturating_add(reply.payload.len() as u64),
            written,
            replies,
        }
    }
}

impl OperationCounts {
    const NONE: OperationCounts = OperationCounts {
        ready: ReplyCounts::NONE,
        inquiry: ReplyCounts::NONE,
        capacity: ReplyCounts::NONE,
        read: ReplyCounts::NONE,
        write: ReplyCounts::NONE,
        other: ReplyCounts::NONE,
    };

    // The counts after a reply to a command with this operation code.
    #[tactic(auto, unfolding(crate::specs::Counts::operations_after))]
    fn after(self, code: u8, status: Status) -> OperationCounts
        ensures { result ≡ operations_after self code status }
    {
        let mut counts = self;
        match code {
            TEST_UNIT_READY => counts.ready = self.ready.after(status),
            INQUIRY => counts.inquiry = self.inquiry.after(status),
            READ_CAPACITY_10 => counts.capacity = self.capacity.after(status),
            READ_10 | READ_16 => counts.read = self.read.after(status),
            WRITE_10 | WRITE_16 => counts.write = self.write.after(status),
            _ => counts.other = self.other.after(status),
        }
        counts
    }
}

impl ReplyCounts {
    const NONE: ReplyCounts = ReplyCounts {
        good: 0,
        check: 0,
        busy: 0,
    };

    // The counts after a reply with this status.
    fn after(self, status: Status) -> ReplyCounts
        ensures { result ≡ replies_after self status }
    {
        let mut counts = self;
        match status {
            Status::Good => counts.good = self.good.saturating_add(1),
            Status::CheckCondition => counts.check = self.check.saturating_add(1),
            Status::Busy => counts.busy = self.busy.saturating_add(1),
        }
        counts
    }
}

impl TaskCounts {
    const NONE: TaskCounts = TaskCounts {
        flushed: 0,
        demoted: 0,
        cleaned: 0,
        balanced: 0,
        rebuilt: 0,
    };

    // The counts after a step that did something.
    fn after(self, task: Task) -> TaskCounts
        ensures { result ≡ task_counts_after self task }
    {
        let mut counts = self;
        match task {
            Task::Flush => counts.flushed = self.flushed.saturating_add(1),
            Task::Rebuild => counts.rebuilt = self.rebuilt.saturating_add(1),
            Task::Clean => counts.cleaned = self.cleaned.saturating_add(1),
            Task::Balance => counts.balanced = self.balanced.saturating_add(1),
            Task::Demote => counts.demoted = self.demoted.saturating_add(1),
        }
        counts
    }
}

/// Whether a task had nothing to do, or could do nothing, by its outcome.
pub fn is_idle<D: Disk>(outcome: &Outcome<D>) -> bool
    ensures { result ≡ is_idle outcome.now }
{
    matches!(
        outcome,
        OutcomeOf::Flush(Flush::Idle | Flush::Broken)
            | OutcomeOf::Demote(Move::Idle | Move::Broken)
            | OutcomeOf::Clean(Move::Idle | Move::Broken)
            | OutcomeOf::Balance(Balance::Idle | Balance::NoMemory | Balance::Broken)
            | OutcomeOf::Rebuild(Rebuild::Idle | Rebuild::Broken)
    )
}
