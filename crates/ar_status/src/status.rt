// What is shown of a served array at each look: numbers, and the name that it was given.
ghost use Rattle.std.specs.Prelude.{◌≡◌, OnOk};
ghost use Rattle.std.specs.Io.KnownBytes.{Appends};
ghost use Rattle.ar_status.specs.Answers.{all_present, has_data, health_words};

use crate::{ArrayName, DiskList, RecentEvents, RecentSamples};
use ar_latency::CommandLatencies;
use serde::Serialize;
use std::io;
use std::io::Write;

/// A served array at one moment. Whoever owns it copies these numbers under its lock.
#[derive(Clone, Copy, Serialize)]
pub struct ArrayStatus {
    pub name: ArrayName,
    /// Seconds since the service began.
    pub uptime_seconds: u64,
    pub health: ArrayHealth,
    /// The disks that were missing when the array failed, by their numbers, if it has and they are known.
    pub lost_disks: Option<[u8; 2]>,
    pub disks: u8,
    /// Spare disks that are left.
    pub spares: u8,
    /// Extents of each disk.
    pub extents: u16,
    /// Rows of an extent, each as long as a block.
    pub extent_rows: u16,
    /// By disk.
    pub disk_counters: DiskList,
    pub free_groups: u32,
    /// Bytes of a block.
    pub block_bytes: u64,
    /// Blocks that units may still be given.
    pub room_blocks: u64,
    /// Sectors of 512 bytes that units have, by host, 0 to 3, and LUN, 0 to 7; None: there is no unit.
    pub unit_sectors: [[Option<u32>; 8]; 4],
    pub cached_blocks: u64,
    /// Entries of the stored history.
    pub history_entries: u64,
    /// The memory that they take, at least, in bytes.
    pub history_bytes: u64,
    pub store: Option<StoreNumbers>,
    /// By host, 0 to 3.
    pub hosts: [HostCounters; 4],
    /// How long commands took.
    pub latencies: CommandLatencies,
    pub sessions: SessionNumbers,
    pub refused_logins: RefusedLogins,
    pub steps: MaintenanceSteps,
    pub counters: ArrayCounters,
    pub events: RecentEvents,
    /// What hosts did lately.
    pub samples: RecentSamples,
}

/// The health of the disks.
#[derive(Clone, Copy, Debug, PartialEq, Eq, Serialize)]
#[serde(tag = "state", rename_all = "snake_case")]
pub enum ArrayHealth {
    /// Healthy: all disks are present.
    Whole,
    /// This disk has failed.
    Out { disk: u8 },
    /// This disk was replaced, and `done` of its extents are rebuilt.
    Rebuilding { disk: u8, done: u16 },
    /// The array has failed: two disks were missing at once, and the data are lost.
    Broken,
}

/// Whether a store takes what is committed to it.
#[derive(Clone, Copy, Debug, PartialEq, Eq, Serialize)]
#[serde(rename_all = "snake_case")]
pub enum StoreHealth {
    /// The last commit has succeeded, or there was none.
    Sound,
    /// The same, with one of two copies lost.
    Degraded,
    /// The last commit has failed, and a later one may succeed.
    Failing,
    /// It is given up until a new start.
    GivenUp,
}

/// The store that keeps what is done beyond the end of the program. The numbers saturate.
#[derive(Clone, Copy, Serialize)]
pub struct StoreNumbers {
    pub state: StoreHealth,
    /// Bytes of its log.
    pub log_bytes: u64,
    /// Bytes of records that wait for a commit.
    pub waiting_bytes: u64,
    /// Commits that have written records, since the start.
    pub commits: u64,
    /// Checkpoints that have replaced the log, since the start.
    pub checkpoints: u64,
}

/// The sessions that are open.
#[derive(Clone, Copy, Serialize)]
pub struct SessionNumbers {
    /// Whether a host is logged in, by host, 0 to 3.
    pub hosts: [bool; 4],
    /// iSCSI sessions for discovery.
    pub discovery: u8,
}

/// Logins that were refused since the start, by door. That of hosts over frames counts none.
#[derive(Clone, Copy, Serialize)]
pub struct RefusedLogins {
    pub iscsi: u64,
    pub operators: u64,
}

/// What was done for one host since the start. The numbers saturate.
#[derive(Clone, Copy, Serialize)]
pub struct HostCounters {
    /// Commands with a reply other than BUSY.
    pub commands: u64,
    /// Bytes returned in replies.
    pub read_bytes: u64,
    /// Bytes of data-out of commands that ended with GOOD.
    pub written_bytes: u64,
    pub replies: OperationCounters,
}

/// Replies to one host since the start, by the operation of their commands.
#[derive(Clone, Copy, Serialize)]
pub struct OperationCounters {
    pub test_unit_ready: ReplyCounters,
    pub inquiry: ReplyCounters,
    pub read_capacity: ReplyCounters,
    pub read: ReplyCounters,
    pub write: ReplyCounters,
    /// Of all operations that units don't know.
    pub other: ReplyCounters,
}

/// Replies by status.
#[derive(Clone, Copy, Serialize)]
pub struct ReplyCounters {
    pub good: u64,
    pub check_condition: u64,
    pub busy: u64,
}

/// Maintenance steps that did something since the start, by kind. The numbers saturate.
#[derive(Clone, Copy, Serialize)]
pub struct MaintenanceSteps {
    pub flush: u64,
    pub demote: u64,
    pub clean: u64,
    pub balance: u64,
    pub rebuild: u64,
}

/// What hosts' commands made the array do since the start. The numbers saturate.
#[derive(Clone, Copy, Serialize)]
pub struct ArrayCounters {
    /// Writes that moved their block from a parity group to a mirrored one.
    pub promotions: u64,
    /// Mirrored groups that were moved to a parity group to make room for a write.
    pub squeezes: u64,
    /// Blocks to be read that were in the cache.
    pub cache_hits: u64,
    /// Cached blocks that were written back.
    pub destages: u64,
    /// Blocks of which all sectors were discarded at once.
    pub discards: u64,
}

impl ArrayStatus {
    // Whether this disk was missing when the array failed.
    pub(crate) fn has_lost(&self, disk: u8) -> bool {
        match self.lost_disks {
            Some(disks) => {
                let [one, other] = disks;
                disk == one || disk == other
            }
            None => false,
        }
    }
}

impl ArrayHealth {
    /// Whether all disks are present.
    pub fn is_whole(self) -> bool
        ensures { result ≡ all_present self }
    {
        matches!(self, ArrayHealth::Whole)
    }

    /// Whether the array has its data: fewer than two disks are missing.
    pub fn has_data(self) -> bool
        ensures { result ≡ has_data self }
    {
        !matches!(self, ArrayHealth::Broken)
    }

    // Whether a disk is present and rebuilt. On a failed array none is.
    pub(crate) fn is_healthy(self, disk: u8) -> bool {
        match self {
            ArrayHealth::Whole => true,
            ArrayHealth::Out { disk: failed } | ArrayHealth::Rebuilding { disk: failed, .. } => {
                failed != disk
            }
            ArrayHealth::Broken => false,
        }
    }
}

/// Writes the health as a line, in the words of a script: `whole`, `out D`, `rebuilding D DONE` or `broken`.
pub(crate) fn write_health<W: Write>(out: &mut W, health: ArrayHealth) -> io::Result<()>
    ensures { OnOk result (Appends (W.contents out.old) (W.contents out.new) (health_words health)) }
{
    match health {
        ArrayHealth::Whole => writeln!(out, "whole"),
        ArrayHealth::Out { disk } => writeln!(out, "out {disk}"),
        ArrayHealth::Rebuilding { disk, done } => writeln!(out, "rebuilding {disk} {done}"),
        ArrayHealth::Broken => writeln!(out, "broken"),
    }
}
