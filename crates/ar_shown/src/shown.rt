// What the pages show of an array with its history, in numbers.
ghost use Rattle.std.specs.Prelude.{◌≡◌, ◌-◌, ◌++◌, None, length, map, option_map};
ghost use Rattle.std.specs.List.{range_with_len};
ghost use Rattle.ar_served.specs.declared.counts.HostCounts.{HostCounts};
ghost use Rattle.ar_shown.specs.Shown.{IsStatusOf, SeesArray, counters_watched, health_watched, host_watched};
ghost use Rattle.ar_shown.specs.Shown.{lost_watched, operations_watched, replies_watched, steps_watched};
ghost use Rattle.ar_shown.specs.Shown.{store_health_watched, store_watched};

use crate::lengths::lengths_of;
use ar_core::{Array, Counters, Health};
use ar_disks::Disk;
use ar_fuses::DiskCounts;
use ar_latency::CommandLatencies;
use ar_served::{
    Counts, HostCounts, OperationCounts, ReplyCounts, StoreState, StoreStatus, TaskCounts,
};
use ar_status::{
    ArrayCounters, ArrayHealth, ArrayName, ArrayStatus, DiskCounters, DiskList, EventLog,
    HostCounters, MaintenanceSteps, OperationCounters, RecentEvents, RecentSamples, RefusedLogins,
    ReplyCounters, SessionNumbers, StoreHealth, StoreNumbers,
};

/// Bytes that an entry takes in the list of the history.
const ENTRY_LEN: u64 = 136;

/// What is shown of an array that it doesn't know itself.
#[derive(Clone, Copy)]
pub struct Beside {
    /// The array's name.
    pub name: ArrayName,
    /// The seconds since the start.
    pub seconds: u64,
    /// The disks that it has lost, if it has failed and they are known.
    pub lost: Option<[u8; 2]>,
    /// What was counted of its disks since the start, by number.
    pub disks: [DiskCounts; 12],
    pub sessions: SessionNumbers,
    /// The spare disks that are left.
    pub spares: u8,
    pub refused: RefusedLogins,
    pub latencies: CommandLatencies,
    /// What hosts did lately.
    pub samples: RecentSamples,
}

/// Returns the status of an array with this many entries of its history stored, and memory for that many, and with a
/// store, perhaps.
pub fn status_with<D: Disk>(
    array: &Array<D>,
    counts: &Counts,
    stored: (usize, usize),
    store: Option<StoreStatus>,
    events: RecentEvents,
    beside: &Beside,
) -> ArrayStatus
    ensures { IsStatusOf array.now counts.now stored.0 store events beside.now result }
{
    let status = status_of(array, counts, events, beside);
    ArrayStatus {
        history_entries: stored.0 as u64,
        history_bytes: stored_bytes(stored.1 as u64, status.health, counts),
        store: store_of(store),
        ..status
    }
}

/// Compares an array with how it was seen last, and lists what has happened.
pub fn see_array<D: Disk>(array: &Array<D>, seconds: u64, log: &mut EventLog)
    ensures { SeesArray seconds array.now log.old log.new }
{
    log.see(seconds, health_of(array.health()), array.disks());
}

// The status of an array whose history isn't stored, without a store.
fn status_of<D: Disk>(
    array: &Array<D>,
    counts: &Counts,
    events: RecentEvents,
    beside: &Beside,
) -> ArrayStatus
    ensures { IsStatusOf array.now counts.now 0 None events beside.now result }
{
    ArrayStatus {
        name: beside.name,
        uptime_seconds: beside.seconds,
        health: health_of(array.health()),
        lost_disks: lost_of(array.health(), beside.lost),
        disks: array.disks(),
        spares: beside.spares,
        extents: array.extents(),
        extent_rows: array.geometry().rows(),
        disk_counters: disks_of(&beside.disks, array.disks()),
        free_groups: array.free_groups(),
        block_bytes: array.geometry().block_len() as u64,
        room_blocks: u64::from(array.free_room()),
        unit_sectors: lengths_of(array),
        cached_blocks: array.cached_blocks() as u64,
        history_entries: 0,
        history_bytes: 0,
        store: None,
        hosts: hosts_of(counts.hosts),
        latencies: beside.latencies,
        sessions: beside.sessions,
        refused_logins: beside.refused,
        steps: steps_of(counts.tasks),
        counters: counters_of(array.counters()),
        events,
        samples: beside.samples,
    }
}

// Bytes of memory that a stored history takes, at least: none, if nothing is stored. A failed array counts commands
// that it doesn't record.
fn stored_bytes(room: u64, health: ArrayHealth, counts: &Counts) -> u64 {
    let mut bytes = room.saturating_mul(ENTRY_LEN);
    if room > 0 && health != ArrayHealth::Broken {
        for host in counts.hosts {
            bytes = bytes.saturating_add(host.read).saturating_add(host.written);
        }
    }
    bytes
}

/// Returns the health, as the pages have it.
pub fn health_of(health: Health) -> ArrayHealth
    ensures { result ≡ health_watched health }
{
    match health {
        Health::Whole => ArrayHealth::Whole,
        Health::Out(disk) => ArrayHealth::Out { disk },
        Health::Rebuilding(disk, done) => ArrayHealth::Rebuilding { disk, done },
        Health::Broken => ArrayHealth::Broken,
    }
}

// The disks that an array has lost: none, unless it has failed.
fn lost_of(health: Health, lost: Option<[u8; 2]>) -> Option<[u8; 2]>
    ensures { result ≡ lost_watched lost health }
{
    match lost {
        Some(disks) => match health {
            Health::Broken => Some(disks),
            _ => None,
        },
        None => None,
    }
}

// What was counted of each disk.
fn disks_of(counts: &[DiskCounts; 12], disks: u8) -> DiskList {
    DiskList::new(counts.map(disk_of), disks)
}

fn disk_of(counts: DiskCounts) -> DiskCounters {
    DiskCounters {
        accesses: counts.accesses,
        errors: counts.errors,
    }
}

// The store, if there is one.
fn store_of(store: Option<StoreStatus>) -> Option<StoreNumbers>
    ensures { result ≡ option_map store_watched store }
{
    match store {
        Some(store) => Some(numbers_of(store)),
        None => None,
    }
}

// A store in numbers.
fn numbers_of(store: StoreStatus) -> StoreNumbers
    ensures { result ≡ store_watched store }
{
    StoreNumbers {
        state: store_health_of(store.state),
        log_bytes: store.log_bytes,
        waiting_bytes: store.waiting_bytes,
        commits: store.commits,
        checkpoints: store.checkpoints,
    }
}

// Whether a store takes what is committed to it.
fn store_health_of(state: StoreState) -> StoreHealth
    ensures { result ≡ store_health_watched state }
{
    match state {
        StoreState::Sound => StoreHealth::Sound,
        StoreState::Degraded => StoreHealth::Degraded,
        StoreState::Failing => StoreHealth::Failing,
        StoreState::GivenUp => StoreHealth::GivenUp,
    }
}

// What was done for each host.
fn hosts_of(counts: [HostCounts; 4]) -> [HostCounters; 4]
    ensures { result ≡ map host_watched counts }
{
    counts.map(host_of)
}

// What was done for a host.
fn host_of(counts: HostCounts) -> HostCounters
    ensures { result ≡ host_watched counts }
{
    HostCounters {
        commands: counts.commands,
        read_bytes: counts.read,
        written_bytes: counts.written,
        replies: operations_of(counts.replies),
    }
}

// Replies by operation.
fn operations_of(counts: OperationCounts) -> OperationCounters
    ensures { result ≡ operations_watched counts }
{
    OperationCounters {
        test_unit_ready: replies_of(counts.ready),
        inquiry: replies_of(counts.inquiry),
        read_capacity: replies_of(counts.capacity),
        read: replies_of(counts.read),
        write: replies_of(counts.write),
        other: replies_of(counts.other),
    }
}

// Replies by status.
fn replies_of(counts: ReplyCounts) -> ReplyCounters
    ensures { result ≡ replies_watched counts }
{
    ReplyCounters {
        good: counts.good,
        check_condition: counts.check,
        busy: counts.busy,
    }
}

// Maintenance steps.
fn steps_of(counts: TaskCounts) -> MaintenanceSteps
    ensures { result ≡ steps_watched counts }
{
    MaintenanceSteps {
        flush: counts.flushed,
        demote: counts.demoted,
        clean: counts.cleaned,
        balance: counts.balanced,
        rebuild: counts.rebuilt,
    }
}

// What else the array did.
fn counters_of(counters: Counters) -> ArrayCounters
    ensures { result ≡ counters_watched counters }
{
    ArrayCounters {
        promotions: counters.promotions,
        squeezes: counters.squeezes,
        cache_hits: counters.cache_hits,
        destages: counters.destages,
        discards: counters.discards,
    }
}
