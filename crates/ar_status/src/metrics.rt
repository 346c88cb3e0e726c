// The metrics, in Prometheus' text format 0.0.4: of each the lines HELP and TYPE, and then its samples. A counter's
// name ends in `_total`, and a unit is a part of the name.
use crate::histograms::write_latencies;
use crate::{
    ArrayCounters, ArrayHealth, ArrayStatus, DiskList, HostCounters, MaintenanceSteps,
    OperationCounters, RefusedLogins, ReplyCounters, SessionNumbers, StoreHealth, StoreNumbers,
};
use ar_cli::VERSION;
use std::io;
use std::io::Write;

/// Bytes of a sector.
const SECTOR_BYTES: u64 = 512;

/// Writes all metrics of a status.
pub fn write_metrics<W: Write>(out: &mut W, status: &ArrayStatus) -> io::Result<()> {
    write_build(out)?;
    write_array(out, status)?;
    write_disks(out, status)?;
    write_accesses(out, &status.disk_counters)?;
    write_blocks(out, status)?;
    write_units(out, &status.unit_sectors)?;
    if let Some(store) = status.store {
        write_store(out, store)?;
    }
    write_hosts(out, &status.hosts)?;
    write_latencies(out, &status.latencies)?;
    write_sessions(out, status.sessions)?;
    write_refused(out, status.refused_logins)?;
    write_steps(out, &status.steps)?;
    write_counters(out, &status.counters)
}

// Writes the program's version.
fn write_build<W: Write>(out: &mut W) -> io::Result<()> {
    write_head(out, "build_info", "gauge", "1, with the program's version.")?;
    writeln!(out, "autoraid_build_info{{version=\"{VERSION}\"}} 1")
}

// Writes the state of the array, as a sample for each that is 1 for the present one.
fn write_array<W: Write>(out: &mut W, status: &ArrayStatus) -> io::Result<()> {
    write_gauge(
        out,
        "uptime_seconds",
        "Seconds since the start.",
        status.uptime_seconds,
    )?;
    write_gauge(out, "disks", "Disks.", u64::from(status.disks))?;
    let spares = u64::from(status.spares);
    write_gauge(out, "spare_disks", "Spare disks that are left.", spares)?;
    write_gauge(
        out,
        "disk_extents",
        "Extents of each disk.",
        u64::from(status.extents),
    )?;
    write_gauge(out, "disk_bytes", "Bytes of each disk.", disk_bytes(status))?;
    write_gauge(
        out,
        "rebuild_extents_left",
        "Extents to be rebuilt.",
        extents_left(status),
    )?;
    write_head(
        out,
        "state",
        "gauge",
        "1 for the state of the array, 0 for the others.",
    )?;
    for state in ["whole", "out", "rebuilding", "broken"] {
        let is = u8::from(state == state_of(status.health));
        writeln!(out, "autoraid_state{{state=\"{state}\"}} {is}")?;
    }
    Ok(())
}

// Writes the health of each disk, and whether it was missing when the array failed.
fn write_disks<W: Write>(out: &mut W, status: &ArrayStatus) -> io::Result<()> {
    write_head(
        out,
        "disk_healthy",
        "gauge",
        "1 for a disk that is present and rebuilt.",
    )?;
    for disk in 0..status.disks {
        let is = u8::from(status.health.is_healthy(disk));
        writeln!(out, "autoraid_disk_healthy{{disk=\"{disk}\"}} {is}")?;
    }
    write_head(
        out,
        "disk_lost",
        "gauge",
        "1 for a disk that was missing when the array failed.",
    )?;
    for disk in 0..status.disks {
        let is = u8::from(status.has_lost(disk));
        writeln!(out, "autoraid_disk_lost{{disk=\"{disk}\"}} {is}")?;
    }
    Ok(())
}

// Writes the accesses to each disk, and those that failed.
fn write_accesses<W: Write>(out: &mut W, disks: &DiskList) -> io::Result<()> {
    write_head(
        out,
        "disk_accesses_total",
        "counter",
        "Rows of a disk that were accessed.",
    )?;
    for (disk, counters) in disks.as_slice().iter().enumerate() {
        let accesses = counters.accesses;
        writeln!(
            out,
            "autoraid_disk_accesses_total{{disk=\"{disk}\"}} {accesses}"
        )?;
    }
    write_head(
        out,
        "disk_errors_total",
        "counter",
        "Accesses to a disk that failed.",
    )?;
    for (disk, counters) in disks.as_slice().iter().enumerate() {
        let errors = counters.errors;
        writeln!(
            out,
            "autoraid_disk_errors_total{{disk=\"{disk}\"}} {errors}"
        )?;
    }
    Ok(())
}

// Bytes of a disk.
fn disk_bytes(status: &ArrayStatus) -> u64 {
    let rows = u64::from(status.extents).saturating_mul(u64::from(status.extent_rows));
    rows.saturating_mul(status.block_bytes)
}

// Extents of a replaced disk that are still to be rebuilt.
fn extents_left(status: &ArrayStatus) -> u64 {
    match status.health {
        ArrayHealth::Rebuilding { done, .. } => u64::from(status.extents.saturating_sub(done)),
        _ => 0,
    }
}

// The name of a state.
fn state_of(health: ArrayHealth) -> &'static str {
    match health {
        ArrayHealth::Whole => "whole",
        ArrayHealth::Out { .. } => "out",
        ArrayHealth::Rebuilding { .. } => "rebuilding",
        ArrayHealth::Broken => "broken",
    }
}

// Writes groups, blocks, the cache and the history.
fn write_blocks<W: Write>(out: &mut W, status: &ArrayStatus) -> io::Result<()> {
    let free = u64::from(status.free_groups);
    let (entries, bytes) = (status.history_entries, status.history_bytes);
    write_gauge(out, "free_groups", "Groups that hold no block.", free)?;
    write_gauge(out, "block_bytes", "Bytes of a block.", status.block_bytes)?;
    write_gauge(
        out,
        "room_blocks",
        "Blocks that units may be given.",
        status.room_blocks,
    )?;
    write_gauge(
        out,
        "cached_blocks",
        "Blocks in the cache.",
        status.cached_blocks,
    )?;
    write_gauge(
        out,
        "history_entries",
        "Entries of the stored history.",
        entries,
    )?;
    write_gauge(
        out,
        "history_bytes",
        "Memory of the stored history, at least.",
        bytes,
    )
}

// Writes the size of each unit.
fn write_units<W: Write>(out: &mut W, units: &[[Option<u32>; 8]; 4]) -> io::Result<()> {
    write_head(
        out,
        "unit_bytes",
        "gauge",
        "Bytes of a unit, by its host and LUN.",
    )?;
    for (host, units) in units.iter().enumerate() {
        write_host_units(out, host, units)?;
    }
    Ok(())
}

// Writes the sizes of a host's units.
fn write_host_units<W: Write>(
    out: &mut W,
    host: usize,
    units: &[Option<u32>; 8],
) -> io::Result<()> {
    for (lun, sectors) in units.iter().enumerate() {
        if let Some(sectors) = sectors {
            let bytes = u64::from(*sectors).saturating_mul(SECTOR_BYTES);
            writeln!(
                out,
                "autoraid_unit_bytes{{host=\"{host}\",lun=\"{lun}\"}} {bytes}"
            )?;
        }
    }
    Ok(())
}

// Writes the state of the store, as a sample for each that is 1 for the present one, and its numbers.
fn write_store<W: Write>(out: &mut W, store: StoreNumbers) -> io::Result<()> {
    write_head(
        out,
        "store_state",
        "gauge",
        "1 for the state of the store, 0 for the others.",
    )?;
    for state in ["sound", "degraded", "failing", "given_up"] {
        let is = u8::from(state == store_state_of(store.state));
        writeln!(out, "autoraid_store_state{{state=\"{state}\"}} {is}")?;
    }
    write_gauge(
        out,
        "store_log_bytes",
        "Bytes of the store's log.",
        store.log_bytes,
    )?;
    write_counter(
        out,
        "store_commits_total",
        "Commits that have written records.",
        store.commits,
    )?;
    write_counter(
        out,
        "store_checkpoints_total",
        "Checkpoints that have replaced the log.",
        store.checkpoints,
    )
}

// The name of a store's state.
fn store_state_of(health: StoreHealth) -> &'static str {
    match health {
        StoreHealth::Sound => "sound",
        StoreHealth::Degraded => "degraded",
        StoreHealth::Failing => "failing",
        StoreHealth::GivenUp => "given_up",
    }
}

// Writes the counters of hosts.
fn write_hosts<W: Write>(out: &mut W, hosts: &[HostCounters; 4]) -> io::Result<()> {
    let read = hosts.map(|host| host.read_bytes);
    let written = hosts.map(|host| host.written_bytes);
    write_commands(out, hosts)?;
    write_by_host(
        out,
        "host_read_bytes_total",
        "Bytes returned to hosts.",
        read,
    )?;
    write_by_host(
        out,
        "host_written_bytes_total",
        "Bytes that hosts wrote.",
        written,
    )
}

// Writes the commands of hosts, by operation and status.
fn write_commands<W: Write>(out: &mut W, hosts: &[HostCounters; 4]) -> io::Result<()> {
    write_head(
        out,
        "host_commands_total",
        "counter",
        "Commands of hosts, by their operation and the status of the reply.",
    )?;
    for (host, counters) in hosts.iter().enumerate() {
        write_operations(out, host, &counters.replies)?;
    }
    Ok(())
}

// Writes the commands of a host.
fn write_operations<W: Write>(
    out: &mut W,
    host: usize,
    replies: &OperationCounters,
) -> io::Result<()> {
    let operations = [
        ("test_unit_ready", replies.test_unit_ready),
        ("inquiry", replies.inquiry),
        ("read_capacity", replies.read_capacity),
        ("read", replies.read),
        ("write", replies.write),
        ("other", replies.other),
    ];
    for (operation, counters) in operations {
        write_statuses(out, host, operation, counters)?;
    }
    Ok(())
}

// Writes the commands of a host with one operation.
fn write_statuses<W: Write>(
    out: &mut W,
    host: usize,
    operation: &str,
    counters: ReplyCounters,
) -> io::Result<()> {
    let statuses = [
        ("good", counters.good),
        ("check_condition", counters.check_condition),
        ("busy", counters.busy),
    ];
    for (status, value) in statuses {
        writeln!(
            out,
            "autoraid_host_commands_total{{host=\"{host}\",operation=\"{operation}\",status=\"{status}\"}} {value}"
        )?;
    }
    Ok(())
}

// Writes a counter that each host has.
fn write_by_host<W: Write>(
    out: &mut W,
    name: &str,
    help: &str,
    values: [u64; 4],
) -> io::Result<()> {
    write_head(out, name, "counter", help)?;
    for (host, value) in values.iter().enumerate() {
        writeln!(out, "autoraid_{name}{{host=\"{host}\"}} {value}")?;
    }
    Ok(())
}

// Writes which hosts are logged in, and how many sessions are for discovery.
fn write_sessions<W: Write>(out: &mut W, sessions: SessionNumbers) -> io::Result<()> {
    write_head(
        out,
        "host_sessions",
        "gauge",
        "1 for a host that is logged in.",
    )?;
    for (host, is_open) in sessions.hosts.iter().enumerate() {
        let is = u8::from(*is_open);
        writeln!(out, "autoraid_host_sessions{{host=\"{host}\"}} {is}")?;
    }
    write_gauge(
        out,
        "discovery_sessions",
        "iSCSI sessions for discovery.",
        u64::from(sessions.discovery),
    )
}

// Writes how many logins were refused, by door.
fn write_refused<W: Write>(out: &mut W, refused: RefusedLogins) -> io::Result<()> {
    let doors = [("iscsi", refused.iscsi), ("operators", refused.operators)];
    write_head(
        out,
        "refused_logins_total",
        "counter",
        "Logins that were refused, by door.",
    )?;
    for (door, value) in doors {
        writeln!(
            out,
            "autoraid_refused_logins_total{{door=\"{door}\"}} {value}"
        )?;
    }
    Ok(())
}

// Writes the maintenance steps.
fn write_steps<W: Write>(out: &mut W, steps: &MaintenanceSteps) -> io::Result<()> {
    let kinds = [
        ("flush", steps.flush),
        ("demote", steps.demote),
        ("clean", steps.clean),
        ("balance", steps.balance),
        ("rebuild", steps.rebuild),
    ];
    write_head(
        out,
        "maintenance_steps_total",
        "counter",
        "Steps that did something.",
    )?;
    for (kind, value) in kinds {
        writeln!(
            out,
            "autoraid_maintenance_steps_total{{kind=\"{kind}\"}} {value}"
        )?;
    }
    Ok(())
}

// Writes what else the array did.
fn write_counters<W: Write>(out: &mut W, counters: &ArrayCounters) -> io::Result<()> {
    write_counter(
        out,
        "promotions_total",
        "Writes that moved a block from a parity group to a mirrored one.",
        counters.promotions,
    )?;
    write_counter(
        out,
        "squeezes_total",
        "Mirrored groups that were moved to a parity group to make room for a write.",
        counters.squeezes,
    )?;
    write_counter(
        out,
        "cache_hits_total",
        "Blocks to be read that were in the cache.",
        counters.cache_hits,
    )?;
    write_counter(
        out,
        "destages_total",
        "Cached blocks that were written back.",
        counters.destages,
    )?;
    write_counter(
        out,
        "discards_total",
        "Blocks of which all sectors were discarded at once.",
        counters.discards,
    )
}

// Writes a counter that the array has.
fn write_counter<W: Write>(out: &mut W, name: &str, help: &str, value: u64) -> io::Result<()> {
    write_head(out, name, "counter", help)?;
    writeln!(out, "autoraid_{name} {value}")
}

// Writes a gauge.
fn write_gauge<W: Write>(out: &mut W, name: &str, help: &str, value: u64) -> io::Result<()> {
    write_head(out, name, "gauge", help)?;
    writeln!(out, "autoraid_{name} {value}")
}

/// Writes the lines above the samples of a metric.
pub(crate) fn write_head<W: Write>(
    out: &mut W,
    name: &str,
    kind: &str,
    help: &str,
) -> io::Result<()> {
    writeln!(out, "# HELP autoraid_{name} {help}")?;
    writeln!(out, "# TYPE autoraid_{name} {kind}")
}
