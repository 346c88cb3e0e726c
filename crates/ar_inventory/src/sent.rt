// The inventory of an array, as HTTP clients are sent it.
use crate::{DiskState, Inventory};
use ar_status::{ArrayInventory, DiskUsage, HostSession, InitiatorSession, SectorUsage, UnitUsage};
use std::alloc::{AllocError, Global};
use std::str;

/// The sessions that are open.
#[derive(Drop)]
pub struct Sessions {
    pub hosts: Vec<HostSession>,
    pub iscsi: Vec<InitiatorSession>,
}

/// The inventory, with the seconds that a rebuild still takes, and the sessions. It fails only when out of memory.
pub fn inventory_of(
    alloc: Global,
    inventory: &Inventory,
    left: Option<u64>,
    sessions: Sessions,
) -> Result<ArrayInventory, AllocError> {
    Ok(ArrayInventory {
        usage: usage_of(inventory.usage()),
        units: units_of(alloc, inventory.units())?,
        disks: disks_of(alloc, inventory, left)?,
        host_sessions: sessions.hosts,
        iscsi_sessions: sessions.iscsi,
    })
}

fn usage_of(usage: crate::SectorUsage) -> SectorUsage {
    SectorUsage {
        room_sectors: usage.room,
        mirrored_sectors: usage.mirrored,
        parity_sectors: usage.parity,
        unwritten_sectors: usage.unwritten,
    }
}

fn units_of(alloc: Global, units: &[crate::UnitUsage]) -> Result<Vec<UnitUsage>, AllocError> {
    let mut list = Vec::with_capacity(alloc, units.len())?;
    for unit in units {
        list.push(unit_of(alloc, *unit)?)?;
    }
    Ok(list)
}

fn unit_of(alloc: Global, unit: crate::UnitUsage) -> Result<UnitUsage, AllocError> {
    Ok(UnitUsage {
        host: unit.host,
        lun: unit.lun,
        serial_number: text_of(alloc, unit.serial)?,
        sectors: unit.sectors,
        blocks: unit.blocks,
        written_blocks: unit.written,
        cached_blocks: unit.cached,
    })
}

// A serial number as a text.
fn text_of(alloc: Global, serial: Option<[u8; 16]>) -> Result<Option<String>, AllocError> {
    let Some(serial) = serial else {
        return Ok(None);
    };
    let text = str::from_utf8(&serial).unwrap_or("?");
    Ok(Some(String::from_str(alloc, text)?))
}

fn disks_of(
    alloc: Global,
    inventory: &Inventory,
    left: Option<u64>,
) -> Result<Vec<DiskUsage>, AllocError> {
    let mut list = Vec::with_capacity(alloc, usize::from(inventory.disks()))?;
    for disk in 0..inventory.disks() {
        list.push(disk_of(inventory.disk(disk), left))?;
    }
    Ok(list)
}

fn disk_of(usage: crate::DiskUsage, left: Option<u64>) -> DiskUsage {
    let (extents_rebuilt, seconds_left) = match usage.state {
        DiskState::Rebuilding(done) => (Some(done), left),
        _ => (None, None),
    };
    DiskUsage {
        disk: usage.disk,
        state: usage.state.word(),
        extents_used: usage.used,
        accesses: usage.counts.accesses,
        errors: usage.counts.errors,
        extents_rebuilt,
        seconds_left,
    }
}
