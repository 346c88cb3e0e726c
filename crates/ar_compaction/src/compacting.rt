// A list of records compacted: the records of added disks, then those of each unit.
ghost use Rattle.std.specs.Prelude.{◌≡◌, ◌++◌, ◌∷◌, [], IfOk, OnOk};
ghost use Rattle.ar_record.specs.Record.{data_of, all_data, AreEncodable};
ghost use Rattle.ar_record.specs.Replay.{unit_of};
ghost use Rattle.ar_compaction.specs.Compaction.{disk_records, AppendsCheckpoint, IsCompaction};
ghost use Rattle.ar_compaction.specs.Replaying.{unit_address};

use crate::{UnitRecords, UnitReplay, addresses_in};
use ar_disks::Addr;
use ar_record::Record;
use std::alloc::{AllocError, Global};

/// Compacts records: those of added disks come first, then each unit's, in the order of the addresses' first records.
pub fn compact(alloc: Global, records: &[Record]) -> Result<Vec<Record>, AllocError>
    ensures compaction { IfOk result (λ out. IsCompaction (all_data records.now) (all_data out.items)) }
    ensures fit { IfOk result (λ out. AreEncodable (all_data out.items)) }
{
    let addresses = addresses_in(alloc, records)?;
    let mut out = disks_in(alloc, records)?;
    for addr in &addresses {
        append_unit(alloc, records, *addr, &mut out)?;
    }
    Ok(out)
}

// The records of added disks.
fn disks_in(alloc: Global, records: &[Record]) -> Result<Vec<Record>, AllocError>
    ensures disks { IfOk result (λ found. all_data found.items ≡ disk_records (all_data records.now)) }
    ensures fit { IfOk result (λ found. AreEncodable (all_data found.items)) }
{
    let mut found = Vec::new(alloc);
    for entry in records {
        append_disk(entry, &mut found)?;
    }
    Ok(found)
}

// Appends a record if it is that of an added disk.
fn append_disk(entry: &Record, found: &mut Vec<Record>) -> Result<(), AllocError>
    ensures disks { OnOk result (all_data found.new.items
        ≡ all_data found.old.items ++ disk_records (data_of entry.now ∷ [])) }
    ensures fit { OnOk result (AreEncodable (disk_records (data_of entry.now ∷ []))) }
{
    if let Record::AddDisk(extents) = entry {
        found.push(Record::AddDisk(*extents))?;
    }
    Ok(())
}

// Appends the checkpoint of the unit at `addr`.
fn append_unit(
    alloc: Global,
    records: &[Record],
    addr: Addr,
    out: &mut Vec<Record>,
) -> Result<(), AllocError>
    ensures { OnOk result (AppendsCheckpoint (unit_address addr) (all_data records.now)
        (all_data out.old.items) (all_data out.new.items)) }
{
    let unit = replay(alloc, records, addr)?;
    append_rest(alloc, unit.into_records(), out)
}

// The unit at `addr` that the records make.
fn replay(alloc: Global, records: &[Record], addr: Addr) -> Result<UnitReplay, AllocError>
    ensures { IfOk result (λ unit. unit
        ≡ record { addr = unit_address addr; unit = unit_of (all_data records.now) (unit_address addr) }) }
{
    let mut unit = UnitReplay::new(alloc, addr);
    for entry in records {
        unit.apply(entry)?;
    }
    Ok(unit)
}

// Appends the records that are left of a unit.
fn append_rest(
    alloc: Global,
    mut rest: UnitRecords,
    out: &mut Vec<Record>,
) -> Result<(), AllocError>
    ensures { OnOk result (all_data out.new.items ≡ all_data out.old.items ++ rest) }
{
    while let Some(mut records) = rest.next_records(alloc)? {
        out.append(&mut records)?;
    }
    Ok(())
}
