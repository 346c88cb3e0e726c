//! Records executed on a plain unit, and what two such units answer.
use ar_disks::Addr;
use ar_record::Record;
use ar_scsi::Reply;
use ar_unit::PlainUnit;
use std::alloc::{AllocError, Global};

const READ_CAPACITY: [u8; 16] = [0x25, 0, 0, 0, 0, 0, 0, 0, 0, 0, 0, 0, 0, 0, 0, 0];

/// The unit at `addr` that the records make.
pub fn plain_unit(alloc: Global, records: &[Record], addr: Addr) -> Result<PlainUnit, AllocError> {
    let mut unit = PlainUnit::new(alloc);
    for entry in records {
        execute(alloc, entry, addr, &mut unit)?;
    }
    Ok(unit)
}

fn execute(
    alloc: Global,
    entry: &Record,
    addr: Addr,
    unit: &mut PlainUnit,
) -> Result<(), AllocError> {
    match entry {
        Record::Make(at, sectors) if *at == addr => unit.make((*sectors).max(1)),
        Record::Grow(at, sectors) if *at == addr => unit.grow(*sectors),
        Record::Remove(at) if *at == addr => {
            unit.remove();
            Ok(())
        }
        Record::Command(at, cdb, payload) if *at == addr => {
            let _ = unit.answer(alloc, cdb, payload.as_slice());
            Ok(())
        }
        Record::Unmap(at, lba, count) if *at == addr => {
            let _ = unit.unmap(*lba, *count);
            Ok(())
        }
        _ => Ok(()),
    }
}

/// Whether both answer the same: twice READ CAPACITY, in place of which a pending UNIT ATTENTION is reported, and then
/// a READ of each of the first sectors, past the end too.
pub fn answer_the_same(alloc: Global, one: &mut PlainUnit, other: &mut PlainUnit) -> bool {
    let mut same = true;
    for _ in 0..2 {
        same &= is_same_answer(alloc, &READ_CAPACITY, one, other);
    }
    for lba in 0u16..=300 {
        same &= is_same_answer(alloc, &read_of(lba), one, other);
    }
    same
}

// READ (10) of a sector.
fn read_of(lba: u16) -> [u8; 16] {
    let [high, low] = lba.to_be_bytes();
    [0x28, 0, 0, 0, high, low, 0, 0, 1, 0, 0, 0, 0, 0, 0, 0]
}

fn is_same_answer(
    alloc: Global,
    cdb: &[u8; 16],
    one: &mut PlainUnit,
    other: &mut PlainUnit,
) -> bool {
    is_same(&one.answer(alloc, cdb, &[]), &other.answer(alloc, cdb, &[]))
}

fn is_same(one: &Reply, other: &Reply) -> bool {
    one.status == other.status
        && one.sense == other.sense
        && one.payload.as_slice() == other.payload.as_slice()
}
