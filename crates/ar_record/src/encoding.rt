// Encodes records. A number of several bytes is big-endian:
//
//     Make      0 | host | LUN | sectors, 4 bytes
//     Grow      1 | host | LUN | sectors, 4 bytes
//     Remove    2 | host | LUN
//     Command   3 | host | LUN | command block, 16 bytes | length of the data, 4 bytes | data
//     AddDisk   4 | extents, 4 bytes
//     Unmap     5 | host | LUN | LBA, 8 bytes | sectors, 4 bytes
ghost use Rattle.std.specs.Prelude.{◌≡◌, ◌<◌, ◌^◌, ◌++◌, ◌∷◌, [], OnOk, IfOk, length, map};
ghost use Rattle.std.specs.Int.{w32, w64, to_be_bytes};
ghost use Rattle.ar_record.specs.Encoding.{encoding_of, encodings_of};
ghost use Rattle.ar_record.specs.Record.{Command, IsEncodable, AreEncodable, data_of, all_data};

use crate::Record;
use ar_disks::Addr;
use std::alloc::{AllocError, Global};

pub(crate) const MAKE: u8 = 0;

pub(crate) const GROW: u8 = 1;

pub(crate) const REMOVE: u8 = 2;

pub(crate) const COMMAND: u8 = 3;

pub(crate) const ADD_DISK: u8 = 4;

pub(crate) const UNMAP: u8 = 5;

/// Appends the encoding of `entry` to `out`. `Err` is out of memory; `out` then ends in a part of the encoding.
pub fn encode(entry: &Record, out: &mut Vec<u8>) -> Result<(), AllocError>
    requires fits { IsEncodable (data_of entry.now) }
    ensures appended { OnOk result (out.new.items ≡ out.old.items ++ encoding_of (data_of entry.now)) }
{
    match entry {
        Record::Make(addr, sectors) => {
            push_unit(out, MAKE, *addr)?;
            out.extend_from_slice(&sectors.to_be_bytes())
        }
        Record::Grow(addr, sectors) => {
            push_unit(out, GROW, *addr)?;
            out.extend_from_slice(&sectors.to_be_bytes())
        }
        Record::Remove(addr) => push_unit(out, REMOVE, *addr),
        Record::Command(addr, cdb, payload) => encode_command(*addr, cdb, payload.as_slice(), out),
        Record::Unmap(addr, lba, count) => {
            push_unit(out, UNMAP, *addr)?;
            push_sectors(out, *lba, *count)
        }
        Record::AddDisk(extents) => {
            out.extend_from_slice(&[ADD_DISK])?;
            out.extend_from_slice(&extents.to_be_bytes())
        }
    }
}

/// Appends the encoding of a command's record to `out`, which needs not be made for it. `Err` is out of memory; `out`
/// then ends in a part of the encoding.
pub fn encode_command(
    addr: Addr,
    cdb: &[u8; 16],
    payload: &[u8],
    out: &mut Vec<u8>,
) -> Result<(), AllocError>
    requires fits { length payload.now < 2 ^ 32 }
    ensures appended { OnOk result (out.new.items
        ≡ out.old.items ++ encoding_of (Command addr.host.number addr.lun cdb.now payload.now)) }
{
    push_unit(out, COMMAND, addr)?;
    out.extend_from_slice(cdb)?;
    out.extend_from_slice(&(payload.len() as u32).to_be_bytes())?;
    out.extend_from_slice(payload)
}

/// Encodes each of the records.
pub fn encode_each(alloc: Global, records: &[Record]) -> Result<Vec<Vec<u8>>, AllocError>
    requires fit { AreEncodable (all_data records.now) }
    ensures encoded { IfOk result (λ items. map (λ item. item.items) items.items
        ≡ encodings_of (all_data records.now)) }
{
    let mut items = Vec::new(alloc);
    for entry in records {
        items.push(encoded_record(alloc, entry)?)?;
    }
    Ok(items)
}

// The encoding of a record.
fn encoded_record(alloc: Global, entry: &Record) -> Result<Vec<u8>, AllocError>
    requires { IsEncodable (data_of entry.now) }
    ensures { IfOk result (λ item. item.items ≡ encoding_of (data_of entry.now)) }
{
    let mut item = Vec::new(alloc);
    encode(entry, &mut item)?;
    Ok(item)
}

// Appends what was done, and the unit to which.
fn push_unit(out: &mut Vec<u8>, kind: u8, addr: Addr) -> Result<(), AllocError>
    ensures { OnOk result (out.new.items ≡ out.old.items ++ kind ∷ addr.host.number ∷ addr.lun ∷ []) }
{
    out.extend_from_slice(&[kind, addr.host.number(), addr.lun])
}

// Appends an LBA and a number of sectors.
fn push_sectors(out: &mut Vec<u8>, lba: u64, count: u32) -> Result<(), AllocError>
    ensures { OnOk result (out.new.items ≡ out.old.items ++ (to_be_bytes w64 lba ++ to_be_bytes w32 count)) }
{
    out.extend_from_slice(&lba.to_be_bytes())?;
    out.extend_from_slice(&count.to_be_bytes())
}
