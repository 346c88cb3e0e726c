// Decodes records. What is decoded has exactly these bytes as its encoding; all other bytes are refused.
ghost use Rattle.std.specs.Prelude.{◌≡◌, Some, List, length, IfOk};
ghost use Rattle.std.specs.Int.{w32, w64};
ghost use Rattle.ar_record.specs.declared.decoding.DecodeError.TheVariants.{NoMemory};
ghost use Rattle.ar_record.specs.Record.{RecordData, data_of, IsEncodable};
ghost use Rattle.ar_record.specs.Encoding.{encoding_of};
ghost use Rattle.ar_record.specs.Reading.{ReadsAs, bytes_at, number_at, named_unit_at, sized_at, command_at};
ghost use Rattle.ar_record.specs.Reading.{discard_at, record_at, decoded};

use crate::Record;
use crate::encoding::{ADD_DISK, COMMAND, GROW, MAKE, REMOVE, UNMAP};
use ar_disks::{Addr, Host};
use bytes::Bytes;
use std::alloc::{AllocError, Global};

/// Why bytes are not decoded.
#[derive(Clone, Copy, Debug, PartialEq, Eq)]
pub enum DecodeError {
    /// Out of memory for a command's data.
    NoMemory,
    /// They are not the encoding of a record.
    Invalid,
}

impl From<AllocError> for DecodeError {
    ghost from_gives = { λ _ e. e ≡ NoMemory };

    fn from(_e: AllocError) -> DecodeError {
        DecodeError::NoMemory
    }
}

/// Decodes the record that `bytes` are the encoding of.
pub fn decode(alloc: Global, bytes: &[u8]) -> Result<Record, DecodeError>
    ensures exact { ReadsAs data_of result (decoded bytes.now) }
    // What is decoded has these bytes as its encoding.
    ensures found { IfOk result (λ found. IsEncodable (data_of found) × (bytes.now ≡ encoding_of (data_of found))) }
    // What is encoded is decoded again, unless out of memory.
    ensures again { (entry : RecordData) → IsEncodable entry → bytes.now ≡ encoding_of entry
        → ReadsAs data_of result (Some entry) }
{
    whole_record(alloc, bytes)
}

// One record and nothing after it.
#[tactic(auto, unfolding(crate::specs::Reading::decoded))]
fn whole_record(alloc: Global, bytes: &[u8]) -> Result<Record, DecodeError>
    ensures { ReadsAs data_of result (decoded bytes.now) }
{
    let (record, rest) = record_of(alloc, bytes)?;
    if rest.is_empty() {
        Ok(record)
    } else {
        Err(DecodeError::Invalid)
    }
}

// The record at the front, and the bytes after it.
#[tactic(auto, unfolding(crate::specs::Reading::record_at))]
fn record_of(alloc: Global, bytes: &[u8]) -> Result<(Record, &[u8]), DecodeError>
    ensures { ReadsAs (λ x. (data_of x.0, x.1.now)) result (record_at bytes.now) }
{
    let Some((kind, rest)) = bytes.split_first() else {
        return Err(DecodeError::Invalid);
    };
    match *kind {
        MAKE => {
            let (addr, sectors, rest) = sized_of(rest)?;
            Ok((Record::Make(addr, sectors), rest))
        }
        GROW => {
            let (addr, sectors, rest) = sized_of(rest)?;
            Ok((Record::Grow(addr, sectors), rest))
        }
        REMOVE => {
            let (addr, rest) = unit_of(rest)?;
            Ok((Record::Remove(addr), rest))
        }
        COMMAND => command_of(alloc, rest),
        ADD_DISK => {
            let (extents, rest) = number_of(rest)?;
            Ok((Record::AddDisk(extents), rest))
        }
        UNMAP => discard_of(rest),
        _ => Err(DecodeError::Invalid),
    }
}

// A command.
#[tactic(auto, unfolding(crate::specs::Reading::command_at))]
fn command_of(alloc: Global, bytes: &[u8]) -> Result<(Record, &[u8]), DecodeError>
    ensures { ReadsAs (λ x. (data_of x.0, x.1.now)) result (command_at bytes.now) }
{
    let (addr, rest) = unit_of(bytes)?;
    let (block, rest) = bytes_of(rest, 16)?;
    let mut cdb = [0; 16];
    cdb.copy_from_slice(block);
    let (count, rest) = number_of(rest)?;
    let (data, rest) = bytes_of(rest, count as usize)?;
    let payload = Bytes::copy_from_slice(alloc, data)?;
    Ok((Record::Command(addr, cdb, payload), rest))
}

// A discard.
#[tactic(auto, unfolding(crate::specs::Reading::discard_at))]
fn discard_of(bytes: &[u8]) -> Result<(Record, &[u8]), DecodeError>
    ensures { ReadsAs (λ x. (data_of x.0, x.1.now)) result (discard_at bytes.now) }
{
    let (addr, rest) = unit_of(bytes)?;
    let (lba, rest) = wide_number_of(rest)?;
    let (count, rest) = number_of(rest)?;
    Ok((Record::Unmap(addr, lba, count), rest))
}

// A unit and a number of sectors.
#[tactic(auto, unfolding(crate::specs::Reading::sized_at))]
fn sized_of(bytes: &[u8]) -> Result<(Addr, u32, &[u8]), DecodeError>
    ensures { ReadsAs (λ x. (((x.0.host.number, x.0.lun), x.1), x.2.now)) result (sized_at bytes.now) }
{
    let (addr, rest) = unit_of(bytes)?;
    let (sectors, rest) = number_of(rest)?;
    Ok((addr, sectors, rest))
}

// A host and a LUN.
fn unit_of(bytes: &[u8]) -> Result<(Addr, &[u8]), DecodeError>
    ensures { ReadsAs (λ x. ((x.0.host.number, x.0.lun), x.1.now)) result (named_unit_at bytes.now) }
{
    match bytes {
        [host, lun, rest @ ..] => match Host::new(*host) {
            Some(host) => Ok((Addr { host, lun: *lun }, rest)),
            None => Err(DecodeError::Invalid),
        },
        _ => Err(DecodeError::Invalid),
    }
}

// A number of four bytes.
fn number_of(bytes: &[u8]) -> Result<(u32, &[u8]), DecodeError>
    ensures { ReadsAs (λ x. (x.0, x.1.now)) result (number_at w32 bytes.now) }
{
    if bytes.len() < 4 {
        return Err(DecodeError::Invalid);
    }
    let (front, rest) = bytes.split_at(4);
    let number = u32::from_be_bytes([front[0], front[1], front[2], front[3]]);
    Ok((number, rest))
}

// A number of eight bytes.
fn wide_number_of(bytes: &[u8]) -> Result<(u64, &[u8]), DecodeError>
    ensures { ReadsAs (λ x. (x.0, x.1.now)) result (number_at w64 bytes.now) }
{
    if bytes.len() < 8 {
        return Err(DecodeError::Invalid);
    }
    let (front, rest) = bytes.split_at(8);
    let number = u64::from_be_bytes([
        front[0], front[1], front[2], front[3], front[4], front[5], front[6], front[7],
    ]);
    Ok((number, rest))
}

// This many bytes.
fn bytes_of(bytes: &[u8], count: usize) -> Result<(&[u8], &[u8]), DecodeError>
    ensures bytes { ReadsAs (λ x. (x.0.now, x.1.now)) result (bytes_at count bytes.now) }
    ensures len { IfOk result (λ x. length x.0.now ≡ count) }
{
    if bytes.len() < count {
        return Err(DecodeError::Invalid);
    }
    Ok(bytes.split_at(count))
}
