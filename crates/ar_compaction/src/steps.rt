// A present unit, of which each record is made when it is asked for. In steps:
//
//     step 0            Make: as long as it is now; one sector shorter, if that is what the last growth can have added
//     steps 1 to n      a WRITE (10) of 128 sectors, unless they are zeros; the last may be shorter
//     step n + 1        Grow to the length of now, if a UNIT ATTENTION is pending
ghost use Rattle.std.specs.Prelude.{◌≡◌, ◌<◌, ◌≤◌, ◌*◌, ◌+◌, ◌-◌, ◌++◌, ◌⊎◌, vec_len, length, take, IfOk, OnOk};
ghost use Rattle.ar_record.specs.Record.{all_data};
ghost use Rattle.ar_compaction.specs.Bytes.{are_zeros};
ghost use Rattle.ar_compaction.specs.Checkpoint.{growth_record, piece_record, pieces_of, step_record, steps_from};
ghost use Rattle.ar_compaction.specs.Checkpoint.{write_block, piece_write};
ghost use Rattle.ar_compaction.specs.Contents.{optional_record, parts_of};
ghost use Rattle.ar_compaction.specs.Replaying.{unit_address};

use crate::contents::Contents;
use ar_disks::{Addr, SECTOR_LEN};
use ar_record::Record;
use bytes::Bytes;
use std::alloc::{AllocError, Global};

/// Sectors of a piece: 64 KiB.
const PIECE: u32 = 128;

/// The most records that one call makes: 1 MiB of data.
const MOST_RECORDS: usize = 16;

impl Contents {
    // Appends the records of the steps from `first` on, up to 16 in all, and returns the step after them.
    pub fn append_steps(
        &self,
        alloc: Global,
        first: u64,
        steps: u64,
        records: &mut Vec<Record>,
    ) -> Result<u64, AllocError>
        requires begun { first ≤ steps }
        requires room { vec_len records.old ≤ 16 }
        ensures next { IfOk result (λ next. next ≤ steps) }
        ensures made { IfOk result (λ next.
            all_data records.old.items ++ steps_from (parts_of self.now) (steps - first) first
            ≡ all_data records.new.items ++ steps_from (parts_of self.now) (steps - next) next) }
        ensures few { OnOk result (vec_len records.new ≤ 16) }
        ensures most { IfOk result (λ next. (next ≡ steps) ⊎ (vec_len records.new ≡ 16)) }
    {
        let mut step = first;
        while step < steps && records.len() < MOST_RECORDS {
            self.append_step(alloc, step, records)?;
            step += 1;
        }
        Ok(step)
    }

    fn append_step(
        &self,
        alloc: Global,
        step: u64,
        records: &mut Vec<Record>,
    ) -> Result<(), AllocError>
        ensures made { OnOk result (all_data records.new.items
            ≡ all_data records.old.items ++ step_record (parts_of self.now) step) }
        ensures one { OnOk result (vec_len records.new ≤ vec_len records.old + 1) }
    {
        if let Some(made) = self.step_record(alloc, step)? {
            records.push(made)?;
        }
        Ok(())
    }

    fn step_record(&self, alloc: Global, step: u64) -> Result<Option<Record>, AllocError>
        ensures { IfOk result (λ found. optional_record found ≡ step_record (parts_of self.now) step) }
    {
        if step == 0 {
            return Ok(Some(Record::Make(self.addr, self.base)));
        }
        if step <= pieces_of(self.base) {
            return self.piece_record(alloc, step - 1);
        }
        Ok(self.growth_record())
    }

    fn piece_record(&self, alloc: Global, piece: u64) -> Result<Option<Record>, AllocError>
        requires { piece < pieces_of self.now.base }
        ensures { IfOk result (λ found. optional_record found ≡ piece_record (parts_of self.now) piece) }
    {
        let lba = piece as u32 * PIECE;
        let count = (self.base - lba).min(PIECE);
        let first = lba as usize * SECTOR_LEN;
        let bytes = &self.bytes[first..first + count as usize * SECTOR_LEN];
        piece_write(alloc, self.addr, lba, count as u16, bytes)
    }

    fn growth_record(&self) -> Option<Record>
        ensures { optional_record result ≡ growth_record (parts_of self.now) }
    {
        if self.attention {
            Some(Record::Grow(self.addr, self.sectors))
        } else {
            None
        }
    }
}

// The number of pieces of `base` sectors.
pub(crate) fn pieces_of(base: u32) -> u64
    ensures { result ≡ pieces_of base }
{
    (u64::from(base) + 127) / 128
}

// The WRITE of `bytes` to `count` sectors from `lba` on; none of zeros, which a new unit has.
fn piece_write(
    alloc: Global,
    addr: Addr,
    lba: u32,
    count: u16,
    bytes: &[u8],
) -> Result<Option<Record>, AllocError>
    ensures { IfOk result (λ found. optional_record found ≡ piece_write (unit_address addr) lba count bytes.now) }
{
    if are_zeros(bytes) {
        return Ok(None);
    }
    let payload = Bytes::copy_from_slice(alloc, bytes)?;
    Ok(Some(Record::Command(addr, write_block(lba, count), payload)))
}

// The command block of a WRITE (10), padded to 16 bytes.
fn write_block(lba: u32, count: u16) -> [u8; 16]
    ensures { result ≡ write_block lba count }
{
    let [first, second, third, fourth] = lba.to_be_bytes();
    let [high, low] = count.to_be_bytes();
    [
        0x2A, 0, first, second, third, fourth, 0, high, low, 0, 0, 0, 0, 0, 0, 0,
    ]
}

// Whether each byte is zero. All are read, since a loop without an early exit is vectorised.
pub(crate) fn are_zeros(bytes: &[u8]) -> bool
    ensures { result ≡ are_zeros bytes.now }
{
    let mut any = 0;
    for byte in bytes {
        any |= *byte;
    }
    any == 0
}
