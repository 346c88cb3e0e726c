// A unit as a list of bytes.
ghost use Rattle.std.specs.Prelude.{◌≤◌, IfSome, vec_len};

use crate::answer::{HAS_GROWN, NO_UNIT, OUT_OF_RANGE, PlainReply, WRONG_LENGTH};
use crate::block::{Asked, inquiry_length, meaning};
use crate::draw::Place;
use std::alloc::{AllocError, Global};

/// The bytes of a sector.
const SECTOR: u64 = 512;

/// The operation code of INQUIRY.
const INQUIRY: u8 = 0x12;

/// A unit that is there.
#[derive(Drop)]
pub(crate) struct Unit {
    pub place: Place,
    bytes: Vec<u8>,
    // It has grown, and no command has reported it.
    has_grown: bool,
}

impl Unit {
    /// A new unit of this many sectors.
    pub(crate) fn new(alloc: Global, place: Place, sectors: u32) -> Result<Unit, AllocError> {
        Ok(Unit {
            place,
            bytes: vec![in alloc; 0; byte_count(sectors)]?,
            has_grown: false,
        })
    }

    pub(crate) fn sectors(&self) -> u32 {
        (self.bytes.len() as u64 / SECTOR).min(u64::from(u32::MAX)) as u32
    }

    /// Adds zeros, up to this many sectors.
    pub(crate) fn grow(&mut self, sectors: u32) -> Result<(), AllocError> {
        self.bytes.resize(byte_count(sectors), 0)?;
        self.has_grown = true;
        Ok(())
    }

    /// Answers a command that came with these bytes.
    pub(crate) fn answer(
        &mut self,
        alloc: Global,
        cdb: &[u8; 16],
        data: &[u8],
    ) -> Result<PlainReply, AllocError> {
        if self.has_grown && cdb[0] != INQUIRY {
            self.has_grown = false;
            return Ok(PlainReply::check(alloc, HAS_GROWN));
        }
        match meaning(cdb) {
            Ok(Asked::Nothing) => Ok(PlainReply::good(Vec::new(alloc))),
            Ok(Asked::Inquiry(length)) => inquiry(alloc, 0x00, length),
            Ok(Asked::Capacity) => self.capacity(alloc),
            Ok(Asked::Read(from, count)) => self.read(alloc, from, count),
            Ok(Asked::Write(from, count)) => Ok(self.write(alloc, from, count, data)),
            Err(sense) => Ok(PlainReply::check(alloc, sense)),
        }
    }

    /// Sets `count` sectors to zero.
    pub(crate) fn unmap(&mut self, alloc: Global, from: u64, count: u32) -> PlainReply {
        if self.has_grown {
            self.has_grown = false;
            return PlainReply::check(alloc, HAS_GROWN);
        }
        let Some((begin, end)) = self.range(from, count) else {
            return PlainReply::check(alloc, OUT_OF_RANGE);
        };
        self.bytes[begin..end].fill(0);
        PlainReply::good(Vec::new(alloc))
    }

    // The address of the last sector, and how long one is.
    fn capacity(&self, alloc: Global) -> Result<PlainReply, AllocError> {
        let [a, b, c, d] = self.sectors().saturating_sub(1).to_be_bytes();
        let data = [a, b, c, d, 0x00, 0x00, 0x02, 0x00];
        Ok(PlainReply::good(data.to_vec(alloc)?))
    }

    fn read(&self, alloc: Global, from: u64, count: u32) -> Result<PlainReply, AllocError> {
        match self.range(from, count) {
            Some((begin, end)) => Ok(PlainReply::good(self.bytes[begin..end].to_vec(alloc)?)),
            None => Ok(PlainReply::check(alloc, OUT_OF_RANGE)),
        }
    }

    fn write(&mut self, alloc: Global, from: u64, count: u32, data: &[u8]) -> PlainReply {
        let Some((begin, end)) = self.range(from, count) else {
            return PlainReply::check(alloc, OUT_OF_RANGE);
        };
        let bytes = &mut self.bytes[begin..end];
        if bytes.len() != data.len() {
            return PlainReply::check(alloc, WRONG_LENGTH);
        }
        bytes.copy_from_slice(data);
        PlainReply::good(Vec::new(alloc))
    }

    // Where a range of sectors begins and ends in the list, which may be its end. A sum that doesn't fit is past it.
    fn range(&self, from: u64, count: u32) -> Option<(usize, usize)>
        ensures order { IfSome result (λ ends. ends.0 ≤ ends.1) }
        ensures within { IfSome result (λ ends. ends.1 ≤ vec_len self.now.bytes) }
    {
        let begin = from.saturating_mul(SECTOR);
        let end = from.saturating_add(u64::from(count)).saturating_mul(SECTOR);
        if begin <= end && end <= self.bytes.len() as u64 {
            Some((begin as usize, end as usize))
        } else {
            None
        }
    }
}

/// What is answered to a command where no unit is.
pub(crate) fn answer_nowhere(alloc: Global, cdb: &[u8; 16]) -> Result<PlainReply, AllocError> {
    if cdb[0] == INQUIRY {
        inquiry(alloc, 0x7F, inquiry_length(cdb))
    } else {
        Ok(PlainReply::check(alloc, NO_UNIT))
    }
}

// The standard INQUIRY data after the first byte, cut to the bytes that are allowed.
fn inquiry(alloc: Global, first: u8, length: u16) -> Result<PlainReply, AllocError> {
    let mut data = *b"\x00\x00\x05\x02\x1F\x00\x00\x00AUTORAIDTWO LEVEL ARRAY 0001";
    data[0] = first;
    let count = usize::from(length).min(data.len());
    Ok(PlainReply::good(data[..count].to_vec(alloc)?))
}

fn byte_count(sectors: u32) -> usize {
    u64::from(sectors).saturating_mul(SECTOR) as usize
}
