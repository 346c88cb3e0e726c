// Command blocks, by the standards' tables of fields.
use crate::answer::{INVALID_FIELD, Sense, UNKNOWN_CODE};

/// What a valid block asks of a unit that is there.
#[derive(Clone, Copy)]
pub(crate) enum Asked {
    /// TEST UNIT READY.
    Nothing,
    /// INQUIRY, with its ALLOCATION LENGTH.
    Inquiry(u16),
    /// READ CAPACITY (10).
    Capacity,
    /// READ, of ten bytes or sixteen: LOGICAL BLOCK ADDRESS and TRANSFER LENGTH.
    Read(u64, u32),
    Write(u64, u32),
}

/// NACA, in the CONTROL byte.
const NACA: u8 = 0b0000_0100;

/// RDPROTECT or WRPROTECT, in byte 1.
const PROTECT: u8 = 0b1110_0000;

/// EVPD of INQUIRY in byte 1, and PMI of READ CAPACITY in byte 8.
const LOWEST_BIT: u8 = 0b0000_0001;

/// What a block asks, or the sense with which it is refused.
pub(crate) fn meaning(cdb: &[u8; 16]) -> Result<Asked, Sense> {
    match cdb[0] {
        0x00 => where_valid(cdb[5] & NACA == 0, Asked::Nothing),
        0x12 => where_valid(is_inquiry_valid(cdb), Asked::Inquiry(inquiry_length(cdb))),
        0x25 => where_valid(is_capacity_valid(cdb), Asked::Capacity),
        0x28 | 0x88 => {
            let (from, count) = range(cdb)?;
            Ok(Asked::Read(from, count))
        }
        0x2A | 0x8A => {
            let (from, count) = range(cdb)?;
            Ok(Asked::Write(from, count))
        }
        _ => Err(UNKNOWN_CODE),
    }
}

/// The ALLOCATION LENGTH of INQUIRY.
pub(crate) fn inquiry_length(cdb: &[u8; 16]) -> u16 {
    u16::from_be_bytes([cdb[3], cdb[4]])
}

fn where_valid(valid: bool, asked: Asked) -> Result<Asked, Sense> {
    if valid { Ok(asked) } else { Err(INVALID_FIELD) }
}

// Neither EVPD nor a PAGE CODE.
fn is_inquiry_valid(cdb: &[u8; 16]) -> bool {
    cdb[5] & NACA == 0 && cdb[1] & LOWEST_BIT == 0 && cdb[2] == 0
}

// An address only beside PMI.
fn is_capacity_valid(cdb: &[u8; 16]) -> bool {
    let address = [cdb[2], cdb[3], cdb[4], cdb[5]];
    cdb[9] & NACA == 0 && (cdb[8] & LOWEST_BIT == 1 || address == [0; 4])
}

// LOGICAL BLOCK ADDRESS and TRANSFER LENGTH. A length above 65,535 isn't served.
fn range(cdb: &[u8; 16]) -> Result<(u64, u32), Sense> {
    let is_long = cdb[0] >= 0x80;
    let control = if is_long { cdb[15] } else { cdb[9] };
    let (from, count) = if is_long {
        fields_16(cdb)
    } else {
        fields_10(cdb)
    };
    if control & NACA != 0 || cdb[1] & PROTECT != 0 || count > 0xFFFF {
        return Err(INVALID_FIELD);
    }
    Ok((from, count))
}

fn fields_10(cdb: &[u8; 16]) -> (u64, u32) {
    let from = u32::from_be_bytes([cdb[2], cdb[3], cdb[4], cdb[5]]);
    let count = u16::from_be_bytes([cdb[7], cdb[8]]);
    (u64::from(from), u32::from(count))
}

fn fields_16(cdb: &[u8; 16]) -> (u64, u32) {
    let from = u64::from_be_bytes([
        cdb[2], cdb[3], cdb[4], cdb[5], cdb[6], cdb[7], cdb[8], cdb[9],
    ]);
    let count = u32::from_be_bytes([cdb[10], cdb[11], cdb[12], cdb[13]]);
    (from, count)
}
