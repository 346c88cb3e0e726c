// UNMAP and WRITE SAME: what their CDBs and their data ask for.
ghost use Rattle.std.specs.Prelude.{◌≡◌, ◌≤◌, ◌+◌, ◌-◌, ◌*◌, length};
ghost use Rattle.std.specs.Int.{bit_at};
ghost use Rattle.ar_scsi.specs.Field as field;
ghost use Rattle.ar_target.specs.Provisioning as table;
ghost use Rattle.ar_target.specs.Ranges.{is_past};

use crate::Request;
use crate::request::{flag, naca, number_16, number_32, number_64};
use ar_scsi::Sense;
use byteorder::{BigEndian, ByteOrder};

/// MAXIMUM UNMAP LBA COUNT and MAXIMUM WRITE SAME LENGTH: as many blocks as the largest unit has.
pub(crate) const MOST_BLOCKS: u32 = 1_048_576;

/// MAXIMUM UNMAP BLOCK DESCRIPTOR COUNT.
pub(crate) const MOST_DESCRIPTORS: usize = 256;

/// UNMAP: ILLEGAL REQUEST, PARAMETER LIST LENGTH ERROR.
pub const PARAMETER_LIST_LENGTH_ERROR: Sense = Sense {
    key: 0x05,
    asc: 0x1A,
    ascq: 0x00,
};

/// UNMAP: ILLEGAL REQUEST, INVALID FIELD IN PARAMETER LIST.
pub const INVALID_FIELD_IN_PARAMETER_LIST: Sense = Sense {
    key: 0x05,
    asc: 0x26,
    ascq: 0x00,
};

/// `count` blocks from `lba` on.
#[derive(Clone, Copy, Debug, PartialEq, Eq)]
pub struct BlockRange {
    pub lba: u64,
    pub count: u32,
}

/// What a WRITE SAME asks for: one block is written to `count` blocks from `lba` on.
#[derive(Clone, Copy, Debug, PartialEq, Eq)]
pub struct WriteSame {
    pub lba: u64,
    pub count: u32,
    /// The blocks may be discarded in place of being written, if the block has zeros alone.
    pub unmaps: bool,
    /// The block comes with the command: NDOB is 0. Zeros are written otherwise.
    pub has_block: bool,
}

/// UNMAP.
pub(crate) fn unmap_request(cdb: &[u8; 16]) -> Request
    ensures { result ≡ table.unmap_request cdb.now }
{
    let len = number_16(cdb, 7);
    if naca(cdb[9]) || flag(cdb[1], 0) {
        Request::InvalidAtUnit(Sense::INVALID_FIELD_IN_CDB)
    } else {
        Request::Unmap { len }
    }
}

/// WRITE SAME (10).
pub(crate) fn write_same_10_request(cdb: &[u8; 16]) -> Request
    ensures { result ≡ table.write_same_10_request cdb.now }
{
    let lba = u64::from(number_32(cdb, 2));
    let count = u32::from(number_16(cdb, 7));
    same_request(cdb[1], cdb[9], true, lba, count)
}

/// WRITE SAME (16).
pub(crate) fn write_same_16_request(cdb: &[u8; 16]) -> Request
    ensures { result ≡ table.write_same_16_request cdb.now }
{
    let lba = number_64(cdb, 2);
    let count = number_32(cdb, 10);
    same_request(cdb[1], cdb[15], !flag(cdb[1], 0), lba, count)
}

// WRITE SAME of these blocks, by its byte 1 and its CONTROL byte.
fn same_request(flags: u8, control: u8, has_block: bool, lba: u64, count: u32) -> Request
    ensures { result ≡ table.same_request flags control has_block lba count }
{
    if !same_valid(flags, control, count) {
        return Request::InvalidAtUnit(Sense::INVALID_FIELD_IN_CDB);
    }
    Request::WriteSame(WriteSame {
        lba,
        count,
        unmaps: flag(flags, 3),
        has_block,
    })
}

// Whether the fields of a WRITE SAME are valid.
fn same_valid(flags: u8, control: u8, count: u32) -> bool
    ensures { result ≡ table.same_valid flags control count }
{
    flags / 16 == 0 && flags / 2 % 4 == 0 && !naca(control) && count != 0 && count <= MOST_BLOCKS
}

/// The number of whole block descriptors of an UNMAP parameter list.
#[tactic(auto, unfolding(ar_scsi::specs::Field::number))]
pub(crate) fn descriptor_count(list: &[u8]) -> usize
    ensures count { result ≡ table.descriptor_count list.now }
    ensures whole { 16 * result ≤ length list.now - 8 }
{
    if list.len() < 8 {
        return 0;
    }
    let len = usize::from(BigEndian::read_u16(&list[2..]));
    len.min(list.len() - 8) / 16
}

/// The range of block descriptor `i`.
#[tactic(auto, unfolding(ar_scsi::specs::Field::number))]
pub(crate) fn range_at(list: &[u8], i: usize) -> BlockRange
    requires { 24 + 16 * i ≤ length list.now }
    ensures { result ≡ table.range_at list.now i }
{
    let at = 8 + 16 * i;
    BlockRange {
        lba: BigEndian::read_u64(&list[at..]),
        count: BigEndian::read_u32(&list[at + 8..]),
    }
}
