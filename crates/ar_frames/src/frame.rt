// Frames as bytes, big-endian. N counts the bytes that follow it; S is 18 with CHECK CONDITION, otherwise 0.
//
//     request  | N:4 | tag:8 | LUN:1 | command block:16 | data |          N is 25 to 33,553,945
//     reply    | N:4 | tag:8 | status:1 | S:1 | sense data:S | payload |  N is 10 to 33,553,930
ghost use Rattle.std.specs.Prelude.{◌≡◌, ◌≤◌, ◌+◌, ◌++◌, ◌∷◌, [], length, drop, slice_index};
ghost use Rattle.byteorder.specs.Endian.{big_number, big_bytes};
ghost use Rattle.ar_frames.specs.Frame.{most_data, status_byte};

use ar_scsi::Status;
use byteorder::{BigEndian, ByteOrder};
use bytes::Bytes;

/// The most bytes of data in a frame: 65,535 sectors of 512 bytes.
pub const MOST_DATA: u32 = 33_553_920;

/// A request: a command of a host, with the tag that its reply carries.
#[derive(Debug, Drop, PartialEq, Eq)]
pub struct Request {
    pub tag: u64,
    pub lun: u8,
    pub cdb: [u8; 16],
    pub payload: Bytes,
}

// The fields of a request frame between N and the data.
#[derive(Clone, Copy)]
pub(crate) struct Head {
    pub tag: u64,
    pub lun: u8,
    pub cdb: [u8; 16],
}

// Decodes the 25 bytes that follow N.
pub(crate) fn head_of(bytes: &[u8; 25]) -> Head
    ensures tag { result.tag ≡ big_number 8 bytes.now }
    ensures lun { result.lun ≡ slice_index bytes.now 8 }
    ensures cdb { result.cdb ≡ drop 9 bytes.now }
{
    let mut cdb = [0; 16];
    cdb.copy_from_slice(&bytes[9..]);
    Head {
        tag: BigEndian::read_u64(bytes),
        lun: bytes[8],
        cdb,
    }
}

// Encodes a request frame up to its `len` bytes of data.
pub(crate) fn request_head(tag: u64, lun: u8, cdb: &[u8; 16], len: u32) -> [u8; 29]
    requires { len ≤ most_data }
    ensures { result ≡ big_bytes 4 (25 + len) ++ (big_bytes 8 tag ++ (lun ∷ cdb.now)) }
{
    let mut head = [0; 29];
    BigEndian::write_u32(&mut head, 25 + len);
    BigEndian::write_u64(&mut head[4..], tag);
    head[12] = lun;
    head[13..].copy_from_slice(cdb);
    head
}

// Encodes a reply frame without sense data, up to its `len` bytes of payload.
pub(crate) fn plain_head(tag: u64, status: Status, len: u32) -> [u8; 14]
    requires { len ≤ most_data }
    ensures { result ≡ big_bytes 4 (10 + len) ++ (big_bytes 8 tag ++ (status_byte status ∷ 0x00 ∷ [])) }
{
    let mut head = [0; 14];
    BigEndian::write_u32(&mut head, 10 + len);
    BigEndian::write_u64(&mut head[4..], tag);
    head[12] = byte_of(status);
    head
}

// Encodes the whole reply frame of a CHECK CONDITION.
pub(crate) fn sense_frame(tag: u64, sense: &[u8; 18]) -> [u8; 32]
    ensures { result ≡ big_bytes 4 28 ++ (big_bytes 8 tag ++ (0x02 ∷ 0x12 ∷ sense.now)) }
{
    let mut frame = [0; 32];
    BigEndian::write_u32(&mut frame, 28);
    BigEndian::write_u64(&mut frame[4..], tag);
    frame[12] = byte_of(Status::CheckCondition);
    frame[13] = 18;
    frame[14..].copy_from_slice(sense);
    frame
}

// The status code (SAM-3, Status).
fn byte_of(status: Status) -> u8
    ensures { result ≡ status_byte status }
{
    match status {
        Status::Good => 0x00,
        Status::CheckCondition => 0x02,
        Status::Busy => 0x08,
    }
}
