// Commands that mean one of the array's own: READ and WRITE with 6 and 12 bytes, WRITE AND VERIFY, VERIFY. Each is
// translated into a block of a READ or a WRITE (10) or (16), which the array reads or refuses.
ghost use Rattle.std.specs.Prelude.{◌≡◌, ◌≤◌, ◌<◌, ◌^◌};
ghost use Rattle.ar_scsi.specs.Reading.{reading};
ghost use Rattle.ar_target.specs.Request.{SuitsRequest, request_of};
ghost use Rattle.ar_target.specs.Translation as table;

use crate::request::{Request, request_of};
use ar_disks::SECTOR_LEN;
use ar_scsi::{Command, Sense, decode};

// The low bits of byte 1 with FUA alone.
const FUA: u8 = 0x08;

/// What a CDB asks for that means a transfer; any other is given as it is.
#[tactic(auto, unfolding(crate::specs::Translation::transfer_request))]
pub(crate) fn transfer_request(cdb: &[u8; 16]) -> Request
    ensures request { result ≡ table.transfer_request cdb.now }
    ensures suits { SuitsRequest result }
{
    match cdb[0] {
        0x08 => Request::Transfer(of_6(0x28, cdb)),
        0x0A => Request::Transfer(of_6(0x2A, cdb)),
        0xA8 => Request::Transfer(of_12(0x88, cdb)),
        0xAA => Request::Transfer(of_12(0x8A, cdb)),
        0x2E => write_and_verify_by(byte_check(cdb), of_10(0x2A, FUA, cdb)),
        0x8E => write_and_verify_by(byte_check(cdb), of_16(0x8A, FUA, cdb)),
        0x2F => verify_by(byte_check(cdb), of_10(0x28, 0, cdb)),
        0x8F => verify_by(byte_check(cdb), of_16(0x88, 0, cdb)),
        _ => Request::Given,
    }
}

// READ (6) or WRITE (6) as a 10-byte command.
fn of_6(code: u8, cdb: &[u8; 16]) -> [u8; 16]
    ensures { result ≡ table.of_6 code cdb.now }
{
    let high_count = if cdb[4] == 0 { 1 } else { 0 };
    [
        code,
        0,
        0,
        cdb[1] % 32,
        cdb[2],
        cdb[3],
        0,
        high_count,
        cdb[4],
        cdb[5],
        0,
        0,
        0,
        0,
        0,
        0,
    ]
}

// READ (12) or WRITE (12) as a 16-byte command.
fn of_12(code: u8, cdb: &[u8; 16]) -> [u8; 16]
    ensures { result ≡ table.of_12 code cdb.now }
{
    [
        code, cdb[1], 0, 0, 0, 0, cdb[2], cdb[3], cdb[4], cdb[5], cdb[6], cdb[7], cdb[8], cdb[9],
        0, cdb[11],
    ]
}

// A 10-byte CDB with another OPERATION CODE and other low bits of byte 1.
fn of_10(code: u8, low: u8, cdb: &[u8; 16]) -> [u8; 16]
    requires { low < 32 }
    ensures { result ≡ table.of_10 code low cdb.now }
{
    [
        code,
        cdb[1] / 32 * 32 + low,
        cdb[2],
        cdb[3],
        cdb[4],
        cdb[5],
        0,
        cdb[7],
        cdb[8],
        cdb[9],
        0,
        0,
        0,
        0,
        0,
        0,
    ]
}

// The same of a 16-byte CDB.
fn of_16(code: u8, low: u8, cdb: &[u8; 16]) -> [u8; 16]
    requires { low < 32 }
    ensures { result ≡ table.of_16 code low cdb.now }
{
    [
        code,
        cdb[1] / 32 * 32 + low,
        cdb[2],
        cdb[3],
        cdb[4],
        cdb[5],
        cdb[6],
        cdb[7],
        cdb[8],
        cdb[9],
        cdb[10],
        cdb[11],
        cdb[12],
        cdb[13],
        0,
        cdb[15],
    ]
}

// BYTCHK, bits 2 and 1 of byte 1.
fn byte_check(cdb: &[u8; 16]) -> u8
    ensures { result ≡ table.byte_check cdb.now }
{
    cdb[1] / 2 % 4
}

// VERIFY by BYTCHK, which reads as this READ.
fn verify_by(check: u8, read: [u8; 16]) -> Request
    ensures request { result ≡ table.verify_by check read }
    ensures suits { SuitsRequest result }
{
    match check {
        0 => Request::Verify {
            read,
            compares: false,
        },
        1 => Request::Verify {
            read,
            compares: true,
        },
        _ => Request::InvalidAtUnit(Sense::INVALID_FIELD_IN_CDB),
    }
}

// WRITE AND VERIFY by BYTCHK, which is this WRITE.
fn write_and_verify_by(check: u8, write: [u8; 16]) -> Request
    ensures request { result ≡ table.write_and_verify_by check write }
    ensures suits { SuitsRequest result }
{
    if check < 2 {
        Request::Transfer(write)
    } else {
        Request::InvalidAtUnit(Sense::INVALID_FIELD_IN_CDB)
    }
}

/// The number of bytes that a command block takes from its host: those of the blocks that it writes, or compares, or of
/// an UNMAP's list.
pub fn data_out_len(cdb: &[u8; 16]) -> u32
    ensures len { result ≡ table.taken_by_request (request_of cdb.now) cdb.now }
    ensures short { result < 2 ^ 25 }
{
    match request_of(cdb) {
        Request::Given => taken_by(cdb),
        Request::Transfer(own) => taken_by(&own),
        Request::Verify {
            read,
            compares: true,
        } => returned_by(&read),
        Request::Unmap { len } => u32::from(len),
        Request::WriteSame(same) if same.has_block => SECTOR_LEN as u32,
        _ => 0,
    }
}

// The bytes that a command of the array's own takes from its host.
fn taken_by(cdb: &[u8; 16]) -> u32
    ensures len { result ≡ table.taken_by (reading cdb.now) }
    ensures short { result < 2 ^ 25 }
{
    match decode(cdb) {
        Ok(Command::Write { count, .. }) => SECTOR_LEN as u32 * u32::from(count),
        _ => 0,
    }
}

// The bytes that a READ returns.
fn returned_by(cdb: &[u8; 16]) -> u32
    ensures len { result ≡ table.returned_by (reading cdb.now) }
    ensures short { result < 2 ^ 25 }
{
    match decode(cdb) {
        Ok(Command::Read { count, .. }) => SECTOR_LEN as u32 * u32::from(count),
        _ => 0,
    }
}
