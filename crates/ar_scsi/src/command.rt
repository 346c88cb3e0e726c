// Decodes command descriptor blocks (CDBs). Every CDB is decoded to a command or refused with a sense; reserved and
// obsolete bits are ignored.
ghost use Rattle.std.specs.Prelude.{◌≡◌, ◌==◌, ◌<◌, ◌↔◌};
ghost use Rattle.std.specs.Int.{bit_at};
ghost use Rattle.ar_scsi.specs.Block.{Says, Faults};
ghost use Rattle.ar_scsi.specs.Field as field;
ghost use Rattle.ar_scsi.specs.Reading as meaning;

use crate::Sense;
use byteorder::{BigEndian, ByteOrder};

/// A decoded command. Addresses and counts are in sectors, `allocation_length` in bytes.
#[derive(Clone, Copy, Debug, PartialEq, Eq)]
pub enum Command {
    /// TEST UNIT READY.
    TestReady,
    /// INQUIRY; its data are truncated to `allocation_length`.
    Inquiry { allocation_length: u16 },
    /// READ CAPACITY (10).
    Capacity,
    /// READ (10) or READ (16).
    Read { lba: u64, count: u16 },
    /// WRITE (10) or WRITE (16), with FORCE UNIT ACCESS or without.
    Write { lba: u64, count: u16, fua: bool },
}

const TEST_UNIT_READY: u8 = 0x00;

const INQUIRY: u8 = 0x12;

const READ_CAPACITY_10: u8 = 0x25;

const READ_10: u8 = 0x28;

const WRITE_10: u8 = 0x2A;

const READ_16: u8 = 0x88;

const WRITE_16: u8 = 0x8A;

/// Decodes a CDB, padded to 16 bytes. `Err` has the sense to return: INVALID COMMAND OPERATION CODE, or INVALID FIELD
/// IN CDB.
pub fn decode(cdb: &[u8; 16]) -> Result<Command, Sense>
    ensures value { result ≡ meaning.reading cdb.now }
    ensures command { (c : Command) → (result ≡ Ok c) ↔ Says cdb.now c }
    ensures refused { (s : Sense) → (result ≡ Err s) ↔ Faults cdb.now s }
{
    read_block(cdb)
}

#[tactic(auto, unfolding(crate::specs::Reading::reading))]
fn read_block(cdb: &[u8; 16]) -> Result<Command, Sense>
    ensures { result ≡ meaning.reading cdb.now }
{
    match cdb[0] {
        TEST_UNIT_READY => test_unit_ready(cdb),
        INQUIRY => inquiry(cdb),
        READ_CAPACITY_10 => read_capacity_10(cdb),
        READ_10 => read_10(cdb),
        WRITE_10 => write_10(cdb),
        READ_16 => read_16(cdb),
        WRITE_16 => write_16(cdb),
        _ => Err(Sense::INVALID_COMMAND_OPERATION_CODE),
    }
}

/// Returns whether the operation code is that of INQUIRY, whatever the other fields hold.
pub fn is_inquiry(cdb: &[u8; 16]) -> bool
    ensures { result ≡ (field.operation_code cdb.now == 0x12) }
{
    cdb[0] == INQUIRY
}

// The command if the CDB's fields are valid.
fn where_valid(valid: bool, command: Command) -> Result<Command, Sense>
    ensures { result ≡ meaning.where_valid valid command }
{
    if valid {
        Ok(command)
    } else {
        Err(Sense::INVALID_FIELD_IN_CDB)
    }
}

// Bit `place` of a byte.
fn bit(byte: u8, place: u32) -> u8
    requires { place < 8 }
    ensures { result ≡ bit_at byte place }
{
    byte >> place & 1
}

// NACA, bit 2 of the CONTROL byte.
fn naca(control: u8) -> u8
    ensures { result ≡ bit_at control 2 }
{
    bit(control, 2)
}

// RDPROTECT or WRPROTECT, bits 7 to 5 of byte 1.
fn protect(cdb: &[u8; 16]) -> u8
    ensures { result ≡ field.protect cdb.now }
{
    cdb[1] >> 5
}

fn fua(cdb: &[u8; 16]) -> bool
    ensures { result ≡ (field.fua cdb.now == 1) }
{
    bit(cdb[1], 3) == 1
}

/// Returns the ALLOCATION LENGTH of an INQUIRY in bytes, whatever its other fields hold (SPC-3 6.4).
#[tactic(auto, unfolding(crate::specs::Field::number))]
pub fn allocation_length(cdb: &[u8; 16]) -> u16
    ensures { result ≡ field.allocation_length cdb.now }
{
    BigEndian::read_u16(&cdb[3..])
}

#[tactic(auto, unfolding(crate::specs::Field::number))]
fn logical_block_address_10(cdb: &[u8; 16]) -> u32
    ensures { result ≡ field.logical_block_address_10 cdb.now }
{
    BigEndian::read_u32(&cdb[2..])
}

#[tactic(auto, unfolding(crate::specs::Field::number))]
fn transfer_length_10(cdb: &[u8; 16]) -> u16
    ensures { result ≡ field.transfer_length_10 cdb.now }
{
    BigEndian::read_u16(&cdb[7..])
}

#[tactic(auto, unfolding(crate::specs::Field::number))]
fn logical_block_address_16(cdb: &[u8; 16]) -> u64
    ensures { result ≡ field.logical_block_address_16 cdb.now }
{
    BigEndian::read_u64(&cdb[2..])
}

#[tactic(auto, unfolding(crate::specs::Field::number))]
fn transfer_length_16(cdb: &[u8; 16]) -> u32
    ensures { result ≡ field.transfer_length_16 cdb.now }
{
    BigEndian::read_u32(&cdb[10..])
}

fn test_unit_ready(cdb: &[u8; 16]) -> Result<Command, Sense>
    ensures { result ≡ meaning.where_valid (meaning.test_unit_ready_valid cdb.now) Command.TestReady }
{
    where_valid(naca(cdb[5]) == 0, Command::TestReady)
}

fn inquiry(cdb: &[u8; 16]) -> Result<Command, Sense>
    ensures { result ≡ meaning.where_valid (meaning.inquiry_valid cdb.now)
        (Command.Inquiry (field.allocation_length cdb.now)) }
{
    let evpd = bit(cdb[1], 0);
    let page_code = cdb[2];
    let valid = naca(cdb[5]) == 0 && evpd == 0 && page_code == 0;
    let allocation_length = allocation_length(cdb);
    where_valid(valid, Command::Inquiry { allocation_length })
}

fn read_capacity_10(cdb: &[u8; 16]) -> Result<Command, Sense>
    ensures { result ≡ meaning.where_valid (meaning.read_capacity_10_valid cdb.now) Command.Capacity }
{
    let pmi = bit(cdb[8], 0);
    let valid = naca(cdb[9]) == 0 && (pmi != 0 || logical_block_address_10(cdb) == 0);
    where_valid(valid, Command::Capacity)
}

fn is_transfer_10_valid(cdb: &[u8; 16]) -> bool
    ensures { result ≡ meaning.transfer_10_valid cdb.now }
{
    naca(cdb[9]) == 0 && protect(cdb) == 0
}

fn read_10(cdb: &[u8; 16]) -> Result<Command, Sense>
    ensures { result ≡ meaning.where_valid (meaning.transfer_10_valid cdb.now)
        (Command.Read (field.logical_block_address_10 cdb.now) (field.transfer_length_10 cdb.now)) }
{
    let lba = u64::from(logical_block_address_10(cdb));
    let count = transfer_length_10(cdb);
    where_valid(is_transfer_10_valid(cdb), Command::Read { lba, count })
}

fn write_10(cdb: &[u8; 16]) -> Result<Command, Sense>
    ensures { result ≡ meaning.where_valid (meaning.transfer_10_valid cdb.now)
        (Command.Write (field.logical_block_address_10 cdb.now) (field.transfer_length_10 cdb.now)
        (field.fua cdb.now == 1)) }
{
    let lba = u64::from(logical_block_address_10(cdb));
    let count = transfer_length_10(cdb);
    let fua = fua(cdb);
    where_valid(
        is_transfer_10_valid(cdb),
        Command::Write { lba, count, fua },
    )
}

// The TRANSFER LENGTH of a 16-byte CDB with valid fields.
fn valid_count_16(cdb: &[u8; 16]) -> Option<u16>
    ensures { result ≡ meaning.valid_count_16 cdb.now }
{
    if naca(cdb[15]) != 0 || protect(cdb) != 0 {
        return None;
    }
    u16::try_from(transfer_length_16(cdb)).ok()
}

fn read_16(cdb: &[u8; 16]) -> Result<Command, Sense>
    ensures { result ≡ meaning.where_valid (meaning.transfer_16_valid cdb.now)
        (Command.Read (field.logical_block_address_16 cdb.now) (field.transfer_length_16 cdb.now)) }
{
    let count = valid_count_16(cdb).ok_or(Sense::INVALID_FIELD_IN_CDB)?;
    let lba = logical_block_address_16(cdb);
    Ok(Command::Read { lba, count })
}

fn write_16(cdb: &[u8; 16]) -> Result<Command, Sense>
    ensures { result ≡ meaning.where_valid (meaning.transfer_16_valid cdb.now)
        (Command.Write (field.logical_block_address_16 cdb.now) (field.transfer_length_16 cdb.now)
        (field.fua cdb.now == 1)) }
{
    let count = valid_count_16(cdb).ok_or(Sense::INVALID_FIELD_IN_CDB)?;
    let lba = logical_block_address_16(cdb);
    let fua = fua(cdb);
    Ok(Command::Write { lba, count, fua })
}
