// Command descriptor blocks, each padded with zeros to 16 bytes. Each decodes to the command that it is named after.
//
//     INQUIRY             | 12 | 0 | 0 | allocation length:2 | 0 |
//     READ, WRITE (10)    | 28, 2A | flags | LBA:4 | 0 | transfer length:2 | 0 |
//     READ, WRITE (16)    | 88, 8A | flags | LBA:8 | transfer length:4 | 0 | 0 |
ghost use Rattle.std.specs.Prelude.{◌≡◌};
ghost use Rattle.ar_scsi.specs.Block.{Says};
ghost use Rattle.ar_language.specs.Blocks.{test_unit_ready_block, inquiry_block, read_capacity_block, block_10};
ghost use Rattle.ar_language.specs.Blocks.{block_16, flags_of};
ghost use Rattle.ar_language.specs.Blocks.{read_10_block, read_16_block, write_10_block, write_16_block};

use ar_scsi::Command;

/// TEST UNIT READY (SPC-3, TEST UNIT READY command).
pub fn test_unit_ready() -> [u8; 16]
    ensures block { result ≡ test_unit_ready_block }
    ensures says { Says result Command.TestReady }
{
    [0; 16]
}

/// INQUIRY for standard data of at most `allocation_length` bytes (SPC-3, INQUIRY command).
pub fn inquiry(allocation_length: u16) -> [u8; 16]
    ensures block { result ≡ inquiry_block allocation_length }
    ensures says { Says result (Command.Inquiry allocation_length) }
{
    inquiry_fields(allocation_length)
}

/// READ CAPACITY (10) of the whole unit (SBC-2, READ CAPACITY (10) command).
pub fn read_capacity() -> [u8; 16]
    ensures block { result ≡ read_capacity_block }
    ensures says { Says result Command.Capacity }
{
    [0x25, 0, 0, 0, 0, 0, 0, 0, 0, 0, 0, 0, 0, 0, 0, 0]
}

/// READ (10) of `count` sectors from `lba` on (SBC-2, READ (10) command).
pub fn read_10(lba: u32, count: u16) -> [u8; 16]
    ensures block { result ≡ read_10_block lba count }
    ensures says { Says result (Command.Read lba count) }
{
    transfer_10(0x28, 0, lba, count)
}

/// WRITE (10) of `count` sectors from `lba` on, with FORCE UNIT ACCESS if `fua` (SBC-2, WRITE (10) command).
pub fn write_10(lba: u32, count: u16, fua: bool) -> [u8; 16]
    ensures block { result ≡ write_10_block lba count fua }
    ensures says { Says result (Command.Write lba count fua) }
{
    transfer_10(0x2A, flags(fua), lba, count)
}

/// READ (16) of `count` sectors from `lba` on (SBC-2, READ (16) command).
pub fn read_16(lba: u64, count: u16) -> [u8; 16]
    ensures block { result ≡ read_16_block lba count }
    ensures says { Says result (Command.Read lba count) }
{
    transfer_16(0x88, 0, lba, count)
}

/// WRITE (16) of `count` sectors from `lba` on, with FORCE UNIT ACCESS if `fua` (SBC-2, WRITE (16) command).
pub fn write_16(lba: u64, count: u16, fua: bool) -> [u8; 16]
    ensures block { result ≡ write_16_block lba count fua }
    ensures says { Says result (Command.Write lba count fua) }
{
    transfer_16(0x8A, flags(fua), lba, count)
}

fn inquiry_fields(allocation_length: u16) -> [u8; 16]
    ensures { result ≡ inquiry_block allocation_length }
{
    let [high, low] = allocation_length.to_be_bytes();
    [0x12, 0, 0, high, low, 0, 0, 0, 0, 0, 0, 0, 0, 0, 0, 0]
}

// Byte 1 of a WRITE: bit 3 is FUA.
fn flags(fua: bool) -> u8
    ensures { result ≡ flags_of fua }
{
    if fua { 0x08 } else { 0 }
}

// A READ or WRITE of ten bytes.
fn transfer_10(code: u8, flags: u8, lba: u32, count: u16) -> [u8; 16]
    ensures { result ≡ block_10 code flags lba count }
{
    let [first, second, third, fourth] = lba.to_be_bytes();
    let [high, low] = count.to_be_bytes();
    [
        code, flags, first, second, third, fourth, 0, high, low, 0, 0, 0, 0, 0, 0, 0,
    ]
}

// A READ or WRITE of sixteen bytes.
fn transfer_16(code: u8, flags: u8, lba: u64, count: u16) -> [u8; 16]
    ensures { result ≡ block_16 code flags lba count }
{
    let [b0, b1, b2, b3, b4, b5, b6, b7] = lba.to_be_bytes();
    let [high, low] = count.to_be_bytes();
    [
        code, flags, b0, b1, b2, b3, b4, b5, b6, b7, 0, 0, high, low, 0, 0,
    ]
}
