// The data that INQUIRY and READ CAPACITY return.
ghost use Rattle.std.specs.Prelude.{◌≡◌, ◌≤◌};
ghost use Rattle.ar_scsi.specs.Data as table;

use byteorder::{BigEndian, ByteOrder};

/// Returns the standard INQUIRY data (SPC-3 6.4) of a unit if `present`, and else of an address without a unit.
pub fn inquiry_data(present: bool) -> [u8; 36]
    ensures { result ≡ table.inquiry_data present }
{
    let mut bytes = *b"\x7F\x00\x05\x02\x1F\x00\x00\x00AUTORAIDTWO LEVEL ARRAY 0001";
    if present {
        bytes[0] = 0x00;
    }
    bytes
}

/// Returns the READ CAPACITY (10) data (SBC-2 5.10) of a unit of `sectors` blocks of 512 bytes, at least one: the
/// address of the last block, and the block length.
pub fn capacity_data(sectors: u32) -> [u8; 8]
    requires { 1 ≤ sectors }
    ensures { result ≡ table.capacity_data sectors }
{
    let mut bytes = [0, 0, 0, 0, 0x00, 0x00, 0x02, 0x00];
    BigEndian::write_u32(&mut bytes, sectors - 1);
    bytes
}
