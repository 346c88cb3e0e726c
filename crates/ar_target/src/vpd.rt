// The pages of vital product data (VPD) of a unit.
ghost use Rattle.std.specs.Prelude.{◌≡◌, ◌<◌};
ghost use Rattle.ar_target.specs.Vpd as page;

/// Supported VPD pages (SPC-3, Supported VPD pages).
pub(crate) fn supported_pages() -> [u8; 10]
    ensures { result ≡ page.supported_pages }
{
    [0x00, 0x00, 0x00, 0x06, 0x00, 0x80, 0x83, 0xB0, 0xB1, 0xB2]
}

/// Supported VPD pages at a LUN without a unit: this page alone.
pub(crate) fn absent_pages() -> [u8; 5]
    ensures { result ≡ page.absent_pages }
{
    [0x7F, 0x00, 0x00, 0x01, 0x00]
}

// A hexadecimal digit in ASCII.
#[tactic(auto, unfolding(crate::specs::Vpd::hex_digit))]
fn hex_digit(value: u8) -> u8
    requires { value < 16 }
    ensures { result ≡ page.hex_digit value }
{
    if value < 10 {
        b'0' + value
    } else {
        b'A' - 10 + value
    }
}

/// The serial number of a unit: its array, host, LUN and generation in hexadecimal digits.
pub fn serial_number(array: u32, host: u8, lun: u8, generation: u16) -> [u8; 16]
    ensures { result ≡ page.serial_number array host lun generation }
{
    let number = array.to_be_bytes();
    let made = generation.to_be_bytes();
    [
        hex_digit(number[0] / 16),
        hex_digit(number[0] % 16),
        hex_digit(number[1] / 16),
        hex_digit(number[1] % 16),
        hex_digit(number[2] / 16),
        hex_digit(number[2] % 16),
        hex_digit(number[3] / 16),
        hex_digit(number[3] % 16),
        hex_digit(host / 16),
        hex_digit(host % 16),
        hex_digit(lun / 16),
        hex_digit(lun % 16),
        hex_digit(made[0] / 16),
        hex_digit(made[0] % 16),
        hex_digit(made[1] / 16),
        hex_digit(made[1] % 16),
    ]
}

/// Unit Serial Number (SPC-3, Unit Serial Number VPD page).
#[tactic(auto, unfolding(crate::specs::Vpd::unit_serial_number))]
pub(crate) fn unit_serial_number(array: u32, host: u8, lun: u8, generation: u16) -> [u8; 20]
    ensures { result ≡ page.unit_serial_number array host lun generation }
{
    let mut bytes = [0; 20];
    bytes[1] = 0x80;
    bytes[3] = 0x10;
    bytes[4..].copy_from_slice(&serial_number(array, host, lun, generation));
    bytes
}

/// Device Identification (SPC-3, Device Identification VPD page): a T10 vendor ID based designator of the unit, an NAA
/// Locally Assigned one, and three of the target port.
#[tactic(auto, unfolding(crate::specs::Vpd::device_identification))]
pub(crate) fn device_identification(array: u32, host: u8, lun: u8, generation: u16) -> [u8; 108]
    ensures { result ≡ page.device_identification array host lun generation }
{
    let mut bytes = [0; 108];
    bytes[1] = 0x83;
    bytes[3] = 0x68;
    bytes[4..44].copy_from_slice(&unit_designators(array, host, lun, generation));
    bytes[44..].copy_from_slice(&port_designators(host));
    bytes
}

// The designators of the logical unit.
fn unit_designators(array: u32, host: u8, lun: u8, generation: u16) -> [u8; 40]
    ensures { result ≡ page.unit_designators array host lun generation }
{
    let mut bytes = [0; 40];
    bytes[..12].copy_from_slice(b"\x02\x01\x00\x18AUTORAID");
    bytes[12..28].copy_from_slice(&serial_number(array, host, lun, generation));
    bytes[28..].copy_from_slice(&naa_designator(array, host, lun, generation));
    bytes
}

// The NAA designator of the logical unit, which has twelve bits of the generation.
fn naa_designator(array: u32, host: u8, lun: u8, generation: u16) -> [u8; 12]
    ensures { result ≡ page.naa_designator array host lun generation }
{
    let number = array.to_be_bytes();
    let [first, second] = naa_front(generation % 4096);
    [
        0x01, 0x03, 0x00, 0x08, first, second, number[0], number[1], number[2], number[3], host,
        lun,
    ]
}

// NAA 3h, and the twelve bits of a generation.
fn naa_front(short: u16) -> [u8; 2]
    requires { short < 4096 }
    ensures { result ≡ page.naa_front short }
{
    [0x30 + (short / 256) as u8, (short % 256) as u8]
}

// The designators of the target port of a host.
fn port_designators(host: u8) -> [u8; 64]
    ensures { result ≡ page.port_designators host }
{
    let mut bytes =
        *b"\x51\x94\x00\x04\x00\x00\x00\x01\x51\x95\x00\x04\x00\x00\x00\x01\x53\x98\x00\x2Ciqn.2026-11.example.autoraid:host0,t,0x0001\x00";
    bytes[53] = b'0' + host % 10;
    bytes
}

/// REPORT TARGET PORT GROUPS data: one group, which is active/optimized, with one port.
pub(crate) const PORT_GROUPS: [u8; 16] = [0, 0, 0, 0x0C, 0, 0x01, 0, 1, 0, 0, 0, 1, 0, 0, 0, 1];

// The sectors of an optimal transfer.
fn optimal_sectors(block: u16) -> u32
    ensures { result ≡ page.optimal_sectors block }
{
    if block == 0 {
        return 0;
    }
    let block = u32::from(block);
    block.max(2048 - 2048 % block)
}

/// Block Limits (SBC-3, Block Limits VPD page), for an array with blocks of `block_sectors` sectors.
#[tactic(auto, unfolding(crate::specs::Vpd::block_limits))]
pub(crate) fn block_limits(block_sectors: u16) -> [u8; 64]
    ensures { result ≡ page.block_limits block_sectors }
{
    let mut bytes = [0; 64];
    bytes[..32].copy_from_slice(&transfer_limits(block_sectors));
    bytes[32] = 0x80;
    bytes[41] = 0x10;
    bytes
}

// The first half of the page: WSNZ, the limits of a transfer and of an UNMAP.
fn transfer_limits(block_sectors: u16) -> [u8; 32]
    ensures { result ≡ page.transfer_limits block_sectors }
{
    let block = block_sectors.to_be_bytes();
    let optimal = optimal_sectors(block_sectors).to_be_bytes();
    [
        0x00, 0xB0, 0x00, 0x3C, 0x01, 0x00, block[0], block[1], //
        0x00, 0x00, 0xFF, 0xFF, optimal[0], optimal[1], optimal[2], optimal[3], //
        0x00, 0x00, 0x00, 0x00, 0x00, 0x10, 0x00, 0x00, //
        0x00, 0x00, 0x01, 0x00, 0x00, 0x00, block[0], block[1],
    ]
}

/// Logical Block Provisioning (SBC-3, Logical Block Provisioning VPD page): LBPU, LBPWS, LBPWS10 and LBPRZ; thin.
pub(crate) const LOGICAL_BLOCK_PROVISIONING: [u8; 8] = [0, 0xB2, 0, 4, 0, 0xE4, 2, 0];

/// Block Device Characteristics (SBC-3, Block Device Characteristics VPD page).
#[tactic(auto, unfolding(crate::specs::Vpd::block_device_characteristics))]
pub(crate) fn block_device_characteristics() -> [u8; 64]
    ensures { result ≡ page.block_device_characteristics }
{
    let mut bytes = [0; 64];
    bytes[1] = 0xB1;
    bytes[3] = 0x3C;
    bytes[5] = 0x01;
    bytes
}
