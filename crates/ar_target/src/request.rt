// Decodes the command descriptor blocks (CDBs) that the device server answers; any other is given to the port. Reserved
// and obsolete bits are ignored.
ghost use Rattle.std.specs.Prelude.{◌≡◌, ◌≤◌, ◌<◌, ◌==◌, ℕ};
ghost use Rattle.std.specs.Int.{bit_at};
ghost use Rattle.ar_scsi.specs.Field as field;
ghost use Rattle.ar_target.specs.Request as table;

use crate::operations::Operation;
use crate::provisioning::{WriteSame, unmap_request, write_same_10_request, write_same_16_request};
use crate::translation::transfer_request;
use ar_scsi::{Sense, allocation_length};
use byteorder::{BigEndian, ByteOrder};

/// A page of vital product data (VPD).
#[derive(Clone, Copy, Debug, PartialEq, Eq)]
pub enum VpdPage {
    /// 00h: the codes of the pages.
    SupportedPages,
    /// 80h.
    UnitSerialNumber,
    /// 83h: names of the unit.
    DeviceIdentification,
    /// B0h: the largest transfer, discard and WRITE SAME, and the best multiple of blocks.
    BlockLimits,
    /// B1h: the medium doesn't rotate.
    BlockDeviceCharacteristics,
    /// B2h: blocks can be unmapped, and read as zeros then.
    LogicalBlockProvisioning,
}

/// The mode pages that a MODE SENSE asks for.
#[derive(Clone, Copy, Debug, PartialEq, Eq)]
pub enum ModePages {
    /// 01h: how errors of the medium are recovered from.
    ErrorRecovery,
    /// 08h: whether the array has a cache.
    Caching,
    /// 0Ah: how commands are executed.
    Control,
    /// 1Ch: how failures that are foreseen are reported.
    InformationalExceptions,
    /// 3Fh: all pages.
    All,
}

/// What a MODE SENSE asks for.
#[derive(Clone, Copy, Debug, PartialEq, Eq)]
pub struct ModeSense {
    /// MODE SENSE (10), whose header has eight bytes in place of four.
    pub is_long: bool,
    /// A block descriptor is returned: DBD is 0.
    pub has_descriptor: bool,
    /// Which bits of the pages can be changed is returned in place of their values.
    pub changeable: bool,
    pub pages: ModePages,
    /// ALLOCATION LENGTH in bytes.
    pub len: u16,
}

/// A report on the target.
#[derive(Clone, Copy, Debug, PartialEq, Eq)]
pub enum TargetReport {
    /// REPORT SUPPORTED OPERATION CODES of all commands.
    AllOperations,
    /// REPORT SUPPORTED OPERATION CODES of one command.
    OneOperation(Operation),
    /// REPORT TARGET PORT GROUPS.
    PortGroups,
}

/// What is asked of a device server. A `len` is an ALLOCATION LENGTH in bytes.
#[derive(Clone, Copy, Debug, PartialEq, Eq)]
pub enum Request {
    /// A command for the port, untouched.
    Given,
    /// INQUIRY of the standard data, which the port returns but for what it doesn't know of: queues, target ports and
    /// versions of standards.
    StandardData { len: u16 },
    /// A command that means this one of the array's own.
    Transfer([u8; 16]),
    /// VERIFY of the blocks that this READ returns: it compares them with the data that come with it, or reads them.
    Verify { read: [u8; 16], compares: bool },
    /// A CDB that is refused with this sense, whatever is at its LUN.
    InvalidAtTarget(Sense),
    /// A CDB that a unit refuses with this sense, unless it has another to report first.
    InvalidAtUnit(Sense),
    /// INQUIRY of a VPD page.
    Vpd { page: VpdPage, len: u16 },
    /// REPORT LUNS of the host's units.
    ReportLuns { len: u32 },
    /// REPORT LUNS of well known logical units, of which there are none.
    ReportWellKnown { len: u32 },
    /// MODE SENSE (6) or (10) of one page or of all pages.
    ModeSense(ModeSense),
    /// REQUEST SENSE in fixed format.
    RequestSense { len: u8 },
    /// READ CAPACITY (16).
    LongCapacity { len: u32 },
    /// GET LBA STATUS from this block on.
    LbaStatus { lba: u64, len: u32 },
    /// SYNCHRONIZE CACHE (10) or (16) of `count` blocks from `lba` on, or of all after it if `count` is 0.
    Synchronize { lba: u64, count: u32 },
    /// UNMAP with a PARAMETER LIST LENGTH of `len` bytes.
    Unmap { len: u16 },
    /// WRITE SAME (10) or (16).
    WriteSame(WriteSame),
    /// START STOP UNIT.
    StartStop,
    /// SEND DIAGNOSTIC of the default self-test, or of nothing.
    SelfTest,
    /// A report on the target, which is the same for each unit.
    Report { of: TargetReport, len: u32 },
}

/// MODE SENSE of saved values: ILLEGAL REQUEST, SAVING PARAMETERS NOT SUPPORTED.
pub const SAVING_PARAMETERS_NOT_SUPPORTED: Sense = Sense {
    key: 0x05,
    asc: 0x39,
    ascq: 0x00,
};

/// Decodes a CDB, padded to 16 bytes.
#[tactic(auto, unfolding(crate::specs::Request::request_of))]
pub fn request_of(cdb: &[u8; 16]) -> Request
    ensures request { result ≡ table.request_of cdb.now }
    ensures suits { table.SuitsRequest result }
{
    match cdb[0] {
        0x12 => inquiry(cdb),
        0xA0 => report_luns(cdb),
        0x1A => mode_sense_6(cdb),
        0x5A => mode_sense_10(cdb),
        0x03 => request_sense(cdb),
        0x9E => service_action_in_16(cdb),
        0x35 => synchronize_cache_10(cdb),
        0x91 => synchronize_cache_16(cdb),
        0x1B => start_stop_unit(cdb),
        0x1D => send_diagnostic(cdb),
        0xA3 => maintenance_in(cdb),
        0x42 => unmap_request(cdb),
        0x41 => write_same_10_request(cdb),
        0x93 => write_same_16_request(cdb),
        _ => transfer_request(cdb),
    }
}

/// Whether bit `place` of a byte is 1.
pub(crate) fn flag(byte: u8, place: u32) -> bool
    requires { place < 8 }
    ensures { result ≡ (bit_at byte place == 1) }
{
    byte >> place & 1 == 1
}

/// NACA, bit 2 of the CONTROL byte.
pub(crate) fn naca(control: u8) -> bool
    ensures { result ≡ (bit_at control 2 == 1) }
{
    flag(control, 2)
}

/// The number in the two bytes from byte `i` on.
#[tactic(auto, unfolding(ar_scsi::specs::Field::number))]
pub(crate) fn number_16(cdb: &[u8; 16], i: usize) -> u16
    requires { i ≤ 14 }
    ensures { result ≡ field.number i 2 cdb.now }
{
    BigEndian::read_u16(&cdb[i..])
}

/// The number in the four bytes from byte `i` on.
#[tactic(auto, unfolding(ar_scsi::specs::Field::number))]
pub(crate) fn number_32(cdb: &[u8; 16], i: usize) -> u32
    requires { i ≤ 12 }
    ensures { result ≡ field.number i 4 cdb.now }
{
    BigEndian::read_u32(&cdb[i..])
}

/// The number in the eight bytes from byte `i` on.
#[tactic(auto, unfolding(ar_scsi::specs::Field::number))]
pub(crate) fn number_64(cdb: &[u8; 16], i: usize) -> u64
    requires { i ≤ 8 }
    ensures { result ≡ field.number i 8 cdb.now }
{
    BigEndian::read_u64(&cdb[i..])
}

// The request if the fields are valid; a unit refuses any other.
fn where_fields_valid(valid: bool, request: Request) -> Request
    ensures { result ≡ table.where_fields_valid valid request }
{
    if valid {
        request
    } else {
        Request::InvalidAtUnit(Sense::INVALID_FIELD_IN_CDB)
    }
}

// INQUIRY; of a page that isn't supported, and of any with NACA, the port refuses it.
fn inquiry(cdb: &[u8; 16]) -> Request
    ensures request { result ≡ table.inquiry_request cdb.now }
    ensures suits { table.SuitsRequest result }
{
    if !flag(cdb[1], 0) {
        return Request::StandardData {
            len: allocation_length(cdb),
        };
    }
    if naca(cdb[5]) {
        return Request::Given;
    }
    match vpd_page_of(cdb[2]) {
        Some(page) => Request::Vpd {
            page,
            len: allocation_length(cdb),
        },
        None => Request::Given,
    }
}

// The VPD page of a page code.
fn vpd_page_of(code: u8) -> Option<VpdPage>
    ensures { result ≡ table.vpd_page_of code }
{
    match code {
        0x00 => Some(VpdPage::SupportedPages),
        0x80 => Some(VpdPage::UnitSerialNumber),
        0x83 => Some(VpdPage::DeviceIdentification),
        0xB0 => Some(VpdPage::BlockLimits),
        0xB1 => Some(VpdPage::BlockDeviceCharacteristics),
        0xB2 => Some(VpdPage::LogicalBlockProvisioning),
        _ => None,
    }
}

fn report_luns(cdb: &[u8; 16]) -> Request
    ensures request { result ≡ table.report_luns_request cdb.now }
    ensures suits { table.SuitsRequest result }
{
    let len = number_32(cdb, 6);
    if naca(cdb[11]) || len < 16 {
        return Request::InvalidAtTarget(Sense::INVALID_FIELD_IN_CDB);
    }
    match cdb[2] {
        0 | 2 => Request::ReportLuns { len },
        1 => Request::ReportWellKnown { len },
        _ => Request::InvalidAtTarget(Sense::INVALID_FIELD_IN_CDB),
    }
}

// The pages that are asked for, without subpages or, of all pages, with theirs. None: no such page.
fn mode_pages_of(cdb: &[u8; 16]) -> Option<ModePages>
    ensures { result ≡ table.mode_pages_of cdb.now }
{
    match (cdb[2] % 64, cdb[3]) {
        (0x01, 0x00) => Some(ModePages::ErrorRecovery),
        (0x08, 0x00) => Some(ModePages::Caching),
        (0x0A, 0x00) => Some(ModePages::Control),
        (0x1C, 0x00) => Some(ModePages::InformationalExceptions),
        (0x3F, 0x00 | 0xFF) => Some(ModePages::All),
        _ => None,
    }
}

// MODE SENSE, long or not, with this CONTROL byte and this allocation length.
fn mode_sense(cdb: &[u8; 16], control: u8, is_long: bool, len: u16) -> Request
    ensures { result ≡ table.mode_sense_request cdb.now control is_long len }
{
    let Some(pages) = mode_pages_of(cdb) else {
        return Request::InvalidAtUnit(Sense::INVALID_FIELD_IN_CDB);
    };
    if naca(control) {
        return Request::InvalidAtUnit(Sense::INVALID_FIELD_IN_CDB);
    }
    if cdb[2] >> 6 == 3 {
        return Request::InvalidAtUnit(SAVING_PARAMETERS_NOT_SUPPORTED);
    }
    Request::ModeSense(ModeSense {
        is_long,
        has_descriptor: !flag(cdb[1], 3),
        changeable: cdb[2] >> 6 == 1,
        pages,
        len,
    })
}

fn mode_sense_6(cdb: &[u8; 16]) -> Request
    ensures { result ≡ table.mode_sense_6_request cdb.now }
{
    mode_sense(cdb, cdb[5], false, u16::from(cdb[4]))
}

fn mode_sense_10(cdb: &[u8; 16]) -> Request
    ensures { result ≡ table.mode_sense_10_request cdb.now }
{
    mode_sense(cdb, cdb[9], true, number_16(cdb, 7))
}

fn request_sense(cdb: &[u8; 16]) -> Request
    ensures { result ≡ table.request_sense_request cdb.now }
{
    if naca(cdb[5]) || flag(cdb[1], 0) {
        Request::InvalidAtTarget(Sense::INVALID_FIELD_IN_CDB)
    } else {
        Request::RequestSense { len: cdb[4] }
    }
}

// GET LBA STATUS.
fn lba_status(cdb: &[u8; 16]) -> Request
    ensures { result ≡ table.lba_status_request cdb.now }
{
    let lba = number_64(cdb, 2);
    let len = number_32(cdb, 10);
    where_fields_valid(!naca(cdb[15]), Request::LbaStatus { lba, len })
}

// SERVICE ACTION IN (16), of which GET LBA STATUS and READ CAPACITY (16) are supported.
fn service_action_in_16(cdb: &[u8; 16]) -> Request
    ensures { result ≡ table.service_action_in_16_request cdb.now }
{
    if cdb[1] % 32 == 0x12 {
        return lba_status(cdb);
    }
    let valid_address = flag(cdb[14], 0) || number_64(cdb, 2) == 0;
    let valid = cdb[1] % 32 == 0x10 && !naca(cdb[15]) && valid_address;
    let len = number_32(cdb, 10);
    where_fields_valid(valid, Request::LongCapacity { len })
}

fn synchronize_cache_10(cdb: &[u8; 16]) -> Request
    ensures { result ≡ table.synchronize_cache_10_request cdb.now }
{
    let lba = u64::from(number_32(cdb, 2));
    let count = u32::from(number_16(cdb, 7));
    where_fields_valid(!naca(cdb[9]), Request::Synchronize { lba, count })
}

fn synchronize_cache_16(cdb: &[u8; 16]) -> Request
    ensures { result ≡ table.synchronize_cache_16_request cdb.now }
{
    let lba = number_64(cdb, 2);
    let count = number_32(cdb, 10);
    where_fields_valid(!naca(cdb[15]), Request::Synchronize { lba, count })
}

// START STOP UNIT: the unit is always ready, whatever is asked for. A stop flushes it, unless NO_FLUSH is set.
fn start_stop_unit(cdb: &[u8; 16]) -> Request
    ensures { result ≡ table.start_stop_unit_request cdb.now }
{
    let request = if !flag(cdb[4], 0) && !flag(cdb[4], 2) {
        Request::Synchronize { lba: 0, count: 0 }
    } else {
        Request::StartStop
    };
    where_fields_valid(!naca(cdb[5]), request)
}

// SEND DIAGNOSTIC: the default self-test, or nothing; no parameters, and no other self-test.
fn send_diagnostic(cdb: &[u8; 16]) -> Request
    ensures { result ≡ table.send_diagnostic_request cdb.now }
{
    let valid = !naca(cdb[5]) && cdb[1] / 32 == 0 && number_16(cdb, 3) == 0;
    where_fields_valid(valid, Request::SelfTest)
}

// MAINTENANCE IN, by its SERVICE ACTION.
fn maintenance_in(cdb: &[u8; 16]) -> Request
    ensures { result ≡ table.maintenance_in_request cdb.now }
{
    let len = number_32(cdb, 6);
    match cdb[1] % 32 {
        0x0A => {
            let valid = !naca(cdb[11]) && cdb[1] / 32 == 0;
            let of = TargetReport::PortGroups;
            where_fields_valid(valid, Request::Report { of, len })
        }
        0x0C => {
            if naca(cdb[11]) {
                return Request::InvalidAtUnit(Sense::INVALID_FIELD_IN_CDB);
            }
            operations_by(cdb[2] % 8, cdb[3], number_16(cdb, 4), len)
        }
        _ => Request::InvalidAtUnit(Sense::INVALID_FIELD_IN_CDB),
    }
}

// Whether the commands of an OPERATION CODE have SERVICE ACTIONs.
fn has_actions(code: u8) -> bool
    ensures { result ≡ table.has_actions code }
{
    code == 0x9E || code == 0xA3
}

// REPORT SUPPORTED OPERATION CODES, by REPORTING OPTIONS.
fn operations_by(option: u8, code: u8, action: u16, len: u32) -> Request
    ensures { result ≡ table.operations_by option code action len }
{
    match option {
        0 => Request::Report {
            of: TargetReport::AllOperations,
            len,
        },
        1 => where_fields_valid(!has_actions(code), one_operation(code, 0, len)),
        2 => where_fields_valid(has_actions(code), one_operation(code, action, len)),
        3 => one_operation(code, action, len),
        _ => Request::InvalidAtUnit(Sense::INVALID_FIELD_IN_CDB),
    }
}

// REPORT SUPPORTED OPERATION CODES of one command.
fn one_operation(code: u8, action: u16, len: u32) -> Request
    ensures { result ≡ table.one_operation code action len }
{
    Request::Report {
        of: TargetReport::OneOperation(Operation { code, action }),
        len,
    }
}
