// The answers that are made of one reply of the port.
ghost use Rattle.std.specs.Prelude.{◌≡◌, ◌<◌, ◌≤◌, IfOk, take, length};
ghost use Rattle.ar_scsi.specs.Reply.{good, check};
ghost use Rattle.ar_frames.specs.Frame.{IsReply, most_data};
ghost use Rattle.ar_target.specs.Answer as answer;
ghost use Rattle.ar_target.specs.Mode as mode;
ghost use Rattle.ar_target.specs.OwnCommands.{IsReturned};
ghost use Rattle.ar_target.specs.Vpd as vpd;

use crate::attributes::Attributes;
use crate::mode::mode_data;
use crate::operations::{all_commands, one_command};
use crate::own_commands::{cut_reply, handed_on, last_block, presence};
use crate::request::{ModeSense, TargetReport, VpdPage};
use crate::vpd::{
    LOGICAL_BLOCK_PROVISIONING, PORT_GROUPS, absent_pages, block_device_characteristics,
    block_limits, device_identification, supported_pages, unit_serial_number,
};
use ar_scsi::{Reply, Sense, Status, sense18};
use byteorder::{BigEndian, ByteOrder};
use bytes::Bytes;
use std::alloc::{AllocError, Global};

const NO_SENSE: Sense = Sense {
    key: 0x00,
    asc: 0x00,
    ascq: 0x00,
};

/// The answer to a CDB that a unit refuses with `sense`.
pub(crate) fn refuse(sense: Sense, own_reply: Reply) -> Reply
    requires { IsReply own_reply }
    ensures answer { result ≡ answer.invalid_answer sense own_reply }
    ensures reply { IsReply result }
{
    match last_block(&own_reply) {
        Some(_) => Reply::check(sense),
        None => handed_on(own_reply),
    }
}

/// The answer to INQUIRY of a VPD page of the unit at `lun`.
pub(crate) fn answer_vpd(
    alloc: Global,
    attributes: &Attributes,
    lun: u8,
    generation: u16,
    page: VpdPage,
    len: u16,
    own_reply: Reply,
) -> Reply
    requires { IsReply own_reply }
    ensures answer { IsReturned (answer.vpd_answer attributes.now lun generation page len own_reply) result }
    ensures reply { IsReply result }
{
    match presence(&own_reply) {
        Some(true) => page_reply(alloc, attributes, lun, generation, page, usize::from(len)),
        Some(false) => absent_page_reply(alloc, page, usize::from(len)),
        None => handed_on(own_reply),
    }
}

// The answer at a LUN without a unit.
fn absent_page_reply(alloc: Global, page: VpdPage, len: usize) -> Reply
    requires { len < 65536 }
    ensures answer { IsReturned (answer.absent_page_answer page len) result }
    ensures reply { IsReply result }
{
    match page {
        VpdPage::SupportedPages => cut_reply(alloc, &absent_pages(), len),
        _ => Reply::check(Sense::INVALID_FIELD_IN_CDB),
    }
}

// GOOD with the first `len` bytes of a page.
fn page_reply(
    alloc: Global,
    attributes: &Attributes,
    lun: u8,
    generation: u16,
    page: VpdPage,
    len: usize,
) -> Reply
    requires { len < 65536 }
    ensures answer { IsReturned (good (take len (vpd.vpd_data attributes.now lun generation page))) result }
    ensures reply { IsReply result }
{
    let (array, host) = (attributes.array, attributes.host);
    match page {
        VpdPage::SupportedPages => cut_reply(alloc, &supported_pages(), len),
        VpdPage::UnitSerialNumber => {
            cut_reply(
                alloc,
                &unit_serial_number(array, host, lun, generation),
                len,
            )
        }
        VpdPage::DeviceIdentification => {
            cut_reply(
                alloc,
                &device_identification(array, host, lun, generation),
                len,
            )
        }
        VpdPage::BlockLimits => cut_reply(alloc, &block_limits(attributes.block_sectors), len),
        VpdPage::BlockDeviceCharacteristics => {
            cut_reply(alloc, &block_device_characteristics(), len)
        }
        VpdPage::LogicalBlockProvisioning => cut_reply(alloc, &LOGICAL_BLOCK_PROVISIONING, len),
    }
}

/// The answer to MODE SENSE, on an array that has a cache if `write_back`.
pub(crate) fn answer_mode(
    alloc: Global,
    write_back: bool,
    sense: ModeSense,
    own_reply: Reply,
) -> Reply
    requires { IsReply own_reply }
    ensures answer { IsReturned (answer.mode_answer write_back sense own_reply) result }
    ensures reply { IsReply result }
{
    match last_block(&own_reply) {
        Some(last) => mode_reply(alloc, write_back, sense, last),
        None => handed_on(own_reply),
    }
}

// GOOD with the mode data of a unit whose last block is `last`. Without bytes to return nothing is allocated.
fn mode_reply(alloc: Global, write_back: bool, sense: ModeSense, last: u32) -> Reply
    ensures answer { IsReturned (good (take sense.len (mode.mode_data write_back sense last))) result }
    ensures reply { IsReply result }
{
    if sense.len == 0 {
        return Reply::good(Bytes::new());
    }
    match mode_data(alloc, write_back, sense, last) {
        Ok(bytes) => cut_reply(alloc, &bytes, usize::from(sense.len)),
        Err(_) => Reply::busy(),
    }
}

/// The answer to READ CAPACITY (16), on an array with blocks of `block_sectors` sectors.
pub(crate) fn answer_capacity(
    alloc: Global,
    block_sectors: u16,
    len: u32,
    own_reply: Reply,
) -> Reply
    requires { IsReply own_reply }
    ensures answer { IsReturned (answer.long_capacity_answer block_sectors len own_reply) result }
    ensures reply { IsReply result }
{
    match last_block(&own_reply) {
        Some(last) => {
            let bytes = long_capacity_data(block_sectors, last);
            cut_reply(alloc, &bytes, len as usize)
        }
        None => handed_on(own_reply),
    }
}

// READ CAPACITY (16) data of a unit whose last block is `last`.
#[tactic(auto, unfolding(crate::specs::Answer::long_capacity_data))]
fn long_capacity_data(block_sectors: u16, last: u32) -> [u8; 32]
    ensures { result ≡ answer.long_capacity_data block_sectors last }
{
    let mut bytes = [0; 32];
    bytes[10] = 0x02;
    bytes[13] = block_exponent(block_sectors);
    bytes[14] = 0xC0;
    BigEndian::write_u64(&mut bytes, u64::from(last));
    bytes
}

// LOGICAL BLOCKS PER PHYSICAL BLOCK EXPONENT.
fn block_exponent(sectors: u16) -> u8
    ensures { result ≡ answer.block_exponent sectors }
{
    if sectors < 16 {
        3
    } else if sectors < 32 {
        4
    } else if sectors < 64 {
        5
    } else if sectors < 128 {
        6
    } else if sectors < 256 {
        7
    } else if sectors < 512 {
        8
    } else if sectors < 1_024 {
        9
    } else if sectors < 2_048 {
        10
    } else {
        11
    }
}

/// The answer to a report on the target, cut to `len` bytes.
pub(crate) fn answer_report(
    alloc: Global,
    report: TargetReport,
    len: u32,
    own_reply: Reply,
) -> Reply
    requires { IsReply own_reply }
    ensures answer { IsReturned (answer.report_answer report len own_reply) result }
    ensures reply { IsReply result }
{
    match last_block(&own_reply) {
        Some(_) => report_reply(alloc, report, len as usize),
        None => handed_on(own_reply),
    }
}

// GOOD with the first `len` bytes of a report.
fn report_reply(alloc: Global, report: TargetReport, len: usize) -> Reply
    ensures answer { IsReturned (good (take len (answer.report_data report))) result }
    ensures reply { IsReply result }
{
    match report {
        TargetReport::AllOperations => cut_reply(alloc, &all_commands(), len),
        TargetReport::OneOperation(operation) => {
            let (bytes, shown) = one_command(operation);
            cut_reply(alloc, &bytes[..shown], len)
        }
        TargetReport::PortGroups => cut_reply(alloc, &PORT_GROUPS, len),
    }
}

/// What standard INQUIRY data have from byte 36 on: four VERSION DESCRIPTORS at 58, SAM-3, iSCSI, SPC-3 and SBC-3.
const VERSION_DESCRIPTORS: [u8; 38] = [
    0, 0, 0, 0, 0, 0, 0, 0, 0, 0, 0, 0, 0, 0, 0, 0, 0, 0, 0, 0, 0, 0, 0x00, 0x60, 0x09, 0x60, 0x03,
    0x00, 0x04, 0xC0, 0, 0, 0, 0, 0, 0, 0, 0,
];

/// The answer to INQUIRY of the standard data: the port's own, with target port groups, queues and versions.
pub(crate) fn answer_standard(alloc: Global, len: u16, own_reply: Reply) -> Reply
    requires { IsReply own_reply }
    ensures answer { IsReturned (answer.standard_answer len own_reply) result }
    ensures reply { IsReply result }
{
    match presence(&own_reply) {
        Some(true) => standard_reply(alloc, len, own_reply.payload.as_slice()),
        Some(false) | None => own_reply,
    }
}

// GOOD with standard INQUIRY data of a unit at a target port, or BUSY if out of memory. Without bytes to return nothing
// is allocated.
fn standard_reply(alloc: Global, len: u16, own_reply: &[u8]) -> Reply
    ensures answer { IsReturned (good (take len (answer.over_target_port own_reply.now))) result }
    ensures reply { IsReply result }
{
    if len == 0 {
        return Reply::good(Bytes::new());
    }
    match over_target_port(alloc, own_reply) {
        Ok(bytes) => cut_reply(alloc, &bytes, usize::from(len)),
        Err(_) => Reply::busy(),
    }
}

// Standard INQUIRY data of a unit at a target port. Fails if out of memory.
#[tactic(auto, unfolding(crate::specs::Answer::over_target_port))]
fn over_target_port(alloc: Global, own_reply: &[u8]) -> Result<Vec<u8>, AllocError>
    ensures data { IfOk result (λ bytes. bytes.items ≡ answer.over_target_port own_reply.now) }
{
    let mut bytes = Vec::new(alloc);
    bytes.extend_from_slice(own_reply)?;
    bytes.extend_from_slice(&VERSION_DESCRIPTORS)?;
    bytes[4] = 0x45;
    bytes[5] = 0x10;
    bytes[7] = 0x02;
    Ok(bytes)
}

/// VERIFY: MISCOMPARE, MISCOMPARE DURING VERIFY OPERATION.
pub const MISCOMPARE: Sense = Sense {
    key: 0x0E,
    asc: 0x1D,
    ascq: 0x00,
};

/// The answer to VERIFY by what the READ of its blocks returned; it compares them with the data that came, or not.
#[tactic(auto, unfolding(crate::specs::Answer::verify_answer))]
pub(crate) fn answer_verify(compares: bool, sent: &[u8], own_reply: Reply) -> Reply
    requires { IsReply own_reply }
    ensures answer { result ≡ answer.verify_answer compares sent.now own_reply }
    ensures reply { IsReply result }
{
    match own_reply.status {
        Status::Good => verified(compares, sent, own_reply.payload.as_slice()),
        Status::CheckCondition | Status::Busy => own_reply,
    }
}

// The answer to VERIFY whose blocks hold `stored`.
fn verified(compares: bool, sent: &[u8], stored: &[u8]) -> Reply
    ensures answer { result ≡ answer.verified compares sent.now stored.now }
    ensures reply { IsReply result }
{
    if !compares {
        return Reply::good(Bytes::new());
    }
    if sent.len() != stored.len() {
        return Reply::check(Sense::DATA_PHASE_ERROR);
    }
    if sent == stored {
        Reply::good(Bytes::new())
    } else {
        Reply::check(MISCOMPARE)
    }
}

/// The answer to REQUEST SENSE.
#[tactic(auto, unfolding(crate::specs::Answer::sense_answer))]
pub(crate) fn answer_sense(alloc: Global, len: u8, own_reply: Reply) -> Reply
    requires { IsReply own_reply }
    ensures answer { IsReturned (answer.sense_answer len own_reply) result }
    ensures reply { IsReply result }
{
    match own_reply.status {
        Status::Good => cut_reply(alloc, &sense18(NO_SENSE), usize::from(len)),
        Status::CheckCondition => match &own_reply.sense {
            Some(sense) => cut_reply(alloc, sense, usize::from(len)),
            None => cut_reply(alloc, &[], usize::from(len)),
        },
        Status::Busy => own_reply,
    }
}
