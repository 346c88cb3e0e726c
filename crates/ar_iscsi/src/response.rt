// The headers of a target's PDUs (RFC 7143, 11), and whole PDUs. Reserved fields are 0.
//
//     | first four bytes | 11 words | data segment | zeros up to a whole word |
ghost use Rattle.std.specs.Prelude.{◌≡◌, ◌<◌, ◌^◌, ◌++◌, [], OnOk, length, slice_index};
ghost use Rattle.ar_iscsi.specs.Pdu.{padding_len};
ghost use Rattle.ar_iscsi.specs.Response as wire;

use crate::request::Lun;
use byteorder::{BigEndian, ByteOrder};
use std::alloc::AllocError;

/// The sequence numbers of a target's PDU (RFC 7143, 4.2.2).
#[derive(Clone, Copy, Debug, PartialEq, Eq)]
pub struct SequenceNumbers {
    pub stat_sn: u32,
    pub exp_cmd_sn: u32,
    pub max_cmd_sn: u32,
}

/// How the data that a command would move compare with the expected length (RFC 7143, 11.4.5). The counts are in bytes.
#[derive(Clone, Copy, Debug, PartialEq, Eq)]
pub enum Residual {
    /// Just the expected length.
    Exact,
    /// This many bytes less.
    Underflow(u32),
    /// This many bytes more.
    Overflow(u32),
}

/// A stage of the login phase, and what follows it (RFC 7143, 11.12.3).
#[derive(Clone, Copy, Debug, PartialEq, Eq)]
pub enum LoginStage {
    SecurityNegotiation,
    OperationalNegotiation,
    FullFeature,
}

/// The fields of a login response (RFC 7143, 11.13).
#[derive(Clone, Copy, Debug, PartialEq, Eq)]
pub struct LoginResponse {
    /// T: the target agrees to leave the stage.
    pub transit: bool,
    /// CSG: the stage of the request.
    pub stage: LoginStage,
    /// NSG: the stage that follows, with T.
    pub next_stage: LoginStage,
    pub isid_high: u32,
    pub isid_low: u16,
    pub tsih: u16,
    pub task_tag: u32,
    pub status_class: u8,
    pub status_detail: u8,
}

/// A target's PDU, but for its sequence numbers and its data.
#[derive(Clone, Copy, Debug, PartialEq, Eq)]
pub enum TargetPdu {
    /// A NOP-In that answers a NOP-Out.
    NopIn {
        lun: Lun,
        task_tag: u32,
    },
    /// A NOP-In that asks for a NOP-Out with this target transfer tag, which isn't FFFFFFFFh.
    Ping {
        transfer_tag: u32,
    },
    /// The status of a command; its data are the sense data with their length in two bytes.
    ScsiResponse {
        task_tag: u32,
        status: u8,
        residual: Residual,
        /// The number of Data-In and R2T PDUs that the command had.
        exp_data_sn: u32,
    },
    TaskManagementResponse {
        task_tag: u32,
        response: u8,
    },
    Login(LoginResponse),
    /// The whole answer to a text request.
    TextResponse {
        task_tag: u32,
    },
    /// Data of a READ, a sequence of its own, without status.
    DataIn {
        task_tag: u32,
        data_sn: u32,
        offset: u32,
    },
    LogoutResponse {
        task_tag: u32,
        response: u8,
    },
    /// R2T: asks for `len` bytes of a WRITE's data from `offset` on.
    ReadyToTransfer {
        lun: Lun,
        task_tag: u32,
        transfer_tag: u32,
        r2t_sn: u32,
        offset: u32,
        len: u32,
    },
    /// A refused PDU; its data are that PDU's header.
    Reject {
        reason: u8,
    },
}

// The tag that stands for no task.
pub(crate) const NO_TAG: u32 = 0xFFFF_FFFF;

/// A ping, whole: it has no data.
pub(crate) fn ping_pdu(transfer_tag: u32, numbers: SequenceNumbers) -> [u8; 48]
    ensures { result ≡ wire.target_pdu (TargetPdu.Ping transfer_tag) numbers [] }
{
    target_header(TargetPdu::Ping { transfer_tag }, numbers, 0)
}

/// Appends a whole PDU to `out`: its header, `segment` and the padding. `Err` if the allocation fails; `out` then ends
/// in an unspecified part of the PDU.
pub fn put_pdu(
    out: &mut Vec<u8>,
    pdu: TargetPdu,
    numbers: SequenceNumbers,
    segment: &[u8],
) -> Result<(), AllocError>
    requires { length segment.now < 2 ^ 24 }
    ensures { OnOk result (out.new.items ≡ out.old.items ++ wire.target_pdu pdu numbers segment.now) }
{
    let header = target_header(pdu, numbers, segment.len() as u32);
    out.extend_from_slice(&header)?;
    out.extend_from_slice(segment)?;
    put_padding(out, segment.len())
}

/// Appends the padding after a data segment of `len` bytes.
pub(crate) fn put_padding(out: &mut Vec<u8>, len: usize) -> Result<(), AllocError>
    ensures { OnOk result (out.new.items ≡ out.old.items ++ wire.padding (padding_len len)) }
{
    match len % 4 {
        1 => out.extend_from_slice(&[0, 0, 0]),
        2 => out.extend_from_slice(&[0, 0]),
        3 => out.extend_from_slice(&[0]),
        _ => Ok(()),
    }
}

// Encodes a header of its first four bytes and the eleven words after them.
fn header_of(first: [u8; 4], words: &[u32; 11]) -> [u8; 48]
    ensures { result ≡ wire.header_of first words.now }
{
    let mut header = [0; 48];
    header[..4].copy_from_slice(&first);
    for (i, word) in words.iter().enumerate() {
        BigEndian::write_u32(&mut header[4 + 4 * i..], *word);
    }
    header
}

// No unit is named.
pub(crate) const NO_LUN: Lun = Lun { high: 0, low: 0 };

// Encodes a header by its columns: the LUN, the initiator's task tag, word 5, the sequence numbers, and the last words.
fn header_by(
    first: [u8; 4],
    len: u32,
    lun: Lun,
    task_tag: u32,
    fifth: u32,
    numbers: SequenceNumbers,
    last: [u32; 3],
) -> [u8; 48]
    ensures { result ≡ wire.header_by first len lun task_tag fifth numbers (slice_index last 0) (slice_index last 1)
        (slice_index last 2) }
{
    header_of(
        first,
        &[
            len,
            lun.high,
            lun.low,
            task_tag,
            fifth,
            numbers.stat_sn,
            numbers.exp_cmd_sn,
            numbers.max_cmd_sn,
            last[0],
            last[1],
            last[2],
        ],
    )
}

/// Encodes the header of a PDU whose data segment has `len` bytes.
pub(crate) fn target_header(pdu: TargetPdu, numbers: SequenceNumbers, len: u32) -> [u8; 48]
    ensures { result ≡ wire.target_header pdu numbers len }
{
    match pdu {
        TargetPdu::NopIn { lun, task_tag } => {
            header_by(
                [0x20, 0x80, 0, 0],
                len,
                lun,
                task_tag,
                NO_TAG,
                numbers,
                [0, 0, 0],
            )
        }
        TargetPdu::Ping { transfer_tag } => {
            header_by(
                [0x20, 0x80, 0, 0],
                len,
                NO_LUN,
                NO_TAG,
                transfer_tag,
                numbers,
                [0, 0, 0],
            )
        }
        TargetPdu::ScsiResponse {
            task_tag,
            status,
            residual,
            exp_data_sn,
        } => {
            let first = [0x21, 0x80 + residual_flag(residual), 0, status];
            let last = [exp_data_sn, 0, residual_count(residual)];
            header_by(first, len, NO_LUN, task_tag, 0, numbers, last)
        }
        TargetPdu::TaskManagementResponse { task_tag, response } => {
            header_by(
                [0x22, 0x80, response, 0],
                len,
                NO_LUN,
                task_tag,
                0,
                numbers,
                [0, 0, 0],
            )
        }
        TargetPdu::Login(login) => login_header(login, numbers, len),
        TargetPdu::TextResponse { task_tag } => {
            header_by(
                [0x24, 0x80, 0, 0],
                len,
                NO_LUN,
                task_tag,
                NO_TAG,
                numbers,
                [0, 0, 0],
            )
        }
        TargetPdu::DataIn {
            task_tag,
            data_sn,
            offset,
        } => {
            let unset = SequenceNumbers {
                stat_sn: 0,
                ..numbers
            };
            let last = [data_sn, offset, 0];
            header_by(
                [0x25, 0x80, 0, 0],
                len,
                NO_LUN,
                task_tag,
                NO_TAG,
                unset,
                last,
            )
        }
        TargetPdu::LogoutResponse { task_tag, response } => {
            header_by(
                [0x26, 0x80, response, 0],
                len,
                NO_LUN,
                task_tag,
                0,
                numbers,
                [0, 0, 0],
            )
        }
        TargetPdu::ReadyToTransfer {
            lun,
            task_tag,
            transfer_tag,
            r2t_sn,
            offset,
            len: wanted,
        } => {
            let last = [r2t_sn, offset, wanted];
            header_by(
                [0x31, 0x80, 0, 0],
                len,
                lun,
                task_tag,
                transfer_tag,
                numbers,
                last,
            )
        }
        TargetPdu::Reject { reason } => {
            header_by(
                [0x3F, 0x80, reason, 0],
                len,
                NO_LUN,
                NO_TAG,
                0,
                numbers,
                [0, 0, 0],
            )
        }
    }
}

// Encodes the header of a login response. Versions are 0.
fn login_header(login: LoginResponse, numbers: SequenceNumbers, len: u32) -> [u8; 48]
    ensures { result ≡ wire.login_header login numbers len }
{
    let isid = Lun {
        high: login.isid_high,
        low: u32::from(login.isid_low) * 0x1_0000 + u32::from(login.tsih),
    };
    let class = u32::from(login.status_class) * 0x100_0000;
    let status = class + u32::from(login.status_detail) * 0x1_0000;
    let first = [0x23, login_flags(login), 0, 0];
    header_by(first, len, isid, login.task_tag, 0, numbers, [status, 0, 0])
}

// T, CSG and NSG.
fn login_flags(login: LoginResponse) -> u8
    ensures { result ≡ wire.login_flags login }
{
    let transit = if login.transit { 0x80 } else { 0x00 };
    transit + 4 * stage_code(login.stage) + stage_code(login.next_stage)
}

// The number of a stage.
pub(crate) fn stage_code(stage: LoginStage) -> u8
    ensures code { result ≡ wire.stage_code stage }
    ensures small { result < 4 }
{
    match stage {
        LoginStage::SecurityNegotiation => 0,
        LoginStage::OperationalNegotiation => 1,
        LoginStage::FullFeature => 3,
    }
}

// The flag of a residual.
fn residual_flag(residual: Residual) -> u8
    ensures { result ≡ wire.residual_flag residual }
{
    match residual {
        Residual::Exact => 0x00,
        Residual::Underflow(_) => 0x02,
        Residual::Overflow(_) => 0x04,
    }
}

// The count of a residual.
fn residual_count(residual: Residual) -> u32
    ensures { result ≡ wire.residual_count residual }
{
    match residual {
        Residual::Exact => 0,
        Residual::Underflow(count) | Residual::Overflow(count) => count,
    }
}
