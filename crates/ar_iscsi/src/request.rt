// The headers of an initiator's PDUs (RFC 7143, 11). Reserved fields are ignored.
ghost use Rattle.std.specs.Prelude.{◌≡◌, ◌<◌, ◌==◌, ◌*◌, drop};
ghost use Rattle.std.specs.Int.{bit_at};
ghost use Rattle.ar_iscsi.specs.Pdu.{header_word, segment_len};
ghost use Rattle.ar_iscsi.specs.Request as fields;

use byteorder::{BigEndian, ByteOrder};

/// A logical unit number as its two words, the first four bytes in `high` (SAM-3, LUN structure).
#[derive(Clone, Copy, Debug, PartialEq, Eq)]
pub struct Lun {
    pub high: u32,
    pub low: u32,
}

/// A SCSI command (RFC 7143, 11.3). Its task attribute is ignored, since commands are done one at a time.
#[derive(Clone, Copy, Debug, PartialEq, Eq)]
pub struct ScsiCommand {
    pub immediate: bool,
    /// No unsolicited Data-Out PDU follows.
    pub is_final: bool,
    /// The command is expected to return data.
    pub reads: bool,
    /// The command is expected to take data.
    pub writes: bool,
    pub lun: Lun,
    pub task_tag: u32,
    /// The expected number of bytes of data.
    pub expected: u32,
    pub cmd_sn: u32,
    pub exp_stat_sn: u32,
    pub cdb: [u8; 16],
}

/// Data of a WRITE (RFC 7143, 11.7).
#[derive(Clone, Copy, Debug, PartialEq, Eq)]
pub struct DataOut {
    pub is_final: bool,
    pub lun: Lun,
    pub task_tag: u32,
    /// The target transfer tag of the R2T that asked for the data; FFFFFFFFh if none did.
    pub transfer_tag: u32,
    pub exp_stat_sn: u32,
    pub data_sn: u32,
    /// Where the data begin, in bytes from the first byte of the command's data.
    pub offset: u32,
}

/// A NOP-Out (RFC 7143, 11.18). It wants an answer unless its task tag is FFFFFFFFh.
#[derive(Clone, Copy, Debug, PartialEq, Eq)]
pub struct NopOut {
    pub immediate: bool,
    pub lun: Lun,
    pub task_tag: u32,
    pub transfer_tag: u32,
    pub cmd_sn: u32,
    pub exp_stat_sn: u32,
}

/// A login request (RFC 7143, 11.12). The stages are numbers of two bits.
#[derive(Clone, Copy, Debug, PartialEq, Eq)]
pub struct LoginRequest {
    /// T: the initiator is ready to leave the stage.
    pub transit: bool,
    /// C: the text goes on in the next request.
    pub continues: bool,
    /// CSG: the stage of the request.
    pub stage: u8,
    /// NSG: the stage that follows, with T.
    pub next_stage: u8,
    pub version_max: u8,
    pub version_min: u8,
    /// The first four bytes of the ISID.
    pub isid_high: u32,
    /// The last two bytes of the ISID.
    pub isid_low: u16,
    pub tsih: u16,
    pub task_tag: u32,
    pub cid: u16,
    pub cmd_sn: u32,
    pub exp_stat_sn: u32,
}

/// A text request (RFC 7143, 11.10).
#[derive(Clone, Copy, Debug, PartialEq, Eq)]
pub struct TextRequest {
    pub immediate: bool,
    pub is_final: bool,
    /// C: the text goes on in the next request.
    pub continues: bool,
    pub task_tag: u32,
    pub transfer_tag: u32,
    pub cmd_sn: u32,
    pub exp_stat_sn: u32,
}

/// A logout request (RFC 7143, 11.14).
#[derive(Clone, Copy, Debug, PartialEq, Eq)]
pub struct LogoutRequest {
    pub immediate: bool,
    /// 0: close the session; 1: close the connection; 2: remove the connection for recovery.
    pub reason: u8,
    pub task_tag: u32,
    pub cid: u16,
    pub cmd_sn: u32,
    pub exp_stat_sn: u32,
}

/// A task management request (RFC 7143, 11.5).
#[derive(Clone, Copy, Debug, PartialEq, Eq)]
pub struct TaskManagement {
    pub immediate: bool,
    pub function: u8,
    pub lun: Lun,
    pub task_tag: u32,
    pub referenced_tag: u32,
    pub cmd_sn: u32,
    pub exp_stat_sn: u32,
}

/// The header of an initiator's PDU.
#[derive(Clone, Copy, Debug, PartialEq, Eq)]
pub enum InitiatorPdu {
    NopOut(NopOut),
    ScsiCommand(ScsiCommand),
    TaskManagement(TaskManagement),
    Login(LoginRequest),
    Text(TextRequest),
    DataOut(DataOut),
    Logout(LogoutRequest),
    /// An opcode that is none of those.
    Unknown(u8),
}

/// Reads the header of an initiator's PDU. Every header is read; whether its fields suit the session is not judged
/// here.
pub fn initiator_pdu(header: &[u8; 48]) -> InitiatorPdu
    ensures { result ≡ fields.initiator_pdu header.now }
{
    match header[0] % 64 {
        0x00 => InitiatorPdu::NopOut(nop_out(header)),
        0x01 => InitiatorPdu::ScsiCommand(scsi_command(header)),
        0x02 => InitiatorPdu::TaskManagement(task_management(header)),
        0x03 => InitiatorPdu::Login(login_request(header)),
        0x04 => InitiatorPdu::Text(text_request(header)),
        0x05 => InitiatorPdu::DataOut(data_out(header)),
        0x06 => InitiatorPdu::Logout(logout_request(header)),
        opcode => InitiatorPdu::Unknown(opcode),
    }
}

// Word `i` of a header.
#[tactic(auto, unfolding(crate::specs::Pdu::header_word))]
pub(crate) fn word(header: &[u8; 48], i: usize) -> u32
    requires { i < 12 }
    ensures { result ≡ header_word i header.now }
{
    BigEndian::read_u32(&header[4 * i..])
}

// The length of the data segment.
pub(crate) fn segment_len(header: &[u8; 48]) -> u32
    ensures { result ≡ segment_len header.now }
{
    word(header, 1) % 0x100_0000
}

// Bit `place` of a byte.
fn flag(byte: u8, place: u32) -> bool
    requires { place < 8 }
    ensures { result ≡ (bit_at byte place == 1) }
{
    byte >> place & 1 == 1
}

fn lun_of(header: &[u8; 48]) -> Lun
    ensures { result ≡ fields.lun header.now }
{
    Lun {
        high: word(header, 2),
        low: word(header, 3),
    }
}

fn nop_out(header: &[u8; 48]) -> NopOut
    ensures { result ≡ fields.nop_out header.now }
{
    NopOut {
        immediate: flag(header[0], 6),
        lun: lun_of(header),
        task_tag: word(header, 4),
        transfer_tag: word(header, 5),
        cmd_sn: word(header, 6),
        exp_stat_sn: word(header, 7),
    }
}

fn scsi_command(header: &[u8; 48]) -> ScsiCommand
    ensures { result ≡ fields.scsi_command header.now }
{
    ScsiCommand {
        immediate: flag(header[0], 6),
        is_final: flag(header[1], 7),
        reads: flag(header[1], 6),
        writes: flag(header[1], 5),
        lun: lun_of(header),
        task_tag: word(header, 4),
        expected: word(header, 5),
        cmd_sn: word(header, 6),
        exp_stat_sn: word(header, 7),
        cdb: cdb_of(header),
    }
}

// The command block, the last 16 bytes.
fn cdb_of(header: &[u8; 48]) -> [u8; 16]
    ensures { result ≡ drop 32 header.now }
{
    let mut cdb = [0; 16];
    cdb.copy_from_slice(&header[32..]);
    cdb
}

fn task_management(header: &[u8; 48]) -> TaskManagement
    ensures { result ≡ fields.task_management header.now }
{
    TaskManagement {
        immediate: flag(header[0], 6),
        function: header[1] % 128,
        lun: lun_of(header),
        task_tag: word(header, 4),
        referenced_tag: word(header, 5),
        cmd_sn: word(header, 6),
        exp_stat_sn: word(header, 7),
    }
}

pub(crate) fn login_request(header: &[u8; 48]) -> LoginRequest
    ensures { result ≡ fields.login_request header.now }
{
    LoginRequest {
        transit: flag(header[1], 7),
        continues: flag(header[1], 6),
        stage: header[1] / 4 % 4,
        next_stage: header[1] % 4,
        version_max: header[2],
        version_min: header[3],
        isid_high: word(header, 2),
        isid_low: (word(header, 3) / 0x1_0000) as u16,
        tsih: (word(header, 3) % 0x1_0000) as u16,
        task_tag: word(header, 4),
        cid: (word(header, 5) / 0x1_0000) as u16,
        cmd_sn: word(header, 6),
        exp_stat_sn: word(header, 7),
    }
}

fn text_request(header: &[u8; 48]) -> TextRequest
    ensures { result ≡ fields.text_request header.now }
{
    TextRequest {
        immediate: flag(header[0], 6),
        is_final: flag(header[1], 7),
        continues: flag(header[1], 6),
        task_tag: word(header, 4),
        transfer_tag: word(header, 5),
        cmd_sn: word(header, 6),
        exp_stat_sn: word(header, 7),
    }
}

fn data_out(header: &[u8; 48]) -> DataOut
    ensures { result ≡ fields.data_out header.now }
{
    DataOut {
        is_final: flag(header[1], 7),
        lun: lun_of(header),
        task_tag: word(header, 4),
        transfer_tag: word(header, 5),
        exp_stat_sn: word(header, 7),
        data_sn: word(header, 9),
        offset: word(header, 10),
    }
}

fn logout_request(header: &[u8; 48]) -> LogoutRequest
    ensures { result ≡ fields.logout_request header.now }
{
    LogoutRequest {
        immediate: flag(header[0], 6),
        reason: header[1] % 128,
        task_tag: word(header, 4),
        cid: (word(header, 5) / 0x1_0000) as u16,
        cmd_sn: word(header, 6),
        exp_stat_sn: word(header, 7),
    }
}
