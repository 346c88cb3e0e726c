// Receives PDUs. The length of a data segment is checked before anything after the header is read, and additional
// header segments are dropped: those that the RFC has are for commands of other kinds.
ghost use Rattle.std.specs.Prelude.{◌≡◌, ◌≤◌, ◌++◌, ℕ, List, [], length, take};
ghost use Rattle.ar_iscsi.specs.Pdu.{ahs_len, segment_len};
ghost use Rattle.ar_iscsi.specs.Digest.{closed};
ghost use Rattle.ar_iscsi.specs.Receive.{ComesUnkept, ReceivesDigested, ReceivesPdu, ReceivesSent};

use crate::digest::{CrcTable, Digests, closes_data, digest_len};
use crate::request::segment_len;
use ar_frames::{FillResult, Source, fill};

/// Why no whole PDU was received.
#[derive(Clone, Copy, Debug, PartialEq, Eq)]
pub enum ReceiveEnd {
    /// Input ended between two PDUs.
    End,
    /// Input ended inside a PDU.
    Cut,
    /// A read faulted between two PDUs.
    Idle,
    /// A read faulted inside a PDU.
    Read,
    /// A PDU's data segment has this many bytes, more than the limit.
    TooLong(u32),
    /// The digest of a header is wrong.
    WrongHeader,
}

/// What was received.
#[derive(Clone, Copy, Debug, PartialEq, Eq)]
pub enum Received {
    /// A PDU with this header; its data segment is in front in the buffer.
    Pdu([u8; 48]),
    /// A PDU with this header, whose data digest is wrong. It was read to its end.
    Damaged([u8; 48]),
    /// No whole PDU, for this reason.
    Nothing(ReceiveEnd),
}

/// Reads a PDU, and its data segment into the front of `buffer`, whose length is the limit for it. Nothing after the
/// PDU is read, and nothing after a header with a longer data segment.
pub fn receive_pdu<R: Source>(reader: &mut R, buffer: &mut [u8]) -> Received
    ensures { ReceivesPdu [] (length buffer.new) (R.state reader.old) (R.state reader.new) buffer.new result }
{
    let mut header = [0; 48];
    match fill(reader, &mut header) {
        FillResult::Full => receive_rest(reader, buffer, &header),
        FillResult::Ended(0) => Received::Nothing(ReceiveEnd::End),
        FillResult::Ended(_) => Received::Nothing(ReceiveEnd::Cut),
        FillResult::Failed(0) => Received::Nothing(ReceiveEnd::Idle),
        FillResult::Failed(_) => Received::Nothing(ReceiveEnd::Read),
    }
}

// Reads what follows the header.
fn receive_rest<R: Source>(reader: &mut R, buffer: &mut [u8], header: &[u8; 48]) -> Received
    ensures { ReceivesPdu header.now (length buffer.new) (R.state reader.old) (R.state reader.new) buffer.new result }
{
    let len = segment_len(header);
    if len as usize > buffer.len() {
        return Received::Nothing(ReceiveEnd::TooLong(len));
    }
    match skip(reader, 4 * header[4] as usize) {
        FillResult::Full => receive_segment(reader, buffer, header, len as usize),
        FillResult::Ended(_) => Received::Nothing(ReceiveEnd::Cut),
        FillResult::Failed(_) => Received::Nothing(ReceiveEnd::Read),
    }
}

// Reads the data segment and its padding.
fn receive_segment<R: Source>(
    reader: &mut R,
    buffer: &mut [u8],
    header: &[u8; 48],
    len: usize,
) -> Received
    requires len_is { len ≡ segment_len header.now }
    requires within { len ≤ length buffer.old }
    ensures { (ahs : List ℕ) → length ahs ≡ ahs_len header.now →
        ReceivesPdu (header.now ++ ahs) (length buffer.new) (R.state reader.old) (R.state reader.new) buffer.new
        result }
{
    match fill(reader, &mut buffer[..len]) {
        FillResult::Full => receive_padding(reader, header, len),
        FillResult::Ended(_) => Received::Nothing(ReceiveEnd::Cut),
        FillResult::Failed(_) => Received::Nothing(ReceiveEnd::Read),
    }
}

// Reads the padding after a data segment of `len` bytes.
fn receive_padding<R: Source>(reader: &mut R, header: &[u8; 48], len: usize) -> Received
    requires { len ≡ segment_len header.now }
    ensures { (buffer ahs : List ℕ) → len ≤ length buffer → length ahs ≡ ahs_len header.now →
        ReceivesPdu ((header.now ++ ahs) ++ take len buffer) (length buffer) (R.state reader.old) (R.state reader.new)
        buffer result }
{
    match skip(reader, (4 - len % 4) % 4) {
        FillResult::Full => Received::Pdu(*header),
        FillResult::Ended(_) => Received::Nothing(ReceiveEnd::Cut),
        FillResult::Failed(_) => Received::Nothing(ReceiveEnd::Read),
    }
}

/// The same in a session with these digests. `table` is for them.
pub(crate) fn receive_sent<R: Source>(
    reader: &mut R,
    buffer: &mut [u8],
    digests: Digests,
    table: &CrcTable,
) -> Received
    ensures { ReceivesSent digests (length buffer.new) (R.state reader.old) (R.state reader.new) buffer.new result }
{
    if digests.is_plain() {
        receive_pdu(reader, buffer)
    } else {
        receive_digested(reader, buffer, digests, table)
    }
}

// Reads a PDU with digests.
fn receive_digested<R: Source>(
    reader: &mut R,
    buffer: &mut [u8],
    digests: Digests,
    table: &CrcTable,
) -> Received
    ensures { ReceivesDigested digests [] (length buffer.new) (R.state reader.old) (R.state reader.new) buffer.new
        result }
{
    let mut header = [0; 48];
    match fill(reader, &mut header) {
        FillResult::Full => receive_front(reader, buffer, digests, table, &header),
        FillResult::Ended(0) => Received::Nothing(ReceiveEnd::End),
        FillResult::Ended(_) => Received::Nothing(ReceiveEnd::Cut),
        FillResult::Failed(0) => Received::Nothing(ReceiveEnd::Idle),
        FillResult::Failed(_) => Received::Nothing(ReceiveEnd::Read),
    }
}

// Reads the additional header segments and the header digest, and what follows them.
fn receive_front<R: Source>(
    reader: &mut R,
    buffer: &mut [u8],
    digests: Digests,
    table: &CrcTable,
    header: &[u8; 48],
) -> Received
    ensures { ReceivesDigested digests header.now (length buffer.new) (R.state reader.old) (R.state reader.new)
        buffer.new result }
{
    let len = segment_len(header);
    if len as usize > buffer.len() {
        return Received::Nothing(ReceiveEnd::TooLong(len));
    }
    let additional = 4 * header[4] as usize;
    let mut room = [0; 1024];
    let front = &mut room[..additional + digest_len(digests.header)];
    match fill(reader, front) {
        FillResult::Full if table.is_right(digests.header, header, front, additional) => {
            receive_body(reader, buffer, digests, table, header, len as usize)
        }
        FillResult::Full => Received::Nothing(ReceiveEnd::WrongHeader),
        FillResult::Ended(_) => Received::Nothing(ReceiveEnd::Cut),
        FillResult::Failed(_) => Received::Nothing(ReceiveEnd::Read),
    }
}

// Reads the data segment, and what follows it.
fn receive_body<R: Source>(
    reader: &mut R,
    buffer: &mut [u8],
    digests: Digests,
    table: &CrcTable,
    header: &[u8; 48],
    len: usize,
) -> Received
    requires len_is { len ≡ segment_len header.now }
    requires within { len ≤ length buffer.old }
    ensures { (ahs : List ℕ) → length ahs ≡ ahs_len header.now →
        ReceivesDigested digests (closed digests.header (header.now ++ ahs)) (length buffer.new) (R.state reader.old)
        (R.state reader.new) buffer.new result }
{
    match fill(reader, &mut buffer[..len]) {
        FillResult::Full => receive_tail(reader, digests, table, header, &buffer[..len]),
        FillResult::Ended(_) => Received::Nothing(ReceiveEnd::Cut),
        FillResult::Failed(_) => Received::Nothing(ReceiveEnd::Read),
    }
}

// Reads the padding after a data segment, and the data digest.
fn receive_tail<R: Source>(
    reader: &mut R,
    digests: Digests,
    table: &CrcTable,
    header: &[u8; 48],
    payload: &[u8],
) -> Received
    requires { length payload.now ≡ segment_len header.now }
    ensures { (buffer ahs : List ℕ) → payload.now ≡ take (length payload.now) buffer
        → length payload.now ≤ length buffer → length ahs ≡ ahs_len header.now →
        ReceivesDigested digests (closed digests.header (header.now ++ ahs) ++ payload.now) (length buffer)
        (R.state reader.old) (R.state reader.new) buffer result }
{
    let is_wanted = closes_data(digests, payload);
    let padding = (4 - payload.len() % 4) % 4;
    let mut room = [0; 8];
    let tail = &mut room[..padding + digest_len(is_wanted)];
    match fill(reader, tail) {
        FillResult::Full if table.is_right(is_wanted, payload, tail, padding) => Received::Pdu(
            *header,
        ),
        FillResult::Full => Received::Damaged(*header),
        FillResult::Ended(_) => Received::Nothing(ReceiveEnd::Cut),
        FillResult::Failed(_) => Received::Nothing(ReceiveEnd::Read),
    }
}

// Reads `len` bytes and drops them.
fn skip<R: Source>(reader: &mut R, len: usize) -> FillResult
    requires { len ≤ 1024 }
    ensures { ComesUnkept (R.state reader.old) (R.state reader.new) len result }
{
    let mut piece = [0; 1024];
    fill(reader, &mut piece[..len])
}
