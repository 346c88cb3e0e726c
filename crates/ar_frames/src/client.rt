// The client's side of a session. A reply is returned only if it is whole, well-formed and under the tag of its
// request.
ghost use Rattle.std.specs.Prelude.{◌≡◌, ◌≤◌, ◌+◌, ◌++◌, ℕ, List, [], length, IfSome, IfNone};
ghost use Rattle.byteorder.specs.Endian.{big_number};
ghost use Rattle.ar_scsi.specs.declared.reply.Reply.{Reply};
ghost use Rattle.ar_frames.specs.Frame.{most_data};
ghost use Rattle.ar_frames.specs.Session.{login_bytes};
ghost use Rattle.ar_frames.specs.FrameStep.{SendsRequest};
ghost use Rattle.ar_frames.specs.Client.{Greets, Means, ReadsGreeting, Asks, ReadsReply, Judges, Parses};

use crate::frame::{MOST_DATA, request_head};
use crate::hold::{BufferResult, hold};
use crate::stream::{Sink, Source};
use crate::transfer::{FillResult, Sent, fill, send, send_parts};
use ar_scsi::{Reply, Status};
use byteorder::{BigEndian, ByteOrder};
use bytes::Bytes;
use std::alloc::Global;

/// Why a login or a command got no reply.
#[derive(Clone, Copy, Debug, PartialEq, Eq)]
pub enum AskFault {
    /// A read faulted.
    Read,
    /// A write faulted: a proper prefix was written, and nothing was read.
    Write,
    /// Input ended before the reply was whole.
    Cut,
    /// A whole reply with another tag arrived.
    WrongTag,
    /// What arrived is no reply.
    BadFrame,
    /// The reply couldn't be allocated.
    NoMemory,
}

/// Logs a host in by its number, and returns whether the server accepted the login.
pub fn hello<R: Source, W: Sink>(reader: &mut R, writer: &mut W, host: u8) -> Result<bool, AskFault>
    ensures { Greets (R.state reader.old) (R.state reader.new) (W.state writer.old) (W.state writer.new)
        (login_bytes host) result }
{
    let mut login = *b"ARAIDHO1\0";
    login[8] = host;
    match send(writer, &login) {
        Sent::Whole => read_greeting(reader),
        Sent::Part(_) => Err(AskFault::Write),
    }
}

// Reads the one byte that replies to a login.
fn read_greeting<R: Source>(reader: &mut R) -> Result<bool, AskFault>
    ensures { ReadsGreeting (R.state reader.old) (R.state reader.new) result }
{
    let mut answer = [0; 1];
    match fill(reader, &mut answer) {
        FillResult::Full => greeting_of(answer[0]),
        FillResult::Ended(_) => Err(AskFault::Cut),
        FillResult::Failed(_) => Err(AskFault::Read),
    }
}

fn greeting_of(byte: u8) -> Result<bool, AskFault>
    ensures { Means byte result }
{
    match byte {
        0x00 => Ok(true),
        0x01 => Ok(false),
        _ => Err(AskFault::BadFrame),
    }
}

/// Sends a command to the server and waits for its reply. `payload` has at most 33,553,920 bytes. After `Write` nothing
/// was read; after any other error the request was sent whole.
pub fn ask<R: Source, W: Sink>(
    alloc: Global,
    reader: &mut R,
    writer: &mut W,
    tag: u64,
    lun: u8,
    cdb: &[u8; 16],
    payload: &[u8],
) -> Result<Reply, AskFault>
    requires { length payload.now ≤ most_data }
    ensures { Asks (R.state reader.old) (R.state reader.new) (W.state writer.old) (W.state writer.new)
        (record { tag = tag; lun = lun; cdb = cdb.now; payload = payload.now }) result }
{
    match send_request(writer, tag, lun, cdb, payload) {
        Sent::Whole => read_reply(alloc, reader, tag),
        Sent::Part(_) => Err(AskFault::Write),
    }
}

fn send_request<W: Sink>(writer: &mut W, tag: u64, lun: u8, cdb: &[u8; 16], payload: &[u8]) -> Sent
    requires { length payload.now ≤ most_data }
    ensures { SendsRequest (W.state writer.old) (W.state writer.new)
        (record { tag = tag; lun = lun; cdb = cdb.now; payload = payload.now }) result }
{
    let head = request_head(tag, lun, cdb, payload.len() as u32);
    send_parts(writer, &head, payload, &[])
}

// Reads the reply to `tag`. After an N that no reply has, nothing is read.
fn read_reply<R: Source>(alloc: Global, reader: &mut R, tag: u64) -> Result<Reply, AskFault>
    ensures { ReadsReply [] (R.state reader.old) (R.state reader.new) tag result }
{
    let mut count = [0; 4];
    match fill(reader, &mut count) {
        FillResult::Full => read_counted(alloc, reader, tag, &count),
        FillResult::Ended(_) => Err(AskFault::Cut),
        FillResult::Failed(_) => Err(AskFault::Read),
    }
}

// Reads what follows N.
fn read_counted<R: Source>(
    alloc: Global,
    reader: &mut R,
    tag: u64,
    count: &[u8; 4],
) -> Result<Reply, AskFault>
    ensures { ReadsReply count.now (R.state reader.old) (R.state reader.new) tag result }
{
    let n = BigEndian::read_u32(count);
    if n < 10 {
        return Err(AskFault::BadFrame);
    }
    let len = n - 10;
    if len > MOST_DATA {
        return Err(AskFault::BadFrame);
    }
    read_head(alloc, reader, tag, len)
}

// Reads what follows N, in a reply with `len` bytes of sense data and payload.
fn read_head<R: Source>(
    alloc: Global,
    reader: &mut R,
    tag: u64,
    len: u32,
) -> Result<Reply, AskFault>
    requires { len ≤ most_data }
    ensures { (count : List ℕ) → length count ≡ 4 → big_number 4 count ≡ 10 + len →
        ReadsReply count (R.state reader.old) (R.state reader.new) tag result }
{
    let mut head = [0; 10];
    match fill(reader, &mut head) {
        FillResult::Full => read_body(alloc, reader, tag, &head, len),
        FillResult::Ended(_) => Err(AskFault::Cut),
        FillResult::Failed(_) => Err(AskFault::Read),
    }
}

// Reads the `len` bytes of sense data and payload, after N and `head`.
fn read_body<R: Source>(
    alloc: Global,
    reader: &mut R,
    tag: u64,
    head: &[u8; 10],
    len: u32,
) -> Result<Reply, AskFault>
    requires { len ≤ most_data }
    ensures { (count : List ℕ) → length count ≡ 4 → big_number 4 count ≡ 10 + len →
        ReadsReply (count ++ head.now) (R.state reader.old) (R.state reader.new) tag result }
{
    match hold(alloc, reader, len as usize) {
        BufferResult::Kept(body) => judge(tag, head, body),
        BufferResult::Refused => Err(AskFault::NoMemory),
        BufferResult::Lost => Err(AskFault::NoMemory),
        BufferResult::Ended => Err(AskFault::Cut),
        BufferResult::Failed => Err(AskFault::Read),
    }
}

// Checks a whole reply: `head` is the ten bytes after N, `body` the rest.
fn judge(tag: u64, head: &[u8; 10], body: Bytes) -> Result<Reply, AskFault>
    requires { length body ≤ most_data }
    ensures { (count : List ℕ) → length count ≡ 4 → big_number 4 count ≡ 10 + length body →
        Judges tag ((count ++ head.now) ++ body) result }
{
    let named = BigEndian::read_u64(head);
    match parse(head[8], head[9], body) {
        None => Err(AskFault::BadFrame),
        Some(reply) => {
            if named == tag {
                Ok(reply)
            } else {
                Err(AskFault::WrongTag)
            }
        }
    }
}

// Decodes a reply from its status byte, its sense length, and its sense data and payload.
fn parse(status: u8, sense_len: u8, body: Bytes) -> Option<Reply>
    requires { length body ≤ most_data }
    ensures some { IfSome result (λ reply. Parses status sense_len body reply) }
    ensures none { IfNone result ((reply : Reply) → Parses status sense_len body reply → ⊥) }
{
    match (status, sense_len) {
        (0x00, 0) => Some(Reply::good(body)),
        (0x02, 18) => checked(&body),
        (0x08, 0) if body.is_empty() => Some(Reply::busy()),
        _ => None,
    }
}

// A CHECK CONDITION with these sense data, if they have 18 bytes.
fn checked(sense: &Bytes) -> Option<Reply>
    ensures some { IfSome result (λ reply. Parses 0x02 0x12 sense.now reply) }
    ensures none { IfNone result (¬ (length sense.now ≡ 18)) }
{
    if sense.len() != 18 {
        return None;
    }
    let mut bytes = [0; 18];
    bytes.copy_from_slice(sense.as_slice());
    Some(Reply {
        status: Status::CheckCondition,
        sense: Some(bytes),
        payload: Bytes::new(),
    })
}
