// What the port tells in answer to a command of the device server's own.
ghost use Rattle.std.specs.Prelude.{◌≡◌, ◌≤◌, ◌⊎◌, ◌≢◌, [], true, length, take, min};
ghost use Rattle.ar_scsi.specs.Reply.{good};
ghost use Rattle.ar_frames.specs.Frame.{IsReply, most_data};
ghost use Rattle.ar_target.specs.OwnCommands as spec;

use ar_frames::Port;
use ar_scsi::{Reply, Sense, Status};
use byteorder::{BigEndian, ByteOrder};
use bytes::Bytes;
use std::alloc::Global;

/// TEST UNIT READY.
pub(crate) const READY: [u8; 16] = [0; 16];

/// INQUIRY of the standard data, 36 bytes.
pub(crate) const INQUIRY: [u8; 16] = [0x12, 0, 0, 0, 36, 0, 0, 0, 0, 0, 0, 0, 0, 0, 0, 0];

/// READ CAPACITY (10).
pub(crate) const CAPACITY: [u8; 16] = [0x25, 0, 0, 0, 0, 0, 0, 0, 0, 0, 0, 0, 0, 0, 0, 0];

/// Gives the port a command of the device server's own, which has no data.
pub(crate) fn ask<P: Port>(port: &mut P, lun: u8, cdb: &[u8; 16]) -> Reply
    requires { P.has_login port.old ≡ true }
    ensures asked { P.commands port.old lun cdb.now [] result port.new }
    ensures reply { IsReply result }
    ensures stays { P.has_login port.new ≡ true }
{
    port.command(lun, cdb, Bytes::new())
}

// The number in the first four bytes, if there are as many.
fn first_number(bytes: &[u8]) -> Option<u32>
    ensures { result ≡ spec.first_number bytes.now }
{
    if bytes.len() < 4 {
        return None;
    }
    Some(BigEndian::read_u32(bytes))
}

/// The address of the last block that a reply to READ CAPACITY (10) states. Units have at most 2^20 blocks: four bytes
/// hold it.
#[tactic(auto, unfolding(crate::specs::OwnCommands::last_block))]
pub(crate) fn last_block(own_reply: &Reply) -> Option<u32>
    ensures { result ≡ spec.last_block own_reply.now }
{
    match own_reply.status {
        Status::Good => first_number(own_reply.payload.as_slice()),
        Status::CheckCondition | Status::Busy => None,
    }
}

// Whether the first byte, PERIPHERAL QUALIFIER and PERIPHERAL DEVICE TYPE, states that there may be a unit.
fn shows_unit(bytes: &[u8]) -> Option<bool>
    ensures { result ≡ spec.shows_unit bytes.now }
{
    if bytes.is_empty() {
        return None;
    }
    Some(bytes[0] >> 5 != 3)
}

/// Whether a reply to INQUIRY states that there is a unit; None where it states neither.
#[tactic(auto, unfolding(crate::specs::OwnCommands::presence_of))]
pub(crate) fn presence(own_reply: &Reply) -> Option<bool>
    ensures { result ≡ spec.presence_of own_reply.now }
{
    match own_reply.status {
        Status::Good => shows_unit(own_reply.payload.as_slice()),
        Status::CheckCondition | Status::Busy => None,
    }
}

/// The answer where a reply doesn't tell what was asked: that reply or, if it is GOOD, a failure of the target.
#[tactic(auto, unfolding(crate::specs::OwnCommands::handed_on))]
pub(crate) fn handed_on(own_reply: Reply) -> Reply
    requires { IsReply own_reply }
    ensures answer { result ≡ spec.handed_on own_reply }
    ensures reply { IsReply result }
{
    match own_reply.status {
        Status::Good => Reply::check(Sense::INTERNAL_TARGET_FAILURE),
        Status::CheckCondition | Status::Busy => own_reply,
    }
}

/// Whether a reply is GOOD.
pub(crate) fn is_good(reply: &Reply) -> bool
    ensures { result ≡ spec.is_good reply.now.status }
{
    match reply.status {
        Status::Good => true,
        Status::CheckCondition | Status::Busy => false,
    }
}

/// GOOD with the first `len` of `bytes`, or BUSY if out of memory.
pub(crate) fn cut_reply(alloc: Global, bytes: &[u8], len: usize) -> Reply
    requires { min len (length bytes.now) ≤ most_data }
    ensures answer { spec.IsReturned (good (take len bytes.now)) result }
    ensures reply { IsReply result }
{
    let shown = len.min(bytes.len());
    if shown == 0 {
        return Reply::good(Bytes::new());
    }
    match Bytes::copy_from_slice(alloc, &bytes[..shown]) {
        Ok(payload) => Reply::good(payload),
        Err(_) => Reply::busy(),
    }
}
