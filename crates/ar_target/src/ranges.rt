// Ranges of a unit's blocks, which are discarded or written in pieces, so that none holds the array for long.
ghost use Rattle.std.specs.Prelude.{◌≡◌, ◌≤◌, ◌<◌, ◌+◌, ◌^◌, IfOk, true, length};
ghost use Rattle.ar_frames.specs.Frame.{IsReply};
ghost use Rattle.ar_target.specs.Ranges as spec;

use crate::discard_port::DiscardPort;
use crate::own_commands::is_good;
use ar_frames::Port;
use ar_scsi::Reply;
use byteorder::{BigEndian, ByteOrder};
use bytes::Bytes;
use std::alloc::{AllocError, Global};

// The most blocks of a piece that is discarded, 32 MiB, and of one that is written, 1 MiB.
const MOST_DISCARDED: u32 = 65_536;

const MOST_WRITTEN: u32 = 2_048;

/// Discards `count` blocks from `lba` on, on an array with blocks of `block` sectors.
pub(crate) fn discard_range<P: DiscardPort>(
    port: &mut P,
    block: u16,
    lun: u8,
    lba: u64,
    count: u32,
) -> Reply
    requires logged { P.has_login port.old ≡ true }
    requires fits { lba + count ≤ 2 ^ 32 }
    ensures does { spec.DoesRange (spec.discards_at P.discards lun) (spec.discard_len block) lba count port.old result
        port.new }
    ensures reply { IsReply result }
    ensures stays { P.has_login port.new ≡ true }
{
    let mut done = 0;
    while done < count {
        let at = lba + u64::from(done);
        let len = discard_len(block, at, count - done);
        let reply = port.discard(lun, at, len);
        if !is_good(&reply) {
            return reply;
        }
        done += len;
    }
    Reply::good(Bytes::new())
}

// The length of the first piece of a discard.
fn discard_len(block: u16, lba: u64, count: u32) -> u32
    requires fits { lba < 2 ^ 32 }
    requires some { 0 < count }
    ensures len { result ≡ spec.discard_len block lba count }
    ensures some { 0 < result }
    ensures within { result ≤ count }
{
    if count <= MOST_DISCARDED {
        return count;
    }
    let past = (lba + u64::from(MOST_DISCARDED)) % u64::from(block.max(1));
    MOST_DISCARDED - past as u32
}

/// Writes a block to each of `count` blocks from `lba` on.
pub(crate) fn write_range<P: Port>(
    alloc: Global,
    port: &mut P,
    lun: u8,
    lba: u64,
    count: u32,
    block: &[u8],
) -> Reply
    requires logged { P.has_login port.old ≡ true }
    requires fits { lba + count ≤ 2 ^ 32 }
    requires whole { length block.now ≡ 512 }
    ensures does { spec.DoesRange (spec.writes_at P.commands lun block.now) spec.write_len lba count port.old result
        port.new }
    ensures reply { IsReply result }
    ensures stays { P.has_login port.new ≡ true }
{
    let mut done = 0;
    while done < count {
        let len = MOST_WRITTEN.min(count - done);
        let reply = write_piece(alloc, port, lun, lba + u64::from(done), len, block);
        if !is_good(&reply) {
            return reply;
        }
        done += len;
    }
    Reply::good(Bytes::new())
}

// Writes a block to each of `count` blocks from `lba` on, by one WRITE. The port refuses it if out of memory for its
// data.
fn write_piece<P: Port>(
    alloc: Global,
    port: &mut P,
    lun: u8,
    lba: u64,
    count: u32,
    block: &[u8],
) -> Reply
    requires { P.has_login port.old ≡ true }
    ensures writes { spec.writes_at P.commands lun block.now port.old lba count result port.new }
    ensures reply { IsReply result }
    ensures stays { P.has_login port.new ≡ true }
{
    let cdb = write_cdb(lba, count);
    match repeated(alloc, count, block) {
        Ok(payload) => port.command(lun, &cdb, payload),
        Err(_) => port.refuse(&cdb),
    }
}

// A WRITE (16).
#[tactic(auto, unfolding(crate::specs::Ranges::write_cdb))]
fn write_cdb(lba: u64, count: u32) -> [u8; 16]
    ensures { result ≡ spec.write_cdb lba count }
{
    let mut cdb = [0; 16];
    cdb[0] = 0x8A;
    BigEndian::write_u64(&mut cdb[2..], lba);
    BigEndian::write_u32(&mut cdb[10..], count);
    cdb
}

// A block, `count` times.
fn repeated(alloc: Global, count: u32, block: &[u8]) -> Result<Bytes, AllocError>
    ensures { IfOk result (λ bytes. bytes ≡ spec.repeated count block.now) }
{
    let mut bytes = Vec::new(alloc);
    for i in 0..count {
        bytes.extend_from_slice(block)?;
    }
    match Bytes::from_vec(bytes) {
        Ok(bytes) => Ok(bytes),
        Err(_) => Err(AllocError),
    }
}
