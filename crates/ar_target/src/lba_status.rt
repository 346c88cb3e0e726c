// GET LBA STATUS: which of a unit's blocks are mapped. One answer is of one run of the array's blocks that are alike;
// an initiator asks for the next.
ghost use Rattle.std.specs.Prelude.{◌≡◌, ◌≤◌, ◌<◌, true};
ghost use Rattle.ar_frames.specs.Frame.{IsReply};
ghost use Rattle.ar_target.specs.LbaStatus as spec;

use crate::discard_port::{BlockRun, DiscardPort};
use crate::own_commands::{CAPACITY, ask, cut_reply, handed_on, last_block};
use ar_scsi::{Reply, Sense};
use byteorder::{BigEndian, ByteOrder};
use std::alloc::Global;

// The most of the array's blocks that an answer tells of.
const MOST_BLOCKS: u32 = 65_536;

/// GET LBA STATUS of the unit at `lun`, from `lba` on, on an array with blocks of `block_sectors` sectors.
pub(crate) fn lba_status<P: DiscardPort>(
    alloc: Global,
    port: &mut P,
    block_sectors: u16,
    lba: u64,
    len: u32,
    lun: u8,
) -> Reply
    requires { P.has_login port.old ≡ true }
    ensures status { spec.GetsLbaStatus P.commands P.runs block_sectors lba len port.old lun result port.new }
    ensures reply { IsReply result }
    ensures stays { P.has_login port.new ≡ true }
{
    let own_reply = ask(port, lun, &CAPACITY);
    match last_block(&own_reply) {
        Some(last) => status_of_unit(alloc, port, block_sectors, lba, len, lun, last),
        None => handed_on(own_reply),
    }
}

// The same of a unit whose last block is `last`.
fn status_of_unit<P: DiscardPort>(
    alloc: Global,
    port: &mut P,
    block_sectors: u16,
    lba: u64,
    len: u32,
    lun: u8,
    last: u32,
) -> Reply
    requires { P.has_login port.old ≡ true }
    ensures status { spec.StatusOfUnit P.runs block_sectors lba len lun last port.old result port.new }
    ensures reply { IsReply result }
    ensures stays { P.has_login port.new ≡ true }
{
    if u64::from(last) < lba {
        return Reply::check(Sense::LOGICAL_BLOCK_ADDRESS_OUT_OF_RANGE);
    }
    let block = lba / u64::from(block_sectors.max(1));
    let run = port.run(lun, block as u32, MOST_BLOCKS);
    cut_reply(
        alloc,
        &lba_status_data(block_sectors, lba, last, run),
        len as usize,
    )
}

// GET LBA STATUS data.
#[tactic(auto, unfolding(crate::specs::LbaStatus::lba_status_data))]
fn lba_status_data(block_sectors: u16, lba: u64, last: u32, run: BlockRun) -> [u8; 24]
    requires { lba ≤ last }
    ensures { result ≡ spec.lba_status_data block_sectors lba last run }
{
    let mut bytes = [0; 24];
    bytes[3] = 20;
    BigEndian::write_u64(&mut bytes[8..], lba);
    BigEndian::write_u32(
        &mut bytes[16..],
        status_count(block_sectors, lba, last, run),
    );
    bytes[20] = provisioning_status(run);
    bytes
}

// NUMBER OF LOGICAL BLOCKS.
fn status_count(block_sectors: u16, lba: u64, last: u32, run: BlockRun) -> u32
    requires { lba ≤ last }
    ensures { result ≡ spec.status_count block_sectors lba last run }
{
    let sectors = u64::from(block_sectors.max(1));
    let end = (lba / sectors + u64::from(run.blocks)) * sectors;
    let left = (u64::from(last) + 1 - lba).min(u64::from(u32::MAX));
    end.saturating_sub(lba).min(left).max(1) as u32
}

// PROVISIONING STATUS.
fn provisioning_status(run: BlockRun) -> u8
    ensures { result ≡ spec.provisioning_status run }
{
    if run.is_written || run.blocks == 0 {
        0x00
    } else {
        0x01
    }
}
