// What is done with UNMAP and WRITE SAME.
ghost use Rattle.std.specs.Prelude.{◌≡◌, ◌≤◌, ◌+◌, ◌-◌, ◌*◌, ◌^◌, ◌<◌, ℕ, IfNone, true, false, length};
ghost use Rattle.ar_frames.specs.Frame.{IsReply};
ghost use Rattle.ar_target.specs.Discarding as spec;
ghost use Rattle.ar_target.specs.Provisioning as table;
ghost use Rattle.ar_target.specs.Ranges.{is_past};

use crate::discard_port::DiscardPort;
use crate::own_commands::{CAPACITY, ask, handed_on, is_good, last_block};
use crate::provisioning::{
    BlockRange, INVALID_FIELD_IN_PARAMETER_LIST, MOST_BLOCKS, MOST_DESCRIPTORS,
    PARAMETER_LIST_LENGTH_ERROR, WriteSame, descriptor_count, range_at,
};
use crate::ranges::{discard_range, write_range};
use ar_disks::SECTOR_LEN;
use ar_scsi::{Reply, Sense};
use bytes::Bytes;
use std::alloc::Global;

/// UNMAP of the unit at `lun` by a parameter list, whose length was announced as `len`.
pub(crate) fn unmap<P: DiscardPort>(
    port: &mut P,
    block_sectors: u16,
    len: u16,
    lun: u8,
    list: &[u8],
) -> Reply
    requires { P.has_login port.old ≡ true }
    ensures unmaps { spec.Unmaps P.commands P.discards block_sectors len port.old lun list.now result port.new }
    ensures reply { IsReply result }
    ensures stays { P.has_login port.new ≡ true }
{
    let own_reply = ask(port, lun, &CAPACITY);
    match last_block(&own_reply) {
        Some(last) => unmap_unit(port, block_sectors, len, lun, list, last),
        None => handed_on(own_reply),
    }
}

// UNMAP of a unit whose last block is `last`.
fn unmap_unit<P: DiscardPort>(
    port: &mut P,
    block_sectors: u16,
    len: u16,
    lun: u8,
    list: &[u8],
    last: u32,
) -> Reply
    requires { P.has_login port.old ≡ true }
    ensures unmaps { spec.UnmapsUnit P.discards block_sectors lun len list.now last port.old result port.new }
    ensures reply { IsReply result }
    ensures stays { P.has_login port.new ≡ true }
{
    match unmap_fault(len, last, list) {
        Some(sense) => Reply::check(sense),
        None => discard_ranges(port, block_sectors, lun, list, descriptor_count(list)),
    }
}

// Discards the ranges of the first `count` descriptors, in order.
fn discard_ranges<P: DiscardPort>(
    port: &mut P,
    block_sectors: u16,
    lun: u8,
    list: &[u8],
    count: usize,
) -> Reply
    requires logged { P.has_login port.old ≡ true }
    requires whole { 16 * count ≤ length list.now - 8 }
    requires fit { (i : ℕ) → i < count
        → (table.range_at list.now i).lba + (table.range_at list.now i).count ≤ 2 ^ 32 }
    ensures discards { spec.DiscardsRanges P.discards block_sectors lun list.now count port.old result port.new }
    ensures reply { IsReply result }
    ensures stays { P.has_login port.new ≡ true }
{
    for i in 0..count {
        let range = range_at(list, i);
        let reply = discard_range(port, block_sectors, lun, range.lba, range.count);
        if !is_good(&reply) {
            return reply;
        }
    }
    Reply::good(Bytes::new())
}

// Why an UNMAP is refused at a unit whose last block is `last`. Nothing is discarded then.
fn unmap_fault(len: u16, last: u32, list: &[u8]) -> Option<Sense>
    ensures fault { result ≡ table.unmap_fault len last list.now }
    ensures within { IfNone result (table.names_past last list.now (table.descriptor_count list.now) ≡ false) }
{
    if list.len() != usize::from(len) {
        return Some(Sense::DATA_PHASE_ERROR);
    }
    if len == 0 {
        return None;
    }
    if len < 8 {
        return Some(PARAMETER_LIST_LENGTH_ERROR);
    }
    descriptors_fault(last, list, descriptor_count(list))
}

// Why a list of this many descriptors is refused.
fn descriptors_fault(last: u32, list: &[u8], count: usize) -> Option<Sense>
    requires { 16 * count ≤ length list.now - 8 }
    ensures fault { result ≡ table.descriptors_fault last list.now count }
    ensures within { IfNone result (table.names_past last list.now count ≡ false) }
{
    if count > MOST_DESCRIPTORS || blocks_named(list, count) > u64::from(MOST_BLOCKS) {
        return Some(INVALID_FIELD_IN_PARAMETER_LIST);
    }
    if names_past(last, list, count) {
        return Some(Sense::LOGICAL_BLOCK_ADDRESS_OUT_OF_RANGE);
    }
    None
}

// The number of blocks that the first descriptors name.
fn blocks_named(list: &[u8], count: usize) -> u64
    requires few { count ≤ 256 }
    requires whole { 16 * count ≤ length list.now - 8 }
    ensures { result ≡ table.blocks_named list.now count }
{
    let mut total = 0;
    for i in 0..count {
        total += u64::from(range_at(list, i).count);
    }
    total
}

// Whether one of the first descriptors names a block that isn't on a unit whose last block is `last`.
fn names_past(last: u32, list: &[u8], count: usize) -> bool
    requires { 16 * count ≤ length list.now - 8 }
    ensures { result ≡ table.names_past last list.now count }
{
    let mut past = false;
    for i in 0..count {
        let range = range_at(list, i);
        past = past || is_past(last, range.lba, range.count);
    }
    past
}

// Whether `count` blocks from `lba` on aren't all on a unit whose last block is `last`. The sum, in 128 bits, doesn't
// overflow.
fn is_past(last: u32, lba: u64, count: u32) -> bool
    ensures { result ≡ is_past last lba count }
{
    u128::from(last) + 1 < u128::from(lba) + u128::from(count)
}

/// WRITE SAME of the unit at `lun`, by the block that came with it.
pub(crate) fn write_same<P: DiscardPort>(
    alloc: Global,
    port: &mut P,
    block_sectors: u16,
    same: WriteSame,
    lun: u8,
    sent: &[u8],
) -> Reply
    requires { P.has_login port.old ≡ true }
    ensures writes { spec.WritesSame P.commands P.discards block_sectors same port.old lun sent.now result port.new }
    ensures reply { IsReply result }
    ensures stays { P.has_login port.new ≡ true }
{
    let own_reply = ask(port, lun, &CAPACITY);
    match last_block(&own_reply) {
        Some(last) => fill_unit(alloc, port, block_sectors, same, lun, sent, last),
        None => handed_on(own_reply),
    }
}

// WRITE SAME of a unit whose last block is `last`.
fn fill_unit<P: DiscardPort>(
    alloc: Global,
    port: &mut P,
    block_sectors: u16,
    same: WriteSame,
    lun: u8,
    sent: &[u8],
    last: u32,
) -> Reply
    requires { P.has_login port.old ≡ true }
    ensures fills { spec.FillsUnit P.commands P.discards block_sectors lun same sent.now last port.old result port.new }
    ensures reply { IsReply result }
    ensures stays { P.has_login port.new ≡ true }
{
    match same_fault(last, same, sent.len()) {
        Some(sense) => Reply::check(sense),
        None => fill(alloc, port, block_sectors, same, lun, sent),
    }
}

// Discards the blocks of a WRITE SAME, or writes them.
fn fill<P: DiscardPort>(
    alloc: Global,
    port: &mut P,
    block_sectors: u16,
    same: WriteSame,
    lun: u8,
    sent: &[u8],
) -> Reply
    requires logged { P.has_login port.old ≡ true }
    requires fits { same.lba + same.count ≤ 2 ^ 32 }
    requires whole { same.has_block ≡ true → length sent.now ≡ 512 }
    ensures fills { spec.FillsBlocks (spec.discards_same same sent.now) P.commands P.discards block_sectors lun same
        sent.now port.old result port.new }
    ensures reply { IsReply result }
    ensures stays { P.has_login port.new ≡ true }
{
    if same.unmaps && (!same.has_block || are_zeros(sent)) {
        discard_range(port, block_sectors, lun, same.lba, same.count)
    } else if same.has_block {
        write_range(alloc, port, lun, same.lba, same.count, sent)
    } else {
        write_range(alloc, port, lun, same.lba, same.count, &[0; SECTOR_LEN])
    }
}

// Why a WRITE SAME is refused at a unit whose last block is `last`. Nothing is written then.
fn same_fault(last: u32, same: WriteSame, sent: usize) -> Option<Sense>
    ensures fault { result ≡ table.same_fault last same sent }
    ensures fits { IfNone result (same.lba + same.count ≤ 2 ^ 32) }
    ensures whole { IfNone result (same.has_block ≡ true → sent ≡ 512) }
{
    if is_past(last, same.lba, same.count) {
        return Some(Sense::LOGICAL_BLOCK_ADDRESS_OUT_OF_RANGE);
    }
    if same.has_block && sent != SECTOR_LEN {
        return Some(Sense::DATA_PHASE_ERROR);
    }
    None
}

// Whether each byte is 0.
fn are_zeros(bytes: &[u8]) -> bool
    ensures { result ≡ table.are_zeros bytes.now }
{
    for byte in bytes {
        if *byte != 0 {
            return false;
        }
    }
    true
}
