// Replies that read no sector. One with data is BUSY if its allocation fails; one without data never is.
ghost use Rattle.std.specs.Prelude.{◌≡◌, ◌+◌, ◌≤◌, nat_lt, take, length};
ghost use Rattle.ar_scsi.specs.Data as table;
ghost use Rattle.ar_scsi.specs.Reply as shape;
ghost use Rattle.ar_unit.specs.Unit.{IsGiven, absent_reply};

use ar_scsi::{Reply, Sense, allocation_length, capacity_data, inquiry_data, is_inquiry};
use bytes::Bytes;
use std::alloc::Global;

/// GOOD with a copy of `bytes`, or BUSY if out of memory. Empty `bytes` allocate nothing.
pub fn with_bytes(alloc: Global, bytes: &[u8]) -> Reply
    ensures { IsGiven (shape.good bytes.now) result }
{
    if bytes.is_empty() {
        return Reply::good(Bytes::new());
    }
    match Bytes::copy_from_slice(alloc, bytes) {
        Ok(payload) => Reply::good(payload),
        Err(_) => Reply::busy(),
    }
}

/// The reply to INQUIRY: the standard data, cut to `allocation_length` bytes (SPC-3, INQUIRY command).
pub fn inquiry(alloc: Global, present: bool, allocation_length: u16) -> Reply
    ensures { IsGiven (shape.good (take allocation_length (table.inquiry_data present))) result }
{
    let bytes = inquiry_data(present);
    let shown = usize::from(allocation_length).min(bytes.len());
    with_bytes(alloc, &bytes[..shown])
}

/// The reply of an absent unit: INQUIRY reports its absence by the peripheral qualifier (SPC-3, Standard INQUIRY data),
/// and any other command is terminated with LOGICAL UNIT NOT SUPPORTED (SAM-3, Incorrect logical unit selection).
pub fn absent(alloc: Global, cdb: &[u8; 16]) -> Reply
    ensures { IsGiven (absent_reply cdb.now) result }
{
    if is_inquiry(cdb) {
        inquiry(alloc, false, allocation_length(cdb))
    } else {
        Reply::check(Sense::LOGICAL_UNIT_NOT_SUPPORTED)
    }
}

/// The reply to READ CAPACITY (10) of a unit of `sectors` sectors, at least 1 (SBC-2, READ CAPACITY (10) command).
pub fn capacity(alloc: Global, sectors: u32) -> Reply
    requires { 1 ≤ sectors }
    ensures { IsGiven (shape.good (table.capacity_data sectors)) result }
{
    with_bytes(alloc, &capacity_data(sectors))
}

/// Whether the range of `count` sectors from `lba` on ends past a unit of `sectors` sectors. The sum, in 128 bits,
/// doesn't overflow.
pub fn is_past_end(sectors: u32, lba: u64, count: u32) -> bool
    ensures { result ≡ nat_lt sectors (lba + count) }
{
    u128::from(lba) + u128::from(count) > u128::from(sectors)
}
