// Receives request frames. N is checked before anything after it is read, and a frame whose data can't be allocated is
// still read to its end.
ghost use Rattle.std.specs.Prelude.{◌≡◌, ◌+◌, ◌≤◌, ◌++◌, ℕ, List, [], length};
ghost use Rattle.byteorder.specs.Endian.{big_number};
ghost use Rattle.ar_frames.specs.Frame.{most_data};
ghost use Rattle.ar_frames.specs.FrameStep.{Receives};

use crate::end::EndReason;
use crate::frame::{Head, MOST_DATA, Request, head_of};
use crate::hold::{Fetched, fetch_data};
use crate::stream::Source;
use crate::transfer::{FillResult, fill};
use byteorder::{BigEndian, ByteOrder};
use std::alloc::Global;

// What was read where a request frame may begin.
#[derive(Drop)]
pub(crate) enum Incoming {
    Whole(Request),
    // A whole frame, whose data couldn't be allocated.
    Lost { tag: u64, cdb: [u8; 16] },
    // No whole frame, for this reason.
    Ended(EndReason),
}

// Reads a request frame. After an N that no frame has, nothing is read.
pub(crate) fn receive<R: Source>(alloc: Global, reader: &mut R) -> Incoming
    ensures { Receives [] (R.state reader.old) (R.state reader.new) result }
{
    let mut count = [0; 4];
    match fill(reader, &mut count) {
        FillResult::Full => receive_counted(alloc, reader, &count),
        FillResult::Ended(0) => Incoming::Ended(EndReason::End),
        FillResult::Ended(_) => Incoming::Ended(EndReason::Cut),
        FillResult::Failed(_) => Incoming::Ended(EndReason::Read),
    }
}

// Reads what follows N.
fn receive_counted<R: Source>(alloc: Global, reader: &mut R, count: &[u8; 4]) -> Incoming
    ensures { Receives count.now (R.state reader.old) (R.state reader.new) result }
{
    let n = BigEndian::read_u32(count);
    if n < 25 {
        return Incoming::Ended(EndReason::TooShort(n));
    }
    let len = n - 25;
    if len > MOST_DATA {
        return Incoming::Ended(EndReason::TooLong(n));
    }
    receive_head(alloc, reader, len)
}

// Reads what follows N, in a frame with `len` bytes of data.
fn receive_head<R: Source>(alloc: Global, reader: &mut R, len: u32) -> Incoming
    requires { len ≤ most_data }
    ensures { (count : List ℕ) → length count ≡ 4 → big_number 4 count ≡ 25 + len →
        Receives count (R.state reader.old) (R.state reader.new) result }
{
    let mut head = [0; 25];
    match fill(reader, &mut head) {
        FillResult::Full => receive_data(alloc, reader, &head, len),
        FillResult::Ended(_) => Incoming::Ended(EndReason::Cut),
        FillResult::Failed(_) => Incoming::Ended(EndReason::Read),
    }
}

// Reads the `len` bytes of data, after N and `head`.
fn receive_data<R: Source>(alloc: Global, reader: &mut R, head: &[u8; 25], len: u32) -> Incoming
    requires { len ≤ most_data }
    ensures { (count : List ℕ) → length count ≡ 4 → big_number 4 count ≡ 25 + len →
        Receives (count ++ head.now) (R.state reader.old) (R.state reader.new) result }
{
    let Head { tag, lun, cdb } = head_of(head);
    match fetch_data(alloc, reader, len as usize) {
        Fetched::Kept(payload) => Incoming::Whole(Request {
            tag,
            lun,
            cdb,
            payload,
        }),
        Fetched::Lost => Incoming::Lost { tag, cdb },
        Fetched::Ended => Incoming::Ended(EndReason::Cut),
        Fetched::Failed => Incoming::Ended(EndReason::Read),
    }
}
