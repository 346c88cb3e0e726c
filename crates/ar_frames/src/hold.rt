// Reads data into a buffer of exactly their length. If it can't be allocated, they are read and discarded, so that the
// next read begins at a frame.
ghost use Rattle.std.specs.Prelude.{◌≡◌, IfOk, length, vec_len, vec_capacity};
ghost use Rattle.ar_frames.specs.Stream.{Passes, Shares, Buffers, Fetches};

use crate::stream::Source;
use crate::transfer::{FillResult, fill};
use bytes::Bytes;
use std::alloc::{AllocError, Global};

// The result of discarding bytes.
#[derive(Clone, Copy)]
pub(crate) enum Passed {
    All,
    Ended,
    Failed,
}

// The result of reading bytes into a buffer.
#[derive(Drop)]
pub(crate) enum BufferResult {
    Kept(Bytes),
    // The allocation failed, and no byte was read.
    Refused,
    // All were read, and the allocation for sharing them failed.
    Lost,
    Ended,
    Failed,
}

// The result of reading bytes that are kept if they can be allocated, and read in any case.
#[derive(Drop)]
pub(crate) enum Fetched {
    Kept(Bytes),
    Lost,
    Ended,
    Failed,
}

// The most bytes that are discarded at once.
const PIECE: usize = 4096;

// Reads `len` bytes and discards them.
pub(crate) fn pass<R: Source>(reader: &mut R, len: usize) -> Passed
    ensures { Passes (R.state reader.old) (R.state reader.new) len result }
{
    let mut piece = [0; PIECE];
    let mut left = len;
    while left > 0 {
        let next = left.min(PIECE);
        match fill(reader, &mut piece[..next]) {
            FillResult::Full => left -= next,
            FillResult::Ended(_) => return Passed::Ended,
            FillResult::Failed(_) => return Passed::Failed,
        }
    }
    Passed::All
}

// Reads `len` bytes into a buffer of their own. Zero bytes allocate nothing.
pub(crate) fn hold<R: Source>(alloc: Global, reader: &mut R, len: usize) -> BufferResult
    ensures { Buffers (R.state reader.old) (R.state reader.new) len result }
{
    if len == 0 {
        return BufferResult::Kept(Bytes::new());
    }
    let Ok(mut bytes) = zeros(alloc, len) else {
        return BufferResult::Refused;
    };
    match fill(reader, &mut bytes) {
        FillResult::Full => shared(bytes),
        FillResult::Ended(_) => BufferResult::Ended,
        FillResult::Failed(_) => BufferResult::Failed,
    }
}

// A buffer of `len` zeros with capacity `len`. (std specifies only a lower bound for the capacity after `resize`. These
// pushes are compiled to one fill of the whole.)
fn zeros(alloc: Global, len: usize) -> Result<Vec<u8>, AllocError>
    ensures len { IfOk result (λ bytes. vec_len bytes ≡ len) }
    ensures exact { IfOk result (λ bytes. vec_capacity bytes ≡ len) }
{
    let mut bytes = Vec::with_capacity(alloc, len)?;
    for _ in 0..len {
        bytes.push_reserved(0);
    }
    Ok(bytes)
}

// Makes the bytes of a vector without spare capacity shareable.
fn shared(bytes: Vec<u8>) -> BufferResult
    requires exact { vec_capacity bytes ≡ vec_len bytes }
    ensures { Shares bytes.items result }
{
    match Bytes::from_vec(bytes) {
        Ok(bytes) => BufferResult::Kept(bytes),
        Err(_) => BufferResult::Lost,
    }
}

// Reads `len` bytes, and keeps them if they can be allocated.
pub(crate) fn fetch_data<R: Source>(alloc: Global, reader: &mut R, len: usize) -> Fetched
    ensures { Fetches (R.state reader.old) (R.state reader.new) len result }
{
    match hold(alloc, reader, len) {
        BufferResult::Kept(bytes) => Fetched::Kept(bytes),
        BufferResult::Lost => Fetched::Lost,
        BufferResult::Ended => Fetched::Ended,
        BufferResult::Failed => Fetched::Failed,
        BufferResult::Refused => match pass(reader, len) {
            Passed::All => Fetched::Lost,
            Passed::Ended => Fetched::Ended,
            Passed::Failed => Fetched::Failed,
        },
    }
}
