//! The bytes of a batch in a log over zeros. Its body is its payload after the payload's digest, and stands after the
//! body's length, what that lacks to the greatest length, and the count of the body's zero bytes:
//!
//! ```text
//! | body length, 8 | 2^64 - 1 - body length, 8 | zeros in the body, 8 | digest, 8 | payload
//! ```
//!
//! Where a byte of it is lost, and zero in its place, the two lengths no longer have their sum, or the body has more
//! zeros than it counts. So a batch is whole or is known to be torn, whatever its digest is.
ghost use Rattle.std.specs.Prelude.{◌≡◌, ◌≤◌, ◌<◌, ◌^◌, length, IfOk};
ghost use Rattle.ar_log.specs.Codec.{items_of};
ghost use Rattle.ar_log.specs.Zeroed.{zeros_in, body_of, counted_body, counted_bytes};

use crate::codec::{batch_digest, encode, number_bytes};
use std::alloc::{AllocError, Global};

/// How many of the bytes are zero.
pub fn zeros_in(bytes: &[u8]) -> usize
    ensures count { result ≡ zeros_in bytes.now }
    ensures within { result ≤ length bytes.now }
{
    let mut zeros = 0;
    for byte in bytes {
        if *byte == 0 {
            zeros += 1;
        }
    }
    zeros
}

/// A body after its length, what that lacks, and its count of zeros.
fn count_body(alloc: Global, body: &[u8]) -> Result<Vec<u8>, AllocError>
    ensures { IfOk result (λ bytes. bytes.items ≡ counted_body body.now) }
{
    let len = body.len() as u64;
    let mut bytes = Vec::new(alloc);
    bytes.extend_from_slice(&number_bytes(len))?;
    bytes.extend_from_slice(&number_bytes(u64::MAX - len))?;
    bytes.extend_from_slice(&number_bytes(zeros_in(body) as u64))?;
    bytes.extend_from_slice(body)?;
    Ok(bytes)
}

/// The bytes of a batch of these records.
pub fn counted_batch(alloc: Global, records: &[Vec<u8>]) -> Result<Vec<u8>, AllocError>
    ensures bytes { IfOk result (λ bytes. bytes.items ≡ counted_bytes (items_of records.now)) }
    ensures fits { IfOk result (λ _. length (body_of (items_of records.now)) < 2 ^ 64) }
{
    let payload = encode(alloc, records)?;
    let mut body = Vec::new(alloc);
    body.extend_from_slice(&number_bytes(batch_digest(0, &payload)))?;
    body.extend_from_slice(&payload)?;
    let bytes = count_body(alloc, &body)?;
    Ok(bytes)
}
