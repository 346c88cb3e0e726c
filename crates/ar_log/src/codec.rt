//! The bytes of a batch. Records stand after their lengths, and a batch after its own length and digest:
//!
//! ```text
//! | payload length, 8 | digest, 8 | length, 8 | record | length, 8 | record | ..
//! ```
//!
//! Numbers are little-endian.
ghost use Rattle.std.specs.Prelude.{◌≡◌, ◌≢◌, ◌+◌, ◌<◌, ◌^◌, [], ◌∷◌, ◌++◌, length, vec_len, IfOk, IfErr, true, false};
ghost use Rattle.ar_log.specs.Codec.{Batch, number_bytes, number_of, batch_digest, encoded, sealed, items_of};
ghost use Rattle.ar_log.specs.Failure.{is_damage, is_of_medium};

use crate::LogError;
use std::alloc::{AllocError, Global};
use std::hash::{DefaultHasher, Hasher};

/// A number as eight bytes.
pub fn number_bytes(number: u64) -> [u8; 8]
    ensures bytes { result ≡ number_bytes number }
    ensures back { number_of result ≡ number }
    ensures length { length result ≡ 8 }
{
    number.to_le_bytes()
}

/// The number of eight bytes.
pub fn number_of(bytes: [u8; 8]) -> u64
    ensures number { result ≡ number_of bytes }
    ensures back { number_bytes result ≡ bytes }
{
    u64::from_le_bytes(bytes)
}

/// The digest of a batch's payload, which finds decay and nothing else rests on.
pub fn batch_digest(number: u64, payload: &[u8]) -> u64
    ensures { result ≡ batch_digest number payload.now }
{
    let mut hasher = DefaultHasher::new();
    hasher.write(&number.to_le_bytes());
    hasher.write(payload);
    hasher.finish()
}

/// The payload of a batch of records.
pub fn encode(alloc: Global, records: &[Vec<u8>]) -> Result<Vec<u8>, AllocError>
    ensures { IfOk result (λ bytes. bytes.items ≡ encoded (items_of records.now)) }
{
    let mut bytes = Vec::with_capacity(alloc, room_for(records))?;
    for one in records {
        bytes.extend_from_slice(&number_bytes(one.len() as u64))?;
        bytes.extend_from_slice(one)?;
    }
    Ok(bytes)
}

// How many bytes the payload of a batch of records has.
fn room_for(records: &[Vec<u8>]) -> usize {
    let mut room: usize = 0;
    for one in records {
        room = room.saturating_add(one.len()).saturating_add(8);
    }
    room
}

/// A batch of this payload, and the closed gate after it.
pub fn seal(alloc: Global, number: u64, payload: &[u8]) -> Result<Vec<u8>, AllocError>
    ensures { IfOk result (λ bytes. bytes.items ≡ sealed number payload.now ++ 0 ∷ 0 ∷ []) }
{
    let mut bytes = Vec::with_capacity(alloc, payload.len().saturating_add(18))?;
    bytes.extend_from_slice(&number_bytes(payload.len() as u64))?;
    bytes.extend_from_slice(&number_bytes(batch_digest(number, payload)))?;
    bytes.extend_from_slice(payload)?;
    bytes.extend_from_slice(&[0, 0])?;
    Ok(bytes)
}

/// A batch of these records, and the closed gate after it.
pub fn sealed_batch(alloc: Global, number: u64, records: &[Vec<u8>]) -> Result<Vec<u8>, AllocError>
    ensures bytes { IfOk result (λ bytes. bytes.items
        ≡ sealed number (encoded (items_of records.now)) ++ 0 ∷ 0 ∷ []) }
    ensures fits { IfOk result (λ _. length (encoded (items_of records.now)) < 2 ^ 64) }
    ensures len { IfOk result (λ bytes. vec_len bytes ≡ 18 + length (encoded (items_of records.now))) }
{
    let payload = encode(alloc, records)?;
    let bytes = seal(alloc, number, &payload)?;
    Ok(bytes)
}

/// The records of the payload of the batch at `offset`, which is damaged if no records have it.
pub fn decode(alloc: Global, payload: &[u8], offset: usize) -> Result<Vec<Vec<u8>>, LogError>
    ensures whole { IfOk result (λ records. encoded (items_of records.items) ≡ payload.now) }
    ensures damaged { IfErr result (λ e. is_damage e ≡ true → (records : Batch) → encoded records ≢ payload.now) }
    ensures cause { IfErr result (λ e. is_of_medium e ≡ false) }
{
    let mut records = Vec::new(alloc);
    let mut rest = payload;
    while !rest.is_empty() {
        let Some((len, after)) = rest.split_first_chunk::<8>() else {
            return Err(LogError::Damaged { offset });
        };
        let len = number_of(*len);
        if len > after.len() as u64 {
            return Err(LogError::Damaged { offset });
        }
        let (first, behind) = after.split_at(len as usize);
        records.push(first.to_vec(alloc)?)?;
        rest = behind;
    }
    Ok(records)
}
