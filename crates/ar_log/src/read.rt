//! Reading a log, one batch in memory at a time. Nothing is written. What a clause says of a batch that was read has as
//! its premise that the medium is clean.
ghost use Rattle.std.specs.Prelude.{◌≡◌, ◌≢◌, ◌+◌, ◌≤◌, ◌<◌, List, [], ◌∷◌, length, take, drop, OnOk, IfOk, IfErr};
ghost use Rattle.std.specs.Prelude.{IfSome, IfNone, IsTrue, true, false};
ghost use Rattle.ar_log.specs.Codec.{Batch, number_bytes, encoded, items_of};
ghost use Rattle.ar_log.specs.Failure.{is_damage, is_of_medium, ReportsMedium};
ghost use Rattle.ar_log.specs.Log.{magic, BeginsWith, HoldsBatches};
ghost use Rattle.ar_log.specs.Reading.{OnlyReads, HasHead, IsClosedGate, IsDamage, GoesAfter, batches_before, IsAt};
ghost use Rattle.ar_log.specs.Reading.{ReadsOn};

use crate::codec::{batch_digest, decode, number_of};
use crate::new_log::MAGIC;
use crate::{LogError, Place, ReadBatch};
use ar_media::Media;
use std::alloc::Global;

const SHUT: [u8; 2] = [0, 0];

/// What is between a gate and its batch's payload.
#[derive(Clone, Copy)]
struct Head {
    len: usize,
    digest: u64,
}

/// Returns `len` bytes from `at` on.
pub fn fetch<M: Media>(
    alloc: Global,
    media: &mut M,
    at: usize,
    len: usize,
) -> Result<Vec<u8>, LogError>
    ensures bytes { IfOk result (λ bytes. IsTrue (M.is_clean media.new)
        → bytes.items ≡ take len (drop at (M.seen media.old))) }
    ensures len { IfOk result (λ bytes. length bytes.items ≡ len) }
    ensures reads { OnlyReads M.seen M.may_leave M.moment M.left_since M.is_clean media.old media.new }
    ensures error { IfErr result (λ e. is_damage e ≡ false) }
    ensures cause { ReportsMedium (M.faults media.old) (M.faults media.new) result }
{
    let mut bytes = Vec::new(alloc);
    bytes.resize(len, 0)?;
    if let Err(error) = media.read_at(at, &mut bytes) {
        return Err(LogError::Refused(error));
    }
    Ok(bytes)
}

/// The number in the eight bytes from `at` on.
pub fn number_at(bytes: &[u8], at: usize) -> u64
    requires { at + 8 ≤ length bytes.now }
    ensures { number_bytes result ≡ take 8 (drop at bytes.now) }
{
    number_of([
        bytes[at],
        bytes[at + 1],
        bytes[at + 2],
        bytes[at + 3],
        bytes[at + 4],
        bytes[at + 5],
        bytes[at + 6],
        bytes[at + 7],
    ])
}

/// Whether these two bytes are a closed gate.
fn is_shut(gate: &[u8]) -> bool
    ensures shut { result ≡ true → gate.now ≡ 0 ∷ 0 ∷ [] }
    ensures open { result ≡ false → gate.now ≢ 0 ∷ 0 ∷ [] }
{
    gate == SHUT.as_slice()
}

/// The length and the digest of the batch at a place, or `None` at a closed gate.
fn read_head<M: Media>(alloc: Global, media: &mut M, place: Place) -> Result<Option<Head>, LogError>
    ensures closed { IfOk result (λ r. IfNone r (IsTrue (M.is_clean media.new)
        → IsClosedGate (drop place.at (M.seen media.old)))) }
    ensures head { IfOk result (λ r. IfSome r (λ head. IsTrue (M.is_clean media.new)
        → HasHead (drop place.at (M.seen media.old)) head.len head.digest)) }
    ensures within { IfOk result (λ r. IfSome r (λ head. 18 + head.len ≤ place.left)) }
    ensures damaged { IfErr result (λ e. is_damage e ≡ true → IsTrue (M.is_clean media.new)
        → place.at + place.left ≡ length (M.seen media.old)
        → IsDamage place.number (drop place.at (M.seen media.old))) }
    ensures reads { OnlyReads M.seen M.may_leave M.moment M.left_since M.is_clean media.old media.new }
    ensures cause { ReportsMedium (M.faults media.old) (M.faults media.new) result }
{
    if place.left < 2 {
        return Err(LogError::Damaged { offset: place.at });
    }
    let gate = fetch(alloc, media, place.at, 2)?;
    let front = gate.as_slice();
    let shut = is_shut(front);
    if shut {
        return Ok(None);
    }
    if place.left < 18 {
        return Err(LogError::Damaged { offset: place.at });
    }
    let head = fetch(alloc, media, place.at + 2, 16)?;
    let bytes = head.as_slice();
    let len = number_at(bytes, 0);
    let digest = number_at(bytes, 8);
    if len > (place.left - 18) as u64 {
        return Err(LogError::Damaged { offset: place.at });
    }
    Ok(Some(Head {
        len: len as usize,
        digest,
    }))
}

/// The batch at a place, whose payload has this length and is to have this digest.
fn read_payload<M: Media>(
    alloc: Global,
    media: &mut M,
    place: Place,
    len: usize,
    digest: u64,
) -> Result<ReadBatch, LogError>
    requires { 18 + len ≤ place.left }
    ensures batch { IfOk result (λ read. IsTrue (M.is_clean media.new)
        → HasHead (drop place.at (M.seen media.old)) len digest
        → BeginsWith place.number (items_of read.records.items) (drop place.at (M.seen media.old))
        (drop read.next.at (M.seen media.old))) }
    ensures place { IfOk result (λ read. GoesAfter (items_of read.records.items) place read.next) }
    ensures damaged { IfErr result (λ e. is_damage e ≡ true → IsTrue (M.is_clean media.new)
        → HasHead (drop place.at (M.seen media.old)) len digest
        → IsDamage place.number (drop place.at (M.seen media.old))) }
    ensures reads { OnlyReads M.seen M.may_leave M.moment M.left_since M.is_clean media.old media.new }
    ensures cause { ReportsMedium (M.faults media.old) (M.faults media.new) result }
{
    let payload = fetch(alloc, media, place.at + 18, len)?;
    let bytes = payload.as_slice();
    if batch_digest(place.number, bytes) != digest {
        return Err(LogError::Damaged { offset: place.at });
    }
    let next = Place {
        at: place.at + 18 + len,
        left: place.left - 18 - len,
        number: place.number + 1,
    };
    match decode(alloc, bytes, place.at) {
        Err(error) => Err(error),
        Ok(records) => Ok(ReadBatch { records, next }),
    }
}

/// The batch at a place, or `None` at a closed gate.
fn read_batch<M: Media>(
    alloc: Global,
    media: &mut M,
    place: Place,
) -> Result<Option<ReadBatch>, LogError>
    ensures closed { IfOk result (λ r. IfNone r (IsTrue (M.is_clean media.new)
        → IsClosedGate (drop place.at (M.seen media.old)))) }
    ensures batch { IfOk result (λ r. IfSome r (λ read. IsTrue (M.is_clean media.new)
        → BeginsWith place.number (items_of read.records.items) (drop place.at (M.seen media.old))
        (drop read.next.at (M.seen media.old)))) }
    ensures place { IfOk result (λ r. IfSome r (λ read. GoesAfter (items_of read.records.items) place read.next)) }
    ensures damaged { IfErr result (λ e. is_damage e ≡ true → IsTrue (M.is_clean media.new)
        → place.at + place.left ≡ length (M.seen media.old)
        → IsDamage place.number (drop place.at (M.seen media.old))) }
    ensures reads { OnlyReads M.seen M.may_leave M.moment M.left_since M.is_clean media.old media.new }
    ensures cause { ReportsMedium (M.faults media.old) (M.faults media.new) result }
{
    match read_head(alloc, media, place) {
        Err(error) => Err(error),
        Ok(None) => Ok(None),
        Ok(Some(head)) => match read_payload(alloc, media, place, head.len, head.digest) {
            Err(error) => Err(error),
            Ok(read) => Ok(Some(read)),
        },
    }
}

/// Reads the batch at a place of a log. `None` at the closed gate after the last batch. `Damaged` where neither is
/// there, which no crash leaves.
pub fn next_batch<M: Media>(
    alloc: Global,
    media: &mut M,
    place: Place,
) -> Result<Option<ReadBatch>, LogError>
    ensures batch { IfOk result (λ r. IfSome r (λ read. IsTrue (M.is_clean media.new) → IsAt (M.seen media.old) place
        → ReadsOn (M.seen media.old) (items_of read.records.items) place read.next)) }
    ensures last { IfOk result (λ r. IfNone r (IsTrue (M.is_clean media.new) → IsAt (M.seen media.old) place
        → HoldsBatches (batches_before place.at (M.seen media.old)) (M.seen media.old))) }
    ensures damaged { IfErr result (λ e. is_damage e ≡ true → IsTrue (M.is_clean media.new)
        → IsAt (M.seen media.old) place → (batches : List Batch) → HoldsBatches batches (M.seen media.old) → ⊥) }
    ensures progress { IfOk result (λ r. IfSome r (λ read. place.at < read.next.at)) }
    ensures reads { OnlyReads M.seen M.may_leave M.moment M.left_since M.is_clean media.old media.new }
    ensures cause { ReportsMedium (M.faults media.old) (M.faults media.new) result }
{
    read_batch(alloc, media, place)
}

/// The place after the magic. `NotALog` and `OtherVersion` where the medium begins otherwise.
fn first_place<M: Media>(alloc: Global, media: &mut M) -> Result<Place, LogError>
    ensures first { IfOk result (λ place. (place.at ≡ 8) × (place.number ≡ 0)) }
    ensures place { IfOk result (λ place. IsTrue (M.is_clean media.new)
        → (take 8 (M.seen media.old) ≡ magic) × (8 + place.left ≡ length (M.seen media.old))) }
    ensures reads { OnlyReads M.seen M.may_leave M.moment M.left_since M.is_clean media.old media.new }
    ensures cause { ReportsMedium (M.faults media.old) (M.faults media.new) result }
{
    let len = match media.len() {
        Err(error) => return Err(LogError::Refused(error)),
        Ok(len) => len,
    };
    if len < 8 {
        return Err(LogError::NotALog);
    }
    let bytes = fetch(alloc, media, 0, 8)?;
    if bytes.as_slice() != MAGIC.as_slice() {
        return Err(not_this_log(&bytes));
    }
    Ok(Place {
        at: 8,
        left: len - 8,
        number: 0,
    })
}

/// Why a medium that begins with these bytes is refused.
fn not_this_log(bytes: &[u8]) -> LogError
    ensures { is_of_medium result ≡ false }
{
    if bytes.starts_with(&MAGIC[..7]) {
        LogError::OtherVersion
    } else {
        LogError::NotALog
    }
}

/// The place of a log's head, its first batch. `NotALog` and `OtherVersion` where the medium begins otherwise.
pub fn open<M: Media>(alloc: Global, media: &mut M) -> Result<Place, LogError>
    ensures place { IfOk result (λ place. IsTrue (M.is_clean media.new) → IsAt (M.seen media.old) place) }
    ensures none { IfOk result (λ place. IsTrue (M.is_clean media.new)
        → batches_before place.at (M.seen media.old) ≡ []) }
    ensures reads { OnlyReads M.seen M.may_leave M.moment M.left_since M.is_clean media.old media.new }
    ensures cause { ReportsMedium (M.faults media.old) (M.faults media.new) result }
{
    first_place(alloc, media)
}
