//! Reading a log over zeros: whole batches after its magic, up to bytes that lack some of a batch, as zeros do.
ghost use Rattle.std.specs.Prelude.{◌≡◌, ◌+◌, ◌≤◌, ◌<◌, ◌^◌, List, ◌++◌, length, take, drop};
ghost use Rattle.std.specs.Prelude.{IfOk, IfErr, IfSome, IfNone, IsTrue, true, false};
ghost use Rattle.ar_log.specs.Codec.{Batch, items_of};
ghost use Rattle.ar_log.specs.Failure.{is_damage, is_of_medium, ReportsMedium};
ghost use Rattle.ar_log.specs.Reading.{OnlyReads};
ghost use Rattle.ar_log.specs.Zeroed.{body_of, counted_body, counted_bytes, Lacks, IsNoBatch, IsReadTo, HoldsZeroed};

use crate::LogError;
use crate::codec::{batch_digest, decode, number_of};
use crate::read::{fetch, number_at};
use crate::zeroed_codec::zeros_in;
use ar_media::Media;
use std::alloc::Global;

/// The first bytes of a log over zeros: its name and its version.
pub const ZEROED_MAGIC: [u8; 8] = [65, 82, 76, 79, 71, 0, 0, 2];

/// A batch that was read.
#[derive(Drop)]
struct Counted {
    records: Vec<Vec<u8>>,
    /// With its head.
    len: usize,
}

/// What a log over zeros holds.
#[derive(Drop)]
pub struct ZeroedBatches {
    /// Its batches.
    pub batches: Vec<Vec<Vec<u8>>>,
    /// The offset after them.
    pub end: usize,
    /// The length of the medium.
    pub ahead: usize,
}

/// The length of the body that begins the bytes, or `None` where they lack some of a batch.
fn body_len(bytes: &[u8], offset: usize) -> Result<Option<usize>, LogError>
    ensures none { IfOk result (λ r. IfNone r (Lacks bytes.now)) }
    ensures some { IfOk result (λ r. IfSome r (λ len. bytes.now
        ≡ counted_body (take len (drop 24 bytes.now)) ++ drop (24 + len) bytes.now)) }
    ensures within { IfOk result (λ r. IfSome r (λ len. 24 + len ≤ length bytes.now)) }
    ensures damaged { IfErr result (λ _. IsNoBatch bytes.now) }
    ensures cause { IfErr result (λ e. is_of_medium e ≡ false) }
{
    if bytes.len() < 24 {
        return Ok(None);
    }
    let len = number_at(bytes, 0);
    let lack = number_at(bytes, 8);
    let count = number_at(bytes, 16);
    if lack < u64::MAX - len {
        return Ok(None);
    }
    if lack > u64::MAX - len {
        return Err(LogError::Damaged { offset });
    }
    if len > (bytes.len() - 24) as u64 {
        return Ok(None);
    }
    let len = len as usize;
    let (body, _) = bytes[24..].split_at(len);
    let zeros = zeros_in(body) as u64;
    if count < zeros {
        return Ok(None);
    }
    if count > zeros {
        return Err(LogError::Damaged { offset });
    }
    Ok(Some(len))
}

/// The records of a body, which is damaged if no batch has it.
fn read_body(alloc: Global, body: &[u8], offset: usize) -> Result<Vec<Vec<u8>>, LogError>
    ensures whole { IfOk result (λ records. body_of (items_of records.items) ≡ body.now) }
    ensures damaged { IfErr result (λ e. is_damage e ≡ true → (batch : Batch) → body_of batch ≡ body.now → ⊥) }
    ensures cause { IfErr result (λ e. is_of_medium e ≡ false) }
{
    let Some((digest, payload)) = body.split_first_chunk::<8>() else {
        return Err(LogError::Damaged { offset });
    };
    let digest = number_of(*digest);
    if digest != batch_digest(0, payload) {
        return Err(LogError::Damaged { offset });
    }
    decode(alloc, payload, offset)
}

/// The batch that begins the bytes, or `None` where they lack some of one.
fn first_counted(alloc: Global, bytes: &[u8], offset: usize) -> Result<Option<Counted>, LogError>
    ensures none { IfOk result (λ r. IfNone r (Lacks bytes.now)) }
    ensures some { IfOk result (λ r. IfSome r (λ one. bytes.now
        ≡ counted_bytes (items_of one.records.items) ++ drop one.len bytes.now)) }
    ensures fits { IfOk result (λ r. IfSome r (λ one. length (body_of (items_of one.records.items)) < 2 ^ 64)) }
    ensures within { IfOk result (λ r. IfSome r (λ one. (24 ≤ one.len) × (one.len ≤ length bytes.now))) }
    ensures damaged { IfErr result (λ e. is_damage e ≡ true → IsNoBatch bytes.now) }
    ensures cause { IfErr result (λ e. is_of_medium e ≡ false) }
{
    let len = match body_len(bytes, offset) {
        Err(error) => return Err(error),
        Ok(None) => return Ok(None),
        Ok(Some(len)) => len,
    };
    let body = &bytes[24..24 + len];
    match read_body(alloc, body, offset) {
        Err(error) => Err(error),
        Ok(records) => Ok(Some(Counted {
            records,
            len: 24 + len,
        })),
    }
}

/// Why bytes that begin otherwise than a log over zeros are refused.
fn not_zeroed(bytes: &[u8]) -> LogError
    ensures medium { is_of_medium result ≡ false }
    ensures damage { is_damage result ≡ false }
{
    if bytes.starts_with(&ZEROED_MAGIC[..7]) {
        LogError::OtherVersion
    } else {
        LogError::NotALog
    }
}

/// All whole batches of a file.
pub fn read_zeroed(alloc: Global, file: &[u8]) -> Result<ZeroedBatches, LogError>
    ensures whole { IfOk result (λ log. IsReadTo file.now log.batches.items log.end) }
    ensures ahead { IfOk result (λ log. log.ahead ≡ length file.now) }
    ensures damaged { IfErr result (λ e. is_damage e ≡ true → (batches : List Batch)
        → HoldsZeroed batches file.now → ⊥) }
    ensures cause { IfErr result (λ e. is_of_medium e ≡ false) }
{
    if !file.starts_with(&ZEROED_MAGIC) {
        return Err(not_zeroed(file));
    }
    let (_, mut rest) = file.split_at(8);
    let mut batches = Vec::new(alloc);
    'reading: loop {
        let end = file.len() - rest.len();
        match first_counted(alloc, rest, end) {
            Err(error) => return Err(error),
            Ok(None) => return Ok(ZeroedBatches {
                batches,
                end,
                ahead: file.len(),
            }),
            Ok(Some(one)) => {
                batches.push(one.records)?;
                let (_, behind) = rest.split_at(one.len);
                rest = behind;
            }
        }
    }
}

/// All bytes of a medium.
fn read_file<M: Media>(alloc: Global, media: &mut M) -> Result<Vec<u8>, LogError>
    ensures bytes { IfOk result (λ bytes. IsTrue (M.is_clean media.new) → bytes.items ≡ M.seen media.old) }
    ensures error { IfErr result (λ e. is_damage e ≡ false) }
    ensures reads { OnlyReads M.seen M.may_leave M.moment M.left_since M.is_clean media.old media.new }
    ensures cause { ReportsMedium (M.faults media.old) (M.faults media.new) result }
{
    let len = match media.len() {
        Err(error) => return Err(LogError::Refused(error)),
        Ok(len) => len,
    };
    let bytes = fetch(alloc, media, 0, len)?;
    Ok(bytes)
}

/// All whole batches of a medium, which is not written.
pub fn read_medium<M: Media>(alloc: Global, media: &mut M) -> Result<ZeroedBatches, LogError>
    ensures whole { IfOk result (λ log. IsTrue (M.is_clean media.new)
        → IsReadTo (M.seen media.old) log.batches.items log.end) }
    ensures ahead { IfOk result (λ log. IsTrue (M.is_clean media.new) → log.ahead ≡ length (M.seen media.old)) }
    ensures within { IfOk result (λ log. log.end ≤ log.ahead) }
    ensures damaged { IfErr result (λ e. is_damage e ≡ true → IsTrue (M.is_clean media.new)
        → (batches : List Batch) → HoldsZeroed batches (M.seen media.old) → ⊥) }
    ensures reads { OnlyReads M.seen M.may_leave M.moment M.left_since M.is_clean media.old media.new }
    ensures cause { ReportsMedium (M.faults media.old) (M.faults media.new) result }
{
    match read_file(alloc, media) {
        Err(error) => Err(error),
        Ok(file) => read_zeroed(alloc, &file),
    }
}
