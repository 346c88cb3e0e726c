//! A log of three batches, its head's among them.
use ar_log::{LogError, WholeLog, create, recover};
use ar_media::MemoryFile;
use std::alloc::{AllocError, Global};

/// The records of the log, batch by batch.
pub const BATCHES: [&[&[u8]]; 3] = [&[b"head"], &[b"one", b""], &[b"twenty"]];

/// The records as a batch.
pub fn batch_of(alloc: Global, records: &[&[u8]]) -> Result<Vec<Vec<u8>>, AllocError> {
    let mut batch = Vec::new(alloc);
    for one in records {
        batch.push(one.to_vec(alloc)?)?;
    }
    Ok(batch)
}

/// The bytes of a file with the log of `BATCHES`, or `None` if a call failed.
pub fn written(alloc: Global) -> Option<Vec<u8>> {
    let file = MemoryFile::new(alloc, Vec::new(alloc)).ok()?;
    let mut log = create(alloc, file, b"head").ok()?;
    let first = batch_of(alloc, BATCHES[1]).ok()?;
    log.append(alloc, &first).ok()?;
    let second = batch_of(alloc, BATCHES[2]).ok()?;
    log.append(alloc, &second).ok()?;
    log.media.bytes().to_vec(alloc).ok()
}

/// What recovery finds in a file with these bytes.
pub fn recovered(alloc: Global, bytes: &[u8]) -> Result<WholeLog, LogError> {
    let mut file = MemoryFile::new(alloc, bytes.to_vec(alloc)?)?;
    recover(alloc, &mut file)
}

/// Whether these are the batches of `BATCHES`.
pub fn are_all(log: &WholeLog) -> bool {
    log.batches.len() == BATCHES.len()
        && log
            .batches
            .iter()
            .zip(BATCHES.iter())
            .all(|(found, wanted)| is_batch(found, wanted))
}

/// Whether a batch has these records.
pub fn is_batch(found: &[Vec<u8>], wanted: &[&[u8]]) -> bool {
    found.len() == wanted.len()
        && found
            .iter()
            .zip(wanted.iter())
            .all(|(one, other)| one.as_slice() == *other)
}
