// Reading a log of numbered records.
use crate::failure::Failure;
use crate::records::is_batch_of;
use ar_log::{next_batch, open};
use ar_media::{Media, RegularFile};
use std::alloc::Global;

/// Reads the log to its end, and returns how many records it has after its head. Each has the bytes that were written.
pub fn count_records<M: Media>(alloc: Global, media: &mut M) -> Result<u64, Failure> {
    let mut place = open(alloc, media)?;
    for number in 0..u64::MAX {
        match next_batch(alloc, media, place)? {
            None => return Ok(number.saturating_sub(1)),
            Some(read) => {
                place = read.next;
                if number > 0 && !is_batch_of(&read.records, number - 1) {
                    return Err(Failure::Wrong(number - 1));
                }
            }
        }
    }
    Ok(0)
}

/// Reads the log to its end, each batch against its digest, and returns how many it has after its head.
pub fn read_through<M: Media>(alloc: Global, media: &mut M) -> Result<u64, Failure> {
    let mut place = open(alloc, media)?;
    for number in 0..u64::MAX {
        match next_batch(alloc, media, place)? {
            None => return Ok(number.saturating_sub(1)),
            Some(read) => place = read.next,
        }
    }
    Ok(0)
}

/// Prints how many records the log at `path` has.
pub fn print_count(rt: &HostRuntime, path: &str) -> Result<(), Failure> {
    let mut file = RegularFile::open(rt, path)?;
    let count = count_records(rt.alloc(), &mut file)?;
    println!(rt; "{count}")?;
    Ok(())
}
