//! Logs over zeros in which a bit has decayed. Where a byte of a body has become zero, or a number before it has
//! shrunk, the batch is read as torn, and the log ends before it. Anything else is reported with its place.
use crate::zeroed_run::{
    Life, MAGIC, NUMBERS, Plan, batches_in, file_of, len_of, plan_of, run_zeroed,
};
use ar_log::{LogError, recover_zeroed};
use std::alloc::Global;
use std::process::Abort;

const SEEDS: u64 = 20;

#[test]
fn decay_over_zeros_is_reported_or_reads_as_the_end(rt: HostRuntime) {
    for seed in 0..SEEDS {
        decay(&rt, rt.alloc(), seed);
    }
}

fn decay(rt: &impl Abort, alloc: Global, seed: u64) {
    let plan = plan_of(rt, alloc, seed);
    let life = run_zeroed(rt, alloc, &plan, u64::MAX, usize::MAX);
    assert!(rt; life.is_whole(), "{} batches", life.done);
    for at in 0..life.file.bytes().len() {
        for mask in [1, 2, 4, 8, 16, 32, 64, 128] {
            flip(rt, alloc, &plan, &life, at, mask);
        }
    }
}

fn flip(rt: &impl Abort, alloc: Global, plan: &Plan, life: &Life, at: usize, mask: u8) {
    let mut bytes = life.file.bytes().to_vec(alloc).expect(rt, "memory");
    let mut wanted = Ok(0);
    if let Some(byte) = bytes.get_mut(at) {
        let old = *byte;
        *byte ^= mask;
        wanted = read_after(plan, at, old, *byte);
    }
    let found = batches_in(alloc, &bytes);
    let count = found
        .as_ref()
        .map(|batches| batches.len())
        .map_err(|error| *error);
    assert!(rt;
        count == wanted,
        "{mask} at {at}: {found:?}, not {wanted:?}"
    );
    if let Ok(found) = found {
        assert!(rt;
            plan.batches.starts_with(&found),
            "{mask} at {at}: {found:?}"
        );
    }
    recovers(rt, alloc, plan, &bytes, count);
}

// What is read once a byte is another one: how many batches, or an error.
fn read_after(plan: &Plan, at: usize, old: u8, new: u8) -> Result<usize, LogError> {
    if at < MAGIC {
        return Err(if at < MAGIC - 1 {
            LogError::NotALog
        } else {
            LogError::OtherVersion
        });
    }
    let mut begin = MAGIC;
    for (number, batch) in plan.batches.iter().enumerate() {
        let end = begin.saturating_add(len_of(batch));
        if at < end {
            let is_number = at < begin.saturating_add(NUMBERS);
            let is_lost = if is_number { new < old } else { new == 0 };
            return if is_lost {
                Ok(number)
            } else {
                Err(LogError::Damaged { offset: begin })
            };
        }
        begin = end;
    }
    Ok(plan.batches.len())
}

// What is read is recovered, with zeros after it. An error leaves the file as it was.
fn recovers(
    rt: &impl Abort,
    alloc: Global,
    plan: &Plan,
    bytes: &[u8],
    wanted: Result<usize, LogError>,
) {
    let mut file = file_of(rt, alloc, bytes);
    let found = recover_zeroed(alloc, &mut file).map(|log| log.batches.len());
    assert!(rt; found == wanted, "{found:?}, not {wanted:?}, in {bytes:?}");
    let end = match wanted {
        Ok(count) => end_of(plan, count),
        Err(_) => bytes.len(),
    };
    let (front, rest) = file.bytes().split_at(end.min(file.bytes().len()));
    let is_so = bytes.starts_with(front) && rest.iter().all(|byte| *byte == 0);
    assert!(rt;
        is_so && file.bytes().len() == bytes.len(),
        "{:?} of {bytes:?}",
        file.bytes()
    );
}

// The end of the first batches.
fn end_of(plan: &Plan, count: usize) -> usize {
    let mut end = MAGIC;
    for batch in &plan.batches[..count.min(plan.batches.len())] {
        end = end.saturating_add(len_of(batch));
    }
    end
}
