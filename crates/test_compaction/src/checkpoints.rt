//! Checkpoints of stores of drawn records: their units stay, and a crash leaves the old log or the new one.
use crate::drawn::{Sizes, compare, drawn_batches};
use crate::stores::{
    GENERATION, failing, files_of, read, records_in, replace, restarted, store_of,
};
use ar_journal::JournalFiles;
use ar_media::Fate::{self, Lost, Torn};
use ar_media::MemoryFile;
use std::alloc::Global;
use std::process::Abort;

/// Small units, since a file in memory is copied by each call.
const SMALL: Sizes = Sizes {
    unit: 16,
    lba: 15,
    count: 3,
};

/// No run makes as many calls of a file.
const CALLS: u64 = 400;

/// What becomes of the newest calls of each file.
const FATES: [&[Fate]; 4] = [&[], &[Lost], &[Torn(40)], &[Lost, Lost]];

#[test]
fn a_checkpoint_keeps_the_units(rt: HostRuntime) {
    replace_drawn(&rt, rt.alloc(), 5);
}

fn replace_drawn(rt: &impl Abort, alloc: Global, seed: u64) {
    let batches = drawn_batches(alloc, seed, 80, SMALL).expect(rt, "memory");
    let files = restarted(rt, &store_of(rt, alloc, &batches), &[]);
    match replace(alloc, files) {
        Some(Ok(journal)) => {
            let files = files_of(rt, journal);
            check_new(rt, alloc, seed, &batches, &files);
        }
        _ => panic!(rt; "the log is replaced"),
    }
}

fn check_new(
    rt: &impl Abort,
    alloc: Global,
    seed: u64,
    batches: &[Vec<Vec<u8>>],
    files: &JournalFiles<MemoryFile>,
) {
    let found = read(alloc, restarted(rt, files, &[]));
    let (generation, new) = found.expect(rt, "the successor is read");
    assert!(rt; generation == GENERATION + 1, "generation {generation}");
    assert!(rt; new.len() < batches.len(), "{} batches", new.len());
    let before = records_in(alloc, batches).expect(rt, "records");
    let after = records_in(alloc, &new).expect(rt, "records");
    compare(rt, alloc, seed, &before, &after).expect(rt, "memory");
}

#[test]
fn a_crash_leaves_the_old_log_or_the_new_one(rt: HostRuntime) {
    for seed in 0..2 {
        fail_everywhere(&rt, rt.alloc(), seed);
    }
}

fn fail_everywhere(rt: &impl Abort, alloc: Global, seed: u64) {
    let old = drawn_batches(alloc, seed, 5, SMALL).expect(rt, "memory");
    let files = store_of(rt, alloc, &old);
    let new = batches_after(rt, alloc, &files);
    for place in 0u8..3 {
        fail_in_turn(rt, alloc, &files, place, &old, &new);
    }
}

// The batches of the successor.
fn batches_after(
    rt: &impl Abort,
    alloc: Global,
    files: &JournalFiles<MemoryFile>,
) -> Vec<Vec<Vec<u8>>> {
    match replace(alloc, restarted(rt, files, &[])) {
        Some(Ok(journal)) => {
            let files = files_of(rt, journal);
            let found = read(alloc, restarted(rt, &files, &[]));
            found.expect(rt, "the successor is read").1
        }
        _ => panic!(rt; "the log is replaced"),
    }
}

// Each call of one of the files fails in turn.
fn fail_in_turn(
    rt: &impl Abort,
    alloc: Global,
    files: &JournalFiles<MemoryFile>,
    place: u8,
    old: &[Vec<Vec<u8>>],
    new: &[Vec<Vec<u8>>],
) {
    for calls in 0..CALLS {
        if fail_once(rt, alloc, files, place, calls, old, new) {
            return;
        }
    }
    panic!(rt; "the calls end");
}

// Whether the log is replaced before the call that fails.
fn fail_once(
    rt: &impl Abort,
    alloc: Global,
    files: &JournalFiles<MemoryFile>,
    place: u8,
    calls: u64,
    old: &[Vec<Vec<u8>>],
    new: &[Vec<Vec<u8>>],
) -> bool {
    let mut files = restarted(rt, files, &[]);
    match place {
        0 => files.selector = failing(rt, files.selector, calls),
        1 => files.first = failing(rt, files.first, calls),
        _ => files.second = failing(rt, files.second, calls),
    }
    match replace(alloc, files) {
        None => false,
        Some(Ok(_)) => true,
        Some(Err((_, files))) => {
            crash_anyhow(rt, alloc, &files, old, new);
            false
        }
    }
}

fn crash_anyhow(
    rt: &impl Abort,
    alloc: Global,
    files: &JournalFiles<MemoryFile>,
    old: &[Vec<Vec<u8>>],
    new: &[Vec<Vec<u8>>],
) {
    for fates in FATES {
        let found = read(alloc, restarted(rt, files, fates));
        let (generation, batches) = found.expect(rt, "a log is read");
        let is_old = generation == GENERATION && batches.as_slice() == old;
        let is_new = generation == GENERATION + 1 && batches.as_slice() == new;
        assert!(rt; is_old || is_new, "generation {generation}: {batches:?}");
    }
}
