//! Files that fill up at every byte.
use crate::draw::batches_of;
use crate::run::{check, left, read_all, run};
use ar_media::Fate::{self, Lost, Torn};
use std::alloc::Global;
use std::process::Abort;

const SEEDS: u64 = 10;

// No log of these is longer.
const ROOM: usize = 200;

const FATES: [&[Fate]; 4] = [&[], &[Lost], &[Torn(1)], &[Torn(20)]];

#[test]
fn a_full_file_keeps_what_was_acknowledged(rt: HostRuntime) {
    for seed in 0..SEEDS {
        fill(&rt, rt.alloc(), seed);
    }
}

fn fill(rt: &impl Abort, alloc: Global, seed: u64) {
    let batches = batches_of(alloc, seed).expect(rt, "memory");
    for room in 0..ROOM {
        fill_to(rt, alloc, &batches, room);
    }
}

fn fill_to(rt: &impl Abort, alloc: Global, batches: &[Vec<Vec<u8>>], room: usize) {
    let stopped = run(alloc, batches, u64::MAX, room).expect(rt, "memory");
    for fates in FATES {
        let mut file = left(rt, &stopped.file, fates);
        check(rt, &stopped, batches, read_all(alloc, &mut file));
    }
}
