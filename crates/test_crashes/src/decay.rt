//! Logs in which a byte has decayed.
use crate::draw::batches_of;
use crate::run::{Stopped, read_all, run};
use ar_log::LogError;
use ar_media::MemoryFile;
use std::alloc::Global;
use std::process::Abort;

const SEEDS: u64 = 20;

#[test]
fn decay_is_reported_or_harmless(rt: HostRuntime) {
    for seed in 0..SEEDS {
        decay(&rt, rt.alloc(), seed);
    }
}

fn decay(rt: &impl Abort, alloc: Global, seed: u64) {
    let batches = batches_of(alloc, seed).expect(rt, "memory");
    let mut stopped = run(alloc, &batches, u64::MAX, usize::MAX).expect(rt, "memory");
    let whole = read_all(alloc, &mut stopped.file);
    for at in 0..stopped.file.bytes().len() {
        for mask in [1, 2, 4, 8, 16, 32, 64, 128] {
            flip(rt, alloc, &stopped, &whole, at, mask);
        }
    }
}

fn flip(
    rt: &impl Abort,
    alloc: Global,
    stopped: &Stopped,
    whole: &Result<Vec<Vec<Vec<u8>>>, LogError>,
    at: usize,
    mask: u8,
) {
    let mut bytes = stopped.file.bytes().to_vec(alloc).expect(rt, "memory");
    if let Some(byte) = bytes.get_mut(at) {
        *byte ^= mask;
    }
    let mut file = MemoryFile::new(alloc, bytes).expect(rt, "memory");
    let found = read_all(alloc, &mut file);
    assert!(rt;
        is_reported(&found) || found == *whole,
        "{mask} at {at}: {found:?}"
    );
}

fn is_reported(found: &Result<Vec<Vec<Vec<u8>>>, LogError>) -> bool {
    match found {
        Ok(_) => false,
        Err(LogError::Damaged { .. } | LogError::NotALog | LogError::OtherVersion) => true,
        Err(_) => false,
    }
}
