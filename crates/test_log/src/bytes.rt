//! Every byte of a log changed, and every length that it can be cut to.
use crate::rig::{are_all, recovered, written};
use ar_log::LogError;
use std::alloc::{AllocError, Global};
use std::process::Abort;

/// Recovery finds all batches, or reports why not.
fn is_harmless_or_reported(alloc: Global, bytes: &[u8]) -> bool {
    match recovered(alloc, bytes) {
        Ok(log) => {
            let all = are_all(&log);
            drop(log);
            all
        }
        Err(LogError::Damaged { offset }) => offset < bytes.len(),
        Err(error) => matches!(error, LogError::NotALog | LogError::OtherVersion),
    }
}

fn each_flip(rt: &impl Abort, alloc: Global, bytes: &mut [u8]) {
    for i in 0..bytes.len() {
        for flip in [1, 128, 255] {
            bytes[i] ^= flip;
            let fits = is_harmless_or_reported(alloc, bytes);
            assert!(rt; fits, "byte {i} flipped by {flip}");
            bytes[i] ^= flip;
        }
    }
}

fn each_cut(rt: &impl Abort, alloc: Global, bytes: &[u8]) {
    for len in 0..bytes.len() {
        let found = recovered(alloc, &bytes[..len]).is_err();
        assert!(rt; found, "cut to {len}");
    }
}

#[test]
fn what_was_written_is_recovered(rt: HostRuntime) -> Result<(), AllocError> {
    let bytes = written(rt.alloc()).expect(&rt, "written");
    let all = recovered(rt.alloc(), &bytes).is_ok_and(|log| are_all(&log));
    assert!(&rt; all, "other batches");
    Ok(())
}

#[test]
fn flipped_bytes_are_reported(rt: HostRuntime) -> Result<(), AllocError> {
    let mut bytes = written(rt.alloc()).expect(&rt, "written");
    each_flip(&rt, rt.alloc(), &mut bytes);
    Ok(())
}

#[test]
fn cut_files_are_reported(rt: HostRuntime) -> Result<(), AllocError> {
    let bytes = written(rt.alloc()).expect(&rt, "written");
    each_cut(&rt, rt.alloc(), &bytes);
    Ok(())
}
