// Whether hosts share commits: while several write, a commit is put off for a moment in which the others' WRITEs come,
// which wait for the array while one is made.
use ar_disks::Host;
use std::time::{Clock, Instant};

/// The part of what the last commit took by which the next is put off, between these microseconds.
const PART: u64 = 8;

const LEAST: u64 = 50;

const MOST: u64 = 1_000;

/// Who has written last, and what commits take.
#[derive(Clone, Copy)]
pub(crate) struct Sharing {
    pause: u64,
    writer: Option<Host>,
    // Whether another host has written before it.
    is_shared: bool,
}

impl Sharing {
    // Nobody has written yet.
    pub fn new() -> Sharing {
        Sharing {
            pause: LEAST,
            writer: None,
            is_shared: false,
        }
    }

    // For how many microseconds a commit is put off.
    pub fn pause(&self) -> u64 {
        if self.is_shared { self.pause } else { 0 }
    }

    // Notes a command of a host, if it has written.
    pub fn note(&mut self, has_written: bool, host: Host) {
        if has_written {
            self.is_shared = self.writer.replace(host) != Some(host);
        }
    }

    // Notes a commit that began then, if it had records.
    pub fn note_commit<R: Clock>(&mut self, rt: &R, had_records: bool, began: Option<Instant>) {
        if had_records {
            self.pause = (micros_since(rt, began) / PART).clamp(LEAST, MOST);
        }
    }
}

// The microseconds since then; 0, if the clock can't be read.
fn micros_since<R: Clock>(rt: &R, began: Option<Instant>) -> u64 {
    let Some(since) = began else {
        return 0;
    };
    match since.elapsed(rt) {
        Ok(elapsed) => u64::try_from(elapsed.as_micros()).unwrap_or(u64::MAX),
        Err(_) => 0,
    }
}
