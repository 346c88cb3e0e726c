// Refused connections in the log. Whoever can fill a door could fill the log, too: so a door has one line a second.
use log::{Log, warn};
use std::sync::atomic::{AtomicU64, Ordering};
use std::time::{Clock, Instant};

/// The refusals at a door.
#[derive(Drop)]
pub struct Refusals {
    // When the door was opened, if the clock could be read.
    began: Option<Instant>,
    // The second since then in which the last line was written, counted from 1; 0 if none was.
    last: AtomicU64,
}

impl Refusals {
    /// None, at a door that is opened now.
    pub fn new<R: Clock>(rt: &R) -> Refusals {
        Refusals {
            began: Instant::now(rt).ok(),
            last: AtomicU64::new(0),
        }
    }

    /// Logs who was refused, and why, unless another was in this second.
    pub fn warn<R: Clock + Log>(&self, rt: &R, who: &str, why: &str) {
        if self.is_due(rt) {
            warn!(rt; "{who} was refused: {why}");
        }
    }

    // Whether no line was written in this second. (If the clock can't be read, there is one line in all.)
    fn is_due<R: Clock>(&self, rt: &R) -> bool {
        let second = self.seconds(rt).saturating_add(1);
        self.last.swap(second, Ordering::SeqCst) != second
    }

    // Whole seconds since the door was opened.
    fn seconds<R: Clock>(&self, rt: &R) -> u64 {
        match self.began {
            Some(began) => seconds_since(rt, began),
            None => 0,
        }
    }
}

// Whole seconds since, or 0 where the clock can't be read.
fn seconds_since<R: Clock>(rt: &R, since: Instant) -> u64 {
    match since.elapsed(rt) {
        Ok(elapsed) => elapsed.as_secs(),
        Err(_) => 0,
    }
}
