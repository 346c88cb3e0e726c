// How long a session's port takes for what it is asked, from the moment at which a session asks until it has the reply:
// so what a host waits for the array's lock, for the disks and for a commit is counted, and what it waits for the
// network isn't.
use ar_latency::TimedOperation;
use std::time::{Clock, Instant};

/// How long something took that a session asked for.
#[derive(Clone, Copy, Debug, PartialEq, Eq)]
pub struct CommandTime {
    pub operation: TimedOperation,
    /// In whole microseconds.
    pub micros: u64,
}

/// A watch that runs, if the clock could be read.
#[derive(Clone, Copy)]
pub(crate) struct Stopwatch {
    began: Option<Instant>,
}

impl Stopwatch {
    /// One that begins now.
    pub fn start<R: Clock>(rt: &R) -> Stopwatch {
        Stopwatch {
            began: Instant::now(rt).ok(),
        }
    }

    /// Returns the time until now, as that of an operation. None: the clock can't be read.
    pub fn stop<R: Clock>(self, rt: &R, operation: TimedOperation) -> Option<CommandTime> {
        let elapsed = self.began?.elapsed(rt).ok()?;
        let micros = u64::try_from(elapsed.as_micros()).unwrap_or(u64::MAX);
        Some(CommandTime { operation, micros })
    }
}
