//! The log of a program that serves: lines with a time, which one thread writes, so that no other waits for a reader.
#![tactic(auto)]

mod line;
mod queue;
mod sinks;
mod time;

pub use line::{LogLine, MOST_BYTES, TimedLine};
pub use queue::{LineQueue, QueuedLine};
pub use sinks::{LAST_WAIT, LogThread, MOST_LINES, QueuedLog, TimedConsole};
pub use time::UtcTime;
