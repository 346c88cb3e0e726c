//! What the command lines of all programs share: the words that a program was started with, the faults of a command
//! line, the exit status, and the version.
#![tactic(auto)]

mod exit;
mod fault;
mod version;
mod words;

pub use exit::{ExitStatus, end_with, fail};
pub use fault::CommandLineFault;
pub use version::VERSION;
pub use words::words_of;
