//! An array from records: each is executed again, so that each unit is what its own entries among the records make it.
#![tactic(auto)]

ghost use Rattle.ar_recovery.specs.Logging.{LogSuffices};

mod from_records;
mod recovery;
mod restarts;

pub use from_records::{RecoveryFault, recover};
pub use recovery::{Recovery, is_recorded};
pub use restarts::{DiskSource, replay, restart};

/// Law: the records of a legal history make each unit what the history makes it, though the history has more entries.
pub fn records_suffice()
    ensures { LogSuffices }
{}
