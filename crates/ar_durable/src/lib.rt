//! An array whose units outlast the program. What changes a unit is noted as a record, and records are committed to a
//! journal together: from then on every file that a crash leaves makes each unit what the array's history makes it.
#![tactic(auto)]

mod durable;
mod laws;
mod records;
mod served;
mod sharing;

pub use durable::{CommitPolicy, DurableArray};
pub use laws::committed_entries_last;
