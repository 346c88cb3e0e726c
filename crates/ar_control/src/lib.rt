//! Operators at a served array: four may converse, and their orders are executed under the array's lock, as a host's
//! command is.
#![tactic(auto)]

mod control;
mod operators;

pub use control::LockController;
pub use operators::{OperatorHandler, OperatorRoom, PendingStops};
