//! A served array behind its lock, and what its doors and threads share beside it, each behind a lock of its own.
#![tactic(auto)]

mod operated;
mod spares;

pub use operated::{OperatedArray, Outside};
pub use spares::Spares;
