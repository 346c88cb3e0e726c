//! The disk set: 4 to 12 disks of one shape, their health, and which extents are in no group. A disk fails only where
//! an access faults or it is taken out, and an extent of a failed disk is never accessed.
#![tactic(auto)]

mod answers;
mod health;
mod laws;
mod log;
mod marks;
mod outcome;
mod refusal;
mod set;
mod shape;

pub use answers::{Got, Put, PutNew};
pub use health::Health;
pub use laws::accesses_are_planned;
pub use log::{AccessKind, RowAccess};
pub use outcome::RowOutcome;
pub use refusal::{DiskRefusal, StartFault};
pub use set::{DiskSet, fault_of};
