//! A served array, as operators use it and the pages show it: it executes orders, is looked at, and draws itself. An
//! operator's order is answered once what it has done is committed and listed.
#![tactic(auto)]

mod controlled;
mod orders;

pub use controlled::ControlledArray;
pub use orders::execute_listed;
