//! The server as the command line asks for it: its units, doors and plan, and what its end says.
#![tactic(auto)]

mod command_line;
mod makes;
mod operators;
mod serve;

pub use command_line::{RandomNumbers, Service, setup_of};
pub use makes::{makes_with, numbers_of};
pub use operators::{OperatorsEntry, remove_file};
pub use serve::{ServeFault, conclude, run_server};
