//! What looks after a served array: its events are logged, its spare disks used, its maintenance run, its memory
//! watched.
#![tactic(auto)]

mod monitoring;
mod spares;

pub use monitoring::Monitor;
