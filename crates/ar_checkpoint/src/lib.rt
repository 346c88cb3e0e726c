//! A checkpoint of a store: its log, which only grows, is replaced by one with far fewer records that make the same
//! units. The successor is written on the medium that the journal does not use, so that a crash leaves the old log
//! active until the journal switches by one byte.
#![tactic(auto)]

mod error;
mod gradual;
mod log_replay;
mod opening;
mod reading;
mod replacing;
mod store;
mod successor;

pub use error::CheckpointError;
pub use gradual::{GradualCheckpoint, make_piece};
pub use opening::{RestartError, open_store};
pub use replacing::checkpoint;
pub use store::Store;
