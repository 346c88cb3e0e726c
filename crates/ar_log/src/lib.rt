//! A log of batches of records, over a medium that a crash may tear. A gate of two bytes is before each batch, and is
//! closed on the medium before anything is written after it, so that a batch counts whole or not at all:
//!
//! ```text
//! | magic, 8 | gate, 2 | batch | gate, 2 | batch | .. | closed gate, 2 | anything
//! ```
//!
//! A gate is open unless both of its bytes are zero. The first batch is the log's head.
#![tactic(auto)]

mod codec;
mod error;
mod log;
mod new_log;
mod place;
mod read;
mod recover_log;
mod start;
mod write;
mod zeroed;
mod zeroed_codec;
mod zeroed_read;
mod zeroed_start;

pub use error::LogError;
pub use log::Log;
pub use new_log::write_head;
pub use place::{Place, ReadBatch};
pub use read::{next_batch, open};
pub use recover_log::{WholeLog, recover};
pub use start::{create, cut_torn, resume};
pub use write::write_synced;
pub use zeroed::ZeroedLog;
pub use zeroed_read::{ZeroedBatches, read_medium, read_zeroed};
pub use zeroed_start::{create_zeroed, recover_zeroed, resume_zeroed};
