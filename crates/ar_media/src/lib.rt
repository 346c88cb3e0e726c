//! A file that keeps contents: what a read returns now, and what a crash at this moment, or at any moment since an
//! earlier one, may leave. What was synced stays, and between two syncs anything may be left of what was written.
#![tactic(auto)]

mod copying;
mod error;
mod media;
mod memory;
mod open;
mod record;
mod regular;

pub use copying::{are_same, copy_bytes};
pub use error::MediaError;
pub use media::Media;
pub use memory::{Fate, MemoryFile};
pub use record::Call;
pub use regular::{RegularFile, replace_file};
