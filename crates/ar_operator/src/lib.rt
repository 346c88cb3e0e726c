//! What an operator's order does to a served array: it is one event, or one look, at one moment, and is answered by the
//! text that a script has for it. `ar_conversation` reads the orders.
#![tactic(auto)]

mod early;
mod executing;
mod fail;
mod fused;
mod spare;
mod text;

pub use executing::{DiskMaker, execute};
pub use fail::set_fuse;
pub use fused::{FusedMaker, start_fused};
pub use spare::{Prepared, SpareDisk, WantedDisk, wanted_disk};
pub use text::{write_counts, write_help, write_session, write_version};
