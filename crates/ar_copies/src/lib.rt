//! A file in two copies, which is a file itself.
#![tactic(auto)]

mod choice;
mod copied;
mod copies;
mod joining;
mod losses;
mod past;

pub use choice::Keep;
pub use copied::CopiedFile;
pub use copies::{Copies, OtherCopy};
pub use joining::CopiedMedia;
pub use losses::{Losses, Which};
