//! A journal: two logs, and a selector that names the active one. The parity of the selector's first byte is the name,
//! so that a switch is one write of one byte, and whatever a crash leaves of it names one of the two:
//!
//! ```text
//! selector  | 0 |        even: the first log, odd: the second
//! first     | log |      appended to while it is active
//! second    | log |      the spare, on which a successor is written meanwhile
//! ```
//!
//! A call writes one medium at most, and what the spare holds counts for nothing until the selector names it.
#![tactic(auto)]

mod contents;
mod copied;
mod copying;
mod files;
mod joining;
mod journal;
mod mirror_start;
mod mirrored;
mod new_journal;
mod reader;
mod selector;
mod switch;

pub use contents::first_place;
pub use copied::{CopiedStart, open_copies, single_copy};
pub use files::JournalFiles;
pub use journal::Journal;
pub use mirror_start::{CopyState, MirrorStart, open_mirrored};
pub use mirrored::MirroredJournal;
pub use new_journal::create;
pub use reader::{JournalReader, open};
