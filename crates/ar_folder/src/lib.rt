//! The folders of a store: its files, each locked while it is open, in one folder or, as two copies, in two.
#![tactic(auto)]

mod copies;
mod folder;

pub use copies::{CopyFault, OpenedStore, StoreFolders, checkpoint_in, open_copies_in};
pub use folder::{FolderError, create_in, has_store, open_in};
