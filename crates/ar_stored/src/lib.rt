//! What the program does with a store beside serving it: a store is created, checked and taken up, and its log is
//! replaced.
#![tactic(auto)]

mod checking;
mod creating;
mod executing;
mod fault;
mod setup;
mod source;
mod taking_up;

pub use checking::check;
pub use creating::create;
pub use executing::{ReadStore, Restarted, read_store, restart_store};
pub use fault::{StoreCause, StoreFault};
pub use setup::{folders_of, setup_in};
pub use taking_up::{StoreFile, TakenUp, compact, take_up};
