//! The array with a stored history: each create, resize and delete of a unit, each command with its reply, BUSY apart,
//! and each discard. Each entry fits the unit that the entries before it make (`IsLegal`); the audit compares it with
//! hosts' transcripts.
#![tactic(auto)]

mod audit;
mod discard;
mod host;
mod kept;
mod operate;
mod served_array;

pub use host::Served;
pub use kept::Kept;
