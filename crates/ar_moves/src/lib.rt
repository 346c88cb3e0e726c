//! Background moves of blocks between slots: demotion to the parity level, and cleaning, which frees groups. Unless
//! the array fails, a move leaves the contents of every block as they were.
#![tactic(auto)]

mod clean;
mod demote;
mod laws;
mod step;

pub use clean::clean_one;
pub use demote::demote_one;
pub use laws::{cleaning_ends, move_accesses, rules_name_one_move};
pub use step::Move;
