//! Orders, and their answers in words and pictures: the event of each action, the text of its outcome, and what a query
//! shows of an array. Scripts and operators share them. `ar_language` parses the orders.
#![tactic(auto)]

mod drawing;
mod question;
mod runs;
mod setup;
mod text;

pub use drawing::picture_of;
pub use question::write_answer;
pub use setup::{Setup, new_disk};
pub use text::{write_health, write_outcome, write_row};
