//! Background balancing of space: groups are formed of unassigned extents (`loose` in the API), and a group's extent
//! moves to a disk with more of them. A group in use gets its new extent only once all rows are copied.
#![tactic(auto)]

mod choose;
mod copy;
mod form;
mod laws;
mod shift;
mod step;

pub use laws::{balancing_ends, idle_is_even, rule_names_one_action, shift_accesses};
pub use step::{Balance, balance_one};
