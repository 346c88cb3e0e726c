//! The space book: tables that map each block of a unit to a slot of a group, and back. Homes and slots are inverse to
//! each other, no extent is in two groups, and the units' blocks fit all groups but one as parity groups.
#![tactic(auto)]

mod book;
mod class;
mod cleaning;
mod directory;
mod fills;
mod group;
mod group_list;
mod groups;
mod index;
mod moving;
mod oldest;
mod places;
mod refusal;
mod search;
mod summary;
mod tables;
mod unit;
mod unit_map;
mod units;

pub use book::Book;
pub use class::{Class, Level, Slot};
pub use directory::Units;
pub use fills::{Chunk, Fills};
pub use group::Group;
pub use group_list::Groups;
pub use refusal::Refusal;
pub use summary::Summary;
pub use unit::UnitTable;
