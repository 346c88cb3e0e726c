//! The store maps each relocation block (RB) of a unit to a slot of an extent group (a PEG, as Wilkes et al. call it),
//! and keeps its data through the loss of one disk. One group stays free until the array fails (two disks missing at
//! once), so no put is ever refused for lack of space.
//!
//!     key (unit, block) --home--> slot (group, index) --> rows of the group's four extents, on four disks
//!     group:  free  |  mirrored, 2 slots a row  |  parity (RAID 5), 3 slots a row
#![tactic(auto)]

mod disks;
mod form;
mod laws;
mod moves;
mod open;
mod parts;
mod slots;
mod space;
mod squeeze;
mod start;
mod store;
mod stripes;
mod units;
mod way;

pub use form::{FourDisks, four_fullest};
pub use laws::{
    degraded_accesses, put_accesses, searches_find_the_first, squeeze_accesses, store_accesses,
};
pub use open::Opening;
pub use space::Space;
pub use start::take_members;
pub use store::Store;
