//! Mirrored groups (RAID 1) over a disk set: a slot is the same row of two extents on different disks, and each of the
//! two that isn't lost has its block.
#![tactic(auto)]

mod laws;
mod pair;
mod parts;
mod rebuild;
mod slot;

pub use ar_extents::RowOutcome;
pub use laws::{mirrored_accesses, mirrored_slots_survive_a_loss};
pub use parts::{get_part, put_part};
pub use rebuild::rebuild_row;
pub use slot::{get, put};
