//! Parity groups (RAID 5) over a disk set: each stripe has three data blocks and their XOR, the parity, in rotating
//! places. So any one of the four can be computed from the others.
#![tactic(auto)]

mod degraded;
mod group;
mod laws;
mod parts;
mod rebuild;
mod slots;
mod steps;
mod stripe;
mod update;
mod zero;

pub use ar_extents::RowOutcome;
pub use group::{get, open_zero, put};
pub use laws::{parity_accesses, redundancy};
pub use parts::{get_part, put_part};
pub use rebuild::rebuild_row;
pub use stripe::put_stripe;
