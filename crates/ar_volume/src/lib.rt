//! The contents of units: READ and WRITE move sectors over a write-back cache in front of the store. What a host reads
//! doesn't depend on which blocks are cached, and no maintenance event changes it until the array fails.
//!
//!     image         the unit's sectors, cut to its length, and its pending UNIT ATTENTION
//!       seen_at     Blocks: the cached block, else the store's
//!         stands    Behind: the store's block
#![tactic(auto)]

mod balance;
mod behind;
mod blocks;
mod disk_in;
mod disk_out;
mod flush;
mod moves;
mod new_disk;
mod rebuild;
mod refusal;
mod transfer;
mod unmap;

pub use ar_book::{Refusal as UnitRefusal, Slot};
pub use ar_cache::{Backing, CAPACITY_LIMIT, Flush};
pub use ar_extents::{DiskRefusal, Health, StartFault};
pub use blocks::{Blocks, Counters};
pub use flush::PartFlush;
pub use new_disk::NewDisk;
pub use refusal::Refusal;
pub use transfer::{read_sectors, write_sectors};
