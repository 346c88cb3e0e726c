//! The disk array: each unit is to its host a plain list of sectors that only the unit's own create, resize, delete,
//! I/O commands and discards change, whatever happens to other units and to any one disk. `Array::run` has this as its
//! contract.
#![tactic(auto)]

mod allocation;
mod array;
mod balance;
mod commands;
mod disk_in;
mod disk_out;
mod event;
mod flush;
mod laws;
mod map;
mod moves;
mod rebuild;
mod unmap;
mod views;

pub use allocation::Allocation;
pub use ar_balance::Balance;
pub use ar_book::{Class, Refusal as UnitRefusal, Slot};
pub use ar_cache::{CAPACITY_LIMIT, Flush};
pub use ar_disks::Completion;
pub use ar_extents::{DiskRefusal, Health, StartFault};
pub use ar_moves::Move;
pub use ar_rebuild::Rebuild;
pub use ar_volume::{Counters, NewDisk, PartFlush, Refusal};
pub use array::Array;
pub use event::{Event, EventOf, Outcome, OutcomeOf};
pub use laws::{
    any_disk_may_go, flushes_are_accounted_for, own_entries_decide_replies,
    reads_are_accounted_for, unmaps_of_whole_blocks_are_free, whole_disks_stay_whole,
    write_accesses, writes_are_accounted_for, writes_that_fit_are_done,
};
pub use map::GroupView;
pub use views::{GroupUse, HomeOf, LevelOf, Shown};
