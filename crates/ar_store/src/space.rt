// The state that the data path works on: the disk set, the tables of groups and units, and scratch blocks.

use ar_book::Book;
use ar_disks::{Disk, Scratch};
use ar_extents::DiskSet;

/// The disks of an array and the tables of its groups and units. `IsReady` states how they agree: each call requires it
/// and keeps it.
#[derive(Drop)]
pub struct Space<D: Disk> {
    pub disks: DiskSet<D>,
    pub book: Book,
    pub scratch: Scratch,
    /// How many squeezes were completed. It saturates, and no contract sees it.
    pub squeezes: u64,
}
