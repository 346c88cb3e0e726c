// What an administrator, and background work, do to an array; hosts send only commands.
use ar_core::NewDisk;
use ar_disks::Addr;

/// An administrator's operation on an array of disks of type `D`.
pub type Operation<D> = OperationOf<NewDisk<D>>;

/// An administrator's operation on an array; `N` is the type that represents a disk passed in.
#[derive(Debug, Drop)]
pub enum OperationOf<N> {
    /// Creates a unit with a length in sectors, 1 to 1,048,576, all zero.
    Make(Addr, u32),
    /// Extends a unit to a new length in sectors, at most 1,048,576.
    Grow(Addr, u32),
    /// Deletes a unit.
    Remove(Addr),
    /// Adds a disk.
    AddDisk(N),
    /// Takes a disk `out`, by its number: it counts as failed.
    DiskOut(u8),
    /// Replaces the failed disk of this number.
    Replace(u8, N),
}

/// One piece of background work.
#[derive(Clone, Copy, Debug, PartialEq, Eq)]
pub enum Task {
    /// Destages the least recently used block of the cache.
    Flush,
    /// Rebuilds one extent of the replaced disk.
    Rebuild,
    /// Moves one block out of a group that can be emptied.
    Clean,
    /// Forms a group of unassigned extents, or moves a group's member.
    Balance,
    /// Moves the least recently written mirrored block to a parity group.
    Demote,
}
