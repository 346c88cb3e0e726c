// What is recorded of an array: all that a unit's contents, or the room for units, depend on.
use ar_disks::Addr;
use bytes::Bytes;

/// One step that changed a unit of the array, or the room for units.
#[derive(Debug, Drop)]
pub enum Record {
    /// A unit was created with a length in sectors, all zero.
    Make(Addr, u32),
    /// A unit was extended to a new length in sectors.
    Grow(Addr, u32),
    /// A unit was deleted.
    Remove(Addr),
    /// A command was executed that changed its unit: the command descriptor block, padded with zeros to 16 bytes, and
    /// the data-out.
    Command(Addr, [u8; 16], Bytes),
    /// Sectors of a unit were discarded for its host, `count` from an LBA on.
    Unmap(Addr, u64, u32),
    /// A disk of this many extents was added.
    AddDisk(u32),
}
