// What a device server knows of the array and of its host.

/// What a device server reports of the array and of the host that it serves.
#[derive(Clone, Copy, Debug, PartialEq, Eq)]
pub struct Attributes {
    /// Distinguishes the arrays that one initiator may reach, in the names of their units.
    pub array: u32,
    /// The host of the latest login.
    pub host: u8,
    /// Whether a WRITE may be GOOD before its blocks are on the disks: the array has a cache.
    pub write_back: bool,
    /// The sectors of a relocation block.
    pub block_sectors: u16,
}
