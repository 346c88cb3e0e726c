// Where initiators connect, and what is reported to them.
/// The door of initiators, and what is reported to them of the array.
#[derive(Clone, Copy)]
pub struct IscsiPort {
    /// The TCP port to listen at, on 127.0.0.1.
    pub port: u16,
    /// Distinguishes the array from others in the names of its units. An array without a store has another one at each
    /// start.
    pub array: u32,
    /// Whether a WRITE may be GOOD before its blocks are on the disks: the array has a cache.
    pub write_back: bool,
    /// Sectors of a block.
    pub block_sectors: u16,
}
