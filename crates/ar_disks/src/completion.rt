// The outcome of a block access: a missing disk doesn't keep it from being done, a failed array does.

/// The outcome of a block read or write, on the disks or in a layer above them.
#[derive(Clone, Copy, Debug, PartialEq, Eq)]
pub enum Completion {
    /// Completed, possibly degraded, with a disk missing.
    Done,
    /// The array has failed (two disks missing at once), possibly in this very call.
    Broken,
}
