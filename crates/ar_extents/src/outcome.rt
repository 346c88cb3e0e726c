// The outcome of a row's rebuild, the same for mirrored and parity groups.

/// The outcome of the rebuild of a row.
#[derive(Clone, Copy, Debug, PartialEq, Eq)]
pub enum RowOutcome {
    /// The row is stored on the new disk.
    Done,
    /// The new disk faulted, and has failed (`Out`).
    GivenUp,
    /// The set has failed (two disks missing at once) in this very call.
    Broken,
}
