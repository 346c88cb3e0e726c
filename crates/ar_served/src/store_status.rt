// The store that keeps what is done beyond the end of the program, in numbers for an operator.

/// Whether a store takes what is committed to it.
#[derive(Clone, Copy, Debug, PartialEq, Eq)]
pub enum StoreState {
    /// The last commit has succeeded, or there was none.
    Sound,
    /// The same, with one of two copies lost.
    Degraded,
    /// The last commit has failed, and a later one may succeed.
    Failing,
    /// It is given up until a new start.
    GivenUp,
}

/// A store at one moment. The numbers saturate.
#[derive(Clone, Copy, Debug, PartialEq, Eq)]
pub struct StoreStatus {
    pub state: StoreState,
    /// Bytes of its log.
    pub log_bytes: u64,
    /// Bytes of records that wait for a commit.
    pub waiting_bytes: u64,
    /// Commits that have written records, since the start.
    pub commits: u64,
    /// Checkpoints that have replaced the log, since the start.
    pub checkpoints: u64,
}
