//! A place in a log.
ghost use Rattle.std.specs.Prelude.{◌≡◌, ◌≤◌, ◌+◌, ◌<◌, ◌^◌};

/// The offset of a gate in a log that is read, and what is after it.
#[derive(Clone, Copy)]
pub struct Place {
    /// The offset of the gate.
    pub at: usize,
    /// How many bytes the medium has from there on.
    pub left: usize,
    /// How many batches are before it, the head's among them.
    pub number: u64,
    ghost fits: { at + left < 2 ^ 64 },
    ghost counts: { number ≤ at },
}

/// A batch that was read.
#[derive(Drop)]
pub struct ReadBatch {
    pub records: Vec<Vec<u8>>,
    /// The place after it.
    pub next: Place,
}
