// Hot spares: disks that are allocated before one fails.
use ar_operator::{SpareDisk, WantedDisk};
use std::alloc::{AllocError, Global};

/// Bytes for the answer to an order that puts a spare disk in.
const ANSWER_LEN: usize = 256;

/// Spare disks, which no array has yet.
#[derive(Drop)]
pub struct Spares {
    pub disks: Vec<SpareDisk>,
    /// Whether there were any at the start.
    pub are_given: bool,
    /// For answers, so that a failure needs no memory.
    pub answer: Vec<u8>,
}

impl Spares {
    /// Allocates `count` spare disks of this shape. Fails only when out of memory.
    pub fn new(alloc: Global, wanted: WantedDisk, count: u8) -> Result<Spares, AllocError> {
        let mut disks = Vec::with_capacity(alloc, usize::from(count))?;
        for _ in 0..count {
            disks.push(SpareDisk::make(alloc, wanted)?)?;
        }
        Ok(Spares {
            disks,
            are_given: count > 0,
            answer: Vec::with_capacity(alloc, ANSWER_LEN)?,
        })
    }

    /// No spare disk.
    pub fn none(alloc: Global) -> Spares {
        Spares {
            disks: Vec::new(alloc),
            are_given: false,
            answer: Vec::new(alloc),
        }
    }

    /// How many are left, 0 to 4.
    pub fn left(&self) -> u8 {
        self.disks.len().min(255) as u8
    }
}
