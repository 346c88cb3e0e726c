// When the array is asked, and when the bare echo.
use crate::failure::Failure;
use std::time::{Clock, Instant};

/// For how many nanoseconds the array, or the echo, is asked before it is the other's turn.
const SLICE: u64 = 100_000_000;

/// How many such slices are a second.
const SLICES: u32 = 10;

/// The turns of array and echo, which are the same for all hosts. The first of each is not counted.
#[derive(Clone, Copy)]
pub struct Plan {
    begin: Instant,
    rounds: u32,
}

impl Plan {
    /// Turns of `seconds` seconds each, from now on.
    pub fn new<C: Clock>(clock: &C, seconds: u32) -> Result<Plan, Failure> {
        Ok(Plan {
            begin: Instant::now(clock).map_err(|_| Failure::Clock)?,
            rounds: seconds.saturating_mul(SLICES),
        })
    }

    /// The rounds that are counted, of one slice of the array and one of the echo each.
    pub fn rounds(&self) -> u32 {
        self.rounds
    }

    /// Whether the array's slice of a round, or the echo's, is over. Round 0 is the one that is not counted.
    pub fn is_over<C: Clock>(&self, clock: &C, slice: Slice) -> Result<bool, Failure> {
        let gone = self.begin.elapsed(clock).map_err(|_| Failure::Clock)?;
        Ok(gone.as_nanos() >= u128::from(slice.end()))
    }
}

/// A slice of time.
#[derive(Clone, Copy)]
pub struct Slice {
    number: u64,
}

impl Slice {
    /// The array's slice of a round.
    pub fn of_array(round: u32) -> Slice {
        Slice {
            number: u64::from(round) * 2,
        }
    }

    /// The echo's slice of a round.
    pub fn of_echo(round: u32) -> Slice {
        Slice {
            number: u64::from(round) * 2 + 1,
        }
    }

    // When it ends, in nanoseconds from the plan's begin on.
    fn end(self) -> u64 {
        self.number.saturating_add(1).saturating_mul(SLICE)
    }
}
