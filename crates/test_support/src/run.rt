// A drawn run, with what plain lists answer.
use crate::answer::Answer;
use crate::draw::{Ask, draw, draw_discard};
use crate::kinds::{Kind, Tally};
use crate::lists::PlainArray;
use rand::rngs::SmallRng;
use rand::{RngExt, SeedableRng};
use std::alloc::{AllocError, Global};

/// What an array is asked in a run, one after another, with what it has to answer.
#[derive(Drop)]
pub struct Run {
    alloc: Global,
    rng: SmallRng,
    pub lists: PlainArray,
    /// The number of outcomes of each kind, but for flushes of a unit. A caller of maintenance counts what it did.
    pub tally: Tally,
    /// Whether one event in sixteen is a discard. None is at first: with more, crowded arrays are never crowded enough
    /// for groups with parity.
    pub has_discards: bool,
}

impl Run {
    /// A run by this seed, on an array with room for this many blocks of two sectors.
    pub fn new(alloc: Global, seed: u64, blocks: u32) -> Run {
        Run {
            alloc,
            rng: SmallRng::seed_from_u64(seed),
            lists: PlainArray::new(alloc, blocks),
            tally: Tally::new(),
            has_discards: false,
        }
    }

    /// What comes next, and its answer. Where a host is given, each command is its own.
    pub fn next(&mut self, host: Option<u8>) -> Result<(Ask, Answer), AllocError> {
        let ask = self.draw(host)?;
        let answer = self.lists.step(&ask)?;
        if !matches!(ask, Ask::FlushUnit(_) | Ask::Work(_)) {
            self.tally.add(Kind::of(&ask, &answer));
        }
        Ok((ask, answer))
    }

    fn draw(&mut self, host: Option<u8>) -> Result<Ask, AllocError> {
        if self.has_discards && self.rng.random_ratio(1, 16) {
            return Ok(draw_discard(&mut self.rng, host));
        }
        draw(self.alloc, &mut self.rng, host)
    }
}
