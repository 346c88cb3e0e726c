// Finds the lowest group of the lowest fill in a range, without a walk over all groups: the groups of each fill are
// counted, in all and for each chunk of 64 neighbouring groups.
//
//     totals           fill 65: 9, 66: 0, 67: 4, ..       how many groups have it
//     chunks[0]        fill 65: 0, 66: 0, 67: 1, ..       of groups 0 to 63
//              fills   [ 0 | 70 | 67 | .. ]               that of each
//
// A fill is the number of a group's blocks, from 0 if it is free, 64 if it is mirrored and 128 if it has parity. Places
// past the last group have a fill of 0.
ghost use Rattle.std.specs.Prelude.{◌≡◌, ◌≢◌, ℕ, ◌+◌, ◌-◌, ◌*◌, ◌/◌, ◌%◌, ◌<◌, ◌≤◌, length, replicate, slice_index_or};
ghost use Rattle.std.specs.Prelude.{slice_set, sum_by, IfSome, IfNone, OnOk, OnErr, [], ◌∷◌, ◌++◌};
ghost use Rattle.ar_book.specs.Fills.{ChunkState, chunk_in, fill_at, count_in, IsLowestIn};

use ar_index::Steps;
use std::alloc::{AllocError, Global};
use std::marker::Model;

// Groups of a chunk.
const CHUNK: usize = 64;

// 64 neighbouring groups: the fill of each, and how many have each fill.
#[derive(Drop)]
pub struct Chunk {
    fills: [u8; 64],
    counts: [u8; 192],
}

impl Model for Chunk {
    ghost use Rattle.ar_book.specs.Fills.{ChunkState, IsTallied};

    ghost Value = { ChunkState };

    ghost view = { λ x. record { fills = x.fills } };

    ghost invariant = { λ x. IsTallied x.fills x.counts };
}

impl Chunk {
    // 64 places without a group.
    fn new() -> Chunk
        ensures { result.fills ≡ replicate 64 0 }
    {
        let mut counts = [0; 192];
        counts[0] = 64;
        Chunk {
            fills: [0; 64],
            counts,
        }
    }

    // Sets the fill of a place and returns the former one.
    fn set(&mut self, place: usize, fill: u8) -> u8
        requires place { place < 64 }
        requires fill { fill < 192 }
        ensures former { result ≡ slice_index_or self.old.fills place 0 }
        ensures range { result < 192 }
        ensures some { 0 < count_in result self.old }
        ensures set { self.new.fills ≡ slice_set self.old.fills place fill }
        ensures len { length self.old.fills ≡ 64 }
    {
        let former = self.fills[place];
        self.counts[former as usize] -= 1;
        self.fills[place] = fill;
        self.counts[fill as usize] += 1;
        former
    }

    // The lowest place with a fill. Counts one step if no place has it.
    fn first(&self, fill: u8, steps: &mut Steps) -> Option<u32>
        requires { fill < 192 }
        ensures found { IfSome result (λ i. (i < 64) × (slice_index_or self.now.fills i 0 ≡ fill)) }
        ensures least { IfSome result (λ i. (j : ℕ) → j < i → slice_index_or self.now.fills j 0 ≢ fill) }
        ensures none { IfNone result ((j : ℕ) → j < 64 → slice_index_or self.now.fills j 0 ≢ fill) }
        ensures missed { IfNone result (steps.new.count ≡ steps.old.count + 1) }
        ensures few { steps.new.count ≤ steps.old.count + 65 }
        ensures on { steps.old.count ≤ steps.new.count }
    {
        steps.tick();
        if self.counts[fill as usize] == 0 {
            return None;
        }
        for place in 0..CHUNK {
            steps.tick();
            if self.fills[place] == fill {
                return Some(place as u32);
            }
        }
        unreachable!()
    }
}

/// The fills of all groups.
#[derive(Drop)]
pub struct Fills {
    totals: [u32; 192],
    chunks: Vec<Chunk>,
}

impl Model for Fills {
    ghost use Rattle.ar_book.specs.Fills.{FillsState, AreTallied};

    ghost Value = { FillsState };

    ghost view = { λ x. record { chunks = x.chunks.items } };

    ghost invariant = { λ x. AreTallied x.chunks.items x.totals };
}

impl Fills {
    /// Without a place for a group.
    pub(crate) fn new(alloc: Global) -> Fills
        ensures { result.chunks ≡ [] }
    {
        Fills {
            totals: [0; 192],
            chunks: Vec::new(alloc),
        }
    }

    /// The number of chunks.
    pub(crate) fn chunks(&self) -> usize
        ensures { result ≡ length self.now.chunks }
    {
        self.chunks.len()
    }

    /// Adds a chunk of 64 places without a group. On `AllocError` nothing changes.
    pub(crate) fn add_chunk(&mut self) -> Result<(), AllocError>
        requires { length self.old.chunks < 1048576 }
        ensures added { OnOk result (self.new.chunks ≡ self.old.chunks ++ record { fills = replicate 64 0 } ∷ []) }
        ensures unchanged { OnErr result (self.new ≡ self.old) }
    {
        self.chunks.push(Chunk::new())?;
        self.totals[0] += 64;
        Ok(())
    }

    /// Sets the fill of a group.
    pub(crate) fn set(&mut self, number: u32, fill: u8)
        requires there { number < 64 * length self.old.chunks }
        requires fill { fill < 192 }
        ensures here { fill_at self.new.chunks number ≡ fill }
        ensures others { (g : ℕ) → g ≢ number → fill_at self.new.chunks g ≡ fill_at self.old.chunks g }
        ensures size { length self.new.chunks ≡ length self.old.chunks }
    {
        let number = number as usize;
        let chunk = &mut self.chunks[number / CHUNK];
        let former = chunk.set(number % CHUNK, fill);
        self.totals[former as usize] -= 1;
        self.totals[fill as usize] += 1;
    }

    /// The group with the lowest fill from `from` on and below `to`, the lowest group on ties. Counts a step for each
    /// fill and for each chunk up to it, and for each group of its chunk.
    pub(crate) fn lowest(&self, from: u8, to: u8, steps: &mut Steps) -> Option<u32>
        requires from { (0 < from) × (from ≤ to) }
        requires to { to ≤ 192 }
        ensures found { IfSome result (IsLowestIn (fill_at self.now.chunks) from to) }
        ensures none { IfNone result ((g : ℕ) → from ≤ fill_at self.now.chunks g
            → fill_at self.now.chunks g < to → ⊥) }
        ensures few { IfSome result (λ g. steps.new.count ≤ steps.old.count + ((to - from) + g / 64 + 65)) }
        ensures missed { IfNone result (steps.new.count ≤ steps.old.count + (to - from)) }
        ensures on { steps.old.count ≤ steps.new.count }
    {
        for fill in from..to {
            steps.tick();
            if self.totals[fill as usize] != 0 {
                return Some(self.first(fill, steps));
            }
        }
        None
    }

    // The lowest group of a fill that some group has.
    fn first(&self, fill: u8, steps: &mut Steps) -> u32
        requires some { 0 < fill }
        requires range { fill < 192 }
        requires there { 0 < sum_by (count_in fill) self.now.chunks }
        ensures found { fill_at self.now.chunks result ≡ fill }
        ensures least { (g : ℕ) → g < result → fill_at self.now.chunks g ≢ fill }
        ensures few { steps.new.count ≤ steps.old.count + (result / 64 + 65) }
        ensures on { steps.old.count ≤ steps.new.count }
    {
        for number in 0..self.chunks() {
            if let Some(place) = self.chunks[number].first(fill, steps) {
                return (CHUNK * number) as u32 + place;
            }
        }
        unreachable!()
    }
}
