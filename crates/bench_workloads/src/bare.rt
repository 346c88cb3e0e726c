// The bare loop: the copies and sums of a workload, without an array.
ghost use Rattle.std.specs.Prelude.{◌≡◌, ◌≤◌, ◌<◌, ◌+◌, ◌*◌, length, IfOk};
ghost use Rattle.ar_disks.specs.Geometry.{block_len_of};

use crate::cost::Moves;
use ar_disks::Geometry;
use rand::RngExt;
use rand_core::Rng;
use std::alloc::{AllocError, Global};
use std::marker::Model;

/// How many blocks the data have that are taken in turn.
const DATA_BLOCKS: usize = 16;

/// Plain buffers: as many blocks as the disks have, data to take, and a few blocks to work in.
#[derive(Drop)]
pub struct Bare {
    geometry: Geometry,
    count: usize,
    disks: Vec<u8>,
    source: Vec<u8>,
    block: Vec<u8>,
    spare: Vec<u8>,
    answer: Vec<u8>,
}

impl Model for Bare {
    ghost use Rattle.std.specs.Prelude.{◌≡◌, ◌<◌, ◌≤◌, ◌*◌, length};
    ghost use Rattle.ar_disks.specs.declared.geometry.Geometry.{Geometry};
    ghost use Rattle.ar_disks.specs.Geometry.{block_len_of};

    ghost Value = { Geometry };

    ghost view = { λ b. b.geometry };

    ghost invariant = { λ b. (0 < b.count) × (b.count ≤ 65536)
        × (length b.disks.items ≡ b.count * block_len_of b.geometry)
        × (length b.source.items ≡ 16 * block_len_of b.geometry)
        × (length b.block.items ≡ block_len_of b.geometry)
        × (length b.spare.items ≡ block_len_of b.geometry)
        × (length b.answer.items ≡ block_len_of b.geometry) };
}

impl Bare {
    /// Buffers in place of disks of `count` blocks in all, 1 to 65,536. No byte is zero, so that all memory is there.
    pub fn new(alloc: Global, geometry: Geometry, count: usize) -> Result<Bare, AllocError>
        requires some { 0 < count }
        requires few { count ≤ 65536 }
    {
        Ok(Bare {
            geometry,
            count,
            disks: blocks(alloc, geometry, count, 0xEE)?,
            source: blocks(alloc, geometry, DATA_BLOCKS, 0x11)?,
            block: blocks(alloc, geometry, 1, 0x22)?,
            spare: blocks(alloc, geometry, 1, 0x44)?,
            answer: blocks(alloc, geometry, 1, 0x88)?,
        })
    }

    /// Moves as an array does in `moves.times` operations, at blocks in order or at random.
    pub fn run<R: Rng>(&mut self, moves: Moves, is_random: bool, rng: &mut R) {
        for turn in 0..moves.times {
            let turn = if is_random {
                rng.random_range(0..moves.times)
            } else {
                turn
            };
            self.turn(moves, turn as usize);
        }
    }

    // The moves of one operation. Each read, and each write of a block that wasn't read, is at a block of its own,
    // while the workload has as many.
    fn turn(&mut self, moves: Moves, turn: usize) {
        let span = moves.times as usize;
        for number in 0..moves.fetched {
            let at = turn.wrapping_add(span.wrapping_mul(number as usize));
            self.fetch(at, moves.part);
        }
        for number in 0..moves.reads {
            self.read(
                number,
                turn.wrapping_add(span.wrapping_mul(number as usize)),
            );
        }
        for _ in 0..moves.sums {
            self.add();
        }
        for number in 0..moves.writes {
            let behind = moves.kept.wrapping_add(number) as usize;
            let at = turn.wrapping_add(span.wrapping_mul(behind));
            if number < moves.sent {
                self.send(turn, at, moves.part);
            } else {
                self.write(at);
            }
        }
    }

    // How many bytes a part of a block has, where 0 is all of it.
    fn len_of(&self, part: usize) -> usize
        ensures { result ≤ block_len_of self.now }
    {
        let len = self.geometry.block_len();
        if part == 0 { len } else { part.min(len) }
    }

    // The first bytes of a block are copied into the answer.
    fn fetch(&mut self, at: usize, part: usize) {
        let len = self.len_of(part);
        let from = place(self.geometry, self.count, at);
        overwrite(&mut self.answer, &self.disks[from..from + len]);
    }

    // The first block that is read goes to one place, the others to another.
    fn read(&mut self, number: u32, at: usize) {
        let from = place(self.geometry, self.count, at);
        let bytes = &self.disks[from..from + self.geometry.block_len()];
        if number == 0 {
            self.block.copy_from_slice(bytes);
        } else {
            self.spare.copy_from_slice(bytes);
        }
    }

    fn add(&mut self) {
        add_into(&self.spare, &mut self.block);
    }

    fn write(&mut self, at: usize) {
        let to = place(self.geometry, self.count, at);
        self.disks[to..to + self.geometry.block_len()].copy_from_slice(&self.block);
    }

    // The first bytes of the data that come are copied to a place.
    fn send(&mut self, turn: usize, at: usize, part: usize) {
        let len = self.len_of(part);
        let from = place(self.geometry, DATA_BLOCKS, turn);
        let to = place(self.geometry, self.count, at);
        self.disks[to..to + len].copy_from_slice(&self.source[from..from + len]);
    }

    /// The bytes that stand in place of the disks.
    pub fn disks(&self) -> &[u8] {
        &self.disks
    }

    /// The bytes of the last answer, in a block of their own.
    pub fn answer(&self) -> &[u8] {
        &self.answer
    }

    /// Copies half of the blocks over the other half, and says how many.
    pub fn copy_all(&mut self) -> usize {
        let half = self.count / 2;
        let len = self.geometry.block_len();
        for number in 0..half {
            let from = place(self.geometry, self.count, number);
            let to = place(self.geometry, self.count, number + half);
            self.disks.copy_within(from..from + len, to);
        }
        half
    }

    /// Adds every block to one, and says how many.
    pub fn add_all(&mut self) -> usize {
        for number in 0..self.count {
            let from = place(self.geometry, self.count, number);
            let bytes = &self.disks[from..from + self.geometry.block_len()];
            add_into(bytes, &mut self.block);
        }
        self.count
    }
}

// Copies bytes over the first ones of others.
fn overwrite(target: &mut Vec<u8>, bytes: &[u8])
    requires { length bytes.now ≤ length target.old.items }
    ensures { length target.new.items ≡ length target.old.items }
{
    target[..bytes.len()].copy_from_slice(bytes);
}

// Adds bytes to the first ones of others.
fn add_into(bytes: &[u8], target: &mut [u8])
    requires { length bytes.now ≤ length target.old }
    ensures { length target.new ≡ length target.old }
{
    for i in 0..bytes.len() {
        target[i] ^= bytes[i];
    }
}

// Blocks of one byte.
fn blocks(alloc: Global, geometry: Geometry, count: usize, byte: u8) -> Result<Vec<u8>, AllocError>
    requires { count ≤ 65536 }
    ensures { IfOk result (λ bytes. length bytes.items ≡ count * block_len_of geometry) }
{
    vec![in alloc; byte; count * geometry.block_len()]
}

// Where a block begins; past the last one it goes on with the first.
#[tactic(auto, using(crate::proofs::Places::block_fits))]
fn place(geometry: Geometry, count: usize, number: usize) -> usize
    requires some { 0 < count }
    requires few { count ≤ 65536 }
    ensures { result + block_len_of geometry ≤ count * block_len_of geometry }
{
    (number % count) * geometry.block_len()
}
