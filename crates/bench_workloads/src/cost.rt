// What the scheme has to copy and to add for each workload, which the bare loop does alone.
use crate::workload::Workload;
use ar_disks::{Geometry, SECTOR_LEN};

/// What some operations of a round have to do, all alike.
#[derive(Clone, Copy, Debug, PartialEq, Eq)]
pub struct Moves {
    /// How many operations.
    pub times: u32,
    /// Blocks that are copied from disks into the answer.
    pub fetched: u32,
    /// Blocks that are copied from disks into blocks of their own.
    pub reads: u32,
    /// Of these, how many stay as they are, the first ones: the others are written, too.
    pub kept: u32,
    /// Blocks that are added to others.
    pub sums: u32,
    /// Blocks that are copied to disks, or to the cache.
    pub writes: u32,
    /// Of these, how many are copied from the data that come with a command, the first ones: the others from a block.
    pub sent: u32,
    /// Bytes of each block that is copied into the answer, or from the data that come with a command. 0: all of it.
    pub part: usize,
}

impl Moves {
    /// Nothing.
    pub const NONE: Moves = Moves {
        times: 0,
        fetched: 0,
        reads: 0,
        kept: 0,
        sums: 0,
        writes: 0,
        sent: 0,
        part: 0,
    };
}

/// A round of a workload on an array: what it does to how many blocks.
#[derive(Clone, Copy, Debug, PartialEq, Eq)]
pub struct Round {
    pub workload: Workload,
    pub geometry: Geometry,
    /// Blocks of the unit that the operations are on.
    pub blocks: u32,
    /// How often each of them is touched, on average where that is at random.
    pub passes: u32,
}

impl Round {
    /// How many operations it has. Of the blocks of two half empty groups cleaning moves those of one into the other.
    /// Each of four disks has an extent in each group, one of which is free; a rebuild takes an event for each, and so
    /// does balancing for those of a fifth disk, where they are a multiple of four.
    pub fn operations(self) -> u32 {
        match self.workload {
            Workload::Clean => self.blocks / 2,
            Workload::Balance | Workload::Rebuild => self.filled_groups().saturating_add(1),
            _ => self.blocks.saturating_mul(self.passes),
        }
    }

    /// How many bytes of data come or go with each of its commands, or are moved by each of its events.
    pub fn payload(self) -> usize {
        match self.workload {
            Workload::SmallWrite | Workload::SmallRead => SECTOR_LEN,
            Workload::Balance | Workload::Rebuild => {
                usize::from(self.geometry.rows()) * self.geometry.block_len()
            }
            _ => self.geometry.block_len(),
        }
    }

    // How many groups the blocks fill, where they stand with parity.
    fn filled_groups(self) -> u32 {
        self.blocks / (3 * u32::from(self.geometry.rows())).max(1)
    }

    /// What its operations have to do.
    pub fn moves(self) -> [Moves; 4] {
        let times = self.operations();
        match self.workload {
            Workload::Fill => self.fill(),
            Workload::Overwrite | Workload::ParityWrite => alone(self.written(times, 2)),
            Workload::OverwriteCached => self.cached(),
            Workload::SmallWrite => alone(Moves {
                part: self.payload(),
                ..self.written(times, 2)
            }),
            Workload::Read | Workload::ParityRead => alone(fetched(times)),
            Workload::SmallRead => alone(Moves {
                part: self.payload(),
                ..fetched(times)
            }),
            Workload::DegradedRead => self.degraded_read(),
            Workload::DegradedWrite => self.degraded_write(),
            Workload::Demote => self.demoted(),
            Workload::Clean => alone(Moves {
                times,
                reads: 1,
                kept: 1,
                writes: 2,
                ..Moves::NONE
            }),
            Workload::Balance => self.balanced(),
            Workload::Rebuild => self.rebuilt(),
            Workload::ManyGroups64 | Workload::ManyGroups1024 | Workload::ManyGroups3072 => {
                alone(self.updated(times))
            }
        }
    }

    // `writes` writes of `times` copies of the data each.
    fn written(self, times: u32, writes: u32) -> Moves {
        Moves {
            times,
            writes,
            sent: writes,
            ..Moves::NONE
        }
    }

    // `times` writes at the parity level: each reads block and parity, updates the parity, and writes both.
    fn updated(self, times: u32) -> Moves {
        Moves {
            times,
            reads: 2,
            sums: 2,
            writes: 2,
            sent: 1,
            ..Moves::NONE
        }
    }

    // Of three blocks two are written mirrored and one at the parity level, into a hole that a squeeze left. A squeeze
    // moves as many blocks as a mirrored group has, and leaves half as many holes. It writes a stripe for each hole.
    fn fill(self) -> [Moves; 4] {
        let third = self.blocks / 3;
        [
            self.written(third.saturating_mul(2), 2),
            self.updated(third),
            squeezed(third),
            Moves::NONE,
        ]
    }

    // A group with parity is opened for each three blocks a row, by writing zeros to each row of four extents.
    fn demoted(self) -> [Moves; 4] {
        let rows = u32::from(self.geometry.rows());
        let opened = self.blocks.div_ceil(3 * rows);
        [
            zeroed(opened.saturating_mul(4 * rows)),
            moved(self.operations()),
            Moves::NONE,
            Moves::NONE,
        ]
    }

    // Of four extents of the added disk three take the rows of another one, and the fourth is in a new group with the
    // three that these leave. With eight extents a disk or more the free group keeps its own.
    fn balanced(self) -> [Moves; 4] {
        let shifted = self.operations() / 4 * 3;
        alone(Moves {
            times: shifted.saturating_mul(u32::from(self.geometry.rows())),
            reads: 1,
            kept: 1,
            writes: 1,
            ..Moves::NONE
        })
    }

    // Each row of a group that isn't free is the sum of its three others.
    fn rebuilt(self) -> [Moves; 4] {
        alone(Moves {
            times: self
                .filled_groups()
                .saturating_mul(u32::from(self.geometry.rows())),
            reads: 3,
            kept: 3,
            sums: 2,
            writes: 1,
            ..Moves::NONE
        })
    }

    // Each write goes to the cache, and at the end each block to two disks.
    fn cached(self) -> [Moves; 4] {
        let flushed = Moves {
            times: self.blocks,
            writes: 2,
            ..Moves::NONE
        };
        [
            self.written(self.operations(), 1),
            flushed,
            Moves::NONE,
            Moves::NONE,
        ]
    }

    // A quarter of the blocks stood on the disk that is out: each is the sum of three others.
    fn degraded_read(self) -> [Moves; 4] {
        let lost = self.operations() / 4;
        let sound = self.operations().saturating_sub(lost);
        let summed = Moves {
            times: lost,
            reads: 3,
            sums: 2,
            ..Moves::NONE
        };
        [fetched(sound), summed, Moves::NONE, Moves::NONE]
    }

    // Half of the blocks have one of their two copies on the disk that is out.
    fn degraded_write(self) -> [Moves; 4] {
        let single = self.operations() / 2;
        let double = self.operations().saturating_sub(single);
        [
            self.written(double, 2),
            self.written(single, 1),
            Moves::NONE,
            Moves::NONE,
        ]
    }
}

// `times` whole blocks are read, each without a copy on the way.
fn fetched(times: u32) -> Moves {
    Moves {
        times,
        fetched: 1,
        ..Moves::NONE
    }
}

// `times` blocks of zeros are written.
fn zeroed(times: u32) -> Moves {
    Moves {
        times,
        writes: 1,
        ..Moves::NONE
    }
}

// `stripes` stripes are written whole by squeezes. On average a stripe has two blocks that are read where they were and
// one of zeros. Its parity is their sum.
fn squeezed(stripes: u32) -> Moves {
    Moves {
        times: stripes,
        reads: 2,
        kept: 2,
        sums: 2,
        writes: 4,
        ..Moves::NONE
    }
}

// `times` blocks are moved to the parity level: each is read where it stood, and written in place of zeros.
fn moved(times: u32) -> Moves {
    Moves {
        times,
        reads: 3,
        kept: 1,
        sums: 2,
        writes: 2,
        ..Moves::NONE
    }
}

fn alone(moves: Moves) -> [Moves; 4] {
    [moves, Moves::NONE, Moves::NONE, Moves::NONE]
}
