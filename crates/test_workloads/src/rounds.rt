// Rounds of workloads on small arrays, whose operations are counted by hand.
use ar_disks::Geometry;
use bench_workloads::{Access, Data, Round, Sink, Size, Stage, Workload, WorkloadFault};
use rand_core::SeedableRng;
use rand_xoshiro::Xoshiro256PlusPlus;
use std::alloc::Global;
use std::process::Abort;

// What reads give is compared with the blocks as they were drawn, one after another.
#[derive(Drop)]
struct ReadBack {
    data: Data,
    turn: u32,
    right: u32,
}

impl ReadBack {
    fn is_right(&self, bytes: &[u8]) -> bool {
        match self.data.block(self.turn) {
            Ok(block) => block.as_slice() == bytes,
            Err(_) => false,
        }
    }
}

impl Sink for ReadBack {
    fn take(&mut self, bytes: &[u8]) {
        if self.is_right(bytes) {
            self.right = self.right.saturating_add(1);
        }
        self.turn = self.turn.wrapping_add(1);
    }
}

// What a round gave.
#[derive(Clone, Copy, Debug, PartialEq, Eq)]
struct Given {
    operations: u32,
    // How many blocks were read back as they were written.
    right: u32,
}

// A round on this many disks of this many small extents, with blocks more than there are.
#[derive(Clone, Copy)]
struct Trial {
    workload: Workload,
    disks: u8,
    extents: u16,
    more: u32,
}

impl Trial {
    fn given(self, alloc: Global) -> Result<Given, WorkloadFault> {
        let data = Data::new(alloc, Geometry::SMALL, 1)?;
        let is_written = self.workload.plan().access == Access::WriteBlocks;
        let mut read_back = ReadBack {
            data,
            turn: u32::from(is_written),
            right: 0,
        };
        self.read_back(alloc, &mut read_back)
    }

    fn read_back(self, alloc: Global, read_back: &mut ReadBack) -> Result<Given, WorkloadFault> {
        let size = Size {
            geometry: Geometry::SMALL,
            disks: self.disks,
            extents: self.extents,
        };
        let mut stage = Stage::new(alloc, self.workload, size)?;
        let operations = self.on_stage(alloc, &mut stage, read_back);
        stage.close();
        let right = read_back.right;
        operations.map(|operations| Given { operations, right })
    }

    // Does a round, reads all blocks back, and says how many operations there were.
    fn on_stage(
        self,
        alloc: Global,
        stage: &mut Stage,
        read_back: &mut ReadBack,
    ) -> Result<u32, WorkloadFault> {
        let round = stage.round();
        let round = Round {
            blocks: round.blocks.saturating_add(self.more),
            ..round
        };
        let mut rng = Xoshiro256PlusPlus::seed_from_u64(1);
        stage.prepare(alloc, &read_back.data)?;
        stage.operate(alloc, round, &read_back.data, &mut rng, &mut Discard)?;
        stage.check(alloc)?;
        stage.read_blocks(alloc, round.blocks, read_back)?;
        Ok(round.operations())
    }
}

// No operation of these workloads reads.
#[derive(Drop)]
struct Discard;

impl Sink for Discard {
    fn take(&mut self, _bytes: &[u8]) {}
}

fn gives<R: Abort + AllocGlobal>(rt: &R, trial: Trial, wanted: Result<Given, WorkloadFault>) {
    let name = trial.workload.name();
    let given = trial.given(rt.alloc());
    assert!(rt;
        given == wanted,
        "{name} on {} disks with {} more",
        trial.disks,
        trial.more
    );
}

// Of five groups one stays free, and two hold four mirrored blocks each.
#[test]
fn every_block_is_demoted(rt: HostRuntime) {
    let trial = Trial {
        workload: Workload::Demote,
        disks: 4,
        extents: 5,
        more: 0,
    };
    gives(
        &rt,
        trial,
        Ok(Given {
            operations: 8,
            right: 8,
        }),
    );
}

// Four groups have two blocks each. When two of them are empty, the others are full.
#[test]
fn two_groups_are_emptied(rt: HostRuntime) {
    let trial = Trial {
        workload: Workload::Clean,
        disks: 4,
        extents: 5,
        more: 0,
    };
    gives(
        &rt,
        trial,
        Ok(Given {
            operations: 4,
            right: 8,
        }),
    );
}

// An event that finds nothing to move is reported.
#[test]
fn no_more_is_moved(rt: HostRuntime) {
    for workload in [Workload::Demote, Workload::Clean] {
        let trial = Trial {
            workload,
            disks: 4,
            extents: 5,
            more: 2,
        };
        gives(&rt, trial, Err(WorkloadFault::Background(workload.name())));
    }
}

// The eight extents of an added disk are used: six by groups whose extents move there, and two by groups that are
// formed. Seven groups of six blocks were full.
#[test]
fn an_added_disk_is_used(rt: HostRuntime) {
    let trial = Trial {
        workload: Workload::Balance,
        disks: 4,
        extents: 8,
        more: 0,
    };
    gives(
        &rt,
        trial,
        Ok(Given {
            operations: 8,
            right: 42,
        }),
    );
}

// All five extents of a replaced disk are rebuilt. Four groups of six blocks were full.
#[test]
fn a_replaced_disk_is_rebuilt(rt: HostRuntime) {
    let trial = Trial {
        workload: Workload::Rebuild,
        disks: 4,
        extents: 5,
        more: 0,
    };
    gives(
        &rt,
        trial,
        Ok(Given {
            operations: 5,
            right: 24,
        }),
    );
}

// Six blocks more would be an extent more.
#[test]
fn no_more_extents_are_moved(rt: HostRuntime) {
    for workload in [Workload::Balance, Workload::Rebuild] {
        let trial = Trial {
            workload,
            disks: 4,
            extents: 8,
            more: 6,
        };
        gives(&rt, trial, Err(WorkloadFault::Background(workload.name())));
    }
}

// Twelve disks of five extents have fifteen groups, of which fourteen hold six blocks each with parity.
#[test]
fn twelve_disks_have_three_times_the_groups(rt: HostRuntime) {
    let trial = Trial {
        workload: Workload::ManyGroups3072,
        disks: 12,
        extents: 5,
        more: 0,
    };
    gives(
        &rt,
        trial,
        Ok(Given {
            operations: 84,
            right: 84,
        }),
    );
}
