// A few hundred operations of each workload, and a digest of what is read back.
use crate::failure::Failure;
use crate::measure::size_of;
use ar_disks::Geometry;
use bench_workloads::{Data, Sink, Size, Stage, Workload};
use rand_core::SeedableRng;
use rand_xoshiro::Xoshiro256PlusPlus;
use sha2::{Digest, Sha256};
use std::alloc::Global;

/// Operations of a workload that are enough.
const ENOUGH: u32 = 200;

/// The digest of all data that reads gave.
#[derive(Drop)]
pub struct ReadBack {
    hasher: Sha256,
}

impl Sink for ReadBack {
    fn take(&mut self, bytes: &[u8]) {
        self.hasher.update(bytes);
    }
}

impl ReadBack {
    pub fn new() -> ReadBack {
        ReadBack {
            hasher: Sha256::new(),
        }
    }

    pub fn digest(self) -> [u8; 32] {
        let ReadBack { hasher } = self;
        hasher.finalize()
    }
}

/// The size of an array on which a few hundred operations are soon done. Many groups are as many as are measured.
pub fn size_of_check(workload: Workload, geometry: Geometry) -> Size {
    if workload.is_of_many_groups() {
        return size_of(workload, geometry);
    }
    let extents = match geometry {
        Geometry::Paper => 4,
        Geometry::Small => 32,
    };
    Size {
        geometry,
        disks: 4,
        extents,
    }
}

/// Does a few hundred operations of a workload, or one for each block of many groups, and reads all its blocks back.
pub fn check(
    alloc: Global,
    workload: Workload,
    geometry: Geometry,
    seed: u64,
    read_back: &mut ReadBack,
) -> Result<(), Failure> {
    let mut stage = Stage::new(alloc, workload, size_of_check(workload, geometry))?;
    let done = check_stage(alloc, geometry, seed, &mut stage, read_back);
    stage.close();
    done
}

fn check_stage(
    alloc: Global,
    geometry: Geometry,
    seed: u64,
    stage: &mut Stage,
    read_back: &mut ReadBack,
) -> Result<(), Failure> {
    let data = Data::new(alloc, geometry, seed)?;
    let mut rng = Xoshiro256PlusPlus::seed_from_u64(seed);
    let done = do_rounds(alloc, stage, &data, &mut rng, read_back);
    drop(data);
    done
}

fn do_rounds(
    alloc: Global,
    stage: &mut Stage,
    data: &Data,
    rng: &mut Xoshiro256PlusPlus,
    read_back: &mut ReadBack,
) -> Result<(), Failure> {
    let round = stage.round();
    for number in 0..rounds(round.operations()) {
        if number == 0 || stage.wears_out() {
            stage.prepare(alloc, data)?;
        }
        stage.operate(alloc, round, data, rng, read_back)?;
        stage.check(alloc)?;
    }
    stage.read_blocks(alloc, round.blocks, read_back)?;
    Ok(())
}

// How many rounds of `operations` operations are enough.
fn rounds(operations: u32) -> u32 {
    ENOUGH.div_ceil(operations.max(1))
}
