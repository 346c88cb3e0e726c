// The data that writes bring.
ghost use Rattle.std.specs.Prelude.{◌≡◌, length, IfOk};

use crate::fault::WorkloadFault;
use ar_disks::{Geometry, SECTOR_LEN};
use bytes::Bytes;
use rand_core::{Rng, SeedableRng};
use rand_xoshiro::Xoshiro256PlusPlus;
use std::alloc::{AllocError, Global};
use std::marker::Model;

/// How many different blocks of data there are: a prime, so that blocks which differ by whole extents differ in their
/// data.
const VARIETY: u32 = 17;

/// Blocks of data, and sectors, which writes bring in turn.
#[derive(Drop)]
pub struct Data {
    blocks: Vec<Bytes>,
    sectors: Vec<Bytes>,
}

impl Model for Data {
    ghost use Rattle.std.specs.Prelude.{◌≡◌, ⊤, length};

    ghost Value = { ⊤ };

    ghost view = { λ _. tt };

    ghost invariant = { λ d. (length d.blocks.items ≡ 17) × (length d.sectors.items ≡ 17) };
}

impl Data {
    /// Data drawn from a seed.
    pub fn new(alloc: Global, geometry: Geometry, seed: u64) -> Result<Data, WorkloadFault> {
        let mut rng = Xoshiro256PlusPlus::seed_from_u64(seed);
        let blocks = drawn(alloc, &mut rng, geometry.block_len());
        let sectors = drawn(alloc, &mut rng, SECTOR_LEN);
        match (blocks, sectors) {
            (Ok(blocks), Ok(sectors)) => Ok(Data { blocks, sectors }),
            _ => Err(WorkloadFault::NoMemory),
        }
    }

    /// The block that a write brings whose turn it is. The bytes are shared.
    pub fn block(&self, turn: u32) -> Result<Bytes, WorkloadFault> {
        let block = &self.blocks[(turn % VARIETY) as usize];
        block.clone().map_err(|_| WorkloadFault::NoMemory)
    }

    /// The same of a write of one sector.
    pub fn sector(&self, turn: u32) -> Result<Bytes, WorkloadFault> {
        let sector = &self.sectors[(turn % VARIETY) as usize];
        sector.clone().map_err(|_| WorkloadFault::NoMemory)
    }
}

fn drawn<R: Rng>(alloc: Global, rng: &mut R, len: usize) -> Result<Vec<Bytes>, AllocError>
    ensures { IfOk result (λ all. length all.items ≡ 17) }
{
    let mut all = Vec::new(alloc);
    for _ in 0..VARIETY {
        let mut bytes = vec![in alloc; 0u8; len]?;
        rng.fill_bytes(&mut bytes);
        all.push(Bytes::from_vec(bytes)?)?;
    }
    Ok(all)
}
