// Work buffers that are allocated once, so that reads and writes allocate nothing.
ghost use Rattle.std.specs.Prelude.{◌≡◌, IfOk, length};
ghost use Rattle.ar_disks.specs.Geometry.{block_len_of};

use crate::{Block, Geometry};
use std::alloc::{AllocError, Global};

/// Two work buffers of one geometry, so that a call allocates nothing. Between calls their contents mean nothing.
#[derive(Debug, Drop)]
pub struct Scratch {
    pub geometry: Geometry,
    pub first: Block,
    pub second: Block,
    pub ghost first_whole: { length first ≡ block_len_of geometry },
    pub ghost second_whole: { length second ≡ block_len_of geometry },
}

impl Scratch {
    /// Allocates two blocks of `geometry`. Fails if out of memory.
    pub fn new(alloc: Global, geometry: Geometry) -> Result<Scratch, AllocError>
        ensures { IfOk result (λ scratch. scratch.geometry ≡ geometry) }
    {
        Ok(Scratch {
            geometry,
            first: Block::new(alloc, geometry)?,
            second: Block::new(alloc, geometry)?,
        })
    }
}
