//! Batches that a seed gives.
use std::alloc::{AllocError, Global};

/// Numbers that a seed gives, by xorshift.
#[derive(Drop)]
pub struct Draw {
    state: u64,
}

impl Draw {
    pub fn new(seed: u64) -> Draw {
        Draw {
            state: seed.wrapping_mul(0x9e37_79b9_7f4a_7c15) | 1,
        }
    }

    /// A number up to `most`.
    pub fn up_to(&mut self, most: u8) -> u8 {
        self.state ^= self.state.wrapping_shl(13);
        self.state ^= self.state.wrapping_shr(7);
        self.state ^= self.state.wrapping_shl(17);
        ((self.state >> 32) % (most as u64 + 1)) as u8
    }
}

/// One to three batches of up to two records of up to six bytes.
pub fn batches_of(alloc: Global, seed: u64) -> Result<Vec<Vec<Vec<u8>>>, AllocError> {
    let mut draw = Draw::new(seed);
    let mut batches = Vec::new(alloc);
    batches.push(batch_of(alloc, &mut draw)?)?;
    for _ in 0..draw.up_to(2) {
        batches.push(batch_of(alloc, &mut draw)?)?;
    }
    Ok(batches)
}

fn batch_of(alloc: Global, draw: &mut Draw) -> Result<Vec<Vec<u8>>, AllocError> {
    let mut batch = Vec::new(alloc);
    for _ in 0..draw.up_to(2) {
        batch.push(record_of(alloc, draw)?)?;
    }
    Ok(batch)
}

fn record_of(alloc: Global, draw: &mut Draw) -> Result<Vec<u8>, AllocError> {
    let mut record = Vec::new(alloc);
    for _ in 0..draw.up_to(6) {
        record.push(draw.up_to(u8::MAX))?;
    }
    Ok(record)
}
