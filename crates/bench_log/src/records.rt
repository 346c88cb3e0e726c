// Records that can be told apart: a number, and as many bytes of it as are asked for.
use crate::failure::Failure;
use std::alloc::Global;

/// The batch of one record with this number and `len` further bytes.
pub fn batch_of(alloc: Global, number: u64, len: usize) -> Result<Vec<Vec<u8>>, Failure> {
    let mut record = number.to_le_bytes().as_slice().to_vec(alloc)?;
    record.resize(len.saturating_add(8), (number % 251) as u8)?;
    let mut batch = Vec::new(alloc);
    batch.push(record)?;
    Ok(batch)
}

/// Whether this is a batch of the record with this number.
pub fn is_batch_of(batch: &[Vec<u8>], number: u64) -> bool {
    match batch {
        [record] => match record.as_slice().split_first_chunk::<8>() {
            Some((head, rest)) => {
                u64::from_le_bytes(*head) == number
                    && rest.iter().all(|byte| *byte as u64 == number % 251)
            }
            None => false,
        },
        _ => false,
    }
}
