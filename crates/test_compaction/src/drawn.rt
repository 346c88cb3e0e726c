//! Drawn records, before and after compaction: plain units of both answer the same.
ghost use Rattle.std.specs.Prelude.{IfOk};
ghost use Rattle.ar_record.specs.Record.{IsEncodable, data_of};

use crate::plain::{answer_the_same, plain_unit};
use ar_compaction::compact;
use ar_disks::{Addr, Host};
use ar_record::{Record, encode};
use bytes::Bytes;
use rand::rngs::SmallRng;
use rand::{RngExt, SeedableRng};
use std::alloc::{AllocError, Global};
use std::process::Abort;

/// Records of a run.
const RECORDS: usize = 60;

/// How large drawn units and commands are, in sectors.
#[derive(Clone, Copy)]
pub struct Sizes {
    /// The greatest length of a unit.
    pub unit: u32,
    /// The greatest LBA.
    pub lba: u8,
    /// The most sectors of a command.
    pub count: u8,
}

const LARGE: Sizes = Sizes {
    unit: 300,
    lba: 255,
    count: 23,
};

fn addr_of(number: u8) -> Addr {
    match Host::new(number % 4) {
        Some(host) => Addr {
            host,
            lun: 2 * (number % 4),
        },
        None => unreachable!(),
    }
}

// A WRITE (16) of `count` sectors from `lba` on, each byte of which is `byte`.
fn write_of(alloc: Global, addr: Addr, lba: u8, count: u8, byte: u8) -> Result<Record, AllocError>
    ensures { IfOk result (λ entry. IsEncodable (data_of entry)) }
{
    let cdb = [0x8A, 0, 0, 0, 0, 0, 0, 0, 0, lba, 0, 0, 0, count, 0, 0];
    let bytes = vec![in alloc; byte; usize::from(count) * 512]?;
    Ok(Record::Command(addr, cdb, Bytes::from_vec(bytes)?))
}

// The next record, of one of three units. A third of the WRITEs are of zeros.
fn draw(alloc: Global, rng: &mut SmallRng, sizes: Sizes) -> Result<Record, AllocError>
    ensures { IfOk result (λ entry. IsEncodable (data_of entry)) }
{
    let addr = addr_of(rng.random_range(0u8..3));
    let lba = rng.random_range(0u8..=sizes.lba);
    let count = rng.random_range(0u8..=sizes.count);
    match rng.random_range(0u8..20) {
        0 | 1 => Ok(Record::Make(addr, rng.random_range(1u32..=sizes.unit.max(1)))),
        2 => Ok(Record::Remove(addr)),
        3..=5 => Ok(Record::Grow(addr, rng.random_range(1u32..=sizes.unit.max(1)))),
        6 => Ok(Record::AddDisk(rng.random_range(1u32..=9))),
        7 | 8 => Ok(Record::Unmap(addr, u64::from(lba), u32::from(count))),
        9..=12 => write_of(alloc, addr, lba, count, 0),
        byte => write_of(alloc, addr, lba, count, byte),
    }
}

fn run_of(alloc: Global, seed: u64) -> Result<Vec<Record>, AllocError> {
    let mut rng = SmallRng::seed_from_u64(seed);
    let mut records = Vec::new(alloc);
    for _ in 0..RECORDS {
        records.push(draw(alloc, &mut rng, LARGE)?)?;
    }
    Ok(records)
}

/// Batches of one to four drawn records.
pub fn drawn_batches(
    alloc: Global,
    seed: u64,
    count: u64,
    sizes: Sizes,
) -> Result<Vec<Vec<Vec<u8>>>, AllocError> {
    let mut rng = SmallRng::seed_from_u64(seed);
    let mut batches = Vec::new(alloc);
    for _ in 0..count {
        batches.push(drawn_batch(alloc, &mut rng, sizes)?)?;
    }
    Ok(batches)
}

fn drawn_batch(
    alloc: Global,
    rng: &mut SmallRng,
    sizes: Sizes,
) -> Result<Vec<Vec<u8>>, AllocError> {
    let mut batch = Vec::new(alloc);
    for _ in 0..rng.random_range(1u8..5) {
        let entry = draw(alloc, rng, sizes)?;
        let mut bytes = Vec::new(alloc);
        encode(&entry, &mut bytes)?;
        batch.push(bytes)?;
    }
    Ok(batch)
}

fn count_disks(records: &[Record]) -> usize {
    let mut count: usize = 0;
    for entry in records {
        if let Record::AddDisk(_) = entry {
            count = count.saturating_add(1);
        }
    }
    count
}

// Whether both make the same unit at an address.
fn is_same_unit(
    alloc: Global,
    old: &[Record],
    new: &[Record],
    addr: Addr,
) -> Result<bool, AllocError> {
    let mut one = plain_unit(alloc, old, addr)?;
    let mut other = plain_unit(alloc, new, addr)?;
    Ok(answer_the_same(alloc, &mut one, &mut other))
}

/// Ends the test unless the new records are few, and make the same units.
pub fn compare(
    rt: &impl Abort,
    alloc: Global,
    seed: u64,
    old: &[Record],
    new: &[Record],
) -> Result<(), AllocError> {
    // Each of three units has three pieces at most, is created once and extended once.
    let most = count_disks(old).saturating_add(15);
    assert!(rt; new.len() <= most, "{} records, seed {seed}", new.len());
    for number in 0u8..4 {
        let same = is_same_unit(alloc, old, new, addr_of(number))?;
        assert!(rt; same, "another unit of host {number}, seed {seed}");
    }
    Ok(())
}

fn run(rt: &impl Abort, alloc: Global, seed: u64) -> Result<(), AllocError> {
    let old = run_of(alloc, seed)?;
    let new = compact(alloc, &old)?;
    compare(rt, alloc, seed, &old, &new)
}

#[test]
fn drawn_records_make_the_same_units(rt: HostRuntime) -> Result<(), AllocError> {
    for seed in 0u64..100 {
        run(&rt, rt.alloc(), seed)?;
    }
    Ok(())
}

fn records_of_zeros(alloc: Global) -> Result<usize, AllocError> {
    let old = [
        Record::Make(addr_of(1), 1_000),
        write_of(alloc, addr_of(1), 9, 90, 0)?,
    ];
    Ok(compact(alloc, &old)?.len())
}

#[test]
fn a_unit_of_zeros_is_one_record(rt: HostRuntime) -> Result<(), AllocError> {
    let count = records_of_zeros(rt.alloc())?;
    assert!(&rt; count == 1, "{count} records");
    Ok(())
}
