// The sizes of both geometries, blocks and their sectors, and disks.
ghost use Rattle.std.specs.Prelude.{◌≡◌, ◌<◌, length};
ghost use Rattle.ar_disks.specs.Geometry.{block_len_of};

use crate::calls::{Answer, Call, Step, compare, read};
use crate::fixtures::{Shape, byte_of, filled, fused_disk};
use ar_disks::{Block, Disk, FuseDisk, Geometry, Host, MemDisk, Members, Place, Scratch, add_into};
use std::alloc::{AllocError, Global};
use std::process::Abort;
use std::test::Fail;

// Compares numbers.
fn are(rt: &impl Abort, what: &str, met: &[u64], wanted: &[u64]) {
    assert!(rt; met == wanted, "{what}: {met:?} in place of {wanted:?}");
}

fn sizes_are(rt: &impl Abort, geometry: Geometry, wanted: [u64; 3]) {
    let sectors = u64::from(geometry.sectors());
    let rows = u64::from(geometry.rows());
    are(
        rt,
        "sectors, rows and bytes",
        &[sectors, rows, geometry.block_len() as u64],
        &wanted,
    );
}

#[test]
fn sizes_of_a_geometry(rt: HostRuntime) {
    sizes_are(&rt, Geometry::PAPER, [128, 16, 65_536]);
    sizes_are(&rt, Geometry::SMALL, [2, 2, 1_024]);
}

fn host_is(rt: &impl Abort, number: u8, wanted: Option<u8>) {
    let met = Host::new(number).map(Host::number);
    assert!(rt; met == wanted, "host {number}: {met:?}");
}

#[test]
fn hosts_are_four(rt: HostRuntime) {
    for number in 0..4 {
        host_is(&rt, number, Some(number));
    }
    host_is(&rt, 4, None);
    host_is(&rt, 255, None);
}

fn member_is(rt: &impl Abort, members: &Members, position: u8, disk: u8)
    requires { position < 4 }
{
    let met = members.at(position);
    let wanted = Place { disk, extent: 7 };
    assert!(rt; met == wanted, "position {position}: {met:?}");
}

#[test]
fn members_by_position(rt: HostRuntime) {
    let mut members = Members {
        first: Place { disk: 0, extent: 7 },
        second: Place { disk: 1, extent: 7 },
        third: Place { disk: 2, extent: 7 },
        fourth: Place { disk: 3, extent: 7 },
    };
    members.set(2, Place { disk: 9, extent: 7 });
    member_is(&rt, &members, 0, 0);
    member_is(&rt, &members, 1, 1);
    member_is(&rt, &members, 2, 9);
    member_is(&rt, &members, 3, 3);
}

// Compares how many bytes there are, and the byte that they are throughout.
fn bytes_are(rt: &impl Abort, what: &str, bytes: &[u8], len: usize, byte: u8) {
    let met = (bytes.len(), byte_of(bytes));
    assert!(rt;
        met == (len, Some(byte)),
        "{what}: {met:?} in place of {len} of {byte}"
    );
}

#[test]
fn a_new_block_is_zero(rt: HostRuntime) -> Result<(), Fail> {
    for (geometry, len) in [(Geometry::PAPER, 65_536), (Geometry::SMALL, 1_024)] {
        let block = Block::new(rt.alloc(), geometry)?;
        bytes_are(&rt, "a new block", block.bytes(), len, 0);
    }
    Ok(())
}

// Puts a sector of AA in a block of zeros, and looks where it begins and ends.
fn sector_lies(rt: &impl Abort, block: &mut Block, index: usize, first: usize, last: usize)
    requires paper { length block.old ≡ 65536 }
    requires index { index < 128 }
    ensures paper { length block.new ≡ 65536 }
{
    block.zero();
    block.set_sector(index, &[0xAA; 512]);
    bytes_are(rt, "the sector", block.sector(index), 512, 0xAA);
    let bytes = block.bytes();
    let marked = bytes.iter().filter(|b| **b == 0xAA).count();
    let met = (marked, bytes.get(first).copied(), bytes.get(last).copied());
    assert!(rt;
        met == (512, Some(0xAA), Some(0xAA)),
        "sector {index}: {met:?}"
    );
}

#[test]
fn sectors_lie_512_bytes_apart(rt: HostRuntime) -> Result<(), Fail> {
    let mut block = Block::new(rt.alloc(), Geometry::PAPER)?;
    sector_lies(&rt, &mut block, 0, 0, 511);
    sector_lies(&rt, &mut block, 1, 512, 1_023);
    sector_lies(&rt, &mut block, 127, 65_024, 65_535);
    Ok(())
}

fn pair_lies(rt: &impl Abort, block: &mut Block)
    requires { length block.old ≡ 65536 }
{
    block.set_sectors(3, &[0xBB; 1_024]);
    bytes_are(rt, "sectors 3 and 4", block.sectors(3, 2), 1_024, 0xBB);
    bytes_are(rt, "sector 2", block.sector(2), 512, 0);
    bytes_are(rt, "sector 5", block.sector(5), 512, 0);
}

#[test]
fn several_sectors_are_put_at_once(rt: HostRuntime) -> Result<(), Fail> {
    let mut block = Block::new(rt.alloc(), Geometry::PAPER)?;
    pair_lies(&rt, &mut block);
    Ok(())
}

// Sums a block of 5 and one of 3, as long.
fn sums(rt: &impl Abort, five: &Block, sum: &mut Block, len: usize)
    requires { length sum.old ≡ length five.now }
{
    add_into(five.bytes(), sum.bytes_mut());
    bytes_are(rt, "the sum of 5 and 3", sum.bytes(), len, 6);
    add_into(five.bytes(), sum.bytes_mut());
    bytes_are(rt, "the sum with 5 once more", sum.bytes(), len, 3);
    sum.copy_from_slice(five.bytes());
    bytes_are(rt, "a copy of 5", sum.bytes(), len, 5);
    sum.zero();
    bytes_are(rt, "a block set to zero", sum.bytes(), len, 0);
}

#[test]
fn a_sum_taken_twice_is_undone(rt: HostRuntime) -> Result<(), Fail> {
    let alloc = rt.alloc();
    for (geometry, len) in [(Geometry::PAPER, 65_536), (Geometry::SMALL, 1_024)] {
        let five = filled(alloc, geometry, 5)?;
        let mut sum = filled(alloc, geometry, 3)?;
        sums(&rt, &five, &mut sum, len);
    }
    Ok(())
}

// Reads a row.
fn get<D: Disk>(disk: &mut D, into: &mut [u8], ext: u16, row: u16) -> Answer
    requires { length into.old ≡ block_len_of (D.state disk.old).geometry }
{
    if ext >= disk.extents() || row >= disk.geometry().rows() {
        return Answer::Unfit;
    }
    if disk.read(ext, row, into) {
        read(into)
    } else {
        Answer::Missing
    }
}

// Writes a row.
fn put<D: Disk>(disk: &mut D, from: &[u8], ext: u16, row: u16) -> Answer
    requires { length from.now ≡ block_len_of (D.state disk.old).geometry }
{
    if ext >= disk.extents() || row >= disk.geometry().rows() {
        return Answer::Unfit;
    }
    if disk.write(ext, row, from) {
        Answer::Written
    } else {
        Answer::Missing
    }
}

// Makes calls on a disk, and compares their answers.
fn plays<D: Disk>(
    rt: &impl Abort,
    alloc: Global,
    disk: &mut D,
    steps: &[Step],
) -> Result<(), Fail> {
    for (call, wanted) in steps {
        let met = make_call(disk, alloc, *call)?;
        compare(rt, &[], 0, (*call, *wanted), met);
    }
    Ok(())
}

fn make_call<D: Disk>(disk: &mut D, alloc: Global, call: Call) -> Result<Answer, AllocError> {
    Ok(match call {
        Call::Get(place, row) => {
            let mut into = filled(alloc, disk.geometry(), 0xDD)?;
            get(disk, into.bytes_mut(), place.extent, row)
        }
        Call::Put(place, row, byte) => {
            let from = filled(alloc, disk.geometry(), byte)?;
            put(disk, from.bytes(), place.extent, row)
        }
        _ => Answer::Unfit,
    })
}

// An extent of the disk that a test has.
fn at(extent: u16) -> Place {
    Place { disk: 0, extent }
}

#[test]
fn a_disk_keeps_what_is_written(rt: HostRuntime) -> Result<(), Fail> {
    let mut disk = MemDisk::filled(rt.alloc(), Geometry::SMALL, 3, 0xEE)?;
    keeps_a_row(&rt, rt.alloc(), &mut disk)
}

fn keeps_a_row(rt: &impl Abort, alloc: Global, disk: &mut MemDisk) -> Result<(), Fail> {
    let steps = [
        (Call::Put(at(1), 1, 0xAA), Answer::Written),
        (Call::Get(at(0), 0), Answer::Byte(0xEE)),
        (Call::Get(at(0), 1), Answer::Byte(0xEE)),
        (Call::Get(at(1), 0), Answer::Byte(0xEE)),
        (Call::Get(at(1), 1), Answer::Byte(0xAA)),
        (Call::Get(at(2), 0), Answer::Byte(0xEE)),
        (Call::Get(at(2), 1), Answer::Byte(0xEE)),
    ];
    plays(rt, alloc, disk, &steps)?;
    are(
        rt,
        "extents and faults",
        &[u64::from(disk.extents()), disk.faults()],
        &[3, 0],
    );
    Ok(())
}

#[test]
fn a_disk_starts_with_its_bytes(rt: HostRuntime) -> Result<(), Fail> {
    let mut disk = ones_and_twos(rt.alloc())?;
    let steps = [
        (Call::Get(at(0), 0), Answer::Byte(1)),
        (Call::Get(at(0), 1), Answer::Byte(2)),
    ];
    plays(&rt, rt.alloc(), &mut disk, &steps)
}

// A disk of one extent, whose first row has bytes 1 and whose second bytes 2.
fn ones_and_twos(alloc: Global) -> Result<MemDisk, AllocError> {
    let twos = vec![in alloc; 2; 1_024]?;
    let mut bytes = vec![in alloc; 1; 1_024]?;
    bytes.extend_from_slice(&twos)?;
    Ok(MemDisk::new(Geometry::SMALL, 1, bytes))
}

#[test]
fn a_fuse_passes_its_calls(rt: HostRuntime) -> Result<(), Fail> {
    let mut disk = fused_disk(
        rt.alloc(),
        Shape {
            geometry: Geometry::SMALL,
            extents: 1,
            calls: 2,
        },
    )?;
    burns(&rt, rt.alloc(), &mut disk)
}

fn burns(rt: &impl Abort, alloc: Global, disk: &mut FuseDisk) -> Result<(), Fail> {
    plays(
        rt,
        alloc,
        disk,
        &[(Call::Put(at(0), 0, 0xAA), Answer::Written)],
    )?;
    has_left(rt, disk, 1, 0);
    plays(
        rt,
        alloc,
        disk,
        &[(Call::Get(at(0), 1), Answer::Byte(0xEE))],
    )?;
    for faults in 0..3 {
        has_left(rt, disk, 0, faults);
        plays(rt, alloc, disk, &[(Call::Get(at(0), 0), Answer::Missing)])?;
    }
    plays(
        rt,
        alloc,
        disk,
        &[(Call::Put(at(0), 0, 0xBB), Answer::Missing)],
    )?;
    has_left(rt, disk, 0, 4);
    Ok(())
}

fn has_left(rt: &impl Abort, disk: &FuseDisk, left: u64, faults: u64) {
    are(
        rt,
        "calls left and faults",
        &[disk.left(), disk.faults()],
        &[left, faults],
    );
}

// Takes the address space in pieces, the largest that are given first, down to 512 bytes.
fn take_all_memory(alloc: Global, held: &mut Vec<Vec<u8>>) {
    let mut size: usize = 1 << 44;
    for _ in 0..36 {
        for _ in 0..20_000 {
            match Vec::with_capacity(alloc, size) {
                Ok(piece) => {
                    if held.push(piece).is_err() {
                        return;
                    }
                }
                Err(_) => break,
            }
        }
        size /= 2;
    }
}

#[test]
fn refused_memory_is_reported(rt: HostRuntime) -> Result<(), Fail> {
    let alloc = rt.alloc();
    let mut held = Vec::with_capacity(alloc, 100_000)?;
    take_all_memory(alloc, &mut held);
    let refused = are_refused(alloc);
    drop(held);
    assert!(rt;
        refused == [true; 3],
        "a block, a scratch, a disk: {refused:?}"
    );
    assert!(rt; are_refused(alloc) == [false; 3], "memory is back");
    Ok(())
}

// Whether a block, blocks to work in and a disk are refused.
fn are_refused(alloc: Global) -> [bool; 3] {
    let block = Block::new(alloc, Geometry::PAPER).is_err();
    let scratch = Scratch::new(alloc, Geometry::PAPER).is_err();
    [
        block,
        scratch,
        MemDisk::filled(alloc, Geometry::PAPER, 1, 0).is_err(),
    ]
}
