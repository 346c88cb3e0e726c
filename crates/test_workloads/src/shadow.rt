// What a host that verifies finds where its unit does not hold what it wrote: a case that it overlooked would hide
// every such error.
use bench_verify::{Mismatch, Origin, SECTOR_LEN, Shadow, Span};
use std::alloc::{AllocError, Global};
use std::process::Abort;

// Of the unit's four sectors write 7 wrote 1 and 2, and write 9 wrote 2 again.
const FIRST: Origin = Origin {
    host: 1,
    lun: 2,
    sector: 1,
    write: 7,
};

const SECOND: Origin = Origin {
    sector: 2,
    write: 9,
    ..FIRST
};

const THIRD: Origin = Origin {
    sector: 3,
    write: 0,
    ..FIRST
};

fn unit(alloc: Global) -> Result<Shadow, AllocError> {
    let mut unit = Shadow::new(alloc, 1, 2, 4)?;
    unit.note(Span { lba: 1, count: 2 }, 7);
    unit.note(Span { lba: 2, count: 1 }, 9);
    Ok(unit)
}

// What a READ of sectors 1 to 3 returns that hold the content of these writes.
fn read(alloc: Global, origins: [Origin; 3]) -> Result<Vec<u8>, AllocError> {
    let mut bytes = Vec::new(alloc);
    for origin in origins {
        bytes.extend_from_slice(&origin.content())?;
    }
    Ok(bytes)
}

// The sector and byte of the first difference, and the write that was found in its place.
type Found = Option<(u32, usize, Option<Origin>)>;

fn found_of(mismatch: Option<Mismatch>) -> Found {
    mismatch.map(|mismatch| (mismatch.wanted.sector, mismatch.at, mismatch.found))
}

fn finds<R: Abort + AllocGlobal>(rt: &R, origins: [Origin; 3], wanted: Found) {
    let alloc = rt.alloc();
    let (Ok(unit), Ok(bytes)) = (unit(alloc), read(alloc, origins)) else {
        assert!(rt; false, "no memory");
        return;
    };
    let found = found_of(unit.difference(1, &bytes));
    assert!(rt; found == wanted, "{found:?}");
}

// The first bytes of a content are host and LUN, the sector's three and the write's four.
#[test]
fn other_writes_are_found(rt: HostRuntime) {
    let stale = Origin { write: 7, ..SECOND };
    let foreign = Origin { host: 3, ..FIRST };
    let beside = Origin {
        sector: 1,
        ..SECOND
    };
    let zero = Origin {
        host: 0,
        lun: 0,
        sector: 0,
        write: 0,
    };
    finds(&rt, [FIRST, SECOND, THIRD], None);
    finds(&rt, [FIRST, stale, THIRD], Some((2, 7, Some(stale))));
    finds(&rt, [foreign, SECOND, THIRD], Some((1, 0, Some(foreign))));
    finds(&rt, [FIRST, beside, THIRD], Some((2, 3, Some(beside))));
    finds(&rt, [FIRST, SECOND, FIRST], Some((3, 0, Some(FIRST))));
    finds(&rt, [zero, SECOND, THIRD], Some((1, 0, Some(zero))));
}

// Every single byte that is changed is found, and is no write's content.
#[test]
fn wrong_bytes_are_found(rt: HostRuntime) {
    let alloc = rt.alloc();
    let (Ok(unit), Ok(bytes)) = (unit(alloc), read(alloc, [FIRST, SECOND, THIRD])) else {
        assert!(rt; false, "no memory");
        return;
    };
    find_each(&rt, &unit, bytes);
    drop(unit);
}

fn find_each<R: Abort>(rt: &R, unit: &Shadow, mut bytes: Vec<u8>) {
    for sector in 0..3u32 {
        for at in 0..SECTOR_LEN {
            let index = sector as usize * SECTOR_LEN + at;
            flip(&mut bytes, index);
            let found = found_of(unit.difference(1, &bytes));
            assert!(rt;
                found == Some((sector + 1, at, None)),
                "sector {sector} byte {at}: {found:?}"
            );
            flip(&mut bytes, index);
        }
    }
}

fn flip(bytes: &mut Vec<u8>, index: usize) {
    if let Some(byte) = bytes.get_mut(index) {
        *byte ^= 1;
    }
}

// New sectors are zero, and the others stay.
#[test]
fn a_larger_unit_is_known(rt: HostRuntime) {
    let alloc = rt.alloc();
    let (Ok(mut unit), Ok(bytes)) = (unit(alloc), read(alloc, [FIRST, SECOND, THIRD])) else {
        assert!(rt; false, "no memory");
        return;
    };
    assert!(rt; unit.grow(6).is_ok(), "no memory");
    assert!(rt; unit.sectors() == 6, "six sectors");
    assert!(rt; unit.difference(1, &bytes).is_none(), "the first four");
    assert!(rt;
        unit.difference(4, &[0; 2 * SECTOR_LEN]).is_none(),
        "the new ones"
    );
    drop(unit);
}
