// What an array counts, and how many blocks are cached. The numbers wanted are worked out by the rules for puts
// (`ar_store`) and for a cache in LRU order.
use crate::calls::{is_met, make_call};
use ar_core::Array;
use ar_disks::FuseDisk;
use std::process::Abort;
use test_support::{Call, FOUR_GROUPS, Return, Shape, Work};

/// Promotions, squeezes, cache hits, destages; and the number of cached blocks.
type Count = [u64; 5];

/// A call, what it returns, and what is counted after it.
type Counted = (Call, Return, Count);

const NONE: Count = [0; 5];

fn count_of(array: &Array<FuseDisk>) -> Count {
    let counters = array.counters();
    [
        counters.promotions,
        counters.squeezes,
        counters.cache_hits,
        counters.destages,
        array.cached_blocks() as u64,
    ]
}

fn is_counted(rt: &impl Abort, number: usize, counted: Count, wanted: Count) {
    assert!(rt;
        counted == wanted,
        "row {number} counts {counted:?}, not {wanted:?}"
    );
}

fn go_on<R: Abort + AllocGlobal>(
    rt: &R,
    shape: Shape,
    array: &mut Array<FuseDisk>,
    rows: &[Counted],
) {
    for (number, (call, wanted, count)) in rows.iter().enumerate() {
        let met = make_call(rt, shape, array, *call);
        is_met(rt, shape, number, *call, met, *wanted);
        is_counted(rt, number, count_of(array), *count);
    }
}

fn run<R: Abort + AllocGlobal>(rt: &R, shape: Shape, rows: &[Counted]) {
    let mut array = shape.array(rt.alloc()).expect(rt, "an array");
    go_on(rt, shape, &mut array, rows);
    drop(array);
}

/// Two blocks fit in the cache. Block 0 is found there by a READ, and by a WRITE of its first sector; block 1 isn't.
/// Block 2 evicts block 0; a flush of one block, one of the unit and FORCE UNIT ACCESS destage one each. What a deleted
/// unit has in the cache is discarded.
const CACHED: [Counted; 12] = [
    (Call::Make(0, 0, 8), Return::Done, NONE),
    (Call::Write(0, 0, 0, 2, 0xA0), Return::Good, [0, 0, 0, 0, 1]),
    (
        Call::Read(0, 0, 0),
        Return::Sectors(0xA0, 0xA0),
        [0, 0, 1, 0, 1],
    ),
    (Call::Read(0, 0, 2), Return::Sectors(0, 0), [0, 0, 1, 0, 1]),
    (Call::Write(0, 0, 0, 1, 0xB0), Return::Good, [0, 0, 2, 0, 1]),
    (Call::Write(0, 0, 2, 2, 0xA1), Return::Good, [0, 0, 2, 0, 2]),
    (Call::Write(0, 0, 4, 2, 0xA2), Return::Good, [0, 0, 2, 1, 2]),
    (
        Call::Work(Work::Flush),
        Return::Flushed(0, 1),
        [0, 0, 2, 2, 1],
    ),
    (Call::FlushPart(0, 0, 0), Return::Done, [0, 0, 2, 3, 0]),
    (Call::Force(0, 0, 6, 2, 0xA3), Return::Good, [0, 0, 2, 4, 0]),
    (Call::Write(0, 0, 6, 2, 0xA4), Return::Good, [0, 0, 2, 4, 1]),
    (Call::Remove(0, 0), Return::Done, [0, 0, 2, 4, 0]),
];

#[test]
fn hits_and_destages_are_counted(rt: HostRuntime) {
    let shape = Shape {
        cache: 2,
        ..FOUR_GROUPS
    };
    run(&rt, shape, &CACHED);
}

/// A block that was demoted is promoted by a WRITE of one of its sectors, and then overwritten in place. Without a
/// cache no READ is a hit.
const PROMOTED: [Counted; 7] = [
    (Call::Make(0, 0, 8), Return::Done, NONE),
    (Call::Write(0, 0, 0, 2, 0xA0), Return::Good, NONE),
    (Call::Work(Work::Demote), Return::Moved(0, 1, 0), NONE),
    (Call::Read(0, 0, 0), Return::Sectors(0xA0, 0xA0), NONE),
    (Call::Write(0, 0, 0, 1, 0xB0), Return::Good, [1, 0, 0, 0, 0]),
    (Call::Write(0, 0, 0, 2, 0xC0), Return::Good, [1, 0, 0, 0, 0]),
    (
        Call::Read(0, 0, 0),
        Return::Sectors(0xC0, 0xC0),
        [1, 0, 0, 0, 0],
    ),
];

/// Twelve blocks fill three mirrored groups of four, and one group stays free. The 13th block squeezes a group, which
/// leaves two holes: for it, and for the 14th. So do the 15th and the 17th. Then all 18 are in parity groups, no group
/// may be opened for a mirrored block, and a WRITE is done in place.
const SQUEEZED: [Counted; 7] = [
    (Call::Make(0, 0, 36), Return::Done, NONE),
    (Call::Write(0, 0, 0, 24, 0xA0), Return::Good, NONE),
    (
        Call::Write(0, 0, 24, 2, 0xA1),
        Return::Good,
        [0, 1, 0, 0, 0],
    ),
    (
        Call::Write(0, 0, 26, 2, 0xA2),
        Return::Good,
        [0, 1, 0, 0, 0],
    ),
    (
        Call::Write(0, 0, 28, 8, 0xA3),
        Return::Good,
        [0, 3, 0, 0, 0],
    ),
    (Call::Write(0, 0, 0, 2, 0xA4), Return::Good, [0, 3, 0, 0, 0]),
    (Call::Remove(0, 0), Return::Done, [0, 3, 0, 0, 0]),
];

#[test]
fn promotions_and_squeezes_are_counted(rt: HostRuntime) {
    run(&rt, FOUR_GROUPS, &PROMOTED);
    run(&rt, FOUR_GROUPS, &SQUEEZED);
}
