// A second disk lost while the first is rebuilt.
use crate::calls::{Answer, Call, Step, play};
use crate::fixtures::{FOUR_GROUPS, Shape, WHOLE};
use crate::mirrors::WRITTEN_WITHOUT_A_DISK;
use Answer::{Broken, Byte, Done, Finished, Now, Rebuilt};
use Call::{Get, Put, Rebuild, Replace};
use ar_extents::Health;

// Disk 1 passes this many calls. Before the rebuild it gets three: two writes and a read.
fn fused(calls: u64) -> Shape {
    Shape {
        fuses: [WHOLE, calls, WHOLE, WHOLE, WHOLE],
        ..FOUR_GROUPS
    }
}

// It is lost in the extent that is rebuilt from it.
const SURVIVOR_LOST: [Step; 6] = [
    (Replace(0, 4, WHOLE), Done),
    (Rebuild, Broken),
    (Call::Health, Now(Health::Broken)),
    (Rebuild, Broken),
    (Get(0), Broken),
    (Put(0, 0xCC), Broken),
];

// The two rows of the extent were read by then, and no other extent has rows to be read.
const SURVIVOR_READ: [Step; 6] = [
    (Replace(0, 4, WHOLE), Done),
    (Rebuild, Rebuilt(0, 3)),
    (Rebuild, Rebuilt(1, 2)),
    (Rebuild, Rebuilt(2, 1)),
    (Rebuild, Finished),
    (Get(0), Byte(0xBB)),
];

#[test]
fn a_survivor_lost_at_the_first_row_breaks_the_disks(rt: HostRuntime) {
    play(
        &rt,
        rt.alloc(),
        fused(3),
        &[&WRITTEN_WITHOUT_A_DISK, &SURVIVOR_LOST],
    );
}

#[test]
fn a_survivor_lost_at_the_last_row_breaks_the_disks(rt: HostRuntime) {
    play(
        &rt,
        rt.alloc(),
        fused(4),
        &[&WRITTEN_WITHOUT_A_DISK, &SURVIVOR_LOST],
    );
}

#[test]
fn a_survivor_that_passes_both_rows_is_enough(rt: HostRuntime) {
    play(
        &rt,
        rt.alloc(),
        fused(5),
        &[&WRITTEN_WITHOUT_A_DISK, &SURVIVOR_READ],
    );
}
