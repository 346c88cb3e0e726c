// Disks of which no array is made.
use ar_core::{Array, StartFault};
use std::process::Abort;
use test_support::{FOUR_GROUPS, Shape, fused_disks};

// Asserts why no array is made. The disks are returned.
fn refuses<R: Abort + AllocGlobal>(rt: &R, shape: Shape, fault: StartFault) {
    let disks = fused_disks(rt.alloc(), shape).expect(rt, "memory");
    let (met, back) = Array::start(rt.alloc(), disks, 0)
        .err()
        .expect(rt, "no array");
    is_refused(
        rt,
        shape,
        met,
        fault,
        back.len() == usize::from(shape.disks),
    );
    drop(back);
}

fn is_refused(rt: &impl Abort, shape: Shape, met: StartFault, fault: StartFault, is_back: bool) {
    assert!(rt;
        met == fault && is_back,
        "{shape:?}: {met:?}, handed back: {is_back}"
    );
}

#[test]
fn starts_are_refused(rt: HostRuntime) {
    for (disks, extents, fault) in [
        (3, 4, StartFault::BadCount),
        (13, 4, StartFault::BadCount),
        (4, 0, StartFault::WrongSize),
        (4, 1_025, StartFault::WrongSize),
    ] {
        let shape = Shape {
            disks,
            extents,
            ..FOUR_GROUPS
        };
        refuses(&rt, shape, fault);
    }
}
