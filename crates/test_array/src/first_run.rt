// Events that an array does in one run.
use crate::calls::is_met;
use ar_core::{Array, Event, Outcome};
use ar_disks::FuseDisk;
use ar_scsi::Sense;
use std::process::Abort;
use test_support::{Call, FOUR_GROUPS, Return, Row, Shape, event, returned};

/// A unit is made, written, read, removed and made again, and has zeros then. At the other address no unit is.
pub const FIRST_RUN: [Row; 7] = [
    (Call::Make(0, 0, 4), Return::Done),
    (Call::Write(0, 0, 1, 1, 0xAA), Return::Good),
    (Call::Read(0, 0, 0), Return::Sectors(0x00, 0xAA)),
    (Call::Remove(0, 0), Return::Done),
    (Call::Make(0, 0, 4), Return::Done),
    (Call::Read(0, 0, 0), Return::Sectors(0x00, 0x00)),
    (
        Call::Ready(1, 0),
        Return::Check(Sense::LOGICAL_UNIT_NOT_SUPPORTED),
    ),
];

/// Appends the event of a call.
pub fn push_event<R: Abort + AllocGlobal>(
    rt: &R,
    shape: Shape,
    events: &mut Vec<Event<FuseDisk>>,
    call: Call,
) {
    let event = event(rt.alloc(), shape, call).expect(rt, "memory");
    events.push(event).ok().expect(rt, "memory");
}

fn events<R: Abort + AllocGlobal>(rt: &R, shape: Shape) -> Vec<Event<FuseDisk>> {
    let mut events = Vec::new(rt.alloc());
    for (call, _) in &FIRST_RUN {
        push_event(rt, shape, &mut events, *call);
    }
    events
}

fn run_on<R: Abort + AllocGlobal>(rt: &R, shape: Shape, array: &mut Array<FuseDisk>) {
    let outcomes = done_at_once(rt, array, events(rt, shape));
    are_met(rt, shape, &outcomes);
    drop(outcomes);
}

/// What an array returns to events that it is given at once.
pub fn done_at_once<R: Abort + AllocGlobal>(
    rt: &R,
    array: &mut Array<FuseDisk>,
    events: Vec<Event<FuseDisk>>,
) -> Vec<Outcome<FuseDisk>> {
    array
        .run(rt.alloc(), events)
        .ok()
        .expect(rt, "memory for the run")
}

fn are_met(rt: &impl Abort, shape: Shape, outcomes: &[Outcome<FuseDisk>]) {
    assert!(rt; outcomes.len() == FIRST_RUN.len(), "{shape:?}");
    for (number, (call, wanted)) in FIRST_RUN.iter().enumerate() {
        is_met(
            rt,
            shape,
            number,
            *call,
            returned(&outcomes[number]),
            *wanted,
        );
    }
}

#[test]
fn a_run_returns_what_each_event_does(rt: HostRuntime) {
    for cache in [0, 4] {
        let shape = Shape {
            cache,
            ..FOUR_GROUPS
        };
        let mut array = shape.array(rt.alloc()).expect(&rt, "an array");
        run_on(&rt, shape, &mut array);
        drop(array);
    }
}
