// One run of many events, with ample memory: none is returned, and each has its own outcome. That a run hands its
// events back is in its contract; that it does so only out of memory, no contract can say.
use crate::calls::is_met;
use crate::first_run::{done_at_once, push_event};
use ar_core::{Array, Event, Outcome};
use ar_disks::FuseDisk;
use std::process::Abort;
use test_support::{Call, FOUR_GROUPS, Return, Row, Shape, returned};

/// The events of the run.
const EVENTS: u32 = 10_000;

// An event and what it returns: a unit is made, and then a block of it is written and read in turn, each time with
// another byte.
fn row_at(number: u32) -> Row {
    if number == 0 {
        return (Call::Make(0, 0, 4), Return::Done);
    }
    let byte = ((number - 1) / 2 % 251) as u8;
    if number % 2 == 1 {
        (Call::Write(0, 0, 0, 2, byte), Return::Good)
    } else {
        (Call::Read(0, 0, 0), Return::Sectors(byte, byte))
    }
}

fn events<R: Abort + AllocGlobal>(rt: &R, shape: Shape) -> Vec<Event<FuseDisk>> {
    let mut events = Vec::new(rt.alloc());
    for number in 0..EVENTS {
        push_event(rt, shape, &mut events, row_at(number).0);
    }
    events
}

fn run_on<R: Abort + AllocGlobal>(rt: &R, shape: Shape, array: &mut Array<FuseDisk>) {
    let outcomes = done_at_once(rt, array, events(rt, shape));
    are_met(rt, shape, &outcomes);
    drop(outcomes);
}

fn are_met(rt: &impl Abort, shape: Shape, outcomes: &[Outcome<FuseDisk>]) {
    assert!(rt; outcomes.len() == EVENTS as usize, "{shape:?}");
    for (number, outcome) in outcomes.iter().enumerate() {
        let (call, wanted) = row_at(number as u32);
        is_met(rt, shape, number, call, returned(outcome), wanted);
    }
}

#[test]
fn a_run_of_many_events_hands_none_back(rt: HostRuntime) {
    let shape = FOUR_GROUPS;
    let mut array = shape.array(rt.alloc()).expect(&rt, "an array");
    run_on(&rt, shape, &mut array);
    drop(array);
}
