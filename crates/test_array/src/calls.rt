// Plays tables of calls on arrays of which one disk may fault.
use ar_core::{Array, Event, Health};
use ar_disks::FuseDisk;
use ar_scsi::Sense;
use std::process::Abort;
use test_support::{Call, Return, Row, Shape, event, returned};

/// How a table ended.
#[derive(Clone, Copy)]
pub struct Ending {
    pub health: Health,
    /// The call by which the data were lost, if they were.
    pub lost_by: Option<Call>,
}

// What a call returns once the data are lost. GOOD of a TEST UNIT READY, a READ, a WRITE or a
// discard needs them.
fn where_lost(call: Call, wanted: Return) -> Return {
    match (call, wanted) {
        (
            Call::Ready(..) | Call::Read(..) | Call::Write(..) | Call::Unmap(..),
            Return::Good | Return::Sectors(..),
        ) => Return::Check(Sense::INTERNAL_TARGET_FAILURE),
        _ => wanted,
    }
}

/// Makes the calls of each part one after another, and asserts what they return.
pub fn play<R: Abort + AllocGlobal>(
    rt: &R,
    shape: Shape,
    array: &mut Array<FuseDisk>,
    parts: &[&[Row]],
) -> Ending {
    let mut lost_by = None;
    for rows in parts {
        for (number, row) in rows.iter().enumerate() {
            if is_lost_after(rt, shape, array, number, *row) && lost_by.is_none() {
                lost_by = Some(row.0);
            }
        }
    }
    Ending {
        health: array.health(),
        lost_by,
    }
}

fn is_lost_after<R: Abort + AllocGlobal>(
    rt: &R,
    shape: Shape,
    array: &mut Array<FuseDisk>,
    number: usize,
    (call, wanted): Row,
) -> bool {
    let met = make_call(rt, shape, array, call);
    let is_lost = array.health() == Health::Broken;
    let wanted = if is_lost {
        where_lost(call, wanted)
    } else {
        wanted
    };
    is_met(rt, shape, number, call, met, wanted);
    is_lost
}

/// Makes a call.
pub fn make_call<R: Abort + AllocGlobal>(
    rt: &R,
    shape: Shape,
    array: &mut Array<FuseDisk>,
    call: Call,
) -> Return {
    step(
        rt,
        array,
        event(rt.alloc(), shape, call).expect(rt, "memory"),
    )
}

/// Steps an event.
pub fn step<R: AllocGlobal>(rt: &R, array: &mut Array<FuseDisk>, event: Event<FuseDisk>) -> Return {
    let outcome = array.step(rt.alloc(), event);
    let met = returned(&outcome);
    drop(outcome);
    met
}

/// Asserts what a call returned, by the number of its row.
pub fn is_met(
    rt: &impl Abort,
    shape: Shape,
    number: usize,
    call: Call,
    met: Return,
    wanted: Return,
) {
    assert!(rt;
        met == wanted,
        "row {number}, {call:?} returns {met:?}, not {wanted:?}: {shape:?}"
    );
}

/// Asserts a health.
pub fn is_in(rt: &impl Abort, shape: Shape, health: Health, wanted: Health) {
    assert!(rt; health == wanted, "{health:?}, not {wanted:?}: {shape:?}");
}
