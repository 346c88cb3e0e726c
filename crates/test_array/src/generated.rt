// Drawn events, answered by arrays as by plain lists, which share no code with them.
use crate::calls::{is_in, play};
use crate::first_run::done_at_once;
use ar_core::{Array, Balance, Class, Event, Health, Outcome, OutcomeOf};
use ar_disks::FuseDisk;
use std::process::Abort;
use test_support::{
    Answer, Call, FOUR_GROUPS, Kind, Return, Row, Run, Shape, agrees, event_of, kind_of_work,
};

/// The drawn events before a disk is lost, while it is out, and after another is put in its place.
const EVENTS: u32 = 2_500;

/// The drawn events that an array is given at once.
const AT_ONCE: u32 = 20_000;

/// How often each kind of answer comes among these at least.
const WANTED: u32 = 100;

/// The room of four disks of sixteen small extents: six blocks for each group but one.
pub const ROOM: u32 = 6 * 15;

/// The room of four disks of four small extents.
const LITTLE_ROOM: u32 = 6 * 3;

/// The room that a group of small extents brings.
const GROUP_ROOM: u32 = 6;

/// How the events of a run are drawn.
#[derive(Clone, Copy, Debug)]
struct Draws {
    seed: u64,
    has_discards: bool,
}

impl Draws {
    fn run<R: AllocGlobal>(self, rt: &R, room: u32) -> Run {
        let mut run = Run::new(rt.alloc(), self.seed, room);
        run.has_discards = self.has_discards;
        run
    }
}

/// How many blocks more units may have after an event.
pub fn gain_of(outcome: &Outcome<FuseDisk>) -> u32 {
    match outcome {
        OutcomeOf::Balance(Balance::Formed(_)) => GROUP_ROOM,
        _ => 0,
    }
}

/// Asserts that an array answered as plain lists did.
pub fn is_answered(rt: &impl Abort, outcome: &Outcome<FuseDisk>, wanted: &Answer) {
    assert!(rt; agrees(outcome, wanted), "{outcome:?} for {wanted:?}");
}

/// Asserts the room of a new array.
pub fn has_room(rt: &impl Abort, shape: Shape, room: u32, wanted: u32) {
    assert!(rt; room == wanted, "room for {room} blocks: {shape:?}");
}

// Draws events, and has the array do each.
fn agree<R: Abort + AllocGlobal>(rt: &R, run: &mut Run, array: &mut Array<FuseDisk>) {
    for _ in 0..EVENTS {
        let (ask, wanted) = run.next(None).expect(rt, "memory");
        let outcome = array.step(rt.alloc(), event_of(ask).expect(rt, "memory"));
        is_answered(rt, &outcome, &wanted);
        run.lists.gain(gain_of(&outcome));
        drop(outcome);
        drop(wanted);
    }
}

// Whether blocks stand in groups of both kinds.
fn has_both_levels<R: Abort + AllocGlobal>(rt: &R, array: &Array<FuseDisk>) -> bool {
    let groups = array.groups(rt.alloc()).expect(rt, "memory");
    let mut has_mirrored = false;
    let mut has_parity = false;
    for group in groups.as_slice() {
        has_mirrored |= group.class == Class::Mirrored;
        has_parity |= group.class == Class::Parity;
    }
    drop(groups);
    has_mirrored && has_parity
}

const OUT: [Row; 1] = [(Call::DiskOut(1), Return::Done)];

/// A new disk in the place of the one that was taken out, and another.
const TWO_DISKS: [Row; 2] = [
    (Call::Replace(1), Return::Done),
    (Call::AddDisk, Return::Done),
];

// A run of drawn events on an array, a third of the way through which a disk is taken out; after the second third
// another is put in its place, and one more is added, so that a rebuild and then balancing go on between the rest. Says
// whether groups of both kinds stored blocks when the disk failed.
fn with_a_loss<R: Abort + AllocGlobal>(
    rt: &R,
    shape: Shape,
    run: &mut Run,
    array: &mut Array<FuseDisk>,
) -> bool {
    agree(rt, run, array);
    let has_both = has_both_levels(rt, array);
    play(rt, shape, array, &[&OUT]);
    agree(rt, run, array);
    is_in(rt, shape, array.health(), Health::Out(1));
    play(rt, shape, array, &[&TWO_DISKS]);
    agree(rt, run, array);
    is_in(rt, shape, array.health(), Health::Whole);
    has_both
}

fn run_with_a_loss<R: Abort + AllocGlobal>(
    rt: &R,
    shape: Shape,
    draws: Draws,
    room: u32,
    array: &mut Array<FuseDisk>,
) -> bool {
    has_room(rt, shape, array.free_room(), room);
    let mut run = draws.run(rt, room);
    let has_both = with_a_loss(rt, shape, &mut run, array);
    drop(run);
    has_both
}

fn run_on<R: Abort + AllocGlobal>(rt: &R, shape: Shape, draws: Draws, room: u32) -> bool {
    let mut array = shape.array(rt.alloc()).expect(rt, "an array");
    let has_both = run_with_a_loss(rt, shape, draws, room, &mut array);
    drop(array);
    has_both
}

const PLAIN: Draws = Draws {
    seed: 1,
    has_discards: false,
};

/// (By seed 1 the crowded array stores no block with parity when its disk is lost.)
const WITH_DISCARDS: Draws = Draws {
    seed: 2,
    has_discards: true,
};

#[test]
fn drawn_events_are_answered_as_by_plain_lists(rt: HostRuntime) {
    for cache in [0, 2, 64] {
        run_on(&rt, sixteen_extents(cache), PLAIN, ROOM);
    }
}

#[test]
fn drawn_discards_are_answered_as_by_plain_lists(rt: HostRuntime) {
    for cache in [0, 2, 64] {
        run_on(&rt, sixteen_extents(cache), WITH_DISCARDS, ROOM);
    }
}

/// Arrays with room for many units.
pub fn sixteen_extents(cache: u16) -> Shape {
    Shape {
        extents: 16,
        cache,
        ..FOUR_GROUPS
    }
}

// Both levels are reached, or the runs would say nothing of one of them.
fn run_crowded<R: Abort + AllocGlobal>(rt: &R, draws: Draws) {
    for cache in [0, 2] {
        let shape = Shape {
            cache,
            ..FOUR_GROUPS
        };
        is_crowded(rt, shape, draws, run_on(rt, shape, draws, LITTLE_ROOM));
    }
}

fn is_crowded(rt: &impl Abort, shape: Shape, draws: Draws, has_both: bool) {
    assert!(rt; has_both, "{draws:?}: {shape:?}");
}

#[test]
fn drawn_events_are_answered_so_on_a_crowded_array(rt: HostRuntime) {
    run_crowded(&rt, PLAIN);
}

#[test]
fn drawn_discards_are_answered_so_on_a_crowded_array(rt: HostRuntime) {
    run_crowded(&rt, WITH_DISCARDS);
}

// The events of a run with what plain lists answer to them.
fn draw_all(
    rt: &impl Abort,
    run: &mut Run,
    events: &mut Vec<Event<FuseDisk>>,
    answers: &mut Vec<Answer>,
) {
    for _ in 0..AT_ONCE {
        let (ask, answer) = run.next(None).expect(rt, "memory");
        let event = event_of(ask).expect(rt, "memory");
        answers.push(answer).ok().expect(rt, "memory");
        events.push(event).ok().expect(rt, "memory");
    }
}

fn outcomes<R: Abort + AllocGlobal>(
    rt: &R,
    run: &mut Run,
    array: &mut Array<FuseDisk>,
    answers: &mut Vec<Answer>,
) -> Vec<Outcome<FuseDisk>> {
    let mut events = Vec::new(rt.alloc());
    draw_all(rt, run, &mut events, answers);
    done_at_once(rt, array, events)
}

fn are_answered(
    rt: &impl Abort,
    run: &mut Run,
    outcomes: &[Outcome<FuseDisk>],
    answers: &[Answer],
) {
    assert!(rt; outcomes.len() == answers.len(), "{}", outcomes.len());
    for (outcome, wanted) in outcomes.iter().zip(answers) {
        is_answered(rt, outcome, wanted);
        if *wanted == Answer::Open {
            run.tally.add(kind_of_work(outcome));
        }
    }
}

// A run that never met an answer would say nothing of it.
fn each_kind_came(rt: &impl Abort, shape: Shape, run: &Run) {
    let flaw = run.tally.flaw(WANTED, shape.cache > 0);
    assert!(rt; flaw.is_none(), "{flaw:?}: {shape:?}");
    let discards = run.tally.count(Kind::Discarded);
    assert!(rt;
        (discards >= WANTED) == run.has_discards,
        "{discards} discards: {shape:?}"
    );
}

fn run_at_once<R: Abort + AllocGlobal>(
    rt: &R,
    shape: Shape,
    draws: Draws,
    array: &mut Array<FuseDisk>,
) {
    let mut run = draws.run(rt, ROOM);
    let mut answers = Vec::new(rt.alloc());
    let outcomes = outcomes(rt, &mut run, array, &mut answers);
    are_answered(rt, &mut run, &outcomes, &answers);
    each_kind_came(rt, shape, &run);
    drop(outcomes);
    drop(answers);
    drop(run);
}

fn many_at_once<R: Abort + AllocGlobal>(rt: &R, has_discards: bool) {
    let draws = Draws {
        seed: 2,
        has_discards,
    };
    for cache in [0, 2] {
        let shape = sixteen_extents(cache);
        let mut array = shape.array(rt.alloc()).expect(rt, "an array");
        run_at_once(rt, shape, draws, &mut array);
        drop(array);
    }
}

#[test]
fn many_events_are_answered_so_in_one_run(rt: HostRuntime) {
    many_at_once(&rt, false);
}

#[test]
fn many_discards_are_answered_so_in_one_run(rt: HostRuntime) {
    many_at_once(&rt, true);
}
