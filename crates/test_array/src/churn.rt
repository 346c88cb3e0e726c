// Drawn events while disks fault, are taken out, replaced, rebuilt and added, one of them down at a time. In the end
// every block is read back without each of the disks in turn.
use crate::calls::{is_in, is_met, play, step};
use crate::generated::{gain_of, has_room, is_answered};
use ar_core::{Array, Balance, EventOf, Health, Outcome, OutcomeOf, Rebuild};
use ar_disks::FuseDisk;
use rand::rngs::SmallRng;
use rand::{RngExt, SeedableRng};
use std::alloc::Global;
use std::process::Abort;
use test_support::{Answer, Ask, Call, Command, FOUR_GROUPS, Place, Return, Run, Shape, event_of};

/// The events of a run.
const EVENTS: u32 = 5_000;

/// Disks of six extents.
const SIX_EXTENTS: Shape = Shape {
    extents: 6,
    ..FOUR_GROUPS
};

/// The most disks of an array.
const MOST_DISKS: u8 = 12;

/// How many disks there are, and which of them has a fuse, if one has: no other is ever lost before it is replaced.
#[derive(Clone, Copy, Debug)]
struct Disks {
    count: u8,
    weak: Option<u8>,
}

// Asserts what is answered to what an array is asked, which plain lists say.
fn answers<R: Abort + AllocGlobal>(
    rt: &R,
    run: &mut Run,
    array: &mut Array<FuseDisk>,
    ask: Ask,
    wanted: &Answer,
) {
    let event = event_of(ask).expect(rt, "memory");
    let outcome = array.step(rt.alloc(), event);
    is_served(rt, &outcome, wanted, array.health());
    run.lists.gain(gain_of(&outcome));
    drop(outcome);
}

// Steps of balancing and rebuilds may be given up where a disk is lost.
fn is_served(rt: &impl Abort, outcome: &Outcome<FuseDisk>, wanted: &Answer, health: Health) {
    match outcome {
        OutcomeOf::Balance(Balance::GivenUp) | OutcomeOf::Rebuild(Rebuild::GivenUp) => {}
        _ => is_answered(rt, outcome, wanted),
    }
    assert!(rt; health != Health::Broken, "{outcome:?}");
}

// Takes a disk out.
fn take_out<R: Abort + AllocGlobal>(rt: &R, disk: u8, array: &mut Array<FuseDisk>) {
    play(
        rt,
        SIX_EXTENTS,
        array,
        &[&[(Call::DiskOut(disk), Return::Done)]],
    );
}

// Replaces a disk by one that is lost after a number of calls.
fn replace<R: Abort + AllocGlobal>(rt: &R, disk: u8, calls: u64, array: &mut Array<FuseDisk>) {
    let new = SIX_EXTENTS.new_disk(rt.alloc(), calls).expect(rt, "memory");
    let met = step(rt, array, EventOf::Replace(disk, new));
    is_met(rt, SIX_EXTENTS, 0, Call::Replace(disk), met, Return::Done);
}

// Lets a disk go, come or be replaced, now and then.
fn disturb<R: Abort + AllocGlobal>(
    rt: &R,
    rng: &mut SmallRng,
    disks: &mut Disks,
    array: &mut Array<FuseDisk>,
) {
    match array.health() {
        Health::Out(disk) => {
            if rng.random_ratio(1, 40) {
                replace_by_any(rt, rng, disk, disks, array);
            }
        }
        Health::Whole => {
            if rng.random_ratio(1, 200) {
                lose_any(rt, rng, disks, array);
            }
        }
        _ => {}
    }
    if disks.count < MOST_DISKS && rng.random_ratio(1, 1_000) {
        play(rt, SIX_EXTENTS, array, &[&[(Call::AddDisk, Return::Done)]]);
        disks.count = disks.count.saturating_add(1);
    }
}

// The disk that comes is sound, or is itself lost some time.
fn replace_by_any<R: Abort + AllocGlobal>(
    rt: &R,
    rng: &mut SmallRng,
    disk: u8,
    disks: &mut Disks,
    array: &mut Array<FuseDisk>,
) {
    if rng.random_ratio(1, 2) {
        disks.weak = None;
        replace(rt, disk, u64::MAX, array);
    } else {
        disks.weak = Some(disk);
        replace(rt, disk, rng.random_range(0u64..600), array);
    }
}

fn lose_any<R: Abort + AllocGlobal>(
    rt: &R,
    rng: &mut SmallRng,
    disks: &mut Disks,
    array: &mut Array<FuseDisk>,
) {
    let any = rng.random_range(0u8..disks.count.max(1));
    take_out(rt, disks.weak.unwrap_or(any), array);
}

// Puts a sound disk in the place of one, and rebuilds it whole.
fn renew<R: Abort + AllocGlobal>(rt: &R, disk: u8, array: &mut Array<FuseDisk>) {
    take_out(rt, disk, array);
    replace(rt, disk, u64::MAX, array);
    for _ in 0..SIX_EXTENTS.extents {
        step(rt, array, EventOf::Rebuild);
    }
    is_in(rt, SIX_EXTENTS, array.health(), Health::Whole);
}

// Makes all disks sound.
fn settle<R: Abort + AllocGlobal>(rt: &R, disks: Disks, array: &mut Array<FuseDisk>) {
    match (array.health(), disks.weak) {
        (Health::Out(disk) | Health::Rebuilding(disk, _), _) | (_, Some(disk)) => {
            renew(rt, disk, array);
        }
        _ => {}
    }
}

/// Reads all blocks of all units that there may be.
pub fn read_all<R: Abort + AllocGlobal>(rt: &R, run: &mut Run, array: &mut Array<FuseDisk>) {
    for host in 0..4 {
        for lun in 0..8 {
            read_unit(rt, run, array, Place { host, lun });
        }
    }
}

// Reads every two sectors of a unit of up to 22. A read past its end is refused by both.
fn read_unit<R: Abort + AllocGlobal>(
    rt: &R,
    run: &mut Run,
    array: &mut Array<FuseDisk>,
    place: Place,
) {
    for block in 0..11u8 {
        read(rt, run, array, place, block * 2);
    }
}

fn read<R: Abort + AllocGlobal>(
    rt: &R,
    run: &mut Run,
    array: &mut Array<FuseDisk>,
    place: Place,
    lba: u8,
) {
    let ask = read_of_two(rt.alloc(), place, lba);
    let wanted = run.lists.step(&ask).expect(rt, "memory");
    answers(rt, run, array, ask, &wanted);
    drop(wanted);
}

// READ (10) of two sectors.
fn read_of_two(alloc: Global, place: Place, lba: u8) -> Ask {
    Ask::Command(Command {
        place,
        cdb: [0x28, 0, 0, 0, 0, lba, 0, 0, 2, 0, 0, 0, 0, 0, 0, 0],
        data: Vec::new(alloc),
    })
}

// Draws events and lets disks come and go, and then reads all blocks without each disk in turn.
fn live<R: Abort + AllocGlobal>(
    rt: &R,
    shape: Shape,
    rng: &mut SmallRng,
    run: &mut Run,
    array: &mut Array<FuseDisk>,
) {
    let mut disks = Disks {
        count: shape.disks,
        weak: None,
    };
    for _ in 0..EVENTS {
        disturb(rt, rng, &mut disks, array);
        ask_next(rt, run, array);
    }
    settle(rt, disks, array);
    for disk in 0..disks.count {
        take_out(rt, disk, array);
        read_all(rt, run, array);
        renew(rt, disk, array);
    }
}

/// Draws an event, and asserts what is answered.
pub fn ask_next<R: Abort + AllocGlobal>(rt: &R, run: &mut Run, array: &mut Array<FuseDisk>) {
    let (ask, wanted) = run.next(None).expect(rt, "memory");
    answers(rt, run, array, ask, &wanted);
    drop(wanted);
}

// As many groups as the disks' extents make, of six blocks each, but for one that stays free.
fn room_of(shape: Shape) -> u32 {
    (u32::from(shape.disks) * u32::from(shape.extents) / 4).saturating_sub(1) * 6
}

fn run_on<R: Abort + AllocGlobal>(rt: &R, shape: Shape, seed: u64, array: &mut Array<FuseDisk>) {
    let room = room_of(shape);
    has_room(rt, shape, array.free_room(), room);
    let mut rng = SmallRng::seed_from_u64(seed);
    let mut run = Run::new(rt.alloc(), seed, room);
    live(rt, shape, &mut rng, &mut run, array);
    drop(run);
}

fn come_and_go<R: Abort + AllocGlobal>(rt: &R, disks: u8, cache: u16, seed: u64) {
    let shape = Shape {
        disks,
        cache,
        ..SIX_EXTENTS
    };
    let mut array = shape.array(rt.alloc()).expect(rt, "an array");
    run_on(rt, shape, seed, &mut array);
    drop(array);
}

#[test]
fn four_disks_come_and_go(rt: HostRuntime) {
    come_and_go(&rt, 4, 0, 1);
}

#[test]
fn six_disks_come_and_go(rt: HostRuntime) {
    come_and_go(&rt, 6, 2, 2);
}

#[test]
fn nine_disks_come_and_go(rt: HostRuntime) {
    come_and_go(&rt, 9, 0, 3);
}

#[test]
fn twelve_disks_come_and_go(rt: HostRuntime) {
    come_and_go(&rt, 12, 64, 4);
}
