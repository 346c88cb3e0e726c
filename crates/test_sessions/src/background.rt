// Work in the background, which shows in the number of free groups.
use crate::gates::{Held, door, is_answered_meanwhile};
use crate::rig::{Play, Rig, is_done, plays};
use ar_core::Health;
use ar_disks::FuseDisk;
use ar_frames::{Login, Port};
use ar_history::Kept;
use ar_scsi::{Reply, Status};
use ar_served::OperationOf;
use ar_sessions::{LockPort, run_background, run_beside_background};
use log::Log;
use std::alloc::Global;
use std::process::Abort;
use std::sync::atomic::{AtomicBool, Ordering};
use std::sync::ledger::Ledger;
use std::sync::{Mutex, Wait};
use std::thread;
use std::thread::{Scope, Threads};
use std::time::Clock;
use test_support::{FOUR_GROUPS, Shape, filled};

/// How often the array is looked at before the work counts as never done.
const LOOKS: u32 = 10_000_000;

// WRITE (10) of the first two sectors, a whole block.
const WRITE: [u8; 16] = [0x2A, 0, 0, 0, 0, 0, 0, 0, 2, 0, 0, 0, 0, 0, 0, 0];

#[test]
fn a_block_is_flushed_and_a_new_disk_is_used(rt: HostRuntime) {
    let shape = Shape {
        cache: 4,
        ..FOUR_GROUPS
    };
    plays(&rt, shape, Play::Work, &[1, 0, 0, 0]);
}

/// A host writes a block, which the work in the background flushes; of a disk that is added it forms a group.
pub fn works<L: Ledger + Send + Sync, R: Threads + Wait + Clock + Abort + Sync>(
    rt: &R,
    alloc: Global,
    shape: Shape,
    rig: &Rig<L>,
) {
    rig.make(rt, 0);
    write(rt, alloc, rig);
    work(rt, alloc, shape, &rig.kept);
}

// A host writes a block, which the cache takes.
fn write<L: Ledger, R: Wait + Clock + Abort>(rt: &R, alloc: Global, rig: &Rig<L>) {
    let payload = filled(alloc, 2, 0xAA).expect(rt, "memory");
    let mut port = LockPort::new(rt, alloc, &rig.kept, &rig.desk);
    if let Login::Taken = port.login(0) {
        let reply = port.command(0, &WRITE, payload);
        was_good(rt, &reply);
        drop(reply);
    }
    let _receipt = port.finish();
}

fn was_good(rt: &impl Abort, reply: &Reply) {
    assert!(rt; reply.status == Status::Good, "{reply:?}");
}

// The block reaches the disks, where a group is taken for it. Of a disk that is added a group is formed.
fn work<L: Ledger + Send + Sync, R: Threads + Wait + Clock + Abort + Sync>(
    rt: &R,
    alloc: Global,
    shape: Shape,
    kept: &Mutex<Kept<FuseDisk, L>>,
) {
    let stop = AtomicBool::new(false);
    let flag = &stop;
    thread::scope(thread::scope_env(), rt, |scope| {
        let started = scope.spawn(move || run_background(rt, kept, flag));
        assert!(rt; started.is_ok(), "a thread");
        comes_to(rt, kept, 3);
        add(rt, alloc, shape, kept);
        comes_to(rt, kept, 4);
        flag.store(true, Ordering::SeqCst);
    });
}

// This many groups are free in the end.
fn comes_to<L: Ledger, R: Wait + Abort>(rt: &R, kept: &Mutex<Kept<FuseDisk, L>>, groups: u32) {
    for _ in 0..LOOKS {
        if kept.lock(rt).array().free_groups() == groups {
            return;
        }
        thread::yield_now();
    }
    assert!(rt; false, "{groups} groups are free in the end");
}

fn add<L: Ledger, R: Wait + Abort>(
    rt: &R,
    alloc: Global,
    shape: Shape,
    kept: &Mutex<Kept<FuseDisk, L>>,
) {
    let disk = shape.new_disk(alloc, u64::MAX).expect(rt, "memory");
    let is_added = is_done(rt, kept, OperationOf::AddDisk(disk));
    assert!(rt; is_added, "the disk is added");
}

/// Extents of each disk of an array that is rebuilt.
const EXTENTS: u16 = 16;

/// Writes after which a rebuild counts as starved: far more than the pauses of its steps leave time for.
const WRITES: u32 = 400_000;

#[test]
fn a_rebuild_ends_while_a_host_writes(rt: HostRuntime) {
    for cache in [0, 4] {
        let shape = Shape {
            cache,
            extents: EXTENTS,
            ..FOUR_GROUPS
        };
        plays(&rt, shape, Play::Rebuild, &[]);
    }
}

/// A host writes without a pause, from before a disk is replaced until its rebuild has ended.
pub fn rebuilds<L: Ledger + Send + Sync, R: Threads + Wait + Clock + Abort + Sync>(
    rt: &R,
    alloc: Global,
    shape: Shape,
    rig: &Rig<L>,
) {
    rig.make(rt, 0);
    write(rt, alloc, rig);
    let disk = shape.new_disk(alloc, u64::MAX).expect(rt, "memory");
    let is_out = is_done(rt, &rig.kept, OperationOf::DiskOut(0));
    let is_replaced = is_done(rt, &rig.kept, OperationOf::Replace(0, disk));
    assert!(rt; is_out && is_replaced, "a disk is replaced");
    let stop = AtomicBool::new(false);
    let flag = &stop;
    thread::scope(thread::scope_env(), rt, |scope| {
        let started = scope.spawn(move || run_background(rt, &rig.kept, flag));
        assert!(rt; started.is_ok(), "a thread");
        write_until_whole(rt, alloc, rig);
        flag.store(true, Ordering::SeqCst);
    });
}

// The host's writes never leave a pause; the rebuild ends between them.
fn write_until_whole<L: Ledger, R: Wait + Clock + Abort>(rt: &R, alloc: Global, rig: &Rig<L>) {
    for _ in 0..WRITES {
        write(rt, alloc, rig);
        if is_whole(rt, &rig.kept) {
            return;
        }
    }
    assert!(rt; false, "the rebuild ends");
}

// Whether all disks are there, each of whose 16 extents was rebuilt in a step that was counted.
fn is_whole<L: Ledger, R: Wait + Abort>(rt: &R, kept: &Mutex<Kept<FuseDisk, L>>) -> bool {
    let kept = kept.lock(rt);
    let is_whole = matches!(kept.array().health(), Health::Whole);
    let steps = kept.counts().tasks.rebuilt;
    drop(kept);
    assert!(rt; !is_whole || steps == u64::from(EXTENTS), "{steps} steps");
    is_whole
}

#[test]
fn a_new_disk_is_used_while_a_session_lasts(rt: HostRuntime) {
    plays(&rt, FOUR_GROUPS, Play::Last, &[1, 0, 0, 0]);
}

/// The session's one command is held. Meanwhile a disk is added, of which the work beside the session forms a group.
pub fn lasts<L: Ledger + Send + Sync, R: Threads + Wait + Clock + Log + Abort + Sync>(
    rt: &R,
    alloc: Global,
    shape: Shape,
    rig: &Rig<L>,
) {
    rig.make(rt, 0);
    let gate = Held::new();
    let held = &gate;
    let door = door(rt, alloc, &[(0, 1)]);
    let (door, ends) = thread::scope(thread::scope_env(), rt, move |scope| {
        look_out(scope, rt, alloc, shape, &rig.kept, held);
        run_beside_background(rt, alloc, door, &rig.kept, &rig.desk, held)
    });
    drop(ends);
    drop(door);
    is_answered_meanwhile(rt, &gate);
}

// Starts a thread that adds the disk and looks for the group.
fn look_out<'s, E, L: Ledger + Send + Sync, R: Wait + Abort + Sync>(
    scope: &'s Scope<'s, E>,
    rt: &'s R,
    alloc: Global,
    shape: Shape,
    kept: &'s Mutex<Kept<FuseDisk, L>>,
    held: &'s Held,
) {
    let started = scope.spawn(move || look(rt, alloc, shape, kept, held));
    assert!(rt; started.is_ok(), "a thread that looks");
}

fn look<L: Ledger, R: Wait + Abort>(
    rt: &R,
    alloc: Global,
    shape: Shape,
    kept: &Mutex<Kept<FuseDisk, L>>,
    held: &Held,
) {
    is_begun(rt, &held.begun);
    add(rt, alloc, shape, kept);
    comes_to(rt, kept, 5);
    held.answered.store(true, Ordering::SeqCst);
}

// The command comes.
fn is_begun(rt: &impl Abort, begun: &AtomicBool) {
    for _ in 0..LOOKS {
        if begun.load(Ordering::SeqCst) {
            return;
        }
        thread::yield_now();
    }
    assert!(rt; false, "the command comes");
}
