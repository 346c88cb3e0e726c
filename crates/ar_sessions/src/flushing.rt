// What a device server needs of a session's port beyond commands: that the cached blocks of a unit are written to the
// disks.
ghost use Rattle.std.specs.Prelude.{◌≡◌};
ghost use Rattle.ar_served.specs.Served.{DestagesPart};
ghost use Rattle.ar_sessions.specs.Flushing.{CommitsFlush, DestagedInParts, DestagedPart, FlushesLun};
ghost use Rattle.ar_sessions.specs.Flushing.{FlushesThenCommits, lasting_outcome};
ghost use Rattle.ar_target.specs.declared.flush_port.FlushOutcome.TheVariants as outcomes;

use crate::port::{lock_soon, wait_for_others};
use crate::timing::Stopwatch;
use crate::{LockPort, SeatDesk};
use ar_core::PartFlush;
use ar_disks::{Addr, Host, MAX_LUN};
use ar_latency::TimedOperation;
use ar_served::ServedArray;
use ar_target::{FlushOutcome, FlushPort};
use std::sync::ledger::Ledger;
use std::sync::{Mutex, Wait};
use std::time::Clock;

// A flush that is to be committed: its outcome, and for how many microseconds others are let in first.
#[derive(Clone, Copy)]
struct Flushed {
    outcome: FlushOutcome,
    pause: u64,
}

// A part of a unit that was flushed: what the array returned, and the pause before a commit if no part follows.
#[derive(Clone, Copy)]
struct Part {
    answer: PartFlush,
    pause: u64,
}

impl Part {
    // The flush whose last part this is.
    fn ended(self, outcome: FlushOutcome) -> Flushed
        ensures { result.outcome ≡ outcome }
    {
        Flushed {
            outcome,
            pause: self.pause,
        }
    }
}

impl<'a, R: Wait + Clock, A: ServedArray<L> + Drop, K: SeatDesk<L> + Drop, L: Ledger> FlushPort
    for LockPort<'a, R, A, K, L> {
    ghost use Rattle.ar_sessions.specs.Flushing.{FlushesSeat};

    ghost flushes = { λ old lun outcome new. FlushesSeat A.persists old lun outcome new };

    fn flush(&mut self, lun: u8) -> FlushOutcome {
        match &self.seat {
            Some(seat) => flush_timed(self.rt, self.array, self.desk, seat.host(), lun),
            None => unreachable!(),
        }
    }
}

// Destages a unit of a host, commits, and notes the time at the desk.
fn flush_timed<R: Wait + Clock, A: ServedArray<L> + Drop, K: SeatDesk<L> + Drop, L: Ledger>(
    rt: &R,
    array: &Mutex<A>,
    desk: &Mutex<K>,
    host: Host,
    lun: u8,
) -> FlushOutcome
    ensures { FlushesLun A.persists host lun result }
{
    let watch = Stopwatch::start(rt);
    let outcome = flush_locked(rt, array, host, lun);
    let time = watch.stop(rt, TimedOperation::SynchronizeCache);
    desk.lock(rt).note_time(time);
    outcome
}

// Destages a unit of a host, and commits.
fn flush_locked<R: Wait + Clock, A: ServedArray<L> + Drop, L: Ledger>(
    rt: &R,
    array: &Mutex<A>,
    host: Host,
    lun: u8,
) -> FlushOutcome
    ensures { FlushesLun A.persists host lun result }
{
    if lun > MAX_LUN {
        return FlushOutcome::NoUnit;
    }
    flush_at(rt, array, Addr { host, lun })
}

// Destages the unit at an address, and commits under the lock after a pause in which others flush theirs.
fn flush_at<R: Wait + Clock, A: ServedArray<L> + Drop, L: Ledger>(
    rt: &R,
    array: &Mutex<A>,
    addr: Addr,
) -> FlushOutcome
    ensures { FlushesThenCommits A.persists addr result }
{
    let flushed = flush_parts(rt, array, addr);
    wait_for_others(rt, flushed.pause);
    commit_locked(rt, array, flushed.outcome)
}

// Destages the unit at an address part by part, each under the lock, which is free in between: a unit may have 512 MiB
// of cached blocks, and a part has 4 MiB at most. A thread that waits for the lock gets it after a few parts, since one
// that has missed it twice has it left to those that wait.
fn flush_parts<R: Wait, A: ServedArray<L> + Drop, L: Ledger>(
    rt: &R,
    array: &Mutex<A>,
    addr: Addr,
) -> Flushed
    ensures { DestagedInParts addr result.outcome }
{
    let mut first = 0;
    'parts: loop {
        let part = flush_once(rt, array, addr, first);
        match part.answer {
            PartFlush::More(next) => first = next,
            PartFlush::Done => return part.ended(FlushOutcome::Done),
            PartFlush::Absent => return part.ended(FlushOutcome::NoUnit),
            PartFlush::Broken => return part.ended(FlushOutcome::ArrayFailed),
        }
    }
}

// Destages a part of the unit at an address under the lock.
fn flush_once<R: Wait, A: ServedArray<L> + Drop, L: Ledger>(
    rt: &R,
    array: &Mutex<A>,
    addr: Addr,
    first: u32,
) -> Part
    ensures { DestagedPart addr first result.answer }
{
    flush_with::<A, L>(&mut array.lock(rt), addr, first)
}

// Destages a part of the unit at an address. What was done is still to be committed.
fn flush_with<A: ServedArray<L>, L: Ledger>(array: &mut A, addr: Addr, first: u32) -> Part
    ensures destages { DestagesPart (A.state array.old) addr first result.answer (A.state array.new) }
{
    let answer = array.flush_part(addr, first);
    Part {
        answer,
        pause: array.commit_pause(),
    }
}

// Commits what was done to the store under the lock.
fn commit_locked<R: Wait, A: ServedArray<L> + Drop, L: Ledger>(
    rt: &R,
    array: &Mutex<A>,
    outcome: FlushOutcome,
) -> FlushOutcome
    ensures { CommitsFlush A.persists outcome result }
{
    commit_with::<A, L>(&mut lock_soon(rt, array), outcome)
}

// Commits what was done to the store, and returns the outcome of a flush or, where that has failed, that it has.
fn commit_with<A: ServedArray<L>, L: Ledger>(array: &mut A, outcome: FlushOutcome) -> FlushOutcome
    ensures same { A.state array.new ≡ A.state array.old }
    ensures commits { CommitsFlush A.persists outcome result }
    ensures lasts { result ≡ outcomes.Done → A.lasts array.new }
{
    let lasts = array.commit();
    lasting_outcome(lasts, outcome)
}

// The outcome of a flush, or that the array has failed where its store has.
fn lasting_outcome(lasts: bool, outcome: FlushOutcome) -> FlushOutcome
    ensures { result ≡ lasting_outcome lasts outcome }
{
    if lasts {
        outcome
    } else {
        FlushOutcome::ArrayFailed
    }
}
