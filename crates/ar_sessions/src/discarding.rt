// What a device server needs of a session's port beyond commands: that sectors of a unit are discarded, and which
// blocks were written.
ghost use Rattle.std.specs.Prelude.{◌≡◌};
ghost use Rattle.ar_core.specs.Step.{addr_in};
ghost use Rattle.ar_frames.specs.Frame.{IsReply};
ghost use Rattle.ar_sessions.specs.Discarding.{DiscardedAtOneMoment, DiscardsLasting};
ghost use Rattle.ar_sessions.specs.Discarding.{LookedUpAtOneMoment, LooksUp, LooksUpLun, run_of};

use crate::port::{Asked, lock_soon, settle_locked, settle_now};
use crate::timing::Stopwatch;
use crate::{LockPort, SeatDesk};
use ar_core::Allocation;
use ar_disks::{Addr, Host, MAX_LUN};
use ar_latency::TimedOperation;
use ar_scsi::Reply;
use ar_served::ServedArray;
use ar_target::{BlockRun, DiscardPort};
use std::sync::ledger::Ledger;
use std::sync::{Mutex, Wait};
use std::time::Clock;

// A WRITE (10) of no blocks: GOOD to a discard waits for the store as GOOD to a WRITE without FORCE UNIT ACCESS does.
const WRITE: [u8; 16] = [0x2A, 0, 0, 0, 0, 0, 0, 0, 0, 0, 0, 0, 0, 0, 0, 0];

impl<'a, R: Wait + Clock, A: ServedArray<L> + Drop, K: SeatDesk<L> + Drop, L: Ledger> DiscardPort
    for LockPort<'a, R, A, K, L> {
    ghost use Rattle.ar_sessions.specs.Discarding.{DiscardsSeat, LooksUpSeat};

    ghost discards = { λ old lun lba count reply new. DiscardsSeat A.persists old lun lba count reply new };

    ghost runs = { λ old lun block most run new. LooksUpSeat old lun block most run new };

    fn discard(&mut self, lun: u8, lba: u64, count: u32) -> Reply {
        match &self.seat {
            Some(seat) => discard_timed(
                self.rt,
                self.array,
                self.desk,
                seat.host(),
                lun,
                lba,
                count,
            ),
            None => unreachable!(),
        }
    }

    fn run(&mut self, lun: u8, block: u32, most: u32) -> BlockRun {
        match &self.seat {
            Some(seat) => run_timed(
                self.rt,
                self.array,
                self.desk,
                seat.host(),
                lun,
                block,
                most,
            ),
            None => unreachable!(),
        }
    }
}

// Discards sectors of a host's LUN, and notes the time at the desk.
fn discard_timed<R: Wait + Clock, A: ServedArray<L> + Drop, K: SeatDesk<L> + Drop, L: Ledger>(
    rt: &R,
    array: &Mutex<A>,
    desk: &Mutex<K>,
    host: Host,
    lun: u8,
    lba: u64,
    count: u32,
) -> Reply
    ensures discarded { DiscardedAtOneMoment A.persists (addr_in host lun) lba count result }
    ensures reply { IsReply result }
{
    let watch = Stopwatch::start(rt);
    let reply = discard_locked(rt, array, host, lun, lba, count);
    let time = watch.stop(rt, TimedOperation::Other);
    desk.lock(rt).note_time(time);
    reply
}

// Discards sectors of a host's LUN under the lock.
fn discard_locked<R: Wait + Clock, A: ServedArray<L> + Drop, L: Ledger>(
    rt: &R,
    array: &Mutex<A>,
    host: Host,
    lun: u8,
    lba: u64,
    count: u32,
) -> Reply
    ensures discarded { DiscardedAtOneMoment A.persists (addr_in host lun) lba count result }
    ensures reply { IsReply result }
{
    let asked = discard_once(rt, array, host, lun, lba, count);
    match asked.pause {
        Some(pause) => settle_locked(rt, array, pause, &WRITE, asked.reply),
        None => asked.reply,
    }
}

// Discards sectors of a host's LUN under the lock, once.
fn discard_once<R: Wait, A: ServedArray<L> + Drop, L: Ledger>(
    rt: &R,
    array: &Mutex<A>,
    host: Host,
    lun: u8,
    lba: u64,
    count: u32,
) -> Asked
    ensures discarded { DiscardedAtOneMoment A.persists (addr_in host lun) lba count result.reply }
    ensures reply { IsReply result.reply }
{
    discard_with::<A, L>(&mut lock_soon(rt, array), host, lun, lba, count)
}

// Discards sectors of a host's LUN. Where the store has failed, the reply is replaced, unless it waits for a commit.
fn discard_with<A: ServedArray<L>, L: Ledger>(
    array: &mut A,
    host: Host,
    lun: u8,
    lba: u64,
    count: u32,
) -> Asked
    ensures discards { DiscardsLasting A.persists (A.state array.old) (addr_in host lun) lba count result.reply
        (A.state array.new) }
    ensures reply { IsReply result.reply }
{
    let reply = array.discard(host, lun, lba, count);
    settle_now::<A, L>(array, &WRITE, reply)
}

// Looks up blocks of a host's LUN, and notes the time at the desk.
fn run_timed<R: Wait + Clock, A: ServedArray<L> + Drop, K: SeatDesk<L> + Drop, L: Ledger>(
    rt: &R,
    array: &Mutex<A>,
    desk: &Mutex<K>,
    host: Host,
    lun: u8,
    block: u32,
    most: u32,
) -> BlockRun
    ensures { LooksUpLun host lun block most result }
{
    let watch = Stopwatch::start(rt);
    let run = run_locked(rt, array, host, lun, block, most);
    let time = watch.stop(rt, TimedOperation::Other);
    desk.lock(rt).note_time(time);
    run
}

// Looks up blocks of a host's LUN under the lock.
fn run_locked<R: Wait, A: ServedArray<L> + Drop, L: Ledger>(
    rt: &R,
    array: &Mutex<A>,
    host: Host,
    lun: u8,
    block: u32,
    most: u32,
) -> BlockRun
    ensures { LooksUpLun host lun block most result }
{
    if lun > MAX_LUN {
        return BlockRun {
            is_written: false,
            blocks: 0,
        };
    }
    run_at(rt, array, Addr { host, lun }, block, most)
}

// Looks up blocks of the unit at an address under the lock.
fn run_at<R: Wait, A: ServedArray<L> + Drop, L: Ledger>(
    rt: &R,
    array: &Mutex<A>,
    addr: Addr,
    block: u32,
    most: u32,
) -> BlockRun
    ensures { LookedUpAtOneMoment addr block most result }
{
    run_with::<A, L>(&lock_soon(rt, array), addr, block, most)
}

// Looks up blocks of the unit at an address.
fn run_with<A: ServedArray<L>, L: Ledger>(array: &A, addr: Addr, block: u32, most: u32) -> BlockRun
    ensures { LooksUp (A.state array.now) addr block most result }
{
    run_of(array.allocation(addr, block, most))
}

// A run as the device server has it.
fn run_of(allocation: Allocation) -> BlockRun
    ensures { result ≡ run_of allocation }
{
    BlockRun {
        is_written: allocation.is_written,
        blocks: allocation.blocks,
    }
}
