// A session's port to the shared array. Each command is executed under the array's lock, between one state of the array
// and the next.
ghost use Rattle.std.specs.Prelude.{◌≡◌, ◌≤◌, None, count_by, true};
ghost use Rattle.ar_frames.specs.Frame.{IsReply};
ghost use Rattle.ar_served.specs.History.{is_command};
ghost use Rattle.ar_served.specs.Served.{acknowledges, asks_commit};
ghost use Rattle.ar_sessions.specs.Desk.{receipt_for};
ghost use Rattle.ar_sessions.specs.Port.{AnswersLasting, AsksArray, SettlesReply, lasting_reply};

use crate::refusing::refuse_counted;
use crate::timing::Stopwatch;
use crate::{Desk, Receipt, SeatDesk, SeatSlot};
use ar_disks::{Host, SECTOR_LEN};
use ar_frames::{Login, Port};
use ar_latency::TimedOperation;
use ar_scsi::{Command, Reply, Sense, decode};
use ar_served::{Seat, ServedArray};
use bytes::Bytes;
use std::alloc::Global;
use std::hint::spin_loop;
use std::marker::Model;
use std::sync::ledger::Ledger;
use std::sync::{Mutex, MutexGuard, Wait};
use std::thread;
use std::time::{Clock, Duration};

/// How often a command looks at a held lock before its thread sleeps, and the pauses between two looks: some 50 µs, in
/// which three other hosts' commands of 64 KiB are executed. To sleep and be woken takes a thread about as long.
const LOOKS: u32 = 64;

const PAUSES: u32 = 16;

/// The least sectors of a READ for which memory is lent, 16 KiB, and the most, 1 MiB, which each session may hold while
/// it waits for the array.
const LEAST_LENT: u16 = 32;

const MOST_LENT: u16 = 2_048;

/// A session's port to an array behind a lock. A login takes the host's seat from the desk, which has a lock of its
/// own; a command holds the array's lock while it is executed.
#[derive(Drop)]
pub struct LockPort<'a, R: Wait, A: Drop, K: Drop, L: Ledger> {
    pub(crate) rt: &'a R,
    alloc: Global,
    pub(crate) array: &'a Mutex<A>,
    pub(crate) desk: &'a Mutex<K>,
    // The port of 127.0.0.1 that its session comes from, if it is to be noted at the desk.
    peer: Option<u16>,
    pub(crate) seat: Option<Seat<L>>,
}

impl<'a, R: Wait, A: Drop, K: Drop, L: Ledger> Model for LockPort<'a, R, A, K, L> {
    ghost use Rattle.std.specs.Prelude.{Option};
    ghost use Rattle.ar_served.specs.Seat.{SeatState};

    ghost Value = { Option SeatState };

    ghost view = { λ port. port.seat };
}

impl<'a, R: Wait, A: Drop, K: Drop, L: Ledger> LockPort<'a, R, A, K, L> {
    /// A port without a seat: no host is logged in.
    pub fn new(
        rt: &'a R,
        alloc: Global,
        array: &'a Mutex<A>,
        desk: &'a Mutex<K>,
    ) -> LockPort<'a, R, A, K, L>
        ensures { result ≡ None }
    {
        LockPort {
            rt,
            alloc,
            array,
            desk,
            peer: None,
            seat: None,
        }
    }

    /// The same port of a session that comes from this port of 127.0.0.1, which the desk notes at its login.
    pub fn coming_from(self, peer: Option<u16>) -> LockPort<'a, R, A, K, L>
        ensures { result ≡ self.entry }
    {
        LockPort { peer, ..self }
    }
}

impl<'a, R: Wait, A: Drop, L: Ledger> LockPort<'a, R, A, Desk<L>, L> {
    /// Returns the seat to the desk, if the port has one, and returns the receipt for it.
    pub fn finish(self) -> Option<Receipt>
        ensures { result ≡ receipt_for self.entry }
    {
        let seat = self.seat?;
        Some(self.desk.lock(self.rt).give(seat))
    }
}

// A command that the array has executed: its reply and, if that waits for a commit, for how many microseconds others
// are let in first.
#[derive(Drop)]
pub(crate) struct Asked {
    pub reply: Reply,
    pub pause: Option<u64>,
}

impl<'a, R: Wait + Clock, A: ServedArray<L> + Drop, K: SeatDesk<L> + Drop, L: Ledger> Port
    for LockPort<'a, R, A, K, L> {
    ghost use Rattle.std.specs.Prelude.{is_some};
    ghost use Rattle.ar_sessions.specs.Port.{TakesSeat, AsksArray, AsksSeat};
    ghost use Rattle.ar_sessions.specs.Refusing.{RefusesSeat};

    ghost has_login = { λ port. is_some port };

    ghost logins = { λ old host answer new. TakesSeat K.finds old host answer new };

    ghost commands = { λ old lun cdb payload reply new. AsksSeat (AsksArray A.stores A.persists) old lun cdb payload
        reply new };

    ghost refuses = { λ old cdb new. RefusesSeat old cdb new };

    fn login(&mut self, host: u8) -> Login {
        let Some(host) = Host::new(host) else {
            return Login::BadHost;
        };
        let mut slot = SeatSlot::new();
        if !self.desk.lock(self.rt).lend(host, &mut slot) {
            return Login::InUse;
        }
        if let Some(peer) = self.peer {
            self.desk.lock(self.rt).note_peer(host, peer);
        }
        self.seat = slot.into_seat();
        Login::Taken
    }

    fn command(&mut self, lun: u8, cdb: &[u8; 16], payload: Bytes) -> Reply {
        match &mut self.seat {
            Some(seat) => ask_counted(
                self.rt, self.alloc, self.array, self.desk, seat, lun, cdb, payload,
            ),
            None => unreachable!(),
        }
    }

    fn refuse(&mut self, cdb: &[u8; 16]) -> Reply {
        match &self.seat {
            Some(seat) => refuse_counted(self.rt, self.array, self.desk, seat.host(), cdb),
            None => unreachable!(),
        }
    }
}

// Executes a command, and then counts it at the desk, with its time.
fn ask_counted<R: Wait + Clock, A: ServedArray<L> + Drop, K: SeatDesk<L> + Drop, L: Ledger>(
    rt: &R,
    alloc: Global,
    array: &Mutex<A>,
    desk: &Mutex<K>,
    seat: &mut Seat<L>,
    lun: u8,
    cdb: &[u8; 16],
    payload: Bytes,
) -> Reply
    ensures asks { AsksArray A.stores A.persists seat.old lun cdb.now payload result seat.new }
    ensures reply { IsReply result }
{
    let watch = Stopwatch::start(rt);
    let (host, sent) = (seat.host(), payload.len());
    let memory = memory_for(alloc, cdb);
    let reply = ask_locked(rt, array, memory, seat, lun, cdb, payload);
    let time = watch.stop(rt, TimedOperation::of(cdb));
    desk.lock(rt).count_command(host, sent, &reply, time);
    reply
}

// Executes a command under the lock. A commit that its answer waits for is made under it later, and others share it.
fn ask_locked<R: Wait + Clock, A: ServedArray<L> + Drop, L: Ledger>(
    rt: &R,
    array: &Mutex<A>,
    memory: Option<Vec<u8>>,
    seat: &mut Seat<L>,
    lun: u8,
    cdb: &[u8; 16],
    payload: Bytes,
) -> Reply
    ensures asks { AsksArray A.stores A.persists seat.old lun cdb.now payload result seat.new }
    ensures reply { IsReply result }
{
    let asked = ask_once(rt, array, memory, seat, lun, cdb, payload);
    match asked.pause {
        Some(pause) => settle_later(rt, array, seat, pause, cdb, asked.reply),
        None => asked.reply,
    }
}

// Settles the reply to a seat's command under the lock, after a pause in microseconds in which others send theirs.
fn settle_later<R: Wait + Clock, A: ServedArray<L> + Drop, L: Ledger>(
    rt: &R,
    array: &Mutex<A>,
    seat: &mut Seat<L>,
    pause: u64,
    cdb: &[u8; 16],
    reply: Reply,
) -> Reply
    requires { IsReply reply }
    ensures seat { seat.new ≡ seat.old }
    ensures settles { SettlesReply A.persists (acknowledges cdb.now reply) reply result }
    ensures reply { IsReply result }
{
    wait_for_others(rt, pause);
    settle_seat::<A, L>(&mut lock_soon(rt, array), seat, cdb, reply)
}

// Settles the reply to a command of a seat. A reply that waits for a commit has all commands of the seat in what lasts.
fn settle_seat<A: ServedArray<L>, L: Ledger>(
    array: &mut A,
    seat: &mut Seat<L>,
    cdb: &[u8; 16],
    reply: Reply,
) -> Reply
    requires { IsReply reply }
    ensures same { A.state array.new ≡ A.state array.old }
    ensures seat { seat.new ≡ seat.old }
    ensures counted { seat.old.commands ≤ count_by is_command (A.state array.new).history }
    ensures settles { SettlesReply A.persists (acknowledges cdb.now reply) reply result }
    ensures lasts { asks_commit cdb.now result ≡ true → A.lasts array.new }
    ensures reply { IsReply result }
{
    array.audit_seat(seat);
    settle_with::<A, L>(array, cdb, reply)
}

// Executes a command under the lock, once.
fn ask_once<R: Wait, A: ServedArray<L> + Drop, L: Ledger>(
    rt: &R,
    array: &Mutex<A>,
    memory: Option<Vec<u8>>,
    seat: &mut Seat<L>,
    lun: u8,
    cdb: &[u8; 16],
    payload: Bytes,
) -> Asked
    ensures asks { AsksArray A.stores A.persists seat.old lun cdb.now payload result.reply seat.new }
    ensures reply { IsReply result.reply }
{
    ask_with::<A, L>(&mut lock_soon(rt, array), memory, seat, lun, cdb, payload)
}

// Executes a command on the array, for which memory may be lent. Where the store has failed, its reply is replaced,
// unless it waits for a commit.
fn ask_with<A: ServedArray<L>, L: Ledger>(
    array: &mut A,
    memory: Option<Vec<u8>>,
    seat: &mut Seat<L>,
    lun: u8,
    cdb: &[u8; 16],
    payload: Bytes,
) -> Asked
    ensures answers { AnswersLasting A.stores A.persists (A.state array.old) seat.old lun cdb.now payload result.reply
        (A.state array.new) seat.new }
    ensures lasts { result.pause ≡ None → asks_commit cdb.now result.reply ≡ true → A.lasts array.new }
    ensures reply { IsReply result.reply }
{
    lend(array, memory);
    let reply = array.ask(seat, lun, cdb, payload);
    settle_now::<A, L>(array, cdb, reply)
}

/// Settles a reply, unless it waits for a commit.
pub(crate) fn settle_now<A: ServedArray<L>, L: Ledger>(
    array: &mut A,
    cdb: &[u8; 16],
    reply: Reply,
) -> Asked
    requires { IsReply reply }
    ensures same { A.state array.new ≡ A.state array.old }
    ensures settles { SettlesReply A.persists (acknowledges cdb.now reply) reply result.reply }
    ensures lasts { result.pause ≡ None → asks_commit cdb.now result.reply ≡ true → A.lasts array.new }
    ensures reply { IsReply result.reply }
{
    match pause_for::<A, L>(&*array, cdb, &reply) {
        Some(pause) => Asked {
            reply,
            pause: Some(pause),
        },
        None => Asked {
            reply: settle_with::<A, L>(array, cdb, reply),
            pause: None,
        },
    }
}

// For how long a reply that waits for a commit lets others in first. None: it waits for none.
fn pause_for<A: ServedArray<L>, L: Ledger>(
    array: &A,
    cdb: &[u8; 16],
    reply: &Reply,
) -> Option<u64> {
    if array.awaits_commit(cdb, reply) {
        Some(array.commit_pause())
    } else {
        None
    }
}

/// Settles the reply to a command under the lock, after a pause in microseconds in which others send theirs.
pub(crate) fn settle_locked<R: Wait + Clock, A: ServedArray<L> + Drop, L: Ledger>(
    rt: &R,
    array: &Mutex<A>,
    pause: u64,
    cdb: &[u8; 16],
    reply: Reply,
) -> Reply
    requires { IsReply reply }
    ensures settles { SettlesReply A.persists (acknowledges cdb.now reply) reply result }
    ensures reply { IsReply result }
{
    wait_for_others(rt, pause);
    settle_with::<A, L>(&mut lock_soon(rt, array), cdb, reply)
}

/// Waits for some microseconds, if there are any.
pub(crate) fn wait_for_others<R: Clock>(rt: &R, micros: u64) {
    if micros > 0 {
        thread::sleep(rt, Duration::from_micros(micros));
    }
}

// Settles the reply to a command: commits what was done, if it has to wait for that. Where the store has failed, the
// reply is replaced.
fn settle_with<A: ServedArray<L>, L: Ledger>(array: &mut A, cdb: &[u8; 16], reply: Reply) -> Reply
    requires { IsReply reply }
    ensures same { A.state array.new ≡ A.state array.old }
    ensures settles { SettlesReply A.persists (acknowledges cdb.now reply) reply result }
    ensures lasts { asks_commit cdb.now result ≡ true → A.lasts array.new }
    ensures reply { IsReply result }
{
    let lasts = array.settle(cdb, &reply);
    lasting_reply(lasts, reply)
}

// The reply to a command or, where the store has failed to keep it, HARDWARE ERROR in its place.
fn lasting_reply(lasts: bool, reply: Reply) -> Reply
    ensures { result ≡ lasting_reply lasts reply }
{
    if lasts {
        reply
    } else {
        Reply::check(Sense::INTERNAL_TARGET_FAILURE)
    }
}

// Lends memory to the array, if there is any.
fn lend<A: ServedArray<L>, L: Ledger>(array: &mut A, memory: Option<Vec<u8>>)
    ensures { A.state array.new ≡ A.state array.old }
{
    if let Some(memory) = memory {
        array.lend_memory(memory);
    }
}

// Memory for the data of a long READ, allocated and touched before the array is locked. None for other commands, and if
// it can't be allocated: the array allocates its own then.
fn memory_for(alloc: Global, cdb: &[u8; 16]) -> Option<Vec<u8>> {
    match decode(cdb) {
        Ok(Command::Read { count, .. }) if LEAST_LENT <= count && count <= MOST_LENT => {
            vec![in alloc; 0; usize::from(count) * SECTOR_LEN].ok()
        }
        _ => None,
    }
}

/// Takes the lock. While another thread holds it, this one looks again for a while before it sleeps.
pub(crate) fn lock_soon<'m, R: Wait, A>(rt: &R, array: &'m Mutex<A>) -> MutexGuard<'m, A> {
    for _ in 0..LOOKS {
        if let Some(guard) = array.try_lock() {
            return guard;
        }
        for _ in 0..PAUSES {
            spin_loop();
        }
    }
    array.lock(rt)
}
