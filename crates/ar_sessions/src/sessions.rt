// A thread for each connection. The ends are returned in the order in which the door opened the connections, and each
// is that of a session over the connection's own two streams.
ghost use Rattle.std.specs.Prelude.{◌≡◌, ◌≢◌, ◌+◌, ◌<◌, ◌≤◌, true, IfOk, OnOk, OnErr, vec_len, vec_capacity, length};
ghost use Rattle.std.specs.List.{AllZip};
ghost use Rattle.std.specs.VecDeque.{deque_len, deque_capacity};
ghost use Rattle.ar_cache.specs.Backing.{InTurn};
ghost use Rattle.ar_sessions.specs.Ends.{IsServedOver, IsPromised, GivesBack, LeavesOff, IsBegun, Becomes};
ghost use Rattle.ar_sessions.specs.Ends.{ConnectionEnds, EndOf};

use crate::notes::{note_end, note_start};
use crate::{Desk, LockPort, Receipt, run_background};
use ar_doors::{Door, Refusals};
use ar_frames::{EndReason, Gate, SessionEnd, Sink, Source, serve_gated};
use ar_served::ServedArray;
use log::Log;
use std::alloc::Global;
use std::collections::VecDeque;
use std::marker::PhantomData;
use std::snapshot::Snapshot;
use std::sync::atomic::{AtomicBool, Ordering};
use std::sync::ledger::Ledger;
use std::sync::{Mutex, Wait};
use std::thread;
use std::thread::{Promise, PromisedHandle, Scope, Threads};
use std::time::Clock;

/// How a connection ended.
#[derive(Clone, Copy, Debug, PartialEq, Eq)]
pub enum ConnectionEnd {
    /// With its session. A connection that couldn't be opened counts as a session whose first read faulted.
    Served(SessionEnd),
    /// No thread could be started for it.
    NoThread,
}

/// Out of memory, or the thread for the background maintenance couldn't be started.
#[derive(Clone, Copy, Debug, PartialEq, Eq)]
pub struct NoMemory;

/// The state that all sessions share.
#[derive(Drop)]
pub struct Shared<'a, R: Wait, A: Drop, L: Ledger, G: Gate> {
    pub rt: &'a R,
    pub alloc: Global,
    pub array: &'a Mutex<A>,
    pub desk: &'a Mutex<Desk<L>>,
    pub gate: &'a G,
    pub refusals: Refusals,
}

/// A connection, with the state that its session shares with the others.
#[derive(Drop)]
pub struct Connection<'a, R: Wait, A: Drop, L: Ledger, G: Gate, S: Source + Drop, W: Sink + Drop> {
    pub(crate) shared: &'a Shared<'a, R, A, L, G>,
    // Its number among all connections, from 1.
    pub(crate) number: u64,
    pub(crate) reader: S,
    pub(crate) writer: W,
}

// The promise of a session's thread: it returns the end of a session at an array `A` over these streams, in the states
// in which it was given them, and the receipt for the session's seat.
#[derive(Drop)]
struct AsServed<A, L, S: Source, W: Sink> {
    of: PhantomData<(A, L)>,
    reader: Snapshot<S>,
    writer: Snapshot<W>,
}

impl<A: ServedArray<L>, L: Ledger, S: Source, W: Sink> Promise<(SessionEnd, Option<Receipt>)>
    for AsServed<A, L, S, W> {
    ghost use Rattle.ar_sessions.specs.Ends.{GivesBack};

    ghost kept_by = { λ promise ended. GivesBack A.stores A.persists (S.state promise.reader.value)
        (W.state promise.writer.value) ended.0 ended.1 };
}

// The handle of a session's thread.
type Handle<A, L, S, W> = PromisedHandle<(SessionEnd, Option<Receipt>), AsServed<A, L, S, W>>;

// A connection that has a thread, couldn't be opened, or got no thread.
#[derive(Drop)]
enum Pending<H> {
    Served(H),
    Unopened,
    NoThread,
}

// The threads to join and their ends, both empty, with capacity for `left` connections.
#[derive(Drop)]
struct JoinList<H> {
    pending: VecDeque<Pending<H>>,
    ends: Vec<ConnectionEnd>,
    left: usize,
    ghost none_pending: { deque_len pending ≡ 0 },
    ghost none_ended: { vec_len ends ≡ 0 },
    ghost pending_room: { left ≤ deque_capacity pending },
    ghost ends_room: { left ≤ vec_capacity ends },
}

/// Serves each connection that `door` opens in a thread of its own. Returns the door and their ends, in the order in
/// which they were opened. `gate` observes each command. At `NoMemory` no connection was opened, and the door is
/// unchanged.
pub fn run_sessions<
    R: Threads + Wait + Clock + Log + Sync,
    A: ServedArray<L> + Drop + Send,
    L: Ledger + Send + Sync,
    O: Door + Drop,
    G: Gate + Sync,
>(
    rt: &R,
    alloc: Global,
    door: O,
    array: &Mutex<A>,
    desk: &Mutex<Desk<L>>,
    gate: &G,
) -> (O, Result<Vec<ConnectionEnd>, NoMemory>)
    ensures count { IfOk result.1 (λ ends. vec_len ends ≡ O.to_come door) }
    // One end for each connection, in the order in which the door opened them, or couldn't.
    ensures ends { IfOk result.1 (λ ends.
        InTurn (ConnectionEnds O.opens (IsServedOver A.stores A.persists O.Reader.state O.Writer.state)) ends.items door
        result.0) }
    ensures opened { OnOk result.1 (O.to_come result.0 ≡ 0) }
    ensures refused { OnErr result.1 (result.0 ≡ door) }
{
    let Ok(join_list) = JoinList::new(alloc, door.left()) else {
        return (door, Err(NoMemory));
    };
    let state = Shared {
        rt,
        alloc,
        array,
        desk,
        gate,
        refusals: Refusals::new(rt),
    };
    let shared = &state;
    let (door, ends) = thread::scope(
        thread::scope_env(),
        rt,
        move |scope| -> (O, Vec<ConnectionEnd>)
            requires { O.to_come door ≡ join_list.left }
            ensures { (O.to_come result.0 ≡ 0)
                × (vec_len result.1 ≡ join_list.left)
                × InTurn (ConnectionEnds O.opens (IsServedOver A.stores A.persists O.Reader.state O.Writer.state))
                result.1.items
                door result.0 }
        {
            let mut door = door;
            let ends = serve_all(scope, shared, &mut door, join_list);
            (door, ends)
        },
    );
    (door, Ok(ends))
}

/// Serves connections as `run_sessions` does, beside a thread that runs background maintenance until all have ended. At
/// `NoMemory`, which also means that this thread couldn't be started, no connection was opened.
pub fn run_beside_background<
    R: Threads + Wait + Clock + Log + Sync,
    A: ServedArray<L> + Drop + Send,
    L: Ledger + Send + Sync,
    O: Door + Drop,
    G: Gate + Sync,
>(
    rt: &R,
    alloc: Global,
    door: O,
    array: &Mutex<A>,
    desk: &Mutex<Desk<L>>,
    gate: &G,
) -> (O, Result<Vec<ConnectionEnd>, NoMemory>)
    ensures count { IfOk result.1 (λ ends. vec_len ends ≡ O.to_come door) }
    // One end for each connection, in the order in which the door opened them, or couldn't.
    ensures ends { IfOk result.1 (λ ends.
        InTurn (ConnectionEnds O.opens (IsServedOver A.stores A.persists O.Reader.state O.Writer.state)) ends.items door
        result.0) }
    ensures opened { OnOk result.1 (O.to_come result.0 ≡ 0) }
    ensures refused { OnErr result.1 (result.0 ≡ door) }
{
    let stop = AtomicBool::new(false);
    let flag = &stop;
    thread::scope(
        thread::scope_env(),
        rt,
        move |scope| -> (O, Result<Vec<ConnectionEnd>, NoMemory>)
            ensures { IfOk result.1 (λ ends. (vec_len ends ≡ O.to_come door)
                × InTurn (ConnectionEnds O.opens (IsServedOver A.stores A.persists O.Reader.state O.Writer.state))
                ends.items door
                result.0)
                × OnOk result.1 (O.to_come result.0 ≡ 0)
                × OnErr result.1 (result.0 ≡ door) }
        {
            if start_background(scope, rt, array, flag).is_err() {
                return (door, Err(NoMemory));
            }
            let served = run_sessions(rt, alloc, door, array, desk, gate);
            flag.store(true, Ordering::SeqCst);
            served
        },
    )
}

// Starts the thread of the background maintenance.
fn start_background<
    's,
    E,
    R: Wait + Clock + Sync,
    A: ServedArray<L> + Drop + Send,
    L: Ledger + Send + Sync + 's,
>(
    scope: &'s Scope<'s, E>,
    rt: &'s R,
    array: &'s Mutex<A>,
    stop: &'s AtomicBool,
) -> Result<(), NoMemory> {
    match scope.spawn(move || run_background(rt, array, stop)) {
        Ok(_worker) => Ok(()),
        Err(_) => Err(NoMemory),
    }
}

// Starts a thread for each connection, and joins all of them.
fn serve_all<
    's,
    E,
    R: Threads + Wait + Clock + Log + Sync,
    A: ServedArray<L> + Drop + Send,
    L: Ledger + Send + Sync,
    O: Door,
    G: Gate + Sync,
>(
    scope: &'s Scope<'s, E>,
    shared: &'s Shared<'s, R, A, L, G>,
    door: &mut O,
    join_list: JoinList<Handle<A, L, O::Reader, O::Writer>>,
) -> Vec<ConnectionEnd>
where
    O::Reader: 's,
    O::Writer: 's,
    requires { O.to_come door.old ≡ join_list.left }
    ensures count { vec_len result ≡ join_list.left }
    ensures ends { InTurn (ConnectionEnds O.opens (IsServedOver A.stores A.persists O.Reader.state O.Writer.state))
        result.items
        door.old door.new }
    ensures opened { O.to_come door.new ≡ 0 }
{
    let JoinList {
        mut pending,
        ends,
        left,
    } = join_list;
    for _ in 0..left {
        let number = (pending.len() as u64).saturating_add(1);
        pending.push_back_reserved(open_next(scope, shared, number, door));
    }
    join_all(shared.rt, pending, ends)
}

// Waits for the next connection, and starts its thread. The connection has a number, from 1.
fn open_next<
    's,
    E,
    R: Threads + Wait + Clock + Log + Sync,
    A: ServedArray<L> + Drop + Send,
    L: Ledger + Send + Sync,
    O: Door,
    G: Gate + Sync,
>(
    scope: &'s Scope<'s, E>,
    shared: &'s Shared<'s, R, A, L, G>,
    number: u64,
    door: &mut O,
) -> Pending<Handle<A, L, O::Reader, O::Writer>>
where
    O::Reader: 's,
    O::Writer: 's,
    requires { 0 < O.to_come door.old }
    ensures count { O.to_come door.new + 1 ≡ O.to_come door.old }
    ensures becomes { Becomes O.opens
        (λ handle. IsPromised A.stores A.persists O.Reader.state O.Writer.state handle.promise)
        (IsServedOver A.stores A.persists O.Reader.state O.Writer.state) door.old result door.new }
{
    let Some((reader, writer)) = door.accept() else {
        return Pending::Unopened;
    };
    let connection = Connection {
        shared,
        number,
        reader,
        writer,
    };
    begin::<E, R, A, L, O, G, O::Reader, O::Writer>(scope, connection)
}

// Starts the thread of a door's connection.
fn begin<
    's,
    E,
    R: Wait + Clock + Log + Sync,
    A: ServedArray<L> + Drop + Send,
    L: Ledger + Send + Sync,
    O: Door<Reader = S, Writer = W>,
    G: Gate + Sync,
    S: Source + Send + Drop + 's,
    W: Sink + Send + Drop + 's,
>(
    scope: &'s Scope<'s, E>,
    connection: Connection<'s, R, A, L, G, S, W>,
) -> Pending<Handle<A, L, S, W>>
    requires one { O.are_one connection.reader connection.writer ≡ true }
    ensures begun { IsBegun (λ handle. (handle.promise.reader.value ≡ connection.entry.reader)
        × (handle.promise.writer.value ≡ connection.entry.writer)) result }
{
    let promise = AsServed::<A, L, S, W> {
        of: PhantomData,
        reader: Snapshot::of(&connection.reader),
        writer: Snapshot::of(&connection.writer),
    };
    let session = move || -> (SessionEnd, Option<Receipt>)
        ensures { GivesBack A.stores A.persists (S.state connection.entry.reader) (W.state connection.entry.writer)
            result.0 result.1 }
    {
        let (end, receipt, _reader, _writer) = connection.serve_logged();
        (end, receipt)
    };
    match scope.spawn_with(promise, session) {
        Ok(handle) => Pending::Served(handle),
        Err(_) => Pending::NoThread,
    }
}

// Joins the threads, in order.
fn join_all<R: Threads, A: ServedArray<L>, L: Ledger, S: Source, W: Sink>(
    rt: &R,
    mut pending: VecDeque<Pending<Handle<A, L, S, W>>>,
    mut ends: Vec<ConnectionEnd>,
) -> Vec<ConnectionEnd>
    requires none { vec_len ends ≡ 0 }
    requires room { deque_len pending ≤ vec_capacity ends }
    ensures count { vec_len result ≡ deque_len pending }
    ensures order { AllZip (EndOf (λ handle. IsPromised A.stores A.persists S.state W.state handle.promise))
        pending.items result.items }
{
    while let Some(next) = pending.pop_front() {
        ends.push_reserved(end_of(rt, next));
    }
    ends
}

// Waits for the end of a connection.
fn end_of<R: Threads, A: ServedArray<L>, L: Ledger, S: Source, W: Sink>(
    rt: &R,
    pending: Pending<Handle<A, L, S, W>>,
) -> ConnectionEnd
    ensures { EndOf (λ handle. IsPromised A.stores A.persists S.state W.state handle.promise) pending result }
{
    match pending {
        Pending::Served(handle) => {
            let (end, _receipt) = handle.join(rt);
            ConnectionEnd::Served(end)
        }
        Pending::Unopened => ConnectionEnd::Served(SessionEnd {
            frames: 0,
            reason: EndReason::Read,
        }),
        Pending::NoThread => ConnectionEnd::NoThread,
    }
}

impl<H: Drop> JoinList<H> {
    // Allocates capacity for `left` connections.
    fn new(alloc: Global, left: usize) -> Result<JoinList<H>, NoMemory>
        ensures { IfOk result (λ join_list. join_list.left ≡ left) }
    {
        let Ok(pending) = VecDeque::with_capacity(alloc, left) else {
            return Err(NoMemory);
        };
        let Ok(ends) = Vec::with_capacity(alloc, left) else {
            return Err(NoMemory);
        };
        Ok(JoinList {
            pending,
            ends,
            left,
        })
    }
}

// The port that a stream's peer connects from, over TCP.
fn peer_of<S: Source>(reader: &S) -> Option<u16> {
    match reader.progress() {
        Some(progress) => progress.peer(),
        None => None,
    }
}

impl<
    'a,
    R: Wait + Clock + Log,
    A: ServedArray<L> + Drop,
    L: Ledger,
    G: Gate,
    S: Source + Drop,
    W: Sink + Drop,
> Connection<'a, R, A, L, G, S, W> {
    /// Serves the connection's session as `serve` does, and logs its start and its end.
    pub fn serve_logged(self) -> (SessionEnd, Option<Receipt>, S, W)
        ensures { LeavesOff A.stores A.persists (S.state self.entry.reader) (S.state result.2)
            (W.state self.entry.writer)
            (W.state result.3) result.0 result.1 }
    {
        let (rt, number) = (self.shared.rt, self.number);
        let began = note_start(rt, number, peer_of(&self.reader));
        let (end, receipt, reader, writer) = self.run_session();
        note_end(rt, number, began, &receipt, end);
        (end, receipt, reader, writer)
    }

    // Serves the connection's session, and returns its seat to the desk for a receipt. The streams are returned as the
    // session left them, so that they are dropped, and so closed, only once the seat is back.
    fn run_session(self) -> (SessionEnd, Option<Receipt>, S, W)
        ensures { LeavesOff A.stores A.persists (S.state self.entry.reader) (S.state result.2)
            (W.state self.entry.writer)
            (W.state result.3) result.0 result.1 }
    {
        let Connection {
            shared,
            number: _,
            mut reader,
            mut writer,
        } = self;
        let port = LockPort::new(shared.rt, shared.alloc, shared.array, shared.desk);
        let mut port = port.coming_from(peer_of(&reader));
        let end = serve_gated(
            shared.alloc,
            &mut reader,
            &mut writer,
            &mut port,
            shared.gate,
        );
        (end, port.finish(), reader, writer)
    }
}
