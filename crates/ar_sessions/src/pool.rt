// Threads that take turns at a door: one waits for the next connection, while the others serve theirs or wait for the
// door. So at most as many connections as threads are open at once, any number follow one another, and nothing grows.
ghost use Rattle.std.specs.Prelude.{◌≡◌};
ghost use Rattle.ar_sessions.specs.Ends.{GivesBack, HandlesNext, TakesNext};

use crate::notes::note_refusal;
use crate::sessions::{Connection, Shared};
use crate::{Desk, NoMemory, Receipt};
use ar_doors::{Door, Refusals};
use ar_frames::{Gate, NoGate, SessionEnd, Sink, Source};
use ar_served::ServedArray;
use log::Log;
use std::alloc::Global;
use std::sync::ledger::Ledger;
use std::sync::{Mutex, Wait};
use std::thread;
use std::thread::{Scope, Threads};
use std::time::Clock;

/// The most sessions that are open at once.
pub const MOST_AT_ONCE: u32 = 64;

/// A door that threads take turns at.
#[derive(Drop)]
pub struct SharedDoor<O: Door + Drop> {
    turn: Mutex<Numbered<O>>,
}

// A door, and the number of connections that it was asked for.
#[derive(Drop)]
struct Numbered<O: Door> {
    door: O,
    count: u64,
}

// What came of waiting at a door.
#[derive(Drop)]
enum Next<S, W> {
    // A connection: its number, from 1, and its streams.
    Opened(u64, S, W),
    // A connection that couldn't be opened.
    Unopened,
    // The door has no connection left, or is closed. It was not used.
    Closed,
}

/// What the threads of a pool do with the connections of a door. `E` is how a connection ended.
pub trait Handler<S, W, E> {
    /// How a connection over these streams, as they were when it was opened, may end.
    ghost ends: { Self → S → W → E → Type 0 };

    /// Serves a connection to its end. `number` counts the door's connections, from 1.
    fn handle(&self, number: u64, reader: S, writer: W) -> E
        ensures { ends self.now reader writer result };
}

/// What waits for the threads of a service.
pub trait Starter {
    /// Called once, when all threads are there, or not all of them could be started: then it has their doors closed.
    fn started(&self, are_all: bool);
}

/// Serves the connections that `door` opens, at most 64 at once. Returns once the door has none left, or is closed, and
/// all have ended. `starter` is called once all threads are there, or not all of them could be started (`NoMemory`).
pub fn run_pool<
    R: Threads + Wait + Clock + Log + Sync,
    A: ServedArray<L> + Drop + Send,
    L: Ledger + Send + Sync,
    O: Door + Drop + Send,
    B: Starter,
>(
    rt: &R,
    alloc: Global,
    door: O,
    array: &Mutex<A>,
    desk: &Mutex<Desk<L>>,
    starter: &B,
) -> Result<(), NoMemory> {
    let (door, gate) = (SharedDoor::new(door), NoGate);
    serve_in_turn(rt, alloc, &door, array, desk, &gate, starter)
}

// Serves the connections of a shared door, and returns once all have ended.
fn serve_in_turn<
    R: Threads + Wait + Clock + Log + Sync,
    A: ServedArray<L> + Drop + Send,
    L: Ledger + Send + Sync,
    O: Door + Drop + Send,
    B: Starter,
>(
    rt: &R,
    alloc: Global,
    door: &SharedDoor<O>,
    array: &Mutex<A>,
    desk: &Mutex<Desk<L>>,
    gate: &NoGate,
    starter: &B,
) -> Result<(), NoMemory> {
    let state = Shared {
        rt,
        alloc,
        array,
        desk,
        gate,
        refusals: Refusals::new(rt),
    };
    let shared = &state;
    thread::scope(
        thread::scope_env(),
        rt,
        move |scope| -> Result<(), NoMemory> {
            let started = start_pool(scope, rt, MOST_AT_ONCE, door, shared);
            starter.started(started.is_ok());
            started
        },
    )
}

/// Starts `most` threads that take turns at a door. Each ends once the door has no connection left, or is closed. At
/// `NoMemory` some may be there, but not all.
pub fn start_pool<
    's,
    E,
    R: Wait + Sync,
    O: Door + Drop + Send,
    T: Handler<O::Reader, O::Writer, End> + Sync,
    End: Drop + Send + 's,
>(
    scope: &'s Scope<'s, E>,
    rt: &'s R,
    most: u32,
    door: &'s SharedDoor<O>,
    handler: &'s T,
) -> Result<(), NoMemory> {
    for _ in 0..most {
        if scope.spawn(move || handle_each(rt, door, handler)).is_err() {
            return Err(NoMemory);
        }
    }
    Ok(())
}

// Handles one connection after another.
fn handle_each<R: Wait, O: Door + Drop, T: Handler<O::Reader, O::Writer, E>, E: Drop>(
    rt: &R,
    door: &SharedDoor<O>,
    handler: &T,
) {
    for _ in rt.forever() {
        match door.next(rt) {
            Next::Closed => break,
            next => drop(handle_next(handler, next)),
        }
    }
    door.close(rt);
}

// Handles a connection, if there is one, once and to its end.
fn handle_next<S: Drop, W: Drop, T: Handler<S, W, E>, E>(handler: &T, next: Next<S, W>) -> Option<E>
    ensures { HandlesNext (T.ends handler.now) next result }
{
    match next {
        Next::Opened(number, reader, writer) => Some(handler.handle(number, reader, writer)),
        Next::Unopened | Next::Closed => None,
    }
}

impl<
    'a,
    R: Wait + Clock + Log,
    A: ServedArray<L> + Drop,
    L: Ledger,
    G: Gate,
    S: Source + Drop,
    W: Sink + Drop,
> Handler<S, W, (SessionEnd, Option<Receipt>)> for Shared<'a, R, A, L, G> {
    ghost ends = { λ _ reader writer ended. GivesBack A.stores A.persists (S.state reader) (W.state writer) ended.0
        ended.1 };

    // Serves a host's session.
    fn handle(&self, number: u64, reader: S, writer: W) -> (SessionEnd, Option<Receipt>) {
        let connection = Connection {
            shared: self,
            number,
            reader,
            writer,
        };
        let (end, receipt, _reader, _writer) = connection.serve_logged();
        note_refusal(self.rt, &self.refusals, end);
        (end, receipt)
    }
}

impl<O: Door + Drop> SharedDoor<O> {
    /// A door by which nobody has come.
    pub fn new(door: O) -> SharedDoor<O> {
        SharedDoor {
            turn: Mutex::new(Numbered { door, count: 0 }),
        }
    }

    // Ends what the door still has, once it opens no more connections.
    fn close<R: Wait>(&self, rt: &R) {
        self.turn.lock(rt).door.close();
    }

    // Waits for the door, and at it for its next connection.
    fn next<R: Wait>(&self, rt: &R) -> Next<O::Reader, O::Writer> {
        self.turn.lock(rt).take_next()
    }
}

impl<O: Door> Numbered<O> {
    // Opens the door's next connection, unless it has none left or is closed.
    fn take_next(&mut self) -> Next<O::Reader, O::Writer>
        ensures { TakesNext O.opens self.old.door result self.new.door }
    {
        if self.door.is_closed() || self.door.left() == 0 {
            return Next::Closed;
        }
        self.count = self.count.saturating_add(1);
        match self.door.accept() {
            Some((reader, writer)) => Next::Opened(self.count, reader, writer),
            None => Next::Unopened,
        }
    }
}
