// The doors of a service at work: for hosts, and beside it, each with threads of its own, for operators, for HTTP
// clients and for initiators.
use ar_attached::IscsiPort;
use ar_control::{OperatorHandler, OperatorRoom, PendingStops};
use ar_controlled::ControlledArray;
use ar_conversation::OperatorEnd;
use ar_doors::Door;
use ar_frames::{Linked, PartsWrite, Sink, Source};
use ar_initiators::Targets;
use ar_iscsi::IscsiEnd;
use ar_monitoring::Monitor;
use ar_operated::OperatedArray;
use ar_plan::{SideDoors, TARGET_THREADS};
use ar_sessions::{Handler, NoMemory, SharedDoor, Starter, run_pool, start_pool};
use ar_watching::Watch;
use log::Log;
use std::alloc::{AllocError, Global};
use std::hash::RandomState;
use std::io::Read;
use std::sync::Wait;
use std::sync::ledger::Ledger;
use std::thread;
use std::thread::{Scope, Threads};
use std::time::Clock;

/// The threads at the operators' door: four may converse, and the fifth is there to refuse a fifth operator.
const OPERATOR_THREADS: u32 = 5;

/// The threads at the door of HTTP clients, and so the most that are answered at once.
const WATCH_THREADS: u32 = 8;

// A door beside the hosts', and what its threads do with a connection.
#[derive(Drop)]
struct SideDoor<O: Door + Drop, T> {
    door: SharedDoor<O>,
    handler: T,
}

// The doors beside the hosts' that are open.
type Sides<'s, O, T, W, I> = (
    &'s Option<SideDoor<O, T>>,
    &'s Option<SideDoor<O, W>>,
    &'s Option<SideDoor<O, I>>,
);

/// Serves the connections that the doors open, beside a thread that runs background maintenance, and returns once all
/// have ended. An operator's `stop` ends the service, and so does a hosts' door that closes. `starter` is called once
/// all threads of all doors are there. `NoMemory` means that one couldn't be started.
pub fn run_operated<
    R: Threads + Wait + Clock + Log + Sync,
    A: ControlledArray<L, M> + Drop + Send,
    L: Ledger + Send + Sync,
    M: Copy + Send + Sync,
    H: Door + Drop + Send,
    O: Door<Reader = Linked<S>, Writer = Linked<W>> + Drop + Send,
    S: Read + Send + Drop,
    W: PartsWrite + Send + Drop,
    B: Starter + Sync,
>(
    array: &OperatedArray<'_, R, A, L, M>,
    hosts: H,
    doors: SideDoors<O>,
    starter: &B,
) -> (PendingStops<Linked<S>, Linked<W>>, Result<(), NoMemory>) {
    let Ok(room) = OperatorRoom::new(array.alloc, OPERATOR_THREADS) else {
        return (PendingStops::none(array.alloc), Err(NoMemory));
    };
    let SideDoors {
        operators,
        watchers,
        initiators,
    } = doors;
    let Ok(initiators) = initiators_side(&*array, initiators) else {
        return (PendingStops::none(array.alloc), Err(NoMemory));
    };
    let operators = operators_side(&*array, operators, room);
    let watchers = watchers_side(&*array, watchers);
    let sides = (&operators, &watchers, &initiators);
    // (what the thread takes along is little, so that it is soon proved that threads may share it)
    let (rt, alloc, shared, desk) = (array.rt, array.alloc, array.array, array.desk);
    let served = serve_beside(rt, sides, &*array, move || {
        run_pool(rt, alloc, hosts, shared, desk, starter)
    });
    (pending_in(array.alloc, operators), served)
}

// The operators' door, if there is one.
fn operators_side<
    'a,
    R: Wait + Clock,
    A: ControlledArray<L, M> + Drop,
    L: Ledger,
    M,
    O: Door<Reader = S, Writer = W> + Drop,
    S: Source + Drop,
    W: Sink + Drop,
>(
    array: &'a OperatedArray<'a, R, A, L, M>,
    door: Option<O>,
    room: OperatorRoom<S, W>,
) -> Option<SideDoor<O, OperatorHandler<'a, R, A, L, M, S, W>>> {
    let handler = OperatorHandler::new(array, room);
    Some(SideDoor::new(door?, handler))
}

// The door of HTTP clients, if there is one.
fn watchers_side<
    'a,
    R: Wait + Clock,
    A: ControlledArray<L, M> + Drop,
    L: Ledger,
    M,
    O: Door + Drop,
>(
    array: &'a OperatedArray<'a, R, A, L, M>,
    door: Option<(O, RandomState)>,
) -> Option<SideDoor<O, Watch<'a, R, A, L, M>>> {
    let (door, keys) = door?;
    Some(SideDoor::new(door, Watch::new(array, keys)))
}

// The door of initiators, if there is one.
fn initiators_side<'a, R: Wait + Clock, A: Drop, L: Ledger, M, O: Door + Drop>(
    array: &'a OperatedArray<'a, R, A, L, M>,
    door: Option<(O, IscsiPort)>,
) -> Result<Option<SideDoor<O, Targets<'a, R, A, L, M>>>, AllocError> {
    match door {
        Some((door, iscsi)) => Ok(Some(SideDoor::new(door, Targets::new(array, iscsi)?))),
        None => Ok(None),
    }
}

// The operators that wait for the end.
fn pending_in<
    'a,
    R: Wait + Clock,
    A: ControlledArray<L, M> + Drop,
    L: Ledger,
    M,
    O: Door<Reader = S, Writer = W> + Drop,
    S: Source + Drop,
    W: Sink + Drop,
>(
    alloc: Global,
    side: Option<SideDoor<O, OperatorHandler<'a, R, A, L, M, S, W>>>,
) -> PendingStops<S, W> {
    match side {
        Some(side) => side.into_handler().into_pending(),
        None => PendingStops::none(alloc),
    }
}

impl<O: Door + Drop, T> SideDoor<O, T> {
    fn new(door: O, handler: T) -> SideDoor<O, T> {
        SideDoor {
            door: SharedDoor::new(door),
            handler,
        }
    }

    // Closes the door.
    fn into_handler(self) -> T {
        let SideDoor { handler, .. } = self;
        handler
    }
}

// Serves hosts by the foreground beside the threads of the other doors and of a monitor, and returns once all have
// ended. They are ended also where not all of them could be started.
fn serve_beside<
    R: Threads + Wait + Sync,
    O: Door + Drop + Send,
    T: Handler<O::Reader, O::Writer, OperatorEnd> + Sync,
    W: Handler<O::Reader, O::Writer, bool> + Sync,
    I: Handler<O::Reader, O::Writer, IscsiEnd> + Sync,
    V: Monitor + Sync,
    F: FnOnce() -> Result<(), NoMemory> + Drop,
>(rt: &R, sides: Sides<'_, O, T, W, I>, monitor: &V, foreground: F) -> Result<(), NoMemory>
    requires { F.pre foreground }
{
    thread::scope(
        thread::scope_env(),
        rt,
        move |scope| -> Result<(), NoMemory>
            requires { F.pre foreground }
        {
            let served = match start_threads(scope, rt, sides, monitor) {
                Ok(()) => foreground(),
                Err(fault) => Err(fault),
            };
            monitor.end();
            served
        },
    )
}

// Starts the threads beside those of hosts: of the other doors, of the background maintenance, and of a monitor.
fn start_threads<
    's,
    E,
    R: Wait + Sync,
    O: Door + Drop + Send,
    T: Handler<O::Reader, O::Writer, OperatorEnd> + Sync,
    W: Handler<O::Reader, O::Writer, bool> + Sync,
    I: Handler<O::Reader, O::Writer, IscsiEnd> + Sync,
    V: Monitor + Sync,
>(
    scope: &'s Scope<'s, E>,
    rt: &'s R,
    sides: Sides<'s, O, T, W, I>,
    monitor: &'s V,
) -> Result<(), NoMemory> {
    let (operators, watchers, initiators) = sides;
    if let Some(side) = operators {
        start_pool(scope, rt, OPERATOR_THREADS, &side.door, &side.handler)?;
    }
    if let Some(side) = watchers {
        start_pool(scope, rt, WATCH_THREADS, &side.door, &side.handler)?;
    }
    if let Some(side) = initiators {
        start_pool(scope, rt, TARGET_THREADS, &side.door, &side.handler)?;
    }
    if scope.spawn(move || monitor.maintain()).is_err() {
        return Err(NoMemory);
    }
    match scope.spawn(move || monitor.monitor()) {
        Ok(_thread) => Ok(()),
        Err(_) => Err(NoMemory),
    }
}
