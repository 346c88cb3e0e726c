// The operators' door. Threads take turns at it, as those of a pool do: all but one may converse, and the last is there
// to refuse one operator more.
use crate::control::LockController;
use ar_controlled::ControlledArray;
use ar_conversation::{Buffers, MOST_OPERATORS, OperatorEnd, converse_in};
use ar_doors::Refusals;
use ar_frames::{Sink, Source, send};
use ar_operated::OperatedArray;
use ar_sessions::Handler;
use log::Log;
use std::alloc::{AllocError, Global};
use std::sync::atomic::{AtomicU64, Ordering};
use std::sync::ledger::Ledger;
use std::sync::{Mutex, Wait};
use std::thread;
use std::time::{Clock, Duration};

/// How often a new operator looks for a place, and the milliseconds between two looks: one who was silent may just be
/// leaving it.
const LOOKS: u32 = 500;

const LOOK_PAUSE: u64 = 1;

/// The answer to an operator when four others converse.
const TOO_MANY: &[u8] = b"fault: too many operators\n";

/// The operators whose `stop` was accepted, by their streams. Each is answered once the service has ended.
#[derive(Drop)]
pub struct PendingStops<S: Drop, W: Drop> {
    streams: Vec<(S, W)>,
}

/// What the operators' door needs beside its threads: memory for the conversations, and places for those that wait for
/// the end. All of it is there from the start, so that an operator may come, and say `stop`, when memory is used up.
#[derive(Drop)]
pub struct OperatorRoom<S: Drop, W: Drop> {
    free: Vec<Buffers>,
    pending: PendingStops<S, W>,
}

/// What the threads at the operators' door share.
#[derive(Drop)]
pub struct OperatorHandler<
    'a,
    R: Wait,
    A: ControlledArray<L, M> + Drop,
    L: Ledger,
    M,
    S: Drop,
    W: Drop,
> {
    array: &'a OperatedArray<'a, R, A, L, M>,
    // How many operators converse, or look whether they may.
    open: AtomicU64,
    refusals: Refusals,
    // The memory of conversations that nobody has now.
    free: Mutex<Vec<Buffers>>,
    pending: Mutex<PendingStops<S, W>>,
}

impl<
    'a,
    R: Wait + Clock,
    A: ControlledArray<L, M> + Drop,
    L: Ledger,
    M,
    S: Drop,
    W: Drop,
> OperatorHandler<'a, R, A, L, M, S, W> {
    /// A handler with this room.
    pub fn new(
        array: &'a OperatedArray<'a, R, A, L, M>,
        room: OperatorRoom<S, W>,
    ) -> OperatorHandler<'a, R, A, L, M, S, W> {
        let OperatorRoom { free, pending } = room;
        OperatorHandler {
            array,
            open: AtomicU64::new(0),
            refusals: Refusals::new(array.rt),
            free: Mutex::new(free),
            pending: Mutex::new(pending),
        }
    }

    /// The operators that wait for the end.
    pub fn into_pending(self) -> PendingStops<S, W> {
        let OperatorHandler { pending, .. } = self;
        pending.into_inner()
    }
}

impl<
    'a,
    R: Wait + Clock + Log,
    A: ControlledArray<L, M> + Drop,
    L: Ledger,
    M: Copy,
    S: Source + Drop,
    W: Sink + Drop,
> Handler<S, W, OperatorEnd> for OperatorHandler<'a, R, A, L, M, S, W> {
    ghost ends = { λ _ _ _ _. Unit {0} };

    // Converses with an operator, unless four do already. One whose `stop` is accepted is kept until it can be
    // answered.
    fn handle(&self, _number: u64, mut reader: S, mut writer: W) -> OperatorEnd {
        let end = if enters(self.array.rt, &self.open) {
            let end = converse_with(self.array, &self.free, &mut reader, &mut writer);
            self.open.fetch_sub(1, Ordering::SeqCst);
            end
        } else {
            self.refusals
                .warn(self.array.rt, "an operator", "four others converse");
            self.array.tallies.refuse_operator();
            refuse(&mut writer)
        };
        if end == OperatorEnd::NoMemory {
            self.refusals
                .warn(self.array.rt, "an operator", "no memory");
        }
        if end == OperatorEnd::Stop {
            keep(self.array.rt, &self.pending, reader, writer);
            self.array.stop.store(true, Ordering::SeqCst);
        }
        end
    }
}

// Counts an operator among those that converse, once fewer than four others do. False: they didn't become fewer.
fn enters<R: Clock>(rt: &R, open: &AtomicU64) -> bool {
    for _ in 0..LOOKS {
        if open.fetch_add(1, Ordering::SeqCst) < MOST_OPERATORS {
            return true;
        }
        open.fetch_sub(1, Ordering::SeqCst);
        thread::sleep(rt, Duration::from_millis(LOOK_PAUSE));
    }
    false
}

// Keeps an operator until it can be answered. (A place is free for each thread.)
fn keep<R: Wait, S: Drop, W: Drop>(
    rt: &R,
    pending: &Mutex<PendingStops<S, W>>,
    reader: S,
    writer: W,
) {
    let _kept = pending.lock(rt).streams.push((reader, writer));
}

// Answers that too many operators converse.
fn refuse<W: Sink>(writer: &mut W) -> OperatorEnd {
    let _sent = send(writer, TOO_MANY);
    OperatorEnd::End
}

// Answers an operator's lines, in memory that nobody has. (There is some for each that may converse.)
fn converse_with<
    R: Wait + Clock,
    A: ControlledArray<L, M> + Drop,
    L: Ledger,
    M: Copy,
    S: Source,
    W: Sink,
>(
    array: &OperatedArray<'_, R, A, L, M>,
    free: &Mutex<Vec<Buffers>>,
    reader: &mut S,
    writer: &mut W,
) -> OperatorEnd {
    let Some(mut buffers) = free.lock(array.rt).pop() else {
        return OperatorEnd::NoMemory;
    };
    let mut controller = LockController::new(&*array);
    let end = converse_in(reader, writer, &mut controller, &mut buffers);
    let _given = free.lock(array.rt).push(buffers);
    end
}

impl<S: Drop, W: Drop> OperatorRoom<S, W> {
    /// Room for four conversations, and for as many operators that wait for the end as there are threads. Fails if out
    /// of memory.
    pub fn new(alloc: Global, threads: u32) -> Result<OperatorRoom<S, W>, AllocError> {
        let mut free = Vec::with_capacity(alloc, MOST_OPERATORS as usize)?;
        for _ in 0..MOST_OPERATORS {
            free.push(Buffers::new(alloc)?)?;
        }
        Ok(OperatorRoom {
            free,
            pending: PendingStops::with_room(alloc, threads)?,
        })
    }
}

impl<S: Drop, W: Drop> PendingStops<S, W> {
    /// None.
    pub fn none(alloc: Global) -> PendingStops<S, W> {
        PendingStops {
            streams: Vec::new(alloc),
        }
    }

    /// No pending stop, with capacity for one of each of `threads` threads. Fails if out of memory.
    pub fn with_room(alloc: Global, threads: u32) -> Result<PendingStops<S, W>, AllocError> {
        let streams = Vec::with_capacity(alloc, threads as usize)?;
        Ok(PendingStops { streams })
    }
}

impl<S: Drop, W: Sink + Drop> PendingStops<S, W> {
    /// Answers all of them, and closes their connections.
    pub fn answer(self, text: &[u8]) {
        for (reader, mut writer) in self.streams {
            let _sent = send(&mut writer, text);
            drop(reader);
        }
    }
}
