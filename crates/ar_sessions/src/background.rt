// Background maintenance, one step of the array at a time. A step leaves the history as it is and, unless the array has
// failed, the contents of all units. While nothing happens to the array, an idle round costs a look at one number.
ghost use Rattle.std.specs.Prelude.{◌≡◌, ◌<◌, nat_lt};
ghost use Rattle.ar_sessions.specs.Background.{is_due, is_long, is_resting, begun, paused, stepped, pause_after};
ghost use Rattle.ar_sessions.specs.Background.{task_after, TakesTurn, MakesPass};

use ar_served::{ServedArray, Task};
use std::sync::atomic::{AtomicBool, Ordering};
use std::sync::ledger::Ledger;
use std::sync::{Mutex, Wait};
use std::thread;
use std::time::{Clock, Duration};

/// Blocks are demoted while fewer groups than this are free.
const FEW_GROUPS: u32 = 3;

/// The steps of a round: one for each task.
const ROUND: u32 = 5;

/// Milliseconds of the pause after the first round in which nothing was done.
const SHORTEST_PAUSE: u64 = 1;

/// Milliseconds of the longest such pause. When hosts write again, blocks in the cache may wait this long, too.
const LONGEST_PAUSE: u64 = 16;

/// Pauses in a row after which an idle array is looked at all the same: a step that lacked memory may have it then.
const PAUSES: u32 = 64;

/// Milliseconds of the pause after a step that may have copied an extent under the lock. With blocks of 64 KiB such a
/// step holds the lock for some 1 ms; with a pause of 2 ms four hosts kept two thirds of their rate during a rebuild.
const EXTENT_PAUSE: u64 = 4;

// Where the maintenance is in its rotation.
#[derive(Clone, Copy)]
struct Rotation {
    // The next task.
    task: Task,
    // Steps in a row that did nothing, and the pauses after them.
    turns: u32,
    // Milliseconds of the next pause when there is nothing to do.
    pause: u64,
    // The array's events before the first of these steps.
    seen: u64,
}

/// Runs background maintenance until `stop` is set: one task a step, in the rotation Flush, Rebuild, Clean, Balance,
/// Demote. Each step takes the lock once, and after one that may have copied an extent it sleeps for 4 ms. After a
/// round in which there was nothing to do it sleeps for 1 ms, so that it costs the sessions little, and twice as long
/// after each further one, up to 16 ms; until something happens to the array, such rounds are skipped, for 64 pauses at
/// most.
pub fn run_background<R: Wait + Clock, A: ServedArray<L> + Drop, L: Ledger>(
    rt: &R,
    array: &Mutex<A>,
    stop: &AtomicBool,
) {
    let mut rotation = Rotation::new();
    for _ in rt.forever() {
        if stop.load(Ordering::SeqCst) {
            break;
        }
        // A statement of its own, so that the lock is free before the pause.
        let pause = rotation.advance::<A, L>(&mut array.lock(rt));
        match pause {
            Some(pause) => thread::sleep(rt, Duration::from_millis(pause)),
            None => thread::yield_now(),
        }
    }
}

impl Rotation {
    fn new() -> Rotation {
        Rotation {
            task: Task::Flush,
            turns: 0,
            pause: SHORTEST_PAUSE,
            seen: 0,
        }
    }

    // Performs the next task, unless the maintenance rests. Returns for how many milliseconds to pause then, if at all.
    fn advance<A: ServedArray<L>, L: Ledger>(&mut self, array: &mut A) -> Option<u64>
        ensures { MakesPass (A.state array.old) self.old result (A.state array.new) self.new }
    {
        let events = array.events();
        if self.is_resting(events) {
            return Some(self.rest());
        }
        self.begin(events);
        let has_worked = take_turn(array, self.task);
        self.after_turn(has_worked, array.events())
    }

    // Whether there was nothing to do, and nothing has happened since.
    fn is_resting(&self, events: u64) -> bool
        ensures { result ≡ is_resting self.now events }
    {
        ROUND <= self.turns && self.turns < ROUND + PAUSES && self.seen == events
    }

    // Begins another round after one in which there was nothing to do.
    fn begin(&mut self, events: u64)
        ensures { self.new ≡ begun self.old events }
    {
        if self.turns >= ROUND {
            self.turns = 0;
            self.seen = events;
        }
    }

    // Returns the milliseconds of a pause when there is nothing to do; the next one is longer.
    fn rest(&mut self) -> u64
        requires { self.old.turns < 69 }
        ensures next { self.new ≡ paused self.old }
        ensures pause { result ≡ self.old.pause }
    {
        let pause = self.pause;
        self.turns += 1;
        self.pause = pause.saturating_mul(2).min(LONGEST_PAUSE);
        pause
    }

    // Counts a step, after which there were `events`, and returns for how many milliseconds to pause, if at all.
    fn after_turn(&mut self, has_worked: bool, events: u64) -> Option<u64>
        requires { self.old.turns < 5 }
        ensures next { self.new ≡ stepped self.old has_worked events }
        ensures pause { result ≡ pause_after self.old has_worked }
    {
        let task = self.task;
        self.task = next(task);
        if has_worked {
            self.turns = 0;
            self.pause = SHORTEST_PAUSE;
            self.seen = events;
            return if is_long(task) {
                Some(EXTENT_PAUSE)
            } else {
                None
            };
        }
        if self.turns + 1 < ROUND {
            self.turns += 1;
            return None;
        }
        Some(self.rest())
    }
}

// Whether a step of a task may copy a whole extent.
fn is_long(task: Task) -> bool
    ensures { result ≡ is_long task }
{
    matches!(task, Task::Rebuild | Task::Balance)
}

// The task after `task` in the rotation.
fn next(task: Task) -> Task
    ensures { result ≡ task_after task }
{
    match task {
        Task::Flush => Task::Rebuild,
        Task::Rebuild => Task::Clean,
        Task::Clean => Task::Balance,
        Task::Balance => Task::Demote,
        Task::Demote => Task::Flush,
    }
}

// Performs a task if it is due, and returns whether it did anything.
fn take_turn<A: ServedArray<L>, L: Ledger>(array: &mut A, task: Task) -> bool
    ensures { TakesTurn (A.state array.old) task result (A.state array.new) }
{
    is_due(task, array.free_groups()) && array.work(task)
}

// Whether a task is due, by the number of free groups.
fn is_due(task: Task, free: u32) -> bool
    ensures { result ≡ is_due task free }
{
    match task {
        Task::Demote => free < FEW_GROUPS,
        _ => true,
    }
}
