// Where lines go: to a queue whose one reader writes them, or straight to standard error.
use crate::line::{LogLine, TimedLine};
use crate::queue::LineQueue;
use crate::time::UtcTime;
use log::kv::Source;
use log::span::Spans;
use log::{Log, Metadata, Record, warn};
use std::alloc::{AllocError, Global};
use std::fmt::Display;
use std::sync::{Arc, Condvar, Mutex, Wait};
use std::thread;
use std::thread::{JoinHandle, Threads};
use std::time::{Clock, Duration};

/// The lines that may wait to be written.
pub const MOST_LINES: usize = 256;

/// The seconds for which the end waits for a reader of standard error that has stopped reading.
pub const LAST_WAIT: u64 = 5;

/// Writes each record to standard error at once, with its time.
#[derive(Clone, Copy, Drop)]
pub struct TimedConsole<R>(pub R);

impl<R: Eprint + Clock> Log for TimedConsole<R> {
    ghost use Rattle.std.specs.Prelude.{Some, [], true};

    ghost enables = { λ _ _ _. Some true };

    ghost target_of = { λ _. Some [] };

    fn enabled(&self, _metadata: &Metadata<'_>) -> bool {
        true
    }

    fn log<D: Display, K: Source, S: Spans>(&self, record: &Record<'_, D, K, S>) {
        let time = UtcTime::now(&self.0);
        let _ = self.0.eprintln(TimedLine::new(time, record));
    }

    fn flush(&self) {}

    fn target(&self) -> &str {
        ""
    }
}

/// Queues each record with its time. Who logs waits for no reader, and allocates nothing.
#[derive(Drop)]
pub struct QueuedLog<R: Wait + Clock> {
    rt: R,
    state: Mutex<QueueState>,
    // Notified when there is something to write, or nothing more will come; and when all is written.
    filled: Condvar,
    written: Condvar,
}

// What the threads that log share with the one that writes.
#[derive(Drop)]
struct QueueState {
    lines: LineQueue,
    // Nothing more will come.
    is_ended: bool,
    // All that came is written.
    is_written: bool,
}

impl QueueState {
    // Whether there is nothing to do for the thread that writes.
    fn is_idle(&self) -> bool {
        self.lines.is_idle() && !self.is_ended
    }

    // What is to be written next. None: nothing, and nothing more will come.
    fn next(&mut self) -> Option<(u64, Option<LogLine>)> {
        if self.lines.is_idle() {
            None
        } else {
            Some(self.lines.pop())
        }
    }
}

impl<R: Wait + Clock> QueuedLog<R> {
    fn new(rt: R, lines: LineQueue) -> QueuedLog<R> {
        QueuedLog {
            rt,
            state: Mutex::new(QueueState {
                lines,
                is_ended: false,
                is_written: false,
            }),
            filled: Condvar::new(),
            written: Condvar::new(),
        }
    }

    // Waits for what is to be written next. None: nothing more will come.
    fn next(&self) -> Option<(u64, Option<LogLine>)> {
        let state = self.state.lock(&self.rt);
        let mut state = self
            .filled
            .wait_while(&self.rt, state, |state| state.is_idle());
        state.next()
    }

    // Says that all is written.
    fn finish(&self) {
        self.state.lock(&self.rt).is_written = true;
        self.written.notify_all();
    }

    // Ends the log, and returns whether all is written. That is waited for, but not for ever.
    fn end(&self) -> bool {
        let mut state = self.state.lock(&self.rt);
        state.is_ended = true;
        self.filled.notify_all();
        let most = Duration::from_secs(LAST_WAIT);
        let (_state, waited) = self
            .written
            .wait_timeout_while(&self.rt, state, most, |state| { !state.is_written });
        !waited.timed_out()
    }
}

impl<R: Wait + Clock> Log for QueuedLog<R> {
    ghost use Rattle.std.specs.Prelude.{Some, [], true};

    ghost enables = { λ _ _ _. Some true };

    ghost target_of = { λ _. Some [] };

    fn enabled(&self, _metadata: &Metadata<'_>) -> bool {
        true
    }

    fn log<D: Display, K: Source, S: Spans>(&self, record: &Record<'_, D, K, S>) {
        let line = LogLine::of(TimedLine::new(UtcTime::now(&self.rt), record));
        self.state.lock(&self.rt).lines.push(line);
        self.filled.notify_one();
    }

    fn flush(&self) {}

    fn target(&self) -> &str {
        ""
    }
}

/// A queue of lines, and the thread that writes them to standard error.
#[derive(Drop)]
pub struct LogThread<R: Wait + Clock> {
    log: Arc<QueuedLog<R>, Global>,
    thread: JoinHandle<()>,
}

impl<R: Wait + Clock> LogThread<R> {
    /// Starts the thread. All memory of the log is allocated here. `target` is that of lines that count dropped ones.
    pub fn start(rt: R, alloc: Global, target: &'static str) -> Result<LogThread<R>, AllocError>
    where
        R: Threads + Eprint + Copy + Send + Sync + 'static,
    {
        let lines = LineQueue::with_capacity(alloc, MOST_LINES)?;
        let log = Arc::new(alloc, QueuedLog::new(rt, lines))?;
        let theirs = Arc::try_clone(&log)?;
        let thread = thread::spawn(&rt, move || write_each(&rt, target, &theirs))?;
        Ok(LogThread { log, thread })
    }

    /// What queues records.
    pub fn sink(&self) -> &QueuedLog<R> {
        &self.log
    }

    /// Ends the log, and returns whether all lines are written: that takes 5 seconds at most. Where nobody reads
    /// standard error for 5 seconds, the thread is left alone, and ends with the program.
    pub fn end(self) -> bool
    where
        R: Threads + Drop,
    {
        let LogThread { log, thread } = self;
        let is_written = log.end();
        if is_written {
            thread.join(&log.rt);
        }
        is_written
    }
}

// Writes one line after another, until nothing more comes.
fn write_each<R: Wait + Clock + Eprint>(rt: &R, target: &str, log: &QueuedLog<R>) {
    for _ in rt.forever() {
        let Some((skipped, line)) = log.next() else {
            break;
        };
        write(rt, target, skipped, line);
    }
    log.finish();
}

// Writes a line, and before it how many were dropped there. A write that fails is dropped.
fn write<R: Clock + Eprint>(rt: &R, target: &str, skipped: u64, line: Option<LogLine>) {
    if skipped > 0 {
        warn!(TimedConsole(rt); target: target, "{skipped} lines dropped");
    }
    if let Some(line) = line {
        let _ = rt.eprintln(line.as_str());
    }
}
