// Lines that wait to be written: a bounded list, the oldest first. What finds no room is dropped and counted, and the
// count stays at its place among the lines.
ghost use Rattle.std.specs.Prelude.{◌≡◌, ◌+◌, ◌-◌, ◌^◌, ◌<◌, IfOk};
ghost use Rattle.ar_logging.specs.Queue.{empty, is_drained, taken_lines, next_in, pending, popped, pushed};

use crate::line::LogLine;
use circular_buffer::HeapCircularBuffer;
use std::alloc::{AllocError, Global};
use std::marker::Model;

/// A line, and how many were dropped just before it.
#[derive(Drop)]
pub struct QueuedLine {
    skipped: u64,
    line: LogLine,
}

/// A bounded queue of lines.
#[derive(Drop)]
pub struct LineQueue {
    lines: HeapCircularBuffer<QueuedLine>,
    // Lines that were dropped after those.
    skipped: u64,
}

impl Model for LineQueue {
    ghost use Rattle.ar_logging.specs.Queue.{Queue};

    ghost Value = { Queue };

    ghost view = { λ q. record { lines = q.lines.items; skipped = q.skipped; capacity = q.lines.capacity } };
}

impl LineQueue {
    /// An empty queue with room for this many lines, which is allocated here.
    pub fn with_capacity(alloc: Global, capacity: usize) -> Result<LineQueue, AllocError>
        ensures { IfOk result (λ q. q ≡ empty capacity) }
    {
        Ok(LineQueue {
            lines: HeapCircularBuffer::with_capacity(alloc, capacity)?,
            skipped: 0,
        })
    }

    /// Adds a line, or drops and counts it where there is no room.
    pub fn push(&mut self, line: LogLine)
        ensures queue { self.new ≡ pushed self.old line }
        ensures counted { pending self.old < 2 ^ 64 - 1 → pending self.new ≡ pending self.old + 1 }
    {
        let queued = QueuedLine {
            skipped: self.skipped,
            line,
        };
        self.skipped = match self.lines.try_push_back(queued) {
            Ok(()) => 0,
            Err(_) => self.skipped.saturating_add(1),
        };
    }

    /// Takes the oldest line, and the number of lines that were dropped before it. Where there is no line, that of
    /// lines that were dropped since.
    pub fn pop(&mut self) -> (u64, Option<LogLine>)
        ensures next { result ≡ next_in self.old }
        ensures rest { self.new ≡ popped self.old }
        ensures counted { pending self.new + taken_lines result ≡ pending self.old }
    {
        match self.lines.pop_front() {
            Some(QueuedLine { skipped, line }) => (skipped, Some(line)),
            None => {
                let skipped = self.skipped;
                self.skipped = 0;
                (skipped, None)
            }
        }
    }

    /// Whether there is nothing to take.
    pub fn is_idle(&self) -> bool
        ensures { result ≡ is_drained self.now }
    {
        self.lines.is_empty() && self.skipped == 0
    }
}
