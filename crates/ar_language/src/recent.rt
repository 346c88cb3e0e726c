// Remembers what was read last, so that a faulty line can be looked at as it was: two pieces, of which the second has
// room for more until it is longer than a line, and the older is dropped whole. A line of at most 4,096 bytes is in
// them while the reader above is in the piece that ends it.
use crate::explain::{Explanation, explanation_of};
use crate::scan::line_feeds;
use crate::{Fault, FaultKind};
use std::alloc::Global;
use std::io::{self, Read};
use std::mem;

/// The least bytes of a piece before another is begun: those of the longest line, and its line feed.
const PIECE: usize = 4_097;

/// What was read last.
#[derive(Drop)]
pub struct Recent {
    older: Vec<u8>,
    newer: Vec<u8>,
    // The lines that ended before these pieces.
    ended: u32,
    // Out of memory: nothing is remembered any more.
    has_failed: bool,
}

/// A reader whose bytes are remembered.
#[derive(Drop)]
pub struct Remembered<'a, R> {
    reader: R,
    recent: &'a mut Recent,
}

impl Recent {
    /// Nothing yet.
    pub fn new(alloc: Global) -> Recent {
        Recent {
            older: Vec::new(alloc),
            newer: Vec::new(alloc),
            ended: 0,
            has_failed: false,
        }
    }

    /// What is wrong with the line of a fault, if that is one of its words or characters.
    pub fn explain(&mut self, fault: Fault) -> Option<Explanation<'_>> {
        match fault {
            Fault::Line {
                line,
                kind: FaultKind::UnknownWord | FaultKind::BadArgument | FaultKind::BadCharacter,
            } => explanation_of(self.line(line)?),
            _ => None,
        }
    }

    // A line by its number from 1, without its line feed. The pieces are joined for it.
    fn line(&mut self, number: u32) -> Option<&[u8]> {
        self.older.extend_from_slice(&self.newer).ok()?;
        self.newer.clear();
        let before = number.checked_sub(1)?.checked_sub(self.ended)?;
        let mut lines = self.older.split(|byte| *byte == b'\n');
        for _ in 0..before {
            lines.next()?;
        }
        lines.next()
    }

    // Remembers what was read.
    fn note(&mut self, read: &[u8]) {
        if self.newer.len() >= PIECE {
            self.drop_older();
        }
        if self.has_failed || self.newer.extend_from_slice(read).is_err() {
            self.has_failed = true;
            self.older.clear();
            self.newer.clear();
        }
    }

    // Forgets the older piece, and begins another.
    fn drop_older(&mut self) {
        let ended = u32::try_from(line_feeds(&self.older)).unwrap_or(u32::MAX);
        self.ended = self.ended.saturating_add(ended);
        mem::swap(&mut self.older, &mut self.newer);
        self.newer.clear();
    }
}

impl<'a, R> Remembered<'a, R> {
    /// A reader of which `recent` is to remember the bytes.
    pub fn new(reader: R, recent: &'a mut Recent) -> Remembered<'a, R> {
        Remembered { reader, recent }
    }
}

impl<R: Read> Read for Remembered<'_, R> {
    ghost remaining = { λ remembered. R.remaining remembered.reader };

    fn read(&mut self, buf: &mut [u8]) -> io::Result<usize> {
        let count = self.reader.read(buf)?;
        self.recent.note(&buf[..count]);
        Ok(count)
    }
}
