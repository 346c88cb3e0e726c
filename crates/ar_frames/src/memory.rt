// Streams in memory. A call transfers all that fits, and only a full sink faults.
ghost use Rattle.std.specs.Prelude.{◌≡◌, ◌<◌, ◌≤◌, ◌+◌, ◌++◌, [], length, take, drop, min, Some, IfSome, is_none};
ghost use Rattle.std.specs.Prelude.{is_some, IsSome, IfNone, ◌↔◌, ◌==◌};
ghost use Rattle.std.specs.Io.KnownBytes.{IsAtEnd};
ghost use Rattle.ar_frames.specs.Stream.{Reading, Writing, moved};
ghost use Rattle.ar_frames.specs.Memory.{mem_source, mem_sink};

use crate::stream::{Sink, Source};
use std::marker::Model;

/// A source that reads from a vector and never faults.
#[derive(Drop)]
pub struct MemSource {
    bytes: Vec<u8>,
    at: usize,
}

impl Model for MemSource {
    ghost use Rattle.std.specs.Prelude.{ℕ, List, ◌≤◌, length, drop};

    ghost Value = { List ℕ };

    ghost view = { λ source. drop source.at source.bytes.items };

    ghost invariant = { λ source. source.at ≤ length source.bytes.items };
}

impl MemSource {
    /// A source that reads `bytes` from the first on.
    pub fn new(bytes: Vec<u8>) -> MemSource
        ensures { result ≡ bytes.items }
    {
        MemSource { bytes, at: 0 }
    }

    /// The number of bytes that are left.
    pub fn len(&self) -> usize
        ensures { result ≡ length self.now }
    {
        self.bytes.len() - self.at
    }

    /// Whether no byte is left.
    pub fn is_empty(&self) -> bool
        ensures { result ≡ (length self.now == 0) }
    {
        self.len() == 0
    }
}

impl Source for MemSource {
    ghost state = { mem_source };

    fn read(&mut self, into: &mut [u8]) -> Option<usize>
        ensures bound { IfSome result (λ n. n ≤ length into.new) }
        ensures read { Reading (mem_source self.old) (mem_source self.new) (moved result into.new) (is_none result) }
        ensures end { IfSome result (λ n. n ≡ 0 → 0 < length into.new → IsAtEnd (mem_source self.new).left) }
        // It never faults, and reads as many bytes as are left and fit.
        ensures all { result ≡ Some (min (length self.old) (length into.old)) }
        // The rest of `into` stays.
        ensures behind { IfSome result (λ n. drop n into.new ≡ drop n into.old) }
    {
        let next = (self.bytes.len() - self.at).min(into.len());
        into[..next].copy_from_slice(&self.bytes[self.at..self.at + next]);
        self.at += next;
        Some(next)
    }

    fn faults(&self) -> u64 {
        0
    }
}

/// A sink that overwrites the bytes of a vector, from the first on, and faults exactly if none is left.
#[derive(Drop)]
pub struct MemSink {
    bytes: Vec<u8>,
    at: usize,
    faults: u64,
}

impl Model for MemSink {
    ghost use Rattle.std.specs.Prelude.{◌≤◌, length, take, drop};
    ghost use Rattle.ar_frames.specs.Memory.{MemSinkState};

    ghost Value = { MemSinkState };

    ghost view = { λ sink. record {
      written = take sink.at sink.bytes.items;
      room = drop sink.at sink.bytes.items;
      faults = sink.faults;
    } };

    ghost invariant = { λ sink. sink.at ≤ length sink.bytes.items };
}

impl MemSink {
    /// A sink that overwrites `bytes`.
    pub fn new(bytes: Vec<u8>) -> MemSink
        ensures { result ≡ record { written = []; room = bytes.items; faults = 0 } }
    {
        MemSink {
            bytes,
            at: 0,
            faults: 0,
        }
    }

    /// The bytes that were written.
    pub fn written(&self) -> &[u8]
        ensures { result.now ≡ self.now.written }
    {
        &self.bytes[..self.at]
    }

    /// Returns the vector: the bytes that were written, then those that weren't overwritten.
    pub fn into_bytes(self) -> Vec<u8>
        ensures { result.items ≡ self.written ++ self.room }
    {
        self.bytes
    }
}

impl Sink for MemSink {
    ghost state = { mem_sink };

    fn write(&mut self, from: &[u8]) -> Option<usize>
        ensures bound { IfSome result (λ n. n ≤ length from.now) }
        ensures some { IfSome result (λ n. 0 < length from.now → 0 < n) }
        ensures written { Writing (mem_sink self.old) (mem_sink self.new) (moved result from.now) (is_none result) }
        // It writes as many bytes as fit, and faults exactly if there is no room.
        ensures all { IfSome result (λ n. n ≡ min (length self.old.room) (length from.now)) }
        ensures room { IsSome result ↔ (0 < length self.old.room) }
        // It overwrites the first bytes of the room; the others stay.
        ensures behind { IfSome result (λ n. self.new.room ≡ drop n self.old.room) }
        ensures full { IfNone result (self.new.room ≡ self.old.room) }
    {
        let room = self.bytes.len() - self.at;
        if room == 0 {
            self.faults = self.faults.saturating_add(1);
            return None;
        }
        let next = room.min(from.len());
        self.bytes[self.at..self.at + next].copy_from_slice(&from[..next]);
        self.at += next;
        Some(next)
    }

    fn faults(&self) -> u64 {
        self.faults
    }
}
