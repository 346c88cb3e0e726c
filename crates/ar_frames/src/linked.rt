// Streams over std's readers and writers. Read faults and write faults are counted apart.
ghost use Rattle.std.specs.Prelude.{◌≡◌, ◌<◌, ◌≤◌, ◌++◌, length, is_none, None, IfSome};
ghost use Rattle.std.specs.Io.{WritesAtMost};
ghost use Rattle.std.specs.Io.KnownBytes.{IsAtEnd, WriteAppends};
ghost use Rattle.ar_disks.specs.Disk.{counted};
ghost use Rattle.ar_frames.specs.Stream.{Reading, Writing, moved};

use crate::progress::Progress;
use crate::stream::{Sink, Source};
use std::io::{self, ErrorKind, IoSlice, Read, Write};
use std::net::TcpStream;
use std::sync::Arc;

/// A std writer that takes three parts by one call.
pub trait PartsWrite: Write {
    /// Writes some bytes from the front of three parts, one after the other, as `write` does of one.
    fn write_parts(&mut self, front: &[u8], middle: &[u8], rest: &[u8]) -> io::Result<usize>
        ensures bound { WritesAtMost result (front.now ++ (middle.now ++ rest.now)) }
        ensures bytes { WriteAppends (Self.contents self.old) (Self.contents self.new) result
            (front.now ++ (middle.now ++ rest.now)) };
}

impl PartsWrite for TcpStream {
    // One system call.
    fn write_parts(&mut self, front: &[u8], middle: &[u8], rest: &[u8]) -> io::Result<usize> {
        let parts = [
            IoSlice::new(front),
            IoSlice::new(middle),
            IoSlice::new(rest),
        ];
        TcpStream::write_vectored(self, &parts)
    }
}

impl PartsWrite for &TcpStream {
    // One system call.
    fn write_parts(&mut self, front: &[u8], middle: &[u8], rest: &[u8]) -> io::Result<usize> {
        let parts = [
            IoSlice::new(front),
            IoSlice::new(middle),
            IoSlice::new(rest),
        ];
        TcpStream::write_vectored(self, &parts)
    }
}

/// A source over a std reader, or a sink over a std writer. A fault is an error other than an interruption, the 1,001st
/// interruption in a row, or a write that takes no byte of a piece that isn't empty, and each read once the session is
/// to end. Read faults and write faults are counted apart.
#[derive(Drop)]
pub struct Linked<S> {
    stream: S,
    // How far the session has come, if its time is limited by that.
    progress: Option<Arc<Progress>>,
    read_faults: u64,
    write_faults: u64,
}

/// How many interruptions in a row are retried.
const INTERRUPTIONS: u32 = 1000;

impl<S> Linked<S> {
    /// A source or sink over `stream`, with no fault counted.
    pub fn new(stream: S) -> Linked<S>
        ensures stream { result.stream ≡ stream }
        ensures sound { (result.read_faults ≡ 0) × (result.write_faults ≡ 0) }
    {
        Linked {
            stream,
            progress: None,
            read_faults: 0,
            write_faults: 0,
        }
    }

    /// A source over a stream that limits the time of its session by how far it has come, which is noted there.
    pub fn with_progress(stream: S, progress: Arc<Progress>) -> Linked<S>
        ensures stream { result.stream ≡ stream }
        ensures sound { (result.read_faults ≡ 0) × (result.write_faults ≡ 0) }
    {
        Linked {
            stream,
            progress: Some(progress),
            read_faults: 0,
            write_faults: 0,
        }
    }

    /// Returns the underlying stream.
    pub fn into_inner(self) -> S
        ensures { result ≡ self.stream }
    {
        let Linked { stream, .. } = self;
        stream
    }

    // Whether the session is to end.
    fn is_ended(&self) -> bool {
        match &self.progress {
            Some(progress) => progress.is_ended(),
            None => false,
        }
    }

    // Notes that bytes have come.
    fn note_bytes(&self) {
        if let Some(progress) = &self.progress {
            progress.note_bytes();
        }
    }

    // Notes an accepted login.
    fn note_login(&self) {
        if let Some(progress) = &self.progress {
            progress.note_entry();
        }
    }

    // Notes a session for discovery.
    fn note_discovery(&self) {
        if let Some(progress) = &self.progress {
            progress.note_discovery();
        }
    }

    // Counts a read fault.
    fn read_fault(&mut self) -> Option<usize>
        ensures none { result ≡ None }
        ensures counted { self.new ≡ record self.old { read_faults = counted self.old.read_faults } }
    {
        self.read_faults = self.read_faults.saturating_add(1);
        None
    }

    // Counts a write fault.
    fn write_fault(&mut self) -> Option<usize>
        ensures none { result ≡ None }
        ensures counted { self.new ≡ record self.old { write_faults = counted self.old.write_faults } }
    {
        self.write_faults = self.write_faults.saturating_add(1);
        None
    }
}

impl<R: Read> Source for Linked<R> {
    ghost state = { λ linked. record { left = R.remaining linked.stream; faults = linked.read_faults } };

    fn read(&mut self, into: &mut [u8]) -> Option<usize>
        ensures bound { IfSome result (λ n. n ≤ length into.new) }
        ensures read { Reading (record { left = R.remaining self.old.stream; faults = self.old.read_faults })
            (record { left = R.remaining self.new.stream; faults = self.new.read_faults }) (moved result into.new)
            (is_none result) }
        ensures end { IfSome result (λ n. n ≡ 0 → 0 < length into.new → IsAtEnd (R.remaining self.new.stream)) }
        // The write faults stay.
        ensures apart { self.new.write_faults ≡ self.old.write_faults }
    {
        // (bytes that were read ahead are no longer served either)
        if self.is_ended() {
            return self.read_fault();
        }
        for _ in 0..=INTERRUPTIONS {
            match self.stream.read(into) {
                Ok(n) => {
                    self.note_bytes();
                    return Some(n);
                }
                Err(error) if error.kind() == ErrorKind::Interrupted => {}
                Err(_) => return self.read_fault(),
            }
        }
        self.read_fault()
    }

    fn faults(&self) -> u64 {
        self.read_faults
    }

    fn lift_login_limit(&mut self)
        ensures { self.new ≡ self.old }
    {
        self.note_login();
    }

    fn limit_discovery(&mut self)
        ensures { self.new ≡ self.old }
    {
        self.note_discovery();
    }

    fn progress(&self) -> Option<&Arc<Progress>> {
        self.progress.as_ref()
    }
}

impl<W: PartsWrite> Sink for Linked<W> {
    ghost state = { λ linked. record { taken = W.contents linked.stream; faults = linked.write_faults } };

    fn write(&mut self, from: &[u8]) -> Option<usize>
        ensures bound { IfSome result (λ n. n ≤ length from.now) }
        ensures some { IfSome result (λ n. 0 < length from.now → 0 < n) }
        ensures written { Writing (record { taken = W.contents self.old.stream; faults = self.old.write_faults })
            (record { taken = W.contents self.new.stream; faults = self.new.write_faults }) (moved result from.now)
            (is_none result) }
        // The read faults stay.
        ensures apart { self.new.read_faults ≡ self.old.read_faults }
    {
        for _ in 0..=INTERRUPTIONS {
            match self.stream.write(from) {
                Ok(0) if !from.is_empty() => return self.write_fault(),
                Ok(n) => return Some(n),
                Err(error) if error.kind() == ErrorKind::Interrupted => {}
                Err(_) => return self.write_fault(),
            }
        }
        self.write_fault()
    }

    fn write_parts(&mut self, front: &[u8], middle: &[u8], rest: &[u8]) -> Option<usize>
        ensures bound { IfSome result (λ n. n ≤ length (front.now ++ (middle.now ++ rest.now))) }
        ensures some { IfSome result (λ n. 0 < length (front.now ++ (middle.now ++ rest.now)) → 0 < n) }
        ensures written { Writing (record { taken = W.contents self.old.stream; faults = self.old.write_faults })
            (record { taken = W.contents self.new.stream; faults = self.new.write_faults })
            (moved result (front.now ++ (middle.now ++ rest.now))) (is_none result) }
        // The read faults stay.
        ensures apart { self.new.read_faults ≡ self.old.read_faults }
    {
        for _ in 0..=INTERRUPTIONS {
            match self.stream.write_parts(front, middle, rest) {
                Ok(0) if !(front.is_empty() && middle.is_empty() && rest.is_empty()) => {
                    return self.write_fault();
                }
                Ok(n) => return Some(n),
                Err(error) if error.kind() == ErrorKind::Interrupted => {}
                Err(_) => return self.write_fault(),
            }
        }
        self.write_fault()
    }

    fn faults(&self) -> u64 {
        self.write_faults
    }
}
