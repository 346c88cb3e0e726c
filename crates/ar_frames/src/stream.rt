// Byte streams as a session uses them. A call transfers some bytes, or faults and transfers none; faults are counted.
ghost use Rattle.std.specs.Prelude.{◌≡◌, ◌<◌, ◌≤◌, ◌++◌, length, IfSome, is_none};
ghost use Rattle.std.specs.Io.KnownBytes.{IsAtEnd};
ghost use Rattle.ar_frames.specs.Stream.{SourceState, SinkState, Reading, Writing, moved};

use crate::progress::Progress;
use std::sync::Arc;

/// A stream of bytes to read from.
pub trait Source {
    /// The bytes that are left, if the stream reports them, and the number of its faults.
    ghost state: { Self → SourceState };

    /// Reads some bytes into the front of `into` and returns their number. For an `into` that isn't empty, 0 is
    /// returned only at the end of input. None is a fault: no byte was read.
    fn read(&mut self, into: &mut [u8]) -> Option<usize>
        ensures bound { IfSome result (λ n. n ≤ length into.new) }
        ensures read { Reading (state self.old) (state self.new) (moved result into.new) (is_none result) }
        ensures end { IfSome result (λ n. n ≡ 0 → 0 < length into.new → IsAtEnd (state self.new).left) };

    /// The number of reads that have returned None; it saturates at the greatest value of its type.
    fn faults(&self) -> u64
        ensures { result ≡ (state self.now).faults };

    /// Lifts a limit on the time of the session's login, if the stream has one: the login was accepted.
    fn lift_login_limit(&mut self)
        ensures { state self.new ≡ state self.old }
    {}

    /// Limits the time of the whole session, if the stream limits that of its login: it is one for discovery.
    fn limit_discovery(&mut self)
        ensures { state self.new ≡ state self.old }
    {}

    /// How far the session over this stream has come, if the stream's connection notes it.
    fn progress(&self) -> Option<&Arc<Progress>> {
        None
    }
}

/// A stream of bytes to write to.
pub trait Sink {
    /// The bytes that were written, if the stream reports them, and the number of its faults.
    ghost state: { Self → SinkState };

    /// Writes some bytes from the front of `from` and returns their number: at least 1, unless `from` is empty. None is
    /// a fault: no byte was written.
    fn write(&mut self, from: &[u8]) -> Option<usize>
        ensures bound { IfSome result (λ n. n ≤ length from.now) }
        ensures some { IfSome result (λ n. 0 < length from.now → 0 < n) }
        ensures written { Writing (state self.old) (state self.new) (moved result from.now) (is_none result) };

    /// Writes some bytes from the front of three parts, one after the other, as `write` does of one. A stream that can
    /// takes bytes of all by one call, since it may send what each call writes by itself.
    fn write_parts(&mut self, front: &[u8], middle: &[u8], rest: &[u8]) -> Option<usize>
        ensures bound { IfSome result (λ n. n ≤ length (front.now ++ (middle.now ++ rest.now))) }
        ensures some { IfSome result (λ n. 0 < length (front.now ++ (middle.now ++ rest.now)) → 0 < n) }
        ensures written { Writing (state self.old) (state self.new)
            (moved result (front.now ++ (middle.now ++ rest.now))) (is_none result) }
    {
        if !front.is_empty() {
            self.write(front)
        } else if !middle.is_empty() {
            self.write(middle)
        } else {
            self.write(rest)
        }
    }

    /// The number of writes that have returned None; it saturates at the greatest value of its type.
    fn faults(&self) -> u64
        ensures { result ≡ (state self.now).faults };
}
