// Sources of connections. A door's own specification says which reader and writer belong together, and what was opened.
ghost use Rattle.std.specs.Prelude.{◌≡◌, ◌<◌, ◌+◌, ◌++◌, ℕ, Bool, true, length, Option, IfSome};
ghost use Rattle.std.specs.Option.{option_to_list};

use ar_frames::{Sink, Source};
use std::collections::VecDeque;

/// Accepts up to `left` connections.
pub trait Door {
    /// The stream that a connection's requests are read from.
    type Reader: Source + Send + Drop;

    /// The stream that its replies are written to.
    type Writer: Sink + Send + Drop;

    /// The number of connections still to come.
    ghost to_come: { Self → ℕ };

    /// Whether both are of one connection. Only a door defines it, so that no other code can pair the reader of one
    /// with the writer of another.
    ghost are_one: { Self.Reader → Self.Writer → Bool };

    /// What opening the next connection may do: the door before, the connection, if it could be opened, and the door
    /// after. Only a door defines it, so that no other code can report a connection that was opened as one that
    /// couldn't be.
    ghost opens: { Self → Option (Self.Reader × Self.Writer) → Self → Type 0 };

    /// The number of connections still to come.
    fn left(&self) -> usize
        ensures { result ≡ to_come self.now };

    /// Whether it is to open no more connections, whatever is still to come.
    fn is_closed(&self) -> bool {
        false
    }

    /// Waits for the next connection. None: it couldn't be opened; it counts all the same.
    fn accept(&mut self) -> Option<(Self::Reader, Self::Writer)>
        requires { 0 < to_come self.old }
        ensures count { to_come self.new + 1 ≡ to_come self.old }
        ensures opens { opens self.old result self.new }
        ensures one { IfSome result (λ pair. are_one pair.0 pair.1 ≡ true) };

    /// Ends what a door that opens no more connections still has.
    fn close(&mut self) {}
}

/// A door to connections that exist from the start, each a reader and a writer.
#[derive(Drop)]
pub struct MemDoor<R: Source + Send + Drop, W: Sink + Send + Drop> {
    pairs: VecDeque<(R, W)>,
}

impl<R: Source + Send + Drop, W: Sink + Send + Drop> MemDoor<R, W> {
    /// A door that opens `pairs` in their order.
    pub fn new(pairs: VecDeque<(R, W)>) -> MemDoor<R, W>
        ensures { result.pairs ≡ pairs }
    {
        MemDoor { pairs }
    }
}

impl<R: Source + Send + Drop, W: Sink + Send + Drop> Door for MemDoor<R, W> {
    type Reader = R;

    type Writer = W;

    ghost to_come = { λ door. length door.pairs.items };

    ghost are_one = { λ _ _. true };

    // The next connection is the first of the queue.
    ghost opens = { λ old pair new. old.pairs.items ≡ option_to_list pair ++ new.pairs.items };

    fn left(&self) -> usize {
        self.pairs.len()
    }

    fn accept(&mut self) -> Option<(R, W)>
        requires { 0 < length self.old.pairs.items }
        ensures count { length self.new.pairs.items + 1 ≡ length self.old.pairs.items }
        ensures first { self.old.pairs.items ≡ option_to_list result ++ self.new.pairs.items }
    {
        self.pairs.pop_front()
    }
}
