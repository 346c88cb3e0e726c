// A count of accesses that only contracts see: it occupies no bytes, and its calls do nothing at run time.
ghost use Rattle.std.specs.Prelude.{◌≡◌, ℕ, ◌+◌};
ghost use Rattle.std.specs.Borrow.{ftrue};

use std::fmt;
use std::fmt::{Debug, Formatter};
use std::marker::Model;

/// The number of reads and writes of a disk. `count` is ghost: only contracts see it, and it can't overflow.
#[derive(Drop)]
pub struct AccessCount {
    pub ghost count: { ℕ },
}

impl Model for AccessCount {
    ghost also_owns = { λ _. ftrue };
}

// SAFETY: it owns nothing.
unsafe impl Send for AccessCount {}

impl AccessCount {
    /// A count of 0.
    pub fn new() -> AccessCount
        ensures { result.count ≡ 0 }
    {
        AccessCount {}
    }

    /// Counts one access.
    pub fn tick(&mut self)
        ensures { self.new.count ≡ self.old.count + 1 }
    {
        *self = self.next();
    }

    // The count after one access more.
    fn next(&self) -> AccessCount
        ensures { result.count ≡ self.now.count + 1 }
    {
        AccessCount {}
    }
}

// (By hand: a derived `Debug` would show a field that takes no bytes.)
impl Debug for AccessCount {
    fn fmt<W: fmt::Write>(&self, f: &mut Formatter<W>) -> fmt::Result {
        f.write_str("AccessCount")
    }
}
