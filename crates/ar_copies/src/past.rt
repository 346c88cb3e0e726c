// What the copies of a file were before each of its calls, and the calls, in two lists that contracts alone see: they
// occupy no bytes, and their calls do nothing at run time. Those are proved by hand, since no generated proof makes
// such a struct or changes its ghost field.
ghost use Rattle.std.specs.Prelude.{◌≡◌, ℕ, List, [], ◌∷◌};
ghost use Rattle.std.specs.Borrow.{ftrue};
ghost use Rattle.ar_media.specs.declared.record.Call.{Call};

use ar_media::Call;
use std::marker::{Model, PhantomData};

/// Values that something had, the newest first.
#[derive(Drop)]
pub struct Past<T> {
    of: PhantomData<T>,
    pub ghost items: { List T },
}

impl<T> Model for Past<T> {
    ghost also_owns = { λ _. ftrue };
}

// SAFETY: it owns nothing.
unsafe impl<T: Send> Send for Past<T> {}

impl<T> Past<T> {
    // No values.
    pub(crate) fn new() -> Past<T>
        ensures { result.items ≡ [] }
    {
        Past { of: PhantomData }
    }

    // These values, and one that is newer.
    pub(crate) fn with(&self, newest: &T) -> Past<T>
        ensures { result.items ≡ newest.now ∷ self.now.items }
    {
        Past { of: PhantomData }
    }
}

/// Calls of a file with the bytes that each returned or was given, the newest first.
#[derive(Drop)]
pub struct CallList {
    marker: PhantomData<u8>,
    pub ghost calls: { List (Call × List ℕ) },
}

impl Model for CallList {
    ghost also_owns = { λ _. ftrue };
}

// SAFETY: it owns nothing.
unsafe impl Send for CallList {}

impl CallList {
    // No calls.
    pub(crate) fn new() -> CallList
        ensures { result.calls ≡ [] }
    {
        CallList {
            marker: PhantomData,
        }
    }

    // Records a call.
    pub(crate) fn note(&mut self, _call: &Call, _bytes: &[u8])
        ensures { self.new.calls ≡ (_call.now, _bytes.now) ∷ self.old.calls }
    {}
}
