// The calls of a file in a list that contracts alone see: it occupies no bytes, and its calls do nothing at run time.
// Two of them are proved by hand, since no generated proof makes such a struct or changes its ghost field.
ghost use Rattle.std.specs.Prelude.{◌≡◌, ℕ, List, [], ◌∷◌};
ghost use Rattle.std.specs.Borrow.{ftrue};
ghost use Rattle.ar_media.specs.declared.record.Call.{Call};

use std::marker::{Model, PhantomData};

/// A call of a file, with its answer. The bytes that it returned or was given stand beside it in a record.
#[derive(Clone, Copy, Debug, PartialEq, Eq)]
pub enum Call {
    /// Returned this length.
    Measured(usize),
    /// Returned bytes from this offset on.
    Read(usize),
    /// Wrote at this offset this many bytes, the first of those that it was given.
    Wrote(usize, usize),
    /// Changed the length to this, or failed to.
    Resized(usize, bool),
    /// Synced the file.
    Synced,
    /// Measured, read or synced, and failed.
    Failed,
}

#[derive(Drop)]
pub(crate) struct CallRecord {
    marker: PhantomData<u8>,
    pub(crate) ghost first: { List ℕ },
    pub(crate) ghost calls: { List (Call × List ℕ) },
}

impl Model for CallRecord {
    ghost also_owns = { λ _. ftrue };
}

impl CallRecord {
    // A record without calls. What the file held at first no clause says, so that what is proved holds of any contents.
    pub(crate) fn new() -> CallRecord
        ensures { result.calls ≡ [] }
    {
        CallRecord {
            marker: PhantomData,
        }
    }

    // Records a call. The newest is the first.
    pub(crate) fn note(&mut self, _call: &Call, _bytes: &[u8])
        ensures { (self.new.calls ≡ (_call.now, _bytes.now) ∷ self.old.calls) × (self.new.first ≡ self.old.first) }
    {}
}
