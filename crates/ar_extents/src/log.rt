// The accesses of a set, in a log that only contracts see: it occupies no bytes, and its calls do nothing at run time.
ghost use Rattle.std.specs.Prelude.{◌≡◌, List, [], ◌∷◌, ◌++◌};
ghost use Rattle.std.specs.Borrow.{ftrue};
ghost use Rattle.ar_extents.specs.declared.log.RowAccess.{RowAccess};

use ar_disks::Place;
use std::marker::Model;

/// What an access does.
#[derive(Clone, Copy, Debug, PartialEq, Eq)]
pub enum AccessKind {
    /// Reads a row of a usable extent.
    Read,
    /// Writes a row of a usable extent.
    Write,
    /// Writes a row of the extent that is rebuilt next, which isn't usable yet.
    Rebuild,
}

/// One access of a disk: a call of its `read` or `write`.
#[derive(Clone, Copy, Debug, PartialEq, Eq)]
pub struct RowAccess {
    /// The extent.
    pub place: Place,
    /// The row of the extent.
    pub row: u16,
    /// What it does.
    pub kind: AccessKind,
    /// What the disk returned: false if it faulted.
    pub answered: bool,
}

// The accesses of a set, the newest last.
#[derive(Drop)]
pub(crate) struct AccessLog {
    pub(crate) ghost accesses: { List RowAccess },
}

impl Model for AccessLog {
    ghost also_owns = { λ _. ftrue };
}

// SAFETY: it owns nothing.
unsafe impl Send for AccessLog {}

impl AccessLog {
    // A log without accesses.
    pub(crate) fn new() -> AccessLog
        ensures { result.accesses ≡ [] }
    {
        AccessLog {}
    }

    // Appends an access.
    pub(crate) fn push(&mut self, access: &RowAccess)
        ensures { self.new.accesses ≡ self.old.accesses ++ access.now ∷ [] }
    {
        *self = self.with(access);
    }

    // The log with one access more.
    fn with(&self, access: &RowAccess) -> AccessLog
        ensures { result.accesses ≡ self.now.accesses ++ access.now ∷ [] }
    {
        AccessLog {}
    }
}
