// A history that contracts alone see. Its list is ghost: it occupies no bytes, and its calls do nothing at run time.
// Four of them are proved by hand, since no generated proof makes such a struct.
ghost use Rattle.std.specs.Prelude.{◌≡◌, List, [], ◌∷◌, ◌++◌, if◌then◌else◌};
ghost use Rattle.std.specs.Borrow.{ftrue};
ghost use Rattle.ar_served.specs.declared.entry.Entry.{Entry};

use ar_disks::Host;
use ar_scsi::Reply;
use ar_served::Entry;
use bytes::Bytes;
use std::marker::Model;
use std::snapshot::Snapshot;

/// A history that takes no memory: only contracts see its entries.
#[derive(Drop)]
pub struct GhostHistory {
    pub ghost entries: { List Entry },
}

impl Model for GhostHistory {
    ghost also_owns = { λ _. ftrue };
}

// SAFETY: it owns nothing.
unsafe impl Send for GhostHistory {}

/// A host's command. Contracts alone see its payload, which the array has consumed by the time there is a reply.
#[derive(Drop)]
pub struct Asked {
    pub host: Host,
    pub lun: u8,
    pub cdb: [u8; 16],
    pub payload: Snapshot<Bytes>,
}

impl GhostHistory {
    ghost use Rattle.ar_live.specs.Live.{before_last};
    ghost use Rattle.ar_served.specs.Kept.{exchange_of};

    // A history without entries.
    pub(crate) fn new() -> GhostHistory
        ensures { result.entries ≡ [] }
    {
        GhostHistory {}
    }

    // Appends an entry.
    pub(crate) fn push(&mut self, entry: &Entry)
        ensures { self.new.entries ≡ self.old.entries ++ entry.now ∷ [] }
    {
        *self = self.with(entry);
    }

    // Appends an entry, unless the array is lost.
    pub(crate) fn push_unless(&mut self, entry: &Entry, lost: bool)
        ensures { self.new.entries ≡ self.old.entries ++ (if lost then [] else entry.now ∷ []) }
    {
        if !lost {
            *self = self.with(entry);
        }
    }

    // Appends a command with its reply, if it is recorded.
    pub(crate) fn record(&mut self, asked: &Asked, reply: &Reply, recorded: bool)
        ensures { self.new.entries ≡ self.old.entries ++ (if recorded
            then Entry.Cmd asked.now.host
            (exchange_of asked.now.lun asked.now.cdb asked.now.payload.value reply.now) ∷ []
            else []) }
    {
        if recorded {
            *self = self.with_command(asked, reply);
        }
    }

    // Removes the last entry.
    pub(crate) fn pop(&mut self)
        ensures { self.new.entries ≡ before_last self.old.entries }
    {
        *self = self.without_last();
    }

    // The history with one entry more.
    fn with(&self, entry: &Entry) -> GhostHistory
        ensures { result.entries ≡ self.now.entries ++ entry.now ∷ [] }
    {
        GhostHistory {}
    }

    // The history with one command more.
    fn with_command(&self, asked: &Asked, reply: &Reply) -> GhostHistory
        ensures { result.entries ≡ self.now.entries
            ++ Entry.Cmd asked.now.host (exchange_of asked.now.lun asked.now.cdb asked.now.payload.value reply.now)
            ∷ [] }
    {
        GhostHistory {}
    }

    // The history without its last entry.
    fn without_last(&self) -> GhostHistory
        ensures { result.entries ≡ before_last self.now.entries }
    {
        GhostHistory {}
    }
}
