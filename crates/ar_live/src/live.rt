// The array with a history that contracts alone see. Until data loss every unit is what its entries make it; presence
// and length always stay so (`HistoryAgrees`). No memory is requested to record an entry, so what the array does is
// recorded.
ghost use Rattle.std.specs.Prelude.{◌≡◌, [], if◌then◌else◌};
ghost use Rattle.ar_volume.specs.Image.{is_broken};
ghost use Rattle.ar_served.specs.Counts.{no_counts, counts_after, task_counts_after, raised};
ghost use Rattle.ar_served.specs.Kept.{HistoryAgrees};

use crate::history::GhostHistory;
use ar_core::{Array, Health};
use ar_disks::{Disk, Host};
use ar_scsi::Reply;
use ar_served::{Counts, Task};
use std::alloc::Global;
use std::marker::Model;

/// An array whose history contracts alone see. Recording takes no memory, and refuses nothing.
#[derive(Drop)]
pub struct LiveArray<D: Disk> {
    pub(crate) alloc: Global,
    pub(crate) array: Array<D>,
    pub(crate) history: GhostHistory,
    pub(crate) counts: Counts,
    // What has happened to the array; see `LiveArray::events`.
    pub(crate) events: u64,
}

impl<D: Disk> Model for LiveArray<D> {
    ghost use Rattle.ar_served.specs.Kept.{KeptState, HistoryAgrees};

    ghost Value = { KeptState };

    ghost view = { λ live. record {
      array = live.array;
      history = live.history.entries;
      room = 0;
      counts = live.counts;
      events = live.events;
    } };

    ghost invariant = { λ live. HistoryAgrees live.array live.history.entries };
}

impl<D: Disk> LiveArray<D> {
    /// Gives an array without units an empty history.
    pub fn start(alloc: Global, array: Array<D>) -> LiveArray<D>
        requires { array.store.book.units ≡ [] }
        ensures array { result.array ≡ array }
        ensures history { result.history ≡ [] }
        ensures counts { result.counts ≡ no_counts }
        ensures events { result.events ≡ 0 }
    {
        LiveArray {
            alloc,
            array,
            history: GhostHistory::new(),
            counts: Counts::new(),
            events: 0,
        }
    }

    /// Returns the array, for its views. Each unit is what the entries of the history make it: until data loss its
    /// contents, and always its presence and length.
    pub fn array(&self) -> &Array<D>
        ensures array { result.now ≡ self.now.array }
        ensures kept { HistoryAgrees self.now.array self.now.history }
    {
        &self.array
    }

    /// Returns what was counted since the start.
    pub fn counts(&self) -> Counts
        ensures { result ≡ self.now.counts }
    {
        self.counts
    }

    /// Lends the array memory for the data of a READ (`Array::lend_memory`).
    pub fn lend_memory(&mut self, memory: Vec<u8>)
        ensures { self.new ≡ self.old }
    {
        self.array.lend_memory(memory);
    }

    /// Returns a number that is raised by each command, each operation, each part of a flush, and each step of
    /// background work that did something. While it stays, nothing has changed the array.
    pub fn events(&self) -> u64
        ensures { result ≡ self.now.events }
    {
        self.events
    }

    // The array with its history, of which nothing was counted.
    pub(crate) fn with_no_counts(self) -> LiveArray<D>
        ensures { result ≡ record self { counts = no_counts; events = 0 } }
    {
        let mut live = self;
        live.counts = Counts::new();
        live.events = 0;
        live
    }

    /// Returns whether the array has failed.
    pub fn is_lost(&self) -> bool
        ensures { result ≡ is_broken self.now.array }
    {
        is_lost(&self.array)
    }

    /// Counts a command of `host` with `sent` bytes of data-out, and as an event.
    pub fn count_command(&mut self, host: Host, cdb: [u8; 16], sent: u64, reply: &Reply)
        ensures counted { self.new ≡ record self.old {
          counts = counts_after self.old.counts host.number cdb sent reply.now;
          events = raised self.old.events 1;
        } }
        ensures kept { HistoryAgrees self.new.array self.new.history }
    {
        self.counts.add_command(host, cdb, sent, reply);
        self.events = self.events.saturating_add(1);
    }

    /// Counts an operation as an event.
    pub fn count_event(&mut self)
        ensures counted { self.new ≡ record self.old { events = raised self.old.events 1 } }
        ensures kept { HistoryAgrees self.new.array self.new.history }
    {
        self.events = self.events.saturating_add(1);
    }

    // Counts a step of background work, unless it was idle.
    pub(crate) fn count_task(&mut self, task: Task, idle: bool)
        ensures same { self.new ≡ record self.old { counts = self.new.counts; events = self.new.events } }
        ensures counts { self.new.counts ≡ (if idle then self.old.counts
            else record self.old.counts { tasks = task_counts_after self.old.counts.tasks task }) }
        ensures events { self.new.events ≡ (if idle then self.old.events else raised self.old.events 1) }
        ensures kept { HistoryAgrees self.new.array self.new.history }
    {
        if !idle {
            self.counts.add_task(task);
            self.events = self.events.saturating_add(1);
        }
    }
}

// Whether the array has failed.
pub(crate) fn is_lost<D: Disk>(array: &Array<D>) -> bool
    ensures { result ≡ is_broken array.now }
{
    matches!(array.health(), Health::Broken)
}
