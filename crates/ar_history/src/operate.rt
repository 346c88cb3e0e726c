// Operations and background work. Capacity for an entry is reserved before the array acts, so that each create, resize
// or delete that is done is recorded.
ghost use Rattle.std.specs.Prelude.{◌≡◌, ◌≢◌, ◌⊎◌, ◌<◌, ◌++◌, true, false, Some, None, IsTrue, length};
ghost use Rattle.ar_volume.specs.Flush.{PartOnDisks, has_flushed};
ghost use Rattle.ar_volume.specs.Image.{is_broken, image};
ghost use Rattle.ar_volume.specs.Sectors.{Address};
ghost use Rattle.ar_core.specs.Step.{Steps, is_quiet};
ghost use Rattle.ar_served.specs.Counts.{CountsNothing, CountsOperation, CountsTask};
ghost use Rattle.ar_served.specs.Kept.{HistoryAgrees, MayGrow, StaysKept, history_entry};
ghost use Rattle.ar_served.specs.Operations.{Does, IsNoMemory, IsRefused, event_of, event_of_task};
ghost use Rattle.ar_live.specs.Live.{entry_asked};
ghost use Rattle.ar_history.specs.Recording.{AllocatesFor};

use crate::Kept;
use ar_core::{Event, EventOf, Outcome, OutcomeOf, PartFlush, Refusal, UnitRefusal};
use ar_disks::{Addr, Disk};
use ar_live::is_done;
use ar_served::{Entry, Operation, OperationOf, Task, reserve_place};
use std::sync::ledger::Ledger;

const NO_MEMORY: Refusal = Refusal::Unit(UnitRefusal::NoMemory);

impl<D: Disk + Drop, L: Ledger> Kept<D, L> {
    /// Executes one operation and returns the array's outcome. A create, resize or delete that is done is the history's
    /// next entry; no other operation changes the history. If a full history can't grow, these three fail with
    /// `NoMemory` and change nothing. Nothing is allocated to record another operation, nor on a failed array, which
    /// refuses these three.
    pub fn operate(&mut self, operation: Operation<D>) -> Outcome<D>
        ensures does { Does self.old.array (event_of operation) result self.new.array }
        ensures recorded { self.new.history ≡ self.old.history ++ history_entry (event_of operation) result }
        ensures kept { StaysKept self.old self.new }
        ensures counts { CountsOperation self.old self.new }

        // The operation fails for lack of memory only if the history has no capacity and gets none, or if the array
        // says so.
        ensures begun { length self.old.history < self.new.room
            → Steps self.old.array (event_of operation) result self.new.array }
        ensures unbegun { self.new.room ≡ length self.old.history → is_broken self.old.array ≡ false
            → entry_asked (event_of operation) ≢ None
            → IsRefused self.old.array (event_of operation) result self.new.array }
        ensures memory { AllocatesFor (event_of operation) self.old self.new }
    {
        // The type's invariant holds before the operation.
        let _ = &self.live;
        let outcome = self.perform(operation);
        self.live.count_event();
        outcome
    }

    /// Executes one piece of background work and returns the array's outcome. The history doesn't change, nor until
    /// data loss does any unit. A step that did something is counted.
    pub fn background(&mut self, task: Task) -> Outcome<D>
        ensures steps { Steps self.old.array (event_of_task task) result self.new.array }
        ensures history { self.new.history ≡ self.old.history }
        ensures room { self.new.room ≡ self.old.room }
        ensures images { is_broken self.new.array ≡ false → (a : Address)
            → image self.new.array a ≡ image self.old.array a }
        ensures kept { StaysKept self.old self.new }
        ensures counts { CountsTask self.old task result self.new }
    {
        self.live.background(task)
    }

    /// Destages those of 64 blocks of the unit at `addr` that are cached, from block `first` on; after `Done` or `More`
    /// the disks have their contents. Returns `Broken` if the array has failed, before or during this call, and else
    /// `Absent` if there is no such unit. The history doesn't change, nor until data loss does any unit.
    pub fn flush_part(&mut self, addr: Addr, first: u32) -> PartFlush
        ensures steps { Steps self.old.array (EventOf.FlushPart addr first) (OutcomeOf.FlushPart result)
            self.new.array }
        ensures on_disks { has_flushed result ≡ true → PartOnDisks self.new.array addr first }
        ensures history { self.new.history ≡ self.old.history }
        ensures room { self.new.room ≡ self.old.room }
        ensures images { is_broken self.new.array ≡ false → (a : Address)
            → image self.new.array a ≡ image self.old.array a }
        ensures kept { StaysKept self.old self.new }
        ensures counts { CountsOperation self.old self.new }
    {
        self.live.flush_part(addr, first)
    }

    // Executes an operation, and counts nothing.
    fn perform(&mut self, operation: Operation<D>) -> Outcome<D>
        ensures does { Does self.old.array (event_of operation) result self.new.array }
        ensures recorded { self.new.history ≡ self.old.history ++ history_entry (event_of operation) result }
        ensures begun { length self.old.history < self.new.room
            → Steps self.old.array (event_of operation) result self.new.array }
        ensures unbegun { self.new.room ≡ length self.old.history → is_broken self.old.array ≡ false
            → entry_asked (event_of operation) ≢ None
            → IsRefused self.old.array (event_of operation) result self.new.array }
        ensures memory { AllocatesFor (event_of operation) self.old self.new }
        ensures uncounted { CountsNothing self.old self.new }
    {
        match operation {
            OperationOf::Make(addr, sectors) => self.change(
                EventOf::Make(addr, sectors),
                Entry::Make(addr, sectors),
                OutcomeOf::Make(Err(NO_MEMORY)),
            ),
            OperationOf::Grow(addr, sectors) => self.change(
                EventOf::Grow(addr, sectors),
                Entry::Grow(addr, sectors),
                OutcomeOf::Grow(Err(NO_MEMORY)),
            ),
            OperationOf::Remove(addr) => self.change(
                EventOf::Remove(addr),
                Entry::Remove(addr),
                OutcomeOf::Remove(Err(NO_MEMORY)),
            ),
            OperationOf::AddDisk(disk) => self.quiet(EventOf::AddDisk(disk)),
            OperationOf::DiskOut(disk) => self.quiet(EventOf::DiskOut(disk)),
            OperationOf::Replace(number, disk) => self.quiet(EventOf::Replace(number, disk)),
        }
    }

    // Executes a maintenance event.
    fn quiet(&mut self, event: Event<D>) -> Outcome<D>
        requires { is_quiet event ≡ true }
        ensures steps { Steps self.old.array event result self.new.array }
        ensures history { self.new.history ≡ self.old.history }
        ensures room { self.new.room ≡ self.old.room }
        ensures images { is_broken self.new.array ≡ false → (a : Address)
            → image self.new.array a ≡ image self.old.array a }
        ensures kept { HistoryAgrees self.old.array self.old.history }
        ensures uncounted { CountsNothing self.old self.new }
    {
        self.live.quiet(event)
    }

    // Executes a create, resize or delete, and records `entry` if it was done. If the history has no capacity for the
    // entry and gets none, nothing is done, and the outcome is `refused`.
    fn change(&mut self, event: Event<D>, entry: Entry, refused: Outcome<D>) -> Outcome<D>
        requires asked { entry_asked event ≡ Some entry }
        requires refused { IsNoMemory event refused }
        ensures does { Does self.old.array event result self.new.array }
        ensures recorded { self.new.history ≡ self.old.history ++ history_entry event result }
        ensures begun { length self.old.history < self.new.room → Steps self.old.array event result self.new.array }
        ensures unbegun { self.new.room ≡ length self.old.history → is_broken self.old.array ≡ false
            → IsRefused self.old.array event result self.new.array }
        ensures memory { AllocatesFor event self.old self.new }
        ensures uncounted { CountsNothing self.old self.new }
    {
        if !self.can_record() {
            return refused;
        }
        let outcome = self.live.change(event, &entry);
        if is_done(&outcome) {
            self.history.push_reserved(entry);
        }
        outcome
    }

    // Whether one more entry can be recorded; a full history grows first. A failed array records nothing and needs no
    // capacity.
    pub(crate) fn can_record(&mut self) -> bool
        ensures array { self.new.array ≡ self.old.array }
        ensures history { self.new.history ≡ self.old.history }
        ensures room { result ≡ true → is_broken self.new.array ≡ false → length self.new.history < self.new.room }
        ensures sound { result ≡ false → is_broken self.old.array ≡ false }
        ensures granted { length self.old.history < self.new.room → result ≡ true }
        ensures placed { length self.old.history < self.old.room → self.new.room ≡ self.old.room }
        ensures grown { MayGrow self.old.room self.new.room }
        ensures lost { is_broken self.old.array ≡ true → self.new.room ≡ self.old.room }
        ensures uncounted { CountsNothing self.old self.new }
    {
        self.live.is_lost() || reserve_place(&mut self.history).is_ok()
    }
}
