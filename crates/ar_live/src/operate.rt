// Operations and background work on a live array. Each is one step of the array; each create, resize or delete that is
// done is recorded.
ghost use Rattle.std.specs.Prelude.{◌≡◌, ◌++◌, ◌∷◌, [], true, false, if◌then◌else◌, Some};
ghost use Rattle.ar_volume.specs.Flush.{PartOnDisks, has_flushed};
ghost use Rattle.ar_volume.specs.Image.{is_broken, image};
ghost use Rattle.ar_volume.specs.Sectors.{Address};
ghost use Rattle.ar_core.specs.Step.{Steps, is_quiet};
ghost use Rattle.ar_served.specs.Counts.{CountsNothing, CountsOperation, CountsTask};
ghost use Rattle.ar_served.specs.Kept.{StaysKept, history_entry};
ghost use Rattle.ar_served.specs.Operations.{event_of, event_of_task};
ghost use Rattle.ar_live.specs.Live.{entry_asked, is_done};

use crate::LiveArray;
use ar_core::{Event, EventOf, Outcome, OutcomeOf, PartFlush};
use ar_disks::{Addr, Disk};
use ar_served::{Entry, Operation, OperationOf, Task, is_idle};

impl<D: Disk + Drop> LiveArray<D> {
    /// Executes one operation and returns the array's outcome. A create, resize or delete that is done is the history's
    /// next entry; no other operation changes the history.
    pub fn operate(&mut self, operation: Operation<D>) -> Outcome<D>
        ensures steps { Steps self.old.array (event_of operation) result self.new.array }
        ensures recorded { self.new.history ≡ self.old.history ++ history_entry (event_of operation) result }
        ensures room { self.new.room ≡ self.old.room }
        ensures kept { StaysKept self.old self.new }
        ensures counts { CountsOperation self.old self.new }
    {
        let outcome = self.perform(operation);
        self.count_event();
        outcome
    }

    /// Executes one piece of background work and returns the array's outcome. The history doesn't change, nor until
    /// data loss does any unit. A step that did something is counted.
    pub fn background(&mut self, task: Task) -> Outcome<D>
        ensures steps { Steps self.old.array (event_of_task task) result self.new.array }
        ensures history { self.new.history ≡ self.old.history }
        ensures room { self.new.room ≡ self.old.room }
        ensures images { is_broken self.new.array ≡ false → (a : Address)
            → image self.new.array a ≡ image self.old.array a }
        ensures kept { StaysKept self.old self.new }
        ensures counts { CountsTask self.old task result self.new }
    {
        let outcome = self.quiet(event_in(task));
        self.count_task(task, is_idle(&outcome));
        outcome
    }

    /// Destages those of 64 blocks of the unit at `addr` that are cached, from block `first` on; after `Done` or `More`
    /// the disks have their contents. Returns `Broken` if the array has failed, before or during this call, and else
    /// `Absent` if there is no such unit. The history doesn't change, nor until data loss does any unit.
    pub fn flush_part(&mut self, addr: Addr, first: u32) -> PartFlush
        ensures steps { Steps self.old.array (EventOf.FlushPart addr first) (OutcomeOf.FlushPart result)
            self.new.array }
        ensures on_disks { has_flushed result ≡ true → PartOnDisks self.new.array addr first }
        ensures history { self.new.history ≡ self.old.history }
        ensures room { self.new.room ≡ self.old.room }
        ensures images { is_broken self.new.array ≡ false → (a : Address)
            → image self.new.array a ≡ image self.old.array a }
        ensures kept { StaysKept self.old self.new }
        ensures counts { CountsOperation self.old self.new }
    {
        let answer = self.destage(addr, first);
        self.count_event();
        answer
    }

    // Executes an operation, and counts nothing.
    fn perform(&mut self, operation: Operation<D>) -> Outcome<D>
        ensures steps { Steps self.old.array (event_of operation) result self.new.array }
        ensures recorded { self.new.history ≡ self.old.history ++ history_entry (event_of operation) result }
        ensures room { self.new.room ≡ self.old.room }
        ensures kept { StaysKept self.old self.new }
        ensures uncounted { CountsNothing self.old self.new }
    {
        match operation {
            OperationOf::Make(addr, sectors) => {
                self.change(EventOf::Make(addr, sectors), &Entry::Make(addr, sectors))
            }
            OperationOf::Grow(addr, sectors) => {
                self.change(EventOf::Grow(addr, sectors), &Entry::Grow(addr, sectors))
            }
            OperationOf::Remove(addr) => self.change(EventOf::Remove(addr), &Entry::Remove(addr)),
            OperationOf::AddDisk(disk) => self.quiet(EventOf::AddDisk(disk)),
            OperationOf::DiskOut(disk) => self.quiet(EventOf::DiskOut(disk)),
            OperationOf::Replace(number, disk) => self.quiet(EventOf::Replace(number, disk)),
        }
    }

    /// Executes a maintenance event, and counts nothing.
    pub fn quiet(&mut self, event: Event<D>) -> Outcome<D>
        requires { is_quiet event ≡ true }
        ensures steps { Steps self.old.array event result self.new.array }
        ensures history { self.new.history ≡ self.old.history }
        ensures room { self.new.room ≡ self.old.room }
        ensures images { is_broken self.new.array ≡ false → (a : Address)
            → image self.new.array a ≡ image self.old.array a }
        ensures kept { StaysKept self.old self.new }
        ensures uncounted { CountsNothing self.old self.new }
    {
        self.array.step(self.alloc, event)
    }

    // Destages a part of a unit's cached blocks, and counts nothing.
    fn destage(&mut self, addr: Addr, first: u32) -> PartFlush
        ensures steps { Steps self.old.array (EventOf.FlushPart addr first) (OutcomeOf.FlushPart result)
            self.new.array }
        ensures history { self.new.history ≡ self.old.history }
        ensures room { self.new.room ≡ self.old.room }
        ensures images { is_broken self.new.array ≡ false → (a : Address)
            → image self.new.array a ≡ image self.old.array a }
        ensures kept { StaysKept self.old self.new }
        ensures uncounted { CountsNothing self.old self.new }
    {
        self.array.flush_part(addr, first)
    }

    /// Executes a create, resize or delete, records `entry` if it was done, and counts nothing.
    pub fn change(&mut self, event: Event<D>, entry: &Entry) -> Outcome<D>
        requires { entry_asked event ≡ Some entry.now }
        ensures steps { Steps self.old.array event result self.new.array }
        ensures recorded { self.new.history ≡ self.old.history ++ history_entry event result }
        ensures entry { history_entry event result ≡ (if is_done result then entry.now ∷ [] else []) }
        ensures room { self.new.room ≡ self.old.room }
        ensures kept { StaysKept self.old self.new }
        ensures uncounted { CountsNothing self.old self.new }
    {
        let outcome = self.array.step(self.alloc, event);
        if is_done(&outcome) {
            self.history.push(entry);
        }
        outcome
    }
}

// The event of a piece of background work.
fn event_in<D: Disk>(task: Task) -> Event<D>
    ensures event { result ≡ event_of_task task }
    ensures quiet { is_quiet result ≡ true }
{
    match task {
        Task::Flush => EventOf::Flush,
        Task::Rebuild => EventOf::Rebuild,
        Task::Clean => EventOf::Clean,
        Task::Balance => EventOf::Balance,
        Task::Demote => EventOf::Demote,
    }
}

/// Returns whether a unit was created, extended or deleted.
pub fn is_done<D: Disk>(outcome: &Outcome<D>) -> bool
    ensures { result ≡ is_done outcome.now }
{
    matches!(
        outcome,
        OutcomeOf::Make(Ok(())) | OutcomeOf::Grow(Ok(())) | OutcomeOf::Remove(Ok(()))
    )
}
