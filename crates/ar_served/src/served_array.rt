// An array with its history, as all that serve it use it: hosts, initiators, operators, the maintenance and the pages.
// The history is stored, or seen by contracts alone.
ghost use Rattle.std.specs.Prelude.{◌≡◌, ◌≤◌, Bool, true, false, if◌then◌else◌, count_by, length, None};
ghost use Rattle.ar_book.specs.Tables.{free_groups};
ghost use Rattle.ar_core.specs.Allocation.{allocation_of};
ghost use Rattle.ar_core.specs.Step.{addr_in};
ghost use Rattle.ar_extents.specs.Set.{CanCount};
ghost use Rattle.ar_served.specs.History.{is_command};
ghost use Rattle.ar_served.specs.Kept.{KeptState, HistoryAgrees};
ghost use Rattle.ar_served.specs.Served.{AnswersCommand, DestagesPart, DiscardsSectors, Maintains, Operates, Works};
ghost use Rattle.ar_served.specs.Served.{acknowledges, after_refusal, asks_commit};

use crate::{Counts, Seat, StoreStatus, Task};
use ar_core::{Allocation, Array, EventOf, Outcome, PartFlush};
use ar_disks::{Addr, Disk, Host};
use ar_scsi::Reply;
use bytes::Bytes;
use std::sync::ledger::Ledger;

/// An array that is served, with its history: until data loss each unit is what the history makes it.
///
/// Each call says what the array is afterwards. A command, a piece of maintenance, a flush and a discard are one step
/// of the array each; all other calls leave it as it is. The history and hosts' transcripts are
/// stored, or contracts alone see them; what is done ends with the program, or lasts in a store.
pub trait ServedArray<L: Ledger> {
    /// The array with its history.
    ghost state: { Self → KeptState };

    /// Whether the history and hosts' transcripts are stored.
    ghost stores: { Bool };

    /// Whether there is a store, which may fail, to keep what is done beyond the end of the program.
    ghost persists: { Bool };

    /// What was done so far outlasts the program, where there is a store.
    ghost lasts: { Self → Type 0 };

    /// Returns what was counted since the start.
    fn counts(&self) -> Counts
        ensures { result ≡ (state self.now).counts };

    /// Returns the number of events, which stays while nothing happens to the array.
    fn events(&self) -> u64
        ensures { result ≡ (state self.now).events };

    /// Returns the number of free groups.
    fn free_groups(&self) -> u32
        ensures { result ≡ free_groups (state self.now).array.store.book };

    /// Returns whether block `rb` (from 0) of the unit at `addr` was written, and how many blocks from it on, `most` at
    /// most, are as it is. Blocks that weren't written read as zeros.
    fn allocation(&self, addr: Addr, rb: u32, most: u32) -> Allocation
        ensures allocation { result ≡ allocation_of (state self.now).array addr rb most }
        ensures kept { HistoryAgrees (state self.now).array (state self.now).history };

    /// Returns how many entries of the history are stored.
    fn stored_entries(&self) -> usize
        ensures { result ≡ (if stores then length (state self.now).history else 0) };

    /// Returns for how many entries there is memory.
    fn stored_room(&self) -> usize
        ensures { result ≡ (if stores then (state self.now).room else 0) };

    /// Returns how the store is, if there is one.
    fn store(&self) -> Option<StoreStatus>
        ensures { persists ≡ false → result ≡ None };

    /// Lends memory for the data of a READ, so that it was allocated before the array was waited for.
    fn lend_memory(&mut self, memory: Vec<u8>)
        ensures { state self.new ≡ state self.old };

    /// Executes a command of the seat's host.
    fn ask(&mut self, seat: &mut Seat<L>, lun: u8, cdb: &[u8; 16], payload: Bytes) -> Reply
        ensures { AnswersCommand stores (state self.old) seat.old lun cdb.now payload result (state self.new)
            seat.new };

    /// Counts a reply BUSY to a command of `host` that isn't executed, as any other BUSY, and as an event. It allocates
    /// nothing.
    fn count_refusal(&mut self, host: Host, cdb: &[u8; 16])
        ensures { state self.new ≡ after_refusal (state self.old) host.number cdb.now };

    /// Compares a seat with the history, which has at least the commands that the seat counts. It costs nothing.
    fn audit_seat(&mut self, seat: &mut Seat<L>)
        ensures same { state self.new ≡ state self.old }
        ensures seat { seat.new ≡ seat.old }
        ensures counted { seat.old.commands ≤ count_by is_command (state self.old).history };

    /// Whether the answer to this command waits for a commit. `settle` makes it, unless one that others wait for, too,
    /// has come before.
    fn awaits_commit(&self, cdb: &[u8; 16], reply: &Reply) -> bool;

    /// Returns for how many microseconds a commit is put off, so that others share it.
    fn commit_pause(&self) -> u64;

    /// Commits what was done to the store, if the answer to this command has to wait for that. False where the store
    /// has failed, so that GOOD to a WRITE must not be answered; other answers never wait.
    fn settle(&mut self, cdb: &[u8; 16], reply: &Reply) -> bool
        ensures same { state self.new ≡ state self.old }
        ensures settled { result ≡ true → asks_commit cdb.now reply.now ≡ true → lasts self.new }
        ensures failed { result ≡ false → (persists ≡ true) × (acknowledges cdb.now reply.now ≡ true) };

    /// Commits what was done to the store, if there is one. False where it has failed.
    fn commit(&mut self) -> bool
        ensures same { state self.new ≡ state self.old }
        ensures committed { result ≡ true → lasts self.new }
        ensures failed { result ≡ false → persists ≡ true };

    /// Executes one piece of background work, and returns whether it did anything.
    fn work(&mut self, task: Task) -> bool
        ensures { Works task (state self.old) result (state self.new) };

    /// Destages those of 64 blocks of a unit that are cached, from block `first` on.
    fn flush_part(&mut self, addr: Addr, first: u32) -> PartFlush
        ensures { DestagesPart (state self.old) addr first result (state self.new) };

    /// Discards `count` sectors of a host's LUN from `lba` on.
    fn discard(&mut self, host: Host, lun: u8, lba: u64, count: u32) -> Reply
        ensures { DiscardsSectors (state self.old) (addr_in host lun) lba count result (state self.new) };
}

/// A served array that operators use, with its own type of disk. (What a thread is given may not name the associated
/// type of a bound, so that this is a trait of its own; sessions and maintenance need only the other.)
///
/// An operation is one step of the array, or isn't begun, and returns its outcome. A create, resize or delete that is
/// done is the history's next entry; no other operation changes the history. Where a stored history can't grow, these
/// three fail with `NoMemory` and change nothing.
pub trait OperableArray<L: Ledger>: ServedArray<L> {
    /// The array's disks.
    type Disk: Disk + Drop;

    /// Returns the array, for its views.
    fn array(&self) -> &Array<Self::Disk>
        ensures array { result.now ≡ (Self.state self.now).array }
        ensures kept { HistoryAgrees (Self.state self.now).array (Self.state self.now).history };

    /// Creates a unit of a length in sectors.
    fn make(&mut self, addr: Addr, sectors: u32) -> Outcome<Self::Disk>
        ensures { Operates (EventOf.Make addr sectors) (Self.state self.old) result (Self.state self.new) };

    /// Extends a unit to a length in sectors.
    fn grow(&mut self, addr: Addr, sectors: u32) -> Outcome<Self::Disk>
        ensures { Operates (EventOf.Grow addr sectors) (Self.state self.old) result (Self.state self.new) };

    /// Deletes a unit.
    fn remove(&mut self, addr: Addr) -> Outcome<Self::Disk>
        ensures { Operates (EventOf.Remove addr) (Self.state self.old) result (Self.state self.new) };

    /// Adds a disk, whose fault count must be below its maximum.
    fn add_disk(&mut self, disk: Self::Disk) -> Outcome<Self::Disk>
        requires { CanCount (Self.Disk.state disk) }
        ensures { Operates (EventOf.AddDisk (Self.Disk.state disk)) (Self.state self.old) result
            (Self.state self.new) };

    /// Takes a disk out, by its number.
    fn take_out(&mut self, number: u8) -> Outcome<Self::Disk>
        ensures { Operates (EventOf.DiskOut number) (Self.state self.old) result (Self.state self.new) };

    /// Replaces the failed disk of this number by one whose fault count must be below its maximum.
    fn replace(&mut self, number: u8, disk: Self::Disk) -> Outcome<Self::Disk>
        requires { CanCount (Self.Disk.state disk) }
        ensures { Operates (EventOf.Replace number (Self.Disk.state disk)) (Self.state self.old) result
            (Self.state self.new) };

    /// Executes one piece of background work, and returns its outcome.
    fn background(&mut self, task: Task) -> Outcome<Self::Disk>
        ensures { Maintains task (Self.state self.old) result (Self.state self.new) };
}
