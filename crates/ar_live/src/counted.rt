// A live array whose commands are counted in a ledger: a seat's share grows with the history, and nowhere else, so that
// who holds the seat can tell that its commands were executed.
ghost use Rattle.std.specs.Prelude.{◌≡◌, ◌≤◌, ◌∷◌, [], count_by, false, map};
ghost use Rattle.ar_core.specs.Step.{addr_in};
ghost use Rattle.ar_served.specs.Counts.{no_counts};
ghost use Rattle.ar_served.specs.History.{is_command};
ghost use Rattle.ar_served.specs.Kept.{HistoryAgrees};
ghost use Rattle.ar_served.specs.Seat.{SeatState};
ghost use Rattle.ar_served.specs.Served.{AnswersCommand, DestagesPart, DiscardsSectors, Maintains, Operates};
ghost use Rattle.ar_served.specs.Served.{after_refusal};
ghost use Rattle.ar_served.specs.Operations.{event_of};

use crate::{LiveArray, seats};
use ar_core::{Array, Outcome, PartFlush};
use ar_disks::{Addr, Disk, Host};
use ar_scsi::Reply;
use ar_served::{Counts, Operation, Seat, Task};
use bytes::Bytes;
use std::alloc::Global;
use std::marker::Model;
use std::sync::ledger::{Blank, Book, Ledger};

/// A live array with the book of a ledger, which counts the commands in its history. To record a command costs no
/// memory.
#[derive(Drop)]
pub struct CountedArray<D: Disk, L: Ledger> {
    live: LiveArray<D>,
    book: Book<L>,
}

impl<D: Disk, L: Ledger> Model for CountedArray<D, L> {
    ghost use Rattle.std.specs.Prelude.{◌≤◌, count_by};
    ghost use Rattle.ar_served.specs.History.{is_command};
    ghost use Rattle.ar_served.specs.Kept.{KeptState};

    ghost Value = { KeptState };

    ghost view = { λ counted. counted.live };

    ghost invariant = { λ counted. counted.book.total ≤ count_by is_command counted.live.history };
}

impl<D: Disk, L: Ledger> CountedArray<D, L> {
    /// Gives an array without units an empty history, and returns it with the seats of hosts 0 to 3, in order.
    pub fn start(alloc: Global, blank: Blank, array: Array<D>) -> (CountedArray<D, L>, [Seat<L>; 4])
        requires name { blank.name ≡ L.name }
        requires parts { blank.parts ≡ L.parts }
        requires four { blank.parts ≡ 4 }
        requires no_unit { array.store.book.units ≡ [] }
        ensures array { result.0.array ≡ array }
        ensures history { result.0.history ≡ [] }
        ensures counts { result.0.counts ≡ no_counts }
        ensures events { result.0.events ≡ 0 }
        ensures hosts { map (λ (s : SeatState). s.host.number) result.1 ≡ 0 ∷ 1 ∷ 2 ∷ 3 ∷ [] }
        ensures commands { map (λ (s : SeatState). s.commands) result.1 ≡ 0 ∷ 0 ∷ 0 ∷ 0 ∷ [] }
        ensures transcripts { map (λ (s : SeatState). s.transcript) result.1 ≡ [] ∷ [] ∷ [] ∷ [] ∷ [] }
    {
        CountedArray::resume(alloc, blank, LiveArray::start(alloc, array))
    }

    /// Goes on with an array that has a history, as one that was recovered has, and returns it with the seats of
    /// hosts 0 to 3, in order. What is counted begins at zero.
    pub fn resume(
        alloc: Global,
        blank: Blank,
        live: LiveArray<D>,
    ) -> (CountedArray<D, L>, [Seat<L>; 4])
        requires name { blank.name ≡ L.name }
        requires parts { blank.parts ≡ L.parts }
        requires four { blank.parts ≡ 4 }
        ensures array { result.0 ≡ record live { counts = no_counts; events = 0 } }
        ensures hosts { map (λ (s : SeatState). s.host.number) result.1 ≡ 0 ∷ 1 ∷ 2 ∷ 3 ∷ [] }
        ensures commands { map (λ (s : SeatState). s.commands) result.1 ≡ 0 ∷ 0 ∷ 0 ∷ 0 ∷ [] }
        ensures transcripts { map (λ (s : SeatState). s.transcript) result.1 ≡ [] ∷ [] ∷ [] ∷ [] ∷ [] }
    {
        let (book, mut rest) = blank.open::<L>();
        let counted = CountedArray {
            live: live.with_no_counts(),
            book,
        };
        (counted, seats(alloc, &mut rest))
    }

    /// Returns the array, for its views. Each unit is what the entries of the history make it: until data loss its
    /// contents, and always its presence and length.
    pub fn array(&self) -> &Array<D>
        ensures array { result.now ≡ self.now.array }
        ensures kept { HistoryAgrees self.now.array self.now.history }
    {
        self.live.array()
    }

    /// Compares a seat with the ledger: the history has at least the commands that the seat counts.
    pub fn audit_seat(&mut self, seat: &mut Seat<L>)
        ensures same { self.new ≡ self.old }
        ensures seat { seat.new ≡ seat.old }
        ensures counted { seat.old.commands ≤ count_by is_command self.old.history }
    {
        seat.audit(&mut self.book);
    }

    /// Returns what was counted since the start.
    pub fn counts(&self) -> Counts
        ensures { result ≡ self.now.counts }
    {
        self.live.counts()
    }

    /// Returns the number of events (`LiveArray::events`).
    pub fn events(&self) -> u64
        ensures { result ≡ self.now.events }
    {
        self.live.events()
    }

    /// Counts a reply BUSY to a command of `host` that isn't executed, as any other BUSY, and as an event. It allocates
    /// nothing.
    pub fn count_refusal(&mut self, host: Host, cdb: &[u8; 16])
        ensures { self.new ≡ after_refusal self.old host.number cdb.now }
    {
        self.live.count_command(host, *cdb, 0, &Reply::busy());
    }

    /// Lends the array memory for the data of a READ (`Array::lend_memory`).
    pub fn lend_memory(&mut self, memory: Vec<u8>)
        ensures { self.new ≡ self.old }
    {
        self.live.lend_memory(memory);
    }
}

impl<D: Disk + Drop, L: Ledger> CountedArray<D, L> {
    /// Executes a command of the seat's host as `LiveArray::host` does. If it is recorded, the seat's share grows by
    /// one.
    pub fn host(&mut self, seat: &mut Seat<L>, lun: u8, cdb: [u8; 16], payload: Bytes) -> Reply
        ensures { AnswersCommand false self.old seat.old lun cdb payload result self.new seat.new }
    {
        let reply = self.live.host(seat.host(), lun, cdb, payload);
        if self.live.has_recorded(&reply) {
            seat.count(&mut self.book);
        }
        reply
    }

    /// Executes one operation as `LiveArray::operate` does.
    pub fn operate(&mut self, operation: Operation<D>) -> Outcome<D>
        ensures { Operates (event_of operation) self.old result self.new }
    {
        self.live.operate(operation)
    }

    /// Executes one piece of background work as `LiveArray::background` does.
    pub fn background(&mut self, task: Task) -> Outcome<D>
        ensures { Maintains task self.old result self.new }
    {
        self.live.background(task)
    }

    /// Destages a part of the cached blocks of a unit as `LiveArray::flush_part` does.
    pub fn flush_part(&mut self, addr: Addr, first: u32) -> PartFlush
        ensures { DestagesPart self.old addr first result self.new }
    {
        self.live.flush_part(addr, first)
    }

    /// Discards `count` sectors of a host's LUN from `lba` on as `LiveArray::discard` does.
    pub fn discard(&mut self, host: Host, lun: u8, lba: u64, count: u32) -> Reply
        ensures { DiscardsSectors self.old (addr_in host lun) lba count result self.new }
    {
        self.live.discard(host, lun, lba, count)
    }
}
