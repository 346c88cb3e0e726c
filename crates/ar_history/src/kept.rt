// A live array with its history stored: the stored list is the one that contracts see of the live array, so that what
// is proved of that one (`HistoryAgrees`) is true of it. The ledger's total is the number of commands in the history.
ghost use Rattle.std.specs.Prelude.{◌≡◌, ◌≤◌, [], ◌∷◌, count_by, map};
ghost use Rattle.ar_served.specs.Counts.{no_counts};
ghost use Rattle.ar_served.specs.History.{is_command};
ghost use Rattle.ar_served.specs.Kept.{HistoryAgrees};
ghost use Rattle.ar_served.specs.Seat.{SeatState};
ghost use Rattle.ar_served.specs.Served.{after_refusal};

use ar_core::Array;
use ar_disks::{Disk, Host};
use ar_live::{LiveArray, seats};
use ar_scsi::Reply;
use ar_served::{Counts, Entry, Seat};
use std::alloc::Global;
use std::marker::Model;
use std::sync::ledger::{Blank, Book, Ledger};

/// An array with its stored history. The ledger counts the commands in it; each seat's share counts those of its host.
///
/// A history is append-only. An entry takes 136 bytes, and a command another 128 bytes in its host's transcript; both
/// full lists grow by half of their capacity, from four on. Data-out and reply bytes are stored once, however many
/// share them: a READ or WRITE of n sectors keeps 512 n bytes.
#[derive(Drop)]
pub struct Kept<D: Disk, L: Ledger> {
    pub(crate) live: LiveArray<D>,
    pub(crate) history: Vec<Entry>,
    pub(crate) book: Book<L>,
}

impl<D: Disk, L: Ledger> Model for Kept<D, L> {
    ghost use Rattle.std.specs.Prelude.{◌≡◌, count_by, vec_capacity};
    ghost use Rattle.ar_served.specs.History.{is_command};
    ghost use Rattle.ar_served.specs.Kept.{KeptState, HistoryAgrees};

    ghost Value = { KeptState };

    ghost view = { λ k. record {
      array = k.live.array;
      history = k.history.items;
      room = vec_capacity k.history;
      counts = k.live.counts;
      events = k.live.events;
    } };

    ghost invariant = { λ k. HistoryAgrees k.live.array k.history.items
        × (k.book.total ≡ count_by is_command k.history.items)
        × (k.live.history ≡ k.history.items) };
}

impl<D: Disk, L: Ledger> Kept<D, L> {
    /// Gives an array without units an empty history, and returns it with the seats of hosts 0 to 3, in order.
    pub fn start(alloc: Global, blank: Blank, array: Array<D>) -> (Kept<D, L>, [Seat<L>; 4])
        requires name { blank.name ≡ L.name }
        requires parts { blank.parts ≡ L.parts }
        requires four { blank.parts ≡ 4 }
        requires no_unit { array.store.book.units ≡ [] }
        ensures array { result.0.array ≡ array }
        ensures history { result.0.history ≡ [] }
        ensures counts { result.0.counts ≡ no_counts }
        ensures events { result.0.events ≡ 0 }
        ensures hosts { map (λ (s : SeatState). s.host.number) result.1 ≡ 0 ∷ 1 ∷ 2 ∷ 3 ∷ [] }
        ensures transcripts { map (λ (s : SeatState). s.transcript) result.1 ≡ [] ∷ [] ∷ [] ∷ [] ∷ [] }

        // History and transcripts have no capacity yet.
        ensures room { result.0.room ≡ 0 }
        ensures rooms { map (λ (s : SeatState). s.room) result.1 ≡ 0 ∷ 0 ∷ 0 ∷ 0 ∷ [] }
    {
        let (book, mut rest) = blank.open::<L>();
        let kept = Kept {
            live: LiveArray::start(alloc, array),
            history: Vec::new(alloc),
            book,
        };
        (kept, seats(alloc, &mut rest))
    }

    /// Compares a seat with the ledger: the history has at least the commands that the seat counts.
    pub fn audit_seat(&mut self, seat: &mut Seat<L>)
        ensures same { self.new ≡ self.old }
        ensures seat { seat.new ≡ seat.old }
        ensures counted { seat.old.commands ≤ count_by is_command self.old.history }
    {
        seat.audit(&mut self.book);
    }

    /// Returns the entries so far, in the order in which they were done. Each unit is what its entries make it: until
    /// data loss its contents, and always its presence and length.
    pub fn history(&self) -> &[Entry]
        ensures history { result.now ≡ self.now.history }
        ensures kept { HistoryAgrees self.now.array self.now.history }
    {
        self.history.as_slice()
    }

    /// Returns how many entries the history's list has memory for.
    pub fn capacity(&self) -> usize
        ensures { result ≡ self.now.room }
    {
        self.history.capacity()
    }

    /// Returns the array, for its views.
    pub fn array(&self) -> &Array<D>
        ensures array { result.now ≡ self.now.array }
        ensures kept { HistoryAgrees self.now.array self.now.history }
    {
        self.live.array()
    }

    /// Returns what was counted since the start.
    pub fn counts(&self) -> Counts
        ensures { result ≡ self.now.counts }
    {
        self.live.counts()
    }

    /// Counts a reply BUSY to a command of `host` that isn't executed, as any other BUSY, and as an event. It allocates
    /// nothing.
    pub fn count_refusal(&mut self, host: Host, cdb: &[u8; 16])
        ensures { self.new ≡ after_refusal self.old host.number cdb.now }
    {
        self.live.count_command(host, *cdb, 0, &Reply::busy());
    }

    /// Lends the array memory for the data of a READ (`Array::lend_memory`).
    pub fn lend_memory(&mut self, memory: Vec<u8>)
        ensures { self.new ≡ self.old }
    {
        self.live.lend_memory(memory);
    }

    /// Returns a number that is raised by each command, each operation, each part of a flush, and each step of
    /// background work that did something. While it stays, nothing has changed the array.
    pub fn events(&self) -> u64
        ensures { result ≡ self.now.events }
    {
        self.live.events()
    }
}
