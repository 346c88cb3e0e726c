// A host's seat. Its share of the ledger is the number of its commands in the history, so that neither the share nor
// the transcript grows without the history.
ghost use Rattle.std.specs.Prelude.{◌≡◌, ◌<◌, ◌≤◌, ◌+◌, ◌++◌, ◌∷◌, [], IsOk, OnOk, length};
ghost use Rattle.ar_served.specs.Kept.{MayGrow};

use crate::{Exchange, reserve_place};
use ar_disks::Host;
use std::alloc::{AllocError, Global};
use std::marker::Model;
use std::sync::ledger::{Book, Ledger, Share};

/// A host's seat: the handle by which it sends commands to the array of the same ledger. Its share of the ledger counts
/// those that are in the array's history, and a kept array writes them into its transcript.
#[derive(Drop)]
pub struct Seat<L: Ledger> {
    host: Host,
    transcript: Vec<Exchange>,
    share: Share<L>,
}

impl<L: Ledger> Model for Seat<L> {
    ghost use Rattle.std.specs.Prelude.{◌<◌, ◌≤◌, vec_len, vec_capacity};
    ghost use Rattle.ar_served.specs.Seat.{SeatState};

    ghost Value = { SeatState };

    ghost view = { λ s. record {
      host = s.host;
      transcript = s.transcript.items;
      room = vec_capacity s.transcript;
      commands = s.share.amount;
    } };

    ghost invariant = { λ s. (0 < s.share.parts) × (vec_len s.transcript ≤ s.share.amount) };
}

impl<L: Ledger> Seat<L> {
    /// Returns a host's seat without a transcript, whose list has no capacity yet. `share` counts the host's commands.
    pub fn new(alloc: Global, host: Host, share: Share<L>) -> Seat<L>
        requires { 0 < share.parts }
        ensures host { result.host ≡ host }
        ensures transcript { result.transcript ≡ [] }
        ensures room { result.room ≡ 0 }
        ensures commands { result.commands ≡ share.amount }
    {
        Seat {
            host,
            transcript: Vec::new(alloc),
            share,
        }
    }

    /// Returns the host of the seat.
    pub fn host(&self) -> Host
        ensures { result ≡ self.now.host }
    {
        self.host
    }

    /// Returns the host's commands with their replies, in the order in which they were done.
    pub fn transcript(&self) -> &[Exchange]
        ensures { result.now ≡ self.now.transcript }
    {
        self.transcript.as_slice()
    }

    /// Reserves capacity for one more command in the transcript (`reserve_place`).
    pub fn reserve(&mut self) -> Result<(), AllocError>
        ensures same { self.new ≡ record self.old { room = self.new.room } }
        ensures place { OnOk result (length self.new.transcript < self.new.room) }
        ensures granted { length self.old.transcript < self.new.room → IsOk result }
        ensures placed { length self.old.transcript < self.old.room
            → IsOk result × (self.new.room ≡ self.old.room) }
        ensures grown { MayGrow self.old.room self.new.room }
    {
        reserve_place(&mut self.transcript)
    }

    /// Appends a command to the transcript, which has capacity for it, and counts it in the ledger.
    pub fn append(&mut self, book: &mut Book<L>, exchange: Exchange)
        requires { length self.old.transcript < self.old.room }
        ensures transcript { self.new.transcript ≡ self.old.transcript ++ exchange ∷ [] }
        ensures host { self.new.host ≡ self.old.host }
        ensures room { self.new.room ≡ self.old.room }
        ensures commands { self.new.commands ≡ self.old.commands + 1 }
        ensures total { book.new.total ≡ book.old.total + 1 }
    {
        self.transcript.push_reserved(exchange);
        book.add(&mut self.share, 1);
    }

    /// Compares the share with the ledger: it is at most the total.
    pub fn audit(&mut self, book: &mut Book<L>)
        ensures same { self.new ≡ self.old }
        ensures total { book.new.total ≡ book.old.total }
        ensures bound { self.old.commands ≤ book.old.total }
    {
        book.audit(&mut self.share);
    }

    /// Counts a command in the ledger, of which no transcript is stored.
    pub fn count(&mut self, book: &mut Book<L>)
        ensures counted { self.new ≡ record self.old { commands = self.old.commands + 1 } }
        ensures total { book.new.total ≡ book.old.total + 1 }
    {
        book.add(&mut self.share, 1);
    }
}
