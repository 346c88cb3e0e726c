// The seats that no session holds. A place has its own host's seat or none, so that a host has one session at a time.
ghost use Rattle.std.specs.Prelude.{◌≡◌, ◌<◌, ℕ, [], ◌∷◌, map, set, Option, Some, None, is_some, not, true, false};
ghost use Rattle.std.specs.Prelude.{IfOk, IfErr, OnErr, IfSome};
ghost use Rattle.std.specs.List.{list_all};
ghost use Rattle.ar_served.specs.Seat.{SeatState};
ghost use Rattle.ar_sessions.specs.Desk.{AreOwn, HandsOut, Lends, Places, seat_at, receipt_of, session_after};

use crate::timing::CommandTime;
use ar_disks::Host;
use ar_latency::CommandLatencies;
use ar_scsi::{Reply, Status};
use ar_served::Seat;
use std::marker::Model;
use std::sync::ledger::Ledger;

/// A desk that lends each host's seat to one session at a time.
pub trait SeatDesk<L: Ledger> {
    /// What a look into the place of a host may find, by the host's number: its seat, or none. Only a desk defines it,
    /// so that no other code can report a seat as missing that is in its place.
    ghost finds: { ℕ → Option SeatState → Type 0 };

    /// The places of the four hosts: each has its seat, or none.
    ghost places: { Self → Places };

    /// Moves a host's seat to `slot`. False: it isn't in its place.
    fn lend(&mut self, host: Host, slot: &mut SeatSlot<L>) -> bool
        ensures lends { Lends finds host.number slot.old result slot.new }
        ensures hands { HandsOut host.number (places self.old) slot.old result (places self.new) slot.new };

    /// Notes the port of 127.0.0.1 that a host's session comes from, over TCP. No seat moves.
    fn note_peer(&mut self, host: Host, peer: u16)
        ensures { places self.new ≡ places self.old };

    /// Counts a command of a host's session, by the number of bytes of its data and its reply, and notes its time, if
    /// that was taken. No seat moves.
    fn count_command(&mut self, host: Host, sent: usize, reply: &Reply, time: Option<CommandTime>)
        ensures { places self.new ≡ places self.old };

    /// Notes the time of what a session asked for beside its commands, if that was taken. No seat moves.
    fn note_time(&mut self, time: Option<CommandTime>)
        ensures { places self.new ≡ places self.old };
}

/// Room for one seat.
#[derive(Drop)]
pub struct SeatSlot<L: Ledger> {
    seat: Option<Seat<L>>,
}

impl<L: Ledger> Model for SeatSlot<L> {
    ghost use Rattle.std.specs.Prelude.{Option};
    ghost use Rattle.ar_served.specs.Seat.{SeatState};

    ghost Value = { Option SeatState };

    ghost view = { λ slot. slot.seat };
}

/// The seats of hosts 0 to 3: each is in its own place, or held by a session.
#[derive(Drop)]
pub struct Desk<L: Ledger> {
    places: [Option<Seat<L>>; 4],
    // By host, what its session did so far; zero while it has none. No contract sees them.
    counts: [SessionCounts; 4],
    // By host, the port of 127.0.0.1 that its session comes from, if that was noted.
    peers: [Option<u16>; 4],
    // How long the commands of all sessions took, since the start.
    latencies: CommandLatencies,
}

/// What a session did so far. The numbers saturate.
#[derive(Clone, Copy, Debug, PartialEq, Eq)]
pub struct SessionCounts {
    /// Frames whose commands were executed or answered BUSY.
    pub frames: u64,
    /// Bytes of data in replies.
    pub read: u64,
    /// Bytes of data of commands that ended with GOOD.
    pub written: u64,
}

impl<L: Ledger> Model for Desk<L> {
    ghost use Rattle.ar_sessions.specs.Desk.{Places, AreOwn};

    ghost Value = { Places };

    ghost view = { λ desk. desk.places };

    ghost invariant = { λ desk. AreOwn desk.places };
}

/// Proof that a seat was returned to a desk: its host, and the number of commands in its transcript then. Only
/// `Desk::give` makes one.
#[derive(Drop)]
pub struct Receipt {
    host: Host,
    commands: usize,
}

impl Model for Receipt {
    ghost use Rattle.ar_sessions.specs.Desk.{ReceiptState};

    ghost Value = { ReceiptState };

    ghost view = { λ receipt. record { host = receipt.host; commands = receipt.commands } };
}

impl SessionCounts {
    const NONE: SessionCounts = SessionCounts {
        frames: 0,
        read: 0,
        written: 0,
    };

    // The counts after a command, by the number of bytes of its data and its reply.
    fn after(self, sent: usize, reply: &Reply) -> SessionCounts
        ensures { result ≡ session_after self sent reply.now }
    {
        let accepted = match reply.status {
            Status::Good => sent as u64,
            _ => 0,
        };
        SessionCounts {
            frames: self.frames.saturating_add(1),
            read: self.read.saturating_add(reply.payload.len() as u64),
            written: self.written.saturating_add(accepted),
        }
    }
}

impl Receipt {
    /// Whose seat was returned.
    pub fn host(&self) -> Host
        ensures { result ≡ self.now.host }
    {
        self.host
    }
}

impl<L: Ledger> Desk<L> {
    /// A desk with all four seats, in order of host.
    pub fn new(seats: [Seat<L>; 4]) -> Desk<L>
        requires { map (λ (s : SeatState). s.host.number) seats ≡ 0 ∷ 1 ∷ 2 ∷ 3 ∷ [] }
        ensures { result ≡ map Some seats }
    {
        Desk {
            places: seats.map(Some),
            counts: [SessionCounts::NONE; 4],
            peers: [None; 4],
            latencies: CommandLatencies::NONE,
        }
    }

    /// Takes a host's seat. None: its place is empty.
    pub fn take(&mut self, host: Host) -> Option<Seat<L>>
        ensures seat { result ≡ seat_at self.old host.number }
        ensures own { IfSome result (λ seat. seat.host.number ≡ host.number) }
        ensures left { self.new ≡ set self.old host.number None }
        ensures sound { AreOwn self.old }
    {
        self.places[usize::from(host.number())].take()
    }

    /// Counts a command of a host's session, by the number of bytes of its data and its reply.
    pub fn count(&mut self, host: Host, sent: usize, reply: &Reply)
        ensures { self.new ≡ self.old }
    {
        let counts = &mut self.counts[usize::from(host.number())];
        *counts = counts.after(sent, reply);
    }

    /// Notes the port of 127.0.0.1 that a host's session comes from.
    pub fn set_peer(&mut self, host: Host, peer: u16)
        ensures { self.new ≡ self.old }
    {
        self.peers[usize::from(host.number())] = Some(peer);
    }

    /// The port of 127.0.0.1 that a host's session comes from, if that was noted.
    pub fn peer(&self, host: Host) -> Option<u16> {
        self.peers[usize::from(host.number())]
    }

    /// Notes the time of a command, if that was taken.
    pub fn time(&mut self, time: Option<CommandTime>)
        ensures { self.new ≡ self.old }
    {
        if let Some(CommandTime { operation, micros }) = time {
            self.latencies.note(operation, micros);
        }
    }

    /// How long the commands of all sessions took, since the start.
    pub fn latencies(&self) -> CommandLatencies {
        self.latencies
    }

    /// What a host's session did so far. None: it has no session.
    pub fn counts(&self, host: Host) -> Option<SessionCounts>
        ensures { is_some result ≡ not (is_some (seat_at self.now host.number)) }
    {
        match &self.places[usize::from(host.number())] {
            Some(_) => None,
            None => Some(self.counts[usize::from(host.number())]),
        }
    }

    /// Returns a seat to its host's place, for a receipt. A seat that is in the place already is dropped; of one array
    /// there is no second.
    pub fn give(&mut self, seat: Seat<L>) -> Receipt
        ensures place { self.new ≡ set self.old seat.host.number (Some seat) }
        ensures receipt { result ≡ receipt_of seat }
    {
        let host = seat.host();
        let commands = seat.transcript().len();
        self.counts[usize::from(host.number())] = SessionCounts::NONE;
        self.peers[usize::from(host.number())] = None;
        self.places[usize::from(host.number())] = Some(seat);
        Receipt { host, commands }
    }

    /// Returns the four seats in order of host or, if one is missing, the desk as it was.
    pub fn seats(self) -> Result<[Seat<L>; 4], Desk<L>>
        ensures seats { IfOk result (λ seats. self ≡ map Some seats) }
        ensures hosts { IfOk result (λ seats. map (λ (s : SeatState). s.host.number) seats ≡ 0 ∷ 1 ∷ 2 ∷ 3 ∷ []) }
        ensures out { OnErr result (list_all is_some self ≡ false) }
        ensures unchanged { IfErr result (λ desk. desk ≡ self) }
    {
        if !self.is_whole() {
            return Err(self);
        }
        let mut desk = self;
        Ok([desk.lift(0), desk.lift(1), desk.lift(2), desk.lift(3)])
    }

    // Whether no seat is missing.
    fn is_whole(&self) -> bool
        ensures { result ≡ list_all is_some self.now }
    {
        self.places.iter().all(|place| place.is_some())
    }

    // Takes a seat that is in its place.
    fn lift(&mut self, number: u8) -> Seat<L>
        requires few { number < 4 }
        requires there { is_some (seat_at self.old number) ≡ true }
        ensures seat { seat_at self.old number ≡ Some result }
        ensures left { self.new ≡ set self.old number None }
    {
        match self.places[usize::from(number)].take() {
            Some(seat) => seat,
            None => unreachable!(),
        }
    }
}

impl<L: Ledger> SeatSlot<L> {
    /// Without a seat.
    pub fn new() -> SeatSlot<L>
        ensures { result ≡ None }
    {
        SeatSlot { seat: None }
    }

    /// The seat, if there is one.
    pub fn into_seat(self) -> Option<Seat<L>>
        ensures { result ≡ self }
    {
        self.seat
    }
}

impl<L: Ledger> SeatDesk<L> for Desk<L> {
    ghost use Rattle.ar_sessions.specs.Desk.{IsFound};

    ghost finds = { λ number found. IsFound number found };

    ghost places = { λ desk. desk };

    fn lend(&mut self, host: Host, slot: &mut SeatSlot<L>) -> bool {
        match self.take(host) {
            Some(seat) => {
                slot.seat = Some(seat);
                true
            }
            None => false,
        }
    }

    fn note_peer(&mut self, host: Host, peer: u16) {
        self.set_peer(host, peer);
    }

    fn count_command(&mut self, host: Host, sent: usize, reply: &Reply, time: Option<CommandTime>) {
        self.count(host, sent, reply);
        self.time(time);
    }

    fn note_time(&mut self, time: Option<CommandTime>) {
        self.time(time);
    }
}
