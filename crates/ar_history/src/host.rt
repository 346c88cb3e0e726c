// Commands of hosts. Capacity in both lists is reserved before the array acts, so that history and transcript record a
// command together, or neither does.
ghost use Rattle.std.specs.Prelude.{◌≡◌, ◌≢◌, ◌⊎◌, ◌+◌, ◌<◌, ◌++◌, ◌∷◌, ◌↔◌, [], None, true, false, IsOk, IfOk, OnOk};
ghost use Rattle.std.specs.Prelude.{length, vec_len, vec_capacity};
ghost use Rattle.ar_volume.specs.Image.{is_broken};
ghost use Rattle.ar_scsi.specs.Reply.{busy};
ghost use Rattle.ar_core.specs.Step.{Steps, is_busy};
ghost use Rattle.ar_served.specs.Counts.{CountsCommand, CountsNothing};
ghost use Rattle.ar_served.specs.Kept.{StaysKept, exchange_of};
ghost use Rattle.ar_served.specs.Serving.{Begins, BeginsByPlace, DoesCommand, HasCapacity};
ghost use Rattle.ar_served.specs.Serving.{Allocates, ServesCommand};
ghost use Rattle.ar_live.specs.Live.{LeavesStorage};
ghost use Rattle.ar_history.specs.Recording.{ServesHost, with_reply};

use crate::Kept;
use ar_core::{EventOf, OutcomeOf};
use ar_disks::{Disk, Host};
use ar_scsi::Reply;
use ar_served::{Entry, Exchange, Seat, reserve_place};
use bytes::Bytes;
use std::alloc::AllocError;
use std::sync::ledger::{Book, Ledger};

/// The reply to a host's command, and where it is recorded.
#[derive(Debug, Drop, PartialEq, Eq)]
pub struct Served {
    pub reply: Reply,
    /// The position of the command's entry in the history, from 0; `None` if the reply is BUSY or the array has failed.
    pub at: Option<u64>,
}

// The copies of a command for history and transcript, before its reply.
#[derive(Drop)]
struct Copies {
    ours: Exchange,
    theirs: Exchange,
}

impl<D: Disk + Drop, L: Ledger> Kept<D, L> {
    /// Executes a command of the seat's host to its LUN `lun`: `cdb` is padded with zeros, `payload` is the data-out.
    /// Unless the reply is BUSY or the array has failed, history and transcript have both grown by the command with its
    /// reply, which is the one that the unit's own entries give, and the seat's share by one. If memory to record the
    /// command can't be allocated, the reply is BUSY and the command isn't begun; if the bytes of its reply can't be
    /// shared, it is BUSY, too, and no unit has changed. For a failed array nothing is allocated to record it.
    pub fn host(&mut self, seat: &mut Seat<L>, lun: u8, cdb: [u8; 16], payload: Bytes) -> Served
        ensures serves { ServesHost self.old seat.old lun cdb payload result.reply result.at self.new seat.new }
        ensures does { DoesCommand self.old.array seat.old.host lun cdb payload result.reply self.new.array }
        ensures host { seat.new.host ≡ seat.old.host }
        ensures kept { StaysKept self.old self.new }
        ensures counts { CountsCommand self.old seat.old.host.number cdb (length payload) result.reply self.new }

        // Out of memory, and what BUSY leaves unchanged. A list with capacity left keeps it; a full one may grow.
        // Nothing grows for a failed array.
        ensures begun { BeginsByPlace self.old seat.old lun cdb payload result.reply self.new seat.new }
        ensures busy { is_busy result.reply.status ≡ true → LeavesStorage self.old.array self.new.array }
        ensures memory { Allocates self.old seat.old self.new seat.new }
    {
        // The type's invariant holds before the command.
        let _ = &self.live;
        let sent = payload.len() as u64;
        let served = self.execute(seat, lun, cdb, payload);
        self.live
            .count_command(seat.host(), cdb, sent, &served.reply);
        served
    }

    // Executes a command of the seat's host, and counts nothing.
    fn execute(&mut self, seat: &mut Seat<L>, lun: u8, cdb: [u8; 16], payload: Bytes) -> Served
        ensures serves { ServesHost self.old seat.old lun cdb payload result.reply result.at self.new seat.new }
        ensures does { DoesCommand self.old.array seat.old.host lun cdb payload result.reply self.new.array }
        ensures host { seat.new.host ≡ seat.old.host }
        ensures uncounted { CountsNothing self.old self.new }

        ensures begun { BeginsByPlace self.old seat.old lun cdb payload result.reply self.new seat.new }
        ensures busy { is_busy result.reply.status ≡ true → LeavesStorage self.old.array self.new.array }
        ensures memory { Allocates self.old seat.old self.new seat.new }
    {
        if self.live.is_lost() {
            return self.unrecorded(seat.host(), lun, cdb, payload);
        }
        match self.prepare(seat, lun, cdb, &payload) {
            Ok(copies) => self.execute_prepared(seat, copies, payload),
            Err(_) => Served::busy(),
        }
    }

    // Executes a command on a failed array.
    fn unrecorded(&mut self, host: Host, lun: u8, cdb: [u8; 16], payload: Bytes) -> Served
        requires { is_broken self.old.array ≡ true }
        ensures serves { ServesCommand self.old.array self.old.history host lun cdb payload result.reply self.new.array
            self.new.history }
        ensures broken { is_broken self.new.array ≡ true }
        ensures steps { Steps self.old.array (EventOf.Cmd host lun cdb payload)
            (OutcomeOf.Cmd result.reply) self.new.array }
        ensures at { result.at ≡ None }
        ensures room { self.new.room ≡ self.old.room }
        ensures uncounted { CountsNothing self.old self.new }
    {
        let reply = self.live.execute(host, lun, cdb, payload);
        Served { reply, at: None }
    }

    // Reserves capacity in history and transcript, and makes both copies of a command.
    fn prepare(
        &mut self,
        seat: &mut Seat<L>,
        lun: u8,
        cdb: [u8; 16],
        payload: &Bytes,
    ) -> Result<Copies, AllocError>
        requires { is_broken self.old.array ≡ false }
        ensures copies { IfOk result (λ copies. (copies.ours ≡ exchange_of lun cdb payload.now busy)
            × (copies.theirs ≡ exchange_of lun cdb payload.now busy)) }
        ensures room { OnOk result (length self.new.history < self.new.room) }
        ensures seat_room { OnOk result (length seat.new.transcript < seat.new.room) }
        ensures granted { HasCapacity self.old self.new seat.old seat.new payload.now → IsOk result }
        ensures memory { Allocates self.old seat.old self.new seat.new }

        ensures same { self.new ≡ record self.old { room = self.new.room } }
        ensures same_seat { seat.new ≡ record seat.old { room = seat.new.room } }
    {
        reserve_place(&mut self.history)?;
        seat.reserve()?;
        Copies::new(lun, cdb, payload)
    }

    // Executes a command for which capacity is reserved, and records it unless the reply is BUSY or the array fails.
    fn execute_prepared(&mut self, seat: &mut Seat<L>, copies: Copies, payload: Bytes) -> Served
        requires sound { is_broken self.old.array ≡ false }
        requires same { copies.theirs ≡ copies.ours }
        requires payload { copies.ours.payload ≡ payload }
        requires room { length self.old.history < self.old.room }
        requires seat_room { length seat.old.transcript < seat.old.room }

        ensures serves { ServesHost self.old seat.old copies.ours.lun copies.ours.cdb payload
            result.reply result.at self.new seat.new }
        ensures begun { Begins self.old.array seat.old.host copies.ours.lun copies.ours.cdb payload
            result.reply self.new.array }
        ensures host { seat.new.host ≡ seat.old.host }

        ensures kept_room { self.new.room ≡ self.old.room }
        ensures kept_seat_room { seat.new.room ≡ seat.old.room }
        ensures uncounted { CountsNothing self.old self.new }
    {
        let reply = self
            .live
            .execute(seat.host(), copies.ours.lun, copies.ours.cdb, payload);
        if !self.live.has_recorded(&reply) {
            return Served { reply, at: None };
        }
        let mut copies = copies;
        if !copies.answer(&reply) {
            self.live.withdraw();
            return Served::busy();
        }
        let at = record(&mut self.history, &mut self.book, seat, copies);
        Served {
            reply,
            at: Some(at),
        }
    }
}

impl Served {
    // BUSY, when out of memory.
    fn busy() -> Served
        ensures reply { result.reply ≡ busy }
        ensures at { result.at ≡ None }
    {
        Served {
            reply: Reply::busy(),
            at: None,
        }
    }
}

impl Copies {
    // Two copies of a command that share its data; without data it never fails.
    fn new(lun: u8, cdb: [u8; 16], payload: &Bytes) -> Result<Copies, AllocError>
        ensures granted { payload.now ≡ [] → IsOk result }
        ensures ours { IfOk result (λ copies. copies.ours ≡ exchange_of lun cdb payload.now busy) }
        ensures theirs { IfOk result (λ copies. copies.theirs ≡ exchange_of lun cdb payload.now busy) }
    {
        Ok(Copies {
            ours: exchange(lun, cdb, payload)?,
            theirs: exchange(lun, cdb, payload)?,
        })
    }

    // Sets the reply of both copies. Returns false when the allocation to share the reply's bytes fails.
    fn answer(&mut self, reply: &Reply) -> bool
        ensures ours { result ≡ true → self.new.ours ≡ with_reply self.old.ours reply.now }
        ensures theirs { result ≡ true → self.new.theirs ≡ with_reply self.old.theirs reply.now }
        ensures bytes { result ≡ false → reply.now.payload ≢ [] }
    {
        let Ok(ours) = reply.clone() else {
            return false;
        };
        let Ok(theirs) = reply.clone() else {
            return false;
        };
        self.ours.reply = ours;
        self.theirs.reply = theirs;
        true
    }
}

// A command before its reply.
fn exchange(lun: u8, cdb: [u8; 16], payload: &Bytes) -> Result<Exchange, AllocError>
    ensures granted { payload.now ≡ [] → IsOk result }
    ensures copy { IfOk result (λ exchange. exchange ≡ exchange_of lun cdb payload.now busy) }
{
    Ok(Exchange {
        lun,
        cdb,
        payload: shared(payload)?,
        reply: Reply::busy(),
    })
}

// Shares the bytes without copying them. With no bytes it never fails.
fn shared(bytes: &Bytes) -> Result<Bytes, AllocError>
    ensures granted { bytes.now ≡ [] → IsOk result }
    ensures same { IfOk result (λ same. same ≡ bytes.now) }
{
    bytes.slice(0..bytes.len())
}

// Appends a command to history and transcript, and returns its position in the history.
fn record<L: Ledger>(
    history: &mut Vec<Entry>,
    book: &mut Book<L>,
    seat: &mut Seat<L>,
    copies: Copies,
) -> u64
    requires room { vec_len history.old < vec_capacity history.old }
    requires seat_room { length seat.old.transcript < seat.old.room }

    ensures position { result ≡ length history.old.items }
    ensures history { history.new.items ≡ history.old.items ++ Entry.Cmd seat.old.host copies.ours ∷ [] }
    ensures total { book.new.total ≡ book.old.total + 1 }
    ensures transcript { seat.new.transcript ≡ seat.old.transcript ++ copies.theirs ∷ [] }
    ensures commands { seat.new.commands ≡ seat.old.commands + 1 }
    ensures host { seat.new.host ≡ seat.old.host }

    ensures kept_room { vec_capacity history.new ≡ vec_capacity history.old }
    ensures kept_seat_room { seat.new.room ≡ seat.old.room }
{
    let Copies { ours, theirs } = copies;
    let at = history.len() as u64;
    history.push_reserved(Entry::Cmd(seat.host(), ours));
    seat.append(book, theirs);
    at
}
