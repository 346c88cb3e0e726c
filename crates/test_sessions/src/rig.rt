// A kept array of small disks and its desk, and what is played on them.
ghost use Rattle.std.specs.Prelude.{◌≡◌, ◌≤◌, [], length};

use crate::background::{lasts, rebuilds, works};
use crate::drawn::draw;
use crate::gates::{meet, meet_held, meet_jammed};
use crate::scarce::meet_briefly;
use crate::sockets::{Guests, welcome};
use crate::turns::{Turn, play_turns};
use ar_core::{Array, Outcome, OutcomeOf};
use ar_disks::FuseDisk;
use ar_frames::{MemSink, SessionEnd, Source, serve_session};
use ar_history::Kept;
use ar_served::{Operation, OperationOf, Task};
use ar_sessions::{ConnectionEnd, Desk, LockPort};
use log::Log;
use std::alloc::Global;
use std::marker::Brand;
use std::net::{Net, TcpListener, TcpStream};
use std::process::Abort;
use std::sync::ledger::{Blank, Ledger};
use std::sync::{Mutex, Wait};
use std::thread::Threads;
use std::time::Clock;
use test_support::{Ask, Shape, Work, unit_at, unit_of};

/// A kept array under a lock, and its desk.
#[derive(Drop)]
pub struct Rig<L: Ledger> {
    pub kept: Mutex<Kept<FuseDisk, L>>,
    pub desk: Mutex<Desk<L>>,
}

impl<L: Ledger> Rig<L> {
    /// The kept array of a new one, and a desk with all seats.
    pub fn start(alloc: Global, blank: Blank, array: Array<FuseDisk>) -> Rig<L>
        requires name { blank.name ≡ L.name }
        requires parts { blank.parts ≡ L.parts }
        requires four { blank.parts ≡ 4 }
        requires no_unit { array.store.book.units ≡ [] }
    {
        let (kept, seats) = Kept::<FuseDisk, L>::start(alloc, blank, array);
        Rig {
            kept: Mutex::new(kept),
            desk: Mutex::new(Desk::new(seats)),
        }
    }

    /// Makes unit 0 of a host with four sectors.
    pub fn make(&self, rt: &(impl Wait + Abort), host: u8) {
        let is_made = is_done(rt, &self.kept, OperationOf::Make(unit_of(host, 0), 4));
        assert!(rt; is_made, "unit 0 of host {host} is made");
    }

    /// Does what comes between two commands: creates, resizes, deletes or flushes a unit, discards sectors of it,
    /// or does work in the background.
    pub fn step(&self, rt: &impl Wait, ask: &Ask) -> Outcome<FuseDisk> {
        let mut kept = self.kept.lock(rt);
        match ask {
            Ask::Make(place, sectors) => kept.operate(OperationOf::Make(unit_at(*place), *sectors)),
            Ask::Grow(place, sectors) => kept.operate(OperationOf::Grow(unit_at(*place), *sectors)),
            Ask::Remove(place) => kept.operate(OperationOf::Remove(unit_at(*place))),
            Ask::FlushUnit(place) => OutcomeOf::FlushPart(kept.flush_part(unit_at(*place), 0)),
            Ask::Unmap(place, lba, count) => {
                let unit = unit_at(*place);
                OutcomeOf::Unmap(kept.discard(unit.host, unit.lun, *lba, *count))
            }
            Ask::Work(Work::Demote) => kept.background(Task::Demote),
            Ask::Work(Work::Clean) => kept.background(Task::Clean),
            Ask::Work(Work::Balance) => kept.background(Task::Balance),
            Ask::Work(Work::Rebuild) => kept.background(Task::Rebuild),
            Ask::Work(Work::Flush) | Ask::Command(_) => kept.background(Task::Flush),
        }
    }

    /// Unit 0 of host 0 grows to six sectors.
    pub fn grow(&self, rt: &(impl Wait + Abort)) {
        let has_grown = is_done(rt, &self.kept, OperationOf::Grow(unit_of(0, 0), 6));
        assert!(rt; has_grown, "the unit grows");
    }
}

/// Whether an operation is done.
pub fn is_done<L: Ledger>(
    rt: &impl Wait,
    kept: &Mutex<Kept<FuseDisk, L>>,
    operation: Operation<FuseDisk>,
) -> bool {
    let outcome = kept.lock(rt).operate(operation);
    let is_done = matches!(
        outcome,
        OutcomeOf::Make(Ok(()))
            | OutcomeOf::Grow(Ok(()))
            | OutcomeOf::AddDisk(Ok(()))
            | OutcomeOf::DiskOut(Ok(()))
            | OutcomeOf::Replace(Ok(()))
    );
    drop(outcome);
    is_done
}

/// What is played on a new array.
#[derive(Clone, Copy)]
pub enum Play<'a> {
    /// Sessions one after another, where host 0 has a unit if that is asked.
    Turns(bool, &'a [Turn]),
    /// Drawn sessions of the four hosts.
    Draw,
    /// Sessions at once: the host and the number of commands of each, and how each ends.
    Meet(&'a [(u8, u8)], &'a [ConnectionEnd]),
    /// Two, of which one waits for the other.
    MeetHeld,
    /// Connections that do not open.
    MeetJammed,
    /// Connections that end before a login, of which one may find no thread.
    MeetBriefly,
    /// Guests over sockets, and the number of connections.
    Welcome(Guests, usize),
    /// A block is flushed and a disk added by the work in the background.
    Work,
    /// A replaced disk is rebuilt while a host writes.
    Rebuild,
    /// A disk is added while a session lasts.
    Last,
}

/// Plays on a new array without a unit, and audits it: the number of commands of the first hosts.
pub fn plays<
    R: Threads
        + Wait
        + Clock
        + Log
        + Abort
        + AllocGlobal
        + Net<Listener = TcpListener, Stream = TcpStream>
        + Sync,
>(rt: &R, shape: Shape, play: Play<'_>, commands: &[u64]) {
    let array = shape.array(rt.alloc()).expect(rt, "an array");
    plays_on::<Brand, R>(rt, Blank::new(4), array, shape, play, commands);
}

fn plays_on<
    L: Ledger + Send + Sync,
    R: Threads
        + Wait
        + Clock
        + Log
        + Abort
        + AllocGlobal
        + Net<Listener = TcpListener, Stream = TcpStream>
        + Sync,
>(rt: &R, blank: Blank, array: Array<FuseDisk>, shape: Shape, play: Play<'_>, commands: &[u64])
    requires name { blank.name ≡ L.name }
    requires parts { blank.parts ≡ L.parts }
    requires four { blank.parts ≡ 4 }
    requires no_unit { array.store.book.units ≡ [] }
{
    let rig: Rig<L> = Rig::start(rt.alloc(), blank, array);
    play_on(rt, rt.alloc(), shape, &rig, play);
    closes(rt, rig, commands);
}

fn play_on<
    L: Ledger + Send + Sync,
    R: Threads
        + Wait
        + Clock
        + Log
        + Abort
        + AllocGlobal
        + Net<Listener = TcpListener, Stream = TcpStream>
        + Sync,
>(rt: &R, alloc: Global, shape: Shape, rig: &Rig<L>, play: Play<'_>) {
    match play {
        Play::Turns(with_unit, turns) => play_turns(rt, alloc, rig, with_unit, turns),
        Play::Draw => draw(rt, rig, shape),
        Play::Meet(sessions, wanted) => meet(rt, alloc, rig, sessions, wanted),
        Play::MeetHeld => meet_held(rt, alloc, rig),
        Play::MeetJammed => meet_jammed(rt, alloc, rig),
        Play::MeetBriefly => meet_briefly(rt, alloc, rig),
        Play::Welcome(guests, connections) => welcome(rt, alloc, rig, guests, connections),
        Play::Work => works(rt, alloc, shape, rig),
        Play::Rebuild => rebuilds(rt, alloc, shape, rig),
        Play::Last => lasts(rt, alloc, shape, rig),
    }
}

// Closes the array after all sessions, and compares the number of commands of the first hosts.
fn closes<L: Ledger>(rt: &impl Abort, rig: Rig<L>, commands: &[u64]) {
    let Rig { kept, desk } = rig;
    let met = audited(rt, kept.into_inner(), desk.into_inner());
    let first = &met[..commands.len().min(4)];
    assert!(rt; first == commands, "{met:?}");
}

// How many commands each host has, by the audit.
fn audited<L: Ledger>(rt: &impl Abort, kept: Kept<FuseDisk, L>, desk: Desk<L>) -> [u64; 4] {
    let seats = desk.seats().ok().expect(rt, "all seats on the desk");
    let report = kept
        .close(&seats)
        .expect(rt, "transcripts as the history has them");
    drop(seats);
    drop(kept);
    report.commands
}

/// Serves a session on the array, with a port of its own.
pub fn serves<R: Wait + Clock + Abort, L: Ledger, S: Source>(
    rt: &R,
    alloc: Global,
    rig: &Rig<L>,
    reader: &mut S,
    writer: &mut MemSink,
) -> SessionEnd {
    let mut port = LockPort::new(rt, alloc, &rig.kept, &rig.desk);
    let end = serve_session(alloc, reader, writer, &mut port);
    let _receipt = port.finish();
    end
}

/// Room for what a session writes.
pub fn sink(rt: &impl Abort, alloc: Global, len: usize) -> MemSink {
    MemSink::new(vec![in alloc; 0; len].expect(rt, "memory"))
}

/// Copies what fits of some bytes from a place on, and says how many that are.
pub fn copy_rest(bytes: &[u8], at: usize, into: &mut [u8]) -> usize
    ensures { result ≤ length into.new }
{
    let rest = &bytes[at.min(bytes.len())..];
    let count = rest.len().min(into.len());
    into[..count].copy_from_slice(&rest[..count]);
    count
}
