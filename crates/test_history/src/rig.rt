// A kept array, and the seats of its four hosts.
ghost use Rattle.std.specs.Prelude.{◌≡◌, ◌∷◌, [], map};
ghost use Rattle.ar_served.specs.Seat.{SeatState};

use crate::calls::{After, plays_rows};
use crate::counts::{Count, counts_rows};
use crate::drawn::ask_commands;
use crate::forged::try_forgeries;
use crate::memory::{ask_at_last, starve};
use ar_audit::{Mismatch, Report};
use ar_core::{Array, Event, EventOf, Outcome, OutcomeOf};
use ar_disks::FuseDisk;
use ar_history::{Kept, Served};
use ar_served::{Counts, Entry, Exchange, Operation, OperationOf, Seat, Task};
use bytes::Bytes;
use std::alloc::Global;
use std::marker::Brand;
use std::process::Abort;
use std::sync::ledger::{Blank, Ledger};
use test_support::{Row, Shape};

/// A kept array and its seats.
#[derive(Drop)]
pub struct Rig<L: Ledger> {
    kept: Kept<FuseDisk, L>,
    seats: [Seat<L>; 4],
    ghost order: { map (λ (s : SeatState). s.host.number) seats ≡ 0 ∷ 1 ∷ 2 ∷ 3 ∷ [] },
}

impl<L: Ledger> Rig<L> {
    /// A new array, and its seats.
    pub fn start(alloc: Global, blank: Blank, array: Array<FuseDisk>) -> Rig<L>
        requires name { blank.name ≡ L.name }
        requires parts { blank.parts ≡ L.parts }
        requires four { blank.parts ≡ 4 }
        requires no_unit { array.store.book.units ≡ [] }
    {
        let (kept, seats) = Kept::start(alloc, blank, array);
        Rig { kept, seats }
    }

    /// Does a host's command. There are four hosts.
    pub fn host(&mut self, host: u8, lun: u8, cdb: [u8; 16], payload: Bytes) -> Served {
        let seat = &mut self.seats[usize::from(host % 4)];
        self.kept.host(seat, lun, cdb, payload)
    }

    pub fn operate(&mut self, operation: Operation<FuseDisk>) -> Outcome<FuseDisk> {
        self.kept.operate(operation)
    }

    pub fn background(&mut self, task: Task) -> Outcome<FuseDisk> {
        self.kept.background(task)
    }

    /// Does an event: a host's command, an operation, a part of a flush, or work in the background.
    pub fn step(&mut self, event: Event<FuseDisk>) -> Outcome<FuseDisk> {
        match event {
            EventOf::Cmd {
                host,
                lun,
                cdb,
                payload,
            } => OutcomeOf::Cmd(self.host(host.number(), lun, cdb, payload).reply),
            EventOf::Unmap(unit, lba, count) => {
                OutcomeOf::Unmap(self.kept.discard(unit.host, unit.lun, lba, count))
            }
            EventOf::Make(unit, sectors) => self.operate(OperationOf::Make(unit, sectors)),
            EventOf::Grow(unit, sectors) => self.operate(OperationOf::Grow(unit, sectors)),
            EventOf::Remove(unit) => self.operate(OperationOf::Remove(unit)),
            EventOf::AddDisk(disk) => self.operate(OperationOf::AddDisk(disk)),
            EventOf::Replace(number, disk) => self.operate(OperationOf::Replace(number, disk)),
            EventOf::DiskOut(number) => self.operate(OperationOf::DiskOut(number)),
            EventOf::Flush => self.background(Task::Flush),
            EventOf::FlushPart(unit, first) => {
                OutcomeOf::FlushPart(self.kept.flush_part(unit, first))
            }
            EventOf::Rebuild => self.background(Task::Rebuild),
            EventOf::Clean => self.background(Task::Clean),
            EventOf::Balance => self.background(Task::Balance),
            EventOf::Demote => self.background(Task::Demote),
        }
    }

    pub fn free_groups(&self) -> u32 {
        self.kept.array().free_groups()
    }

    pub fn counts(&self) -> Counts {
        self.kept.counts()
    }

    pub fn history(&self) -> &[Entry] {
        self.kept.history()
    }

    /// The commands of a host with their replies.
    pub fn transcript(&self, host: u8) -> &[Exchange] {
        self.seats[usize::from(host % 4)].transcript()
    }

    pub fn close(&self) -> Result<Report, Mismatch> {
        self.kept.close(&self.seats)
    }
}

/// What is done on a new kept array.
#[derive(Clone, Copy)]
pub enum Play<'a> {
    /// A table is played, after which the array holds this.
    Rows(&'a [Row], After),
    /// A table is played, each row of which adds to the counts.
    Count(&'a [Count]),
    /// Transcripts are tampered with.
    Forge,
    /// All memory is taken, and given back.
    Starve,
    /// Commands are sent, each once more where memory for it was refused.
    AskAtLast,
    /// Drawn commands are sent.
    Draw,
}

/// Plays on a new array without a unit.
pub fn plays<R: Abort + AllocGlobal>(rt: &R, shape: Shape, play: Play<'_>) {
    let array = shape.array(rt.alloc()).expect(rt, "an array");
    plays_on::<Brand, R>(rt, Blank::new(4), array, shape, play);
}

fn plays_on<L: Ledger, R: Abort + AllocGlobal>(
    rt: &R,
    blank: Blank,
    array: Array<FuseDisk>,
    shape: Shape,
    play: Play<'_>,
)
    requires name { blank.name ≡ L.name }
    requires parts { blank.parts ≡ L.parts }
    requires four { blank.parts ≡ 4 }
    requires no_unit { array.store.book.units ≡ [] }
{
    let mut rig: Rig<L> = Rig::start(rt.alloc(), blank, array);
    play_on(rt, shape, &mut rig, play);
    drop(rig);
}

fn play_on<L: Ledger, R: Abort + AllocGlobal>(
    rt: &R,
    shape: Shape,
    rig: &mut Rig<L>,
    play: Play<'_>,
) {
    match play {
        Play::Rows(rows, after) => plays_rows(rt, shape, rig, rows, after),
        Play::Count(rows) => counts_rows(rt, shape, rig, rows),
        Play::Forge => try_forgeries(rt, shape, rig),
        Play::Starve => starve(rt, rig),
        Play::AskAtLast => ask_at_last(rt, rig),
        Play::Draw => ask_commands(rt, shape, rig),
    }
}
