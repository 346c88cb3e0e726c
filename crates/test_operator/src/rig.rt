// A kept array on fuses, and its controller.
ghost use Rattle.std.specs.Prelude.{◌≡◌, [], None};

use ar_answers::Setup;
use ar_conversation::{Controller, OperatorEnd, OperatorOrder, converse};
use ar_core::Array;
use ar_disks::Geometry;
use ar_frames::{MemSource, Sink};
use ar_fuses::{Fuse, FusedDisk};
use ar_history::Kept;
use ar_inventory::{Inventory, UnitNames};
use ar_operator::{
    FusedMaker, execute, set_fuse, start_fused, write_counts, write_help, write_version,
};
use ar_served::Seat;
use bytes::Bytes;
use std::alloc::{AllocError, Global};
use std::marker::Brand;
use std::process::Abort;
use std::sync::ledger::{Blank, Ledger};

const SETUP: Setup = Setup {
    geometry: Geometry::SMALL,
    disks: 4,
    extents: 4,
    cache: 0,
};

/// An array with its history, on fuses, and the seat of host 0.
#[derive(Drop)]
pub struct Rig<'a, L: Ledger> {
    pub alloc: Global,
    kept: Kept<FusedDisk<'a>, L>,
    seats: [Seat<L>; 4],
    fuses: &'a [Fuse; 12],
    // How many orders were given that have no answer.
    silent: u64,
}

impl<'a, L: Ledger> Rig<'a, L> {
    fn start(
        alloc: Global,
        blank: Blank,
        array: Array<FusedDisk<'a>>,
        fuses: &'a [Fuse; 12],
    ) -> Rig<'a, L>
        requires name { blank.name ≡ L.name }
        requires parts { blank.parts ≡ L.parts }
        requires four { blank.parts ≡ 4 }
        requires no_unit { array.store.book.units ≡ [] }
    {
        let (kept, seats) = Kept::start(alloc, blank, array);
        Rig {
            alloc,
            kept,
            seats,
            fuses,
            silent: 0,
        }
    }

    /// Writes a block of host 0's unit 0, by WRITE (10) of two sectors.
    pub fn write_block(&mut self, rt: &impl Abort, block: u8, byte: u8) {
        let mut cdb = [0; 16];
        cdb[0] = 0x2A;
        cdb[5] = block % 100 * 2;
        cdb[8] = 2;
        let bytes = vec![in self.alloc; byte; 1024].expect(rt, "memory");
        let payload = Bytes::from_vec(bytes).expect(rt, "memory");
        command(&mut self.kept, &mut self.seats, cdb, payload);
    }
}

impl<L: Ledger> Rig<'_, L> {
    fn inventory(&self) -> Result<Inventory, AllocError> {
        let mut generations = [0; 32];
        generations[31] = 0x0102;
        let names = UnitNames {
            array: 0x0A0B_0C0D,
            generations,
        };
        Inventory::of(self.alloc, self.kept.array(), self.fuses, Some(names))
    }
}

// Executes a command of host 0 to its unit 0.
fn command<L: Ledger>(
    kept: &mut Kept<FusedDisk<'_>, L>,
    seats: &mut [Seat<L>; 4],
    cdb: [u8; 16],
    payload: Bytes,
) {
    let seat = &mut seats[0];
    let served = kept.host(seat, 0, cdb, payload);
    drop(served);
}

impl<L: Ledger> Controller for Rig<'_, L> {
    ghost answers = { λ old order result bytes new. Unit {0} };

    fn answer(&mut self, order: OperatorOrder, out: &mut Vec<u8>) -> Result<(), AllocError> {
        let mut maker = FusedMaker::new(self.fuses);
        match order {
            OperatorOrder::Act(_) | OperatorOrder::ForceOut(_) | OperatorOrder::Ask(_) => {
                execute(self.alloc, &mut self.kept, &mut maker, order, out)
            }
            OperatorOrder::Fail { disk, accesses } => {
                set_fuse(self.kept.array(), self.fuses, disk, accesses, out)
            }
            OperatorOrder::Help => write_help(out).map_err(|_| AllocError),
            OperatorOrder::Counts => {
                write_counts(out, &self.kept.counts()).map_err(|_| AllocError)
            }
            OperatorOrder::Usage => {
                let inventory = self.inventory()?;
                inventory.write_usage(out, 0).map_err(|_| AllocError)
            }
            OperatorOrder::Units => {
                let inventory = self.inventory()?;
                inventory.write_units(out).map_err(|_| AllocError)
            }
            OperatorOrder::Disks => {
                let inventory = self.inventory()?;
                inventory.write_disks(out, Some(42)).map_err(|_| AllocError)
            }
            OperatorOrder::Version => write_version(out, "1.2.3").map_err(|_| AllocError),
            OperatorOrder::Sessions | OperatorOrder::End { .. } | OperatorOrder::Stop => {
                self.silent = self.silent.saturating_add(1);
                Ok(())
            }
        }
    }
}

/// Takes this many bytes, and then faults.
#[derive(Drop)]
pub struct Taker {
    pub taken: Vec<u8>,
    pub most: usize,
    faults: u64,
}

impl Taker {
    pub fn new(alloc: Global, most: usize) -> Taker {
        Taker {
            taken: Vec::new(alloc),
            most,
            faults: 0,
        }
    }
}

impl Sink for Taker {
    ghost state = { λ sink. record { taken = None; faults = sink.faults } };

    fn write(&mut self, from: &[u8]) -> Option<usize> {
        let room = self.most.saturating_sub(self.taken.len());
        let count = from.len().min(room);
        let is_full = count == 0 && !from.is_empty();
        if is_full || self.taken.extend_from_slice(&from[..count]).is_err() {
            self.faults = self.faults.saturating_add(1);
            return None;
        }
        Some(count)
    }

    fn faults(&self) -> u64 {
        self.faults
    }
}

/// Lines, and what they are answered with.
pub type Row<'a> = (&'a [u8], &'a [u8]);

/// Gives lines to a controller, and expects these answers and this end.
pub fn says<C: Controller>(
    rt: &impl Abort,
    alloc: Global,
    controller: &mut C,
    row: Row<'_>,
    end: OperatorEnd,
) {
    says_in(rt, alloc, controller, row, end, usize::MAX);
}

/// The same where a write faults after this many bytes.
pub fn says_in<C: Controller>(
    rt: &impl Abort,
    alloc: Global,
    controller: &mut C,
    row: Row<'_>,
    end: OperatorEnd,
    most: usize,
) {
    let (input, wanted) = row;
    let mut reader = MemSource::new(input.to_vec(alloc).expect(rt, "memory"));
    let mut writer = Taker::new(alloc, most);
    let ended = converse(alloc, &mut reader, &mut writer, controller);
    is_said(rt, input, writer.taken.as_slice(), wanted);
    is_end(rt, input, ended, end);
}

fn is_said(rt: &impl Abort, input: &[u8], taken: &[u8], wanted: &[u8]) {
    assert!(rt; taken == wanted, "{taken:?} of {input:?}");
}

pub fn is_end(rt: &impl Abort, input: &[u8], ended: OperatorEnd, wanted: OperatorEnd) {
    assert!(rt; ended == wanted, "{ended:?} of {input:?}");
}

/// What is played on a new array of four disks with four extents each.
#[derive(Clone, Copy)]
pub enum Play<'a> {
    /// Each row is a conversation of its own, up to its end.
    Rows(&'a [Row<'a>]),
    /// The same, after writes to six blocks of a unit of host 0.
    Written(&'a [Row<'a>]),
    /// One conversation, with this end and a write fault after this many bytes.
    To(Row<'a>, OperatorEnd, usize),
}

/// Plays on a new array.
pub fn plays(rt: &impl Abort, alloc: Global, play: Play<'_>) {
    let fuses = Fuse::twelve();
    let array = start_fused(alloc, SETUP, &fuses).expect(rt, "an array");
    plays_on::<Brand>(rt, alloc, Blank::new(4), array, &fuses, play);
}

fn plays_on<L: Ledger>(
    rt: &impl Abort,
    alloc: Global,
    blank: Blank,
    array: Array<FusedDisk<'_>>,
    fuses: &[Fuse; 12],
    play: Play<'_>,
)
    requires name { blank.name ≡ L.name }
    requires parts { blank.parts ≡ L.parts }
    requires four { blank.parts ≡ 4 }
    requires no_unit { array.store.book.units ≡ [] }
{
    let mut rig: Rig<'_, L> = Rig::start(alloc, blank, array, fuses);
    play_in(rt, &mut rig, play);
    drop(rig);
}

fn play_in<L: Ledger>(rt: &impl Abort, rig: &mut Rig<'_, L>, play: Play<'_>) {
    match play {
        Play::Rows(rows) => play_rows(rt, rig, rows),
        Play::Written(rows) => {
            write_blocks(rt, rig);
            play_rows(rt, rig, rows);
        }
        Play::To(row, end, most) => says_in(rt, rig.alloc, rig, row, end, most),
    }
}

fn write_blocks<L: Ledger>(rt: &impl Abort, rig: &mut Rig<'_, L>) {
    says(
        rt,
        rig.alloc,
        rig,
        (b"make 0 0 12\n", b"ok\n"),
        OperatorEnd::End,
    );
    for block in 0..6 {
        rig.write_block(rt, block, 0xAA);
    }
}

fn play_rows<L: Ledger>(rt: &impl Abort, rig: &mut Rig<'_, L>, rows: &[Row<'_>]) {
    for row in rows {
        says(rt, rig.alloc, rig, *row, OperatorEnd::End);
    }
}
