// What the records of a log make. All units are replayed together, so that each batch is read once. Units that are made
// are counted from the numbers in the log's head on.
ghost use Rattle.std.specs.Prelude.{◌≡◌, ◌++◌, ◌∷◌, [], List, OnOk, map};
ghost use Rattle.ar_record.specs.Record.{RecordData, data_of};
ghost use Rattle.ar_compaction.specs.Addresses.{AreAddresses, noted};
ghost use Rattle.ar_compaction.specs.Checkpoint.{added_disks};
ghost use Rattle.ar_compaction.specs.Makes.{makes_before_all};
ghost use Rattle.ar_compaction.specs.Replaying.{replayed, unit_address};
ghost use Rattle.ar_checkpoint.specs.LogReplay.{IsReplayOf, AreReplayed, replay_makes};

use ar_compaction::{Makes, UnitReplay, note_address};
use ar_disks::Addr;
use ar_record::Record;
use std::alloc::{AllocError, Global};

// The units that records make, one for each address that they name, the extents of the disks that they add, and how
// many units were made at each address, before the records and after them.
#[derive(Drop)]
pub(crate) struct LogReplay {
    pub addresses: Vec<Addr>,
    pub units: Vec<UnitReplay>,
    pub disks: Vec<u32>,
    pub before: Makes,
    pub makes: Makes,
}

impl LogReplay {
    // That of no record: only the units that were made before it count.
    pub fn new(alloc: Global, before: Makes) -> LogReplay
        ensures replayed { IsReplayOf [] result }
        ensures before { result.before ≡ before }
    {
        LogReplay {
            addresses: Vec::new(alloc),
            units: Vec::new(alloc),
            disks: Vec::new(alloc),
            before,
            makes: before,
        }
    }

    // Begins at other numbers of units made: those of the log's head. No record was executed yet.
    pub fn begin_at(&mut self, before: Makes)
        ensures replayed { IsReplayOf [] self.old → IsReplayOf [] self.new }
        ensures before { self.new.before ≡ before }
    {
        self.before = before;
        self.makes = before;
    }

    // How many units were made that the records of the units' checkpoints don't make again.
    pub fn makes_left(&self) -> Makes
        ensures { result.bytes ≡ replay_makes self.now }
    {
        makes_left(self.makes, &self.units)
    }

    // Executes a record. `Err` leaves it executed in part.
    pub fn apply(&mut self, alloc: Global, entry: &Record) -> Result<(), AllocError>
        ensures replayed { OnOk result ((records : List RecordData) → IsReplayOf records self.old
            → IsReplayOf (records ++ data_of entry.now ∷ []) self.new) }
        ensures before { self.new.before ≡ self.old.before }
    {
        note_disk(&mut self.disks, entry)?;
        note_unit(alloc, &mut self.addresses, &mut self.units, entry)?;
        self.makes.note(entry);
        execute(&mut self.units, entry)
    }
}

// The numbers of units made without those that are present.
fn makes_left(makes: Makes, units: &[UnitReplay]) -> Makes
    ensures { result.bytes ≡ makes_before_all makes.bytes units.now }
{
    let mut left = makes;
    for unit in units {
        left.leave_out(unit);
    }
    left
}

// Appends the extents of the disk that a record adds, if it adds one.
fn note_disk(disks: &mut Vec<u32>, entry: &Record) -> Result<(), AllocError>
    ensures { OnOk result (disks.new.items ≡ disks.old.items ++ added_disks (data_of entry.now ∷ [])) }
{
    if let Record::AddDisk(extents) = entry {
        disks.push(*extents)?;
    }
    Ok(())
}

// Appends the address that a record names, with an absent unit, unless it is there.
fn note_unit(
    alloc: Global,
    addresses: &mut Vec<Addr>,
    units: &mut Vec<UnitReplay>,
    entry: &Record,
) -> Result<(), AllocError>
    ensures noted { OnOk result (map unit_address addresses.new.items
        ≡ noted (map unit_address addresses.old.items) (data_of entry.now)) }
    ensures replayed { OnOk result ((records : List RecordData)
        → AreAddresses records (map unit_address addresses.old.items)
        → AreReplayed records (map unit_address addresses.old.items) units.old.items
        → AreReplayed records (map unit_address addresses.new.items) units.new.items) }
{
    note_address(addresses, entry)?;
    if units.len() < addresses.len() {
        let addr = addresses[units.len()];
        units.push(UnitReplay::new(alloc, addr))?;
    }
    Ok(())
}

// Executes a record on the unit that it names; the others ignore it.
fn execute(units: &mut Vec<UnitReplay>, entry: &Record) -> Result<(), AllocError>
    ensures { OnOk result (units.new.items ≡ map (λ unit. replayed unit (data_of entry.now)) units.old.items) }
{
    for unit in units.iter_mut() {
        unit.apply(entry)?;
    }
    Ok(())
}
