//! Compaction of records: fewer records that make each unit what the old ones make it.
#![tactic(auto)]

ghost use Rattle.ar_compaction.specs.Compaction.{BeginsCompaction, CanBeCreatedAgain, ContinuesCompaction};
ghost use Rattle.ar_compaction.specs.Compaction.{EndsCompaction, TakesLater};

mod addresses;
mod compacting;
mod contents;
mod head;
mod makes;
mod replay;
mod steps;
mod unit_records;

pub use addresses::{addresses_in, note_address};
pub use compacting::compact;
pub use head::{HeadError, MAX_NAME, StoreHead, decode_head, encode_head};
pub use makes::Makes;
pub use replay::UnitReplay;
pub use unit_records::UnitRecords;

/// Law: a compaction may be built piece by piece, from the records of added disks and each unit's checkpoint.
pub fn compactions_are_built()
    ensures begins { BeginsCompaction }
    ensures goes_on { ContinuesCompaction }
    ensures ends { EndsCompaction }
{}

/// Law: records that are appended later may be appended to a compaction.
pub fn compactions_go_on()
    ensures { TakesLater }
{}

/// Law: units made by records as an array executes them can be made again by their checkpoints.
pub fn units_can_be_created_again()
    ensures { CanBeCreatedAgain }
{}
