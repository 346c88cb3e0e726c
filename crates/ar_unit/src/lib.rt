//! The model of a logical unit, a plain list of sectors, and `PlainUnit`, the program that implements it. No disk, no
//! cache and no other unit occurs in it.
#![tactic(auto)]

ghost use Rattle.std.specs.Prelude.{◌≡◌, ◌≢◌, ◌++◌, ◌*◌, ℕ, Bool, Ok, [], List, length, replicate};
ghost use Rattle.ar_scsi.specs.declared.command.Command.TheVariants.{Write};
ghost use Rattle.ar_scsi.specs.declared.reply.Status.TheVariants.{Busy};
ghost use Rattle.ar_scsi.specs.Reading.{reading};
ghost use Rattle.ar_unit.specs.Broken.{shape_of, shape_after, broken_answer, where_broken, broken_unmap};
ghost use Rattle.ar_unit.specs.Broken.{unmap_where_broken};
ghost use Rattle.ar_unit.specs.Unit.{UnitState, IsWhole, TakesNoMemory, UnitEntry, answer, unmap_answer, after};
ghost use Rattle.ar_unit.specs.Unit.{unit_run};

mod plain;
mod reply;

pub use plain::PlainUnit;
pub use reply::{absent, capacity, inquiry, is_past_end, with_bytes};

/// Law: a run over a concatenated list continues where its first part ends.
pub fn runs_go_on()
    ensures { (state : UnitState) (first later : List UnitEntry)
        → unit_run state (first ++ later) ≡ unit_run (unit_run state first) later }
{}

/// Law: no reply of the model is BUSY.
pub fn no_reply_is_busy()
    ensures { (state : UnitState) (cdb bytes : List ℕ) → (answer state cdb bytes).reply.status ≢ Busy }
{}

/// Law: a CHECK CONDITION, and a reply to TEST UNIT READY or WRITE, has no data.
pub fn few_replies_have_bytes()
    ensures { (state : UnitState) (cdb bytes : List ℕ) → TakesNoMemory cdb (answer state cdb bytes).reply }
{}

/// Law: a command whose reply has data leaves the unit unchanged.
pub fn replies_with_bytes_change_nothing()
    ensures { (state : UnitState) (cdb bytes : List ℕ)
        → (answer state cdb bytes).reply.payload ≢ [] → (answer state cdb bytes).state ≡ state }
{}

/// Law: presence, length and pending UNIT ATTENTION after an entry depend, of the unit, on these three alone.
pub fn shapes_go_by_shape()
    ensures { (state : UnitState) (entry : UnitEntry)
        → shape_of (after state entry) ≡ shape_after (shape_of state) entry }
{}

/// Law: each sector keeps its length, 512 bytes.
pub fn sectors_stay_whole()
    ensures { (state : UnitState) (entry : UnitEntry) → IsWhole state → IsWhole (after state entry) }
{}

/// Law: a failed array's reply to a command block depends on presence, length, pending UNIT ATTENTION and the number of
/// data bytes sent.
pub fn broken_replies_go_by_shape()
    ensures { (state : UnitState) (cdb bytes : List ℕ)
        → broken_answer (shape_of state) cdb (length bytes) ≡ where_broken cdb (answer state cdb bytes).reply }
{}

/// Law: a discard is a WRITE of zeros to its sectors.
pub fn unmaps_are_writes_of_zeros()
    ensures { (state : UnitState) (cdb : List ℕ) (lba count : ℕ) (fua : Bool) → reading cdb ≡ Ok (Write lba count fua)
        → unmap_answer state lba count ≡ answer state cdb (replicate (count * 512) 0) }
{}

/// Law: no reply to a discard is BUSY or has data.
pub fn unmaps_take_no_memory()
    ensures busy { (state : UnitState) (lba count : ℕ) → (unmap_answer state lba count).reply.status ≢ Busy }
    ensures bytes { (state : UnitState) (lba count : ℕ) → (unmap_answer state lba count).reply.payload ≡ [] }
{}

/// Law: a failed array's reply to a discard depends on presence, length and pending UNIT ATTENTION.
pub fn broken_unmaps_go_by_shape()
    ensures { (state : UnitState) (lba count : ℕ)
        → broken_unmap (shape_of state) lba count ≡ unmap_where_broken (unmap_answer state lba count).reply }
{}
