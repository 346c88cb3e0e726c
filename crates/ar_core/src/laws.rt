// Laws of steps and runs, in the terms of a host. A law is the contract of a function that does nothing.
ghost use Rattle.std.specs.Prelude.{◌≡◌, ℕ, suc, [], ◌∷◌, ◌++◌, true, false, Some, Ok, List, take, slice_get, Bool};
ghost use Rattle.std.specs.Prelude.{All};
ghost use Rattle.ar_disks.specs.declared.address.Host.{Host};
ghost use Rattle.ar_scsi.specs.declared.reply.Reply.{Reply};
ghost use Rattle.ar_scsi.specs.Reply.{good};
ghost use Rattle.ar_unit.specs.Sectors.{Sector, written};
ghost use Rattle.ar_unit.specs.Unit.{Present};
ghost use Rattle.ar_store.specs.Kept.{IsKept};
ghost use Rattle.ar_store.specs.Slots.{SurvivesLossOf};
ghost use Rattle.ar_volume.specs.Image.{ArrayState, geometry_of, is_broken, image};
ghost use Rattle.ar_core.specs.Run.{AreCalm, IsIsolated, Run, Turn};
ghost use Rattle.ar_core.specs.Step.{Steps, addr_in};
ghost use Rattle.ar_disks.specs.declared.address.Addr.{Addr};
ghost use Rattle.ar_disks.specs.declared.address.Key.{Key};
ghost use Rattle.ar_extents.specs.declared.log.AccessKind.TheVariants.{Read, Write};
ghost use Rattle.ar_store.specs.Plans.{MakesAccesses};
ghost use Rattle.ar_cache.specs.declared.answers.Flush.TheVariants.{Flushed};
ghost use Rattle.ar_volume.specs.declared.flush.PartFlush.{PartFlush};
ghost use Rattle.ar_volume.specs.Flush.{has_flushed, part_keys};
ghost use Rattle.ar_core.specs.Costs.{reads_of};
ghost use Rattle.ar_core.specs.WriteCosts.{CostsExactly, MakesInTurn, PutMakes, ForceMakes, WriteMakes};
ghost use Rattle.ar_core.specs.WriteCosts.{for_each, WritesThrough, AreMirrored, StayAtParity};
ghost use Rattle.ar_scsi.specs.Reading.{reading};
ghost use Rattle.ar_scsi.specs.declared.reply.Status.TheVariants.{Good};
ghost use Rattle.ar_extents.specs.Plans.{NoneFaults};
ghost use Rattle.ar_volume.specs.Sectors.{keys_in};
ghost use Rattle.ar_volume.specs.Storing.{is_whole};
ghost use Rattle.ar_core.specs.Laws.{RunOf, IsAlikeAt, IsShapedAlikeAt, IsAnsweredSoundly, IsAnsweredBroken};
ghost use Rattle.ar_core.specs.Laws.{IsWriteWithin};
ghost use Rattle.ar_extents.specs.declared.health.Health.TheVariants.{Whole};
ghost use Rattle.ar_core.specs.Causes.{HurtsNone};
ghost use Rattle.ar_core.specs.Events.{Event, Outcome};

use crate::{EventOf, OutcomeOf};
use ar_scsi::Command;

/// A unit's own entries decide its replies. In two runs, on any arrays that haven't failed, a command has the same
/// reply, BUSY apart, if its unit began the same and had the same create, resize, delete, I/O commands and discards
/// before it, whatever else happened. On failed arrays the unit need only have begun with the same presence, length and
/// pending UNIT ATTENTION. The function does nothing.
pub fn own_entries_decide_replies()
    ensures sound { (one other : RunOf) (k j : ℕ) (host : Host) (lun : ℕ) (cdb payload : List ℕ) (reply answer : Reply)
        → IsIsolated one.first one.turns one.states → IsIsolated other.first other.turns other.states
        → IsAlikeAt (host.number, lun) one k other j
        → IsAnsweredSoundly one k host lun cdb payload reply → IsAnsweredSoundly other j host lun cdb payload answer
        → reply ≡ answer }
    ensures broken { (one other : RunOf) (k j : ℕ) (host : Host) (lun : ℕ) (cdb payload : List ℕ) (reply answer : Reply)
        → IsIsolated one.first one.turns one.states → IsIsolated other.first other.turns other.states
        → IsShapedAlikeAt (host.number, lun) one k other j
        → IsAnsweredBroken one k host lun cdb payload reply → IsAnsweredBroken other j host lun cdb payload answer
        → reply ≡ answer }
{}

/// Redundancy: on a healthy array any one disk may fail, and every block reads from the disks as before, whatever that
/// disk then stores. Every array keeps `IsKept` (`Array::health: kept`), so this holds between any two calls. The
/// function does nothing.
pub fn any_disk_may_go()
    ensures { (array : ArrayState) (disk : ℕ) → IsKept array.store → array.store.disks.health ≡ Whole
        → SurvivesLossOf array.store disk }
{}

/// A healthy array stays healthy over an event in which no disk faults and none is taken out, and over a run of such
/// steps. The function does nothing.
pub fn whole_disks_stay_whole()
    ensures event { (old new : ArrayState) (event : Event) (outcome : Outcome) → Steps old event outcome new
        → HurtsNone event old.store.disks new.store.disks
        → old.store.disks.health ≡ Whole → new.store.disks.health ≡ Whole }
    ensures run { (old : ArrayState) (turns : List Turn) (states : List ArrayState) (k : ℕ) (new : ArrayState)
        → Run old turns states
        → AreCalm old (take (suc k) turns) (take (suc k) states) → old.store.disks.health ≡ Whole
        → slice_get states k ≡ Some new → new.store.disks.health ≡ Whole }
{}

/// No write fails for lack of space: a WRITE within its unit, with the data for its sectors and no UNIT ATTENTION
/// pending, is done and GOOD unless the array has failed, however full it is. The function does nothing.
pub fn writes_that_fit_are_done()
    ensures { (old new : ArrayState) (host : Host) (lun : ℕ) (cdb payload : List ℕ) (reply : Reply)
        (sectors : List Sector) (lba count : ℕ)
        → Steps old (EventOf.Cmd host lun cdb payload) (OutcomeOf.Cmd reply) new
        → is_broken new ≡ false → IsWriteWithin old (host.number, lun) cdb payload sectors lba count
        → (reply ≡ good []) × (image new (host.number, lun) ≡ Present (written sectors lba count payload) false) }
{}

/// The cost of a READ: where no disk faults, a GOOD one makes for each of its blocks, in ascending order, exactly the
/// reads that the block's home plans (one if its extent is usable), none for a block that is cached or has no home, and
/// no other access. The function does nothing.
pub fn reads_are_accounted_for()
    ensures { (old new : ArrayState) (host : Host) (lun : ℕ) (cdb payload : List ℕ) (reply : Reply) (lba count : ℕ)
        → Steps old (EventOf.Cmd host lun cdb payload) (OutcomeOf.Cmd reply) new
        → reading cdb ≡ Ok (Command.Read lba count) → reply.status ≡ Good → NoneFaults old.store.disks new.store.disks
        → new.store.disks.log
        ≡ old.store.disks.log ++ reads_of old (keys_in (geometry_of old) (addr_in host lun) lba count) }
{}

/// The cost of a WRITE: where no disk faults, a GOOD one makes for each of its blocks, in ascending order, the reads
/// that the block's home plans if it is covered in part, not cached and has a home, and none if a put overwrites it in
/// place and there is no cache (`in_place_at`); and then a put of each block that is destaged for it: the one that it
/// evicts, and its own if it is written through. With FORCE UNIT ACCESS it then puts each of its blocks that is cached.
/// There is no other access. The function does nothing.
pub fn writes_are_accounted_for()
    ensures { (old new : ArrayState) (host : Host) (lun : ℕ) (cdb payload : List ℕ) (reply : Reply) (lba count : ℕ)
        (fua : Bool)
        → Steps old (EventOf.Cmd host lun cdb payload) (OutcomeOf.Cmd reply) new
        → reading cdb ≡ Ok (Command.Write lba count fua) → reply.status ≡ Good
        → NoneFaults old.store.disks new.store.disks
        → CostsExactly (WriteMakes (addr_in host lun) lba count fua old new) old.store.disks new.store.disks }
{}

/// The cost of a WRITE in numbers, of blocks that have homes, on healthy disks and without a cache: two writes for each
/// of its blocks if these are mirrored; two reads and two writes for each if they stay at the parity level. It is the
/// same whether it covers them whole or in part. The function does nothing.
pub fn write_accesses()
    ensures mirrored { (old new : ArrayState) (host : Host) (lun : ℕ) (cdb payload : List ℕ) (reply : Reply)
        (lba count : ℕ) (fua : Bool)
        → Steps old (EventOf.Cmd host lun cdb payload) (OutcomeOf.Cmd reply) new
        → reading cdb ≡ Ok (Command.Write lba count fua) → reply.status ≡ Good
        → NoneFaults old.store.disks new.store.disks
        → WritesThrough old
        → AreMirrored old.store.book (keys_in (geometry_of old) (addr_in host lun) lba count)
        → MakesAccesses (for_each (keys_in (geometry_of old) (addr_in host lun) lba count) (Write ∷ Write ∷ []))
        old.store.disks new.store.disks }
    ensures parity { (old new : ArrayState) (host : Host) (lun : ℕ) (cdb payload : List ℕ) (reply : Reply)
        (lba count : ℕ) (fua : Bool)
        → Steps old (EventOf.Cmd host lun cdb payload) (OutcomeOf.Cmd reply) new
        → reading cdb ≡ Ok (Command.Write lba count fua) → reply.status ≡ Good
        → NoneFaults old.store.disks new.store.disks
        → WritesThrough old
        → StayAtParity old.store.book (keys_in (geometry_of old) (addr_in host lun) lba count)
        → MakesAccesses
        (for_each (keys_in (geometry_of old) (addr_in host lun) lba count) (Read ∷ Read ∷ Write ∷ Write ∷ []))
        old.store.disks new.store.disks }
{}

/// The cost of a flush: where no disk faults, a flush of one cached block is one put, and that of a part of a
/// unit one put for each of the part's cached blocks, in ascending order. The function does nothing.
pub fn flushes_are_accounted_for()
    ensures one { (old new : ArrayState) (key : Key) → Steps old EventOf.Flush (OutcomeOf.Flush (Flushed key)) new
        → NoneFaults old.store.disks new.store.disks
        → CostsExactly (PutMakes old.store key new.store) old.store.disks new.store.disks }
    ensures part { (old new : ArrayState) (addr : Addr) (first : ℕ) (answer : PartFlush)
        → Steps old (EventOf.FlushPart addr first) (OutcomeOf.FlushPart answer) new → has_flushed answer ≡ true
        → NoneFaults old.store.disks new.store.disks
        → CostsExactly (MakesInTurn ForceMakes (part_keys old addr first) old new) old.store.disks new.store.disks }
{}

/// A GOOD discard of sectors that cover all of each of their blocks accesses no disk: each of these blocks has lost its
/// home and its cache entry (`DiscardsBlocks`), and nothing else. The function does nothing.
pub fn unmaps_of_whole_blocks_are_free()
    ensures { (old new : ArrayState) (addr : Addr) (lba count : ℕ) (reply : Reply)
        → Steps old (EventOf.Unmap addr lba count) (OutcomeOf.Unmap reply) new
        → All (λ key. is_whole (geometry_of old) lba count key ≡ true) (keys_in (geometry_of old) addr lba count)
        → reply.status ≡ Good → new.store.disks ≡ old.store.disks }
{}
