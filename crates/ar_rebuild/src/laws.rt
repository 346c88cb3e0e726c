// Laws on rebuilds for higher crates.
ghost use Rattle.std.specs.Prelude.{◌≡◌, ℕ, ◌+◌, []};
ghost use Rattle.ar_disks.specs.Geometry.{rows_of};
ghost use Rattle.ar_extents.specs.Set.{SetState};
ghost use Rattle.ar_extents.specs.Plans.{NoneFaults};
ghost use Rattle.ar_book.specs.declared.class.Class.TheVariants.{Mirrored, Parity};
ghost use Rattle.ar_store.specs.Kept.{IsSpace};
ghost use Rattle.ar_store.specs.Plans.{MakesAccesses};
ghost use Rattle.ar_store.specs.Store.{StoreState, class_in};
ghost use Rattle.ar_rebuild.specs.declared.step.Rebuild.{Rebuild};
ghost use Rattle.ar_rebuild.specs.Plans.{IsMemberNext, HasNothingNext, CarriesOutRebuild, rows_kinds};
ghost use Rattle.ar_rebuild.specs.Rebuild.{IsExtentRebuilt, IsFinished, rebuild_left};

/// A law: a rebuild ends. Each rebuilt extent leaves one fewer, and the last finishes the rebuild; so it takes as many
/// steps as extents weren't done, unless a disk fails on the way.
pub fn rebuild_ends()
    ensures rebuilt { (old new : SetState) (extent left : ℕ) → new.extents ≡ old.extents
        → IsExtentRebuilt old new extent left
        → (rebuild_left new ≡ left) × (rebuild_left old ≡ left + 1) }
    ensures finished { (old new : SetState) → IsFinished old new → (rebuild_left new ≡ 0) × (rebuild_left old ≡ 1) }
{}

/// A law: where no disk faults, a step that rebuilds an extent of a mirrored group makes, for each of its rows in turn,
/// one read and one write of the new disk; an extent of a parity group, three reads and one such write; an extent that
/// no used group has, no access.
pub fn rebuild_accesses()
    ensures mirrored { (old : StoreState) (answer : Rebuild) (new : SetState) (g i : ℕ) → IsSpace old
        → IsMemberNext old g i → class_in old g ≡ Mirrored → NoneFaults old.disks new
        → CarriesOutRebuild old answer new
        → MakesAccesses (rows_kinds Mirrored (rows_of old.disks.geometry)) old.disks new }
    ensures parity { (old : StoreState) (answer : Rebuild) (new : SetState) (g i : ℕ) → IsSpace old
        → IsMemberNext old g i → class_in old g ≡ Parity → NoneFaults old.disks new
        → CarriesOutRebuild old answer new
        → MakesAccesses (rows_kinds Parity (rows_of old.disks.geometry)) old.disks new }
    ensures nothing { (old : StoreState) (answer : Rebuild) (new : SetState) → HasNothingNext old
        → CarriesOutRebuild old answer new → MakesAccesses [] old.disks new }
{}
