// Laws of mirrored slots: one disk may fail, and what reads and writes cost.
ghost use Rattle.std.specs.Prelude.{◌≡◌, ◌≢◌, ◌<◌, ◌∷◌, ◌++◌, [], ℕ, List, true};
ghost use Rattle.ar_disks.specs.declared.address.Members.{Members};
ghost use Rattle.ar_disks.specs.Disk.{DiskState};
ghost use Rattle.ar_extents.specs.declared.health.Health.TheVariants.{Whole, Broken};
ghost use Rattle.ar_extents.specs.Set.{SetState};
ghost use Rattle.ar_extents.specs.Groups.{IsGroup, without_disk};
ghost use Rattle.ar_extents.specs.Plans.{CarriesOut, NoneFaults, access_of, read_at, write_at};
ghost use Rattle.ar_mirror.specs.Slots.{mirror_slots_of, one_of, other_of, row_of};
ghost use Rattle.ar_mirror.specs.Holds.{Holds};
ghost use Rattle.ar_mirror.specs.Plans.{mirror_read, mirror_write};

/// A slot outlives the failure of any one disk: with the disk lost, and any contents on it, the slot holds the same
/// block. Unless the set has failed, it holds one block at most. A call has no effect.
pub fn mirrored_slots_survive_a_loss()
    ensures survives { (s : SetState) (m : Members) (slot : ℕ) (block : List ℕ) (d : ℕ) (disk : DiskState)
        → Holds s m slot block
        → Holds (without_disk s d disk) m slot block }
    ensures one_block { (s : SetState) (m : Members) (slot : ℕ) (one other : List ℕ) → s.health ≢ Broken → IsGroup s m
        → slot < mirror_slots_of s.geometry → Holds s m slot one → Holds s m slot other → one ≡ other }
{}

/// With all disks present, and where none faults, the read of a slot is one read, of its first member, and its write is
/// one write to each of the two. A call has no effect.
pub fn mirrored_accesses()
    ensures read { (old new : SetState) (m : Members) (slot : ℕ) → old.health ≡ Whole → NoneFaults old new
        → CarriesOut (mirror_read old.geometry m slot) old new
        → new.log ≡ old.log ++ access_of (read_at (one_of old.geometry m slot) (row_of old.geometry slot)) true ∷ [] }
    ensures write { (old new : SetState) (m : Members) (slot : ℕ) → old.health ≡ Whole → NoneFaults old new
        → CarriesOut (mirror_write old.geometry m slot) old new
        → new.log ≡ old.log ++ access_of (write_at (one_of old.geometry m slot) (row_of old.geometry slot)) true
        ∷ access_of (write_at (other_of old.geometry m slot) (row_of old.geometry slot)) true ∷ [] }
{}
