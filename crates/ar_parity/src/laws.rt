// Laws of parity groups: one disk may fail, and what reads and writes cost.
ghost use Rattle.std.specs.Prelude.{◌≡◌, ◌≢◌, ◌∷◌, ◌++◌, [], ℕ, List, true};
ghost use Rattle.ar_disks.specs.declared.address.Members.{Members};
ghost use Rattle.ar_disks.specs.Disk.{DiskState};
ghost use Rattle.ar_disks.specs.Members.{AreApart, member};
ghost use Rattle.ar_extents.specs.declared.health.Health.TheVariants.{Whole, Broken};
ghost use Rattle.ar_extents.specs.Set.{SetState};
ghost use Rattle.ar_extents.specs.Groups.{without_disk};
ghost use Rattle.ar_extents.specs.Plans.{CarriesOut, NoneFaults, access_of, read_at, write_at};
ghost use Rattle.ar_parity.specs.Row.{row_of, data_position, parity_position};
ghost use Rattle.ar_parity.specs.Group.{Holds};
ghost use Rattle.ar_parity.specs.Plans.{parity_read, parity_write};

/// A slot outlives the failure of any one disk: with the disk lost, and any contents on it, the slot holds the same
/// block. Unless the set has failed, it holds one block at most. A call has no effect.
pub fn redundancy()
    ensures kept { (s : SetState) (m : Members) (slot : ℕ) (b : List ℕ) (d : ℕ) (disk : DiskState)
        → Holds s m slot b → Holds (without_disk s d disk) m slot b }
    ensures one { (s : SetState) (m : Members) (slot : ℕ) (b c : List ℕ)
        → AreApart m → s.health ≢ Broken → Holds s m slot b → Holds s m slot c → b ≡ c }
{}

/// With all disks present, and where none faults, the read of a slot is one read, of its own member. Its write reads
/// the old block and the parity, and then writes the block and the parity. A call has no effect.
pub fn parity_accesses()
    ensures read { (old new : SetState) (m : Members) (slot : ℕ) → old.health ≡ Whole → NoneFaults old new
        → CarriesOut (parity_read m slot) old new
        → new.log ≡ old.log ++ access_of (read_at (member m (data_position slot)) (row_of slot)) true ∷ [] }
    ensures write { (old new : SetState) (m : Members) (slot : ℕ) → old.health ≡ Whole → NoneFaults old new
        → CarriesOut (parity_write m slot) old new
        → new.log ≡ old.log ++ access_of (read_at (member m (data_position slot)) (row_of slot)) true
        ∷ access_of (read_at (member m (parity_position (row_of slot))) (row_of slot)) true
        ∷ access_of (write_at (member m (data_position slot)) (row_of slot)) true
        ∷ access_of (write_at (member m (parity_position (row_of slot))) (row_of slot)) true ∷ [] }
{}
