// Laws of the store's calls: what they access where no disk faults.
ghost use Rattle.std.specs.Prelude.{◌≡◌, ◌≢◌, ℕ, ◌*◌, true, false, [], ◌∷◌, ◌++◌, None, Some};
ghost use Rattle.ar_disks.specs.declared.geometry.Geometry.{Geometry};
ghost use Rattle.ar_disks.specs.Geometry.{rows_of};
ghost use Rattle.ar_disks.specs.declared.address.Key.{Key};
ghost use Rattle.ar_disks.specs.declared.address.Members.{Members};
ghost use Rattle.ar_extents.specs.declared.health.Health.TheVariants.{Whole};
ghost use Rattle.ar_extents.specs.declared.log.AccessKind.TheVariants.{Read, Write};
ghost use Rattle.ar_extents.specs.Set.{SetState};
ghost use Rattle.ar_extents.specs.Plans.{CarriesOut, NoneFaults};
ghost use Rattle.ar_book.specs.declared.class.Class.{Class};
ghost use Rattle.ar_book.specs.declared.class.Class.TheVariants.{Free, Mirrored, Parity};
ghost use Rattle.ar_book.specs.declared.class.Level.TheVariants.{Mirrored as MirroredLevel, Parity as ParityLevel};
ghost use Rattle.ar_book.specs.declared.class.Slot.{Slot};
ghost use Rattle.ar_book.specs.Choices.{IsLowestFree, IsFullMirrored};
ghost use Rattle.ar_book.specs.Tables.{Tables, home, slots_of};
ghost use Rattle.ar_store.specs.Store.{StoreState, class_in};
ghost use Rattle.ar_store.specs.Plans.{get_plan, move_plan, put_plan, slot_write, write_as, Squeezes};
ghost use Rattle.ar_store.specs.Plans.{ReadsUsable, WritesUsable, ReadsUsableOf, WritesUsableAs};
ghost use Rattle.ar_store.specs.Plans.{MakesAccesses, copies_kinds, reads_in, writes_in};
ghost use Rattle.ar_store.specs.Placing.{has_hole, lowest_hole, lowest_group, IsLowestHole, HasNoHole};
ghost use Rattle.ar_store.specs.Placing.{put_case, put_level, BySqueeze};
ghost use Rattle.ar_store.specs.Plans.{slot_read, LacksOnly, LacksOneOf};
ghost use Rattle.ar_parity.specs.Row.{row_of, data_position, parity_position};

/// Where no disk faults, and the extents in use are usable, whichever disk is missing: a get of a block without a home
/// accesses nothing, of another one it is one read; the write of a mirrored slot is two writes, of one with parity
/// two reads and then two writes; a move is one read, and then the accesses of a write of the new slot. With all disks
/// present every extent is usable. A call has no effect.
pub fn store_accesses()
    ensures unplaced { (old : StoreState) (new : SetState) (k : Key) → home old.book k ≡ None
        → CarriesOut (get_plan old k) old.disks new → new ≡ old.disks }
    ensures get { (old : StoreState) (new : SetState) (k : Key) (slot : Slot) → ReadsUsableOf old slot
        → NoneFaults old.disks new → home old.book k ≡ Some slot → class_in old slot.group ≢ Free
        → CarriesOut (get_plan old k) old.disks new → MakesAccesses (Read ∷ []) old.disks new }

    ensures put_mirrored { (old new : SetState) (m : Members) (i : ℕ) → WritesUsable Mirrored old m i
        → NoneFaults old new → CarriesOut (slot_write Mirrored old.geometry m i) old new
        → MakesAccesses (Write ∷ Write ∷ []) old new }
    ensures put_parity { (old new : SetState) (m : Members) (i : ℕ) → WritesUsable Parity old m i
        → NoneFaults old new → CarriesOut (slot_write Parity old.geometry m i) old new
        → MakesAccesses (Read ∷ Read ∷ Write ∷ Write ∷ []) old new }

    ensures move_mirrored { (old : StoreState) (new : SetState) (k : Key) (from to : Slot)
        → ReadsUsableOf old from → WritesUsableAs Mirrored old to → NoneFaults old.disks new
        → home old.book k ≡ Some from → class_in old from.group ≢ Free → class_in old to.group ≡ Mirrored
        → CarriesOut (move_plan old k to) old.disks new → MakesAccesses (Read ∷ Write ∷ Write ∷ []) old.disks new }
    ensures move_parity { (old : StoreState) (new : SetState) (k : Key) (from to : Slot)
        → ReadsUsableOf old from → WritesUsableAs Parity old to → NoneFaults old.disks new
        → home old.book k ≡ Some from → class_in old from.group ≢ Free → class_in old to.group ≡ Parity
        → CarriesOut (move_plan old k to) old.disks new
        → MakesAccesses (Read ∷ Read ∷ Read ∷ Write ∷ Write ∷ []) old.disks new }

    // With all disks present these extents are usable.
    ensures healthy_reads { (class : Class) (old : SetState) (m : Members) (i : ℕ) → old.health ≡ Whole
        → ReadsUsable class old m i }
    ensures healthy_writes { (class : Class) (old : SetState) (m : Members) (i : ℕ) → old.health ≡ Whole
        → WritesUsable class old m i }
{}

/// A squeeze where no disk faults and all are present: stripe by stripe the reads of its blocks, and four writes. In
/// all they are a read for each slot of the mirrored group, and four writes for each row of an extent. A call has no
/// effect.
pub fn squeeze_accesses()
    ensures made { (old new : StoreState) (from to : ℕ) → old.disks.health ≡ Whole
        → NoneFaults old.disks new.disks → Squeezes from to old new
        → MakesAccesses (copies_kinds old.disks.geometry (rows_of old.disks.geometry)) old.disks new.disks }
    ensures reads { (g : Geometry) → reads_in (copies_kinds g (rows_of g)) ≡ slots_of g Mirrored }
    ensures writes { (g : Geometry) → writes_in (copies_kinds g (rows_of g)) ≡ 4 * rows_of g }
{}

/// The searches that `put_case` is stated by find the first of each kind, or that there is none. A call has no effect.
pub fn searches_find_the_first()
    ensures hole { (t : Tables) (c : Class) → has_hole t c ≡ true → IsLowestHole t c (lowest_hole t c) }
    ensures no_hole { (t : Tables) (c : Class) → has_hole t c ≡ false → HasNoHole t c }
    ensures free { (t : Tables) (g : ℕ) → IsLowestFree t g → lowest_group t Free ≡ g }
    ensures mirrored { (t : Tables) (g : ℕ) → IsFullMirrored t g → lowest_group t Mirrored ≡ g }
{}

/// A put where no disk faults: to a mirrored slot it is two writes; to one with parity two reads and then two writes;
/// and if it needs a squeeze, those of the squeeze, and then these. So it is with all disks present and, of a put to a
/// slot whose two extents are usable, whichever disk is missing. A call has no effect.
pub fn put_accesses()
    ensures mirrored { (old new : StoreState) (k : Key) → old.disks.health ≡ Whole → NoneFaults old.disks new.disks
        → CarriesOut (put_plan old k) old.disks new.disks → put_level old.book k ≡ MirroredLevel
        → MakesAccesses (Write ∷ Write ∷ []) old.disks new.disks }
    ensures parity { (old new : StoreState) (k : Key) → old.disks.health ≡ Whole → NoneFaults old.disks new.disks
        → CarriesOut (put_plan old k) old.disks new.disks → put_level old.book k ≡ ParityLevel
        → put_case old.book k ≢ BySqueeze → MakesAccesses (Read ∷ Read ∷ Write ∷ Write ∷ []) old.disks new.disks }
    ensures squeeze { (old new : StoreState) (k : Key) → old.disks.health ≡ Whole → NoneFaults old.disks new.disks
        → CarriesOut (put_plan old k) old.disks new.disks → put_case old.book k ≡ BySqueeze
        → MakesAccesses (copies_kinds old.disks.geometry (rows_of old.disks.geometry)
        ++ Read ∷ Read ∷ Write ∷ Write ∷ []) old.disks new.disks }

    ensures mirrored_slot { (old new : StoreState) (k : Key) (slot : Slot) → WritesUsableAs Mirrored old slot
        → NoneFaults old.disks new.disks → CarriesOut (put_plan old k) old.disks new.disks
        → put_plan old k ≡ write_as Mirrored old slot → MakesAccesses (Write ∷ Write ∷ []) old.disks new.disks }
    ensures parity_slot { (old new : StoreState) (k : Key) (slot : Slot) → WritesUsableAs Parity old slot
        → NoneFaults old.disks new.disks → CarriesOut (put_plan old k) old.disks new.disks
        → put_plan old k ≡ write_as Parity old slot
        → MakesAccesses (Read ∷ Read ∷ Write ∷ Write ∷ []) old.disks new.disks }
{}

/// Reads and writes of slots while one extent of the group is lost, and where no disk faults. A mirrored slot with one
/// extent left is one read or one write. A slot with parity whose own extent is lost is three reads, or two reads and
/// one write; one whose parity is lost is one write. A call has no effect.
pub fn degraded_accesses()
    ensures mirrored_read { (old new : SetState) (m : Members) (i : ℕ) → NoneFaults old new
        → CarriesOut (slot_read Mirrored old.geometry m i) old new → LacksOneOf old m i
        → MakesAccesses (Read ∷ []) old new }
    ensures mirrored_write { (old new : SetState) (m : Members) (i : ℕ) → NoneFaults old new
        → CarriesOut (slot_write Mirrored old.geometry m i) old new → LacksOneOf old m i
        → MakesAccesses (Write ∷ []) old new }

    ensures parity_read { (old new : SetState) (m : Members) (i : ℕ) → NoneFaults old new
        → CarriesOut (slot_read Parity old.geometry m i) old new → LacksOnly old m (data_position i)
        → MakesAccesses (Read ∷ Read ∷ Read ∷ []) old new }
    ensures parity_write { (old new : SetState) (m : Members) (i : ℕ) → NoneFaults old new
        → CarriesOut (slot_write Parity old.geometry m i) old new → LacksOnly old m (data_position i)
        → MakesAccesses (Read ∷ Read ∷ Write ∷ []) old new }
    ensures parity_lost { (old new : SetState) (m : Members) (i : ℕ) → NoneFaults old new
        → CarriesOut (slot_write Parity old.geometry m i) old new → LacksOnly old m (parity_position (row_of i))
        → MakesAccesses (Write ∷ []) old new }
{}
