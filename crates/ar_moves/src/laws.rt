// Theorems about moves that other crates use: cleaning ends, each rule is deterministic, and what moves cost.
ghost use Rattle.std.specs.Prelude.{◌≡◌, ◌<◌, ◌≤◌, ◌++◌, ◌∷◌, [], ℕ, Some};
ghost use Rattle.ar_disks.specs.Geometry.{rows_of};
ghost use Rattle.ar_disks.specs.declared.address.Key.{Key};
ghost use Rattle.ar_extents.specs.declared.health.Health.TheVariants.{Whole};
ghost use Rattle.ar_extents.specs.declared.log.AccessKind.TheVariants.{Read, Write};
ghost use Rattle.ar_extents.specs.Plans.{NoneFaults};
ghost use Rattle.ar_book.specs.declared.class.Class.TheVariants.{Mirrored, Parity};
ghost use Rattle.ar_book.specs.declared.class.Slot.{Slot};
ghost use Rattle.ar_book.specs.Tables.{Tables, home, free_groups};
ghost use Rattle.ar_book.specs.Book.{TablesAgree};
ghost use Rattle.ar_book.specs.Choices.{IsLowestFree};
ghost use Rattle.ar_store.specs.Store.{StoreState};
ghost use Rattle.ar_store.specs.Placing.{IsLowestHole, HasNoHole};
ghost use Rattle.ar_store.specs.Plans.{MakesAccesses, ReadsUsableOf, WritesUsableAs, fill_kinds};
ghost use Rattle.ar_moves.specs.Demotion.{IsOldestMirrored, NamesDemotion, CarriesOutDemotion};
ghost use Rattle.ar_moves.specs.Cleaning.{NamesCleaning, NamesCleaningOf, NamesParityCleaning, CarriesOutCleaning};
ghost use Rattle.ar_moves.specs.Cleaning.{Cleans, cleaning_left};

/// Cleaning ends: each block that it moves lowers `cleaning_left`, a natural number. A call does nothing.
pub fn cleaning_ends()
    ensures { (t new : Tables) (key : Key) (to : Slot) → TablesAgree t → Cleans t key to new
        → cleaning_left new < cleaning_left t }
{}

/// Each rule chooses at most one block and one slot, and demotion one state of the tables in which the slot is ready.
/// So a move that is returned is the one that the rule chooses. A call does nothing.
pub fn rules_name_one_move()
    ensures demotion { (t ready tables : Tables) (key other : Key) (to at : Slot) → TablesAgree t
        → NamesDemotion t key to ready
        → NamesDemotion t other at tables → (key ≡ other) × (to ≡ at) × (ready ≡ tables) }
    ensures cleaning { (t : Tables) (key other : Key) (to at : Slot) → NamesCleaning t key to → NamesCleaning t other at
        → (key ≡ other) × (to ≡ at) }
{}

/// What a move costs where no disk faults. A demotion is one read, and then the two reads and two writes of a put to a
/// parity slot; a group that is opened for it costs four writes for each row before. Cleaning is one read, and then two
/// writes among the mirrored groups, two reads and two writes among the parity groups. If it opens no group, a disk may
/// be missing: only the extents that the move uses have to be usable. A call does nothing.
pub fn move_accesses()
    ensures demotion { (old new : StoreState) (key : Key) (from to : Slot) → home old.book key ≡ Some from
        → ReadsUsableOf old from → WritesUsableAs Parity old to → NoneFaults old.disks new.disks
        → CarriesOutDemotion old new → IsOldestMirrored old.book key → IsLowestHole old.book Parity to
        → MakesAccesses (Read ∷ Read ∷ Read ∷ Write ∷ Write ∷ []) old.disks new.disks }
    ensures opening { (old new : StoreState) (key : Key) (group : ℕ) → old.disks.health ≡ Whole
        → NoneFaults old.disks new.disks → CarriesOutDemotion old new → IsOldestMirrored old.book key
        → HasNoHole old.book Parity → 2 ≤ free_groups old.book → IsLowestFree old.book group
        → MakesAccesses (fill_kinds (rows_of old.disks.geometry) ++ Read ∷ Read ∷ Read ∷ Write ∷ Write ∷ [])
        old.disks new.disks }

    ensures mirrored_cleaning { (old new : StoreState) (key : Key) (from to : Slot) → home old.book key ≡ Some from
        → ReadsUsableOf old from → WritesUsableAs Mirrored old to → NoneFaults old.disks new.disks
        → CarriesOutCleaning old new → TablesAgree old.book
        → NamesCleaningOf old.book Mirrored key to
        → MakesAccesses (Read ∷ Write ∷ Write ∷ []) old.disks new.disks }
    ensures parity_cleaning { (old new : StoreState) (key : Key) (from to : Slot) → home old.book key ≡ Some from
        → ReadsUsableOf old from → WritesUsableAs Parity old to → NoneFaults old.disks new.disks
        → CarriesOutCleaning old new → TablesAgree old.book
        → NamesParityCleaning old.book key to
        → MakesAccesses (Read ∷ Read ∷ Read ∷ Write ∷ Write ∷ []) old.disks new.disks }
{}
