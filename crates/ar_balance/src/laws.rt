// Theorems about balancing that other crates use: its choice is unique, it ends, it idles only on even disks, and what
// a shift costs.
ghost use Rattle.std.specs.Prelude.{◌≡◌, ◌≢◌, ◌<◌, ◌≤◌, ◌+◌, [], ℕ};
ghost use Rattle.ar_disks.specs.Geometry.{rows_of};
ghost use Rattle.ar_disks.specs.declared.address.Members.{Members};
ghost use Rattle.ar_disks.specs.declared.address.Place.{Place};
ghost use Rattle.ar_extents.specs.declared.health.Health.TheVariants.{Whole};
ghost use Rattle.ar_extents.specs.Set.{IsValidSet};
ghost use Rattle.ar_extents.specs.Loose.{loose_count};
ghost use Rattle.ar_book.specs.Book.{TablesAgree};
ghost use Rattle.ar_book.specs.declared.class.Class.TheVariants.{Free};
ghost use Rattle.ar_store.specs.Store.{StoreState, class_in};
ghost use Rattle.ar_store.specs.Plans.{MakesAccesses};
ghost use Rattle.ar_store.specs.Kept.{IsSpace};
ghost use Rattle.ar_balance.specs.declared.step.Balance.{Balance};
ghost use Rattle.ar_balance.specs.Rule.{NamesForming, NamesShift, HasFewest, HasMost, CanShift, IsOneShift};
ghost use Rattle.ar_balance.specs.Balance.{Balances, IsBalanceIdle, IsExtentShifted, IfChanged};
ghost use Rattle.ar_balance.specs.Copies.{row_copies_kinds};
ghost use Rattle.ar_balance.specs.Measure.{balance_left};

/// The rule chooses at most one group, or one shift of an extent, and never both: so what balancing returns is what the
/// rule chooses. A call does nothing.
pub fn rule_names_one_action()
    ensures forming { (s : StoreState) (m other : Members) → NamesForming s m → NamesForming s other → m ≡ other }
    ensures shift { (s : StoreState) (g h p q : ℕ) (from leaves to goes : Place) → TablesAgree s.book
        → NamesShift s g p from to
        → NamesShift s h q leaves goes → IsOneShift g h p q from leaves to goes }
    ensures not_both { (s : StoreState) (m : Members) (g p : ℕ) (from to : Place) → NamesForming s m
        → NamesShift s g p from to → ⊥ }
{}

/// Balancing ends: each change of a table lowers `balance_left`, a natural number. A call does nothing.
pub fn balancing_ends()
    ensures { (old new : StoreState) (answer : Balance) → IsSpace old → IsValidSet old.disks → Balances old new answer
        → IfChanged answer (balance_left new.disks < balance_left old.disks) }
{}

/// If balancing is idle, the rule chooses nothing. On healthy disks the one with the most unassigned extents has then
/// at most one more than the one with the fewest, if a group is on the latter and not on the former. A call does
/// nothing.
pub fn idle_is_even()
    ensures forming { (old new : StoreState) (m : Members) → IsBalanceIdle old new → NamesForming old m → ⊥ }
    ensures shift { (old new : StoreState) (g p : ℕ) (from to : Place) → IsBalanceIdle old new
        → NamesShift old g p from to → ⊥ }
    ensures even { (old new : StoreState) (a b g p : ℕ) → IsBalanceIdle old new → old.disks.health ≡ Whole
        → HasFewest old.disks a → HasMost old.disks b
        → CanShift old.book a b g p → loose_count old.disks b ≤ loose_count old.disks a + 1 }
{}

/// A shift of a group's extent costs one read and one write for each row of it, row by row; of a free group it costs
/// nothing. A call does nothing.
pub fn shift_accesses()
    ensures used { (old new : StoreState) (group on off : ℕ) → IsExtentShifted old new group on off
        → class_in old group ≢ Free
        → MakesAccesses (row_copies_kinds (rows_of old.disks.geometry)) old.disks new.disks }
    ensures free { (old new : StoreState) (group on off : ℕ) → IsExtentShifted old new group on off
        → class_in old group ≡ Free → MakesAccesses [] old.disks new.disks }
{}
