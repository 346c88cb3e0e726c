// Keeps the search tree in step with the tables: the leaf of a group is what one scan of its slots finds. A change of a
// group costs at most one scan and one climb.
ghost use Rattle.std.specs.Prelude.{◌≡◌, ◌≢◌, ℕ, ◌+◌, ◌-◌, ◌*◌, ◌^◌, ◌<◌, ◌≤◌, length, slice_index_or, slice_set, true};
ghost use Rattle.std.specs.Prelude.{false, Some, None, IfSome, IfNone};
ghost use Rattle.std.specs.Option.{ForSome, MatchOption};
ghost use Rattle.std.specs.Map.{lookup};
ghost use Rattle.ar_disks.specs.Addresses.{same_addr};
ghost use Rattle.ar_index.specs.Choices.{place_in, with_oldest};
ghost use Rattle.ar_index.specs.Tree.{leaves, IsRight};
ghost use Rattle.ar_book.specs.Tables.{group_in};
ghost use Rattle.ar_book.specs.Index as spec;
ghost use Rattle.ar_book.specs.Index.{oldest_named, leaves_of, leaf, blanks, KeepsOldest, AreInside, HasNoOldest};
ghost use Rattle.ar_book.specs.Index.{IsBlanked, IsLeafOrBlank, HaveChoices};

use crate::group::slots_of;
use crate::{Class, Group, Groups, Slot, UnitTable, Units};
use ar_disks::{Addr, Geometry, Key};
use ar_index::{Age, Choices, Steps, Tree};

// A unit's address and its table.
type HeldUnit<'a> = (Addr, &'a UnitTable);

fn is_same_unit(held: Addr, addr: Addr) -> bool
    ensures { result ≡ same_addr held addr }
{
    held == addr
}

// Looks up the unit at `addr`, with the last one found as a cache: most blocks of a group are of one unit.
fn look_up<'a>(last: Option<HeldUnit<'a>>, units: &'a Units, addr: Addr) -> Option<HeldUnit<'a>>
    requires { ForSome last (λ unit. lookup (same_addr unit.0) units.now.entries ≡ Some unit.1.now) }
    ensures addr { ForSome result (λ unit. unit.0 ≡ addr) }
    ensures found { ForSome result (λ unit. lookup (same_addr addr) units.now.entries ≡ Some unit.1.now) }
    ensures none { IfNone result (lookup (same_addr addr) units.now.entries ≡ None) }
{
    if let Some((held, unit)) = last {
        if is_same_unit(held, addr) {
            return Some((addr, unit));
        }
    }
    Some((addr, units.get(addr)?))
}

// The stamp of block `rb`; 0 without a unit.
fn stamp_in(unit: Option<HeldUnit>, rb: u32) -> u64
    ensures { MatchOption unit.entry (result ≡ 0) (λ held. result ≡ slice_index_or held.1.now.stamps rb 0) }
{
    match unit {
        Some((_, unit)) => unit.stamp(rb),
        None => 0,
    }
}

// The oldest block in `slots`. Counts a step for each slot.
fn oldest_in(slots: &[Option<Key>], units: &Units, steps: &mut Steps) -> Option<Age>
    ensures oldest { result ≡ oldest_named (place_in units.now.entries) (spec.age_of units.now.entries) slots.now }
    ensures few { steps.new.count ≡ steps.old.count + length slots.now }
{
    let order = units.map();
    let mut oldest = None;
    let mut unit = None;
    for named in slots {
        steps.tick();
        if let Some(key) = named {
            unit = look_up(unit, units, key.addr);
            let stamp = stamp_in(unit, key.rb);
            oldest = Age::older(oldest, Some(Age { stamp, key: *key }), order);
        }
    }
    oldest
}

// The group's number, if it has an empty slot (a hole).
fn if_open(group: &Group, number: u32, geometry: Geometry) -> Option<u32>
    ensures { result ≡ spec.if_open geometry number group.now }
{
    if group.used() < slots_of(geometry, group.class()) as usize {
        Some(number)
    } else {
        None
    }
}

/// The leaf of a free group.
pub(crate) fn free_leaf(number: u32) -> Choices
    ensures { result ≡ spec.free_leaf number }
{
    Choices {
        mirrored: None,
        parity: None,
        free: Some(number),
        oldest: None,
    }
}

/// The leaf of a group: its number where a search may choose it, and its oldest block if it is mirrored. Counts at most
/// a step for each slot.
pub(crate) fn choices_of(
    group: &Group,
    number: u32,
    geometry: Geometry,
    units: &Units,
    steps: &mut Steps,
) -> Choices
    ensures choices { result ≡ spec.choices_of geometry units.now.entries number group.now }
    // Only a mirrored group is scanned.
    ensures still { group.now.class ≢ Class.Mirrored → steps.new.count ≡ steps.old.count }
    ensures few { steps.new.count ≤ steps.old.count + length group.now.slots }
    ensures on { steps.old.count ≤ steps.new.count }
{
    match group.class() {
        Class::Free => free_leaf(number),
        Class::Mirrored => Choices {
            mirrored: if_open(group, number, geometry),
            parity: None,
            free: None,
            oldest: oldest_in(group.slots(), units, steps),
        },
        Class::Parity => Choices {
            mirrored: None,
            parity: if_open(group, number, geometry),
            free: None,
            oldest: None,
        },
    }
}

/// Updates the tree after a change of group `number`: one scan of its slots and one climb. A step is a slot or a node.
pub(crate) fn refresh(
    index: &mut Tree,
    groups: &Groups,
    units: &Units,
    geometry: Geometry,
    number: u32,
    steps: &mut Steps,
)
    requires few { length groups.now.items < 2 ^ 32 }
    requires there { number < length groups.now.items }
    requires leaves { length (leaves index.old) ≡ length groups.now.items }
    requires right { IsRight (place_in units.now.entries) index.old }
    ensures set { leaves index.new
        ≡ slice_set (leaves index.old) number
        (spec.choices_of geometry units.now.entries number (group_in groups.now.items number)) }
    ensures right { IsRight (place_in units.now.entries) index.new }
    ensures few { length groups.now.items ≤ 4096
        → steps.new.count ≤ steps.old.count + (length (group_in groups.now.items number).slots + 12) }
    // Only a mirrored group is scanned.
    ensures unscanned { length groups.now.items ≤ 4096 → (group_in groups.now.items number).class ≢ Class.Mirrored
        → steps.new.count ≤ steps.old.count + 12 }
    ensures on { steps.old.count ≤ steps.new.count }
{
    let choices = choices_of(groups.at(number), number, geometry, units, steps);
    index.set(number as usize, &choices, units.map(), steps);
}

/// Updates the tree after a change of the group of `home`, if there is one.
pub(crate) fn refresh_home(
    index: &mut Tree,
    groups: &Groups,
    units: &Units,
    geometry: Geometry,
    home: Option<Slot>,
    steps: &mut Steps,
)
    requires few { length groups.now.items < 2 ^ 32 }
    requires there { ForSome home (λ slot. slot.group < length groups.now.items) }
    requires leaves { length (leaves index.old) ≡ length groups.now.items }
    requires right { IsRight (place_in units.now.entries) index.old }
    ensures set { MatchOption home (leaves index.new ≡ leaves index.old) (λ slot. leaves index.new
        ≡ slice_set (leaves index.old) slot.group
        (spec.choices_of geometry units.now.entries slot.group (group_in groups.now.items slot.group))) }
    ensures right { IsRight (place_in units.now.entries) index.new }
    ensures few { length groups.now.items ≤ 4096
        → MatchOption home (steps.new.count ≡ steps.old.count)
        (λ slot. steps.new.count ≤ steps.old.count + (length (group_in groups.now.items slot.group).slots + 12)) }
    ensures still { home ≡ None → steps.new.count ≡ steps.old.count }
    ensures on { steps.old.count ≤ steps.new.count }
{
    if let Some(slot) = home {
        refresh(index, groups, units, geometry, slot.group, steps);
    }
}

// The oldest block of a group, if that is mirrored. Counts a step for each slot that it looks at.
fn oldest_of(group: &Group, units: &Units, steps: &mut Steps) -> Option<Age>
    ensures oldest { result ≡ spec.oldest_of units.now.entries group.now }
    ensures still { group.now.class ≢ Class.Mirrored → steps.new.count ≡ steps.old.count }
    ensures few { steps.new.count ≤ steps.old.count + length group.now.slots }
    ensures on { steps.old.count ≤ steps.new.count }
{
    match group.class() {
        Class::Mirrored => oldest_in(group.slots(), units, steps),
        Class::Free | Class::Parity => None,
    }
}

/// Updates the tree after a change of stamps in the group of `home`, if there is one: of its choices no other than the
/// oldest block can change. A step is a slot or a node.
pub(crate) fn refresh_oldest(
    index: &mut Tree,
    groups: &Groups,
    units: &Units,
    home: Option<Slot>,
    steps: &mut Steps,
)
    requires there { ForSome home (λ slot. slot.group < length groups.now.items) }
    requires leaves { length (leaves index.old) ≡ length groups.now.items }
    requires right { IsRight (place_in units.now.entries) index.old }
    ensures set { MatchOption home (leaves index.new ≡ leaves index.old) (λ slot. leaves index.new
        ≡ slice_set (leaves index.old) slot.group (with_oldest (leaf index.old slot.group)
        (spec.oldest_of units.now.entries (group_in groups.now.items slot.group)))) }
    ensures right { IsRight (place_in units.now.entries) index.new }
    ensures few { length groups.now.items ≤ 4096
        → MatchOption home (steps.new.count ≡ steps.old.count)
        (λ slot. steps.new.count ≤ steps.old.count + (length (group_in groups.now.items slot.group).slots + 12)) }
    ensures still { home ≡ None → steps.new.count ≡ steps.old.count }
    ensures unlooked { ForSome home (λ slot. HasNoOldest groups.now.items index.old slot.group)
        → steps.new.count ≡ steps.old.count }
    ensures on { steps.old.count ≤ steps.new.count }
{
    if let Some(slot) = home {
        let oldest = oldest_of(groups.at(slot.group), units, steps);
        index.set_oldest(slot.group as usize, oldest, units.map(), steps);
    }
}

// Whether another block than `key` is the oldest, and older than `stamp`.
fn keeps_oldest(oldest: Option<Age>, key: Key, stamp: u64) -> bool
    ensures keeps { result ≡ true → KeepsOldest oldest key stamp }
    ensures changes { result ≡ false → KeepsOldest oldest key stamp → ⊥ }
{
    match oldest {
        Some(oldest) => oldest.stamp < stamp && oldest.key != key,
        None => false,
    }
}

/// The home of a block that gets `stamp`, if its group's leaf may change by that. None without a home, or if another
/// block is the oldest of the group and older than `stamp`: it stays the oldest then.
pub(crate) fn home_to_refresh(
    index: &Tree,
    home: Option<Slot>,
    key: Key,
    stamp: u64,
) -> Option<Slot>
    requires { ForSome home (λ slot. slot.group < length (leaves index.now)) }
    ensures same { IfSome result (λ slot. home ≡ Some slot) }
    ensures needed { IfSome result (λ slot. KeepsOldest (leaf index.now slot.group).oldest key stamp → ⊥) }
    ensures stays { IfNone result (ForSome home (λ slot. KeepsOldest (leaf index.now slot.group).oldest key stamp)) }
{
    let slot = home?;
    if keeps_oldest(index.oldest(slot.group as usize), key, stamp) {
        None
    } else {
        Some(slot)
    }
}

/// Blanks the leaves of the groups of these homes, so that no node refers to a block in them.
pub(crate) fn blank_all(index: &mut Tree, homes: &[Option<Slot>], units: &Units)
    requires there { AreInside homes.now (length (leaves index.old)) }
    requires right { IsRight (place_in units.now.entries) index.old }
    ensures size { length (leaves index.new) ≡ length (leaves index.old) }
    ensures right { IsRight (place_in units.now.entries) index.new }
    ensures blank { (i : ℕ) → IsBlanked homes.now (length homes.now) index.old index.new i }
{
    let mut steps = Steps::new();
    let order = units.map();
    for home in homes {
        if let Some(slot) = home {
            let group = slot.group as usize;
            if !index.is_blank(group) {
                index.set(group, &Choices::nothing(), order, &mut steps);
            }
        }
    }
}

/// Refreshes the groups of these homes whose leaves are blank; the tree is in step with the tables then.
pub(crate) fn refresh_blank(
    index: &mut Tree,
    groups: &Groups,
    units: &Units,
    geometry: Geometry,
    steps: &mut Steps,
    homes: &[Option<Slot>],
)
    requires few { length groups.now.items < 2 ^ 32 }
    requires there { AreInside homes.now (length groups.now.items) }
    requires leaves { length (leaves index.old) ≡ length groups.now.items }
    requires right { IsRight (place_in units.now.entries) index.old }
    requires each { (i : ℕ) → i < length groups.now.items
        → IsLeafOrBlank geometry units.now.entries groups.now.items homes.now 0 index.old i }
    // One refresh for each blank leaf at most: a scan of 48 slots and a climb of 12 nodes.
    ensures few { length groups.now.items ≤ 4096 → HaveChoices geometry units.now.entries groups.now.items homes.now
        → steps.new.count ≤ steps.old.count + 60 * blanks index.old }
    ensures leaves { leaves index.new ≡ leaves_of geometry units.now.entries groups.now.items }
    ensures right { IsRight (place_in units.now.entries) index.new }
{
    for home in homes {
        if let Some(slot) = home {
            if index.is_blank(slot.group as usize) {
                refresh(index, groups, units, geometry, slot.group, steps);
            }
        }
    }
}
