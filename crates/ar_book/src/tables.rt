// Accesses to one table. That homes and slots stay inverse to each other is up to the calls of `Book`, which pair them.
ghost use Rattle.std.specs.Prelude.{◌≡◌, ◌<◌, ◌≤◌, length, fold, ◌++◌, [], ◌∷◌, slice_set, false, None, OnOk, OnErr};
ghost use Rattle.std.specs.Prelude.{IfNone, IsSome};
ghost use Rattle.std.specs.Map.{lookup, keys_of, set_value, remove_entry};
ghost use Rattle.std.specs.List.{IsDistinct};
ghost use Rattle.std.specs.Option.{ForSome};
ghost use Rattle.ar_disks.specs.Addresses.{same_addr};
ghost use Rattle.ar_book.specs.Tables.{level_in, group_in, key_in, home_in, unit_in, blocks_of};
ghost use Rattle.ar_book.specs.Book.{AreHomes};
ghost use Rattle.ar_book.specs.Changes.{named, vacated, homed, restamped, new_unit, longer, with_place_at};

use crate::directory::{places_of, set_place};
use crate::{Class, Group, Groups, Level, Slot, UnitTable, Units, unit_map};
use ar_disks::{Addr, Geometry, Key, Place};
use std::alloc::{AllocError, Global};

/// The block of a slot; None if it is empty or there is no such slot.
pub(crate) fn key_in(groups: &[Group], slot: Slot) -> Option<Key>
    ensures { result ≡ key_in groups.now slot }
{
    groups.get(slot.group as usize)?.key(slot.slot)
}

/// The level of a home; Unplaced without one.
pub(crate) fn level_in(groups: &[Group], home: Option<Slot>) -> Level
    ensures { result ≡ level_in groups.now home }
{
    match home {
        Some(slot) => class_in(groups, slot.group).level(),
        None => Level::Unplaced,
    }
}

// The class of a group; Free if there is no such group.
fn class_in(groups: &[Group], number: u32) -> Class
    ensures { result ≡ (group_in groups.now number).class }
{
    match groups.get(number as usize) {
        Some(group) => group.class(),
        None => Class::Free,
    }
}

/// Puts the block `key` into a slot.
pub(crate) fn name_slot(groups: &mut Groups, slot: Slot, key: Key)
    requires group { slot.group < length groups.old.items }
    requires slot { slot.slot < length (group_in groups.old.items slot.group).slots }
    ensures { groups.new.items ≡ named groups.old.items slot key }
{
    groups.name(slot, key);
}

/// Empties the slot, if one is given.
pub(crate) fn vacate_slot(groups: &mut Groups, slot: Option<Slot>)
    requires group { ForSome slot (λ s. s.group < length groups.old.items) }
    requires slot { ForSome slot (λ s. s.slot < length (group_in groups.old.items s.group).slots) }
    ensures { groups.new.items ≡ vacated groups.old.items slot }
{
    if let Some(slot) = slot {
        groups.vacate(slot);
    }
}

/// Empties the slots of these homes, in order.
pub(crate) fn vacate_all(groups: &mut Groups, homes: &[Option<Slot>])
    requires { AreHomes groups.old.items homes.now }
    ensures { groups.new.items ≡ fold vacated groups.old.items homes.now }
{
    for home in homes {
        vacate_slot(groups, *home);
    }
}

/// The home of a block; None if it has none or is no block of a unit.
pub(crate) fn home_in(units: &Units, key: Key) -> Option<Slot>
    ensures { result ≡ home_in units.now.entries key }
{
    units.get(key.addr)?.home(key.rb)
}

/// Sets the home of a unit's block.
pub(crate) fn set_home(units: &mut Units, key: Key, home: Option<Slot>)
    requires { key.rb < length (unit_in units.old.entries key.addr).homes }
    ensures { units.new.entries ≡ homed units.old.entries key home }
{
    if let Some(place) = units.place(key.addr) {
        unit_map::set_home(&mut units.map, place, key, home);
    }
}

/// Sets the stamp of a unit's block and returns its home: one look-up serves both.
pub(crate) fn restamp(units: &mut Units, key: Key, stamp: u64) -> Option<Slot>
    requires { key.rb < length (unit_in units.old.entries key.addr).stamps }
    ensures home { result ≡ home_in units.old.entries key }
    ensures stamp { units.new.entries ≡ restamped units.old.entries key stamp }
{
    let Some(place) = units.place(key.addr) else {
        return None;
    };
    unit_map::restamp(&mut units.map, place, key, stamp)
}

/// Extends an existing unit to `sectors` sectors, and a UNIT ATTENTION is pending. On `AllocError` nothing changes.
pub(crate) fn grow_unit(
    units: &mut Units,
    addr: Addr,
    geometry: Geometry,
    sectors: u32,
) -> Result<(), AllocError>
    requires there { IsSome (lookup (same_addr addr) units.old.entries) }
    requires most { sectors ≤ 1048576 }
    requires homes { length (unit_in units.old.entries addr).homes ≤ blocks_of geometry sectors }
    requires stamps { length (unit_in units.old.entries addr).stamps ≡ length (unit_in units.old.entries addr).homes }
    ensures ok { OnOk result (units.new.entries
        ≡ set_value (same_addr addr) units.old.entries (longer geometry (unit_in units.old.entries addr) sectors)) }
    ensures err { OnErr result (units.new.entries ≡ units.old.entries) }
{
    if unit_map::grow(&mut units.map, addr, geometry, sectors).is_err() {
        return Err(AllocError);
    }
    Ok(())
}

/// Adds a unit of `sectors` sectors after the others. On `AllocError` nothing changes.
pub(crate) fn add_unit(
    alloc: Global,
    units: &mut Units,
    addr: Addr,
    geometry: Geometry,
    sectors: u32,
) -> Result<(), AllocError>
    requires lun { addr.lun ≤ 7 }
    requires new { lookup (same_addr addr) units.old.entries ≡ None }
    requires most { sectors ≤ 1048576 }
    ensures ok { OnOk result (units.new.entries ≡ units.old.entries ++ (addr, new_unit geometry sectors) ∷ []) }
    ensures distinct { OnOk result (IsDistinct same_addr (keys_of units.new.entries)) }
    ensures err { OnErr result (units.new.entries ≡ units.old.entries) }
{
    let place = units.map.len();
    if unit_map::add(alloc, &mut units.map, addr, geometry, sectors).is_err() {
        return Err(AllocError);
    }
    set_place(&mut units.places, addr, place);
    Ok(())
}

/// Removes a unit and returns its table; None if there is no such unit.
pub(crate) fn take_unit(units: &mut Units, addr: Addr) -> Option<UnitTable>
    ensures taken { result ≡ lookup (same_addr addr) units.old.entries }
    ensures left { units.new.entries ≡ remove_entry (same_addr addr) units.old.entries }
    ensures none { IfNone result (units.new.entries ≡ units.old.entries) }
    ensures distinct { IsDistinct same_addr (keys_of units.new.entries) }
{
    let unit = unit_map::take(&mut units.map, addr);
    units.places = places_of(&units.map);
    unit
}

/// Clears a unit's pending UNIT ATTENTION, if there is such a unit.
pub(crate) fn clear_attention(units: &mut Units, addr: Addr)
    ensures { units.new.entries
        ≡ set_value (same_addr addr) units.old.entries (record (unit_in units.old.entries addr) { attention = false }) }
{
    unit_map::clear_attention(&mut units.map, addr);
}

/// Sets the class of a group.
pub(crate) fn open_class(groups: &mut Groups, number: u32, class: Class)
    requires { number < length groups.old.items }
    ensures { groups.new.items
        ≡ slice_set groups.old.items number (record (group_in groups.old.items number) { class = class }) }
{
    groups.open(number, class);
}

/// Replaces the extent at member `position` (0 to 3) of a group.
pub(crate) fn replace_member(groups: &mut Groups, number: u32, position: u8, place: Place)
    requires there { number < length groups.old.items }
    requires range { position < 4 }
    ensures { groups.new.items ≡ with_place_at groups.old.items number position place }
{
    groups.set_member(number, position, place);
}
