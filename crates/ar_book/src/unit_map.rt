// Changes of the map of units, in order of creation. The directory of units is kept beside it.
ghost use Rattle.std.specs.Prelude.{◌≡◌, ◌<◌, ◌≤◌, length, position, ◌++◌, [], ◌∷◌, false, None, Some, OnOk, OnErr};
ghost use Rattle.std.specs.Prelude.{IfNone, IsSome};
ghost use Rattle.std.specs.Map.{lookup, keys_of, set_value, remove_entry};
ghost use Rattle.std.specs.List.{IsDistinct};
ghost use Rattle.ar_disks.specs.Addresses.{same_addr};
ghost use Rattle.ar_book.specs.Tables.{home_in, unit_in, blocks_of};
ghost use Rattle.ar_book.specs.Changes.{homed, restamped, new_unit, longer};

use crate::{Slot, UnitTable};
use ar_disks::{Addr, Geometry, Key};
use indexmap::IndexMap;
use std::alloc::{AllocError, Global};

/// Sets the home of a block of the unit at `place`, which needs no hash.
pub(crate) fn set_home(
    units: &mut IndexMap<Addr, UnitTable>,
    place: usize,
    key: Key,
    home: Option<Slot>,
)
    requires place { position (same_addr key.addr) (keys_of units.old.entries) ≡ Some place }
    requires block { key.rb < length (unit_in units.old.entries key.addr).homes }
    ensures { units.new.entries ≡ homed units.old.entries key home }
{
    if let Some(unit) = units.get_index_mut(place) {
        unit.set_home(key.rb, home);
    }
}

/// Sets the stamp of a block of the unit at `place`, and returns its home.
pub(crate) fn restamp(
    units: &mut IndexMap<Addr, UnitTable>,
    place: usize,
    key: Key,
    stamp: u64,
) -> Option<Slot>
    requires place { position (same_addr key.addr) (keys_of units.old.entries) ≡ Some place }
    requires block { key.rb < length (unit_in units.old.entries key.addr).stamps }
    ensures home { result ≡ home_in units.old.entries key }
    ensures stamp { units.new.entries ≡ restamped units.old.entries key stamp }
{
    let unit = units.get_index_mut(place)?;
    unit.set_stamp(key.rb, stamp);
    unit.home(key.rb)
}

/// Extends an existing unit to `sectors` sectors, and a UNIT ATTENTION is pending. On `AllocError` nothing changes.
#[tactic(auto, using(std::proofs::lemmas::Map::Steps::set_value_same))]
pub(crate) fn grow(
    units: &mut IndexMap<Addr, UnitTable>,
    addr: Addr,
    geometry: Geometry,
    sectors: u32,
) -> Result<(), AllocError>
    requires there { IsSome (lookup (same_addr addr) units.old.entries) }
    requires most { sectors ≤ 1048576 }
    requires homes { length (unit_in units.old.entries addr).homes ≤ blocks_of geometry sectors }
    requires stamps { length (unit_in units.old.entries addr).stamps ≡ length (unit_in units.old.entries addr).homes }
    ensures ok { OnOk result (units.new.entries
        ≡ set_value (same_addr addr) units.old.entries (longer geometry (unit_in units.old.entries addr) sectors)) }
    ensures err { OnErr result (units.new.entries ≡ units.old.entries) }
{
    match units.get_mut(&addr) {
        Some(unit) => unit.grow(geometry, sectors),
        None => unreachable!(),
    }
}

/// Adds a unit of `sectors` sectors after the others. On `AllocError` nothing changes.
pub(crate) fn add(
    alloc: Global,
    units: &mut IndexMap<Addr, UnitTable>,
    addr: Addr,
    geometry: Geometry,
    sectors: u32,
) -> Result<(), AllocError>
    requires new { lookup (same_addr addr) units.old.entries ≡ None }
    requires most { sectors ≤ 1048576 }
    ensures ok { OnOk result (units.new.entries ≡ units.old.entries ++ (addr, new_unit geometry sectors) ∷ []) }
    ensures distinct { OnOk result (IsDistinct same_addr (keys_of units.new.entries)) }
    ensures err { OnErr result (units.new.entries ≡ units.old.entries) }
{
    let table = UnitTable::new(alloc, geometry, sectors)?;
    match units.insert(addr, table) {
        Ok(_) => Ok(()),
        Err(_) => Err(AllocError),
    }
}

/// Removes a unit and returns its table; None if there is no such unit.
pub(crate) fn take(units: &mut IndexMap<Addr, UnitTable>, addr: Addr) -> Option<UnitTable>
    ensures taken { result ≡ lookup (same_addr addr) units.old.entries }
    ensures left { units.new.entries ≡ remove_entry (same_addr addr) units.old.entries }
    ensures none { IfNone result (units.new.entries ≡ units.old.entries) }
    ensures distinct { IsDistinct same_addr (keys_of units.new.entries) }
{
    units.shift_remove(&addr)
}

/// Clears a unit's pending UNIT ATTENTION, if there is such a unit.
#[tactic(auto, using(crate::proofs::UnitLemmas::put_absent))]
pub(crate) fn clear_attention(units: &mut IndexMap<Addr, UnitTable>, addr: Addr)
    ensures { units.new.entries
        ≡ set_value (same_addr addr) units.old.entries (record (unit_in units.old.entries addr) { attention = false }) }
{
    if let Some(unit) = units.get_mut(&addr) {
        unit.clear_attention();
    }
}
