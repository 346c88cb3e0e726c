// Finds a unit by its address without hashing. Each of four hosts has LUNs 0 to 7, so a table of 32 entries has the
// place of each unit in the map, which keeps the order of creation. The table is exact.
//
//     places   [ 1 | - | .. | 0 | - | .. ]      at 8 * host + LUN: the unit's place, or none
//     units    [ 1:0 | 0:0 ]                    in order of creation
ghost use Rattle.std.specs.Prelude.{◌≡◌, ℕ, ◌+◌, ◌<◌, length, slice_set, take, Some};
ghost use Rattle.std.specs.List.{IsDistinct};
ghost use Rattle.std.specs.Map.{keys_of};
ghost use Rattle.ar_disks.specs.Addresses.{same_addr};
ghost use Rattle.ar_book.specs.Listing as spec;
ghost use Rattle.ar_book.specs.Listing.{AreListed, HaveSpots};

use crate::UnitTable;
use ar_disks::{Addr, MAX_LUN};
use indexmap::IndexMap;
use std::alloc::Global;
use std::marker::Model;

/// The number of addresses: those of four hosts with LUNs up to `MAX_LUN`.
const SPOTS: usize = 32;

/// The units in order of creation, found by address.
#[derive(Drop)]
pub struct Units {
    pub(crate) map: IndexMap<Addr, UnitTable>,
    pub(crate) places: [Option<usize>; 32],
}

impl Model for Units {
    ghost use Rattle.ar_book.specs.Listing.{UnitsState, AreListed};

    ghost Value = { UnitsState };

    ghost view = { λ u. record { entries = u.map.entries } };

    ghost invariant = { λ u. AreListed u.places u.map.entries };
}

// Where the table has an address; past its end for a LUN above 7.
pub(crate) fn spot_of(addr: Addr) -> usize
    ensures { result ≡ spec.spot_of addr }
{
    if addr.lun > MAX_LUN {
        return SPOTS;
    }
    8 * addr.host.number() as usize + addr.lun as usize
}

/// The table of these units.
pub(crate) fn places_of(map: &IndexMap<Addr, UnitTable>) -> [Option<usize>; 32]
    requires distinct { IsDistinct same_addr (keys_of map.now.entries) }
    requires spots { HaveSpots map.now.entries }
    ensures { AreListed result map.now.entries }
{
    let mut places = [None; 32];
    for place in 0..map.len() {
        list(&mut places, map, place);
    }
    places
}

// Lists the unit at `place`, after those before it.
fn list(places: &mut [Option<usize>; 32], map: &IndexMap<Addr, UnitTable>, place: usize)
    requires there { place < length map.now.entries }
    requires distinct { IsDistinct same_addr (keys_of map.now.entries) }
    requires spots { HaveSpots map.now.entries }
    requires before { AreListed places.old (take place map.now.entries) }
    ensures { AreListed places.new (take (place + 1) map.now.entries) }
{
    if let Some((addr, _)) = map.get_index(place) {
        set_place(places, *addr, place);
    }
}

/// Sets the place of the unit at `addr`.
pub(crate) fn set_place(places: &mut [Option<usize>; 32], addr: Addr, place: usize)
    requires { spec.spot_of addr < 32 }
    ensures { places.new ≡ slice_set places.old (spec.spot_of addr) (Some place) }
{
    places[spot_of(addr)] = Some(place);
}

impl Units {
    ghost use Rattle.std.specs.Prelude.{◌≡◌, [], length, position, slice_get, is_some};
    ghost use Rattle.std.specs.Map.{lookup, keys_of};
    ghost use Rattle.std.specs.Option.{option_copied, option_map};
    ghost use Rattle.ar_disks.specs.Addresses.{same_addr};

    /// No units.
    pub(crate) fn new(alloc: Global) -> Units
        ensures { result.entries ≡ [] }
    {
        Units {
            map: IndexMap::new(alloc),
            places: [None; 32],
        }
    }

    /// The units as a map, in order of creation.
    pub(crate) fn map(&self) -> &IndexMap<Addr, UnitTable>
        ensures { result.now.entries ≡ self.now.entries }
    {
        &self.map
    }

    /// A unit's place in order of creation; None if there is no such unit.
    pub(crate) fn place(&self, addr: Addr) -> Option<usize>
        ensures { result ≡ position (same_addr addr) (keys_of self.now.entries) }
    {
        self.places.get(spot_of(addr)).copied().flatten()
    }

    /// The table of a unit; None if there is no such unit.
    pub(crate) fn get(&self, addr: Addr) -> Option<&UnitTable>
        ensures value { option_copied result ≡ lookup (same_addr addr) self.now.entries }
    {
        let Some(place) = self.place(addr) else {
            return None;
        };
        let (_, unit) = self.map.get_index(place)?;
        Some(unit)
    }

    /// Whether there is a unit at an address.
    pub(crate) fn contains(&self, addr: Addr) -> bool
        ensures { result ≡ is_some (lookup (same_addr addr) self.now.entries) }
    {
        self.place(addr).is_some()
    }

    /// The number of units.
    pub(crate) fn len(&self) -> usize
        ensures { result ≡ length self.now.entries }
    {
        self.map.len()
    }

    /// The address of the unit at `place` in order of creation; None past the last.
    pub(crate) fn addr_at(&self, place: usize) -> Option<Addr>
        ensures { result ≡ option_map (λ entry. entry.0) (slice_get self.now.entries place) }
    {
        let (addr, _) = self.map.get_index(place)?;
        Some(*addr)
    }
}
