// Units are created, resized and deleted. All blocks of a unit are reserved from the start, written or not, and what is
// reserved fits all groups but one as parity groups.
ghost use Rattle.std.specs.Prelude.{◌≡◌, ◌-◌, ◌≤◌, ◌↔◌, length, nat_lt, IsOk, IsTrue, Some, None, IfErr, OnOk, OnErr};
ghost use Rattle.std.specs.Prelude.{if◌then◌else◌};
ghost use Rattle.std.specs.Option.{unwrap_or};
ghost use Rattle.std.specs.Map.{keys_of};
ghost use Rattle.std.specs.Set.{remove_key};
ghost use Rattle.ar_disks.specs.Addresses.{same_addr};
ghost use Rattle.ar_book.specs.Tables.{has_unit, room, blocks_of, unit_in};
ghost use Rattle.ar_book.specs.Changes.{made, grown, dropped};
ghost use Rattle.ar_book.specs.Deletion.{KeepsOtherUnits};
ghost use Rattle.ar_book.specs.Refusals.{unit_make_refusal, unit_grow_refusal};

use crate::index::{blank_all, refresh_blank};
use crate::tables::{add_unit, grow_unit, take_unit, vacate_all};
use crate::unit::blocks_of;
use crate::{Book, Refusal};
use ar_disks::{Addr, MAX_LUN};
use ar_index::Steps;

/// The greatest length of a unit, in sectors.
const MAX_SECTORS: u32 = 1_048_576;

impl Book {
    /// Creates a unit of `sectors` sectors, 1 to 1,048,576, none of whose blocks has a home. Errors, checked in this
    /// order, change nothing: `BadLun` for a LUN above 7, `Exists`, `Size`, `NoRoom(room)` if its blocks exceed the
    /// room, and `NoMemory`.
    pub fn make(&mut self, addr: Addr, sectors: u32) -> Result<(), Refusal>
        ensures granted { OnOk result (unit_make_refusal self.old addr sectors ≡ None) }
        ensures refused { IfErr result
            (λ refusal. refusal ≡ unwrap_or (unit_make_refusal self.old addr sectors) Refusal.NoMemory) }
        ensures made { OnOk result (self.new ≡ made self.old addr sectors) }
        ensures unchanged { OnErr result (self.new ≡ self.old) }
    {
        if let Some(refusal) = self.make_refusal(addr, sectors) {
            return Err(refusal);
        }
        let blocks = blocks_of(self.geometry, sectors);
        if add_unit(self.alloc, &mut self.units, addr, self.geometry, sectors).is_err() {
            return Err(Refusal::NoMemory);
        }
        self.reserved += blocks;
        Ok(())
    }

    fn make_refusal(&self, addr: Addr, sectors: u32) -> Option<Refusal>
        ensures { result ≡ unit_make_refusal self.now addr sectors }
    {
        if addr.lun > MAX_LUN {
            return Some(Refusal::BadLun);
        }
        if self.units.contains(addr) {
            return Some(Refusal::Exists);
        }
        if sectors == 0 || sectors > MAX_SECTORS {
            return Some(Refusal::Size);
        }
        self.room_refusal(blocks_of(self.geometry, sectors))
    }

    // `NoRoom` if `blocks` more blocks exceed the room.
    fn room_refusal(&self, blocks: u32) -> Option<Refusal>
        ensures { result ≡ (if nat_lt (room self.now) blocks then Some (Refusal.NoRoom (room self.now)) else None) }
    {
        let room = self.room();
        if blocks > room {
            Some(Refusal::NoRoom(room))
        } else {
            None
        }
    }

    /// Extends a unit to `sectors` sectors, up to 1,048,576: new blocks have no home, and a UNIT ATTENTION is pending.
    /// Errors, checked in this order, change nothing: `Absent`, `Size` if `sectors` isn't above the present length or
    /// is too great, `NoRoom(room)` if the added blocks exceed the room, and `NoMemory`.
    pub fn grow(&mut self, addr: Addr, sectors: u32) -> Result<(), Refusal>
        ensures granted { OnOk result (unit_grow_refusal self.old addr sectors ≡ None) }
        ensures refused { IfErr result
            (λ refusal. refusal ≡ unwrap_or (unit_grow_refusal self.old addr sectors) Refusal.NoMemory) }
        ensures grown { OnOk result (self.new ≡ grown self.old addr sectors) }
        ensures unchanged { OnErr result (self.new ≡ self.old) }
    {
        if let Some(refusal) = self.grow_refusal(addr, sectors) {
            return Err(refusal);
        }
        let added = self.added_blocks(addr, sectors);
        if grow_unit(&mut self.units, addr, self.geometry, sectors).is_err() {
            return Err(Refusal::NoMemory);
        }
        self.reserved += added;
        Ok(())
    }

    fn grow_refusal(&self, addr: Addr, sectors: u32) -> Option<Refusal>
        ensures { result ≡ unit_grow_refusal self.now addr sectors }
    {
        let Some(unit) = self.units.get(addr) else {
            return Some(Refusal::Absent);
        };
        if sectors <= unit.sectors() || sectors > MAX_SECTORS {
            return Some(Refusal::Size);
        }
        self.room_refusal(self.added_blocks(addr, sectors))
    }

    // How many more blocks a unit has at `sectors` sectors.
    fn added_blocks(&self, addr: Addr, sectors: u32) -> u32
        requires { sectors ≤ 1048576 }
        ensures { result ≡ blocks_of self.now.geometry sectors - length (unit_in self.now.units addr).homes }
    {
        blocks_of(self.geometry, sectors).saturating_sub(self.blocks(addr))
    }

    /// Deletes a unit: empties the slots of its blocks, which are no longer reserved. The other units keep their homes,
    /// write sequence numbers and order. `Absent`, which changes nothing, exactly if no unit has this address.
    pub fn drop_unit(&mut self, addr: Addr) -> Result<(), Refusal>
        ensures absent { IfErr result (λ refusal. refusal ≡ Refusal.Absent) }
        ensures there { IsOk result ↔ IsTrue (has_unit self.old addr) }
        ensures dropped { OnOk result (self.new ≡ dropped self.old addr) }
        ensures unchanged { OnErr result (self.new ≡ self.old) }

        ensures others { KeepsOtherUnits self.old addr self.new }
        ensures order { OnOk result (keys_of self.new.units ≡ remove_key (same_addr addr) (keys_of self.old.units)) }
    {
        let Some(unit) = self.units.get(addr) else {
            return Err(Refusal::Absent);
        };
        let mut steps = Steps::new();
        // Blanked before the unit goes: the tree stays right without it, as the order of the others, which decides
        // ties, stays.
        blank_all(&mut self.index, unit.homes(), &self.units);
        let Some(unit) = take_unit(&mut self.units, addr) else {
            unreachable!()
        };
        vacate_all(&mut self.groups, unit.homes());
        self.reserved -= unit.blocks() as u32;
        refresh_blank(
            &mut self.index,
            &self.groups,
            &self.units,
            self.geometry,
            &mut steps,
            unit.homes(),
        );
        Ok(())
    }
}
