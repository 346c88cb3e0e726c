// Creates, resizes and deletes units, and discards their blocks. Only the tables change: no disk is accessed.

use crate::Store;
use ar_book::Refusal;
use ar_disks::{Addr, Disk, Key};
use ar_index::Steps;

impl<D: Disk> Store<D> {
    ghost use Rattle.std.specs.Prelude.{◌≡◌, ◌≢◌, ◌↔◌, IsOk, IsTrue, None, IfErr, OnOk, OnErr};
    ghost use Rattle.std.specs.Option.{unwrap_or};
    ghost use Rattle.ar_disks.specs.Block.{zeros};
    ghost use Rattle.ar_disks.specs.Geometry.{block_len_of};
    ghost use Rattle.ar_disks.specs.declared.address.Key.{Key};
    ghost use Rattle.ar_book.specs.Tables.{has_unit, HasBlock};
    ghost use Rattle.ar_book.specs.Changes.{made, grown, dropped, released, unmarked};
    ghost use Rattle.ar_book.specs.Refusals.{unit_make_refusal, unit_grow_refusal};
    ghost use Rattle.ar_store.specs.Slots.{stands};
    ghost use Rattle.ar_store.specs.Placing.{SameUnits};

    /// Creates a unit of `sectors` sectors, 1 to 1,048,576. None of its blocks has a home, so all read as zeros.
    /// Errors, in this order: `BadLun` for a LUN above 7, `Exists`, `Size`, `NoRoom` with the number of blocks that
    /// still fit, `NoMemory`. An error changes nothing.
    pub fn make(&mut self, addr: Addr, sectors: u32) -> Result<(), Refusal>
        ensures granted { OnOk result (unit_make_refusal self.old.book addr sectors ≡ None) }
        ensures refused { IfErr result (λ refusal. refusal
            ≡ unwrap_or (unit_make_refusal self.old.book addr sectors) Refusal.NoMemory) }
        ensures made { OnOk result (self.new.book ≡ made self.old.book addr sectors) }
        ensures unchanged { OnErr result (self.new ≡ self.old) }
        ensures disks { self.new.disks ≡ self.old.disks }
        ensures stands { (k : Key) → stands self.new k ≡ stands self.old k }
    {
        self.space.book.make(addr, sectors)
    }

    /// Extends a unit to `sectors` sectors, at most 1,048,576, and sets its pending UNIT ATTENTION. The new blocks have
    /// no home and read as zeros. Errors, in this order: `Absent`, `Size` if the length isn't above the present one or
    /// is too great, `NoRoom` with the number of blocks that still fit, `NoMemory`. An error changes nothing.
    pub fn grow(&mut self, addr: Addr, sectors: u32) -> Result<(), Refusal>
        ensures granted { OnOk result (unit_grow_refusal self.old.book addr sectors ≡ None) }
        ensures refused { IfErr result (λ refusal. refusal
            ≡ unwrap_or (unit_grow_refusal self.old.book addr sectors) Refusal.NoMemory) }
        ensures grown { OnOk result (self.new.book ≡ grown self.old.book addr sectors) }
        ensures unchanged { OnErr result (self.new ≡ self.old) }
        ensures disks { self.new.disks ≡ self.old.disks }
        ensures stands { (k : Key) → stands self.new k ≡ stands self.old k }
    {
        self.space.book.grow(addr, sectors)
    }

    /// Deletes a unit: its blocks lose their homes and read as zeros, and every other block keeps its contents.
    /// `Absent` exactly if there is no unit; nothing changes then.
    pub fn drop_unit(&mut self, addr: Addr) -> Result<(), Refusal>
        ensures absent { IfErr result (λ refusal. refusal ≡ Refusal.Absent) }
        ensures there { IsOk result ↔ IsTrue (has_unit self.old.book addr) }
        ensures dropped { OnOk result (self.new.book ≡ dropped self.old.book addr) }
        ensures unchanged { OnErr result (self.new ≡ self.old) }
        ensures disks { self.new.disks ≡ self.old.disks }
        ensures others { (k : Key) → k.addr ≢ addr → stands self.new k ≡ stands self.old k }
        ensures zeros { (k : Key) → k.addr ≡ addr → stands self.new k ≡ zeros (block_len_of self.old.disks.geometry) }
    {
        self.space.book.drop_unit(addr)
    }

    /// Discards a block: it loses its home and reads as zeros, and every other block keeps its contents. Its slot is
    /// empty, and its group free if no slot of it is occupied. The unit keeps all of its blocks, so the room stays.
    pub fn release(&mut self, key: Key)
        requires { HasBlock self.old.book key }
        ensures released { self.new.book ≡ released self.old.book key }
        ensures disks { self.new.disks ≡ self.old.disks }
        ensures units { SameUnits self.old.book self.new.book }
        ensures others { (k : Key) → k ≢ key → stands self.new k ≡ stands self.old k }
        ensures zeros { stands self.new key ≡ zeros (block_len_of self.old.disks.geometry) }
    {
        self.space.book.release(key, &mut Steps::new());
    }

    /// Clears a unit's pending UNIT ATTENTION. Nothing changes if there is no unit.
    pub fn clear_attention(&mut self, addr: Addr)
        ensures book { self.new.book ≡ unmarked self.old.book addr }
        ensures disks { self.new.disks ≡ self.old.disks }
        ensures stands { (k : Key) → stands self.new k ≡ stands self.old k }
    {
        self.space.book.clear_attention(addr);
    }
}
