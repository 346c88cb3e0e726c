// Disk failure, addition and replacement, and raw reads of rows: none of them changes the contents of a block.

use crate::Store;
use ar_disks::{Disk, Place};
use ar_extents::{DiskRefusal, Got};

impl<D: Disk> Store<D> {
    ghost use Rattle.std.specs.Prelude.{◌≡◌, ◌<◌, length, Some, None, unwrap_or, IfErr, OnOk, OnErr};
    ghost use Rattle.ar_disks.specs.Geometry.{rows_of, block_len_of};
    ghost use Rattle.ar_extents.specs.declared.refusal.DiskRefusal.TheVariants.{NoMemory};
    ghost use Rattle.ar_extents.specs.Set.{HasExtent, CanCount};
    ghost use Rattle.ar_extents.specs.Changes.{fail_refusal, failed, add_refusal, added};
    ghost use Rattle.ar_extents.specs.Access.{Gets, is_read};
    ghost use Rattle.ar_extents.specs.Plans.{Attempts, read_at};
    ghost use Rattle.ar_store.specs.Slots.{KeepsContents};
    ghost use Rattle.ar_store.specs.Calls.{IsAccessed};

    /// Marks `disk` as failed, as if an access to it had faulted. The blocks keep their contents, unless another disk
    /// has failed or is being rebuilt: then the array fails. A disk that has failed already stays so, and a failed
    /// array stays failed. Returns an error exactly if there is no such disk, and changes nothing then.
    pub fn fail(&mut self, disk: u8) -> Result<(), DiskRefusal>
        ensures taken { OnOk result (fail_refusal self.old.disks disk ≡ None) }
        ensures refused { IfErr result (λ refusal. fail_refusal self.old.disks disk ≡ Some refusal) }
        ensures disks { OnOk result (self.new.disks ≡ failed self.old.disks disk) }
        ensures unchanged { OnErr result (self.new ≡ self.old) }
        ensures keeps { KeepsContents self.old self.new }
    {
        self.space.disks.fail(disk)
    }

    /// Adds `disk` with all its extents unassigned: no group uses them yet, and every block keeps its contents. Errors,
    /// in this order: the array has failed, it has twelve disks, the disk has another shape (geometry or number of
    /// extents), out of memory. An error gives `disk` back and changes nothing.
    pub fn add(&mut self, disk: D) -> Result<(), (DiskRefusal, D)>
        requires { CanCount (D.state disk) }
        ensures taken { OnOk result (add_refusal self.old.disks (D.state disk) ≡ None) }
        ensures disks { OnOk result (self.new.disks ≡ added self.old.disks (D.state disk)) }
        ensures refused { IfErr result
            (λ back. back.0 ≡ unwrap_or (add_refusal self.old.disks (D.state disk)) NoMemory) }
        ensures handed_back { IfErr result (λ back. back.1 ≡ disk) }
        ensures unchanged { OnErr result (self.new ≡ self.old) }
        ensures keeps { KeepsContents self.old self.new }
    {
        // Called for its contract: the set keeps a list of unassigned extents for each disk.
        let _health = self.space.disks.health();
        self.space.disks.add(disk)
    }

    /// Reads row `row` of the extent `place` from its disk into `into`, a block of the store's length, whatever the
    /// extent is used for. Unless it returns `Read`, the contents of `into` are unspecified. A missing extent isn't
    /// accessed.
    pub fn read_place(&mut self, place: Place, row: u16, into: &mut [u8]) -> Got
        requires place { HasExtent self.old.disks place }
        requires row { row < rows_of self.old.disks.geometry }
        requires whole { length into.old ≡ block_len_of self.old.disks.geometry }

        ensures answer { Gets self.old.disks self.new.disks place row into.new result }
        // Exactly this access is made: one read, or none where the extent is lost.
        ensures made { Attempts (read_at place row) (is_read result) self.old.disks self.new.disks }

        ensures keeps { KeepsContents self.old self.new }
        ensures accessed { IsAccessed self.old.disks self.new.disks }
    {
        self.space.disks.get(place, row, into)
    }
}

impl<D: Disk + Drop> Store<D> {
    ghost use Rattle.std.specs.Prelude.{◌≡◌, Some, None, IfErr, OnOk, OnErr};
    ghost use Rattle.ar_extents.specs.Set.{CanCount};
    ghost use Rattle.ar_extents.specs.Changes.{replace_refusal, replaced};
    ghost use Rattle.ar_store.specs.Slots.{KeepsContents, SlotsHold};

    /// Puts `disk` in the place of the failed disk `number`, which is dropped, and starts its rebuild. No extent of the
    /// new disk is used before it is rebuilt, so every block keeps its contents, whatever is on the disk. An error
    /// gives `disk` back and changes nothing.
    pub fn replace(&mut self, number: u8, disk: D) -> Result<(), (DiskRefusal, D)>
        requires { CanCount (D.state disk) }

        ensures taken { OnOk result (replace_refusal self.old.disks number (D.state disk) ≡ None) }
        ensures replaced { OnOk result (self.new.disks ≡ replaced self.old.disks number (D.state disk)) }
        ensures refused { IfErr result (λ back. replace_refusal self.old.disks number (D.state disk) ≡ Some back.0) }
        ensures handed_back { IfErr result (λ back. back.1 ≡ disk) }
        ensures unchanged { OnErr result (self.new ≡ self.old) }

        ensures keeps { KeepsContents self.old self.new }
        ensures slots { SlotsHold self.old self.new }
    {
        self.space.disks.replace(number, disk)
    }
}
