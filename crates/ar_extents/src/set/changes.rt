// Disks are added, replaced and taken out. The first reason that applies refuses a disk, and a refusal changes nothing.
ghost use Rattle.std.specs.Prelude.{◌≡◌, ◌∷◌, ◌++◌, [], Some, None, unwrap_or, IfErr, OnOk, OnErr};
ghost use Rattle.ar_extents.specs.declared.refusal.DiskRefusal.TheVariants.{NoMemory};
ghost use Rattle.ar_extents.specs.Health.{IsRebuilding};
ghost use Rattle.ar_extents.specs.Set.{CanCount};
ghost use Rattle.ar_extents.specs.Changes.{add_refusal, added, replace_refusal, replaced, fail_refusal, failed};
ghost use Rattle.ar_extents.specs.Changes.{with_done};

use super::DiskSet;
use crate::marks::Marks;
use crate::shape::has_shape;
use crate::{DiskRefusal, Health};
use ar_disks::Disk;

impl<D: Disk> DiskSet<D> {
    /// Takes disk `disk` out, as if it had faulted; a failed disk stays failed, and a failed set too. Returns
    /// `NoSuchDisk`, and changes nothing, if the set has no such disk.
    pub fn fail(&mut self, disk: u8) -> Result<(), DiskRefusal>
        ensures taken { OnOk result (fail_refusal self.old disk ≡ None) }
        ensures failed { OnOk result (self.new ≡ failed self.old disk) }
        ensures refused { IfErr result (λ refusal. fail_refusal self.old disk ≡ Some refusal) }
        ensures unchanged { OnErr result (self.new ≡ self.old) }
    {
        if disk >= self.count() {
            return Err(DiskRefusal::NoSuchDisk);
        }
        self.health = self.health.after_fault(disk);
        Ok(())
    }

    /// Counts the extent that is rebuilt next as done; after the last one the set is `Whole`.
    pub fn mark_done(&mut self)
        requires { IsRebuilding self.old.health }
        ensures { self.new ≡ with_done self.old }
    {
        let Health::Rebuilding(disk, done) = self.health else {
            unreachable!()
        };
        self.health = if done + 1 == self.extents {
            Health::Whole
        } else {
            Health::Rebuilding(disk, done + 1)
        };
    }

    /// Adds `disk`, all of its extents unassigned. `Broken`, `TooManyDisks`, `WrongSize` or `NoMemory` changes nothing
    /// and gives the disk back.
    pub fn add(&mut self, disk: D) -> Result<(), (DiskRefusal, D)>
        requires { CanCount (D.state disk) }
        ensures taken { OnOk result (add_refusal self.old (D.state disk) ≡ None) }
        ensures added { OnOk result (self.new ≡ added self.old (D.state disk)) }
        ensures refused { IfErr result (λ back. back.0 ≡ unwrap_or (add_refusal self.old (D.state disk)) NoMemory) }
        ensures handed_back { IfErr result (λ back. back.1 ≡ disk) }
        ensures unchanged { OnErr result (self.new ≡ self.old) }
    {
        if let Some(refusal) = self.add_refusal(&disk) {
            return Err((refusal, disk));
        }
        let alloc = *self.disks.allocator();
        let Ok(marks) = Marks::new(alloc, self.extents) else {
            return Err((DiskRefusal::NoMemory, disk));
        };
        match push_both(&mut self.disks, &mut self.loose, disk, marks) {
            Ok(()) => Ok(()),
            Err(disk) => Err((DiskRefusal::NoMemory, disk)),
        }
    }

    // Why the disk isn't added, if it isn't.
    fn add_refusal(&self, disk: &D) -> Option<DiskRefusal>
        ensures { result ≡ add_refusal self.now (D.state disk.now) }
    {
        if let Health::Broken = self.health {
            return Some(DiskRefusal::Broken);
        }
        if self.disks.len() >= 12 {
            return Some(DiskRefusal::TooManyDisks);
        }
        if has_shape(disk, self.geometry, self.extents) {
            return None;
        }
        Some(DiskRefusal::WrongSize)
    }

    // Why the disk doesn't replace disk `number`, if it doesn't.
    fn replace_refusal(&self, number: u8, disk: &D) -> Option<DiskRefusal>
        ensures { result ≡ replace_refusal self.now number (D.state disk.now) }
    {
        if let Health::Broken = self.health {
            return Some(DiskRefusal::Broken);
        }
        if number >= self.count() {
            return Some(DiskRefusal::NoSuchDisk);
        }
        match self.health {
            Health::Out(out) if out == number => {}
            _ => return Some(DiskRefusal::NotOut),
        }
        if has_shape(disk, self.geometry, self.extents) {
            return None;
        }
        Some(DiskRefusal::WrongSize)
    }
}

impl<D: Disk + Drop> DiskSet<D> {
    /// Replaces the failed disk `number`, which is dropped, by `disk` and starts its rebuild. `Broken`, `NoSuchDisk`,
    /// `NotOut` or `WrongSize` changes nothing and gives the disk back.
    pub fn replace(&mut self, number: u8, disk: D) -> Result<(), (DiskRefusal, D)>
        requires { CanCount (D.state disk) }
        ensures taken { OnOk result (replace_refusal self.old number (D.state disk) ≡ None) }
        ensures replaced { OnOk result (self.new ≡ replaced self.old number (D.state disk)) }
        ensures refused { IfErr result (λ back. replace_refusal self.old number (D.state disk) ≡ Some back.0) }
        ensures handed_back { IfErr result (λ back. back.1 ≡ disk) }
        ensures unchanged { OnErr result (self.new ≡ self.old) }
    {
        if let Some(refusal) = self.replace_refusal(number, &disk) {
            return Err((refusal, disk));
        }
        self.disks[number as usize] = disk;
        self.health = Health::Rebuilding(number, 0);
        Ok(())
    }
}

// Appends a disk and its flags, or gives the disk back. Room for the flags is reserved first, so that a failed
// allocation leaves both lists unchanged and the last push succeeds.
fn push_both<D: Disk>(
    disks: &mut Vec<D>,
    loose: &mut Vec<Marks>,
    disk: D,
    marks: Marks,
) -> Result<(), D>
    ensures disks { OnOk result (disks.new.items ≡ disks.old.items ++ disk ∷ []) }
    ensures loose { OnOk result (loose.new.items ≡ loose.old.items ++ marks ∷ []) }
    ensures handed_back { IfErr result (λ back. back ≡ disk) }
    ensures disks_stay { OnErr result (disks.new.items ≡ disks.old.items) }
    ensures loose_stay { OnErr result (loose.new.items ≡ loose.old.items) }
{
    if loose.reserve(1).is_err() {
        return Err(disk);
    }
    if let Err(back) = disks.push(disk) {
        return Err(back.value);
    }
    let _ = loose.push(marks);
    Ok(())
}
