// Adding and replacing disks. A refused disk is returned, and the array is unchanged.
use crate::{Array, EventOf, NewDisk, OutcomeOf, Refusal};
use ar_disks::Disk;

impl<D: Disk> Array<D> {
    ghost use Rattle.ar_core.specs.Step.{Steps};

    // Adds a disk.
    pub(crate) fn add_disk(&mut self, disk: NewDisk<D>) -> Result<(), (Refusal, NewDisk<D>)>
        ensures { Steps self.old (EventOf.AddDisk disk) (OutcomeOf.AddDisk result) self.new }
    {
        self.blocks.add(disk)
    }
}

impl<D: Disk + Drop> Array<D> {
    ghost use Rattle.ar_core.specs.Step.{Steps};

    // Replaces a failed disk.
    pub(crate) fn replace(
        &mut self,
        number: u8,
        disk: NewDisk<D>,
    ) -> Result<(), (Refusal, NewDisk<D>)>
        ensures { Steps self.old (EventOf.Replace number disk) (OutcomeOf.Replace result) self.new }
    {
        self.blocks.replace(number, disk)
    }
}
