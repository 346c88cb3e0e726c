// Taking a disk out: it counts as failed, as after a fault.
use crate::{Array, EventOf, OutcomeOf, Refusal};
use ar_disks::Disk;

impl<D: Disk> Array<D> {
    ghost use Rattle.ar_core.specs.Step.{Steps};

    // Takes a disk out, by its number.
    pub(crate) fn disk_out(&mut self, disk: u8) -> Result<(), Refusal>
        ensures { Steps self.old (EventOf.DiskOut disk) (OutcomeOf.DiskOut result) self.new }
    {
        self.blocks.fail(disk)
    }
}
