// The rebuild of a replaced disk, one extent a call, the lowest first. Until data loss no unit changes.
use crate::{Array, EventOf, OutcomeOf, Rebuild};
use ar_disks::Disk;

impl<D: Disk> Array<D> {
    ghost use Rattle.ar_core.specs.Step.{Steps};

    // Rebuilds one extent of the replaced disk.
    pub(crate) fn rebuild_one(&mut self) -> Rebuild
        ensures { Steps self.old EventOf.Rebuild (OutcomeOf.Rebuild result) self.new }
    {
        self.blocks.rebuild_one()
    }
}
