// Balancing: added disks come into use, one group formed or one member moved a call. Until data loss no unit changes.
use crate::{Array, Balance, EventOf, OutcomeOf};
use ar_disks::Disk;

impl<D: Disk> Array<D> {
    ghost use Rattle.ar_core.specs.Step.{Steps};

    // One step of balancing.
    pub(crate) fn balance_one(&mut self) -> Balance
        ensures { Steps self.old EventOf.Balance (OutcomeOf.Balance result) self.new }
    {
        self.blocks.balance_one()
    }
}
