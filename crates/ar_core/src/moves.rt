// Demotion and cleaning: one block a call moves to another level or group. Until data loss no unit changes.
use crate::{Array, EventOf, Move, OutcomeOf};
use ar_disks::Disk;

impl<D: Disk> Array<D> {
    ghost use Rattle.ar_core.specs.Step.{Steps};

    // Moves one mirrored block to a parity group.
    pub(crate) fn demote_one(&mut self) -> Move
        ensures { Steps self.old EventOf.Demote (OutcomeOf.Demote result) self.new }
    {
        self.blocks.demote_one()
    }

    // Moves one block out of a group that can be emptied.
    pub(crate) fn clean_one(&mut self) -> Move
        ensures { Steps self.old EventOf.Clean (OutcomeOf.Clean result) self.new }
    {
        self.blocks.clean_one()
    }
}
