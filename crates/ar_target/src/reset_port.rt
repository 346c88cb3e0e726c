// A port whose units an initiator can reset, as LOGICAL UNIT RESET and TARGET RESET ask for (SAM-3, Task management
// functions).
ghost use Rattle.std.specs.Prelude.{◌≡◌, true};
ghost use Rattle.ar_target.specs.ResetPort.{UnitResets};

use ar_frames::Port;

/// The outcome of a reset.
#[derive(Clone, Copy, Debug, PartialEq, Eq)]
pub enum ResetOutcome {
    /// The unit was reset, or all units of the host.
    Done,
    /// The host has no unit at this LUN.
    NoUnit,
}

/// A port that resets units of its host.
pub trait ResetPort: Port {
    /// What a reset may do, as the port specifies it: the port before, the LUN, or None for all units, the outcome, the
    /// port after.
    ghost resets: { UnitResets Self };

    /// Resets the unit at `lun`, or all units of the host. No command is executed meanwhile.
    fn reset(&mut self, lun: Option<u8>) -> ResetOutcome
        requires { Self.has_login self.old ≡ true }
        ensures reset { resets self.old lun result self.new }
        ensures stays { Self.has_login self.new ≡ true };
}
