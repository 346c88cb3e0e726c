// A port that can write a unit's cached blocks to the disks, as SYNCHRONIZE CACHE asks for.
ghost use Rattle.std.specs.Prelude.{◌≡◌, true};
ghost use Rattle.ar_target.specs.FlushPort.{UnitFlushes};

use ar_frames::Port;

/// The outcome of a flush.
#[derive(Clone, Copy, Debug, PartialEq, Eq)]
pub enum FlushOutcome {
    /// Every block of the unit that was cached is on the disks.
    Done,
    /// The host has no unit at this LUN.
    NoUnit,
    /// The array has failed: not every block of the unit is on the disks.
    ArrayFailed,
}

/// A port that destages the cached blocks of one of the host's units.
pub trait FlushPort: Port {
    /// What a flush may do, as the port specifies it: the port before, the LUN, the outcome, the port after.
    ghost flushes: { UnitFlushes Self };

    /// Writes the cached blocks of the unit at `lun` to the disks, and returns once they are there, or never will be.
    fn flush(&mut self, lun: u8) -> FlushOutcome
        requires { Self.has_login self.old ≡ true }
        ensures flush { flushes self.old lun result self.new }
        ensures stays { Self.has_login self.new ≡ true };
}
