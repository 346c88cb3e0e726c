// A port that can discard a range of a unit's blocks, as UNMAP and WRITE SAME ask for, and tells which were written.
ghost use Rattle.std.specs.Prelude.{◌≡◌, true};
ghost use Rattle.ar_frames.specs.Frame.{IsReply};
ghost use Rattle.ar_target.specs.DiscardPort.{UnitDiscards, UnitRuns};

use crate::FlushPort;
use ar_scsi::Reply;

/// Blocks of the array, from one on, that were all written, or none of which was, so that they read as zeros.
#[derive(Clone, Copy, Debug, PartialEq, Eq)]
pub struct BlockRun {
    pub is_written: bool,
    /// How many blocks; none where there is no such block.
    pub blocks: u32,
}

/// A port that discards blocks of one of the host's units: they read as zeros afterwards.
pub trait DiscardPort: FlushPort {
    /// What a discard may do, as the port specifies it: the port before, the LUN, the address of the first block, the
    /// number of blocks, the reply, the port after.
    ghost discards: { UnitDiscards Self };

    /// What a look at a unit's blocks may find, as the port specifies it: the port before, the LUN, the number of the
    /// first block of the array, the most blocks, those that are alike, the port after.
    ghost runs: { UnitRuns Self };

    /// Discards `count` blocks of the unit at `lun` from `lba` on. The reply is that to a WRITE of zeros to them.
    fn discard(&mut self, lun: u8, lba: u64, count: u32) -> Reply
        requires { Self.has_login self.old ≡ true }
        ensures discard { discards self.old lun lba count result self.new }
        ensures reply { IsReply result }
        ensures stays { Self.has_login self.new ≡ true };

    /// Returns whether block `block` of the unit at `lun`, in blocks of the array, was written, and how many from it
    /// on, `most` at most, are as it is.
    fn run(&mut self, lun: u8, block: u32, most: u32) -> BlockRun
        requires { Self.has_login self.old ≡ true }
        ensures run { runs self.old lun block most result self.new }
        ensures stays { Self.has_login self.new ≡ true };
}
