// The audit at the end of a stored history.
ghost use Rattle.std.specs.Prelude.{◌≡◌, ◌∷◌, [], All, IfOk, OnOk, IfErr, map, sum};
ghost use Rattle.std.specs.Prelude.{count_by, length};
ghost use Rattle.ar_audit.specs.Audit.{IsHostsPart, IsFirstMismatch, IsTranscriptIsolated};
ghost use Rattle.ar_served.specs.History.{IsLegal, is_command};
ghost use Rattle.ar_served.specs.Seat.{SeatState};

use crate::Kept;
use ar_audit::{Mismatch, Report, audited};
use ar_disks::Disk;
use ar_served::Seat;
use std::sync::ledger::Ledger;

impl<D: Disk, L: Ledger> Kept<D, L> {
    /// Compares each host's transcript with its part of the history: `Ok` exactly if all four are equal, else the first
    /// host whose lists differ, and the first position where they do. The history is legal in any case. With `Ok` each
    /// reply in a transcript is the one that the unit's own creates, resizes, deletes, discards and I/O commands before
    /// it give. Allocates nothing, and reads the history once for each host.
    pub fn close(&self, seats: &[Seat<L>; 4]) -> Result<Report, Mismatch>
        requires order { map (λ (s : SeatState). s.host.number) seats.now ≡ 0 ∷ 1 ∷ 2 ∷ 3 ∷ [] }
        ensures legal { IsLegal self.now.history }

        // If all four agree.
        ensures parts { OnOk result (All (IsHostsPart self.now.history) seats.now) }
        ensures commands { IfOk result
            (λ report. report.commands ≡ map (λ (s : SeatState). length s.transcript) seats.now) }
        ensures isolated { OnOk result (All (IsTranscriptIsolated self.now.history) seats.now) }
        ensures none_else { IfOk result (λ report. sum report.commands ≡ count_by is_command self.now.history) }

        // If they don't.
        ensures mismatch { IfErr result
            (λ mismatch. IsFirstMismatch self.now.history seats.now mismatch.host.number mismatch.position) }
    {
        audited(self.history.as_slice(), seats)
    }
}
