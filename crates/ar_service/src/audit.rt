// The audit at the end of a service whose history was stored.
ghost use Rattle.std.specs.Prelude.{◌≡◌, Err, IfOk, IfErr, OnOk};
ghost use Rattle.ar_service.specs.Audit.{FailsAudit, IsAudited};

use ar_audit::Report;
use ar_disks::Disk;
use ar_history::Kept;
use ar_plan::ServiceFault;
use ar_sessions::Desk;
use std::sync::ledger::Ledger;

/// Compares each host's transcript with the history after the sessions.
pub(crate) fn audit<L: Ledger, D: Disk + Drop>(
    served: Result<(), ServiceFault>,
    kept: &Kept<D, L>,
    desk: Desk<L>,
) -> Result<Report, ServiceFault>
    ensures audited { IfOk result (IsAudited kept.now.history desk) }
    ensures failed { IfErr served (λ fault. result ≡ Err fault) }
    ensures fails { OnOk served (IfErr result (FailsAudit kept.now.history desk)) }
{
    served?;
    match desk.seats() {
        Ok(seats) => kept.close(&seats).map_err(ServiceFault::Mismatch),
        Err(_) => Err(ServiceFault::SeatOut),
    }
}
