// What a service reports at its end.
ghost use Rattle.std.specs.Prelude.{◌≡◌, map};
ghost use Rattle.ar_served.specs.declared.counts.HostCounts.{HostCounts};
ghost use Rattle.ar_volume.specs.Image.{is_broken};

use crate::Closing;
use ar_audit::Report;
use ar_core::{Array, Health};
use ar_disks::Disk;
use ar_served::Counts;

/// What is reported after an audit.
pub fn closing_with(report: Report, data_lost: bool) -> Closing
    ensures commands { result.commands ≡ report.commands }
    ensures lost { result.data_lost ≡ data_lost }
{
    let commands = report.commands;
    Closing {
        commands,
        data_lost,
    }
}

/// What is reported of an array.
pub fn closing_of<D: Disk>(array: &Array<D>, counts: &Counts) -> Closing
    ensures commands { result.commands ≡ map (λ (host : HostCounts). host.commands) counts.now.hosts }
    ensures lost { result.data_lost ≡ is_broken array.now }
{
    Closing {
        commands: commands_of(counts),
        data_lost: has_lost_data(array),
    }
}

/// Whether the array has failed.
pub fn has_lost_data<D: Disk>(array: &Array<D>) -> bool
    ensures { result ≡ is_broken array.now }
{
    matches!(array.health(), Health::Broken)
}

// The number of commands of each host.
fn commands_of(counts: &Counts) -> [u64; 4]
    ensures { result ≡ map (λ (host : HostCounts). host.commands) counts.now.hosts }
{
    let [zero, one, two, three] = counts.hosts;
    [zero.commands, one.commands, two.commands, three.commands]
}
