// The step that puts a hot spare in the place of a disk that has failed. A disk that an operator took out is left to
// the operator, who has a reason, and says when it is replaced.
ghost use Rattle.std.specs.Prelude.{◌≡◌};
ghost use Rattle.ar_monitoring.specs.Monitoring.{failed_disk};

use ar_attached::Tallies;
use ar_controlled::{ControlledArray, execute_listed};
use ar_conversation::OperatorOrder;
use ar_fuses::Fuse;
use ar_language::Action;
use ar_operated::{OperatedArray, Spares};
use ar_status::{ArrayHealth, EventLog};
use log::{Log, warn};
use std::alloc::Global;
use std::sync::Wait;
use std::sync::ledger::Ledger;
use std::time::Clock;

/// Puts a spare disk in the place of one that has failed, unless an operator took that one out. Returns the disk for
/// which none was left, which is logged once: `missed` is that of the last call.
pub(crate) fn replace_failed<
    R: Wait + Clock + Log,
    A: ControlledArray<L, M> + Drop,
    L: Ledger,
    M: Copy,
>(operated: &OperatedArray<'_, R, A, L, M>, health: ArrayHealth, missed: Option<u8>) -> Option<u8> {
    let disk = failed_disk(health)?;
    let mut spares = operated.spares.lock(operated.rt);
    if !spares.are_given || is_out(operated.fuses, disk) {
        return None;
    }
    if uses_spare(operated, &mut spares, disk) {
        let left = spares.left();
        warn!(operated.rt; "disk {disk} replaced by a spare, {left} left");
        return None;
    }
    if spares.left() > 0 {
        return None;
    }
    if missed != Some(disk) {
        warn!(operated.rt; "no spare is left for disk {disk}");
    }
    Some(disk)
}

// The same where it is due. The locks are taken in the order of an operator's order.
fn uses_spare<R: Wait + Clock, A: ControlledArray<L, M> + Drop, L: Ledger, M: Copy>(
    operated: &OperatedArray<'_, R, A, L, M>,
    spares: &mut Spares,
    disk: u8,
) -> bool {
    let mut disks = operated.disks;
    let mut log = operated.log.lock(operated.rt);
    let seconds = operated.seconds();
    let mut array = operated.array.lock(operated.rt);
    replace::<A, L, M>(
        spares,
        operated.alloc,
        &mut array,
        &mut disks,
        &mut log,
        operated.tallies,
        seconds,
        disk,
    )
}

// Puts a spare disk, if one is left, in the place of a disk that is out, as an operator's `replace` does. It stays a
// spare where the array refuses it. Returns whether it was used.
fn replace<A: ControlledArray<L, M>, L: Ledger, M>(
    spares: &mut Spares,
    alloc: Global,
    array: &mut A,
    disks: &mut M,
    log: &mut EventLog,
    tallies: &Tallies,
    seconds: u64,
    disk: u8,
) -> bool {
    let mut spare = spares.disks.pop();
    if spare.is_none() {
        return false;
    }
    let answer = &mut spares.answer;
    answer.clear();
    let order = OperatorOrder::Act(Action::Replace(disk));
    let _done = execute_listed::<A, L, M>(
        alloc, array, disks, &mut spare, log, tallies, seconds, order, answer,
    );
    match spare {
        Some(unused) => {
            let _kept = spares.disks.push(unused);
            false
        }
        None => true,
    }
}

// The disk that is missing, and not replaced yet.
fn failed_disk(health: ArrayHealth) -> Option<u8>
    ensures { result ≡ failed_disk health }
{
    match health {
        ArrayHealth::Out { disk } => Some(disk),
        _ => None,
    }
}

// Whether an operator has taken a disk out.
fn is_out(fuses: &[Fuse; 12], disk: u8) -> bool {
    match fuses.get(usize::from(disk)) {
        Some(fuse) => fuse.is_out(),
        None => false,
    }
}
