// Refusals of an action that isn't begun: it would lose all data, and its order doesn't say that it may; or the array
// would refuse its new disk, whose allocation is spared so.
ghost use Rattle.std.specs.Prelude.{◌≡◌, ◌++◌, OnOk};
ghost use Rattle.ar_operator.specs.Early.{added_early, breaks_health, early_refusal, early_text, replaced_early};

use ar_answers::write_outcome;
use ar_core::{Array, DiskRefusal, Health, OutcomeOf, Refusal};
use ar_disks::Disk;
use ar_language::{Action, Notation};
use std::alloc::AllocError;
use std::io::Write;

// The most disks of an array.
const MOST_DISKS: u8 = 12;

/// Why an action isn't begun.
#[derive(Clone, Copy)]
pub enum EarlyRefusal {
    /// The disk to take out, by its number: another is out or not completely rebuilt.
    OnlyCopy(u8),
    /// The array would refuse the new disk.
    Disk(DiskRefusal),
}

// Why an action isn't begun, if it isn't.
pub fn early_refusal<D: Disk>(array: &Array<D>, action: Action) -> Option<EarlyRefusal>
    ensures { result ≡ early_refusal array.now action }
{
    match action {
        Action::DiskOut(disk) if disk < array.disks() && breaks(array.health(), disk) => {
            Some(EarlyRefusal::OnlyCopy(disk))
        }
        Action::AddDisk => added_early(array).map(EarlyRefusal::Disk),
        Action::Replace(disk) => replaced_early(array, disk).map(EarlyRefusal::Disk),
        _ => None,
    }
}

// Whether the array fails if this disk is taken out.
fn breaks(health: Health, disk: u8) -> bool
    ensures { result ≡ breaks_health health disk }
{
    match health {
        Health::Out(other) | Health::Rebuilding(other, _) => disk != other,
        Health::Whole | Health::Broken => false,
    }
}

// Why a new disk isn't added, if it isn't.
fn added_early<D: Disk>(array: &Array<D>) -> Option<DiskRefusal>
    ensures { result ≡ added_early array.now }
{
    match array.health() {
        Health::Broken => Some(DiskRefusal::Broken),
        _ if array.disks() >= MOST_DISKS => Some(DiskRefusal::TooManyDisks),
        _ => None,
    }
}

// Why a new disk isn't put in the place of this one, if it isn't.
fn replaced_early<D: Disk>(array: &Array<D>, disk: u8) -> Option<DiskRefusal>
    ensures { result ≡ replaced_early array.now disk }
{
    match array.health() {
        Health::Broken => Some(DiskRefusal::Broken),
        _ if disk >= array.disks() => Some(DiskRefusal::NoSuchDisk),
        Health::Out(out) if out == disk => None,
        _ => Some(DiskRefusal::NotOut),
    }
}

// Appends the answer of an action that isn't begun.
pub fn write_refusal(refusal: EarlyRefusal, out: &mut Vec<u8>) -> Result<(), AllocError>
    ensures { OnOk result (out.new.items ≡ out.old.items ++ early_text refusal) }
{
    match refusal {
        EarlyRefusal::OnlyCopy(disk) => {
            writeln!(out, "refused: disk {disk} has the only copy").map_err(|_| AllocError)
        }
        EarlyRefusal::Disk(refusal) => {
            let outcome: OutcomeOf<()> = OutcomeOf::DiskOut(Err(Refusal::Disk(refusal)));
            write_outcome(out, &outcome, Notation::Bytes).map_err(|_| AllocError)
        }
    }
}
