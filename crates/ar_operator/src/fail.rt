// `fail`: sets the fuse of a disk. It is done under the array's lock, as every access is, so that a fuse isn't set in
// the middle of an event.
ghost use Rattle.std.specs.Prelude.{◌≡◌, OnOk, Some};
ghost use Rattle.ar_picture.specs.Writing.{AddsSome};

use ar_answers::write_outcome;
use ar_core::{Array, DiskRefusal, OutcomeOf, Refusal};
use ar_disks::Disk;
use ar_fuses::Fuse;
use ar_language::Notation;
use std::alloc::AllocError;

/// Lets the disk of a number pass this many more accesses and fault at the next one, or pass all if None, and appends
/// the answer: that of `out` for a disk that isn't there. A disk that has failed stays failed.
pub fn set_fuse<D: Disk>(
    array: &Array<D>,
    fuses: &[Fuse; 12],
    disk: u8,
    accesses: Option<u64>,
    out: &mut Vec<u8>,
) -> Result<(), AllocError>
    ensures adds { OnOk result (AddsSome (Some out.old.items) (Some out.new.items)) }
{
    let done = match fuses.get(usize::from(disk)) {
        Some(fuse) if disk < array.disks() => {
            fuse.set(accesses);
            Ok(())
        }
        _ => Err(Refusal::Disk(DiskRefusal::NoSuchDisk)),
    };
    let outcome: OutcomeOf<()> = OutcomeOf::DiskOut(done);
    write_outcome(out, &outcome, Notation::Bytes).map_err(|_| AllocError)
}
