// An extent is copied row by row, each read before it is written: a copy that a fault stops writes no row past it.
ghost use Rattle.std.specs.Prelude.{◌≡◌, ◌≢◌, ◌<◌, ℕ, length, IsTrue, true, false};
ghost use Rattle.ar_disks.specs.Geometry.{rows_of, block_len_of};
ghost use Rattle.ar_extents.specs.declared.health.Health.TheVariants.{Whole, Out};
ghost use Rattle.ar_extents.specs.Set.{HasExtent, content};
ghost use Rattle.ar_extents.specs.Plans.{AttemptsAll};
ghost use Rattle.ar_balance.specs.Copies.{row_copy, IsExtentCopied, IsRowCopied, IsCutShort, IsStopped};

use ar_disks::{Disk, Place};
use ar_extents::{DiskSet, Got, Put};

// Copies all rows of an extent to another on healthy disks, by way of `block`. False if one of the two disks faulted.
pub(crate) fn copy_extent<D: Disk>(
    set: &mut DiskSet<D>,
    from: Place,
    to: Place,
    block: &mut [u8],
) -> bool
    requires whole { set.old.health ≡ Whole }
    requires from { HasExtent set.old from }
    requires to { HasExtent set.old to }
    requires apart { from ≢ to }
    requires len { length block.old ≡ block_len_of set.old.geometry }
    ensures copied { IsTrue result → IsExtentCopied set.old set.new from to }
    ensures cut { result ≡ false → IsCutShort set.old set.new from to }
    ensures stopped { result ≡ false → IsStopped set.old set.new from to }
{
    for row in 0..set.geometry().rows() {
        if !copy_row(set, from, to, row, block) {
            return false;
        }
    }
    true
}

// Copies one row. False if one of the two disks faulted.
fn copy_row<D: Disk>(
    set: &mut DiskSet<D>,
    from: Place,
    to: Place,
    row: u16,
    block: &mut [u8],
) -> bool
    requires whole { set.old.health ≡ Whole }
    requires from { HasExtent set.old from }
    requires to { HasExtent set.old to }
    requires row { row < rows_of set.old.geometry }
    requires len { length block.old ≡ block_len_of set.old.geometry }
    ensures copied { IsTrue result → IsRowCopied set.old set.new from to row }
    ensures cut { result ≡ false → IsCutShort set.old set.new from to }
    ensures others { result ≡ false → (r : ℕ) → r ≢ row → content set.new to r ≡ content set.old to r }
    // Nothing is written unless the row was read.
    ensures unread { result ≡ false → set.new.health ≢ Out to.disk → content set.new to row ≡ content set.old to row }
    // Exactly these accesses are made.
    ensures made { IsTrue result → AttemptsAll (row_copy from to row) true set.old set.new }
    ensures failed { result ≡ false → AttemptsAll (row_copy from to row) false set.old set.new }
{
    match set.get(from, row, block) {
        Got::Read => match set.put(to, row, block) {
            Put::Written => true,
            Put::Missing | Put::Broken => false,
        },
        Got::Missing | Got::Broken => false,
    }
}
