// Copies the blocks of a mirrored group to the extents of a free one, which becomes a parity group. Each stripe is
// written whole, so nothing of it is read first:
//
// mirrored `from`, 2 n slots:     [ 0 | 1 | 2 | .. | 2n-1 ]
// parity `to`, stripe w of n:     [ 3w | 3w+1 | 3w+2 | their XOR ]     slots from 2n on are zero blocks
ghost use Rattle.std.specs.Prelude.{◌≡◌, ◌≢◌, ℕ, ◌+◌, ◌*◌, ◌<◌, List, length};
ghost use Rattle.ar_disks.specs.Endings.{OnDone};
ghost use Rattle.ar_disks.specs.Geometry.{rows_of, block_len_of};
ghost use Rattle.ar_disks.specs.Members.{AreDisjoint};
ghost use Rattle.ar_extents.specs.declared.health.Health.TheVariants.{Broken};
ghost use Rattle.ar_extents.specs.Follows.{Keeps, Anywhere};
ghost use Rattle.ar_extents.specs.Groups.{IsGroup, IsOutside, outcome_of};
ghost use Rattle.ar_extents.specs.Plans.{CarriesOut};
ghost use Rattle.ar_parity.specs.Group.{KeepsButRow};
ghost use Rattle.ar_parity.specs.Row.{row_of};
ghost use Rattle.ar_store.specs.Calls.{IsAccessed};
ghost use Rattle.ar_store.specs.Kept.{BuffersFit};
ghost use Rattle.ar_store.specs.Plans.{source_read, sources_plan, copy_plan, squeeze_plan};
ghost use Rattle.ar_store.specs.Slots.{IsSource, AreSources, HoldsSource, HoldsSources};

use ar_disks::{Block, Completion, Disk, Members, Scratch};
use ar_extents::DiskSet;

/// Writes the blocks of the mirrored group on `from`, in slot order, to the slots with the same numbers of a parity
/// group on `to`, and zeros to the slots after them. `block` and `scratch` are overwritten.
///
/// After `Broken`, the rows of `to` have unspecified bytes.
pub(crate) fn copy_group<D: Disk>(
    disks: &mut DiskSet<D>,
    from: &Members,
    to: &Members,
    scratch: &mut Scratch,
    block: &mut Block,
) -> Completion
    requires from { IsGroup disks.old from.now }
    requires to { IsGroup disks.old to.now }
    requires apart { AreDisjoint from.now to.now }
    requires sound { disks.old.health ≢ Broken }
    requires buffers { BuffersFit disks.old block.old scratch.old.geometry }

    ensures outcome { result ≡ outcome_of disks.new.health }
    ensures copied { OnDone result (HoldsSources from.now to.now disks.old disks.new) }
    ensures plan { CarriesOut (squeeze_plan disks.old.geometry from.now to.now) disks.old disks.new }
    ensures keeps { Keeps (IsOutside to.now) disks.old disks.new }
    ensures accessed { IsAccessed disks.old disks.new }
    ensures scratch { scratch.new.geometry ≡ scratch.old.geometry }
    ensures len { length block.new ≡ length block.old }
{
    for row in 0..disks.geometry().rows() {
        match copy_stripe(disks, from, to, row, scratch, block) {
            Completion::Done => {}
            Completion::Broken => return Completion::Broken,
        }
    }
    Completion::Done
}

// Reads the blocks of one stripe, and writes it.
fn copy_stripe<D: Disk>(
    disks: &mut DiskSet<D>,
    from: &Members,
    to: &Members,
    row: u16,
    scratch: &mut Scratch,
    block: &mut Block,
) -> Completion
    requires from { IsGroup disks.old from.now }
    requires to { IsGroup disks.old to.now }
    requires sound { disks.old.health ≢ Broken }
    requires row { row < rows_of disks.old.geometry }
    requires buffers { BuffersFit disks.old block.old scratch.old.geometry }

    ensures outcome { result ≡ outcome_of disks.new.health }
    ensures copied { OnDone result ((slot : ℕ) → row_of slot ≡ row
        → HoldsSource from.now to.now disks.old disks.new slot) }
    ensures plan { CarriesOut (copy_plan disks.old.geometry from.now to.now row) disks.old disks.new }
    ensures keeps { KeepsButRow to.now row disks.old disks.new }
    ensures accessed { IsAccessed disks.old disks.new }
    ensures scratch { scratch.new.geometry ≡ scratch.old.geometry }
    ensures len { length block.new ≡ length block.old }
{
    match read_sources(disks, from, row, block, scratch) {
        Completion::Done => ar_parity::put_stripe(
            disks,
            to,
            row,
            block.bytes_mut(),
            scratch.first.bytes(),
            scratch.second.bytes(),
        ),
        Completion::Broken => Completion::Broken,
    }
}

// Reads the three blocks of a stripe, in slot order.
fn read_sources<D: Disk>(
    disks: &mut DiskSet<D>,
    from: &Members,
    row: u16,
    block: &mut Block,
    scratch: &mut Scratch,
) -> Completion
    requires from { IsGroup disks.old from.now }
    requires sound { disks.old.health ≢ Broken }
    requires row { row < rows_of disks.old.geometry }
    requires buffers { BuffersFit disks.old block.old scratch.old.geometry }

    ensures outcome { result ≡ outcome_of disks.new.health }
    ensures sources { OnDone result (AreSources from.now row disks.old block.new scratch.new.first scratch.new.second) }
    ensures plan { CarriesOut (sources_plan disks.old.geometry from.now row) disks.old disks.new }
    ensures keeps { Keeps Anywhere disks.old disks.new }
    ensures accessed { IsAccessed disks.old disks.new }
    ensures scratch { scratch.new.geometry ≡ scratch.old.geometry }
    ensures len { length block.new ≡ length block.old }
{
    match read_source(disks, from, 3 * row, block) {
        Completion::Done => {}
        Completion::Broken => return Completion::Broken,
    }
    match read_source(disks, from, 3 * row + 1, &mut scratch.first) {
        Completion::Done => read_source(disks, from, 3 * row + 2, &mut scratch.second),
        Completion::Broken => Completion::Broken,
    }
}

// Reads the block for a slot of the parity group: that of the mirrored slot with the same number, and zeros after the
// last one.
fn read_source<D: Disk>(
    disks: &mut DiskSet<D>,
    from: &Members,
    slot: u16,
    into: &mut Block,
) -> Completion
    requires from { IsGroup disks.old from.now }
    requires sound { disks.old.health ≢ Broken }
    requires whole { length into.old ≡ block_len_of disks.old.geometry }

    ensures outcome { result ≡ outcome_of disks.new.health }
    ensures source { OnDone result ((block : List ℕ) → IsSource from.now slot disks.old block → into.new ≡ block) }
    ensures plan { CarriesOut (source_read disks.old.geometry from.now slot) disks.old disks.new }
    ensures keeps { Keeps Anywhere disks.old disks.new }
    ensures accessed { IsAccessed disks.old disks.new }
    ensures len { length into.new ≡ length into.old }
{
    if slot < 2 * disks.geometry().rows() {
        return ar_mirror::get(disks, from, slot, into.bytes_mut());
    }
    into.zero();
    Completion::Done
}
