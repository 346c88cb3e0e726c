// Destaging: cached blocks go to the disks, least recently used first. Until data loss no unit changes.
ghost use Rattle.std.specs.Prelude.{◌≡◌, IsTrue, false, []};
ghost use Rattle.ar_disks.specs.declared.address.Addr.{Addr};
ghost use Rattle.ar_cache.specs.Backing.{stored};
ghost use Rattle.ar_volume.specs.Following.{ArrayFollows};
ghost use Rattle.ar_volume.specs.Image.{is_broken, image_at, image_on_disks};
ghost use Rattle.ar_volume.specs.Storing.{EmptiesCache, LeavesSome};

use crate::{Array, Completion, EventOf, Flush, OutcomeOf, PartFlush};
use ar_disks::{Addr, Disk};

impl<D: Disk> Array<D> {
    ghost use Rattle.ar_core.specs.Step.{Steps};

    // Destages the least recently used block.
    pub(crate) fn flush_one(&mut self) -> Flush
        ensures { Steps self.old EventOf.Flush (OutcomeOf.Flush result) self.new }
    {
        self.blocks.flush_one()
    }

    /// Destages those of 64 blocks of the unit at `addr` that are cached, from block `first` on and in ascending order:
    /// the step of `EventOf::FlushPart`. After `Done` or `More` the disks have these blocks' contents; `Done` says that
    /// the unit has no block after them. Returns `Broken` if the array has failed, before or during this call, and
    /// else `Absent` if there is no such unit.
    pub fn flush_part(&mut self, addr: Addr, first: u32) -> PartFlush
        ensures { Steps self.old (EventOf.FlushPart addr first) (OutcomeOf.FlushPart result) self.new }
    {
        self.blocks.flush_part(addr, first)
    }

    /// Destages all cached blocks, the least recently used first. With an empty cache nothing changes. Returns `Broken`
    /// if the array has failed, before or during this call.
    pub fn flush_all(&mut self) -> Completion
        ensures answer { result ≡ stored (is_broken self.new) }
        ensures lost { IsTrue (is_broken self.old) → self.new ≡ self.old }
        ensures images { result ≡ Completion.Done → (addr : Addr) → image_at self.new addr ≡ image_at self.old addr }
        ensures on_disks { result ≡ Completion.Done → (addr : Addr)
            → image_at self.new addr ≡ image_on_disks self.new.store addr }
        ensures emptied { result ≡ Completion.Done → EmptiesCache self.old self.new }
        ensures quiet { self.old.cache.entries ≡ [] → self.new ≡ self.old }
        ensures stopped { result ≡ Completion.Broken → is_broken self.old ≡ false → LeavesSome self.old self.new }
        ensures follows { ArrayFollows self.old self.new }
    {
        self.blocks.flush_all()
    }
}
