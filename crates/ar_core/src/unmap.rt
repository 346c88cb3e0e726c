// Discards of sectors (UNMAP). The checks come in the order of a WRITE's: presence, UNIT ATTENTION, range, health; a
// disk is accessed only after all of them.
ghost use Rattle.std.specs.Prelude.{◌≡◌, ◌+◌, ◌*◌, ◌≤◌, false, nat_lt, if◌then◌else◌};
ghost use Rattle.ar_disks.specs.Block.{zeros};
ghost use Rattle.ar_scsi.specs.Reply.{check};
ghost use Rattle.ar_scsi.specs.Sense.{internal_target_failure, logical_block_address_out_of_range};
ghost use Rattle.ar_unit.specs.Unit.{write_answer};
ghost use Rattle.ar_cache.specs.Backing.{stored};
ghost use Rattle.ar_volume.specs.Following.{ArrayFollows};
ghost use Rattle.ar_volume.specs.Image.{is_broken, length_at, unit_sectors, attention_at};
ghost use Rattle.ar_volume.specs.Seen.{IsUnit, WritesSectors};
ghost use Rattle.ar_volume.specs.Unmap.{DiscardsBlocks, StopsBlocks};
ghost use Rattle.ar_core.specs.Served.{Serves, SettlesUnmap};

use crate::commands::reply_to_write;
use crate::{Array, Completion, EventOf, OutcomeOf};
use ar_disks::{Addr, Disk};
use ar_scsi::{Reply, Sense};
use ar_unit::is_past_end;

impl<D: Disk> Array<D> {
    ghost use Rattle.ar_core.specs.Step.{Steps};

    // Discards sectors of the unit at `addr`, present or not.
    pub(crate) fn unmap(&mut self, addr: Addr, lba: u64, count: u32) -> Reply
        ensures { Steps self.old (EventOf.Unmap addr lba count) (OutcomeOf.Unmap result) self.new }
    {
        let Some(sectors) = self.blocks.sectors(addr) else {
            return Reply::check(Sense::LOGICAL_UNIT_NOT_SUPPORTED);
        };
        if self.blocks.attention(addr) {
            return self.tell_growth(addr);
        }
        self.unmap_present(addr, sectors, lba, count)
    }

    // Discards sectors of a unit that is present, with no UNIT ATTENTION to report.
    fn unmap_present(&mut self, addr: Addr, sectors: u32, lba: u64, count: u32) -> Reply
        requires { IsUnit self.old addr sectors }
        ensures serves { Serves self.old addr
            (write_answer (unit_sectors self.old addr) (attention_at self.old.store.book addr) lba count
            (zeros (count * 512)))
            (if nat_lt sectors (lba + count) then check logical_block_address_out_of_range
            else check internal_target_failure) result self.new }
        ensures settles { SettlesUnmap self.old addr lba count result self.new }
    {
        if is_past_end(sectors, lba, count) {
            return Reply::check(Sense::LOGICAL_BLOCK_ADDRESS_OUT_OF_RANGE);
        }
        if self.blocks.is_broken() {
            return Reply::check(Sense::INTERNAL_TARGET_FAILURE);
        }
        let discarded = self.unmap_range(addr, lba as u32, count);
        reply_to_write(discarded)
    }

    // Discards `count` sectors within the unit.
    fn unmap_range(&mut self, addr: Addr, lba: u32, count: u32) -> Completion
        requires unit { IsUnit self.old addr (length_at self.old.store.book addr) }
        requires within { lba + count ≤ length_at self.old.store.book addr }
        requires sound { is_broken self.old ≡ false }

        ensures answer { result ≡ stored (is_broken self.new) }
        ensures zeroed { result ≡ Completion.Done
            → WritesSectors self.old addr lba count (zeros (count * 512)) self.new }
        ensures discards { result ≡ Completion.Done → DiscardsBlocks addr lba count self.old self.new }
        ensures stopped { result ≡ Completion.Broken → StopsBlocks addr lba count self.old self.new }
        ensures follows { ArrayFollows self.old self.new }
    {
        let geometry = self.blocks.geometry();
        self.blocks
            .unmap(geometry, addr, lba, count, &mut self.block)
    }
}
