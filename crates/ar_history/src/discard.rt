// Discards of a unit's sectors, for its host (UNMAP). Capacity for the entry is reserved before the array acts.
ghost use Rattle.std.specs.Prelude.{◌≡◌, ◌<◌, true, false, length};
ghost use Rattle.ar_volume.specs.Image.{is_broken};
ghost use Rattle.ar_core.specs.Step.{Steps, addr_in, is_busy};
ghost use Rattle.ar_served.specs.Counts.{CountsNothing, CountsOperation};
ghost use Rattle.ar_served.specs.Kept.{StaysKept};
ghost use Rattle.ar_served.specs.Operations.{Does};
ghost use Rattle.ar_served.specs.Serving.{LeavesUnbegun, ServesUnmap};
ghost use Rattle.ar_history.specs.Recording.{AllocatesOne};

use crate::Kept;
use ar_core::{EventOf, OutcomeOf};
use ar_disks::{Addr, Disk, Host};
use ar_scsi::Reply;
use ar_served::Entry;
use std::sync::ledger::Ledger;

impl<D: Disk + Drop, L: Ledger> Kept<D, L> {
    /// Discards `count` sectors of a host's LUN from `lba` on, and returns the reply, which is that to a WRITE of
    /// zeros to them. The history grows by the discard, unless the array has failed after it; no transcript does. If
    /// a full history can't grow, the reply is BUSY and nothing is done; nothing is allocated on a failed array.
    pub fn discard(&mut self, host: Host, lun: u8, lba: u64, count: u32) -> Reply
        ensures serves { is_busy result.status ≡ false
            → ServesUnmap self.old.array self.old.history (addr_in host lun) lba count result self.new.array
            self.new.history }
        ensures does { Does self.old.array (EventOf.Unmap (addr_in host lun) lba count) (OutcomeOf.Unmap result)
            self.new.array }
        ensures unbegun { is_busy result.status ≡ true → LeavesUnbegun self.old result self.new }
        ensures begun { length self.old.history < self.new.room → is_busy result.status ≡ false }
        ensures kept { StaysKept self.old self.new }
        ensures counts { CountsOperation self.old self.new }
        ensures memory { AllocatesOne self.old self.new }
    {
        // The type's invariant holds before the discard.
        let _ = &self.live;
        let reply = self.unmap(Addr { host, lun }, lba, count);
        self.live.count_event();
        reply
    }

    // Discards sectors, and counts nothing.
    fn unmap(&mut self, addr: Addr, lba: u64, count: u32) -> Reply
        ensures serves { is_busy result.status ≡ false
            → ServesUnmap self.old.array self.old.history addr lba count result self.new.array self.new.history }
        ensures does { Does self.old.array (EventOf.Unmap addr lba count) (OutcomeOf.Unmap result) self.new.array }
        ensures unbegun { is_busy result.status ≡ true → LeavesUnbegun self.old result self.new }
        ensures begun { length self.old.history < self.new.room → is_busy result.status ≡ false }
        ensures uncounted { CountsNothing self.old self.new }
        ensures memory { AllocatesOne self.old self.new }
    {
        if !self.can_record() {
            return Reply::busy();
        }
        self.unmap_recorded(addr, lba, count)
    }

    // Discards sectors, where the discard can be recorded.
    fn unmap_recorded(&mut self, addr: Addr, lba: u64, count: u32) -> Reply
        requires room { is_broken self.old.array ≡ false → length self.old.history < self.old.room }
        ensures serves { ServesUnmap self.old.array self.old.history addr lba count result self.new.array
            self.new.history }
        ensures steps { Steps self.old.array (EventOf.Unmap addr lba count) (OutcomeOf.Unmap result) self.new.array }
        ensures uncounted { CountsNothing self.old self.new }
        ensures room { self.new.room ≡ self.old.room }
    {
        let reply = self.live.unmap(addr, lba, count);
        if !self.live.is_lost() {
            self.history.push_reserved(Entry::Unmap(addr, lba, count));
        }
        reply
    }
}
