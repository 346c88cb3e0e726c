// Discards of a unit's sectors, for its host (UNMAP). Each is one step of the array and, unless the array has failed,
// the history's next entry.
ghost use Rattle.std.specs.Prelude.{◌≡◌, false};
ghost use Rattle.ar_core.specs.Step.{Steps, addr_in, is_busy};
ghost use Rattle.ar_served.specs.Counts.{CountsNothing, CountsOperation};
ghost use Rattle.ar_served.specs.Kept.{StaysKept};
ghost use Rattle.ar_served.specs.Serving.{ServesUnmap};

use crate::LiveArray;
use crate::live::is_lost;
use ar_core::{Array, EventOf, OutcomeOf};
use ar_disks::{Addr, Disk, Host};
use ar_scsi::Reply;
use ar_served::Entry;
use std::alloc::Global;

impl<D: Disk + Drop> LiveArray<D> {
    /// Discards `count` sectors of a host's LUN from `lba` on, and returns the reply, which is that to a WRITE of
    /// zeros to them and never BUSY. The history grows by the discard, unless the array has failed after it.
    pub fn discard(&mut self, host: Host, lun: u8, lba: u64, count: u32) -> Reply
        ensures serves { ServesUnmap self.old.array self.old.history (addr_in host lun) lba count result self.new.array
            self.new.history }
        ensures steps { Steps self.old.array (EventOf.Unmap (addr_in host lun) lba count) (OutcomeOf.Unmap result)
            self.new.array }
        ensures done { is_busy result.status ≡ false }
        ensures kept { StaysKept self.old self.new }
        ensures counts { CountsOperation self.old self.new }
        ensures room { self.new.room ≡ self.old.room }
    {
        let reply = self.unmap(Addr { host, lun }, lba, count);
        self.count_event();
        reply
    }

    /// Discards sectors as `discard` does, and counts nothing.
    pub fn unmap(&mut self, addr: Addr, lba: u64, count: u32) -> Reply
        ensures serves { ServesUnmap self.old.array self.old.history addr lba count result self.new.array
            self.new.history }
        ensures steps { Steps self.old.array (EventOf.Unmap addr lba count) (OutcomeOf.Unmap result) self.new.array }
        ensures kept { StaysKept self.old self.new }
        ensures uncounted { CountsNothing self.old self.new }
        ensures room { self.new.room ≡ self.old.room }
    {
        let reply = unmap(&mut self.array, self.alloc, addr, lba, count);
        let lost = is_lost(&self.array);
        self.history
            .push_unless(&Entry::Unmap(addr, lba, count), lost);
        reply
    }
}

// Discards sectors on the array.
fn unmap<D: Disk + Drop>(
    array: &mut Array<D>,
    alloc: Global,
    addr: Addr,
    lba: u64,
    count: u32,
) -> Reply
    ensures { Steps array.old (EventOf.Unmap addr lba count) (OutcomeOf.Unmap result) array.new }
{
    match array.step(alloc, EventOf::Unmap(addr, lba, count)) {
        OutcomeOf::Unmap(reply) => reply,
        _ => unreachable!(),
    }
}
