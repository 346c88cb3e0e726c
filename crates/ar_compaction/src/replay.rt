// One unit from records that come one by one. Its sectors are one allocation, so that a WRITE is one copy.
ghost use Rattle.std.specs.Prelude.{◌≡◌, ◌*◌, ◌≤◌, ◌==◌, Bool, length, replicate, false, true, OnOk, OnErr, IfOk};
ghost use Rattle.ar_scsi.specs.Reading.{reading};
ghost use Rattle.ar_unit.specs.Unit.{Absent, Present, Make, Grow, Remove, after, answer, unmap_answer, write_answer};
ghost use Rattle.ar_unit.specs.Unit.{unmap_obeyed, unit_run};
ghost use Rattle.ar_record.specs.Record.{data_of};
ghost use Rattle.ar_record.specs.Replay.{is_unit_at};
ghost use Rattle.ar_compaction.specs.Bytes.{sectors_of_bytes};
ghost use Rattle.ar_compaction.specs.Checkpoint.{IsCheckpoint};
ghost use Rattle.ar_compaction.specs.Replaying.{own_entry, is_present, range_in, replayed, takes_memory, unit_address};
ghost use Rattle.ar_compaction.specs.Replaying.{with_unit};

use crate::UnitRecords;
use crate::addresses::names;
use ar_disks::{Addr, SECTOR_LEN, zero};
use ar_record::Record;
use ar_scsi::{Command, decode, is_inquiry};
use ar_unit::is_past_end;
use std::alloc::{AllocError, Global};
use std::marker::Model;

/// The unit at one address, made by records. Contracts see it as a `ReplayState`. Its memory is that of its sectors.
#[derive(Drop)]
pub struct UnitReplay {
    addr: Addr,
    present: bool,
    attention: bool,
    sectors: u32,
    bytes: Vec<u8>,
}

impl Model for UnitReplay {
    ghost use Rattle.ar_compaction.specs.Replaying.{ReplayState};

    ghost Value = { ReplayState };

    ghost use Rattle.ar_compaction.specs.ReplayFields.{replay_view, HasBytes};

    ghost view = { replay_view };

    ghost invariant = { HasBytes };
}

impl UnitReplay {
    /// An absent unit at `addr`. Allocates nothing.
    pub fn new(alloc: Global, addr: Addr) -> UnitReplay
        ensures { result ≡ record { addr = unit_address addr; unit = Absent } }
    {
        UnitReplay {
            addr,
            present: false,
            attention: false,
            sectors: 0,
            bytes: Vec::new(alloc),
        }
    }

    /// Executes a record if it names the unit's address. `Err` is out of memory, for a unit that is created or
    /// extended, and leaves the unit unchanged.
    pub fn apply(&mut self, entry: &Record) -> Result<(), AllocError>
        ensures applied { OnOk result (self.new ≡ replayed self.old (data_of entry.now)) }
        ensures unchanged { OnErr result (self.new ≡ self.old) }
        ensures cause { OnErr result (takes_memory (data_of entry.now) ≡ true) }
    {
        if names(entry, self.addr) {
            self.execute(entry)
        } else {
            Ok(())
        }
    }

    /// The unit's address.
    pub fn addr(&self) -> Addr
        ensures { unit_address result ≡ self.now.addr }
    {
        self.addr
    }

    /// Whether the unit is present.
    pub fn is_present(&self) -> bool
        ensures { result ≡ is_present self.now.unit }
    {
        self.present
    }

    /// The records that make an absent unit this one, and no other.
    pub fn into_records(self) -> UnitRecords
        ensures { IsCheckpoint self.addr self.unit result }
    {
        UnitRecords::new(
            self.addr.host,
            self.addr.lun,
            self.present,
            self.sectors,
            self.attention,
            self.bytes,
        )
    }

    // Executes a record of this unit.
    fn execute(&mut self, entry: &Record) -> Result<(), AllocError>
        ensures applied { OnOk result (self.new
            ≡ with_unit self.old (unit_run self.old.unit (own_entry (data_of entry.now)))) }
        ensures unchanged { OnErr result (self.new ≡ self.old) }
        ensures cause { OnErr result (takes_memory (data_of entry.now) ≡ true) }
    {
        match entry {
            Record::Make(_, sectors) => return self.make(*sectors),
            Record::Grow(_, sectors) => return self.grow(*sectors),
            Record::Remove(_) => self.remove(),
            Record::Command(_, cdb, payload) => self.command(cdb, payload.as_slice()),
            Record::Unmap(_, lba, count) => self.unmap(*lba, *count),
            Record::AddDisk(_) => {}
        }
        Ok(())
    }

    fn make(&mut self, sectors: u32) -> Result<(), AllocError>
        ensures applied { OnOk result (self.new ≡ with_unit self.old (after self.old.unit (Make sectors))) }
        ensures unchanged { OnErr result (self.new ≡ self.old) }
    {
        let bytes = zero_sectors(*self.bytes.allocator(), sectors)?;
        self.bytes = bytes;
        self.sectors = sectors;
        self.present = true;
        self.attention = false;
        Ok(())
    }

    fn grow(&mut self, sectors: u32) -> Result<(), AllocError>
        ensures applied { OnOk result (self.new ≡ with_unit self.old (after self.old.unit (Grow sectors))) }
        ensures unchanged { OnErr result (self.new ≡ self.old) }
    {
        if self.present {
            let sectors = sectors.max(self.sectors);
            self.bytes.resize(sectors as usize * SECTOR_LEN, 0)?;
            self.sectors = sectors;
            self.attention = true;
        }
        Ok(())
    }

    // Frees the memory, too.
    fn remove(&mut self)
        ensures { self.new ≡ with_unit self.old (after self.old.unit Remove) }
    {
        self.present = false;
        self.sectors = 0;
        self.bytes = Vec::new(*self.bytes.allocator());
    }

    // Executes a command: of all that are valid only a WRITE changes a unit that has no UNIT ATTENTION to report.
    fn command(&mut self, cdb: &[u8; 16], sent: &[u8])
        ensures { self.new ≡ with_unit self.old (answer self.old.unit cdb.now sent.now).state }
    {
        if !self.present {
            return;
        }
        if self.attention && !is_inquiry(cdb) {
            self.attention = false;
            return;
        }
        let Some((lba, count)) = written_range(cdb) else {
            return;
        };
        write(&mut self.bytes, self.sectors, lba, count, sent);
    }

    fn unmap(&mut self, lba: u64, count: u32)
        ensures { self.new ≡ with_unit self.old (unmap_answer self.old.unit lba count).state }
    {
        if !self.present {
            return;
        }
        if self.attention {
            self.attention = false;
            return;
        }
        discard(&mut self.bytes, self.sectors, lba, count);
    }
}

// The sectors of a WRITE.
fn written_range(cdb: &[u8; 16]) -> Option<(u64, u16)>
    ensures { result ≡ range_in (reading cdb.now) }
{
    match decode(cdb) {
        Ok(Command::Write { lba, count, fua: _ }) => Some((lba, count)),
        _ => None,
    }
}

// The bytes of zero sectors.
fn zero_sectors(alloc: Global, sectors: u32) -> Result<Vec<u8>, AllocError>
    ensures { IfOk result (λ bytes. bytes.items ≡ replicate (sectors * 512) 0) }
{
    vec![in alloc; 0; sectors as usize * SECTOR_LEN]
}

// Overwrites `count` sectors from `lba` on, unless the command is terminated with an error.
fn write(bytes: &mut [u8], sectors: u32, lba: u64, count: u16, sent: &[u8])
    requires { length bytes.old ≡ sectors * 512 }
    ensures { (attention : Bool) → Present (sectors_of_bytes sectors bytes.new) attention
        ≡ (write_answer (sectors_of_bytes sectors bytes.old) attention lba count sent.now).state }
{
    if is_past_end(sectors, lba, u32::from(count)) {
        return;
    }
    if sent.len() != usize::from(count) * SECTOR_LEN {
        return;
    }
    let first = lba as usize * SECTOR_LEN;
    bytes[first..first + usize::from(count) * SECTOR_LEN].copy_from_slice(sent);
}

// Sets `count` sectors from `lba` on to zero, unless they end past the unit.
fn discard(bytes: &mut [u8], sectors: u32, lba: u64, count: u32)
    requires { length bytes.old ≡ sectors * 512 }
    ensures { Present (sectors_of_bytes sectors bytes.new) false
        ≡ (unmap_obeyed (sectors_of_bytes sectors bytes.old) lba count).state }
{
    if is_past_end(sectors, lba, count) {
        return;
    }
    let first = lba as usize * SECTOR_LEN;
    zero(&mut bytes[first..first + count as usize * SECTOR_LEN]);
}
