// The model as a program: a unit is a vector of sectors. A call that is out of memory leaves it unchanged.
ghost use Rattle.std.specs.Prelude.{◌≡◌, ◌+◌, ◌-◌, ◌++◌, ◌*◌, ◌<◌, ◌≤◌, ◌^◌, Bool, true, false, length, OnOk};
ghost use Rattle.std.specs.Prelude.{if◌then◌else◌};
ghost use Rattle.std.specs.Prelude.{OnErr, IfOk, vec_len};
ghost use Rattle.std.specs.List.{concat};
ghost use Rattle.ar_scsi.specs.Data as table;
ghost use Rattle.ar_scsi.specs.Reply as shape;
ghost use Rattle.ar_unit.specs.Broken.{shape_of};
ghost use Rattle.ar_unit.specs.Sectors.{cut, zero_sectors};
ghost use Rattle.ar_unit.specs.Unit as unit;
ghost use Rattle.ar_unit.specs.Unit.{Absent, Present, Make, Grow, Remove, answer, after, obeyed, leaving, read_reply};
ghost use Rattle.ar_unit.specs.Unit.{write_answer, unmap_answer, unmap_obeyed, IsGiven, IsServed};

use crate::reply::{absent, capacity, inquiry, is_past_end, with_bytes};
use ar_disks::SECTOR_LEN;
use ar_scsi::{Command, Reply, Sense, decode, is_inquiry};
use bytes::Bytes;
use std::alloc::{AllocError, Global};
use std::marker::Model;

const ZERO_SECTOR: [u8; SECTOR_LEN] = [0; SECTOR_LEN];

/// A logical unit as a plain list of sectors. Contracts see it as a `UnitState`.
#[derive(Drop)]
pub struct PlainUnit {
    present: bool,
    sectors: Vec<[u8; SECTOR_LEN]>,
    attention: bool,
}

impl Model for PlainUnit {
    ghost use Rattle.ar_unit.specs.Unit.{UnitState};

    ghost Value = { UnitState };

    ghost use Rattle.ar_unit.specs.Plain.{plain_view, IsSized};

    ghost view = { plain_view };

    ghost invariant = { λ unit. IsSized unit.present unit.sectors.items };
}

impl PlainUnit {
    /// An absent unit. Allocates nothing.
    pub fn new(alloc: Global) -> PlainUnit
        ensures { result ≡ Absent }
    {
        PlainUnit {
            present: false,
            sectors: Vec::new(alloc),
            attention: false,
        }
    }

    /// Creates the unit with `sectors` zero sectors, at least 1, in place of what was there. `Err` leaves it unchanged.
    pub fn make(&mut self, sectors: u32) -> Result<(), AllocError>
        requires { 1 ≤ sectors }
        ensures ok { OnOk result (self.new ≡ after self.old (Make sectors)) }
        ensures err { OnErr result (self.new ≡ self.old) }
    {
        let mut fresh = Vec::new(*self.sectors.allocator());
        lengthen(&mut fresh, sectors)?;
        self.sectors = fresh;
        self.present = true;
        self.attention = false;
        Ok(())
    }

    /// Grows a present unit with zero sectors up to `sectors` in all, if it has fewer, and leaves a UNIT ATTENTION
    /// pending. An absent unit stays absent. `Err` leaves the unit unchanged, and is returned only if sectors are to be
    /// added.
    pub fn grow(&mut self, sectors: u32) -> Result<(), AllocError>
        ensures ok { OnOk result (self.new ≡ after self.old (Grow sectors)) }
        ensures err { OnErr result (self.new ≡ self.old) }
        ensures there { OnErr result ((shape_of self.old).present ≡ true) }
        ensures more { OnErr result ((shape_of self.old).sectors < sectors) }
    {
        if self.present {
            lengthen(&mut self.sectors, sectors)?;
            self.attention = true;
        }
        Ok(())
    }

    /// Removes the unit.
    pub fn remove(&mut self)
        ensures { self.new ≡ after self.old Remove }
    {
        self.present = false;
        self.sectors.clear();
    }

    /// Executes the command block `cdb` with the data `bytes`, and returns the reply. BUSY leaves the unit unchanged,
    /// and is returned only in place of a reply with data, whose allocation may fail.
    pub fn answer(&mut self, alloc: Global, cdb: &[u8; 16], bytes: &[u8]) -> Reply
        ensures { IsServed self.old (answer self.old cdb.now bytes.now) result self.new }
    {
        if !self.present {
            return absent(alloc, cdb);
        }
        if self.attention && !is_inquiry(cdb) {
            self.attention = false;
            return Reply::check(Sense::CAPACITY_DATA_HAS_CHANGED);
        }
        match decode(cdb) {
            Ok(command) => obey(alloc, &mut self.sectors, command, bytes),
            Err(sense) => Reply::check(sense),
        }
    }

    /// Discards `count` sectors from `lba` on (UNMAP): they are zeros afterwards. The reply is that to a WRITE of them,
    /// and never BUSY.
    pub fn unmap(&mut self, lba: u64, count: u32) -> Reply
        ensures { leaving self.new result ≡ unmap_answer self.old lba count }
    {
        if !self.present {
            return Reply::check(Sense::LOGICAL_UNIT_NOT_SUPPORTED);
        }
        if self.attention {
            self.attention = false;
            return Reply::check(Sense::CAPACITY_DATA_HAS_CHANGED);
        }
        discard(&mut self.sectors, lba, count)
    }
}

// Executes a valid command on a present unit.
#[tactic(auto, unfolding(crate::specs::Unit::obeyed))]
fn obey(alloc: Global, sectors: &mut Vec<[u8; SECTOR_LEN]>, command: Command, bytes: &[u8]) -> Reply
    requires some { 1 ≤ vec_len sectors.old }
    requires few { vec_len sectors.old < 2 ^ 32 }
    ensures served { (attention : Bool) → IsServed (Present sectors.old.items attention)
        (obeyed sectors.old.items attention (Ok command) bytes.now)
        result (Present sectors.new.items attention) }
    ensures len { vec_len sectors.new ≡ vec_len sectors.old }
{
    match command {
        Command::TestReady => Reply::good(Bytes::new()),
        Command::Inquiry { allocation_length } => inquiry(alloc, true, allocation_length),
        Command::Capacity => capacity(alloc, sectors.len() as u32),
        Command::Read { lba, count } => read(alloc, sectors, lba, count),
        Command::Write { lba, count, fua: _ } => write(sectors, lba, count, bytes),
    }
}

fn read(alloc: Global, sectors: &Vec<[u8; SECTOR_LEN]>, lba: u64, count: u16) -> Reply
    requires few { vec_len sectors.now < 2 ^ 32 }
    ensures { IsGiven (read_reply sectors.now.items lba count) result }
{
    if is_past_end(sectors.len() as u32, lba, u32::from(count)) {
        return Reply::check(Sense::LOGICAL_BLOCK_ADDRESS_OUT_OF_RANGE);
    }
    let first = lba as usize;
    let wanted = &sectors[first..first + usize::from(count)];
    if byte_count(wanted) == 0 {
        return Reply::good(Bytes::new());
    }
    match joined(alloc, wanted) {
        Ok(payload) => Reply::good(payload),
        Err(_) => Reply::busy(),
    }
}

// The size of the sectors, in bytes.
fn byte_count(sectors: &[[u8; SECTOR_LEN]]) -> usize
    requires { length sectors.now < 2 ^ 16 }
    ensures { result ≡ length (concat sectors.now) }
{
    SECTOR_LEN * sectors.len()
}

// The bytes of the sectors, concatenated. Fails if out of memory.
fn joined(alloc: Global, sectors: &[[u8; SECTOR_LEN]]) -> Result<Bytes, AllocError>
    requires { length sectors.now < 2 ^ 16 }
    ensures { IfOk result (λ bytes. bytes ≡ concat sectors.now) }
{
    let mut bytes = Vec::with_capacity(alloc, byte_count(sectors))?;
    for sector in sectors {
        bytes.extend_from_slice(sector)?;
    }
    Ok(Bytes::from_vec(bytes)?)
}

// The contract holds with and without a pending UNIT ATTENTION, which this leaves unchanged.
fn write(sectors: &mut Vec<[u8; SECTOR_LEN]>, lba: u64, count: u16, bytes: &[u8]) -> Reply
    requires few { vec_len sectors.old < 2 ^ 32 }
    ensures served { (attention : Bool) → leaving (Present sectors.new.items attention) result
        ≡ write_answer sectors.old.items attention lba count bytes.now }
    ensures len { vec_len sectors.new ≡ vec_len sectors.old }
{
    if is_past_end(sectors.len() as u32, lba, u32::from(count)) {
        return Reply::check(Sense::LOGICAL_BLOCK_ADDRESS_OUT_OF_RANGE);
    }
    if bytes.len() != usize::from(count) * SECTOR_LEN {
        return Reply::check(Sense::DATA_PHASE_ERROR);
    }
    let first = lba as usize;
    let end = first + usize::from(count);
    overwrite(&mut sectors[first..end], bytes);
    Reply::good(Bytes::new())
}

// Overwrites the sectors with `bytes`.
fn overwrite(sectors: &mut [[u8; SECTOR_LEN]], bytes: &[u8])
    requires { length bytes.now ≡ length sectors.old * 512 }
    ensures { sectors.new ≡ cut 512 (length sectors.old) bytes.now }
{
    for i in 0..sectors.len() {
        let sector = &mut sectors[i];
        sector.copy_from_slice(&bytes[SECTOR_LEN * i..SECTOR_LEN * (i + 1)]);
    }
}

// Sets the range to zero.
fn discard(sectors: &mut Vec<[u8; SECTOR_LEN]>, lba: u64, count: u32) -> Reply
    requires few { vec_len sectors.old < 2 ^ 32 }
    ensures served { leaving (Present sectors.new.items false) result ≡ unmap_obeyed sectors.old.items lba count }
    ensures len { vec_len sectors.new ≡ vec_len sectors.old }
{
    if is_past_end(sectors.len() as u32, lba, count) {
        return Reply::check(Sense::LOGICAL_BLOCK_ADDRESS_OUT_OF_RANGE);
    }
    let first = lba as usize;
    let end = first + count as usize;
    clear(&mut sectors[first..end]);
    Reply::good(Bytes::new())
}

// Sets the sectors to zero.
fn clear(sectors: &mut [[u8; SECTOR_LEN]])
    ensures { sectors.new ≡ zero_sectors (length sectors.old) }
{
    for i in 0..sectors.len() {
        let sector = &mut sectors[i];
        sector.copy_from_slice(&ZERO_SECTOR);
    }
}

// Appends zero sectors up to `count` in all, if there are fewer. `Err` appends none.
#[tactic(auto, unfolding(crate::specs::Sectors::zero_sector))]
fn lengthen(sectors: &mut Vec<[u8; SECTOR_LEN]>, count: u32) -> Result<(), AllocError>
    ensures ok { OnOk result (sectors.new.items
        ≡ sectors.old.items ++ zero_sectors (count - vec_len sectors.old)) }
    ensures err { OnErr result (sectors.new.items ≡ sectors.old.items) }
    ensures more { OnErr result (vec_len sectors.old < count) }
{
    let count = (count as usize).max(sectors.len());
    sectors.resize(count, ZERO_SECTOR)
}
