// What operators are shown of an array: how its sectors are used, its units and its disks. It is copied under the
// array's lock, and written after.
use ar_answers::picture_of;
use ar_core::Array;
use ar_disks::{Addr, Disk, Host};
use ar_fuses::{DiskCounts, Fuse, disk_counts, disks_out, lost_disks};
use ar_picture::{Class, Group, Health, Picture, Unit};
use ar_target::serial_number;
use std::alloc::{AllocError, Global};
use std::io;
use std::io::Write;

/// How the sectors of an array are used: those that units may still be given, and the blocks of units, in sectors.
#[derive(Clone, Copy, Debug, PartialEq, Eq)]
pub struct SectorUsage {
    pub room: u64,
    pub mirrored: u64,
    pub parity: u64,
    /// Of blocks that aren't on the disks.
    pub unwritten: u64,
}

/// How much a unit has, and how much of it is where.
#[derive(Clone, Copy, Debug, PartialEq, Eq)]
pub struct UnitUsage {
    pub host: u8,
    pub lun: u8,
    pub sectors: u32,
    pub blocks: u32,
    /// Blocks that are on the disks.
    pub written: u32,
    /// Blocks that are cached.
    pub cached: u32,
    /// Its serial number, as initiators see it, where they may come.
    pub serial: Option<[u8; 16]>,
}

/// What tells the units of an array from all others, beside their hosts and LUNs.
#[derive(Clone, Copy, Debug, PartialEq, Eq)]
pub struct UnitNames {
    /// Distinguishes the array from others.
    pub array: u32,
    /// The generations of the units, host by host and LUN by LUN.
    pub generations: [u16; 32],
}

impl UnitNames {
    // The serial number of a unit.
    fn serial_number(&self, host: u8, lun: u8) -> [u8; 16] {
        let place = 8 * usize::from(host) + usize::from(lun);
        let generation = match self.generations.get(place) {
            Some(generation) => *generation,
            None => 0,
        };
        serial_number(self.array, host, lun, generation)
    }
}

/// How a disk is.
#[derive(Clone, Copy, Debug, PartialEq, Eq)]
pub enum DiskState {
    InUse,
    /// An operator has taken it out.
    Out,
    Failed,
    /// It was replaced, and this many of its extents are rebuilt.
    Rebuilding(u16),
}

impl DiskState {
    /// The state in a word, without how far it has come.
    pub fn word(self) -> &'static str {
        match self {
            DiskState::InUse => "in use",
            DiskState::Out => "out",
            DiskState::Failed => "failed",
            DiskState::Rebuilding(_) => "rebuilding",
        }
    }
}

/// How much of a disk is used, and how it is.
#[derive(Clone, Copy, Debug, PartialEq, Eq)]
pub struct DiskUsage {
    pub disk: u8,
    /// Extents in groups that hold blocks.
    pub used: u32,
    pub extents: u16,
    pub counts: DiskCounts,
    pub state: DiskState,
}

/// The tables of an array and what was counted of its disks, at one moment.
#[derive(Drop)]
pub struct Inventory {
    // That of a failed array names the disks that it has lost.
    picture: Picture,
    units: Vec<UnitUsage>,
    // The sectors of a block.
    block_sectors: u32,
    // Blocks that units may still be given.
    room: u32,
    counts: [DiskCounts; 12],
    // Which disks an operator has taken out.
    out: [bool; 12],
}

impl Inventory {
    /// Copies the tables of an array whose disks are on these fuses. `names` tells its units apart in their serial
    /// numbers, if initiators see them. It looks at each block of each unit. Fails only when out of memory.
    pub fn of<D: Disk>(
        alloc: Global,
        array: &Array<D>,
        fuses: &[Fuse; 12],
        names: Option<UnitNames>,
    ) -> Result<Inventory, AllocError> {
        let mut picture = picture_of(alloc, array)?;
        picture.name_lost(lost_disks(fuses));
        let units = usages_of(alloc, array, &picture.units, &names)?;
        Ok(Inventory {
            picture,
            units,
            block_sectors: array.geometry().sectors(),
            room: array.free_room(),
            counts: disk_counts(fuses),
            out: disks_out(fuses),
        })
    }

    /// How the sectors are used.
    pub fn usage(&self) -> SectorUsage {
        SectorUsage {
            room: self.sectors_of(u64::from(self.room)),
            mirrored: self.sectors_of(self.blocks_of(Class::Mirrored)),
            parity: self.sectors_of(self.blocks_of(Class::Parity)),
            unwritten: self.sectors_of(self.blocks_unwritten()),
        }
    }

    /// The units, in the order of their hosts and LUNs.
    pub fn units(&self) -> &[UnitUsage] {
        &self.units
    }

    /// How many disks there are.
    pub fn disks(&self) -> u8 {
        self.picture.disks
    }

    /// How a disk is used.
    pub fn disk(&self, disk: u8) -> DiskUsage {
        DiskUsage {
            disk,
            used: self.extents_used(disk),
            extents: self.picture.extents,
            counts: self.counts[usize::from(disk % 12)],
            state: self.state_of(disk),
        }
    }

    /// Writes how many sectors units may still be given, and how many blocks of units in sectors are mirrored, have
    /// parity, or aren't on the disks; and how many spare disks are left.
    pub fn write_usage<W: Write>(&self, out: &mut W, spares: u8) -> io::Result<()> {
        let SectorUsage {
            room,
            mirrored,
            parity,
            unwritten,
        } = self.usage();
        writeln!(
            out,
            "room {room} sectors\nmirrored {mirrored} sectors\nparity {parity} sectors"
        )?;
        writeln!(out, "unwritten {unwritten} sectors\nspares {spares}")
    }

    /// Writes the units, as a line for each: its length in sectors, its blocks, how many of these are on the disks and
    /// how many cached, and its serial number, if it has one.
    pub fn write_units<W: Write>(&self, out: &mut W) -> io::Result<()> {
        for unit in self.units.iter() {
            write_unit(out, *unit)?;
        }
        Ok(())
    }

    /// Writes the disks, as a line for each: its extents that hold blocks, what was counted of it, and its state.
    /// `left` is how many seconds a rebuild still takes, if that can be told.
    pub fn write_disks<W: Write>(&self, out: &mut W, left: Option<u64>) -> io::Result<()> {
        for disk in 0..self.picture.disks {
            write_disk(out, self.disk(disk), left)?;
        }
        Ok(())
    }

    fn state_of(&self, disk: u8) -> DiskState {
        match self.picture.health {
            Health::Rebuilding(rebuilt, done) if rebuilt == disk => DiskState::Rebuilding(done),
            health if !is_missing(health, disk) => DiskState::InUse,
            _ if self.out[usize::from(disk % 12)] => DiskState::Out,
            _ => DiskState::Failed,
        }
    }

    // This many blocks, in sectors.
    fn sectors_of(&self, blocks: u64) -> u64 {
        blocks.saturating_mul(u64::from(self.block_sectors))
    }

    // How many blocks all groups of a class hold.
    fn blocks_of(&self, class: Class) -> u64 {
        let mut blocks: u64 = 0;
        for group in self.picture.groups.iter() {
            if group.class == class {
                blocks = blocks.saturating_add(u64::from(group.blocks));
            }
        }
        blocks
    }

    // How many blocks of all units aren't on the disks.
    fn blocks_unwritten(&self) -> u64 {
        let mut blocks: u64 = 0;
        for unit in self.units.iter() {
            blocks = blocks.saturating_add(u64::from(unit.blocks.saturating_sub(unit.written)));
        }
        blocks
    }

    // How many extents of a disk are in groups that hold blocks.
    fn extents_used(&self, disk: u8) -> u32 {
        let mut used: u32 = 0;
        for group in self.picture.groups.iter() {
            if group.class != Class::Free && has_extent_of(group, disk) {
                used = used.saturating_add(1);
            }
        }
        used
    }
}

// How each unit is used.
fn usages_of<D: Disk>(
    alloc: Global,
    array: &Array<D>,
    units: &[Unit],
    names: &Option<UnitNames>,
) -> Result<Vec<UnitUsage>, AllocError> {
    let mut usages = Vec::with_capacity(alloc, units.len())?;
    for unit in units {
        usages.push(usage_of(array, *unit, names))?;
    }
    Ok(usages)
}

fn usage_of<D: Disk>(array: &Array<D>, unit: Unit, names: &Option<UnitNames>) -> UnitUsage {
    let Unit {
        host,
        lun,
        blocks,
        placed,
    } = unit;
    let (sectors, cached) = match Host::new(host) {
        Some(host) => length_and_cached(array, Addr { host, lun }),
        None => (0, 0),
    };
    UnitUsage {
        host,
        lun,
        sectors,
        blocks,
        written: placed,
        cached,
        serial: serial_of(names, host, lun),
    }
}

// The serial number of a unit, if initiators see it.
fn serial_of(names: &Option<UnitNames>, host: u8, lun: u8) -> Option<[u8; 16]> {
    match names {
        Some(names) => Some(names.serial_number(host, lun)),
        None => None,
    }
}

// The sectors of a unit, and how many of its blocks are cached.
fn length_and_cached<D: Disk>(array: &Array<D>, addr: Addr) -> (u32, u32) {
    let cached = array.cached_blocks_of(addr).min(u32::MAX as usize) as u32;
    (array.sectors(addr).unwrap_or(0), cached)
}

fn write_unit<W: Write>(out: &mut W, unit: UnitUsage) -> io::Result<()> {
    let UnitUsage {
        host,
        lun,
        sectors,
        blocks,
        written,
        cached,
        serial,
    } = unit;
    write!(
        out,
        "unit {host} {lun} sectors {sectors} blocks {blocks} written {written} cached {cached}"
    )?;
    if let Some(serial) = serial {
        out.write_all(b" serial ")?;
        out.write_all(&serial)?;
    }
    out.write_all(b"\n")
}

fn write_disk<W: Write>(out: &mut W, usage: DiskUsage, left: Option<u64>) -> io::Result<()> {
    let DiskUsage {
        disk,
        used,
        extents,
        counts,
        state,
    } = usage;
    let (accesses, errors, word) = (counts.accesses, counts.errors, state.word());
    write!(
        out,
        "disk {disk} extents {used} of {extents} accesses {accesses} errors {errors} {word}"
    )?;
    if let DiskState::Rebuilding(done) = state {
        write!(out, " {done} of {extents}")?;
        write_left(out, left)?;
    }
    out.write_all(b"\n")
}

// Writes how many seconds a rebuild still takes.
fn write_left<W: Write>(out: &mut W, left: Option<u64>) -> io::Result<()> {
    match left {
        Some(seconds) => write!(out, ", {seconds} s left"),
        None => Ok(()),
    }
}

// Whether a disk is missing, and isn't being rebuilt.
fn is_missing(health: Health, disk: u8) -> bool {
    match health {
        Health::Out(out) => out == disk,
        Health::Lost(one, other) => one == disk || other == disk,
        _ => false,
    }
}

// Whether a group has an extent of a disk.
fn has_extent_of(group: &Group, disk: u8) -> bool {
    let members = group.members;
    members.first.disk == disk
        || members.second.disk == disk
        || members.third.disk == disk
        || members.fourth.disk == disk
}
