// A disk array as plain data: pictures depend on no table and no disk of the array.
ghost use Rattle.std.specs.Prelude.{◌≡◌, ◌≢◌, ℕ, ◌+◌, ◌^◌, ◌<◌, ◌≤◌, slice_index};
ghost use Rattle.ar_disks.specs.Members.{stands_on};
ghost use Rattle.ar_picture.specs.Cells.{fullness_of, is_missing_place, group_at};
ghost use Rattle.ar_picture.specs.Losses.{health_naming};

use ar_disks::{Members, Place};

/// How many units there are at most: 8 of each of 4 hosts.
pub const UNITS_MAX: usize = 32;

/// What a group of four extents is used for.
#[derive(Clone, Copy, Debug, PartialEq, Eq)]
pub enum Class {
    /// For nothing: it holds no block.
    Free,
    /// For two copies of each block.
    Mirrored,
    /// For blocks with rotating parity (RAID 5 layout).
    Parity,
}

/// A group of four extents.
#[derive(Clone, Copy, Debug, PartialEq, Eq)]
pub struct Group {
    pub class: Class,
    pub members: Members,
    /// How many blocks it holds.
    pub blocks: u16,
    /// How many it has slots for.
    pub slots: u16,
}

impl Group {
    // Whether an extent is one of the group's.
    pub(crate) fn stands_on(&self, place: Place) -> bool
        ensures { result ≡ stands_on self.now.members place }
    {
        let members = &self.members;
        members.first == place
            || members.second == place
            || members.third == place
            || members.fourth == place
    }

    /// Returns how many ninths of the group's slots hold a block, rounded down: 9 is full, 0 is less than a ninth. A
    /// group without slots is full.
    pub fn fullness(&self) -> u8
        ensures same { result ≡ fullness_of self.now.blocks self.now.slots }
        ensures none { self.now.slots ≡ 0 → result ≡ 9 }
        ensures few { result ≤ 9 }
    {
        let (blocks, slots) = (u32::from(self.blocks), u32::from(self.slots));
        if blocks >= slots {
            9
        } else {
            (blocks * 9 / slots) as u8
        }
    }
}

/// The health of the disks.
#[derive(Clone, Copy, Debug, PartialEq, Eq)]
pub enum Health {
    /// Healthy: all disks are present.
    Whole,
    /// This disk has failed (it is `out`).
    Out(u8),
    /// This disk was replaced, and this number of its extents are rebuilt, the lowest first.
    Rebuilding(u8, u16),
    /// The array has failed: two disks were missing at once, and the data are lost.
    Broken,
    /// The same, and these are the two disks.
    Lost(u8, u8),
}

impl Health {
    /// Whether an extent is missing: its disk has failed, or isn't rebuilt up to it. On a failed array whose lost disks
    /// aren't known none is.
    pub fn is_missing(self, place: Place) -> bool
        ensures { result ≡ is_missing_place self place }
    {
        match self {
            Health::Whole | Health::Broken => false,
            Health::Out(disk) => place.disk == disk,
            Health::Rebuilding(disk, done) => place.disk == disk && place.extent >= done,
            Health::Lost(one, other) => place.disk == one || place.disk == other,
        }
    }

    // The health that names the two disks that a failed array has lost, where they are known.
    fn naming(self, lost: Option<[u8; 2]>) -> Health
        ensures { result ≡ health_naming lost self }
    {
        match lost {
            Some(disks) => match self {
                Health::Broken => Health::Lost(disks[0], disks[1]),
                _ => self,
            },
            None => self,
        }
    }
}

/// A unit: a list of blocks that a host has.
#[derive(Clone, Copy, Debug, PartialEq, Eq)]
pub struct Unit {
    /// The host's number, 0 to 3.
    pub host: u8,
    /// The number that the host gives it, 0 to 7.
    pub lun: u8,
    /// How many blocks it has.
    pub blocks: u32,
    /// How many of them are stored on the disks.
    pub placed: u32,
}

/// How many blocks of each unit a group holds. Unit L of host H has index 8 H + L.
#[derive(Clone, Copy, Debug, PartialEq, Eq)]
pub struct Held {
    pub blocks: [u32; UNITS_MAX],
}

impl Held {
    /// Counts one more block of the unit with index `place`, 0 to 31.
    pub fn add(&mut self, place: usize)
        requires place { place < 32 }
        requires few { slice_index self.old.blocks place + 1 < 2 ^ 32 }
        ensures one { slice_index self.new.blocks place ≡ slice_index self.old.blocks place + 1 }
        ensures others { (other : ℕ) → other ≢ place
            → slice_index self.new.blocks other ≡ slice_index self.old.blocks other }
    {
        self.blocks[place] += 1;
    }
}

/// A disk array, as its pictures show it. Disks, extents and groups count from 0.
#[derive(Drop)]
pub struct Picture {
    /// How many disks there are.
    pub disks: u8,
    /// How many extents each disk has.
    pub extents: u16,
    pub health: Health,
    /// The groups, by number. An extent in none of them is unassigned (`loose`).
    pub groups: Vec<Group>,
    /// The units, in the order in which pictures list them.
    pub units: Vec<Unit>,
    /// The blocks of units in each group, in the order of `groups`.
    pub held: Vec<Held>,
}

impl Picture {
    /// Returns the number of the lowest group that has an extent, or `None` if it is unassigned.
    pub fn group_at(&self, place: Place) -> Option<usize>
        ensures { result ≡ group_at self.now.groups.items place }
    {
        self.groups.iter().position(|group| group.stands_on(place))
    }

    /// Names the two disks that the array has lost, if it has failed and they are known. No other picture changes.
    pub fn name_lost(&mut self, lost: Option<[u8; 2]>)
        ensures { self.new ≡ record self.old { health = health_naming lost self.old.health } }
    {
        self.health = self.health.naming(lost);
    }
}
