// The orders of the script language, as plain data that can be copied: executed on an array, or sent to a server.
ghost use Rattle.std.specs.Prelude.{◌≡◌};

use ar_disks::Addr;

/// The data sent with a command: `len` bytes, each of them `byte`.
#[derive(Clone, Copy)]
pub struct Data {
    pub len: u32,
    pub byte: u8,
}

/// How the bytes of a reply are printed.
#[derive(Clone, Copy, Debug, PartialEq, Eq)]
pub enum Notation {
    /// Two hexadecimal digits for each byte.
    Bytes,
    /// The longest runs of equal bytes, each with its length.
    Runs,
}

/// An order: what a line asks for.
#[derive(Clone, Copy)]
pub enum Order {
    /// Execute an action.
    Act(Action),
    /// Show the result of a query.
    Ask(Question),
}

/// An action on the array.
#[derive(Clone, Copy)]
pub enum Action {
    /// `make`: create a unit of this many sectors.
    Make(Addr, u32),
    /// `grow`: extend a unit to this many sectors.
    Grow(Addr, u32),
    /// `drop`: delete a unit.
    Remove(Addr),
    /// Send a SCSI command to a unit.
    Command {
        addr: Addr,
        cdb: [u8; 16],
        data: Data,
        notation: Notation,
    },
    /// `unmap`: discard sectors of a unit, this many from an LBA on.
    Unmap(Addr, u64, u32),
    /// Write the least recently used block of the cache to the disks.
    Flush,
    /// Move the least recently written mirrored block to a parity group (RAID 5 layout).
    Demote,
    /// Move one block out of the emptiest group that can be emptied.
    Clean,
    /// Form a group of unassigned extents (`loose` in the API), or shift an extent to another disk.
    Balance,
    /// Add a new disk.
    AddDisk,
    /// `out`: take a disk out of service, by its number.
    DiskOut(u8),
    /// `replace`: put a new disk in the place of the missing one, by its number.
    Replace(u8),
    /// Rebuild one extent of the replaced disk.
    Rebuild,
}

impl Action {
    ghost use Rattle.ar_language.specs.Notations.{notation_in};

    /// How the bytes of the reply are printed.
    pub fn notation(&self) -> Notation
        ensures { result ≡ notation_in self.now }
    {
        match self {
            Action::Command { notation, .. } => *notation,
            _ => Notation::Bytes,
        }
    }
}

/// A query about the array. All numbers count from 0.
#[derive(Clone, Copy)]
pub enum Question {
    /// The level of each block of a unit: mirrored, parity, or without a home.
    Levels(Addr),
    /// The group and slot where a block of a unit is stored.
    Home(Addr, u32),
    /// What each group is used for.
    Groups,
    /// How many more blocks units may have.
    Room,
    /// Which disk is missing or being rebuilt, if any.
    Health,
    /// What each extent is used for, and the health of the array.
    Picture,
    /// The bytes of a row of an extent.
    Block { disk: u8, extent: u16, row: u16 },
}
