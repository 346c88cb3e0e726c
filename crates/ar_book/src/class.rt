// The storage classes of a group, and the slots that store its blocks.

/// The storage class of a group (a PEG of AutoRAID).
#[derive(Clone, Copy, Debug, PartialEq, Eq)]
pub enum Class {
    /// Unused: it stores no block.
    Free,
    /// Two copies of each block.
    Mirrored,
    /// Stripes of three blocks and their rotating parity (RAID 5 layout).
    Parity,
}

/// The level at which a block is stored: the class of its home's group.
#[derive(Clone, Copy, Debug, PartialEq, Eq)]
pub enum Level {
    /// Not stored: it has no home.
    Unplaced,
    /// In a mirrored group.
    Mirrored,
    /// In a parity group.
    Parity,
}

/// The place of one block: the number of a group, and of a slot in it, each from 0.
#[derive(Clone, Copy, Debug, PartialEq, Eq)]
pub struct Slot {
    pub group: u32,
    pub slot: u16,
}

impl Class {
    ghost use Rattle.std.specs.Prelude.{◌≡◌};
    ghost use Rattle.ar_book.specs.Tables.{level_of};

    /// The level of the blocks in groups of the class.
    pub(crate) fn level(self) -> Level
        ensures { result ≡ level_of self }
    {
        match self {
            Class::Free => Level::Unplaced,
            Class::Mirrored => Level::Mirrored,
            Class::Parity => Level::Parity,
        }
    }
}
