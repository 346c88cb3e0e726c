// Why a set refuses disks. A refusal changes nothing.
use std::fmt;
use std::fmt::{Display, Formatter};
use thiserror::Error;

/// Why a disk isn't added, replaced or taken out. The set is unchanged.
#[derive(Clone, Copy, Debug, PartialEq, Eq, Error)]
pub enum DiskRefusal {
    /// The set has 12 disks already.
    TooManyDisks,
    /// The disk's geometry or number of extents differs from the set's.
    WrongSize,
    /// The disk to replace hasn't failed.
    NotOut,
    /// The set has no disk of this number.
    NoSuchDisk,
    /// Out of memory.
    NoMemory,
    /// The set has failed: two disks missing at once.
    Broken,
}

// (By hand: the text that a derived `Display` writes is not specified.)
impl Display for DiskRefusal {
    ghost use Rattle.std.specs.Prelude.{Some};
    ghost use Rattle.ar_extents.specs.Texts.{disk_refusal_text};

    ghost output = { λ refusal. Some (disk_refusal_text refusal) };

    fn fmt<W: fmt::Write>(&self, f: &mut Formatter<W>) -> fmt::Result {
        f.write_str(match self {
            DiskRefusal::TooManyDisks => "E1 TooManyDisks",
            DiskRefusal::WrongSize => "E2 WrongSize",
            DiskRefusal::NotOut => "E3 NotOut",
            DiskRefusal::NoSuchDisk => "E4 NoSuchDisk",
            DiskRefusal::NoMemory => "E5 NoMemory",
            DiskRefusal::Broken => "E6 Broken",
        })
    }
}

/// Why a set isn't started.
#[derive(Clone, Copy, Debug, PartialEq, Eq, Error)]
pub enum StartFault {
    /// There are fewer than 4 disks, or more than 12.
    #[error("BadCount")]
    BadCount,
    /// The disks differ in shape, or don't have 1 to 1,024 extents.
    #[error("WrongSize")]
    WrongSize,
    /// Out of memory.
    #[error("NoMemory")]
    NoMemory,
}
