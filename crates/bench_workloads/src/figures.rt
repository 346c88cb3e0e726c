// What was measured, and the lines that tell it.
use ar_disks::Geometry;
use std::fmt;
use std::fmt::{Display, Formatter, Write};

const NANOS: u128 = 1_000_000_000;

/// What a workload cost.
#[derive(Clone, Copy, Debug, PartialEq, Eq)]
pub struct Figures {
    pub operations: u64,
    /// Bytes of data that came or went with the commands, or were moved.
    pub bytes: u64,
    /// Nanoseconds of the array.
    pub array: u64,
    /// Nanoseconds of the bare loop.
    pub bare: u64,
}

impl Figures {
    /// Nothing.
    pub const NONE: Figures = Figures {
        operations: 0,
        bytes: 0,
        array: 0,
        bare: 0,
    };

    /// With those of another round.
    pub fn and(self, other: Figures) -> Figures {
        Figures {
            operations: self.operations.saturating_add(other.operations),
            bytes: self.bytes.saturating_add(other.bytes),
            array: self.array.saturating_add(other.array),
            bare: self.bare.saturating_add(other.bare),
        }
    }
}

/// What a machine copies and adds by itself.
#[derive(Clone, Copy, Debug, PartialEq, Eq)]
pub struct Machine {
    /// Bytes that were copied.
    pub copied: u64,
    /// Nanoseconds of the copies.
    pub copying: u64,
    /// Bytes that were added to others.
    pub added: u64,
    /// Nanoseconds of the sums.
    pub adding: u64,
}

impl Machine {
    /// Nothing.
    pub const NONE: Machine = Machine {
        copied: 0,
        copying: 0,
        added: 0,
        adding: 0,
    };
}

/// The name of a geometry.
pub fn name_of(geometry: Geometry) -> &'static str {
    match geometry {
        Geometry::Paper => "paper",
        Geometry::Small => "small",
    }
}

// How many in a second, of `count` in `nanos` nanoseconds.
fn rate(count: u64, nanos: u64) -> u64 {
    let whole = u128::from(count) * NANOS / u128::from(nanos.max(1));
    u64::try_from(whole).unwrap_or(u64::MAX)
}

/// Prints operations, operations and MB a second, and how many times as long as the bare loop it took, rounded up.
impl Display for Figures {
    fn fmt<W: Write>(&self, f: &mut Formatter<W>) -> fmt::Result {
        let operations = self.operations;
        let each_second = rate(self.operations, self.array);
        let megabytes = rate(self.bytes, self.array) / 1_000_000;
        let hundredths = (u128::from(self.array) * 100).div_ceil(u128::from(self.bare.max(1)));
        let times = hundredths / 100;
        let rest = hundredths % 100;
        write!(
            f,
            "{operations:>10} ops {each_second:>9} ops/s {megabytes:>6} MB/s {times:>3}.{rest:02} of the bare loop"
        )
    }
}

/// Prints how many MB a second are copied and added.
impl Display for Machine {
    fn fmt<W: Write>(&self, f: &mut Formatter<W>) -> fmt::Result {
        let copied = rate(self.copied, self.copying) / 1_000_000;
        let added = rate(self.added, self.adding) / 1_000_000;
        write!(f, "machine copies {copied} MB/s, adds {added} MB/s")
    }
}
