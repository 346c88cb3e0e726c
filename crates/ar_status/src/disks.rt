// What is shown of each disk beside its health: a list as long as the array has disks.
ghost use Rattle.std.specs.Prelude.{◌≡◌, ◌≤◌, length, min, take};

use serde::{Described, Serialize, Serializer};

/// The most disks that an array has.
const DISKS_MAX: usize = 12;

/// What was counted since the start of the disks of a number: of the one that has it, and of those that it replaced.
#[derive(Clone, Copy, Serialize)]
pub struct DiskCounters {
    /// Rows that were read or written, or should have been.
    pub accesses: u64,
    /// Those that failed.
    pub errors: u64,
}

/// What was counted of the disks of each number.
#[derive(Clone, Copy)]
pub struct DiskList {
    // The first `count` are of disks.
    list: [DiskCounters; DISKS_MAX],
    count: usize,
    ghost within: { count ≤ 12 },
    ghost places: { length list ≡ 12 },
}

impl DiskList {
    /// The first of these are of disks, as many as there are disks, and 12 at most.
    pub fn new(list: [DiskCounters; DISKS_MAX], disks: u8) -> DiskList
        ensures { take result.count result.list ≡ take (min disks 12) list }
    {
        DiskList {
            list,
            count: usize::from(disks).min(DISKS_MAX),
        }
    }

    /// Returns what was counted of each disk.
    pub fn as_slice(&self) -> &[DiskCounters]
        ensures { result.now ≡ take self.now.count self.now.list }
    {
        &self.list[..self.count]
    }
}

impl Described for DiskList {}

impl Serialize for DiskList {
    fn serialize<S: Serializer>(&self, out: &mut S) -> Result<(), S::Error> {
        self.as_slice().serialize(out)
    }
}
