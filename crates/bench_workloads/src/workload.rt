// What is measured, and what each workload needs.
use ar_core::LevelOf;
use ar_disks::Geometry;

/// What the array is asked to do.
#[derive(Clone, Copy, Debug, PartialEq, Eq)]
pub enum Workload {
    /// First writes of whole blocks until the room is used, squeezes included.
    Fill,
    /// Writes of whole blocks that stand mirrored.
    Overwrite,
    /// The same with a cache that holds them all, which is flushed at the end.
    OverwriteCached,
    /// Writes of one sector anywhere.
    SmallWrite,
    /// Reads of whole blocks that stand mirrored.
    Read,
    /// Reads of one sector anywhere.
    SmallRead,
    /// Reads of whole blocks at the parity level.
    ParityRead,
    /// Writes of whole blocks at the parity level, which promote them.
    ParityWrite,
    /// Reads of whole blocks at the parity level with a disk out.
    DegradedRead,
    /// Writes of whole blocks at the parity level with a disk out, which promote them.
    DegradedWrite,
    /// Demotions of all blocks, which stand mirrored.
    Demote,
    /// Cleaning of groups half of whose slots are holes, as long as it moves blocks.
    Clean,
    /// Balancing of a full array to which a disk was added, as long as it changes anything.
    Balance,
    /// The rebuild of a disk of a full array.
    Rebuild,
    /// Writes of whole blocks of a full array of 64 groups.
    ManyGroups64,
    /// The same of 1,024 groups.
    ManyGroups1024,
    /// The same of 3,072 groups.
    ManyGroups3072,
}

/// Where the blocks of the unit stand when a round begins.
#[derive(Clone, Copy, Debug, PartialEq, Eq)]
pub enum Stands {
    /// Nowhere: the unit has all the room, and was never written.
    Nowhere,
    /// In mirrored groups, as many as there are but one.
    Mirrored,
    /// In mirrored groups, fewer than half, and all other groups are free.
    Half,
    /// In mirrored groups, an even number and no more than all but one, every second slot of which is a hole.
    Scattered,
    /// In parity groups, fewer than half, and all other groups are free.
    Parity,
    /// In parity groups, all but one of them, with all the room.
    Everywhere,
}

/// How an operation touches the unit.
#[derive(Clone, Copy, Debug, PartialEq, Eq)]
pub enum Access {
    /// One block after another is read.
    ReadBlocks,
    /// One block after another is written.
    WriteBlocks,
    /// A sector at random is read.
    ReadSectors,
    /// A sector at random is written.
    WriteSectors,
    /// The oldest mirrored block is moved to a group with parity.
    DemoteBlocks,
    /// A block of the emptiest group is moved to a hole of another.
    CleanBlocks,
    /// A group's extent is moved to the disk that was added, or a group is formed.
    BalanceExtents,
    /// An extent of a disk that was replaced is rebuilt.
    RebuildExtents,
}

impl Access {
    /// Whether it goes anywhere, instead of in order.
    pub fn is_random(self) -> bool {
        matches!(self, Access::ReadSectors | Access::WriteSectors)
    }

    /// Whether it is an event that no host asks for.
    pub fn is_in_background(self) -> bool {
        matches!(self, Access::DemoteBlocks | Access::CleanBlocks) || self.is_of_extents()
    }

    /// Whether it is such an event, and of a whole extent.
    pub fn is_of_extents(self) -> bool {
        matches!(self, Access::BalanceExtents | Access::RebuildExtents)
    }
}

/// What a workload does.
#[derive(Clone, Copy, Debug, PartialEq, Eq)]
pub struct Plan {
    pub stands: Stands,
    pub access: Access,
    /// Whether the cache holds as many blocks as the unit has, instead of none.
    pub is_cached: bool,
    /// Whether disk 0 is out.
    pub is_degraded: bool,
}

impl Plan {
    /// At which level each block stands before the operations.
    pub fn level_before(self) -> LevelOf {
        match self.stands {
            Stands::Nowhere => LevelOf::Unplaced,
            Stands::Mirrored | Stands::Half | Stands::Scattered => LevelOf::Mirrored,
            Stands::Parity | Stands::Everywhere => LevelOf::Parity,
        }
    }

    /// And after them: first writes that use all the room end at the parity level, written blocks are promoted where
    /// there are free groups, and demoted blocks have left the mirrored level.
    pub fn level_after(self) -> LevelOf {
        match (self.stands, self.access) {
            (Stands::Nowhere, _) => LevelOf::Parity,
            (Stands::Parity, Access::WriteBlocks) => LevelOf::Mirrored,
            (_, Access::DemoteBlocks) => LevelOf::Parity,
            _ => self.level_before(),
        }
    }
}

impl Workload {
    pub const ALL: [Workload; 17] = [
        Workload::Fill,
        Workload::Overwrite,
        Workload::OverwriteCached,
        Workload::SmallWrite,
        Workload::Read,
        Workload::SmallRead,
        Workload::ParityRead,
        Workload::ParityWrite,
        Workload::DegradedRead,
        Workload::DegradedWrite,
        Workload::Demote,
        Workload::Clean,
        Workload::Balance,
        Workload::Rebuild,
        Workload::ManyGroups64,
        Workload::ManyGroups1024,
        Workload::ManyGroups3072,
    ];

    /// The name on the command line and in the report.
    pub fn name(self) -> &'static str {
        match self {
            Workload::Fill => "fill",
            Workload::Overwrite => "overwrite",
            Workload::OverwriteCached => "overwrite-cached",
            Workload::SmallWrite => "small-write",
            Workload::Read => "read",
            Workload::SmallRead => "small-read",
            Workload::ParityRead => "parity-read",
            Workload::ParityWrite => "parity-write",
            Workload::DegradedRead => "degraded-read",
            Workload::DegradedWrite => "degraded-write",
            Workload::Demote => "demote",
            Workload::Clean => "clean",
            Workload::Balance => "balance",
            Workload::Rebuild => "rebuild",
            Workload::ManyGroups64 => "many-groups-64",
            Workload::ManyGroups1024 => "many-groups-1024",
            Workload::ManyGroups3072 => "many-groups-3072",
        }
    }

    /// The workload of a name.
    pub fn of_name(name: &str) -> Option<Workload> {
        Workload::ALL
            .iter()
            .find(|workload| workload.name() == name)
            .copied()
    }

    /// Whether it is measured in a geometry. As many groups of large extents would take up to 12 GiB.
    pub fn runs_in(self, geometry: Geometry) -> bool {
        !self.is_of_many_groups() || geometry == Geometry::SMALL
    }

    /// Whether it is about how many groups there are.
    pub fn is_of_many_groups(self) -> bool {
        matches!(
            self,
            Workload::ManyGroups64 | Workload::ManyGroups1024 | Workload::ManyGroups3072
        )
    }

    /// What it does.
    pub fn plan(self) -> Plan {
        let (stands, access) = match self {
            Workload::Fill => (Stands::Nowhere, Access::WriteBlocks),
            Workload::Overwrite | Workload::OverwriteCached => {
                (Stands::Mirrored, Access::WriteBlocks)
            }
            Workload::SmallWrite => (Stands::Mirrored, Access::WriteSectors),
            Workload::Read => (Stands::Mirrored, Access::ReadBlocks),
            Workload::SmallRead => (Stands::Mirrored, Access::ReadSectors),
            Workload::ParityRead | Workload::DegradedRead => (Stands::Parity, Access::ReadBlocks),
            Workload::ParityWrite | Workload::DegradedWrite => {
                (Stands::Parity, Access::WriteBlocks)
            }
            Workload::Demote => (Stands::Half, Access::DemoteBlocks),
            Workload::Clean => (Stands::Scattered, Access::CleanBlocks),
            Workload::Balance => (Stands::Everywhere, Access::BalanceExtents),
            Workload::Rebuild => (Stands::Everywhere, Access::RebuildExtents),
            Workload::ManyGroups64 | Workload::ManyGroups1024 | Workload::ManyGroups3072 => {
                (Stands::Everywhere, Access::WriteBlocks)
            }
        };
        Plan {
            stands,
            access,
            is_cached: self == Workload::OverwriteCached,
            is_degraded: matches!(self, Workload::DegradedRead | Workload::DegradedWrite),
        }
    }
}
