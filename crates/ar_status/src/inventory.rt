// What is listed of a served array beside its status. It takes a walk over all blocks of its units, so that it is made
// where it is asked for alone.
use serde::Serialize;

/// How an array is used, and by whom, at one moment.
#[derive(Drop, Serialize)]
pub struct ArrayInventory {
    pub usage: SectorUsage,
    /// In the order of their hosts and LUNs.
    pub units: Vec<UnitUsage>,
    /// By number.
    pub disks: Vec<DiskUsage>,
    /// Of hosts that are logged in, by number.
    pub host_sessions: Vec<HostSession>,
    /// By number.
    pub iscsi_sessions: Vec<InitiatorSession>,
}

/// How the sectors of an array are used: those that units may still be given, and the blocks of units, in sectors.
#[derive(Clone, Copy, Serialize)]
pub struct SectorUsage {
    pub room_sectors: u64,
    pub mirrored_sectors: u64,
    pub parity_sectors: u64,
    /// Of blocks that aren't on the disks.
    pub unwritten_sectors: u64,
}

/// How much a unit has, and how much of it is where.
#[derive(Drop, Serialize)]
pub struct UnitUsage {
    pub host: u8,
    pub lun: u8,
    /// Its serial number, as initiators see it, where they may come.
    pub serial_number: Option<String>,
    pub sectors: u32,
    pub blocks: u32,
    /// Blocks that are on the disks.
    pub written_blocks: u32,
    pub cached_blocks: u32,
}

/// How much of a disk is used, and how it is.
#[derive(Clone, Copy, Serialize)]
pub struct DiskUsage {
    pub disk: u8,
    /// In an operator's words.
    pub state: &'static str,
    /// Extents in groups that hold blocks.
    pub extents_used: u32,
    /// Rows that were read or written since it came into the array, or should have been, and those that failed.
    pub accesses: u64,
    pub errors: u64,
    /// Extents that are rebuilt, and the seconds that the others take, if that can be told. None: it isn't being
    /// rebuilt.
    pub extents_rebuilt: Option<u16>,
    pub seconds_left: Option<u64>,
}

/// What the session of a host did so far.
#[derive(Clone, Copy, Serialize)]
pub struct HostSession {
    pub host: u8,
    /// The port of 127.0.0.1 that it comes from. None: it is over iSCSI.
    pub peer_port: Option<u16>,
    /// Commands that were executed or answered BUSY.
    pub commands: u64,
    /// Bytes of data in replies, and of commands that ended with GOOD.
    pub read_bytes: u64,
    pub written_bytes: u64,
}

/// A session over iSCSI whose login was accepted.
#[derive(Drop, Serialize)]
pub struct InitiatorSession {
    pub number: u64,
    /// None: it is for discovery.
    pub host: Option<u8>,
    /// The port of 127.0.0.1 that its initiator connects from, over TCP.
    pub peer_port: Option<u16>,
    /// The name of its initiator.
    pub initiator: String,
}
