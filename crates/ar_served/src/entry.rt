// Entries of the history and exchanges of a transcript. Data and replies are shared between the two, not copied.
use ar_disks::{Addr, Host};
use ar_scsi::Reply;
use bytes::Bytes;

/// A command to one of a host's LUNs, with its data-out and its reply.
#[derive(Debug, Drop, PartialEq, Eq)]
pub struct Exchange {
    pub lun: u8,
    /// The CDB, padded with zeros.
    pub cdb: [u8; 16],
    pub payload: Bytes,
    pub reply: Reply,
}

/// An entry of the history: what was done to a unit.
#[derive(Debug, Drop, PartialEq, Eq)]
pub enum Entry {
    /// A unit was created with a length in sectors.
    Make(Addr, u32),
    /// A unit was extended to a new length in sectors.
    Grow(Addr, u32),
    /// A unit was deleted.
    Remove(Addr),
    /// A host's command had a reply other than BUSY.
    Cmd(Host, Exchange),
    /// Sectors of a unit were discarded for its host, `count` from an LBA on. The reply isn't stored, nor is the
    /// discard in a transcript: what it was is a matter of the entries before it (`unmap_answer`).
    Unmap(Addr, u64, u32),
}
