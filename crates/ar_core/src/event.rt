// The events of an array and their outcomes. `Make`, `Grow`, `Remove`, `Cmd` and `Unmap` are a unit's own; every other
// one is a maintenance event, and until data loss changes no unit's contents.
use ar_balance::Balance;
use ar_disks::{Addr, Host};
use ar_moves::Move;
use ar_rebuild::Rebuild;
use ar_scsi::Reply;
use ar_volume::{Flush, NewDisk, PartFlush, Refusal};
use bytes::Bytes;

/// An event of an array of disks of type `D`.
pub type Event<D> = EventOf<NewDisk<D>>;

/// The outcome of an event of such an array.
pub type Outcome<D> = OutcomeOf<NewDisk<D>>;

/// An event of an array; `N` is the type that represents a disk passed in.
#[derive(Debug, Drop)]
pub enum EventOf<N> {
    /// Creates a unit with a length in sectors, 1 to 1,048,576, all zero.
    Make(Addr, u32),
    /// Extends a unit by zero sectors to a new length in sectors, at most 1,048,576. Its next command other than
    /// INQUIRY is terminated with UNIT ATTENTION, CAPACITY DATA HAS CHANGED.
    Grow(Addr, u32),
    /// Deletes a unit.
    Remove(Addr),
    /// Executes a host's command to one of its LUNs: the CDB, padded with zeros to 16 bytes, and the data-out.
    Cmd {
        host: Host,
        lun: u8,
        cdb: [u8; 16],
        payload: Bytes,
    },
    /// Discards sectors of a unit for its host, `count` from an LBA on (UNMAP, SBC-3): they are zeros afterwards, and
    /// blocks of which all sectors are discarded give their slots back. It is answered as a WRITE of the sectors, never
    /// by BUSY.
    Unmap(Addr, u64, u32),
    /// Destages the least recently used block of the cache.
    Flush,
    /// Destages those of 64 blocks of a unit that are cached, from this block on, for a host that requests it of all by
    /// SYNCHRONIZE CACHE (SBC-2).
    FlushPart(Addr, u32),
    /// Moves the least recently written mirrored block to a parity group.
    Demote,
    /// Moves one block out of the emptiest group whose blocks all fit in the other groups of its class.
    Clean,
    /// Forms a group of unassigned extents, or moves a group's member to a disk that has more of them.
    Balance,
    /// Adds a disk, all of whose extents are unassigned (`loose`).
    AddDisk(N),
    /// Takes a disk `out`, by its number: it counts as failed, as after a fault.
    DiskOut(u8),
    /// Replaces the failed disk of this number, drops the old disk, and starts the rebuild.
    Replace(u8, N),
    /// Rebuilds one extent of the replaced disk.
    Rebuild,
}

/// The outcome of an event, under the event's name. A refused disk is returned.
#[derive(Debug, Drop, PartialEq, Eq)]
pub enum OutcomeOf<N> {
    Make(Result<(), Refusal>),
    Grow(Result<(), Refusal>),
    Remove(Result<(), Refusal>),
    Cmd(Reply),
    Unmap(Reply),
    Flush(Flush),
    FlushPart(PartFlush),
    Demote(Move),
    Clean(Move),
    Balance(Balance),
    AddDisk(Result<(), (Refusal, N)>),
    DiskOut(Result<(), Refusal>),
    Replace(Result<(), (Refusal, N)>),
    Rebuild(Rebuild),
}
