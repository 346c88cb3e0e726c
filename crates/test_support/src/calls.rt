// Calls of an array, and what they return: the rows of tables.
use crate::asked::event_of_work;
use crate::draw::Work;
use crate::shape::Shape;
use ar_core::{
    Balance, Event, EventOf, Flush, Move, OutcomeOf, PartFlush, Rebuild, Refusal, UnitRefusal,
};
use ar_disks::{Addr, FuseDisk, Host};
use ar_scsi::{Reply, Sense, Status, sense18};
use bytes::Bytes;
use std::alloc::{AllocError, Global};

/// A call of an array. The first two numbers of those to a unit are its host and its LUN.
#[derive(Clone, Copy, Debug)]
pub enum Call {
    /// Creates a unit of this many sectors.
    Make(u8, u8, u32),
    /// Resizes it to this many.
    Grow(u8, u8, u32),
    /// Deletes it.
    Remove(u8, u8),
    /// Destages those of 64 of its blocks that are cached, from a block on.
    FlushPart(u8, u8, u32),
    /// WRITE (10): address, sectors, and the byte of all of them.
    Write(u8, u8, u8, u8, u8),
    /// The same with FORCE UNIT ACCESS.
    Force(u8, u8, u8, u8, u8),
    /// READ (10) of two sectors from an address on.
    Read(u8, u8, u8),
    /// Discards sectors: address, and how many.
    Unmap(u8, u8, u64, u32),
    /// TEST UNIT READY.
    Ready(u8, u8),
    /// The first ten bytes of another command block, without data.
    Command(u8, u8, [u8; 10]),
    Work(Work),
    AddDisk,
    DiskOut(u8),
    /// Replaces a disk by one that doesn't fault.
    Replace(u8),
}

/// What a call returns.
#[derive(Clone, Copy, Debug, PartialEq, Eq)]
pub enum Return {
    /// A unit or a disk is changed, or a unit's last part is on the disks.
    Done,
    /// A part of a unit is on the disks, and the next begins at this block.
    More(u32),
    Refused(Refusal),
    /// GOOD, without bytes.
    Good,
    /// GOOD, with one byte, five or eight.
    One(u8),
    Five([u8; 5]),
    Eight([u8; 8]),
    /// GOOD, with two sectors, of one byte each.
    Sectors(u8, u8),
    /// CHECK CONDITION.
    Check(Sense),
    Busy,
    /// A block of a host's unit 0 is flushed.
    Flushed(u8, u32),
    /// A block of host 0's unit 0 is moved to a slot of a group.
    Moved(u32, u32, u16),
    /// There is nothing to flush or to move.
    Idle,
    /// Nothing is flushed or moved, since two disks are missing.
    Broken,
    Balance(Balance),
    Rebuild(Rebuild),
    /// Anything else.
    Other,
}

/// A call, and what it is to return.
pub type Row = (Call, Return);

/// The unit of a host at a LUN. There are four hosts.
pub fn unit_of(host: u8, lun: u8) -> Addr {
    let host = Host::new(host % 4).unwrap();
    Addr { host, lun }
}

/// A command block of ten bytes, padded.
pub fn block(bytes: [u8; 10]) -> [u8; 16] {
    let [a, b, c, d, e, f, g, h, i, j] = bytes;
    [a, b, c, d, e, f, g, h, i, j, 0, 0, 0, 0, 0, 0]
}

/// Sectors of one byte.
pub fn filled(alloc: Global, count: u8, byte: u8) -> Result<Bytes, AllocError> {
    Ok(Bytes::from_vec(vec![in alloc; byte; usize::from(count) * 512]?)?)
}

/// The event that a call is, on an array of this shape.
pub fn event(alloc: Global, shape: Shape, call: Call) -> Result<Event<FuseDisk>, AllocError> {
    Ok(match call {
        Call::Make(host, lun, sectors) => EventOf::Make(unit_of(host, lun), sectors),
        Call::Grow(host, lun, sectors) => EventOf::Grow(unit_of(host, lun), sectors),
        Call::Remove(host, lun) => EventOf::Remove(unit_of(host, lun)),
        Call::FlushPart(host, lun, first) => EventOf::FlushPart(unit_of(host, lun), first),
        Call::Unmap(host, lun, lba, count) => EventOf::Unmap(unit_of(host, lun), lba, count),
        Call::Work(work) => event_of_work(work),
        Call::AddDisk => EventOf::AddDisk(shape.new_disk(alloc, u64::MAX)?),
        Call::DiskOut(number) => EventOf::DiskOut(number),
        Call::Replace(number) => EventOf::Replace(number, shape.new_disk(alloc, u64::MAX)?),
        command => command_event(alloc, command)?,
    })
}

fn command_event(alloc: Global, call: Call) -> Result<Event<FuseDisk>, AllocError> {
    Ok(match call {
        Call::Write(host, lun, lba, count, byte) => {
            write(
                alloc,
                unit_of(host, lun),
                [0x2A, 0, 0, 0, 0, lba, 0, 0, count, 0],
                byte,
            )?
        }
        Call::Force(host, lun, lba, count, byte) => {
            write(
                alloc,
                unit_of(host, lun),
                [0x2A, 8, 0, 0, 0, lba, 0, 0, count, 0],
                byte,
            )?
        }
        Call::Read(host, lun, lba) => {
            command(
                unit_of(host, lun),
                [0x28, 0, 0, 0, 0, lba, 0, 0, 2, 0],
                Bytes::new(),
            )
        }
        Call::Command(host, lun, bytes) => command(unit_of(host, lun), bytes, Bytes::new()),
        Call::Ready(host, lun) => command(unit_of(host, lun), [0; 10], Bytes::new()),
        _ => EventOf::Flush,
    })
}

fn write(
    alloc: Global,
    addr: Addr,
    bytes: [u8; 10],
    byte: u8,
) -> Result<Event<FuseDisk>, AllocError> {
    Ok(command(addr, bytes, filled(alloc, bytes[8], byte)?))
}

fn command(addr: Addr, bytes: [u8; 10], payload: Bytes) -> Event<FuseDisk> {
    EventOf::Cmd {
        host: addr.host,
        lun: addr.lun,
        cdb: block(bytes),
        payload,
    }
}

/// What an array returned.
pub fn returned<N>(outcome: &OutcomeOf<N>) -> Return {
    match outcome {
        OutcomeOf::Cmd(reply) | OutcomeOf::Unmap(reply) => returned_of(reply),
        OutcomeOf::Make(done)
        | OutcomeOf::Grow(done)
        | OutcomeOf::Remove(done)
        | OutcomeOf::DiskOut(done) => match *done {
            Ok(()) => Return::Done,
            Err(refusal) => Return::Refused(refusal),
        },
        OutcomeOf::AddDisk(done) | OutcomeOf::Replace(done) => match done {
            Ok(()) => Return::Done,
            Err((refusal, _)) => Return::Refused(*refusal),
        },
        OutcomeOf::Flush(flush) => flushed(*flush),
        OutcomeOf::FlushPart(flush) => part_flushed(*flush),
        OutcomeOf::Demote(moved) | OutcomeOf::Clean(moved) => moved_to(*moved),
        OutcomeOf::Balance(balance) => Return::Balance(*balance),
        OutcomeOf::Rebuild(rebuild) => Return::Rebuild(*rebuild),
    }
}

fn flushed(flush: Flush) -> Return {
    match flush {
        Flush::Flushed(key) if key.addr.lun == 0 => {
            Return::Flushed(key.addr.host.number(), key.rb)
        }
        Flush::Flushed(_) => Return::Other,
        Flush::Idle => Return::Idle,
        Flush::Broken => Return::Broken,
    }
}

fn part_flushed(flush: PartFlush) -> Return {
    match flush {
        PartFlush::Done => Return::Done,
        PartFlush::More(next) => Return::More(next),
        PartFlush::Absent => Return::Refused(Refusal::Unit(UnitRefusal::Absent)),
        PartFlush::Broken => Return::Broken,
    }
}

fn moved_to(moved: Move) -> Return {
    match moved {
        Move::Moved { key, to } if key.addr == unit_of(0, 0) => {
            Return::Moved(key.rb, to.group, to.slot)
        }
        Move::Moved { .. } => Return::Other,
        Move::Idle => Return::Idle,
        Move::Broken => Return::Broken,
    }
}

/// What a command returned.
pub fn returned_of(reply: &Reply) -> Return {
    match (reply.status, &reply.sense) {
        (Status::Good, None) => returned_data(reply.payload.as_slice()),
        (Status::CheckCondition, Some(sense)) if reply.payload.is_empty() => checked(sense),
        (Status::Busy, None) if reply.payload.is_empty() => Return::Busy,
        _ => Return::Other,
    }
}

fn returned_data(bytes: &[u8]) -> Return {
    match *bytes {
        [] => Return::Good,
        [one] => Return::One(one),
        [a, b, c, d, e] => Return::Five([a, b, c, d, e]),
        [a, b, c, d, e, f, g, h] => Return::Eight([a, b, c, d, e, f, g, h]),
        _ => returned_sectors(bytes),
    }
}

fn returned_sectors(bytes: &[u8]) -> Return {
    match bytes.split_at_checked(512) {
        Some((one, other)) if other.len() == 512 && is_filled(one) && is_filled(other) => {
            Return::Sectors(one[0], other[0])
        }
        _ => Return::Other,
    }
}

/// Whether bytes are all the same.
pub fn is_filled(bytes: &[u8]) -> bool {
    for byte in bytes {
        if *byte != bytes[0] {
            return false;
        }
    }
    true
}

/// The senses that are named in tables.
const SENSES: [Sense; 6] = [
    Sense::INVALID_COMMAND_OPERATION_CODE,
    Sense::INVALID_FIELD_IN_CDB,
    Sense::LOGICAL_BLOCK_ADDRESS_OUT_OF_RANGE,
    Sense::LOGICAL_UNIT_NOT_SUPPORTED,
    Sense::CAPACITY_DATA_HAS_CHANGED,
    Sense::INTERNAL_TARGET_FAILURE,
];

fn checked(bytes: &[u8; 18]) -> Return {
    for sense in SENSES {
        if *bytes == sense18(sense) {
            return Return::Check(sense);
        }
    }
    Return::Other
}
