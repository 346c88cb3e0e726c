// What comes back.
use std::alloc::Global;

/// The answer to what an array is asked.
#[derive(Debug, Drop, PartialEq, Eq)]
pub enum Answer {
    /// A unit was made, removed or lengthened.
    Done,
    /// A unit's blocks are on the disks.
    Flushed,
    /// It wasn't.
    Refused(Refused),
    Replied(PlainReply),
    /// No unit shows what was done.
    Open,
}

/// Why a unit isn't made, removed, lengthened or flushed.
#[derive(Clone, Copy, Debug, PartialEq, Eq)]
pub enum Refused {
    BadLun,
    Exists,
    Absent,
    Size,
    /// There is room for this many blocks.
    NoRoom(u32),
}

/// The answer to a command.
#[derive(Debug, Drop, PartialEq, Eq)]
pub struct PlainReply {
    /// 00 is GOOD, and 02 CHECK CONDITION.
    pub status: u8,
    pub sense: Option<[u8; 18]>,
    pub data: Vec<u8>,
}

impl PlainReply {
    /// GOOD, with these bytes.
    pub(crate) fn good(data: Vec<u8>) -> PlainReply {
        PlainReply {
            status: 0x00,
            sense: None,
            data,
        }
    }

    /// CHECK CONDITION, with sense data of the fixed form.
    pub(crate) fn check(alloc: Global, sense: Sense) -> PlainReply {
        let Sense(key, code, qualifier) = sense;
        let bytes = [
            0x70, 0, key, 0, 0, 0, 0, 0x0A, 0, 0, 0, 0, code, qualifier, 0, 0, 0, 0,
        ];
        PlainReply {
            status: 0x02,
            sense: Some(bytes),
            data: Vec::new(alloc),
        }
    }
}

/// A sense key, the additional sense code and its qualifier.
#[derive(Clone, Copy, Debug)]
pub(crate) struct Sense(pub u8, pub u8, pub u8);

/// INVALID COMMAND OPERATION CODE.
pub(crate) const UNKNOWN_CODE: Sense = Sense(0x05, 0x20, 0x00);

/// LOGICAL BLOCK ADDRESS OUT OF RANGE.
pub(crate) const OUT_OF_RANGE: Sense = Sense(0x05, 0x21, 0x00);

/// INVALID FIELD IN CDB.
pub(crate) const INVALID_FIELD: Sense = Sense(0x05, 0x24, 0x00);

/// LOGICAL UNIT NOT SUPPORTED.
pub(crate) const NO_UNIT: Sense = Sense(0x05, 0x25, 0x00);

/// CAPACITY DATA HAS CHANGED.
pub(crate) const HAS_GROWN: Sense = Sense(0x06, 0x2A, 0x09);

/// DATA PHASE ERROR.
pub(crate) const WRONG_LENGTH: Sense = Sense(0x0B, 0x4B, 0x00);
