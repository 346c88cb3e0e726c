// What a host got, and what of it was wrong.
use crate::order::Order;
use crate::shadow::Mismatch;
use ar_frames::AskFault;
use ar_scsi::{Reply, Sense, Status};
use std::fmt;
use std::fmt::{Display, Formatter, Write};
use thiserror::Error;

/// What a reply says beside its data.
#[derive(Clone, Copy, Debug, PartialEq, Eq)]
pub enum ReplyStatus {
    Good,
    Busy,
    Check(Sense),
    /// CHECK CONDITION without sense data.
    Nothing,
}

/// Why a host ends before all its requests are done.
#[derive(Clone, Copy, Debug, Error)]
pub enum Finding {
    /// A session of the host is open.
    #[error("login refused")]
    Refused,
    /// The session ended early, or a reply is no frame or has another tag.
    #[error("session fault {0:?}")]
    Session(AskFault),
    #[error("no memory")]
    NoMemory,
    /// A reply of another status or sense than the unit has to give.
    #[error("LUN {lun} {order}: wanted {wanted}, found {found}")]
    Reply {
        lun: u8,
        order: Order,
        wanted: ReplyStatus,
        found: ReplyStatus,
    },
    /// A GOOD reply with too few or too many bytes of data.
    #[error("LUN {lun} {order}: wanted {wanted} bytes, found {found}")]
    Length {
        lun: u8,
        order: Order,
        wanted: usize,
        found: usize,
    },
    /// READ CAPACITY named another last sector, or another length of sectors, than the unit has.
    #[error("LUN {lun} READ CAPACITY: wanted last {wanted} of 512 bytes, found last {found} of {length}")]
    Capacity {
        lun: u8,
        wanted: u32,
        found: u32,
        length: u32,
    },
    /// The capacity was said to have changed, and hasn't grown.
    #[error("LUN {lun} CAPACITY DATA HAS CHANGED: had {had} sectors, found {found}")]
    NotGrown {
        lun: u8,
        had: u32,
        found: u32,
    },
    /// A READ's data are not what was written.
    #[error("LUN {lun} {order}: {mismatch}")]
    Content {
        lun: u8,
        order: Order,
        mismatch: Mismatch,
    },
}

impl Finding {
    /// Whether the array was wrong, and not the session or this program's memory.
    pub fn is_difference(&self) -> bool {
        !matches!(
            self,
            Finding::Refused | Finding::Session(_) | Finding::NoMemory
        )
    }
}

impl ReplyStatus {
    /// The unit has grown.
    pub const CHANGED: ReplyStatus = ReplyStatus::Check(Sense::CAPACITY_DATA_HAS_CHANGED);

    /// The array has failed.
    pub const BROKEN: ReplyStatus = ReplyStatus::Check(Sense::INTERNAL_TARGET_FAILURE);

    /// There is no unit.
    pub const ABSENT: ReplyStatus = ReplyStatus::Check(Sense::LOGICAL_UNIT_NOT_SUPPORTED);

    pub fn of(reply: &Reply) -> ReplyStatus {
        match reply.status {
            Status::Good => ReplyStatus::Good,
            Status::Busy => ReplyStatus::Busy,
            Status::CheckCondition => reported_by(&reply.sense),
        }
    }
}

// What fixed format sense data say.
fn reported_by(sense: &Option<[u8; 18]>) -> ReplyStatus {
    match sense {
        None => ReplyStatus::Nothing,
        Some(bytes) => ReplyStatus::Check(Sense {
            key: bytes[2] % 16,
            asc: bytes[12],
            ascq: bytes[13],
        }),
    }
}

impl Display for ReplyStatus {
    fn fmt<W: Write>(&self, f: &mut Formatter<W>) -> fmt::Result {
        match self {
            ReplyStatus::Good => write!(f, "good"),
            ReplyStatus::Busy => write!(f, "busy"),
            ReplyStatus::Nothing => write!(f, "check"),
            ReplyStatus::Check(Sense { key, asc, ascq }) => {
                write!(f, "check {key:02X}/{asc:02X}/{ascq:02X}")
            }
        }
    }
}
