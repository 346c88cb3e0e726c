// Kinds of answers, and how often each came.
use crate::answer::{Answer, PlainReply, Refused};
use crate::draw::Ask;

/// A kind of answer.
#[derive(Clone, Copy, Debug, PartialEq, Eq)]
pub enum Kind {
    Made,
    Removed,
    Grown,
    BadLun,
    Exists,
    Absent,
    Size,
    NoRoom,
    /// GOOD, without bytes.
    Good,
    /// GOOD, with the data of INQUIRY or READ CAPACITY.
    Info,
    /// GOOD, with the data of INQUIRY where no unit is.
    InfoNowhere,
    /// GOOD, with sectors of zeros.
    Zeros,
    /// GOOD, with sectors of which a byte isn't zero.
    Data,
    UnknownCode,
    OutOfRange,
    InvalidField,
    NoUnit,
    HasGrown,
    WrongLength,
    /// GOOD, to a discard.
    Discarded,
    /// Work in the background that moved a block, by what it was.
    Flushed,
    Demoted,
    Cleaned,
    /// Balancing, and a step of a rebuild.
    Balanced,
    Rebuilt,
    /// Work in the background that found nothing to do.
    Idle,
    /// What sound disks and ample memory never give.
    Other,
}

/// What a run on whole disks meets, whatever the cache.
const KINDS: [Kind; 22] = [
    Kind::Made,
    Kind::Removed,
    Kind::Grown,
    Kind::BadLun,
    Kind::Exists,
    Kind::Absent,
    Kind::Size,
    Kind::NoRoom,
    Kind::Good,
    Kind::Info,
    Kind::InfoNowhere,
    Kind::Zeros,
    Kind::Data,
    Kind::UnknownCode,
    Kind::OutOfRange,
    Kind::InvalidField,
    Kind::NoUnit,
    Kind::HasGrown,
    Kind::WrongLength,
    Kind::Demoted,
    Kind::Cleaned,
    Kind::Idle,
];

impl Kind {
    /// The kind of an answer. What work in the background did only the array reports.
    pub fn of(ask: &Ask, answer: &Answer) -> Kind {
        match (ask, answer) {
            (Ask::Make(..), Answer::Done) => Kind::Made,
            (Ask::Remove(_), Answer::Done) => Kind::Removed,
            (Ask::Grow(..), Answer::Done) => Kind::Grown,
            (_, Answer::Refused(refused)) => refused_kind(*refused),
            (Ask::Unmap(..), Answer::Replied(PlainReply { sense: None, .. })) => Kind::Discarded,
            (_, Answer::Replied(reply)) => reply_kind(reply),
            _ => Kind::Other,
        }
    }
}

fn refused_kind(refused: Refused) -> Kind {
    match refused {
        Refused::BadLun => Kind::BadLun,
        Refused::Exists => Kind::Exists,
        Refused::Absent => Kind::Absent,
        Refused::Size => Kind::Size,
        Refused::NoRoom(_) => Kind::NoRoom,
    }
}

fn reply_kind(reply: &PlainReply) -> Kind {
    match &reply.sense {
        None => data_kind(&reply.data),
        Some(sense) => sense_kind(sense),
    }
}

fn data_kind(data: &[u8]) -> Kind {
    match data.len() {
        0 => Kind::Good,
        1..=36 => info_kind(data[0]),
        _ => sectors_kind(data),
    }
}

fn info_kind(first: u8) -> Kind {
    if first == 0x7F {
        Kind::InfoNowhere
    } else {
        Kind::Info
    }
}

fn sectors_kind(data: &[u8]) -> Kind {
    if data.iter().all(|byte| *byte == 0) {
        Kind::Zeros
    } else {
        Kind::Data
    }
}

fn sense_kind(sense: &[u8; 18]) -> Kind {
    match (sense[2], sense[12], sense[13]) {
        (0x05, 0x20, 0x00) => Kind::UnknownCode,
        (0x05, 0x21, 0x00) => Kind::OutOfRange,
        (0x05, 0x24, 0x00) => Kind::InvalidField,
        (0x05, 0x25, 0x00) => Kind::NoUnit,
        (0x06, 0x2A, 0x09) => Kind::HasGrown,
        (0x0B, 0x4B, 0x00) => Kind::WrongLength,
        _ => Kind::Other,
    }
}

/// How often an answer of each kind came.
#[derive(Clone, Copy, Debug)]
pub struct Tally {
    counts: [u32; 27],
}

impl Tally {
    /// None came.
    pub fn new() -> Tally {
        Tally { counts: [0; 27] }
    }

    /// One more of a kind came.
    pub fn add(&mut self, kind: Kind) {
        if let Some(count) = self.counts.get_mut(kind as usize) {
            *count = count.saturating_add(1);
        }
    }

    /// How many of a kind came.
    pub fn count(&self, kind: Kind) -> u32 {
        self.counts.get(kind as usize).copied().unwrap_or(0)
    }

    /// The kind, with its count, that makes a run wrong or show too little: one that healthy disks return with any
    /// cache, if fewer than `wanted` came; `Flushed`, if as many came without a cache or fewer with one; any `Other`.
    pub fn flaw(&self, wanted: u32, is_cached: bool) -> Option<(Kind, u32)> {
        let kind = match self.lacks(wanted) {
            Some(kind) => kind,
            None if (self.count(Kind::Flushed) >= wanted) != is_cached => Kind::Flushed,
            None if self.count(Kind::Other) > 0 => Kind::Other,
            None => return None,
        };
        Some((kind, self.count(kind)))
    }

    // The first kind that sound disks and any cache give, of which fewer came than this.
    fn lacks(&self, wanted: u32) -> Option<Kind> {
        for kind in KINDS {
            if self.count(kind) < wanted {
                return Some(kind);
            }
        }
        None
    }
}
