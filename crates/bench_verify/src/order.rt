// The commands that a host sends, and which of them are refused.
use ar_scsi::Sense;
use std::fmt;
use std::fmt::{Display, Formatter, Write};
use std::ops::Range;

/// Sectors of a unit, one after another.
#[derive(Clone, Copy, Debug, PartialEq, Eq)]
pub struct Span {
    pub lba: u64,
    pub count: u16,
}

/// The length of a command block.
#[derive(Clone, Copy, Debug, PartialEq, Eq)]
pub enum Form {
    Ten,
    Sixteen,
}

/// A command.
#[derive(Clone, Copy, Debug, PartialEq, Eq)]
pub enum Order {
    TestReady,
    Capacity,
    Read { span: Span, form: Form },
    Write { span: Span, form: Form, fua: bool },
    /// A WRITE (10) whose data lack the last sector: it is refused, and writes nothing.
    ShortWrite(Span),
    /// A command that the array doesn't have.
    Unknown,
}

const READ_CAPACITY_10: u8 = 0x25;

const READ_10: u8 = 0x28;

const WRITE_10: u8 = 0x2A;

const READ_16: u8 = 0x88;

const WRITE_16: u8 = 0x8A;

/// START STOP UNIT.
const NOT_SUPPORTED: u8 = 0x1B;

/// The bit of byte 1 for FORCE UNIT ACCESS.
const FUA: u8 = 0x08;

impl Span {
    /// The sectors that a unit of any size may have.
    pub fn sectors(self) -> Range<u32> {
        let first = self.first();
        first..first.saturating_add(u32::from(self.count))
    }

    /// The first sector.
    pub fn first(self) -> u32 {
        u32::try_from(self.lba).unwrap_or(u32::MAX)
    }

    // Whether a unit of `sectors` sectors has all of them.
    fn is_within(self, sectors: u32) -> bool {
        self.lba.saturating_add(u64::from(self.count)) <= u64::from(sectors)
    }

    fn command_block(self, form: Form, ten: u8, sixteen: u8, flags: u8) -> [u8; 16] {
        let [high, low] = self.count.to_be_bytes();
        match form {
            Form::Ten => {
                let [a, b, c, d] = self.first().to_be_bytes();
                [ten, flags, a, b, c, d, 0, high, low, 0, 0, 0, 0, 0, 0, 0]
            }
            Form::Sixteen => {
                let [a, b, c, d, e, f, g, h] = self.lba.to_be_bytes();
                [
                    sixteen, flags, a, b, c, d, e, f, g, h, 0, 0, high, low, 0, 0,
                ]
            }
        }
    }
}

impl Order {
    /// The command block, padded with zeros.
    pub fn command_block(self) -> [u8; 16] {
        match self {
            Order::TestReady => [0; 16],
            Order::Capacity => only(READ_CAPACITY_10),
            Order::Unknown => only(NOT_SUPPORTED),
            Order::Read { span, form } => span.command_block(form, READ_10, READ_16, 0),
            Order::Write { span, form, fua } => {
                let flags = if fua { FUA } else { 0 };
                span.command_block(form, WRITE_10, WRITE_16, flags)
            }
            Order::ShortWrite(span) => span.command_block(Form::Ten, WRITE_10, WRITE_16, 0),
        }
    }

    /// The sectors of data that are sent with the command, those of `span`'s first ones.
    pub fn sent(self) -> Span {
        match self {
            Order::Write { span, .. } => span,
            Order::ShortWrite(span) => Span {
                lba: span.lba,
                count: span.count.saturating_sub(1),
            },
            _ => Span { lba: 0, count: 0 },
        }
    }

    /// Why a unit of `sectors` sectors refuses the command, if it does.
    pub fn refusal(self, sectors: u32) -> Option<Sense> {
        match self {
            Order::TestReady | Order::Capacity => None,
            Order::Unknown => Some(Sense::INVALID_COMMAND_OPERATION_CODE),
            Order::Read { span, .. } | Order::Write { span, .. } if span.is_within(sectors) => None,
            Order::ShortWrite(span) if span.is_within(sectors) => Some(Sense::DATA_PHASE_ERROR),
            _ => Some(Sense::LOGICAL_BLOCK_ADDRESS_OUT_OF_RANGE),
        }
    }

    /// Whether an array that has failed can't do the command.
    pub fn needs_disks(self) -> bool {
        matches!(
            self,
            Order::TestReady | Order::Read { .. } | Order::Write { .. }
        )
    }
}

// A command block of an operation code alone.
fn only(code: u8) -> [u8; 16] {
    let mut block = [0; 16];
    block[0] = code;
    block
}

impl Display for Order {
    fn fmt<W: Write>(&self, f: &mut Formatter<W>) -> fmt::Result {
        match self {
            Order::TestReady => write!(f, "TEST UNIT READY"),
            Order::Capacity => write!(f, "READ CAPACITY"),
            Order::Read { span, form } => write!(f, "READ ({form}) {span}"),
            Order::Write { span, form, fua } if *fua => write!(f, "WRITE ({form}) {span} FUA"),
            Order::Write { span, form, .. } => write!(f, "WRITE ({form}) {span}"),
            Order::ShortWrite(span) => write!(f, "WRITE (10) {span} with a sector too few"),
            Order::Unknown => write!(f, "START STOP UNIT"),
        }
    }
}

impl Display for Span {
    fn fmt<W: Write>(&self, f: &mut Formatter<W>) -> fmt::Result {
        let Span { lba, count } = *self;
        write!(f, "{lba} {count}")
    }
}

impl Display for Form {
    fn fmt<W: Write>(&self, f: &mut Formatter<W>) -> fmt::Result {
        match self {
            Form::Ten => write!(f, "10"),
            Form::Sixteen => write!(f, "16"),
        }
    }
}
