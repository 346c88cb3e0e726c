// Why a unit isn't created, resized or deleted.
use std::fmt;
use std::fmt::{Display, Formatter};
use thiserror::Error;

/// Why a create (`make`), resize (`grow`) or delete (`drop`) failed. It has changed nothing.
#[derive(Clone, Copy, Debug, PartialEq, Eq, Error)]
pub enum Refusal {
    /// A unit has this address.
    Exists,
    /// The length is 0 or above 1,048,576 sectors, or a resize doesn't extend the unit.
    Size,
    /// The new blocks exceed the room, which it carries, in blocks.
    NoRoom(u32),
    /// The allocation of the tables fails.
    NoMemory,
    /// No unit has this address.
    Absent,
    /// The LUN is above 7.
    BadLun,
}

// Written by hand: no contract states the text that a derived one writes.
impl Display for Refusal {
    ghost use Rattle.std.specs.Prelude.{Some};
    ghost use Rattle.ar_book.specs.Texts.{unit_refusal_text};

    ghost output = { λ refusal. Some (unit_refusal_text refusal) };

    fn fmt<W: fmt::Write>(&self, f: &mut Formatter<W>) -> fmt::Result {
        match *self {
            Refusal::Exists => f.write_str("M1 Exists"),
            Refusal::Size => f.write_str("M2 Size"),
            Refusal::NoRoom(room) => write!(f, "M3 NoRoom {room}"),
            Refusal::NoMemory => f.write_str("M4 NoMemory"),
            Refusal::Absent => f.write_str("M5 Absent"),
            Refusal::BadLun => f.write_str("M7 BadLun"),
        }
    }
}
