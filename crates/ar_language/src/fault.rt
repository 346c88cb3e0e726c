// The faults that end a script. Each but that of the start has the number of a line.
use std::fmt;
use std::fmt::{Display, Formatter};
use thiserror::Error;

/// What is wrong with a line, with the input or with the output.
#[derive(Clone, Copy, Debug, PartialEq, Eq, Error)]
pub enum FaultKind {
    /// The line's first word names no order.
    UnknownWord,
    /// Too few or too many words, a word of the wrong form or out of its range, or a space too many.
    BadArgument,
    /// The line has more than 4,096 bytes.
    LineTooLong,
    /// The script has more than 1,000,000 lines.
    TooManyLines,
    /// The line has a byte other than the printable characters of ASCII, space to `~`.
    BadCharacter,
    /// An allocation failed.
    NoMemory,
    /// The input couldn't be read. An interruption is such a fault, too.
    ReadFault,
    /// The output couldn't be written.
    WriteFault,
}

// (By hand: the text that a derived `Display` writes is not specified.)
impl Display for FaultKind {
    ghost use Rattle.std.specs.Prelude.{Some};
    ghost use Rattle.ar_language.specs.Texts.{fault_kind_text};

    ghost output = { λ kind. Some (fault_kind_text kind) };

    fn fmt<W: fmt::Write>(&self, f: &mut Formatter<W>) -> fmt::Result {
        f.write_str(match self {
            FaultKind::UnknownWord => "unknown word",
            FaultKind::BadArgument => "bad argument",
            FaultKind::LineTooLong => "line too long",
            FaultKind::TooManyLines => "too many lines",
            FaultKind::BadCharacter => "bad character",
            FaultKind::NoMemory => "no memory",
            FaultKind::ReadFault => "read fault",
            FaultKind::WriteFault => "write fault",
        })
    }
}

/// Why a script ended before its last line.
#[derive(Clone, Copy, Debug, PartialEq, Eq, Error)]
pub enum Fault {
    /// The array couldn't be started, or its disks or a row of them couldn't be allocated. No line was read.
    #[error("start fault")]
    Start,
    /// What went wrong at a line, by its number from 1.
    #[error("line {line}: {kind}")]
    Line { line: u32, kind: FaultKind },
}
