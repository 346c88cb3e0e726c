// Says what is wrong with a faulty line: the word, its column, and what is wanted there. It goes by a table of the
// forms of all lines, which is also their help.
use crate::scan::is_printable;
use crate::words::{MOST_WORDS, block, byte, first_words};
use ar_numbers::{number, sectors};
use std::fmt::{Display, Formatter};
use std::{fmt, str};

/// The most bytes of a line, without its line feed.
const LINE_MAX: usize = 4_096;

/// What an argument has to be.
#[derive(Clone, Copy, Debug, PartialEq, Eq)]
pub enum Wanted {
    /// A number from 0 to this one.
    Number(u64),
    /// A size in sectors, or with a letter.
    Size,
    /// Two hexadecimal digits.
    Byte,
    /// A command block in hexadecimal digits.
    Block,
    /// The word `fua`.
    Fua,
}

/// An argument: its name in the form of the line, and what it has to be.
#[derive(Clone, Copy, Debug, PartialEq, Eq)]
pub struct Argument(pub &'static str, pub Wanted);

/// A form of lines: the first word, the arguments, how many of them are required (otherwise all are), the line as its
/// help shows it, and what it does.
#[derive(Clone, Copy, Debug)]
pub struct LineForm(
    pub &'static str,
    pub &'static [Argument],
    pub usize,
    pub &'static str,
    pub &'static str,
);

/// What is wrong with a line. Columns are counted from 1, in bytes.
#[derive(Clone, Copy, Debug)]
pub enum Explanation<'a> {
    /// A byte that no line has.
    Character {
        column: usize,
        byte: u8,
    },
    /// A space before the first word, after the last, or beside another.
    Space {
        column: usize,
    },
    /// The first word begins no line.
    Unknown {
        word: &'a str,
    },
    /// An argument isn't what it has to be.
    Wrong {
        column: usize,
        word: &'a str,
        argument: Argument,
        usage: &'static str,
    },
    /// An argument is missing.
    Missing {
        column: usize,
        argument: Argument,
        usage: &'static str,
    },
    /// There is a word after the last argument.
    TooMany {
        column: usize,
        word: &'a str,
        usage: &'static str,
    },
}

const HOST: Argument = Argument("H", Wanted::Number(3));

const LUN: Argument = Argument("L", Wanted::Number(255));

const SIZE: Argument = Argument("SIZE", Wanted::Size);

const LBA: Argument = Argument("LBA", Wanted::Number(4_294_967_295));

/// An LBA of ten digits.
const LONG_LBA: Argument = Argument("LBA", Wanted::Number(9_999_999_999));

const COUNT: Argument = Argument("COUNT", Wanted::Number(65_535));

const LONG_COUNT: Argument = Argument("COUNT", Wanted::Number(4_294_967_295));

const BYTE: Argument = Argument("BYTE", Wanted::Byte);

const FUA: Argument = Argument("fua", Wanted::Fua);

const DISK: Argument = Argument("D", Wanted::Number(255));

static FORMS: [LineForm; 27] = [
    LineForm(
        "make",
        &[HOST, LUN, SIZE],
        3,
        "make H L SIZE",
        "create a unit",
    ),
    LineForm(
        "grow",
        &[HOST, LUN, SIZE],
        3,
        "grow H L SIZE",
        "extend a unit",
    ),
    LineForm("drop", &[HOST, LUN], 2, "drop H L", "delete a unit"),
    LineForm("tur", &[HOST, LUN], 2, "tur H L", "TEST UNIT READY"),
    LineForm(
        "inquiry",
        &[HOST, LUN, Argument("LEN", Wanted::Number(65_535))],
        3,
        "inquiry H L LEN",
        "INQUIRY, for at most LEN bytes",
    ),
    LineForm(
        "capacity",
        &[HOST, LUN],
        2,
        "capacity H L",
        "READ CAPACITY (10)",
    ),
    LineForm(
        "read",
        &[HOST, LUN, LBA, COUNT],
        4,
        "read H L LBA COUNT",
        "READ (10)",
    ),
    LineForm(
        "read16",
        &[HOST, LUN, LONG_LBA, COUNT],
        4,
        "read16 H L LBA COUNT",
        "READ (16)",
    ),
    LineForm(
        "write",
        &[HOST, LUN, LBA, COUNT, BYTE, FUA],
        5,
        "write H L LBA COUNT BYTE [fua]",
        "WRITE (10), of one byte value",
    ),
    LineForm(
        "write16",
        &[HOST, LUN, LONG_LBA, COUNT, BYTE, FUA],
        5,
        "write16 H L LBA COUNT BYTE [fua]",
        "WRITE (16), of one byte value",
    ),
    LineForm(
        "unmap",
        &[HOST, LUN, LONG_LBA, LONG_COUNT],
        4,
        "unmap H L LBA COUNT",
        "discard sectors",
    ),
    LineForm(
        "cdb",
        &[HOST, LUN, Argument("HEX", Wanted::Block), COUNT, BYTE],
        3,
        "cdb H L HEX [COUNT BYTE]",
        "a command block, with COUNT bytes as its data",
    ),
    LineForm("add", &[], 0, "add", "add a disk"),
    LineForm("out", &[DISK], 1, "out D", "take a disk out of service"),
    LineForm(
        "replace",
        &[DISK],
        1,
        "replace D",
        "put a new disk in the place of a failed one",
    ),
    LineForm(
        "rebuild",
        &[],
        0,
        "rebuild",
        "rebuild an extent of the new disk",
    ),
    LineForm(
        "flush",
        &[],
        0,
        "flush",
        "write a block of the cache to the disks",
    ),
    LineForm(
        "demote",
        &[],
        0,
        "demote",
        "move a mirrored block to a parity group",
    ),
    LineForm(
        "clean",
        &[],
        0,
        "clean",
        "move a block out of the emptiest group",
    ),
    LineForm(
        "balance",
        &[],
        0,
        "balance",
        "form a group, or shift an extent",
    ),
    LineForm(
        "levels",
        &[HOST, LUN],
        2,
        "levels H L",
        "how each block of a unit is stored",
    ),
    LineForm(
        "home",
        &[HOST, LUN, Argument("RB", Wanted::Number(4_294_967_295))],
        3,
        "home H L RB",
        "where a block of a unit is stored",
    ),
    LineForm("groups", &[], 0, "groups", "the use of each group"),
    LineForm(
        "room",
        &[],
        0,
        "room",
        "how many more blocks units may have",
    ),
    LineForm("health", &[], 0, "health", "which disk has failed"),
    LineForm(
        "block",
        &[
            DISK,
            Argument("E", Wanted::Number(65_535)),
            Argument("R", Wanted::Number(65_535)),
        ],
        3,
        "block D E R",
        "what a row of an extent holds",
    ),
    LineForm("picture", &[], 0, "picture", "a map of the array"),
];

/// The forms of all lines.
pub fn line_forms() -> &'static [LineForm] {
    &FORMS
}

/// What is wrong with a line, which has no line feed. None: nothing is, or it is too long.
pub fn explanation_of(line: &[u8]) -> Option<Explanation<'_>> {
    let front = &line[..line.len().min(LINE_MAX)];
    if let Some(at) = front.iter().position(|byte| !is_printable(*byte)) {
        let byte = front.get(at).copied()?;
        let column = at.saturating_add(1);
        return Some(Explanation::Character { column, byte });
    }
    match line.first() {
        Some(first) if *first != b'#' && line.len() <= LINE_MAX => {
            explain_words(str::from_utf8(line).ok()?)
        }
        _ => None,
    }
}

// What is wrong with the words of a line that isn't empty.
fn explain_words(line: &str) -> Option<Explanation<'_>> {
    let mut words = [""; MOST_WORDS];
    let Some(count) = first_words(line, &mut words) else {
        let column = spare_space(line.as_bytes());
        return Some(Explanation::Space { column });
    };
    let (name, arguments) = words[..count].split_first()?;
    match form_named(name) {
        Some(form) => wrong_argument(form, arguments),
        None => Some(Explanation::Unknown { word: name }),
    }
}

// The column of the first space that has no word before it, or of the one at the end.
fn spare_space(line: &[u8]) -> usize {
    let mut before = b' ';
    for (at, byte) in line.iter().enumerate() {
        if before == b' ' && *byte == b' ' {
            return at.saturating_add(1);
        }
        before = *byte;
    }
    line.len()
}

fn form_named(name: &str) -> Option<&'static LineForm> {
    for form in &FORMS {
        if form.0 == name {
            return Some(form);
        }
    }
    None
}

// What is wrong with the arguments of a line.
fn wrong_argument<'a>(form: &LineForm, arguments: &[&'a str]) -> Option<Explanation<'a>> {
    let LineForm(name, wanted, required, usage, _) = *form;
    let mut column = name.len().saturating_add(2);
    for (number, word) in arguments.iter().enumerate() {
        let Some(argument) = wanted.get(number).copied() else {
            return Some(Explanation::TooMany {
                column,
                word,
                usage,
            });
        };
        if !is_accepted(argument.1, word) {
            return Some(Explanation::Wrong {
                column,
                word,
                argument,
                usage,
            });
        }
        column = column.saturating_add(word.len()).saturating_add(1);
    }
    if arguments.len() == required {
        return None;
    }
    let argument = wanted.get(arguments.len()).copied()?;
    Some(Explanation::Missing {
        column,
        argument,
        usage,
    })
}

// Whether a word is what an argument has to be.
fn is_accepted(wanted: Wanted, word: &str) -> bool {
    match wanted {
        Wanted::Number(most) => match number(word) {
            Some(number) => number <= most,
            None => false,
        },
        Wanted::Size => sectors(word).is_some(),
        Wanted::Byte => byte(word).is_some(),
        Wanted::Block => block(word).is_some(),
        Wanted::Fua => word == "fua",
    }
}

impl Display for Wanted {
    fn fmt<W: fmt::Write>(&self, f: &mut Formatter<W>) -> fmt::Result {
        match self {
            Wanted::Number(most) => write!(f, "a number from 0 to {most}"),
            Wanted::Size => f.write_str("sectors from 0 to 4294967295, or a size as 32M"),
            Wanted::Byte => f.write_str("two hexadecimal digits"),
            Wanted::Block => f.write_str("1 to 16 bytes in hexadecimal digits"),
            Wanted::Fua => f.write_str("which may be left out"),
        }
    }
}

impl Display for Explanation<'_> {
    fn fmt<W: fmt::Write>(&self, f: &mut Formatter<W>) -> fmt::Result {
        match *self {
            Explanation::Character { column, byte } => write_character(f, column, byte),
            Explanation::Space { column } => {
                write!(
                    f,
                    "column {column}: a space too many; single spaces separate words"
                )
            }
            Explanation::Unknown { word } => write_unknown(f, word),
            Explanation::Wrong {
                column,
                word,
                argument,
                usage,
            } => {
                let Argument(name, wanted) = argument;
                write!(
                    f,
                    "column {column}: '{word}' is no {name}, {wanted}: {usage}"
                )
            }
            Explanation::Missing {
                column,
                argument,
                usage,
            } => {
                let Argument(name, wanted) = argument;
                write!(f, "column {column}: {name} is missing, {wanted}: {usage}")
            }
            Explanation::TooMany {
                column,
                word,
                usage,
            } => { write!(f, "column {column}: '{word}' is a word too many: {usage}") }
        }
    }
}

// What is wrong with a byte that no line has.
fn write_character<W: fmt::Write>(f: &mut Formatter<W>, column: usize, byte: u8) -> fmt::Result {
    match byte {
        b'\r' => write!(
            f,
            "column {column}: a carriage return; a line ends with a line feed alone"
        ),
        b'\t' => write!(f, "column {column}: a TAB; single spaces separate words"),
        _ => write!(
            f,
            "column {column}: byte {byte:02X}; a line has printable ASCII characters alone"
        ),
    }
}

// That a word begins no line, and those that do.
fn write_unknown<W: fmt::Write>(f: &mut Formatter<W>, word: &str) -> fmt::Result {
    write!(f, "column 1: '{word}' is none of")?;
    for form in &FORMS {
        let name = form.0;
        write!(f, " {name}")?;
    }
    Ok(())
}
