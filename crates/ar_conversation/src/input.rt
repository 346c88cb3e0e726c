// Reads lines from a stream, byte by byte out of a piece of it. Of a line that has a fault nothing is kept, so that the
// longest line takes no more memory than 4,096 bytes.
ghost use Rattle.std.specs.Prelude.{◌≡◌, ◌≢◌, ◌≤◌, ◌++◌, ◌∷◌, [], ℕ, List, Some, None, MatchResult, length};
ghost use Rattle.std.specs.Prelude.{vec_capacity};
ghost use Rattle.ar_language.specs.Lines.{IsLine, is_printable};
ghost use Rattle.ar_conversation.specs.Talk.{is_unreadable};
ghost use Rattle.ar_conversation.specs.Lines.{LineReadIs, ByteIsRead, HasNextByte, KeepsLine, seen_behind};

use ar_frames::Source;
use ar_language::FaultKind;
use std::alloc::{AllocError, Global};
use std::marker::Model;
use std::str;

// The most bytes of a line, without its LF.
const LINE_MAX: usize = 4_096;

// The most bytes that are read at once.
const PIECE_LEN: usize = 1_024;

// The most bytes that are read of one line.
const MOST_BYTES: u32 = u32::MAX;

// A piece of a stream: the bytes that were read and not taken yet.
#[derive(Drop)]
pub struct Piece {
    bytes: [u8; PIECE_LEN],
    at: usize,
    end: usize,
}

impl Model for Piece {
    ghost use Rattle.std.specs.Prelude.{ℕ, List, ◌≤◌, slice_range, length};

    ghost Value = { List ℕ };

    ghost view = { λ piece. slice_range piece.bytes piece.at piece.end };

    ghost invariant = { λ piece. (piece.at ≤ piece.end) × (piece.end ≤ length piece.bytes) };
}

// The next byte of a stream.
#[derive(Clone, Copy)]
pub enum Next {
    Byte(u8),
    // The input has ended.
    End,
    // A read faulted.
    Fault,
}

// Whether a piece has a byte.
#[derive(Clone, Copy)]
enum Ready {
    Some,
    // The input has ended.
    End,
    // A read faulted.
    Fault,
}

impl Piece {
    // An empty piece.
    pub fn new() -> Piece
        ensures { result ≡ [] }
    {
        Piece {
            bytes: [0; PIECE_LEN],
            at: 0,
            end: 0,
        }
    }

    // Takes the next byte. The stream is read only if the piece is empty.
    pub fn next<R: Source>(&mut self, reader: &mut R) -> Next
        ensures { ByteIsRead (seen_behind self.old (R.state reader.old)) result
            (seen_behind self.new (R.state reader.new)) }
    {
        match self.ready(reader) {
            Ready::Some => Next::Byte(self.take()),
            Ready::End => Next::End,
            Ready::Fault => Next::Fault,
        }
    }

    // Reads into the piece if it is empty.
    fn ready<R: Source>(&mut self, reader: &mut R) -> Ready
        ensures { HasNextByte (seen_behind self.old (R.state reader.old)) result self.new
            (seen_behind self.new (R.state reader.new)) }
    {
        if self.at < self.end {
            return Ready::Some;
        }
        match reader.read(&mut self.bytes) {
            None => Ready::Fault,
            Some(0) => Ready::End,
            Some(n) => {
                self.at = 0;
                self.end = n;
                Ready::Some
            }
        }
    }

    // Takes the first byte of the piece.
    fn take(&mut self) -> u8
        requires { self.old ≢ [] }
        ensures { self.old ≡ result ∷ self.new }
    {
        let byte = self.bytes[self.at];
        self.at += 1;
        byte
    }
}

// A line as far as it was read: its text or, once it has a fault, that.
#[derive(Drop)]
pub struct Line {
    text: Vec<u8>,
    fault: Option<FaultKind>,
    ghost whole: { IsLine text.items },
    ghost room: { 4096 ≤ vec_capacity text },
}

impl Line {
    // An empty line, with memory for the longest one.
    pub fn new(alloc: Global) -> Result<Line, AllocError> {
        Ok(Line {
            text: Vec::with_capacity(alloc, LINE_MAX)?,
            fault: None,
        })
    }

    // The line's text, or its fault.
    pub fn text(&self) -> Result<&str, FaultKind>
        ensures { MatchResult result (λ text. (self.now.fault ≡ None)
            × (text.now ≡ self.now.text.items)) (λ kind. self.now.fault ≡ Some kind) }
    {
        if let Some(fault) = self.fault {
            return Err(fault);
        }
        match str::from_utf8(self.text.as_slice()) {
            Ok(text) => Ok(text),
            // ASCII is valid UTF-8.
            Err(_) => unreachable!(),
        }
    }

    // Whether the line isn't text: it has a fault.
    pub fn is_unreadable(&self) -> bool
        ensures { result ≡ is_unreadable self.now.fault }
    {
        self.fault.is_some()
    }

    // Begins a line.
    fn clear(&mut self)
        ensures { KeepsLine [] self.new.text.items self.new.fault }
    {
        self.text.clear();
        self.fault = None;
    }

    // Appends a byte other than LF.
    fn take(&mut self, byte: u8)
        ensures { (line : List ℕ) → KeepsLine line self.old.text.items self.old.fault
            → KeepsLine (line ++ byte ∷ []) self.new.text.items self.new.fault }
    {
        if self.fault.is_some() {
            return;
        }
        if self.text.len() == LINE_MAX {
            self.fault = Some(FaultKind::LineTooLong);
        } else if is_printable(byte) {
            self.text.push_reserved(byte);
        } else {
            self.fault = Some(FaultKind::BadCharacter);
        }
    }
}

// Whether a byte is a printable character of ASCII, space to `~`.
fn is_printable(byte: u8) -> bool
    ensures { result ≡ is_printable byte }
{
    byte >= b' ' && byte <= b'~'
}

// What was read where a line may begin.
#[derive(Clone, Copy)]
pub enum LineRead {
    // A line, with its LF.
    Line,
    // The input has ended, and no line begins.
    End,
    // The input has ended in a line.
    Cut,
    // A read faulted.
    Fault,
    // Of the line MOST_BYTES bytes were read, and no end.
    Endless,
}

// Reads a line. One without its LF is cut, since it may be the front of another: `out 1` of `out 11`.
pub fn read_line<R: Source>(reader: &mut R, piece: &mut Piece, line: &mut Line) -> LineRead
    ensures { LineReadIs (seen_behind piece.old (R.state reader.old)) result line.new.text.items line.new.fault
        (seen_behind piece.new (R.state reader.new)) }
{
    line.clear();
    for taken in 0..MOST_BYTES {
        match piece.next(reader) {
            Next::Byte(b'\n') => return LineRead::Line,
            Next::Byte(byte) => line.take(byte),
            Next::End if taken == 0 => return LineRead::End,
            Next::End => return LineRead::Cut,
            Next::Fault => return LineRead::Fault,
        }
    }
    LineRead::Endless
}
