// Splits a buffered input into lines. The lines that are left are those of the input without the ones that were
// returned, and only `ask` accesses the input.
ghost use Rattle.std.specs.Prelude.{◌≡◌, ◌+◌, if◌then◌else◌, IfOk, IfSome, IsTrue, is_some, ◌≢◌, ◌==◌, ◌&&◌, ◌||◌, not};
ghost use Rattle.std.specs.Prelude.{true, false, length, ◌-◌, ◌≤◌, ◌<◌, ◌++◌, [], ◌∷◌, None, OnOk, IfErr, OnErr};
ghost use Rattle.std.specs.Prelude.{unwrap_or, vec_len, vec_capacity};
ghost use Rattle.std.specs.List.{list_all};
ghost use Rattle.std.specs.Io.Buffered.{reader_buffer, reader_capacity, reader_inner, writer_buffer};
ghost use Rattle.ar_language.specs.Lines.{lines_of, Took, IsPart, IsFirst, IsLacking, IsFaultFrom, IsUnasked};
ghost use Rattle.ar_language.specs.Lines.{is_printable, IsLine, front_of, is_bad_next, is_given, is_lacking};
ghost use Rattle.ar_language.specs.Lines.{part_fault, with_bad};

use crate::scan::printable_len;
use crate::{Fault, FaultKind};
use std::alloc::Global;
use std::io::{BufRead, BufReader, BufWriter, Read, Write};
use std::{io, str};

/// The most bytes of a line, without its line feed.
const LINE_MAX: usize = 4_096;

/// The most lines of a script.
const LINES_MAX: u32 = 1_000_000;

/// The lines of a script, one at a time.
#[derive(Drop)]
pub struct Lines<R: Read + Drop> {
    source: BufReader<R>,
    /// The line that was returned last or, once the next one is begun, the part of it that was read.
    line: Vec<u8>,
    given: u32,
    is_begun: bool,
    is_awaited: bool,
    is_at_end: bool,
    ghost few: { given + (if is_begun then 1 else 0) ≤ 1000000 },
    ghost whole: { IsLine line.items },
    ghost room: { 4096 ≤ vec_capacity line },
}

impl<R: Read + Drop> Lines<R> {
    ghost use Rattle.ar_language.specs.Left.{bytes_read, lines_begun, lines_left, CountsLine, IsLineRefused, IsFresh};

    /// The lines of `reader`, none of them read yet. It allocates room for the longest line and a buffer of 8 KiB, and
    /// fails if it can't; no other call allocates.
    pub fn new(alloc: Global, reader: R) -> io::Result<Lines<R>>
        ensures fresh { IfOk result IsFresh }
        ensures unasked { IfOk result (λ lines. reader_inner lines.source ≡ reader) }
        ensures all { IfOk result (λ lines. lines_left lines ≡ lines_of (R.remaining reader)) }
        ensures room { IfOk result (λ lines. vec_capacity lines.line ≡ 4096) }
        ensures piece { IfOk result (λ lines. reader_capacity lines.source ≡ 8192) }
    {
        let line = Vec::with_capacity(alloc, LINE_MAX)?;
        let source = BufReader::new(alloc, reader)?;
        Ok(Lines {
            source,
            line,
            given: 0,
            is_begun: false,
            is_awaited: false,
            is_at_end: false,
        })
    }

    /// The number of lines begun: those that were returned, and the next one if a part of it was read.
    pub fn number(&self) -> u32
        ensures number { result ≡ lines_begun self.now }
        ensures few { result ≤ 1000000 }
    {
        self.given + u32::from(self.is_begun)
    }

    /// Whether the next line needs more input: all that was read is in it, and doesn't end it.
    pub fn is_awaited(&self) -> bool
        ensures { result ≡ self.now.is_awaited }
    {
        self.is_awaited
    }

    /// Advances to the next line if it was read whole, and returns whether it was. The input isn't accessed. At false,
    /// the line needs more input (`is_awaited`), or none is left. A line with a fault, or one too many, is an error,
    /// and stays the next one.
    pub fn advance(&mut self) -> Result<bool, Fault>
        ensures unasked { IsUnasked self.old.source self.new.source }
        ensures given { is_given result ≡ true
            → IsFirst self.old.is_at_end (bytes_read self.old) self.new.line.items (bytes_read self.new) }
        ensures lacking { is_lacking result ≡ true → IsLacking self.old.is_at_end (bytes_read self.old) }
        ensures refused { IfErr result (IsLineRefused self.old self.new.is_begun) }

        ensures counts { CountsLine self.old result self.new }
    {
        self.is_awaited = false;
        if !self.is_begun && self.source.buffer().is_empty() {
            self.is_awaited = !self.is_at_end;
            return Ok(false);
        }
        self.begin()?;
        let line = self.given + 1;
        let has_end = take_part(&mut self.source, &mut self.line).map_err(|kind| Fault::Line {
            line,
            kind,
        })?;
        Ok(self.close(has_end))
    }

    // Begins the next line, unless it is begun.
    fn begin(&mut self) -> Result<(), Fault>
        ensures same { (self.new.source ≡ self.old.source) × (self.new.is_at_end ≡ self.old.is_at_end)
            × (self.new.is_awaited ≡ self.old.is_awaited) × (self.new.given ≡ self.old.given) }
        ensures begun { OnOk result ((self.new.is_begun ≡ true)
            × (self.new.line.items ≡ front_of self.old.is_begun self.old.line.items)) }
        ensures full { IfErr result (λ fault. (fault ≡ Fault.Line 1000001 FaultKind.TooManyLines)
            × (self.old.given ≡ 1000000)) }
        ensures unbegun { OnErr result ((self.old.is_begun ≡ false) × (self.new.is_begun ≡ false)) }
        ensures room { vec_capacity self.new.line ≡ vec_capacity self.old.line }
    {
        if self.is_begun {
            return Ok(());
        }
        if self.given >= LINES_MAX {
            return Err(Fault::Line {
                line: self.given + 1,
                kind: FaultKind::TooManyLines,
            });
        }
        self.line.clear();
        self.is_begun = true;
        Ok(())
    }

    // Ends the line that was begun, if its end was met: a line feed, or the end of the input after at least one byte.
    fn close(&mut self, has_end: bool) -> bool
        requires { self.old.is_begun ≡ true }
        ensures same { (self.new.source ≡ self.old.source) × (self.new.line.items ≡ self.old.line.items)
            × (self.new.is_at_end ≡ self.old.is_at_end) }
        ensures given { result ≡ (has_end || (self.old.is_at_end && not (vec_len self.old.line == 0))) }
        ensures awaited { self.new.is_awaited ≡ (not result && not self.old.is_at_end) }
        ensures begun { self.new.is_begun ≡ not result }
        ensures count { self.new.given ≡ self.old.given + (if result then 1 else 0) }
    {
        let is_whole = has_end || self.is_at_end && !self.line.is_empty();
        self.is_awaited = !is_whole && !self.is_at_end;
        if is_whole {
            self.is_begun = false;
            self.given += 1;
        }
        is_whole
    }

    /// Reads more input, for a line that is awaited. `out` has been flushed by then, so that no answer is held back
    /// meanwhile. At `ReadFault`, the only error, the line is still awaited.
    pub fn ask<W: Write + Drop>(&mut self, out: &BufWriter<W>) -> Result<(), Fault>
        requires awaited { self.old.is_awaited ≡ true }
        requires more { self.old.is_at_end ≡ false }
        requires drained { reader_buffer self.old.source ≡ [] }
        requires written { writer_buffer out.now ≡ [] }

        ensures kept { Took (lines_left self.old) (lines_left self.new) [] }
        ensures fault { IfErr result (λ fault. fault ≡ Fault.Line (self.old.given + 1) FaultKind.ReadFault) }
        ensures answered { OnOk result (self.new.is_awaited ≡ false) }
        ensures unread { OnErr result ((self.new.is_awaited ≡ true) × (self.new.is_at_end ≡ false)) }
        ensures ended { OnOk result (self.new.is_at_end ≡ (length (reader_buffer self.new.source) == 0)) }
        ensures same { (self.new.line.items ≡ self.old.line.items) × (self.new.is_begun ≡ self.old.is_begun)
            × (self.new.given ≡ self.old.given) }
    {
        let is_written = out.buffer().is_empty();
        prove!(is_written);
        if self.source.fill_buf().is_err() {
            let line = self.given + 1;
            let kind = FaultKind::ReadFault;
            return Err(Fault::Line { line, kind });
        }
        self.is_awaited = false;
        self.is_at_end = self.source.buffer().is_empty();
        Ok(())
    }

    /// The line, without its line feed.
    pub fn line(&self) -> &str
        ensures { result.now ≡ self.now.line.items }
    {
        // SAFETY: ASCII is valid UTF-8.
        unsafe { str::from_utf8_unchecked(self.line.as_slice()) }
    }
}

// Appends what was read of a line to it, and returns whether its line feed was there.
fn take_part<R: Read + Drop>(
    source: &mut BufReader<R>,
    line: &mut Vec<u8>,
) -> Result<bool, FaultKind>
    requires whole { IsLine line.old.items }
    requires room { 4096 ≤ vec_capacity line.old }
    ensures unasked { IsUnasked source.old source.new }
    ensures taken { IfOk result (λ has_end. line.old.items ++ reader_buffer source.old
        ≡ line.new.items ++ (if has_end then 10 ∷ reader_buffer source.new else [])) }
    ensures drained { IfOk result (λ has_end. has_end ≡ false → reader_buffer source.new ≡ []) }
    ensures refused { IfErr result (IsFaultFrom (line.old.items ++ reader_buffer source.old)) }

    ensures unchanged { OnErr result ((line.new.items ≡ line.old.items)
        × (reader_buffer source.new ≡ reader_buffer source.old)) }
    ensures whole { IsLine line.new.items }
    ensures room { 4096 ≤ vec_capacity line.new }
{
    let (part, next) = part_of(source.buffer());
    add_part(line, part, next)?;
    let has_end = next.is_some();
    let used = part.len() + usize::from(has_end);
    source.consume(used);
    Ok(has_end)
}

// The printable characters at the front of what was read, and the byte after them, if there is one.
fn part_of(bytes: &[u8]) -> (&[u8], Option<u8>)
    ensures parts { IsPart bytes.now result.0.now result.1 }
    ensures room { length result.0.now + (if is_some result.1 then 1 else 0) ≤ length bytes.now }
{
    let len = printable_len(bytes);
    (&bytes[..len], bytes.get(len).copied())
}

// Appends printable characters to a line. The byte after them, if one was read, has to be a line feed.
fn add_part(line: &mut Vec<u8>, part: &[u8], next: Option<u8>) -> Result<(), FaultKind>
    requires whole { IsLine line.old.items }
    requires room { 4096 ≤ vec_capacity line.old }
    requires printable { IsTrue (list_all is_printable part.now) }
    requires stop { IfSome next (λ byte. is_printable byte ≡ false) }
    ensures taken { OnOk result (line.new.items ≡ line.old.items ++ part.now) }
    ensures ended { OnOk result (IfSome next (λ byte. byte ≡ 10)) }
    ensures refused { IfErr result (λ kind. part_fault (4096 - vec_len line.old) (with_bad part.now next) ≡ Some kind) }
    ensures unchanged { OnErr result (line.new.items ≡ line.old.items) }
    ensures whole { IsLine line.new.items }
    ensures room { 4096 ≤ vec_capacity line.new }
{
    let room = LINE_MAX - line.len();
    if is_bad(next) {
        return Err(bad_fault(part.len() < room));
    }
    if part.len() > room {
        return Err(FaultKind::LineTooLong);
    }
    let Ok(()) = line.extend_from_slice(part) else {
        // There is room for the longest line.
        unreachable!()
    };
    Ok(())
}

// The fault of a bad character: its own if the line has room for it, otherwise that the line is too long.
fn bad_fault(has_room: bool) -> FaultKind
    ensures { result ≡ (if has_room then FaultKind.BadCharacter else FaultKind.LineTooLong) }
{
    if has_room {
        FaultKind::BadCharacter
    } else {
        FaultKind::LineTooLong
    }
}

// Whether there is a byte, and it is no line feed.
fn is_bad(next: Option<u8>) -> bool
    ensures { result ≡ is_bad_next next }
{
    match next {
        Some(byte) => byte != b'\n',
        None => false,
    }
}
