// A line of the log: its text, and a place for it that needs no allocation.
ghost use Rattle.std.specs.Prelude.{◌≡◌, ℕ, ◌+◌, ◌≤◌, ◌<◌, ◌++◌, ◌↔◌, [], length, take, IsOk, OnErr, Some};
ghost use Rattle.std.specs.Fmt.{WritesOnOk};
ghost use Rattle.log.specs.Line.{padded_level};
ghost use Rattle.log.specs.Record.{metadata_level, metadata_target, record_args, record_metadata};
ghost use Rattle.ar_logging.specs.Text.{head_text, line_text};

use crate::time::UtcTime;
use arrayvec::ArrayString;
use log::{Level, Record};
use std::fmt;
use std::fmt::{Display, Formatter, Write};
use std::marker::Model;

/// The most bytes of a line. (Standard error takes one of up to 1,024 in one write.)
pub const MOST_BYTES: usize = 1000;

/// Shows a record as `[2026-11-30T00:10:07Z WARN  autoraid] message`, without its pairs and spans.
#[derive_where(Clone, Copy)]
pub struct TimedLine<'a, 'r, D, K, S> {
    time: Option<UtcTime>,
    record: &'a Record<'r, D, K, S>,
}

impl<'a, 'r, D, K, S> TimedLine<'a, 'r, D, K, S> {
    /// The line of a record that was logged at this time.
    pub fn new(time: Option<UtcTime>, record: &'a Record<'r, D, K, S>) -> TimedLine<'a, 'r, D, K, S>
        ensures time { result.time ≡ time }
        ensures record { result.«record».now ≡ «record».now }
    {
        TimedLine { time, record }
    }
}

impl<'a, 'r, D: Display, K, S> Display for TimedLine<'a, 'r, D, K, S> {
    ghost output = { λ l. line_text l.time (metadata_level (record_metadata l.«record».now))
        (metadata_target (record_metadata l.«record».now)) (D.output (record_args l.«record».now)) };

    fn fmt<W: fmt::Write>(&self, f: &mut Formatter<W>) -> fmt::Result {
        write_head(f, self.time, self.record.level(), self.record.target())?;
        f.write(self.record.args())
    }
}

// Writes what stands before a message.
fn write_head<W: fmt::Write>(
    f: &mut Formatter<W>,
    time: Option<UtcTime>,
    level: Level,
    target: &str,
) -> fmt::Result
    ensures { WritesOnOk W.write_str_gives f.old result (head_text time level target.now) f.new }
{
    let level = padded(level);
    match time {
        Some(time) => write!(f, "[{time} {level} {target}] "),
        None => write!(f, "[{level} {target}] "),
    }
}

// The name of a level, in five letters.
fn padded(level: Level) -> &'static str
    ensures { result.now ≡ padded_level level }
{
    match level {
        Level::Warn => "WARN ",
        Level::Info => "INFO ",
        _ => level.as_str(),
    }
}

/// A line of at most 1,000 bytes, in place.
#[derive(Drop)]
pub struct LogLine {
    text: ArrayString<MOST_BYTES>,
}

impl Model for LogLine {
    ghost use Rattle.std.specs.Prelude.{List, ℕ};

    ghost Value = { List ℕ };

    ghost view = { λ l. l.text.bytes };
}

impl LogLine {
    /// An empty line.
    pub fn new() -> LogLine
        ensures { result ≡ [] }
    {
        LogLine {
            text: ArrayString::new(),
        }
    }

    /// The line of a value. One that is longer is cut.
    pub fn of<D: Display + Drop>(value: D) -> LogLine {
        let mut line = LogLine::new();
        let _ = write!(line, "{value}");
        line
    }

    /// Its text.
    pub fn as_str(&self) -> &str
        ensures { result.now ≡ self.now }
    {
        self.text.as_str()
    }
}

/// A text that is too long is cut after a whole character, and is an error, so that nothing follows it.
impl Write for LogLine {
    ghost write_str_gives = { λ old bytes new. new ≡ old ++ bytes };

    fn write_str(&mut self, s: &str) -> fmt::Result
        ensures ok { IsOk result → self.new ≡ self.old ++ s.now }
        ensures variant { IsOk result ↔ (length self.old + length s.now ≤ 1000) }
        ensures cut { OnErr result ((n : ℕ) × (n < length s.now) × (self.new ≡ self.old ++ take n s.now)) }
    {
        if self.text.try_push_str(s).is_ok() {
            return Ok(());
        }
        let kept = s.floor_char_boundary(self.text.remaining_capacity());
        self.text.push_str(&s[..kept]);
        Err(fmt::Error)
    }
}
