// Answers as text, appended to the output: each function appends exactly the text that specs/Texts.antt gives.
ghost use Rattle.std.specs.Prelude.{◌≡◌, ◌+◌, ◌<◌, ◌≤◌, ◌++◌, true, [], ◌∷◌, OnOk, length, map, codes, slice_index};
ghost use Rattle.std.specs.Fmt.{decimal, digit_glyph};
ghost use Rattle.arrayvec.specs.ArrayString.{array_string_len};
ghost use Rattle.arrayvec.specs.ArrayVec.{array_vec_len};
ghost use Rattle.std.specs.Io.KnownBytes.{Appends};
ghost use Rattle.ar_book.specs.Tables.{has_unit};
ghost use Rattle.ar_picture.specs.Writing.{AddsSome};
ghost use Rattle.ar_answers.specs.Texts.{balance_text, class_name, data_words, done_text, flush_text, gap, group_text};
ghost use Rattle.ar_answers.specs.Texts.{groups_text, health_text, hex_byte, home_text, level_mark, levels_text, line};
ghost use Rattle.ar_answers.specs.Texts.{marks_text, move_text, outcome_text, rebuild_text, reply_text, row_text};
ghost use Rattle.ar_answers.specs.Texts.{key_words, run_text, runs_of, sense_text, taken_text, part_flush_text, words};

use crate::runs::run_len;
use ar_core::{
    Array, Balance, Class, DiskRefusal, Flush, GroupUse, Health, HomeOf, LevelOf, Move, OutcomeOf,
    PartFlush, Rebuild, Refusal, Shown, Slot, UnitRefusal,
};
use ar_disks::{Addr, Disk, Key};
use ar_language::Notation;
use ar_scsi::{Reply, Status};
use arrayvec::{ArrayString, ArrayVec};
use std::io;
use std::io::Write;

/// The answer to a query about a unit that doesn't exist.
const NO_UNIT: Refusal = Refusal::Unit(UnitRefusal::Absent);

/// The most bytes of a line of a destaged or moved block: two words, five numbers and the spaces before them.
const LINE: usize = 64;

/// The most bytes of the answer `good` with one run: a number of twenty digits, and a byte.
const RUN: usize = 32;

/// Writes the outcome of an event, as a line.
pub fn write_outcome<W: Write, N>(
    out: &mut W,
    outcome: &OutcomeOf<N>,
    notation: Notation,
) -> io::Result<()>
    ensures text { OnOk result (Appends (W.contents out.old) (W.contents out.new) (outcome_text outcome.now notation)) }
    ensures adds { OnOk result (AddsSome (W.contents out.old) (W.contents out.new)) }
{
    match outcome {
        OutcomeOf::Make(done)
        | OutcomeOf::Grow(done)
        | OutcomeOf::Remove(done)
        | OutcomeOf::DiskOut(done) => write_done(out, *done),
        OutcomeOf::Cmd(reply) | OutcomeOf::Unmap(reply) => write_reply(out, reply, notation),
        OutcomeOf::Flush(flush) => write_flush(out, *flush),
        OutcomeOf::FlushPart(flush) => write_part_flush(out, *flush),
        OutcomeOf::Demote(answer) | OutcomeOf::Clean(answer) => write_move(out, *answer),
        OutcomeOf::Balance(answer) => write_balance(out, *answer),
        OutcomeOf::AddDisk(done) | OutcomeOf::Replace(done) => write_taken(out, done),
        OutcomeOf::Rebuild(answer) => write_rebuild(out, *answer),
    }
}

// Writes whether a new disk was accepted.
fn write_taken<W: Write, N>(out: &mut W, done: &Result<(), (Refusal, N)>) -> io::Result<()>
    ensures text { OnOk result (Appends (W.contents out.old) (W.contents out.new) (taken_text done.now)) }
{
    match done {
        Ok(()) => write_done(out, Ok(())),
        Err((refusal, _)) => write_done(out, Err(*refusal)),
    }
}

fn write_done<W: Write>(out: &mut W, done: Result<(), Refusal>) -> io::Result<()>
    ensures text { OnOk result (Appends (W.contents out.old) (W.contents out.new) (done_text done)) }
{
    match done {
        Ok(()) => writeln!(out, "ok"),
        Err(refusal) => writeln!(out, "refused {refusal}"),
    }
}

fn write_reply<W: Write>(out: &mut W, reply: &Reply, notation: Notation) -> io::Result<()>
    ensures text { OnOk result (Appends (W.contents out.old) (W.contents out.new) (reply_text reply.now notation)) }
{
    match (reply.status, reply.sense) {
        (Status::CheckCondition, Some(sense)) => write_check(out, &sense),
        (Status::Busy, _) => writeln!(out, "busy"),
        _ => write_good(out, reply.payload.as_slice(), notation),
    }
}

// Writes `check` and what the sense data say.
fn write_check<W: Write>(out: &mut W, sense: &[u8; 18]) -> io::Result<()>
    ensures text { OnOk result
        (Appends (W.contents out.old) (W.contents out.new) (line (codes "check" ∷ sense_text sense.now ∷ []))) }
{
    out.write_all(b"check ")?;
    out.write_all(&sense_text(sense))?;
    out.write_all(b"\n")
}

// The sense key, the additional sense code and its qualifier of sense data.
fn sense_text(sense: &[u8; 18]) -> [u8; 8]
    ensures { result ≡ sense_text sense.now }
{
    let [key_high, key_low] = hex_byte(sense[2] & 0x0F);
    let [code_high, code_low] = hex_byte(sense[12]);
    let [qualifier_high, qualifier_low] = hex_byte(sense[13]);
    [
        key_high,
        key_low,
        b'/',
        code_high,
        code_low,
        b'/',
        qualifier_high,
        qualifier_low,
    ]
}

// Writes `good` and the bytes of the reply.
fn write_good<W: Write>(out: &mut W, bytes: &[u8], notation: Notation) -> io::Result<()>
    ensures text { OnOk result
        (Appends (W.contents out.old) (W.contents out.new) (line (codes "good" ∷ data_words notation bytes.now))) }
{
    if bytes.is_empty() {
        return out.write_all(b"good\n");
    }
    if is_one_run(bytes, notation) {
        return out.write_all(run_line(bytes.len(), bytes[0]).as_slice());
    }
    out.write_all(b"good ")?;
    write_data(out, bytes, notation)?;
    out.write_all(b"\n")
}

// Whether a reply is printed as one run.
fn is_one_run(bytes: &[u8], notation: Notation) -> bool
    requires { 0 < length bytes.now }
    ensures { result ≡ true
        → data_words notation bytes.now ≡ run_text (length bytes.now, slice_index bytes.now 0) ∷ [] }
{
    match notation {
        Notation::Bytes => false,
        Notation::Runs => run_len(bytes) == bytes.len(),
    }
}

// The answer to a command whose data are one run. (As one write, since each costs more than so short a text.)
fn run_line(count: usize, byte: u8) -> ArrayVec<u8, RUN>
    ensures { result.items ≡ line (codes "good" ∷ run_text (count, byte) ∷ []) }
{
    let mut line = ArrayVec::new();
    push_bytes(&mut line, b"good ");
    push_run(&mut line, count, byte);
    line.push(b'\n');
    line
}

// Writes a reply's bytes, in the notation of its command.
fn write_data<W: Write>(out: &mut W, bytes: &[u8], notation: Notation) -> io::Result<()>
    ensures text { OnOk result
        (Appends (W.contents out.old) (W.contents out.new) (words (data_words notation bytes.now))) }
{
    match notation {
        Notation::Bytes => write_bytes(out, bytes),
        Notation::Runs => write_runs(out, bytes),
    }
}

fn write_flush<W: Write>(out: &mut W, flush: Flush) -> io::Result<()>
    ensures text { OnOk result (Appends (W.contents out.old) (W.contents out.new) (flush_text flush)) }
{
    match flush {
        Flush::Flushed(key) => out.write_all(flushed_line(key).as_str().as_bytes()),
        Flush::Idle => writeln!(out, "idle"),
        Flush::Broken => writeln!(out, "broken"),
    }
}

// The line of a block that was destaged.
fn flushed_line(key: Key) -> ArrayString<LINE>
    ensures { result.bytes ≡ flush_text (Flush.Flushed key) }
{
    let mut line = ArrayString::new();
    line.push_str("flushed");
    push_key(&mut line, key);
    line.push_str("\n");
    line
}

// The script has no word for this event.
fn write_part_flush<W: Write>(out: &mut W, flush: PartFlush) -> io::Result<()>
    ensures text { OnOk result (Appends (W.contents out.old) (W.contents out.new) (part_flush_text flush)) }
{
    match flush {
        PartFlush::Done => write_done(out, Ok(())),
        PartFlush::More(next) => writeln!(out, "more {next}"),
        PartFlush::Absent => write_done(out, Err(NO_UNIT)),
        PartFlush::Broken => writeln!(out, "broken"),
    }
}

fn write_move<W: Write>(out: &mut W, answer: Move) -> io::Result<()>
    ensures text { OnOk result (Appends (W.contents out.old) (W.contents out.new) (move_text answer)) }
{
    match answer {
        Move::Moved { key, to } => out.write_all(moved_line(key, to).as_str().as_bytes()),
        Move::Idle => writeln!(out, "idle"),
        Move::Broken => writeln!(out, "broken"),
    }
}

// The line of a block that was moved. (Without `writeln!`, which writes each word and space of it apart.)
fn moved_line(key: Key, to: Slot) -> ArrayString<LINE>
    ensures { result.bytes ≡ move_text (Move.Moved key to) }
{
    let mut line = ArrayString::new();
    line.push_str("moved");
    push_key(&mut line, key);
    push_slot(&mut line, to);
    line.push_str("\n");
    line
}

// Appends the numbers of a block: its host, its LUN and its own.
fn push_key(line: &mut ArrayString<LINE>, key: Key)
    requires room { array_string_len line.old + 33 ≤ 64 }
    ensures bytes { line.new.bytes ≡ line.old.bytes ++ codes " " ++ words (key_words key []) }
    ensures short { array_string_len line.new ≤ array_string_len line.old + 33 }
{
    push_number(line, u32::from(key.addr.host.number()));
    push_number(line, u32::from(key.addr.lun));
    push_number(line, key.rb);
}

// Appends the slot that a block was moved to.
fn push_slot(line: &mut ArrayString<LINE>, to: Slot)
    requires room { array_string_len line.old + 25 ≤ 64 }
    ensures bytes { line.new.bytes
        ≡ line.old.bytes ++ codes " to " ++ words (decimal to.group ∷ decimal to.slot ∷ []) }
    ensures short { array_string_len line.new ≤ array_string_len line.old + 25 }
{
    line.push_str(" to");
    push_number(line, to.group);
    push_number(line, u32::from(to.slot));
}

// Appends a space and a number of at most ten digits.
fn push_number(line: &mut ArrayString<LINE>, number: u32)
    requires room { array_string_len line.old + 11 ≤ 64 }
    ensures bytes { line.new.bytes ≡ line.old.bytes ++ codes " " ++ decimal number }
    ensures short { array_string_len line.new ≤ array_string_len line.old + 11 }
{
    let mut digits = itoa::Buffer::new();
    line.push_str(" ");
    line.push_str(digits.format(number));
}

fn write_balance<W: Write>(out: &mut W, answer: Balance) -> io::Result<()>
    ensures text { OnOk result (Appends (W.contents out.old) (W.contents out.new) (balance_text answer)) }
{
    match answer {
        Balance::Formed(group) => writeln!(out, "formed {group}"),
        Balance::Shifted { group, from, to } => writeln!(
            out,
            "shifted {group} from {from} to {to}"
        ),
        Balance::GivenUp => writeln!(out, "given up"),
        Balance::NoMemory => write_done(out, Err(Refusal::Disk(DiskRefusal::NoMemory))),
        Balance::Idle => writeln!(out, "idle"),
        Balance::Broken => writeln!(out, "broken"),
    }
}

fn write_rebuild<W: Write>(out: &mut W, answer: Rebuild) -> io::Result<()>
    ensures text { OnOk result (Appends (W.contents out.old) (W.contents out.new) (rebuild_text answer)) }
{
    match answer {
        Rebuild::Rebuilt(extent, left) => writeln!(out, "rebuilt {extent} left {left}"),
        Rebuild::Finished => writeln!(out, "finished"),
        Rebuild::Idle => writeln!(out, "idle"),
        Rebuild::GivenUp => writeln!(out, "given up"),
        Rebuild::Broken => writeln!(out, "broken"),
    }
}

/// Writes the level of each block of a unit, as a line with a character for each: `M` mirrored, `P` parity, `-` without
/// a home.
pub fn write_levels<W: Write, D: Disk>(out: &mut W, array: &Array<D>, addr: Addr) -> io::Result<()>
    ensures text { OnOk result
        (Appends (W.contents out.old) (W.contents out.new) (levels_text array.now.store.book addr)) }
{
    if let LevelOf::Absent = array.level(addr, 0) {
        return write_done(out, Err(NO_UNIT));
    }
    write_marks(out, array, addr)?;
    out.write_all(b"\n")
}

// Writes a character for the level of each block of an existing unit.
fn write_marks<W: Write, D: Disk>(out: &mut W, array: &Array<D>, addr: Addr) -> io::Result<()>
    requires unit { has_unit array.now.store.book addr ≡ true }
    ensures text { OnOk result
        (Appends (W.contents out.old) (W.contents out.new) (marks_text array.now.store.book addr)) }
{
    // It does nothing, but says that the tables are consistent, so that no unit has more blocks than are counted.
    let _health = array.health();
    for rb in 0..u32::MAX {
        let Some(mark) = level_mark(array.level(addr, rb)) else {
            break;
        };
        out.write_all(&[mark])?;
    }
    Ok(())
}

// The character for the level of an existing block.
fn level_mark(level: LevelOf) -> Option<u8>
    ensures { result ≡ level_mark level }
{
    match level {
        LevelOf::Absent | LevelOf::Outside => None,
        LevelOf::Unplaced => Some(b'-'),
        LevelOf::Mirrored => Some(b'M'),
        LevelOf::Parity => Some(b'P'),
    }
}

/// Writes the group and slot where a block of a unit is stored, as a line.
pub fn write_home<W: Write>(out: &mut W, home: HomeOf) -> io::Result<()>
    ensures text { OnOk result (Appends (W.contents out.old) (W.contents out.new) (home_text home)) }
{
    match home {
        HomeOf::Absent => write_done(out, Err(NO_UNIT)),
        HomeOf::Outside => writeln!(out, "outside"),
        HomeOf::Unplaced => writeln!(out, "home none"),
        HomeOf::At(place) => {
            let (group, slot) = (place.group, place.slot);
            writeln!(out, "home {group} {slot}")
        }
    }
}

/// Writes what groups are used for, as a line for each.
pub fn write_groups<W: Write>(out: &mut W, groups: &[GroupUse]) -> io::Result<()>
    ensures text { OnOk result (Appends (W.contents out.old) (W.contents out.new) (groups_text 0 groups.now)) }
{
    for (number, group) in groups.iter().enumerate() {
        write_group(out, number, *group)?;
    }
    Ok(())
}

fn write_group<W: Write>(out: &mut W, number: usize, group: GroupUse) -> io::Result<()>
    ensures text { OnOk result (Appends (W.contents out.old) (W.contents out.new) (group_text number group)) }
{
    let class = class_name(group.class);
    let blocks = group.blocks;
    writeln!(out, "group {number} {class} {blocks}")
}

fn class_name(class: Class) -> &'static str
    ensures { result.now ≡ class_name class }
{
    match class {
        Class::Free => "free",
        Class::Mirrored => "mirrored",
        Class::Parity => "parity",
    }
}

/// Writes the health of an array, as a line: `whole` (all disks present), `out` with the missing disk, `rebuilding`
/// with the replaced one, or `broken` (failed: two disks missing at once).
pub fn write_health<W: Write>(out: &mut W, health: Health) -> io::Result<()>
    ensures text { OnOk result (Appends (W.contents out.old) (W.contents out.new) (health_text health)) }
    ensures adds { OnOk result (AddsSome (W.contents out.old) (W.contents out.new)) }
{
    match health {
        Health::Whole => writeln!(out, "whole"),
        Health::Out(disk) => writeln!(out, "out {disk}"),
        Health::Rebuilding(disk, done) => writeln!(out, "rebuilding {disk} {done}"),
        Health::Broken => writeln!(out, "broken"),
    }
}

/// Writes the bytes of a row, or why there are none, as a line.
pub fn write_row<W: Write>(out: &mut W, shown: Shown, bytes: &[u8]) -> io::Result<()>
    ensures text { OnOk result (Appends (W.contents out.old) (W.contents out.new) (row_text shown bytes.now)) }
{
    match shown {
        Shown::Outside => writeln!(out, "outside"),
        Shown::Broken => writeln!(out, "broken"),
        Shown::Missing => writeln!(out, "missing"),
        Shown::Bytes => {
            write_runs(out, bytes)?;
            writeln!(out)
        }
    }
}

// Writes each byte, separated by spaces.
fn write_bytes<W: Write>(out: &mut W, bytes: &[u8]) -> io::Result<()>
    ensures text { OnOk result (Appends (W.contents out.old) (W.contents out.new) (words (map hex_byte bytes.now))) }
{
    for (place, byte) in bytes.iter().enumerate() {
        write_gap(out, place)?;
        out.write_all(&hex_byte(*byte))?;
    }
    Ok(())
}

// Writes the longest runs of equal bytes, separated by spaces.
fn write_runs<W: Write>(out: &mut W, bytes: &[u8]) -> io::Result<()>
    ensures text { OnOk result
        (Appends (W.contents out.old) (W.contents out.new) (words (map run_text (runs_of bytes.now)))) }
{
    let mut rest = bytes;
    for place in 0..bytes.len() {
        if rest.is_empty() {
            break;
        }
        let count = run_len(rest);
        write_run(out, place, count, rest[0])?;
        rest = &rest[count..];
    }
    Ok(())
}

// Writes a run, after the space between it and the one before. (As one write, and without `write!`, which took a sixth
// of the time of a line that reads a small block.)
fn write_run<W: Write>(out: &mut W, place: usize, count: usize, byte: u8) -> io::Result<()>
    ensures text { OnOk result
        (Appends (W.contents out.old) (W.contents out.new) (gap place ++ run_text (count, byte))) }
{
    let mut text = ArrayVec::new();
    if place > 0 {
        text.push(b' ');
    }
    push_run(&mut text, count, byte);
    out.write_all(text.as_slice())
}

// Appends a run.
fn push_run(text: &mut ArrayVec<u8, RUN>, count: usize, byte: u8)
    requires room { array_vec_len text.old + 23 ≤ 32 }
    ensures bytes { text.new.items ≡ text.old.items ++ run_text (count, byte) }
    ensures short { array_vec_len text.new ≤ array_vec_len text.old + 23 }
{
    let mut digits = itoa::Buffer::new();
    push_bytes(text, digits.format(count).as_bytes());
    let [high, low] = hex_byte(byte);
    push_bytes(text, &[b'x', high, low]);
}

fn push_bytes(text: &mut ArrayVec<u8, RUN>, bytes: &[u8])
    requires room { array_vec_len text.old + length bytes.now ≤ 32 }
    ensures bytes { text.new.items ≡ text.old.items ++ bytes.now }
    ensures len { array_vec_len text.new ≡ array_vec_len text.old + length bytes.now }
{
    let Ok(()) = text.try_extend_from_slice(bytes) else {
        // There is room for a run.
        unreachable!()
    };
}

// A byte as two hexadecimal digits.
fn hex_byte(byte: u8) -> [u8; 2]
    ensures { result ≡ hex_byte byte }
{
    [hex_digit(byte >> 4), hex_digit(byte & 15)]
}

// A number below 16 as a hexadecimal digit.
fn hex_digit(number: u8) -> u8
    requires { number < 16 }
    ensures { result ≡ digit_glyph true number }
{
    if number < 10 {
        b'0' + number
    } else {
        b'A' + (number - 10)
    }
}

// Writes the space between a word and the one before it.
fn write_gap<W: Write>(out: &mut W, place: usize) -> io::Result<()>
    ensures text { OnOk result (Appends (W.contents out.old) (W.contents out.new) (gap place)) }
{
    if place > 0 {
        out.write_all(b" ")?;
    }
    Ok(())
}
