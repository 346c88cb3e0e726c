// What a book is asked to do and asked for, and how it answers: the words of the tables.
ghost use Rattle.std.specs.Prelude.{◌≢◌, ◌<◌, ℕ, IsTrue};
ghost use Rattle.ar_disks.specs.Members.{member, AreApart};
ghost use Rattle.ar_book.specs.Choices.{IsUnused, AreUnused};

use crate::names::{Unit, addr, key, unit};
use ar_book::{Book, Class, Level, Refusal, Slot};
use ar_disks::{Addr, Key, Members, Place};
use ar_index::Steps;
use std::process::Abort;

#[derive(Clone, Copy)]
pub enum Call {
    /// Forms a group of the extents with this number on the disks 0 to 3.
    Form(u16),
    /// Makes eight units of one sector for each of four hosts.
    MakeAll,
    SetMember(u32, u8, Place),
    Open(Class),
    /// Opens the last free group for parity.
    OpenLast,
    Make(Unit, u32),
    Grow(Unit, u32),
    Drop(Unit),
    ClearAttention(Unit),
    /// Gives a block the lowest hole of a class, and reports it.
    Place(Unit, u32, Class),
    /// The same, and stamps the block.
    Put(Unit, u32, Class),
    /// The same for a number of blocks of a unit, from one on; returns the last hole.
    PlaceAll(Unit, u32, u32, Class),
    Release(Unit, u32),
    Stamp(Unit, u32),
    Groups,
    FreeGroups,
    ClassOf(u32),
    Used(u32),
    KeyAt(u32, u16),
    LowestHole(u32),
    /// Whether a group stands on these extents.
    StandsOn(u32, Members),
    GroupAt(Place),
    Hole(Class),
    /// The full mirrored group, where this block waits for a home.
    FullMirrored(Unit, u32),
    SectorsOfABlock,
    Room,
    Units,
    UnitAt(usize),
    Sectors(Unit),
    Blocks(Unit),
    Attention(Unit),
    Home(Unit, u32),
    /// The class of the group where a block stands.
    LevelOf(Unit, u32),
    StampOf(Unit, u32),
    OldestMirrored,
}

#[derive(Clone, Copy, Debug, PartialEq)]
pub enum Answer {
    Done,
    Refused(Refusal),
    /// There is none, or the book may not be asked.
    Nothing,
    Is(bool),
    Number(u64),
    Class(Class),
    /// A slot of a group.
    Slot(u32, u16),
    /// A block of a unit.
    Block(Unit, u32),
    Unit(Unit),
}

fn granted(answer: Result<(), Refusal>) -> Answer {
    match answer {
        Ok(()) => Answer::Done,
        Err(refusal) => Answer::Refused(refusal),
    }
}

pub fn number(answer: u32) -> Answer {
    Answer::Number(answer.into())
}

fn some_number(answer: Option<u32>) -> Answer {
    match answer {
        Some(answer) => number(answer),
        None => Answer::Nothing,
    }
}

pub fn slot(answer: Option<Slot>) -> Answer {
    match answer {
        Some(slot) => Answer::Slot(slot.group, slot.slot),
        None => Answer::Nothing,
    }
}

fn level(answer: Level) -> Answer {
    match answer {
        Level::Unplaced => Answer::Nothing,
        Level::Mirrored => Answer::Class(Class::Mirrored),
        Level::Parity => Answer::Class(Class::Parity),
    }
}

fn block(answer: Option<Key>) -> Answer {
    match answer {
        Some(key) => Answer::Block(unit(key.addr), key.rb),
        None => Answer::Nothing,
    }
}

/// Asks the book, where its contracts allow it.
pub fn ask(rt: &impl Abort, book: &mut Book, call: Call) -> Answer {
    match call {
        Call::Form(extent) => form(book, extent),
        Call::SetMember(group, position, place) => set_member(book, group, position, place),
        Call::Open(class) => open(book, class),
        Call::OpenLast => open_last(book),
        Call::Make(unit, sectors) => granted(book.make(addr(rt, unit), sectors)),
        Call::MakeAll => make_all(rt, book),
        Call::Grow(unit, sectors) => granted(book.grow(addr(rt, unit), sectors)),
        Call::Drop(unit) => granted(book.drop_unit(addr(rt, unit))),
        Call::ClearAttention(unit) => clear_attention(book, addr(rt, unit)),
        Call::Place(unit, rb, class) => place(book, key(rt, unit, rb), class),
        Call::Put(unit, rb, class) => put(book, key(rt, unit, rb), class),
        Call::PlaceAll(unit, first, blocks, class) => place_all(
            rt, book, unit, first, blocks, class,
        ),
        Call::Release(unit, rb) => release(book, key(rt, unit, rb)),
        Call::Stamp(unit, rb) => stamp(book, key(rt, unit, rb)),
        _ => seen(rt, book, call),
    }
}

// Answers a question about the whole.
fn seen(rt: &impl Abort, book: &Book, call: Call) -> Answer {
    match call {
        Call::Groups => number(book.groups()),
        Call::FreeGroups => number(book.free_groups()),
        Call::GroupAt(place) => some_number(book.group_at(place)),
        Call::Hole(class) => slot(book.hole(class, &mut Steps::new())),
        Call::KeyAt(group, slot) => block(book.key_at(Slot { group, slot })),
        Call::OldestMirrored => block(book.oldest_mirrored()),
        Call::SectorsOfABlock => number(book.geometry().sectors()),
        Call::Room => number(book.room()),
        Call::Units => Answer::Number(book.units() as u64),
        Call::UnitAt(place) => unit_at(book, place),
        Call::ClassOf(group)
        | Call::Used(group)
        | Call::LowestHole(group)
        | Call::StandsOn(group, _) => { seen_of_group(book, group, call) }
        Call::Sectors(unit) | Call::Blocks(unit) | Call::Attention(unit) => {
            seen_of_unit(book, addr(rt, unit), call)
        }
        Call::Home(unit, rb)
        | Call::LevelOf(unit, rb)
        | Call::StampOf(unit, rb)
        | Call::FullMirrored(unit, rb) => { seen_of_block(book, key(rt, unit, rb), call) }
        _ => Answer::Nothing,
    }
}

fn seen_of_group(book: &Book, group: u32, call: Call) -> Answer {
    if group >= book.groups() {
        return Answer::Nothing;
    }
    match call {
        Call::ClassOf(_) => Answer::Class(book.class(group)),
        Call::Used(_) => Answer::Number(book.used(group).into()),
        Call::LowestHole(_) => some_number(book.lowest_hole(group).map(u32::from)),
        Call::StandsOn(_, members) => Answer::Is(book.members(group) == members),
        _ => Answer::Nothing,
    }
}

fn seen_of_unit(book: &Book, addr: Addr, call: Call) -> Answer {
    match call {
        Call::Sectors(_) => some_number(book.sectors(addr)),
        Call::Blocks(_) => number(book.blocks(addr)),
        Call::Attention(_) => Answer::Is(book.attention(addr)),
        _ => Answer::Nothing,
    }
}

fn seen_of_block(book: &Book, key: Key, call: Call) -> Answer {
    match call {
        Call::Home(_, _) => slot(book.home(key)),
        Call::LevelOf(_, _) => level(book.level(key)),
        Call::StampOf(_, _) => Answer::Number(book.stamp_of(key)),
        Call::FullMirrored(_, _) => full_mirrored(book, key),
        _ => Answer::Nothing,
    }
}

fn unit_at(book: &Book, place: usize) -> Answer {
    match book.unit_at(place) {
        Some(addr) => Answer::Unit(unit(addr)),
        None => Answer::Nothing,
    }
}

fn full_mirrored(book: &Book, waiting: Key) -> Answer {
    if waiting.rb >= book.blocks(waiting.addr) || book.home(waiting).is_some() {
        return Answer::Nothing;
    }
    if book.hole(Class::Mirrored, &mut Steps::new()).is_some()
        || book.hole(Class::Parity, &mut Steps::new()).is_some()
        || book.free_groups() != 1
    {
        return Answer::Nothing;
    }
    number(book.full_mirrored(&mut Steps::new()))
}

/// The extents with one number on the disks 0 to 3.
pub fn row(extent: u16) -> Members
    ensures { AreApart result }
{
    Members {
        first: Place { disk: 0, extent },
        second: Place { disk: 1, extent },
        third: Place { disk: 2, extent },
        fourth: Place { disk: 3, extent },
    }
}

fn is_unused(book: &Book, place: Place) -> bool
    ensures { IsTrue result → IsUnused book.now place }
{
    match book.group_at(place) {
        Some(_) => false,
        None => true,
    }
}

fn are_unused(book: &Book, members: Members) -> bool
    ensures { IsTrue result → AreUnused book.now members }
{
    if !is_unused(book, members.first) || !is_unused(book, members.second) {
        return false;
    }
    if !is_unused(book, members.third) || !is_unused(book, members.fourth) {
        return false;
    }
    true
}

fn form(book: &mut Book, extent: u16) -> Answer {
    let members = row(extent);
    if !are_unused(book, members) {
        return Answer::Nothing;
    }
    match book.form_group(members) {
        Ok(group) => number(group),
        Err(_) => Answer::Refused(Refusal::NoMemory),
    }
}

fn is_apart(members: Members, position: u8, place: Place) -> bool
    ensures { IsTrue result → (i : ℕ) → i < 4 → i ≢ position → (member members i).disk ≢ place.disk }
{
    (position == 0 || members.first.disk != place.disk)
        && (position == 1 || members.second.disk != place.disk)
        && (position == 2 || members.third.disk != place.disk)
        && (position == 3 || members.fourth.disk != place.disk)
}

fn set_member(book: &mut Book, group: u32, position: u8, place: Place) -> Answer {
    if group >= book.groups() || position > 3 || !is_unused(book, place) {
        return Answer::Nothing;
    }
    if !is_apart(book.members(group), position, place) {
        return Answer::Nothing;
    }
    book.set_member(group, position, place);
    Answer::Done
}

fn open(book: &mut Book, class: Class) -> Answer {
    match class {
        Class::Free => Answer::Nothing,
        Class::Mirrored => some_number(book.open_group(Class::Mirrored, &mut Steps::new())),
        Class::Parity => some_number(book.open_group(Class::Parity, &mut Steps::new())),
    }
}

// Opens the last free group for parity.
fn open_last(book: &mut Book) -> Answer {
    if book.free_groups() != 1 {
        return Answer::Nothing;
    }
    number(book.open_last(Class::Parity))
}

fn clear_attention(book: &mut Book, addr: Addr) -> Answer {
    book.clear_attention(addr);
    Answer::Done
}

fn place(book: &mut Book, key: Key, class: Class) -> Answer {
    let Some(hole) = book.hole(class, &mut Steps::new()) else {
        return Answer::Nothing;
    };
    if key.rb >= book.blocks(key.addr) {
        return Answer::Nothing;
    }
    book.assign(key, hole, &mut Steps::new());
    slot(Some(hole))
}

fn put(book: &mut Book, key: Key, class: Class) -> Answer {
    let Some(hole) = book.hole(class, &mut Steps::new()) else {
        return Answer::Nothing;
    };
    if key.rb >= book.blocks(key.addr) {
        return Answer::Nothing;
    }
    book.place(key, hole, &mut Steps::new());
    slot(Some(hole))
}

fn place_all(
    rt: &impl Abort,
    book: &mut Book,
    unit: Unit,
    first: u32,
    blocks: u32,
    class: Class,
) -> Answer {
    let mut last = Answer::Nothing;
    for block in 0..blocks {
        last = place(book, key(rt, unit, first.wrapping_add(block)), class);
    }
    last
}

fn make_all(rt: &impl Abort, book: &mut Book) -> Answer {
    let mut last = Answer::Nothing;
    for host in 0..4 {
        for lun in 0..8 {
            last = granted(book.make(addr(rt, (host, lun)), 1));
        }
    }
    last
}

fn release(book: &mut Book, key: Key) -> Answer {
    if key.rb >= book.blocks(key.addr) {
        return Answer::Nothing;
    }
    book.release(key, &mut Steps::new());
    Answer::Done
}

fn stamp(book: &mut Book, key: Key) -> Answer {
    if key.rb >= book.blocks(key.addr) {
        return Answer::Nothing;
    }
    book.stamp(key, &mut Steps::new());
    Answer::Done
}

/// Asserts that an answer is the one that is wanted in a row.
pub fn compare(rt: &impl Abort, row: usize, met: Answer, wanted: Answer) {
    assert!(rt;
        met == wanted,
        "row {row} is answered {met:?}, not {wanted:?}"
    );
}

/// Asserts that each call is answered as its row says.
pub fn play(rt: &impl Abort, book: &mut Book, rows: &[(Call, Answer)]) {
    for (row, (call, wanted)) in rows.iter().enumerate() {
        compare(rt, row, ask(rt, book, *call), *wanted);
    }
}

/// Forms this many groups.
pub fn form_groups(rt: &impl Abort, book: &mut Book, groups: u16) {
    for group in 0..groups {
        let met = ask(rt, book, Call::Form(group));
        compare(rt, group.into(), met, number(group.into()));
    }
}
