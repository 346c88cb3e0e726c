// The space book: worked rows, the bounds of each refusal, and refused memory.
use crate::calls::{Answer, Call, ask, compare, form_groups, play, row};
use crate::names::Unit;
use ar_book::{Book, Class, Refusal};
use ar_disks::{Geometry, Members, Place};
use std::process::Abort;

fn check_text<R: Abort + AllocGlobal>(rt: &R, refusal: Refusal, text: &str) {
    let shown = refusal.to_string(rt.alloc()).expect(rt, text);
    assert!(rt; shown.as_str() == text, "{text}");
}

#[test]
fn refusals_print_their_number_and_name(rt: HostRuntime) {
    for (refusal, text) in [
        (Refusal::Exists, "M1 Exists"),
        (Refusal::Size, "M2 Size"),
        (Refusal::NoRoom(36), "M3 NoRoom 36"),
        (Refusal::NoMemory, "M4 NoMemory"),
        (Refusal::Absent, "M5 Absent"),
        (Refusal::BadLun, "M7 BadLun"),
    ] {
        check_text(&rt, refusal, text);
    }
}

// Plays rows on a book of this many groups.
fn run<R: Abort + AllocGlobal>(rt: &R, geometry: Geometry, groups: u16, rows: &[(Call, Answer)]) {
    let mut book = Book::new(rt.alloc(), geometry);
    form_groups(rt, &mut book, groups);
    play(rt, &mut book, rows);
}

const FIRST: Unit = (0, 0);

#[test]
fn a_unit_grows_into_the_room(rt: HostRuntime) {
    run(
        &rt,
        Geometry::SMALL,
        4,
        &[
            (Call::Make(FIRST, 3), Answer::Done),
            (Call::Room, Answer::Number(16)),
            (Call::Attention(FIRST), Answer::Is(false)),
            (Call::Grow(FIRST, 3), Answer::Refused(Refusal::Size)),
            (Call::Grow((0, 1), 8), Answer::Refused(Refusal::Absent)),
            (Call::Grow(FIRST, 37), Answer::Refused(Refusal::NoRoom(16))),
            (Call::Grow(FIRST, 6), Answer::Done),
            (Call::Room, Answer::Number(15)),
            (Call::Attention(FIRST), Answer::Is(true)),
            (Call::ClearAttention(FIRST), Answer::Done),
            (Call::Attention(FIRST), Answer::Is(false)),
            (Call::Grow(FIRST, 36), Answer::Done),
            (Call::Room, Answer::Number(0)),
            (Call::Sectors(FIRST), Answer::Number(36)),
            (Call::Grow(FIRST, 37), Answer::Refused(Refusal::NoRoom(0))),
            (Call::Drop(FIRST), Answer::Done),
            (Call::Drop(FIRST), Answer::Refused(Refusal::Absent)),
            (Call::Make(FIRST, 3), Answer::Done),
            (Call::Attention(FIRST), Answer::Is(false)),
        ],
    );
}

#[test]
fn equal_stamps_keep_the_units_order_where_an_earlier_unit_goes(rt: HostRuntime) {
    let mirrored = Class::Mirrored;
    run(
        &rt,
        Geometry::SMALL,
        4,
        &[
            (Call::Make((0, 0), 4), Answer::Done),
            (Call::Make((3, 0), 4), Answer::Done),
            (Call::Make((1, 0), 4), Answer::Done),
            (Call::Open(mirrored), Answer::Number(0)),
            (Call::Place((1, 0), 1, mirrored), Answer::Slot(0, 0)),
            (Call::Place((1, 0), 0, mirrored), Answer::Slot(0, 1)),
            (Call::Place((3, 0), 0, mirrored), Answer::Slot(0, 2)),
            (Call::Place((0, 0), 0, mirrored), Answer::Slot(0, 3)),
            (Call::Open(mirrored), Answer::Number(1)),
            (Call::Place((3, 0), 1, mirrored), Answer::Slot(1, 0)),
            (Call::Place((0, 0), 1, mirrored), Answer::Slot(1, 1)),
            (Call::OldestMirrored, Answer::Block((0, 0), 0)),
            (Call::Drop((0, 0)), Answer::Done),
            (Call::OldestMirrored, Answer::Block((3, 0), 0)),
            (Call::Hole(mirrored), Answer::Slot(0, 3)),
            (Call::Make((0, 0), 4), Answer::Done),
            (Call::Place((0, 0), 0, mirrored), Answer::Slot(0, 3)),
            (Call::OldestMirrored, Answer::Block((3, 0), 0)),
            (Call::Drop((3, 0)), Answer::Done),
            (Call::OldestMirrored, Answer::Block((1, 0), 0)),
            (Call::Hole(mirrored), Answer::Slot(0, 2)),
        ],
    );
}

#[test]
fn no_unit_is_made_without_a_group(rt: HostRuntime) {
    run(
        &rt,
        Geometry::SMALL,
        0,
        &[(Call::Make((1, 7), 1), Answer::Refused(Refusal::NoRoom(0)))],
    );
}

#[test]
fn refusals_come_in_their_order(rt: HostRuntime) {
    let made = (1, 7);
    let other = (2, 7);
    run(
        &rt,
        Geometry::SMALL,
        2,
        &[
            (Call::Make(made, 12), Answer::Done),
            (Call::Room, Answer::Number(0)),
            (Call::Make((1, 8), 0), Answer::Refused(Refusal::BadLun)),
            (Call::Make(made, 0), Answer::Refused(Refusal::Exists)),
            (Call::Make(other, 0), Answer::Refused(Refusal::Size)),
            (Call::Make(other, 1_048_577), Answer::Refused(Refusal::Size)),
            (
                Call::Make(other, 1_048_576),
                Answer::Refused(Refusal::NoRoom(0)),
            ),
            (Call::Make(other, 1), Answer::Refused(Refusal::NoRoom(0))),
            (Call::Grow(made, 12), Answer::Refused(Refusal::Size)),
            (Call::Grow(made, 1_048_577), Answer::Refused(Refusal::Size)),
        ],
    );
}

#[test]
fn units_of_the_least_and_the_greatest_length(rt: HostRuntime) {
    let second = (3, 0);
    run(
        &rt,
        Geometry::PAPER,
        172,
        &[
            (Call::Room, Answer::Number(8_208)),
            (Call::Make(FIRST, 1_048_576), Answer::Done),
            (Call::Blocks(FIRST), Answer::Number(8_192)),
            (Call::Make(second, 1), Answer::Done),
            (Call::Blocks(second), Answer::Number(1)),
            (Call::Room, Answer::Number(15)),
            (Call::Units, Answer::Number(2)),
            (Call::UnitAt(1), Answer::Unit(second)),
            (Call::UnitAt(2), Answer::Nothing),
        ],
    );
}

// With memory enough, as below: a growth by 782 blocks of 128 sectors, where 18 groups have room for 17 times 48.
#[test]
fn a_unit_grows_by_many_blocks(rt: HostRuntime) {
    run(
        &rt,
        Geometry::PAPER,
        18,
        &[
            (Call::Make(FIRST, 128), Answer::Done),
            (Call::Room, Answer::Number(815)),
            (Call::Grow(FIRST, 100_128), Answer::Done),
            (Call::Sectors(FIRST), Answer::Number(100_128)),
            (Call::Blocks(FIRST), Answer::Number(783)),
            (Call::Room, Answer::Number(33)),
        ],
    );
}

#[test]
fn each_host_makes_its_eight_units(rt: HostRuntime) {
    run(
        &rt,
        Geometry::SMALL,
        7,
        &[
            (Call::MakeAll, Answer::Done),
            (Call::Units, Answer::Number(32)),
            (Call::Room, Answer::Number(4)),
            (Call::UnitAt(0), Answer::Unit((0, 0))),
            (Call::UnitAt(31), Answer::Unit((3, 7))),
            (Call::UnitAt(32), Answer::Nothing),
        ],
    );
}

#[test]
fn a_book_of_many_groups(rt: HostRuntime) {
    run(
        &rt,
        Geometry::SMALL,
        1_024,
        &[
            (Call::Groups, Answer::Number(1_024)),
            (Call::FreeGroups, Answer::Number(1_024)),
            (Call::Room, Answer::Number(6_138)),
            (Call::StandsOn(1_023, row(1_023)), Answer::Is(true)),
        ],
    );
}

#[test]
fn a_full_book_is_squeezed(rt: HostRuntime) {
    run(
        &rt,
        Geometry::SMALL,
        4,
        &[
            (Call::Make(FIRST, 36), Answer::Done),
            (Call::Open(Class::Parity), Answer::Number(0)),
            (Call::Open(Class::Mirrored), Answer::Number(1)),
            (Call::Open(Class::Parity), Answer::Number(2)),
            (Call::Open(Class::Mirrored), Answer::Nothing),
            (
                Call::PlaceAll(FIRST, 0, 4, Class::Mirrored),
                Answer::Slot(1, 3),
            ),
            (
                Call::PlaceAll(FIRST, 4, 6, Class::Parity),
                Answer::Slot(0, 5),
            ),
            (
                Call::PlaceAll(FIRST, 10, 6, Class::Parity),
                Answer::Slot(2, 5),
            ),
            (Call::FullMirrored(FIRST, 17), Answer::Number(1)),
            (Call::OpenLast, Answer::Number(3)),
            (
                Call::PlaceAll(FIRST, 0, 4, Class::Parity),
                Answer::Slot(3, 3),
            ),
            (Call::FreeGroups, Answer::Number(1)),
            (Call::Home(FIRST, 0), Answer::Slot(3, 0)),
            (Call::LevelOf(FIRST, 17), Answer::Nothing),
            (Call::Hole(Class::Parity), Answer::Slot(3, 4)),
            (Call::Hole(Class::Mirrored), Answer::Nothing),
        ],
    );
}

#[test]
fn an_extent_of_a_group_is_replaced(rt: HostRuntime) {
    let place = Place { disk: 4, extent: 0 };
    let replaced = Members {
        first: place,
        ..row(1)
    };
    run(
        &rt,
        Geometry::SMALL,
        2,
        &[
            (Call::GroupAt(place), Answer::Nothing),
            (Call::SetMember(1, 0, place), Answer::Done),
            (Call::StandsOn(0, row(0)), Answer::Is(true)),
            (Call::StandsOn(1, replaced), Answer::Is(true)),
            (Call::GroupAt(place), Answer::Number(1)),
            (
                Call::GroupAt(Place { disk: 3, extent: 1 }),
                Answer::Number(1),
            ),
            (Call::GroupAt(Place { disk: 0, extent: 1 }), Answer::Nothing),
        ],
    );
}

#[test]
fn holes_of_a_group(rt: HostRuntime) {
    run(
        &rt,
        Geometry::SMALL,
        2,
        &[
            (Call::SectorsOfABlock, Answer::Number(2)),
            (Call::Make(FIRST, 12), Answer::Done),
            (Call::LowestHole(0), Answer::Nothing),
            (Call::Open(Class::Mirrored), Answer::Number(0)),
            (Call::LowestHole(0), Answer::Number(0)),
            (Call::Place(FIRST, 0, Class::Mirrored), Answer::Slot(0, 0)),
            (Call::Place(FIRST, 1, Class::Mirrored), Answer::Slot(0, 1)),
            (Call::Place(FIRST, 2, Class::Mirrored), Answer::Slot(0, 2)),
            (Call::Place(FIRST, 3, Class::Mirrored), Answer::Slot(0, 3)),
            (Call::LowestHole(0), Answer::Nothing),
            (Call::Release(FIRST, 2), Answer::Done),
            (Call::LowestHole(0), Answer::Number(2)),
        ],
    );
}

// A group of 48 slots, the most.
#[test]
fn holes_of_the_largest_group(rt: HostRuntime) {
    let parity = Class::Parity;
    run(
        &rt,
        Geometry::PAPER,
        3,
        &[
            (Call::Make(FIRST, 12_288), Answer::Done),
            (Call::Hole(parity), Answer::Nothing),
            (Call::Open(parity), Answer::Number(0)),
            (Call::PlaceAll(FIRST, 0, 47, parity), Answer::Slot(0, 46)),
            (Call::Hole(parity), Answer::Slot(0, 47)),
            (Call::Place(FIRST, 47, parity), Answer::Slot(0, 47)),
            (Call::Hole(parity), Answer::Nothing),
            (Call::LowestHole(0), Answer::Nothing),
            (Call::Release(FIRST, 47), Answer::Done),
            (Call::Hole(parity), Answer::Slot(0, 47)),
            (Call::Release(FIRST, 31), Answer::Done),
            (Call::Release(FIRST, 32), Answer::Done),
            (Call::Hole(parity), Answer::Slot(0, 31)),
            (Call::Place(FIRST, 50, parity), Answer::Slot(0, 31)),
            (Call::Hole(parity), Answer::Slot(0, 32)),
            (Call::Release(FIRST, 0), Answer::Done),
            (Call::LowestHole(0), Answer::Number(0)),
            (Call::Used(0), Answer::Number(45)),
        ],
    );
}

// Asks once more where memory was refused, which has left everything as it was.
fn ask_again(
    rt: &impl Abort,
    book: &mut Book,
    call: Call,
    met: Answer,
    unchanged: &[(Call, Answer)],
) -> Answer {
    if met != Answer::Refused(Refusal::NoMemory) {
        return met;
    }
    play(rt, book, unchanged);
    ask(rt, book, call)
}

// Asserts that a call is answered so at the first trial, or at the second.
fn try_twice(
    rt: &impl Abort,
    book: &mut Book,
    call: Call,
    wanted: Answer,
    unchanged: &[(Call, Answer)],
) {
    let first = ask(rt, book, call);
    compare(rt, 0, ask_again(rt, book, call, first, unchanged), wanted);
}

fn try_all_twice(rt: &impl Abort, book: &mut Book) {
    try_twice(
        rt,
        book,
        Call::Form(0),
        Answer::Number(0),
        &[(Call::Groups, Answer::Number(0))],
    );
    try_twice(
        rt,
        book,
        Call::Form(1),
        Answer::Number(1),
        &[(Call::Groups, Answer::Number(1))],
    );
    try_twice(
        rt,
        book,
        Call::Make(FIRST, 3),
        Answer::Done,
        &[
            (Call::Groups, Answer::Number(2)),
            (Call::Units, Answer::Number(0)),
            (Call::Sectors(FIRST), Answer::Nothing),
            (Call::Room, Answer::Number(6)),
        ],
    );
    try_twice(
        rt,
        book,
        Call::Grow(FIRST, 12),
        Answer::Done,
        &[
            (Call::Sectors(FIRST), Answer::Number(3)),
            (Call::Blocks(FIRST), Answer::Number(2)),
            (Call::Room, Answer::Number(4)),
            (Call::Attention(FIRST), Answer::Is(false)),
        ],
    );
    play(
        rt,
        book,
        &[
            (Call::Groups, Answer::Number(2)),
            (Call::Blocks(FIRST), Answer::Number(6)),
            (Call::Room, Answer::Number(0)),
        ],
    );
}

// Run with each allocation refused in turn: the book is then as it was, and the call is done at its second trial.
#[test]
fn refused_memory_changes_nothing(rt: HostRuntime) {
    let mut book = Book::new(rt.alloc(), Geometry::SMALL);
    try_all_twice(&rt, &mut book);
}
