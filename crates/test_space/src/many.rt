// Drawn events on a book of 1,024 groups, after each of which every search is compared with a plain scan.
ghost use Rattle.std.specs.Prelude.{◌<◌, length};

use crate::calls::{Answer, Call, ask, compare, form_groups, number};
use crate::names::Unit;
use ar_book::{Book, Class, Level, Slot, Summary};
use ar_disks::{Addr, Geometry, Key};
use ar_index::Steps;
use std::process::Abort;

const GROUPS: u16 = 1_024;

const EVENTS: u32 = 2_000;

// The next of a run of numbers that look drawn.
fn draw(seed: &mut u64) -> u32 {
    *seed = seed
        .wrapping_mul(6_364_136_223_846_793_005)
        .wrapping_add(1_442_695_040_888_963_407);
    (*seed >> 40) as u32
}

fn unit_of(number: u32) -> Unit {
    match number % 4 {
        0 => (0, 0),
        1 => (1, 0),
        2 => (0, 1),
        _ => (3, 7),
    }
}

fn class_of(number: u32) -> Class {
    if number % 2 == 0 {
        Class::Mirrored
    } else {
        Class::Parity
    }
}

fn event(seed: &mut u64) -> Call {
    let kind = draw(seed) % 64;
    let unit = unit_of(draw(seed));
    let rb = draw(seed) % 1_000;
    let class = class_of(draw(seed));
    match kind {
        0..=3 => Call::Make(unit, 3_000),
        4 => Call::Drop(unit),
        5..=20 => Call::Open(class),
        21..=28 => Call::Release(unit, rb),
        29..=36 => Call::Stamp(unit, rb),
        37..=40 => Call::PlaceAll(unit, rb, 50, class),
        41..=48 => Call::Put(unit, rb, class),
        _ => Call::Place(unit, rb, class),
    }
}

fn hole_in(book: &Book, group: u32, slots: u16) -> Option<Slot> {
    for slot in 0..slots {
        let slot = Slot { group, slot };
        if book.key_at(slot).is_none() {
            return Some(slot);
        }
    }
    None
}

fn plain_hole(book: &Book, class: Class, slots: u16) -> Option<Slot> {
    for group in 0..book.groups() {
        if book.class(group) == class {
            if let Some(slot) = hole_in(book, group, slots) {
                return Some(slot);
            }
        }
    }
    None
}

fn plain_free(book: &Book) -> u32 {
    let mut free: u32 = 0;
    for group in 0..book.groups() {
        if book.class(group) == Class::Free {
            free = free.wrapping_add(1);
        }
    }
    free
}

fn older(book: &Book, oldest: Option<Key>, key: Key) -> Option<Key> {
    if !matches!(book.level(key), Level::Mirrored) {
        return oldest;
    }
    match oldest {
        Some(first) if book.stamp_of(first) <= book.stamp_of(key) => oldest,
        _ => Some(key),
    }
}

fn older_of_unit(book: &Book, addr: Addr, oldest: Option<Key>) -> Option<Key> {
    let mut oldest = oldest;
    for rb in 0..book.blocks(addr) {
        oldest = older(book, oldest, Key { addr, rb });
    }
    oldest
}

fn plain_oldest(book: &Book) -> Option<Key> {
    let mut oldest = None;
    for place in 0..book.units() {
        if let Some(addr) = book.unit_at(place) {
            oldest = older_of_unit(book, addr, oldest);
        }
    }
    oldest
}

// What opening a group returns: the lowest free one, if two are free.
fn plain_opening(book: &Book) -> Answer {
    let mut lowest = None;
    for group in 0..book.groups() {
        if book.class(group) == Class::Free {
            match lowest {
                Some(lowest) => return number(lowest),
                None => lowest = Some(group),
            }
        }
    }
    Answer::Nothing
}

// Whether the first of two units comes before the other in the book.
fn is_before(book: &Book, one: Addr, other: Addr) -> bool {
    for place in 0..book.units() {
        let addr = book.unit_at(place);
        if addr == Some(one) {
            return true;
        }
        if addr == Some(other) {
            return false;
        }
    }
    false
}

// By stamp, then by the order of units, then by number.
fn is_older(book: &Book, one: Key, other: Key) -> bool {
    let (first, second) = (book.stamp_of(one), book.stamp_of(other));
    if first != second {
        return first < second;
    }
    if one.addr == other.addr {
        return one.rb < other.rb;
    }
    is_before(book, one.addr, other.addr)
}

fn oldest_of(book: &Book, oldest: Option<Key>, key: Key) -> Option<Key> {
    match oldest {
        Some(first) if is_older(book, first, key) => oldest,
        _ => Some(key),
    }
}

fn slots_of(class: Class) -> u16 {
    match class {
        Class::Free => 0,
        Class::Mirrored => 4,
        Class::Parity => 6,
    }
}

fn plain_summary(book: &Book, group: u32) -> Summary
    requires { group < length book.now.groups }
{
    let class = book.class(group);
    let slots = slots_of(class);
    let mut used: u16 = 0;
    let mut oldest = None;
    for slot in 0..slots {
        if let Some(key) = book.key_at(Slot { group, slot }) {
            used = used.wrapping_add(1);
            oldest = oldest_of(book, oldest, key);
        }
    }
    Summary {
        used,
        lowest_hole: hole_in(book, group, slots).map(|hole| hole.slot),
        oldest: oldest.filter(|_| class == Class::Mirrored),
    }
}

fn check_summaries(rt: &impl Abort, book: &Book, event: u32) {
    for group in 0..book.groups() {
        let summary = book.summary(group);
        let wanted = plain_summary(book, group);
        assert!(rt;
            summary == wanted,
            "group {group} after event {event}: {summary:?}, not {wanted:?}"
        );
    }
}

fn check_hole(rt: &impl Abort, book: &Book, class: Class, slots: u16, event: u32) {
    let hole = book.hole(class, &mut Steps::new());
    let wanted = plain_hole(book, class, slots);
    assert!(rt;
        hole == wanted,
        "hole {hole:?} after event {event}, not {wanted:?}"
    );
}

fn check_free(rt: &impl Abort, book: &Book, event: u32) {
    let free = book.free_groups();
    let wanted = plain_free(book);
    assert!(rt;
        free == wanted,
        "{free} free after event {event}, not {wanted}"
    );
}

fn check_oldest(rt: &impl Abort, book: &Book, event: u32) {
    let oldest = book.oldest_mirrored();
    let wanted = plain_oldest(book);
    assert!(rt;
        oldest == wanted,
        "oldest {oldest:?} after event {event}, not {wanted:?}"
    );
}

// What cleaning chooses in a class: the group that it empties, the block that leaves it, and the slot where that goes.
type Cleaning = (u32, Key, Slot);

fn cleaning(book: &Book, class: Class) -> Option<Cleaning> {
    let mut steps = Steps::new();
    let group = book.emptiest(class, &mut steps)?;
    let key = book.first_block(group, &mut steps);
    let hole = book.hole_beside(class, group, &mut steps);
    Some((group, key, hole))
}

fn holes_in(book: &Book, class: Class, group: u32) -> u16
    requires { group < length book.now.groups }
{
    if book.class(group) == class {
        slots_of(class).wrapping_sub(book.used(group))
    } else {
        0
    }
}

fn plain_holes(book: &Book, class: Class) -> u32 {
    let mut holes: u32 = 0;
    for group in 0..book.groups() {
        holes = holes.wrapping_add(holes_in(book, class, group).into());
    }
    holes
}

// Whether a group's blocks fit in `holes` less its own.
fn fits(book: &Book, class: Class, group: u32, holes: u32) -> bool
    requires { group < length book.now.groups }
{
    let others = holes.wrapping_sub(holes_in(book, class, group).into());
    u32::from(book.used(group)) <= others
}

fn emptier(book: &Book, class: Class, group: u32, former: Option<u32>) -> Option<u32>
    requires { group < length book.now.groups }
{
    if book.class(group) != class || book.used(group) == 0 {
        return former;
    }
    match former {
        Some(first) if first < group && book.used(first) <= book.used(group) => former,
        _ => Some(group),
    }
}

fn plain_emptiest(book: &Book, class: Class) -> Option<u32> {
    let holes = plain_holes(book, class);
    let mut emptiest = None;
    for group in 0..book.groups() {
        if fits(book, class, group, holes) {
            emptiest = emptier(book, class, group, emptiest);
        }
    }
    emptiest
}

fn first_in(book: &Book, class: Class, group: u32) -> Option<Key> {
    for slot in 0..slots_of(class) {
        if let Some(key) = book.key_at(Slot { group, slot }) {
            return Some(key);
        }
    }
    None
}

fn hole_but(book: &Book, class: Class, but: u32) -> Option<Slot> {
    for group in 0..book.groups() {
        if group != but && book.class(group) == class {
            if let Some(slot) = hole_in(book, group, slots_of(class)) {
                return Some(slot);
            }
        }
    }
    None
}

fn plain_cleaning(book: &Book, class: Class) -> Option<Cleaning> {
    let group = plain_emptiest(book, class)?;
    let key = first_in(book, class, group)?;
    Some((group, key, hole_but(book, class, group)?))
}

fn check_cleaning(rt: &impl Abort, book: &Book, class: Class, event: u32) {
    let chosen = cleaning(book, class);
    let wanted = plain_cleaning(book, class);
    assert!(rt;
        chosen == wanted,
        "cleaning {chosen:?} after event {event}, not {wanted:?}"
    );
}

fn run(rt: &impl Abort, book: &mut Book) {
    let mut seed = 2_026;
    for index in 0..EVENTS {
        let call = event(&mut seed);
        let opening = plain_opening(book);
        let met = ask(rt, book, call);
        if matches!(call, Call::Open(_)) {
            compare(rt, index as usize, met, opening);
        }
        check_hole(rt, book, Class::Mirrored, 4, index);
        check_hole(rt, book, Class::Parity, 6, index);
        check_free(rt, book, index);
        check_oldest(rt, book, index);
        // (These walk all groups several times.)
        if index % 16 == 0 {
            check_cleaning(rt, book, Class::Mirrored, index);
            check_cleaning(rt, book, Class::Parity, index);
            check_summaries(rt, book, index);
        }
    }
}

#[test]
fn every_search_is_as_a_plain_scan_after_each_event(rt: HostRuntime) {
    let mut book = Book::new(rt.alloc(), Geometry::SMALL);
    form_groups(&rt, &mut book, GROUPS);
    run(&rt, &mut book);
}
