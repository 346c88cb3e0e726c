// A book of four groups as plain lists, each read to its end, and a drawn run of calls that the space book answers as
// it does.
ghost use Rattle.std.specs.Prelude.{◌<◌};

use crate::calls::{Answer, Call, ask, compare, form_groups, number, slot};
use crate::names::Unit;
use ar_book::{Book, Class, Refusal, Slot};
use ar_disks::Geometry;
use std::process::Abort;

const GROUPS: u32 = 4;

/// Slots of a group with parity.
const SLOTS: u16 = 6;

/// Blocks of a unit that takes all the room.
const BLOCKS: u32 = 18;

const UNITS: [Unit; 3] = [(0, 0), (1, 0), (0, 1)];

/// A unit; where there is none its length is 0.
#[derive(Clone, Copy)]
struct Made {
    sectors: u32,
    attention: bool,
    /// When it was made, by a count.
    number: u32,
}

#[derive(Drop)]
struct Plain {
    units: [Made; 3],
    created: u32,
    /// The homes of the blocks of each unit in turn, and their stamps.
    homes: [Option<Slot>; 54],
    stamps: [u64; 54],
    stamp: u64,
    classes: [Class; 4],
}

fn index_of_unit(unit: Unit) -> usize
    ensures { result < 3 }
{
    match unit {
        (0, 0) => 0,
        (1, 0) => 1,
        _ => 2,
    }
}

fn index_of(unit: Unit, rb: u32) -> usize
    ensures { result < 54 }
{
    18 * index_of_unit(unit) + rb.min(17) as usize
}

fn slots_of(class: Class) -> u16 {
    match class {
        Class::Free => 0,
        Class::Mirrored => 4,
        Class::Parity => 6,
    }
}

fn block(block: Option<(Unit, u32)>) -> Answer {
    match block {
        Some((unit, rb)) => Answer::Block(unit, rb),
        None => Answer::Nothing,
    }
}

impl Plain {
    fn new() -> Plain {
        let none = Made {
            sectors: 0,
            attention: false,
            number: 0,
        };
        Plain {
            units: [none; 3],
            created: 0,
            homes: [None; 54],
            stamps: [0; 54],
            stamp: 0,
            classes: [Class::Free; 4],
        }
    }

    /// Answers a call as the space book has to.
    fn answer(&mut self, call: Call) -> Answer {
        match call {
            Call::Make(unit, sectors) => self.make(unit, sectors),
            Call::Grow(unit, sectors) => self.grow(unit, sectors),
            Call::Drop(unit) => self.drop_unit(unit),
            Call::Place(unit, rb, class) => self.place(unit, rb, class),
            Call::Put(unit, rb, class) => self.put(unit, rb, class),
            Call::Release(unit, rb) => self.release(unit, rb),
            Call::Stamp(unit, rb) => self.stamp(unit, rb),
            Call::Open(class) => self.open(class),
            _ => self.seen(call),
        }
    }

    fn seen(&self, call: Call) -> Answer {
        match call {
            Call::Groups => number(GROUPS),
            Call::FreeGroups => number(self.free_groups()),
            Call::ClassOf(group) => Answer::Class(self.class(group)),
            Call::Used(group) => Answer::Number(self.used(group).into()),
            Call::KeyAt(group, slot) => block(self.block_at(Slot { group, slot })),
            Call::Hole(class) => slot(self.hole(class)),
            Call::Room => number(self.room()),
            Call::Sectors(unit) => self.sectors(unit),
            Call::Attention(unit) => Answer::Is(self.made(unit).attention),
            Call::Home(unit, rb) => slot(self.home(unit, rb)),
            Call::LevelOf(unit, rb) => self.level(unit, rb),
            Call::StampOf(unit, rb) => Answer::Number(self.stamp_of(unit, rb)),
            Call::OldestMirrored => block(self.oldest_mirrored()),
            _ => Answer::Nothing,
        }
    }

    fn made(&self, unit: Unit) -> Made {
        self.units[index_of_unit(unit)]
    }

    fn sectors(&self, unit: Unit) -> Answer {
        match self.made(unit).sectors {
            0 => Answer::Nothing,
            sectors => number(sectors),
        }
    }

    fn blocks(&self, unit: Unit) -> u32 {
        self.made(unit).sectors.div_ceil(2)
    }

    fn room(&self) -> u32 {
        let mut room = BLOCKS;
        for unit in UNITS {
            room = room.saturating_sub(self.blocks(unit));
        }
        room
    }

    fn home(&self, unit: Unit, rb: u32) -> Option<Slot> {
        self.homes[index_of(unit, rb)]
    }

    fn stamp_of(&self, unit: Unit, rb: u32) -> u64 {
        self.stamps[index_of(unit, rb)]
    }

    fn class(&self, group: u32) -> Class {
        self.classes[group.min(3) as usize]
    }

    fn level(&self, unit: Unit, rb: u32) -> Answer {
        match self.home(unit, rb) {
            Some(home) => Answer::Class(self.class(home.group)),
            None => Answer::Nothing,
        }
    }

    fn block_at(&self, home: Slot) -> Option<(Unit, u32)> {
        for unit in UNITS {
            if let Some(rb) = self.block_of(unit, home) {
                return Some((unit, rb));
            }
        }
        None
    }

    fn block_of(&self, unit: Unit, home: Slot) -> Option<u32> {
        for rb in 0..BLOCKS {
            if self.home(unit, rb) == Some(home) {
                return Some(rb);
            }
        }
        None
    }

    fn used(&self, group: u32) -> u16 {
        let mut used = 0u16;
        for slot in 0..SLOTS {
            if self.block_at(Slot { group, slot }).is_some() {
                used = used.saturating_add(1);
            }
        }
        used
    }

    fn hole(&self, class: Class) -> Option<Slot> {
        for group in 0..GROUPS {
            if let Some(slot) = self.hole_in(group, class) {
                return Some(Slot { group, slot });
            }
        }
        None
    }

    fn hole_in(&self, group: u32, class: Class) -> Option<u16> {
        if self.class(group) != class {
            return None;
        }
        for slot in 0..slots_of(class) {
            if self.block_at(Slot { group, slot }).is_none() {
                return Some(slot);
            }
        }
        None
    }

    fn free_groups(&self) -> u32 {
        let mut free = 0u32;
        for class in self.classes {
            if class == Class::Free {
                free = free.saturating_add(1);
            }
        }
        free
    }

    // By stamp, then by the order in which units were created, then by number.
    fn age(&self, block: (Unit, u32)) -> (u64, u32, u32) {
        let (unit, rb) = block;
        (self.stamp_of(unit, rb), self.made(unit).number, rb)
    }

    // The block, where it is mirrored and older than another.
    fn older(&self, oldest: Option<(Unit, u32)>, unit: Unit, rb: u32) -> Option<(Unit, u32)> {
        if self.level(unit, rb) != Answer::Class(Class::Mirrored) {
            return oldest;
        }
        match oldest {
            Some(other) if self.age(other) < self.age((unit, rb)) => oldest,
            _ => Some((unit, rb)),
        }
    }

    fn oldest_of(&self, unit: Unit, oldest: Option<(Unit, u32)>) -> Option<(Unit, u32)> {
        let mut oldest = oldest;
        for rb in 0..BLOCKS {
            oldest = self.older(oldest, unit, rb);
        }
        oldest
    }

    fn oldest_mirrored(&self) -> Option<(Unit, u32)> {
        let mut oldest = None;
        for unit in UNITS {
            oldest = self.oldest_of(unit, oldest);
        }
        oldest
    }

    fn make(&mut self, unit: Unit, sectors: u32) -> Answer {
        let room = self.room();
        if self.made(unit).sectors > 0 {
            return Answer::Refused(Refusal::Exists);
        }
        if sectors == 0 {
            return Answer::Refused(Refusal::Size);
        }
        if sectors.div_ceil(2) > room {
            return Answer::Refused(Refusal::NoRoom(room));
        }
        self.created = self.created.saturating_add(1);
        self.units[index_of_unit(unit)] = Made {
            sectors,
            attention: false,
            number: self.created,
        };
        Answer::Done
    }

    fn grow(&mut self, unit: Unit, sectors: u32) -> Answer {
        let room = self.room();
        let made = self.made(unit);
        if made.sectors == 0 {
            return Answer::Refused(Refusal::Absent);
        }
        if sectors <= made.sectors {
            return Answer::Refused(Refusal::Size);
        }
        if sectors.div_ceil(2).saturating_sub(self.blocks(unit)) > room {
            return Answer::Refused(Refusal::NoRoom(room));
        }
        self.units[index_of_unit(unit)] = Made {
            sectors,
            attention: true,
            ..made
        };
        Answer::Done
    }

    fn drop_unit(&mut self, unit: Unit) -> Answer {
        let made = self.made(unit);
        if made.sectors == 0 {
            return Answer::Refused(Refusal::Absent);
        }
        for rb in 0..BLOCKS {
            self.leave(unit, rb);
            self.stamps[index_of(unit, rb)] = 0;
        }
        self.units[index_of_unit(unit)] = Made {
            sectors: 0,
            attention: false,
            ..made
        };
        Answer::Done
    }

    // Takes a block out of its slot, and frees the group where it was the last.
    fn leave(&mut self, unit: Unit, rb: u32) {
        let Some(home) = self.home(unit, rb) else {
            return;
        };
        self.homes[index_of(unit, rb)] = None;
        self.free_if_empty(home.group);
    }

    fn free_if_empty(&mut self, group: u32) {
        if self.used(group) == 0 {
            self.set_class(group, Class::Free);
        }
    }

    fn set_class(&mut self, group: u32, class: Class) {
        self.classes[group.min(3) as usize] = class;
    }

    fn place(&mut self, unit: Unit, rb: u32, class: Class) -> Answer {
        let Some(hole) = self.hole(class) else {
            return Answer::Nothing;
        };
        if rb >= self.blocks(unit) {
            return Answer::Nothing;
        }
        let former = self.home(unit, rb);
        self.homes[index_of(unit, rb)] = Some(hole);
        if let Some(former) = former {
            self.free_if_empty(former.group);
        }
        slot(Some(hole))
    }

    fn put(&mut self, unit: Unit, rb: u32, class: Class) -> Answer {
        let placed = self.place(unit, rb, class);
        if placed != Answer::Nothing {
            let _ = self.stamp(unit, rb);
        }
        placed
    }

    fn release(&mut self, unit: Unit, rb: u32) -> Answer {
        if rb >= self.blocks(unit) {
            return Answer::Nothing;
        }
        self.leave(unit, rb);
        Answer::Done
    }

    fn stamp(&mut self, unit: Unit, rb: u32) -> Answer {
        if rb >= self.blocks(unit) {
            return Answer::Nothing;
        }
        self.stamp = self.stamp.saturating_add(1);
        self.stamps[index_of(unit, rb)] = self.stamp;
        Answer::Done
    }

    fn open(&mut self, class: Class) -> Answer {
        if self.free_groups() < 2 {
            return Answer::Nothing;
        }
        let group = self.lowest_free();
        self.set_class(group, class);
        number(group)
    }

    fn lowest_free(&self) -> u32 {
        for group in 0..GROUPS {
            if self.class(group) == Class::Free {
                return group;
            }
        }
        GROUPS
    }
}

fn next(seed: &mut u64) -> u64 {
    *seed = seed
        .wrapping_mul(6_364_136_223_846_793_005)
        .wrapping_add(1_442_695_040_888_963_407);
    *seed >> 33
}

fn drawn_unit(seed: &mut u64) -> Unit {
    match next(seed) % 3 {
        0 => (0, 0),
        1 => (1, 0),
        _ => (0, 1),
    }
}

fn drawn_class(seed: &mut u64) -> Class {
    match next(seed) % 2 {
        0 => Class::Mirrored,
        _ => Class::Parity,
    }
}

fn draw(seed: &mut u64) -> Call {
    let choice = next(seed) % 12;
    let unit = drawn_unit(seed);
    let rb = (next(seed) % 18) as u32;
    let sectors = (next(seed) % 20) as u32;
    let class = drawn_class(seed);
    match choice {
        0 => Call::Make(unit, sectors),
        1 => Call::Grow(unit, sectors),
        2 if rb < 4 => Call::Drop(unit),
        3 => Call::Release(unit, rb),
        4 | 5 => Call::Stamp(unit, rb),
        6 | 7 => Call::Open(class),
        8 | 9 => Call::Put(unit, rb, class),
        _ => Call::Place(unit, rb, class),
    }
}

// Both books.
#[derive(Drop)]
struct Pair {
    book: Book,
    plain: Plain,
    /// How many calls were drawn.
    calls: usize,
}

impl Pair {
    // Asserts that both answer a call alike.
    fn compare(&mut self, rt: &impl Abort, call: Call) {
        let met = ask(rt, &mut self.book, call);
        let wanted = self.plain.answer(call);
        compare(rt, self.calls, met, wanted);
    }

    fn compare_each(&mut self, rt: &impl Abort, calls: &[Call]) {
        for call in calls {
            self.compare(rt, *call);
        }
    }

    fn compare_unit(&mut self, rt: &impl Abort, unit: Unit) {
        self.compare_each(rt, &[Call::Sectors(unit), Call::Attention(unit)]);
        for rb in 0..BLOCKS {
            let block = [
                Call::Home(unit, rb),
                Call::LevelOf(unit, rb),
                Call::StampOf(unit, rb),
            ];
            self.compare_each(rt, &block);
        }
    }

    fn compare_group(&mut self, rt: &impl Abort, group: u32) {
        self.compare_each(rt, &[Call::ClassOf(group), Call::Used(group)]);
        for slot in 0..SLOTS {
            self.compare(rt, Call::KeyAt(group, slot));
        }
    }

    fn compare_all(&mut self, rt: &impl Abort) {
        for unit in UNITS {
            self.compare_unit(rt, unit);
        }
        for group in 0..GROUPS {
            self.compare_group(rt, group);
        }
        let rest = [
            Call::Groups,
            Call::FreeGroups,
            Call::Room,
            Call::Hole(Class::Mirrored),
            Call::Hole(Class::Parity),
            Call::OldestMirrored,
        ];
        self.compare_each(rt, &rest);
    }

    fn run(&mut self, rt: &impl Abort) {
        let mut seed = 2026;
        for calls in 0..500 {
            self.calls = calls;
            self.compare(rt, draw(&mut seed));
            self.compare_all(rt);
        }
    }
}

#[test]
fn drawn_calls_are_answered_as_by_a_plain_book(rt: HostRuntime) {
    let mut book = Book::new(rt.alloc(), Geometry::SMALL);
    form_groups(&rt, &mut book, 4);
    let mut pair = Pair {
        book,
        plain: Plain::new(),
        calls: 0,
    };
    pair.run(&rt);
}
