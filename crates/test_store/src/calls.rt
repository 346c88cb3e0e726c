// A store of one unit, calls of it, and their answers.
ghost use Rattle.std.specs.Prelude.{◌≡◌, ◌<◌, None, true};
ghost use Rattle.std.specs.Bool.{OnTrue};
ghost use Rattle.ar_disks.specs.Geometry.{rows_of};
ghost use Rattle.ar_extents.specs.Set.{HasExtent};
ghost use Rattle.ar_book.specs.Tables.{home, HasBlock};
ghost use Rattle.ar_store.specs.Placing.{is_put_in_place};

use crate::fixtures::{Shape, byte_of, filled, fused_disk, fused_disks};
use ar_balance::{Balance, balance_one};
use ar_book::{Class, Level, Slot};
use ar_disks::{Addr, Block, Completion, Disk, FuseDisk, Host, Key, Place, SECTOR_LEN};
use ar_extents::{DiskRefusal, Got, Health};
use ar_index::Steps;
use ar_moves::{Move, clean_one, demote_one};
use ar_rebuild::{Rebuild, rebuild_one};
use ar_store::{Opening, Store};
use std::alloc::Global;
use std::process::Abort;

/// A call that a test makes. What is written is one byte throughout.
#[derive(Clone, Copy)]
pub enum Call {
    /// Makes the unit, of this many sectors: two are a SMALL block.
    Make(u32),
    /// Makes it of all the blocks that there is room for.
    MakeAll,
    /// Makes it longer, to this many sectors.
    Grow(u32),
    /// Removes it.
    Remove,
    /// Asks whether it is marked, and clears the mark.
    Mark,
    /// Writes a block of it.
    Put(u32, u8),
    /// Writes each block of it in order, with bytes counted up from this one.
    PutEach(u8),
    /// Overwrites a sector of a block of it, which has to be in place.
    PutSector(u32, u8, u8),
    /// Asks whether a put overwrites a block in place.
    InPlace(u32),
    /// Reads a block of it.
    Get(u32),
    /// Reads each, and looks for bytes counted up from this one.
    GetEach(u8),
    /// Gives a block without a home one.
    Place(u32),
    /// Moves a block to the lowest hole of a class.
    Move(u32, Class),
    /// Opens a group.
    Open(Class),
    Demote,
    Clean,
    /// Adds a disk like the others.
    Add,
    /// Adds a disk of this many extents.
    AddOf(u16),
    Balance,
    /// Balances where a disk may be lost meanwhile, so that any answer but that of a broken store or of no memory will
    /// do.
    Try,
    /// Takes a disk out.
    TakeOut(u8),
    /// Replaces a disk by one of this many extents that passes this many calls.
    Replace(u8, u16, u64),
    Rebuild,
    /// Asks where a block stands.
    Home(u32),
    Level(u32),
    /// Asks what a group is used for, and how many blocks it has.
    Group(u32),
    Room,
    /// Asks how many extents of a disk are loose.
    Loose(u8),
    /// Reads a row as it stands on a disk: disk, extent, row.
    Row(u8, u16, u16),
    Health,
}

/// What a call met.
#[derive(Clone, Copy, Debug, PartialEq, Eq)]
pub enum Answer {
    Is(bool),
    Done,
    Broken,
    Missing,
    /// This byte stands there throughout.
    Byte(u8),
    /// The bytes differ.
    Mixed,
    /// This block is the first that was answered otherwise.
    Otherwise(u32),
    Opened(u32),
    /// The block stands in this slot of this group.
    At(u32, u16),
    Nowhere,
    Stands(Level),
    /// This block went to this slot of this group.
    Moved(u32, u32, u16),
    /// A block of another unit did.
    Foreign,
    Added,
    /// A group was formed, with this number.
    Formed(u32),
    /// This group's extent moved from the one disk to the other.
    Shifted(u32, u8, u8),
    NoMemory,
    Tried,
    /// This extent is done, and this many aren't.
    Rebuilt(u16, u16),
    Finished,
    GivenUp,
    Idle,
    Refused(DiskRefusal),
    /// The disk was refused, and one of this many extents returned.
    HandedBack(DiskRefusal, u16),
    Used(Class, u16),
    Count(u32),
    Now(Health),
    /// The call asks for what the store doesn't have, and wasn't made.
    Unfit,
}

/// A call, and what it has to return.
pub type Step = (Call, Answer);

/// Starts a store, and makes calls in turn: of each part, each step. Answers the health after them.
pub fn play(rt: &impl Abort, alloc: Global, shape: Shape, parts: &[&[Step]]) -> Health {
    let mut store = start(rt, alloc, shape);
    for steps in parts {
        go_on(rt, &mut store, alloc, shape, steps);
    }
    let health = store.health();
    drop(store);
    health
}

fn start(rt: &impl Abort, alloc: Global, shape: Shape) -> Store<FuseDisk> {
    match Store::start(alloc, fused_disks(alloc, shape).expect(rt, "memory")) {
        Ok(store) => store,
        Err((fault, _)) => panic!(rt; "{fault:?}"),
    }
}

fn go_on(
    rt: &impl Abort,
    store: &mut Store<FuseDisk>,
    alloc: Global,
    shape: Shape,
    steps: &[Step],
) {
    for (row, step) in steps.iter().enumerate() {
        let met = make_call(rt, store, alloc, shape, step.0);
        compare(rt, shape, row, *step, met);
    }
}

// Compares what a call returned with what it has to return. The shape and the row of its table say which one it is.
fn compare(rt: &impl Abort, shape: Shape, row: usize, step: Step, met: Answer) {
    let (_, wanted) = step;
    assert!(rt;
        met == wanted,
        "{met:?} in place of {wanted:?}, row {row} of its table, {shape:?}"
    );
}

fn make_call(
    rt: &impl Abort,
    store: &mut Store<FuseDisk>,
    alloc: Global,
    shape: Shape,
    call: Call,
) -> Answer {
    match call {
        Call::Make(sectors) => Answer::Is(store.make(unit(), sectors).is_ok()),
        Call::MakeAll => make_all(store),
        Call::Grow(sectors) => Answer::Is(store.grow(unit(), sectors).is_ok()),
        Call::Remove => Answer::Is(store.drop_unit(unit()).is_ok()),
        Call::Mark => mark(store),
        Call::Put(rb, byte) => put(rt, store, alloc, rb, byte),
        Call::PutSector(rb, sector, byte) => put_sector(rt, store, alloc, rb, sector, byte),
        Call::PutEach(first) => put_each(rt, store, alloc, first),
        Call::Get(rb) => get(rt, store, alloc, rb),
        Call::GetEach(first) => get_each(rt, store, alloc, first),
        Call::Place(rb) => place(store, rb),
        Call::Move(rb, class) => move_to_hole(store, rb, class),
        Call::Open(class) => open(store, class),
        Call::Demote => answer_of_move(demote_one(store)),
        Call::Clean => answer_of_move(clean_one(store)),
        Call::Add => add(rt, store, alloc, shape),
        Call::AddOf(extents) => add(rt, store, alloc, Shape { extents, ..shape }),
        Call::Balance => answer_of_balance(balance_one(store)),
        Call::Try => tried(answer_of_balance(balance_one(store))),
        Call::TakeOut(disk) => take_out(store, disk),
        Call::Replace(number, extents, calls) => {
            replace(rt, store, alloc, number, Shape { extents, ..shape }, calls)
        }
        Call::Rebuild => answer_of_rebuild(rebuild_one(store)),
        Call::Row(disk, extent, row) => read_row(rt, store, alloc, Place { disk, extent }, row),
        _ => ask(store, call),
    }
}

// Answers a call that changes nothing.
fn ask(store: &Store<FuseDisk>, call: Call) -> Answer {
    match call {
        Call::Home(rb) => store.book().home(key(rb)).map_or(Answer::Nowhere, at),
        Call::InPlace(rb) => Answer::Is(store.puts_in_place(key(rb))),
        Call::Level(rb) => Answer::Stands(store.book().level(key(rb))),
        Call::Group(number) => group(store, number),
        Call::Room => Answer::Count(store.book().room()),
        Call::Loose(disk) => loose(store, disk),
        Call::Health => Answer::Now(store.health()),
        _ => Answer::Unfit,
    }
}

// The one unit: the first of host 0.
fn unit() -> Addr {
    let host = Host::new(0).unwrap();
    Addr { host, lun: 0 }
}

fn key(rb: u32) -> Key {
    Key { addr: unit(), rb }
}

fn at(slot: Slot) -> Answer {
    Answer::At(slot.group, slot.slot)
}

fn answer_of(outcome: Completion) -> Answer {
    match outcome {
        Completion::Done => Answer::Done,
        Completion::Broken => Answer::Broken,
    }
}

fn answer_of_move(moved: Move) -> Answer {
    match moved {
        Move::Moved { key, to } if key.addr == unit() => Answer::Moved(key.rb, to.group, to.slot),
        Move::Moved { key: _, to: _ } => Answer::Foreign,
        Move::Idle => Answer::Idle,
        Move::Broken => Answer::Broken,
    }
}

fn answer_of_balance(did: Balance) -> Answer {
    match did {
        Balance::Formed(group) => Answer::Formed(group),
        Balance::Shifted { group, from, to } => Answer::Shifted(group, from, to),
        Balance::GivenUp => Answer::GivenUp,
        Balance::NoMemory => Answer::NoMemory,
        Balance::Idle => Answer::Idle,
        Balance::Broken => Answer::Broken,
    }
}

fn tried(answer: Answer) -> Answer {
    match answer {
        Answer::Broken | Answer::NoMemory => answer,
        _ => Answer::Tried,
    }
}

fn answer_of_rebuild(step: Rebuild) -> Answer {
    match step {
        Rebuild::Rebuilt(extent, left) => Answer::Rebuilt(extent, left),
        Rebuild::Finished => Answer::Finished,
        Rebuild::Idle => Answer::Idle,
        Rebuild::GivenUp => Answer::GivenUp,
        Rebuild::Broken => Answer::Broken,
    }
}

// Whether the unit has the block.
fn is_block(store: &Store<FuseDisk>, key: Key) -> bool
    ensures { OnTrue result (HasBlock store.now.book key) }
{
    key.rb < store.book().blocks(key.addr)
}

// Whether the unit has the block, and it has no home.
fn is_homeless(store: &Store<FuseDisk>, key: Key) -> bool
    ensures block { OnTrue result (HasBlock store.now.book key) }
    ensures unplaced { OnTrue result (home store.now.book key ≡ None) }
{
    is_block(store, key) && store.book().home(key).is_none()
}

// Whether the unit has the block, and a put overwrites it in place.
fn is_in_place(store: &Store<FuseDisk>, key: Key) -> bool
    ensures block { OnTrue result (HasBlock store.now.book key) }
    ensures in_place { OnTrue result (is_put_in_place store.now.book key ≡ true) }
{
    is_block(store, key) && store.puts_in_place(key)
}

fn put_sector(
    rt: &impl Abort,
    store: &mut Store<FuseDisk>,
    alloc: Global,
    rb: u32,
    sector: u8,
    byte: u8,
) -> Answer {
    let geometry = store.disks().geometry();
    let from = filled(rt, alloc, geometry, byte);
    let first = usize::from(sector);
    let key = key(rb);
    if first * SECTOR_LEN + SECTOR_LEN > geometry.block_len() {
        return Answer::Unfit;
    }
    if is_in_place(store, key) {
        answer_of(store.put_part(key, first, from.sector(0)))
    } else {
        Answer::Unfit
    }
}

fn make_all(store: &mut Store<FuseDisk>) -> Answer {
    let sectors = store.disks().geometry().sectors();
    let blocks = store.book().room();
    Answer::Is(store.make(unit(), blocks.saturating_mul(sectors)).is_ok())
}

fn mark(store: &mut Store<FuseDisk>) -> Answer {
    let marked = store.book().attention(unit());
    store.clear_attention(unit());
    Answer::Is(marked)
}

fn place(store: &mut Store<FuseDisk>, rb: u32) -> Answer {
    let key = key(rb);
    if is_homeless(store, key) {
        answer_of(store.place(key))
    } else {
        Answer::Unfit
    }
}

fn move_to_hole(store: &mut Store<FuseDisk>, rb: u32, class: Class) -> Answer {
    let key = key(rb);
    let (Some(_), Some(slot)) = (
        store.book().home(key),
        store.book().hole(class, &mut Steps::new()),
    ) else {
        return Answer::Unfit;
    };
    match store.move_rb(key, slot) {
        Completion::Done => at(slot),
        Completion::Broken => Answer::Broken,
    }
}

fn open(store: &mut Store<FuseDisk>, class: Class) -> Answer {
    let opening = match class {
        Class::Free => return Answer::Unfit,
        Class::Mirrored => store.open_group(Class::Mirrored),
        Class::Parity => store.open_group(Class::Parity),
    };
    match opening {
        Opening::Opened(group) => Answer::Opened(group),
        Opening::Idle => Answer::Idle,
        Opening::Broken => Answer::Broken,
    }
}

fn take_out(store: &mut Store<FuseDisk>, disk: u8) -> Answer {
    match store.fail(disk) {
        Ok(()) => Answer::Done,
        Err(refusal) => Answer::Refused(refusal),
    }
}

fn put(rt: &impl Abort, store: &mut Store<FuseDisk>, alloc: Global, rb: u32, byte: u8) -> Answer {
    let from = filled(rt, alloc, store.disks().geometry(), byte);
    let key = key(rb);
    if !is_block(store, key) {
        return Answer::Unfit;
    }
    answer_of(store.put(key, from.bytes()))
}

/// The byte of a block, where the first block has this one.
pub fn counted_up(first: u8, rb: u32) -> u8 {
    first.wrapping_add((rb % 256) as u8)
}

fn put_each(rt: &impl Abort, store: &mut Store<FuseDisk>, alloc: Global, first: u8) -> Answer {
    for rb in 0..store.book().blocks(unit()) {
        if put(rt, store, alloc, rb, counted_up(first, rb)) != Answer::Done {
            return Answer::Otherwise(rb);
        }
    }
    Answer::Done
}

// What stands in a block that was read.
fn read_into(block: &Block) -> Answer {
    byte_of(block.bytes()).map_or(Answer::Mixed, Answer::Byte)
}

fn get(rt: &impl Abort, store: &mut Store<FuseDisk>, alloc: Global, rb: u32) -> Answer {
    let mut into = filled(rt, alloc, store.disks().geometry(), 0xDD);
    match store.get(key(rb), into.bytes_mut()) {
        Completion::Done => read_into(&into),
        Completion::Broken => Answer::Broken,
    }
}

fn get_each(rt: &impl Abort, store: &mut Store<FuseDisk>, alloc: Global, first: u8) -> Answer {
    for rb in 0..store.book().blocks(unit()) {
        if get(rt, store, alloc, rb) != Answer::Byte(counted_up(first, rb)) {
            return Answer::Otherwise(rb);
        }
    }
    Answer::Done
}

fn add(rt: &impl Abort, store: &mut Store<FuseDisk>, alloc: Global, shape: Shape) -> Answer {
    let disk = fused_disk(alloc, shape, shape.fuses[4]).expect(rt, "memory");
    match store.add(disk) {
        Ok(()) => Answer::Added,
        Err((refusal, back)) => Answer::HandedBack(refusal, back.extents()),
    }
}

fn replace(
    rt: &impl Abort,
    store: &mut Store<FuseDisk>,
    alloc: Global,
    number: u8,
    shape: Shape,
    calls: u64,
) -> Answer {
    let disk = fused_disk(alloc, shape, calls).expect(rt, "memory");
    match store.replace(number, disk) {
        Ok(()) => Answer::Done,
        Err((refusal, back)) => Answer::HandedBack(refusal, back.extents()),
    }
}

fn group(store: &Store<FuseDisk>, number: u32) -> Answer {
    if number < store.book().groups() {
        Answer::Used(store.book().class(number), store.book().used(number))
    } else {
        Answer::Unfit
    }
}

fn loose(store: &Store<FuseDisk>, disk: u8) -> Answer {
    if disk < store.disks().count() {
        Answer::Count(u32::from(store.disks().loose(disk)))
    } else {
        Answer::Unfit
    }
}

// Whether the store has a row.
fn is_row(store: &Store<FuseDisk>, place: Place, row: u16) -> bool
    ensures extent { OnTrue result (HasExtent store.now.disks place) }
    ensures row { OnTrue result (row < rows_of store.now.disks.geometry) }
{
    let disks = store.disks();
    place.disk < disks.count() && place.extent < disks.extents() && row < disks.geometry().rows()
}

fn read_row(
    rt: &impl Abort,
    store: &mut Store<FuseDisk>,
    alloc: Global,
    place: Place,
    row: u16,
) -> Answer {
    let mut into = filled(rt, alloc, store.disks().geometry(), 0xDD);
    if !is_row(store, place, row) {
        return Answer::Unfit;
    }
    match store.read_place(place, row, into.bytes_mut()) {
        Got::Read => read_into(&into),
        Got::Missing => Answer::Missing,
        Got::Broken => Answer::Broken,
    }
}
