// The cache over a shelf, as runs of calls with what each is answered.
use crate::names::{Unit, addr, key, unit};
use crate::shelf::Shelf;
use ar_cache::{CAPACITY_LIMIT, Cache, Flush};
use ar_disks::{Addr, Block, Completion, Geometry, Key};
use std::alloc::{AllocError, Global};
use std::marker::Model;
use std::process::Abort;
use std::test::Fail;

/// A block of a unit: host, LUN and number in the unit.
type Name = (u8, u8, u32);

const FIRST: Name = (0, 0, 0);

const SECOND: Name = (0, 0, 1);

const THIRD: Name = (0, 0, 2);

const FOURTH: Name = (0, 0, 3);

const OF_ANOTHER_HOST: Name = (1, 0, 0);

const OF_ANOTHER_UNIT: Name = (0, 1, 0);

/// A call, or a question.
#[derive(Clone, Copy)]
enum Call {
    /// Puts a block of this byte throughout.
    Put(Name, u8),
    /// Puts this many blocks of the first unit, in order, of this byte throughout. Returns the last answer.
    PutAll(u32, u8),
    Read(Name),
    FlushOne,
    FlushKey(Name),
    FlushAll,
    Forget(Unit),
    /// How many blocks are cached.
    Len,
    /// How many of them are a unit's.
    LenOf(Unit),
    /// How many reads and writes came to the shelf.
    Asked,
}

#[derive(Clone, Copy, Debug, PartialEq)]
enum Answer {
    Done,
    Broken,
    Idle,
    Flushed(Name),
    /// A block of this byte throughout.
    Byte(u8),
    /// A block of different bytes.
    Mixed,
    Len(usize),
    Asked(u32, u32),
}

/// What a rig is made with.
#[derive(Clone, Copy)]
struct Setup {
    /// How many blocks the cache holds.
    capacity: u32,
    /// How many blocks of the first unit the shelf has, beside one each of two others.
    blocks: u32,
    /// After how many calls the shelf breaks.
    calls: u32,
}

/// A shelf that doesn't break.
const SOUND: Setup = Setup {
    capacity: 4,
    blocks: 4,
    calls: 1_000_000,
};

/// A cache of small blocks over a shelf, and a block to write from and to read into.
#[derive(Drop)]
struct Rig {
    setup: Setup,
    cache: Cache,
    shelf: Shelf,
    block: Block,
}

impl Model for Rig {
    ghost use Rattle.std.specs.Prelude.{◌≡◌, length};
    ghost use Rattle.ar_disks.specs.declared.geometry.Geometry.TheVariants.{Small};
    ghost use Rattle.ar_cache.specs.Cache.{CacheState};

    ghost Value = { CacheState };

    ghost view = { λ r. r.cache };

    ghost invariant = { λ r. (r.cache.geometry ≡ Small) × (length r.block ≡ 1024) };
}

fn named(rt: &impl Abort, name: Name) -> Key {
    let (host, lun, rb) = name;
    key(rt, (host, lun), rb)
}

fn name(key: Key) -> Name {
    let (host, lun) = unit(key.addr);
    (host, lun, key.rb)
}

fn stored(answer: Completion) -> Answer {
    match answer {
        Completion::Done => Answer::Done,
        Completion::Broken => Answer::Broken,
    }
}

fn flushed(answer: Flush) -> Answer {
    match answer {
        Flush::Flushed(key) => Answer::Flushed(name(key)),
        Flush::Idle => Answer::Idle,
        Flush::Broken => Answer::Broken,
    }
}

// What a block has throughout.
fn content(block: &Block) -> Answer {
    let first = block.bytes().first().copied().unwrap_or(0);
    if block.bytes() == [first; 1_024].as_slice() {
        Answer::Byte(first)
    } else {
        Answer::Mixed
    }
}

impl Rig {
    fn answer(&mut self, rt: &impl Abort, call: Call) -> Answer {
        match call {
            Call::Put(name, byte) => self.put(named(rt, name), byte),
            Call::PutAll(blocks, byte) => self.put_all(rt, blocks, byte),
            Call::Read(name) => self.read(named(rt, name)),
            Call::FlushOne => flushed(self.cache.flush_one(&mut self.shelf)),
            Call::FlushKey(name) => stored(self.cache.flush_key(named(rt, name), &mut self.shelf)),
            Call::FlushAll => stored(self.cache.flush_all(&mut self.shelf)),
            Call::Forget(unit) => self.forget(addr(rt, unit)),
            Call::Len => Answer::Len(self.cache.len()),
            Call::LenOf(unit) => Answer::Len(self.cache.len_of(addr(rt, unit))),
            Call::Asked => self.asked(),
        }
    }

    fn put(&mut self, key: Key, byte: u8) -> Answer {
        self.block.copy_from_slice(&[byte; 1_024]);
        stored(self.cache.put(key, self.block.bytes(), &mut self.shelf))
    }

    fn put_all(&mut self, rt: &impl Abort, blocks: u32, byte: u8) -> Answer {
        let mut last = Answer::Idle;
        for rb in 0..blocks {
            last = self.put(key(rt, (0, 0), rb), byte);
        }
        last
    }

    fn read(&mut self, key: Key) -> Answer {
        self.block.copy_from_slice(&[0xEE; 1_024]);
        match self.cache.get(key, self.block.bytes_mut(), &mut self.shelf) {
            Completion::Done => content(&self.block),
            Completion::Broken => Answer::Broken,
        }
    }

    fn forget(&mut self, addr: Addr) -> Answer {
        self.cache.forget(addr);
        Answer::Done
    }

    fn asked(&self) -> Answer {
        let (gets, puts) = self.shelf.asked();
        Answer::Asked(gets, puts)
    }
}

fn add(rt: &impl Abort, alloc: Global, shelf: &mut Shelf, name: Name) {
    let key = named(rt, name);
    if shelf.add(alloc, key).is_err() {
        assert!(rt; shelf.add(alloc, key).is_ok(), "{name:?} is not added");
    }
}

fn shelf(rt: &impl Abort, alloc: Global, setup: Setup) -> Shelf {
    let mut shelf = Shelf::new(alloc, setup.calls);
    add(rt, alloc, &mut shelf, OF_ANOTHER_HOST);
    add(rt, alloc, &mut shelf, OF_ANOTHER_UNIT);
    for rb in 0..setup.blocks {
        add(rt, alloc, &mut shelf, (0, 0, rb));
    }
    shelf
}

fn make_rig(rt: &impl Abort, alloc: Global, setup: Setup) -> Result<Rig, AllocError> {
    assert!(rt; setup.capacity <= CAPACITY_LIMIT);
    let cache = Cache::new(alloc, Geometry::SMALL, setup.capacity)?;
    let block = Block::new(alloc, Geometry::SMALL)?;
    Ok(Rig {
        setup,
        cache,
        shelf: shelf(rt, alloc, setup),
        block,
    })
}

// A new rig. What memory refuses is tried again.
fn new_rig(rt: &impl Abort, alloc: Global, setup: Setup) -> Result<Rig, AllocError> {
    match make_rig(rt, alloc, setup) {
        Ok(rig) => Ok(rig),
        Err(_) => make_rig(rt, alloc, setup),
    }
}

// Asserts that an answer is the one that is wanted in a row.
fn compare(rt: &impl Abort, setup: Setup, row: usize, met: Answer, wanted: Answer) {
    let (capacity, calls) = (setup.capacity, setup.calls);
    assert!(rt;
        met == wanted,
        "cache of {capacity}, {calls} calls: row {row} is answered {met:?}, not {wanted:?}"
    );
}

fn play(rt: &impl Abort, rig: &mut Rig, rows: &[(Call, Answer)]) {
    for (row, (call, wanted)) in rows.iter().enumerate() {
        let met = rig.answer(rt, *call);
        compare(rt, rig.setup, row, met, *wanted);
    }
}

// Plays rows on a new rig.
fn run<R: Abort + AllocGlobal>(rt: &R, setup: Setup, rows: &[(Call, Answer)]) -> Result<(), Fail> {
    let mut rig = new_rig(rt, rt.alloc(), setup)?;
    play(rt, &mut rig, rows);
    Ok(())
}

#[test]
fn a_cache_of_one_block(rt: HostRuntime) -> Result<(), Fail> {
    run(
        &rt,
        Setup {
            capacity: 1,
            ..SOUND
        },
        &[
            (Call::Put(FIRST, 0xAA), Answer::Done),
            (Call::Asked, Answer::Asked(0, 0)),
            (Call::Put(SECOND, 0xBB), Answer::Done),
            (Call::Asked, Answer::Asked(0, 1)),
            (Call::Read(FIRST), Answer::Byte(0xAA)),
            (Call::Asked, Answer::Asked(1, 1)),
            (Call::Put(SECOND, 0xCC), Answer::Done),
            (Call::Asked, Answer::Asked(1, 1)),
            (Call::FlushOne, Answer::Flushed(SECOND)),
            (Call::FlushOne, Answer::Idle),
            (Call::Asked, Answer::Asked(1, 2)),
            (Call::Read(SECOND), Answer::Byte(0xCC)),
        ],
    )
}

#[test]
fn a_block_put_again_is_flushed_last(rt: HostRuntime) -> Result<(), Fail> {
    run(
        &rt,
        SOUND,
        &[
            (Call::Put(FIRST, 1), Answer::Done),
            (Call::Put(SECOND, 2), Answer::Done),
            (Call::Put(FIRST, 3), Answer::Done),
            (Call::Len, Answer::Len(2)),
            (Call::FlushOne, Answer::Flushed(SECOND)),
            (Call::FlushOne, Answer::Flushed(FIRST)),
            (Call::FlushOne, Answer::Idle),
            (Call::Read(FIRST), Answer::Byte(3)),
        ],
    )
}

#[test]
fn blocks_of_each_unit(rt: HostRuntime) -> Result<(), Fail> {
    run(
        &rt,
        SOUND,
        &[
            (Call::LenOf((0, 0)), Answer::Len(0)),
            (Call::Put(FIRST, 1), Answer::Done),
            (Call::Put(OF_ANOTHER_HOST, 2), Answer::Done),
            (Call::Put(OF_ANOTHER_UNIT, 3), Answer::Done),
            (Call::Put(SECOND, 4), Answer::Done),
            (Call::LenOf((0, 0)), Answer::Len(2)),
            (Call::LenOf((1, 0)), Answer::Len(1)),
            (Call::LenOf((0, 1)), Answer::Len(1)),
            (Call::LenOf((1, 1)), Answer::Len(0)),
            (Call::Forget((0, 0)), Answer::Done),
            (Call::LenOf((0, 0)), Answer::Len(0)),
            (Call::LenOf((0, 1)), Answer::Len(1)),
        ],
    )
}

#[test]
fn a_read_leaves_the_order(rt: HostRuntime) -> Result<(), Fail> {
    run(
        &rt,
        Setup {
            capacity: 2,
            ..SOUND
        },
        &[
            (Call::Put(FIRST, 1), Answer::Done),
            (Call::Put(SECOND, 2), Answer::Done),
            (Call::Read(FIRST), Answer::Byte(1)),
            (Call::Asked, Answer::Asked(0, 0)),
            (Call::FlushOne, Answer::Flushed(FIRST)),
        ],
    )
}

#[test]
fn each_capacity(rt: HostRuntime) -> Result<(), Fail> {
    for (capacity, puts, len) in [(0, 4, 0), (1, 3, 1), (2, 2, 2), (CAPACITY_LIMIT, 0, 4)] {
        run(
            &rt,
            Setup { capacity, ..SOUND },
            &[
                (Call::Len, Answer::Len(0)),
                (Call::Put(FIRST, 7), Answer::Done),
                (Call::Put(SECOND, 7), Answer::Done),
                (Call::Put(THIRD, 7), Answer::Done),
                (Call::Put(FOURTH, 7), Answer::Done),
                (Call::Asked, Answer::Asked(0, puts)),
                (Call::Len, Answer::Len(len)),
                (Call::FlushAll, Answer::Done),
                (Call::Asked, Answer::Asked(0, 4)),
                (Call::Len, Answer::Len(0)),
                (Call::Read(FIRST), Answer::Byte(7)),
                (Call::Read(SECOND), Answer::Byte(7)),
                (Call::Read(THIRD), Answer::Byte(7)),
                (Call::Read(FOURTH), Answer::Byte(7)),
            ],
        )?;
    }
    Ok(())
}

// With memory enough none of 5,000 blocks is written through, and one more destages the first.
#[test]
fn a_cache_of_many_blocks(rt: HostRuntime) -> Result<(), Fail> {
    run(
        &rt,
        Setup {
            capacity: 5_000,
            blocks: 5_001,
            ..SOUND
        },
        &[
            (Call::PutAll(5_000, 7), Answer::Done),
            (Call::Asked, Answer::Asked(0, 0)),
            (Call::Len, Answer::Len(5_000)),
            (Call::Put((0, 0, 5_000), 8), Answer::Done),
            (Call::Asked, Answer::Asked(0, 1)),
            (Call::Len, Answer::Len(5_000)),
            (Call::FlushOne, Answer::Flushed(SECOND)),
            (Call::FlushAll, Answer::Done),
            (Call::Asked, Answer::Asked(0, 5_001)),
            (Call::Read(FIRST), Answer::Byte(7)),
            (Call::Read((0, 0, 5_000)), Answer::Byte(8)),
        ],
    )
}

#[test]
fn one_key_is_flushed(rt: HostRuntime) -> Result<(), Fail> {
    run(
        &rt,
        SOUND,
        &[
            (Call::Put(FIRST, 5), Answer::Done),
            (Call::Put(SECOND, 5), Answer::Done),
            (Call::Put(THIRD, 5), Answer::Done),
            (Call::FlushKey(SECOND), Answer::Done),
            (Call::Asked, Answer::Asked(0, 1)),
            (Call::Len, Answer::Len(2)),
            (Call::FlushKey(SECOND), Answer::Done),
            (Call::Asked, Answer::Asked(0, 1)),
            (Call::Len, Answer::Len(2)),
            (Call::FlushOne, Answer::Flushed(FIRST)),
            (Call::FlushOne, Answer::Flushed(THIRD)),
        ],
    )
}

#[test]
fn a_forgotten_unit_leaves_the_others(rt: HostRuntime) -> Result<(), Fail> {
    run(
        &rt,
        Setup {
            capacity: 8,
            ..SOUND
        },
        &[
            (Call::Put(FIRST, 1), Answer::Done),
            (Call::Put(OF_ANOTHER_HOST, 2), Answer::Done),
            (Call::Put(SECOND, 3), Answer::Done),
            (Call::Put(OF_ANOTHER_UNIT, 4), Answer::Done),
            (Call::Forget((0, 0)), Answer::Done),
            (Call::Asked, Answer::Asked(0, 0)),
            (Call::Read(FIRST), Answer::Byte(0)),
            (Call::Read(OF_ANOTHER_HOST), Answer::Byte(2)),
            (Call::Read(SECOND), Answer::Byte(0)),
            (Call::Read(OF_ANOTHER_UNIT), Answer::Byte(4)),
            (Call::FlushOne, Answer::Flushed(OF_ANOTHER_HOST)),
            (Call::FlushOne, Answer::Flushed(OF_ANOTHER_UNIT)),
            (Call::FlushOne, Answer::Idle),
        ],
    )
}

// A run on a cache of two blocks. Rows 2, 4, 5, 6 and 7 each call the shelf once.
const RUN: [(Call, Answer); 9] = [
    (Call::Put(FIRST, 1), Answer::Done),
    (Call::Put(SECOND, 2), Answer::Done),
    (Call::Put(THIRD, 3), Answer::Done),
    (Call::Put(SECOND, 4), Answer::Done),
    (Call::Read(FIRST), Answer::Byte(1)),
    (Call::Put(FOURTH, 5), Answer::Done),
    (Call::FlushKey(SECOND), Answer::Done),
    (Call::FlushAll, Answer::Done),
    (Call::Len, Answer::Len(0)),
];

// Plays the rows up to the one at which the shelf breaks, and then others.
fn play_to(rt: &impl Abort, rig: &mut Rig, rows: &[(Call, Answer)], others: &[(Call, Answer)]) {
    play(rt, rig, rows);
    play(rt, rig, others);
}

fn run_to<R: Abort + AllocGlobal>(
    rt: &R,
    calls: u32,
    rows: &[(Call, Answer)],
    others: &[(Call, Answer)],
) -> Result<(), Fail> {
    let setup = Setup {
        capacity: 2,
        calls,
        ..SOUND
    };
    let mut rig = new_rig(rt, rt.alloc(), setup)?;
    play_to(rt, &mut rig, rows, others);
    Ok(())
}

// The call that breaks the shelf is tried twice, and the entries stay.
#[test]
fn a_break_at_each_call(rt: HostRuntime) -> Result<(), Fail> {
    let put = (Call::Put(THIRD, 3), Answer::Broken);
    let two = (Call::Len, Answer::Len(2));
    run_to(&rt, 0, &RUN[..2], &[put, two, put, two])?;
    let read = (Call::Read(FIRST), Answer::Broken);
    run_to(&rt, 1, &RUN[..4], &[read, two, read, two])?;
    let put = (Call::Put(FOURTH, 5), Answer::Broken);
    run_to(&rt, 2, &RUN[..5], &[put, two, put, two])?;
    let flush = (Call::FlushKey(SECOND), Answer::Broken);
    run_to(&rt, 3, &RUN[..6], &[flush, two, flush, two])?;
    let flush = (Call::FlushAll, Answer::Broken);
    let one = (Call::Len, Answer::Len(1));
    run_to(&rt, 4, &RUN[..7], &[flush, one, flush, one])
}

#[test]
fn a_run_without_a_break(rt: HostRuntime) -> Result<(), Fail> {
    run(
        &rt,
        Setup {
            capacity: 2,
            calls: 5,
            ..SOUND
        },
        &RUN,
    )
}

#[test]
fn a_broken_shelf_leaves_the_entries(rt: HostRuntime) -> Result<(), Fail> {
    run(
        &rt,
        Setup { calls: 1, ..SOUND },
        &[
            (Call::Put(FIRST, 9), Answer::Done),
            (Call::Put(SECOND, 9), Answer::Done),
            (Call::Put(THIRD, 9), Answer::Done),
            (Call::FlushAll, Answer::Broken),
            (Call::Len, Answer::Len(2)),
            (Call::FlushOne, Answer::Broken),
            (Call::Len, Answer::Len(2)),
            (Call::Read(FIRST), Answer::Broken),
            (Call::Read(SECOND), Answer::Byte(9)),
            (Call::Put(SECOND, 8), Answer::Done),
            (Call::Read(SECOND), Answer::Byte(8)),
        ],
    )
}

#[test]
fn a_broken_shelf_is_reported_where_nothing_is_cached(rt: HostRuntime) -> Result<(), Fail> {
    run(
        &rt,
        Setup {
            capacity: 0,
            calls: 0,
            ..SOUND
        },
        &[(Call::Put(FIRST, 1), Answer::Broken)],
    )
}

// Run with each allocation refused in turn: the block is then on the shelf, and reads back.
#[test]
fn no_put_is_refused_for_memory(rt: HostRuntime) -> Result<(), Fail> {
    run(
        &rt,
        Setup {
            capacity: 2,
            ..SOUND
        },
        &[
            (Call::Put(FIRST, 11), Answer::Done),
            (Call::Read(FIRST), Answer::Byte(11)),
            (Call::Put(SECOND, 12), Answer::Done),
            (Call::Read(SECOND), Answer::Byte(12)),
            (Call::Put(THIRD, 13), Answer::Done),
            (Call::Read(THIRD), Answer::Byte(13)),
            (Call::Put(FIRST, 14), Answer::Done),
            (Call::Read(FIRST), Answer::Byte(14)),
            (Call::Put(FOURTH, 15), Answer::Done),
            (Call::Read(FOURTH), Answer::Byte(15)),
            (Call::Read(SECOND), Answer::Byte(12)),
            (Call::Read(THIRD), Answer::Byte(13)),
            (Call::Read(FIRST), Answer::Byte(14)),
            (Call::Read(FOURTH), Answer::Byte(15)),
            (Call::Put(FIRST, 21), Answer::Done),
            (Call::Read(FIRST), Answer::Byte(21)),
            (Call::Put(SECOND, 22), Answer::Done),
            (Call::Read(SECOND), Answer::Byte(22)),
            (Call::Put(THIRD, 23), Answer::Done),
            (Call::Read(THIRD), Answer::Byte(23)),
            (Call::Put(FIRST, 24), Answer::Done),
            (Call::Read(FIRST), Answer::Byte(24)),
            (Call::Put(FOURTH, 25), Answer::Done),
            (Call::Read(FOURTH), Answer::Byte(25)),
            (Call::Read(SECOND), Answer::Byte(22)),
            (Call::Read(THIRD), Answer::Byte(23)),
            (Call::Read(FIRST), Answer::Byte(24)),
            (Call::Read(FOURTH), Answer::Byte(25)),
            (Call::FlushAll, Answer::Done),
            (Call::Read(SECOND), Answer::Byte(22)),
            (Call::Read(THIRD), Answer::Byte(23)),
            (Call::Read(FIRST), Answer::Byte(24)),
            (Call::Read(FOURTH), Answer::Byte(25)),
        ],
    )
}

// Run with each allocation refused in turn: a cache that is full, and has let a block go before, takes a new one in
// without memory, so that it stays full.
#[test]
fn a_full_cache_takes_no_memory(rt: HostRuntime) -> Result<(), Fail> {
    run(
        &rt,
        Setup {
            capacity: 2,
            ..SOUND
        },
        &[
            (Call::Put(FIRST, 11), Answer::Done),
            (Call::Put(SECOND, 12), Answer::Done),
            (Call::Put(THIRD, 13), Answer::Done),
            (Call::Put(FOURTH, 14), Answer::Done),
            (Call::Put(FIRST, 15), Answer::Done),
            (Call::Put(SECOND, 16), Answer::Done),
            (Call::Len, Answer::Len(2)),
            (Call::Put(THIRD, 17), Answer::Done),
            (Call::Len, Answer::Len(2)),
            (Call::Put(FOURTH, 18), Answer::Done),
            (Call::Len, Answer::Len(2)),
            (Call::Put(FIRST, 19), Answer::Done),
            (Call::Len, Answer::Len(2)),
            (Call::Put(SECOND, 20), Answer::Done),
            (Call::Len, Answer::Len(2)),
        ],
    )
}

// The largest cache holds as many blocks as it may, and one more destages the first.
#[test]
fn the_largest_cache(rt: HostRuntime) -> Result<(), Fail> {
    run(
        &rt,
        Setup {
            capacity: 65_536,
            blocks: 65_537,
            ..SOUND
        },
        &[
            (Call::PutAll(65_536, 7), Answer::Done),
            (Call::Asked, Answer::Asked(0, 0)),
            (Call::Len, Answer::Len(65_536)),
            (Call::Put((0, 0, 65_536), 8), Answer::Done),
            (Call::Asked, Answer::Asked(0, 1)),
            (Call::Len, Answer::Len(65_536)),
            (Call::FlushOne, Answer::Flushed(SECOND)),
            (Call::Read((0, 0, 65_536)), Answer::Byte(8)),
        ],
    )
}
