// What an array is asked, drawn: good things and bad ones, over the places of all hosts.
ghost use Rattle.std.specs.Prelude.{◌<◌, ◌≤◌, ◌*◌};

use rand::RngExt;
use rand::rngs::SmallRng;
use rand_core::Rng;
use std::alloc::{AllocError, Global};

/// A host's LUN.
#[derive(Clone, Copy, Debug, PartialEq, Eq)]
pub struct Place {
    /// 0 to 3.
    pub host: u8,
    pub lun: u8,
}

/// What an array is asked.
#[derive(Debug, Drop)]
pub enum Ask {
    /// A unit of this many sectors is made.
    Make(Place, u32),
    Remove(Place),
    /// A unit grows to this many sectors.
    Grow(Place, u32),
    /// A unit's cached blocks are destaged: all, since no unit that is drawn has more than one part.
    FlushUnit(Place),
    Work(Work),
    Command(Command),
    /// Sectors of a unit are discarded, a number of them from an address on.
    Unmap(Place, u64, u32),
}

/// Work in the background.
#[derive(Clone, Copy, Debug)]
pub enum Work {
    Flush,
    Demote,
    Clean,
    Balance,
    Rebuild,
}

/// A command block to a unit, with the data that come with it.
#[derive(Debug, Drop)]
pub struct Command {
    pub place: Place,
    pub cdb: [u8; 16],
    pub data: Vec<u8>,
}

const INQUIRY: u8 = 0x12;

const READ_CAPACITY_10: u8 = 0x25;

const READ_10: u8 = 0x28;

const WRITE_10: u8 = 0x2A;

const READ_16: u8 = 0x88;

const WRITE_16: u8 = 0x8A;

/// The LUNs that are drawn: those that can be made, and one more.
const LUNS: u8 = 9;

/// Draws the next event: mostly a command, and every second one of these valid and to a unit that is present. With a
/// host, each command is that host's, and so is each unit that another event is about.
pub(crate) fn draw(alloc: Global, rng: &mut SmallRng, host: Option<u8>) -> Result<Ask, AllocError> {
    let luns = if rng.random_ratio(3, 4) { 2 } else { LUNS };
    let mut place = draw_place(rng, luns);
    place.host = host.unwrap_or(place.host);
    Ok(match rng.random_range(0u8..40) {
        0 | 1 => Ask::Make(place, length(rng)),
        2 | 3 => Ask::Make(any_place(rng), length(rng)),
        // Any unit is removed as often as any other, so that the first ones, which more is asked of, stay a while.
        4 | 5 => Ask::Remove(any_place(rng)),
        6..=8 => Ask::Grow(place, length(rng)),
        9 => Ask::FlushUnit(place),
        kind @ 10..=14 => Ask::Work(work_of(kind)),
        _ => Ask::Command(draw_command(alloc, rng, place)?),
    })
}

/// Draws a discard: mostly of a range that a unit can have. With a host, it is that host's.
pub(crate) fn draw_discard(rng: &mut SmallRng, host: Option<u8>) -> Ask {
    let luns = if rng.random_ratio(3, 4) { 2 } else { LUNS };
    let mut place = draw_place(rng, luns);
    place.host = host.unwrap_or(place.host);
    let (lba, count) = discarded(rng);
    Ask::Unmap(place, lba, count)
}

// The range of a discard, now and then with an address or a number that no unit has.
fn discarded(rng: &mut SmallRng) -> (u64, u32) {
    let (lba, count) = range(rng);
    match rng.random_range(0u8..32) {
        0 => (u64::MAX, u32::from(count)),
        1 => (u64::from(lba), u32::MAX),
        _ => (u64::from(lba), u32::from(count)),
    }
}

fn work_of(kind: u8) -> Work {
    match kind {
        10 => Work::Flush,
        11 => Work::Demote,
        12 => Work::Clean,
        13 => Work::Balance,
        _ => Work::Rebuild,
    }
}

// One of the hosts, and one of this many LUNs.
fn draw_place(rng: &mut SmallRng, luns: u8) -> Place
    requires { 0 < luns }
{
    let host = rng.random_range(0u8..4);
    let lun = rng.random_range(0u8..luns);
    Place { host, lun }
}

fn any_place(rng: &mut SmallRng) -> Place {
    draw_place(rng, LUNS)
}

// How many sectors a unit is to have: mostly a few.
fn length(rng: &mut SmallRng) -> u32 {
    match rng.random_range(0u8..24) {
        0 => 0,
        1 => 1_048_576,
        2 => 1_048_577,
        3 => u32::MAX,
        _ => rng.random_range(1u32..22),
    }
}

fn draw_command(alloc: Global, rng: &mut SmallRng, place: Place) -> Result<Command, AllocError> {
    let mut cdb = block(rng);
    let len = data_len(rng, &cdb);
    let mut data = vec![in alloc; 0u8; len]?;
    rng.fill_bytes(&mut data);
    spoil(rng, &mut cdb);
    Ok(Command { place, cdb, data })
}

// A command block as a host may send it, now and then with fields that are not valid.
fn block(rng: &mut SmallRng) -> [u8; 16] {
    match rng.random_range(0u8..32) {
        // TEST UNIT READY.
        0 | 1 => [0; 16],
        2 | 3 => inquiry(rng),
        4 | 5 => capacity(rng),
        6 => unknown(rng),
        7..=13 => transfer_10(rng, READ_10),
        14..=21 => transfer_10(rng, WRITE_10),
        22..=25 => transfer_16(rng, READ_16),
        _ => transfer_16(rng, WRITE_16),
    }
}

// INQUIRY with an ALLOCATION LENGTH about that of its data, or of any size, and now and then EVPD or a PAGE CODE.
fn inquiry(rng: &mut SmallRng) -> [u8; 16] {
    let most = if rng.random_ratio(1, 4) { u16::MAX } else { 40 };
    let [high, low] = rng.random_range(0u16..=most).to_be_bytes();
    let evpd = u8::from(rng.random_ratio(1, 8));
    let page = u8::from(rng.random_ratio(1, 8));
    [
        INQUIRY, evpd, page, high, low, 0, 0, 0, 0, 0, 0, 0, 0, 0, 0, 0,
    ]
}

// READ CAPACITY (10) with an address or without, and with PMI or without.
fn capacity(rng: &mut SmallRng) -> [u8; 16] {
    let lba = rng.random_range(0u8..3);
    let pmi = u8::from(rng.random_ratio(1, 2));
    let mut cdb = [0; 16];
    cdb[0] = READ_CAPACITY_10;
    cdb[5] = lba;
    cdb[8] = pmi;
    cdb
}

// Any bytes at all.
fn unknown(rng: &mut SmallRng) -> [u8; 16] {
    let mut cdb = [0; 16];
    rng.fill_bytes(&mut cdb);
    cdb
}

// Where a transfer begins and how many sectors it has, now and then none: mostly a range that a unit can have.
fn range(rng: &mut SmallRng) -> (u8, u8) {
    let most = rng.random_range(0u8..22);
    let lba = rng.random_range(0u8..=most);
    let count = rng.random_range(0u8..8);
    (lba, count)
}

// The bit for FORCE UNIT ACCESS, set in one block of four.
fn fua(rng: &mut SmallRng) -> u8 {
    if rng.random_ratio(1, 4) { 1 << 3 } else { 0 }
}

fn transfer_10(rng: &mut SmallRng, code: u8) -> [u8; 16] {
    let (lba, count) = range(rng);
    let fua = fua(rng);
    [code, fua, 0, 0, 0, lba, 0, 0, count, 0, 0, 0, 0, 0, 0, 0]
}

fn transfer_16(rng: &mut SmallRng, code: u8) -> [u8; 16] {
    let (lba, count) = range(rng);
    let fua = fua(rng);
    [code, fua, 0, 0, 0, 0, 0, 0, 0, lba, 0, 0, 0, count, 0, 0]
}

// How many bytes a block asks for.
fn wanted_len(cdb: &[u8; 16]) -> usize
    ensures { result ≤ 255 * 512 }
{
    match cdb[0] {
        WRITE_10 => usize::from(cdb[8]) * 512,
        WRITE_16 => usize::from(cdb[13]) * 512,
        _ => 0,
    }
}

// How many bytes come with a block: mostly as many as it asks for.
fn data_len(rng: &mut SmallRng, cdb: &[u8; 16]) -> usize {
    let wanted = wanted_len(cdb);
    match rng.random_range(0u8..40) {
        0 => wanted + 1,
        1 => wanted.saturating_sub(1),
        2 => wanted + 512,
        3 => rng.random_range(0usize..2_048),
        _ => wanted,
    }
}

// Changes one block in eight: sets NACA, a protect field or every bit of the address, or flips any one bit.
fn spoil(rng: &mut SmallRng, cdb: &mut [u8; 16]) {
    let code = cdb[0];
    match rng.random_range(0u8..32) {
        0 => cdb[control_place(code)] |= 1 << 2,
        1 => cdb[1] |= rng.random_range(1u8..8) << 5,
        2 => cdb[2..address_end(code)].fill(0xFF),
        3 => {
            let place = rng.random_range(0usize..16);
            let bit = rng.random_range(0u32..8);
            cdb[place] ^= 1 << bit;
        }
        _ => {}
    }
}

// Where the CONTROL byte of a block stands, by its operation code: the last byte of 6, 10 or 16.
fn control_place(code: u8) -> usize
    ensures { result < 16 }
{
    match code {
        0x00..=0x1F => 5,
        0x20..=0x5F => 9,
        _ => 15,
    }
}

// Where the address in a block ends, which begins at byte 2.
fn address_end(code: u8) -> usize
    ensures above { 2 ≤ result }
    ensures within { result ≤ 16 }
{
    match code {
        READ_16 | WRITE_16 => 10,
        _ => 6,
    }
}
