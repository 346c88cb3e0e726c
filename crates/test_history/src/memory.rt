// Memory that is refused. Here none is left at all; single allocations are refused in turn by the gate (`tests/`),
// and the last test goes on after any one of them.
use crate::calls::closes;
use crate::rig::{Play, Rig, plays};
use ar_core::{Refusal, UnitRefusal};
use ar_disks::FuseDisk;
use ar_history::Served;
use ar_scsi::Sense;
use ar_served::{Operation, OperationOf};
use bytes::Bytes;
use std::alloc::Global;
use std::process::Abort;
use std::sync::ledger::Ledger;
use test_support::{FOUR_GROUPS, Return, filled, returned, returned_of, unit_of};

const TEST_UNIT_READY: [u8; 16] = [0; 16];

/// INQUIRY for five bytes.
const INQUIRY: [u8; 16] = [0x12, 0, 0, 0, 5, 0, 0, 0, 0, 0, 0, 0, 0, 0, 0, 0];

/// More than is ever given at once.
const MOST_MEMORY: usize = 1 << 44;

// Takes the address space in pieces, the largest that are given first, down to 512 bytes.
fn take_all_memory(alloc: Global, held: &mut Vec<Vec<u8>>) {
    let mut size = MOST_MEMORY;
    for _ in 0..36 {
        take_pieces(alloc, held, size);
        size /= 2;
    }
}

fn take_pieces(alloc: Global, held: &mut Vec<Vec<u8>>, size: usize) {
    for _ in 0..20_000 {
        if !is_taken(alloc, held, size) {
            return;
        }
    }
}

fn is_taken(alloc: Global, held: &mut Vec<Vec<u8>>, size: usize) -> bool {
    match Vec::with_capacity(alloc, size) {
        Ok(piece) => held.push(piece).is_ok(),
        Err(_) => false,
    }
}

/// This many commands at least are in the history before it needs memory that isn't left.
const FILLED: u32 = 1_000;

/// This many commands at most need no growth of the history from there on.
const UNGROWN: u32 = 10_000;

#[test]
fn without_memory_commands_are_busy(rt: HostRuntime) {
    plays(&rt, FOUR_GROUPS, Play::Starve);
}

/// Takes all memory once the history is long, so that its next growth is refused, and gives it back.
pub fn starve<L: Ledger, R: Abort + AllocGlobal>(rt: &R, rig: &mut Rig<L>) {
    let busy = ask_until_busy(rig, FILLED);
    holds(rt, !busy, "BUSY with ample memory");
    let starved = see_starved(rt, rig);
    is_starved(rt, starved);
    is_served(rt, rig, starved.entries);
}

/// What was seen while there was no memory.
#[derive(Clone, Copy)]
struct Starved {
    busy: bool,
    /// Whether a create, a delete and two commands were refused.
    refused: [bool; 4],
    /// The entries of the history, and whether a refused command left it and the transcript as they were.
    entries: u64,
    kept: bool,
}

fn see_starved<L: Ledger, R: Abort + AllocGlobal>(rt: &R, rig: &mut Rig<L>) -> Starved {
    let mut held = Vec::with_capacity(rt.alloc(), 100_000).expect(rt, "memory");
    take_all_memory(rt.alloc(), &mut held);
    let starved = ask_starved(rig);
    drop(held);
    starved
}

fn ask_starved<L: Ledger>(rig: &mut Rig<L>) -> Starved {
    let busy = ask_until_busy(rig, UNGROWN);
    let entries = rig.history().len();
    let refused = are_refused(rig);
    Starved {
        busy,
        refused,
        entries: entries as u64,
        kept: recorded(rig, 0) == [entries as u64; 3],
    }
}

fn is_starved(rt: &impl Abort, starved: Starved) {
    let refused = starved.refused;
    holds(rt, starved.busy, "never BUSY");
    assert!(rt;
        refused == [true; 4],
        "a making, a removal and two commands: {refused:?}"
    );
    holds(rt, starved.kept, "a refused command is recorded");
}

fn holds(rt: &impl Abort, holds: bool, what: &str) {
    assert!(rt; holds, "{what}");
}

// Asks for TEST UNIT READY so often, or until it is BUSY.
fn ask_until_busy<L: Ledger>(rig: &mut Rig<L>, times: u32) -> bool {
    for _ in 0..times {
        if is_busy(rig, TEST_UNIT_READY) {
            return true;
        }
    }
    false
}

// Whether a create and a delete are refused out of memory, and two commands BUSY.
fn are_refused<L: Ledger>(rig: &mut Rig<L>) -> [bool; 4] {
    let addr = unit_of(0, 0);
    [
        is_no_memory(rig, OperationOf::Make(addr, 4)),
        is_no_memory(rig, OperationOf::Remove(addr)),
        is_busy(rig, TEST_UNIT_READY),
        is_busy(rig, INQUIRY),
    ]
}

fn operated<L: Ledger>(rig: &mut Rig<L>, operation: Operation<FuseDisk>) -> Return {
    let outcome = rig.operate(operation);
    let met = returned(&outcome);
    drop(outcome);
    met
}

fn is_no_memory<L: Ledger>(rig: &mut Rig<L>, operation: Operation<FuseDisk>) -> bool {
    operated(rig, operation) == Return::Refused(Refusal::Unit(UnitRefusal::NoMemory))
}

fn is_busy<L: Ledger>(rig: &mut Rig<L>, cdb: [u8; 16]) -> bool {
    let served = rig.host(0, 0, cdb, Bytes::new());
    let is_busy = is_reported_busy(&served);
    drop(served);
    is_busy
}

fn is_reported_busy(served: &Served) -> bool {
    returned_of(&served.reply) == Return::Busy && served.at.is_none()
}

// With memory again the same command is answered.
fn is_served<L: Ledger>(rt: &impl Abort, rig: &mut Rig<L>, entries: u64) {
    let served = rig.host(0, 0, TEST_UNIT_READY, Bytes::new());
    is_absent(rt, &served, entries);
    drop(served);
    closes(rt, rig, [entries.saturating_add(1), 0, 0, 0]);
}

fn is_absent(rt: &impl Abort, served: &Served, entries: u64) {
    let is_fine = returned_of(&served.reply) == Return::Check(Sense::LOGICAL_UNIT_NOT_SUPPORTED);
    assert!(rt; is_fine && served.at == Some(entries), "{served:?}");
}

/// A command of a host to its first unit.
#[derive(Clone, Copy, Debug)]
struct Ask {
    host: u8,
    cdb: [u8; 16],
    /// How many sectors of CC come with it.
    sectors: u8,
}

/// What is asked, and what is returned.
const ASKS: [(Ask, Return); 4] = [
    (
        Ask {
            host: 0,
            cdb: [0x2A, 0, 0, 0, 0, 0, 0, 0, 2, 0, 0, 0, 0, 0, 0, 0],
            sectors: 2,
        },
        Return::Good,
    ),
    (
        Ask {
            host: 0,
            cdb: [0x28, 0, 0, 0, 0, 0, 0, 0, 2, 0, 0, 0, 0, 0, 0, 0],
            sectors: 0,
        },
        Return::Sectors(0xCC, 0xCC),
    ),
    (
        Ask {
            host: 1,
            cdb: [0x28, 0, 0, 0, 0, 0, 0, 0, 2, 0, 0, 0, 0, 0, 0, 0],
            sectors: 0,
        },
        Return::Sectors(0, 0),
    ),
    (
        Ask {
            host: 1,
            cdb: TEST_UNIT_READY,
            sectors: 0,
        },
        Return::Good,
    ),
];

#[test]
fn a_refused_command_is_asked_again(rt: HostRuntime) {
    plays(&rt, FOUR_GROUPS, Play::AskAtLast);
}

/// Makes two units and sends commands, each once more where memory for it was refused.
pub fn ask_at_last<L: Ledger, R: Abort + AllocGlobal>(rt: &R, rig: &mut Rig<L>) {
    make_at_last(rt, rig, 0);
    make_at_last(rt, rig, 1);
    for (ask, wanted) in &ASKS {
        let served = served_at_last(rt, rig, *ask);
        is_given(rt, *ask, *wanted, &served);
        drop(served);
    }
    closes(rt, rig, [2, 2, 0, 0]);
}

fn make_at_last<L: Ledger>(rt: &impl Abort, rig: &mut Rig<L>, host: u8) {
    let entries = rig.history().len();
    if is_made(rig, host) {
        return;
    }
    holds(
        rt,
        rig.history().len() == entries,
        "a refused making is recorded",
    );
    let is_made = is_made(rig, host);
    assert!(rt; is_made, "a making of host {host}");
}

fn is_made<L: Ledger>(rig: &mut Rig<L>, host: u8) -> bool {
    operated(rig, OperationOf::Make(unit_of(host, 0), 4)) == Return::Done
}

fn served_at_last<L: Ledger, R: Abort + AllocGlobal>(rt: &R, rig: &mut Rig<L>, ask: Ask) -> Served {
    let before = recorded(rig, ask.host);
    let served = ask_once(rt, rig, ask);
    if returned_of(&served.reply) != Return::Busy {
        return served;
    }
    let is_unrecorded = served.at.is_none();
    drop(served);
    let after = recorded(rig, ask.host);
    holds(
        rt,
        is_unrecorded && after == before,
        "a BUSY command is recorded or counted",
    );
    ask_once(rt, rig, ask)
}

// The entries, the commands of a host's transcript, and those that were counted of it.
fn recorded<L: Ledger>(rig: &Rig<L>, host: u8) -> [u64; 3] {
    let counts = rig.counts();
    [
        rig.history().len() as u64,
        rig.transcript(host).len() as u64,
        counts.hosts[usize::from(host % 4)].commands,
    ]
}

fn ask_once<L: Ledger, R: Abort + AllocGlobal>(rt: &R, rig: &mut Rig<L>, ask: Ask) -> Served {
    let data = filled_at_last(rt, ask.sectors);
    rig.host(ask.host, 0, ask.cdb, data)
}

fn filled_at_last<R: Abort + AllocGlobal>(rt: &R, sectors: u8) -> Bytes {
    match filled(rt.alloc(), sectors, 0xCC) {
        Ok(data) => data,
        Err(_) => filled(rt.alloc(), sectors, 0xCC).expect(rt, "memory"),
    }
}

fn is_given(rt: &impl Abort, ask: Ask, wanted: Return, served: &Served) {
    let is_wanted = returned_of(&served.reply) == wanted && served.at.is_some();
    assert!(rt; is_wanted, "{ask:?}: {served:?}");
}
