// A drawn run: commands of four hosts, with units created, grown and deleted, and maintenance, between them. Each is
// answered as plain lists say, which share no code with the array, and the audit reports what was counted.
ghost use Rattle.std.specs.Prelude.{◌<◌, ◌^◌};

use crate::calls::closes;
use crate::rig::{Play, Rig, plays};
use ar_core::Outcome;
use ar_disks::FuseDisk;
use ar_history::Served;
use bytes::Bytes;
use std::process::Abort;
use std::sync::ledger::Ledger;
use test_support::{
    Answer, Ask, Command, FOUR_GROUPS, Kind, Run, Shape, Tally, agrees, event_of, is_same,
    kind_of_work,
};

/// The commands of a run.
const COMMANDS: u64 = 20_000;

/// More than a run has of everything.
const MOST: u32 = 50_000;

/// Sixteen groups. All but one have room for six blocks each.
const SIXTEEN_GROUPS: Shape = Shape {
    extents: 16,
    ..FOUR_GROUPS
};

const ROOM: u32 = 6 * 15;

/// How often each kind of answer comes at least.
const WANTED: u32 = 100;

/// How many commands each host has sent.
#[derive(Clone, Copy)]
struct Sent {
    commands: [u64; 4],
}

impl Sent {
    fn add(&mut self, host: u8) {
        let count = &mut self.commands[usize::from(host % 4)];
        *count = count.saturating_add(1);
    }

    fn total(&self) -> u64 {
        let mut total: u64 = 0;
        for count in self.commands {
            total = total.saturating_add(count);
        }
        total
    }
}

#[test]
fn drawn_commands_are_answered_as_by_plain_lists(rt: HostRuntime) {
    for cache in [0, 2] {
        let shape = Shape {
            cache,
            ..SIXTEEN_GROUPS
        };
        plays(&rt, shape, Play::Draw);
    }
}

/// Sends drawn commands, and what is between them.
pub fn ask_commands<L: Ledger, R: Abort + AllocGlobal>(rt: &R, shape: Shape, rig: &mut Rig<L>) {
    let mut run = Run::new(rt.alloc(), 7, ROOM);
    ask_in(rt, &mut run, rig);
    each_kind_came(rt, shape, &run.tally);
    drop(run);
}

fn ask_in<L: Ledger, R: Abort + AllocGlobal>(rt: &R, run: &mut Run, rig: &mut Rig<L>) {
    let mut sent = Sent { commands: [0; 4] };
    for _ in 0..MOST {
        if sent.total() == COMMANDS {
            break;
        }
        ask_next(rt, run, &mut sent, rig);
    }
    closes(rt, rig, sent.commands);
    has_entries(rt, rig.history().len() as u64, changes(&run.tally));
}

fn ask_next<L: Ledger, R: Abort + AllocGlobal>(
    rt: &R,
    run: &mut Run,
    sent: &mut Sent,
    rig: &mut Rig<L>,
) {
    let (ask, wanted) = run.next(None).expect(rt, "memory");
    match ask {
        Ask::Command(command) => {
            sent.add(command.place.host);
            send(rt, &command, &wanted, rig);
            drop(command);
        }
        other => step(rt, other, &wanted, &mut run.tally, rig),
    }
    drop(wanted);
}

// A creation, a resize or a removal, which is an entry of the history where it is done, or work in the background,
// which is none.
fn step<L: Ledger>(
    rt: &impl Abort,
    ask: Ask,
    wanted: &Answer,
    tally: &mut Tally,
    rig: &mut Rig<L>,
) {
    let entries = rig.history().len();
    let outcome = rig.step(event_of(ask).expect(rt, "memory"));
    does_agree(rt, &outcome, wanted);
    if *wanted == Answer::Open {
        tally.add(kind_of_work(&outcome));
    }
    drop(outcome);
    grew(rt, rig.history().len(), entries, *wanted == Answer::Done);
}

fn does_agree(rt: &impl Abort, outcome: &Outcome<FuseDisk>, wanted: &Answer) {
    assert!(rt; agrees(outcome, wanted), "{outcome:?} for {wanted:?}");
}

fn grew(rt: &impl Abort, entries: usize, before: usize, by_one: bool) {
    let wanted = before.saturating_add(usize::from(by_one));
    assert!(rt; entries == wanted, "{entries} entries for {wanted}");
}

fn send<L: Ledger, R: Abort + AllocGlobal>(
    rt: &R,
    command: &Command,
    wanted: &Answer,
    rig: &mut Rig<L>,
) {
    let Command { place, cdb, data } = command;
    let payload = Bytes::copy_from_slice(rt.alloc(), data).expect(rt, "memory");
    let entries = rig.history().len();
    let served = rig.host(place.host, place.lun, *cdb, payload);
    is_answered(rt, command, &served, wanted, entries);
    drop(served);
    grew(rt, rig.history().len(), entries, true);
}

// The answer is the one that is wanted, and comes after all entries before it.
fn is_answered(
    rt: &impl Abort,
    command: &Command,
    served: &Served,
    wanted: &Answer,
    entries: usize,
) {
    let is_wanted = match wanted {
        Answer::Replied(reply) => is_same(&served.reply, reply),
        _ => false,
    };
    assert!(rt;
        is_wanted && served.at == Some(entries as u64),
        "{command:?}, {entries} entries: {served:?} for {wanted:?}"
    );
}

fn changes(tally: &Tally) -> u64
    ensures { result < 2 ^ 34 }
{
    count(tally, Kind::Made) + count(tally, Kind::Grown) + count(tally, Kind::Removed)
}

fn has_entries(rt: &impl Abort, entries: u64, changes: u64)
    requires { changes < 2 ^ 34 }
{
    assert!(rt;
        entries == COMMANDS + changes,
        "{entries} entries with {changes} changes"
    );
}

fn count(tally: &Tally, kind: Kind) -> u64
    ensures { result < 2 ^ 32 }
{
    u64::from(tally.count(kind))
}

// A run that never met an answer would say nothing of it.
fn each_kind_came(rt: &impl Abort, shape: Shape, tally: &Tally) {
    let flaw = tally.flaw(WANTED, shape.cache > 0);
    assert!(rt; flaw.is_none(), "{flaw:?}: {shape:?}");
}
