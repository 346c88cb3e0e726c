// Transcripts that were tampered with, beside the history of which they were a part.
use crate::calls::{After, plays_rows};
use crate::rig::{Play, Rig, plays};
use ar_audit::first_difference;
use ar_disks::Host;
use ar_scsi::{Reply, Sense};
use ar_served::{Entry, Exchange};
use std::process::Abort;
use std::sync::ledger::Ledger;
use test_support::{Call, FOUR_GROUPS, Return, Row, Shape, filled};

/// What is done to a line of a transcript.
#[derive(Clone, Copy, Debug)]
enum Forgery {
    /// Another reply stands there.
    Reply,
    /// Another LUN.
    Lun,
    /// Another command block.
    Block,
    /// Other data came with the command.
    Data,
    LeftOut,
    Doubled,
}

/// What is done to one line, by its number, or nothing.
type Forged = Option<(Forgery, usize)>;

/// What is done to host 1's transcript of three commands, and where it differs then from the host's part of the
/// history.
const FORGERIES: [(Forged, Option<u64>); 12] = [
    (None, None),
    (Some((Forgery::Reply, 0)), Some(0)),
    (Some((Forgery::Reply, 2)), Some(2)),
    (Some((Forgery::Lun, 1)), Some(1)),
    (Some((Forgery::Block, 2)), Some(2)),
    (Some((Forgery::Data, 0)), Some(0)),
    (Some((Forgery::LeftOut, 0)), Some(0)),
    (Some((Forgery::LeftOut, 1)), Some(1)),
    // The transcript begins the part, or the part the transcript: the shorter one's length.
    (Some((Forgery::LeftOut, 2)), Some(2)),
    (Some((Forgery::Doubled, 0)), Some(1)),
    (Some((Forgery::Doubled, 1)), Some(2)),
    (Some((Forgery::Doubled, 2)), Some(3)),
];

/// Whose transcript is compared with whose part of the history, and where they differ: another host's, or one of a host
/// that did nothing.
const OTHERS: [(u8, u8, Option<u64>); 4] = [
    (1, 2, Some(0)),
    (1, 3, Some(0)),
    (3, 1, Some(0)),
    (3, 3, None),
];

#[test]
fn forged_transcripts_are_reported(rt: HostRuntime) {
    plays(&rt, FOUR_GROUPS, Play::Forge);
}

/// Hosts 1 and 2 send commands.
const FILLED: [Row; 7] = [
    (Call::Make(1, 0, 4), Return::Done),
    (Call::Make(2, 0, 4), Return::Done),
    (Call::Write(1, 0, 0, 2, 0xA1), Return::Good),
    (Call::Write(2, 0, 0, 2, 0xA2), Return::Good),
    (Call::Ready(1, 0), Return::Good),
    (Call::Read(2, 0, 0), Return::Sectors(0xA2, 0xA2)),
    (Call::Read(1, 0, 0), Return::Sectors(0xA1, 0xA1)),
];

/// Tampers with transcripts.
pub fn try_forgeries<L: Ledger, R: Abort + AllocGlobal>(rt: &R, shape: Shape, rig: &mut Rig<L>) {
    let after = After {
        entries: 7,
        commands: [0, 3, 2, 0],
        free_groups: 3,
    };
    plays_rows(rt, shape, rig, &FILLED, after);
    for (forgery, wanted) in &FORGERIES {
        try_forgery(rt, rig, *forgery, *wanted);
    }
    for (owner, host, wanted) in &OTHERS {
        differs(
            rt,
            rig.history(),
            *host,
            rig.transcript(*owner),
            *wanted,
            None,
        );
    }
}

fn try_forgery<L: Ledger, R: Abort + AllocGlobal>(
    rt: &R,
    rig: &Rig<L>,
    forgery: Forged,
    wanted: Option<u64>,
) {
    let forged = forged(rt, rig.transcript(1), forgery);
    differs(rt, rig.history(), 1, &forged, wanted, forgery);
    drop(forged);
}

fn differs(
    rt: &impl Abort,
    history: &[Entry],
    host: u8,
    transcript: &[Exchange],
    wanted: Option<u64>,
    forgery: Forged,
) {
    let host = Host::new(host % 4).unwrap();
    let met = first_difference(history, host, transcript);
    assert!(rt; met == wanted, "{forgery:?}: {met:?} of {host:?}");
}

// A transcript that was tampered with.
fn forged<R: Abort + AllocGlobal>(
    rt: &R,
    transcript: &[Exchange],
    forgery: Forged,
) -> Vec<Exchange> {
    let mut forged = Vec::new(rt.alloc());
    for (number, line) in transcript.iter().enumerate() {
        match forgery {
            Some((forgery, place)) if place == number => put_forged(rt, &mut forged, line, forgery),
            _ => put(rt, &mut forged, line),
        }
    }
    forged
}

fn put_forged<R: Abort + AllocGlobal>(
    rt: &R,
    forged: &mut Vec<Exchange>,
    line: &Exchange,
    forgery: Forgery,
) {
    if matches!(forgery, Forgery::LeftOut) {
        return;
    }
    put(rt, forged, line);
    match forged.last_mut() {
        Some(copy) => forge_line(rt, copy, forgery),
        None => {}
    }
    if matches!(forgery, Forgery::Doubled) {
        put(rt, forged, line);
    }
}

fn put(rt: &impl Abort, forged: &mut Vec<Exchange>, line: &Exchange) {
    forged.push(copied(rt, line)).ok().expect(rt, "memory");
}

fn copied(rt: &impl Abort, line: &Exchange) -> Exchange {
    let payload = line.payload.slice(0..line.payload.len());
    Exchange {
        lun: line.lun,
        cdb: line.cdb,
        payload: payload.expect(rt, "memory"),
        reply: line.reply.clone().expect(rt, "memory"),
    }
}

fn forge_line<R: Abort + AllocGlobal>(rt: &R, copy: &mut Exchange, forgery: Forgery) {
    match forgery {
        Forgery::Reply => copy.reply = Reply::check(Sense::INTERNAL_TARGET_FAILURE),
        Forgery::Lun => copy.lun = 1,
        Forgery::Block => copy.cdb[15] = 1,
        Forgery::Data => copy.payload = filled(rt.alloc(), 2, 0xA3).expect(rt, "memory"),
        _ => {}
    }
}
