// Tables of calls, played by way of the hosts' seats.
use crate::rig::Rig;
use ar_audit::Report;
use std::process::Abort;
use std::sync::ledger::Ledger;
use test_support::{Row, Shape, event, returned};

/// What a kept array holds after a table.
#[derive(Clone, Copy)]
pub struct After {
    /// The entries of the history.
    pub entries: u64,
    /// The commands of each host: in its transcript, in the history and by the audit.
    pub commands: [u64; 4],
    pub free_groups: u32,
}

/// Makes calls one after another, and compares what they return, and what is held then.
pub fn plays_rows<L: Ledger, R: Abort + AllocGlobal>(
    rt: &R,
    shape: Shape,
    rig: &mut Rig<L>,
    rows: &[Row],
    after: After,
) {
    for (number, row) in rows.iter().enumerate() {
        play_row(rt, shape, rig, number, *row);
    }
    holds(rt, rig, after);
    closes(rt, rig, after.commands);
}

fn play_row<L: Ledger, R: Abort + AllocGlobal>(
    rt: &R,
    shape: Shape,
    rig: &mut Rig<L>,
    number: usize,
    (call, wanted): Row,
) {
    let outcome = rig.step(event(rt.alloc(), shape, call).expect(rt, "memory"));
    let met = returned(&outcome);
    drop(outcome);
    assert!(rt;
        met == wanted,
        "row {number}: {call:?} returns {met:?}, not {wanted:?}"
    );
}

fn holds<L: Ledger>(rt: &impl Abort, rig: &Rig<L>, after: After) {
    let [a, b, c, d] = after.commands;
    let wanted = [after.entries, u64::from(after.free_groups), a, b, c, d];
    let met = [
        rig.history().len() as u64,
        u64::from(rig.free_groups()),
        rig.transcript(0).len() as u64,
        rig.transcript(1).len() as u64,
        rig.transcript(2).len() as u64,
        rig.transcript(3).len() as u64,
    ];
    assert!(rt;
        met == wanted,
        "entries, free groups, commands: {met:?}, not {wanted:?}"
    );
}

/// Asserts that each transcript is its host's part of the history, and the number of commands of each host.
pub fn closes<L: Ledger>(rt: &impl Abort, rig: &Rig<L>, commands: [u64; 4]) {
    let met = rig.close();
    assert!(rt; met == Ok(Report { commands }), "{met:?}, not {commands:?}");
}
