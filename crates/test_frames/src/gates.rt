// Which calls a session makes of a gate, and how far each command has come by then.
ghost use Rattle.std.specs.Prelude.{◌≡◌, false, None};

use crate::sessions::{ABSENT, joined};
use ar_disks::Host;
use ar_frames::{EndReason, Gate, Login, MemSource, Port, SessionEnd, Sink, serve_gated};
use ar_scsi::Reply;
use bytes::Bytes;
use std::alloc::Global;
use std::cell::{Cell, RefCell};
use std::process::Abort;

#[derive(Clone, Copy, Debug, PartialEq, Eq)]
enum Call {
    Before,
    After,
}

// A call of the gate: its arguments, and how many commands were asked and bytes written when it came.
#[derive(Clone, Copy, Debug, PartialEq, Eq)]
struct Note {
    call: Call,
    host: u8,
    number: u64,
    asked: u64,
    written: u64,
}

// What the port, the writer and the gate of a session note.
#[derive(Drop)]
struct Notes {
    asked: Cell<u64>,
    written: Cell<u64>,
    said: RefCell<Vec<Note>>,
}

impl Notes {
    // A call for which no memory is found is lacking in the record, which then isn't the wanted one.
    fn note(&self, call: Call, host: Host, number: u64) {
        let said = Note {
            call,
            host: host.number(),
            number,
            asked: self.asked.get(),
            written: self.written.get(),
        };
        if let Ok(mut all) = self.said.try_borrow_mut() {
            let _ = all.push(said);
        }
    }
}

impl Gate for Notes {
    fn before(&self, host: Host, n: u64) {
        self.note(Call::Before, host, n);
    }

    fn after(&self, host: Host, n: u64) {
        self.note(Call::After, host, n);
    }
}

// Answers each command GOOD, and counts them.
#[derive(Drop)]
struct Asked<'a> {
    notes: &'a Notes,
    taken: bool,
}

impl Asked<'_> {
    fn new(notes: &Notes) -> Asked<'_>
        ensures { result.taken ≡ false }
    {
        Asked {
            notes,
            taken: false,
        }
    }
}

impl Port for Asked<'_> {
    ghost has_login = { λ port. port.taken };

    ghost logins = { λ old host answer new. Unit {0} };

    ghost commands = { λ old lun cdb payload reply new. Unit {0} };

    ghost refuses = { λ old cdb new. Unit {0} };

    fn login(&mut self, host: u8) -> Login {
        if host > 3 {
            return Login::BadHost;
        }
        self.taken = true;
        Login::Taken
    }

    fn command(&mut self, _lun: u8, _cdb: &[u8; 16], _payload: Bytes) -> Reply {
        let asked = self.notes.asked.get();
        self.notes.asked.set(asked.saturating_add(1));
        Reply::good(Bytes::new())
    }

    fn refuse(&mut self, _cdb: &[u8; 16]) -> Reply {
        Reply::busy()
    }
}

// Takes bytes and counts them, while there is room, and then faults.
#[derive(Drop)]
struct Written<'a> {
    notes: &'a Notes,
    room: usize,
    faults: u64,
}

impl Sink for Written<'_> {
    ghost state = { λ sink. record { taken = None; faults = sink.faults } };

    fn write(&mut self, from: &[u8]) -> Option<usize> {
        if self.room == 0 {
            self.faults = self.faults.saturating_add(1);
            return None;
        }
        let count = from.len().min(self.room);
        self.room -= count;
        let written = self.notes.written.get();
        self.notes.written.set(written.saturating_add(count as u64));
        Some(count)
    }

    fn faults(&self) -> u64 {
        self.faults
    }
}

// Plays a session with this much room for what it writes, and compares its end and all calls of the gate.
fn plays(
    rt: &impl Abort,
    alloc: Global,
    input: &[u8],
    room: usize,
    end: SessionEnd,
    wanted: &[Note],
) {
    let notes = Notes {
        asked: Cell::new(0),
        written: Cell::new(0),
        said: RefCell::new(Vec::new(alloc)),
    };
    let met = serves(rt, alloc, input, room, &notes);
    let said = notes.said.into_inner();
    is_same(rt, room, said.as_slice(), wanted);
    ends(rt, room, met, end);
    drop(said);
}

fn serves(rt: &impl Abort, alloc: Global, input: &[u8], room: usize, notes: &Notes) -> SessionEnd {
    let mut reader = MemSource::new(input.to_vec(alloc).expect(rt, "memory"));
    let mut writer = Written {
        notes,
        room,
        faults: 0,
    };
    let mut port = Asked::new(notes);
    serve_gated(alloc, &mut reader, &mut writer, &mut port, notes)
}

fn is_same(rt: &impl Abort, room: usize, said: &[Note], wanted: &[Note]) {
    assert!(rt; said == wanted, "{said:?} with room for {room} bytes");
}

fn ends(rt: &impl Abort, room: usize, met: SessionEnd, end: SessionEnd) {
    assert!(rt; met == end, "{met:?} with room for {room} bytes");
}

// The login of host 3.
const LOGIN: &[u8] = b"ARAIDHO1\x03";

fn before(number: u64, asked: u64, written: u64) -> Note {
    Note {
        call: Call::Before,
        host: 3,
        number,
        asked,
        written,
    }
}

fn after(number: u64, asked: u64, written: u64) -> Note {
    Note {
        call: Call::After,
        host: 3,
        number,
        asked,
        written,
    }
}

// The answer to the login has a byte, and the reply GOOD has 14.
fn three_answered() -> [Note; 6] {
    [
        before(1, 0, 1),
        after(1, 1, 15),
        before(2, 1, 15),
        after(2, 2, 29),
        before(3, 2, 29),
        after(3, 3, 43),
    ]
}

// Of the second reply there is room for 5 bytes.
fn second_unsent() -> [Note; 4] {
    [
        before(1, 0, 1),
        after(1, 1, 15),
        before(2, 1, 15),
        after(2, 2, 20),
    ]
}

#[test]
fn a_gate_is_reported_before_and_after_each_command(rt: HostRuntime) {
    let alloc = rt.alloc();
    // The last frame isn't whole, and isn't given to the port.
    let input = joined(&rt, alloc, &[LOGIN, ABSENT, ABSENT, ABSENT, &ABSENT[..20]]);
    for (room, frames, reason, said) in [
        (usize::MAX, 3, EndReason::Cut, &three_answered()[..]),
        (20, 2, EndReason::Write, &second_unsent()[..]),
    ] {
        plays(
            &rt,
            alloc,
            &input,
            room,
            SessionEnd { frames, reason },
            said,
        );
    }
}
