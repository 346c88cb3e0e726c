// Units that are made or removed while a session is open: what it reports of that, and when. The bytes are those of
// SPC-4.
ghost use Rattle.std.specs.Prelude.{◌≡◌};

use crate::answers::Wanted::{Check, Good};
use crate::answers::{
    ATTENTION, DONE, NEW_SESSION, NO_UNIT, Server, Wanted, logged_in, play, settled,
};

// REPORTED LUNS DATA HAS CHANGED.
const CHANGED: Wanted = Check(0x06, 0x3F, 0x0E);

// REPORT LUNS of all units, of which the list for LUNs 0, 3 and 5 has 24 bytes, and of well known ones.
const REPORT_LUNS: &[u8] = &[0xA0, 0, 0, 0, 0, 0, 0, 0, 0, 16];

const LUNS_FRONT: Wanted = Good(&[0, 0, 0, 24, 0, 0, 0, 0, 0, 0, 0, 0, 0, 0, 0, 0]);

const REPORT_WELL_KNOWN: &[u8] = &[0xA0, 0, 1, 0, 0, 0, 0, 0, 0, 16];

// One unit more was made or removed.
fn change(server: &mut Server)
    ensures { server.new.port.taken ≡ server.old.port.taken }
{
    server.port.changes = server.port.changes.saturating_add(1);
}

#[test]
fn each_unit_reports_a_change_once(rt: HostRuntime) {
    let mut server = settled(&rt, rt.alloc(), false);
    play(&rt, &mut server, &[(0, &[0x00], DONE)]);
    change(&mut server);
    change(&mut server);
    play(
        &rt,
        &mut server,
        &[
            (3, &[0x12, 0, 0, 0, 1], Good(&[0])),
            (7, &[0x00], NO_UNIT),
            (3, &[0x2A, 0, 0, 0, 0, 0, 0, 0, 0], CHANGED),
            (3, &[0x00], DONE),
            (0, &[0x35], CHANGED),
            (0, &[0x35], DONE),
        ],
    );
    change(&mut server);
    play(
        &rt,
        &mut server,
        &[
            (3, &[0x25], CHANGED),
            (0, &[0x1A, 8, 0x02, 0, 4], CHANGED),
            (3, &[0x00], DONE),
        ],
    );
    drop(server);
}

#[test]
fn request_sense_returns_a_change_as_data(rt: HostRuntime) {
    let mut server = settled(&rt, rt.alloc(), false);
    change(&mut server);
    play(
        &rt,
        &mut server,
        &[
            (
                0,
                &[0x03, 0, 0, 0, 18],
                Good(&[
                    0x70, 0, 6, 0, 0, 0, 0, 0x0A, 0, 0, 0, 0, 0x3F, 0x0E, 0, 0, 0, 0,
                ]),
            ),
            (0, &[0x03, 0, 0, 0, 3], Good(&[0x70, 0, 0])),
        ],
    );
    drop(server);
}

#[test]
fn a_list_of_the_units_clears_the_change_at_all(rt: HostRuntime) {
    let mut server = settled(&rt, rt.alloc(), false);
    change(&mut server);
    play(
        &rt,
        &mut server,
        &[
            (
                0,
                &[0xA0, 0, 0, 0, 0, 0, 0, 0, 0, 15],
                Check(0x05, 0x24, 0x00),
            ),
            (5, &[0x1A, 8, 0x08, 0, 4], CHANGED),
            (3, REPORT_LUNS, LUNS_FRONT),
            (0, &[0x00], DONE),
            (3, &[0x00], DONE),
        ],
    );
    change(&mut server);
    play(
        &rt,
        &mut server,
        &[(0, REPORT_WELL_KNOWN, Good(&[0; 8])), (3, &[0x00], DONE)],
    );
    drop(server);
}

#[test]
fn a_new_session_covers_a_change(rt: HostRuntime) {
    let mut server = logged_in(&rt, rt.alloc(), true);
    change(&mut server);
    play(
        &rt,
        &mut server,
        &[
            (3, &[0x00], NEW_SESSION),
            (3, &[0x00], ATTENTION),
            (3, &[0x00], DONE),
            (0, REPORT_LUNS, LUNS_FRONT),
            (0, &[0x00], NEW_SESSION),
            (0, &[0x00], DONE),
        ],
    );
    drop(server);
}

// A unit that was made after 4,114 others, 1012h, at its LUN: its serial number has all of that, the NAA designator
// twelve bits.
#[test]
fn a_unit_made_anew_has_another_name(rt: HostRuntime) {
    let mut server = settled(&rt, rt.alloc(), false);
    server.port.generation = 0x1012;
    play(
        &rt,
        &mut server,
        &[
            (
                3,
                &[0x12, 1, 0x80, 1, 0],
                Good(b"\x00\x80\x00\x1000000CBC02031012"),
            ),
            (3, &[0x12, 1, 0x83, 0, 44], Good(SHORT_NAMES)),
            (
                0,
                &[0x12, 1, 0x80, 1, 0],
                Good(b"\x00\x80\x00\x1000000CBC02000000"),
            ),
        ],
    );
    drop(server);
}

// The designators of its logical unit: T10 vendor ID based, and NAA 3h.
static SHORT_NAMES: &[u8] =
    b"\x00\x83\x00\x68\x02\x01\x00\x18AUTORAID00000CBC02031012\x01\x03\x00\x08\x30\x12\x00\x00\x0C\xBC\x02\x03";
