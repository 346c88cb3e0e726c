// Command blocks and their answers, in tables.
ghost use Rattle.std.specs.Prelude.{◌≡◌, true};

use crate::fake::Fake;
use ar_frames::{Login, Port};
use ar_scsi::{Reply, Sense, Status};
use ar_target::{Attributes, DeviceServer, Request, data_out_len, request_of};
use bytes::Bytes;
use std::alloc::Global;
use std::process::Abort;

pub(crate) type Server = DeviceServer<Fake>;

#[derive(Clone, Copy)]
pub(crate) enum Wanted<'a> {
    /// GOOD, with these bytes.
    Good(&'a [u8]),
    /// CHECK CONDITION with a sense: key, code and qualifier.
    Check(u8, u8, u8),
}

use Wanted::{Check, Good};

// A LUN, a command block, and its reply.
type Row<'a> = (u8, &'a [u8], Wanted<'a>);

pub(crate) const DONE: Wanted = Good(&[]);

pub(crate) const ATTENTION: Wanted = Check(0x06, 0x2A, 0x09);

pub(crate) const NEW_SESSION: Wanted = Check(0x06, 0x29, 0x00);

pub(crate) const NO_UNIT: Wanted = Check(0x05, 0x25, 0x00);

pub(crate) const INVALID: Wanted = Check(0x05, 0x24, 0x00);

pub(crate) const FAILED: Wanted = Check(0x04, 0x44, 0x00);

// A device server of array 0CBCh with a cache and blocks of 128 sectors, at which host 2 is logged in.
pub(crate) fn logged_in(rt: &impl Abort, alloc: Global, attention: bool) -> Server
    ensures { result.port.taken ≡ true }
{
    let attributes = Attributes {
        array: 3260,
        host: 0,
        write_back: true,
        block_sectors: 128,
    };
    let mut server = DeviceServer::new(alloc, Fake::new(alloc, attention), attributes);
    match server.login(2) {
        Login::Taken => server,
        login => panic!(rt; "{login:?}"),
    }
}

// The same, once each unit has reported that the session is new.
pub(crate) fn settled(rt: &impl Abort, alloc: Global, attention: bool) -> Server
    ensures { result.port.taken ≡ true }
{
    let mut server = logged_in(rt, alloc, attention);
    play(
        rt,
        &mut server,
        &[
            (0, &[0x00], NEW_SESSION),
            (3, &[0x00], NEW_SESSION),
            (5, &[0x00], NEW_SESSION),
        ],
    );
    server
}

// A command block, padded to 16 bytes.
pub(crate) fn padded(cdb: &[u8]) -> [u8; 16] {
    let mut block = [0; 16];
    let len = cdb.len().min(16);
    block[..len].copy_from_slice(&cdb[..len]);
    block
}

pub(crate) fn is_wanted(reply: &Reply, wanted: Wanted) -> bool {
    match wanted {
        Good(bytes) => {
            reply.status == Status::Good
                && reply.sense.is_none()
                && reply.payload.as_slice() == bytes
        }
        Check(key, asc, ascq) => *reply == Reply::check(Sense { key, asc, ascq }),
    }
}

fn check(rt: &impl Abort, server: &mut Server, number: usize, row: Row)
    requires { server.old.port.taken ≡ true }
    ensures { server.new.port.taken ≡ true }
{
    let (lun, cdb, wanted) = row;
    let reply = server.command(lun, &padded(cdb), Bytes::new());
    assert!(rt;
        is_wanted(&reply, wanted),
        "row {number}, counted from 0: {reply:?}"
    );
}

// Gives the server these commands in order.
pub(crate) fn play(rt: &impl Abort, server: &mut Server, rows: &[Row])
    requires { server.old.port.taken ≡ true }
    ensures { server.new.port.taken ≡ true }
{
    for (number, row) in rows.iter().enumerate() {
        check(rt, server, number, *row);
    }
}

// The standard INQUIRY data of a unit, with TPGS 01b and CMDQUE, and versions of SAM-3, iSCSI, SPC-3 and SBC-3.
static STANDARD: &[u8] = b"\x00\x00\x05\x02\x45\x10\x00\x02AUTORAIDTWO LEVEL ARRAY 0001\
\0\0\0\0\0\0\0\0\0\0\0\0\0\0\0\0\0\0\0\0\0\0\x00\x60\x09\x60\x03\x00\x04\xC0\0\0\0\0\0\0\0\0";

// The Device Identification page of host 2's LUN 3.
static NAMES: &[u8] = &[
    0x00, 0x83, 0x00, 0x68, // 104 bytes of designators
    0x02, 0x01, 0x00, 0x18, // in ASCII, of the logical unit, T10 vendor ID based, 24 bytes
    b'A', b'U', b'T', b'O', b'R', b'A', b'I', b'D', //
    b'0', b'0', b'0', b'0', b'0', b'C', b'B', b'C', b'0', b'2', b'0', b'3', //
    b'0', b'0', b'0', b'0', //
    0x01, 0x03, 0x00, 0x08, // in binary, of the logical unit, NAA, 8 bytes
    0x30, 0x00, 0x00, 0x00, 0x0C, 0xBC, 0x02, 0x03, //
    0x51, 0x94, 0x00, 0x04, // in binary, of the target port over iSCSI, relative target port, 4 bytes
    0x00, 0x00, 0x00, 0x01, //
    0x51, 0x95, 0x00, 0x04, // in binary, of the target port, target port group, 4 bytes
    0x00, 0x00, 0x00, 0x01, //
    0x53, 0x98, 0x00, 0x2C, // in UTF-8, of the target port, SCSI name string, 44 bytes
    b'i', b'q', b'n', b'.', b'2', b'0', b'2', b'6', b'-', b'1', b'1', b'.', b'e', b'x', b'a', b'm',
    b'p', //
    b'l', b'e', b'.', b'a', b'u', b't', b'o', b'r', b'a', b'i', b'd', b':', b'h', b'o', b's', b't',
    b'2', //
    b',', b't', b',', b'0', b'x', b'0', b'0', b'0', b'1', 0x00,
];

// The Block Limits page with blocks of 128 sectors.
static LIMITS: &[u8] = &[
    0, 0xB0, 0, 0x3C, 1, 0, 0, 128, // WSNZ, optimal transfer length granularity
    0, 0, 0xFF, 0xFF, 0, 0, 8, 0, // maximum and optimal transfer length
    0, 0, 0, 0, 0, 0x10, 0, 0, // maximum prefetch length, maximum unmap LBA count
    0, 0, 1, 0, 0, 0, 0, 128, // maximum unmap block descriptor count, optimal unmap granularity
    0x80, 0, 0, 0, // UGAVALID, unmap granularity alignment
    0, 0, 0, 0, 0, 0x10, 0, 0, // maximum WRITE SAME length
    0, 0, 0, 0, 0, 0, 0, 0, 0, 0, 0, 0, 0, 0, 0, 0, 0, 0, 0, 0,
];

#[test]
fn pages_of_vital_product_data(rt: HostRuntime) {
    let mut server = settled(&rt, rt.alloc(), false);
    play(
        &rt,
        &mut server,
        &[
            (
                0,
                &[0x12, 1, 0x00, 0, 255],
                Good(&[0, 0, 0, 6, 0x00, 0x80, 0x83, 0xB0, 0xB1, 0xB2]),
            ),
            (0, &[0x12, 1, 0x00, 0, 4], Good(&[0, 0, 0, 6])),
            (
                0,
                &[0x12, 1, 0x80, 1, 0],
                Good(b"\x00\x80\x00\x1000000CBC02000000"),
            ),
            (
                3,
                &[0x12, 1, 0x80, 1, 0],
                Good(b"\x00\x80\x00\x1000000CBC02030000"),
            ),
            (3, &[0x12, 1, 0x83, 0, 255], Good(NAMES)),
            (0, &[0x12, 1, 0xB0, 0, 255], Good(LIMITS)),
            (
                0,
                &[0x12, 1, 0xB1, 0, 8],
                Good(&[0, 0xB1, 0, 0x3C, 0, 1, 0, 0]),
            ),
            (
                0,
                &[0x12, 1, 0xB2, 0, 255],
                Good(&[0, 0xB2, 0, 4, 0, 0xE4, 2, 0]),
            ),
            (0, &[0x12, 1, 0xB3, 0, 255], INVALID),
            (0, &[0x12, 0, 0x80, 0, 255], INVALID),
            (0, &[0x12, 1, 0x00, 0, 255, 0x04], INVALID),
            (7, &[0x12, 1, 0x00, 0, 255], Good(&[0x7F, 0, 0, 1, 0x00])),
            (7, &[0x12, 1, 0x80, 0, 255], INVALID),
            (9, &[0x12, 1, 0x80, 0, 5], FAILED),
        ],
    );
    drop(server);
}

// LUNs 0, 3 and 5.
static LUNS: &[u8] = &[
    0, 0, 0, 24, 0, 0, 0, 0, 0, 0, 0, 0, 0, 0, 0, 0, 0, 3, 0, 0, 0, 0, 0, 0, 0, 5, 0, 0, 0, 0, 0, 0,
];

#[test]
fn logical_units_are_listed(rt: HostRuntime) {
    let mut server = settled(&rt, rt.alloc(), false);
    play(
        &rt,
        &mut server,
        &[
            (7, &[0xA0, 0, 0, 0, 0, 0, 0, 0, 1, 0], Good(LUNS)),
            (0, &[0xA0, 0, 2, 0, 0, 0, 0, 0, 0, 16], Good(&LUNS[..16])),
            (0, &[0xA0, 0, 1, 0, 0, 0, 0, 0, 1, 0], Good(&[0; 8])),
            (0, &[0xA0, 0, 3, 0, 0, 0, 0, 0, 1, 0], INVALID),
            (9, &[0xA0, 0, 0, 0, 0, 0, 0, 0, 0, 15], INVALID),
        ],
    );
    drop(server);
}

#[test]
fn mode_data(rt: HostRuntime) {
    let mut server = settled(&rt, rt.alloc(), false);
    play(
        &rt,
        &mut server,
        &[
            (0, &[0x1A, 8, 0x08, 0, 4], Good(&[0x17, 0, 0x10, 0])),
            (
                0,
                &[0x1A, 0, 0x08, 0, 12],
                Good(&[0x1F, 0, 0x10, 8, 0, 0, 3, 0xE8, 0, 0, 2, 0]),
            ),
            (
                0,
                &[0x1A, 8, 0x0A, 0, 255],
                Good(&[0x0F, 0, 0x10, 0, 0x0A, 0x0A, 2, 0, 0, 0, 0, 0, 0, 0, 0, 0]),
            ),
            (
                0,
                &[0x1A, 8, 0x4A, 0, 255],
                Good(&[0x0F, 0, 0x10, 0, 0x0A, 0x0A, 0, 0, 0, 0, 0, 0, 0, 0, 0, 0]),
            ),
            (
                0,
                &[0x1A, 8, 0x3F, 0xFF, 255],
                Good(&[
                    0x3B, 0, 0x10, 0, 1, 0x0A, 0, 0, 0, 0, 0, 0, 0, 0, 0, 0, 8, 0x12, 4, 0, 0, 0,
                    0, 0, 0, 0, 0, 0, 0, 0, 0, 0, 0, 0, 0, 0, 0x0A, 0x0A, 2, 0, 0, 0, 0, 0, 0, 0,
                    0, 0, 0x1C, 0x0A, 8, 0, 0, 0, 0, 0, 0, 0, 0, 0,
                ]),
            ),
            (
                0,
                &[0x1A, 8, 0x01, 0, 255],
                Good(&[0x0F, 0, 0x10, 0, 0x01, 0x0A, 0, 0, 0, 0, 0, 0, 0, 0, 0, 0]),
            ),
            (
                0,
                &[0x1A, 8, 0x1C, 0, 255],
                Good(&[0x0F, 0, 0x10, 0, 0x1C, 0x0A, 8, 0, 0, 0, 0, 0, 0, 0, 0, 0]),
            ),
            (
                0,
                &[0x1A, 8, 0x5C, 0, 255],
                Good(&[0x0F, 0, 0x10, 0, 0x1C, 0x0A, 0, 0, 0, 0, 0, 0, 0, 0, 0, 0]),
            ),
            (
                0,
                &[0x1A, 8, 0x48, 0, 7],
                Good(&[0x17, 0, 0x10, 0, 8, 0x12, 0]),
            ),
            (
                0,
                &[0x1A, 8, 0x88, 0, 7],
                Good(&[0x17, 0, 0x10, 0, 8, 0x12, 4]),
            ),
            (0, &[0x1A, 8, 0xC8, 0, 7], Check(0x05, 0x39, 0x00)),
            (0, &[0x1A, 8, 0x02, 0, 7], INVALID),
            (0, &[0x1A, 8, 0x08, 1, 7], INVALID),
            (0, &[0x1A, 8, 0x0A, 1, 7], INVALID),
            (0, &[0x1A, 8, 0x08, 0, 0], DONE),
            (
                0,
                &[0x5A, 8, 0x08, 0, 0, 0, 0, 0, 8],
                Good(&[0, 0x1A, 0, 0x10, 0, 0, 0, 0]),
            ),
            (
                0,
                &[0x5A, 0, 0x3F, 0, 0, 0, 0, 0, 16],
                Good(&[0, 0x46, 0, 0x10, 0, 0, 0, 8, 0, 0, 3, 0xE8, 0, 0, 2, 0]),
            ),
            (7, &[0x1A, 8, 0x08, 0, 4], NO_UNIT),
            (7, &[0x1A, 8, 0x02, 0, 4], NO_UNIT),
        ],
    );
    drop(server);
}

#[test]
fn capacities_of_eight_bytes(rt: HostRuntime) {
    let mut server = settled(&rt, rt.alloc(), false);
    play(
        &rt,
        &mut server,
        &[
            (
                0,
                &[0x9E, 0x10, 0, 0, 0, 0, 0, 0, 0, 0, 0, 0, 0, 16],
                Good(&[0, 0, 0, 0, 0, 0, 3, 0xE7, 0, 0, 2, 0, 0, 7, 0xC0, 0]),
            ),
            (
                0,
                &[0x9E, 0x10, 0, 0, 0, 0, 0, 0, 0, 1, 0, 0, 0, 12],
                INVALID,
            ),
            (
                0,
                &[0x9E, 0x10, 0, 0, 0, 0, 0, 0, 0, 1, 0, 0, 0, 4, 1],
                Good(&[0, 0, 0, 0]),
            ),
            (
                0,
                &[0x9E, 0x11, 0, 0, 0, 0, 0, 0, 0, 0, 0, 0, 0, 12],
                INVALID,
            ),
            (
                7,
                &[0x9E, 0x10, 0, 0, 0, 0, 0, 0, 0, 0, 0, 0, 0, 12],
                NO_UNIT,
            ),
        ],
    );
    drop(server);
}

#[test]
fn sense_is_returned_as_data(rt: HostRuntime) {
    let mut server = settled(&rt, rt.alloc(), false);
    play(
        &rt,
        &mut server,
        &[
            (
                0,
                &[0x03, 0, 0, 0, 255],
                Good(&[0x70, 0, 0, 0, 0, 0, 0, 0x0A, 0, 0, 0, 0, 0, 0, 0, 0, 0, 0]),
            ),
            (
                0,
                &[0x03, 0, 0, 0, 8],
                Good(&[0x70, 0, 0, 0, 0, 0, 0, 0x0A]),
            ),
            (0, &[0x03, 1, 0, 0, 255], INVALID),
            (
                7,
                &[0x03, 0, 0, 0, 14],
                Good(&[0x70, 0, 5, 0, 0, 0, 0, 0x0A, 0, 0, 0, 0, 0x25, 0]),
            ),
            (
                5,
                &[0x03, 0, 0, 0, 14],
                Good(&[0x70, 0, 4, 0, 0, 0, 0, 0x0A, 0, 0, 0, 0, 0x44, 0]),
            ),
        ],
    );
    drop(server);
}

#[test]
fn caches_are_synchronized(rt: HostRuntime) {
    let mut server = settled(&rt, rt.alloc(), false);
    play(
        &rt,
        &mut server,
        &[
            (0, &[0x35, 0, 0, 0, 0, 0, 0, 0, 0], DONE),
            (0, &[0x35, 2, 0, 0, 3, 0xE7, 0, 0, 1], DONE),
            (
                0,
                &[0x35, 0, 0, 0, 3, 0xE7, 0, 0, 2],
                Check(0x05, 0x21, 0x00),
            ),
            (
                0,
                &[0x35, 0, 0, 0, 3, 0xE8, 0, 0, 0],
                Check(0x05, 0x21, 0x00),
            ),
            (0, &[0x91, 0, 0, 0, 0, 0, 0, 0, 0, 0, 0, 0, 3, 0xE8], DONE),
            (
                0,
                &[
                    0x91, 0, 0xFF, 0xFF, 0xFF, 0xFF, 0xFF, 0xFF, 0xFF, 0xFF, 0xFF, 0xFF, 0xFF, 0xFF,
                ],
                Check(0x05, 0x21, 0x00),
            ),
            (3, &[0x35, 0, 0, 0, 0, 0, 0, 0, 0], FAILED),
            (7, &[0x35, 0, 0, 0, 0, 0, 0, 0, 0], NO_UNIT),
            // A stop flushes, unless NO_FLUSH is set.
            (0, &[0x1B, 0, 0, 0, 0], DONE),
            (3, &[0x1B, 0, 0, 0, 2], FAILED),
            (3, &[0x1B, 0, 0, 0, 4], DONE),
            (0, &[0x1B, 0, 0, 0, 1], DONE),
            (5, &[0x1B, 0, 0, 0, 1], FAILED),
        ],
    );
    flushed(&rt, server, 6);
}

// The server has flushed this many units.
fn flushed(rt: &impl Abort, server: Server, count: u64) {
    let port = server.into_port();
    assert!(rt; port.flushes == count, "{} flushes", port.flushes);
}

#[test]
fn each_unit_reports_a_new_session_once(rt: HostRuntime) {
    let mut server = logged_in(&rt, rt.alloc(), true);
    play(
        &rt,
        &mut server,
        &[
            (0, &[0x12, 1, 0x80, 0, 4], Good(&[0, 0x80, 0, 0x10])),
            (0, &[0x12, 0, 0, 0, 36], Good(&STANDARD[..36])),
            (0, &[0x12, 0, 0, 0, 96], Good(STANDARD)),
            (0, &[0x12, 0, 0, 0, 60], Good(&STANDARD[..60])),
            (0, &[0xA0, 0, 0, 0, 0, 0, 0, 0, 0, 16], Good(&LUNS[..16])),
            (0, &[0x03, 1, 0, 0, 18], INVALID),
            (0, &[0x00], NEW_SESSION),
            (0, &[0x00], ATTENTION),
            (0, &[0x00], DONE),
            (
                3,
                &[0x03, 0, 0, 0, 18],
                Good(&[
                    0x70, 0, 6, 0, 0, 0, 0, 0x0A, 0, 0, 0, 0, 0x29, 0, 0, 0, 0, 0,
                ]),
            ),
            (3, &[0x25], Good(&[0, 0, 3, 0xE7, 0, 0, 2, 0])),
            (5, &[0x1A, 8, 0x02, 0, 4], NEW_SESSION),
            (5, &[0x1A, 8, 0x02, 0, 4], INVALID),
            (7, &[0x00], NO_UNIT),
            (7, &[0x28, 0, 0, 0, 0, 0, 0, 0, 1], NO_UNIT),
        ],
    );
    drop(server);
}

#[test]
fn request_sense_reports_a_unit_attention(rt: HostRuntime) {
    let mut server = settled(&rt, rt.alloc(), true);
    play(
        &rt,
        &mut server,
        &[
            (0, &[0x12, 1, 0x80, 0, 4], Good(&[0, 0x80, 0, 0x10])),
            (0, &[0xA0, 0, 0, 0, 0, 0, 0, 0, 0, 16], Good(&LUNS[..16])),
            (
                0,
                &[0x03, 0, 0, 0, 18],
                Good(&[
                    0x70, 0, 6, 0, 0, 0, 0, 0x0A, 0, 0, 0, 0, 0x2A, 9, 0, 0, 0, 0,
                ]),
            ),
            (0, &[0x03, 0, 0, 0, 3], Good(&[0x70, 0, 0])),
        ],
    );
    drop(server);
}

#[test]
fn a_unit_attention_comes_before_a_flush(rt: HostRuntime) {
    let mut server = settled(&rt, rt.alloc(), true);
    play(
        &rt,
        &mut server,
        &[
            (0, &[0x35, 0, 0, 0, 0, 0, 0, 0, 0], ATTENTION),
            (0, &[0x35], DONE),
        ],
    );
    flushed(&rt, server, 1);
}

#[test]
fn a_unit_attention_comes_before_other_faults(rt: HostRuntime) {
    let mut server = settled(&rt, rt.alloc(), true);
    play(
        &rt,
        &mut server,
        &[
            (0, &[0x1A, 8, 0x02, 0, 4], ATTENTION),
            (0, &[0x1A, 8, 0x02, 0, 4], INVALID),
        ],
    );
    drop(server);
}

#[test]
fn other_commands_are_the_ports(rt: HostRuntime) {
    let mut server = settled(&rt, rt.alloc(), false);
    play(
        &rt,
        &mut server,
        &[
            (0, &[0x00], DONE),
            (0, &[0x25], Good(&[0, 0, 3, 0xE7, 0, 0, 2, 0])),
            (0, &[0x28, 0, 0, 0, 0, 0, 0, 0, 1], Good(&[0x5A; 512])),
            (0, &[0x12, 0, 0, 0, 36], Good(&STANDARD[..36])),
            (0, &[0x43], Check(0x05, 0x20, 0x00)),
        ],
    );
    drop(server);
}

// The bytes of a WRITE come to the port.
#[test]
fn the_data_of_a_write_are_the_ports(rt: HostRuntime) {
    let mut server = settled(&rt, rt.alloc(), false);
    writes(&rt, rt.alloc(), &mut server);
    given(&rt, server, 512);
}

fn writes(rt: &impl Abort, alloc: Global, server: &mut Server)
    requires { server.old.port.taken ≡ true }
{
    let sector = Bytes::copy_from_slice(alloc, &[0xA5; 512]).expect(rt, "memory");
    let reply = server.command(0, &padded(&[0x2A, 0, 0, 0, 0, 7, 0, 0, 1]), sector);
    assert!(rt; is_wanted(&reply, DONE), "{reply:?}");
}

// Commands with this many bytes in all were given to the port.
fn given(rt: &impl Abort, server: Server, bytes: u64) {
    let port = server.into_port();
    assert!(rt; port.bytes == bytes, "{} bytes", port.bytes);
}

// READ and WRITE with 6 and 12 bytes are those with 10 and 16, WRITE AND VERIFY is a WRITE with FUA.
#[test]
fn other_forms_of_transfers(rt: HostRuntime) {
    means(
        &rt,
        &[0x08, 0xFF, 0x02, 0x03, 0x00, 0x04],
        &[0x28, 0, 0, 0x1F, 2, 3, 0, 1, 0, 4],
    );
    means(
        &rt,
        &[0x0A, 0x01, 0x02, 0x03, 0x05, 0x00],
        &[0x2A, 0, 0, 1, 2, 3, 0, 0, 5, 0],
    );
    means(
        &rt,
        &[0xA8, 0x18, 1, 2, 3, 4, 5, 6, 7, 8, 0x1F, 4],
        &[0x88, 0x18, 0, 0, 0, 0, 1, 2, 3, 4, 5, 6, 7, 8, 0, 4],
    );
    means(
        &rt,
        &[0xAA, 0x20, 1, 2, 3, 4, 5, 6, 7, 8, 0x1F, 0],
        &[0x8A, 0x20, 0, 0, 0, 0, 1, 2, 3, 4, 5, 6, 7, 8, 0, 0],
    );
    means(
        &rt,
        &[0x2E, 0x32, 1, 2, 3, 4, 0x1F, 5, 6, 4],
        &[0x2A, 0x28, 1, 2, 3, 4, 0, 5, 6, 4],
    );
    means(
        &rt,
        &[0x8E, 0x10, 1, 2, 3, 4, 5, 6, 7, 8, 9, 10, 11, 12, 0x1F, 4],
        &[0x8A, 0x08, 1, 2, 3, 4, 5, 6, 7, 8, 9, 10, 11, 12, 0, 4],
    );
}

// A command block means this one.
fn means(rt: &impl Abort, cdb: &[u8], own: &[u8]) {
    let request = request_of(&padded(cdb));
    assert!(rt; request == Request::Transfer(padded(own)), "{request:?}");
}

// How many bytes commands take from their host.
#[test]
fn lengths_of_data_out(rt: HostRuntime) {
    takes(&rt, &[0x0A, 0, 0, 0, 0], 131_072);
    takes(&rt, &[0x0A, 0, 0, 0, 2], 1_024);
    takes(&rt, &[0x08, 0, 0, 0, 2], 0);
    takes(&rt, &[0x2A, 0, 0, 0, 0, 0, 0, 0, 2], 1_024);
    takes(&rt, &[0xAA, 0, 0, 0, 0, 0, 0, 0, 0, 3], 1_536);
    takes(&rt, &[0x2E, 2, 0, 0, 0, 0, 0, 0, 2], 1_024);
    takes(&rt, &[0x2E, 6, 0, 0, 0, 0, 0, 0, 2], 0);
    takes(&rt, &[0x2F, 0, 0, 0, 0, 0, 0, 0, 2], 0);
    takes(&rt, &[0x2F, 2, 0, 0, 0, 0, 0, 0, 2], 1_024);
    takes(&rt, &[0x8F, 2, 0, 0, 0, 0, 0, 0, 0, 0, 0, 0, 0, 2], 1_024);
    takes(&rt, &[0xA0, 0, 0, 0, 0, 0, 0, 0, 1, 0], 0);
    takes(&rt, &[0x42, 0, 0, 0, 0, 0, 0, 1, 4], 260);
    takes(&rt, &[0x42, 1, 0, 0, 0, 0, 0, 1, 4], 0);
    takes(&rt, &[0x41, 0, 0, 0, 0, 0, 0, 0, 9], 512);
    takes(&rt, &[0x93, 8, 0, 0, 0, 0, 0, 0, 0, 0, 0, 0, 0, 9], 512);
    takes(&rt, &[0x93, 9, 0, 0, 0, 0, 0, 0, 0, 0, 0, 0, 0, 9], 0);
}

fn takes(rt: &impl Abort, cdb: &[u8], len: u32) {
    let taken = data_out_len(&padded(cdb));
    assert!(rt; taken == len, "{cdb:?} takes {taken} bytes");
}

// What a unit's medium is compared with.
#[test]
fn blocks_are_verified(rt: HostRuntime) {
    let mut server = settled(&rt, rt.alloc(), false);
    let alloc = rt.alloc();
    verifies(&rt, alloc, &mut server, (0, &[], DONE));
    verifies(&rt, alloc, &mut server, (2, &[0x5A; 512], DONE));
    verifies(
        &rt,
        alloc,
        &mut server,
        (2, &[0xA5; 512], Check(0x0E, 0x1D, 0x00)),
    );
    verifies(
        &rt,
        alloc,
        &mut server,
        (2, &[0x5A; 511], Check(0x0B, 0x4B, 0x00)),
    );
    verifies(&rt, alloc, &mut server, (4, &[0x5A; 512], INVALID));
    verifies(&rt, alloc, &mut server, (6, &[0x5A; 512], INVALID));
    drop(server);
}

// Byte 1 of a VERIFY (10) of one block, its data, and the reply.
fn verifies(rt: &impl Abort, alloc: Global, server: &mut Server, row: (u8, &[u8], Wanted))
    requires { server.old.port.taken ≡ true }
    ensures { server.new.port.taken ≡ true }
{
    let (byte, sent, wanted) = row;
    let sent = Bytes::copy_from_slice(alloc, sent).expect(rt, "memory");
    let reply = server.command(0, &padded(&[0x2F, byte, 0, 0, 0, 7, 0, 0, 1]), sent);
    assert!(rt; is_wanted(&reply, wanted), "{byte}: {reply:?}");
}

#[test]
fn reports_on_the_target(rt: HostRuntime) {
    let mut server = settled(&rt, rt.alloc(), false);
    play(
        &rt,
        &mut server,
        &[
            (
                0,
                &[0xA3, 0x0A, 0, 0, 0, 0, 0, 0, 0, 255],
                Good(&[0, 0, 0, 12, 0, 1, 0, 1, 0, 0, 0, 1, 0, 0, 0, 1]),
            ),
            (0, &[0xA3, 0x2A, 0, 0, 0, 0, 0, 0, 0, 255], INVALID),
            (0, &[0xA3, 0x01, 0, 0, 0, 0, 0, 0, 0, 255], INVALID),
            (
                0,
                &[0xA3, 0x0C, 0, 0, 0, 0, 0, 0, 0, 20],
                Good(&[
                    0, 0, 0, 240, 0x00, 0, 0, 0, 0, 0, 0, 6, 0x03, 0, 0, 0, 0, 0, 0, 6,
                ]),
            ),
            (
                0,
                &[0xA3, 0x0C, 1, 0x28, 0, 0, 0, 0, 0, 255],
                Good(&[
                    0, 3, 0, 10, 0x28, 0xF8, 0xFF, 0xFF, 0xFF, 0xFF, 0, 0xFF, 0xFF, 4,
                ]),
            ),
            (
                0,
                &[0xA3, 0x0C, 1, 0x42, 0, 0, 0, 0, 0, 255],
                Good(&[0, 3, 0, 10, 0x42, 1, 0, 0, 0, 0, 0, 0xFF, 0xFF, 4]),
            ),
            (
                0,
                &[0xA3, 0x0C, 1, 0x93, 0, 0, 0, 0, 0, 6],
                Good(&[0, 3, 0, 16, 0x93, 0xFF]),
            ),
            (
                0,
                &[0xA3, 0x0C, 1, 0x43, 0, 0, 0, 0, 0, 255],
                Good(&[0, 1, 0, 0]),
            ),
            (0, &[0xA3, 0x0C, 1, 0x9E, 0, 0, 0, 0, 0, 255], INVALID),
            (0, &[0xA3, 0x0C, 2, 0x28, 0, 0, 0, 0, 0, 255], INVALID),
            (
                0,
                &[0xA3, 0x0C, 2, 0x9E, 0, 0x10, 0, 0, 0, 8],
                Good(&[0, 3, 0, 16, 0x9E, 0x10, 0xFF, 0xFF]),
            ),
            (
                0,
                &[0xA3, 0x0C, 3, 0x9E, 0, 0x12, 0, 0, 0, 20],
                Good(&[
                    0, 3, 0, 16, 0x9E, 0x12, 0xFF, 0xFF, 0xFF, 0xFF, 0xFF, 0xFF, 0xFF, 0xFF, 0xFF,
                    0xFF, 0xFF, 0xFF, 0, 4,
                ]),
            ),
            (
                0,
                &[0xA3, 0x0C, 3, 0x9E, 0, 0x11, 0, 0, 0, 255],
                Good(&[0, 1, 0, 0]),
            ),
            (
                0,
                &[0xA3, 0x0C, 3, 0x28, 0, 0x01, 0, 0, 0, 255],
                Good(&[0, 1, 0, 0]),
            ),
            (0, &[0xA3, 0x0C, 4, 0x28, 0, 0, 0, 0, 0, 255], INVALID),
            (7, &[0xA3, 0x0C, 0, 0, 0, 0, 0, 0, 0, 20], NO_UNIT),
            (7, &[0xA3, 0x0A, 0, 0, 0, 0, 0, 0, 0, 20], NO_UNIT),
            (0, &[0x1D, 0x04], DONE),
            (0, &[0x1D, 0x00], DONE),
            (0, &[0x1D, 0x20], INVALID),
            (0, &[0x1D, 0x10, 0, 0, 1], INVALID),
            (7, &[0x1D, 0x04], NO_UNIT),
        ],
    );
    drop(server);
}
