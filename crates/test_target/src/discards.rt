// UNMAP and WRITE SAME, in tables. The unit at LUN 0 has 1,000 blocks.
ghost use Rattle.std.specs.Prelude.{◌≡◌, true};

use crate::answers::{DONE, FAILED, INVALID, NO_UNIT, Server, Wanted, is_wanted, padded, settled};
use Wanted::{Check, Good};
use ar_frames::Port;
use bytes::Bytes;
use std::alloc::Global;
use std::process::Abort;

// A LUN, a command block, its data, and the reply.
type Row<'a> = (u8, &'a [u8], &'a [u8], Wanted<'a>);

const PAST: Wanted = Check(0x05, 0x21, 0x00);

const INVALID_LIST: Wanted = Check(0x05, 0x26, 0x00);

const SHORT_LIST: Wanted = Check(0x05, 0x1A, 0x00);

const NOT_WHOLE: Wanted = Check(0x0B, 0x4B, 0x00);

// Gives the server a command with its data.
fn check(rt: &impl Abort, alloc: Global, server: &mut Server, number: usize, row: Row)
    requires { server.old.port.taken ≡ true }
    ensures { server.new.port.taken ≡ true }
{
    let (lun, cdb, sent, wanted) = row;
    let sent = Bytes::copy_from_slice(alloc, sent).expect(rt, "memory");
    let reply = server.command(lun, &padded(cdb), sent);
    assert!(rt;
        is_wanted(&reply, wanted),
        "row {number}, counted from 0: {reply:?}"
    );
}

fn play(rt: &impl Abort, alloc: Global, server: &mut Server, rows: &[Row])
    requires { server.old.port.taken ≡ true }
    ensures { server.new.port.taken ≡ true }
{
    for (number, row) in rows.iter().enumerate() {
        check(rt, alloc, server, number, *row);
    }
}

// The port was given this many blocks to discard, and this many bytes of data.
fn done(rt: &impl Abort, server: Server, blocks: u64, bytes: u64) {
    let port = server.into_port();
    assert!(rt;
        port.discarded == blocks,
        "{} blocks discarded",
        port.discarded
    );
    assert!(rt; port.bytes == bytes, "{} bytes written", port.bytes);
}

// UNMAP with a PARAMETER LIST LENGTH of 24 and of 40.
static ONE: &[u8] = &[0x42, 0, 0, 0, 0, 0, 0, 0, 24];

static TWO: &[u8] = &[0x42, 0, 0, 0, 0, 0, 0, 0, 40];

// The last 8 blocks.
static LAST: &[u8] = &[
    0, 22, 0, 16, 0, 0, 0, 0, 0, 0, 0, 0, 0, 0, 3, 0xE0, 0, 0, 0, 8, 0, 0, 0, 0,
];

// One block more than there is.
static BEHIND: &[u8] = &[
    0, 22, 0, 16, 0, 0, 0, 0, 0, 0, 0, 0, 0, 0, 3, 0xE0, 0, 0, 0, 9, 0, 0, 0, 0,
];

// More blocks than an UNMAP may name.
static MANY: &[u8] = &[
    0, 22, 0, 16, 0, 0, 0, 0, 0, 0, 0, 0, 0, 0, 0, 0, 0, 0x10, 0, 1, 0, 0, 0, 0,
];

// The descriptor is one byte short, by its length.
static CUT: &[u8] = &[
    0, 22, 0, 15, 0, 0, 0, 0, 0, 0, 0, 0, 0, 0, 0, 0, 0, 0, 0, 8, 0, 0, 0, 0,
];

// Blocks 0 to 3, and one that isn't on the unit.
static FIRST_AND_BEHIND: &[u8] = &[
    0, 38, 0, 32, 0, 0, 0, 0, 0, 0, 0, 0, 0, 0, 0, 0, 0, 0, 0, 4, 0, 0, 0, 0, //
    0, 0, 0, 0, 0, 0, 3, 0xE8, 0, 0, 0, 1, 0, 0, 0, 0,
];

// Blocks 0 to 3, and block 500, whose discard fails.
static FIRST_AND_FAILED: &[u8] = &[
    0, 38, 0, 32, 0, 0, 0, 0, 0, 0, 0, 0, 0, 0, 0, 0, 0, 0, 0, 4, 0, 0, 0, 0, //
    0, 0, 0, 0, 0, 0, 1, 0xF4, 0, 0, 0, 1, 0, 0, 0, 0,
];

// Block 500, whose discard fails, and blocks 0 to 3.
static FAILED_AND_FIRST: &[u8] = &[
    0, 38, 0, 32, 0, 0, 0, 0, 0, 0, 0, 0, 0, 0, 1, 0xF4, 0, 0, 0, 1, 0, 0, 0, 0, //
    0, 0, 0, 0, 0, 0, 0, 0, 0, 0, 0, 4, 0, 0, 0, 0,
];

#[test]
fn blocks_are_unmapped(rt: HostRuntime) {
    let mut server = settled(&rt, rt.alloc(), false);
    play(
        &rt,
        rt.alloc(),
        &mut server,
        &[
            (0, ONE, LAST, DONE),
            (0, ONE, BEHIND, PAST),
            (0, ONE, MANY, INVALID_LIST),
            (0, ONE, CUT, DONE),
            (0, TWO, FIRST_AND_BEHIND, PAST),
            (0, TWO, FIRST_AND_FAILED, FAILED),
            (0, TWO, FAILED_AND_FIRST, FAILED),
            (0, &[0x42, 0, 0, 0, 0, 0, 0, 0, 23], &LAST[..23], DONE),
            (0, &[0x42, 0, 0, 0, 0, 0, 0, 0, 8], &LAST[..8], DONE),
            (0, &[0x42, 0, 0, 0, 0, 0, 0, 0, 7], &LAST[..7], SHORT_LIST),
            (0, &[0x42], &[], DONE),
            (0, ONE, &LAST[..23], NOT_WHOLE),
            (0, &[0x42, 1, 0, 0, 0, 0, 0, 0, 24], LAST, INVALID),
            (0, &[0x42, 0, 0, 0, 0, 0, 0, 0, 24, 4], LAST, INVALID),
            (3, ONE, LAST, FAILED),
            (7, ONE, LAST, NO_UNIT),
        ],
    );
    done(&rt, server, 12, 0);
}

// GET LBA STATUS: the array's blocks have 128 blocks of the unit each, and of the eight the first three were written.
#[test]
fn blocks_have_a_status(rt: HostRuntime) {
    let mut server = settled(&rt, rt.alloc(), false);
    play(
        &rt,
        rt.alloc(),
        &mut server,
        &[
            (
                0,
                &[0x9E, 0x12, 0, 0, 0, 0, 0, 0, 0, 0, 0, 0, 0, 24],
                &[],
                Good(FIRST_RUN),
            ),
            (
                0,
                &[0x9E, 0x12, 0, 0, 0, 0, 0, 0, 0, 0, 0, 1, 0, 0],
                &[],
                Good(FIRST_RUN),
            ),
            (
                0,
                &[0x9E, 0x12, 0, 0, 0, 0, 0, 0, 0, 0, 0, 0, 0, 8],
                &[],
                Good(&FIRST_RUN[..8]),
            ),
            (
                0,
                &[0x9E, 0x12, 0, 0, 0, 0, 0, 0, 0, 100, 0, 0, 0, 24],
                &[],
                Good(FROM_100),
            ),
            (
                0,
                &[0x9E, 0x12, 0, 0, 0, 0, 0, 0, 1, 0x90, 0, 0, 0, 24],
                &[],
                Good(FROM_400),
            ),
            (
                0,
                &[0x9E, 0x12, 0, 0, 0, 0, 0, 0, 3, 0xE7, 0, 0, 0, 24],
                &[],
                Good(FROM_999),
            ),
            (
                0,
                &[0x9E, 0x12, 0, 0, 0, 0, 0, 0, 3, 0xE8, 0, 0, 0, 24],
                &[],
                PAST,
            ),
            (
                0,
                &[0x9E, 0x12, 0, 0, 0, 1, 0, 0, 0, 0, 0, 0, 0, 24],
                &[],
                PAST,
            ),
            (
                0,
                &[0x9E, 0x12, 0, 0, 0, 0, 0, 0, 0, 0, 0, 0, 0, 24, 0, 4],
                &[],
                INVALID,
            ),
            (
                7,
                &[0x9E, 0x12, 0, 0, 0, 0, 0, 0, 0, 0, 0, 0, 0, 24],
                &[],
                NO_UNIT,
            ),
        ],
    );
    done(&rt, server, 0, 0);
}

// 384 blocks from 0 on, mapped.
static FIRST_RUN: &[u8] = &[
    0, 0, 0, 20, 0, 0, 0, 0, 0, 0, 0, 0, 0, 0, 0, 0, 0, 0, 1, 0x80, 0, 0, 0, 0,
];

// 284 blocks from 100 on, mapped.
static FROM_100: &[u8] = &[
    0, 0, 0, 20, 0, 0, 0, 0, 0, 0, 0, 0, 0, 0, 0, 100, 0, 0, 1, 0x1C, 0, 0, 0, 0,
];

// 600 blocks from 400 on, to the end of the unit, deallocated.
static FROM_400: &[u8] = &[
    0, 0, 0, 20, 0, 0, 0, 0, 0, 0, 0, 0, 0, 0, 1, 0x90, 0, 0, 2, 0x58, 1, 0, 0, 0,
];

// One block, 999, mapped: nothing is known of it.
static FROM_999: &[u8] = &[
    0, 0, 0, 20, 0, 0, 0, 0, 0, 0, 0, 0, 0, 0, 3, 0xE7, 0, 0, 0, 1, 0, 0, 0, 0,
];

// A list of descriptors, each of no block: 256 may be, 257 not.
#[test]
fn descriptors_are_counted(rt: HostRuntime) {
    let mut server = settled(&rt, rt.alloc(), false);
    let mut list = [0; 4_120];
    list[2] = 0x10;
    play(
        &rt,
        rt.alloc(),
        &mut server,
        &[(0, &[0x42, 0, 0, 0, 0, 0, 0, 0x10, 0x18], &list, DONE)],
    );
    list[3] = 0x10;
    play(
        &rt,
        rt.alloc(),
        &mut server,
        &[(
            0,
            &[0x42, 0, 0, 0, 0, 0, 0, 0x10, 0x18],
            &list,
            INVALID_LIST,
        )],
    );
    done(&rt, server, 0, 0);
}

#[test]
fn a_block_is_written_to_many(rt: HostRuntime) {
    let mut server = settled(&rt, rt.alloc(), false);
    play(
        &rt,
        rt.alloc(),
        &mut server,
        &[
            // Discarded: blocks 100 to 109, block 999, blocks 4 to 6.
            (0, &[0x41, 8, 0, 0, 0, 100, 0, 0, 10], &[0; 512], DONE),
            (
                0,
                &[0x93, 8, 0, 0, 0, 0, 0, 0, 3, 0xE7, 0, 0, 0, 1],
                &[0; 512],
                DONE,
            ),
            (0, &[0x93, 9, 0, 0, 0, 0, 0, 0, 0, 4, 0, 0, 0, 3], &[], DONE),
            // Written: 2, 3, 5 and 7 blocks.
            (0, &[0x41, 8, 0, 0, 0, 100, 0, 0, 2], &[0xA5; 512], DONE),
            (0, &[0x41, 0, 0, 0, 0, 100, 0, 0, 3], &[0; 512], DONE),
            (
                0,
                &[0x93, 0, 0, 0, 0, 0, 0, 0, 0, 4, 0, 0, 0, 5],
                &[0xA5; 512],
                DONE,
            ),
            (0, &[0x93, 1, 0, 0, 0, 0, 0, 0, 0, 4, 0, 0, 0, 7], &[], DONE),
            // Refused.
            (
                0,
                &[0x93, 8, 0, 0, 0, 0, 0, 0, 3, 0xE7, 0, 0, 0, 2],
                &[0; 512],
                PAST,
            ),
            (
                0,
                &[0x93, 0, 0, 0, 0, 0, 0, 0, 3, 0xE7, 0, 0, 0, 2],
                &[0; 512],
                PAST,
            ),
            (0, &[0x41, 8, 0, 0, 0, 100, 0, 0, 10], &[0; 511], NOT_WHOLE),
            (0, &[0x41, 8, 0, 0, 0, 100, 0, 0, 0], &[0; 512], INVALID),
            (
                0,
                &[0x93, 8, 0, 0, 0, 0, 0, 0, 0, 0, 0, 0x10, 0, 1],
                &[0; 512],
                INVALID,
            ),
            (0, &[0x41, 0x0A, 0, 0, 0, 100, 0, 0, 10], &[0; 512], INVALID),
            (0, &[0x41, 0x0C, 0, 0, 0, 100, 0, 0, 10], &[0; 512], INVALID),
            (0, &[0x41, 0x18, 0, 0, 0, 100, 0, 0, 10], &[0; 512], INVALID),
            (0, &[0x41, 0x28, 0, 0, 0, 100, 0, 0, 10], &[0; 512], INVALID),
            (0, &[0x41, 8, 0, 0, 0, 100, 0, 0, 10, 4], &[0; 512], INVALID),
            (7, &[0x41, 8, 0, 0, 0, 100, 0, 0, 10], &[0; 512], NO_UNIT),
        ],
    );
    done(&rt, server, 14, 8_704);
}
