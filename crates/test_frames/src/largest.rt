// The largest frame, whose data find memory or none, and the frame after it.
use crate::fakes::{Fake, Repeats};
use crate::sessions::{ABSENT, LOGIN, REFUSED, counts, ends, joined, wrote};
use ar_frames::{EndReason, MemSink, serve_session};
use std::alloc::Global;
use std::process::Abort;

// A WRITE of 65,535 sectors, of tag 1 to LUN 0, where no unit is. Its data come after these bytes.
const LARGEST: &[u8] = b"\
    \x01\xFF\xFE\x19\x00\x00\x00\x00\x00\x00\x00\x01\x00\
    \x2A\x00\x00\x00\x00\x00\x00\xFF\xFF\x00\x00\x00\x00\x00\x00\x00";

const DATA: u64 = 65_535 * 512;

// The data are these bytes, and another frame so often that they end with one.
const FIRST_DATA: &[u8] = &[0; 21];

// BUSY, to a command of tag 1.
const BUSY: &[u8] = b"\x00\x00\x00\x0A\x00\x00\x00\x00\x00\x00\x00\x01\x08\x00";

/// More memory than is ever given at once.
const MOST_MEMORY: usize = 1 << 44;

// Takes the address space in pieces, the largest that are given first, down to two mebibytes.
fn take_memory(alloc: Global, held: &mut Vec<Vec<u8>>) {
    let mut size = MOST_MEMORY;
    for _ in 0..24 {
        take_pieces(alloc, held, size);
        size /= 2;
    }
}

fn take_pieces(alloc: Global, held: &mut Vec<Vec<u8>>, size: usize) {
    for _ in 0..20_000 {
        if !is_taken(alloc, held, size) {
            return;
        }
    }
}

fn is_taken(alloc: Global, held: &mut Vec<Vec<u8>>, size: usize) -> bool {
    match Vec::with_capacity(alloc, size) {
        Ok(piece) => held.push(piece).is_ok(),
        Err(_) => false,
    }
}

// Plays a session of the largest frame and another one, with the memory that is left.
fn plays(
    rt: &impl Abort,
    alloc: Global,
    is_scarce: bool,
    output: &[u8],
    commands: u64,
    bytes: u64,
) {
    let front = joined(rt, alloc, &[LOGIN, LARGEST, FIRST_DATA]);
    let mut held = Vec::with_capacity(alloc, 100_000).expect(rt, "memory");
    let mut reader = Repeats {
        front: &front,
        frame: ABSENT,
        at: 0,
        end: 9 + 29 + DATA + 29,
    };
    let mut writer = MemSink::new(vec![in alloc; 0; 256].expect(rt, "memory"));
    let mut port = Fake::new();
    if is_scarce {
        take_memory(alloc, &mut held);
    }
    let end = serve_session(alloc, &mut reader, &mut writer, &mut port);
    held.clear();
    ends(rt, LARGEST, end, 2, EndReason::End);
    wrote(rt, LARGEST, writer.written(), output);
    counts(rt, port.commands, commands);
    counts(rt, port.bytes, bytes);
}

#[test]
fn the_largest_frame(rt: HostRuntime) {
    let alloc = rt.alloc();
    let output = joined(&rt, alloc, &[b"\x00", REFUSED, REFUSED]);
    plays(&rt, alloc, false, &output, 2, DATA);
}

// Its data are read to their end, and the port isn't asked.
#[test]
fn the_largest_frame_without_memory(rt: HostRuntime) {
    let alloc = rt.alloc();
    let output = joined(&rt, alloc, &[b"\x00", BUSY, REFUSED]);
    plays(&rt, alloc, true, &output, 1, 0);
}
