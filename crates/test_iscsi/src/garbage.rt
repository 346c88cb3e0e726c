// Input that is no conversation: one in which bytes were overwritten, and bytes that are none at all. Each session
// ends, for a reason of its input; no command is given to the port but one that came whole; and what is written are
// PDUs.
use crate::fake::Fake;
use crate::pdus;
use crate::sessions::joined;
use ar_frames::{MemSink, MemSource};
use ar_iscsi::{FeatureEnd, IscsiEnd, LoginEnd, serve_target};
use rand::RngExt;
use rand_core::{Rng, SeedableRng};
use rand_xoshiro::Xoshiro256PlusPlus;
use std::alloc::Global;
use std::process::Abort;

const SESSIONS: u64 = 1_000;

/// A login, an INQUIRY, a WRITE, a READ and its data, a ping, a reset, a text request and a logout.
const CONVERSATION: &[&[u8]] = &[
    pdus::LOGIN,
    pdus::READ,
    pdus::WRITE_HEAD,
    &[0xA5; 512],
    pdus::DATA_OUT_HEAD,
    &[0xA5; 512],
    pdus::INQUIRY_LUN_9,
    pdus::PING,
    pdus::RESET_LUN_9,
    pdus::SNACK,
    pdus::SEND_TARGETS,
    pdus::LOGOUT,
];

const LOGIN: &[&[u8]] = &[pdus::LOGIN];

const NO_LOGIN: &[&[u8]] = &[];

#[test]
fn overwritten_conversations(rt: HostRuntime) {
    let alloc = rt.alloc();
    for seed in 0..SESSIONS {
        let mut draws = Xoshiro256PlusPlus::seed_from_u64(seed);
        let mut input = joined(&rt, alloc, CONVERSATION);
        for _ in 0..draws.random_range(1u32..=8) {
            overwrite(&mut draws, &mut input);
        }
        serve(&rt, alloc, seed, input);
    }
}

// Overwrites a byte at random, of a header mostly: with any byte, or with one of its bits changed.
fn overwrite(draws: &mut Xoshiro256PlusPlus, input: &mut [u8]) {
    let at = draws.random_range(0..input.len().max(1));
    let byte = if draws.random_ratio(1, 2) {
        draws.random_range(0u8..=255)
    } else {
        1 << draws.random_range(0u32..8)
    };
    if let Some(place) = input.get_mut(at) {
        *place ^= byte;
    }
}

#[test]
fn bytes_at_random(rt: HostRuntime) {
    let alloc = rt.alloc();
    for seed in 0..SESSIONS {
        let mut draws = Xoshiro256PlusPlus::seed_from_u64(seed);
        let mut noise = [0; 2048];
        draws.fill_bytes(&mut noise);
        // (after a login, but for each eighth)
        let mut input = joined(&rt, alloc, if seed % 8 == 0 { NO_LOGIN } else { LOGIN });
        input.extend_from_slice(&noise).expect(&rt, "memory");
        serve(&rt, alloc, seed, input);
    }
}

fn serve(rt: &impl Abort, alloc: Global, seed: u64, input: Vec<u8>) {
    let (commands, bytes) = commands_in(&input);
    let mut reader = MemSource::new(input);
    let mut writer = MemSink::new(vec![in alloc; 0; 1 << 16].expect(rt, "memory"));
    let mut port = Fake::new(alloc);
    let address = b"127.0.0.1:3260";
    let end = serve_target(alloc, &mut reader, &mut writer, &mut port, address);
    assert!(rt; is_of_input(end), "session {seed}: {end:?}");
    let are_pdus = are_pdus(writer.written());
    assert!(rt; are_pdus, "session {seed}: it wrote what is no PDU");
    assert!(rt;
        port.given <= commands && port.bytes <= bytes,
        "session {seed}: {} commands with {} bytes of {commands} with {bytes}",
        port.given,
        port.bytes
    );
}

// Whether a session ended by what it read.
fn is_of_input(end: IscsiEnd) -> bool {
    match end {
        IscsiEnd::Login(LoginEnd::Refused(_) | LoginEnd::Unread(_)) => true,
        IscsiEnd::Feature(
            FeatureEnd::Unread(_)
            | FeatureEnd::LoggedOut
            | FeatureEnd::BrokenData
            | FeatureEnd::Rejected
            | FeatureEnd::WrongData,
        ) => true,
        _ => false,
    }
}

// How many SCSI commands these bytes begin with that are whole, each with its data segment, and how many bytes of data
// all PDUs have.
fn commands_in(input: &[u8]) -> (usize, usize) {
    let (mut commands, mut bytes): (usize, usize) = (0, 0);
    let mut rest = input;
    // (a PDU has at least one byte)
    for _ in 0..input.len() {
        let Some((opcode, len, after)) = split_pdu(rest) else {
            break;
        };
        commands = commands.saturating_add(usize::from(opcode % 64 == 0x01));
        bytes = bytes.saturating_add(len);
        rest = after;
    }
    (commands, bytes)
}

// Whether these bytes are whole PDUs of a target, one after the other.
fn are_pdus(written: &[u8]) -> bool {
    let mut rest = written;
    for _ in 0..written.len() {
        let Some((opcode, _, after)) = split_pdu(rest) else {
            break;
        };
        if !matches!(opcode, 0x20..=0x26 | 0x31 | 0x3F) {
            return false;
        }
        rest = after;
    }
    rest.is_empty()
}

// The opcode byte of the PDU that these bytes begin with, the length of its data segment, and what is after it. None:
// they begin with no whole PDU.
pub fn split_pdu(bytes: &[u8]) -> Option<(u8, usize, &[u8])> {
    let header = bytes.get(..48)?;
    let len = number(header.get(5..8)?);
    let additional = number(header.get(4..5)?).saturating_mul(4);
    let padding = (4 - len % 4) % 4;
    let after = bytes
        .get(48..)?
        .get(additional..)?
        .get(len..)?
        .get(padding..)?;
    Some((*header.first()?, len, after))
}

// A number of at most three bytes, the highest first.
fn number(bytes: &[u8]) -> usize {
    let mut number = 0;
    for byte in bytes {
        number = number % 0x1_0000 * 0x100 + usize::from(*byte);
    }
    number
}
