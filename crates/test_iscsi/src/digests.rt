// Sessions with digests (RFC 7143, 13.1), byte for byte, and the examples of CRC32C of RFC 7143, B.4.
use crate::sessions::{ENDED, joined, plays};
use ar_iscsi::{CrcTable, FeatureEnd, IscsiEnd, ReceiveEnd};
use std::alloc::Global;
use std::process::Abort;

const LOGIN: &[u8] = b"\
    \x43\x87\x00\x00\x00\x00\x00\x72\x40\x00\x01\x37\x00\x00\x00\x00\
    \x00\x00\x00\x01\x00\x00\x00\x00\x00\x00\x00\x10\x00\x00\x00\x00\
    \x00\x00\x00\x00\x00\x00\x00\x00\x00\x00\x00\x00\x00\x00\x00\x00\
    InitiatorName=iqn.x\x00\
    TargetName=iqn.2026-11.example.autoraid:host1\x00\
    HeaderDigest=CRC32C,None\x00\
    DataDigest=CRC32C,None\x00\
    \x00\x00";

const LOGGED_IN: &[u8] = b"\
    \x23\x87\x00\x00\x00\x00\x00\x3D\x40\x00\x01\x37\x00\x00\x00\x01\
    \x00\x00\x00\x01\x00\x00\x00\x00\x00\x00\x00\x00\x00\x00\x00\x10\
    \x00\x00\x00\x1F\x00\x00\x00\x00\x00\x00\x00\x00\x00\x00\x00\x00\
    TargetPortalGroupTag=1\x00\
    HeaderDigest=CRC32C\x00\
    DataDigest=CRC32C\x00\
    \x00\x00\x00";

// A NOP-Out with its digest.
const PING: &[u8] = b"\
    \x40\x80\x00\x00\x00\x00\x00\x05\x00\x00\x00\x00\x00\x00\x00\x00\
    \x00\x00\x00\x05\xFF\xFF\xFF\xFF\x00\x00\x00\x10\x00\x00\x00\x01\
    \x00\x00\x00\x00\x00\x00\x00\x00\x00\x00\x00\x00\x00\x00\x00\x00\
    \xF0\xD2\x25\xEF";

// Its data with their padding and digest.
const PING_DATA: &[u8] = b"\
    \x70\x69\x6E\x67\x21\x00\x00\x00\x8A\xED\xFC\x72";

const PONG: &[u8] = b"\
    \x20\x80\x00\x00\x00\x00\x00\x05\x00\x00\x00\x00\x00\x00\x00\x00\
    \x00\x00\x00\x05\xFF\xFF\xFF\xFF\x00\x00\x00\x01\x00\x00\x00\x10\
    \x00\x00\x00\x1F\x00\x00\x00\x00\x00\x00\x00\x00\x00\x00\x00\x00\
    \xB2\xFE\xFD\x0B";

// The Reject of that NOP-Out, with reason 02h (RFC 7143, 11.17.1) and its digest. Its data are the header, so that they
// and their digest are the NOP-Out's own bytes.
const REJECT: &[u8] = b"\
    \x3F\x80\x02\x00\x00\x00\x00\x30\x00\x00\x00\x00\x00\x00\x00\x00\
    \xFF\xFF\xFF\xFF\x00\x00\x00\x00\x00\x00\x00\x01\x00\x00\x00\x10\
    \x00\x00\x00\x1F\x00\x00\x00\x00\x00\x00\x00\x00\x00\x00\x00\x00\
    \x0C\xD0\xCE\x32";

const WRONG_HEADER: IscsiEnd = IscsiEnd::Feature(FeatureEnd::Unread(ReceiveEnd::WrongHeader));

const WRONG_DATA: IscsiEnd = IscsiEnd::Feature(FeatureEnd::WrongData);

#[test]
fn a_session_with_digests(rt: HostRuntime) {
    let alloc = rt.alloc();
    let input = [LOGIN, PING, PING_DATA];
    let output = [LOGGED_IN, PONG, PING_DATA];
    plays(&rt, alloc, &input, ENDED, &output);
}

// These bytes, of which a bit of one is another.
fn changed(rt: &impl Abort, alloc: Global, bytes: &[u8], place: usize) -> Vec<u8> {
    let mut changed = joined(rt, alloc, &[bytes]);
    match changed.get_mut(place) {
        Some(byte) => *byte ^= 1,
        None => panic!(rt; "no byte {place}"),
    }
    changed
}

// A bit of a header is another one, or of data or their padding: then the PDU is rejected.
#[test]
fn wrong_digests_end_the_session(rt: HostRuntime) {
    let alloc = rt.alloc();
    let ping = changed(&rt, alloc, PING, 47);
    plays(&rt, alloc, &[LOGIN, &ping], WRONG_HEADER, &[LOGGED_IN]);
    for place in [0, 7, 11] {
        let data = changed(&rt, alloc, PING_DATA, place);
        let answer = [LOGGED_IN, REJECT, PING];
        plays(&rt, alloc, &[LOGIN, PING, &data], WRONG_DATA, &answer);
    }
}

fn has_digest(rt: &impl Abort, bytes: &[u8], digest: [u8; 4]) {
    let found = CrcTable::new().digest(bytes, &[]);
    assert!(rt; found == digest, "{found:?} in place of {digest:?}");
}

const READ: &[u8] = b"\
    \x01\xC0\x00\x00\x00\x00\x00\x00\x00\x00\x00\x00\x00\x00\x00\x00\
    \x14\x00\x00\x00\x00\x00\x04\x00\x00\x00\x00\x14\x00\x00\x00\x18\
    \x28\x00\x00\x00\x00\x00\x00\x00\x02\x00\x00\x00\x00\x00\x00\x00";

#[test]
fn examples(rt: HostRuntime) {
    has_digest(&rt, &[0x00; 32], [0xAA, 0x36, 0x91, 0x8A]);
    has_digest(&rt, &[0xFF; 32], [0x43, 0xAB, 0xA8, 0x62]);
    has_digest(&rt, READ, [0x56, 0x3A, 0x96, 0xD9]);
}
