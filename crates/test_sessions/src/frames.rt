// Logins, requests and replies as bytes, by the table of the wire format.
use std::process::Abort;
use test_support::PlainReply;

/// The login of a host.
pub const LOGINS: [&[u8]; 4] = [
    b"ARAIDHO1\x00",
    b"ARAIDHO1\x01",
    b"ARAIDHO1\x02",
    b"ARAIDHO1\x03",
];

/// TEST UNIT READY.
pub const TUR: &[u8] = &[0];

/// READ (10) of the first two sectors, and WRITE (10) of them.
pub const READ: &[u8] = &[0x28, 0, 0, 0, 0, 0, 0, 0, 2];

pub const WRITE: &[u8] = &[0x2A, 0, 0, 0, 0, 0, 0, 0, 2];

/// The same in blocks of sixteen bytes.
pub const READ_16: &[u8] = &[0x88, 0, 0, 0, 0, 0, 0, 0, 0, 0, 0, 0, 0, 2];

pub const WRITE_16: &[u8] = &[0x8A, 0, 0, 0, 0, 0, 0, 0, 0, 0, 0, 0, 0, 2];

pub fn put(rt: &impl Abort, to: &mut Vec<u8>, bytes: &[u8]) {
    to.extend_from_slice(bytes).expect(rt, "memory");
}

fn put_count(rt: &impl Abort, to: &mut Vec<u8>, count: usize) {
    let count = u32::try_from(count).expect(rt, "a frame is short");
    put(rt, to, &count.to_be_bytes());
}

/// A request: the command block is padded with zeros.
pub fn put_request(rt: &impl Abort, to: &mut Vec<u8>, tag: u8, lun: u8, cdb: &[u8], bytes: &[u8]) {
    put_count(rt, to, bytes.len().saturating_add(25));
    put(rt, to, &[0, 0, 0, 0, 0, 0, 0, tag, lun]);
    put(rt, to, cdb);
    put(rt, to, &[0; 16][cdb.len().min(16)..]);
    put(rt, to, bytes);
}

/// A reply GOOD, with these bytes.
pub fn put_good(rt: &impl Abort, to: &mut Vec<u8>, tag: u8, bytes: &[u8]) {
    put_count(rt, to, bytes.len().saturating_add(10));
    put(rt, to, &[0, 0, 0, 0, 0, 0, 0, tag, 0x00, 0]);
    put(rt, to, bytes);
}

/// A reply CHECK CONDITION, with sense data of this key, code and qualifier.
pub fn put_check(rt: &impl Abort, to: &mut Vec<u8>, tag: u8, sense: [u8; 3]) {
    let [key, asc, ascq] = sense;
    put_count(rt, to, 28);
    put(rt, to, &[0, 0, 0, 0, 0, 0, 0, tag, 0x02, 0x12]);
    put(
        rt,
        to,
        &[
            0x70, 0, key, 0, 0, 0, 0, 0x0A, 0, 0, 0, 0, asc, ascq, 0, 0, 0, 0,
        ],
    );
}

/// The reply that plain lists give.
pub fn put_reply(rt: &impl Abort, to: &mut Vec<u8>, tag: u8, reply: &PlainReply) {
    let sense: &[u8] = match &reply.sense {
        Some(sense) => sense,
        None => &[],
    };
    let sense_len = if reply.sense.is_some() { 18 } else { 0 };
    put_count(
        rt,
        to,
        sense
            .len()
            .saturating_add(reply.data.len())
            .saturating_add(10),
    );
    put(rt, to, &[0, 0, 0, 0, 0, 0, 0, tag, reply.status, sense_len]);
    put(rt, to, sense);
    put(rt, to, &reply.data);
}
