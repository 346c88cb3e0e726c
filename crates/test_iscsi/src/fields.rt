// Each field of an initiator's PDUs at its extremes. What a target does with them is in the tables of RFC 7143, 11;
// where a field is reserved or needs no look, the answer is as without the change.
use crate::fake::Fake;
use crate::pdus;
use crate::sessions::{ends, joined, wrote};
use ar_frames::{MemSink, MemSource};
use ar_iscsi::{FeatureEnd, IscsiEnd, LoginEnd, LoginStatus, ReceiveEnd, serve_target};
use std::alloc::Global;
use std::process::Abort;

/// What answers a request with a changed field.
enum Answer<'a> {
    /// What answers the request as it is.
    Same,
    /// The same, with these bytes at this place of each header.
    With(usize, &'a [u8]),
    /// A Reject for this reason, with the request's header.
    Reject(u8),
    /// These PDUs, or none.
    Pdus(&'a [&'a [u8]]),
}

/// A field, where it begins in the header, its bytes, how the session then ends, and the answer.
type Row<'a> = (&'a str, usize, &'a [u8], IscsiEnd, Answer<'a>);

/// A request: what comes before it, its PDU without and with what is sent after it, what is answered before it, and
/// the headers of its answer, each with the data after it.
struct Request<'a> {
    before: &'a [&'a [u8]],
    pdu: &'a [u8],
    after: &'a [u8],
    answered: &'a [&'a [u8]],
    answer: &'a [(&'a [u8], &'a [u8])],
}

const ENDED: IscsiEnd = IscsiEnd::Feature(FeatureEnd::Unread(ReceiveEnd::End));

const CUT: IscsiEnd = IscsiEnd::Feature(FeatureEnd::Unread(ReceiveEnd::Cut));

const TOO_LONG: IscsiEnd = IscsiEnd::Feature(FeatureEnd::Unread(ReceiveEnd::TooLong(0xFF_FFFF)));

const REJECTED: IscsiEnd = IscsiEnd::Feature(FeatureEnd::Rejected);

const BROKEN: IscsiEnd = IscsiEnd::Feature(FeatureEnd::BrokenData);

const LEFT: IscsiEnd = IscsiEnd::Feature(FeatureEnd::LoggedOut);

const NO_BYTES: &[u8] = &[];

const NOTHING: Answer = Answer::Pdus(&[]);

const ZEROS: &[u8] = &[0; 4];

const ONES: &[u8] = &[0xFF; 4];

const ONES_16: &[u8] = &[0xFF; 16];

/// The expected CmdSN and the last of the window where the request wasn't counted.
const UNCOUNTED: &[u8] = b"\x00\x00\x00\x10\x00\x00\x00\x1F";

const READ_BYTES: &[u8] = &[0x5A; 512];

const READ: Request = Request {
    before: &[pdus::LOGIN],
    pdu: pdus::READ,
    after: NO_BYTES,
    answered: &[pdus::LOGGED_IN],
    answer: &[
        (pdus::READ_HEAD_0, READ_BYTES),
        (pdus::READ_HEAD_1, READ_BYTES),
        (pdus::READ_DONE, NO_BYTES),
    ],
};

/// A READ for 1,024 bytes, of which the port returns 1,100.
static READ_FIELDS: [Row; 25] = [
    ("opcode", 0, b"\x3F", ENDED, Answer::Reject(5)),
    ("I", 0, b"\x41", ENDED, Answer::With(28, UNCOUNTED)),
    ("no F", 1, b"\x41", REJECTED, Answer::Reject(4)),
    ("R and W", 1, b"\xFF", REJECTED, Answer::Reject(5)),
    ("no R", 1, b"\x81", ENDED, Answer::Pdus(&[pdus::UNEXPECTED])),
    ("attribute 0", 1, b"\xC0", ENDED, Answer::Same),
    ("attribute 7", 1, b"\xC7", ENDED, Answer::Same),
    ("reserved", 2, b"\xFF\xFF", ENDED, Answer::Same),
    ("TotalAHSLength", 4, b"\xFF", CUT, NOTHING),
    ("DataSegmentLength", 5, b"\xFF\xFF\xFF", TOO_LONG, NOTHING),
    (
        "LUN FF..",
        8,
        &[0xFF; 8],
        ENDED,
        Answer::Pdus(&[pdus::NO_UNIT]),
    ),
    ("LUN 255", 9, b"\xFF", ENDED, Answer::Pdus(&[pdus::NO_UNIT])),
    ("LUN 0, flat", 8, b"\x40", ENDED, Answer::Same),
    (
        "LUN 0, extended",
        8,
        b"\xC0",
        ENDED,
        Answer::Pdus(&[pdus::NO_UNIT]),
    ),
    (
        "LUN, fourth level",
        15,
        b"\x01",
        ENDED,
        Answer::Pdus(&[pdus::NO_UNIT]),
    ),
    ("task tag", 16, ZEROS, ENDED, Answer::With(16, ZEROS)),
    ("task tag", 16, ONES, ENDED, Answer::With(16, ONES)),
    (
        "expected length",
        20,
        ZEROS,
        ENDED,
        Answer::Pdus(&[pdus::UNEXPECTED]),
    ),
    (
        "expected length",
        20,
        ONES,
        ENDED,
        Answer::Pdus(&[
            pdus::READ_HEAD_0,
            READ_BYTES,
            pdus::READ_HEAD_1,
            READ_BYTES,
            pdus::READ_HEAD_2,
            &[0x5A; 76],
            pdus::READ_UNDERFLOW,
        ]),
    ),
    ("CmdSN", 24, ZEROS, ENDED, NOTHING),
    ("CmdSN", 24, ONES, ENDED, NOTHING),
    ("ExpStatSN", 28, ZEROS, ENDED, Answer::Same),
    ("ExpStatSN", 28, ONES, ENDED, Answer::Same),
    ("block", 32, &[0; 16], ENDED, Answer::Pdus(&[pdus::NO_UNIT])),
    ("block", 32, ONES_16, ENDED, Answer::Pdus(&[pdus::NO_UNIT])),
];

#[test]
fn fields_of_a_read(rt: HostRuntime) {
    play(&rt, rt.alloc(), &READ, &READ_FIELDS);
}

const WRITE: Request = Request {
    before: &[pdus::LOGIN],
    pdu: pdus::WRITE_AHEAD,
    after: NO_BYTES,
    answered: &[pdus::LOGGED_IN],
    answer: &[(pdus::R2T_AHEAD, NO_BYTES)],
};

/// A WRITE of two sectors, 1,024 bytes, without immediate data. The R2T asks for the fewer of what is expected and what
/// the block's two sectors take; where that is nothing, the port refuses the command at once.
static WRITE_FIELDS: [Row; 8] = [
    ("no F", 1, b"\x21", REJECTED, Answer::Reject(4)),
    (
        "expected length",
        20,
        ZEROS,
        ENDED,
        Answer::Pdus(&[pdus::WRITE_OVERFLOW]),
    ),
    ("expected length", 20, ONES, ENDED, Answer::Same),
    (
        "sectors",
        39,
        b"\x00\x00",
        ENDED,
        Answer::Pdus(&[pdus::WRITE_UNDERFLOW]),
    ),
    ("sectors", 39, b"\xFF\xFF", ENDED, Answer::Same),
    (
        "LUN FF..",
        8,
        &[0xFF; 8],
        ENDED,
        Answer::With(8, &[0xFF; 8]),
    ),
    ("task tag", 16, ONES, ENDED, Answer::With(16, ONES)),
    ("CmdSN", 24, ONES, ENDED, NOTHING),
];

#[test]
fn fields_of_a_write(rt: HostRuntime) {
    play(&rt, rt.alloc(), &WRITE, &WRITE_FIELDS);
}

const DATA_OUT: Request = Request {
    before: &[pdus::LOGIN, pdus::WRITE_AHEAD],
    pdu: pdus::DATA_AHEAD_HEAD,
    after: &[0xA5; 1024],
    answered: &[pdus::LOGGED_IN, pdus::R2T_AHEAD],
    answer: &[(pdus::WRITTEN_AHEAD, NO_BYTES)],
};

/// All data of a WRITE. Those for another task, or for another R2T, are dropped; those that aren't the next ones end
/// the session.
static DATA_OUT_FIELDS: [Row; 12] = [
    ("I", 0, b"\x45", ENDED, Answer::Same),
    ("no F", 1, b"\x00", BROKEN, NOTHING),
    ("reserved", 1, b"\xFF\xFF\xFF", ENDED, Answer::Same),
    ("DataSegmentLength", 5, b"\xFF\xFF\xFF", TOO_LONG, NOTHING),
    ("DataSegmentLength", 5, b"\x00\x00\x00", BROKEN, NOTHING),
    ("LUN", 8, &[0xFF; 8], ENDED, Answer::Same),
    ("task tag", 16, ONES, ENDED, NOTHING),
    ("target transfer tag", 20, ONES, ENDED, NOTHING),
    ("ExpStatSN", 28, ONES, ENDED, Answer::Same),
    ("reserved", 32, ONES, ENDED, Answer::Same),
    ("DataSN", 36, ONES, BROKEN, NOTHING),
    ("offset", 40, ONES, BROKEN, NOTHING),
];

#[test]
fn fields_of_data_out(rt: HostRuntime) {
    play(&rt, rt.alloc(), &DATA_OUT, &DATA_OUT_FIELDS);
}

const NOP_OUT: Request = Request {
    before: &[pdus::LOGIN],
    pdu: pdus::PING,
    after: NO_BYTES,
    answered: &[pdus::LOGGED_IN],
    answer: &[(pdus::FIRST_PONG, NO_BYTES)],
};

/// An immediate NOP-Out, which isn't in CmdSN's order.
static NOP_OUT_FIELDS: [Row; 15] = [
    ("not I", 0, b"\x00", ENDED, NOTHING),
    ("no F", 1, b"\x00", ENDED, Answer::Same),
    ("reserved", 1, b"\xFF\xFF\xFF", ENDED, Answer::Same),
    ("TotalAHSLength", 4, b"\xFF", CUT, NOTHING),
    ("DataSegmentLength", 5, b"\xFF\xFF\xFF", TOO_LONG, NOTHING),
    ("LUN", 8, &[0xFF; 8], ENDED, Answer::With(8, &[0xFF; 8])),
    ("task tag", 16, ZEROS, ENDED, Answer::With(16, ZEROS)),
    ("task tag", 16, ONES, ENDED, NOTHING),
    ("target transfer tag", 20, ZEROS, ENDED, Answer::Same),
    ("CmdSN", 24, ZEROS, ENDED, Answer::Same),
    ("CmdSN", 24, ONES, ENDED, Answer::Same),
    ("ExpStatSN", 28, ZEROS, ENDED, Answer::Same),
    ("ExpStatSN", 28, ONES, ENDED, Answer::Same),
    ("reserved", 32, ONES_16, ENDED, Answer::Same),
    ("reserved opcode", 0, b"\x7F", ENDED, Answer::Reject(5)),
];

#[test]
fn fields_of_a_nop_out(rt: HostRuntime) {
    play(&rt, rt.alloc(), &NOP_OUT, &NOP_OUT_FIELDS);
}

const MANAGEMENT: Request = Request {
    before: &[pdus::LOGIN],
    pdu: pdus::RESET_LUN_9,
    after: NO_BYTES,
    answered: &[pdus::LOGGED_IN],
    answer: &[(pdus::NO_LUN_9, NO_BYTES)],
};

/// An immediate LUN RESET, of a LUN without a unit.
static MANAGEMENT_FIELDS: [Row; 15] = [
    ("function 0", 1, b"\x80", ENDED, Answer::With(2, b"\xFF")),
    ("ABORT TASK", 1, b"\x81", ENDED, Answer::With(2, b"\x01")),
    ("TASK REASSIGN", 1, b"\x88", ENDED, Answer::With(2, b"\x04")),
    ("function 127", 1, b"\xFF", ENDED, Answer::With(2, b"\xFF")),
    ("reserved", 2, b"\xFF\xFF", ENDED, Answer::Same),
    ("DataSegmentLength", 5, b"\xFF\xFF\xFF", TOO_LONG, NOTHING),
    ("LUN 0", 8, &[0; 8], ENDED, Answer::With(2, b"\x00")),
    ("LUN FF..", 8, &[0xFF; 8], ENDED, Answer::Same),
    ("task tag", 16, ONES, ENDED, Answer::With(16, ONES)),
    ("referenced task tag", 20, ZEROS, ENDED, Answer::Same),
    ("CmdSN", 24, ZEROS, ENDED, Answer::Same),
    ("CmdSN", 24, ONES, ENDED, Answer::Same),
    ("ExpStatSN", 28, ONES, ENDED, Answer::Same),
    ("RefCmdSN", 32, ONES, ENDED, Answer::Same),
    ("ExpDataSN", 36, ONES, ENDED, Answer::Same),
];

#[test]
fn fields_of_task_management(rt: HostRuntime) {
    play(&rt, rt.alloc(), &MANAGEMENT, &MANAGEMENT_FIELDS);
}

const TEXT: Request = Request {
    before: &[pdus::LOGIN_DISCOVERY],
    pdu: pdus::SEND_TARGETS,
    after: NO_BYTES,
    answered: &[pdus::LOGGED_IN_DISCOVERY],
    answer: &[(pdus::TARGETS, NO_BYTES)],
};

/// SendTargets for discovery. A text that goes on in another request isn't supported.
static TEXT_FIELDS: [Row; 13] = [
    ("I", 0, b"\x44", ENDED, Answer::With(28, UNCOUNTED)),
    ("no F", 1, b"\x00", REJECTED, Answer::Reject(5)),
    ("F and C", 1, b"\xC0", REJECTED, Answer::Reject(5)),
    ("reserved", 2, b"\xFF\xFF", ENDED, Answer::Same),
    ("DataSegmentLength", 5, b"\xFF\xFF\xFF", TOO_LONG, NOTHING),
    ("LUN", 8, &[0xFF; 8], ENDED, Answer::Same),
    ("task tag", 16, ZEROS, ENDED, Answer::With(16, ZEROS)),
    ("task tag", 16, ONES, ENDED, Answer::With(16, ONES)),
    ("CmdSN", 24, ZEROS, ENDED, NOTHING),
    ("CmdSN", 24, ONES, ENDED, NOTHING),
    ("ExpStatSN", 28, ZEROS, ENDED, Answer::Same),
    ("ExpStatSN", 28, ONES, ENDED, Answer::Same),
    ("reserved", 32, ONES_16, ENDED, Answer::Same),
];

#[test]
fn fields_of_a_text(rt: HostRuntime) {
    play(&rt, rt.alloc(), &TEXT, &TEXT_FIELDS);
}

const LOGOUT: Request = Request {
    before: &[pdus::LOGIN],
    pdu: pdus::LOGOUT,
    after: NO_BYTES,
    answered: &[pdus::LOGGED_IN],
    answer: &[(pdus::FIRST_LOGGED_OUT, NO_BYTES)],
};

/// An immediate logout that closes the session.
static LOGOUT_FIELDS: [Row; 11] = [
    ("close the connection", 1, b"\x81", LEFT, Answer::Same),
    ("recovery", 1, b"\x82", ENDED, Answer::With(2, b"\x02")),
    ("reason 127", 1, b"\xFF", ENDED, Answer::Reject(9)),
    ("reserved", 2, b"\xFF\xFF", LEFT, Answer::Same),
    ("DataSegmentLength", 5, b"\xFF\xFF\xFF", TOO_LONG, NOTHING),
    ("reserved", 8, &[0xFF; 8], LEFT, Answer::Same),
    ("task tag", 16, ONES, LEFT, Answer::With(16, ONES)),
    ("CID of a session", 20, b"\xFF\xFF", LEFT, Answer::Same),
    ("CmdSN", 24, ZEROS, LEFT, Answer::Same),
    ("CmdSN", 24, ONES, LEFT, Answer::Same),
    ("ExpStatSN", 28, ONES, LEFT, Answer::Same),
];

#[test]
fn fields_of_a_logout(rt: HostRuntime) {
    play(&rt, rt.alloc(), &LOGOUT, &LOGOUT_FIELDS);
}

const LOGIN: Request = Request {
    before: &[],
    pdu: pdus::LOGIN,
    after: NO_BYTES,
    answered: &[],
    answer: &[(pdus::LOGGED_IN, NO_BYTES)],
};

/// A login for the full feature phase.
static LOGIN_FIELDS: [Row; 15] = [
    (
        "opcode",
        0,
        b"\x40",
        IscsiEnd::Login(LoginEnd::Refused(LoginStatus::InvalidDuringLogin)),
        Answer::Pdus(&[pdus::REFUSED_NO_LOGIN]),
    ),
    (
        "T, C, CSG 3, NSG 3",
        1,
        b"\xFF",
        IscsiEnd::Login(LoginEnd::Refused(LoginStatus::InitiatorError)),
        Answer::Pdus(&[pdus::REFUSED_STAGE]),
    ),
    ("Version-max", 2, b"\xFF", ENDED, Answer::Same),
    (
        "Version-min",
        3,
        b"\xFF",
        IscsiEnd::Login(LoginEnd::Refused(LoginStatus::UnsupportedVersion)),
        Answer::Pdus(&[pdus::REFUSED_NEXT_VERSION]),
    ),
    (
        "DataSegmentLength",
        5,
        b"\xFF\xFF\xFF",
        IscsiEnd::Login(LoginEnd::Unread(ReceiveEnd::TooLong(0xFF_FFFF))),
        NOTHING,
    ),
    ("ISID", 8, &[0xFF; 6], ENDED, Answer::With(8, &[0xFF; 6])),
    (
        "TSIH",
        14,
        b"\xFF\xFF",
        IscsiEnd::Login(LoginEnd::Refused(LoginStatus::SessionDoesNotExist)),
        Answer::Pdus(&[pdus::REFUSED_NO_SESSION]),
    ),
    ("task tag", 16, ZEROS, ENDED, Answer::With(16, ZEROS)),
    ("task tag", 16, ONES, ENDED, Answer::With(16, ONES)),
    ("CID", 20, b"\xFF\xFF", ENDED, Answer::Same),
    ("reserved", 22, b"\xFF\xFF", ENDED, Answer::Same),
    (
        "CmdSN",
        24,
        ZEROS,
        ENDED,
        Answer::With(28, b"\x00\x00\x00\x00\x00\x00\x00\x0F"),
    ),
    (
        "CmdSN",
        24,
        ONES,
        ENDED,
        Answer::With(28, b"\xFF\xFF\xFF\xFF\x00\x00\x00\x0E"),
    ),
    ("ExpStatSN", 28, ONES, ENDED, Answer::Same),
    ("reserved", 32, ONES_16, ENDED, Answer::Same),
];

#[test]
fn fields_of_a_login(rt: HostRuntime) {
    play(&rt, rt.alloc(), &LOGIN, &LOGIN_FIELDS);
}

fn play(rt: &impl Abort, alloc: Global, request: &Request, rows: &[Row]) {
    for row in rows {
        play_row(rt, alloc, request, row);
    }
}

// Serves a session with one field of a request changed, and compares its end and what it wrote.
fn play_row(rt: &impl Abort, alloc: Global, request: &Request, row: &Row) {
    let (field, at, bytes, end, ref answer) = *row;
    let changed = with(rt, alloc, request.pdu, at, bytes);
    let mut input = joined(rt, alloc, request.before);
    append(rt, &mut input, &changed);
    append(rt, &mut input, request.after);
    let mut output = joined(rt, alloc, request.answered);
    expect(rt, alloc, &mut output, request, &changed, answer);
    let mut reader = MemSource::new(input);
    let mut writer = MemSink::new(vec![in alloc; 0; 8192].expect(rt, "memory"));
    let mut port = Fake::new(alloc);
    let address = b"127.0.0.1:3260";
    let ended = serve_target(alloc, &mut reader, &mut writer, &mut port, address);
    assert!(rt; ended == end, "{field}: {ended:?} in place of {end:?}");
    let written = writer.written();
    assert!(rt;
        written == output.as_slice(),
        "{field}: {written:?} in place of {output:?}"
    );
}

// Appends what answers a request with a changed field.
fn expect(
    rt: &impl Abort,
    alloc: Global,
    output: &mut Vec<u8>,
    request: &Request,
    changed: &[u8],
    answer: &Answer,
) {
    match answer {
        Answer::Same => append_answer(rt, alloc, output, request, 0, NO_BYTES),
        Answer::With(at, bytes) => append_answer(rt, alloc, output, request, *at, bytes),
        Answer::Reject(reason) => {
            let head = with(rt, alloc, pdus::REJECT_HEAD, 2, &[*reason]);
            append(rt, output, &head);
            append(rt, output, changed.get(..48).unwrap_or(NO_BYTES));
        }
        Answer::Pdus(answers) => {
            for pdu in *answers {
                append(rt, output, pdu);
            }
        }
    }
}

// Appends the answer to a request, with these bytes at this place of each header.
fn append_answer(
    rt: &impl Abort,
    alloc: Global,
    output: &mut Vec<u8>,
    request: &Request,
    at: usize,
    bytes: &[u8],
) {
    for (head, after) in request.answer {
        let changed = with(rt, alloc, head, at, bytes);
        append(rt, output, &changed);
        append(rt, output, after);
    }
}

fn append(rt: &impl Abort, all: &mut Vec<u8>, piece: &[u8]) {
    all.extend_from_slice(piece).expect(rt, "memory");
}

// A PDU with other bytes at a place.
fn with(rt: &impl Abort, alloc: Global, pdu: &[u8], at: usize, bytes: &[u8]) -> Vec<u8> {
    let mut changed = joined(rt, alloc, &[pdu]);
    for (number, byte) in bytes.iter().enumerate() {
        if let Some(place) = changed.get_mut(at.saturating_add(number)) {
            *place = *byte;
        }
    }
    changed
}
