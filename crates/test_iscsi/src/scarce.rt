// Sessions in which any one allocation may be refused. The gate refuses each in turn, by `tests/`; with ample
// memory they are the sessions themselves.
use crate::fake::Fake;
use crate::garbage::split_pdu;
use crate::pdus;
use ar_frames::{MemSink, MemSource};
use ar_iscsi::{FeatureEnd, IscsiEnd, LoginEnd, ReceiveEnd, serve_target};
use std::alloc::{AllocError, Global};
use std::process::Abort;

const ALL: &[u8] = &[0xA5; 1024];

const HALF: &[u8] = &[0xA5; 512];

const READ_BYTES: &[u8] = &[0x5A; 512];

/// What an initiator sends, what answers it, and how the session ends.
#[derive(Clone, Copy)]
struct Session<'a> {
    input: &'a [&'a [u8]],
    output: &'a [&'a [u8]],
    end: IscsiEnd,
}

const WHOLE: Session = Session {
    input: &[
        pdus::LOGIN,
        pdus::READ,
        pdus::WRITE_HEAD,
        HALF,
        pdus::DATA_OUT_HEAD,
        HALF,
        pdus::INQUIRY_LUN_9,
        pdus::PING,
        pdus::SNACK,
        pdus::LOGOUT,
    ],
    output: &[
        pdus::LOGGED_IN,
        pdus::READ_HEAD_0,
        READ_BYTES,
        pdus::READ_HEAD_1,
        READ_BYTES,
        pdus::READ_DONE,
        pdus::R2T,
        pdus::WRITTEN,
        pdus::CHECKED,
        pdus::PONG,
        pdus::REJECTED,
        pdus::LOGGED_OUT,
    ],
    end: IscsiEnd::Feature(FeatureEnd::LoggedOut),
};

#[test]
fn a_whole_session(rt: HostRuntime) {
    serve_again(&rt, rt.alloc(), WHOLE);
}

const SENT_AHEAD: Session = Session {
    input: &[
        pdus::LOGIN,
        pdus::WRITE_AHEAD,
        pdus::READ_BEHIND,
        pdus::PING_BEHIND,
        pdus::DATA_AHEAD_HEAD,
        ALL,
    ],
    output: &[
        pdus::LOGGED_IN,
        pdus::R2T_AHEAD,
        pdus::WRITTEN_AHEAD,
        pdus::READ_BEHIND_HEAD_0,
        READ_BYTES,
        pdus::READ_BEHIND_HEAD_1,
        READ_BYTES,
        pdus::READ_BEHIND_DONE,
        pdus::PONG_BEHIND,
    ],
    end: IscsiEnd::Feature(FeatureEnd::Unread(ReceiveEnd::End)),
};

#[test]
fn commands_sent_ahead(rt: HostRuntime) {
    serve_again(&rt, rt.alloc(), SENT_AHEAD);
}

const DISCOVERY: Session = Session {
    input: &[pdus::LOGIN_DISCOVERY, pdus::SEND_TARGETS],
    output: &[pdus::LOGGED_IN_DISCOVERY, pdus::TARGETS],
    end: IscsiEnd::Feature(FeatureEnd::Unread(ReceiveEnd::End)),
};

#[test]
fn discovery(rt: HostRuntime) {
    serve_again(&rt, rt.alloc(), DISCOVERY);
}

// Serves a session, and once more if memory was refused in it.
fn serve_again(rt: &impl Abort, alloc: Global, session: Session) {
    let output = bytes_of(rt, alloc, session.output);
    if !serve(rt, alloc, session, &output) {
        let is_whole = serve(rt, alloc, session, &output);
        assert!(rt; is_whole, "memory was refused twice");
    }
}

// Serves a session, and says whether it was as with ample memory. If it wasn't, it ended for lack of memory, after a
// whole answer, or a command got BUSY, once, which its port has counted.
fn serve(rt: &impl Abort, alloc: Global, session: Session, output: &[u8]) -> bool {
    let mut reader = MemSource::new(bytes_of(rt, alloc, session.input));
    let mut writer = MemSink::new(room(rt, alloc));
    let mut port = Fake::new(alloc);
    let address = b"127.0.0.1:3260";
    let end = serve_target(alloc, &mut reader, &mut writer, &mut port, address);
    let written = writer.written();
    if end == session.end && written == output {
        return true;
    }
    let other = after_same(written, output);
    let is_fine = if end == session.end {
        is_busy(other) && port.busy.get() == 1
    } else {
        is_for_memory(end) && other.is_empty()
    };
    assert!(rt; is_fine, "{end:?} after {written:?}");
    false
}

// What is written after the whole PDUs that are as wanted.
fn after_same<'a>(written: &'a [u8], wanted: &[u8]) -> &'a [u8] {
    let (mut rest, mut left) = (written, wanted);
    for _ in 0..written.len() {
        let (Some((_, _, rest_after)), Some((_, _, left_after))) = (
            split_pdu(rest),
            split_pdu(left),
        ) else {
            break;
        };
        let len = rest.len().saturating_sub(rest_after.len());
        if rest.get(..len) != left.get(..len) {
            break;
        }
        (rest, left) = (rest_after, left_after);
    }
    rest
}

// Whether these bytes begin with a SCSI Response of status BUSY.
fn is_busy(written: &[u8]) -> bool {
    written.first() == Some(&0x21) && written.get(3) == Some(&0x08)
}

fn is_for_memory(end: IscsiEnd) -> bool {
    match end {
        IscsiEnd::NoBuffer
        | IscsiEnd::Login(LoginEnd::NoMemory)
        | IscsiEnd::Feature(FeatureEnd::NoMemory) => true,
        _ => false,
    }
}

// These pieces one after the other.
fn bytes_of(rt: &impl Abort, alloc: Global, pieces: &[&[u8]]) -> Vec<u8> {
    match joined(alloc, pieces) {
        Ok(all) => all,
        Err(AllocError) => joined(alloc, pieces).expect(rt, "memory"),
    }
}

fn joined(alloc: Global, pieces: &[&[u8]]) -> Result<Vec<u8>, AllocError> {
    let mut all = Vec::new(alloc);
    for piece in pieces {
        all.extend_from_slice(piece)?;
    }
    Ok(all)
}

// Room for what a session writes.
fn room(rt: &impl Abort, alloc: Global) -> Vec<u8> {
    match zeros(alloc) {
        Ok(room) => room,
        Err(AllocError) => zeros(alloc).expect(rt, "memory"),
    }
}

fn zeros(alloc: Global) -> Result<Vec<u8>, AllocError> {
    vec![in alloc; 0; 8192]
}
