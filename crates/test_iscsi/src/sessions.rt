// Sessions, byte for byte.
ghost use Rattle.std.specs.Prelude.{None};

use crate::fake::Fake;
use crate::pdus;
use ar_frames::{MemSink, MemSource, Sink};
use ar_iscsi::{FeatureEnd, IscsiEnd, LoginEnd, LoginStatus, ReceiveEnd, serve_target};
use std::alloc::Global;
use std::process::Abort;

// Plays a session over these bytes, and compares its end and what it wrote.
pub fn plays(rt: &impl Abort, alloc: Global, input: &[&[u8]], end: IscsiEnd, output: &[&[u8]]) {
    let input = joined(rt, alloc, input);
    let output = joined(rt, alloc, output);
    let mut reader = MemSource::new(input);
    let mut writer = MemSink::new(vec![in alloc; 0; 8192].expect(rt, "memory"));
    let mut port = Fake::new(alloc);
    let ended = serve_target(
        alloc,
        &mut reader,
        &mut writer,
        &mut port,
        b"127.0.0.1:3260",
    );
    ends(rt, ended, end);
    wrote(rt, writer.written(), &output);
}

pub fn ends(rt: &impl Abort, end: IscsiEnd, wanted: IscsiEnd) {
    assert!(rt; end == wanted, "{end:?} in place of {wanted:?}");
}

pub fn wrote(rt: &impl Abort, written: &[u8], wanted: &[u8]) {
    assert!(rt; written == wanted, "{written:?} in place of {wanted:?}");
}

// These pieces one after the other.
pub fn joined(rt: &impl Abort, alloc: Global, pieces: &[&[u8]]) -> Vec<u8> {
    let mut all = Vec::new(alloc);
    for piece in pieces {
        all.extend_from_slice(piece).expect(rt, "memory");
    }
    all
}

const HALF: &[u8] = &[0xA5; 512];

const READ_BYTES: &[u8] = &[0x5A; 512];

const LEFT: IscsiEnd = IscsiEnd::Feature(FeatureEnd::LoggedOut);

pub const ENDED: IscsiEnd = IscsiEnd::Feature(FeatureEnd::Unread(ReceiveEnd::End));

#[test]
fn a_read_returns_what_is_expected_in_segments(rt: HostRuntime) {
    let alloc = rt.alloc();
    let output = [
        pdus::LOGGED_IN,
        pdus::READ_HEAD_0,
        READ_BYTES,
        pdus::READ_HEAD_1,
        READ_BYTES,
        pdus::READ_DONE,
    ];
    plays(&rt, alloc, &[pdus::LOGIN, pdus::READ], ENDED, &output);
}

// Counts the calls that it takes.
#[derive(Drop)]
struct Calls {
    count: u64,
}

impl Sink for Calls {
    ghost state = { λ sink. record { taken = None; faults = 0 } };

    fn write(&mut self, from: &[u8]) -> Option<usize> {
        self.write_parts(from, &[], &[])
    }

    fn write_parts(&mut self, front: &[u8], middle: &[u8], rest: &[u8]) -> Option<usize> {
        self.count = self.count.saturating_add(1);
        Some((front.len() + middle.len()).saturating_add(rest.len()))
    }

    fn faults(&self) -> u64 {
        0
    }
}

fn are(rt: &impl Abort, calls: u64, wanted: u64) {
    assert!(rt; calls == wanted, "{calls} calls in place of {wanted}");
}

// The response to the login, one Data-In PDU, and the other one with the status.
#[test]
fn data_are_sent_with_their_header_by_one_call(rt: HostRuntime) {
    let alloc = rt.alloc();
    let mut reader = MemSource::new(joined(&rt, alloc, &[pdus::LOGIN, pdus::READ]));
    let mut writer = Calls { count: 0 };
    let mut port = Fake::new(alloc);
    let ended = serve_target(
        alloc,
        &mut reader,
        &mut writer,
        &mut port,
        b"127.0.0.1:3260",
    );
    ends(&rt, ended, ENDED);
    are(&rt, writer.count, 3);
}

#[test]
fn a_whole_session(rt: HostRuntime) {
    let alloc = rt.alloc();
    let input = [
        pdus::LOGIN,
        pdus::READ,
        pdus::WRITE_HEAD,
        HALF,
        pdus::DATA_OUT_HEAD,
        HALF,
        pdus::INQUIRY_LUN_9,
        pdus::PING,
        pdus::SNACK,
        pdus::LOGOUT,
    ];
    let output = [
        pdus::LOGGED_IN,
        pdus::READ_HEAD_0,
        READ_BYTES,
        pdus::READ_HEAD_1,
        READ_BYTES,
        pdus::READ_DONE,
        pdus::R2T,
        pdus::WRITTEN,
        pdus::CHECKED,
        pdus::PONG,
        pdus::REJECTED,
        pdus::LOGGED_OUT,
    ];
    plays(&rt, alloc, &input, LEFT, &output);
}

const ALL: &[u8] = &[0xA5; 1024];

// Commands that come while the data of a WRITE are collected are done after it, in order; one with a CmdSN that isn't
// the next, and one outside the window, are dropped.
#[test]
fn commands_are_sent_ahead(rt: HostRuntime) {
    let alloc = rt.alloc();
    let input = [
        pdus::LOGIN,
        pdus::WRITE_AHEAD,
        pdus::READ_BEHIND,
        pdus::PING_BEHIND,
        pdus::READ_GAP,
        pdus::READ_OUTSIDE,
        pdus::DATA_AHEAD_HEAD,
        ALL,
    ];
    let output = [
        pdus::LOGGED_IN,
        pdus::R2T_AHEAD,
        pdus::WRITTEN_AHEAD,
        pdus::READ_BEHIND_HEAD_0,
        READ_BYTES,
        pdus::READ_BEHIND_HEAD_1,
        READ_BYTES,
        pdus::READ_BEHIND_DONE,
        pdus::PONG_BEHIND,
    ];
    plays(&rt, alloc, &input, ENDED, &output);
}

// Of 17 that are sent ahead, the last is dropped: the next answer has its CmdSN as the expected one.
#[test]
fn the_window_has_16_commands(rt: HostRuntime) {
    let alloc = rt.alloc();
    let input = [
        pdus::LOGIN,
        pdus::WRITE_AHEAD,
        pdus::SILENT_PINGS,
        pdus::DATA_AHEAD_HEAD,
        ALL,
        pdus::LAST_PING,
    ];
    let output = [
        pdus::LOGGED_IN,
        pdus::R2T_AHEAD,
        pdus::WRITTEN_AHEAD,
        pdus::LAST_PONG,
    ];
    plays(&rt, alloc, &input, ENDED, &output);
}

#[test]
fn a_command_that_waits_is_aborted(rt: HostRuntime) {
    let alloc = rt.alloc();
    let input = [
        pdus::LOGIN,
        pdus::WRITE_AHEAD,
        pdus::READ_BEHIND,
        pdus::PING_BEHIND,
        pdus::ABORT_READ,
        pdus::DATA_AHEAD_HEAD,
        ALL,
    ];
    let output = [
        pdus::LOGGED_IN,
        pdus::R2T_AHEAD,
        pdus::ABORTED_READ,
        pdus::WRITTEN_AFTER_ABORT,
        pdus::ROOM_AFTER_ABORT,
        pdus::PONG_BEHIND,
    ];
    plays(&rt, alloc, &input, ENDED, &output);
}

#[test]
fn a_reset_drops_the_commands_of_its_unit(rt: HostRuntime) {
    let alloc = rt.alloc();
    let input = [
        pdus::LOGIN,
        pdus::WRITE_AHEAD,
        pdus::READ_BEHIND,
        pdus::PING_BEHIND,
        pdus::RESET_UNIT,
        pdus::DATA_AHEAD_HEAD,
        ALL,
    ];
    let output = [
        pdus::LOGGED_IN,
        pdus::R2T_AHEAD,
        pdus::UNIT_RESET,
        pdus::ROOM_AFTER_RESET,
        pdus::PONG_AFTER_RESET,
    ];
    plays(&rt, alloc, &input, ENDED, &output);
}

// The initiator need not send the data of a WRITE that it has aborted, and may.
#[test]
fn a_write_is_aborted_before_its_data(rt: HostRuntime) {
    let alloc = rt.alloc();
    let output = [pdus::LOGGED_IN, pdus::R2T_AHEAD, pdus::ABORTED_WRITE];
    let input = [pdus::LOGIN, pdus::WRITE_AHEAD, pdus::ABORT_WRITE];
    plays(&rt, alloc, &input, ENDED, &output);
    let late = [
        pdus::LOGIN,
        pdus::WRITE_AHEAD,
        pdus::ABORT_WRITE,
        pdus::DATA_AHEAD_HEAD,
        ALL,
    ];
    plays(&rt, alloc, &late, ENDED, &output);
}

#[test]
fn a_reset_of_no_unit(rt: HostRuntime) {
    let alloc = rt.alloc();
    let input = [pdus::LOGIN, pdus::RESET_LUN_9];
    let output = [pdus::LOGGED_IN, pdus::NO_LUN_9];
    plays(&rt, alloc, &input, ENDED, &output);
}

#[test]
fn data_with_a_gap_end_the_session(rt: HostRuntime) {
    let alloc = rt.alloc();
    let input = [
        pdus::LOGIN,
        pdus::READ,
        pdus::WRITE_HEAD,
        HALF,
        pdus::DATA_OUT_GAP_HEAD,
        HALF,
        pdus::PING,
    ];
    let output = [
        pdus::LOGGED_IN,
        pdus::READ_HEAD_0,
        READ_BYTES,
        pdus::READ_HEAD_1,
        READ_BYTES,
        pdus::READ_DONE,
        pdus::R2T,
    ];
    let end = IscsiEnd::Feature(FeatureEnd::BrokenData);
    plays(&rt, alloc, &input, end, &output);
}

// A command that is rejected isn't counted (RFC 7143, 7.3), so those after it could never be: the session ends.
#[test]
fn a_rejected_command_ends_the_session(rt: HostRuntime) {
    let alloc = rt.alloc();
    let input = [pdus::LOGIN, pdus::READ_AND_WRITE, pdus::READ];
    let output = [pdus::LOGGED_IN, pdus::REJECTED_COMMAND];
    let end = IscsiEnd::Feature(FeatureEnd::Rejected);
    plays(&rt, alloc, &input, end, &output);
}

#[test]
fn discovery(rt: HostRuntime) {
    let alloc = rt.alloc();
    let input = [pdus::LOGIN_DISCOVERY, pdus::SEND_TARGETS];
    let output = [pdus::LOGGED_IN_DISCOVERY, pdus::TARGETS];
    plays(&rt, alloc, &input, ENDED, &output);
}

// Numbers in hexadecimal, a FirstBurstLength above MaxBurstLength, a list without what is supported.
#[test]
fn keys_of_a_login(rt: HostRuntime) {
    let alloc = rt.alloc();
    plays(
        &rt,
        alloc,
        &[pdus::LOGIN_KEYS],
        ENDED,
        &[pdus::LOGGED_IN_KEYS],
    );
    plays(
        &rt,
        alloc,
        &[pdus::LOGIN_FAST_ABORT],
        ENDED,
        &[pdus::LOGGED_IN_FAST_ABORT],
    );
}

// A session with the target of a host names no other.
#[test]
fn targets_in_a_normal_session(rt: HostRuntime) {
    let alloc = rt.alloc();
    let input = [
        pdus::LOGIN,
        pdus::SEND_OWN_TARGET,
        pdus::SEND_NAMED_TARGET,
        pdus::SEND_OTHER_TARGET,
        pdus::SEND_ALL_TARGETS,
    ];
    let output = [
        pdus::LOGGED_IN,
        pdus::OWN_TARGET,
        pdus::NAMED_TARGET,
        pdus::NO_TARGET,
        pdus::NOT_ALL_TARGETS,
    ];
    plays(&rt, alloc, &input, ENDED, &output);
}

#[test]
fn a_text_in_two_requests(rt: HostRuntime) {
    let alloc = rt.alloc();
    let input = [pdus::LOGIN_PART, pdus::LOGIN_REST];
    let output = [pdus::LOGIN_PART_TAKEN, pdus::LOGGED_IN_REST];
    plays(&rt, alloc, &input, ENDED, &output);
}

#[test]
fn refused_logins(rt: HostRuntime) {
    let alloc = rt.alloc();
    for (input, status, output) in [
        (
            pdus::LOGIN_ANOTHER_TARGET,
            LoginStatus::NotFound,
            pdus::REFUSED_ANOTHER_TARGET,
        ),
        (
            pdus::LOGIN_HOST_9,
            LoginStatus::NotFound,
            pdus::REFUSED_HOST_9,
        ),
        (
            pdus::LOGIN_HOST_IN_USE,
            LoginStatus::OutOfResources,
            pdus::REFUSED_HOST_IN_USE,
        ),
        (
            pdus::LOGIN_NO_NAME,
            LoginStatus::MissingParameter,
            pdus::REFUSED_NO_NAME,
        ),
        (
            pdus::LOGIN_NO_TARGET,
            LoginStatus::MissingParameter,
            pdus::REFUSED_NO_TARGET,
        ),
        (
            pdus::LOGIN_CHAP_ALONE,
            LoginStatus::AuthenticationFailure,
            pdus::REFUSED_CHAP_ALONE,
        ),
        (
            pdus::LOGIN_NEXT_VERSION,
            LoginStatus::UnsupportedVersion,
            pdus::REFUSED_NEXT_VERSION,
        ),
        (
            pdus::LOGIN_OTHER_KIND,
            LoginStatus::SessionTypeNotSupported,
            pdus::REFUSED_OTHER_KIND,
        ),
        (
            pdus::LOGIN_KEY_TWICE,
            LoginStatus::InitiatorError,
            pdus::REFUSED_KEY_TWICE,
        ),
    ] {
        let end = IscsiEnd::Login(LoginEnd::Refused(status));
        plays(&rt, alloc, &[input, pdus::PING], end, &[output]);
    }
}

#[test]
fn a_connection_that_breaks_off(rt: HostRuntime) {
    let alloc = rt.alloc();
    for end in [1, 47, 48, 49, pdus::LOGIN.len() - 1] {
        let reason = IscsiEnd::Login(LoginEnd::Unread(ReceiveEnd::Cut));
        plays(&rt, alloc, &[&pdus::LOGIN[..end]], reason, &[]);
    }
    for end in [1, 47] {
        let reason = IscsiEnd::Feature(FeatureEnd::Unread(ReceiveEnd::Cut));
        plays(
            &rt,
            alloc,
            &[pdus::LOGIN, &pdus::READ[..end]],
            reason,
            &[pdus::LOGGED_IN],
        );
    }
}
