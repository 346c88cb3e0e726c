// What a port observes of the logins that it is given.
use crate::fake::{Fake, Observed};
use crate::pdus;
use crate::sessions::{ends, joined};
use ar_frames::{MemSink, MemSource};
use ar_iscsi::{FeatureEnd, IscsiEnd, LoginEnd, LoginStatus, ReceiveEnd, serve_target};
use ar_target::InitiatorLogin;
use std::alloc::Global;
use std::process::Abort;

const ENDED: IscsiEnd = IscsiEnd::Feature(FeatureEnd::Unread(ReceiveEnd::End));

// Plays a session over these bytes, and compares its end and the logins that were observed: this one, or none.
fn observes(
    rt: &impl Abort,
    alloc: Global,
    input: &[&[u8]],
    end: IscsiEnd,
    login: Option<InitiatorLogin<'_>>,
) {
    let mut reader = MemSource::new(joined(rt, alloc, input));
    let mut writer = MemSink::new(vec![in alloc; 0; 8192].expect(rt, "memory"));
    let mut port = Fake::new(alloc);
    let address = b"127.0.0.1:3260";
    let ended = serve_target(alloc, &mut reader, &mut writer, &mut port, address);
    ends(rt, ended, end);
    let wanted = login.map(|login| Observed::of(login, false));
    let (count, observed) = (port.logins.get(), port.login.get());
    let wanted_count = if wanted.is_some() { 1 } else { 0 };
    assert!(rt;
        observed == wanted && count == wanted_count,
        "{count} logins, {observed:?} in place of {wanted:?}"
    );
}

// A login by the initiator of `pdus`.
fn login_of(host: Option<u8>) -> InitiatorLogin<'static> {
    InitiatorLogin {
        initiator: b"iqn.x",
        isid_high: 0x4000_0137,
        isid_low: 0,
        host,
    }
}

#[test]
fn a_normal_login(rt: HostRuntime) {
    let alloc = rt.alloc();
    let login = login_of(Some(1));
    observes(&rt, alloc, &[pdus::LOGIN], ENDED, Some(login));
}

#[test]
fn a_session_for_discovery(rt: HostRuntime) {
    let alloc = rt.alloc();
    let input = [pdus::LOGIN_DISCOVERY, pdus::SEND_TARGETS];
    observes(&rt, alloc, &input, ENDED, Some(login_of(None)));
}

// The name is in the first request, and its text is over before the login is; or the text is in two requests.
#[test]
fn a_login_of_several_requests(rt: HostRuntime) {
    let alloc = rt.alloc();
    let login = InitiatorLogin {
        initiator: b"iqn.1993-08.example:a",
        isid_high: 0x0002_3D01,
        isid_low: 0x0203,
        host: Some(1),
    };
    let input = [pdus::LOGIN_NAME, pdus::LOGIN_OPERATIONS];
    observes(&rt, alloc, &input, ENDED, Some(login));
    let input = [pdus::LOGIN_PART, pdus::LOGIN_REST];
    observes(&rt, alloc, &input, ENDED, Some(login_of(Some(1))));
}

// One that the port refuses, since the host has a session, was observed before.
#[test]
fn a_login_of_a_host_in_use(rt: HostRuntime) {
    let alloc = rt.alloc();
    let end = IscsiEnd::Login(LoginEnd::Refused(LoginStatus::OutOfResources));
    let input = [pdus::LOGIN_HOST_IN_USE];
    observes(&rt, alloc, &input, end, Some(login_of(Some(2))));
}

#[test]
fn refused_logins_are_not_observed(rt: HostRuntime) {
    let alloc = rt.alloc();
    for (input, status) in [
        (pdus::LOGIN_ANOTHER_TARGET, LoginStatus::NotFound),
        (pdus::LOGIN_HOST_9, LoginStatus::NotFound),
        (pdus::LOGIN_NO_NAME, LoginStatus::MissingParameter),
        (pdus::LOGIN_OTHER_KIND, LoginStatus::SessionTypeNotSupported),
    ] {
        let end = IscsiEnd::Login(LoginEnd::Refused(status));
        observes(&rt, alloc, &[input], end, None);
    }
}
