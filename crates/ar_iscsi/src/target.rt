// A whole session with the target of a host, or for discovery: its login, and its full feature phase.
ghost use Rattle.std.specs.Prelude.{◌≡◌, false, true, IfOk, vec_len};
ghost use Rattle.ar_iscsi.specs.Phase.{most_segment};
ghost use Rattle.ar_iscsi.specs.Target as session;

use crate::flow::Flow;
use crate::login::{LoginState, LoginWork};
use crate::login_phase::{LoginEnd, log_in};
use crate::negotiation::{Limits, Negotiation, SessionKind, TargetChoice};
use crate::session::{FeatureEnd, MOST_SEGMENT, Session};
use crate::terms::Terms;
use ar_frames::{Login, Port, Sink, Source};
use ar_scsi::{Reply, Sense};
use ar_target::{LoginObserver, ResetOutcome, ResetPort};
use bytes::Bytes;
use std::alloc::{AllocError, Global};

/// How a session ended.
#[derive(Clone, Copy, Debug, PartialEq, Eq)]
pub enum IscsiEnd {
    /// The session's buffer couldn't be allocated. Nothing was read.
    NoBuffer,
    /// In its login.
    Login(LoginEnd),
    /// In its full feature phase.
    Feature(FeatureEnd),
}

/// A port without units, after a session for discovery. It refuses a login, and begins with one.
#[derive(Clone, Copy, Debug, Drop)]
pub struct NoUnits {
    has_login: bool,
}

impl Port for NoUnits {
    ghost use Rattle.ar_iscsi.specs.Target.{no_refusals, no_units};

    ghost has_login = { λ port. port.has_login };

    ghost logins = { λ old host login new. new ≡ old };

    ghost commands = { no_units };

    ghost refuses = { no_refusals };

    fn login(&mut self, host: u8) -> Login {
        if host > 3 {
            Login::BadHost
        } else {
            Login::InUse
        }
    }

    fn command(&mut self, _lun: u8, _cdb: &[u8; 16], _payload: Bytes) -> Reply {
        Reply::check(Sense::LOGICAL_UNIT_NOT_SUPPORTED)
    }

    fn refuse(&mut self, _cdb: &[u8; 16]) -> Reply {
        Reply::busy()
    }
}

impl ResetPort for NoUnits {
    ghost use Rattle.ar_iscsi.specs.Target.{no_resets};

    ghost resets = { no_resets };

    fn reset(&mut self, _lun: Option<u8>) -> ResetOutcome {
        ResetOutcome::NoUnit
    }
}

/// Serves one connection to the target: a login, and a normal session or one for discovery after it. It holds a buffer
/// of 256 KiB, the data of one WRITE, one answer at a time, and up to 16 PDUs that wait, of up to 256 KiB each.
/// `address` is the target's own, as `127.0.0.1:3260`. The port observes a login before it is given one.
pub fn serve_target<R: Source, W: Sink, P: ResetPort + LoginObserver>(
    alloc: Global,
    reader: &mut R,
    writer: &mut W,
    port: &mut P,
    address: &[u8],
) -> IscsiEnd
    requires { P.has_login port.old ≡ false }
    ensures { session.TargetSession P.logins P.commands P.refuses P.resets address.now
        (R.state reader.old) (R.state reader.new) (W.state writer.old) (W.state writer.new) port.old port.new result }
{
    match segment_buffer(alloc) {
        Ok(buffer) => serve_buffered(alloc, reader, writer, port, address, buffer),
        Err(AllocError) => IscsiEnd::NoBuffer,
    }
}

// A buffer for data segments.
fn segment_buffer(alloc: Global) -> Result<Vec<u8>, AllocError>
    ensures { IfOk result (λ buffer. vec_len buffer ≡ most_segment) }
{
    let mut buffer = Vec::with_capacity(alloc, MOST_SEGMENT)?;
    for _ in 0..MOST_SEGMENT {
        buffer.push_reserved(0);
    }
    Ok(buffer)
}

// Serves a connection with a buffer for data segments.
fn serve_buffered<R: Source, W: Sink, P: ResetPort + LoginObserver>(
    alloc: Global,
    reader: &mut R,
    writer: &mut W,
    port: &mut P,
    address: &[u8],
    mut buffer: Vec<u8>,
) -> IscsiEnd
    requires unlogged { P.has_login port.old ≡ false }
    requires room { vec_len buffer ≡ most_segment }
    ensures { session.TargetSession P.logins P.commands P.refuses P.resets address.now
        (R.state reader.old) (R.state reader.new) (W.state writer.old) (W.state writer.new) port.old port.new result }
{
    let mut work = LoginWork {
        state: LoginState {
            stage: None,
            so_far: Negotiation::new(),
            stat_sn: 0,
            cmd_sn: 0,
        },
        text: Vec::new(alloc),
        name: Vec::new(alloc),
        out: Vec::new(alloc),
    };
    match log_in(alloc, reader, writer, port, &mut work, &mut buffer) {
        LoginEnd::Entered => {
            lift_limit(reader, work.state.so_far.kind);
            let state = work.state;
            let reason = serve_entered(alloc, reader, writer, port, address, state, buffer);
            IscsiEnd::Feature(reason)
        }
        reason => IscsiEnd::Login(reason),
    }
}

// Lifts the limit on the time of the login. A session for discovery has one for all of it.
fn lift_limit<R: Source>(reader: &mut R, kind: SessionKind)
    ensures { R.state reader.new ≡ R.state reader.old }
{
    match kind {
        SessionKind::Normal => reader.lift_login_limit(),
        _ => reader.limit_discovery(),
    }
}

// Serves the full feature phase after a login.
fn serve_entered<R: Source, W: Sink, P: ResetPort>(
    alloc: Global,
    reader: &mut R,
    writer: &mut W,
    port: &mut P,
    address: &[u8],
    state: LoginState,
    buffer: Vec<u8>,
) -> FeatureEnd
    requires logged { state.so_far.kind ≡ SessionKind.Normal → P.has_login port.old ≡ true }
    requires room { vec_len buffer ≡ most_segment }
    ensures { session.IsFeature P.commands P.refuses P.resets address.now state
        (R.state reader.old) (R.state reader.new) (W.state writer.old) (W.state writer.new) port.old port.new result }
{
    let flow = Flow {
        stat_sn: state.stat_sn,
        exp_cmd_sn: state.cmd_sn,
        next_tag: 0,
        collecting: None,
    };
    let mut session = Session::new(alloc, flow, buffer);
    match state.so_far.kind {
        SessionKind::Normal => {
            let terms = Terms {
                limits: normal_limits(&state.so_far),
                address,
            };
            session.serve(reader, writer, port, &terms)
        }
        _ => {
            let terms = Terms {
                limits: state.so_far.limits,
                address,
            };
            let mut idle = NoUnits { has_login: true };
            session.serve(reader, writer, &mut idle, &terms)
        }
    }
}

// What was agreed on for a normal session, which is with the target of a host.
fn normal_limits(so_far: &Negotiation) -> Limits
    ensures { result ≡ session.normal_limits so_far.now }
{
    Limits {
        host: host_of(so_far.target),
        ..so_far.limits
    }
}

// The host of a target.
fn host_of(target: TargetChoice) -> Option<u8>
    ensures { result ≡ session.host_of target }
{
    match target {
        TargetChoice::OfHost(host) => Some(host),
        TargetChoice::Unnamed | TargetChoice::Unknown => None,
    }
}
