// How long a connection may take and be silent, by how far its session has come, and what counts as a login.
ghost use Rattle.std.specs.Prelude.{◌≡◌};
ghost use Rattle.ar_doors.specs.Limits as rule;

use crate::tcp::{Protocol, Timeouts};
use ar_frames::Stage;

/// What the silence of a peer calls for.
#[derive(Clone, Copy, Debug, PartialEq, Eq)]
pub(crate) enum SilenceStep {
    /// It is waited for.
    Wait,
    /// Its session pings it, if it hasn't done so in this silence.
    Ping,
    /// Its session ends.
    End,
}

/// How far the bytes have come that count as a login.
#[derive(Clone, Copy, Debug, PartialEq, Eq)]
pub(crate) enum Greeting {
    /// In a line.
    Line,
    /// At the beginning of a line after the first.
    NextLine,
    /// They have come, or the session itself notes its login.
    Over,
}

impl Greeting {
    // Of a connection from which nothing has come.
    pub fn first(protocol: Protocol) -> Greeting {
        match protocol {
            Protocol::Sessions => Greeting::Over,
            Protocol::Lines | Protocol::Http => Greeting::Line,
        }
    }
}

/// The seconds from its opening that a connection may take at this stage of its session. None: there is no limit.
pub(crate) fn session_limit(stage: Stage, timeouts: Timeouts) -> Option<u32>
    ensures { result ≡ rule.session_limit stage timeouts }
{
    match stage {
        Stage::Silent => timeouts.login,
        Stage::Discovery => timeouts.discovery,
        Stage::Entered => None,
    }
}

/// What is done about a peer that has been silent for this many milliseconds.
pub(crate) fn silence_step(silent: u64, stage: Stage, timeouts: Timeouts) -> SilenceStep
    ensures { result ≡ rule.silence_step silent stage timeouts }
{
    let ping = ping_limit(stage, timeouts);
    if has_lasted(silent, timeouts.idle, 1_000) || has_lasted(silent, ping, 2_000) {
        SilenceStep::End
    } else if has_lasted(silent, ping, 1_000) {
        SilenceStep::Ping
    } else {
        SilenceStep::Wait
    }
}

// The seconds of silence after which a session at this stage pings its peer.
fn ping_limit(stage: Stage, timeouts: Timeouts) -> Option<u32>
    ensures { result ≡ rule.ping_limit stage timeouts }
{
    match stage {
        Stage::Silent | Stage::Discovery => None,
        Stage::Entered => timeouts.ping,
    }
}

// Whether a silence of this many milliseconds has reached a limit in units of `unit` milliseconds, if there is one.
fn has_lasted(silent: u64, limit: Option<u32>, unit: u32) -> bool
    ensures { result ≡ rule.has_lasted silent limit unit }
{
    match limit {
        Some(count) => silent >= u64::from(count) * u64::from(unit),
        None => false,
    }
}

/// How far a login has come after one more byte: one line is an operator's, and an empty one ends the head of HTTP's.
pub(crate) fn greeting_after(protocol: Protocol, greeting: Greeting, byte: u8) -> Greeting {
    match (greeting, byte) {
        (Greeting::Over, _) => Greeting::Over,
        (Greeting::Line, b'\n') if protocol == Protocol::Http => Greeting::NextLine,
        (_, b'\n') => Greeting::Over,
        (_, b'\r') => greeting,
        _ => Greeting::Line,
    }
}
