// A session from its login to its end, in at most `MOST_FRAMES` steps. Each step begins with the state that the one
// before left.
ghost use Rattle.std.specs.Prelude.{◌≡◌, true, false};
ghost use Rattle.ar_frames.specs.Session.{Session};
ghost use Rattle.ar_frames.specs.FrameStep.{ServesAll, RunsInSteps, RunsObserved};
ghost use Rattle.ar_frames.specs.Login.{ObservesSession};

use crate::end::{EndReason, SessionEnd};
use crate::frame_step::{FrameResult, SessionState, serve_frame};
use crate::login::{LoginResult, enter};
use crate::observer::{AtGate, Gate, NoGate, Observer};
use crate::port::Port;
use crate::stream::{Sink, Source};
use ar_disks::Host;
use std::alloc::Global;

/// The most frames of a session.
pub const MOST_FRAMES: u64 = 1_000_000;

/// Runs one session: reads a login and frames, gives each command to the port, and writes its reply. A frame whose data
/// can't be allocated is read to its end, and the port refuses its command. Returns how many frames were read whole,
/// and why the session ended.
pub fn serve_session<R: Source, W: Sink, P: Port>(
    alloc: Global,
    reader: &mut R,
    writer: &mut W,
    port: &mut P,
) -> SessionEnd
    requires { P.has_login port.old ≡ false }
    ensures { Session P.logins P.commands (R.state reader.old) (R.state reader.new)
        (W.state writer.old) (W.state writer.new) port.old port.new result }
{
    serve_gated(alloc, reader, writer, port, &NoGate)
}

/// Runs one session as `serve_session` does, and calls `gate` before and after each command that is given to the port.
pub fn serve_gated<R: Source, W: Sink, P: Port, G: Gate>(
    alloc: Global,
    reader: &mut R,
    writer: &mut W,
    port: &mut P,
    gate: &G,
) -> SessionEnd
    requires { P.has_login port.old ≡ false }
    ensures session { Session P.logins P.commands (R.state reader.old) (R.state reader.new)
        (W.state writer.old) (W.state writer.new) port.old port.new result }
    ensures observed { ObservesSession P.logins P.commands P.refuses (λ _ host n _ _. G.announced host n)
        (λ _ host n _ _. G.reported host n) (R.state reader.old) (R.state reader.new)
        (W.state writer.old) (W.state writer.new) port.old port.new (tt {0}) (tt {0}) result }
{
    serve_observed(alloc, reader, writer, port, &mut AtGate { gate })
}

/// Runs one session as `serve_session` does, and calls `observer` before each command that is given to the port and
/// after its reply, with the number that the command has in the session, from 1.
pub fn serve_observed<R: Source, W: Sink, P: Port, O: Observer>(
    alloc: Global,
    reader: &mut R,
    writer: &mut W,
    port: &mut P,
    observer: &mut O,
) -> SessionEnd
    requires { P.has_login port.old ≡ false }
    ensures session { Session P.logins P.commands (R.state reader.old) (R.state reader.new)
        (W.state writer.old) (W.state writer.new) port.old port.new result }
    ensures observed { ObservesSession P.logins P.commands P.refuses O.announces O.reports
        (R.state reader.old) (R.state reader.new)
        (W.state writer.old) (W.state writer.new) port.old port.new observer.old observer.new result }
{
    match enter(reader, writer, port) {
        LoginResult::Admitted(host) => {
            reader.lift_login_limit();
            serve_frames(alloc, reader, writer, port, observer, host)
        }
        LoginResult::Ended(reason) => SessionEnd { frames: 0, reason },
    }
}

// Serves frames until one doesn't arrive whole, a reply can't be written, or `MOST_FRAMES` were answered.
fn serve_frames<R: Source, W: Sink, P: Port, O: Observer>(
    alloc: Global,
    reader: &mut R,
    writer: &mut W,
    port: &mut P,
    observer: &mut O,
    host: Host,
) -> SessionEnd
    requires { P.has_login port.old ≡ true }
    ensures all { ServesAll P.commands (R.state reader.old) (R.state reader.new)
        (W.state writer.old) (W.state writer.new) port.old port.new result }
    ensures observed { RunsObserved P.commands P.refuses O.announces O.reports host
        (R.state reader.old) (R.state reader.new)
        (W.state writer.old) (W.state writer.new) port.old port.new observer.old observer.new result }
{
    let mut state = SessionState::new();
    converse(alloc, reader, writer, port, observer, host, &mut state)
}

// Serves frames from a state that has counted no command. Nothing but steps changes the state, so that each begins with
// what the one before left.
fn converse<R: Source, W: Sink, P: Port, O: Observer>(
    alloc: Global,
    reader: &mut R,
    writer: &mut W,
    port: &mut P,
    observer: &mut O,
    host: Host,
    state: &mut SessionState,
) -> SessionEnd
    requires logged { P.has_login port.old ≡ true }
    requires fresh { state.old.given ≡ 0 }
    ensures all { ServesAll P.commands (R.state reader.old) (R.state reader.new)
        (W.state writer.old) (W.state writer.new) port.old port.new result }
    ensures in_steps { RunsInSteps P.commands P.refuses O.announces O.reports host
        (record {
          source = R.state reader.old;
          sink = W.state writer.old;
          port = port.old;
          observer = observer.old;
          given = state.old.given;
        })
        (record {
          source = R.state reader.new;
          sink = W.state writer.new;
          port = port.new;
          observer = observer.new;
          given = state.new.given;
        })
        result }
{
    for frames in 0..MOST_FRAMES {
        match serve_frame(alloc, reader, writer, port, observer, host, state) {
            FrameResult::Answered => {}
            FrameResult::Unsent => {
                return SessionEnd {
                    frames: frames + 1,
                    reason: EndReason::Write,
                };
            }
            FrameResult::Ended(reason) => return SessionEnd { frames, reason },
        }
    }
    SessionEnd {
        frames: MOST_FRAMES,
        reason: EndReason::Bound,
    }
}
