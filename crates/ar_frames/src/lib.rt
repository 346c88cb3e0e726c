//! Sessions of a host over byte streams: frames, the server's side and the client's. No frame is a proper prefix of
//! another, so that a stream has one reading. It uses no thread and no socket: any `Source` and `Sink` will do, and any
//! `Port` that executes commands.
#![tactic(auto)]

ghost use Rattle.ar_frames.specs.Frame.{NoneBeginsAnother, NoReplyBeginsAnother};

mod client;
mod end;
mod frame;
mod frame_step;
mod hold;
mod linked;
mod login;
mod memory;
mod observer;
mod port;
mod progress;
mod receive;
mod reply;
mod session;
mod stream;
mod transfer;

pub use client::{AskFault, ask, hello};
pub use end::{EndReason, SessionEnd};
pub use frame::{MOST_DATA, Request};
pub use linked::{Linked, PartsWrite};
pub use login::LOGIN_NAME;
pub use memory::{MemSink, MemSource};
pub use observer::{Gate, NoGate, Observer};
pub use port::{Login, Port};
pub use progress::{Progress, SessionCount, Stage};
pub use session::{MOST_FRAMES, serve_gated, serve_observed, serve_session};
pub use stream::{Sink, Source};
pub use transfer::{FillResult, Sent, fill, send, send_parts};

/// Lemma: no request frame is a proper prefix of another, and its bytes determine the request.
pub fn no_frame_begins_another()
    ensures { NoneBeginsAnother }
{}

/// Lemma: no reply frame is a proper prefix of another, and its bytes determine its tag and reply.
pub fn no_reply_frame_begins_another()
    ensures { NoReplyBeginsAnother }
{}
