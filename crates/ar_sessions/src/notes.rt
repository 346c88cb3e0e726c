// The log of sessions: a line for each start and each end, where the level `Info` is logged, and a warning for each
// refusal.
use crate::Receipt;
use ar_doors::Refusals;
use ar_frames::{EndReason, SessionEnd};
use log::{Log, info};
use std::time::{Clock, Duration, Instant};

/// Logs the start of a session and, over TCP, the port of its peer. Returns when that was, if the clock can be read.
pub fn note_start<R: Clock + Log>(rt: &R, number: u64, peer: Option<u16>) -> Option<Instant> {
    match peer {
        Some(peer) => info!(rt; "session {number} of 127.0.0.1:{peer} started"),
        None => info!(rt; "session {number} started"),
    }
    Instant::now(rt).ok()
}

/// Logs the end of a session: its host, if one was logged in, how it ended, and how long it took.
pub fn note_end<R: Clock + Log>(
    rt: &R,
    number: u64,
    began: Option<Instant>,
    receipt: &Option<Receipt>,
    end: SessionEnd,
) {
    let SessionEnd { frames, reason } = end;
    let (seconds, tenths) = tenths_of(time_since(rt, began));
    match receipt {
        Some(receipt) => {
            let host = receipt.host().number();
            info!(rt; "session {number} host {host} ended: {reason:?}, {frames} frames, {seconds}.{tenths} s");
        }
        None => {
            info!(rt; "session {number} ended: {reason:?}, {frames} frames, {seconds}.{tenths} s");
        }
    }
}

/// Logs a host that was refused, since it has a session.
pub fn note_refusal<R: Clock + Log>(rt: &R, refusals: &Refusals, end: SessionEnd) {
    if let EndReason::HostInUse = end.reason {
        refusals.warn(rt, "a host", "it has a session");
    }
}

// The time since then, or none if the clock can't be read.
fn time_since<R: Clock>(rt: &R, began: Option<Instant>) -> Duration {
    match began {
        Some(began) => began.elapsed(rt).unwrap_or(Duration::ZERO),
        None => Duration::ZERO,
    }
}

// A time in whole seconds and tenths.
fn tenths_of(time: Duration) -> (u64, u32) {
    (time.as_secs(), time.subsec_millis() / 100)
}
