// How far the session of a connection has come. The session notes it, and its streams and its door look at it: so that
// one that doesn't log in is not waited for without end, and isn't counted. Another session may end it here. A session
// that pings a silent peer notes here that it waits for a request, and its stream that the peer is silent.
use std::net::{Shutdown, TcpStream};
use std::sync::Arc;
use std::sync::atomic::{AtomicBool, AtomicU64, Ordering};

/// A stage of a session.
#[derive(Clone, Copy, Debug, PartialEq, Eq)]
pub enum Stage {
    /// No login was accepted, and no request has come whole.
    Silent,
    /// One for discovery was.
    Discovery,
    /// A login was accepted, or a request has come.
    Entered,
}

// The stages as numbers.
const SILENT: u64 = 0;

const DISCOVERY: u64 = 1;

const ENTERED: u64 = 2;

// What a session waits for, as numbers: it pings nobody, or some bytes of a request have come.
const NO_PING: u64 = 0;

// For the first byte of a request.
const REQUEST: u64 = 1;

// The same, and the read was ended since the peer is silent.
const SILENCE: u64 = 2;

/// Counts the sessions of a door up to its last one, which closes it.
#[derive(Drop)]
pub struct SessionCount {
    entered: AtomicU64,
    most: u64,
    // The socket at which the door listens.
    socket: TcpStream,
}

/// The stage of a connection's session.
#[derive(Drop)]
pub struct Progress {
    stage: AtomicU64,
    count: Option<Arc<SessionCount>>,
    peer: Option<u16>,
    // What the session waits for.
    wait: AtomicU64,
    // Whether the session is to end.
    ended: AtomicBool,
}

impl SessionCount {
    /// No session of `most`, at the door that listens at this socket.
    pub fn new(most: u64, socket: TcpStream) -> SessionCount {
        SessionCount {
            entered: AtomicU64::new(0),
            most,
            socket,
        }
    }

    /// Whether the last session has entered.
    pub fn is_complete(&self) -> bool {
        self.entered.load(Ordering::SeqCst) >= self.most
    }

    // Counts a session. With the last one, no more connection is accepted, and the wait for one ends.
    fn count(&self) {
        let others = self.entered.fetch_add(1, Ordering::SeqCst);
        if others.saturating_add(1) >= self.most {
            let _closed = self.socket.shutdown(Shutdown::Both);
        }
    }
}

impl Progress {
    /// That of a connection that was opened now, which may be counted. Over TCP it comes from the port `peer`.
    pub fn new(count: Option<Arc<SessionCount>>, peer: Option<u16>) -> Progress {
        Progress {
            stage: AtomicU64::new(SILENT),
            count,
            peer,
            wait: AtomicU64::new(NO_PING),
            ended: AtomicBool::new(false),
        }
    }

    /// The port of 127.0.0.1 that the peer connects from, over TCP.
    pub fn peer(&self) -> Option<u16> {
        self.peer
    }

    /// Has the session end: its streams fault within a slice of their waits.
    pub fn end(&self) {
        self.ended.store(true, Ordering::SeqCst);
    }

    /// Whether the session is to end.
    pub fn is_ended(&self) -> bool {
        self.ended.load(Ordering::SeqCst)
    }

    /// The stage.
    pub fn stage(&self) -> Stage {
        match self.stage.load(Ordering::SeqCst) {
            SILENT => Stage::Silent,
            DISCOVERY => Stage::Discovery,
            _ => Stage::Entered,
        }
    }

    /// Notes that the session is one for discovery.
    pub fn note_discovery(&self) {
        self.stage.store(DISCOVERY, Ordering::SeqCst);
    }

    /// Notes that the login was accepted, or that a request has come. It counts once.
    pub fn note_entry(&self) {
        let former = self.stage.swap(ENTERED, Ordering::SeqCst);
        if let Some(count) = &self.count {
            if former != ENTERED {
                count.count();
            }
        }
    }

    /// Notes that the session waits for the first byte of a request, and pings a peer that is silent.
    pub fn await_request(&self) {
        self.wait.store(REQUEST, Ordering::SeqCst);
    }

    /// Notes that bytes have come: the peer is not silent, and a ping would have to wait for the rest of a request.
    pub fn note_bytes(&self) {
        if self.wait.load(Ordering::SeqCst) != NO_PING {
            self.wait.store(NO_PING, Ordering::SeqCst);
        }
    }

    /// Notes that the peer is silent. True: the session can ping it, once the read has faulted.
    pub fn note_silence(&self) -> bool {
        let can_ping = self.wait.load(Ordering::SeqCst) == REQUEST;
        if can_ping {
            self.wait.store(SILENCE, Ordering::SeqCst);
        }
        can_ping
    }

    /// Whether the last read faulted only because the peer is silent. It is reported once.
    pub fn take_silence(&self) -> bool {
        self.wait.swap(NO_PING, Ordering::SeqCst) == SILENCE
    }
}
