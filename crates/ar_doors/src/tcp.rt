// Connections over TCP, and over Unix sockets. A door listens at 127.0.0.1 or at a path, so that only this machine can
// connect, and stops listening once no connection is left to come.
ghost use Rattle.std.specs.Prelude.{◌≡◌, ◌<◌, ◌+◌, IfOk, true, ⊤};

use crate::Door;
use crate::crowd::Crowd;
use crate::listener::{Listener, PAUSE};
use crate::refusals::Refusals;
use crate::socket::{Limits, SocketReader, SocketWriter};
use ar_frames::{Linked, SessionCount};
use log::{Log, warn};
use std::alloc::Global;
use std::io::{self, BufReader, ErrorKind};
use std::marker::Model;
use std::net::{Net, TcpListener, TcpStream};
use std::os::unix::net::UnixListener;
use std::sync::Arc;
use std::sync::atomic::AtomicBool;
use std::thread;
use std::time::{Clock, Duration};

/// The port or the path can't be listened at: another program has it, or the system refuses it.
#[derive(Clone, Copy, Debug, PartialEq, Eq)]
pub struct ListenFault;

/// How long a connection may be silent, and how long it may last, in seconds. None: without a limit.
#[derive(Clone, Copy, Debug, PartialEq, Eq)]
pub struct Timeouts {
    /// From its opening until its login is accepted, or its first line or the head of its request has come.
    pub login: Option<u32>,
    /// Until the next byte comes, or the peer takes more of a reply.
    pub idle: Option<u32>,
    /// Until a session that has entered pings its silent peer; as long after that, without a byte, it ends.
    pub ping: Option<u32>,
    /// From its opening to its end, if it is a session for discovery.
    pub discovery: Option<u32>,
    /// From its opening until its last byte has come, or was taken.
    pub whole: Option<u32>,
}

/// What the clients of a door speak.
#[derive(Clone, Copy, Debug, PartialEq, Eq)]
pub enum Protocol {
    /// Sessions, which read nothing more once the stop flag is set.
    Sessions,
    /// An operator's lines, the first of which counts as a login. For a moment after the stop they are still read:
    /// another operator may say `stop`, too.
    Lines,
    /// HTTP, where the head of a request counts as a login: an empty line ends it.
    Http,
}

/// The reader of a connection over TCP.
pub type TcpReader<'a, R> = Linked<BufReader<SocketReader<'a, R>>>;

/// The writer of a connection over TCP.
pub type TcpWriter<'a, R> = Linked<SocketWriter<'a, R>>;

/// As the number of connections to accept: any number.
pub const ANY_NUMBER: usize = usize::MAX;

/// Bytes that a session reads ahead, so that a small frame takes one system call.
const READ_AHEAD: usize = 8_192;

/// A door to connections at a port of 127.0.0.1, or at a Unix socket.
#[derive(Drop)]
pub struct TcpDoor<'a, R: Clock + Log> {
    rt: &'a R,
    alloc: Global,
    // None: no connection is left to come, the door is closed, or nobody can come by it.
    listener: Option<Listener>,
    left: usize,
    limits: Limits<'a>,
    crowd: Crowd,
    refusals: Refusals,
}

impl<'a, R: Clock + Log> Model for TcpDoor<'a, R> {
    ghost use Rattle.std.specs.Prelude.{ℕ};

    ghost Value = { ℕ };

    ghost view = { λ door. door.left };
}

impl Timeouts {
    /// No limit.
    pub const NONE: Timeouts = Timeouts {
        login: None,
        idle: None,
        ping: None,
        discovery: None,
        whole: None,
    };
}

impl<'a, R: Clock + Log + Net<Listener = TcpListener, Stream = TcpStream>> TcpDoor<'a, R> {
    /// Listens at `port` of 127.0.0.1 for `sessions` connections, or `ANY_NUMBER`. With port 0 the system
    /// chooses one.
    pub fn listen(
        rt: &'a R,
        alloc: Global,
        port: u16,
        sessions: usize,
    ) -> Result<TcpDoor<'a, R>, ListenFault>
        ensures { IfOk result (λ door. door ≡ sessions) }
    {
        TcpDoor::at(rt, alloc, Listener::at_port(rt, port), sessions)
    }
}

impl<'a, R: Clock + Log> TcpDoor<'a, R> {
    /// A door at a Unix socket that listens, for `sessions` connections, or `ANY_NUMBER`.
    pub fn at_socket(
        rt: &'a R,
        alloc: Global,
        socket: UnixListener,
        sessions: usize,
    ) -> Result<TcpDoor<'a, R>, ListenFault>
        ensures { IfOk result (λ door. door ≡ sessions) }
    {
        TcpDoor::at(rt, alloc, Listener::of_socket(socket), sessions)
    }

    /// A door by which nobody can come: it waits until it is stopped.
    pub fn without_port(rt: &'a R, alloc: Global, sessions: usize) -> TcpDoor<'a, R>
        ensures { result ≡ sessions }
    {
        TcpDoor::of(rt, alloc, None, sessions)
    }

    // A door without limits at a listener, if that could be made.
    fn at(
        rt: &'a R,
        alloc: Global,
        listener: io::Result<Listener>,
        sessions: usize,
    ) -> Result<TcpDoor<'a, R>, ListenFault>
        ensures { IfOk result (λ door. door ≡ sessions) }
    {
        match listener {
            Ok(listener) => Ok(TcpDoor::of(rt, alloc, Some(listener), sessions)),
            Err(_) => Err(ListenFault),
        }
    }

    // A door without limits, at a listener or none.
    fn of(rt: &'a R, alloc: Global, listener: Option<Listener>, sessions: usize) -> TcpDoor<'a, R>
        ensures { result ≡ sessions }
    {
        TcpDoor {
            rt,
            alloc,
            listener,
            left: sessions,
            limits: Limits::NONE,
            crowd: Crowd::unlimited(alloc),
            refusals: Refusals::new(rt),
        }
    }

    /// The door with limits for the connections that it opens. Once `stop` is set they read no more, and it opens none.
    pub fn limited(
        self,
        protocol: Protocol,
        timeouts: Timeouts,
        stop: Option<&'a AtomicBool>,
    ) -> TcpDoor<'a, R>
        ensures { result ≡ self.entry }
    {
        let TcpDoor {
            rt,
            alloc,
            listener,
            left,
            limits,
            crowd,
            refusals,
        } = self;
        TcpDoor {
            rt,
            alloc,
            listener,
            left,
            limits: Limits {
                protocol,
                timeouts,
                stop,
                poll: limits.poll,
            },
            crowd,
            refusals,
        }
    }

    /// The door whose connections look for bytes for this many microseconds before a read blocks.
    pub fn polled(self, poll: u16) -> TcpDoor<'a, R>
        ensures { result ≡ self.entry }
    {
        let mut door = self;
        door.limits.poll = poll;
        door
    }

    /// The door with a limit for the connections that are open when another comes: with `most` of them, the oldest that
    /// hasn't logged in, or is there for discovery, makes room and is ended. With `sessions` the door closes once that
    /// many have logged in, and the others are ended.
    pub fn crowded(self, most: usize, sessions: Option<u8>) -> io::Result<TcpDoor<'a, R>>
        ensures { IfOk result (λ door. door ≡ self.entry) }
    {
        let TcpDoor {
            rt,
            alloc,
            listener,
            left,
            limits,
            refusals,
            ..
        } = self;
        let sessions = counted(alloc, &listener, sessions)?;
        let crowd = Crowd::limited(alloc, most, sessions)?;
        Ok(TcpDoor {
            rt,
            alloc,
            listener,
            left,
            limits,
            crowd,
            refusals,
        })
    }

    /// The port at which it listens, if it has one, and the system reports it.
    pub fn port(&self) -> Option<u16> {
        match &self.listener {
            Some(listener) => listener.port(),
            None => None,
        }
    }
}

impl<'a, R: Clock + Log + Sync> Door for TcpDoor<'a, R> {
    type Reader = TcpReader<'a, R>;

    type Writer = TcpWriter<'a, R>;

    ghost to_come = { λ door. door };

    ghost are_one = { λ _ _. true };

    // What a socket delivers is unspecified.
    ghost opens = { λ _ _ _. ⊤ };

    fn left(&self) -> usize {
        self.left
    }

    fn is_closed(&self) -> bool {
        self.limits.is_stopped() || self.crowd.is_complete()
    }

    fn accept(&mut self) -> Option<(TcpReader<'a, R>, TcpWriter<'a, R>)> {
        self.left -= 1;
        let accepted = next_stream(self.rt, &self.listener, self.limits, &mut self.crowd);
        if self.left == 0 || self.limits.is_stopped() || self.crowd.is_complete() {
            self.listener = None;
        }
        let (stream, peer) = accepted?;
        let streams = opened(
            self.rt,
            self.alloc,
            stream,
            peer,
            self.limits,
            &mut self.crowd,
        );
        unless_refused(self.rt, &self.refusals, streams)
    }

    // After the last session nobody may log in. After a stop, operators who haven't said anything yet still may.
    fn close(&mut self) {
        self.listener = None;
        if self.crowd.is_complete() {
            self.crowd.end_silent();
        }
    }
}

// The streams of a connection, unless there was no memory for them, which is logged, or its socket has failed.
fn unless_refused<R: Clock + Log, T>(
    rt: &R,
    refusals: &Refusals,
    streams: io::Result<T>,
) -> Option<T> {
    match streams {
        Ok(streams) => Some(streams),
        Err(error) => {
            if error.kind() == ErrorKind::OutOfMemory {
                refusals.warn(rt, "a connection", "no memory");
            }
            None
        }
    }
}

// Waits for a connection and the port of its peer, in slices; between them, those that have ended are forgotten. An
// accept that fails, as for want of descriptors, is tried again after a pause, with one line of the log until one
// succeeds. None: the door is closed or, after a pause, has no listener.
fn next_stream<R: Clock + Log>(
    rt: &R,
    listener: &Option<Listener>,
    limits: Limits<'_>,
    crowd: &mut Crowd,
) -> Option<(TcpStream, Option<u16>)> {
    let Some(listener) = listener else {
        thread::sleep(rt, Duration::from_millis(PAUSE));
        return None;
    };
    let mut has_failed = false;
    for _ in 0..u64::MAX {
        if limits.is_stopped() || crowd.is_complete() {
            break;
        }
        match accept_at(listener, limits.protocol) {
            Ok(accepted) if !crowd.is_complete() => return Some(accepted),
            Ok(_) => {}
            Err(error) if error.kind() == ErrorKind::WouldBlock => crowd.forget_ended(),
            // (the last session has shut the listener down)
            Err(_) if crowd.is_complete() => {}
            Err(error) => {
                if !has_failed {
                    warn!(rt; "no connection can be accepted: {error}");
                }
                has_failed = true;
                crowd.forget_ended();
                thread::sleep(rt, Duration::from_millis(PAUSE));
            }
        }
    }
    None
}

// A connection at a listener. All doors but the operators' leave a descriptor, so that there is one for a `stop`.
fn accept_at(listener: &Listener, protocol: Protocol) -> io::Result<(TcpStream, Option<u16>)> {
    let _left = descriptor_left(listener, protocol)?;
    listener.accept()
}

// A descriptor that is taken while a door accepts, if it is to leave one.
fn descriptor_left(listener: &Listener, protocol: Protocol) -> io::Result<Option<TcpStream>> {
    match protocol {
        Protocol::Lines => Ok(None),
        Protocol::Sessions | Protocol::Http => Ok(Some(listener.socket()?)),
    }
}

// The streams of a connection from the port `peer`, for which another may make room. Writes are sent at once.
fn opened<'a, R: Clock>(
    rt: &'a R,
    alloc: Global,
    stream: TcpStream,
    peer: Option<u16>,
    limits: Limits<'a>,
    crowd: &mut Crowd,
) -> io::Result<(TcpReader<'a, R>, TcpWriter<'a, R>)> {
    crowd.make_room();
    let progress = Arc::new(alloc, crowd.new_progress(peer)?)?;
    let (reader, writer) = SocketReader::open(rt, alloc, stream, limits, &progress)?;
    crowd.add(reader.socket(), &progress)?;
    let reader = BufReader::with_capacity(alloc, read_ahead(limits.protocol), reader)?;
    Ok((Linked::with_progress(reader, progress), Linked::new(writer)))
}

// Bytes that are read ahead. An operator's lines are read in pieces as it is, and need no memory for that when it is
// used up.
fn read_ahead(protocol: Protocol) -> usize {
    match protocol {
        Protocol::Lines => 0,
        Protocol::Sessions | Protocol::Http => READ_AHEAD,
    }
}

// Counts the sessions at a listener, if their number is limited.
fn counted(
    alloc: Global,
    listener: &Option<Listener>,
    sessions: Option<u8>,
) -> io::Result<Option<Arc<SessionCount>>> {
    let Some(listener) = listener else {
        return Ok(None);
    };
    let Some(most) = sessions else {
        return Ok(None);
    };
    let count = SessionCount::new(u64::from(most), listener.socket()?);
    Ok(Some(Arc::new(alloc, count)?))
}
