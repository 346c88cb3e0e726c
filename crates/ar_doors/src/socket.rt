// The two streams of a connection. Each waits in slices: between them it looks at its limits, at the stop flag, and at
// whether the session is to end, so that no peer holds a session for longer than that. A limit that is reached is a
// fault of the stream.
use crate::limits::{Greeting, SilenceStep, greeting_after, session_limit, silence_step};
use crate::polling::Polling;
use crate::tcp::{Protocol, Timeouts};
use ar_frames::{PartsWrite, Progress};
use std::alloc::Global;
use std::io::{self, ErrorKind, IoSlice, Read, Write};
use std::net::{Shutdown, TcpStream};
use std::sync::Arc;
use std::sync::atomic::{AtomicBool, Ordering};
use std::time::{Clock, Duration, Instant};

/// Milliseconds that a stream waits before it looks at its limits and at the stop flag.
const SLICE: u64 = 250;

/// Milliseconds that a peer has to take what it is owed once the stop flag is set.
const GRACE: u64 = 5_000;

/// Milliseconds for which input is dropped at the end.
const LINGER: u64 = 500;

/// Bytes that one read drops at the end.
const PIECE: usize = 4_096;

/// How many reads drop input at the end: 1 MiB at most.
const PIECES: u32 = 256;

// When the streams of a connection stop waiting.
#[derive(Clone, Copy, Drop)]
pub struct Limits<'a> {
    pub protocol: Protocol,
    pub timeouts: Timeouts,
    // Set once no more frame is read.
    pub stop: Option<&'a AtomicBool>,
    // Microseconds for which a read looks for bytes before it blocks.
    pub poll: u16,
}

/// The requests of a connection. When it is dropped, replies that were written are delivered first.
pub struct SocketReader<'a, R: Clock> {
    rt: &'a R,
    socket: Arc<TcpStream>,
    limits: Limits<'a>,
    polling: Polling,
    // When the connection was opened.
    opened: Instant,
    // How far its session has come.
    progress: Arc<Progress>,
    // Milliseconds since the last byte, in whole slices.
    silent: u64,
    // Whether the session was to ping its peer since the last byte.
    is_pinged: bool,
    // Whether more may come.
    is_open: bool,
    // How far the bytes have come that count as a login.
    greeting: Greeting,
    // When a read first saw the stop flag set.
    stopped: Option<Instant>,
}

/// The replies of a connection.
#[derive(Drop)]
pub struct SocketWriter<'a, R: Clock> {
    rt: &'a R,
    socket: Arc<TcpStream>,
    limits: Limits<'a>,
    // When the connection was opened.
    opened: Instant,
    // How far its session has come.
    progress: Arc<Progress>,
    // When a write first saw the stop flag set.
    stopped: Option<Instant>,
}

impl Limits<'_> {
    /// None.
    pub const NONE: Limits<'static> = Limits {
        protocol: Protocol::Sessions,
        timeouts: Timeouts::NONE,
        stop: None,
        poll: 0,
    };

    /// Whether the stop flag is set.
    pub fn is_stopped(&self) -> bool {
        match self.stop {
            Some(stop) => stop.load(Ordering::SeqCst),
            None => false,
        }
    }
}

impl<'a, R: Clock> SocketReader<'a, R> {
    /// The two streams of a connection that was opened now, whose session notes its progress. Their waits are cut into
    /// slices here, once.
    pub fn open(
        rt: &'a R,
        alloc: Global,
        stream: TcpStream,
        limits: Limits<'a>,
        progress: &Arc<Progress>,
    ) -> io::Result<(SocketReader<'a, R>, SocketWriter<'a, R>)> {
        stream.set_read_timeout(Some(Duration::from_millis(SLICE)))?;
        stream.set_write_timeout(Some(Duration::from_millis(SLICE)))?;
        let opened = Instant::now(rt)?;
        let socket = Arc::new(alloc, stream)?;
        let writer = SocketWriter {
            rt,
            socket: Arc::try_clone(&socket)?,
            limits,
            opened,
            progress: Arc::try_clone(progress)?,
            stopped: None,
        };
        let reader = SocketReader {
            rt,
            socket,
            limits,
            polling: Polling::new(limits.poll),
            opened,
            progress: Arc::try_clone(progress)?,
            silent: 0,
            is_pinged: false,
            is_open: true,
            greeting: Greeting::first(limits.protocol),
            stopped: None,
        };
        Ok((reader, writer))
    }

    /// The socket of both streams.
    pub fn socket(&self) -> &Arc<TcpStream> {
        &self.socket
    }

    // Whether no byte is waited for any longer.
    fn is_over(&mut self) -> bool {
        self.progress.is_ended()
            || self.is_stopped()
            || self.is_silent()
            || is_late(self.rt, self.opened, &self.progress, self.limits.timeouts)
            || is_past(self.rt, self.opened, self.limits.timeouts.whole)
    }

    // Whether the silence of the peer ends a read: for good, or once, so that the session can ping.
    fn is_silent(&mut self) -> bool {
        match silence_step(self.silent, self.progress.stage(), self.limits.timeouts) {
            SilenceStep::Wait => false,
            SilenceStep::Ping => self.is_ping_due(),
            SilenceStep::End => true,
        }
    }

    // Whether the session is to ping now. Inside a request it can't, and the rest is waited for.
    fn is_ping_due(&mut self) -> bool {
        if self.is_pinged {
            return false;
        }
        self.is_pinged = self.progress.note_silence();
        self.is_pinged
    }

    // Whether it is to read no more after the stop.
    fn is_stopped(&mut self) -> bool {
        self.limits.is_stopped()
            && match self.limits.protocol {
                Protocol::Sessions | Protocol::Http => true,
                Protocol::Lines => is_past_first(self.rt, &mut self.stopped, SLICE),
            }
    }

    // Notes what a read has brought: this many bytes.
    fn note(&mut self, buf: &[u8], count: usize) {
        self.silent = 0;
        self.is_pinged = false;
        self.is_open = count > 0;
        if self.greeting != Greeting::Over {
            self.note_greeting(buf, count);
        }
    }

    // Looks for the end of what counts as a login.
    fn note_greeting(&mut self, buf: &[u8], count: usize) {
        for number in 0..count {
            if let Some(byte) = buf.get(number) {
                self.greeting = greeting_after(self.limits.protocol, self.greeting, *byte);
            }
        }
        if self.greeting == Greeting::Over {
            self.progress.note_entry();
        }
    }
}

impl<R: Clock> Read for SocketReader<'_, R> {
    fn read(&mut self, buf: &mut [u8]) -> io::Result<usize> {
        for _ in 0..u64::MAX {
            if self.is_over() {
                break;
            }
            match self.polling.read(self.rt, &self.socket, buf) {
                Ok(count) => {
                    self.note(&*buf, count);
                    return Ok(count);
                }
                Err(error) if error.kind() == ErrorKind::WouldBlock => {
                    self.silent = self.silent.saturating_add(SLICE);
                }
                Err(error) => {
                    self.is_open = false;
                    return Err(error);
                }
            }
        }
        Err(ErrorKind::TimedOut.into())
    }
}

impl<R: Clock> SocketWriter<'_, R> {
    // Whether a peer that has taken nothing for this many milliseconds is waited for no longer.
    fn is_over(&mut self, silent: u64) -> bool {
        self.progress.is_ended()
            || self.is_silent(silent)
            || is_late(self.rt, self.opened, &self.progress, self.limits.timeouts)
            || is_past(self.rt, self.opened, self.limits.timeouts.whole)
            || (self.limits.is_stopped() && is_past_first(self.rt, &mut self.stopped, GRACE))
    }

    // Whether the session ends since its peer has taken nothing for this many milliseconds. A ping would reach it no
    // sooner than what it is owed.
    fn is_silent(&self, silent: u64) -> bool {
        match silence_step(silent, self.progress.stage(), self.limits.timeouts) {
            SilenceStep::Wait | SilenceStep::Ping => false,
            SilenceStep::End => true,
        }
    }
}

impl<R: Clock> Write for SocketWriter<'_, R> {
    fn write(&mut self, buf: &[u8]) -> io::Result<usize> {
        self.write_parts(buf, &[], &[])
    }

    fn flush(&mut self) -> io::Result<()> {
        Ok(())
    }
}

impl<R: Clock> PartsWrite for SocketWriter<'_, R> {
    // One system call, unless the peer takes nothing for a slice.
    fn write_parts(&mut self, front: &[u8], middle: &[u8], rest: &[u8]) -> io::Result<usize> {
        let parts = [
            IoSlice::new(front),
            IoSlice::new(middle),
            IoSlice::new(rest),
        ];
        let mut silent: u64 = 0;
        for _ in 0..u64::MAX {
            if self.is_over(silent) {
                break;
            }
            match self.socket.write_vectored(&parts) {
                Err(error) if error.kind() == ErrorKind::WouldBlock => {
                    silent = silent.saturating_add(SLICE);
                }
                done => return done,
            }
        }
        Err(ErrorKind::TimedOut.into())
    }
}

// A socket that is closed over unread input resets the connection, and its peer may lose the last reply. So the
// end of the replies is sent first, and input is dropped until the peer has closed, or for a moment.
impl<R: Clock> Drop for SocketReader<'_, R> {
    fn drop(self) {
        if self.is_open {
            linger(self.rt, &self.socket);
        }
        // (the door may still have the socket for a moment)
        let _ended = self.socket.shutdown(Shutdown::Both);
        let Self {
            rt: _,
            socket: _socket,
            limits: _,
            polling: _,
            opened: _,
            progress: _progress,
            silent: _,
            is_pinged: _,
            is_open: _,
            greeting: _,
            stopped: _,
        } = self;
    }
}

// Ends the replies, and drops input until its end, for at most `LINGER` and a slice.
fn linger<R: Clock>(rt: &R, socket: &TcpStream) {
    if socket.shutdown(Shutdown::Write).is_err() {
        return;
    }
    let Ok(began) = Instant::now(rt) else {
        return;
    };
    let mut dropped = [0; PIECE];
    let mut from = socket;
    for _ in 0..PIECES {
        let is_over = match from.read(&mut dropped) {
            Ok(0) | Err(_) => true,
            Ok(_) => has_passed(rt, began, LINGER),
        };
        if is_over {
            return;
        }
    }
}

// Whether the login of a connection should have been accepted by now, or a session for discovery be over.
fn is_late<R: Clock>(rt: &R, opened: Instant, progress: &Progress, timeouts: Timeouts) -> bool {
    is_past(rt, opened, session_limit(progress.stage(), timeouts))
}

// Whether a connection has lasted for this many seconds, if there is a limit. A clock that can't be read ends it, too.
fn is_past<R: Clock>(rt: &R, opened: Instant, limit: Option<u32>) -> bool {
    match limit {
        Some(seconds) => has_passed(rt, opened, u64::from(seconds) * 1_000),
        None => false,
    }
}

// Whether this many milliseconds have passed since the first call for `first`, which notes the time there. A clock that
// can't be read ends the wait, too.
fn is_past_first<R: Clock>(rt: &R, first: &mut Option<Instant>, millis: u64) -> bool {
    if let Some(since) = *first {
        return has_passed(rt, since, millis);
    }
    let Ok(now) = Instant::now(rt) else {
        return true;
    };
    *first = Some(now);
    false
}

// Whether this many milliseconds have passed since, or the time can't be read.
fn has_passed<R: Clock>(rt: &R, since: Instant, millis: u64) -> bool {
    match since.elapsed(rt) {
        Ok(elapsed) => elapsed >= Duration::from_millis(millis),
        Err(_) => true,
    }
}
