// Reads of a socket that look for bytes before they block: the next command of a host with one in flight then needs no
// wake-up of its session's thread, which can take longer than the command. A read looks only if the last bytes came
// within its limit, so that a silent peer takes no processor.
ghost use Rattle.std.specs.Prelude.{◌≡◌};
ghost use Rattle.std.specs.Io.{ReadsAtMost};

use libc::net::{POLLIN, poll};
use libc::types::pollfd;
use std::io::{self, Read};
use std::net::TcpStream;
use std::os::fd::{AsRawFd, RawFd};
use std::thread;
use std::time::{Clock, Duration, Instant};

/// How long the reads of a socket look for bytes before they block.
#[derive(Clone, Copy)]
pub(crate) struct Polling {
    // None at all: they block at once.
    limit: Duration,
    // Whether the last bytes came within it.
    is_soon: bool,
}

impl Polling {
    /// Reads that look for this many microseconds.
    pub fn new(micros: u16) -> Polling {
        Polling {
            limit: Duration::from_micros(u64::from(micros)),
            is_soon: false,
        }
    }

    /// Reads as the socket does, whose own timeout begins when it blocks.
    pub fn read<R: Clock>(
        &mut self,
        rt: &R,
        socket: &TcpStream,
        buf: &mut [u8],
    ) -> io::Result<usize>
        ensures bound { ReadsAtMost result buf.new }
        ensures same { self.new.limit ≡ self.old.limit }
    {
        let mut from = socket;
        if self.limit.is_zero() {
            return from.read(buf);
        }
        let Ok(began) = Instant::now(rt) else {
            return from.read(buf);
        };
        if self.is_soon {
            look(rt, socket.as_raw_fd(), began, self.limit);
        }
        let done = from.read(buf);
        self.is_soon = !has_passed(rt, began, self.limit);
        done
    }
}

// Looks for bytes or their end, until either is there or the limit has passed. Other threads run in between: without
// that, four echoes on four processors lost a third of their rate, and with it a tenth.
fn look<R: Clock>(rt: &R, socket: RawFd, began: Instant, limit: Duration) {
    for _ in 0..u64::MAX {
        if is_ready(socket) || has_passed(rt, began, limit) {
            return;
        }
        thread::yield_now();
    }
}

// Whether a read would not block. It reports itself what is wrong with a socket that can't be looked at.
fn is_ready(socket: RawFd) -> bool {
    let mut asked = [pollfd {
        fd: socket,
        events: POLLIN,
        revents: 0,
    }];
    poll(&mut asked, 0) != 0
}

// Whether this time has passed since, or the clock can't be read.
fn has_passed<R: Clock>(rt: &R, since: Instant, limit: Duration) -> bool {
    match since.elapsed(rt) {
        Ok(elapsed) => elapsed >= limit,
        Err(_) => true,
    }
}
