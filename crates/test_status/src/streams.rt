// Streams that fail, or give and take a byte at a time; an array that can't be looked at.
use crate::rig::{Still, array_in, sends};
use ar_status::{ArrayHealth, serve_connection};
use std::alloc::Global;
use std::hash::RandomState;
use std::io::{self, ErrorKind, Read, Write};
use std::process::Abort;

const REQUEST: &[u8] = b"GET /healthz HTTP/1.1\r\nHost: localhost\r\n\r\n";

const RESPONSE: &[u8] = b"HTTP/1.1 200 OK\r\ncontent-type: text/plain; charset=utf-8\r\n\
cache-control: no-store\r\nconnection: close\r\nx-content-type-options: nosniff\r\n\
content-security-policy: frame-ancestors 'none'\r\ncross-origin-resource-policy: same-origin\r\n\
content-length: 7\r\n\r\nserves\n";

// Returns the first `most` bytes of the request one by one; then reads fail.
#[derive(Drop)]
struct Giver {
    given: usize,
    most: usize,
}

impl Read for Giver {
    fn read(&mut self, buf: &mut [u8]) -> io::Result<usize> {
        if buf.is_empty() {
            return Ok(0);
        }
        if self.given >= self.most || self.given >= REQUEST.len() {
            return Err(ErrorKind::TimedOut.into());
        }
        buf[0] = REQUEST[self.given];
        self.given += 1;
        Ok(1)
    }
}

// Takes `most` bytes, one at a time; then writes fail.
#[derive(Drop)]
struct Taker {
    taken: usize,
    most: usize,
}

impl Write for Taker {
    fn write(&mut self, buf: &[u8]) -> io::Result<usize> {
        if buf.is_empty() {
            return Ok(0);
        }
        if self.taken >= self.most {
            return Err(ErrorKind::BrokenPipe.into());
        }
        self.taken += 1;
        Ok(1)
    }

    fn flush(&mut self) -> io::Result<()> {
        Ok(())
    }
}

// Asserts how a connection ends, and how many bytes of the response are sent, where reads fail after `given` bytes and
// writes after `taken`.
fn ends(
    rt: &impl Abort,
    alloc: Global,
    keys: RandomState,
    watched: &Still,
    given: usize,
    taken: usize,
    wanted: (bool, usize),
) {
    let mut reader = Giver {
        given: 0,
        most: given,
    };
    let mut writer = Taker {
        taken: 0,
        most: taken,
    };
    let done = serve_connection(alloc, keys, watched, &mut reader, &mut writer).is_ok();
    assert!(rt;
        (done, writer.taken) == wanted,
        "{given} given, {taken} taken"
    );
}

#[test]
fn failing_streams(rt: HostRuntime) {
    let keys = RandomState::new(&rt).expect(&rt, "keys");
    let watched = array_in(ArrayHealth::Whole);
    let (whole, response) = (REQUEST.len(), RESPONSE.len());
    for (given, taken, wanted) in [
        (0, 1_000, (false, 0)),
        (whole - 1, 1_000, (false, 0)),
        (whole, 0, (false, 0)),
        (whole, response - 1, (false, response - 1)),
        (whole, response, (true, response)),
    ] {
        ends(&rt, rt.alloc(), keys, &watched, given, taken, wanted);
    }
}

#[test]
fn an_array_that_cannot_be_looked_at(rt: HostRuntime) {
    let keys = RandomState::new(&rt).expect(&rt, "keys");
    let mut watched = array_in(ArrayHealth::Whole);
    sends(&rt, rt.alloc(), keys, &watched, REQUEST, RESPONSE);
    watched.has_memory = false;
    sends(&rt, rt.alloc(), keys, &watched, REQUEST, b"");
}
