// What is no request that can be answered: one status, and the end.
use crate::rig::{Still, array_in, sends};
use ar_status::{ArrayHealth, HEAD_MAX};
use std::alloc::Global;
use std::hash::RandomState;
use std::io;
use std::io::Write;
use std::process::Abort;

const BAD_REQUEST: &[u8] =
    b"HTTP/1.1 400 Bad Request\r\nconnection: close\r\ncontent-length: 0\r\n\r\n";

// RFC 9110 names it Content Too Large, as older ones didn't; the phrase means nothing.
const TOO_LARGE: &[u8] =
    b"HTTP/1.1 413 Payload Too Large\r\nconnection: close\r\ncontent-length: 0\r\n\r\n";

const URI_TOO_LONG: &[u8] =
    b"HTTP/1.1 414 URI Too Long\r\nconnection: close\r\ncontent-length: 0\r\n\r\n";

const FIELDS_TOO_LARGE: &[u8] =
    b"HTTP/1.1 431 Request Header Fields Too Large\r\nconnection: close\r\ncontent-length: 0\r\n\r\n";

const NOT_IMPLEMENTED: &[u8] =
    b"HTTP/1.1 501 Not Implemented\r\nconnection: close\r\ncontent-length: 0\r\n\r\n";

#[test]
fn requests_that_are_refused(rt: HostRuntime) {
    let keys = RandomState::new(&rt).expect(&rt, "keys");
    for (request, wanted) in [
        (
            &b"\x16\x03\x01\x02\x00\x01\x00\x01\xFC\x03\x03"[..],
            BAD_REQUEST,
        ),
        (b"hello\r\n\r\n", BAD_REQUEST),
        (b"GET / HTTP/1.1\r\nHost: h\r\n", BAD_REQUEST),
        (b"GET / HTTP/1.1\r\n\r\n", BAD_REQUEST),
        (b"GET / HTTP/1.1\r\nHost: h\r\nHost: h\r\n\r\n", BAD_REQUEST),
        (b"GET / HTTP/1.1\nHost: h\n\n", BAD_REQUEST),
        (
            b"POST / HTTP/1.1\r\nHost: h\r\nContent-Length: 2\r\n\r\nhi",
            TOO_LARGE,
        ),
        (
            b"GET / HTTP/1.1\r\nHost: h\r\nContent-Length: 99999\r\n\r\n",
            TOO_LARGE,
        ),
        (
            b"POST / HTTP/1.1\r\nHost: h\r\nTransfer-Encoding: chunked\r\n\r\n2\r\nhi\r\n0\r\n\r\n",
            TOO_LARGE,
        ),
        (
            b"POST / HTTP/1.1\r\nHost: h\r\nTransfer-Encoding: gzip, chunked\r\n\r\n",
            NOT_IMPLEMENTED,
        ),
        // A connection without a request.
        (b"", b""),
    ] {
        sends(
            &rt,
            rt.alloc(),
            keys,
            &array_in(ArrayHealth::Whole),
            request,
            wanted,
        );
    }
}

// A request line with a path of `path` bytes, and then fields.
fn long_request(alloc: Global, path: usize, fields: &str) -> io::Result<Vec<u8>> {
    let mut out = Vec::new(alloc);
    out.write_all(b"GET /")?;
    for _ in 0..path {
        out.write_all(b"a")?;
    }
    out.write_all(b" HTTP/1.1\r\nHost: h\r\n")?;
    out.write_all(fields.as_bytes())?;
    out.write_all(b"\r\n")?;
    Ok(out)
}

fn refuses_long(
    rt: &impl Abort,
    alloc: Global,
    keys: RandomState,
    watched: &Still,
    path: usize,
    wanted: &[u8],
) {
    let request = long_request(alloc, path, "").expect(rt, "memory");
    sends(rt, alloc, keys, watched, &request, wanted);
}

const UNKNOWN: &[u8] = b"HTTP/1.1 404 Not Found\r\ncontent-type: text/plain; charset=utf-8\r\n\
cache-control: no-store\r\nconnection: close\r\nx-content-type-options: nosniff\r\n\
content-security-policy: frame-ancestors 'none'\r\ncross-origin-resource-policy: same-origin\r\n\
content-length: 10\r\n\r\nnot found\n";

#[test]
fn long_request_lines(rt: HostRuntime) {
    let keys = RandomState::new(&rt).expect(&rt, "keys");
    let watched = array_in(ArrayHealth::Whole);
    // The whole head is 27 bytes longer than the path: 5 before it, 11 with the end of the line, 9 of `Host`, 2.
    for (path, wanted) in [
        (HEAD_MAX - 27, UNKNOWN),
        (HEAD_MAX - 26, FIELDS_TOO_LARGE),
        (HEAD_MAX, URI_TOO_LONG),
        (1_000_000, URI_TOO_LONG),
    ] {
        refuses_long(&rt, rt.alloc(), keys, &watched, path, wanted);
    }
}
