// One request and its reply.
use crate::failure::Failure;
use ar_frames::{Linked, Sink, Source};
use std::net::TcpStream;

/// Where the status byte of a reply frame stands.
const STATUS: usize = 12;

/// Writes a request, and reads until the whole reply has come. A reply of another status than GOOD ends it.
pub fn exchange(stream: &TcpStream, request: &[u8], reply: &mut [u8]) -> Result<(), Failure> {
    send(&mut Linked::new(stream), request)?;
    receive(&mut Linked::new(stream), reply)
}

// Writes all bytes of a request.
fn send<W: Sink>(writer: &mut W, request: &[u8]) -> Result<(), Failure> {
    let mut at = 0;
    while at < request.len() {
        match writer.write(&request[at..]) {
            Some(n) => at += n,
            None => return Err(Failure::Session),
        }
    }
    Ok(())
}

// Reads as many bytes as the reply has.
fn receive<R: Source>(reader: &mut R, reply: &mut [u8]) -> Result<(), Failure> {
    let mut at = 0;
    while at < reply.len() {
        match reader.read(&mut reply[at..]) {
            None | Some(0) => return Err(Failure::Session),
            Some(n) => at += n,
        }
        if at > STATUS && reply[STATUS] != 0 {
            return Err(Failure::NotGood(reply[STATUS]));
        }
    }
    Ok(())
}
