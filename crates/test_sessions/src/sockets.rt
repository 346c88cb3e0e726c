// Sessions over sockets of this machine, with work in the background beside them.
ghost use Rattle.std.specs.Prelude.{◌≤◌, length};
ghost use Rattle.ar_frames.specs.Frame.{most_data};

use crate::frames::{LOGINS, TUR};
use crate::rig::{Play, Rig, plays};
use ar_doors::{Door, ListenFault, TcpDoor};
use ar_frames::{EndReason, Linked, NoGate, Progress, SessionEnd, Sink, Source, ask, hello};
use ar_scsi::{Reply, Status};
use ar_sessions::{ConnectionEnd, run_beside_background};
use log::Log;
use std::alloc::Global;
use std::io::{Read, Write};
use std::net::{Net, Shutdown, TcpListener, TcpStream};
use std::process::Abort;
use std::sync::ledger::Ledger;
use std::sync::{Arc, Wait};
use std::thread;
use std::thread::{Scope, Threads};
use std::time::Clock;
use test_support::{FOUR_GROUPS, Shape};

/// Behind a cache of four blocks.
const CACHED: Shape = Shape {
    cache: 4,
    ..FOUR_GROUPS
};

/// Who connects.
#[derive(Clone, Copy)]
pub enum Guests {
    /// Two hosts at once, each with this number of writes and reads.
    Two(u8),
    /// This number of sessions, one after the other, each with one command.
    InTurn(u8),
    /// One that sends garbage, one that leaves inside a frame, one that never reads, and then a host.
    Rude,
}

/// Serves guests, each host of whom has a unit, and compares how their connections ended.
pub fn welcome<
    L: Ledger + Send + Sync,
    R: Threads
        + Wait
        + Clock
        + Log
        + Abort
        + Net<Listener = TcpListener, Stream = TcpStream>
        + Sync,
>(rt: &R, alloc: Global, rig: &Rig<L>, guests: Guests, connections: usize) {
    for host in 0..4 {
        rig.make(rt, host);
    }
    let ends = meets(rt, alloc, rig, guests, connections);
    compare(rt, guests, ends.as_slice());
    drop(ends);
}

// Opens a door for guests, and answers how their connections ended.
fn meets<
    L: Ledger + Send + Sync,
    R: Threads
        + Wait
        + Clock
        + Log
        + Abort
        + Net<Listener = TcpListener, Stream = TcpStream>
        + Sync,
>(rt: &R, alloc: Global, rig: &Rig<L>, guests: Guests, connections: usize) -> Vec<ConnectionEnd> {
    let door = TcpDoor::listen(rt, alloc, 0, connections).expect(rt, "a port");
    let port = door.port().expect(rt, "its number");
    let (door, ends) = thread::scope(thread::scope_env(), rt, move |scope| {
        let_in(scope, rt, alloc, guests, port);
        run_beside_background(rt, alloc, door, &rig.kept, &rig.desk, &NoGate)
    });
    drop(door);
    ends.expect(rt, "memory")
}

// Starts the guests' thread.
fn let_in<'s, E, R: Threads + Abort + Net<Listener = TcpListener, Stream = TcpStream> + Sync>(
    scope: &'s Scope<'s, E>,
    rt: &'s R,
    alloc: Global,
    guests: Guests,
    port: u16,
) {
    let started = scope.spawn(move || visit(rt, alloc, guests, port));
    assert!(rt; started.is_ok(), "a thread for the guests");
}

fn visit<R: Threads + Abort + Net<Listener = TcpListener, Stream = TcpStream> + Sync>(
    rt: &R,
    alloc: Global,
    guests: Guests,
    port: u16,
) {
    match guests {
        Guests::Two(count) => {
            thread::join(
                rt,
                move || talk(rt, alloc, port, 0, count),
                move || talk(rt, alloc, port, 1, count),
            );
        }
        Guests::InTurn(count) => {
            for number in 0..count {
                talk(rt, alloc, port, number % 4, 0);
            }
        }
        Guests::Rude => {
            send(rt, port, &[b"no login of a host", b""]);
            send(rt, port, &[LOGINS[2], &[0, 0, 0, 25, 0]]);
            flood(rt, port);
            talk(rt, alloc, port, 2, 1);
        }
    }
}

// A session of a host: `count` writes, each read back, or one TEST UNIT READY if that is 0. It closes once the server
// has closed.
fn talk<R: Abort + Net<Listener = TcpListener, Stream = TcpStream>>(
    rt: &R,
    alloc: Global,
    port: u16,
    host: u8,
    count: u8,
) {
    let stream = TcpStream::connect(rt, ("127.0.0.1", port)).expect(rt, "a connection");
    talk_over(rt, alloc, &stream, host, count);
    leave(rt, &stream);
    drop(stream);
}

fn talk_over(rt: &impl Abort, alloc: Global, stream: &TcpStream, host: u8, count: u8) {
    log_in(rt, stream, host);
    if count == 0 {
        asks(rt, alloc, stream, 0, &[0; 16], &[], &[]);
    }
    for byte in 0..count {
        let sector = [byte; 512];
        asks(rt, alloc, stream, 1, &block(0x2A), &sector, &[]);
        asks(rt, alloc, stream, 2, &block(0x28), &[], &sector);
    }
}

fn log_in(rt: &impl Abort, stream: &TcpStream, host: u8) {
    let met = hello(&mut Linked::new(stream), &mut Linked::new(stream), host);
    assert!(rt; met == Ok(true), "host {host} is logged in");
}

// Sends a command to unit 0, which is GOOD and gives these bytes.
fn asks(
    rt: &impl Abort,
    alloc: Global,
    stream: &TcpStream,
    tag: u64,
    cdb: &[u8; 16],
    sent: &[u8],
    wanted: &[u8],
)
    requires { length sent.now ≤ most_data }
{
    let mut reader = Linked::new(stream);
    let mut writer = Linked::new(stream);
    let reply = ask(alloc, &mut reader, &mut writer, tag, 0, cdb, sent)
        .ok()
        .expect(rt, "a reply");
    was_good(rt, &reply, wanted);
    drop(reply);
}

// READ (10) or WRITE (10) of the first sector.
fn block(code: u8) -> [u8; 16] {
    [code, 0, 0, 0, 0, 0, 0, 0, 1, 0, 0, 0, 0, 0, 0, 0]
}

fn was_good(rt: &impl Abort, reply: &Reply, bytes: &[u8]) {
    assert!(rt; reply.status == Status::Good, "{reply:?}");
    assert!(rt;
        reply.payload.as_slice() == bytes,
        "the bytes that were written"
    );
}

// Sends no more, and waits until the server has closed.
fn leave(rt: &impl Abort, stream: &TcpStream) {
    stream.shutdown(Shutdown::Write).expect(rt, "an end");
    let mut rest = [0; 64];
    let mut from = stream;
    for _ in 0..u32::MAX {
        match from.read(&mut rest) {
            Ok(0) | Err(_) => return,
            Ok(_) => {}
        }
    }
}

// Sends pieces, and leaves.
fn send<R: Abort + Net<Listener = TcpListener, Stream = TcpStream>>(
    rt: &R,
    port: u16,
    pieces: &[&[u8]],
) {
    let stream = TcpStream::connect(rt, ("127.0.0.1", port)).expect(rt, "a connection");
    let mut to = &stream;
    for piece in pieces {
        to.write_all(piece).expect(rt, "a piece is sent");
    }
    leave(rt, &stream);
}

// Asks again and again and never reads, until the server takes no more, and is gone.
fn flood<R: Abort + Net<Listener = TcpListener, Stream = TcpStream>>(rt: &R, port: u16) {
    let stream = TcpStream::connect(rt, ("127.0.0.1", port)).expect(rt, "a connection");
    stream
        .set_nonblocking(true)
        .expect(rt, "a socket that doesn't wait");
    let mut to = &stream;
    let request = *b"\
        \x00\x00\x00\x19\x00\x00\x00\x00\x00\x00\x00\x01\x00\
        \x28\x00\x00\x00\x00\x00\x00\x00\x04\x00\x00\x00\x00\x00\x00\x00";
    let _ = to.write(LOGINS[3]);
    for _ in 0..1000 {
        let _ = to.write(&request);
    }
}

fn compare(rt: &impl Abort, guests: Guests, ends: &[ConnectionEnd]) {
    match guests {
        Guests::Two(count) => all_ended(rt, ends, u64::from(count) * 2),
        Guests::InTurn(_) => all_ended(rt, ends, 1),
        Guests::Rude => {}
    }
}

// Each session ended after this many frames, without a fault.
fn all_ended(rt: &impl Abort, ends: &[ConnectionEnd], frames: u64) {
    let wanted = ConnectionEnd::Served(SessionEnd {
        frames,
        reason: EndReason::End,
    });
    for end in ends {
        assert!(rt; *end == wanted, "{end:?}");
    }
}

#[test]
fn two_hosts_at_once(rt: HostRuntime) {
    plays(
        &rt,
        CACHED,
        Play::Welcome(Guests::Two(50), 2),
        &[100, 100, 0, 0],
    );
}

#[test]
fn a_hundred_connections(rt: HostRuntime) {
    plays(
        &rt,
        CACHED,
        Play::Welcome(Guests::InTurn(100), 100),
        &[25, 25, 25, 25],
    );
}

#[test]
fn rude_guests(rt: HostRuntime) {
    plays(&rt, CACHED, Play::Welcome(Guests::Rude, 4), &[0, 0, 2]);
}

#[test]
fn one_door_at_a_port(rt: HostRuntime) {
    let alloc = rt.alloc();
    let first = TcpDoor::listen(&rt, alloc, 0, 1).expect(&rt, "a port");
    let port = first.port().expect(&rt, "its number");
    let second = TcpDoor::listen(&rt, alloc, port, 1);
    assert!(rt;
        matches!(second, Err(ListenFault)),
        "a port that is listened at"
    );
    drop(second);
    drop(first);
}

// A session that another ends reads no more, also of what was read ahead, and sends no more.
#[test]
fn an_ended_session_faults(rt: HostRuntime) {
    let mut door = TcpDoor::listen(&rt, rt.alloc(), 0, 1).expect(&rt, "a port");
    let guest = connect_to(&rt, door.port());
    let mut to = &guest;
    to.write_all(b"two").expect(&rt, "bytes are sent");
    let (mut reader, mut writer) = door.accept().expect(&rt, "a connection");
    let progress = progress_of(&rt, &reader);
    is_of(&rt, &guest, progress.peer());
    let given = reader.read(&mut [0; 1]);
    progress.end();
    let rest = reader.read(&mut [0; 1]);
    let taken = writer.write(b"one");
    let all = (given, rest, taken);
    assert!(rt; all == (Some(1), None, None), "{all:?}");
}

// One that waits is ended, too.
#[test]
fn a_wait_is_ended(rt: HostRuntime) {
    let mut door = TcpDoor::listen(&rt, rt.alloc(), 0, 1).expect(&rt, "a port");
    let guest = connect_to(&rt, door.port());
    let (mut reader, _writer) = door.accept().expect(&rt, "a connection");
    let progress = progress_of(&rt, &reader);
    let (given, ()) = thread::join(&rt, || reader.read(&mut [0; 1]), || progress.end());
    assert!(rt; given.is_none(), "{given:?}");
    drop(guest);
}

fn connect_to<R: Abort + Net<Listener = TcpListener, Stream = TcpStream>>(
    rt: &R,
    port: Option<u16>,
) -> TcpStream {
    let port = port.expect(rt, "its number");
    TcpStream::connect(rt, ("127.0.0.1", port)).expect(rt, "a connection")
}

// A peer's port is the guest's.
fn is_of(rt: &impl Abort, guest: &TcpStream, peer: Option<u16>) {
    let own = guest.local_addr().ok().map(|address| address.port());
    assert!(rt;
        peer.is_some() && peer == own,
        "{peer:?} in place of {own:?}"
    );
}

fn progress_of(rt: &impl Abort, reader: &impl Source) -> Arc<Progress> {
    let progress = reader.progress().expect(rt, "a session");
    Arc::try_clone(progress).expect(rt, "memory")
}
