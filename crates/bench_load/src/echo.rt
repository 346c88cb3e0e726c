// The bare echo: what sockets alone take. It is a program of its own, as the array is.
use crate::failure::Failure;
use crate::request::{Kind, Shape, zeros};
use crate::stream::accept;
use std::alloc::Global;
use std::io::{Read, Write};
use std::net::{Net, TcpListener, TcpStream};
use std::thread;
use std::thread::Threads;

/// The far end of a connection: it answers each request with as many bytes as its reply has, and does nothing else.
#[derive(Drop)]
struct Echo {
    stream: TcpStream,
    request: Vec<u8>,
    reply: Vec<u8>,
}

/// Answers a run that asks for as many sectors by as many hosts, trial after trial, from the port on at which it
/// listens.
pub fn serve_echo<R: Threads + Net<Listener = TcpListener, Stream = TcpStream> + Print + Sync>(
    rt: &R,
    alloc: Global,
    port: u16,
    hosts: u8,
    sectors: u16,
) -> Result<(), Failure> {
    let listener = TcpListener::bind(rt, ("127.0.0.1", port)).map_err(|_| Failure::Echo)?;
    println!(rt; "listening {port}").map_err(|_| Failure::Write)?;
    for kind in Kind::ALL {
        serve_trials(rt, alloc, &listener, Shape { kind, sectors }, hosts)?;
    }
    Ok(())
}

// One host that asks, and then all.
fn serve_trials<R: Threads + Sync>(
    rt: &R,
    alloc: Global,
    listener: &TcpListener,
    shape: Shape,
    hosts: u8,
) -> Result<(), Failure> {
    serve_trial(rt, echoes_of(alloc, listener, shape, 1)?)?;
    if hosts > 1 {
        serve_trial(rt, echoes_of(alloc, listener, shape, hosts)?)?;
    }
    Ok(())
}

// Answers all hosts at once, until they leave.
fn serve_trial<R: Threads + Sync>(rt: &R, echoes: Vec<Echo>) -> Result<(), Failure> {
    match thread::map_vec(rt, echoes, &|echo: Echo| echo.serve()) {
        Ok(_served) => Ok(()),
        Err(_) => Err(Failure::NoMemory),
    }
}

// Waits for this many hosts.
fn echoes_of(
    alloc: Global,
    listener: &TcpListener,
    shape: Shape,
    hosts: u8,
) -> Result<Vec<Echo>, Failure> {
    let mut echoes = Vec::new(alloc);
    for _ in 0..hosts {
        let echo = Echo::accept(alloc, listener, shape)?;
        echoes.push(echo).map_err(|_| Failure::NoMemory)?;
    }
    Ok(echoes)
}

impl Echo {
    fn accept(alloc: Global, listener: &TcpListener, shape: Shape) -> Result<Echo, Failure> {
        Ok(Echo {
            request: zeros(alloc, shape.request_len())?,
            reply: zeros(alloc, shape.reply_len())?,
            stream: accept(listener).map_err(|_| Failure::Echo)?,
        })
    }

    // Reads a request and writes a reply, again and again, until the near end leaves. Answers how often.
    fn serve(self) -> u64 {
        let Echo {
            stream,
            mut request,
            reply,
        } = self;
        let (mut from, mut to) = (&stream, &stream);
        for answered in 0..u64::MAX {
            if from.read_exact(&mut request).is_err() || to.write_all(&reply).is_err() {
                return answered;
            }
        }
        u64::MAX
    }
}
