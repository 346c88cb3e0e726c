//! Hosts of a served array, which ask it over sockets, request after request. They measure what it takes, and beside it
//! a bare echo, which is this program, too; or they verify that what they read is what they wrote.
#![tactic(auto)]

mod command_line;
mod echo;
mod exchange;
mod failure;
mod figures;
mod host;
mod measure;
mod plan;
mod request;
mod stream;
mod verify;

use ar_cli::{end_with, words_of};
use command_line::{Options, options_in};
use echo::serve_echo;
use failure::Failure;
use figures::Line;
use host::Ports;
use measure::{Trial, measure};
use request::{Kind, Shape};
use std::alloc::Global;
use std::net::{Net, TcpListener, TcpStream};
use std::process::ExitCode;
use std::thread::Threads;
use std::time::Clock;
use verify::verify;

fn main(rt: HostRuntime) -> ExitCode {
    let done = match options(&rt) {
        Ok(options) => run(&rt, rt.alloc(), options),
        Err(failure) => Err(failure),
    };
    end_with(&rt, done)
}

// What the command line asks for.
fn options(rt: &HostRuntime) -> Result<Options, Failure> {
    let alloc = rt.alloc();
    let words = words_of(rt, alloc)?;
    options_in(alloc, words.as_slice())
}

// Is the echo, verifies, or measures reads and then overwrites.
fn run<R: Threads + Clock + Net<Listener = TcpListener, Stream = TcpStream> + Print + Sync>(
    rt: &R,
    alloc: Global,
    options: Options,
) -> Result<(), Failure> {
    let sectors = options.sectors;
    if options.is_echo {
        return serve_echo(rt, alloc, options.port, options.hosts, sectors);
    }
    if let Some(verification) = options.verification {
        return verify(rt, alloc, options.port, options.hosts, verification);
    }
    for kind in Kind::ALL {
        run_shape(rt, alloc, options, Shape { kind, sectors })?;
    }
    Ok(())
}

// Measures one host, and then as many as are asked for.
fn run_shape<R: Threads + Clock + Net<Listener = TcpListener, Stream = TcpStream> + Print + Sync>(
    rt: &R,
    alloc: Global,
    options: Options,
    shape: Shape,
) -> Result<(), Failure> {
    let trial = |hosts| Trial {
        ports: Ports {
            array: options.port,
            echo: options.echo_port,
        },
        shape,
        hosts,
        seconds: options.seconds,
    };
    let one = measure(rt, alloc, trial(1))?;
    tell(rt, Line::of_one(shape, one))?;
    if options.hosts > 1 {
        let hosts = options.hosts;
        let many = measure(rt, alloc, trial(hosts))?;
        tell(rt, Line::of_many(shape, hosts, many, one))?;
    }
    Ok(())
}

fn tell<R: Print>(rt: &R, line: Line) -> Result<(), Failure> {
    println!(rt; "{line}").map_err(|_| Failure::Write)
}
