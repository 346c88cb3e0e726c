//! The array as a program: `autoraid run` executes a script on standard input and may draw the array, `autoraid create`
//! creates a store for an array, `autoraid check` checks one, `autoraid export` and `autoraid import` move what its
//! units hold, and `autoraid serve` serves an array to hosts over TCP.
#![tactic(auto)]

ghost use Rattle.std.specs.Prelude.{◌≡◌};
ghost use Rattle.std.specs.Process.{exit_status};
ghost use Rattle.ar_cli.specs.Exit.{status_after};
ghost use Rattle.autoraid.specs.Failures.{status_of_failure};

mod failure;
mod stored;

use ar_cli::{ExitStatus, end_with, fail, words_of};
use ar_command_line::{
    ArrayOptions, CreateOptions, Order, RunOptions, ServeOptions, StoredUnit, UsageFault, order_in,
};
use ar_logging::{LogThread, TimedConsole};
use ar_play::run;
use ar_server::{RandomNumbers, ServeFault, Service, run_server, setup_of};
use failure::Failure;
use log::{Level, Log, Logged};
use std::alloc::Global;
use std::hash::RandomState;
use std::net::{Net, TcpListener, TcpStream};
use std::process::ExitCode;
use std::random::RandomSource;
use std::sync::Wait;
use std::thread::Threads;
use std::time::Clock;

/// What a line of the log comes from.
const TARGET: &str = "autoraid";

fn main(rt: HostRuntime) -> ExitCode {
    let alloc = rt.alloc();
    let done = match order(&rt) {
        Ok(Order::Shown(text)) => print!(rt; "{text}").map_err(|_| Failure::Write),
        Ok(Order::Run(array, options)) => play(&rt, array, &options),
        Ok(Order::Create(options)) => create(&rt, alloc, &options),
        Ok(Order::Check(folder)) => check(&rt, alloc, folder.as_str()),
        Ok(Order::Export(unit)) => ar_images::export(&rt, alloc, &unit).map_err(Failure::Image),
        Ok(Order::Import(unit)) => import(&rt, alloc, &unit),
        Ok(Order::Serve(options)) => {
            let (done, is_read) = serve_hosts(rt, &rt, alloc, options);
            if !is_read {
                return end_unread(done);
            }
            done
        }
        Err(fault) => return fail(&rt, &fault),
    };
    end_with(&rt, done)
}

// Reads the command line.
fn order(rt: &HostRuntime) -> Result<Order, UsageFault> {
    let alloc = rt.alloc();
    let words = words_of(rt, alloc)?;
    order_in(alloc, words.as_slice())
}

fn play(rt: &HostRuntime, array: ArrayOptions, options: &RunOptions) -> Result<(), Failure> {
    run(rt, setup_of(array), options).map_err(Failure::Play)
}

fn create(rt: &HostRuntime, alloc: Global, options: &CreateOptions) -> Result<(), Failure> {
    ar_stored::create(rt, alloc, options).map_err(Failure::Store)
}

fn check(rt: &HostRuntime, alloc: Global, folder: &str) -> Result<(), Failure> {
    ar_stored::check(rt, alloc, folder).map_err(Failure::Store)
}

// Writes standard input to a unit. The log has what failed.
fn import(rt: &HostRuntime, alloc: Global, unit: &StoredUnit) -> Result<(), Failure> {
    let logged = Logged::new(rt, Level::Warn, TimedConsole(rt));
    ar_images::import(&logged.with_target(TARGET), rt, alloc, unit).map_err(Failure::Image)
}

// Serves hosts an array, that of a store or a new one, beside the thread that writes the log, and returns also whether
// standard error has taken all of it. The log has what failed and, if that is asked for, the start and the end of each
// session.
// `files` is `rt` once more: a store's files and an operators' socket are opened by the runtime's own type, which
// starts no threads outside of `main`.
fn serve_hosts<
    R: Threads
        + Wait
        + Clock
        + Net<Listener = TcpListener, Stream = TcpStream>
        + Print
        + Eprint
        + RandomSource
        + Copy
        + Send
        + Sync
        + 'static,
>(rt: R, files: &HostRuntime, alloc: Global, options: ServeOptions) -> (Result<(), Failure>, bool) {
    let (service, random) = match prepared(&rt, alloc, options) {
        Ok(prepared) => prepared,
        Err(fault) => return (Err(Failure::Serve(fault)), true),
    };
    let Ok(log) = LogThread::start(rt, alloc, TARGET) else {
        return (Err(Failure::Serve(ServeFault::NoMemory)), true);
    };
    let level = if service.options.log {
        Level::Info
    } else {
        Level::Warn
    };
    let logged = Logged::new(&rt, level, log.sink());
    let rt = logged.with_target(TARGET);
    let done = match &service.options.store {
        Some(options) => stored::serve(&rt, files, alloc, &service, options, random),
        None => run_server(&rt, files, alloc, &service, random).map_err(Failure::Serve),
    };
    (done, log.end())
}

// The service that these options ask for, and its random numbers.
fn prepared(
    rt: &impl RandomSource,
    alloc: Global,
    options: ServeOptions,
) -> Result<(Service, RandomNumbers), ServeFault> {
    let Ok(service) = Service::new(alloc, options) else {
        return Err(ServeFault::NoMemory);
    };
    let random = random_for(rt, &service)?;
    Ok((service, random))
}

// Exits without a message, which nobody would read, either.
fn end_unread(done: Result<(), Failure>) -> ExitCode
    ensures { exit_status result ≡ status_after status_of_failure done }
{
    match done {
        Ok(()) => ExitCode::SUCCESS,
        Err(failure) => ExitCode::from(failure.status()),
    }
}

// The random numbers that a service needs.
fn random_for(rt: &impl RandomSource, service: &Service) -> Result<RandomNumbers, ServeFault> {
    let keys = match service.options.http {
        Some(_) => Some(RandomState::new(rt).map_err(|_| ServeFault::Listen)?),
        None => None,
    };
    let mut array = [0; 4];
    if service.options.iscsi.is_some() {
        rt.fill_bytes(&mut array).map_err(|_| ServeFault::Listen)?;
    }
    Ok(RandomNumbers {
        keys,
        array: u32::from_be_bytes(array),
    })
}
