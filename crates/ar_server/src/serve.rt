// Serves an array to hosts and operators, and prints what came of it.
ghost use Rattle.std.specs.Prelude.{◌≡◌, false, Ok, Err, OnOk, IfErr};
ghost use Rattle.ar_server.specs.Ends.{EndsWell, ExitsBy, IsFailureOf, stop_answer};

use crate::command_line::{RandomNumbers, Service};
use crate::operators::{OperatorsEntry, remove_file};
use ar_audit::Mismatch;
use ar_cli::ExitStatus;
use ar_command_line::Audit;
use ar_core::Refusal;
use ar_fuses::{Fuse, FusedDisk};
use ar_operator::{FusedMaker, start_fused};
use ar_plan::{Closing, ServiceFault, ServiceRuntime};
use ar_service::{TcpStops, serve};
use std::alloc::{AllocError, Global};
use std::io;
use std::marker::Brand;
use std::sync::atomic::AtomicBool;
use std::sync::ledger::Blank;
use thiserror::Error;

/// Why the server failed.
#[derive(Debug, Drop, Error)]
pub enum ServeFault {
    /// The array can't be created of this setup, or the allocation of its disks failed.
    #[error("start fault")]
    Start,
    /// A unit can't be created.
    #[error("unit {word} refused {refusal}")]
    Unit { word: String, refusal: Refusal },
    /// Listening at a port or a path failed, or the system has no random numbers for HTTP or iSCSI.
    #[error("listen fault")]
    Listen,
    /// A session did not return its seat.
    #[error("seat out")]
    SeatOut,
    /// A transcript isn't its host's part of the history.
    #[error("mismatch")]
    Mismatch,
    /// Standard output can't be written.
    #[error("write fault")]
    Write,
    /// An allocation failed.
    #[error("no memory")]
    NoMemory,
    /// A unit is in the store with another length.
    #[error("unit {word} has {sectors} sectors in the store")]
    OtherSize { word: String, sectors: u32 },
    /// What was done can't be kept.
    #[error("store failed")]
    Store,
    /// The array has failed: two disks were missing at once.
    #[error("data lost")]
    DataLost,
}

impl ExitStatus for ServeFault {
    ghost use Rattle.ar_server.specs.Ends.{status_of_serving};

    ghost status_of = { status_of_serving };

    fn status(&self) -> u8 {
        match self {
            ServeFault::DataLost => 3,
            ServeFault::Store => 4,
            _ => 1,
        }
    }
}

/// Creates the array and its units, listens, and serves hosts, operators, initiators and HTTP clients. Then it compares
/// the hosts' transcripts with the history, unless none is stored. Operators that have asked for the end are answered
/// last. `files` is the runtime that makes the file of an operators' socket, and says how much memory there is.
pub fn run_server<R: ServiceRuntime + Sync>(
    rt: &R,
    files: &HostRuntime,
    alloc: Global,
    service: &Service,
    random: RandomNumbers,
) -> Result<(), ServeFault> {
    let fuses = Fuse::twelve();
    let stop = AtomicBool::new(false);
    let setup = service.setup();
    let Ok(array) = start_fused(alloc, setup, &fuses) else {
        return Err(ServeFault::Start);
    };
    let OperatorsEntry { listener, file } = OperatorsEntry::open(
        files,
        alloc,
        &service.options.operator,
    )?;
    let (stops, served) = serve::<FusedDisk<'_>, Brand, FusedMaker<'_>, R>(
        rt,
        alloc,
        Blank::new(4),
        array,
        (&fuses, FusedMaker::new(&fuses)),
        &stop,
        service.plan(setup, random, listener, Some(files)),
        service.options.audit == Audit::Full,
    );
    remove_file(files, file);
    conclude(rt, alloc, service, stops, served)
}

/// Prints what came of a service, and answers the operators that wait for its end.
pub fn conclude<R: ServiceRuntime>(
    rt: &R,
    alloc: Global,
    service: &Service,
    stops: TcpStops<'_, R>,
    served: Result<Closing, ServiceFault>,
) -> Result<(), ServeFault>
    ensures well { OnOk result (EndsWell served) }
    ensures status { ExitsBy served result }
    ensures fails { IfErr result (IsFailureOf served) }
{
    let done = tell(rt, alloc, service, served);
    stops.answer(answer_after(&done));
    done
}

// What an operator is answered to `stop`.
fn answer_after(done: &Result<(), ServeFault>) -> &'static [u8]
    ensures { result.now ≡ stop_answer done.now }
{
    match done {
        Ok(()) | Err(ServeFault::DataLost) => b"stopped\n",
        Err(ServeFault::Mismatch) => b"fault: mismatch\n",
        Err(ServeFault::SeatOut) => b"fault: seat out\n",
        Err(ServeFault::NoMemory) => b"fault: no memory\n",
        Err(ServeFault::Store) => b"fault: store failed\n",
        Err(_) => b"fault: write fault\n",
    }
}

// Prints what came of the service.
fn tell(
    rt: &impl Print,
    alloc: Global,
    service: &Service,
    served: Result<Closing, ServiceFault>,
) -> Result<(), ServeFault>
    ensures well { OnOk result (EndsWell served) }
    ensures status { ExitsBy served result }
    ensures fails { IfErr result (IsFailureOf served) }
{
    match served {
        Ok(closing) => tell_closing(rt, service.options.audit, closing),
        Err(ServiceFault::Mismatch(mismatch)) => Err(tell_mismatch(rt, mismatch)),
        Err(ServiceFault::Unit(number, refusal)) => Err(refused(alloc, service, number, refusal)),
        Err(ServiceFault::Listen) => Err(ServeFault::Listen),
        Err(ServiceFault::Write) => Err(ServeFault::Write),
        Err(ServiceFault::NoMemory) => Err(ServeFault::NoMemory),
        Err(ServiceFault::SeatOut) => Err(ServeFault::SeatOut),
        Err(ServiceFault::OtherSize(number, sectors)) => {
            Err(other_size(alloc, service, number, sectors))
        }
        Err(ServiceFault::Store) => Err(ServeFault::Store),
    }
}

// Prints what is reported. An array that has failed is a failure of the server, too.
fn tell_closing(rt: &impl Print, audit: Audit, closing: Closing) -> Result<(), ServeFault>
    ensures well { OnOk result (closing.data_lost ≡ false) }
    ensures status { ExitsBy (Ok closing) result }
    ensures fails { IfErr result (IsFailureOf (Ok closing)) }
{
    match print_closing(rt, audit, closing) {
        Ok(()) if closing.data_lost => Err(ServeFault::DataLost),
        Ok(()) => Ok(()),
        Err(_) => Err(ServeFault::Write),
    }
}

// Prints the number of commands of each host, and how the service ended: `closed ok` says that the transcripts agree
// with the history, `closed` that nothing was compared, `closed, data lost` that the array has failed.
fn print_closing(rt: &impl Print, audit: Audit, closing: Closing) -> io::Result<()> {
    let commands = closing.commands;
    for (host, commands) in commands.iter().enumerate() {
        println!(rt; "host {host} commands {commands}")?;
    }
    if closing.data_lost {
        return println!(rt; "closed, data lost");
    }
    match audit {
        Audit::Full => println!(rt; "closed ok"),
        Audit::Off => println!(rt; "closed"),
    }
}

fn tell_mismatch(rt: &impl Print, mismatch: Mismatch) -> ServeFault
    ensures status { ExitsBy (Err (ServiceFault.Mismatch mismatch)) (Err result) }
    ensures fails { IsFailureOf (Err (ServiceFault.Mismatch mismatch)) result }
{
    let Mismatch { host, position } = mismatch;
    let host = host.number();
    match println!(rt; "closed mismatch {host} {position}") {
        Ok(()) => ServeFault::Mismatch,
        Err(_) => ServeFault::Write,
    }
}

// The failure of a unit that can't be created, by its number on the command line.
fn refused(alloc: Global, service: &Service, number: usize, refusal: Refusal) -> ServeFault
    ensures status { ExitsBy (Err (ServiceFault.Unit number refusal)) (Err result) }
    ensures fails { IsFailureOf (Err (ServiceFault.Unit number refusal)) result }
{
    match word_of(alloc, service, number) {
        Ok(word) => ServeFault::Unit { word, refusal },
        Err(_) => ServeFault::NoMemory,
    }
}

// That of a unit that is there with another length.
fn other_size(alloc: Global, service: &Service, number: usize, sectors: u32) -> ServeFault
    ensures status { ExitsBy (Err (ServiceFault.OtherSize number sectors)) (Err result) }
    ensures fails { IsFailureOf (Err (ServiceFault.OtherSize number sectors)) result }
{
    match word_of(alloc, service, number) {
        Ok(word) => ServeFault::OtherSize { word, sectors },
        Err(_) => ServeFault::NoMemory,
    }
}

// The word of the command line for the unit of this number.
fn word_of(alloc: Global, service: &Service, number: usize) -> Result<String, AllocError> {
    let word = match service.options.words.get(number) {
        Some(word) => word.as_str(),
        None => "",
    };
    String::from_str(alloc, word)
}
