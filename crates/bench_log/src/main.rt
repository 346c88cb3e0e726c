//! Logs on regular files: a writer that may be killed, a reader, and what appends and reading cost.
#![tactic(auto)]

mod failure;
mod measure;
mod reading;
mod records;
mod writing;

use ar_cli::words_of;
use failure::Failure;
use measure::measure;
use reading::print_count;
use std::process::ExitCode;
use writing::{append_and_tell, new_log};

fn main(rt: HostRuntime) -> ExitCode {
    match run(&rt) {
        Ok(()) => ExitCode::SUCCESS,
        Err(failure) => {
            let _ = eprintln!(rt; "bench_log: {failure}");
            ExitCode::FAILURE
        }
    }
}

fn run(rt: &HostRuntime) -> Result<(), Failure> {
    let words = words_of(rt, rt.alloc())?;
    match words.as_slice() {
        [_, action, path] => carry_out(rt, action.as_str(), path.as_str()),
        _ => Err(Failure::CommandLine),
    }
}

fn carry_out(rt: &HostRuntime, action: &str, path: &str) -> Result<(), Failure> {
    match action {
        "write" => write(rt, path),
        "read" => print_count(rt, path),
        "measure" => measure(rt, path),
        _ => Err(Failure::CommandLine),
    }
}

fn write(rt: &HostRuntime, path: &str) -> Result<(), Failure> {
    let mut log = new_log(rt, path)?;
    append_and_tell(rt, rt.alloc(), &mut log)
}
