//! What a step of the array costs: each workload is timed beside a bare loop of the same copies and sums.
#![tactic(auto)]

mod check;
mod command_line;
mod failure;
mod measure;
mod scripted;

use ar_cli::{end_with, words_of};
use ar_disks::Geometry;
use bench_workloads::{Scripted, Workload, name_of};
use check::{ReadBack, check, size_of_check};
use command_line::{Named, Options, options_in};
use failure::Failure;
use measure::{Budget, measure, measure_machine};
use scripted::{check_script, measure_script};
use std::alloc::Global;
use std::process::ExitCode;

fn main(rt: HostRuntime) -> ExitCode {
    end_with(&rt, run(&rt))
}

fn run(rt: &HostRuntime) -> Result<(), Failure> {
    let alloc = rt.alloc();
    let words = words_of(rt, alloc)?;
    let options = options_in(alloc, words.as_slice())?;
    if options.is_check {
        print_digest(rt, alloc, options)
    } else {
        print_figures(rt, alloc, options)
    }
}

fn print_figures(rt: &HostRuntime, alloc: Global, options: Options) -> Result<(), Failure> {
    for geometry in Geometry::both() {
        for workload in Workload::ALL {
            if is_asked(options, workload, geometry) {
                print_workload(rt, alloc, options, workload, geometry)?;
            }
        }
        for scripted in Scripted::ALL {
            if is_script_asked(options, scripted) {
                print_script(rt, alloc, options, scripted, geometry)?;
            }
        }
    }
    let machine = measure_machine(rt, alloc)?;
    println!(rt; "{machine}").map_err(|_| Failure::Write)
}

fn is_asked(options: Options, workload: Workload, geometry: Geometry) -> bool {
    let named = Named::ByEvents(workload);
    workload.runs_in(geometry) && options.workload.unwrap_or(named) == named
}

fn is_script_asked(options: Options, scripted: Scripted) -> bool {
    let named = Named::ByLines(scripted);
    options.workload.unwrap_or(named) == named
}

fn print_workload(
    rt: &HostRuntime,
    alloc: Global,
    options: Options,
    workload: Workload,
    geometry: Geometry,
) -> Result<(), Failure> {
    let shape = name_of(geometry);
    let name = workload.name();
    show_progress(rt, options, shape, name);
    let figures = measure(rt, alloc, workload, geometry, budget_of(options))?;
    println!(rt; "{shape} {name:<16} {figures}").map_err(|_| Failure::Write)
}

fn print_script(
    rt: &HostRuntime,
    alloc: Global,
    options: Options,
    scripted: Scripted,
    geometry: Geometry,
) -> Result<(), Failure> {
    let shape = name_of(geometry);
    let name = scripted.name();
    show_progress(rt, options, shape, name);
    let figures = measure_script(rt, alloc, scripted, geometry, budget_of(options))?;
    println!(rt; "{shape} {name:<16} {figures}").map_err(|_| Failure::Write)
}

fn budget_of(options: Options) -> Budget {
    Budget {
        seconds: options.seconds,
        seed: options.seed,
    }
}

fn show_progress(rt: &HostRuntime, options: Options, shape: &str, name: &str) {
    if options.shows_progress {
        // Where standard error takes nothing, nobody waits for it.
        let _ = eprintln!(rt; "{shape} {name} ..");
    }
}

fn print_digest(rt: &HostRuntime, alloc: Global, options: Options) -> Result<(), Failure> {
    let mut read_back = ReadBack::new();
    for geometry in Geometry::both() {
        for workload in Workload::ALL {
            if is_asked(options, workload, geometry) {
                check(alloc, workload, geometry, options.seed, &mut read_back)?;
            }
        }
        for scripted in Scripted::ALL {
            if is_script_asked(options, scripted) {
                let size = size_of_check(scripted.by_events(), geometry);
                check_script(rt, alloc, scripted, size)?;
            }
        }
    }
    let digest = hex::encode(alloc, read_back.digest()).map_err(|_| Failure::NoMemory)?;
    println!(rt; "{digest}").map_err(|_| Failure::Write)
}
