// Scripts timed against the bare loop.
use crate::failure::Failure;
use crate::measure::{Budget, new_bare, now, since, size_of};
use ar_disks::Geometry;
use ar_script::run_script;
use bench_workloads::{Bare, Figures, Lines, Scripted, Size, WorkloadFault, setup_of};
use rand_core::SeedableRng;
use rand_xoshiro::Xoshiro256PlusPlus;
use std::alloc::Global;
use std::io;
use std::io::{Error, ErrorKind, Read, Write};
use std::rt::Clock;
use std::time::Instant;

/// The most rounds of a script.
const ROUNDS: u32 = 1_000_000;

/// A script that is read in two parts, and the moments at which the second was first asked for and at its end.
#[derive(Drop)]
struct Timed<'a, C: Clock> {
    clock: &'a C,
    before: &'a [u8],
    measured: &'a [u8],
    begin: Option<Instant>,
    end: Option<Instant>,
}

impl<C: Clock> Read for Timed<'_, C> {
    fn read(&mut self, buf: &mut [u8]) -> io::Result<usize> {
        if !self.before.is_empty() {
            return self.before.read(buf);
        }
        if self.begin.is_none() {
            self.begin = Some(self.moment()?);
        }
        let len = self.measured.read(buf)?;
        if len == 0 {
            self.end = Some(self.moment()?);
        }
        Ok(len)
    }
}

impl<C: Clock> Timed<'_, C> {
    fn moment(&self) -> io::Result<Instant> {
        match Instant::now(self.clock) {
            Ok(moment) => Ok(moment),
            Err(_) => Err(Error::from(ErrorKind::Other)),
        }
    }
}

/// Counts the bytes that are written.
#[derive(Drop)]
struct Counted {
    bytes: u64,
}

impl Write for Counted {
    fn write(&mut self, buf: &[u8]) -> io::Result<usize> {
        self.bytes = self.bytes.saturating_add(buf.len() as u64);
        Ok(buf.len())
    }

    fn flush(&mut self) -> io::Result<()> {
        Ok(())
    }
}

// How often a script goes over its blocks: a second or so in all, and below a million lines. First writes are once.
fn passes_of(scripted: Scripted, geometry: Geometry) -> u32 {
    match (scripted, geometry) {
        (Scripted::Fill, _) => 1,
        (_, Geometry::Paper) => 8,
        (_, Geometry::Small) => 1_000,
    }
}

/// Times the lines of a script, each time on a new array and after the bare loop, until the time is up.
pub fn measure_script<C: Clock>(
    clock: &C,
    alloc: Global,
    scripted: Scripted,
    geometry: Geometry,
    budget: Budget,
) -> Result<Figures, Failure> {
    let begin = now(clock)?;
    let size = size_of(scripted.by_events(), geometry);
    let lines = lines_of(alloc, scripted, size, passes_of(scripted, geometry))?;
    let mut bare = new_bare(alloc, size)?;
    let mut figures = Figures::NONE;
    for _ in 0..ROUNDS {
        let nanos = time_bare(clock, &lines, &mut bare, budget.seed)?;
        figures = figures.and(time_script(clock, alloc, scripted, size, &lines, nanos)?);
        if since(clock, begin)? / 1_000_000_000 >= u64::from(budget.seconds) {
            break;
        }
    }
    Ok(figures)
}

/// Runs a script that goes once over its blocks.
pub fn check_script<C: Clock>(
    clock: &C,
    alloc: Global,
    scripted: Scripted,
    size: Size,
) -> Result<(), Failure> {
    let lines = lines_of(alloc, scripted, size, 1)?;
    let _ = time_script(clock, alloc, scripted, size, &lines, 0)?;
    Ok(())
}

fn lines_of(alloc: Global, scripted: Scripted, size: Size, passes: u32) -> Result<Lines, Failure> {
    scripted
        .lines(alloc, size, passes)
        .map_err(|_| Failure::NoMemory)
}

fn time_bare<C: Clock>(
    clock: &C,
    lines: &Lines,
    bare: &mut Bare,
    seed: u64,
) -> Result<u64, Failure> {
    let mut rng = Xoshiro256PlusPlus::seed_from_u64(seed);
    let begin = now(clock)?;
    for moves in lines.round.moves() {
        bare.run(moves, false, &mut rng);
    }
    since(clock, begin)
}

// Runs the script, and gives its figures beside those of the bare loop.
fn time_script<C: Clock>(
    clock: &C,
    alloc: Global,
    scripted: Scripted,
    size: Size,
    lines: &Lines,
    bare: u64,
) -> Result<Figures, Failure> {
    let mut script = Timed {
        clock,
        before: lines.before.as_slice(),
        measured: lines.measured.as_slice(),
        begin: None,
        end: None,
    };
    let mut counted = Counted { bytes: 0 };
    let done = run_script(alloc, &mut script, &mut counted, setup_of(size)).end;
    let (Ok(()), Some(begin), Some(end)) = (done, script.begin, script.end) else {
        return Err(unanswered(scripted));
    };
    if counted.bytes != lines.answered {
        return Err(unanswered(scripted));
    }
    let array = end.checked_duration_since(begin).ok_or(Failure::Clock)?;
    let operations = u64::from(lines.round.operations());
    Ok(Figures {
        operations,
        bytes: operations.saturating_mul(lines.round.payload() as u64),
        array: u64::try_from(array.as_nanos()).unwrap_or(u64::MAX),
        bare,
    })
}

fn unanswered(scripted: Scripted) -> Failure {
    Failure::Workload(WorkloadFault::Line(scripted.name()))
}
