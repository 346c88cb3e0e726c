// A workload timed against the bare loop.
ghost use Rattle.std.specs.Prelude.{◌<◌, ◌≤◌, ◌*◌};
ghost use Rattle.ar_disks.specs.Geometry.{rows_of};

use crate::failure::Failure;
use ar_disks::Geometry;
use bench_workloads::{Bare, Data, Figures, Machine, Round, Sink, Size, Stage, Workload};
use rand_core::SeedableRng;
use rand_xoshiro::Xoshiro256PlusPlus;
use std::alloc::Global;
use std::rt::Clock;
use std::time::Instant;

/// The most rounds of a workload, however short they are.
const ROUNDS: u32 = 100_000_000;

/// For how long a workload runs, its preparation included, and on what.
#[derive(Clone, Copy, Debug, PartialEq, Eq)]
pub struct Budget {
    pub seconds: u32,
    pub seed: u64,
}

/// How large the array of a workload is: 256 MiB of disks with large blocks, half a MiB with small ones, and up to
/// 24 MiB of these for many groups.
pub fn size_of(workload: Workload, geometry: Geometry) -> Size
    ensures some { 0 < result.disks * result.extents * rows_of result.geometry }
    ensures few { result.disks * result.extents * rows_of result.geometry ≤ 65536 }
{
    let (disks, extents) = match (workload, geometry) {
        (Workload::ManyGroups1024, Geometry::Small) => (4, 1_024),
        (Workload::ManyGroups3072, Geometry::Small) => (12, 1_024),
        _ => (4, 64),
    };
    Size {
        geometry,
        disks,
        extents,
    }
}

// What a workload is measured with.
#[derive(Drop)]
struct Trial {
    stage: Stage,
    bare: Bare,
    data: Data,
    rng: Xoshiro256PlusPlus,
}

/// Times rounds of a workload, each followed by those of the bare loop, until the time is up.
pub fn measure<C: Clock>(
    clock: &C,
    alloc: Global,
    workload: Workload,
    geometry: Geometry,
    budget: Budget,
) -> Result<Figures, Failure> {
    let begin = now(clock)?;
    let mut trial = Trial::new(alloc, workload, geometry, budget.seed)?;
    let figures = trial.time_rounds(clock, alloc, begin, budget.seconds);
    trial.close();
    figures
}

impl Trial {
    fn new(
        alloc: Global,
        workload: Workload,
        geometry: Geometry,
        seed: u64,
    ) -> Result<Trial, Failure> {
        let size = size_of(workload, geometry);
        // The stage comes last, so that nothing that fails lets it go.
        let bare = new_bare(alloc, size)?;
        let data = Data::new(alloc, geometry, seed)?;
        let stage = Stage::new(alloc, workload, size)?;
        Ok(Trial {
            stage,
            bare,
            data,
            rng: Xoshiro256PlusPlus::seed_from_u64(seed),
        })
    }

    // Lets all go that it owns, one by one, as a stage has to.
    fn close(self) {
        let Trial {
            stage,
            bare,
            data,
            ..
        } = self;
        stage.close();
        drop(bare);
        drop(data);
    }

    // Times rounds until `seconds` have gone since the beginning.
    fn time_rounds<C: Clock>(
        &mut self,
        clock: &C,
        alloc: Global,
        begin: Instant,
        seconds: u32,
    ) -> Result<Figures, Failure> {
        let mut figures = Figures::NONE;
        for number in 0..ROUNDS {
            if number == 0 || self.stage.wears_out() {
                self.stage.prepare(alloc, &self.data)?;
            }
            figures = figures.and(self.time_round(clock, alloc)?);
            if since(clock, begin)? / 1_000_000_000 >= u64::from(seconds) {
                break;
            }
        }
        Ok(figures)
    }

    // Times a round of the bare loop, and then one of the array, whose caches it leaves cold.
    fn time_round<C: Clock>(&mut self, clock: &C, alloc: Global) -> Result<Figures, Failure> {
        let round = self.stage.round();
        let bare = self.time_bare(clock, round)?;
        let begin = now(clock)?;
        self.stage
            .operate(alloc, round, &self.data, &mut self.rng, &mut Discard)?;
        let array = since(clock, begin)?;
        let operations = u64::from(round.operations());
        Ok(Figures {
            operations,
            bytes: operations.saturating_mul(round.payload() as u64),
            array,
            bare,
        })
    }

    fn time_bare<C: Clock>(&mut self, clock: &C, round: Round) -> Result<u64, Failure> {
        let is_random = round.workload.plan().access.is_random();
        let begin = now(clock)?;
        for moves in round.moves() {
            self.bare.run(moves, is_random, &mut self.rng);
        }
        since(clock, begin)
    }
}

/// Buffers for the bare loop, as large as the disks.
pub fn new_bare(alloc: Global, size: Size) -> Result<Bare, Failure>
    requires some { 0 < size.disks * size.extents * rows_of size.geometry }
    requires few { size.disks * size.extents * rows_of size.geometry ≤ 65536 }
{
    Bare::new(alloc, size.geometry, size.places()).map_err(|_| Failure::NoMemory)
}

/// Times the copies and the sums of a machine, over buffers as large as the disks.
pub fn measure_machine<C: Clock>(clock: &C, alloc: Global) -> Result<Machine, Failure> {
    let mut bare = new_bare(alloc, size_of(Workload::Fill, Geometry::PAPER))?;
    let machine = time_machine(clock, &mut bare);
    drop(bare);
    machine
}

// Four rounds of each.
fn time_machine<C: Clock>(clock: &C, bare: &mut Bare) -> Result<Machine, Failure> {
    let mut machine = Machine::NONE;
    for _ in 0..4 {
        let begin = now(clock)?;
        let copied = bare.copy_all();
        machine.copying = machine.copying.saturating_add(since(clock, begin)?);
        machine.copied = machine.copied.saturating_add(bytes_of(copied));
        let begin = now(clock)?;
        let added = bare.add_all();
        machine.adding = machine.adding.saturating_add(since(clock, begin)?);
        machine.added = machine.added.saturating_add(bytes_of(added));
    }
    Ok(machine)
}

fn bytes_of(blocks: usize) -> u64 {
    (blocks as u64).saturating_mul(Geometry::PAPER.block_len() as u64)
}

// What reads give is let go.
#[derive(Drop)]
struct Discard;

impl Sink for Discard {
    fn take(&mut self, _bytes: &[u8]) {}
}

/// The moment.
pub fn now<C: Clock>(clock: &C) -> Result<Instant, Failure> {
    Instant::now(clock).map_err(|_| Failure::Clock)
}

/// Nanoseconds since then.
pub fn since<C: Clock>(clock: &C, begin: Instant) -> Result<u64, Failure> {
    let duration = begin.elapsed(clock).map_err(|_| Failure::Clock)?;
    Ok(u64::try_from(duration.as_nanos()).unwrap_or(u64::MAX))
}
