// Workloads whose operations are lines of a script.
use crate::cost::Round;
use crate::stage::Size;
use crate::workload::Workload;
use ar_answers::Setup;
use ar_disks::Geometry;
use std::alloc::Global;
use std::io;
use std::io::Write;

/// A workload whose operations are lines, in place of events.
#[derive(Clone, Copy, Debug, PartialEq, Eq)]
pub enum Scripted {
    /// Writes of whole blocks that stand mirrored, of which no two in a row have the same data.
    Overwrite,
    /// First writes of whole blocks until the room is used, squeezes included.
    Fill,
    /// Reads of whole blocks that stand mirrored.
    Read,
}

/// The lines of a workload.
#[derive(Drop)]
pub struct Lines {
    /// Those that make the unit ready.
    pub before: Vec<u8>,
    /// Those that are measured.
    pub measured: Vec<u8>,
    /// How many these are.
    pub round: Round,
    /// How many bytes all lines are answered with.
    pub answered: u64,
}

impl Scripted {
    pub const ALL: [Scripted; 3] = [Scripted::Overwrite, Scripted::Fill, Scripted::Read];

    /// The name on the command line and in the report.
    pub fn name(self) -> &'static str {
        match self {
            Scripted::Overwrite => "script-overwrite",
            Scripted::Fill => "script-fill",
            Scripted::Read => "script-read",
        }
    }

    /// The workload of a name.
    pub fn of_name(name: &str) -> Option<Scripted> {
        Scripted::ALL
            .iter()
            .find(|scripted| scripted.name() == name)
            .copied()
    }

    /// The workload that does the same by events.
    pub fn by_events(self) -> Workload {
        match self {
            Scripted::Overwrite => Workload::Overwrite,
            Scripted::Fill => Workload::Fill,
            Scripted::Read => Workload::Read,
        }
    }

    /// The lines that go over the blocks so often.
    pub fn lines(self, alloc: Global, size: Size, passes: u32) -> io::Result<Lines> {
        let workload = self.by_events();
        let round = Round {
            workload,
            geometry: size.geometry,
            blocks: size.blocks(workload.plan().stands),
            passes,
        };
        let mut before = Vec::new(alloc);
        let mut measured = Vec::new(alloc);
        let sectors = size.geometry.sectors();
        writeln!(before, "make 0 0 {}", round.blocks.saturating_mul(sectors))?;
        if self != Scripted::Fill {
            write_blocks(&mut before, round, 1)?;
        }
        match self {
            Scripted::Read => read_blocks(&mut measured, round)?,
            Scripted::Overwrite | Scripted::Fill => write_blocks(&mut measured, round, passes)?,
        }
        Ok(Lines {
            before,
            measured,
            round,
            answered: self.answered(round),
        })
    }

    // How many bytes of answers: `ok`, `good` for each write, and one run for each read.
    fn answered(self, round: Round) -> u64 {
        let measured = u64::from(round.operations());
        let blocks = u64::from(round.blocks);
        let run = match round.geometry {
            Geometry::Paper => 14,
            Geometry::Small => 13,
        };
        let lines = match self {
            Scripted::Overwrite => blocks.saturating_add(measured).saturating_mul(5),
            Scripted::Fill => measured.saturating_mul(5),
            Scripted::Read => blocks
                .saturating_mul(5)
                .saturating_add(measured.saturating_mul(run)),
        };
        lines.saturating_add(3)
    }
}

/// The array that a script runs on.
pub fn setup_of(size: Size) -> Setup {
    Setup {
        geometry: size.geometry,
        disks: size.disks,
        extents: size.extents,
        cache: 0,
    }
}

// A line for each block that writes it, so often.
fn write_blocks<W: Write>(out: &mut W, round: Round, passes: u32) -> io::Result<()> {
    let sectors = round.geometry.sectors();
    for pass in 0..passes {
        for rb in 0..round.blocks {
            let lba = rb.saturating_mul(sectors);
            let byte = rb.wrapping_add(pass) % 256;
            writeln!(out, "write 0 0 {lba} {sectors} {byte:02X}")?;
        }
    }
    Ok(())
}

// A line for each block that reads it, as often as the round says.
fn read_blocks<W: Write>(out: &mut W, round: Round) -> io::Result<()> {
    let sectors = round.geometry.sectors();
    for _ in 0..round.passes {
        for rb in 0..round.blocks {
            let lba = rb.saturating_mul(sectors);
            writeln!(out, "read 0 0 {lba} {sectors}")?;
        }
    }
    Ok(())
}
