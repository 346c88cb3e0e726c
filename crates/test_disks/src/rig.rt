// A set of disks that plays calls.
use crate::calls::{Answer, Call, Step, compare, make_call};
use crate::fixtures::{Shape, fused_disks};
use ar_disks::{FuseDisk, Geometry, Place};
use ar_extents::DiskSet;
use std::alloc::Global;
use std::process::Abort;
use std::test::Fail;

/// A slot of a group, the two extents in which its bytes stand, and the row of both.
pub type Lies = (u16, [Place; 2], u16);

/// What the groups of a set are.
#[derive(Clone, Copy)]
pub enum Group {
    /// The set has none.
    Absent,
    Mirrored,
    Parity,
}

/// What a set of four disks is made of.
#[derive(Clone, Copy)]
pub struct Case {
    pub group: Group,
    pub geometry: Geometry,
    /// Extents of each disk.
    pub extents: u16,
    /// How many reads and writes each disk passes.
    pub fuses: [u64; 4],
}

impl Case {
    // The shapes of the disks.
    fn shapes(self) -> [Shape; 4] {
        let shape = Shape {
            geometry: self.geometry,
            extents: self.extents,
            calls: 0,
        };
        let [first, second, third, fourth] = self.fuses;
        [
            shape.with_fuse(first),
            shape.with_fuse(second),
            shape.with_fuse(third),
            shape.with_fuse(fourth),
        ]
    }
}

/// A set, and what has become of its case.
#[derive(Drop)]
pub struct Rig {
    pub set: DiskSet<FuseDisk>,
    pub alloc: Global,
    case: Case,
    calls: u32,
}

impl Rig {
    /// The set of a case.
    pub fn new(alloc: Global, case: Case) -> Result<Rig, Fail> {
        let disks = fused_disks(alloc, &case.shapes())?;
        match DiskSet::start(alloc, disks) {
            Ok(set) => Ok(Rig::of(alloc, case, set)),
            Err((fault, _)) => Err(Fail::new(fault)),
        }
    }

    /// A set that was made otherwise.
    pub fn of(alloc: Global, case: Case, set: DiskSet<FuseDisk>) -> Rig {
        Rig {
            set,
            alloc,
            case,
            calls: 0,
        }
    }

    /// Makes a call, and compares its answer.
    pub fn meets(&mut self, rt: &impl Abort, call: Call, wanted: Answer) -> Result<(), Fail> {
        self.calls = self.calls.saturating_add(1);
        let met = make_call(&mut self.set, self.alloc, self.case.group, call)?;
        compare(rt, &self.case.fuses, self.calls, (call, wanted), met);
        Ok(())
    }

    /// Makes calls in turn, and compares their answers.
    pub fn plays(&mut self, rt: &impl Abort, steps: &[Step]) -> Result<(), Fail> {
        for (call, wanted) in steps {
            self.meets(rt, *call, *wanted)?;
        }
        Ok(())
    }

    /// Writes each slot of a table, looks for its bytes in every row of every extent, and writes back what was
    /// there.
    pub fn slots_lie(&mut self, rt: &impl Abort, table: &[Lies], before: u8) -> Result<(), Fail> {
        for (slot, pair, row) in table {
            self.meets(rt, Call::Write(*slot, 0xA5), Answer::Done)?;
            self.rows_hold(rt, *pair, *row, before)?;
            self.meets(rt, Call::Read(*slot), Answer::Byte(0xA5))?;
            self.meets(rt, Call::Write(*slot, before), Answer::Done)?;
        }
        Ok(())
    }

    // Looks at every row of every extent.
    fn rows_hold(
        &mut self,
        rt: &impl Abort,
        pair: [Place; 2],
        row: u16,
        before: u8,
    ) -> Result<(), Fail> {
        for disk in 0..4 {
            for extent in 0..self.case.extents {
                for at in 0..self.case.geometry.rows() {
                    let place = Place { disk, extent };
                    let is_there = at == row && (place == pair[0] || place == pair[1]);
                    let byte = if is_there { 0xA5 } else { before };
                    self.meets(rt, Call::Get(place, at), Answer::Byte(byte))?;
                }
            }
        }
        Ok(())
    }
}

/// Makes calls on the set of a case, and compares their answers.
pub fn run(rt: &impl Abort, alloc: Global, case: Case, steps: &[Step]) -> Result<(), Fail> {
    let mut rig = Rig::new(alloc, case)?;
    rig.plays(rt, steps)
}
