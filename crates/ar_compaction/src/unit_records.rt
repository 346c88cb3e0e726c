// The records of a unit that come piece by piece, so that its data are never in memory twice.
ghost use Rattle.std.specs.Prelude.{◌≡◌, ◌≤◌, ◌+◌, ◌*◌, ◌-◌, [], length, drop, IfOk, OnErr, MatchOption};
ghost use Rattle.std.specs.Prelude.{if◌then◌else◌};
ghost use Rattle.ar_unit.specs.Plain.{state_of};
ghost use Rattle.ar_record.specs.Record.{all_data};
ghost use Rattle.ar_compaction.specs.Bytes.{sectors_of_bytes};
ghost use Rattle.ar_compaction.specs.Checkpoint.{base_of, pieces_of, IsCheckpoint};
ghost use Rattle.ar_compaction.specs.Giving.{AreNext};

use crate::contents::Contents;
use crate::steps::{are_zeros, pieces_of};
use ar_disks::{Addr, Host, SECTOR_LEN};
use ar_record::Record;
use std::alloc::{AllocError, Global};
use std::marker::Model;

/// The records of one unit. Contracts see it as the list of those that were not yet returned.
#[derive(Drop)]
pub struct UnitRecords {
    unit: Contents,
    step: u64,
    steps: u64,
}

impl Model for UnitRecords {
    ghost use Rattle.std.specs.Prelude.{List};
    ghost use Rattle.ar_record.specs.Record.{RecordData};

    ghost Value = { List RecordData };

    ghost use Rattle.ar_compaction.specs.RecordsFields.{records_view, HasSteps};

    ghost view = { records_view };

    ghost invariant = { HasSteps };
}

impl UnitRecords {
    pub(crate) fn new(
        host: Host,
        lun: u8,
        present: bool,
        sectors: u32,
        attention: bool,
        bytes: Vec<u8>,
    ) -> UnitRecords
        requires { length bytes.items ≡ sectors * 512 }
        ensures { IsCheckpoint (host.number, lun) (state_of present (sectors_of_bytes sectors bytes.items) attention)
            result }
    {
        let base = base_of(sectors, attention, &bytes);
        let steps = steps_of(present, base);
        UnitRecords {
            unit: Contents {
                addr: Addr { host, lun },
                sectors,
                base,
                attention,
                bytes,
            },
            step: 0,
            steps,
        }
    }

    /// The next records, one to 16, of at most 128 sectors each; None if there are no more. `Err` is out of memory, and
    /// leaves them all to be returned.
    pub fn next_records(&mut self, alloc: Global) -> Result<Option<Vec<Record>>, AllocError>
        ensures given { IfOk result (λ given. MatchOption given (self.old ≡ [])
            (λ records. AreNext self.old (all_data records.items) self.new)) }
        ensures ended { IfOk result (λ given. MatchOption given (self.new ≡ []) (λ records. Unit {0})) }
        ensures unchanged { OnErr result (self.new ≡ self.old) }
    {
        let mut records = Vec::new(alloc);
        self.step = self
            .unit
            .append_steps(alloc, self.step, self.steps, &mut records)?;
        if records.is_empty() {
            Ok(None)
        } else {
            Ok(Some(records))
        }
    }
}

// The number of steps; an absent unit has none.
fn steps_of(present: bool, base: u32) -> u64
    ensures { result ≡ (if present then pieces_of base + 2 else 0) }
{
    if present { pieces_of(base) + 2 } else { 0 }
}

// With how many sectors a unit is created, to be extended to `sectors` if a UNIT ATTENTION is pending: where the last
// is zero and not the only one, the growth adds it. Else it adds none, which the model executes and an array doesn't.
fn base_of(sectors: u32, attention: bool, bytes: &[u8]) -> u32
    requires { length bytes.now ≡ sectors * 512 }
    ensures base { result ≡ base_of sectors attention bytes.now }
    ensures within { result ≤ sectors }
{
    if attention && sectors > 1 && are_zeros(&bytes[(sectors as usize - 1) * SECTOR_LEN..]) {
        sectors - 1
    } else {
        sectors
    }
}
