// Which commands are recorded: only those that change their unit.
ghost use Rattle.std.specs.Prelude.{◌≡◌};
ghost use Rattle.ar_scsi.specs.Reading.{reading};
ghost use Rattle.ar_record.specs.Replay.{changes_unit, is_attention, is_storing};

use ar_scsi::{Command, Reply, Status, decode};

// The sense key UNIT ATTENTION, in byte 2 of fixed format sense data (SPC-3, Sense key and sense code definitions).
const UNIT_ATTENTION: u8 = 6;

/// Whether a command with this reply may have changed its unit: a WRITE with GOOD has, and any command that has
/// reported a pending UNIT ATTENTION, since it is pending no more.
pub fn changes_unit(cdb: &[u8; 16], reply: &Reply) -> bool
    ensures { result ≡ changes_unit cdb.now reply.now }
{
    is_attention(&reply.sense) || is_write(cdb) && matches!(reply.status, Status::Good)
}

fn is_write(cdb: &[u8; 16]) -> bool
    ensures { result ≡ is_storing (reading cdb.now) }
{
    matches!(decode(cdb), Ok(Command::Write { .. }))
}

fn is_attention(sense: &Option<[u8; 18]>) -> bool
    ensures { result ≡ is_attention sense.now }
{
    match sense {
        Some(sense) => sense[2] == UNIT_ATTENTION,
        None => false,
    }
}
