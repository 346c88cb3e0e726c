// Which steps of an array are noted, and their encodings.
ghost use Rattle.std.specs.Prelude.{◌≡◌, ◌&&◌};
ghost use Rattle.ar_scsi.specs.Reading.{reading};
ghost use Rattle.ar_core.specs.Step.{is_write};
ghost use Rattle.ar_served.specs.Served.{acknowledges, is_forced};
ghost use Rattle.ar_served.specs.Serving.{is_recorded};
ghost use Rattle.ar_record.specs.Replay.{changes_unit};
ghost use Rattle.ar_record.specs.Record.{Command, IsEncodable, data_of};
ghost use Rattle.ar_durable.specs.Durable.{EncodesTo, NotesIf, is_grown, is_made, is_removed};

use ar_checkpoint::Store;
use ar_core::{Array, OutcomeOf};
use ar_disks::{Addr, Disk};
use ar_media::Media;
use ar_record::{Record, changes_unit, encode, encode_command};
use ar_recovery::is_recorded;
use ar_scsi::{Command as ScsiCommand, Reply, Status, decode};
use bytes::Bytes;
use std::alloc::Global;

// The bytes of the encoding of a command without its data.
const COMMAND_LEN: usize = 23;

// The encoding of a record. None when out of memory.
pub(crate) fn encoded(alloc: Global, entry: &Record) -> Option<Vec<u8>>
    requires { IsEncodable (data_of entry.now) }
    ensures { EncodesTo (data_of entry.now) result }
{
    let mut out = Vec::new(alloc);
    encode(entry, &mut out).ok()?;
    Some(out)
}

// The encoding of a command's record. None where its length has no place in one, or when out of memory.
pub(crate) fn encoded_command(
    alloc: Global,
    addr: Addr,
    cdb: &[u8; 16],
    payload: &Bytes,
) -> Option<Vec<u8>>
    ensures { EncodesTo (Command addr.host.number addr.lun cdb.now payload.now) result }
{
    if payload.len() >= 1 << 32 {
        return None;
    }
    let room = payload.len().saturating_add(COMMAND_LEN);
    let mut out = Vec::with_capacity(alloc, room).ok()?;
    encode_command(addr, cdb, payload.as_slice(), &mut out).ok()?;
    Some(out)
}

// Notes a record, if there is one to note.
pub(crate) fn note_if<M: Media>(store: &mut Store<M>, is_done: bool, encoded: Option<Vec<u8>>)
    ensures { NotesIf is_done encoded store.old store.new }
{
    if is_done {
        store.note(encoded);
    }
}

// Whether a command after which the array is as it is now, with this reply, is noted: it is recorded, and may have
// changed its unit.
pub(crate) fn is_noted<D: Disk>(array: &Array<D>, cdb: &[u8; 16], reply: &Reply) -> bool
    ensures { result ≡ (is_recorded array.now reply.now && changes_unit cdb.now reply.now) }
{
    is_recorded(array, reply) && changes_unit(cdb, reply)
}

// Whether a unit was created.
pub(crate) fn is_made<N>(outcome: &OutcomeOf<N>) -> bool
    ensures { result ≡ is_made outcome.now }
{
    matches!(outcome, OutcomeOf::Make(Ok(())))
}

// Whether a unit was extended.
pub(crate) fn is_grown<N>(outcome: &OutcomeOf<N>) -> bool
    ensures { result ≡ is_grown outcome.now }
{
    matches!(outcome, OutcomeOf::Grow(Ok(())))
}

// Whether a unit was deleted.
pub(crate) fn is_removed<N>(outcome: &OutcomeOf<N>) -> bool
    ensures { result ≡ is_removed outcome.now }
{
    matches!(outcome, OutcomeOf::Remove(Ok(())))
}

// Whether a disk was added.
pub(crate) fn is_added<N>(outcome: &OutcomeOf<N>) -> bool {
    matches!(outcome, OutcomeOf::AddDisk(Ok(())))
}

// Whether the answer to a command acknowledges data: GOOD to a WRITE.
pub(crate) fn is_acknowledged(cdb: &[u8; 16], reply: &Reply) -> bool
    ensures { result ≡ acknowledges cdb.now reply.now }
{
    matches!(reply.status, Status::Good) && is_write(cdb)
}

fn is_write(cdb: &[u8; 16]) -> bool
    ensures { result ≡ is_write (reading cdb.now) }
{
    matches!(decode(cdb), Ok(ScsiCommand::Write { .. }))
}

// Whether a command is a WRITE with FORCE UNIT ACCESS.
pub(crate) fn is_forced(cdb: &[u8; 16]) -> bool
    ensures { result ≡ is_forced (reading cdb.now) }
{
    matches!(decode(cdb), Ok(ScsiCommand::Write { fua: true, .. }))
}
