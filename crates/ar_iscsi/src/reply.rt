// The answer to a SCSI command: its data in Data-In PDUs, cut to the expected length, and its status in a SCSI
// Response. Each Data-In PDU is a sequence of its own, so that MaxBurstLength bounds a PDU and no more is counted.
ghost use Rattle.std.specs.Prelude.{◌≡◌, ◌<◌, ◌++◌, ◌∷◌, ◌^◌, [], IfOk, OnOk};
ghost use Rattle.ar_scsi.specs.declared.reply.Reply.{Reply};
ghost use Rattle.ar_frames.specs.Frame.{IsReply, status_byte};
ghost use Rattle.ar_iscsi.specs.Reply as answer;
ghost use Rattle.ar_iscsi.specs.Response.{target_pdu};

use crate::answer::Answer;
use crate::request::ScsiCommand;
use crate::response::{Residual, SequenceNumbers, TargetPdu};
use ar_scsi::{Reply, Status};
use ar_target::data_out_len;
use bytes::Bytes;
use std::alloc::AllocError;

/// Makes `out`, which is empty, the answer to a command: its data, cut to the expected length, in Data-In PDUs of at
/// most `most` bytes, and its status. `asked` R2Ts were sent for it. `Err` if the allocation fails; `out` is then
/// unspecified.
pub(crate) fn put_reply(
    out: &mut Answer,
    command: &ScsiCommand,
    numbers: SequenceNumbers,
    most: u32,
    asked: u32,
    reply: &Reply,
) -> Result<(), AllocError>
    requires some { 0 < most }
    requires short { most < 2 ^ 24 }
    requires reply { IsReply reply.now }
    requires empty { out.old ≡ [] }
    ensures { OnOk result (answer.PutsReply command.now numbers most asked reply.now out.old out.new) }
{
    let carried = returned(command, &reply.payload)?;
    let count = out.put_data_in(command.task_tag, numbers, most, carried)?;
    put_status(out, command, numbers, asked.wrapping_add(count), reply)
}

// Appends the SCSI Response to a command that had `exp_data_sn` Data-In and R2T PDUs.
fn put_status(
    out: &mut Answer,
    command: &ScsiCommand,
    numbers: SequenceNumbers,
    exp_data_sn: u32,
    reply: &Reply,
) -> Result<(), AllocError>
    requires { IsReply reply.now }
    ensures { OnOk result (out.new ≡ out.old ++ target_pdu
        (TargetPdu.ScsiResponse command.now.task_tag (status_byte reply.now.status)
        (answer.residual_of (answer.expected_len command.now) (answer.moved_by command.now reply.now.payload))
        exp_data_sn)
        numbers (answer.sense_segment reply.now.sense)) }
{
    let pdu = TargetPdu::ScsiResponse {
        task_tag: command.task_tag,
        status: status_of(reply.status),
        residual: residual_of(
            expected_len(command),
            data_out_len(&command.cdb) + reply.payload.len() as u32,
        ),
        exp_data_sn,
    };
    match &reply.sense {
        Some(sense) => out.put(pdu, numbers, &sense_segment(sense)),
        None => out.put(pdu, numbers, &[]),
    }
}

// The data segment that carries sense data.
fn sense_segment(sense: &[u8; 18]) -> [u8; 20]
    ensures { result ≡ 0x00 ∷ 0x12 ∷ sense.now }
{
    let mut segment = [0; 20];
    segment[1] = 18;
    segment[2..].copy_from_slice(sense);
    segment
}

// The status code (SAM-3, Status).
fn status_of(status: Status) -> u8
    ensures { result ≡ status_byte status }
{
    match status {
        Status::Good => 0x00,
        Status::CheckCondition => 0x02,
        Status::Busy => 0x08,
    }
}

// The number of bytes that a command is expected to move.
fn expected_len(command: &ScsiCommand) -> u32
    ensures { result ≡ answer.expected_len command.now }
{
    if command.reads || command.writes {
        command.expected
    } else {
        0
    }
}

// How the bytes that a command would move compare with those that are expected.
fn residual_of(expected: u32, moved: u32) -> Residual
    ensures { result ≡ answer.residual_of expected moved }
{
    if moved < expected {
        Residual::Underflow(expected - moved)
    } else if expected < moved {
        Residual::Overflow(moved - expected)
    } else {
        Residual::Exact
    }
}

// The part of a payload that is returned, which shares it.
fn returned(command: &ScsiCommand, payload: &Bytes) -> Result<Bytes, AllocError>
    ensures { IfOk result (λ part. part ≡ answer.returned command.now payload.now) }
{
    if command.reads {
        payload.slice(..payload.len().min(command.expected as usize))
    } else {
        Ok(Bytes::new())
    }
}
