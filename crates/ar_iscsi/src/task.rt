// SCSI commands: the data of a WRITE are collected before the command is given to the port, as immediate data, in
// unsolicited Data-Out PDUs, and in those that R2Ts ask for, one R2T at a time. Commands are done one after the other.
ghost use Rattle.std.specs.Prelude.{◌≡◌, ◌<◌, ◌≤◌, ◌+◌, ◌^◌, ◌==◌, true, [], IfOk, length};
ghost use Rattle.ar_scsi.specs.declared.reply.Reply.{Reply};
ghost use Rattle.ar_frames.specs.Frame.{IsReply};
ghost use Rattle.ar_iscsi.specs.Task as task;

use crate::answer::Answer;
use crate::flow::{Collecting, Flow, lun_number};
use crate::negotiation::Limits;
use crate::reaction::{COMMAND_NOT_SUPPORTED, PROTOCOL_ERROR};
use crate::reply::put_reply;
use crate::request::{DataOut, ScsiCommand};
use crate::response::{NO_TAG, TargetPdu};
use ar_frames::Port;
use ar_scsi::{Reply, Sense};
use ar_target::data_out_len;
use bytes::Bytes;
use std::alloc::AllocError;

/// What a session does with a SCSI command.
#[derive(Clone, Copy, Debug, PartialEq, Eq)]
pub enum CommandStep {
    /// It is outside the window.
    Ignores,
    /// It is rejected for this reason, and isn't counted.
    Rejects(u8),
    /// It gets BUSY: data of another command are collected.
    Refuses,
    /// It is given to the port with its first `wanted` bytes of immediate data.
    Runs { wanted: u32 },
    /// Of its `wanted` bytes of data, more are asked for.
    Collects { wanted: u32 },
    /// Unsolicited data follow it.
    Awaits(Collecting),
}

/// What a session does with a Data-Out PDU.
#[derive(Clone, Copy, Debug, PartialEq, Eq)]
pub enum DataStep {
    /// It belongs to no WRITE whose data are collected.
    Ignores,
    /// Its data aren't the next ones of the R2T, or of the unsolicited data: the session ends.
    Breaks,
    /// Its data are the next ones of a WRITE, which is this after them.
    Takes(Collecting),
}

/// What is done with a command that carries `len` bytes of immediate data.
pub fn command_step(flow: &Flow, limits: &Limits, command: &ScsiCommand, len: usize) -> CommandStep
    ensures is { result ≡ task.command_step flow.now limits.now command.now len }
    ensures suits { task.SuitsData len result }
{
    if !flow.accepts(command.immediate, command.cmd_sn) {
        return CommandStep::Ignores;
    }
    if command.reads && command.writes {
        return CommandStep::Rejects(COMMAND_NOT_SUPPORTED);
    }
    if !may_follow(limits, command, len) || !may_carry(limits, len) {
        return CommandStep::Rejects(PROTOCOL_ERROR);
    }
    if flow.collecting.is_some() {
        return CommandStep::Refuses;
    }
    if !command.is_final {
        return CommandStep::Awaits(unsolicited(limits, command));
    }
    let wanted = wanted_len(command);
    if wanted as usize <= len {
        CommandStep::Runs { wanted }
    } else {
        CommandStep::Collects { wanted }
    }
}

// Whether unsolicited data may follow a command that carries `len` bytes, if they do: it is a WRITE, InitialR2T=No was
// agreed on, and they have room within FirstBurstLength.
pub(crate) fn may_follow(limits: &Limits, command: &ScsiCommand, len: usize) -> bool
    ensures { result ≡ task.may_follow limits.now command.now len }
{
    command.is_final
        || (!limits.initial_r2t
            && command.writes
            && len < unsolicited_end(limits, command) as usize)
}

// The most bytes of a command that aren't asked for: those that it carries, and the unsolicited data.
fn unsolicited_end(limits: &Limits, command: &ScsiCommand) -> u32
    ensures { result ≡ task.unsolicited_end limits.now command.now }
{
    limits.first_burst.min(command.expected)
}

// A command that unsolicited data follow, before the first of them.
pub(crate) fn unsolicited(limits: &Limits, command: &ScsiCommand) -> Collecting
    ensures { result ≡ task.unsolicited limits.now command.now }
{
    Collecting {
        command: *command,
        wanted: wanted_len(command),
        asked: 0,
        transfer_tag: NO_TAG,
        data_sn: 0,
        burst_end: unsolicited_end(limits, command),
        is_unsolicited: true,
    }
}

// Whether a command may carry this many bytes of data.
fn may_carry(limits: &Limits, len: usize) -> bool
    ensures { result ≡ task.may_carry limits.now len }
{
    len == 0 || (limits.immediate_data && len <= limits.first_burst as usize)
}

/// The number of bytes that a command is given: what its block takes, as far as it is expected.
pub fn wanted_len(command: &ScsiCommand) -> u32
    ensures len { result ≡ task.wanted_len command.now }
    ensures short { result < 2 ^ 25 }
{
    if command.writes {
        data_out_len(&command.cdb).min(command.expected)
    } else {
        0
    }
}

/// What is done with a Data-Out PDU of `len` bytes when `have` bytes of data were collected.
pub fn data_step(flow: &Flow, pdu: &DataOut, have: usize, len: usize) -> DataStep
    ensures is { result ≡ task.data_step flow.now pdu.now have len }
    ensures suits { task.SuitsBurst (have + len) result }
{
    data_step_for(flow.collecting, pdu, have, len)
}

// The same for a WRITE whose data are collected, if there is one.
pub(crate) fn data_step_for(
    collecting: Option<Collecting>,
    pdu: &DataOut,
    have: usize,
    len: usize,
) -> DataStep
    ensures is { result ≡ task.data_step_for collecting pdu.now have len }
    ensures suits { task.SuitsBurst (have + len) result }
{
    match collecting {
        Some(c) if c.command.task_tag == pdu.task_tag && c.transfer_tag == pdu.transfer_tag => {
            if is_next_data(&c, pdu, have, len) {
                DataStep::Takes(after_data(&c, pdu, (have + len) as u32))
            } else {
                DataStep::Breaks
            }
        }
        _ => DataStep::Ignores,
    }
}

// A WRITE after its next data, with which `all` bytes have come: the last unsolicited data end where they do.
fn after_data(c: &Collecting, pdu: &DataOut, all: u32) -> Collecting
    ensures { result ≡ task.after_data c.now pdu.now all }
{
    let is_end = c.is_unsolicited && pdu.is_final;
    Collecting {
        data_sn: c.data_sn.wrapping_add(1),
        burst_end: if is_end { all } else { c.burst_end },
        ..*c
    }
}

// Whether data are the next ones of an R2T, and end its sequence exactly if they are its last. Unsolicited data end
// where the initiator says, at their limit at the latest.
fn is_next_data(c: &Collecting, pdu: &DataOut, have: usize, len: usize) -> bool
    ensures { result ≡ task.is_next_data c.now pdu.now have len }
{
    let end = have.saturating_add(len);
    let burst_end = c.burst_end as usize;
    pdu.data_sn == c.data_sn
        && pdu.offset as usize == have
        && end <= burst_end
        && (pdu.is_final == (end == burst_end) || (c.is_unsolicited && pdu.is_final))
}

// Gives a command to the port, if it is for a unit of a single-level LUN.
fn give<P: Port>(port: &mut P, command: &ScsiCommand, payload: Bytes) -> Reply
    requires { P.has_login port.old ≡ true }
    ensures given { task.IsGivenTo P.commands command.now payload port.old result port.new }
    ensures once { task.MayGive P.commands port.old port.new }
    ensures reply { IsReply result }
    ensures stays { P.has_login port.new ≡ true }
{
    match lun_number(command.lun) {
        Some(lun) => port.command(lun, &command.cdb, payload),
        None => Reply::check(Sense::LOGICAL_UNIT_NOT_SUPPORTED),
    }
}

// The most bytes of a Data-In PDU.
pub(crate) fn most_in(limits: &Limits) -> u32
    ensures is { result ≡ task.most_in limits.now }
    ensures some { 0 < result }
    ensures short { result < 2 ^ 24 }
{
    limits
        .max_segment
        .min(limits.max_burst)
        .min(0xFF_FFFF)
        .max(512)
}

/// Gives a command that is complete to the port, and makes `out`, which is empty, its answer. `asked` R2Ts were sent
/// for it. `Err` if the answer can't be allocated: the command was executed, and `out` is unspecified.
pub(crate) fn complete<P: Port>(
    port: &mut P,
    flow: Flow,
    limits: &Limits,
    out: &mut Answer,
    command: &ScsiCommand,
    payload: Bytes,
    asked: u32,
) -> Result<Flow, AllocError>
    requires logged { P.has_login port.old ≡ true }
    requires empty { out.old ≡ [] }
    ensures completes { IfOk result (λ after. task.Completes P.commands flow limits.now command.now payload asked
        port.old port.new out.old out.new after) }
    ensures once { task.MayGive P.commands port.old port.new }
    ensures stays { P.has_login port.new ≡ true }
{
    let reply = give(port, command, payload);
    put_reply(out, command, flow.numbers(), most_in(limits), asked, &reply)?;
    Ok(flow.answered())
}

/// Has the port refuse a command, and makes `out`, which is empty, its answer BUSY. `Err` if the answer can't be
/// allocated: `out` is unspecified.
pub(crate) fn refuse<P: Port>(
    port: &mut P,
    flow: Flow,
    limits: &Limits,
    out: &mut Answer,
    command: &ScsiCommand,
    asked: u32,
) -> Result<Flow, AllocError>
    requires logged { P.has_login port.old ≡ true }
    requires empty { out.old ≡ [] }
    ensures busy { IfOk result (λ after. task.GetsBusy P.refuses flow limits.now command.now asked port.old port.new
        out.old out.new after) }
    ensures same { port.new ≡ port.old }
{
    let reply = port.refuse(&command.cdb);
    put_reply(out, command, flow.numbers(), most_in(limits), asked, &reply)?;
    Ok(flow.answered())
}

/// Asks for more data of a command: appends R2T number `asked`, counted from 0, for those after the first `have`.
pub(crate) fn ask(
    flow: Flow,
    limits: &Limits,
    out: &mut Answer,
    command: ScsiCommand,
    wanted: u32,
    have: u32,
    asked: u32,
) -> Result<Flow, AllocError>
    requires { have ≤ wanted }
    ensures { IfOk result (λ after. task.AsksFrom flow limits.now command wanted have asked out.old out.new after) }
{
    let len = (wanted - have).min(limits.max_burst.max(512));
    let after = flow.asking(command, wanted, asked.wrapping_add(1), have + len);
    let pdu = TargetPdu::ReadyToTransfer {
        lun: command.lun,
        task_tag: command.task_tag,
        transfer_tag: flow.free_tag(),
        r2t_sn: asked,
        offset: have,
        len,
    };
    out.put(pdu, after.numbers(), &[])?;
    Ok(after)
}
