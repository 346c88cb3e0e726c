// Unsolicited data of a WRITE that waits: an initiator sends them without regard to the R2Ts of the WRITE before it, so
// that they come before its turn. They are kept with the command, at most FirstBurstLength bytes for each.
ghost use Rattle.std.specs.Prelude.{◌≡◌, ◌++◌, IfOk, OnOk, length, map};
ghost use Rattle.std.specs.List.{list_any};
ghost use Rattle.ar_iscsi.specs.Early as rule;

use crate::flow::Collecting;
use crate::negotiation::Limits;
use crate::request::{DataOut, InitiatorPdu};
use crate::task::{DataStep, data_step_for, may_follow, unsolicited};
use crate::turn::shared;
use crate::waiting_pdu::{Early, WaitingPdu, WaitingState};
use bytes::Bytes;
use std::alloc::{AllocError, Global};

/// Whether a Data-Out PDU of `len` bytes belongs to a WRITE that waits.
pub(crate) fn has_early(waiting: &[WaitingPdu], limits: &Limits, pdu: &DataOut, len: usize) -> bool
    ensures { result ≡ list_any (rule.is_early limits.now pdu.now len) waiting.now }
{
    let mut is_there = false;
    for kept in waiting {
        is_there = is_there || is_early(limits, pdu, len, kept);
    }
    is_there
}

// Whether it belongs to this PDU, which waits.
fn is_early(limits: &Limits, pdu: &DataOut, len: usize, kept: &WaitingPdu) -> bool
    ensures { result ≡ rule.is_early limits.now pdu.now len kept.now }
{
    match early_step(limits, pdu, len, kept) {
        DataStep::Ignores => false,
        DataStep::Breaks | DataStep::Takes(_) => true,
    }
}

/// Whether a Data-Out PDU of `len` bytes belongs to a WRITE that waits, and its data aren't the next ones.
pub(crate) fn has_broken(waiting: &[WaitingPdu], limits: &Limits, pdu: &DataOut, len: usize) -> bool
    ensures { result ≡ list_any (rule.breaks_early limits.now pdu.now len) waiting.now }
{
    let mut is_there = false;
    for kept in waiting {
        is_there = is_there || breaks_early(limits, pdu, len, kept);
    }
    is_there
}

// Whether it belongs to this PDU, which waits, and its data aren't the next ones.
fn breaks_early(limits: &Limits, pdu: &DataOut, len: usize, kept: &WaitingPdu) -> bool
    ensures { result ≡ rule.breaks_early limits.now pdu.now len kept.now }
{
    match early_step(limits, pdu, len, kept) {
        DataStep::Breaks => true,
        DataStep::Ignores | DataStep::Takes(_) => false,
    }
}

// What is done with a Data-Out PDU of `len` bytes for a PDU that waits.
fn early_step(limits: &Limits, pdu: &DataOut, len: usize, kept: &WaitingPdu) -> DataStep
    ensures { result ≡ rule.early_step limits.now pdu.now len kept.now }
{
    let have = kept.carried.len().saturating_add(kept.early.bytes.len());
    match early_of(limits, kept) {
        Some(c) if have < c.burst_end as usize => data_step_for(Some(c), pdu, have, len),
        _ => DataStep::Ignores,
    }
}

// The WRITE that a PDU is which waits, after the unsolicited data that came so far. None: no such data follow it.
fn early_of(limits: &Limits, kept: &WaitingPdu) -> Option<Collecting>
    ensures { result ≡ rule.early_of limits.now kept.now }
{
    match kept.state {
        WaitingState::Undone => early_for(
            limits,
            &kept.fields,
            kept.carried.len(),
            kept.early.collecting,
        ),
        WaitingState::Dropped | WaitingState::Answered(_) => None,
    }
}

// The same of a PDU that carries `len` bytes.
fn early_for(
    limits: &Limits,
    pdu: &InitiatorPdu,
    len: usize,
    so_far: Option<Collecting>,
) -> Option<Collecting>
    ensures { result ≡ rule.early_for limits.now pdu.now len so_far }
{
    match pdu {
        InitiatorPdu::ScsiCommand(command)
            if !command.is_final && may_follow(limits, command, len) => {
            Some(so_far.unwrap_or(unsolicited(limits, command)))
        }
        _ => None,
    }
}

/// Keeps unsolicited data with the WRITE that waits. `Err`: memory ran out.
pub(crate) fn gather_early(
    waiting: &mut Vec<WaitingPdu>,
    alloc: Global,
    limits: &Limits,
    pdu: &DataOut,
    carried: &[u8],
) -> Result<(), AllocError>
    ensures { OnOk result (waiting.new.items ≡ map (rule.gathered_by limits.now pdu.now carried.now)
        waiting.old.items) }
{
    for kept in waiting.iter_mut() {
        gather(kept, alloc, limits, pdu, carried)?;
    }
    Ok(())
}

// Keeps them with this PDU if they belong to it.
fn gather(
    kept: &mut WaitingPdu,
    alloc: Global,
    limits: &Limits,
    pdu: &DataOut,
    carried: &[u8],
) -> Result<(), AllocError>
    ensures { OnOk result (kept.new ≡ rule.gathered_by limits.now pdu.now carried.now kept.old) }
{
    match early_step(limits, pdu, carried.len(), kept) {
        DataStep::Takes(c) => {
            let bytes = joined(alloc, &kept.early.bytes, carried)?;
            kept.early = Early {
                bytes,
                collecting: Some(c),
            };
            Ok(())
        }
        DataStep::Ignores | DataStep::Breaks => Ok(()),
    }
}

// Both in a buffer of their own.
fn joined(alloc: Global, first: &[u8], second: &[u8]) -> Result<Bytes, AllocError>
    ensures { IfOk result (λ bytes. bytes ≡ first.now ++ second.now) }
{
    let mut both = Vec::new(alloc);
    both.reserve_exact(first.len().saturating_add(second.len()))?;
    both.extend_from_slice(first)?;
    both.extend_from_slice(second)?;
    match shared(both) {
        Some(bytes) => Ok(bytes),
        None => Err(AllocError),
    }
}
