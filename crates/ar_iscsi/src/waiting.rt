// PDUs that wait: while the data of a WRITE are collected, those after it in CmdSN's order are kept unopened, as if
// they hadn't been read, and are done in order once the WRITE is. They aren't counted before that, so that MaxCmdSN
// bounds how many there are.
ghost use Rattle.std.specs.Prelude.{◌≡◌, ◌<◌, ◌++◌, ◌∷◌, [], OnOk};
ghost use Rattle.ar_iscsi.specs.Waiting as rule;

use crate::flow::{Flow, WINDOW};
use crate::pdu_read::PduRead;
use crate::request::InitiatorPdu;
use crate::turn::shared_copy;
use crate::waiting_pdu::{Early, WaitingPdu, WaitingState};
use bytes::Bytes;
use std::alloc::{AllocError, Global};

/// Whether a PDU that has been read waits after `count` others.
pub(crate) fn waits(flow: &Flow, count: usize, pdu: &InitiatorPdu) -> bool
    ensures { result ≡ rule.waits flow.now count pdu.now }
{
    match ordered_sn(pdu) {
        Some(cmd_sn) => flow.collecting.is_some()
            && count < WINDOW
            && cmd_sn == sn_after(flow, count),
        None => false,
    }
}

// The CmdSN that is expected after `count` PDUs that wait.
fn sn_after(flow: &Flow, count: usize) -> u32
    requires { count < 16 }
    ensures { result ≡ rule.sn_after flow.now count }
{
    flow.exp_cmd_sn.wrapping_add(count as u32)
}

// The CmdSN of a PDU that is done in CmdSN's order.
fn ordered_sn(pdu: &InitiatorPdu) -> Option<u32>
    ensures { result ≡ rule.ordered_sn pdu.now }
{
    match pdu {
        InitiatorPdu::ScsiCommand(c) => unless(c.immediate, c.cmd_sn),
        InitiatorPdu::NopOut(c) => unless(c.immediate, c.cmd_sn),
        InitiatorPdu::Text(c) => unless(c.immediate, c.cmd_sn),
        InitiatorPdu::Logout(c) => unless(c.immediate, c.cmd_sn),
        InitiatorPdu::TaskManagement(c) => unless(c.immediate, c.cmd_sn),
        InitiatorPdu::DataOut(_) | InitiatorPdu::Login(_) | InitiatorPdu::Unknown(_) => None,
    }
}

fn unless(immediate: bool, cmd_sn: u32) -> Option<u32>
    ensures { result ≡ rule.unless immediate cmd_sn }
{
    if immediate { None } else { Some(cmd_sn) }
}

/// Whether the oldest PDU that waits is the next one to be done: no data are collected any more.
pub(crate) fn is_next_waiting(flow: &Flow, waiting: &[WaitingPdu]) -> bool
    ensures { result ≡ rule.is_next_waiting flow.now waiting.now }
{
    flow.collecting.is_none() && !waiting.is_empty()
}

// No unsolicited data have come before their WRITE's turn.
pub(crate) fn no_early() -> Early
    ensures { result ≡ rule.no_early }
{
    Early {
        bytes: Bytes::new(),
        collecting: None,
    }
}

/// Keeps a PDU after the others that wait.
pub(crate) fn keep(
    waiting: &mut Vec<WaitingPdu>,
    alloc: Global,
    pdu: &PduRead<'_>,
    state: WaitingState,
) -> Result<(), AllocError>
    ensures { OnOk result (waiting.new.items ≡ waiting.old.items
        ++ rule.kept pdu.now.header.now pdu.now.fields pdu.now.carried.now state ∷ []) }
{
    let Some(carried) = shared_copy(alloc, pdu.carried) else {
        return Err(AllocError);
    };
    waiting.push(WaitingPdu {
        header: *pdu.header,
        fields: pdu.fields,
        carried,
        state,
        early: no_early(),
    })?;
    Ok(())
}
