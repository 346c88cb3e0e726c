// What a session does with a request that needs no port: NOP-Out, text, logout, and what it refuses.
ghost use Rattle.std.specs.Prelude.{◌≡◌, ◌==◌};
ghost use Rattle.ar_iscsi.specs.Reaction as rule;

use crate::flow::Flow;
use crate::request::{LogoutRequest, NopOut, TextRequest};
use crate::response::TargetPdu;

/// What a session does with a request.
#[derive(Clone, Copy, Debug, PartialEq, Eq)]
pub enum Reaction {
    /// Nothing: the request is outside the window.
    Ignores,
    /// It is counted, and wants no answer.
    Counts,
    /// It is answered by this PDU, without data.
    Answers(TargetPdu),
    /// It is answered by this PDU, with the data that it carries.
    Echoes(TargetPdu),
    /// It is answered by this PDU, with the answer to its text.
    AnswersText(TargetPdu),
    /// It is answered by this PDU, and the session ends.
    Closes(TargetPdu),
    /// It is rejected for this reason, and isn't counted.
    Rejects(u8),
}

/// Reject: data (payload) digest error (RFC 7143, 11.17.1).
pub const DATA_DIGEST_ERROR: u8 = 0x02;

/// Reject: protocol error.
pub const PROTOCOL_ERROR: u8 = 0x04;

/// Reject: the command isn't supported.
pub const COMMAND_NOT_SUPPORTED: u8 = 0x05;

/// Reject: a field of the PDU is invalid.
pub const INVALID_PDU_FIELD: u8 = 0x09;

/// What is done with a NOP-Out: it gets its data back, unless it wants no answer.
pub fn to_nop_out(flow: &Flow, nop: &NopOut) -> Reaction
    ensures { result ≡ rule.to_nop_out flow.now nop.now }
{
    if !flow.accepts(nop.immediate, nop.cmd_sn) {
        Reaction::Ignores
    } else if nop.task_tag == 0xFFFF_FFFF {
        Reaction::Counts
    } else {
        Reaction::Echoes(TargetPdu::NopIn {
            lun: nop.lun,
            task_tag: nop.task_tag,
        })
    }
}

/// What is done with a text request: it is answered if its text is whole.
pub fn to_text(flow: &Flow, request: &TextRequest) -> Reaction
    ensures { result ≡ rule.to_text flow.now request.now }
{
    if !flow.accepts(request.immediate, request.cmd_sn) {
        Reaction::Ignores
    } else if request.continues || !request.is_final {
        Reaction::Rejects(COMMAND_NOT_SUPPORTED)
    } else {
        Reaction::AnswersText(TargetPdu::TextResponse {
            task_tag: request.task_tag,
        })
    }
}

/// What is done with a logout: a session has one connection, so that closing either ends it.
pub fn to_logout(flow: &Flow, request: &LogoutRequest) -> Reaction
    ensures { result ≡ rule.to_logout flow.now request.now }
{
    let task_tag = request.task_tag;
    if !flow.accepts(request.immediate, request.cmd_sn) {
        return Reaction::Ignores;
    }
    match request.reason {
        0 | 1 => Reaction::Closes(TargetPdu::LogoutResponse {
            task_tag,
            response: 0,
        }),
        2 => Reaction::Answers(TargetPdu::LogoutResponse {
            task_tag,
            response: 2,
        }),
        _ => Reaction::Rejects(INVALID_PDU_FIELD),
    }
}
