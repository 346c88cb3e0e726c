//! The transport of an iSCSI target (RFC 7143) over byte streams and any `Port`: no thread, no socket, no array.
#![tactic(auto)]

ghost use Rattle.ar_iscsi.specs.Pdu.{NoPduBeginsAnother};
ghost use Rattle.ar_iscsi.specs.Response.{ResponsesArePdus};

mod answer;
mod arrival;
mod digest;
mod early;
mod flow;
mod initiator;
mod keys;
mod login;
mod login_phase;
mod management;
mod negotiation;
mod pdu_read;
mod reaction;
mod receive;
mod reply;
mod request;
mod response;
mod session;
mod target;
mod targets;
mod task;
mod tasks;
mod terms;
mod text;
mod turn;
mod verdict;
mod waiting;
mod waiting_pdu;

pub use answer::Answer;
pub use digest::{CrcTable, Digests};
pub use flow::{Collecting, Flow, WINDOW, lun_number};
pub use keys::{Key, KeyAnswer, key_answer, key_named, numeral};
pub use login::{LoginResult, LoginState, LoginWork, login_turn};
pub use login_phase::{LoginEnd, log_in};
pub use negotiation::{
    KeysSeen, Limits, Negotiation, SessionKind, TargetChoice, negotiated, target_of,
};
pub use reaction::{
    COMMAND_NOT_SUPPORTED, DATA_DIGEST_ERROR, INVALID_PDU_FIELD, PROTOCOL_ERROR, Reaction,
    to_logout, to_nop_out, to_text,
};
pub use receive::{ReceiveEnd, Received, receive_pdu};
pub use request::{
    DataOut, InitiatorPdu, LoginRequest, LogoutRequest, Lun, NopOut, ScsiCommand, TaskManagement,
    TextRequest, initiator_pdu,
};
pub use response::{LoginResponse, LoginStage, Residual, SequenceNumbers, TargetPdu, put_pdu};
pub use session::{FeatureEnd, MOST_SEGMENT, Session};
pub use target::{IscsiEnd, NoUnits, serve_target};
pub use targets::answer_targets;
pub use task::{CommandStep, DataStep, command_step, data_step, wanted_len};
pub use terms::Terms;
pub use text::answer_text;
pub use turn::TurnEnd;
pub use verdict::{LoginStatus, LoginStep, judged, stage_of, status_code, step_of};
pub use waiting_pdu::{Early, WaitingPdu, WaitingState};

/// Lemma: no PDU is a proper prefix of another, and its bytes determine its header and its data.
pub fn no_pdu_begins_another()
    ensures { NoPduBeginsAnother }
{}

/// Lemma: what is written of a response is a PDU, with its header and its data.
pub fn responses_are_pdus()
    ensures { ResponsesArePdus }
{}
