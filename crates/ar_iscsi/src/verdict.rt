// What a target answers to a login request: whether its fields suit the login so far, and where the login goes.
ghost use Rattle.std.specs.Prelude.{◌≡◌};
ghost use Rattle.ar_iscsi.specs.Verdict as login;

use crate::negotiation::{Negotiation, SessionKind, TargetChoice};
use crate::request::LoginRequest;
use crate::response::LoginStage;

/// The status of a login response (RFC 7143, 11.13.5).
#[derive(Clone, Copy, Debug, PartialEq, Eq)]
pub enum LoginStatus {
    Success,
    /// The request doesn't suit the login so far, or a key came twice.
    InitiatorError,
    AuthenticationFailure,
    NotFound,
    UnsupportedVersion,
    MissingParameter,
    SessionTypeNotSupported,
    /// There is no session of the TSIH.
    SessionDoesNotExist,
    /// The request is none of a login.
    InvalidDuringLogin,
    /// The target is in use by another session, or the text is too long.
    OutOfResources,
}

/// Where a login goes after a request that is in order.
#[derive(Clone, Copy, Debug, PartialEq, Eq)]
pub enum LoginStep {
    /// More text comes, or the initiator stays in its stage.
    Stays,
    /// On to the stage of operational negotiation.
    Advances,
    /// On to the full feature phase.
    Enters,
}

/// The number of a status: its class and its detail.
pub fn status_code(status: LoginStatus) -> (u8, u8)
    ensures { result ≡ login.status_code status }
{
    match status {
        LoginStatus::Success => (0x00, 0x00),
        LoginStatus::InitiatorError => (0x02, 0x00),
        LoginStatus::AuthenticationFailure => (0x02, 0x01),
        LoginStatus::NotFound => (0x02, 0x03),
        LoginStatus::UnsupportedVersion => (0x02, 0x05),
        LoginStatus::MissingParameter => (0x02, 0x07),
        LoginStatus::SessionTypeNotSupported => (0x02, 0x09),
        LoginStatus::SessionDoesNotExist => (0x02, 0x0A),
        LoginStatus::InvalidDuringLogin => (0x02, 0x0B),
        LoginStatus::OutOfResources => (0x03, 0x02),
    }
}

/// Whether nothing is wrong.
pub fn is_success(status: LoginStatus) -> bool
    ensures { result ≡ login.is_success status }
{
    matches!(status, LoginStatus::Success)
}

/// The stage of a number, if a login request may be of it.
pub fn stage_of(code: u8) -> Option<LoginStage>
    ensures { result ≡ login.stage_named code }
{
    match code {
        0 => Some(LoginStage::SecurityNegotiation),
        1 => Some(LoginStage::OperationalNegotiation),
        _ => None,
    }
}

/// Where a login in this stage goes with a request, by its fields alone; `Err`: its fields don't suit.
pub fn step_of(request: &LoginRequest, stage: LoginStage) -> Result<LoginStep, LoginStatus>
    ensures { result ≡ login.step_of request.now stage }
{
    if request.version_min != 0 {
        return Err(LoginStatus::UnsupportedVersion);
    }
    if request.tsih != 0 {
        return Err(LoginStatus::SessionDoesNotExist);
    }
    if !request.transit {
        return Ok(LoginStep::Stays);
    }
    if request.continues {
        return Err(LoginStatus::InitiatorError);
    }
    next_step(stage, request.next_stage)
}

// Where a login in this stage goes with T and this NSG.
fn next_step(stage: LoginStage, next: u8) -> Result<LoginStep, LoginStatus>
    ensures { result ≡ login.next_step stage next }
{
    match (stage, next) {
        (LoginStage::SecurityNegotiation, 1) => Ok(LoginStep::Advances),
        (LoginStage::SecurityNegotiation | LoginStage::OperationalNegotiation, 3) => Ok(
            LoginStep::Enters,
        ),
        _ => Err(LoginStatus::InitiatorError),
    }
}

/// What is wrong with what was negotiated, once a whole text was read; `Success`: nothing.
pub fn judged(so_far: &Negotiation) -> LoginStatus
    ensures { result ≡ login.judged so_far.now }
{
    if so_far.keys.is_repeated {
        return LoginStatus::InitiatorError;
    }
    if !so_far.is_named {
        return LoginStatus::MissingParameter;
    }
    if so_far.is_refused {
        return LoginStatus::AuthenticationFailure;
    }
    match so_far.kind {
        SessionKind::Discovery => LoginStatus::Success,
        SessionKind::Unsupported => LoginStatus::SessionTypeNotSupported,
        SessionKind::Normal => target_status(so_far.target),
    }
}

// What is wrong with the target of a normal session, by its name.
fn target_status(target: TargetChoice) -> LoginStatus
    ensures { result ≡ login.target_status target }
{
    match target {
        TargetChoice::Unnamed => LoginStatus::MissingParameter,
        TargetChoice::Unknown => LoginStatus::NotFound,
        TargetChoice::OfHost(_) => LoginStatus::Success,
    }
}
