// A turn of the login phase: a login request, what it makes of the login, and the response. `Err`: the response or the
// initiator's name can't be allocated.
ghost use Rattle.std.specs.Prelude.{◌≡◌, ◌≤◌, false, true, [], IfOk, OnOk, length};
ghost use Rattle.ar_iscsi.specs.LoginTurn as login;

use crate::flow::last_in_window;
use crate::initiator::keep_name;
use crate::negotiation::{Negotiation, SessionKind, TargetChoice, negotiated};
use crate::request::{LoginRequest, login_request};
use crate::response::{LoginResponse, LoginStage, SequenceNumbers, TargetPdu, put_pdu, stage_code};
use crate::text::answer_text;
use crate::verdict::{LoginStatus, LoginStep, is_success, judged, stage_of, status_code, step_of};
use ar_frames::{Login, Port};
use ar_target::{InitiatorLogin, LoginObserver};
use std::alloc::{AllocError, Global};

// The longest text of a login, and the longest answer.
const MOST_TEXT: usize = 8_192;

/// The state of a login between two requests.
#[derive(Clone, Copy, Debug, PartialEq, Eq)]
pub struct LoginState {
    /// The stage that the login is in; None before the first request.
    pub stage: Option<LoginStage>,
    pub so_far: Negotiation,
    /// The StatSN of the next response.
    pub stat_sn: u32,
    /// The CmdSN of the last request.
    pub cmd_sn: u32,
}

/// A login between two requests.
#[derive(Drop)]
pub struct LoginWork {
    pub state: LoginState,
    /// The text of requests that go on.
    pub text: Vec<u8>,
    /// The name of the initiator, once a whole text has had it.
    pub name: Vec<u8>,
    /// The response to the request at hand.
    pub out: Vec<u8>,
}

/// What becomes of a login after a request.
#[derive(Clone, Copy, Debug, PartialEq, Eq)]
pub enum LoginResult {
    /// It goes on.
    Next,
    /// The full feature phase begins.
    Entered,
    /// It is refused with this status.
    Refused(LoginStatus),
}

// The response to a request in this stage.
fn login_reply(
    request: &LoginRequest,
    at: LoginStage,
    next: Option<LoginStage>,
    tsih: u16,
    status: LoginStatus,
) -> TargetPdu
    ensures { result ≡ login.login_reply request.now at next tsih status }
{
    let (status_class, status_detail) = status_code(status);
    TargetPdu::Login(LoginResponse {
        transit: next.is_some(),
        stage: at,
        next_stage: next.unwrap_or(LoginStage::SecurityNegotiation),
        isid_high: request.isid_high,
        isid_low: request.isid_low,
        tsih,
        task_tag: request.task_tag,
        status_class,
        status_detail,
    })
}

fn login_numbers(state: &LoginState, request: &LoginRequest) -> SequenceNumbers
    ensures { result ≡ login.login_numbers state.now request.now }
{
    SequenceNumbers {
        stat_sn: state.stat_sn,
        exp_cmd_sn: request.cmd_sn,
        max_cmd_sn: last_in_window(request.cmd_sn),
    }
}

// Refuses a request.
fn refuse_login(
    work: &mut LoginWork,
    request: &LoginRequest,
    status: LoginStatus,
) -> Result<LoginResult, AllocError>
    requires { work.old.out.items ≡ [] }
    ensures refuses { IfOk result (λ ended. login.RefusesLogin request.now status work.old.state work.new.out.items
        ended) }
    ensures name { work.new.name.items ≡ work.old.name.items }
{
    let at = stage_of(request.stage).unwrap_or(LoginStage::SecurityNegotiation);
    let numbers = login_numbers(&work.state, request);
    put_pdu(
        &mut work.out,
        login_reply(request, at, None, 0, status),
        numbers,
        &[],
    )?;
    Ok(LoginResult::Refused(status))
}

// Answers a request, and goes on in the stage that the response names.
fn answer_login(
    work: &mut LoginWork,
    request: &LoginRequest,
    at: LoginStage,
    next: Option<LoginStage>,
    tsih: u16,
    segment: &[u8],
    so_far: Negotiation,
) -> Result<(), AllocError>
    requires empty { work.old.out.items ≡ [] }
    requires short { length segment.now ≤ login.most_text }
    ensures answers { OnOk result (login.AnswersLogin request.now at next tsih segment.now so_far work.old.text.items
        work.old.state
        work.new.out.items (record { state = work.new.state; text = work.new.text.items })) }
    ensures name { work.new.name.items ≡ work.old.name.items }
{
    let numbers = login_numbers(&work.state, request);
    let pdu = login_reply(request, at, next, tsih, LoginStatus::Success);
    put_pdu(&mut work.out, pdu, numbers, segment)?;
    work.state = LoginState {
        stage: Some(next.unwrap_or(at)),
        so_far,
        stat_sn: work.state.stat_sn.wrapping_add(1),
        cmd_sn: request.cmd_sn,
    };
    Ok(())
}

// Gives the login to the port, for a normal session.
fn admit<P: Port>(port: &mut P, so_far: &Negotiation) -> LoginStatus
    requires { P.has_login port.old ≡ false }
    ensures admits { login.Admits P.logins so_far.now.kind so_far.now.target port.old result port.new }
    ensures once { login.MayLogIn P.logins port.old port.new }
    ensures logged { result ≡ LoginStatus.Success → so_far.now.kind ≡ SessionKind.Normal → P.has_login port.new ≡ true }
{
    match so_far.kind {
        SessionKind::Normal => admit_host(port, so_far.target),
        SessionKind::Discovery => LoginStatus::Success,
        SessionKind::Unsupported => LoginStatus::SessionTypeNotSupported,
    }
}

// Gives the login of a host to the port.
fn admit_host<P: Port>(port: &mut P, target: TargetChoice) -> LoginStatus
    requires { P.has_login port.old ≡ false }
    ensures admits { login.AdmitsHost P.logins target port.old result port.new }
    ensures once { login.MayLogIn P.logins port.old port.new }
    ensures logged { result ≡ LoginStatus.Success → P.has_login port.new ≡ true }
{
    match target {
        TargetChoice::OfHost(host) => match port.login(host) {
            Login::Taken => LoginStatus::Success,
            Login::BadHost => LoginStatus::NotFound,
            Login::InUse => LoginStatus::OutOfResources,
        },
        TargetChoice::Unnamed | TargetChoice::Unknown => LoginStatus::NotFound,
    }
}

// The host that the port observes a login of: one that there is, or none for discovery. None: the login is refused
// without the port.
fn observed_host(kind: SessionKind, target: TargetChoice) -> Option<Option<u8>>
    ensures { result ≡ login.observed_host kind target }
{
    match (kind, target) {
        (SessionKind::Normal, TargetChoice::OfHost(host)) if host < 4 => Some(Some(host)),
        (SessionKind::Discovery, _) => Some(None),
        _ => None,
    }
}

// Has the port observe a login of the initiator of this name, if it is in order.
fn observe_login<P: LoginObserver>(
    port: &P,
    name: &[u8],
    request: &LoginRequest,
    so_far: &Negotiation,
) {
    if let Some(host) = observed_host(so_far.kind, so_far.target) {
        port.observe(InitiatorLogin {
            initiator: name,
            isid_high: request.isid_high,
            isid_low: request.isid_low,
            host,
        });
    }
}

// Has the port observe the login and admit the host, and enters the full feature phase.
fn enter_login<P: Port + LoginObserver>(
    work: &mut LoginWork,
    port: &mut P,
    request: &LoginRequest,
    at: LoginStage,
    segment: &[u8],
    so_far: Negotiation,
) -> Result<LoginResult, AllocError>
    requires unlogged { P.has_login port.old ≡ false }
    requires empty { work.old.out.items ≡ [] }
    requires no_text { work.old.text.items ≡ [] }
    requires short { length segment.now ≤ login.most_text }
    ensures enters { IfOk result (λ ended. login.EntersLogin P.logins request.now at segment.now so_far
        work.old.state port.old
        work.new.out.items (record { state = work.new.state; text = work.new.text.items }) port.new ended) }
    ensures once { login.MayLogIn P.logins port.old port.new }
    ensures unlogged { IfOk result (λ ended. ended ≡ LoginResult.Next → P.has_login port.new ≡ false) }
    ensures logged { IfOk result (λ ended. ended ≡ LoginResult.Entered → work.new.state.so_far.kind ≡ SessionKind.Normal
        → P.has_login port.new ≡ true) }
    ensures name { work.new.name.items ≡ work.old.name.items }
{
    observe_login(port, &work.name, request, &so_far);
    match admit(port, &so_far) {
        LoginStatus::Success => {
            answer_login(
                work,
                request,
                at,
                Some(LoginStage::FullFeature),
                1,
                segment,
                so_far,
            )?;
            Ok(LoginResult::Entered)
        }
        status => refuse_login(work, request, status),
    }
}

/// Does what a PDU with this header and this data segment asks for in a login, and puts the response into `out`, which
/// is empty before. The port observes the login, and is given the host, once, where the full feature phase begins.
/// `Err`: the response or the initiator's name can't be allocated.
pub fn login_turn<P: Port + LoginObserver>(
    work: &mut LoginWork,
    alloc: Global,
    port: &mut P,
    header: &[u8; 48],
    carried: &[u8],
) -> Result<LoginResult, AllocError>
    requires unlogged { P.has_login port.old ≡ false }
    requires empty { work.old.out.items ≡ [] }
    ensures turn { IfOk result (λ ended. login.LoginTurn P.logins header.now carried.now
        (record { state = work.old.state; text = work.old.text.items }) port.old work.new.out.items
        (record { state = work.new.state; text = work.new.text.items }) port.new ended) }
    ensures once { login.MayLogIn P.logins port.old port.new }
    ensures unlogged { IfOk result (λ ended. ended ≡ LoginResult.Next → P.has_login port.new ≡ false) }
    ensures logged { IfOk result (λ ended. ended ≡ LoginResult.Entered → work.new.state.so_far.kind ≡ SessionKind.Normal
        → P.has_login port.new ≡ true) }
{
    let request = login_request(header);
    if header[0] % 64 == 0x03 {
        let step = step_in(&request, stage_in(work.state.stage, request.stage));
        request_turn(work, alloc, port, &request, carried, step)
    } else {
        refuse_login(work, &request, LoginStatus::InvalidDuringLogin)
    }
}

// The stage of a request: any at first, and then the one that the login is in.
fn stage_in(stage: Option<LoginStage>, code: u8) -> Option<LoginStage>
    ensures { result ≡ login.stage_in stage code }
{
    match stage {
        None => stage_of(code),
        Some(at) if stage_code(at) == code => Some(at),
        Some(_) => None,
    }
}

// Where a request leads, by its fields alone, or why it is refused.
fn step_in(
    request: &LoginRequest,
    at: Option<LoginStage>,
) -> Result<(LoginStage, LoginStep), LoginStatus>
    ensures { result ≡ login.step_in request.now at }
{
    let Some(at) = at else {
        return Err(LoginStatus::InitiatorError);
    };
    match step_of(request, at) {
        Ok(step) => Ok((at, step)),
        Err(status) => Err(status),
    }
}

// Does what a login request asks for, by where it leads.
fn request_turn<P: Port + LoginObserver>(
    work: &mut LoginWork,
    alloc: Global,
    port: &mut P,
    request: &LoginRequest,
    carried: &[u8],
    step: Result<(LoginStage, LoginStep), LoginStatus>,
) -> Result<LoginResult, AllocError>
    requires unlogged { P.has_login port.old ≡ false }
    requires empty { work.old.out.items ≡ [] }
    ensures turn { IfOk result (λ ended. login.RequestTurn P.logins request.now carried.now step
        (record { state = work.old.state; text = work.old.text.items }) port.old work.new.out.items
        (record { state = work.new.state; text = work.new.text.items }) port.new ended) }
    ensures once { login.MayLogIn P.logins port.old port.new }
    ensures unlogged { IfOk result (λ ended. ended ≡ LoginResult.Next → P.has_login port.new ≡ false) }
    ensures logged { IfOk result (λ ended. ended ≡ LoginResult.Entered → work.new.state.so_far.kind ≡ SessionKind.Normal
        → P.has_login port.new ≡ true) }
{
    match step {
        Ok((at, step)) => {
            if work.text.len().saturating_add(carried.len()) > MOST_TEXT {
                return refuse_login(work, request, LoginStatus::OutOfResources);
            }
            work.text.extend_from_slice(carried)?;
            take_text(work, alloc, port, request, at, step)
        }
        Err(status) => refuse_login(work, request, status),
    }
}

// Takes the text so far: if it goes on, it is kept.
fn take_text<P: Port + LoginObserver>(
    work: &mut LoginWork,
    alloc: Global,
    port: &mut P,
    request: &LoginRequest,
    at: LoginStage,
    step: LoginStep,
) -> Result<LoginResult, AllocError>
    requires unlogged { P.has_login port.old ≡ false }
    requires empty { work.old.out.items ≡ [] }
    ensures takes { IfOk result (λ ended. login.TakesText P.logins request.now at step work.old.text.items
        work.old.state port.old
        work.new.out.items (record { state = work.new.state; text = work.new.text.items }) port.new ended) }
    ensures once { login.MayLogIn P.logins port.old port.new }
    ensures unlogged { IfOk result (λ ended. ended ≡ LoginResult.Next → P.has_login port.new ≡ false) }
    ensures logged { IfOk result (λ ended. ended ≡ LoginResult.Entered → work.new.state.so_far.kind ≡ SessionKind.Normal
        → P.has_login port.new ≡ true) }
    ensures name { IfOk result (λ ended. work.new.name.items
        ≡ login.name_taken request.now work.old.name.items work.old.text.items) }
{
    if request.continues {
        let so_far = work.state.so_far;
        answer_login(work, request, at, None, 0, &[], so_far)?;
        return Ok(LoginResult::Next);
    }
    keep_name(&mut work.name, &work.text)?;
    let so_far = negotiated(work.state.so_far, &work.text);
    judge_text(
        work,
        alloc,
        port,
        request,
        at,
        step,
        so_far,
        judged(&so_far),
    )
}

// Answers a whole text, by what is wrong with what was negotiated.
#[tactic(auto, unfolding(crate::specs::LoginTurn::JudgesText))]
fn judge_text<P: Port + LoginObserver>(
    work: &mut LoginWork,
    alloc: Global,
    port: &mut P,
    request: &LoginRequest,
    at: LoginStage,
    step: LoginStep,
    so_far: Negotiation,
    status: LoginStatus,
) -> Result<LoginResult, AllocError>
    requires unlogged { P.has_login port.old ≡ false }
    requires empty { work.old.out.items ≡ [] }
    ensures judges { IfOk result (λ ended. login.JudgesText P.logins request.now at step work.old.text.items
        so_far work.old.state
        port.old work.new.out.items (record { state = work.new.state; text = work.new.text.items }) port.new
        ended status) }
    ensures once { login.MayLogIn P.logins port.old port.new }
    ensures unlogged { IfOk result (λ ended. ended ≡ LoginResult.Next → P.has_login port.new ≡ false) }
    ensures logged { IfOk result (λ ended. ended ≡ LoginResult.Entered → work.new.state.so_far.kind ≡ SessionKind.Normal
        → P.has_login port.new ≡ true) }
    ensures name { work.new.name.items ≡ work.old.name.items }
{
    if !is_success(status) {
        return refuse_login(work, request, status);
    }
    let mut answer = Vec::new(alloc);
    answer_text(&mut answer, so_far.limits.max_burst, &work.text)?;
    if answer.len() > MOST_TEXT {
        return refuse_login(work, request, LoginStatus::OutOfResources);
    }
    work.text.clear();
    take_step(work, port, request, at, step, &answer, so_far)
}

// Answers a request that is in order, and goes where it leads.
fn take_step<P: Port + LoginObserver>(
    work: &mut LoginWork,
    port: &mut P,
    request: &LoginRequest,
    at: LoginStage,
    step: LoginStep,
    segment: &[u8],
    so_far: Negotiation,
) -> Result<LoginResult, AllocError>
    requires unlogged { P.has_login port.old ≡ false }
    requires empty { work.old.out.items ≡ [] }
    requires no_text { work.old.text.items ≡ [] }
    requires short { length segment.now ≤ login.most_text }
    ensures steps { IfOk result (λ ended. login.StepsLogin P.logins request.now at step segment.now so_far
        work.old.state port.old
        work.new.out.items (record { state = work.new.state; text = work.new.text.items }) port.new ended) }
    ensures once { login.MayLogIn P.logins port.old port.new }
    ensures unlogged { IfOk result (λ ended. ended ≡ LoginResult.Next → P.has_login port.new ≡ false) }
    ensures logged { IfOk result (λ ended. ended ≡ LoginResult.Entered → work.new.state.so_far.kind ≡ SessionKind.Normal
        → P.has_login port.new ≡ true) }
    ensures name { work.new.name.items ≡ work.old.name.items }
{
    match step {
        LoginStep::Stays => {
            answer_login(work, request, at, None, 0, segment, so_far)?;
            Ok(LoginResult::Next)
        }
        LoginStep::Advances => {
            let next = Some(LoginStage::OperationalNegotiation);
            answer_login(work, request, at, next, 0, segment, so_far)?;
            Ok(LoginResult::Next)
        }
        LoginStep::Enters => enter_login(work, port, request, at, segment, so_far),
    }
}
