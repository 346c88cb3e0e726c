// From a request's method and path, and a look at the array, to a response.
ghost use Rattle.std.specs.Prelude.{◌≡◌, [], ◌++◌, IfOk, OnOk};
ghost use Rattle.http_server.specs.Response.{IsBlank, fields_of};
ghost use Rattle.ar_status.specs.Answers.{IsBodyOf, answer_for, code_of, fields_in, health_words, serving_words};

use crate::status::write_health;
use crate::{Answer, ArrayHealth, ArrayInventory, ArrayStatus, PAGE, answer_to, write_metrics};
use ar_cli::VERSION;
use ar_latency::LATENCY_BOUNDS;
use bytes::Bytes;
use http::{HeaderName, HeaderValue};
use http_server::Response;
use serde::Serialize;
use std::alloc::{AllocError, Global};

// What is sent as JSON: the status with the inventory, and what doesn't change.
#[derive(Drop, Serialize)]
struct Document {
    version: &'static str,
    // Of the buckets in which commands are counted by their time.
    latency_bounds_micros: [u64; 11],
    #[serde(flatten)]
    status: ArrayStatus,
    inventory: Option<ArrayInventory>,
}

/// A served array, as it was at one moment.
#[derive(Drop)]
pub struct Look {
    pub status: ArrayStatus,
    /// The picture as an SVG; empty if none was asked for.
    pub picture: Vec<u8>,
    /// None: it wasn't asked for.
    pub inventory: Option<ArrayInventory>,
}

/// Fills the response to a method at a path; `is_ours` says whether the request asks for this server. HEAD has the
/// response of GET: the connection leaves its body out. It fails only when out of memory.
pub fn respond(
    alloc: Global,
    is_ours: bool,
    method: &str,
    path: &str,
    look: Look,
    response: &mut Response,
) -> Result<(), AllocError>
    requires blank { IsBlank response.old }
    ensures code { OnOk result
        (response.new.status ≡ code_of (answer_for is_ours method.now path.now) look.status.health) }
    ensures fields { OnOk result (fields_of response.new ≡ fields_in (answer_for is_ours method.now path.now)) }
    ensures body { OnOk result
        (IsBodyOf (answer_for is_ours method.now path.now) look.status look.picture.items response.new.body.items) }
{
    let answer = answer_to(is_ours, method, path);
    response.status = answer.code(look.status.health);
    add_fields(response, answer)?;
    let body = body_of(alloc, answer, look)?;
    response.body.push(body)
}

// Adds the header fields.
fn add_fields(response: &mut Response, answer: Answer) -> Result<(), AllocError>
    requires { fields_of response.old ≡ [] }
    ensures fields { OnOk result (fields_of response.new ≡ fields_in answer) }
    ensures code { response.new.status ≡ response.old.status }
    ensures body { response.new.body ≡ response.old.body }
{
    response.add_header(HeaderName::from_static("content-type"), answer.media_type())?;
    response.add_header(
        HeaderName::from_static("cache-control"),
        HeaderValue::from_static("no-store"),
    )?;
    response.add_header(
        HeaderName::from_static("connection"),
        HeaderValue::from_static("close"),
    )?;
    response.add_header(
        HeaderName::from_static("x-content-type-options"),
        HeaderValue::from_static("nosniff"),
    )?;
    response.add_header(
        HeaderName::from_static("content-security-policy"),
        HeaderValue::from_static("frame-ancestors 'none'"),
    )?;
    response.add_header(
        HeaderName::from_static("cross-origin-resource-policy"),
        HeaderValue::from_static("same-origin"),
    )?;
    match answer {
        Answer::NotAllowed => response.add_header(
            HeaderName::from_static("allow"),
            HeaderValue::from_static("GET, HEAD"),
        ),
        _ => Ok(()),
    }
}

// The body.
fn body_of(alloc: Global, answer: Answer, look: Look) -> Result<Bytes, AllocError>
    ensures { IfOk result (λ body. IsBodyOf answer look.status look.picture.items body) }
{
    match answer {
        Answer::Page => Ok(Bytes::from_static(PAGE.as_bytes())),
        Answer::Picture => shared(look.picture),
        Answer::Metrics => metrics_of(alloc, &look.status),
        Answer::Json => json_of(alloc, look.status, look.inventory),
        Answer::Serving => Ok(Bytes::from_static(serving_words(look.status.health))),
        Answer::Health => health_of(alloc, look.status.health),
        Answer::NotFound => Ok(Bytes::from_static(b"not found\n")),
        Answer::NotAllowed => Ok(Bytes::from_static(b"method not allowed\n")),
        Answer::Misdirected => Ok(Bytes::from_static(b"misdirected request\n")),
    }
}

fn metrics_of(alloc: Global, status: &ArrayStatus) -> Result<Bytes, AllocError> {
    let mut text = Vec::new(alloc);
    write_metrics(&mut text, status).map_err(|_| AllocError)?;
    shared(text)
}

fn json_of(
    alloc: Global,
    status: ArrayStatus,
    inventory: Option<ArrayInventory>,
) -> Result<Bytes, AllocError> {
    let document = Document {
        version: VERSION,
        latency_bounds_micros: LATENCY_BOUNDS,
        status,
        inventory,
    };
    shared(serde_json::to_vec(alloc, &document).map_err(|_| AllocError)?)
}

fn health_of(alloc: Global, health: ArrayHealth) -> Result<Bytes, AllocError>
    ensures { IfOk result (λ body. body ≡ health_words health) }
{
    let mut text = Vec::new(alloc);
    write_health(&mut text, health).map_err(|_| AllocError)?;
    shared(text)
}

// Whether the array serves, as a line.
fn serving_words(health: ArrayHealth) -> &'static [u8]
    ensures { result.now ≡ serving_words health }
{
    match health {
        ArrayHealth::Broken => b"broken\n",
        _ => b"serves\n",
    }
}

// A text as bytes that are sent from where they are.
fn shared(text: Vec<u8>) -> Result<Bytes, AllocError>
    ensures { IfOk result (λ bytes. bytes ≡ text.items) }
{
    Bytes::from_vec(text).map_err(|_| AllocError)
}
