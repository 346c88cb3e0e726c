// Which answer a method and a path have, with its status code and its media type.
ghost use Rattle.std.specs.Prelude.{◌≡◌};
ghost use Rattle.http_header.specs.FieldValue.{plain_value};
ghost use Rattle.ar_status.specs.Answers.{answer_at, answer_for, code_of, media_type_of};
ghost use Rattle.ar_status.specs.Answers.{needs_inventory, needs_picture};

use crate::ArrayHealth;
use http::{HeaderValue, StatusCode};

/// What a request is answered with.
#[derive(Clone, Copy, Debug, PartialEq, Eq)]
pub enum Answer {
    /// `/`: the page.
    Page,
    /// `/picture.svg`: the picture of the array.
    Picture,
    /// `/metrics`: counters and gauges, for Prometheus.
    Metrics,
    /// `/status.json`: the status as data.
    Json,
    /// `/healthz`: 200 if the array has data, and otherwise 503.
    Serving,
    /// `/healthz/whole`: 200 if all disks are present, and otherwise 503.
    Health,
    /// There is nothing at the path: 404.
    NotFound,
    /// The method is neither GET nor HEAD: 405, whatever the path.
    NotAllowed,
    /// The request asks for another server: 421, whatever the method and the path.
    Misdirected,
}

/// Returns the answer to a method at a path. `is_ours` says whether the request asks for this server.
pub fn answer_to(is_ours: bool, method: &str, path: &str) -> Answer
    ensures { result ≡ answer_for is_ours method.now path.now }
{
    if !is_ours {
        return Answer::Misdirected;
    }
    match method {
        "GET" | "HEAD" => answer_at(path),
        _ => Answer::NotAllowed,
    }
}

// What is at a path.
fn answer_at(path: &str) -> Answer
    ensures { result ≡ answer_at path.now }
{
    match path {
        "/" => Answer::Page,
        "/picture.svg" => Answer::Picture,
        "/metrics" => Answer::Metrics,
        "/status.json" => Answer::Json,
        "/healthz" => Answer::Serving,
        "/healthz/whole" => Answer::Health,
        _ => Answer::NotFound,
    }
}

impl Answer {
    /// Returns the status code.
    pub fn code(self, health: ArrayHealth) -> StatusCode
        ensures { result ≡ code_of self health }
    {
        match self {
            Answer::Serving if !health.has_data() => StatusCode::SERVICE_UNAVAILABLE,
            Answer::Health if !health.is_whole() => StatusCode::SERVICE_UNAVAILABLE,
            Answer::NotFound => StatusCode::NOT_FOUND,
            Answer::NotAllowed => StatusCode::METHOD_NOT_ALLOWED,
            Answer::Misdirected => StatusCode::MISDIRECTED_REQUEST,
            _ => StatusCode::OK,
        }
    }

    /// Whether the picture has to be drawn for it.
    pub fn needs_picture(self) -> bool
        ensures { result ≡ needs_picture self }
    {
        matches!(self, Answer::Picture)
    }

    /// Whether the inventory has to be made for it.
    pub fn needs_inventory(self) -> bool
        ensures { result ≡ needs_inventory self }
    {
        matches!(self, Answer::Json)
    }

    /// Returns the media type.
    pub fn media_type(self) -> HeaderValue
        ensures { result ≡ plain_value (media_type_of self) }
    {
        match self {
            Answer::Page => HeaderValue::from_static("text/html; charset=utf-8"),
            Answer::Picture => HeaderValue::from_static("image/svg+xml"),
            Answer::Metrics => {
                HeaderValue::from_static("text/plain; version=0.0.4; charset=utf-8")
            }
            Answer::Json => HeaderValue::from_static("application/json"),
            _ => HeaderValue::from_static("text/plain; charset=utf-8"),
        }
    }
}
