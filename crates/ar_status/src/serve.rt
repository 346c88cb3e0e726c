// A connection: one request is read and answered. The kit's `http_server` reads and writes HTTP, within these limits.
ghost use Rattle.std.specs.Prelude.{◌≡◌, ℕ, Bool, List, None, IfOk, OnOk, option_map};
ghost use Rattle.http.specs.Request.{head_of};
ghost use Rattle.ar_status.specs.Hosts.{host_in};
ghost use Rattle.ar_status.specs.Serving.{RespondsByLook, ServesConnection};

use crate::{Look, answer_to, asks_us, respond};
use bytes::Bytes;
use http::Request;
use http_server::{Config, Connection, Response, Service, serve};
use http1::Limits;
use std::alloc::{AllocError, Global};
use std::hash::RandomState;
use std::io;
use std::io::{Read, Write};

/// Bytes that the head of a request has at most: its request line and its fields. A request line that is longer is
/// answered with 414, and fields that are with 431.
pub const HEAD_MAX: usize = 8 * 1024;

/// The limits of a connection. No request has a body.
const CONFIG: Config = Config {
    limits: Limits {
        max_head_len: HEAD_MAX,
        max_extensions_len: 0,
        max_trailers_len: 2,
    },
    max_body_len: 0,
    max_pending: 64 * 1024,
    read_size: 1024,
};

/// A served array, as it may be watched.
pub trait Watched {
    ghost use Rattle.ar_status.specs.declared.status.ArrayStatus.{ArrayStatus};

    /// What a look may show: the array, whether its picture is drawn, its status, its picture.
    ghost shows: { Self → Bool → ArrayStatus → List ℕ → Type 0 };

    /// Looks at the array. Its picture is drawn if `draws` is set, and otherwise left empty; its inventory is made if
    /// `lists` is. It fails only when out of memory.
    fn look(&self, alloc: Global, draws: bool, lists: bool) -> Result<Look, AllocError>
        ensures { IfOk result (λ look. shows self.now draws look.status look.picture.items) };
}

// Answers requests by looks at an array, each once its request has come whole.
#[derive(Drop)]
struct Watcher<'a, V: Watched> {
    alloc: Global,
    watched: &'a V,
    // A name by which clients may ask for the server, beside those of 127.0.0.1.
    name: Option<&'a str>,
}

impl<V: Watched> Service for Watcher<'_, V> {
    ghost answers = { λ old request response new.
        RespondsByLook V.shows old.watched.now (option_map (λ name. name.now) old.name) request response
        × (new ≡ old) };

    fn call(
        &mut self,
        request: &Request<Bytes>,
        response: &mut Response,
    ) -> Result<(), AllocError> {
        let is_ours = asks_us(self.name, host_of(request));
        let (method, path) = (request.method().as_str(), request.uri().path());
        let answer = answer_to(is_ours, method, path);
        let (draws, lists) = (answer.needs_picture(), answer.needs_inventory());
        let look = self.watched.look(self.alloc, draws, lists)?;
        respond(self.alloc, is_ours, method, path, look, response)
    }
}

// A request's Host field.
fn host_of(request: &Request<Bytes>) -> Option<&[u8]>
    ensures { option_map (λ host. host.now) result ≡ host_in (head_of request.now) }
{
    match request.headers().get("host") {
        Some(value) => Some(value.as_bytes()),
        None => None,
    }
}

/// Reads the request of a connection, and answers it by a look at the array. One that isn't HTTP, has a head of more
/// than `HEAD_MAX` bytes, or a body, is answered with a status that says so; out of memory, it isn't answered. Clients
/// may ask for the server by the names of 127.0.0.1, and by `name`. The keys are those of the maps of header fields,
/// whose names the peer chooses. If it fails, a read or a write has failed.
pub fn serve_named<V: Watched, R: Read, W: Write>(
    alloc: Global,
    keys: RandomState,
    name: Option<&str>,
    watched: &V,
    reader: &mut R,
    writer: &mut W,
) -> io::Result<()>
    ensures { OnOk result (ServesConnection V.shows watched.now (option_map (λ name. name.now) name.entry)
        (R.remaining reader.old) (R.remaining reader.new) (W.contents writer.old) (W.contents writer.new)) }
{
    let mut service = Watcher {
        alloc,
        watched,
        name,
    };
    let mut connection = Connection::new(alloc, keys, CONFIG);
    serve(&mut connection, &mut service, reader, writer)
}

/// Serves a connection as `serve_named` does, by the names of 127.0.0.1 alone.
pub fn serve_connection<V: Watched, R: Read, W: Write>(
    alloc: Global,
    keys: RandomState,
    watched: &V,
    reader: &mut R,
    writer: &mut W,
) -> io::Result<()>
    ensures { OnOk result (ServesConnection V.shows watched.now None
        (R.remaining reader.old) (R.remaining reader.new) (W.contents writer.old) (W.contents writer.new)) }
{
    serve_named(alloc, keys, None, watched, reader, writer)
}
