// By which names a client may ask for the server. A page of another site reaches 127.0.0.1 by a name of its own that it
// has resolved to that address; the Host field then has that name.
ghost use Rattle.std.specs.Prelude.{◌≡◌, bytes_eq, map, option_map};
ghost use Rattle.std.specs.Char.{is_ascii_digit, to_ascii_lowercase};
ghost use Rattle.std.specs.List.{list_all};
ghost use Rattle.ar_status.specs.Hosts.{asks_us, names_given, names_us, is_ours, is_port};

/// Returns whether a request with this Host field asks for the server: by a name of 127.0.0.1, or the name that is
/// given. A request without the field, as HTTP/1.0 allows it, does.
pub fn asks_us(name: Option<&str>, host: Option<&[u8]>) -> bool
    ensures { result ≡ asks_us (option_map (λ name. name.now) name.entry) (option_map (λ host. host.now) host.entry) }
{
    match host {
        Some(host) => is_ours(name, host),
        None => true,
    }
}

fn is_ours(name: Option<&str>, host: &[u8]) -> bool
    ensures { result ≡ is_ours (option_map (λ name. name.now) name.entry) host.now }
{
    names_us(host, b"127.0.0.1")
        || names_us(host, b"localhost")
        || names_us(host, b"[::1]")
        || names_given(name, host)
}

fn names_given(name: Option<&str>, host: &[u8]) -> bool
    ensures { result ≡ names_given host.now (option_map (λ name. name.now) name.entry) }
{
    match name {
        Some(name) => names_us(host, name.as_bytes()),
        None => false,
    }
}

// Whether a Host field is a name, with or without a port.
fn names_us(host: &[u8], name: &[u8]) -> bool
    ensures { result ≡ names_us host.now name.now }
{
    if host.len() < name.len() {
        return false;
    }
    let (front, rest) = host.split_at(name.len());
    is_alike(front, name) && is_port(rest)
}

// Whether two texts differ at most in the case of letters.
fn is_alike(left: &[u8], right: &[u8]) -> bool
    ensures { result ≡ bytes_eq (map to_ascii_lowercase left.now) (map to_ascii_lowercase right.now) }
{
    left.eq_ignore_ascii_case(right)
}

fn is_port(rest: &[u8]) -> bool
    ensures { result ≡ is_port rest.now }
{
    match rest.split_first() {
        Some((first, digits)) => *first == b':' && are_digits(digits),
        None => true,
    }
}

fn are_digits(bytes: &[u8]) -> bool
    ensures { result ≡ list_all is_ascii_digit bytes.now }
{
    bytes.iter().all(u8::is_ascii_digit)
}
