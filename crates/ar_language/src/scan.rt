// Scans of a reader's bytes: printable characters and line feeds. Many bytes are tested without a branch between them,
// so that the compiler can test them together.
ghost use Rattle.std.specs.Prelude.{◌≡◌, ◌≤◌, ◌==◌, length, count_by};
ghost use Rattle.std.specs.List.{list_all, prefix_len};
ghost use Rattle.ar_language.specs.Lines.{is_printable};

/// The bytes that are tested together for printable characters. Most lines are short.
const NEAR: usize = 8;

/// The bytes of which a byte can count the line feeds.
const FAR: usize = 255;

/// Whether lines may have a byte: space to `~`.
pub fn is_printable(byte: u8) -> bool
    ensures { result ≡ is_printable byte }
{
    byte >= b' ' && byte <= b'~'
}

/// The number of printable characters at the front.
pub fn printable_len(bytes: &[u8]) -> usize
    ensures { result ≡ prefix_len is_printable bytes.now }
{
    let mut len = 0;
    while bytes.len() - len >= NEAR && are_printable(&bytes[len..len + NEAR]) {
        len += NEAR;
    }
    len + near_len(&bytes[len..])
}

// Whether all bytes are printable.
fn are_printable(bytes: &[u8]) -> bool
    ensures { result ≡ list_all is_printable bytes.now }
{
    let mut all = true;
    for byte in bytes {
        all &= is_printable(*byte);
    }
    all
}

// The number of printable characters at the front, tested one by one.
fn near_len(bytes: &[u8]) -> usize
    ensures { result ≡ prefix_len is_printable bytes.now }
{
    bytes
        .iter()
        .position(|byte| !is_printable(*byte))
        .unwrap_or(bytes.len())
}

/// The number of line feeds.
pub fn line_feeds(bytes: &[u8]) -> usize
    ensures { result ≡ count_by (λ byte. byte == 10) bytes.now }
{
    let mut at = 0;
    let mut count = 0;
    while bytes.len() - at >= FAR {
        count += usize::from(few_line_feeds(&bytes[at..at + FAR]));
        at += FAR;
    }
    count + usize::from(few_line_feeds(&bytes[at..]))
}

// The same for so few bytes that a byte can count them.
fn few_line_feeds(bytes: &[u8]) -> u8
    requires { length bytes.now ≤ 255 }
    ensures { result ≡ count_by (λ byte. byte == 10) bytes.now }
{
    let mut count = 0;
    for byte in bytes {
        count += u8::from(*byte == b'\n');
    }
    count
}
