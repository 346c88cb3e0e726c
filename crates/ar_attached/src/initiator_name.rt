// The names of initiators.
ghost use Rattle.std.specs.Prelude.{◌≡◌, ◌≤◌, length, map, take};
ghost use Rattle.ar_attached.specs.Names.{shown_byte};

/// The most bytes of an initiator's name (RFC 7143, 4.2.7.1).
const MOST_NAME: usize = 223;

/// The name of an initiator, of which the first 223 bytes count. It is shown in ASCII alone.
#[derive(Clone, Copy)]
pub struct InitiatorName {
    // The first `count` are the name.
    bytes: [u8; MOST_NAME],
    count: usize,
    ghost within: { count ≤ 223 },
    ghost places: { length bytes ≡ 223 },
}

impl InitiatorName {
    /// A name from its bytes. One that is too long is cut.
    pub fn new(name: &[u8]) -> InitiatorName
        ensures { take result.count result.bytes ≡ take 223 name.now }
    {
        let count = MOST_NAME.min(name.len());
        InitiatorName {
            bytes: front_of(name, count),
            count,
        }
    }

    /// The name as it is shown: what isn't printable becomes a question mark.
    pub fn shown(self) -> InitiatorName
        ensures { take result.count result.bytes ≡ map shown_byte (take self.count self.bytes) }
    {
        let mut bytes = self.bytes;
        show(&mut bytes);
        InitiatorName {
            bytes,
            count: self.count,
        }
    }

    /// Its bytes.
    pub fn as_slice(&self) -> &[u8]
        ensures { result.now ≡ take self.now.count self.now.bytes }
    {
        &self.bytes[..self.count]
    }
}

// The first `count` bytes of a name, and zeros.
fn front_of(name: &[u8], count: usize) -> [u8; MOST_NAME]
    requires { (count ≤ 223) × (count ≤ length name.now) }
    ensures { take count result ≡ take count name.now }
{
    let mut bytes = [0; MOST_NAME];
    bytes[..count].copy_from_slice(&name[..count]);
    bytes
}

fn show(bytes: &mut [u8; MOST_NAME])
    ensures { bytes.new ≡ map shown_byte bytes.old }
{
    for at in 0..MOST_NAME {
        bytes[at] = shown_byte(bytes[at]);
    }
}

fn shown_byte(byte: u8) -> u8
    ensures { result ≡ shown_byte byte }
{
    if byte > b' ' && byte < 0x7F {
        byte
    } else {
        b'?'
    }
}
