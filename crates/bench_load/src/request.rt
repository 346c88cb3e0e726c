// What a host asks again and again.
ghost use Rattle.std.specs.Prelude.{◌≡◌, ◌+◌, ◌*◌, ◌≤◌, IfOk, vec_len};

use crate::failure::Failure;
use ar_frames::{MemSink, MemSource, ask};
use std::alloc::Global;

/// How many places of its unit a host asks for in turn, from the first sector on.
const PLACES: u32 = 16;

/// The bytes of a request frame beside its data.
const REQUEST_HEAD: usize = 29;

/// The bytes of a reply frame beside its data.
const REPLY_HEAD: usize = 14;

/// What a host asks for.
#[derive(Clone, Copy)]
pub enum Kind {
    Read,
    Overwrite,
}

impl Kind {
    pub const ALL: [Kind; 2] = [Kind::Read, Kind::Overwrite];

    pub fn name(self) -> &'static str {
        match self {
            Kind::Read => "read",
            Kind::Overwrite => "overwrite",
        }
    }

    // The operation code: READ (10) or WRITE (10).
    fn code(self) -> u8 {
        match self {
            Kind::Read => 0x28,
            Kind::Overwrite => 0x2A,
        }
    }
}

/// Requests of a kind, each of the same number of sectors.
#[derive(Clone, Copy)]
pub struct Shape {
    pub kind: Kind,
    pub sectors: u16,
}

impl Shape {
    /// The bytes of data that a request moves.
    pub fn bytes(self) -> usize
        ensures { result ≡ self.sectors * 512 }
    {
        usize::from(self.sectors) * 512
    }

    /// The bytes of a request frame.
    pub fn request_len(self) -> usize {
        REQUEST_HEAD + self.sent()
    }

    /// The bytes of the reply frame.
    pub fn reply_len(self) -> usize {
        match self.kind {
            Kind::Read => REPLY_HEAD + self.bytes(),
            Kind::Overwrite => REPLY_HEAD,
        }
    }

    /// The request frames of all places, in their order.
    pub fn requests(self, alloc: Global) -> Result<Vec<Vec<u8>>, Failure> {
        let mut requests = Vec::new(alloc);
        for place in 0..PLACES {
            let request = self.request(alloc, place)?;
            requests.push(request).map_err(|_| Failure::NoMemory)?;
        }
        Ok(requests)
    }

    // The request frame of a place: what a client writes that nobody answers.
    fn request(self, alloc: Global, place: u32) -> Result<Vec<u8>, Failure> {
        let mut writer = MemSink::new(zeros(alloc, self.request_len())?);
        self.write_request(alloc, &mut writer, place)?;
        Ok(writer.into_bytes())
    }

    fn write_request(self, alloc: Global, writer: &mut MemSink, place: u32) -> Result<(), Failure> {
        let payload = zeros(alloc, self.sent())?;
        let mut reader = MemSource::new(Vec::new(alloc));
        let (tag, cdb) = (u64::from(place), self.command_block(place));
        let _unanswered = ask(alloc, &mut reader, writer, tag, 0, &cdb, &payload);
        Ok(())
    }

    // The command block of a place: the operation code, where the sectors begin, and how many there are.
    fn command_block(self, place: u32) -> [u8; 16] {
        let lba = place.saturating_mul(u32::from(self.sectors));
        let [a, b, c, d] = lba.to_be_bytes();
        let [high, low] = self.sectors.to_be_bytes();
        let code = self.kind.code();
        [code, 0, a, b, c, d, 0, high, low, 0, 0, 0, 0, 0, 0, 0]
    }

    // The bytes of data that come with a request.
    fn sent(self) -> usize
        ensures { result ≤ self.sectors * 512 }
    {
        match self.kind {
            Kind::Read => 0,
            Kind::Overwrite => self.bytes(),
        }
    }
}

/// A buffer of this length, all zeros.
pub fn zeros(alloc: Global, len: usize) -> Result<Vec<u8>, Failure>
    ensures { IfOk result (λ bytes. vec_len bytes ≡ len) }
{
    vec![in alloc; 0; len].map_err(|_| Failure::NoMemory)
}
