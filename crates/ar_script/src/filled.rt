// The data of commands, each a repetition of one byte. They are kept, and shared with later commands: short data by
// their byte, of longer data the last.
ghost use Rattle.std.specs.Prelude.{◌≡◌, ◌<◌, IfOk, OnOk, OnErr, length, replicate};

use ar_language::Data;
use bytes::{Bytes, BytesMut};
use std::alloc::{AllocError, Global};
use std::mem;

/// The most bytes of short data, so that those of all byte values take at most 1 MiB.
const SHORT: u32 = 4_096;

/// The data of earlier commands. Of short data the longest of each byte value are kept, in a buffer of their own: a
/// script of small blocks has few lengths and many byte values, and an allocation for each command took a tenth of its
/// instructions.
#[derive(Drop)]
pub struct Filled {
    // By the byte value: empty before the first data.
    short: Vec<Repeated>,
    long: Repeated,
}

/// Bytes that are all the same.
#[derive(Drop)]
struct Repeated {
    bytes: Bytes,
    byte: u8,
    ghost same: { bytes ≡ replicate (length bytes) byte },
}

impl Filled {
    /// No data yet.
    pub fn new(alloc: Global) -> Filled {
        Filled {
            short: Vec::new(alloc),
            long: Repeated::new(),
        }
    }

    /// The data of a command, which it shares with others. Zero bytes allocate nothing.
    pub fn with(&mut self, alloc: Global, data: Data) -> Result<Bytes, AllocError>
        ensures bytes { IfOk result (λ bytes. bytes ≡ replicate «data».len «data».byte) }
        ensures some { OnErr result (0 < «data».len) }
    {
        if data.len == 0 {
            return Ok(Bytes::new());
        }
        if self.short.is_empty() {
            self.short = no_data(alloc)?;
        }
        match self.short.get_mut(usize::from(data.byte)) {
            Some(kept) if data.len <= SHORT => kept.with(alloc, data),
            _ => self.long.with(alloc, data),
        }
    }
}

// No data of any byte value.
fn no_data(alloc: Global) -> Result<Vec<Repeated>, AllocError> {
    let mut none = Vec::with_capacity(alloc, 256)?;
    for _ in 0..256 {
        none.push(Repeated::new())?;
    }
    Ok(none)
}

impl Repeated {
    fn new() -> Repeated {
        Repeated {
            bytes: Bytes::new(),
            byte: 0,
        }
    }

    // Data as a part of these bytes, which are replaced if their byte is another or they are fewer.
    fn with(&mut self, alloc: Global, data: Data) -> Result<Bytes, AllocError>
        ensures { IfOk result (λ bytes. bytes ≡ replicate «data».len «data».byte) }
    {
        let len = data.len as usize;
        if self.byte != data.byte || self.bytes.len() < len {
            self.fill(alloc, data)?;
        }
        self.bytes.slice(0..len)
    }

    // Replaces the bytes by these data, in the same buffer if nothing else holds it.
    fn fill(&mut self, alloc: Global, data: Data) -> Result<(), AllocError>
        ensures bytes { OnOk result (self.new.bytes ≡ replicate «data».len «data».byte) }
        ensures byte { OnOk result (self.new.byte ≡ «data».byte) }
    {
        let last = mem::replace(&mut self.bytes, Bytes::new());
        let mut bytes = match last.reclaim() {
            Some(bytes) => bytes,
            None => BytesMut::new(alloc),
        };
        bytes.clear();
        bytes.resize(data.len as usize, data.byte)?;
        self.bytes = bytes.freeze()?;
        self.byte = data.byte;
        Ok(())
    }
}
