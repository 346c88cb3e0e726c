// The name of an array. It has a fixed size, and is copied under a lock without an allocation.
ghost use Rattle.std.specs.Prelude.{◌≡◌, ◌≤◌, length};

use serde::{Described, Serialize, Serializer};
use std::str;

/// The most bytes of a name.
pub const NAME_MAX: usize = 64;

/// The name of an array: at most 64 bytes of text. It may be empty.
#[derive(Clone, Copy)]
pub struct ArrayName {
    // The first `len` are the name.
    bytes: [u8; NAME_MAX],
    len: usize,
    ghost within: { len ≤ 64 },
    ghost places: { length bytes ≡ 64 },
}

impl ArrayName {
    /// No name.
    pub const NONE: ArrayName = ArrayName {
        bytes: [0; NAME_MAX],
        len: 0,
    };

    /// The name of these bytes. What is longer, or no text, is none.
    pub fn of(name: &[u8]) -> ArrayName {
        let mut bytes = [0; NAME_MAX];
        match bytes.get_mut(..name.len()) {
            Some(front) => front.copy_from_slice(name),
            None => return ArrayName::NONE,
        }
        ArrayName {
            bytes,
            len: name.len(),
        }
    }

    /// Returns it as a text.
    pub fn as_str(&self) -> &str {
        str::from_utf8(&self.bytes[..self.len]).unwrap_or("")
    }
}

impl Described for ArrayName {}

impl Serialize for ArrayName {
    fn serialize<S: Serializer>(&self, out: &mut S) -> Result<(), S::Error> {
        self.as_str().serialize(out)
    }
}
