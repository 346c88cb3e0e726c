// The length of a run of equal bytes. A long run is compared in chunks, which the compiler can do many bytes at a time.
ghost use Rattle.std.specs.Prelude.{◌≡◌, ◌≢◌, ◌<◌, ◌≤◌, ◌↔◌, ℕ, length, slice_index, EachIndex, IsTrue};

/// The number of bytes that are compared one by one before whole chunks are.
const NEAR: usize = 8;

/// Bytes of a chunk.
const CHUNK: usize = 256;

/// The length of the run of equal bytes at the front.
pub fn run_len(bytes: &[u8]) -> usize
    requires { 0 < length bytes.now }
    ensures some { 0 < result }
    ensures few { result ≤ length bytes.now }
    ensures equal { (k : ℕ) → k < result → slice_index bytes.now k ≡ slice_index bytes.now 0 }
    ensures longest { result < length bytes.now → slice_index bytes.now result ≢ slice_index bytes.now 0 }
{
    let first = bytes[0];
    let near = bytes.len().min(NEAR);
    let equal = count_of(&bytes[..near], first);
    if equal < near {
        return equal;
    }
    far_len(bytes, first)
}

// The number of `byte`s at the front, of which there may be many: whole chunks while all of a chunk is equal, then one
// by one.
fn far_len(bytes: &[u8], byte: u8) -> usize
    ensures few { result ≤ length bytes.now }
    ensures equal { (k : ℕ) → k < result → slice_index bytes.now k ≡ byte }
    ensures longest { result < length bytes.now → slice_index bytes.now result ≢ byte }
{
    let mut equal = 0;
    while bytes.len() - equal >= CHUNK && is_all_of(&bytes[equal..equal + CHUNK], byte) {
        equal += CHUNK;
    }
    equal + count_of(&bytes[equal..], byte)
}

// Whether all bytes are `byte`. There is no early exit, so that they are compared many at a time.
fn is_all_of(bytes: &[u8], byte: u8) -> bool
    ensures { IsTrue result ↔ EachIndex bytes.now (λ k. slice_index bytes.now k ≡ byte) }
{
    let mut same = true;
    for other in bytes {
        same &= *other == byte;
    }
    same
}

// The number of `byte`s at the front.
fn count_of(bytes: &[u8], byte: u8) -> usize
    ensures few { result ≤ length bytes.now }
    ensures equal { (k : ℕ) → k < result → slice_index bytes.now k ≡ byte }
    ensures longest { result < length bytes.now → slice_index bytes.now result ≢ byte }
{
    for (place, other) in bytes.iter().enumerate() {
        if *other != byte {
            return place;
        }
    }
    bytes.len()
}
