// Digests of headers and data (RFC 7143, 13.1): CRC32C by a table of 256 words, with a look-up for each byte.
//
//     | header | additional segments | header digest | data segment | padding | data digest |
ghost use Rattle.std.specs.Prelude.{◌≡◌, ◌<◌, ◌/◌, ◌+◌, ◌++◌, ℕ, suc, IfNone, IfOk, IfSome, OnOk};
ghost use Rattle.std.specs.Prelude.{IsFalse, IsTrue};
ghost use Rattle.std.specs.Prelude.{length, slice_index, take};
ghost use Rattle.ar_frames.specs.Stream.{Sending};
ghost use Rattle.ar_iscsi.specs.Digest as digest;

use crate::request::segment_len;
use ar_frames::{Sent, Sink, send};
use std::alloc::{AllocError, Global};

/// The digests that the PDUs of a full feature phase carry.
#[derive(Clone, Copy, Debug, PartialEq, Eq)]
pub struct Digests {
    pub header: bool,
    pub segment: bool,
}

impl Digests {
    /// Whether there are none.
    pub fn is_plain(self) -> bool
        ensures { result ≡ digest.is_plain self }
    {
        !self.header && !self.segment
    }
}

// The polynomial 1EDC6F41h, reversed, without its highest power.
const POLYNOMIAL: u32 = 0x82F6_3B78;

/// The remainder of each byte.
#[derive(Drop)]
pub struct CrcTable {
    words: [u32; 256],
    ghost are: { (i : ℕ) → i < 256 → slice_index words i ≡ digest.after_bits 8 i },
}

// The remainder after one more bit, which is 0.
fn after_bit(x: u32) -> u32
    ensures { result ≡ digest.after_bit x }
{
    (x / 2) ^ (x % 2 * POLYNOMIAL)
}

// The remainder of a byte.
fn after_eight(x: u32) -> u32
    ensures { result ≡ digest.after_bits 8 x }
{
    let two = after_bit(after_bit(x));
    let four = after_bit(after_bit(two));
    let six = after_bit(after_bit(four));
    after_bit(after_bit(six))
}

impl CrcTable {
    /// Computes the table.
    pub fn new() -> CrcTable {
        let mut words = [0; 256];
        for i in 0..256 {
            words[i] = after_eight(i as u32);
        }
        CrcTable { words }
    }

    // The remainder after more bytes.
    fn after_bytes(&self, start: u32, bytes: &[u8]) -> u32
        ensures { result ≡ digest.after_bytes start bytes.now }
    {
        let mut x = start;
        for byte in bytes {
            x = self.after_byte(x, *byte);
        }
        x
    }

    // The remainder after one more byte.
    fn after_byte(&self, x: u32, byte: u8) -> u32
        ensures { result ≡ digest.after_byte x byte }
    {
        self.words[((x ^ u32::from(byte)) % 256) as usize] ^ (x / 256)
    }

    /// The digest of bytes in two pieces.
    #[tactic(auto, using(crate::proofs::Remainders::after_both))]
    pub fn digest(&self, first: &[u8], second: &[u8]) -> [u8; 4]
        ensures { result ≡ digest.digest_bytes (first.now ++ second.now) }
    {
        let x = self.after_bytes(self.after_bytes(0xFFFF_FFFF, first), second);
        (x ^ 0xFFFF_FFFF).to_le_bytes()
    }

    // Appends a header or data, with a digest if it is wanted.
    fn put_closed(
        &self,
        out: &mut Vec<u8>,
        is_wanted: bool,
        covered: &[u8],
    ) -> Result<(), AllocError>
        ensures { OnOk result (out.new.items ≡ out.old.items ++ digest.closed is_wanted covered.now) }
    {
        out.extend_from_slice(covered)?;
        if is_wanted {
            out.extend_from_slice(&self.digest(&[], covered))
        } else {
            Ok(())
        }
    }

    // Appends a header and a data segment with its padding, with digests.
    fn put_both(
        &self,
        out: &mut Vec<u8>,
        digests: Digests,
        header: &[u8],
        body: &[u8],
    ) -> Result<(), AllocError>
        ensures { OnOk result (out.new.items ≡ out.old.items ++ digest.both_closed digests header.now body.now) }
    {
        self.put_closed(out, digests.header, header)?;
        self.put_closed(out, closes_data(digests, body), body)
    }

    // Appends the first of a target's PDUs with digests, if there is one, and returns what is behind it.
    fn put_first<'a>(
        &self,
        out: &mut Vec<u8>,
        digests: Digests,
        pdus: &'a [u8],
    ) -> Result<&'a [u8], AllocError>
        ensures { IfOk result (λ rest. (most : ℕ) → out.new.items ++ digest.digested_by digests most rest.now
            ≡ out.old.items ++ digest.digested_by digests (suc most) pdus.now) }
    {
        let Some((header, behind)) = pdus.split_first_chunk::<48>() else {
            return Ok(pdus);
        };
        let len = segment_len(header) as usize;
        let (body, rest) = behind.split_at((len + (4 - len % 4) % 4).min(behind.len()));
        self.put_both(out, digests, header, body)?;
        Ok(rest)
    }

    /// A target's PDUs with digests.
    pub fn digested(
        &self,
        alloc: Global,
        digests: Digests,
        pdus: &[u8],
    ) -> Result<Vec<u8>, AllocError>
        ensures { IfOk result (λ all. all.items ≡ digest.digested_by digests (length pdus.now / 48) pdus.now) }
    {
        let mut all = Vec::new(alloc);
        let mut rest = pdus;
        for _ in 0..pdus.len() / 48 {
            rest = self.put_first(&mut all, digests, rest)?;
        }
        all.extend_from_slice(rest)?;
        Ok(all)
    }

    /// Sends a target's PDUs with these digests. None: memory for them ran out, and nothing was written.
    pub(crate) fn send<W: Sink>(
        &self,
        alloc: Global,
        writer: &mut W,
        digests: Digests,
        pdus: &[u8],
    ) -> Option<Sent>
        ensures sent { IfSome result (λ sent. Sending (W.state writer.old) (W.state writer.new)
            (digest.sent_by digests pdus.now) sent) }
        ensures same { IfNone result (W.state writer.new ≡ W.state writer.old) }
    {
        if digests.is_plain() {
            return Some(send(writer, pdus));
        }
        match self.digested(alloc, digests, pdus) {
            Ok(all) => Some(send(writer, &all)),
            Err(_) => None,
        }
    }

    /// Whether a piece after `first` ends in the digest of both, if one is wanted; `covered` bytes are before it.
    pub fn is_right(&self, is_wanted: bool, first: &[u8], piece: &[u8], covered: usize) -> bool
        requires { length piece.now ≡ covered + digest.digest_len is_wanted }
        ensures right { IsTrue result → first.now ++ piece.now
            ≡ digest.closed is_wanted (first.now ++ take covered piece.now) }
        ensures size { length piece.now ≡ covered + digest.digest_len is_wanted }
        ensures wrong { IsFalse result → digest.EndsWrong is_wanted first.now piece.now covered }
    {
        if !is_wanted {
            return true;
        }
        let (front, last) = piece.split_at(covered);
        self.digest(first, front).as_slice() == last
    }
}

/// Whether a data segment has a digest.
pub(crate) fn closes_data(digests: Digests, body: &[u8]) -> bool
    ensures { result ≡ digest.closes_data digests body.now }
{
    digests.segment && !body.is_empty()
}

/// The length of a digest, if it is wanted.
pub(crate) fn digest_len(is_wanted: bool) -> usize
    ensures { result ≡ digest.digest_len is_wanted }
{
    if is_wanted { 4 } else { 0 }
}
