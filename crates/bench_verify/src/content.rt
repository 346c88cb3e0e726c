// What a sector holds. Its first eight bytes say which write of which host it is of, and the rest follow from them, so
// that a sector of another write, of another place or torn between two writes is told apart.
use std::fmt;
use std::fmt::{Display, Formatter, Write};

/// The bytes of a sector.
pub const SECTOR_LEN: usize = 512;

/// The write whose content a sector holds.
#[derive(Clone, Copy, Debug, PartialEq, Eq)]
pub struct Origin {
    pub host: u8,
    pub lun: u8,
    /// The sector of the unit, below 2^24.
    pub sector: u32,
    /// The number of the write, from 1. 0: the sector was never written, and is zero.
    pub write: u32,
}

impl Origin {
    /// The content of the sector.
    pub fn content(self) -> [u8; SECTOR_LEN] {
        let mut bytes = [0; SECTOR_LEN];
        if self.write > 0 {
            fill(&mut bytes, self.key());
        }
        bytes
    }

    /// The write whose content these bytes are, if they are any write's.
    pub fn of(bytes: &[u8; SECTOR_LEN]) -> Option<Origin> {
        let origin = Origin::named_by(bytes);
        if origin.content() == *bytes {
            Some(origin)
        } else {
            None
        }
    }

    // What the first eight bytes say.
    fn named_by(bytes: &[u8; SECTOR_LEN]) -> Origin {
        Origin {
            host: bytes[0] / 16,
            lun: bytes[0] % 16,
            sector: u32::from_be_bytes([0, bytes[1], bytes[2], bytes[3]]),
            write: u32::from_be_bytes([bytes[4], bytes[5], bytes[6], bytes[7]]),
        }
    }

    // The first eight bytes, which no other write has.
    fn key(self) -> u64 {
        let place = self.host.wrapping_mul(16).wrapping_add(self.lun);
        let [_, a, b, c] = self.sector.to_be_bytes();
        let [d, e, f, g] = self.write.to_be_bytes();
        u64::from_be_bytes([place, a, b, c, d, e, f, g])
    }
}

impl Display for Origin {
    fn fmt<W: Write>(&self, f: &mut Formatter<W>) -> fmt::Result {
        let Origin {
            host,
            lun,
            sector,
            write,
        } = *self;
        write!(f, "host {host} LUN {lun} sector {sector} write {write}")
    }
}

// Fills a sector: the key, and then words that are drawn from it.
fn fill(bytes: &mut [u8; SECTOR_LEN], key: u64) {
    let (words, _) = bytes.as_chunks_mut::<8>();
    let mut drawn = key;
    for word in words {
        *word = drawn.to_be_bytes();
        drawn = mixed(drawn.wrapping_add(key));
    }
}

// A number that looks drawn from another (the last step of SplitMix64).
fn mixed(number: u64) -> u64 {
    let number = (number ^ number >> 30).wrapping_mul(0xBF58_476D_1CE4_E5B9);
    let number = (number ^ number >> 27).wrapping_mul(0x94D0_49BB_1331_11EB);
    number ^ number >> 31
}
