// What a host knows of a unit: of each sector the write whose content it holds.
use crate::content::{Origin, SECTOR_LEN};
use crate::order::Span;
use std::alloc::{AllocError, Global};
use std::fmt;
use std::fmt::{Display, Formatter, Write};

/// What a unit's host knows of it.
#[derive(Drop)]
pub struct Shadow {
    host: u8,
    lun: u8,
    // Of each sector the number of the write, 0 where there was none.
    writes: Vec<u32>,
}

/// The first byte of a READ's data that is not what the host wrote.
#[derive(Clone, Copy, Debug)]
pub struct Mismatch {
    /// What the sector should hold.
    pub wanted: Origin,
    /// What it was read to hold, if that is the content of any write.
    pub found: Option<Origin>,
    /// The byte of the sector, from 0.
    pub at: usize,
    pub wanted_byte: u8,
    pub found_byte: u8,
}

impl Shadow {
    /// A new unit, whose sectors are zero.
    pub fn new(alloc: Global, host: u8, lun: u8, sectors: u32) -> Result<Shadow, AllocError> {
        let writes = vec![in alloc; 0u32; sectors as usize]?;
        Ok(Shadow { host, lun, writes })
    }

    pub fn sectors(&self) -> u32 {
        u32::try_from(self.writes.len()).unwrap_or(u32::MAX)
    }

    /// Extends the unit to `sectors` sectors; the new ones are zero.
    pub fn grow(&mut self, sectors: u32) -> Result<(), AllocError> {
        self.writes.resize(sectors as usize, 0)
    }

    /// Notes that a write has changed these sectors.
    pub fn note(&mut self, span: Span, write: u32) {
        for sector in span.sectors() {
            if let Some(known) = self.writes.get_mut(sector as usize) {
                *known = write;
            }
        }
    }

    /// The first difference between what a READ of the sectors from `first` on returned and what was written.
    pub fn difference(&self, first: u32, bytes: &[u8]) -> Option<Mismatch> {
        let (sectors, _) = bytes.as_chunks::<SECTOR_LEN>();
        let mut sector = first;
        for found in sectors {
            let mismatch = difference_of(self.origin(sector), found);
            if mismatch.is_some() {
                return mismatch;
            }
            sector = sector.saturating_add(1);
        }
        None
    }

    // The write whose content a sector holds.
    fn origin(&self, sector: u32) -> Origin {
        Origin {
            host: self.host,
            lun: self.lun,
            sector,
            write: self.writes.get(sector as usize).copied().unwrap_or(0),
        }
    }
}

// The first byte in which a sector differs from what it should hold.
fn difference_of(wanted: Origin, found: &[u8; SECTOR_LEN]) -> Option<Mismatch> {
    let content = wanted.content();
    for at in 0..SECTOR_LEN {
        if content[at] != found[at] {
            return Some(Mismatch {
                wanted,
                found: Origin::of(found),
                at,
                wanted_byte: content[at],
                found_byte: found[at],
            });
        }
    }
    None
}

impl Display for Mismatch {
    fn fmt<W: Write>(&self, f: &mut Formatter<W>) -> fmt::Result {
        let Mismatch {
            wanted,
            found,
            at,
            wanted_byte,
            found_byte,
        } = *self;
        let Origin { sector, write, .. } = wanted;
        write!(
            f,
            "sector {sector} byte {at}: wanted {wanted_byte:02X} of write {write}, found {found_byte:02X} of "
        )?;
        match found {
            Some(found) if found.write == 0 => write!(f, "zeros"),
            Some(found) => write!(f, "{found}"),
            None => write!(f, "no write"),
        }
    }
}
