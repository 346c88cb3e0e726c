// The units of an array, and the room that they leave.
ghost use Rattle.std.specs.Prelude.{◌<◌, IfSome, vec_len};

use crate::answer::{Answer, NO_UNIT, PlainReply, Refused};
use crate::draw::{Ask, Command, Place};
use crate::unit::{Unit, answer_nowhere};
use std::alloc::{AllocError, Global};

/// The highest LUN.
const LAST_LUN: u8 = 7;

/// The greatest number of sectors of a unit.
const MOST_SECTORS: u32 = 1_048_576;

/// The sectors of a small block.
const BLOCK_SECTORS: u32 = 2;

/// The units of four hosts, each a plain list, with room for this many blocks of two sectors.
#[derive(Drop)]
pub struct PlainArray {
    alloc: Global,
    units: Vec<Unit>,
    blocks: u32,
}

impl PlainArray {
    /// No unit, and room for this many blocks.
    pub fn new(alloc: Global, blocks: u32) -> PlainArray {
        PlainArray {
            alloc,
            units: Vec::new(alloc),
            blocks,
        }
    }

    /// Units may have this many blocks more.
    pub fn gain(&mut self, blocks: u32) {
        self.blocks = self.blocks.saturating_add(blocks);
    }

    /// Does what an array is asked, and answers it. `Err` stands for a failed allocation of the lists themselves.
    pub fn step(&mut self, ask: &Ask) -> Result<Answer, AllocError> {
        match ask {
            Ask::Make(place, sectors) => self.make(*place, *sectors),
            Ask::Remove(place) => Ok(self.remove(*place)),
            Ask::Grow(place, sectors) => self.grow(*place, *sectors),
            Ask::FlushUnit(place) => Ok(self.flush(*place)),
            Ask::Work(_) => Ok(Answer::Open),
            Ask::Command(command) => Ok(Answer::Replied(self.command(command)?)),
            Ask::Unmap(place, lba, count) => Ok(Answer::Replied(self.unmap(*place, *lba, *count))),
        }
    }

    // How many blocks more a unit may have.
    fn room(&self) -> u32 {
        let mut room = self.blocks;
        for unit in &self.units {
            room = room.saturating_sub(blocks_of(unit.sectors()));
        }
        room
    }

    // Where the unit at a place stands in the list, if there is one.
    fn number(&self, place: Place) -> Option<usize>
        ensures { IfSome result (λ number. number < vec_len self.now.units) }
    {
        self.units.iter().position(|unit| unit.place == place)
    }

    fn make(&mut self, place: Place, sectors: u32) -> Result<Answer, AllocError> {
        let room = self.room();
        if place.lun > LAST_LUN {
            return Ok(Answer::Refused(Refused::BadLun));
        }
        if self.number(place).is_some() {
            return Ok(Answer::Refused(Refused::Exists));
        }
        if sectors == 0 || sectors > MOST_SECTORS {
            return Ok(Answer::Refused(Refused::Size));
        }
        if blocks_of(sectors) > room {
            return Ok(Answer::Refused(Refused::NoRoom(room)));
        }
        self.units.push(Unit::new(self.alloc, place, sectors)?)?;
        Ok(Answer::Done)
    }

    fn remove(&mut self, place: Place) -> Answer {
        match self.number(place) {
            Some(number) => {
                self.units.remove(number);
                Answer::Done
            }
            None => Answer::Refused(Refused::Absent),
        }
    }

    fn grow(&mut self, place: Place, sectors: u32) -> Result<Answer, AllocError> {
        let room = self.room();
        let Some(number) = self.number(place) else {
            return Ok(Answer::Refused(Refused::Absent));
        };
        let unit = &mut self.units[number];
        let blocks = blocks_of(unit.sectors());
        if sectors <= unit.sectors() || sectors > MOST_SECTORS {
            return Ok(Answer::Refused(Refused::Size));
        }
        if blocks_of(sectors).saturating_sub(blocks) > room {
            return Ok(Answer::Refused(Refused::NoRoom(room)));
        }
        unit.grow(sectors)?;
        Ok(Answer::Done)
    }

    // The lists are always flushed.
    fn flush(&self, place: Place) -> Answer {
        match self.number(place) {
            Some(_) => Answer::Flushed,
            None => Answer::Refused(Refused::Absent),
        }
    }

    fn command(&mut self, command: &Command) -> Result<PlainReply, AllocError> {
        match self.number(command.place) {
            Some(number) => { self.units[number].answer(self.alloc, &command.cdb, &command.data) }
            None => answer_nowhere(self.alloc, &command.cdb),
        }
    }

    fn unmap(&mut self, place: Place, lba: u64, count: u32) -> PlainReply {
        match self.number(place) {
            Some(number) => self.units[number].unmap(self.alloc, lba, count),
            None => PlainReply::check(self.alloc, NO_UNIT),
        }
    }
}

// How many blocks a unit of this many sectors has.
fn blocks_of(sectors: u32) -> u32 {
    sectors.div_ceil(BLOCK_SECTORS)
}
