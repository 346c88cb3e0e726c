// What the model is asked, as events of the array.
use crate::calls::unit_of;
use crate::draw::{Ask, Command, Place, Work};
use ar_core::EventOf;
use ar_disks::Addr;
use bytes::Bytes;
use std::alloc::AllocError;

/// The unit at a place.
pub fn unit_at(place: Place) -> Addr {
    unit_of(place.host, place.lun)
}

/// The event that is asked for.
pub fn event_of<N>(ask: Ask) -> Result<EventOf<N>, AllocError> {
    Ok(match ask {
        Ask::Make(place, sectors) => EventOf::Make(unit_at(place), sectors),
        Ask::Remove(place) => EventOf::Remove(unit_at(place)),
        Ask::Grow(place, sectors) => EventOf::Grow(unit_at(place), sectors),
        Ask::FlushUnit(place) => EventOf::FlushPart(unit_at(place), 0),
        Ask::Work(work) => event_of_work(work),
        Ask::Command(command) => event_of_command(command)?,
        Ask::Unmap(place, lba, count) => EventOf::Unmap(unit_at(place), lba, count),
    })
}

/// The event that work in the background is.
pub(crate) fn event_of_work<N>(work: Work) -> EventOf<N> {
    match work {
        Work::Flush => EventOf::Flush,
        Work::Demote => EventOf::Demote,
        Work::Clean => EventOf::Clean,
        Work::Balance => EventOf::Balance,
        Work::Rebuild => EventOf::Rebuild,
    }
}

fn event_of_command<N>(command: Command) -> Result<EventOf<N>, AllocError> {
    let Command { place, cdb, data } = command;
    let payload = Bytes::from_vec(data)?;
    Ok(EventOf::Cmd {
        host: unit_at(place).host,
        lun: place.lun,
        cdb,
        payload,
    })
}
