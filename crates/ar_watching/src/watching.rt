// HTTP clients that watch the array. Its numbers, and the data of its picture, are copied under its lock; all else is
// done outside.
ghost use Rattle.std.specs.Prelude.{◌≡◌, IfOk};
ghost use Rattle.ar_watching.specs.Watching.{CopiesMoment, IsDrawing, MayDraw, text_drawn};

use crate::listing::host_sessions;
use ar_controlled::ControlledArray;
use ar_doors::Refusals;
use ar_frames::Linked;
use ar_inventory::{Inventory, Sessions, inventory_of};
use ar_operated::OperatedArray;
use ar_picture::{Picture, write_svg};
use ar_sessions::Handler;
use ar_shown::Beside;
use ar_status::{ArrayInventory, ArrayStatus, EventLog, Look, Watched, serve_named};
use log::Log;
use std::alloc::{AllocError, Global};
use std::hash::RandomState;
use std::io::{ErrorKind, Read, Write};
use std::sync::Wait;
use std::sync::ledger::Ledger;
use std::time::Clock;

/// A served array, as HTTP clients watch it.
#[derive(Drop)]
pub struct Watch<'a, R: Wait + Clock, A: ControlledArray<L, M> + Drop, L: Ledger, M> {
    array: &'a OperatedArray<'a, R, A, L, M>,
    // Of the maps of header fields, whose names clients choose.
    keys: RandomState,
    refusals: Refusals,
}

// What is copied of an array at one moment.
#[derive(Drop)]
struct Moment {
    status: ArrayStatus,
    picture: Option<Picture>,
    inventory: Option<Inventory>,
}

impl<'a, R: Wait + Clock, A: ControlledArray<L, M> + Drop, L: Ledger, M> Watch<'a, R, A, L, M> {
    /// A watch over an array, with the keys of the maps of header fields.
    pub fn new(
        array: &'a OperatedArray<'a, R, A, L, M>,
        keys: RandomState,
    ) -> Watch<'a, R, A, L, M> {
        Watch {
            array,
            keys,
            refusals: Refusals::new(array.rt),
        }
    }

    // The status, the data of the picture if it is to be drawn, and the inventory if it is to be made. The log's lock
    // is taken before the array's, so that looks are compared in the order in which they were taken.
    fn copied(&self, alloc: Global, draws: bool, lists: bool) -> Result<Moment, AllocError>
        ensures { IfOk result (λ moment. CopiesMoment A.persists draws moment.status moment.picture) }
    {
        let outside = self.array.outside();
        let mut log = self.array.log.lock(self.array.rt);
        let seconds = self.array.seconds();
        let array = self.array.array.lock(self.array.rt);
        let beside = self.array.beside(outside, seconds);
        let (status, picture) = copy_moment::<A, L, M>(alloc, &array, &mut log, &beside, draws)?;
        let inventory = self.inventory_if(alloc, &array, lists)?;
        Ok(Moment {
            status,
            picture,
            inventory,
        })
    }

    // The inventory, if it is to be made.
    fn inventory_if(
        &self,
        alloc: Global,
        array: &A,
        lists: bool,
    ) -> Result<Option<Inventory>, AllocError> {
        if !lists {
            return Ok(None);
        }
        let inventory = array.inventory(alloc, self.array.fuses, self.array.names())?;
        Ok(Some(inventory))
    }

    // The inventory as it is sent, with the sessions.
    fn listed(
        &self,
        alloc: Global,
        inventory: Option<Inventory>,
    ) -> Result<Option<ArrayInventory>, AllocError> {
        let Some(inventory) = inventory else {
            return Ok(None);
        };
        let sessions = Sessions {
            hosts: host_sessions(alloc, &self.array.desk.lock(self.array.rt))?,
            iscsi: self.array.initiators.lock(self.array.rt).listed(alloc)?,
        };
        let left = self.array.rebuild_seconds_left();
        Ok(Some(inventory_of(alloc, &inventory, left, sessions)?))
    }
}

// Looks at an array, and copies what is shown of it.
fn copy_moment<A: ControlledArray<L, M>, L: Ledger, M>(
    alloc: Global,
    array: &A,
    log: &mut EventLog,
    beside: &Beside,
    draws: bool,
) -> Result<(ArrayStatus, Option<Picture>), AllocError>
    ensures { IfOk result (λ copied. CopiesMoment A.persists draws copied.0 copied.1) }
{
    array.see(beside.seconds, log);
    let status = array.status(array.store(), log.events(), beside);
    let picture = picture_if::<A, L, M>(alloc, array, beside.lost, draws)?;
    Ok((status, picture))
}

// The data of the picture, if it is to be drawn.
fn picture_if<A: ControlledArray<L, M>, L: Ledger, M>(
    alloc: Global,
    array: &A,
    lost: Option<[u8; 2]>,
    draws: bool,
) -> Result<Option<Picture>, AllocError>
    ensures { IfOk result (MayDraw draws lost (A.state array.now).array) }
{
    if draws {
        Ok(Some(drawing_of::<A, L, M>(alloc, array, lost)?))
    } else {
        Ok(None)
    }
}

// The data of the picture. That of a failed array names the disks that it has lost.
fn drawing_of<A: ControlledArray<L, M>, L: Ledger, M>(
    alloc: Global,
    array: &A,
    lost: Option<[u8; 2]>,
) -> Result<Picture, AllocError>
    ensures { IfOk result (IsDrawing lost (A.state array.now).array) }
{
    let mut picture = array.picture(alloc)?;
    picture.name_lost(lost);
    Ok(picture)
}

// The text of a picture; without one it is empty.
fn draw(alloc: Global, picture: &Option<Picture>) -> Result<Vec<u8>, AllocError>
    ensures { IfOk result (λ text. text.items ≡ text_drawn picture.now) }
{
    let mut text = Vec::new(alloc);
    if let Some(picture) = picture {
        write_svg(alloc, &mut text, picture).map_err(|_| AllocError)?;
    }
    Ok(text)
}

impl<'a, R: Wait + Clock, A: ControlledArray<L, M> + Drop, L: Ledger, M> Watched
    for Watch<'a, R, A, L, M> {
    ghost use Rattle.ar_watching.specs.Watching.{ShowsMoment};

    ghost shows = { λ _ draws status picture. ShowsMoment A.persists draws status picture };

    fn look(&self, alloc: Global, draws: bool, lists: bool) -> Result<Look, AllocError> {
        let Moment {
            status,
            picture,
            inventory,
        } = self.copied(alloc, draws, lists)?;
        let picture = draw(alloc, &picture)?;
        let inventory = self.listed(alloc, inventory)?;
        Ok(Look {
            status,
            picture,
            inventory,
        })
    }
}

impl<
    'a,
    R: Wait + Clock + Log,
    A: ControlledArray<L, M> + Drop,
    L: Ledger,
    M,
    S: Read + Drop,
    W: Write + Drop,
> Handler<Linked<S>, Linked<W>, bool> for Watch<'a, R, A, L, M> {
    ghost ends = { λ _ _ _ _. Unit {0} };

    // Answers one request, and returns whether it was answered: else the client is gone, or memory was short.
    fn handle(&self, _number: u64, reader: Linked<S>, writer: Linked<W>) -> bool {
        let (mut reader, mut writer) = (reader.into_inner(), writer.into_inner());
        let alloc = self.array.alloc;
        let name = self.array.http_host;
        match serve_named(alloc, self.keys, name, self, &mut reader, &mut writer) {
            Ok(()) => true,
            Err(error) => {
                if error.kind() == ErrorKind::OutOfMemory {
                    self.refusals
                        .warn(self.array.rt, "an HTTP client", "no memory");
                }
                false
            }
        }
    }
}
