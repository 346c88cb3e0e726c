// Executes orders on an array. An action is exactly one event of the array; a query changes no table and, unless the
// array has failed, no unit's contents.
ghost use Rattle.std.specs.Prelude.{◌≡◌, ◌≢◌, ◌≤◌, IfOk, IfErr, OnOk, OnErr, None, Err};
ghost use Rattle.ar_extents.specs.Changes.{start_fault};
ghost use Rattle.ar_volume.specs.Start.{IsStarted};
ghost use Rattle.ar_core.specs.Step.{Steps};
ghost use Rattle.ar_picture.specs.Writing.{AddsBytes, AddsSome};
ghost use Rattle.ar_answers.specs.Answers.{AppendsAnswer};
ghost use Rattle.ar_answers.specs.Orders.{event_in, Looks, TakesMemory, HasAnswer, IsOrderFault, Leaves};
ghost use Rattle.ar_answers.specs.Pictures.{IsPicture};
ghost use Rattle.ar_answers.specs.Setups.{disks_of, new_disk_for};

use crate::filled::Filled;
use ar_answers::{Setup, new_disk, picture_of, write_answer, write_outcome, write_row};
use ar_core::{Array, CAPACITY_LIMIT, Event, EventOf, NewDisk, Outcome};
use ar_disks::{Block, MemDisk};
use ar_language::{Action, Fault, FaultKind, Order, Question};
use ar_picture::Picture;
use std::alloc::{AllocError, Global};
use std::io::Write;
use std::marker::Model;

/// An array on disks in memory, with a buffer for one of their rows and the data of the last command. In contracts a
/// runner is its array.
#[derive(Drop)]
pub struct Runner {
    array: Array<MemDisk>,
    row: Block,
    filled: Filled,
}

impl Model for Runner {
    ghost use Rattle.std.specs.Prelude.{◌≡◌, length};
    ghost use Rattle.ar_disks.specs.Geometry.{block_len_of};
    ghost use Rattle.ar_volume.specs.Image.{ArrayState, geometry_of};

    ghost Value = { ArrayState };

    ghost view = { λ r. r.array };

    ghost invariant = { λ r. length r.row ≡ block_len_of (geometry_of r.array) };
}

impl Runner {
    /// A runner on a new array, as `start_array` makes it. It fails with `Start`.
    pub fn start(alloc: Global, setup: Setup) -> Result<Runner, Fault>
        ensures refused { IfErr result (λ fault. fault ≡ Fault.Start) }
        ensures few { OnOk result (setup.cache ≤ 65536) }
        ensures taken { OnOk result (start_fault (disks_of setup) ≡ None) }
        ensures started { IfOk result (IsStarted (disks_of setup) setup.cache) }
    {
        let filled = Filled::new(alloc);
        let row = Block::new(alloc, setup.geometry).map_err(|_| Fault::Start)?;
        let array = start_array(alloc, setup)?;
        Ok(Runner { array, row, filled })
    }

    /// Executes an order, and appends its answer to the output. At `NoMemory` nothing is written and an action isn't
    /// done; at `WriteFault` an action is done.
    pub fn answer<W: Write>(
        &mut self,
        alloc: Global,
        order: Order,
        out: &mut W,
    ) -> Result<(), FaultKind>
        ensures few { IfErr result (λ kind. kind ≢ FaultKind.TooManyLines) }
        ensures lost { IfErr result (IsOrderFault order) }
        ensures memory { result ≡ Err FaultKind.NoMemory → out.new ≡ out.old }
        ensures grows { result ≢ Err FaultKind.WriteFault → AddsBytes (W.contents out.old) (W.contents out.new) }
        ensures adds { OnOk result (HasAnswer order → AddsSome (W.contents out.old) (W.contents out.new)) }
        ensures answers { OnOk result
            (AppendsAnswer order self.old self.new (W.contents out.old) (W.contents out.new)) }
        ensures leaves { Leaves order self.old result self.new }
    {
        match order {
            Order::Act(action) => {
                let outcome = self.act(alloc, action).map_err(|_| FaultKind::NoMemory)?;
                write_outcome(out, &outcome, action.notation()).map_err(|_| FaultKind::WriteFault)
            }
            Order::Ask(question) => self.show(alloc, question, out),
        }
    }

    /// The data of the array's pictures. It fails if they can't be allocated.
    pub fn picture(&self, alloc: Global) -> Result<Picture, AllocError>
        ensures { IfOk result (IsPicture self.now) }
    {
        picture_of(alloc, &self.array)
    }

    // Executes one action. If its data or its new disk can't be allocated, it isn't done.
    fn act(&mut self, alloc: Global, action: Action) -> Result<Outcome<MemDisk>, AllocError>
        ensures done { IfOk result (λ outcome. Steps self.old (event_in self.old action) outcome self.new) }
        ensures refused { OnErr result (self.new ≡ self.old) }
        ensures takes { OnErr result (TakesMemory (Order.Act action)) }
    {
        let event = self.event_of(alloc, action)?;
        Ok(self.array.step(alloc, event))
    }

    // The array's event for an action.
    fn event_of(&mut self, alloc: Global, action: Action) -> Result<Event<MemDisk>, AllocError>
        ensures event { IfOk result (λ event. event ≡ event_in self.old action) }
        ensures takes { OnErr result (TakesMemory (Order.Act action)) }
        ensures unchanged { self.new ≡ self.old }
    {
        match action {
            Action::Make(addr, sectors) => Ok(EventOf::Make(addr, sectors)),
            Action::Grow(addr, sectors) => Ok(EventOf::Grow(addr, sectors)),
            Action::Remove(addr) => Ok(EventOf::Remove(addr)),
            Action::Command {
                addr,
                cdb,
                data,
                ..
            } => Ok(EventOf::Cmd {
                host: addr.host,
                lun: addr.lun,
                cdb,
                payload: self.filled.with(alloc, data)?,
            }),
            Action::Unmap(addr, lba, count) => Ok(EventOf::Unmap(addr, lba, count)),
            Action::Flush => Ok(EventOf::Flush),
            Action::Demote => Ok(EventOf::Demote),
            Action::Clean => Ok(EventOf::Clean),
            Action::Balance => Ok(EventOf::Balance),
            Action::AddDisk => Ok(EventOf::AddDisk(self.new_disk(alloc)?)),
            Action::DiskOut(disk) => Ok(EventOf::DiskOut(disk)),
            Action::Replace(disk) => Ok(EventOf::Replace(disk, self.new_disk(alloc)?)),
            Action::Rebuild => Ok(EventOf::Rebuild),
        }
    }

    // A new disk of the array's geometry.
    fn new_disk(&self, alloc: Global) -> Result<NewDisk<MemDisk>, AllocError>
        ensures { IfOk result (λ disk. disk ≡ new_disk_for self.now) }
    {
        let disk = new_disk(alloc, self.array.geometry(), self.array.extents())?;
        Ok(NewDisk::new(disk))
    }

    // Writes the answer to a query.
    fn show<W: Write>(
        &mut self,
        alloc: Global,
        question: Question,
        out: &mut W,
    ) -> Result<(), FaultKind>
        ensures few { IfErr result (λ kind. kind ≢ FaultKind.TooManyLines) }
        ensures lost { IfErr result (IsOrderFault (Order.Ask question)) }
        ensures memory { result ≡ Err FaultKind.NoMemory → out.new ≡ out.old }
        ensures grows { result ≢ Err FaultKind.WriteFault → AddsBytes (W.contents out.old) (W.contents out.new) }
        ensures adds { OnOk result (HasAnswer (Order.Ask question)
            → AddsSome (W.contents out.old) (W.contents out.new)) }
        ensures answers { OnOk result
            (AppendsAnswer (Order.Ask question) self.old self.new (W.contents out.old) (W.contents out.new)) }
        ensures looks { Looks question self.old self.new }
    {
        match question {
            Question::Block { disk, extent, row } => {
                let shown = self.array.block_at(disk, extent, row, &mut self.row);
                write_row(out, shown, self.row.bytes()).map_err(|_| FaultKind::WriteFault)
            }
            _ => write_answer(alloc, &self.array, question, out),
        }
    }
}

/// Makes a new array on new disks. `Start` is returned for a cache of more than 65,536 blocks, for disks of which no
/// array can be made, and if an allocation fails.
pub fn start_array(alloc: Global, setup: Setup) -> Result<Array<MemDisk>, Fault>
    ensures refused { IfErr result (λ fault. fault ≡ Fault.Start) }
    ensures few { OnOk result (setup.cache ≤ 65536) }
    ensures taken { OnOk result (start_fault (disks_of setup) ≡ None) }
    ensures started { IfOk result (IsStarted (disks_of setup) setup.cache) }
{
    if setup.cache > CAPACITY_LIMIT {
        return Err(Fault::Start);
    }
    let disks = new_disks(alloc, setup).map_err(|_| Fault::Start)?;
    let array = Array::start(alloc, disks, setup.cache).map_err(|_| Fault::Start)?;
    Ok(array)
}

// Disks that are filled with one byte.
fn new_disks(alloc: Global, setup: Setup) -> Result<Vec<MemDisk>, AllocError>
    ensures { IfOk result (λ disks. disks.items ≡ disks_of setup) }
{
    let mut disks = Vec::new(alloc);
    for _ in 0..setup.disks {
        disks.push(new_disk(alloc, setup.geometry, setup.extents)?)?;
    }
    Ok(disks)
}
