// An operator's order on an array with its history: an action is exactly one event, a query changes nothing. The answer
// is written by the functions that scripts use.
ghost use Rattle.std.specs.Prelude.{◌≡◌, IfOk, OnErr, length};
ghost use Rattle.ar_answers.specs.Setups.{new_disk, new_disk_for};
ghost use Rattle.ar_conversation.specs.Orders.{IsOperatorAction};
ghost use Rattle.ar_operator.specs.Executing.{Executes, ExecutesAction, IsArrayOrder, Operated};

use crate::early::{early_refusal, write_refusal};
use ar_answers::{write_answer, write_outcome};
use ar_conversation::OperatorOrder;
use ar_core::{Array, Health, Outcome, OutcomeOf};
use ar_disks::{Disk, Geometry, MemDisk};
use ar_language::Action;
use ar_served::{OperableArray, Task};
use std::alloc::{AllocError, Global};
use std::sync::ledger::Ledger;

// Bytes that the line of an outcome has at most. They are reserved before an action is begun, so that it isn't done
// without its answer.
const OUTCOME_MAX: usize = 128;

/// Makes the new disks of `add` and `replace`.
pub trait DiskMaker<D: Disk> {
    /// Makes a new disk for the place of this number. Fails only when out of memory.
    fn make(
        &mut self,
        alloc: Global,
        number: u8,
        geometry: Geometry,
        extents: u16,
    ) -> Result<D, AllocError>
        ensures { IfOk result (λ disk. D.state disk ≡ new_disk geometry extents) };

    /// Makes it of a disk in memory.
    fn dress(&mut self, number: u8, disk: MemDisk) -> D
        ensures { D.state result ≡ disk };

    /// The array has added the disk that was made last, under this number.
    fn added(&mut self, number: u8);

    /// The array has put the disk that was made last in the place of the one of this number, and rebuilds it.
    fn replaced(&mut self, number: u8);

    /// An operator has taken out a disk of an array that hadn't failed.
    fn taken_out(&mut self, number: u8);
}

/// Executes an order on the array and appends its answer to `out`, as a script has it; an action that would make the
/// array fail is refused in its place, unless it is forced. If it fails, nothing is done, and the bytes appended are
/// unspecified.
pub fn execute<A: OperableArray<L>, L: Ledger, M: DiskMaker<A::Disk>>(
    alloc: Global,
    array: &mut A,
    disks: &mut M,
    order: OperatorOrder,
    out: &mut Vec<u8>,
) -> Result<(), AllocError>
    requires allowed { IsArrayOrder order }
    ensures { Executes order (A.state array.old) out.old.items result out.new.items (A.state array.new) }
{
    match order {
        OperatorOrder::Act(action) => match early_refusal(array.array(), action) {
            Some(refusal) => write_refusal(refusal, out),
            None => execute_action(alloc, array, disks, action, out),
        },
        OperatorOrder::ForceOut(disk) => {
            execute_action(alloc, array, disks, Action::DiskOut(disk), out)
        }
        OperatorOrder::Ask(question) => {
            write_answer(alloc, array.array(), question, out).map_err(|_| AllocError)
        }
        _ => unreachable!(),
    }
}

// Executes an action, whatever becomes of the array.
fn execute_action<A: OperableArray<L>, L: Ledger, M: DiskMaker<A::Disk>>(
    alloc: Global,
    array: &mut A,
    disks: &mut M,
    action: Action,
    out: &mut Vec<u8>,
) -> Result<(), AllocError>
    requires allowed { IsOperatorAction action }
    ensures { ExecutesAction action (A.state array.old) out.old.items result out.new.items (A.state array.new) }
{
    out.reserve(OUTCOME_MAX)?;
    let outcome = act(alloc, array, disks, action)?;
    write_outcome(out, &outcome, action.notation()).map_err(|_| AllocError)
}

// Executes an action. If its new disk can't be allocated, it isn't done.
fn act<A: OperableArray<L>, L: Ledger, M: DiskMaker<A::Disk>>(
    alloc: Global,
    array: &mut A,
    disks: &mut M,
    action: Action,
) -> Result<Outcome<A::Disk>, AllocError>
    requires allowed { IsOperatorAction action }
    ensures done { IfOk result (λ outcome. Operated action outcome (A.state array.old) (A.state array.new)) }
    ensures refused { OnErr result (A.state array.new ≡ A.state array.old) }
{
    match action {
        Action::Make(addr, sectors) => Ok(array.make(addr, sectors)),
        Action::Grow(addr, sectors) => Ok(array.grow(addr, sectors)),
        Action::Remove(addr) => Ok(array.remove(addr)),
        Action::Command { .. } | Action::Unmap(..) => unreachable!(),
        Action::Flush => Ok(array.background(Task::Flush)),
        Action::Demote => Ok(array.background(Task::Demote)),
        Action::Clean => Ok(array.background(Task::Clean)),
        Action::Balance => Ok(array.background(Task::Balance)),
        Action::Rebuild => Ok(array.background(Task::Rebuild)),
        Action::AddDisk => add(alloc, array, disks),
        Action::DiskOut(number) => Ok(take_out(array, disks, number)),
        Action::Replace(number) => replace(alloc, array, disks, number),
    }
}

fn add<A: OperableArray<L>, L: Ledger, M: DiskMaker<A::Disk>>(
    alloc: Global,
    array: &mut A,
    disks: &mut M,
) -> Result<Outcome<A::Disk>, AllocError>
    ensures done { IfOk result (λ outcome. Operated Action.AddDisk outcome (A.state array.old) (A.state array.new)) }
    ensures refused { OnErr result (A.state array.new ≡ A.state array.old) }
{
    let number = array.array().disks();
    let disk = new_disk(alloc, array.array(), disks, number)?;
    let outcome = array.add_disk(disk);
    if let OutcomeOf::AddDisk(Ok(())) = &outcome {
        disks.added(number);
    }
    Ok(outcome)
}

fn take_out<A: OperableArray<L>, L: Ledger, M: DiskMaker<A::Disk>>(
    array: &mut A,
    disks: &mut M,
    number: u8,
) -> Outcome<A::Disk>
    ensures { Operated (Action.DiskOut number) result (A.state array.old) (A.state array.new) }
{
    let had_failed = matches!(array.array().health(), Health::Broken);
    let outcome = array.take_out(number);
    if let OutcomeOf::DiskOut(Ok(())) = &outcome {
        if !had_failed {
            disks.taken_out(number);
        }
    }
    outcome
}

fn replace<A: OperableArray<L>, L: Ledger, M: DiskMaker<A::Disk>>(
    alloc: Global,
    array: &mut A,
    disks: &mut M,
    number: u8,
) -> Result<Outcome<A::Disk>, AllocError>
    ensures done { IfOk result
        (λ outcome. Operated (Action.Replace number) outcome (A.state array.old) (A.state array.new)) }
    ensures refused { OnErr result (A.state array.new ≡ A.state array.old) }
{
    let disk = new_disk(alloc, array.array(), disks, number)?;
    let outcome = array.replace(number, disk);
    if let OutcomeOf::Replace(Ok(())) = &outcome {
        disks.replaced(number);
    }
    Ok(outcome)
}

// A new disk of the array's shape.
fn new_disk<D: Disk, M: DiskMaker<D>>(
    alloc: Global,
    array: &Array<D>,
    disks: &mut M,
    number: u8,
) -> Result<D, AllocError>
    ensures { IfOk result (λ disk. D.state disk ≡ new_disk_for array.now) }
{
    disks.make(alloc, number, array.geometry(), array.extents())
}
