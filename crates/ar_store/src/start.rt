// Creates a store. All memory is allocated first (the plan), but for that of the disk set, so that an error can give
// the disks back.
ghost use Rattle.std.specs.Prelude.{◌≡◌, ◌<◌, ◌≤◌, ℕ, All, map, replicate, None, length, slice_index, unwrap_or, IfOk};
ghost use Rattle.std.specs.Prelude.{IfErr, OnOk};
ghost use Rattle.ar_disks.specs.Geometry.{block_len_of};
ghost use Rattle.ar_extents.specs.declared.refusal.StartFault.TheVariants.{NoMemory};
ghost use Rattle.ar_extents.specs.Set.{SetState, CanCount};
ghost use Rattle.ar_extents.specs.Changes.{start_fault, started};
ghost use Rattle.ar_book.specs.Book.{TablesAgree};
ghost use Rattle.ar_store.specs.Store.{store_of};
ghost use Rattle.ar_store.specs.Fullest.{AreFourFullest, one_fewer, four_fewer, next_loose, next_members};
ghost use Rattle.ar_store.specs.Forming.{AreFullest, IsFormed, IsStoreStarted, IsPlanFor, IsSetStarted, IsAllLoose};
ghost use Rattle.ar_store.specs.Forming.{without, empty_book, members_list};

use crate::form::{FourDisks, four_fullest};
use crate::space::Space;
use crate::store::Store;
use ar_book::Book;
use ar_disks::{Block, Disk, Geometry, Members, Place, Scratch};
use ar_extents::{DiskSet, StartFault, fault_of};
use std::alloc::{AllocError, Global};

impl<D: Disk> Store<D> {
    /// Creates a store of `disks`: healthy, without units, its extents in free groups of four disks each, as
    /// `IsStoreStarted` states. Errors, which give the disks back: their number, their shapes, out of memory.
    pub fn start(alloc: Global, disks: Vec<D>) -> Result<Store<D>, (StartFault, Vec<D>)>
        requires { All CanCount (map D.state disks.items) }
        ensures taken { OnOk result (start_fault (map D.state disks.items) ≡ None) }
        ensures started { IfOk result (IsStoreStarted (map D.state disks.items)) }
        ensures refused { IfErr result (λ back. back.0 ≡ unwrap_or (start_fault (map D.state disks.items)) NoMemory) }
        ensures handed_back { IfErr result (λ back. back.1 ≡ disks) }
    {
        if let Some(fault) = fault_of(&disks) {
            return Err((fault, disks));
        }
        match make_plan(alloc, &disks) {
            Ok(plan) => start_planned(alloc, disks, plan),
            Err(_) => Err((StartFault::NoMemory, disks)),
        }
    }
}

// What a store has beside its disks: the tables with its groups, and the buffers of its calls.
#[derive(Drop)]
struct Plan {
    book: Book,
    buffers: CallBuffers,
}

#[derive(Drop)]
struct CallBuffers {
    block: Block,
    scratch: Scratch,
}

// The store of disks that pass `start_fault`, by their plan.
fn start_planned<D: Disk>(
    alloc: Global,
    disks: Vec<D>,
    plan: Plan,
) -> Result<Store<D>, (StartFault, Vec<D>)>
    requires counting { All CanCount (map D.state disks.items) }
    requires taken { start_fault (map D.state disks.items) ≡ None }
    requires book { IsPlanFor (started (map D.state disks.items)) plan.book }
    requires block { length plan.buffers.block ≡ block_len_of (started (map D.state disks.items)).geometry }
    requires scratch { plan.buffers.scratch.geometry ≡ (started (map D.state disks.items)).geometry }
    ensures started { IfOk result (IsStoreStarted (map D.state disks.items)) }
    ensures refused { IfErr result (λ back. back.0 ≡ NoMemory) }
    ensures handed_back { IfErr result (λ back. back.1 ≡ disks) }
{
    let set = DiskSet::start(alloc, disks)?;
    Ok(form(set, plan))
}

// The store of a set that was just created, by its plan.
fn form<D: Disk>(mut set: DiskSet<D>, plan: Plan) -> Store<D>
    requires fresh { IsSetStarted set }
    requires book { IsPlanFor set plan.book }
    requires block { length plan.buffers.block ≡ block_len_of set.geometry }
    requires scratch { plan.buffers.scratch.geometry ≡ set.geometry }
    ensures { IsFormed (store_of set (empty_book set.geometry)) (members_list result.book) result }
{
    take_groups(&mut set, &plan.book);
    Store {
        space: Space {
            disks: set,
            book: plan.book,
            scratch: plan.buffers.scratch,
            squeezes: 0,
        },
        block: plan.buffers.block,
        promotions: 0,
    }
}

// Allocates all the memory of a store of these disks but that of the disk set.
fn make_plan<D: Disk>(alloc: Global, disks: &[D]) -> Result<Plan, AllocError>
    requires { start_fault (map D.state disks.now) ≡ None }
    ensures book { IfOk result (λ plan. IsPlanFor (started (map D.state disks.now)) plan.book) }
    ensures block { IfOk result
        (λ plan. length plan.buffers.block ≡ block_len_of (started (map D.state disks.now)).geometry) }
    ensures scratch { IfOk result (λ plan. plan.buffers.scratch.geometry ≡ (started (map D.state disks.now)).geometry) }
{
    let geometry = disks[0].geometry();
    let extents = disks[0].extents();
    let buffers = make_buffers(alloc, geometry)?;
    let book = plan_groups(alloc, geometry, disks.len(), extents)?;
    Ok(Plan { book, buffers })
}

// Allocates the buffers of the store's calls.
fn make_buffers(alloc: Global, geometry: Geometry) -> Result<CallBuffers, AllocError>
    ensures block { IfOk result (λ buffers. length buffers.block ≡ block_len_of geometry) }
    ensures scratch { IfOk result (λ buffers. buffers.scratch.geometry ≡ geometry) }
{
    let block = Block::new(alloc, geometry)?;
    let scratch = Scratch::new(alloc, geometry)?;
    Ok(CallBuffers { block, scratch })
}

// The tables with all groups that `disks` disks of `extents` extents form.
fn plan_groups(
    alloc: Global,
    geometry: Geometry,
    disks: usize,
    extents: u16,
) -> Result<Book, AllocError>
    requires { disks ≤ 255 }
    ensures { IfOk result (λ book. (s : SetState) → IsAllLoose geometry disks extents s → IsPlanFor s book) }
{
    let mut counts = vec![in alloc; extents; disks]?;
    form_groups(alloc, geometry, &mut counts, extents)
}

// The tables with all groups that these disks form, where the last `counts[d]` of the `extents` extents of disk d are
// unassigned.
fn form_groups(
    alloc: Global,
    geometry: Geometry,
    counts: &mut Vec<u16>,
    extents: u16,
) -> Result<Book, AllocError>
    requires few { length counts.old.items ≤ 255 }
    requires all { counts.old.items ≡ replicate (length counts.old.items) extents }
    ensures { IfOk result (λ book. (s : SetState) → IsAllLoose geometry (length counts.old.items) extents s
        → IsPlanFor s book) }
{
    let mut book = Book::new(alloc, geometry);
    while let Some(four) = four_fullest(counts) {
        let members = next_members(counts, extents, four);
        book.form_group(members)?;
        four_fewer(counts, four);
    }
    Ok(book)
}

// The first unassigned extent of each of four disks, where the last `counts[d]` of `extents` extents are unassigned.
fn next_members(counts: &[u16], extents: u16, four: FourDisks) -> Members
    requires four { AreFourFullest counts.now four }
    requires few { (d : ℕ) → slice_index counts.now d ≤ extents }
    ensures { result ≡ next_members counts.now extents four }
{
    Members {
        first: next_place(counts, extents, four.first),
        second: next_place(counts, extents, four.second),
        third: next_place(counts, extents, four.third),
        fourth: next_place(counts, extents, four.fourth),
    }
}

fn next_place(counts: &[u16], extents: u16, disk: u8) -> Place
    requires there { disk < length counts.now }
    requires few { slice_index counts.now disk ≤ extents }
    ensures { result ≡ next_loose counts.now extents disk }
{
    Place {
        disk,
        extent: extents - counts[disk as usize],
    }
}

// Counts one unassigned extent fewer on each of four disks.
fn four_fewer(counts: &mut Vec<u16>, four: FourDisks)
    requires { AreFourFullest counts.old.items four }
    ensures { counts.new.items ≡ four_fewer counts.old.items four }
{
    one_fewer(counts, four.first);
    one_fewer(counts, four.second);
    one_fewer(counts, four.third);
    one_fewer(counts, four.fourth);
}

fn one_fewer(counts: &mut Vec<u16>, disk: u8)
    requires there { disk < length counts.old.items }
    requires some { 0 < slice_index counts.old.items disk }
    ensures { counts.new.items ≡ one_fewer counts.old.items disk }
{
    counts[disk as usize] -= 1;
}

// Assigns the extents of the groups in `book`, which are those that the set forms.
fn take_groups<D: Disk>(set: &mut DiskSet<D>, book: &Book)
    requires { IsPlanFor set.old book.now }
    ensures formed { IsFormed (store_of set.old (empty_book set.old.geometry)) (members_list book.now)
        (store_of set.new book.now) }
    ensures sound { TablesAgree book.now }
{
    for number in 0..book.groups() {
        take_members(set, book.members(number));
    }
}

/// Assigns the members of a new group: the lowest unassigned extents of the four disks with the most of them.
pub fn take_members<D: Disk>(set: &mut DiskSet<D>, members: Members)
    requires { AreFullest set.old members }
    ensures { set.new ≡ without set.old members }
{
    set.take(members.first.disk);
    set.take(members.second.disk);
    set.take(members.third.disk);
    set.take(members.fourth.disk);
}
