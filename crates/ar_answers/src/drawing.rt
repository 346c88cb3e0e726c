// The data of an array's pictures. Each block that has a home is counted once: for its unit, at the group that holds
// it.
ghost use Rattle.std.specs.Prelude.{◌≡◌, ◌≢◌, ℕ, ◌+◌, ◌^◌, ◌<◌, ◌++◌, length, map, IfOk, IfErr, OnOk, Err};
ghost use Rattle.std.specs.Option.{option_to_list};
ghost use Rattle.ar_book.specs.Book.{TablesAgree};
ghost use Rattle.ar_book.specs.Tables.{unit_in};
ghost use Rattle.ar_language.specs.declared.order.Order.TheVariants.{Ask};
ghost use Rattle.ar_language.specs.declared.order.Question.TheVariants.{Picture as PictureAsked};
ghost use Rattle.ar_picture.specs.Writing.{AddsBytes, AddsSome};
ghost use Rattle.ar_answers.specs.Answers.{AppendsAnswer};
ghost use Rattle.ar_answers.specs.Orders.{IsOrderFault};
ghost use Rattle.ar_answers.specs.Pictures.{IsPicture, health_shown, class_shown, group_shown, groups_in, unit_at};
ghost use Rattle.ar_answers.specs.Pictures.{units_in, addr_at, held_at, AddsOne, AddsHomes, HoldsBlocks};

use ar_core::{Array, Class, GroupView, Health, HomeOf};
use ar_disks::{Addr, Disk, Host};
use ar_language::FaultKind;
use ar_picture::{Group, Held, Picture, UNITS_MAX, Unit, write_map};
use std::alloc::{AllocError, Global};
use std::io::Write;

/// The counts of a group before blocks are counted.
const NOTHING: Held = Held {
    blocks: [0; UNITS_MAX],
};

/// Writes the text map of an array. At `NoMemory` nothing is written.
pub fn write_picture<W: Write, D: Disk>(
    alloc: Global,
    array: &Array<D>,
    out: &mut W,
) -> Result<(), FaultKind>
    ensures few { IfErr result (λ kind. kind ≢ FaultKind.TooManyLines) }
    ensures lost { IfErr result (IsOrderFault (Ask PictureAsked)) }
    ensures memory { result ≡ Err FaultKind.NoMemory → out.new ≡ out.old }
    ensures grows { result ≢ Err FaultKind.WriteFault → AddsBytes (W.contents out.old) (W.contents out.new) }
    ensures adds { OnOk result (AddsSome (W.contents out.old) (W.contents out.new)) }
    ensures answers { OnOk result
        (AppendsAnswer (Ask PictureAsked) array.now array.now (W.contents out.old) (W.contents out.new)) }
{
    let picture = picture_of(alloc, array).map_err(|_| FaultKind::NoMemory)?;
    let folds = picture.folds(alloc).map_err(|_| FaultKind::NoMemory)?;
    write_map(out, &picture, &folds).map_err(|_| FaultKind::WriteFault)
}

/// The data of an array's pictures, which a failed array (`Broken`) has, too. The units are in order of host and LUN.
/// It fails if they can't be allocated.
pub fn picture_of<D: Disk>(alloc: Global, array: &Array<D>) -> Result<Picture, AllocError>
    ensures { IfOk result (IsPicture array.now) }
{
    let health = health_of(array.health());
    let groups = groups_of(alloc, array)?;
    let mut held = vec![in alloc; NOTHING; groups.len()]?;
    let units = units_of(alloc, array, &mut held)?;
    Ok(Picture {
        disks: array.disks(),
        extents: array.extents(),
        health,
        groups,
        units,
        held,
    })
}

// The groups, as a picture has them.
fn groups_of<D: Disk>(alloc: Global, array: &Array<D>) -> Result<Vec<Group>, AllocError>
    ensures { IfOk result (λ groups. groups.items ≡ groups_in array.now.store.book) }
{
    let views = array.group_views(alloc)?;
    groups_shown(alloc, &views)
}

fn groups_shown(alloc: Global, views: &[GroupView]) -> Result<Vec<Group>, AllocError>
    ensures { IfOk result (λ groups. groups.items ≡ map group_shown views.now) }
{
    views.iter().map(|view| group_of(*view)).collect(alloc)
}

fn group_of(view: GroupView) -> Group
    ensures { result ≡ group_shown view }
{
    Group {
        class: class_of(view.class),
        members: view.members,
        blocks: view.blocks,
        slots: view.slots,
    }
}

fn class_of(class: Class) -> ar_picture::Class
    ensures { result ≡ class_shown class }
{
    match class {
        Class::Free => ar_picture::Class::Free,
        Class::Mirrored => ar_picture::Class::Mirrored,
        Class::Parity => ar_picture::Class::Parity,
    }
}

fn health_of(health: Health) -> ar_picture::Health
    ensures { result ≡ health_shown health }
{
    match health {
        Health::Whole => ar_picture::Health::Whole,
        Health::Out(disk) => ar_picture::Health::Out(disk),
        Health::Rebuilding(disk, done) => ar_picture::Health::Rebuilding(disk, done),
        Health::Broken => ar_picture::Health::Broken,
    }
}

// The existing units. Their blocks are counted in `held`, each at the group that holds it.
fn units_of<D: Disk>(
    alloc: Global,
    array: &Array<D>,
    held: &mut Vec<Held>,
) -> Result<Vec<Unit>, AllocError>
    requires tables { TablesAgree array.now.store.book }
    requires groups { length held.old.items ≡ length array.now.store.book.groups }
    requires fresh { (group place : ℕ) → held_at held.old.items group place ≡ 0 }
    ensures units { IfOk result (λ units. units.items ≡ units_in array.now.store.book) }
    ensures held { OnOk result (HoldsBlocks array.now.store.book held.new.items) }
{
    let mut units = Vec::new(alloc);
    for place in 0..UNITS_MAX {
        let unit = unit_at(array, place, held);
        list(&mut units, unit)?;
    }
    Ok(units)
}

// Appends a unit, if there is one.
fn list(units: &mut Vec<Unit>, unit: Option<Unit>) -> Result<(), AllocError>
    ensures { OnOk result (units.new.items ≡ units.old.items ++ option_to_list unit) }
{
    if let Some(unit) = unit {
        units.push(unit)?;
    }
    Ok(())
}

// The unit with this place among all possible ones, if it exists. Its blocks are counted, each at the group that holds
// it.
fn unit_at<D: Disk>(array: &Array<D>, place: usize, held: &mut Vec<Held>) -> Option<Unit>
    requires place { place < 32 }
    requires tables { TablesAgree array.now.store.book }
    requires fresh { (group : ℕ) → held_at held.old.items group place ≡ 0 }
    ensures unit { result ≡ unit_at array.now.store.book (addr_at place) }
    ensures held { AddsHomes
        (unit_in array.now.store.book.units (addr_at place)).homes place held.old.items held.new.items }
{
    let addr = addr_at(place);
    let mut placed = 0;
    for rb in 0..u32::MAX {
        match array.home_of(addr, rb) {
            HomeOf::Absent => return None,
            HomeOf::Outside => return Some(shown(addr, rb, placed)),
            HomeOf::Unplaced => {}
            HomeOf::At(slot) => {
                placed += 1;
                count(held, slot.group, place);
            }
        }
    }
    unreachable!()
}

// The address with a place: that of LUN L of host H is 8 H + L.
fn addr_at(place: usize) -> Addr
    requires { place < 32 }
    ensures { result ≡ addr_at place }
{
    let Some(host) = Host::new((place / 8) as u8) else {
        unreachable!()
    };
    Addr {
        host,
        lun: (place % 8) as u8,
    }
}

// A unit with `blocks` blocks, of which `placed` have a home.
fn shown(addr: Addr, blocks: u32, placed: u32) -> Unit
    ensures { result ≡ record { host = addr.host.number; lun = addr.lun; blocks = blocks; placed = placed } }
{
    Unit {
        host: addr.host.number(),
        lun: addr.lun,
        blocks,
        placed,
    }
}

// Counts a block of the unit with this place at a group.
fn count(held: &mut Vec<Held>, group: u32, place: usize)
    requires place { place < 32 }
    requires few { held_at held.old.items group place + 1 < 2 ^ 32 }
    ensures { AddsOne group place held.old.items held.new.items }
{
    let group = group as usize;
    if group < held.len() {
        held[group].add(place);
    }
}
