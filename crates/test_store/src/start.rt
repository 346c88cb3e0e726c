// How stores begin, with groups worked by hand. Of the memory that is taken any one allocation may be refused, as a run
// with `--fail-alloc` does: the disks come back, and a second start takes them.
ghost use Rattle.std.specs.Prelude.{◌≡◌, ◌≤◌, All, map, IfOk, IfSome, length};
ghost use Rattle.ar_extents.specs.Set.{CanCount};

use crate::fixtures::{Shape, THREE_GROUPS, fused_disk, fused_disks};
use ar_book::Book;
use ar_disks::{Disk, FuseDisk, Geometry, Members, Place};
use ar_extents::{Health, StartFault};
use ar_store::{FourDisks, Store, four_fullest};
use std::alloc::{AllocError, Global};
use std::process::Abort;
use std::test::Fail;

// This many disks of the same extents.
fn of(disks: u8, extents: u16) -> Shape {
    Shape {
        disks,
        extents,
        ..THREE_GROUPS
    }
}

// The fault is this one, and all disks came back.
fn is_refused(rt: &impl Abort, shape: Shape, met: (StartFault, usize), fault: StartFault) {
    assert!(rt;
        met == (fault, usize::from(shape.disks)),
        "{met:?} for {shape:?}"
    );
}

// The extents of four disks.
fn four(places: [(u8, u16); 4]) -> Members {
    let [first, second, third, fourth] = places.map(|(disk, extent)| Place { disk, extent });
    Members {
        first,
        second,
        third,
        fourth,
    }
}

// Compares a group's extents with those that are wanted.
fn has_group(rt: &impl Abort, book: &Book, group: u32, wanted: Members) {
    assert!(rt; group < book.groups(), "group {group} isn't there");
    assert!(rt;
        book.members(group) == wanted,
        "the members of group {group}"
    );
}

// How many groups there are, and how many are free.
fn has_groups(rt: &impl Abort, book: &Book, groups: u32) {
    assert!(rt; book.groups() == groups, "{groups} groups");
    assert!(rt; book.free_groups() == groups, "{groups} free groups");
}

// How many extents of a disk are loose.
fn has_loose(rt: &impl Abort, store: &Store<FuseDisk>, disk: u8, wanted: u16) {
    assert!(rt; disk < store.disks().count(), "disk {disk} isn't there");
    assert!(rt;
        store.disks().loose(disk) == wanted,
        "loose extents of disk {disk}"
    );
}

fn is_new(rt: &impl Abort, store: &Store<FuseDisk>) {
    assert!(rt; store.health() == Health::Whole, "health");
    assert!(rt; store.book().geometry() == Geometry::SMALL, "geometry");
    assert!(rt; store.book().units() == 0, "units");
}

/// What a store is formed of.
#[derive(Clone, Copy)]
struct Formed<'a> {
    groups: u32,
    /// Members of some of its groups: a disk and an extent each.
    members: &'a [(u32, [(u8, u16); 4])],
    /// How many extents of some disks are loose.
    loose: &'a [(u8, u16)],
}

fn is_formed(rt: &impl Abort, store: &Store<FuseDisk>, formed: Formed) {
    is_new(rt, store);
    has_groups(rt, store.book(), formed.groups);
    for (group, places) in formed.members {
        has_group(rt, store.book(), *group, four(*places));
    }
    for (disk, extents) in formed.loose {
        has_loose(rt, store, *disk, *extents);
    }
}

// Starts a store, and compares what it is formed of where that is given. Disks of which none is made come back, with
// the reason. (Only this function owns a store, since each that does costs its proof the more.)
fn begin(
    rt: &impl Abort,
    alloc: Global,
    disks: Vec<FuseDisk>,
    formed: Option<Formed>,
) -> Option<(StartFault, Vec<FuseDisk>)>
    requires { All CanCount (map (λ disk. disk.disk) disks.items) }
    ensures { IfSome result (λ back. back.1 ≡ disks) }
{
    match Store::start(alloc, disks) {
        Ok(store) => {
            if let Some(formed) = formed {
                is_formed(rt, &store, formed);
            }
            None
        }
        Err(back) => Some(back),
    }
}

// Starts a store, a second time where memory is refused at first.
fn forms(rt: &impl Abort, alloc: Global, shape: Shape, formed: Formed) -> Result<(), Fail> {
    let disks = fused_disks(alloc, shape)?;
    let Some((fault, back)) = begin(rt, alloc, disks, Some(formed)) else {
        return Ok(());
    };
    is_refused(rt, shape, (fault, back.len()), StartFault::NoMemory);
    match begin(rt, alloc, back, Some(formed)) {
        None => Ok(()),
        Some((fault, _)) => Err(Fail::new(fault)),
    }
}

#[test]
fn four_disks_form_a_group_of_each_extent(rt: HostRuntime) -> Result<(), Fail> {
    let formed = Formed {
        groups: 3,
        members: &[
            (0, [(0, 0), (1, 0), (2, 0), (3, 0)]),
            (1, [(0, 1), (1, 1), (2, 1), (3, 1)]),
            (2, [(0, 2), (1, 2), (2, 2), (3, 2)]),
        ],
        loose: &[(0, 0), (1, 0), (2, 0), (3, 0)],
    };
    forms(&rt, rt.alloc(), of(4, 3), formed)
}

#[test]
fn five_disks_form_groups_in_turn(rt: HostRuntime) -> Result<(), Fail> {
    let formed = Formed {
        groups: 5,
        members: &[
            (0, [(0, 0), (1, 0), (2, 0), (3, 0)]),
            (1, [(0, 1), (1, 1), (2, 1), (4, 0)]),
            (2, [(0, 2), (1, 2), (3, 1), (4, 1)]),
            (3, [(0, 3), (2, 2), (3, 2), (4, 2)]),
            (4, [(1, 3), (2, 3), (3, 3), (4, 3)]),
        ],
        loose: &[(0, 0), (1, 0), (2, 0), (3, 0), (4, 0)],
    };
    forms(&rt, rt.alloc(), of(5, 4), formed)
}

#[test]
fn extents_that_no_four_disks_have_stay_loose(rt: HostRuntime) -> Result<(), Fail> {
    let formed = Formed {
        groups: 1,
        members: &[(0, [(0, 0), (1, 0), (2, 0), (3, 0)])],
        loose: &[(0, 0), (1, 0), (2, 0), (3, 0), (4, 1), (5, 1), (6, 1)],
    };
    forms(&rt, rt.alloc(), of(7, 1), formed)
}

// The most disks that there may be.
#[test]
fn the_widest_store_begins(rt: HostRuntime) -> Result<(), Fail> {
    let formed = Formed {
        groups: 3,
        members: &[(2, [(8, 0), (9, 0), (10, 0), (11, 0)])],
        loose: &[(0, 0), (11, 0)],
    };
    forms(&rt, rt.alloc(), of(12, 1), formed)
}

// The most extents.
#[test]
fn the_longest_store_begins(rt: HostRuntime) -> Result<(), Fail> {
    let formed = Formed {
        groups: 1_024,
        members: &[(1_023, [(0, 1_023), (1, 1_023), (2, 1_023), (3, 1_023)])],
        loose: &[(0, 0), (3, 0)],
    };
    forms(&rt, rt.alloc(), of(4, 1_024), formed)
}

// Disks that make no store are returned.
fn start_refuses(
    rt: &impl Abort,
    alloc: Global,
    shape: Shape,
    fault: StartFault,
) -> Result<(), Fail> {
    match begin(rt, alloc, fused_disks(alloc, shape)?, None) {
        None => Err(Fail::new("a store was made of too few disks, too many or none")),
        Some((met, back)) => {
            is_refused(rt, shape, (met, back.len()), fault);
            Ok(())
        }
    }
}

#[test]
fn disks_that_make_no_store_are_handed_back(rt: HostRuntime) -> Result<(), Fail> {
    for (disks, extents, fault) in [
        (3, 2, StartFault::BadCount),
        (13, 2, StartFault::BadCount),
        (4, 0, StartFault::WrongSize),
    ] {
        start_refuses(&rt, rt.alloc(), of(disks, extents), fault)?;
    }
    Ok(())
}

// The last disk is longer.
fn unlike(alloc: Global) -> Result<Vec<FuseDisk>, AllocError>
    ensures { IfOk result (λ disks. All CanCount (map (λ disk. disk.disk) disks.items)) }
{
    let mut unlike = fused_disks(alloc, of(3, 2))?;
    unlike.push(fused_disk(alloc, of(4, 3), 0)?)?;
    Ok(unlike)
}

// How long the last disk is.
fn has_last_of(rt: &impl Abort, disks: &[FuseDisk], extents: u16) {
    assert!(rt;
        disks.last().map(Disk::extents) == Some(extents),
        "the last disk"
    );
}

#[test]
fn a_disk_of_another_length_is_handed_back(rt: HostRuntime) -> Result<(), Fail> {
    match begin(&rt, rt.alloc(), unlike(rt.alloc())?, None) {
        None => Err(Fail::new("a store was made of unlike disks")),
        Some((met, back)) => {
            is_refused(&rt, of(4, 2), (met, back.len()), StartFault::WrongSize);
            has_last_of(&rt, &back, 3);
            Ok(())
        }
    }
}

fn are_fullest(rt: &impl Abort, counts: &[u16], wanted: Option<FourDisks>)
    requires { length counts.now ≤ 12 }
{
    assert!(rt; four_fullest(counts) == wanted, "{counts:?}");
}

#[test]
fn the_fullest_disks_stand_in_ascending_order(rt: HostRuntime) {
    let found = FourDisks {
        first: 1,
        second: 2,
        third: 4,
        fourth: 5,
    };
    are_fullest(&rt, &[2, 7, 3, 2, 9, 3], Some(found));
    let lowest = FourDisks {
        first: 0,
        second: 2,
        third: 3,
        fourth: 4,
    };
    are_fullest(&rt, &[1, 0, 1, 1, 1, 1], Some(lowest));
    are_fullest(&rt, &[5, 0, 0, 5, 5, 0], None);
    are_fullest(&rt, &[], None);
}
