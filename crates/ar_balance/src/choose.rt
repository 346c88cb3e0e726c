// The rule's choice. Ties go to the lowest disk and group, so that the choice is unique.
ghost use Rattle.std.specs.Prelude.{◌≡◌, ◌≢◌, ◌↔◌, ℕ, ◌+◌, ◌<◌, ◌≤◌, length, slice_index, Some, IfSome};
ghost use Rattle.std.specs.Prelude.{IfNone, IsTrue};
ghost use Rattle.ar_extents.specs.declared.health.Health.TheVariants.{Whole};
ghost use Rattle.ar_extents.specs.Loose.{loose_count, lowest_loose};
ghost use Rattle.ar_store.specs.Kept.{IsSpace};
ghost use Rattle.ar_store.specs.Spaces.{store_in};
ghost use Rattle.ar_store.specs.Forming.{AreFullest, HasFewLoose};
ghost use Rattle.ar_balance.specs.Rule.{AreLooseCounts, HasFewest, HasFewestBelow, HasMost, HasMostBelow};
ghost use Rattle.ar_balance.specs.Rule.{IsMemberOn, IsOff, CanShift, NamesShift, IsEven};

use ar_book::Book;
use ar_disks::{Disk, Members, Place};
use ar_extents::DiskSet;
use ar_store::{Space, four_fullest};

// A move of a group's extent `from`, at a member position, to the unassigned extent `to`.
#[derive(Clone, Copy)]
pub(crate) struct Shift {
    pub(crate) group: u32,
    pub(crate) position: u8,
    pub(crate) from: Place,
    pub(crate) to: Place,
}

// A member position of a group.
#[derive(Clone, Copy)]
struct GroupMember {
    group: u32,
    position: u8,
}

// The extents of the next group; None if fewer than four disks have unassigned ones.
pub(crate) fn next_members<D: Disk>(set: &DiskSet<D>, counts: &[u16]) -> Option<Members>
    requires { AreLooseCounts set.now counts.now }
    ensures found { IfSome result (AreFullest set.now) }
    ensures none { IfNone result (HasFewLoose set.now) }
{
    let four = four_fullest(counts)?;
    Some(Members {
        first: lowest_place(set, four.first),
        second: lowest_place(set, four.second),
        third: lowest_place(set, four.third),
        fourth: lowest_place(set, four.fourth),
    })
}

// The number of unassigned extents of each disk; 0 past the last disk.
pub(crate) fn loose_counts<D: Disk>(set: &DiskSet<D>) -> [u16; 12]
    ensures { AreLooseCounts set.now result }
{
    let mut counts = [0; 12];
    for disk in 0..set.count() {
        counts[disk as usize] = set.loose(disk);
    }
    counts
}

// The lowest unassigned extent of a disk that has any.
fn lowest_place<D: Disk>(set: &DiskSet<D>, disk: u8) -> Place
    requires there { disk < length set.now.disks }
    requires some { 0 < loose_count set.now disk }
    ensures disk { result.disk ≡ disk }
    ensures lowest { lowest_loose set.now disk ≡ Some result.extent }
{
    match set.lowest_loose(disk) {
        Some(extent) => Place { disk, extent },
        None => unreachable!(),
    }
}

// The shift that the rule chooses for healthy disks, fewer than four of which have unassigned extents.
pub(crate) fn next_shift<D: Disk>(space: &Space<D>, counts: &[u16]) -> Option<Shift>
    requires counts { AreLooseCounts space.now.disks counts.now }
    requires whole { space.now.disks.health ≡ Whole }
    requires few { HasFewLoose space.now.disks }
    ensures names { IfSome result
        (λ shift. NamesShift (store_in space.now) shift.group shift.position shift.from shift.to) }
    ensures none { IfNone result (IsEven (store_in space.now)) }
{
    let on = emptiest(&space.disks, counts);
    let off = fullest(&space.disks, counts);
    if !is_uneven(counts, on, off) {
        return None;
    }
    let found = lowest_member(&space.book, on, off)?;
    Some(Shift {
        group: found.group,
        position: found.position,
        from: space.book.members(found.group).at(found.position),
        to: lowest_place(&space.disks, off),
    })
}

// The disk with the fewest unassigned extents, the lowest on ties.
fn emptiest<D: Disk>(set: &DiskSet<D>, counts: &[u16]) -> u8
    requires { AreLooseCounts set.now counts.now }
    ensures { HasFewest set.now result }
{
    let mut best = 0;
    for number in 1..set.count() {
        best = emptier(counts, best, number);
    }
    best
}

// `number` if its count is less than that of `best`, the first with the least below it; else `best`.
fn emptier(counts: &[u16], best: u8, number: u8) -> u8
    requires best { HasFewestBelow counts.now number best }
    requires there { number < length counts.now }
    ensures { HasFewestBelow counts.now (number + 1) result }
{
    if counts[number as usize] < counts[best as usize] {
        number
    } else {
        best
    }
}

// The disk with the most unassigned extents, the lowest on ties.
fn fullest<D: Disk>(set: &DiskSet<D>, counts: &[u16]) -> u8
    requires { AreLooseCounts set.now counts.now }
    ensures { HasMost set.now result }
{
    let mut best = 0;
    for number in 1..set.count() {
        best = fuller(counts, best, number);
    }
    best
}

// `number` if its count is greater than that of `best`, the first with the greatest below it; else `best`.
fn fuller(counts: &[u16], best: u8, number: u8) -> u8
    requires best { HasMostBelow counts.now number best }
    requires there { number < length counts.now }
    ensures { HasMostBelow counts.now (number + 1) result }
{
    if counts[number as usize] > counts[best as usize] {
        number
    } else {
        best
    }
}

// Whether the count of `few` is at least two less than that of `many`.
fn is_uneven(counts: &[u16], few: u8, many: u8) -> bool
    requires few { few < length counts.now }
    requires many { many < length counts.now }
    ensures { IsTrue result ↔ (slice_index counts.now few + 2 ≤ slice_index counts.now many) }
{
    counts[many as usize].saturating_sub(counts[few as usize]) >= 2
}

// The lowest group with a member on disk `on` and none on disk `off`, and that member.
fn lowest_member(book: &Book, on: u8, off: u8) -> Option<GroupMember>
    ensures can { IfSome result (λ found. CanShift book.now on off found.group found.position) }
    ensures least { IfSome result (λ found. (h p : ℕ) → h < found.group → CanShift book.now on off h p → ⊥) }
    ensures none { IfNone result ((g p : ℕ) → CanShift book.now on off g p → ⊥) }
{
    for group in 0..book.groups() {
        if let Some(position) = position_beside(book.members(group), on, off) {
            return Some(GroupMember { group, position });
        }
    }
    None
}

// The position of the member on disk `on`, if no member is on disk `off`.
fn position_beside(members: Members, on: u8, off: u8) -> Option<u8>
    ensures on { IfSome result (λ position. IsMemberOn members position on) }
    ensures off { IfSome result (λ _. IsOff members off) }
    ensures none { IfNone result ((p : ℕ) → IsMemberOn members p on → IsOff members off → ⊥) }
{
    match position_on(members, off) {
        Some(_) => None,
        None => position_on(members, on),
    }
}

// The position of the member on a disk.
fn position_on(members: Members, disk: u8) -> Option<u8>
    ensures found { IfSome result (λ position. IsMemberOn members position disk) }
    ensures none { IfNone result (IsOff members disk) }
{
    for position in 0..4 {
        if members.at(position).disk == disk {
            return Some(position);
        }
    }
    None
}
