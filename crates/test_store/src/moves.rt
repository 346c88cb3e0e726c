// Demotion and cleaning, by hand: which block goes to which slot. A SMALL mirrored group has four slots, one with
// parity six.
use crate::calls::{Answer, Call, Step, play};
use crate::fixtures::{FOUR_GROUPS, THREE_GROUPS};
use Answer::{Broken, Byte, Done, Idle, Is, Moved, Now, Used};
use Call::{Clean, Demote, Get, Group, Make, Put, PutEach, TakeOut};
use ar_book::Class;
use ar_extents::Health;

/// Six blocks fill one mirrored group and half of another. The oldest is demoted, and written again, which promotes it.
pub const DEMOTED_AND_PROMOTED: [Step; 8] = [
    (Make(12), Is(true)),
    (PutEach(1), Done),
    (Demote, Moved(0, 2, 0)),
    (Put(0, 0xAA), Done),
    (Group(0), Used(Class::Mirrored, 4)),
    (Group(1), Used(Class::Mirrored, 2)),
    (Group(2), Used(Class::Free, 0)),
    (Group(3), Used(Class::Free, 0)),
];

/// Two of six blocks are demoted. Of the two mirrored groups, which have two blocks each then, the first is emptied.
pub const DEMOTED_AND_CLEANED: [Step; 11] = [
    (Make(12), Is(true)),
    (PutEach(1), Done),
    (Demote, Moved(0, 2, 0)),
    (Demote, Moved(1, 2, 1)),
    (Clean, Moved(2, 1, 2)),
    (Clean, Moved(3, 1, 3)),
    (Clean, Idle),
    (Group(0), Used(Class::Free, 0)),
    (Group(1), Used(Class::Mirrored, 4)),
    (Group(2), Used(Class::Parity, 2)),
    (Group(3), Used(Class::Free, 0)),
];

// The block that was written again is the newer one.
const OLDEST_BY_WRITES: [Step; 15] = [
    (Demote, Idle),
    (Clean, Idle),
    (Make(4), Is(true)),
    (Demote, Idle),
    (Put(0, 0xAA), Done),
    (Put(1, 0xBB), Done),
    (Put(0, 0xCC), Done),
    (Demote, Moved(1, 1, 0)),
    (Get(1), Byte(0xBB)),
    (Demote, Moved(0, 1, 1)),
    (Group(0), Used(Class::Free, 0)),
    (Group(1), Used(Class::Parity, 2)),
    (Group(2), Used(Class::Free, 0)),
    (Group(3), Used(Class::Free, 0)),
    (Demote, Idle),
];

// Two mirrored groups are full and one of three is free: it is kept so, and no block fits in the other group.
const LAST_FREE_GROUP: [Step; 6] = [
    (Make(16), Is(true)),
    (PutEach(1), Done),
    (Demote, Idle),
    (Clean, Idle),
    (Group(2), Used(Class::Free, 0)),
    (Get(7), Byte(8)),
];

// Eight blocks are demoted to two groups with parity, of which the second takes two. Three of the first are written
// again. The one mirrored group can't be emptied then, and of the two others the one with fewer blocks is.
const PARITY_GROUPS: [Step; 20] = [
    (Make(16), Is(true)),
    (PutEach(1), Done),
    (Demote, Moved(0, 2, 0)),
    (Demote, Moved(1, 2, 1)),
    (Demote, Moved(2, 2, 2)),
    (Demote, Moved(3, 2, 3)),
    (Demote, Moved(4, 2, 4)),
    (Demote, Moved(5, 2, 5)),
    (Demote, Moved(6, 0, 0)),
    (Demote, Moved(7, 0, 1)),
    (Demote, Idle),
    (Put(0, 0xA0), Done),
    (Put(1, 0xA1), Done),
    (Put(2, 0xA2), Done),
    (Clean, Moved(6, 2, 0)),
    (Clean, Moved(7, 2, 1)),
    (Clean, Idle),
    (Group(0), Used(Class::Free, 0)),
    (Get(6), Byte(7)),
    (Get(7), Byte(8)),
];

const ON_BROKEN_DISKS: [Step; 9] = [
    (Make(4), Is(true)),
    (Put(0, 1), Done),
    (TakeOut(0), Done),
    (Demote, Moved(0, 1, 0)),
    (Get(0), Byte(1)),
    (TakeOut(1), Done),
    (Call::Health, Now(Health::Broken)),
    (Demote, Broken),
    (Clean, Broken),
];

#[test]
fn the_oldest_block_is_demoted_and_a_write_promotes_it(rt: HostRuntime) {
    play(&rt, rt.alloc(), FOUR_GROUPS, &[&DEMOTED_AND_PROMOTED]);
}

#[test]
fn of_two_groups_as_empty_the_lower_is_emptied(rt: HostRuntime) {
    play(&rt, rt.alloc(), FOUR_GROUPS, &[&DEMOTED_AND_CLEANED]);
}

#[test]
fn the_oldest_block_is_the_one_written_longest_ago(rt: HostRuntime) {
    play(&rt, rt.alloc(), FOUR_GROUPS, &[&OLDEST_BY_WRITES]);
}

#[test]
fn the_last_free_group_is_kept(rt: HostRuntime) {
    play(&rt, rt.alloc(), THREE_GROUPS, &[&LAST_FREE_GROUP]);
}

#[test]
fn groups_with_parity_are_cleaned_after_mirrored_ones(rt: HostRuntime) {
    play(&rt, rt.alloc(), FOUR_GROUPS, &[&PARITY_GROUPS]);
}

#[test]
fn nothing_is_moved_on_broken_disks(rt: HostRuntime) {
    play(&rt, rt.alloc(), FOUR_GROUPS, &[&ON_BROKEN_DISKS]);
}
