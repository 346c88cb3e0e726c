// Disks that aren't taken: the first of several reasons is reported, and the disk is returned.
use crate::calls::{Answer, Call, Step, play};
use crate::fixtures::{FOUR_GROUPS, WHOLE};
use Answer::{Done, HandedBack, Now};
use Call::{Replace, TakeOut};
use ar_extents::{DiskRefusal, Health};

const WHILE_WHOLE: [Step; 3] = [
    (Replace(4, 5, WHOLE), HandedBack(DiskRefusal::NoSuchDisk, 5)),
    (Replace(3, 5, WHOLE), HandedBack(DiskRefusal::NotOut, 5)),
    (Call::Health, Now(Health::Whole)),
];

const WHILE_OUT: [Step; 9] = [
    (TakeOut(3), Done),
    (
        Replace(255, 5, WHOLE),
        HandedBack(DiskRefusal::NoSuchDisk, 5),
    ),
    (Replace(2, 5, WHOLE), HandedBack(DiskRefusal::NotOut, 5)),
    (Replace(3, 5, WHOLE), HandedBack(DiskRefusal::WrongSize, 5)),
    (Replace(3, 3, WHOLE), HandedBack(DiskRefusal::WrongSize, 3)),
    (Call::Health, Now(Health::Out(3))),
    (Replace(3, 4, WHOLE), Done),
    (Replace(3, 4, WHOLE), HandedBack(DiskRefusal::NotOut, 4)),
    (Call::Health, Now(Health::Rebuilding(3, 0))),
];

const WHILE_BROKEN: [Step; 5] = [
    (TakeOut(0), Done),
    (TakeOut(1), Done),
    (Replace(9, 5, WHOLE), HandedBack(DiskRefusal::Broken, 5)),
    (Replace(0, 4, WHOLE), HandedBack(DiskRefusal::Broken, 4)),
    (Call::Health, Now(Health::Broken)),
];

#[test]
fn disks_are_refused_in_order(rt: HostRuntime) {
    play(&rt, rt.alloc(), FOUR_GROUPS, &[&WHILE_WHOLE, &WHILE_OUT]);
}

#[test]
fn no_disk_is_replaced_on_broken_disks(rt: HostRuntime) {
    play(&rt, rt.alloc(), FOUR_GROUPS, &[&WHILE_BROKEN]);
}
