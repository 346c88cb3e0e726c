// What a scan of one group finds.
use ar_disks::Key;

/// What a group stores: the number of its occupied slots, the lowest empty one, and its oldest block if it is mirrored.
#[derive(Clone, Copy, Debug, PartialEq, Eq)]
pub struct Summary {
    pub used: u16,
    pub lowest_hole: Option<u16>,
    pub oldest: Option<Key>,
}
