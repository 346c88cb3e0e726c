// The result of destaging an entry, that is, of writing its dirty block to the backing.
use ar_disks::Key;

/// How the destaging of one entry ended.
#[derive(Clone, Copy, Debug, PartialEq, Eq)]
pub enum Flush {
    /// The entry of this key was destaged.
    Flushed(Key),
    /// There was no entry.
    Idle,
    /// The backing has failed; the entry stays.
    Broken,
}
