// The least recently written mirrored block is read off the root of the search tree, without a scan.
ghost use Rattle.std.specs.Prelude.{◌≡◌, IfSome, IfNone};
ghost use Rattle.ar_disks.specs.declared.address.Key.{Key};
ghost use Rattle.ar_book.specs.Choices.{IsMirrored, IsNoNewer};

use crate::Book;
use ar_disks::Key;

impl Book {
    /// The mirrored block with the least write sequence number (`stamp`). Ties go to the unit created first, and in a
    /// unit to the lowest block. None if no block is at the mirrored level.
    pub fn oldest_mirrored(&self) -> Option<Key>
        ensures found { IfSome result (IsMirrored self.now) }
        ensures oldest { IfSome result (λ key. (other : Key) → IsMirrored self.now other
            → IsNoNewer self.now key other) }
        ensures none { IfNone result ((other : Key) → IsMirrored self.now other → ⊥) }
    {
        match self.index.oldest_of_all() {
            Some(age) => Some(age.key),
            None => None,
        }
    }
}
