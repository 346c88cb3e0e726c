// Operations on the entries of a cache that need no backing.
ghost use Rattle.std.specs.Prelude.{◌≡◌, ◌+◌, ◌*◌, ◌≤◌, ◌↔◌, ◌∷◌, All, IsTrue, IsSome, length};
ghost use Rattle.std.specs.Bool.{OnTrue, OnFalse};
ghost use Rattle.std.specs.Map.{lookup};
ghost use Rattle.std.specs.Option.{option_copied};
ghost use Rattle.lru.specs.LruCache.{lru_cache};
ghost use Rattle.ar_disks.specs.Block.{part_at};
ghost use Rattle.ar_cache.specs.Cache as spec;
ghost use Rattle.ar_cache.specs.Cache.{same_key, without_key, CacheState};

use ar_disks::{Block, Key, SECTOR_LEN};
use lru::LruCache;

// The block of a key. Where there is no entry, as in a cache of capacity 0, the key isn't hashed.
pub(crate) fn peek(entries: &LruCache<Key, Block>, key: Key) -> Option<&Block>
    ensures { option_copied result ≡ lookup (same_key key) entries.now.entries }
{
    if entries.is_empty() {
        return None;
    }
    entries.peek(&key)
}

#[tactic(auto, unfolding(ar_disks::specs::Block::part_at))]
// Copies a part of a block, from sector `first` on.
pub(crate) fn copy_part(block: &Block, first: usize, into: &mut [u8])
    requires { 512 * first + length into.old ≤ length block.now }
    ensures { into.new ≡ part_at block.now first (length into.old) }
{
    let bytes = block.bytes();
    let from = first * SECTOR_LEN;
    let len = into.len();
    into.copy_from_slice(&bytes[from..from + len]);
}

// Copies a block into the entry of a key, which becomes the most recently used. Returns whether there is one.
pub(crate) fn replace(entries: &mut LruCache<Key, Block>, key: Key, block: &[u8]) -> bool
    requires { All (λ e. length e.1 ≡ length block.now) entries.old.entries }
    ensures found { IsTrue result ↔ IsSome (lookup (same_key key) entries.old.entries) }
    ensures put { OnTrue result (entries.new
        ≡ lru_cache ((key, block.now) ∷ without_key entries.old.entries key) entries.old.cap) }
    ensures absent { OnFalse result (entries.new ≡ entries.old) }
{
    if entries.is_empty() {
        return false;
    }
    match entries.get_mut(&key) {
        Some(present) => {
            present.copy_from_slice(block);
            true
        }
        None => false,
    }
}

// The key of the least recently used entry.
pub(crate) fn last_key(entries: &LruCache<Key, Block>) -> Option<Key>
    ensures { result ≡ spec.last_key entries.now.entries }
{
    let (key, _) = entries.peek_lru()?;
    Some(*key)
}
