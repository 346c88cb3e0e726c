// What a cache needs of the store behind it.
ghost use Rattle.std.specs.Prelude.{◌≡◌, ◌+◌, ◌*◌, ◌≤◌, IsTrue, List, ℕ, Bool, length};
ghost use Rattle.ar_disks.specs.Block.{part_at, with_sectors};
ghost use Rattle.ar_disks.specs.Geometry.{block_len_of};
ghost use Rattle.ar_disks.specs.declared.address.Key.{Key};
ghost use Rattle.ar_disks.specs.declared.geometry.Geometry.{Geometry};
ghost use Rattle.ar_cache.specs.Backing.{stored, KeepsBacking, SameBlocks, WritesKey};

use ar_disks::{Completion, Key};

/// A store of blocks by key, to which a cache destages.
///
/// A call returns `Broken` exactly if the backing has failed after the call. A failed backing stays failed, and its
/// blocks are then unspecified. No call changes its geometry or the keys that it knows.
pub trait Backing {
    /// The block that a key reads as.
    ghost block_at: { Self → Key → List ℕ };

    /// Whether the backing accepts the key.
    ghost knows: { Self → Key → Bool };

    /// The geometry of its blocks.
    ghost geometry: { Self → Geometry };

    /// Whether sectors of a key's block can be overwritten where they are, without the block being read.
    ghost in_place: { Self → Key → Bool };

    /// Whether the backing has failed.
    ghost is_broken: { Self → Bool };

    /// What the backing specifies of any call, from the state before it to the one after.
    ghost follows: { Self → Self → Type 0 };

    /// What it specifies in addition of a `get` or `get_part` of a key, whatever the result.
    ghost gets: { Self → Key → Self → Type 0 };

    /// What it specifies in addition of a `put` or `put_part` of a key that returns `Done`.
    ghost puts: { Self → Key → Self → Type 0 };

    /// What it specifies in addition of a `put` or `put_part` of a key that returns `Broken`.
    ghost breaks: { Self → Key → Self → Type 0 };

    /// Reads the block of a key that the backing knows. After `Broken` the contents of `into` are unspecified.
    fn get(&mut self, key: Key, into: &mut [u8]) -> Completion
        requires known { IsTrue (knows self.old key) }
        requires whole { length into.old ≡ block_len_of (geometry self.old) }
        ensures answer { result ≡ stored (is_broken self.new) }
        ensures content { result ≡ Completion.Done → into.new ≡ block_at self.old key }
        ensures blocks { result ≡ Completion.Done → SameBlocks (block_at self.old) (block_at self.new) }
        ensures keeps { KeepsBacking geometry knows is_broken follows self.old self.new }
        ensures gets { gets self.old key self.new };

    /// Reads a part of the block of a key that the backing knows, from sector `first` on. Callers read whole sectors.
    /// After `Broken` the contents of `into` are unspecified.
    fn get_part(&mut self, key: Key, first: usize, into: &mut [u8]) -> Completion
        requires known { IsTrue (knows self.old key) }
        requires within { 512 * first + length into.old ≤ block_len_of (geometry self.old) }
        ensures answer { result ≡ stored (is_broken self.new) }
        ensures content { result ≡ Completion.Done
            → into.new ≡ part_at (block_at self.old key) first (length into.old) }
        ensures blocks { result ≡ Completion.Done → SameBlocks (block_at self.old) (block_at self.new) }
        ensures keeps { KeepsBacking geometry knows is_broken follows self.old self.new }
        ensures gets { gets self.old key self.new };

    /// Writes the block of a key that the backing knows. After `Broken` its blocks are unspecified.
    fn put(&mut self, key: Key, from: &[u8]) -> Completion
        requires known { IsTrue (knows self.old key) }
        requires whole { length from.now ≡ block_len_of (geometry self.old) }
        ensures answer { result ≡ stored (is_broken self.new) }
        ensures written { result ≡ Completion.Done → WritesKey (block_at self.old) (block_at self.new) key from.now }
        ensures puts { result ≡ Completion.Done → puts self.old key self.new }
        ensures breaks { result ≡ Completion.Broken → breaks self.old key self.new }
        ensures keeps { KeepsBacking geometry knows is_broken follows self.old self.new };

    /// Returns whether `put_part` accepts a key that the backing knows.
    fn is_in_place(&self, key: Key) -> bool
        requires { IsTrue (knows self.now key) }
        ensures { result ≡ in_place self.now key };

    /// Overwrites the block of a key that the backing knows from sector `first` on. Callers pass whole sectors. After
    /// `Broken` the blocks are unspecified.
    fn put_part(&mut self, key: Key, first: usize, from: &[u8]) -> Completion
        requires known { IsTrue (knows self.old key) }
        requires in_place { IsTrue (in_place self.old key) }
        requires within { 512 * first + length from.now ≤ block_len_of (geometry self.old) }
        ensures answer { result ≡ stored (is_broken self.new) }
        ensures written { result ≡ Completion.Done → WritesKey (block_at self.old) (block_at self.new) key
            (with_sectors (block_at self.old key) first from.now) }
        ensures whole { result ≡ Completion.Done → length (block_at self.old key) ≡ block_len_of (geometry self.old) }
        ensures puts { result ≡ Completion.Done → puts self.old key self.new }
        ensures breaks { result ≡ Completion.Broken → breaks self.old key self.new }
        ensures keeps { KeepsBacking geometry knows is_broken follows self.old self.new };

    /// `follows` is reflexive.
    ghost follows_refl: { (s : Self) → follows s s };

    /// `follows` is transitive.
    ghost follows_trans: { (a b c : Self) → follows a b → follows b c → follows a c };
}
