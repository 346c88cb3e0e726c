// Discards sectors of a unit (UNMAP), block by block in ascending order. A block of which all sectors are discarded
// loses its home and its cache entry without access to a disk; the others are overwritten with zeros, as by a WRITE.
ghost use Rattle.std.specs.Prelude.{◌≡◌, ◌≢◌, ◌⊎◌, ◌+◌, ◌-◌, ◌*◌, ◌<◌, ◌≤◌, ◌==◌, ℕ, false, IsTrue, length};
ghost use Rattle.ar_disks.specs.declared.address.Key.{Key};
ghost use Rattle.ar_disks.specs.Block.{sectors_at, zeros};
ghost use Rattle.ar_disks.specs.Geometry.{sectors_of, block_len_of};
ghost use Rattle.ar_cache.specs.Backing.{stored, KeepsBacking};
ghost use Rattle.ar_volume.specs.Following.{ArrayFollows};
ghost use Rattle.ar_volume.specs.Image.{geometry_of, is_broken, knows_in, seen_at};
ghost use Rattle.ar_volume.specs.Sectors.{key_of};
ghost use Rattle.ar_volume.specs.Seen.{WritesSectors};
ghost use Rattle.ar_volume.specs.Unmap.{DiscardsBlocks, DiscardsPart, StopsBlocks, StopsPart, is_unwritten};
ghost use Rattle.ar_volume.specs.Unmap.{without_block};

use crate::Blocks;
use crate::transfer::zero_part;
use ar_disks::{Addr, Block, Completion, Disk, Geometry, Key};

impl<D: Disk> Blocks<D> {
    /// Discards sectors `lba` to `lba + count - 1` of a unit, all below 1,048,576, until a block fails: they read as
    /// zeros. Each of their blocks is accessed once, in ascending order; one of which all sectors are discarded, and
    /// one without a home and a cache entry, accesses no disk. Requests no memory but for a new entry of the cache,
    /// which is written through if that is refused.
    pub fn unmap(
        &mut self,
        geometry: Geometry,
        addr: Addr,
        lba: u32,
        count: u32,
        block: &mut Block,
    ) -> Completion
        requires sound { is_broken self.old ≡ false }
        requires shape { geometry ≡ geometry_of self.old }
        requires whole { length block.old ≡ block_len_of geometry }
        requires known { (rb : ℕ) → rb * sectors_of geometry < lba + count
            → IsTrue (knows_in self.old.store (key_of addr rb)) }
        requires small { lba + count ≤ 1048576 }

        ensures zeroed { result ≡ Completion.Done
            → WritesSectors self.old addr lba count (zeros (count * 512)) self.new }
        ensures discards { result ≡ Completion.Done → DiscardsBlocks addr lba count self.old self.new }
        ensures stopped { result ≡ Completion.Broken → StopsBlocks addr lba count self.old self.new }
        ensures answer { result ≡ stored (is_broken self.new) }
        ensures follows { ArrayFollows self.old self.new }
        ensures len { length block.new ≡ length block.old }
    {
        let sectors = geometry.sectors();
        let end = lba + count;
        let mut at = lba;
        while at < end {
            let first = at % sectors;
            let part = (sectors - first).min(end - at);
            let key = Key {
                addr,
                rb: at / sectors,
            };
            match self.unmap_part(geometry, key, first, part, block) {
                Completion::Done => at += part,
                Completion::Broken => return Completion::Broken,
            }
        }
        Completion::Done
    }

    // Discards sectors of one block.
    fn unmap_part(
        &mut self,
        geometry: Geometry,
        key: Key,
        first: u32,
        count: u32,
        block: &mut Block,
    ) -> Completion
        requires sound { is_broken self.old ≡ false }
        requires shape { geometry ≡ geometry_of self.old }
        requires known { IsTrue (knows_in self.old.store key) }
        requires whole { length block.old ≡ block_len_of geometry }
        requires within { first + count ≤ sectors_of geometry }

        ensures inside { result ≡ Completion.Done → (i : ℕ) → first ≤ i → i < first + count
            → sectors_at (seen_at self.new key) i 1 ≡ sectors_at (zeros (count * 512)) (i - first) 1 }
        ensures outside { result ≡ Completion.Done → (i : ℕ) → (i < first) ⊎ (first + count ≤ i)
            → i < sectors_of geometry → sectors_at (seen_at self.new key) i 1 ≡ sectors_at (seen_at self.old key) i 1 }
        ensures others { result ≡ Completion.Done → (k : Key) → k ≢ key → seen_at self.new k ≡ seen_at self.old k }
        ensures discards { result ≡ Completion.Done
            → DiscardsPart (count == sectors_of geometry) (is_unwritten self.old key) self.old key self.new }
        ensures stopped { result ≡ Completion.Broken
            → StopsPart (count == sectors_of geometry) (is_unwritten self.old key) self.old key self.new }

        ensures answer { result ≡ stored (is_broken self.new) }
        ensures keeps { KeepsBacking geometry_of (λ b. knows_in b.store) is_broken ArrayFollows self.old self.new }
        ensures len { length block.new ≡ length block.old }
    {
        if count == geometry.sectors() {
            self.discard(key);
            return Completion::Done;
        }
        if self.is_unwritten(key) {
            return Completion::Done;
        }
        zero_part(self, key, first as usize, count as usize, block)
    }

    // Discards a block: it loses its home and its cache entry.
    fn discard(&mut self, key: Key)
        requires { IsTrue (knows_in self.old.store key) }
        ensures discards { self.new ≡ without_block self.old key }
        ensures zeros { seen_at self.new key ≡ zeros (block_len_of (geometry_of self.old)) }
        ensures others { (k : Key) → k ≢ key → seen_at self.new k ≡ seen_at self.old k }
        ensures follows { ArrayFollows self.old self.new }
    {
        self.behind.store.release(key);
        self.cache.discard(key);
        self.discards = self.discards.saturating_add(1);
    }

    /// Returns whether a block has neither a home nor a cache entry, so that it reads as zeros.
    pub fn is_unwritten(&self, key: Key) -> bool
        ensures { result ≡ is_unwritten self.now key }
    {
        !(self.cache.holds(key) || self.book().home(key).is_some())
    }
}
