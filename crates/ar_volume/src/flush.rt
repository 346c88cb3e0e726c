// Destages cached blocks to the disks. No block changes its contents unless the array fails.
ghost use Rattle.std.specs.Prelude.{◌≡◌, ◌≢◌, ◌≤◌, ◌+◌, ◌-◌, ℕ, None, false, IsTrue, []};
ghost use Rattle.ar_disks.specs.declared.address.Key.{Key};
ghost use Rattle.ar_cache.specs.Backing.{InTurn, StopsInTurn, stored};
ghost use Rattle.ar_cache.specs.Cache.{cached};
ghost use Rattle.ar_volume.specs.Flush.{FlushesOne, FlushesPart, after_part};
ghost use Rattle.ar_volume.specs.Following.{ArrayFollows};
ghost use Rattle.ar_volume.specs.Image.{is_broken};
ghost use Rattle.ar_volume.specs.Sectors.{key_of, keys_from};
ghost use Rattle.ar_volume.specs.Seen.{SameSeen, KeepsCachedBut};
ghost use Rattle.ar_volume.specs.Storing.{BreaksForced, EmptiesCache, ForcesBlock, LeavesSome};

use crate::{Blocks, Flush, Health};
use ar_disks::{Addr, Completion, Disk, Key};

/// The most blocks that one call destages for a unit's host: 4 MiB. Other hosts' commands are executed between calls.
const PART_BLOCKS: u32 = 64;

/// How the destaging of a part of a unit's cached blocks ended.
#[derive(Clone, Copy, Debug, PartialEq, Eq)]
pub enum PartFlush {
    /// None of the part's blocks is cached any more, and the unit has no block after them.
    Done,
    /// None of the part's blocks is cached any more, and the unit's next part begins at this block.
    More(u32),
    /// There is no such unit, and nothing changed.
    Absent,
    /// The array has failed, before or during this call.
    Broken,
}

impl<D: Disk> Blocks<D> {
    /// Destages the least recently used cached block.
    pub fn flush_one(&mut self) -> Flush
        ensures flushes { FlushesOne self.old result self.new }
        ensures seen { is_broken self.new ≡ false → SameSeen self.old self.new }
        ensures follows { ArrayFollows self.old self.new }
    {
        if self.is_broken() {
            return Flush::Broken;
        }
        self.cache.flush_one(&mut self.behind)
    }

    /// Destages all cached blocks, the least recently used first. With an empty cache nothing changes.
    pub fn flush_all(&mut self) -> Completion
        ensures answer { result ≡ stored (is_broken self.new) }
        ensures emptied { result ≡ Completion.Done → EmptiesCache self.old self.new }
        ensures quiet { self.old.cache.entries ≡ [] → self.new ≡ self.old }
        ensures stopped { result ≡ Completion.Broken → is_broken self.old ≡ false → LeavesSome self.old self.new }
        ensures lost { IsTrue (is_broken self.old) → self.new ≡ self.old }
        ensures seen { result ≡ Completion.Done → SameSeen self.old self.new }
        ensures follows { ArrayFollows self.old self.new }
    {
        if self.is_broken() {
            return Completion::Broken;
        }
        self.cache.flush_all(&mut self.behind)
    }

    /// Destages those of 64 blocks of the unit at `addr` that are cached, from block `first` on and in ascending order,
    /// and no other block.
    pub fn flush_part(&mut self, addr: Addr, first: u32) -> PartFlush
        ensures flushes { FlushesPart self.old addr first result self.new }
        ensures seen { is_broken self.new ≡ false → SameSeen self.old self.new }
        ensures follows { ArrayFollows self.old self.new }
    {
        if let Health::Broken = self.health() {
            return PartFlush::Broken;
        }
        let Some(sectors) = self.sectors(addr) else {
            return PartFlush::Absent;
        };
        let end = (sectors - 1) / self.geometry().sectors();
        let last = end.min(first.saturating_add(PART_BLOCKS - 1));
        match self.force(addr, first, last) {
            Completion::Done => after_part(last, end),
            Completion::Broken => PartFlush::Broken,
        }
    }

    // Destages one block, if it is cached.
    fn flush_key(&mut self, key: Key) -> Completion
        requires sound { is_broken self.old ≡ false }
        ensures answer { result ≡ stored (is_broken self.new) }
        ensures gone { result ≡ Completion.Done → cached self.new.cache key ≡ None }
        ensures others { result ≡ Completion.Done → (k : Key) → k ≢ key
            → cached self.new.cache k ≡ cached self.old.cache k }
        ensures forces { result ≡ Completion.Done → ForcesBlock self.old key self.new }
        ensures breaks { result ≡ Completion.Broken → BreaksForced self.old key self.new }
        ensures seen { result ≡ Completion.Done → SameSeen self.old self.new }
        ensures follows { ArrayFollows self.old self.new }
    {
        self.cache.flush_key(key, &mut self.behind)
    }

    /// Destages those of the unit's blocks `first` to `last` that are cached, in ascending order, and no other.
    pub fn force(&mut self, addr: Addr, first: u32, last: u32) -> Completion
        requires sound { is_broken self.old ≡ false }
        requires few { last ≤ 1048576 }
        ensures answer { result ≡ stored (is_broken self.new) }
        ensures forced { result ≡ Completion.Done → (rb : ℕ) → first ≤ rb → rb ≤ last
            → cached self.new.cache (key_of addr rb) ≡ None }
        ensures spared { result ≡ Completion.Done → KeepsCachedBut self.old.cache self.new.cache addr first (last + 1) }
        ensures in_turn { result ≡ Completion.Done
            → InTurn ForcesBlock (keys_from addr first (last + 1 - first)) self.old self.new }
        ensures stopped { result ≡ Completion.Broken
            → StopsInTurn ForcesBlock BreaksForced (keys_from addr first (last + 1 - first)) self.old self.new }
        ensures seen { result ≡ Completion.Done → SameSeen self.old self.new }
        ensures follows { ArrayFollows self.old self.new }
    {
        let mut rb = first;
        while rb <= last {
            match self.flush_key(Key { addr, rb }) {
                Completion::Done => rb += 1,
                Completion::Broken => return Completion::Broken,
            }
        }
        Completion::Done
    }
}

// How a part ended whose last block was destaged; block `end` is the unit's last.
fn after_part(last: u32, end: u32) -> PartFlush
    ensures { result ≡ after_part last end }
{
    if last < end {
        PartFlush::More(last + 1)
    } else {
        PartFlush::Done
    }
}
