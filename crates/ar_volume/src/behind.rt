// The store as the backing of the cache.
ghost use Rattle.std.specs.Prelude.{◌≡◌};
ghost use Rattle.ar_extents.specs.Changes.{is_broken_set};
ghost use Rattle.ar_store.specs.Placing.{is_put_in_place};
ghost use Rattle.ar_store.specs.Slots.{stands};
ghost use Rattle.ar_volume.specs.Image.{knows_in};
ghost use Rattle.ar_store.specs.Calls.{StoreFollows};
ghost use Rattle.ar_volume.specs.Following.{ReadsStored, PutsStored, BreaksStored};
ghost use Rattle.ar_volume.specs.Laws.{store_refl, store_then};

use ar_cache::Backing;
use ar_disks::{Completion, Disk, Key};
use ar_store::Store;

/// The store behind the cache. It knows the keys of units' blocks.
#[derive(Drop)]
pub struct Behind<D: Disk> {
    pub store: Store<D>,
    /// How many blocks were read from the store. It saturates, and no contract sees it.
    pub reads: u64,
}

impl<D: Disk> Backing for Behind<D> {
    ghost block_at = { λ b. stands b.store };

    ghost knows = { λ b. knows_in b.store };

    ghost geometry = { λ b. b.store.disks.geometry };

    ghost in_place = { λ b. is_put_in_place b.store.book };

    ghost is_broken = { λ b. is_broken_set b.store.disks.health };

    ghost follows = { λ old new. StoreFollows old.store new.store };

    ghost gets = { λ old key new. ReadsStored old.store key new.store };

    ghost puts = { λ old key new. PutsStored old.store key new.store };

    ghost breaks = { λ old key new. BreaksStored old.store key new.store };

    fn get(&mut self, key: Key, into: &mut [u8]) -> Completion {
        self.reads = self.reads.saturating_add(1);
        self.store.get(key, into)
    }

    fn get_part(&mut self, key: Key, first: usize, into: &mut [u8]) -> Completion {
        self.reads = self.reads.saturating_add(1);
        self.store.get_part(key, first, into)
    }

    fn put(&mut self, key: Key, from: &[u8]) -> Completion {
        self.store.put(key, from)
    }

    fn is_in_place(&self, key: Key) -> bool {
        self.store.puts_in_place(key)
    }

    fn put_part(&mut self, key: Key, first: usize, from: &[u8]) -> Completion {
        // The health is called for the length of the block alone.
        let _health = self.store.health();
        self.store.put_part(key, first, from)
    }

    ghost follows_refl = { λ s. store_refl s.store };

    ghost follows_trans = { λ a b c first later. store_then a.store b.store c.store first later };
}
