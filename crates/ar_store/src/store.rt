// Reads and writes of blocks by key. The invariant: tables and disks agree, a slot that names a block holds one, and
// until the array fails one group is free (`IsKept`).

use crate::Opening;
use crate::space::Space;
use crate::way::Way;
use ar_book::{Book, Class, Slot};
use ar_disks::{Block, Completion, Disk, Key};
use ar_extents::{DiskSet, Health};
use std::marker::Model;

/// The disks of an array and the tables of its groups and units. Both are public for the crates that move blocks in the
/// background; whoever changes them keeps `IsKept`.
#[derive(Drop)]
pub struct Store<D: Disk> {
    pub space: Space<D>,
    /// The buffer of a block that moves from one slot to another.
    pub block: Block,
    // How many puts have moved a block from a parity group to a mirrored one. It saturates, and no contract sees it.
    pub(crate) promotions: u64,
}

impl<D: Disk> Model for Store<D> {
    ghost use Rattle.ar_store.specs.Store.{StoreState};
    ghost use Rattle.ar_store.specs.Kept.{FieldsAgree};
    ghost use Rattle.ar_store.specs.Spaces.{store_in};

    ghost Value = { StoreState };

    ghost view = { λ s. store_in s.space };

    ghost invariant = { λ s. FieldsAgree (store_in s.space) s.block s.space.scratch.geometry };
}

impl<D: Disk> Store<D> {
    ghost use Rattle.std.specs.Prelude.{◌≡◌, ◌≢◌, ◌↔◌, ℕ, ◌≤◌, length, None, IsSome};
    ghost use Rattle.ar_disks.specs.Geometry.{block_len_of};
    ghost use Rattle.ar_disks.specs.declared.address.Key.{Key};
    ghost use Rattle.ar_extents.specs.Groups.{outcome_of};
    ghost use Rattle.ar_book.specs.Tables.{home, free_groups, HasBlock};
    ghost use Rattle.ar_book.specs.Choices.{IsLowestFree};
    ghost use Rattle.ar_store.specs.Slots.{stands, AllStand, KeepsContents, OthersStand, SurvivesLossOf};
    ghost use Rattle.ar_store.specs.Kept.{IsKept};
    ghost use Rattle.ar_extents.specs.Plans.{CarriesOut};
    ghost use Rattle.ar_store.specs.Store.{members_of};
    ghost use Rattle.ar_store.specs.Placing.{SameUnits, IsVacant};
    ghost use Rattle.ar_store.specs.Plans.{get_plan, open_plan};
    ghost use Rattle.ar_store.specs.Calls.{Opens, IfOpened, HoldsZeros};
    ghost use Rattle.ar_store.specs.Spaces.{PutDone, MoveDone};

    /// Returns the health of the array: `Whole` (all disks present), `Out` (one has failed), `Rebuilding` (its
    /// replacement is being rebuilt) or `Broken` (failed: two disks missing at once). Its contract states the store's
    /// invariant.
    pub fn health(&self) -> Health
        ensures health { result ≡ self.now.disks.health }
        ensures kept { IsKept self.now }

        // Redundancy: while the array is healthy, it survives the loss of any one disk.
        ensures redundant { result ≡ Health.Whole → (d : ℕ) → SurvivesLossOf self.now d }

        // Until the array fails, every key reads as a block of full length.
        ensures whole { result ≢ Health.Broken → (k : Key)
            → length (stands self.now k) ≡ block_len_of self.now.disks.geometry }
    {
        self.space.disks.health()
    }

    /// Returns the disk set.
    pub fn disks(&self) -> &DiskSet<D>
        ensures { result.now ≡ self.now.disks }
    {
        &self.space.disks
    }

    /// Returns the tables of groups and units.
    pub fn book(&self) -> &Book
        ensures { result.now ≡ self.now.book }
    {
        &self.space.book
    }

    /// Returns how many puts have moved a block from a parity group to a mirrored one. The number saturates.
    pub fn promotions(&self) -> u64 {
        self.promotions
    }

    /// Returns how many squeezes were completed. The number saturates.
    pub fn squeezes(&self) -> u64 {
        self.space.squeezes
    }

    /// Reads the block of `key` into `into`, a block of the store's length. A block without a home (the slot that a
    /// block is mapped to) reads as zeros and accesses no disk; otherwise exactly its slot is read. Returns `Broken`
    /// exactly if the array has failed after the call, with or without a home; the contents of `into` are then
    /// unspecified, and an array that had failed before is unchanged.
    pub fn get(&mut self, key: Key, into: &mut [u8]) -> Completion
        requires whole { length into.old ≡ block_len_of self.old.disks.geometry }

        ensures outcome { result ≡ outcome_of self.new.disks.health }
        ensures given { result ≡ Completion.Done → into.new ≡ stands self.old key }

        // Exactly these accesses are made.
        ensures plan { CarriesOut (get_plan self.old key) self.old.disks self.new.disks }
        ensures keeps { KeepsContents self.old self.new }
    {
        // Called for its contract: until the array fails, every block has full length.
        let _health = self.health();
        self.get_part(key, 0, into)
    }

    /// Writes the block of `key` from `from`, a block of the store's length, and gives it the next write sequence
    /// number (its `stamp`). There is always a slot for it: `put_case` states which, and `put_plan` which accesses are
    /// made. Returns `Broken` exactly if the array has failed after the call: the block then keeps its old home, other
    /// homes have changed only if the array failed after all copies of a squeeze (`BreaksPut`, `Squeezes`), and an
    /// array that had failed before is unchanged.
    pub fn put(&mut self, key: Key, from: &[u8]) -> Completion
        requires block { HasBlock self.old.book key }
        requires whole { length from.now ≡ block_len_of self.old.disks.geometry }

        // The result, the tables, and exactly which accesses are made.
        ensures done { PutDone self.old key result self.new }

        ensures put { result ≡ Completion.Done → stands self.new key ≡ from.now }
        ensures others { OthersStand self.old self.new key }
    {
        if let Health::Broken = self.space.disks.health() {
            return Completion::Broken;
        }
        let way = self.space.find_way(key, &mut self.block);
        let promotes = promotes(&self.space.book, key, way);
        let completion = self.space.write(key, way, from);
        let promoted = promotes && completion == Completion::Done;
        self.promotions = self.promotions.saturating_add(u64::from(promoted));
        completion
    }

    /// Gives a block without a home one by writing zeros: it goes where `put` would put it, accesses what a put
    /// accesses, and reads as before. After `Broken` it still has no home.
    pub fn place(&mut self, key: Key) -> Completion
        requires block { HasBlock self.old.book key }
        requires unplaced { home self.old.book key ≡ None }

        ensures done { PutDone self.old key result self.new }
        ensures placed { result ≡ Completion.Done → IsSome (home self.new.book key) }
        ensures stands { AllStand self.old self.new }
    {
        if let Health::Broken = self.space.disks.health() {
            return Completion::Broken;
        }
        let way = self.space.find_way(key, &mut self.block);
        self.block.zero();
        self.space.write(key, way, self.block.bytes())
    }

    /// Moves a block from its home to the empty slot `slot`. The new slot is written before the tables drop the old
    /// one. The write sequence number stays, and the other slots of the new group keep their contents. Exactly the old
    /// slot is read, and then the new one written. After `Broken` the block keeps its old home; an array that had
    /// failed before is unchanged.
    pub fn move_rb(&mut self, key: Key, slot: Slot) -> Completion
        requires placed { IsSome (home self.old.book key) }
        requires hole { IsVacant self.old.book slot }

        ensures done { MoveDone self.old key slot result self.new }
        ensures units { SameUnits self.old.book self.new.book }
        ensures broken { self.old.disks.health ≡ Health.Broken → self.new ≡ self.old }
    {
        if let Health::Broken = self.space.disks.health() {
            return Completion::Broken;
        }
        let Some(from) = self.space.book.home(key) else {
            unreachable!()
        };
        self.space.move_block(key, from, slot, &mut self.block)
    }

    /// Opens the lowest free group as mirrored or parity while two are free. A parity group is filled with zeros, and
    /// nothing else is accessed. Returns `Broken` exactly if the array has failed after the call: the group may have
    /// been opened then, but an array that had failed before is unchanged.
    pub fn open_group(&mut self, class: Class) -> Opening
        requires { class ≢ Class.Free }

        ensures opens { Opens self.old self.new class result }
        ensures answer { (result ≡ Opening.Broken) ↔ (self.new.disks.health ≡ Health.Broken) }

        ensures parity { class ≡ Class.Parity → IfOpened result (HoldsZeros self.new) }
        ensures stands { AllStand self.old self.new }
        ensures units { SameUnits self.old.book self.new.book }

        // Exactly these accesses are made, if a group is opened.
        ensures plan { (group : ℕ) → 2 ≤ free_groups self.old.book → IsLowestFree self.old.book group
            → CarriesOut (open_plan class self.old.disks.geometry (members_of self.old group))
            self.old.disks self.new.disks }
        ensures broken { self.old.disks.health ≡ Health.Broken → self.new ≡ self.old }
    {
        if let Health::Broken = self.space.disks.health() {
            return Opening::Broken;
        }
        self.space.open_group(class)
    }
}

// Whether a block moves from a parity group to a mirrored one on this way: a hole is found for a block that has a home
// for nothing else.
fn promotes(book: &Book, key: Key, way: Way) -> bool {
    matches!(way, Way::Hole(_)) && book.home(key).is_some()
}
