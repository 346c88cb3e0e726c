// The search tree: its leaves are the choices of the groups, in order. The numbers among them are in bit sets, the
// oldest blocks in a binary tree. There are fewer than twice as many leaves as groups; those past the last group are
// blank.
ghost use Rattle.std.specs.Prelude.{◌≡◌, ℕ, ◌+◌, ◌-◌, ◌*◌, ◌/◌, ◌^◌, ◌<◌, ◌≤◌, true, cond, length, [], ◌∷◌, ◌++◌, drop};
ghost use Rattle.std.specs.Prelude.{replicate, slice_index_or, slice_set, IfOk, OnOk, OnErr};
ghost use Rattle.std.specs.Option.{ForSome};
ghost use Rattle.ar_disks.specs.declared.address.Addr.{Addr};
ghost use Rattle.ar_index.specs.Bits.{has};
ghost use Rattle.ar_index.specs.Choices.{place_in, nothing, is_nothing, search_all, with_oldest, AreOfGroup};
ghost use Rattle.ar_index.specs.Tree.{leaves, free_in, if_in, leaves_under, CountsJoins, IsRight};

use crate::bits::Bits;
use crate::nodes::{node_at, put};
use crate::{Age, Choices, Steps};
use ar_disks::Addr;
use indexmap::IndexMap;
use std::alloc::{AllocError, Global};
use std::marker::Model;

/// A tree whose leaves are the choices of groups 0, 1, ..
///
/// Its nodes are joined for one order of units, which decides ties: each call that joins nodes takes the units, and
/// requires the tree to be right for them. It stays right when units are created or deleted, as long as the blocks in
/// its leaves keep their order.
///
/// Only `push` allocates memory.
#[derive(Drop)]
pub struct Tree {
    alloc: Global,
    nodes: Vec<Option<Age>>,
    size: usize,
    count: usize,
    mirrored: Bits,
    parity: Bits,
    free: Bits,
    frees: usize,
}

impl Model for Tree {
    ghost use Rattle.ar_index.specs.Tree.{TreeState, IsValidTree};

    ghost Value = { TreeState };

    ghost view = { λ t. record {
      size = t.size;
      count = t.count;
      nodes = t.nodes.items;
      mirrored = t.mirrored;
      parity = t.parity;
      free = t.free;
    } };

    ghost invariant = { λ t. IsValidTree (record {
      size = t.size;
      count = t.count;
      nodes = t.nodes.items;
      mirrored = t.mirrored;
      parity = t.parity;
      free = t.free;
    }) t.frees };
}

// The number of free groups after one of them changes from `was` free, or not, to `is`.
fn recount(free: usize, was: bool, is: bool) -> usize
    requires one { was ≡ true → 0 < free }
    requires fits { free + 1 < 2 ^ 64 }
    ensures { result + cond was 1 0 ≡ free + cond is 1 0 }
{
    match (was, is) {
        (true, false) => free - 1,
        (false, true) => free + 1,
        _ => free,
    }
}

// A group's number, if it is in the set.
fn number_in(bits: &Bits, leaf: usize) -> Option<u32>
    requires there { leaf / 64 < length bits.now }
    requires few { leaf < 2 ^ 32 }
    ensures { result ≡ if_in bits.now leaf }
{
    if bits.has(leaf) {
        Some(leaf as u32)
    } else {
        None
    }
}

// A group's number in 32 bits.
fn as_number(found: Option<usize>) -> Option<u32>
    requires { ForSome found (λ n. n < 2 ^ 32) }
    ensures { result ≡ found }
{
    match found {
        Some(number) => Some(number as u32),
        None => None,
    }
}

// Twice as many leaves, or one if there are none.
fn twice(size: usize) -> usize
    requires { size < 2 ^ 32 }
    ensures first { size ≡ 0 → result ≡ 1 }
    ensures twice { 0 < size → result ≡ 2 * size }
{
    if size == 0 { 1 } else { 2 * size }
}

impl Tree {
    /// A tree without leaves, right for any order of units.
    pub fn new(alloc: Global) -> Tree
        ensures empty { leaves result ≡ [] }
        ensures right { (place : Addr → ℕ) → IsRight place result }
    {
        Tree {
            alloc,
            nodes: Vec::new(alloc),
            size: 0,
            count: 0,
            mirrored: Bits::empty(alloc),
            parity: Bits::empty(alloc),
            free: Bits::empty(alloc),
            frees: 0,
        }
    }

    // A tree of `size` leaves, all blank, the first `count` of them in use.
    fn blank(alloc: Global, size: usize, count: usize) -> Result<Tree, AllocError>
        requires height { (h : ℕ) × (leaves_under h ≡ size) }
        requires within { count ≤ size }
        requires close { size ≤ 2 * count - 1 }
        requires few { size ≤ 2 ^ 24 }
        ensures leaves { IfOk result (λ tree. leaves tree ≡ replicate count nothing) }
        ensures right { IfOk result (λ tree. (place : Addr → ℕ) → IsRight place tree) }
    {
        let words = (size + 63) / 64;
        Ok(Tree {
            alloc,
            nodes: vec![in alloc; None; 2 * size]?,
            size,
            count,
            mirrored: Bits::with_words(alloc, words)?,
            parity: Bits::with_words(alloc, words)?,
            free: Bits::with_words(alloc, words)?,
            frees: 0,
        })
    }

    /// The number of leaves, one for each group.
    pub fn len(&self) -> usize
        ensures { result ≡ length (leaves self.now) }
    {
        self.count
    }

    /// The number of free groups.
    pub fn free(&self) -> usize
        ensures { result ≡ free_in (leaves self.now) }
    {
        self.frees
    }

    // The choices of one group.
    fn choices(&self, leaf: usize) -> Choices
        requires { leaf < length (leaves self.now) }
        ensures { result ≡ slice_index_or (leaves self.now) leaf nothing }
    {
        Choices {
            mirrored: number_in(&self.mirrored, leaf),
            parity: number_in(&self.parity, leaf),
            free: number_in(&self.free, leaf),
            oldest: node_at(&self.nodes, self.size + leaf),
        }
    }

    /// Whether the group's leaf is blank: it has no choice.
    pub fn is_blank(&self, leaf: usize) -> bool
        requires { leaf < length (leaves self.now) }
        ensures { result ≡ is_nothing (slice_index_or (leaves self.now) leaf nothing) }
    {
        self.choices(leaf).is_nothing()
    }

    /// The oldest mirrored block of one group.
    pub fn oldest(&self, leaf: usize) -> Option<Age>
        requires { leaf < length (leaves self.now) }
        ensures { result ≡ (slice_index_or (leaves self.now) leaf nothing).oldest }
    {
        node_at(&self.nodes, self.size + leaf)
    }

    /// The oldest mirrored block of all: that of a plain scan from the first group to the last, for the order of units
    /// that the tree is right for.
    pub fn oldest_of_all(&self) -> Option<Age>
        ensures { (place : Addr → ℕ) → IsRight place self.now → result ≡ (search_all place (leaves self.now)).oldest }
    {
        if self.size == 0 {
            return None;
        }
        node_at(&self.nodes, 1)
    }

    /// The lowest mirrored group that has a hole, as a plain scan finds it.
    pub fn lowest_mirrored(&self) -> Option<u32>
        ensures { (place : Addr → ℕ) → result ≡ (search_all place (leaves self.now)).mirrored }
    {
        as_number(self.mirrored.first())
    }

    /// The lowest parity group that has a hole.
    pub fn lowest_parity(&self) -> Option<u32>
        ensures { (place : Addr → ℕ) → result ≡ (search_all place (leaves self.now)).parity }
    {
        as_number(self.parity.first())
    }

    /// The lowest free group.
    pub fn lowest_free(&self) -> Option<u32>
        ensures { (place : Addr → ℕ) → result ≡ (search_all place (leaves self.now)).free }
    {
        as_number(self.free.first())
    }

    /// The lowest mirrored group after one that has a hole.
    pub fn mirrored_after(&self, leaf: usize) -> Option<u32>
        requires { leaf < length (leaves self.now) }
        ensures { (place : Addr → ℕ) → result ≡ (search_all place (drop (leaf + 1) (leaves self.now))).mirrored }
    {
        as_number(self.mirrored.after(leaf))
    }

    /// The lowest parity group after one that has a hole.
    pub fn parity_after(&self, leaf: usize) -> Option<u32>
        requires { leaf < length (leaves self.now) }
        ensures { (place : Addr → ℕ) → result ≡ (search_all place (drop (leaf + 1) (leaves self.now))).parity }
    {
        as_number(self.parity.after(leaf))
    }

    /// Sets the choices of one group. A step is a node that is joined: each that changes, and at most one that doesn't,
    /// as nothing above it is joined. There are at most 12 for up to 4,096 groups.
    pub fn set<V>(
        &mut self,
        leaf: usize,
        choices: &Choices,
        units: &IndexMap<Addr, V>,
        steps: &mut Steps,
    )
        requires there { leaf < length (leaves self.old) }
        requires own { AreOfGroup leaf choices.now }
        requires right { IsRight (place_in units.now.entries) self.old }
        ensures set { leaves self.new ≡ slice_set (leaves self.old) leaf choices.now }
        ensures right { IsRight (place_in units.now.entries) self.new }
        ensures still { (slice_index_or (leaves self.old) leaf nothing).oldest ≡ choices.now.oldest
            → steps.new.count ≡ steps.old.count }
        ensures counted { CountsJoins self.old self.new leaf steps.old.count steps.new.count }
    {
        self.frees = recount(self.frees, self.free.has(leaf), choices.free.is_some());
        self.mirrored.put(leaf, choices.mirrored.is_some());
        self.parity.put(leaf, choices.parity.is_some());
        self.free.put(leaf, choices.free.is_some());
        put(
            &mut self.nodes,
            self.size,
            leaf,
            choices.oldest,
            units,
            steps,
        );
    }

    /// Sets the oldest mirrored block of one group; its other choices stay. Steps are counted as `set` counts them.
    pub fn set_oldest<V>(
        &mut self,
        leaf: usize,
        oldest: Option<Age>,
        units: &IndexMap<Addr, V>,
        steps: &mut Steps,
    )
        requires there { leaf < length (leaves self.old) }
        requires right { IsRight (place_in units.now.entries) self.old }
        ensures set { leaves self.new ≡ slice_set (leaves self.old) leaf
            (with_oldest (slice_index_or (leaves self.old) leaf nothing) oldest) }
        ensures right { IsRight (place_in units.now.entries) self.new }
        ensures still { (slice_index_or (leaves self.old) leaf nothing).oldest ≡ oldest
            → steps.new.count ≡ steps.old.count }
        ensures counted { CountsJoins self.old self.new leaf steps.old.count steps.new.count }
    {
        put(&mut self.nodes, self.size, leaf, oldest, units, steps);
    }

    // A tree with the same leaves and a blank one after them, and with room for twice as many.
    fn grown<V>(&self, units: &IndexMap<Addr, V>) -> Result<Tree, AllocError>
        requires full { self.now.count ≡ self.now.size }
        requires few { length (leaves self.now) < 2 ^ 24 }
        ensures leaves { IfOk result (λ tree. leaves tree ≡ leaves self.now ++ nothing ∷ []) }
        ensures right { IfOk result (λ tree. IsRight (place_in units.now.entries) tree) }
    {
        let mut tree = Tree::blank(self.alloc, twice(self.size), self.count + 1)?;
        for leaf in 0..self.count {
            tree.set(leaf, &self.choices(leaf), units, &mut Steps::new());
        }
        Ok(tree)
    }

    // Adds a blank leaf. Fails only if all leaves are in use; nothing changes then.
    fn extend<V>(&mut self, units: &IndexMap<Addr, V>) -> Result<(), AllocError>
        requires right { IsRight (place_in units.now.entries) self.old }
        requires few { length (leaves self.old) < 2 ^ 24 }
        ensures extended { OnOk result (leaves self.new ≡ leaves self.old ++ nothing ∷ []) }
        ensures right { IsRight (place_in units.now.entries) self.new }
        ensures unchanged { OnErr result (self.new ≡ self.old) }
        ensures full { OnErr result (self.old.count ≡ self.old.size) }
    {
        if self.count < self.size {
            self.count += 1;
            return Ok(());
        }
        *self = self.grown(units)?;
        Ok(())
    }

    /// Adds the choices of a group after the others. Fails only if all leaves are in use; nothing changes then.
    pub fn push<V>(&mut self, choices: Choices, units: &IndexMap<Addr, V>) -> Result<(), AllocError>
        requires right { IsRight (place_in units.now.entries) self.old }
        requires own { AreOfGroup (length (leaves self.old)) choices }
        requires few { length (leaves self.old) < 2 ^ 24 }
        ensures pushed { OnOk result (leaves self.new ≡ leaves self.old ++ choices ∷ []) }
        ensures right { IsRight (place_in units.now.entries) self.new }
        ensures unchanged { OnErr result (self.new ≡ self.old) }
        ensures full { OnErr result (self.old.count ≡ self.old.size) }
    {
        let leaf = self.count;
        self.extend(units)?;
        self.set(leaf, &choices, units, &mut Steps::new());
        Ok(())
    }
}
