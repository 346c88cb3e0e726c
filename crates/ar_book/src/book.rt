// The book's tables. Homes and slots are inverse to each other; the search tree, the counts of groups and holes, and
// `reserved` are derived from them.
//
//     unit 1:0   homes  [ 0.1 | -     | 2.4 ]               the home of each block: group.slot, or none
//                stamps [ 17  | 0     | 9   ]               its write sequence number, 0 if it has none
//     group 0    slots  [ -   | 1:0/0 | -   | - | . | . ]   the block of each slot: unit/block, or none
//
// Group 0 is mirrored and has extents of two rows: 4 slots, and room for the 2 more that a parity group has.
ghost use Rattle.std.specs.Prelude.{◌≡◌, ◌<◌, length, [], slice_get, Some, None};
ghost use Rattle.std.specs.Option.{option_map};
ghost use Rattle.std.specs.Map.{lookup};
ghost use Rattle.ar_disks.specs.Addresses.{same_addr};
ghost use Rattle.ar_book.specs.Tables.{unit_in, key_at, home, level, stamp_of, class_of, group_in, used, room};
ghost use Rattle.ar_book.specs.Tables.{free_groups};
ghost use Rattle.ar_book.specs.Changes.{unmarked};
ghost use Rattle.ar_book.specs.Book.{TablesAgree};

use crate::tables::{clear_attention, home_in, key_in, level_in};
use crate::{Class, Groups, Level, Slot, Units};
use ar_disks::{Addr, Geometry, Key, Members};
use ar_index::Tree;
use std::alloc::Global;
use std::marker::Model;

/// The tables of a disk array's space: groups of four extents, units in order of creation, and the home of each block,
/// a slot of a group.
///
/// Only `form_group`, `make` and `grow` allocate memory.
#[derive(Drop)]
pub struct Book {
    pub(crate) alloc: Global,
    pub(crate) geometry: Geometry,
    pub(crate) groups: Groups,
    pub(crate) units: Units,
    pub(crate) puts: u64,
    pub(crate) reserved: u32,
    pub(crate) index: Tree,
}

impl Model for Book {
    ghost use Rattle.ar_book.specs.Tables.{Tables};
    ghost use Rattle.ar_book.specs.Index.{IsIndexed};

    ghost Value = { Tables };

    ghost view = { λ b.
        record { geometry = b.geometry; groups = b.groups.items; units = b.units.entries; puts = b.puts } };

    ghost invariant = { λ b. IsIndexed
        (record { geometry = b.geometry; groups = b.groups.items; units = b.units.entries; puts = b.puts })
        b.reserved b.index };
}

impl Book {
    /// A book without groups or units, for blocks of this geometry.
    pub fn new(alloc: Global, geometry: Geometry) -> Book
        ensures { result ≡ record { geometry = geometry; groups = []; units = []; puts = 0 } }
    {
        Book {
            alloc,
            geometry,
            groups: Groups::new(alloc),
            units: Units::new(alloc),
            puts: 0,
            reserved: 0,
            index: Tree::new(alloc),
        }
    }

    /// The geometry of the blocks.
    pub fn geometry(&self) -> Geometry
        ensures { result ≡ self.now.geometry }
    {
        self.geometry
    }

    /// The number of groups. They are numbered from 0.
    pub fn groups(&self) -> u32
        ensures count { result ≡ length self.now.groups }
        ensures sound { TablesAgree self.now }
    {
        self.groups.len() as u32
    }

    /// The class of a group.
    pub fn class(&self, group: u32) -> Class
        requires { group < length self.now.groups }
        ensures { result ≡ class_of self.now group }
    {
        self.groups.at(group).class()
    }

    /// The four extents of a group.
    pub fn members(&self, group: u32) -> Members
        requires { group < length self.now.groups }
        ensures { result ≡ (group_in self.now.groups group).members }
    {
        self.groups.at(group).members()
    }

    /// The number of occupied slots of a group.
    pub fn used(&self, group: u32) -> u16
        requires { group < length self.now.groups }
        ensures { result ≡ used (group_in self.now.groups group) }
    {
        self.groups.at(group).used() as u16
    }

    /// The number of free groups.
    pub fn free_groups(&self) -> u32
        ensures { result ≡ free_groups self.now }
    {
        self.index.free() as u32
    }

    /// How many more blocks units may have: all groups but one count as parity groups.
    pub fn room(&self) -> u32
        ensures { result ≡ room self.now }
    {
        let held_back = self.groups().saturating_sub(1);
        3 * self.geometry.rows() as u32 * held_back - self.reserved
    }

    /// The number of units.
    pub fn units(&self) -> usize
        ensures { result ≡ length self.now.units }
    {
        self.units.len()
    }

    /// The address of the unit at `place` in order of creation, from 0; None past the last.
    pub fn unit_at(&self, place: usize) -> Option<Addr>
        ensures { result ≡ option_map (λ entry. entry.0) (slice_get self.now.units place) }
    {
        self.units.addr_at(place)
    }

    /// A unit's length in sectors; None if there is no such unit.
    pub fn sectors(&self, addr: Addr) -> Option<u32>
        ensures { result ≡ option_map (λ unit. unit.sectors) (lookup (same_addr addr) self.now.units) }
    {
        Some(self.units.get(addr)?.sectors())
    }

    /// The number of a unit's blocks; 0 if there is no such unit.
    pub fn blocks(&self, addr: Addr) -> u32
        ensures { result ≡ length (unit_in self.now.units addr).homes }
    {
        match self.units.get(addr) {
            Some(unit) => unit.blocks() as u32,
            None => 0,
        }
    }

    /// Whether a UNIT ATTENTION is pending since the unit was extended; false if there is no such unit.
    pub fn attention(&self, addr: Addr) -> bool
        ensures { result ≡ (unit_in self.now.units addr).attention }
    {
        match self.units.get(addr) {
            Some(unit) => unit.attention(),
            None => false,
        }
    }

    /// Clears a unit's pending UNIT ATTENTION. Without such a unit nothing changes.
    pub fn clear_attention(&mut self, addr: Addr)
        ensures { self.new ≡ unmarked self.old addr }
    {
        clear_attention(&mut self.units, addr);
    }

    /// The slot that is a block's home; None if it has none, or is no block of a unit.
    pub fn home(&self, key: Key) -> Option<Slot>
        ensures { result ≡ home self.now key }
    {
        home_in(&self.units, key)
    }

    /// The level of a block; Unplaced if it has no home, or is no block of a unit.
    pub fn level(&self, key: Key) -> Level
        ensures { result ≡ level self.now key }
    {
        level_in(self.groups.list(), home_in(&self.units, key))
    }

    /// A block's write sequence number; 0 if it has none yet, or is no block of a unit.
    pub fn stamp_of(&self, key: Key) -> u64
        ensures { result ≡ stamp_of self.now key }
    {
        match self.units.get(key.addr) {
            Some(unit) => unit.stamp(key.rb),
            None => 0,
        }
    }

    /// The block of a slot; None if it is empty, or is no slot of a group.
    pub fn key_at(&self, slot: Slot) -> Option<Key>
        ensures { result ≡ key_at self.now slot }
    {
        key_in(self.groups.list(), slot)
    }
}
