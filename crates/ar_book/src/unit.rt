// A unit's table (a virtual device table of AutoRAID): for each block its home and its write sequence number.
ghost use Rattle.std.specs.Prelude.{◌≡◌, ◌<◌, ◌≤◌, length, slice_index_or, slice_set, None, false, IfOk, OnOk, OnErr};
ghost use Rattle.ar_book.specs.Tables.{blocks_of};
ghost use Rattle.ar_book.specs.Changes.{new_unit, longer};

use crate::Slot;
use ar_disks::Geometry;
use std::alloc::{AllocError, Global};
use std::marker::Model;

/// The number of blocks that `sectors` sectors (up to 1,048,576) fill, the last perhaps in part.
#[tactic(auto, using(crate::proofs::RefusalLemmas::blocks_up))]
pub(crate) fn blocks_of(geometry: Geometry, sectors: u32) -> u32
    requires { sectors ≤ 1048576 }
    ensures { result ≡ blocks_of geometry sectors }
{
    sectors.div_ceil(geometry.sectors())
}

/// A unit's table. `stamps` are write sequence numbers; `attention` is a pending UNIT ATTENTION, since an extension.
#[derive(Drop)]
pub struct UnitTable {
    sectors: u32,
    homes: Vec<Option<Slot>>,
    stamps: Vec<u64>,
    attention: bool,
}

impl Model for UnitTable {
    ghost use Rattle.ar_book.specs.Tables.{UnitTableState};

    ghost Value = { UnitTableState };

    ghost view = { λ u. record {
      sectors = u.sectors;
      homes = u.homes.items;
      stamps = u.stamps.items;
      attention = u.attention;
    } };
}

impl UnitTable {
    /// A unit of `sectors` sectors, up to 1,048,576, without homes.
    pub(crate) fn new(
        alloc: Global,
        geometry: Geometry,
        sectors: u32,
    ) -> Result<UnitTable, AllocError>
        requires { sectors ≤ 1048576 }
        ensures { IfOk result (λ u. u ≡ new_unit geometry sectors) }
    {
        let blocks = blocks_of(geometry, sectors) as usize;
        Ok(UnitTable {
            sectors,
            homes: vec![in alloc; None; blocks]?,
            stamps: vec![in alloc; 0; blocks]?,
            attention: false,
        })
    }

    /// The unit's length in sectors.
    pub(crate) fn sectors(&self) -> u32
        ensures { result ≡ self.now.sectors }
    {
        self.sectors
    }

    /// The number of the unit's blocks.
    pub(crate) fn blocks(&self) -> usize
        ensures { result ≡ length self.now.homes }
    {
        self.homes.len()
    }

    /// The blocks' homes, in order.
    pub(crate) fn homes(&self) -> &[Option<Slot>]
        ensures { result.now ≡ self.now.homes }
    {
        &self.homes
    }

    /// Whether a UNIT ATTENTION is pending.
    pub(crate) fn attention(&self) -> bool
        ensures { result ≡ self.now.attention }
    {
        self.attention
    }

    /// Clears the pending UNIT ATTENTION.
    pub(crate) fn clear_attention(&mut self)
        ensures { self.new ≡ record self.old { attention = false } }
    {
        self.attention = false;
    }

    /// The home of block `rb`; None without one, or past the last block.
    pub(crate) fn home(&self, rb: u32) -> Option<Slot>
        ensures { result ≡ slice_index_or self.now.homes rb None }
    {
        self.homes.get(rb as usize).copied().flatten()
    }

    /// The stamp of block `rb`; 0 without one, or past the last block.
    pub(crate) fn stamp(&self, rb: u32) -> u64
        ensures { result ≡ slice_index_or self.now.stamps rb 0 }
    {
        self.stamps.get(rb as usize).copied().unwrap_or(0)
    }

    /// Sets the home of block `rb`.
    pub(crate) fn set_home(&mut self, rb: u32, home: Option<Slot>)
        requires { rb < length self.old.homes }
        ensures { self.new ≡ record self.old { homes = slice_set self.old.homes rb home } }
    {
        self.homes[rb as usize] = home;
    }

    /// Sets the stamp of block `rb`.
    pub(crate) fn set_stamp(&mut self, rb: u32, stamp: u64)
        requires { rb < length self.old.stamps }
        ensures { self.new ≡ record self.old { stamps = slice_set self.old.stamps rb stamp } }
    {
        self.stamps[rb as usize] = stamp;
    }

    /// Extends the unit to `sectors` sectors, and a UNIT ATTENTION is pending. On `AllocError` nothing changes.
    pub(crate) fn grow(&mut self, geometry: Geometry, sectors: u32) -> Result<(), AllocError>
        requires most { sectors ≤ 1048576 }
        requires homes { length self.old.homes ≤ blocks_of geometry sectors }
        requires stamps { length self.old.stamps ≡ length self.old.homes }
        ensures ok { OnOk result (self.new ≡ longer geometry self.old sectors) }
        ensures err { OnErr result (self.new ≡ self.old) }
    {
        let blocks = blocks_of(geometry, sectors) as usize;
        let former = self.homes.len();
        self.homes.resize(blocks, None)?;
        if self.stamps.resize(blocks, 0).is_err() {
            self.homes.truncate(former);
            return Err(AllocError);
        }
        self.sectors = sectors;
        self.attention = true;
        Ok(())
    }
}
