// Which extents of one disk are unassigned (`loose`): one flag an extent, true where it is in no group. Their number is
// kept, and a floor below which none is unassigned: counting walks no flag, and a search none below the floor. An
// extent that becomes unassigned lowers the floor to itself.
//
//     flags  [ 0 0 0 1 0 1 1 ]   count 3, floor 2: a search for the lowest begins at extent 2
ghost use Rattle.std.specs.Prelude.{◌≡◌, ◌<◌, ◌≤◌, true, false, length, replicate, slice_set, IfSome, IfNone, IfOk};
ghost use Rattle.std.specs.Prelude.{ℕ, count_by, position, slice_index_or};

use std::alloc::{AllocError, Global};
use std::marker::Model;

// A flag for each extent of a disk: true where the extent is unassigned.
#[derive(Debug, Drop)]
pub(crate) struct Marks {
    marks: Vec<bool>,
    count: usize,
    floor: usize,
}

impl Model for Marks {
    ghost use Rattle.std.specs.Prelude.{◌≡◌, ◌<◌, ℕ, Bool, List, false, count_by, slice_index_or};

    ghost Value = { List Bool };

    ghost view = { λ m. m.marks.items };

    ghost invariant = { λ m. (m.count ≡ count_by (λ mark. mark) m.marks.items)
        × ((extent : ℕ) → extent < m.floor → slice_index_or m.marks.items extent false ≡ false) };
}

impl Marks {
    // The flags of `extents` extents, all unassigned. Fails if out of memory.
    pub(crate) fn new(alloc: Global, extents: u16) -> Result<Marks, AllocError>
        ensures { IfOk result (λ marks. marks ≡ replicate extents true) }
    {
        let marks = vec![in alloc; true; extents as usize]?;
        Ok(Marks {
            marks,
            count: extents as usize,
            floor: 0,
        })
    }

    // The number of unassigned extents.
    pub(crate) fn count(&self) -> u16
        requires { length self.now ≤ 1024 }
        ensures { result ≡ count_by (λ mark. mark) self.now }
    {
        self.count as u16
    }

    // The lowest unassigned extent.
    pub(crate) fn lowest(&self) -> Option<u16>
        requires { length self.now ≤ 1024 }
        ensures { result ≡ position (λ mark. mark) self.now }
    {
        let extent = first_set(&self.marks, self.floor)?;
        Some(extent as u16)
    }

    // Clears the flag of the lowest unassigned extent. None if there is none.
    pub(crate) fn take(&mut self) -> Option<u16>
        requires { length self.old ≤ 1024 }
        ensures lowest { result ≡ position (λ mark. mark) self.old }
        ensures taken { IfSome result (λ extent. self.new ≡ slice_set self.old extent false) }
        ensures none { IfNone result (self.new ≡ self.old) }
    {
        let extent = self.lowest()?;
        self.marks[extent as usize] = false;
        self.count -= 1;
        self.floor = extent as usize + 1;
        Some(extent)
    }

    // Sets the flag of an extent that is assigned.
    pub(crate) fn give(&mut self, extent: u16)
        requires there { extent < length self.old }
        requires used { slice_index_or self.old extent false ≡ false }
        ensures { self.new ≡ slice_set self.old extent true }
    {
        self.marks[extent as usize] = true;
        self.count += 1;
        self.floor = self.floor.min(extent as usize);
    }
}

// The index of the first flag that is set, none of which is below `floor`.
fn first_set(marks: &[bool], floor: usize) -> Option<usize>
    requires { (i : ℕ) → i < floor → slice_index_or marks.now i false ≡ false }
    ensures { result ≡ position (λ mark. mark) marks.now }
{
    for i in floor..marks.len() {
        if marks[i] {
            return Some(i);
        }
    }
    None
}
