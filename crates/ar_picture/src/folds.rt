// Folds: neighbouring extents that look alike on every disk share a line of the text map; each extent is in one fold.
ghost use Rattle.std.specs.Prelude.{◌≡◌, ◌↔◌, ◌≤◌, ◌<◌, All, IfOk, OnErr, IsTrue, length};
ghost use Rattle.std.specs.List.{flat_map, range_with_len};
ghost use Rattle.ar_picture.specs.Folds.{AreAlike, IsFold, extents_of};

use crate::Picture;
use ar_disks::Place;
use std::alloc::{AllocError, Global};

/// Extents that look alike on each disk: the numbers from `first` up to, not including, `end`.
#[derive(Clone, Copy, Debug, PartialEq, Eq)]
pub struct Fold {
    pub first: u16,
    pub end: u16,
}

impl Picture {
    /// Returns the folds of all extents, in order, each as long as possible. Fails only when out of memory, and never
    /// without extents.
    pub fn folds(&self, alloc: Global) -> Result<Vec<Fold>, AllocError>
        // Each extent is in one fold, once.
        ensures once { IfOk result (λ folds. flat_map extents_of folds.items ≡ range_with_len 0 self.now.extents) }
        ensures folded { IfOk result (λ folds. All (IsFold self.now) folds.items) }
        ensures few { IfOk result (λ folds. length folds.items ≤ self.now.extents) }
        ensures memory { OnErr result (0 < self.now.extents) }
    {
        let mut folds = Vec::new(alloc);
        let mut first = 0;
        while first < self.extents {
            let end = self.fold_end(first);
            folds.push(Fold { first, end })?;
            first = end;
        }
        Ok(folds)
    }

    // The end of the fold that begins at `first`.
    fn fold_end(&self, first: u16) -> u16
        requires { first < self.now.extents }
        ensures { IsFold self.now (record { first = first; end = result }) }
    {
        let end = self.extents;
        for extent in first + 1..end {
            if !self.are_alike(first, extent) {
                return extent;
            }
        }
        end
    }

    // Whether two extents look alike on each disk.
    fn are_alike(&self, one: u16, other: u16) -> bool
        ensures { IsTrue result ↔ AreAlike self.now one other }
    {
        for disk in 0..self.disks {
            let one = self.cell_at(Place { disk, extent: one });
            let other = self.cell_at(Place {
                disk,
                extent: other,
            });
            if one != other {
                return false;
            }
        }
        true
    }
}
