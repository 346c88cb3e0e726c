// Cells: what a picture shows of an extent. The lowest group that has the extent decides its use.
ghost use Rattle.std.specs.Prelude.{◌≡◌};
ghost use Rattle.ar_picture.specs.Cells.{cell_of, content_at, content_numbered, content_of};

use crate::{Class, Group, Picture};
use ar_disks::Place;

/// What an extent is used for.
#[derive(Clone, Copy, Debug, PartialEq, Eq)]
pub enum Content {
    /// Unassigned (`loose` in the API): it is in no group.
    Loose,
    /// In a free group.
    Free,
    /// In a mirrored group of this fullness, 0 to 9.
    Mirrored(u8),
    /// In a parity group of this fullness, 0 to 9.
    Parity(u8),
}

/// What a picture shows of an extent.
#[derive(Clone, Copy, Debug, PartialEq, Eq)]
pub struct Cell {
    pub content: Content,
    /// Whether the extent is missing: its disk has failed, or isn't rebuilt up to it.
    pub is_missing: bool,
}

impl Group {
    /// Returns the use of the group's extents.
    pub fn content(&self) -> Content
        ensures { result ≡ content_of self.now }
    {
        match self.class {
            Class::Free => Content::Free,
            Class::Mirrored => Content::Mirrored(self.fullness()),
            Class::Parity => Content::Parity(self.fullness()),
        }
    }
}

impl Picture {
    /// Returns what the picture shows of the extent at `place`.
    pub fn cell_at(&self, place: Place) -> Cell
        ensures { result ≡ cell_of self.now place }
    {
        Cell {
            content: self.content_at(place),
            is_missing: self.health.is_missing(place),
        }
    }

    // The use of an extent.
    fn content_at(&self, place: Place) -> Content
        ensures { result ≡ content_at self.now.groups.items place }
    {
        self.content_numbered(self.group_at(place))
    }

    // The use of the extents of the group with this number, or of no group.
    pub(crate) fn content_numbered(&self, number: Option<usize>) -> Content
        ensures { result ≡ content_numbered self.now.groups.items number }
    {
        let Some(number) = number else {
            return Content::Loose;
        };
        match self.groups.get(number) {
            Some(group) => group.content(),
            None => Content::Loose,
        }
    }
}
