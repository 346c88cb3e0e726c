// What the command line asks of a store, and what the store's head says.
use crate::fault::StoreCause;
use ar_answers::Setup;
use ar_command_line::{ShapeOptions, StoreOptions};
use ar_compaction::StoreHead;
use ar_folder::StoreFolders;

/// The configuration of a store's array, with a cache of this size in blocks.
pub fn setup_in(head: &StoreHead, cache: u32) -> Setup {
    Setup {
        geometry: head.geometry,
        disks: head.disks,
        extents: head.extents,
        cache,
    }
}

// Whether the store has the shape that the command line asks for, but for the number of disks.
pub(crate) fn check_shape(head: &StoreHead, shape: ShapeOptions) -> Result<(), StoreCause> {
    if shape.geometry.unwrap_or(head.geometry) != head.geometry {
        return Err(StoreCause::OtherGeometry);
    }
    if shape.extents.unwrap_or(head.extents) != head.extents {
        return Err(StoreCause::OtherExtents(head.extents));
    }
    Ok(())
}

// Whether the array has the disks that the command line asks for: those that were added, too.
pub(crate) fn check_disks(disks: u8, shape: ShapeOptions) -> Result<(), StoreCause> {
    if shape.disks.unwrap_or(disks) == disks {
        Ok(())
    } else {
        Err(StoreCause::OtherDisks(disks))
    }
}

/// The folders of a store that is served.
pub fn folders_of(options: &StoreOptions) -> StoreFolders<'_> {
    StoreFolders {
        first: options.folder.as_str(),
        second: match &options.mirror {
            Some(mirror) => Some(mirror.as_str()),
            None => None,
        },
    }
}

// The folder of a copy.
pub(crate) fn folder_in<'a>(folders: StoreFolders<'a>, is_second: bool) -> &'a str {
    match folders.second {
        Some(second) if is_second => second,
        _ => folders.first,
    }
}
