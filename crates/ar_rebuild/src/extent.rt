// The rebuild of one extent: all its rows are written, and only then is it counted as done.
ghost use Rattle.std.specs.Prelude.{◌≡◌, ◌≢◌, ◌<◌};
ghost use Rattle.ar_extents.specs.Changes.{with_done};
ghost use Rattle.ar_store.specs.Slots.{AllStand, SlotsHold};
ghost use Rattle.ar_store.specs.Spaces.{store_in, IsReady};
ghost use Rattle.ar_rebuild.specs.Plans.{AccessesNext, CarriesOutRebuild};
ghost use Rattle.ar_rebuild.specs.Rows.{WritesNext, WritesExtent, StopsWriting};
ghost use Rattle.ar_rebuild.specs.Rebuild.{RebuildsExtent, StopsRebuild, MarksDone, Advances};

use crate::Rebuild;
use crate::rows::{position_of, write_rows};
use ar_book::Class;
use ar_disks::{Disk, Place};
use ar_extents::{DiskSet, Health, RowOutcome};
use ar_store::Space;

// Rebuilds the lowest extent that isn't done, and counts it as done.
pub(crate) fn rebuild_extent<D: Disk>(space: &mut Space<D>, place: Place) -> Rebuild
    requires ready { IsReady space.old }
    requires rebuilding { space.old.disks.health ≡ Health.Rebuilding place.disk place.extent }
    requires exists { place.extent < space.old.disks.extents }

    ensures answer { RebuildsExtent space.old.disks space.new.disks result }
    ensures plan { CarriesOutRebuild (store_in space.old) result space.new.disks }
    ensures stops { StopsRebuild (store_in space.old) space.new.disks result }

    ensures ready { IsReady space.new }
    ensures book { space.new.book ≡ space.old.book }
    ensures stand { AllStand (store_in space.old) (store_in space.new) }
    ensures slots { SlotsHold (store_in space.old) (store_in space.new) }
    ensures advances { Advances space.old.disks space.new.disks }
{
    match write_extent(space, place) {
        RowOutcome::Done => count_done(&mut space.disks, place),
        RowOutcome::GivenUp => Rebuild::GivenUp,
        RowOutcome::Broken => Rebuild::Broken,
    }
}

// Writes every row of the lowest extent that isn't done; none if it is unassigned or its group is free.
fn write_extent<D: Disk>(space: &mut Space<D>, place: Place) -> RowOutcome
    requires ready { IsReady space.old }
    requires rebuilding { space.old.disks.health ≡ Health.Rebuilding place.disk place.extent }
    ensures answer { WritesExtent (store_in space.old) (store_in space.new) result }
    ensures plan { AccessesNext (store_in space.old) space.new.disks }
    ensures stopped { result ≢ RowOutcome.Done → StopsWriting (store_in space.old) space.new.disks }
    ensures writes { WritesNext space.old.disks space.new.disks }
    ensures book { space.new.book ≡ space.old.book }
    ensures scratch { space.new.scratch.geometry ≡ space.old.scratch.geometry }
{
    let Some(group) = space.book.group_at(place) else {
        return RowOutcome::Done;
    };
    let members = space.book.members(group);
    let position = position_of(&members, place);
    match space.book.class(group) {
        Class::Free => RowOutcome::Done,
        class => write_rows(
            &mut space.disks,
            class,
            &members,
            position,
            &mut space.scratch,
        ),
    }
}

// Counts the lowest extent that isn't done as done, and returns how many aren't.
fn count_done<D: Disk>(set: &mut DiskSet<D>, place: Place) -> Rebuild
    requires rebuilding { set.old.health ≡ Health.Rebuilding place.disk place.extent }
    requires exists { place.extent < set.old.extents }
    ensures done { set.new ≡ with_done set.old }
    ensures counts { MarksDone set.old set.new result }
{
    set.mark_done();
    let left = set.extents() - place.extent - 1;
    if left == 0 {
        return Rebuild::Finished;
    }
    Rebuild::Rebuilt(place.extent, left)
}
