//! One copy of a journal brought up to another.
ghost use Rattle.std.specs.Prelude.{◌≡◌, OnOk, IfOk, IfSome, IsTrue, true};
ghost use Rattle.ar_log.specs.Codec.{items_of};
ghost use Rattle.ar_journal.specs.Journal.{IsReady, IsAfter, ReadsLog, KeepsOthers, batches_now};
ghost use Rattle.ar_journal.specs.Copying.{IsPrefix, IsCopied};

use crate::{Journal, first_place};
use ar_log::{LogError, Place};
use ar_media::Media;
use std::alloc::Global;

/// Whether two batches have the same records.
fn is_same(one: &[Vec<u8>], other: &[Vec<u8>]) -> bool
    ensures { result ≡ true → items_of one.now ≡ items_of other.now }
{
    if one.len() != other.len() {
        return false;
    }
    for index in 0..one.len() {
        if one[index].as_slice() != other[index].as_slice() {
            return false;
        }
    }
    true
}

/// The place in a journal after all batches of another, or `None` where those are not its first ones.
pub fn place_after<M: Media>(
    alloc: Global,
    from: &mut Journal<M>,
    to: &mut Journal<M>,
) -> Result<Option<Place>, LogError>
    requires from { IsReady M.seen M.may_leave M.is_clean from.old }
    requires to { IsReady M.seen M.may_leave M.is_clean to.old }

    ensures prefix { IfOk result (λ r. IfSome r (λ place.
        IsPrefix M.seen M.is_clean from.old to.old from.new to.new place)) }
    ensures from_reads { ReadsLog M.seen M.may_leave M.moment M.left_since M.is_clean from.old from.new }
    ensures to_reads { ReadsLog M.seen M.may_leave M.moment M.left_since M.is_clean to.old to.new }
    ensures from_ready { IsReady M.seen M.may_leave M.is_clean from.new }
    ensures to_ready { IsReady M.seen M.may_leave M.is_clean to.new }
{
    let mut place = first_place();
    let mut other = first_place();
    'comparing: loop {
        match to.read_at_place(alloc, other) {
            Err(error) => return Err(error),
            Ok(None) => return Ok(Some(place)),
            Ok(Some(wanted)) => match from.read_at_place(alloc, place) {
                Err(error) => return Err(error),
                Ok(None) => return Ok(None),
                Ok(Some(read)) => {
                    if !is_same(&read.records, &wanted.records) {
                        return Ok(None);
                    }
                    place = read.next;
                    other = wanted.next;
                }
            },
        }
    }
}

/// Appends to a journal the batches that another has from this place on.
pub fn copy_rest<M: Media>(
    alloc: Global,
    from: &mut Journal<M>,
    to: &mut Journal<M>,
    place: Place,
) -> Result<(), LogError>
    requires from { IsReady M.seen M.may_leave M.is_clean from.old }
    requires to { IsReady M.seen M.may_leave M.is_clean to.old }
    requires place { IsTrue (M.is_clean from.old.active.media) → IsAfter (batches_now M.seen from.old) place }

    ensures copied { OnOk result (IsCopied M.seen M.is_clean from.old to.old from.new to.new place) }
    ensures from_reads { ReadsLog M.seen M.may_leave M.moment M.left_since M.is_clean from.old from.new }
    ensures from_ready { IsReady M.seen M.may_leave M.is_clean from.new }
    ensures to_ready { IsReady M.seen M.may_leave M.is_clean to.new }
    ensures to_clean { M.is_clean to.new.active.media ≡ M.is_clean to.old.active.media }
    ensures to_others { KeepsOthers to.old to.new }
{
    let mut place = place;
    'copying: loop {
        match from.read_at_place(alloc, place) {
            Err(error) => return Err(error),
            Ok(None) => return Ok(()),
            Ok(Some(read)) => {
                if let Err(error) = to.append(alloc, &read.records) {
                    return Err(error);
                }
                place = read.next;
            }
        }
    }
}
