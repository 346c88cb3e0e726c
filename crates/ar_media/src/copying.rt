//! Two media as copies of each other. Both are read in pieces, so what is allocated does not grow with them. What a
//! clause says of bytes that were read has as its premise that the medium is clean.
ghost use Rattle.std.specs.Prelude.{◌≡◌, ◌≢◌, ◌<◌, ◌+◌, ◌++◌, [], min, length, take, drop, true, false};
ghost use Rattle.std.specs.Prelude.{IfOk, OnOk, IfErr, IsTrue};
ghost use Rattle.ar_media.specs.declared.error.MediaError.TheVariants.{Memory};
ghost use Rattle.ar_media.specs.Media.{Only, ReportsFaults};
ghost use Rattle.ar_media.specs.Copying.{IsUnwritten};

use crate::{Media, MediaError};
use std::alloc::Global;

/// The most bytes that one call reads or writes.
const PIECE: usize = 65_536;

/// Returns whether two media have the same bytes. Both are read in pieces, and neither is written.
///
/// `Memory` where the buffers of a piece are refused; any other error is of the medium whose call failed.
pub fn are_same<M: Media>(alloc: Global, one: &mut M, other: &mut M) -> Result<bool, MediaError>
    ensures same { IfOk result (λ same. same ≡ true → IsTrue (M.is_clean one.new) → IsTrue (M.is_clean other.new)
        → M.seen other.old ≡ M.seen one.old) }
    ensures differ { IfOk result (λ same. same ≡ false → IsTrue (M.is_clean one.new) → IsTrue (M.is_clean other.new)
        → M.seen other.old ≢ M.seen one.old) }

    ensures one { IsUnwritten M.seen M.may_leave M.moment M.left_since M.is_clean one.old one.new }
    ensures other { IsUnwritten M.seen M.may_leave M.moment M.left_since M.is_clean other.old other.new }

    ensures cause { ReportsFaults (M.faults one.old + M.faults other.old) (M.faults one.new + M.faults other.new)
        result }
{
    let len = one.len()?;
    if other.len()? != len {
        return Ok(false);
    }
    let mut piece = buffer_for(alloc, len)?;
    let mut other_piece = buffer_for(alloc, len)?;
    have_same_front(one, other, len, &mut piece, &mut other_piece)
}

/// Makes `to` a copy of `from`, whose bytes are only read, and syncs it. `to` is emptied before the first byte is
/// written.
///
/// An error leaves any bytes in `to`, and so does a crash before this returns. Where it is one file of a store, its
/// caller empties and syncs the file that names the others first, and fills that one last, so that a copy that is not
/// complete is never taken for a whole one. `Memory` where the buffer of a piece is refused; any other error is of the
/// medium whose call failed.
pub fn copy_bytes<M: Media>(alloc: Global, from: &mut M, to: &mut M) -> Result<(), MediaError>
    ensures copied { OnOk result (IsTrue (M.is_clean from.new) → M.seen to.new ≡ M.seen from.old) }
    ensures durable { OnOk result (Only (M.seen to.new) (M.may_leave to.new)) }

    ensures from { IsUnwritten M.seen M.may_leave M.moment M.left_since M.is_clean from.old from.new }
    ensures clean { M.is_clean to.new ≡ M.is_clean to.old }

    ensures cause { ReportsFaults (M.faults from.old + M.faults to.old) (M.faults from.new + M.faults to.new) result }
{
    to.cut(0)?;
    let len = from.len()?;
    let mut piece = buffer_for(alloc, len)?;
    append_front(from, to, len, &mut piece)?;
    to.sync()
}

// A buffer of a piece, or of a whole medium of `len` bytes that is shorter.
fn buffer_for(alloc: Global, len: usize) -> Result<Vec<u8>, MediaError>
    ensures len { IfOk result (λ piece. length piece.items ≡ min len 65536) }
    ensures error { IfErr result (λ e. e ≡ Memory) }
{
    let mut piece = Vec::new(alloc);
    piece.resize(len.min(PIECE), 0)?;
    Ok(piece)
}

// Reads a piece from `at` on: as much as the buffer holds, but `left` bytes at most.
fn read_piece<M: Media>(
    media: &mut M,
    at: usize,
    left: usize,
    piece: &mut Vec<u8>,
) -> Result<(), MediaError>
    ensures piece { OnOk result (IsTrue (M.is_clean media.new)
        → piece.new.items ≡ take (min left (length piece.old.items)) (drop at (M.seen media.old))) }
    ensures len { length piece.new.items ≡ min left (length piece.old.items) }
    ensures media { IsUnwritten M.seen M.may_leave M.moment M.left_since M.is_clean media.old media.new }
    ensures cause { ReportsFaults (M.faults media.old) (M.faults media.new) result }
{
    piece.truncate(left);
    media.read_at(at, piece)
}

// Whether the piece from `at` on is the same in both. The buffers have the same length.
fn is_same_piece<M: Media>(
    one: &mut M,
    other: &mut M,
    at: usize,
    left: usize,
    piece: &mut Vec<u8>,
    other_piece: &mut Vec<u8>,
) -> Result<bool, MediaError>
    requires { length other_piece.old.items ≡ length piece.old.items }

    ensures same { IfOk result (λ same. same ≡ true → IsTrue (M.is_clean one.new) → IsTrue (M.is_clean other.new)
        → take (min left (length piece.old.items)) (drop at (M.seen other.old))
        ≡ take (min left (length piece.old.items)) (drop at (M.seen one.old))) }
    ensures differ { IfOk result (λ same. same ≡ false → IsTrue (M.is_clean one.new) → IsTrue (M.is_clean other.new)
        → M.seen other.old ≢ M.seen one.old) }

    ensures len { length piece.new.items ≡ min left (length piece.old.items) }
    ensures other_len { OnOk result (length other_piece.new.items ≡ min left (length piece.old.items)) }

    ensures one { IsUnwritten M.seen M.may_leave M.moment M.left_since M.is_clean one.old one.new }
    ensures other { IsUnwritten M.seen M.may_leave M.moment M.left_since M.is_clean other.old other.new }

    ensures cause { ReportsFaults (M.faults one.old + M.faults other.old) (M.faults one.new + M.faults other.new)
        result }
{
    read_piece(one, at, left, piece)?;
    read_piece(other, at, left, other_piece)?;
    Ok(piece.as_slice() == other_piece.as_slice())
}

// Whether the first `len` bytes are the same in both, read through two buffers of the same length.
fn have_same_front<M: Media>(
    one: &mut M,
    other: &mut M,
    len: usize,
    piece: &mut Vec<u8>,
    other_piece: &mut Vec<u8>,
) -> Result<bool, MediaError>
    requires some { 0 < len → 0 < length piece.old.items }
    requires as_long { length other_piece.old.items ≡ length piece.old.items }

    ensures same { IfOk result (λ same. same ≡ true → IsTrue (M.is_clean one.new) → IsTrue (M.is_clean other.new)
        → take len (M.seen other.old) ≡ take len (M.seen one.old)) }
    ensures differ { IfOk result (λ same. same ≡ false → IsTrue (M.is_clean one.new) → IsTrue (M.is_clean other.new)
        → M.seen other.old ≢ M.seen one.old) }

    ensures one { IsUnwritten M.seen M.may_leave M.moment M.left_since M.is_clean one.old one.new }
    ensures other { IsUnwritten M.seen M.may_leave M.moment M.left_since M.is_clean other.old other.new }

    ensures cause { ReportsFaults (M.faults one.old + M.faults other.old) (M.faults one.new + M.faults other.new)
        result }
{
    let mut at = 0;
    while at < len {
        if !is_same_piece(one, other, at, len - at, piece, other_piece)? {
            return Ok(false);
        }
        at += piece.len();
    }
    Ok(true)
}

// Appends the piece from `at` on to a medium of `at` bytes.
fn append_piece<M: Media>(
    from: &mut M,
    to: &mut M,
    at: usize,
    left: usize,
    piece: &mut Vec<u8>,
) -> Result<(), MediaError>
    requires { length (M.seen to.old) ≡ at }

    ensures appended { OnOk result (M.seen to.new ≡ M.seen to.old ++ piece.new.items) }
    ensures piece { OnOk result (IsTrue (M.is_clean from.new)
        → piece.new.items ≡ take (min left (length piece.old.items)) (drop at (M.seen from.old))) }
    ensures len { length piece.new.items ≡ min left (length piece.old.items) }

    ensures from { IsUnwritten M.seen M.may_leave M.moment M.left_since M.is_clean from.old from.new }
    ensures clean { M.is_clean to.new ≡ M.is_clean to.old }

    ensures cause { ReportsFaults (M.faults from.old + M.faults to.old) (M.faults from.new + M.faults to.new) result }
{
    read_piece(from, at, left, piece)?;
    to.write_at(at, piece)
}

// Appends the first `len` bytes of `from` to an empty medium.
fn append_front<M: Media>(
    from: &mut M,
    to: &mut M,
    len: usize,
    piece: &mut Vec<u8>,
) -> Result<(), MediaError>
    requires empty { M.seen to.old ≡ [] }
    requires some { 0 < len → 0 < length piece.old.items }

    ensures copied { OnOk result (IsTrue (M.is_clean from.new) → M.seen to.new ≡ take len (M.seen from.old)) }

    ensures from { IsUnwritten M.seen M.may_leave M.moment M.left_since M.is_clean from.old from.new }
    ensures clean { M.is_clean to.new ≡ M.is_clean to.old }

    ensures cause { ReportsFaults (M.faults from.old + M.faults to.old) (M.faults from.new + M.faults to.new) result }
{
    let mut at = 0;
    while at < len {
        append_piece(from, to, at, len - at, piece)?;
        at += piece.len();
    }
    Ok(())
}
