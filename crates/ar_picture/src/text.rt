// The text map: a column for each disk, five characters wide, and a line for each fold of extents.
//
//   4 disks (columns) of 1024 extents (lines)
//                 0    1    2    3
//                    out
//      0         9M  !9M   9M   9M          9M: mirrored, full; !: missing
//      1..1023   ..  !..   ..   ..          ..: in no group
ghost use Rattle.std.specs.Prelude.{◌≡◌, All, OnOk};
ghost use Rattle.std.specs.Io.KnownBytes.{Appends};
ghost use Rattle.std.specs.List.{flat_map, range_with_len};
ghost use Rattle.ar_picture.specs.Folds.{IsFold, extents_of};
ghost use Rattle.ar_picture.specs.Maps.{below_text, cell_text, disks_text, down_text, extents_text, fold_text};
ghost use Rattle.ar_picture.specs.Maps.{heads_text, map_text, missing_mark, unit_text};
ghost use Rattle.ar_picture.specs.Writing.{AddsSome};

use crate::{Cell, Content, Fold, Health, Picture, Unit};
use ar_disks::Place;
use std::io;
use std::io::Write;

/// The columns before the disks.
const MARGIN: &str = "          ";

/// Writes the text map: the number of disks and of extents; the disks' numbers, the failed or replaced ones marked
/// below; a line for each of `folds`; a legend of two lines; the health; and a line for each unit. It is exactly the
/// text that specs/Maps.antt gives.
pub fn write_map<W: Write>(out: &mut W, picture: &Picture, folds: &[Fold]) -> io::Result<()>
    // The folds are the picture's own (`Picture::folds`).
    requires once { flat_map extents_of folds.now ≡ range_with_len 0 picture.now.extents }
    requires folded { All (IsFold picture.now) folds.now }
    ensures text { OnOk result (Appends (W.contents out.old) (W.contents out.new) (map_text picture.now folds.now)) }
    ensures adds { OnOk result (AddsSome (W.contents out.old) (W.contents out.new)) }
{
    write_heads(out, picture)?;
    for fold in folds {
        write_fold(out, picture, *fold)?;
    }
    writeln!(
        out,
        "M mirrored, P with parity; 0 to 9: how full, in ninths of its slots"
    )?;
    writeln!(out, "-- in a free group, .. in no group, ! can't be used")?;
    write_health(out, picture)?;
    for unit in &picture.units {
        write_unit(out, *unit)?;
    }
    Ok(())
}

// Writes the lines above the extents.
fn write_heads<W: Write>(out: &mut W, picture: &Picture) -> io::Result<()>
    ensures text { OnOk result (Appends (W.contents out.old) (W.contents out.new) (heads_text picture.now)) }
{
    let (disks, extents) = (picture.disks, picture.extents);
    writeln!(out, "{disks} disks (columns) of {extents} extents (lines)")?;
    write!(out, "{MARGIN}")?;
    for disk in 0..disks {
        write!(out, "{disk:>5}")?;
    }
    writeln!(out)?;
    write_down(out, picture.health)
}

// Marks each failed disk as out, or the replaced one as new, below its number.
fn write_down<W: Write>(out: &mut W, health: Health) -> io::Result<()>
    ensures text { OnOk result (Appends (W.contents out.old) (W.contents out.new) (down_text health)) }
{
    match health {
        Health::Whole | Health::Broken => Ok(()),
        Health::Out(disk) => write_below(out, disk, "  out"),
        Health::Rebuilding(disk, _) => write_below(out, disk, "  new"),
        Health::Lost(one, other) => write_both(out, one, other),
    }
}

// Marks two failed disks, each in a line of its own.
fn write_both<W: Write>(out: &mut W, one: u8, other: u8) -> io::Result<()>
    ensures text { OnOk result (Appends (W.contents out.old) (W.contents out.new) (down_text (Health.Lost one other))) }
{
    write_below(out, one, "  out")?;
    write_below(out, other, "  out")
}

// Writes a word of five characters below the number of a disk.
fn write_below<W: Write>(out: &mut W, disk: u8, word: &str) -> io::Result<()>
    ensures text { OnOk result (Appends (W.contents out.old) (W.contents out.new) (below_text disk word.now)) }
{
    write!(out, "{MARGIN}")?;
    for _ in 0..disk {
        write!(out, "     ")?;
    }
    writeln!(out, "{word}")
}

// Writes the line of a fold: its extents' numbers, and a cell for each disk.
fn write_fold<W: Write>(out: &mut W, picture: &Picture, fold: Fold) -> io::Result<()>
    requires { IsFold picture.now fold }
    ensures text { OnOk result (Appends (W.contents out.old) (W.contents out.new) (fold_text picture.now fold)) }
{
    write_extents(out, fold.first, fold.end - 1)?;
    for disk in 0..picture.disks {
        let place = Place {
            disk,
            extent: fold.first,
        };
        write_cell(out, picture.cell_at(place))?;
    }
    writeln!(out)
}

// Writes the first and the last number of a fold's extents, or the only one.
fn write_extents<W: Write>(out: &mut W, first: u16, last: u16) -> io::Result<()>
    ensures text { OnOk result (Appends (W.contents out.old) (W.contents out.new) (extents_text first last)) }
{
    if first < last {
        write!(out, "{first:>4}..{last:<4}")
    } else {
        write!(out, "{first:>4}      ")
    }
}

fn write_cell<W: Write>(out: &mut W, cell: Cell) -> io::Result<()>
    ensures text { OnOk result (Appends (W.contents out.old) (W.contents out.new) (cell_text cell)) }
{
    let mark = mark_of(cell.is_missing);
    match cell.content {
        Content::Loose => write!(out, "  {mark}.."),
        Content::Free => write!(out, "  {mark}--"),
        Content::Mirrored(full) => write!(out, "  {mark}{full}M"),
        Content::Parity(full) => write!(out, "  {mark}{full}P"),
    }
}

// The mark of an extent that is missing.
fn mark_of(is_missing: bool) -> &'static str
    ensures { result.now ≡ missing_mark is_missing }
{
    if is_missing { "!" } else { " " }
}

fn write_health<W: Write>(out: &mut W, picture: &Picture) -> io::Result<()>
    ensures text { OnOk result
        (Appends (W.contents out.old) (W.contents out.new) (disks_text picture.now.extents picture.now.health)) }
{
    let extents = picture.extents;
    match picture.health {
        Health::Whole => writeln!(out, "all disks are sound"),
        Health::Out(disk) => writeln!(out, "disk {disk} is out"),
        Health::Rebuilding(disk, done) => writeln!(
            out,
            "disk {disk} is new: {done} of its {extents} extents are rebuilt"
        ),
        Health::Broken => writeln!(out, "the data are lost"),
        Health::Lost(one, other) => writeln!(
            out,
            "disks {one} and {other} are out: the data are lost"
        ),
    }
}

fn write_unit<W: Write>(out: &mut W, unit: Unit) -> io::Result<()>
    ensures text { OnOk result (Appends (W.contents out.old) (W.contents out.new) (unit_text unit)) }
{
    let Unit {
        host,
        lun,
        blocks,
        placed,
    } = unit;
    writeln!(
        out,
        "unit {host} {lun}: {placed} of {blocks} blocks on the disks"
    )
}
