// The legend of the SVG: a line for each style of extents, and one for each unit.
ghost use Rattle.std.specs.Prelude.{◌+◌, ◌<◌, ◌^◌, ◌≤◌, List, [], OnOk, codes, length, take};
ghost use Rattle.std.specs.Io.KnownBytes.{Appends};
ghost use Rattle.ar_picture.specs.Drawings.{legend_svg, line_svg, patch_svg, placed_svg, sample_svg, samples_svg};
ghost use Rattle.ar_picture.specs.Drawings.{swatch_svg, unit_svg, units_svg};
ghost use Rattle.ar_picture.specs.Layouts.{legend_at};

use crate::layout::{legend_left, line_top};
use crate::palette::colour_of;
use crate::{Picture, UNITS_MAX, Unit};
use std::io;
use std::io::Write;

/// Writes what the colours of extents and of units mean.
pub fn write_legend<W: Write>(out: &mut W, picture: &Picture) -> io::Result<()>
    ensures text { OnOk result (Appends (W.contents out.old) (W.contents out.new)
        (legend_svg (legend_at picture.now.disks) picture.now.units.items)) }
{
    write_lines(out, legend_left(picture), &picture.units)
}

// Writes the legend that begins at x.
fn write_lines<W: Write>(out: &mut W, x: u32, units: &[Unit]) -> io::Result<()>
    requires { x < 2 ^ 17 }
    ensures text { OnOk result (Appends (W.contents out.old) (W.contents out.new) (legend_svg x units.now)) }
{
    write_line(out, x, 0, "head", "Extents")?;
    write_samples(out, x)?;
    write_line(
        out,
        x,
        6,
        "small",
        "1: 3 of 4 is group 1, 3 of its 4 slots hold a block",
    )?;
    write_line(out, x, 8, "head", "Blocks of units on the disks")?;
    let shown = UNITS_MAX.min(units.len());
    write_units(out, x, &units[..shown])
}

// Writes a line for each style of extents.
fn write_samples<W: Write>(out: &mut W, x: u32) -> io::Result<()>
    requires { x < 2 ^ 17 }
    ensures text { OnOk result (Appends (W.contents out.old) (W.contents out.new) (samples_svg x)) }
{
    write_sample(out, x, 1, "mirrored", "in a mirrored group")?;
    write_sample(out, x, 2, "parity", "in a group with parity")?;
    write_sample(out, x, 3, "free", "in a free group")?;
    write_sample(out, x, 4, "loose", "in no group")?;
    write_sample(out, x, 5, "missing", "can't be used")
}

// Writes a style of extents, and what it means.
fn write_sample<W: Write>(
    out: &mut W,
    x: u32,
    line: u8,
    style: &str,
    meaning: &str,
) -> io::Result<()>
    requires { x < 2 ^ 17 }
    ensures text { OnOk result
        (Appends (W.contents out.old) (W.contents out.new) (sample_svg x line style.now meaning.now)) }
{
    write_swatch(out, x, line, style)?;
    write_line(out, x + 36, line, "", meaning)
}

// Writes a small extent in a style.
fn write_swatch<W: Write>(out: &mut W, x: u32, line: u8, style: &str) -> io::Result<()>
    ensures text { OnOk result (Appends (W.contents out.old) (W.contents out.new) (swatch_svg x line style.now)) }
{
    let y = line_top(line);
    writeln!(
        out,
        "<rect class='{style}' x='{x}' y='{y}' width='26' height='15'/>"
    )
}

// Writes the text of a line.
fn write_line<W: Write>(out: &mut W, x: u32, line: u8, style: &str, words: &str) -> io::Result<()>
    ensures text { OnOk result
        (Appends (W.contents out.old) (W.contents out.new) (line_svg x line style.now words.now)) }
{
    let y = line_top(line) + 12;
    writeln!(out, "<text class='{style}' x='{x}' y='{y}'>{words}</text>")
}

// Writes a line for each unit.
fn write_units<W: Write>(out: &mut W, x: u32, units: &[Unit]) -> io::Result<()>
    requires left { x < 2 ^ 17 }
    requires few { length units.now ≤ 32 }
    ensures text { OnOk result (Appends (W.contents out.old) (W.contents out.new) (units_svg x 9 units.now)) }
{
    let mut line = 9;
    for unit in units {
        write_unit(out, x, line, *unit)?;
        line += 1;
    }
    Ok(())
}

// Writes a unit: its colour, and how many of its blocks are on the disks.
fn write_unit<W: Write>(out: &mut W, x: u32, line: u8, unit: Unit) -> io::Result<()>
    requires { x < 2 ^ 17 }
    ensures text { OnOk result (Appends (W.contents out.old) (W.contents out.new) (unit_svg x line unit)) }
{
    write_patch(out, x, line, colour_of(unit))?;
    write_count(out, x + 36, line, unit)
}

// Writes a patch in a colour.
fn write_patch<W: Write>(out: &mut W, x: u32, line: u8, colour: &str) -> io::Result<()>
    ensures text { OnOk result (Appends (W.contents out.old) (W.contents out.new) (patch_svg x line colour.now)) }
{
    let y = line_top(line);
    writeln!(
        out,
        "<rect x='{x}' y='{y}' width='26' height='15' fill='{colour}'/>"
    )
}

// Writes how many blocks of a unit are on the disks.
fn write_count<W: Write>(out: &mut W, x: u32, line: u8, unit: Unit) -> io::Result<()>
    ensures text { OnOk result (Appends (W.contents out.old) (W.contents out.new) (placed_svg x line unit)) }
{
    let y = line_top(line) + 12;
    let Unit {
        host,
        lun,
        blocks,
        placed,
    } = unit;
    writeln!(
        out,
        "<text x='{x}' y='{y}'>unit {host} {lun}: {placed} of {blocks}</text>"
    )
}
