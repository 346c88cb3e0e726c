// The SVG: for each disk a column of its extents, from top to bottom, and the legend on the right.
ghost use Rattle.std.specs.Prelude.{◌≡◌, OnOk, codes};
ghost use Rattle.std.specs.Io.KnownBytes.{Appends};
ghost use Rattle.std.specs.List.{flat_map, range_with_len};
ghost use Rattle.ar_picture.specs.Drawings.{disk_svg, disks_svg, frame_svg, ground_svg, health_svg, name_svg};
ghost use Rattle.ar_picture.specs.Drawings.{number_svg, opening_svg, out_svg, picture_svg, state_svg, styles_svg};
ghost use Rattle.ar_picture.specs.Drawings.{svg_text};
ghost use Rattle.ar_picture.specs.Layouts.{height_of, width_of};

use crate::column::write_extents;
use crate::layout::{Scale, TOP, WIDTH, left_of, size_of};
use crate::legend::write_legend;
use crate::palette::{GROUND, MIRRORED, PARITY};
use crate::{Health, Picture};
use std::alloc::Global;
use std::io;
use std::io::Write;

/// The style of text.
const TEXTS: &str = "\
text { font-family: 'DejaVu Sans', Verdana, sans-serif; font-size: 12px; fill: #222222; stroke: none }
.title { font-size: 17px; font-weight: bold }
.disk { font-weight: bold; text-anchor: middle }
.down { fill: #B03A00; font-weight: bold; text-anchor: middle }
.number { fill: #666666; font-size: 11px; text-anchor: end }
.head { font-weight: bold }
.small { font-size: 10px; paint-order: stroke; stroke: #FFFFFF; stroke-width: 2 }";

/// The styles of extents that are unassigned or missing.
const UNUSED: &str = "\
.loose { fill: #EFEFEF; stroke: #9A9A9A; stroke-dasharray: 3 3 }
.missing { fill: url(#missing); stroke: #B03A00 }";

/// The hatch of missing extents.
const HATCH: &str = "\
<defs><pattern id='missing' width='9' height='9' patternUnits='userSpaceOnUse' patternTransform='rotate(45)'>\
<rect width='2' height='9' fill='#B03A00'/></pattern></defs>";

/// Writes the picture as an SVG: for each disk a column of its extents, coloured by the class of their group, each with
/// a bar as long as the group is full, in the colours of the units whose blocks it holds; and a legend. Missing extents
/// are hatched. It is exactly the text that specs/Drawings.antt gives. Fails if that can't be written, or out of
/// memory: it allocates a number for each extent of one disk.
pub fn write_svg<W: Write>(alloc: Global, out: &mut W, picture: &Picture) -> io::Result<()>
    ensures text { OnOk result (Appends (W.contents out.old) (W.contents out.new) (svg_text picture.now)) }
{
    draw(alloc, out, picture, Scale::of(picture.extents))
}

// Writes the picture at a scale.
fn draw<W: Write>(alloc: Global, out: &mut W, picture: &Picture, scale: Scale) -> io::Result<()>
    ensures text { OnOk result (Appends (W.contents out.old) (W.contents out.new) (picture_svg scale picture.now)) }
{
    write_frame(out, picture, scale)?;
    write_numbers(out, picture.extents, scale)?;
    write_disks(alloc, out, picture, scale)?;
    write_legend(out, picture)?;
    writeln!(out, "</svg>")
}

// Writes what comes before the disks: size, styles, title and health.
fn write_frame<W: Write>(out: &mut W, picture: &Picture, scale: Scale) -> io::Result<()>
    ensures text { OnOk result (Appends (W.contents out.old) (W.contents out.new) (frame_svg scale picture.now)) }
{
    let (disks, extents) = (picture.disks, picture.extents);
    write_opening(out, picture, scale)?;
    writeln!(
        out,
        "<title>A disk array of {disks} disks of {extents} extents</title>"
    )?;
    write_styles(out)?;
    write_ground(out, picture, scale)?;
    writeln!(
        out,
        "<text class='title' x='24' y='34'>{disks} disks of {extents} extents</text>"
    )?;
    write_health(out, picture)
}

// Writes the first line, with the picture's size.
fn write_opening<W: Write>(out: &mut W, picture: &Picture, scale: Scale) -> io::Result<()>
    ensures text { OnOk result (Appends (W.contents out.old) (W.contents out.new)
        (opening_svg (width_of picture.now) (height_of scale picture.now))) }
{
    let (width, height) = size_of(picture, scale);
    writeln!(
        out,
        "<svg xmlns='http://www.w3.org/2000/svg' width='{width}' height='{height}' viewBox='0 0 {width} {height}'>"
    )
}

// Writes the background.
fn write_ground<W: Write>(out: &mut W, picture: &Picture, scale: Scale) -> io::Result<()>
    ensures text { OnOk result (Appends (W.contents out.old) (W.contents out.new)
        (ground_svg (width_of picture.now) (height_of scale picture.now))) }
{
    let (width, height) = size_of(picture, scale);
    writeln!(
        out,
        "<rect width='{width}' height='{height}' fill='{GROUND}'/>"
    )
}

// Writes the styles of text and of extents.
fn write_styles<W: Write>(out: &mut W) -> io::Result<()>
    ensures text { OnOk result (Appends (W.contents out.old) (W.contents out.new) styles_svg) }
{
    writeln!(out, "<style>\n{TEXTS}")?;
    writeln!(out, ".mirrored {{ fill: {MIRRORED}; stroke: #3D8FC4 }}")?;
    writeln!(out, ".parity {{ fill: {PARITY}; stroke: #BFA11C }}")?;
    writeln!(out, ".free {{ fill: {GROUND}; stroke: #9A9A9A }}")?;
    writeln!(out, "{UNUSED}\n</style>\n{HATCH}")
}

// Writes the health of the disks.
fn write_health<W: Write>(out: &mut W, picture: &Picture) -> io::Result<()>
    ensures text { OnOk result
        (Appends (W.contents out.old) (W.contents out.new) (health_svg picture.now.extents picture.now.health)) }
{
    let extents = picture.extents;
    match picture.health {
        Health::Whole => writeln!(out, "<text x='24' y='56'>All disks are sound.</text>"),
        Health::Out(disk) => writeln!(out, "<text x='24' y='56'>Disk {disk} is out.</text>"),
        Health::Rebuilding(disk, done) => writeln!(
            out,
            "<text x='24' y='56'>Disk {disk} is new: {done} of its {extents} extents are rebuilt.</text>"
        ),
        Health::Broken => writeln!(
            out,
            "<text x='24' y='56'>Two disks were lost at one moment, and the data with them.</text>"
        ),
        Health::Lost(one, other) => writeln!(
            out,
            "<text x='24' y='56'>Disks {one} and {other} were lost at one moment, and the data with them.</text>"
        ),
    }
}

// Writes the numbers of extents to their left.
fn write_numbers<W: Write>(out: &mut W, extents: u16, scale: Scale) -> io::Result<()>
    ensures text { OnOk result
        (Appends (W.contents out.old) (W.contents out.new) (flat_map (number_svg scale) (range_with_len 0 extents))) }
{
    for extent in 0..extents {
        write_number(out, scale, extent)?;
    }
    Ok(())
}

// Writes the number of an extent, where it has one.
fn write_number<W: Write>(out: &mut W, scale: Scale, extent: u16) -> io::Result<()>
    ensures text { OnOk result (Appends (W.contents out.old) (W.contents out.new) (number_svg scale extent)) }
{
    if !scale.is_numbered(extent) {
        return Ok(());
    }
    let base = scale.number_of(extent);
    writeln!(
        out,
        "<text class='number' x='54' y='{base}'>{extent}</text>"
    )
}

// Writes all disks.
fn write_disks<W: Write>(
    alloc: Global,
    out: &mut W,
    picture: &Picture,
    scale: Scale,
) -> io::Result<()>
    ensures text { OnOk result (Appends (W.contents out.old) (W.contents out.new) (disks_svg scale picture.now)) }
{
    let outline = scale.outline();
    writeln!(out, "<g stroke-width='{outline}'>")?;
    write_columns(alloc, out, picture, scale)?;
    writeln!(out, "</g>")
}

// Writes the column of each disk.
fn write_columns<W: Write>(
    alloc: Global,
    out: &mut W,
    picture: &Picture,
    scale: Scale,
) -> io::Result<()>
    ensures text { OnOk result (Appends (W.contents out.old) (W.contents out.new)
        (flat_map (disk_svg scale picture.now) (range_with_len 0 picture.now.disks))) }
{
    for disk in 0..picture.disks {
        write_disk(alloc, out, picture, scale, disk)?;
    }
    Ok(())
}

// Writes a disk's column.
fn write_disk<W: Write>(
    alloc: Global,
    out: &mut W,
    picture: &Picture,
    scale: Scale,
    disk: u8,
) -> io::Result<()>
    ensures text { OnOk result (Appends (W.contents out.old) (W.contents out.new) (disk_svg scale picture.now disk)) }
{
    write_name(out, disk)?;
    write_state(out, picture.health, disk)?;
    write_extents(alloc, out, picture, scale, disk)
}

// Writes a disk's name above its column.
fn write_name<W: Write>(out: &mut W, disk: u8) -> io::Result<()>
    ensures text { OnOk result (Appends (W.contents out.old) (W.contents out.new) (name_svg disk)) }
{
    let (middle, base) = (left_of(disk) + WIDTH / 2, TOP - 26);
    writeln!(
        out,
        "<text class='disk' x='{middle}' y='{base}'>disk {disk}</text>"
    )
}

// Writes below a disk's name that it has failed, or how many of its extents are rebuilt.
fn write_state<W: Write>(out: &mut W, health: Health, disk: u8) -> io::Result<()>
    ensures text { OnOk result (Appends (W.contents out.old) (W.contents out.new) (state_svg disk health)) }
{
    let (middle, base) = (left_of(disk) + WIDTH / 2, TOP - 10);
    match health {
        Health::Out(down) if down == disk => write_out(out, disk),
        Health::Lost(one, other) if one == disk || other == disk => write_out(out, disk),
        Health::Rebuilding(down, done) if down == disk => {
            writeln!(
                out,
                "<text class='down' x='{middle}' y='{base}'>{done} rebuilt</text>"
            )
        }
        _ => Ok(()),
    }
}

// Writes below a disk's name that it has failed.
fn write_out<W: Write>(out: &mut W, disk: u8) -> io::Result<()>
    ensures text { OnOk result (Appends (W.contents out.old) (W.contents out.new) (out_svg disk)) }
{
    let (middle, base) = (left_of(disk) + WIDTH / 2, TOP - 10);
    writeln!(out, "<text class='down' x='{middle}' y='{base}'>out</text>")
}
