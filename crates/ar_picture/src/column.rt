// A disk's column in the SVG: its extents, each with the bar and the text of its group.
ghost use Rattle.std.specs.Prelude.{◌≡◌, ℕ, ◌*◌, ◌<◌, ◌≤◌, ◌^◌, OnOk, codes, sum, take, slice_get, slice_index};
ghost use Rattle.std.specs.Io.KnownBytes.{Appends};
ghost use Rattle.std.specs.List.{flat_map, range_with_len};
ghost use Rattle.ar_picture.specs.Cells.{group_at};
ghost use Rattle.ar_picture.specs.Drawings.{bar_at, bar_svg, cell_svg, extent_svg, hatch_svg, label_svg, piece_svg};
ghost use Rattle.ar_picture.specs.Drawings.{pieces_svg, row_svg, slots_svg, style_of, use_svg, words_at, words_svg};

use crate::layout::{Scale, WIDTH, left_of};
use crate::palette::colour_at;
use crate::{Class, Content, Group, Held, Picture, UNITS_MAX};
use ar_disks::Place;
use std::alloc::Global;
use std::io;
use std::io::Write;

/// Writes the extents of a disk. Fails if they can't be written, or out of memory.
pub fn write_extents<W: Write>(
    alloc: Global,
    out: &mut W,
    picture: &Picture,
    scale: Scale,
    disk: u8,
) -> io::Result<()>
    ensures text { OnOk result (Appends (W.contents out.old) (W.contents out.new)
        (flat_map (row_svg scale picture.now disk) (range_with_len 0 picture.now.extents))) }
{
    let numbers = picture.groups_of_disk(alloc, disk)?;
    for extent in 0..picture.extents {
        let number = numbers[usize::from(extent)];
        write_extent(out, picture, scale, Place { disk, extent }, number)?;
    }
    Ok(())
}

// Writes an extent of the group with this number: its cell, the group's bar, a hatch if it is missing, and text if
// there is room.
fn write_extent<W: Write>(
    out: &mut W,
    picture: &Picture,
    scale: Scale,
    place: Place,
    number: Option<usize>,
) -> io::Result<()>
    requires { number ≡ group_at picture.now.groups.items place }
    ensures text { OnOk result
        (Appends (W.contents out.old) (W.contents out.new) (extent_svg scale picture.now place)) }
{
    let content = picture.content_numbered(number);
    let is_missing = picture.health.is_missing(place);
    write_cell(out, scale, place, style_of(content))?;
    write_bar_at(out, picture, scale, place, number)?;
    write_hatch(out, scale, place, is_missing)?;
    write_words_at(out, picture, scale, place, number)
}

// The name of the style of an extent with this use.
fn style_of(content: Content) -> &'static str
    ensures { result.now ≡ style_of content }
{
    match content {
        Content::Loose => "loose",
        Content::Free => "free",
        Content::Mirrored(_) => "mirrored",
        Content::Parity(_) => "parity",
    }
}

// Writes the rectangle of an extent in a style.
fn write_cell<W: Write>(out: &mut W, scale: Scale, place: Place, style: &str) -> io::Result<()>
    ensures text { OnOk result (Appends (W.contents out.old) (W.contents out.new) (cell_svg scale place style.now)) }
{
    let (x, y) = (left_of(place.disk), scale.top_of(place.extent));
    let height = scale.height;
    writeln!(
        out,
        "<rect class='{style}' x='{x}' y='{y}' width='{WIDTH}' height='{height}'/>"
    )
}

// Hatches an extent that is missing.
fn write_hatch<W: Write>(
    out: &mut W,
    scale: Scale,
    place: Place,
    is_missing: bool,
) -> io::Result<()>
    ensures text { OnOk result (Appends (W.contents out.old) (W.contents out.new) (hatch_svg scale place is_missing)) }
{
    if is_missing {
        write_cell(out, scale, place, "missing")
    } else {
        Ok(())
    }
}

// Writes the bar of the group with this number, where there is one.
fn write_bar_at<W: Write>(
    out: &mut W,
    picture: &Picture,
    scale: Scale,
    place: Place,
    number: Option<usize>,
) -> io::Result<()>
    ensures text { OnOk result
        (Appends (W.contents out.old) (W.contents out.new) (bar_at scale picture.now place number)) }
{
    let Some(number) = number else {
        return Ok(());
    };
    match (picture.groups.get(number), picture.held.get(number)) {
        (Some(group), Some(held)) => write_bar(out, scale, place, group, held),
        _ => Ok(()),
    }
}

// Writes the blocks of a group as a bar, in which all slots are equally long.
fn write_bar<W: Write>(
    out: &mut W,
    scale: Scale,
    place: Place,
    group: &Group,
    held: &Held,
) -> io::Result<()>
    ensures text { OnOk result
        (Appends (W.contents out.old) (W.contents out.new) (bar_svg scale place group.now held.now)) }
{
    write_slots(out, scale, place, group.slots)?;
    write_pieces(out, &held.blocks)?;
    writeln!(out, "</svg>")
}

// Begins a bar of this number of slots.
fn write_slots<W: Write>(out: &mut W, scale: Scale, place: Place, slots: u16) -> io::Result<()>
    ensures text { OnOk result (Appends (W.contents out.old) (W.contents out.new) (slots_svg scale place slots)) }
{
    let (x, y) = (left_of(place.disk) + 4, scale.bar_of(place.extent));
    let (width, height) = (WIDTH - 8, scale.bar_height);
    write!(
        out,
        "<svg x='{x}' y='{y}' width='{width}' height='{height}' viewBox='0 0 {slots} 1' preserveAspectRatio='none'>"
    )
}

// Writes the blocks of each unit, from left to right.
fn write_pieces<W: Write>(out: &mut W, blocks: &[u32; UNITS_MAX]) -> io::Result<()>
    ensures text { OnOk result
        (Appends (W.contents out.old) (W.contents out.new) (pieces_svg blocks.now)) }
{
    let mut from = 0u64;
    for (index, count) in blocks.iter().enumerate() {
        write_piece(out, from, *count, colour_at(index))?;
        from += u64::from(*count);
    }
    Ok(())
}

// Writes `count` blocks of a unit after `from` others, in its colour.
fn write_piece<W: Write>(out: &mut W, from: u64, count: u32, colour: &str) -> io::Result<()>
    ensures text { OnOk result (Appends (W.contents out.old) (W.contents out.new) (piece_svg from count colour.now)) }
{
    match count {
        0 => Ok(()),
        _ => write!(
            out,
            "<rect x='{from}' width='{count}' height='1' fill='{colour}'/>"
        ),
    }
}

// Writes the text of the group with this number, where there is one, and room for text.
fn write_words_at<W: Write>(
    out: &mut W,
    picture: &Picture,
    scale: Scale,
    place: Place,
    number: Option<usize>,
) -> io::Result<()>
    ensures text { OnOk result
        (Appends (W.contents out.old) (W.contents out.new) (words_at scale picture.now place number)) }
{
    match number {
        Some(number) if scale.has_words() => match picture.groups.get(number) {
            Some(group) => write_words(out, scale, place, number, *group),
            None => Ok(()),
        },
        _ => Ok(()),
    }
}

// Writes the number of a group, and how many of its slots hold a block.
fn write_words<W: Write>(
    out: &mut W,
    scale: Scale,
    place: Place,
    number: usize,
    group: Group,
) -> io::Result<()>
    ensures text { OnOk result
        (Appends (W.contents out.old) (W.contents out.new) (words_svg scale place number group)) }
{
    write_number(out, scale, place, number)?;
    write_use(out, group.class, group.blocks, group.slots)
}

// Begins the text of an extent with its group's number.
fn write_number<W: Write>(out: &mut W, scale: Scale, place: Place, number: usize) -> io::Result<()>
    ensures text { OnOk result (Appends (W.contents out.old) (W.contents out.new) (label_svg scale place number)) }
{
    let (x, y) = (left_of(place.disk) + 5, scale.top_of(place.extent) + 12);
    write!(out, "<text class='small' x='{x}' y='{y}'>{number}: ")
}

// Ends it with how many of the group's slots hold a block.
fn write_use<W: Write>(out: &mut W, class: Class, blocks: u16, slots: u16) -> io::Result<()>
    ensures text { OnOk result (Appends (W.contents out.old) (W.contents out.new) (use_svg class blocks slots)) }
{
    match class {
        Class::Free => writeln!(out, "free</text>"),
        Class::Mirrored | Class::Parity => writeln!(out, "{blocks} of {slots}</text>"),
    }
}
