// The layout of the SVG of n disks, in user units (pixels at its own size). Columns, extents and numbers don't overlap.
//
//        0      64         156         84 + 92 n          348 + 92 n
//      0 +------+----------+-----------+------------------+
//        | title, health                                  |
//     74 |      :          :           | legend           |   22 a line
//        |      : disk 0   : disk 1    |                  |
//    124 |    0 : extent   : extent    |                  |   `pitch` an extent
//        |    1 : extent   : extent    |                  |
//        +------+----------+-----------+------------------+
ghost use Rattle.std.specs.Prelude.{◌≡◌, ◌==◌, ◌+◌, ◌*◌, ◌%◌, ◌/◌, ◌<◌, ◌≤◌, ◌^◌, nat_lt};
ghost use Rattle.ar_picture.specs.Layouts.{IsLegible, height_of, left_at, legend_at, line_top_at, outline_of, scale_of};
ghost use Rattle.ar_picture.specs.Layouts.{top_at, width_of};

use crate::{Picture, UNITS_MAX};

/// Where the column of the first disk begins.
const LEFT: u32 = 64;

/// Where the first extent begins.
pub const TOP: u32 = 124;

/// From one disk's column to the next.
const COLUMN: u32 = 92;

/// How wide an extent is drawn.
pub const WIDTH: u32 = 80;

/// From one line of the legend to the next.
const LINE: u32 = 22;

/// How wide the legend is.
const LEGEND: u32 = 264;

/// The vertical scale of extents: the more a disk has, the lower each is drawn.
#[derive(Clone, Copy, Debug, PartialEq, Eq)]
pub struct Scale {
    /// From one extent to the next.
    pub pitch: u8,
    /// How tall an extent is.
    pub height: u8,
    /// Where its bar begins, below its top.
    pub bar_top: u8,
    /// How tall its bar is.
    pub bar_height: u8,
    /// Which extents have their number beside them: the multiples of this.
    pub numbered: u16,
}

impl Scale {
    /// Returns the scale for disks of `extents` extents.
    pub fn of(extents: u16) -> Scale
        ensures same { result ≡ scale_of extents }
        ensures legible { IsLegible extents result }
    {
        let (pitch, height, bar_top, bar_height, numbered) = match extents {
            0..=16 => (36, 32, 17, 11, 1),
            17..=64 => (14, 12, 3, 6, 8),
            65..=256 => (6, 5, 1, 3, 32),
            _ => (3, 3, 0, 3, 128),
        };
        Scale {
            pitch,
            height,
            bar_top,
            bar_height,
            numbered,
        }
    }

    /// How thick the outline of an extent is, as text.
    pub fn outline(self) -> &'static str
        ensures { result.now ≡ outline_of self.height }
    {
        match self.height {
            0..=3 => "0.2",
            4..=9 => "0.5",
            _ => "1",
        }
    }

    /// Whether an extent has room for text.
    pub fn has_words(self) -> bool
        ensures { result ≡ nat_lt 24 self.height }
    {
        self.height > 24
    }

    /// Returns the y coordinate of an extent's top.
    pub fn top_of(self, extent: u16) -> u32
        ensures top { result ≡ top_at self extent }
        ensures small { result < 2 ^ 25 }
    {
        TOP + u32::from(self.pitch) * u32::from(extent)
    }

    /// Returns the y coordinate of its bar's top.
    pub fn bar_of(self, extent: u16) -> u32
        ensures { result ≡ top_at self extent + self.bar_top }
    {
        self.top_of(extent) + u32::from(self.bar_top)
    }

    /// Returns the y coordinate of its number's baseline, a little below its middle.
    pub fn number_of(self, extent: u16) -> u32
        ensures { result ≡ top_at self extent + self.height / 2 + 4 }
    {
        self.top_of(extent) + u32::from(self.height / 2) + 4
    }

    /// Whether an extent has its number beside it.
    pub fn is_numbered(self, extent: u16) -> bool
        ensures { result ≡ (extent % self.numbered == 0) }
    {
        extent.is_multiple_of(self.numbered)
    }
}

/// Returns the x coordinate of a disk's column.
pub fn left_of(disk: u8) -> u32
    ensures left { result ≡ left_at disk }
    // Columns don't overlap, and at most 12 units separate two.
    ensures apart { result + WIDTH < left_at (disk + 1) }
    ensures near { left_at (disk + 1) ≤ result + WIDTH + 12 }
    ensures small { result < 2 ^ 16 }
{
    LEFT + COLUMN * u32::from(disk)
}

/// Returns the y coordinate of a line of the legend.
pub fn line_top(line: u8) -> u32
    ensures top { result ≡ line_top_at line }
    ensures small { result < 2 ^ 16 }
{
    TOP - 50 + LINE * u32::from(line)
}

/// Returns the x coordinate of the legend.
pub fn legend_left(picture: &Picture) -> u32
    ensures left { result ≡ legend_at picture.now.disks }
    ensures small { result < 2 ^ 17 }
{
    left_of(picture.disks) + 20
}

/// Returns width and height of the picture, with a margin: as wide as disks and legend, as high as the higher of them.
pub fn size_of(picture: &Picture, scale: Scale) -> (u32, u32)
    ensures wide { result.0 ≡ width_of picture.now }
    ensures tall { result.1 ≡ height_of scale picture.now }
{
    let width = legend_left(picture) + LEGEND;
    let map = scale.top_of(picture.extents);
    let units = picture.units.len().min(UNITS_MAX) as u32;
    let legend = TOP + LINE * (8 + units);
    (width, map.max(legend) + 24)
}
