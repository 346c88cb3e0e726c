// The two geometries. A row of an extent stores one block:
//
//             sector    block                 extent
//     Paper   512 B     128 sectors, 64 KiB   16 rows, 1 MiB
//     Small   512 B       2 sectors,  1 KiB    2 rows, 2 KiB
ghost use Rattle.std.specs.Prelude.{◌≡◌, ◌∷◌, []};
ghost use Rattle.ar_disks.specs.Geometry.{sectors_of, rows_of, block_len_of};

/// The size of a sector, in bytes.
pub const SECTOR_LEN: usize = 512;

/// The number of sectors of a relocation block, and of rows (one block each) of an extent.
#[derive(Clone, Copy, Debug, PartialEq, Eq)]
pub enum Geometry {
    /// The sizes of the AutoRAID paper (Data layout): blocks of 128 sectors (64 KiB), extents of 16 rows (1 MiB).
    Paper,
    /// Blocks of 2 sectors (1 KiB), extents of 2 rows (2 KiB).
    Small,
}

impl Geometry {
    /// Blocks of 128 sectors, extents of 16 rows.
    pub const PAPER: Geometry = Geometry::Paper;

    /// Blocks of 2 sectors, extents of 2 rows.
    pub const SMALL: Geometry = Geometry::Small;

    /// Both geometries, `Paper` first.
    pub fn both() -> [Geometry; 2]
        ensures { result ≡ Geometry.Paper ∷ Geometry.Small ∷ [] }
    {
        [Geometry::PAPER, Geometry::SMALL]
    }

    /// Sectors of a block: 128 or 2.
    pub fn sectors(self) -> u32
        ensures { result ≡ sectors_of self }
    {
        match self {
            Geometry::Paper => 128,
            Geometry::Small => 2,
        }
    }

    /// Rows of an extent, each as long as a block: 16 or 2.
    pub fn rows(self) -> u16
        ensures { result ≡ rows_of self }
    {
        match self {
            Geometry::Paper => 16,
            Geometry::Small => 2,
        }
    }

    /// Bytes of a block: 65,536 or 1,024.
    pub fn block_len(self) -> usize
        ensures { result ≡ block_len_of self }
    {
        match self {
            Geometry::Paper => 65_536,
            Geometry::Small => 1_024,
        }
    }
}
