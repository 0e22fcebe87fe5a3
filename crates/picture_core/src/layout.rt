//! How a picture is laid out in blocks.
ghost use Rattle.std.specs.Prelude.{◌≡◌, ◌+◌, ◌*◌, ◌/◌, ◌<◌, ◌≤◌, ◌^◌};
ghost use Rattle.picture_core.specs.Pictures.{block_count, side_of};

/// The dots of a side of a block, of a picture of this many dots: the fortieth part of their root, rounded, from 8 to 32.
fn side_of(dots: usize) -> usize
    ensures value { result ≡ side_of dots }
    ensures some { 8 ≤ result }
    ensures few { result ≤ 32 }
{
    let mut side = 8;
    'sides: for more in 0..24usize {
        let root = 40 * more + 340;
        if root * root <= dots {
            side += 1;
        }
    }
    side
}

/// The blocks of a picture, row by row: columns and rows of squares, of which the last ones may lie beyond it.
#[derive(Clone, Copy)]
pub(crate) struct Layout {
    /// The dots of a side of a block.
    pub(crate) side: usize,
    pub(crate) columns: usize,
    pub(crate) rows: usize,
    ghost some_dots: { 1 ≤ side },
    ghost few_dots: { side ≤ 32 },
    ghost some: { 1 ≤ columns },
    ghost few: { columns ≤ 65536 },
    ghost few_rows: { rows ≤ 65536 },
}

impl Layout {
    /// That of a picture of this size.
    pub(crate) fn of(width: usize, height: usize) -> Layout
        requires narrow { width ≤ 65535 }
        requires low { height ≤ 65535 }
        ensures { result.columns * result.rows ≡ block_count width height }
    {
        let side = side_of(width * height);
        Layout {
            side,
            columns: width / side + 1,
            rows: height / side + 1,
        }
    }

    /// How many blocks there are.
    pub(crate) fn blocks(self) -> usize
        ensures count { result ≡ self.columns * self.rows }
        ensures few { result ≤ 4294967296 }
    {
        self.columns * self.rows
    }
    /// The number of a block by its column and its row.
    pub(crate) fn place(self, column: usize, row: usize) -> usize
        requires column { column < 65536 }
        requires row { row < 65536 }
        ensures { result < 2 ^ 32 }
    {
        row * self.columns + column
    }
}
