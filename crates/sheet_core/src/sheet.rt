//! Sheets of dots.
ghost use Rattle.std.specs.Prelude.{◌≡◌, ◌<◌, ◌≤◌, ◌+◌, ◌*◌, IfOk};
ghost use Rattle.scan_core.specs.Row.{dots_of};
ghost use Rattle.sheet_core.specs.Bitmaps.{cell_dots, dot_of, dots_in, stride};

use crate::grid::Grid;
use digits_core::NoMemory;
use scan_core::Runs;
use std::alloc::Global;
use std::marker::Model;

/// A sheet of 1 to 65,535 by 1 to 65,535 dots.
#[derive(Debug, Drop)]
pub struct Sheet {
    pub(crate) width: u16,
    pub(crate) height: u16,
    pub(crate) bytes: Vec<u8>,
}

impl Model for Sheet {
    ghost use Rattle.sheet_core.specs.Bitmaps.{Bitmap, IsBitmap};

    ghost Value = { Bitmap };

    ghost view = { λ s. record { width = s.width; height = s.height; bytes = s.bytes.items } };

    ghost invariant = { λ s. IsBitmap (record { width = s.width; height = s.height; bytes = s.bytes.items }) };
}

/// How many bytes a row of this many dots takes.
pub(crate) fn stride(width: u16) -> usize
    ensures { result ≡ stride width }
{
    (usize::from(width) + 7) / 8
}

impl Sheet {
    /// How many dots a row has.
    pub fn width(&self) -> u16
        ensures { result ≡ self.now.width }
    {
        self.width
    }

    /// How many rows there are.
    pub fn height(&self) -> u16
        ensures { result ≡ self.now.height }
    {
        self.height
    }

    /// Whether the dot in column `x` of row `y` is dark, both counted from 0 at the top left.
    pub fn dot(&self, x: u16, y: u16) -> bool
        requires column { x < self.now.width }
        requires row { y < self.now.height }
        ensures { result ≡ dot_of self.now x y }
    {
        let x = usize::from(x);
        let byte = self.bytes[stride(self.width) * usize::from(y) + x / 8];
        (byte >> (7 - x % 8)) % 2 == 1
    }

    /// A copy of the sheet. The only error is refused memory.
    pub(crate) fn copy(&self, alloc: Global) -> Result<Sheet, NoMemory>
        ensures { IfOk result (λ s. s ≡ self.now) }
    {
        let Ok(bytes) = self.bytes.as_slice().to_vec(alloc) else {
            return Err(NoMemory);
        };
        Ok(Sheet {
            width: self.width,
            height: self.height,
            bytes,
        })
    }

    /// The list of its bytes, so that another sheet can reuse the memory.
    pub(crate) fn into_bytes(self) -> Vec<u8>
        ensures { result.items ≡ self.bytes }
    {
        self.bytes
    }

    /// The runs of `count` dots of row `y`, from dot `x` on.
    fn part(&self, alloc: Global, x: u16, y: u16, count: u16) -> Result<Runs, NoMemory>
        requires columns { x + count ≤ self.now.width }
        requires row { y < self.now.height }
        ensures { IfOk result (λ r. dots_of r ≡ dots_in self.now x y count) }
    {
        let from = 8 * (stride(self.width) * usize::from(y)) + usize::from(x);
        match Runs::cut(alloc, self.bytes.as_slice(), from, usize::from(count)) {
            Ok(runs) => Ok(runs),
            Err(_) => Err(NoMemory),
        }
    }

    /// The runs of row `y`. The only error is refused memory.
    pub fn row(&self, alloc: Global, y: u16) -> Result<Runs, NoMemory>
        requires { y < self.now.height }
        ensures dots { IfOk result (λ r. dots_of r ≡ dots_in self.now 0 y self.now.width) }
    {
        self.part(alloc, 0, y, self.width)
    }

    /// The runs of row `y` of a cell, if the sheet has the size of the grid. `y` counts from the top of the cell;
    /// cells count row by row from the top left. The only error is refused memory.
    pub fn cell_row(&self, alloc: Global, grid: &Grid, cell: u16, y: u16) -> Result<Runs, NoMemory>
        requires wide { self.now.width ≡ grid.now.columns * grid.now.width }
        requires high { self.now.height ≡ grid.now.rows * grid.now.height }
        requires cell { cell < grid.now.columns * grid.now.rows }
        requires row { y < grid.now.height }
        ensures dots { IfOk result (λ r. dots_of r ≡ cell_dots grid.now self.now cell y) }
    {
        let (left, top) = grid.corner(cell);
        self.part(alloc, left, top + y, grid.cell_width)
    }
}
