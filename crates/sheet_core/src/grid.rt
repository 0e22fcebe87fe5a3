//! Grids of cells in which labels are printed.
ghost use Rattle.std.specs.Prelude.{◌≡◌, ◌<◌, ◌≤◌, ◌+◌, ◌*◌, ◌/◌, ◌%◌, ◌↔◌, IfOk, IsOk, IsTrue};
ghost use Rattle.sheet_core.specs.Grids.{IsGrid};

use crate::fault::BadGrid;
use std::marker::Model;

/// A grid of cells of one size. All numbers are in dots, except those of columns and rows.
#[derive(Clone, Copy, Debug, PartialEq, Eq)]
pub struct Grid {
    pub(crate) module_dots: u16,
    pub(crate) cell_width: u16,
    pub(crate) cell_height: u16,
    pub(crate) columns: u16,
    pub(crate) rows: u16,
}

impl Model for Grid {
    ghost use Rattle.sheet_core.specs.Grids.{Cells, IsGrid};

    ghost Value = { Cells };

    ghost view = { λ g. record { dots = g.module_dots; width = g.cell_width; height = g.cell_height; columns = g.columns; rows = g.rows } };

    ghost invariant = { λ g. IsGrid (record { dots = g.module_dots; width = g.cell_width; height = g.cell_height; columns = g.columns; rows = g.rows }) };

    ghost inverse = { λ g. record { module_dots = g.dots; cell_width = g.width; cell_height = g.height; columns = g.columns; rows = g.rows } };
}

/// Whether this many, each of this many dots, are at most 16,384 dots.
fn fits_sheet(count: u16, dots: u16) -> bool
    ensures { IsTrue result ↔ (count * dots ≤ 16384) }
{
    u32::from(count) * u32::from(dots) <= 16_384
}

impl Grid {
    /// A grid whose modules are 1 to 8 dots wide. It has 1 to 16 columns and 1 to 64 rows of cells, each 1 to 4,096
    /// dots wide and 1 to 1,024 high. A cell must be more than two modules high, and a sheet at most 16,384 dots wide
    /// and high. Any other grid is `BadGrid`.
    pub fn new(
        module_dots: u16,
        cell_width: u16,
        cell_height: u16,
        columns: u16,
        rows: u16,
    ) -> Result<Grid, BadGrid>
        ensures ok { IfOk result (λ g. g ≡ record { dots = module_dots; width = cell_width; height = cell_height; columns = columns; rows = rows }) }
        ensures exact { IsOk result ↔ IsGrid (record { dots = module_dots; width = cell_width; height = cell_height; columns = columns; rows = rows }) }
    {
        if !(1..=8).contains(&module_dots) || !(1..=4096).contains(&cell_width) {
            return Err(BadGrid);
        }
        if !(2 * module_dots + 1..=1024).contains(&cell_height) {
            return Err(BadGrid);
        }
        if !(1..=16).contains(&columns) || !(1..=64).contains(&rows) {
            return Err(BadGrid);
        }
        if !fits_sheet(columns, cell_width) || !fits_sheet(rows, cell_height) {
            return Err(BadGrid);
        }
        Ok(Grid {
            module_dots,
            cell_width,
            cell_height,
            columns,
            rows,
        })
    }

    /// How many columns of cells a sheet has, 1 to 16.
    pub fn columns(&self) -> u16
        ensures { result ≡ self.now.columns }
    {
        self.columns
    }

    /// How many rows of cells a sheet has, 1 to 64.
    pub fn rows(&self) -> u16
        ensures { result ≡ self.now.rows }
    {
        self.rows
    }

    /// How wide a cell is, 1 to 4,096 dots.
    pub fn cell_width(&self) -> u16
        ensures { result ≡ self.now.width }
    {
        self.cell_width
    }

    /// How high a cell is, 3 to 1,024 dots.
    pub fn cell_height(&self) -> u16
        ensures { result ≡ self.now.height }
    {
        self.cell_height
    }

    /// The left and the top of a cell, in dots; cells count row by row from the top left.
    pub(crate) fn corner(&self, cell: u16) -> (u16, u16)
        requires { cell < self.now.columns * self.now.rows }
        ensures left { result.0 ≡ cell % self.now.columns * self.now.width }
        ensures top { result.1 ≡ cell / self.now.columns * self.now.height }
        ensures within { (result.0 + self.now.width ≤ self.now.columns * self.now.width) × (result.1 + self.now.height ≤ self.now.rows * self.now.height) }
        ensures small { result.1 + self.now.height ≤ 16384 }
    {
        (
            cell % self.columns * self.cell_width,
            cell / self.columns * self.cell_height,
        )
    }
}
