//! The numbers of a grid of cells. `specs/Numbers.antt` has the greatest too, and the help in `arguments.rt` prints
//! them.
ghost use Rattle.std.specs.Prelude.{◌↔◌, IfSome, IsSome};
ghost use Rattle.command_line.specs.Numbers.{AreGridNumbers};

/// How wide a module is at most, in dots.
pub const MOST_MODULE_DOTS: u16 = 8;

/// How wide a cell is at most, in dots.
pub const MOST_WIDTH: u16 = 4096;

/// How high a cell is at most, in dots.
pub const MOST_HEIGHT: u16 = 1024;

/// How many columns of cells a sheet has at most.
pub const MOST_COLUMNS: u16 = 16;

/// How many rows of cells a sheet has at most.
pub const MOST_ROWS: u16 = 64;

/// The numbers of a grid of cells, each within its own range. Modules, widths and heights are in
/// dots.
#[derive(Clone, Copy, Debug, PartialEq, Eq)]
pub struct GridOptions {
    /// How wide a module is, 1 to 8 dots.
    pub module_dots: u16,
    /// How wide a cell is, 1 to 4,096 dots.
    pub width: u16,
    /// How high a cell is, 1 to 1,024 dots.
    pub height: u16,
    /// How many columns of cells a sheet has, 1 to 16.
    pub columns: u16,
    /// How many rows of cells a sheet has, 1 to 64.
    pub rows: u16,
    ghost numbers: { AreGridNumbers module_dots width height columns rows },
}

impl GridOptions {
    ghost use Rattle.command_line.specs.Grids.{HasNumbers};

    /// These numbers, or none if one of them is out of range. `Grid::new` checks later whether they fit together.
    pub fn new(
        module_dots: u16,
        width: u16,
        height: u16,
        columns: u16,
        rows: u16,
    ) -> Option<GridOptions>
        ensures taken { IsSome result ↔ AreGridNumbers module_dots width height columns rows }
        ensures numbers { IfSome result (HasNumbers module_dots width height columns rows) }
    {
        if !(1..=MOST_MODULE_DOTS).contains(&module_dots) || !(1..=MOST_WIDTH).contains(&width) {
            return None;
        }
        if !(1..=MOST_HEIGHT).contains(&height) || !(1..=MOST_COLUMNS).contains(&columns) {
            return None;
        }
        if !(1..=MOST_ROWS).contains(&rows) {
            return None;
        }
        Some(GridOptions {
            module_dots,
            width,
            height,
            columns,
            rows,
        })
    }
}
