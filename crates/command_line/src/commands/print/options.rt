//! The options of the command `print`, and their ranges.
ghost use Rattle.std.specs.Prelude.{◌≡◌, ◌↔◌, IfSome, IsSome};
ghost use Rattle.element_core.specs.Terms.{profile};
ghost use Rattle.command_line.specs.Arguments.{IsReferenceYear};
ghost use Rattle.command_line.specs.commands.Prints.{asks_lines};
ghost use Rattle.command_line.specs.Grids.{HasNumbers};
ghost use Rattle.command_line.specs.Numbers.{AreGridNumbers};

use crate::grid_options::GridOptions;
use element_core::{Terms, Year};

/// What `print` writes for labels.
#[derive(Clone, Copy, Debug, PartialEq, Eq)]
pub enum Output {
    /// The images of their sheets.
    Images,
    /// A line for each label.
    Lines,
}

/// The options of the command `print`.
#[derive(Clone, Copy, Debug, PartialEq, Eq)]
pub struct PrintOptions {
    /// The grid that labels are printed in.
    pub grid: GridOptions,
    /// The year that dates of two digits are read by, and which AIs are accepted.
    pub year: Year,
    /// What it writes for the labels.
    pub output: Output,
}

impl PrintOptions {
    /// These numbers and the AIs of the profile, and lines of text instead of images if `text` is set; none if a
    /// number is out of range. `Grid::new` checks later whether they fit together.
    pub fn new(
        module_dots: u16,
        width: u16,
        height: u16,
        columns: u16,
        rows: u16,
        year: u16,
        text: bool,
    ) -> Option<PrintOptions>
        ensures taken { IsSome result
            ↔ (AreGridNumbers module_dots width height columns rows × IsReferenceYear year) }
        ensures grid { IfSome result (λ o. HasNumbers module_dots width height columns rows o.grid) }
        ensures rest { IfSome result (λ o. (o.year ≡ profile year) × (asks_lines o.output ≡ text)) }
    {
        let grid = GridOptions::new(module_dots, width, height, columns, rows)?;
        Some(PrintOptions::in_grid(grid, Year::new(year)?, text))
    }

    /// The options with this grid and these terms.
    pub(crate) fn in_grid(grid: GridOptions, terms: Terms, text: bool) -> PrintOptions
        ensures grid { result.grid ≡ grid }
        ensures rest { (result.year ≡ terms) × (asks_lines result.output ≡ text) }
    {
        let output = if text { Output::Lines } else { Output::Images };
        PrintOptions {
            grid,
            year: terms,
            output,
        }
    }
}
