//! The options of the command `scan`, and their ranges.
ghost use Rattle.std.specs.Prelude.{◌≡◌, ◌↔◌, IfSome, IsSome};
ghost use Rattle.element_core.specs.Terms.{profile};
ghost use Rattle.command_line.specs.Arguments.{IsReferenceYear, IsWorkerCount};
ghost use Rattle.command_line.specs.Grids.{HasNumbers};
ghost use Rattle.command_line.specs.Numbers.{AreGridNumbers};

use crate::arguments::MOST_WORKERS;
use crate::grid_options::GridOptions;
use element_core::{Terms, Year};

/// The options of the command `scan`.
#[derive(Clone, Copy, Debug, PartialEq, Eq)]
pub struct ScanOptions {
    /// The grid that the images are printed in.
    pub grid: GridOptions,
    /// How many workers read rows, 1 to 16.
    pub workers: u8,
    /// The year that dates of two digits are read by, and which AIs are accepted.
    pub year: Year,
    ghost some_workers: { IsWorkerCount workers },
}

impl ScanOptions {
    /// These numbers and the AIs of the profile, or none if a number is out of range. `Grid::new` checks later
    /// whether they fit together.
    pub fn new(
        module_dots: u16,
        width: u16,
        height: u16,
        columns: u16,
        rows: u16,
        workers: u8,
        year: u16,
    ) -> Option<ScanOptions>
        ensures taken { IsSome result ↔ (AreGridNumbers module_dots width height columns rows
            × IsWorkerCount workers × IsReferenceYear year) }
        ensures grid { IfSome result (λ o. HasNumbers module_dots width height columns rows o.grid) }
        ensures rest { IfSome result (λ o. (o.workers ≡ workers) × (o.year ≡ profile year)) }
    {
        let grid = GridOptions::new(module_dots, width, height, columns, rows)?;
        ScanOptions::in_grid(grid, workers, Year::new(year)?)
    }

    /// The options with this grid and these terms, or none if the number of workers is out of range.
    pub(crate) fn in_grid(grid: GridOptions, workers: u8, terms: Terms) -> Option<ScanOptions>
        ensures taken { IsSome result ↔ IsWorkerCount workers }
        ensures numbers { IfSome result (λ o. (o.grid ≡ grid) × (o.workers ≡ workers) × (o.year ≡ terms)) }
    {
        if !(1..=MOST_WORKERS).contains(&workers) {
            return None;
        }
        Some(ScanOptions {
            grid,
            workers,
            year: terms,
        })
    }
}
