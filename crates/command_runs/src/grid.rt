//! The grid that options ask for.
ghost use Rattle.std.specs.Prelude.{◌≡◌, ◌↔◌, IfOk, IsOk};
ghost use Rattle.sheet_core.specs.Grids.{IsGrid};
ghost use Rattle.command_runs.specs.Grids.{cells_of};

use command_line::GridOptions;
use sheet_core::{BadGrid, Grid};

/// The grid of these numbers, if they fit together.
pub fn grid_of(options: GridOptions) -> Result<Grid, BadGrid>
    ensures ok { IfOk result (λ g. g ≡ cells_of options) }
    ensures exact { IsOk result ↔ IsGrid (cells_of options) }
{
    Grid::new(
        options.module_dots,
        options.width,
        options.height,
        options.columns,
        options.rows,
    )
}
