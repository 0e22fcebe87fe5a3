//! The arguments of the command `scan`, and its options.
ghost use Rattle.std.specs.Prelude.{◌≡◌, IfNone, IfOk, IfSome, false};
ghost use Rattle.clap.specs.Words.{app_of, found_of, rows_of};
ghost use Rattle.clap.specs.declared.builder.command.Command.TheViews.{out-Command};
ghost use Rattle.command_line.specs.commands.Scans.{HasScan, scan_app};
ghost use Rattle.command_line.specs.declared.commands.scan.options.ScanOptions.{ScanOptions};

pub mod options;

use crate::arguments::{
    ais, byte_named, columns, command, grid_named, height, module_width, rows, terms_named, width,
    workers, year,
};
use crate::commands::scan::options::ScanOptions;
use clap::{ArgMatches, Command};
use std::alloc::{AllocError, Global};

/// What `scan` does.
const ABOUT: &str = "Reads PBM images of sheets and prints what each cell says";

/// The input of `scan`, its output and an example.
const EXAMPLE: &str = "\
Input: images in the format PBM (P4), one after another, each as wide as the columns together and as
high as the rows together: give the options that the sheets were printed with.
Output, column by column: the column, the number of the cell in it, from the top, sheet after sheet,
from 0, and the symbology identifier with the elements, or `refused`, a number and a name. The middle
row of each cell is read.

Example, with the label.pbm that the example of `gs1_hub print --help` makes:
  $ gs1_hub scan --module 2 --width 240 --height 120 --columns 1 --rows 1 --workers 1 --year 2026 < label.pbm
  0 0 ]E0 (01)09501101530003";

/// The command `scan` for `clap`; `--ais` takes these choices. The arguments of the grid come first, as in
/// `print_words`.
pub fn scan_words<'a>(alloc: Global, choices: &'a [&'a str]) -> Result<Command<'a>, AllocError>
    ensures app { IfOk result (λ c. app_of c ≡ scan_app choices.entry) }
    ensures own { IfOk result (λ c. (out-Command c).has_globals ≡ false) }
{
    let options = vec![in alloc;
        module_width(alloc),
        width(alloc),
        height(alloc),
        columns(alloc),
        rows(alloc),
        workers(alloc),
        year(alloc),
        ais(alloc, choices),
    ]?;
    command(alloc, "scan", ABOUT, EXAMPLE).args(options)
}

/// The options of the command `scan`.
pub fn options_named(matches: &ArgMatches<'_>) -> Option<ScanOptions>
    ensures some { IfSome result (HasScan (rows_of (found_of matches.now))) }
    ensures none { IfNone result ((o : ScanOptions)
        → HasScan (rows_of (found_of matches.now)) o → ⊥) }
{
    ScanOptions::in_grid(
        grid_named(matches)?,
        byte_named(matches, "workers")?,
        terms_named(matches)?,
    )
}
