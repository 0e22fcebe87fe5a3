//! The arguments of the command `print`, and its options.
ghost use Rattle.std.specs.Prelude.{◌≡◌, IfNone, IfOk, IfSome, false};
ghost use Rattle.clap.specs.Words.{app_of, found_of, rows_of};
ghost use Rattle.clap.specs.declared.builder.command.Command.TheViews.{out-Command};
ghost use Rattle.command_line.specs.commands.Prints.{HasPrint, print_app};
ghost use Rattle.command_line.specs.declared.commands.print.options.PrintOptions.{PrintOptions};

pub mod options;

use crate::arguments::{
    ais, columns, command, flag, flag_named, grid_named, height, module_width, rows, terms_named,
    width, year,
};
use crate::commands::print::options::PrintOptions;
use clap::{ArgMatches, Command};
use std::alloc::{AllocError, Global};

/// What `print` does.
const ABOUT: &str = "Prints labels as PBM images of sheets, or as lines of text";

/// The input of `print`, its output and an example.
const EXAMPLE: &str = "\
Input, one label a line, a kind, a comma and a text:
  ean13,9501101530003             a GTIN of at most 13 digits; 113 modules wide
  upca,012345000065               a GTIN of at most 12 digits; 113 modules wide
  ean8,96385074                   a GTIN of 8 digits; 81 modules wide
  upce,012345000065               a GTIN that has a UPC-E; 67 modules wide
  itf14,09501101530003            any GTIN, of 14 digits on the label; 155 modules wide
  gs1128,10AB^17261231            an element string of at most 48 characters, as `check` takes it;
                                  11 modules a character and 66 more at most
Width and height are those of a cell, with quiet zones. A cell is more than two modules high, and a
sheet has at most 16,384 dots a side. Labels fill the cells from left to right and from top to bottom.
Output: the images of the sheets, one after another, in the format PBM (P4), one bit a dot; with --text
a line for each label: its sheet, its cell, its kind and its elements.

Example:
  $ echo ean13,9501101530003 > label.csv
  $ gs1_hub print --module 2 --width 240 --height 120 --columns 1 --rows 1 --year 2026 < label.csv > label.pbm";

/// The flag `--text`.
const TEXT: &str = "Print a line for each label instead of images";

/// The command `print` for `clap`; `--ais` takes these choices. The arguments of the grid come first, as in
/// `scan_words`.
pub fn print_words<'a>(alloc: Global, choices: &'a [&'a str]) -> Result<Command<'a>, AllocError>
    ensures app { IfOk result (λ c. app_of c ≡ print_app choices.entry) }
    ensures own { IfOk result (λ c. (out-Command c).has_globals ≡ false) }
{
    let options = vec![in alloc;
        module_width(alloc),
        width(alloc),
        height(alloc),
        columns(alloc),
        rows(alloc),
        year(alloc),
        ais(alloc, choices),
        flag(alloc, "text", TEXT),
    ]?;
    command(alloc, "print", ABOUT, EXAMPLE).args(options)
}

/// The options of the command `print`.
pub fn options_named(matches: &ArgMatches<'_>) -> Option<PrintOptions>
    ensures some { IfSome result (HasPrint (rows_of (found_of matches.now))) }
    ensures none { IfNone result ((o : PrintOptions)
        → HasPrint (rows_of (found_of matches.now)) o → ⊥) }
{
    Some(PrintOptions::in_grid(
        grid_named(matches)?,
        terms_named(matches)?,
        flag_named(matches, "text")?,
    ))
}
