//! The arguments of the command `check`.
ghost use Rattle.std.specs.Prelude.{◌≡◌, IfOk, false};
ghost use Rattle.clap.specs.Words.{app_of};
ghost use Rattle.clap.specs.declared.builder.command.Command.TheViews.{out-Command};
ghost use Rattle.command_line.specs.commands.Checks.{check_app};

use crate::arguments::{ais, command, year};
use clap::Command;
use std::alloc::{AllocError, Global};

/// What `check` does.
const ABOUT: &str =
    "Prints for each text its check digit, GTIN or element strings, or why it is refused";

/// The input of `check`, its output and an example.
const EXAMPLE: &str = "\
Input, one record a line, a kind, a comma and a text:
  digit,950110153000              1 to 17 digits that have no check digit yet
  gtin,9501101530003              a GTIN of 8, 12, 13 or 14 digits
  upce,01234565                   a UPC-E number of 8 digits, the first 0
  text,10AB^17261231              an element string of at most 192 bytes: each AI and its value, without
                                  parentheses; ^ ends a value of no fixed length if another AI
                                  follows
Output, a line for each record: `digit`, `gtin` or `hri` and the answer, or `refused`, a number, a name
and the place in the text, from 0.

Example:
  $ echo gtin,9501101530003 | gs1_hub check --year 2026
  gtin 09501101530003";

/// The command `check` for `clap`; `--ais` takes these choices.
pub fn check_words<'a>(alloc: Global, choices: &'a [&'a str]) -> Result<Command<'a>, AllocError>
    ensures app { IfOk result (λ c. app_of c ≡ check_app choices.entry) }
    ensures own { IfOk result (λ c. (out-Command c).has_globals ≡ false) }
{
    let options = vec![in alloc; year(alloc), ais(alloc, choices)]?;
    command(alloc, "check", ABOUT, EXAMPLE).args(options)
}
