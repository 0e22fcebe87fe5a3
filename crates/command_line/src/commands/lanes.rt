//! The arguments of the command `lanes`, and its options.
ghost use Rattle.std.specs.Prelude.{◌≡◌, IfNone, IfOk, IfSome, false};
ghost use Rattle.clap.specs.Words.{app_of, found_of, rows_of};
ghost use Rattle.clap.specs.declared.builder.command.Command.TheViews.{out-Command};
ghost use Rattle.command_line.specs.commands.Lanes.{HasLanes, lanes_app};
ghost use Rattle.command_line.specs.declared.commands.lanes.options.LaneOptions.{LaneOptions};

pub mod options;

use crate::arguments::{ais, byte_named, command, lane_count, terms_named, workers, year};
use crate::commands::lanes::options::LaneOptions;
use clap::{ArgMatches, Command};
use std::alloc::{AllocError, Global};

/// What `lanes` does.
const ABOUT: &str = "Reads scanned rows and prints what each says, lane by lane";

/// The input of `lanes`, its output and an example.
const EXAMPLE: &str = "\
Input, one row a line: a lane, from 0, a comma, and the widths of the row's light and dark bars in dots,
with one space between them. A row begins and ends with light, and has at most 65,535 dots.
Output, lane by lane: the lane, the row's number in it, from 0, and the symbology identifier with the
elements, or `refused`, a number and a name.

Example, a row of 100 light dots:
  $ echo 0,100 | gs1_hub lanes --lanes 1 --workers 1 --year 2026
  0 0 refused 19 Blank";

/// The options of the command `lanes`.
pub fn options_named(matches: &ArgMatches<'_>) -> Option<LaneOptions>
    ensures some { IfSome result (HasLanes (rows_of (found_of matches.now))) }
    ensures none { IfNone result ((o : LaneOptions)
        → HasLanes (rows_of (found_of matches.now)) o → ⊥) }
{
    LaneOptions::by(
        byte_named(matches, "lanes")?,
        byte_named(matches, "workers")?,
        terms_named(matches)?,
    )
}

/// The command `lanes` for `clap`; `--ais` takes these choices. `live_words` begins in the same way.
pub fn lanes_words<'a>(alloc: Global, choices: &'a [&'a str]) -> Result<Command<'a>, AllocError>
    ensures app { IfOk result (λ c. app_of c ≡ lanes_app choices.entry) }
    ensures own { IfOk result (λ c. (out-Command c).has_globals ≡ false) }
{
    let options = vec![in alloc;
        lane_count(alloc),
        workers(alloc),
        year(alloc),
        ais(alloc, choices),
    ]?;
    command(alloc, "lanes", ABOUT, EXAMPLE).args(options)
}
