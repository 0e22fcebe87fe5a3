//! The arguments of the command `live`, and its options.
ghost use Rattle.std.specs.Prelude.{◌≡◌, IfNone, IfOk, IfSome, false};
ghost use Rattle.clap.specs.Words.{app_of, found_of, rows_of};
ghost use Rattle.clap.specs.declared.builder.command.Command.TheViews.{out-Command};
ghost use Rattle.command_line.specs.commands.Lives.{HasLive, live_app};
ghost use Rattle.command_line.specs.declared.commands.live.options.LiveOptions.{LiveOptions};

pub mod options;

use crate::arguments::{ais, command, flag, flag_named, lane_count, workers, year};
use crate::commands::lanes;
use crate::commands::live::options::LiveOptions;
use clap::{ArgMatches, Command};
use std::alloc::{AllocError, Global};

/// What `live` does.
const ABOUT: &str =
    "Reads scanned rows and texts of scanners, and answers each before it reads the next";

/// The input of `live`, its output and an example.
const EXAMPLE: &str = "\
Input of any length, one record a line: a lane, from 0, a comma, and either the widths of a row's light
and dark bars, as `lanes --help` says, or the text that a scanner sends. A text begins with ], ^,
byte 29, eight digits, http:// or https://. A line has at most 65,536 bytes, and quotes have no meaning.
Output, a line for each record, in their order, written before the program waits for more input: the
lane, the row's number in it, from 0, and the symbology identifier with the elements, or `refused`, a
number and a name. A text has `-` in place of the number, and `-` in place of the identifier if none was
sent. A record that is neither has `-` in place of its number, and of its lane if it names none.
With --elements each element is its AI, = and its value, with a tab between each two.

Example, a row of 100 light dots, a scanner text, and a row of a lane that is not there:
  $ printf '0,100\\n0,]E09501101530003\\n1,100\\n' | gs1_hub live --lanes 1 --workers 1 --year 2026
  0 0 refused 19 Blank
  0 - ]E0 (01)09501101530003
  - - refused 41 BadLane";

/// The flag `--elements`.
const ELEMENTS: &str = "Write each element as its AI, = and its value, with tabs between them";

/// The options of the command `live`.
pub fn options_named(matches: &ArgMatches<'_>) -> Option<LiveOptions>
    ensures some { IfSome result (HasLive (rows_of (found_of matches.now))) }
    ensures none { IfNone result ((o : LiveOptions)
        → HasLive (rows_of (found_of matches.now)) o → ⊥) }
{
    let rows = lanes::options_named(matches)?;
    Some(LiveOptions::new(rows, flag_named(matches, "elements")?))
}

/// The command `live` for `clap`; `--ais` takes these choices. Its arguments begin with those of `lanes_words`.
pub fn live_words<'a>(alloc: Global, choices: &'a [&'a str]) -> Result<Command<'a>, AllocError>
    ensures app { IfOk result (λ c. app_of c ≡ live_app choices.entry) }
    ensures own { IfOk result (λ c. (out-Command c).has_globals ≡ false) }
{
    let options = vec![in alloc;
        lane_count(alloc),
        workers(alloc),
        year(alloc),
        ais(alloc, choices),
        flag(alloc, "elements", ELEMENTS),
    ]?;
    command(alloc, "live", ABOUT, EXAMPLE).args(options)
}
