//! The arguments that commands share: how `clap` is set up for them, and how their values are read from its matches.
//! specs/ defines the greatest numbers and the first and the last year too, and the help prints them.
ghost use Rattle.std.specs.Prelude.{◌<◌, ◌≡◌, ◌^◌, Bool, ℕ, IfNone, IfSome, false};
ghost use Rattle.element_core.specs.Terms.{Terms};
ghost use Rattle.clap.specs.Words.{app_of, found_of, new_app, rows_of, rule_of};
ghost use Rattle.clap.specs.declared.builder.command.Command.TheViews.{out-Command};
ghost use Rattle.command_line.specs.declared.grid_options.GridOptions.{GridOptions};
ghost use Rattle.command_line.specs.Arguments.{HasAis, HasFlag, HasGrid, HasNumber, HasTerms, ais_rule, choice_rule, columns_rule, flag_rule, height_rule, lanes_rule, module_rule, number_rule, rows_rule, width_rule, workers_rule, year_rule};

use crate::grid_options::{
    GridOptions, MOST_COLUMNS, MOST_HEIGHT, MOST_MODULE_DOTS, MOST_ROWS, MOST_WIDTH,
};
use clap::builder::ValueParser;
use clap::{Arg, ArgAction, ArgMatches, Command};
use element_core::Terms;
use std::alloc::Global;

/// How many lanes there are at most.
pub const MOST_LANES: u8 = 16;

/// How many workers there are at most.
pub const MOST_WORKERS: u8 = 16;

/// The first year that is a reference year.
pub const FIRST_YEAR: u16 = 1951;

/// The last year that is a reference year.
pub const LAST_YEAR: u16 = 2149;

/// What `--ais` chooses if it is left out.
const PROFILE: &str = "profile";

/// What `--ais` takes.
pub const AIS_CHOICES: &[&str] = &[PROFILE, "all"];

/// The option `--module`.
const MODULE: &str = "Width of a module, the narrowest bar, 1 to 8 dots";

/// The option `--width`.
const WIDTH: &str = "Width of a cell, 1 to 4096 dots";

/// The option `--height`.
const HEIGHT: &str = "Height of a cell, 1 to 1024 dots";

/// The option `--columns`.
const COLUMNS: &str = "Cells in a row of a sheet, 1 to 16";

/// The option `--rows`.
const ROWS: &str = "Cells in a column of a sheet, 1 to 64";

/// The option `--lanes`.
const LANES: &str = "How many lanes there are, 1 to 16";

/// The option `--workers`.
const WORKERS: &str = "How many workers read rows, 1 to 16";

/// The option `--year`.
const YEAR: &str = "Reference year for years of two digits, 1951 to 2149, such as this year";

/// The option `--ais`.
const AIS: &str = "Accept the AIs of the profile, or all of the GS1 General Specifications";

/// The command with this name, before it has arguments. Its help has `about`, and ends with `example`.
pub fn command<'a>(alloc: Global, name: &'a str, about: &'a str, example: &'a str) -> Command<'a>
    ensures app { app_of result ≡ new_app name.now }
    ensures own { (out-Command result).has_globals ≡ false }
{
    Command::new(alloc, name).about(about).after_help(example)
}

/// The option `--name`. It is required and takes a number from `least` to `most`. The help calls the number `value`
/// and describes it with `help`.
pub fn number<'a>(
    alloc: Global,
    name: &'a str,
    least: u16,
    most: u16,
    value: &'a str,
    help: &'a str,
) -> Arg<'a>
    ensures rule { rule_of result ≡ number_rule name.now least most }
    ensures own { result.global ≡ false }
{
    let reader = ValueParser::Signed(i64::from(least), i64::from(most));
    Arg::new(alloc, name)
        .long(name)
        .action(ArgAction::Set)
        .required(true)
        .value_parser(reader)
        .value_name(value)
        .help(help)
}

/// The option `--name`, a flag without a value. The help describes it with `help`.
pub fn flag<'a>(alloc: Global, name: &'a str, help: &'a str) -> Arg<'a>
    ensures rule { rule_of result ≡ flag_rule name.now }
    ensures own { result.global ≡ false }
{
    Arg::new(alloc, name)
        .long(name)
        .action(ArgAction::SetTrue)
        .help(help)
}

/// The option `--name`, which takes one of these choices. If it is left out, `usual` is chosen. The help calls the
/// choice `value` and describes it with `help`.
pub fn choice<'a>(
    alloc: Global,
    name: &'a str,
    choices: &'a [&'a str],
    usual: &'a str,
    value: &'a str,
    help: &'a str,
) -> Arg<'a>
    ensures rule { rule_of result ≡ choice_rule name.now choices.entry usual.now }
    ensures own { result.global ≡ false }
{
    Arg::new(alloc, name)
        .long(name)
        .action(ArgAction::Set)
        .value_parser(ValueParser::Names(choices))
        .default_value(usual)
        .value_name(value)
        .help(help)
}

/// The option `--lanes`, the number of lanes.
pub fn lane_count<'a>(alloc: Global) -> Arg<'a>
    ensures rule { rule_of result ≡ lanes_rule }
    ensures own { result.global ≡ false }
{
    let most = u16::from(MOST_LANES);
    number(alloc, "lanes", 1, most, "COUNT", LANES)
}

/// The option `--module`, the width of a module in dots.
pub fn module_width<'a>(alloc: Global) -> Arg<'a>
    ensures rule { rule_of result ≡ module_rule }
    ensures own { result.global ≡ false }
{
    number(alloc, "module", 1, MOST_MODULE_DOTS, "DOTS", MODULE)
}

/// The option `--width`, the width of a cell in dots.
pub fn width<'a>(alloc: Global) -> Arg<'a>
    ensures rule { rule_of result ≡ width_rule }
    ensures own { result.global ≡ false }
{
    number(alloc, "width", 1, MOST_WIDTH, "DOTS", WIDTH)
}

/// The option `--height`, the height of a cell in dots.
pub fn height<'a>(alloc: Global) -> Arg<'a>
    ensures rule { rule_of result ≡ height_rule }
    ensures own { result.global ≡ false }
{
    number(alloc, "height", 1, MOST_HEIGHT, "DOTS", HEIGHT)
}

/// The option `--columns`, the number of columns of cells on a sheet.
pub fn columns<'a>(alloc: Global) -> Arg<'a>
    ensures rule { rule_of result ≡ columns_rule }
    ensures own { result.global ≡ false }
{
    number(alloc, "columns", 1, MOST_COLUMNS, "COUNT", COLUMNS)
}

/// The option `--rows`, the number of rows of cells on a sheet.
pub fn rows<'a>(alloc: Global) -> Arg<'a>
    ensures rule { rule_of result ≡ rows_rule }
    ensures own { result.global ≡ false }
{
    number(alloc, "rows", 1, MOST_ROWS, "COUNT", ROWS)
}

/// The option `--workers`, the number of workers.
pub fn workers<'a>(alloc: Global) -> Arg<'a>
    ensures rule { rule_of result ≡ workers_rule }
    ensures own { result.global ≡ false }
{
    let most = u16::from(MOST_WORKERS);
    number(alloc, "workers", 1, most, "COUNT", WORKERS)
}

/// The option `--year`, the reference year of dates.
pub fn year<'a>(alloc: Global) -> Arg<'a>
    ensures rule { rule_of result ≡ year_rule }
    ensures own { result.global ≡ false }
{
    number(alloc, "year", FIRST_YEAR, LAST_YEAR, "YEAR", YEAR)
}

/// The option `--ais`, which AIs are accepted.
pub fn ais<'a>(alloc: Global, choices: &'a [&'a str]) -> Arg<'a>
    ensures rule { rule_of result ≡ ais_rule choices.entry }
    ensures own { result.global ≡ false }
{
    choice(alloc, "ais", choices, PROFILE, "AIS", AIS)
}

/// The number under this name.
pub fn number_named(matches: &ArgMatches<'_>, name: &str) -> Option<u16>
    ensures some { IfSome result (HasNumber name.now (rows_of (found_of matches.now))) }
    ensures none { IfNone result ((n : ℕ) → n < 2 ^ 16
        → HasNumber name.now (rows_of (found_of matches.now)) n → ⊥) }
{
    matches.get_one::<u16>(name)
}

/// The number under this name, if it is a byte.
pub fn byte_named(matches: &ArgMatches<'_>, name: &str) -> Option<u8>
    ensures some { IfSome result (HasNumber name.now (rows_of (found_of matches.now))) }
    ensures none { IfNone result ((n : ℕ) → n < 2 ^ 8
        → HasNumber name.now (rows_of (found_of matches.now)) n → ⊥) }
{
    matches.get_one::<u8>(name)
}

/// The numbers of a grid of cells.
pub fn grid_named(matches: &ArgMatches<'_>) -> Option<GridOptions>
    ensures some { IfSome result (HasGrid (rows_of (found_of matches.now))) }
    ensures none { IfNone result ((o : GridOptions) → HasGrid (rows_of (found_of matches.now)) o → ⊥) }
{
    GridOptions::new(
        number_named(matches, "module")?,
        number_named(matches, "width")?,
        number_named(matches, "height")?,
        number_named(matches, "columns")?,
        number_named(matches, "rows")?,
    )
}

/// Whether the flag of this name is set.
pub fn flag_named(matches: &ArgMatches<'_>, name: &str) -> Option<bool>
    ensures some { IfSome result (HasFlag name.now (rows_of (found_of matches.now))) }
    ensures none { IfNone result ((b : Bool) → HasFlag name.now (rows_of (found_of matches.now)) b → ⊥) }
{
    matches.get_one::<bool>(name)
}

/// Whether every AI is accepted, instead of only those of the profile.
fn every_ai_named(matches: &ArgMatches<'_>) -> Option<bool>
    ensures some { IfSome result (HasAis (rows_of (found_of matches.now))) }
    ensures none { IfNone result ((b : Bool) → HasAis (rows_of (found_of matches.now)) b → ⊥) }
{
    match matches.get_str("ais")? {
        "profile" => Some(false),
        "all" => Some(true),
        _ => None,
    }
}

/// The reference year, and which AIs are accepted.
pub fn terms_named(matches: &ArgMatches<'_>) -> Option<Terms>
    ensures some { IfSome result (HasTerms (rows_of (found_of matches.now))) }
    ensures none { IfNone result ((t : Terms) → HasTerms (rows_of (found_of matches.now)) t → ⊥) }
{
    let profile = Terms::new(number_named(matches, "year")?)?;
    if every_ai_named(matches)? {
        Some(profile.with_every_ai())
    } else {
        Some(profile)
    }
}
