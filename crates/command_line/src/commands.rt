//! The commands, and what their arguments ask for.
ghost use Rattle.std.specs.Prelude.{◌≡◌, IfNone, IfOk, IfSome, List, Ok, map};
ghost use Rattle.clap.specs.Words.{AddsInTurn, AddsSubcommand, app_of, found_of, rows_of};
ghost use Rattle.clap.specs.declared.builder.command.Command.{Command};
ghost use Rattle.command_line.specs.commands.{AsksIn, batch_of, hub_top};
ghost use Rattle.command_line.specs.inner.Asking.{AreAisChoices, IsHub};
ghost use Rattle.command_line.specs.declared.commands.Asked.{Asked};
ghost use Rattle.command_line.specs.declared.commands.WholeInput.{WholeInput};

pub mod check;
pub mod lanes;
pub mod live;
pub mod print;
pub mod scan;

use crate::arguments::terms_named;
use crate::commands::check::check_words;
use crate::commands::lanes::lanes_words;
use crate::commands::lanes::options::LaneOptions;
use crate::commands::live::live_words;
use crate::commands::live::options::LiveOptions;
use crate::commands::print::options::PrintOptions;
use crate::commands::print::print_words;
use crate::commands::scan::options::ScanOptions;
use crate::commands::scan::scan_words;
use crate::help;
use clap::{ArgMatches, Command};
use element_core::Year;
use std::alloc::{AllocError, Global};

/// What the arguments ask for.
#[derive(Clone, Copy, Debug, PartialEq, Eq)]
pub enum Asked {
    /// Check texts, with this reference year and these AIs.
    Check(Year),
    /// Print labels.
    Print(PrintOptions),
    /// Read the rows of these lanes.
    Lanes(LaneOptions),
    /// Read the sheets in these images.
    Scan(ScanOptions),
    /// Read the rows of these lanes as they come.
    Live(LiveOptions),
}

/// A command over its whole input. It writes nothing before it has read everything.
#[derive(Clone, Copy, Debug, PartialEq, Eq)]
pub enum WholeInput {
    /// Check texts, with this reference year and these AIs.
    Check(Year),
    /// Print labels.
    Print(PrintOptions),
    /// Read the rows of these lanes.
    Lanes(LaneOptions),
    /// Read the sheets in these images.
    Scan(ScanOptions),
}

impl Asked {
    /// The command over its whole input, or the options of the one that reads its input as it comes.
    pub fn batch(self) -> Result<WholeInput, LiveOptions>
        ensures { result ≡ batch_of self }
    {
        match self {
            Asked::Check(year) => Ok(WholeInput::Check(year)),
            Asked::Print(options) => Ok(WholeInput::Print(options)),
            Asked::Lanes(options) => Ok(WholeInput::Lanes(options)),
            Asked::Scan(options) => Ok(WholeInput::Scan(options)),
            Asked::Live(options) => Err(options),
        }
    }
}

/// The program before it has commands.
fn program<'a>(alloc: Global) -> Command<'a>
    ensures { app_of result ≡ hub_top }
{
    Command::new(alloc, "gs1_hub")
        .version(help::VERSION)
        .about(help::HUB)
        .after_help(help::HUB_EXAMPLE)
        .disable_help_subcommand(true)
        .subcommand_required(true)
}

/// The program with these commands, if all of them could be made.
fn with_commands<'a>(
    program: Command<'a>,
    commands: [Result<Command<'a>, AllocError>; 5],
) -> Result<Command<'a>, AllocError>
    ensures { IfOk result (λ c. (made : List Command) × (commands.entry ≡ map (λ m. Ok m) made)
        × AddsInTurn AddsSubcommand program.entry made c) }
{
    let mut whole = program;
    for command in commands {
        whole = whole.subcommand(command?)?;
    }
    Ok(whole)
}

/// The program with its commands for `clap`; `--ais` takes these choices.
pub fn hub_words<'a>(alloc: Global, choices: &'a [&'a str]) -> Result<Command<'a>, AllocError>
    requires { AreAisChoices choices }
    ensures { IfOk result (λ c. IsHub (app_of c)) }
{
    let commands = [
        check_words(alloc, choices),
        print_words(alloc, choices),
        lanes_words(alloc, choices),
        scan_words(alloc, choices),
        live_words(alloc, choices),
    ];
    with_commands(program(alloc), commands)
}

/// What the matches of a command ask for.
pub fn asked_by(name: &str, matches: &ArgMatches<'_>) -> Option<Asked>
    ensures some { IfSome result (AsksIn name.now (rows_of (found_of matches.now))) }
    ensures none { IfNone result ((a : Asked)
        → AsksIn name.now (rows_of (found_of matches.now)) a → ⊥) }
{
    match name {
        "check" => terms_named(matches).map(Asked::Check),
        "print" => print::options_named(matches).map(Asked::Print),
        "lanes" => lanes::options_named(matches).map(Asked::Lanes),
        "scan" => scan::options_named(matches).map(Asked::Scan),
        "live" => live::options_named(matches).map(Asked::Live),
        _ => None,
    }
}
