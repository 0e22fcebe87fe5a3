//! The arguments of the program.
ghost use Rattle.std.specs.Prelude.{Some, IfOk, IfSome, IfNone, IfErr, map, string_bytes};
ghost use Rattle.clap.specs.Words.{kind_of, subcommand_rows_of};
ghost use Rattle.command_line.specs.Asking.{AreFaulty, Asks, Explains, WordsAsk};
ghost use Rattle.command_line.specs.inner.Asking.{FaultOfKind};
ghost use Rattle.command_line.specs.Faults.{words_fault_text};
ghost use Rattle.command_line.specs.declared.commands.Asked.{Asked};

use crate::arguments::AIS_CHOICES;
use crate::commands::{Asked, asked_by, hub_words};
use clap::error::ErrorKind;
use clap::{ArgMatches, Error};
use digits_core::RefusalKind;
use std::alloc::Global;
use std::fmt;

/// Why no command is run.
#[derive(Debug, Drop)]
pub enum WordsFault {
    /// The arguments are not those of a command.
    Words,
    /// Memory was refused.
    NoMemory,
    /// The arguments ask for help or the version; this is its text.
    Help(String),
}

impl fmt::Display for WordsFault {
    ghost output = { λ fault. Some (words_fault_text fault) };

    fn fmt<W: fmt::Write>(&self, f: &mut fmt::Formatter<W>) -> fmt::Result {
        match self {
            WordsFault::Words => RefusalKind::Words.fmt(f),
            WordsFault::NoMemory => RefusalKind::NoMemory.fmt(f),
            WordsFault::Help(text) => text.fmt(f),
        }
    }
}

/// What the matches ask for.
fn asked_of(matches: &ArgMatches<'_>) -> Option<Asked>
    ensures some { IfSome result (Asks (subcommand_rows_of matches.now)) }
    ensures none { IfNone result ((a : Asked) → Asks (subcommand_rows_of matches.now) a → ⊥) }
{
    let (name, inner) = matches.subcommand()?;
    asked_by(name, inner)
}

/// The error for an error of `clap`.
fn fault_from(alloc: Global, error: &Error) -> WordsFault
    ensures { FaultOfKind (kind_of error.now) result }
{
    match error.kind() {
        ErrorKind::OutOfMemory => WordsFault::NoMemory,
        ErrorKind::DisplayHelp | ErrorKind::DisplayVersion => match error.to_string(alloc) {
            Ok(text) => WordsFault::Help(text),
            Err(_) => WordsFault::NoMemory,
        },
        _ => WordsFault::Words,
    }
}

/// The command and its numbers that the arguments ask for. The first argument is the name of the program.
pub fn read_words(alloc: Global, words: &[String]) -> Result<Asked, WordsFault>
    ensures asked { IfOk result (WordsAsk (map string_bytes words.now)) }
    ensures refused { IfErr result (Explains (map string_bytes words.now)) }
{
    let Ok(hub) = hub_words(alloc, AIS_CHOICES) else {
        return Err(WordsFault::NoMemory);
    };
    let matches = match hub.try_get_matches_from(words) {
        Ok(matches) => matches,
        Err(error) => return Err(fault_from(alloc, &error)),
    };
    match asked_of(&matches) {
        Some(asked) => Ok(asked),
        // Arguments that clap accepts have every number.
        None => unreachable!(),
    }
}

/// What clap says about arguments that it refuses: which one, and what it expected. None if it accepts them, if they
/// ask for help or the version, or if memory is refused.
pub fn sentence(alloc: Global, words: &[String]) -> Option<String>
    ensures { IfSome result (λ text. AreFaulty (map string_bytes words.now)) }
{
    let Ok(hub) = hub_words(alloc, AIS_CHOICES) else {
        return None;
    };
    let Err(error) = hub.try_get_matches_from(words) else {
        return None;
    };
    match error.kind() {
        ErrorKind::DisplayHelp | ErrorKind::DisplayVersion | ErrorKind::OutOfMemory => None,
        _ => error.to_string(alloc).ok(),
    }
}
