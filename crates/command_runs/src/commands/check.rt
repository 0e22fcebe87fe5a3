//! The command `check`: records of a kind and a text in, a line for each out.
ghost use Rattle.command_runs.specs.Runs.{Ran};
ghost use Rattle.command_runs.specs.commands.Checks.{OneCheck, check_command};

use crate::fault::CommandFault;
use csv_records::check_lines;
use digits_core::{Sink, Source, write_all};
use element_core::{Year, one_list_or_fault};
use std::alloc::Global;

/// Writes the lines of `check_lines` for the texts of a source.
pub fn run_check<S: Source, W: Sink>(
    alloc: Global,
    year: Year,
    source: &mut S,
    sink: &mut W,
) -> Result<(), CommandFault>
    ensures { Ran (check_command year) S.left S.failed W.taken W.failed source.old source.new sink.old sink.new result }
{
    let lines = check_lines(alloc, year, source)?;
    write_all(sink, lines.as_str().as_bytes())?;
    Ok(())
}

/// A law: for the same bytes, `check` writes at most one text.
pub fn one_check()
    ensures { OneCheck }
{
    one_list_or_fault();
}
