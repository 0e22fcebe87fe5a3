//! The command `lanes`: records in, the answers of each lane out.
ghost use Rattle.command_runs.specs.Runs.{Ran};
ghost use Rattle.command_runs.specs.commands.Lanes.{OneLanes, lanes_command};

use crate::answers::rows::answer_records;
use crate::fault::CommandFault;
use command_line::LaneOptions;
use digits_core::{Sink, Source, write_all};
use hub_core::Gate;
use scan_core::{one_answer, row_or_fault};
use std::alloc::Global;
use std::sync::Wait;
use std::thread::Threads;

/// Writes the lines of `answer_records`, with the lanes, workers and year of the options.
pub fn run_lanes<R: Threads + Wait + Sync, S: Source, W: Sink, G: Gate + Sync>(
    rt: &R,
    alloc: Global,
    options: LaneOptions,
    source: &mut S,
    sink: &mut W,
    gate: &G,
) -> Result<(), CommandFault>
    ensures { Ran (lanes_command options) S.left S.failed W.taken W.failed source.old source.new sink.old sink.new result }
{
    let lines = answer_records(
        rt,
        alloc,
        options.lanes,
        options.workers,
        options.year,
        source,
        gate,
    )?;
    write_all(sink, lines.as_str().as_bytes())?;
    Ok(())
}

/// A law: for the same bytes, `lanes` writes at most one text.
pub fn one_lanes()
    ensures { OneLanes }
{
    row_or_fault();
    one_answer();
}
