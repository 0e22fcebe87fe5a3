//! The command `scan`: images of sheets in, the answers of their columns out.
ghost use Rattle.command_runs.specs.Runs.{Ran};
ghost use Rattle.command_runs.specs.commands.Scans.{OneScan, scan_command};

use crate::answers::cells::answer_cells;
use crate::fault::CommandFault;
use crate::grid::grid_of;
use crate::printed::scanned_once;
use command_line::ScanOptions;
use digits_core::{Sink, Source, write_all};
use hub_core::Gate;
use std::alloc::Global;
use std::sync::Wait;
use std::thread::Threads;

/// Writes the lines of `answer_cells` for the images in a source.
///
/// It refuses a grid as `run_print` does. It refuses an image whose size differs from the grid's after it has read
/// all images.
pub fn run_scan<R: Threads + Wait + Sync, S: Source, W: Sink, G: Gate + Sync>(
    rt: &R,
    alloc: Global,
    options: ScanOptions,
    source: &mut S,
    sink: &mut W,
    gate: &G,
) -> Result<(), CommandFault>
    ensures { Ran (scan_command options) S.left S.failed W.taken W.failed source.old source.new sink.old sink.new result }
{
    let grid = grid_of(options.grid)?;
    let lines = answer_cells(rt, alloc, options, grid, source, gate)?;
    write_all(sink, lines.as_str().as_bytes())?;
    Ok(())
}

/// A law: for the same bytes, `scan` writes at most one text.
pub fn one_scan()
    ensures { OneScan }
{
    scanned_once();
}
