//! The commands, and a run of each.
ghost use Rattle.std.specs.Prelude.{◌≡◌, [], false};
ghost use Rattle.command_runs.specs.Runs.{Ran, TookNothing};
ghost use Rattle.command_runs.specs.commands.{command_of};

pub mod check;
pub mod lanes;
pub mod live;
pub mod print;
pub mod scan;

use crate::buffered::Buffered;
use crate::commands::check::run_check;
use crate::commands::lanes::run_lanes;
use crate::commands::print::run_print;
use crate::commands::scan::run_scan;
use crate::fault::CommandFault;
use command_line::WholeInput;
use digits_core::{Sink, Source};
use hub_core::Gate;
use std::alloc::Global;
use std::sync::Wait;
use std::thread::Threads;

/// Runs a command over its whole input. It writes nothing unless it accepts the whole input. The gate is for the
/// workers of `lanes` and `scan`.
pub fn run<R: Threads + Wait + Sync, S: Source, W: Sink, G: Gate + Sync>(
    rt: &R,
    alloc: Global,
    batch: WholeInput,
    source: &mut S,
    sink: &mut W,
    gate: &G,
) -> Result<(), CommandFault>
    ensures { Ran (command_of batch) S.left S.failed W.taken W.failed
        source.old source.new sink.old sink.new result }
{
    match batch {
        WholeInput::Check(year) => run_check(alloc, year, source, sink),
        WholeInput::Print(options) => run_print(alloc, options, source, sink),
        WholeInput::Lanes(options) => run_lanes(rt, alloc, options, source, sink, gate),
        WholeInput::Scan(options) => run_scan(rt, alloc, options, source, sink, gate),
    }
}

/// Runs a command with a buffer in front of its sink, and writes the rest of the buffer at the end. At first the
/// buffer must be empty, and the sink must not be known to have taken bytes.
fn run_and_flush<R: Threads + Wait + Sync, S: Source, W: Sink, G: Gate + Sync>(
    rt: &R,
    alloc: Global,
    batch: WholeInput,
    source: &mut S,
    sink: &mut Buffered<W>,
    gate: &G,
) -> Result<(), CommandFault>
    requires empty { sink.old.waiting ≡ [] }
    requires fresh { TookNothing (W.taken sink.old.sink) }
    ensures { Ran (command_of batch) S.left S.failed (λ s. W.taken s.sink) (λ s. W.failed s.sink)
        source.old source.new sink.old sink.new result }
{
    run(rt, alloc, batch, source, sink, gate)?;
    sink.flush()?;
    Ok(())
}

/// The same as `run`, through a buffer in front of the sink (`Buffered`). If the run or a write fails, the bytes that
/// wait are dropped. The sink must not have failed, and must not be known to have taken bytes. The call returns it.
pub fn run_buffered<R: Threads + Wait + Sync, S: Source, W: Sink, G: Gate + Sync>(
    rt: &R,
    alloc: Global,
    batch: WholeInput,
    source: &mut S,
    sink: W,
    gate: &G,
) -> (W, Result<(), CommandFault>)
    requires sound { W.failed sink ≡ false }
    requires fresh { TookNothing (W.taken sink) }
    ensures { Ran (command_of batch) S.left S.failed W.taken W.failed source.old source.new sink result.0 result.1 }
{
    let mut buffered = Buffered::new(sink);
    let ran = run_and_flush(rt, alloc, batch, source, &mut buffered, gate);
    (buffered.into_inner(), ran)
}
