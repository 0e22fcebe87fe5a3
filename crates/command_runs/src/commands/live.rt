//! The command `live`: records in, the answer to each out as soon as possible.
ghost use Rattle.std.specs.Prelude.{◌≡◌, [], IsErrOf};
ghost use Rattle.command_runs.specs.Faults.{no_thread};
ghost use Rattle.command_runs.specs.commands.Lives.{IsLive};

use crate::fault::CommandFault;
use crate::live::answering::answer_live;
use crate::live::terms::LiveTerms;
use command_line::LiveOptions;
use hub_core::Gate;
use std::alloc::Global;
use std::sync::Wait;
use std::thread::Threads;
use wire_core::Wire;

/// Runs `answer_live` with the terms of the options. Returns its error as the command's.
pub fn run_live<R: Threads + Wait + Sync, W: Wire + Drop, G: Gate + Sync>(
    rt: &R,
    alloc: Global,
    options: LiveOptions,
    wire: W,
    gate: &G,
) -> (W, Result<(), CommandFault>)
    requires fresh { W.Did wire wire [] }
    ensures lived { IsLive options W.Did W.read_failed W.write_failed W.at_end wire result.0 result.1 }
    ensures untouched { IsErrOf result.1 no_thread → result.0 ≡ wire }
{
    let rows = options.rows;
    let terms = LiveTerms {
        lanes: rows.lanes,
        workers: rows.workers,
        year: rows.year,
        form: options.form,
    };
    let (wire, ended) = answer_live(rt, alloc, terms, wire, gate);
    match ended {
        Ok(()) => (wire, Ok(())),
        Err(fault) => (wire, Err(CommandFault::from(fault))),
    }
}
