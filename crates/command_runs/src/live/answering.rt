//! Answers records as they come.
ghost use Rattle.std.specs.Prelude.{◌≡◌, [], IsErrOf};
ghost use Rattle.hub_core.specs.Serving.{AreSeatCounts};
ghost use Rattle.command_runs.specs.inner.LiveEnds.{EndsAs, live_fault};
ghost use Rattle.command_runs.specs.live.Lived.{Lived};

use crate::live::fault::LiveFault;
use crate::live::input::{Live, Stopped};
use crate::live::terms::LiveTerms;
use hub_core::{Ended, Gate, NotBegun, ServeFault, serve_traffic, served_by_place};
use std::alloc::Global;
use std::convert::Infallible;
use std::sync::Wait;
use std::thread::Threads;
use wire_core::Wire;

/// Why a live input has no answers if the hub fails; `fault_of` of answers/serving.rt does the same for other rows.
fn live_fault_of(fault: ServeFault) -> LiveFault
    ensures { result ≡ live_fault fault }
{
    match fault {
        ServeFault::NoThread => LiveFault::NoThread,
        ServeFault::NoMemory | ServeFault::BadCount => LiveFault::NoMemory,
    }
}

/// The result: what the live input reports, or how its service ended.
fn ending(stopped: Option<LiveFault>, ended: Ended<Stopped, Infallible>) -> Result<(), LiveFault>
    ensures { EndsAs stopped ended result }
{
    match (stopped, ended) {
        (Some(fault), _) => Err(fault),
        (None, Ended::Done) => Ok(()),
        // The hub was refused memory: if `wait` fails, the live input has stopped and says why.
        (None, _) => Err(LiveFault::NoMemory),
    }
}

/// Answers each record from a wire with one line, in the order of the records, as soon as possible. A record is a
/// line: a lane, a comma, and the widths of a row or a message of a scanner. Workers read the rows as in
/// `serve_traffic`. The calling thread may read some too, without a gate. The answer to a row has the row's number in
/// its lane; the answer to a message or to a refused record has `-` instead.
///
/// Whenever it reads, it has already answered all complete lines. It ends with the input, or if a read or a write
/// fails, memory is refused or a thread could not be started. It always returns the wire. After `NoThread` the wire
/// is unchanged: nothing was read and nothing written.
pub fn answer_live<R: Threads + Wait + Sync, W: Wire + Drop, G: Gate + Sync>(
    rt: &R,
    alloc: Global,
    terms: LiveTerms,
    wire: W,
    gate: &G,
) -> (W, Result<(), LiveFault>)
    requires counts { AreSeatCounts terms.lanes terms.workers }
    requires fresh { W.Did wire wire [] }
    ensures lived { Lived terms W.Did W.read_failed W.write_failed W.at_end wire result.0 result.1 }
    ensures untouched { IsErrOf result.1 LiveFault.NoThread → result.0 ≡ wire }
{
    // Field by field: after `terms` as a whole is passed on, the borrow checker refuses to read `terms.year`.
    let asked = LiveTerms {
        lanes: terms.lanes,
        workers: terms.workers,
        year: terms.year,
        form: terms.form,
    };
    let live = match Live::new(alloc, asked, wire) {
        Ok(live) => live,
        Err(wire) => return (wire, Err(LiveFault::NoMemory)),
    };
    // A law from which the clause `lived` follows; the call does nothing.
    served_by_place();
    match serve_traffic(
        rt,
        alloc,
        live,
        terms.lanes,
        terms.workers,
        terms.year,
        gate,
    ) {
        Ok((live, ended)) => {
            let Live { wire, stopped, .. } = live;
            (wire, ending(stopped, ended))
        }
        Err(NotBegun { fault, input: live }) => (live.wire, Err(live_fault_of(fault))),
    }
}
