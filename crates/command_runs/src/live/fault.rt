//! The errors that end a live input, and whether it may still write the lines of its last turn.
ghost use Rattle.std.specs.Prelude.{◌↔◌, IsTrue};
ghost use Rattle.command_runs.specs.inner.Stops.{MayStillWrite};

/// Why a live input gets no more answers.
#[derive(Clone, Copy, Debug, PartialEq, Eq)]
pub enum LiveFault {
    /// A read failed.
    ReadFault,
    /// A write failed.
    WriteFault,
    /// A growth was refused.
    NoMemory,
    /// A thread could not be started.
    NoThread,
}

/// Whether the lines of a turn may still be written: nothing has stopped it, or only refused memory has.
pub fn is_open(stopped: Option<LiveFault>) -> bool
    ensures { IsTrue result ↔ MayStillWrite stopped }
{
    match stopped {
        None | Some(LiveFault::NoMemory) => true,
        Some(LiveFault::ReadFault | LiveFault::WriteFault | LiveFault::NoThread) => false,
    }
}
