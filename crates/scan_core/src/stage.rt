//! The tests by which a row is or is not a symbol of a carrier.
ghost use Rattle.std.specs.Prelude.{◌≡◌};
ghost use Rattle.scan_core.specs.inner.Reading.{later};

/// A test of a row as a symbol of a carrier, in the order in which the tests run.
#[derive(Clone, Copy, PartialEq, Eq, PartialOrd, Ord)]
pub(crate) enum Stage {
    /// Both light ends are wide enough.
    QuietZone,
    /// Each run is a number of modules.
    Modules,
    /// The modules have the form of the carrier's symbols, in one of the two directions.
    Pattern,
}

/// The later one of two stages.
pub(crate) fn later(first: Stage, second: Stage) -> Stage
    ensures { result ≡ later first second }
{
    first.max(second)
}
