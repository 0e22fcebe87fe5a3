//! Why widths are no row, and why a row is not read.
ghost use Rattle.std.specs.Prelude.{Some, ◌≡◌};
ghost use Rattle.digits_core.specs.Refusals.{refusal_text};
ghost use Rattle.scan_core.specs.Faults.{row_fault_text, run_fault_text};
ghost use Rattle.scan_core.specs.Reading.{stage_fault};
ghost use Rattle.scan_core.specs.declared.fault.RowFault.TheVariants as row_faults;
ghost use Rattle.scan_core.specs.declared.fault.RunFault.TheVariants.{NoMemory};

use crate::stage::Stage;
use code128_code::Code128Fault;
use digits_core::{Refusal, RefusalKind};
use element_core::ElementFault;
use std::alloc::AllocFailed;
use std::fmt;

/// Why widths are no row.
#[derive(Clone, Copy, Debug, PartialEq, Eq)]
pub enum RunFault {
    /// Together they are more than 65,535 dots.
    TooWide,
    /// Their number is even, or an inner one is 0.
    BadRuns,
    /// Memory for them was refused.
    NoMemory,
}

impl<T: Drop> From<AllocFailed<T>> for RunFault {
    ghost from_gives = { λ _ fault. fault ≡ NoMemory };

    fn from(_: AllocFailed<T>) -> RunFault {
        RunFault::NoMemory
    }
}

/// Why a row is not read: the first of these tests that it fails.
///
/// `QuietZone`, `Modules` and `Pattern` test the row as a symbol of a carrier with as many runs. For 43 runs there
/// are two such carriers; if the row is a symbol of neither, the error is the later of the two. The tests after them
/// are for the only symbol that the row shows.
#[derive(Clone, Copy, Debug, PartialEq, Eq)]
pub enum RowFault {
    /// No dot is dark.
    Blank,
    /// No carrier has this many runs.
    RunCount,
    /// A light end, its quiet zone, is narrower than five modules.
    QuietZone,
    /// A run differs by more than a third of a module from each of 1, 2, 3 and 4 modules.
    Modules,
    /// The modules are no symbol of the carrier, in either direction.
    Pattern,
    /// The check digit that the symbol shows is not that of its number.
    SymbolCheckDigit,
    /// The values of the Code 128 symbol have no text.
    Code128(Code128Fault),
    /// The text of the symbol is no element string. The place is an offset in the text.
    Elements(ElementFault),
}

impl From<Stage> for RowFault {
    ghost from_gives = { λ stage fault. fault ≡ stage_fault stage };

    fn from(stage: Stage) -> RowFault {
        match stage {
            Stage::QuietZone => RowFault::QuietZone,
            Stage::Modules => RowFault::Modules,
            Stage::Pattern => RowFault::Pattern,
        }
    }
}

impl From<Code128Fault> for RowFault {
    ghost from_gives = { λ fault wrapped. wrapped ≡ row_faults.Code128 fault };

    fn from(fault: Code128Fault) -> RowFault {
        RowFault::Code128(fault)
    }
}

impl From<ElementFault> for RowFault {
    ghost from_gives = { λ fault wrapped. wrapped ≡ row_faults.Elements fault };

    fn from(fault: ElementFault) -> RowFault {
        RowFault::Elements(fault)
    }
}

impl RunFault {
    /// The refusal that an output line reports.
    pub fn refusal(self) -> Refusal
        ensures { refusal_text result.kind result.place ≡ run_fault_text self }
    {
        let kind = match self {
            RunFault::TooWide => RefusalKind::TooWide,
            RunFault::BadRuns => RefusalKind::BadRuns,
            RunFault::NoMemory => RefusalKind::NoMemory,
        };
        Refusal { kind, place: None }
    }
}

impl fmt::Display for RunFault {
    ghost output = { λ fault. Some (run_fault_text fault) };

    fn fmt<W: fmt::Write>(&self, f: &mut fmt::Formatter<W>) -> fmt::Result {
        self.refusal().fmt(f)
    }
}

impl RowFault {
    /// The refusal that an output line reports.
    pub fn refusal(self) -> Refusal
        ensures { refusal_text result.kind result.place ≡ row_fault_text self }
    {
        let kind = match self {
            RowFault::Blank => RefusalKind::Blank,
            RowFault::RunCount => RefusalKind::RunCount,
            RowFault::QuietZone => RefusalKind::QuietZone,
            RowFault::Modules => RefusalKind::Modules,
            RowFault::Pattern => RefusalKind::Pattern,
            RowFault::SymbolCheckDigit => RefusalKind::SymbolCheckDigit,
            RowFault::Code128(fault) => return fault.refusal(),
            RowFault::Elements(fault) => return fault.refusal(),
        };
        Refusal { kind, place: None }
    }
}

impl fmt::Display for RowFault {
    ghost output = { λ fault. Some (row_fault_text fault) };

    fn fmt<W: fmt::Write>(&self, f: &mut fmt::Formatter<W>) -> fmt::Result {
        self.refusal().fmt(f)
    }
}
