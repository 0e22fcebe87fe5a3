//! Why a grid, labels or images are refused.
ghost use Rattle.std.specs.Prelude.{Some, ◌≡◌};
ghost use Rattle.digits_core.specs.Refusals.{refusal_text, refusal_words};
ghost use Rattle.digits_core.specs.declared.refusal.RefusalKind.TheVariants as refusal;
ghost use Rattle.sheet_core.specs.Faults.{pbm_fault_text, print_fault_text, sheet_fault_text};
ghost use Rattle.sheet_core.specs.declared.fault.PbmFault.TheVariants.{ReadFault};

use digits_core::{Failed, Refusal, RefusalKind};
use std::fmt;

/// A grid is outside the limits.
#[derive(Clone, Copy, Debug, PartialEq, Eq)]
pub struct BadGrid;

/// The writer failed.
#[derive(Clone, Copy, Debug, PartialEq, Eq)]
pub struct WriteFault;

/// Why labels are not printed.
#[derive(Clone, Copy, Debug, PartialEq, Eq)]
pub enum SheetFault {
    /// The label at this index has no such symbol.
    LabelKind(usize),
    /// The label at this index is wider than its cell.
    LabelWidth(usize),
    /// A growth was refused.
    NoMemory,
}

/// Why labels are not printed as images.
#[derive(Clone, Copy, Debug, PartialEq, Eq)]
pub enum PrintFault {
    /// A label is not printed, or a growth was refused.
    Sheet(SheetFault),
    /// The writer failed.
    WriteFault,
}

/// Why bytes are no images, or could not be read.
#[derive(Clone, Copy, Debug, PartialEq, Eq)]
pub enum PbmFault {
    /// An image does not begin with `P4`.
    NotP4,
    /// A byte cannot stand at its place in a header, or lies past the 4,096 bytes of one.
    PbmHeader,
    /// The input ends within an image.
    Truncated,
    /// A width or height is 0 or above 65,535, or there are more than 4,096 images.
    PbmSize,
    /// A read failed.
    ReadFault,
    /// A growth was refused.
    NoMemory,
}

impl From<Failed> for PbmFault {
    ghost from_gives = { λ _ fault. fault ≡ ReadFault };

    fn from(_: Failed) -> PbmFault {
        PbmFault::ReadFault
    }
}

impl BadGrid {
    /// The refusal that an output line reports.
    pub fn refusal(self) -> Refusal
        ensures { refusal_text result.kind result.place ≡ refusal_words refusal.BadGrid }
    {
        Refusal {
            kind: RefusalKind::BadGrid,
            place: None,
        }
    }
}

impl fmt::Display for BadGrid {
    ghost output = { λ _. Some (refusal_words refusal.BadGrid) };

    fn fmt<W: fmt::Write>(&self, f: &mut fmt::Formatter<W>) -> fmt::Result {
        self.refusal().fmt(f)
    }
}

impl WriteFault {
    /// The refusal that an output line reports.
    pub fn refusal(self) -> Refusal
        ensures { refusal_text result.kind result.place ≡ refusal_words refusal.WriteFault }
    {
        Refusal {
            kind: RefusalKind::WriteFault,
            place: None,
        }
    }
}

impl fmt::Display for WriteFault {
    ghost output = { λ _. Some (refusal_words refusal.WriteFault) };

    fn fmt<W: fmt::Write>(&self, f: &mut fmt::Formatter<W>) -> fmt::Result {
        self.refusal().fmt(f)
    }
}

impl SheetFault {
    /// The refusal that an output line reports.
    pub fn refusal(self) -> Refusal
        ensures { refusal_text result.kind result.place ≡ sheet_fault_text self }
    {
        let (kind, place) = match self {
            SheetFault::LabelKind(label) => (RefusalKind::LabelKind, Some(label)),
            SheetFault::LabelWidth(label) => (RefusalKind::LabelWidth, Some(label)),
            SheetFault::NoMemory => (RefusalKind::NoMemory, None),
        };
        Refusal { kind, place }
    }
}

impl fmt::Display for SheetFault {
    ghost output = { λ fault. Some (sheet_fault_text fault) };

    fn fmt<W: fmt::Write>(&self, f: &mut fmt::Formatter<W>) -> fmt::Result {
        self.refusal().fmt(f)
    }
}

impl PrintFault {
    /// The refusal that an output line reports.
    pub fn refusal(self) -> Refusal
        ensures { refusal_text result.kind result.place ≡ print_fault_text self }
    {
        match self {
            PrintFault::Sheet(fault) => fault.refusal(),
            PrintFault::WriteFault => WriteFault.refusal(),
        }
    }
}

impl fmt::Display for PrintFault {
    ghost output = { λ fault. Some (print_fault_text fault) };

    fn fmt<W: fmt::Write>(&self, f: &mut fmt::Formatter<W>) -> fmt::Result {
        self.refusal().fmt(f)
    }
}

impl PbmFault {
    /// The refusal that an output line reports.
    pub fn refusal(self) -> Refusal
        ensures { refusal_text result.kind result.place ≡ pbm_fault_text self }
    {
        let kind = match self {
            PbmFault::NotP4 => RefusalKind::NotP4,
            PbmFault::PbmHeader => RefusalKind::PbmHeader,
            PbmFault::Truncated => RefusalKind::Truncated,
            PbmFault::PbmSize => RefusalKind::PbmSize,
            PbmFault::ReadFault => RefusalKind::ReadFault,
            PbmFault::NoMemory => RefusalKind::NoMemory,
        };
        Refusal { kind, place: None }
    }
}

impl fmt::Display for PbmFault {
    ghost output = { λ fault. Some (pbm_fault_text fault) };

    fn fmt<W: fmt::Write>(&self, f: &mut fmt::Formatter<W>) -> fmt::Result {
        self.refusal().fmt(f)
    }
}
