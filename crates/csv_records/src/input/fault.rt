//! Why records are refused.
ghost use Rattle.std.specs.Prelude.{Some, ◌≡◌};
ghost use Rattle.digits_core.specs.Refusals.{refusal_text};
ghost use Rattle.csv_records.specs.input.Faults.{no_room, of_record, refusal_at, of_input, record_fault_text};

use digits_core::{DigitFault, InputFault, Refusal, RefusalKind};
use element_core::ElementFault;
use std::alloc::AllocError;
use std::fmt;

/// What is wrong with a record of the input. `lane_row`, `check_meaning` and `print_meaning` in specs/ define which
/// record has which error.
#[derive(Clone, Copy, Debug, PartialEq, Eq)]
pub enum RecordFault {
    /// It does not have two fields.
    Csv,
    /// Its first field is no kind of text that the command knows.
    Kind,
    /// Its first field is no lane: one or two digits that are a number below the number of lanes.
    BadLane,
    /// The number of widths in its second field is even, a width does not have one to five digits, they are not
    /// separated by single spaces, or a width other than the first and the last is 0.
    BadRuns,
    /// Its widths have a sum above 65,535.
    TooWide,
    /// Its second field is no GTIN.
    Digits(DigitFault),
    /// Its second field is no element string.
    Elements(ElementFault),
}

impl RecordFault {
    /// The error in an output line.
    pub fn refusal(self) -> Refusal
        ensures { refusal_text result.kind result.place ≡ record_fault_text self }
    {
        let kind = match self {
            RecordFault::Csv => RefusalKind::Csv,
            RecordFault::Kind => RefusalKind::Kind,
            RecordFault::BadLane => RefusalKind::BadLane,
            RecordFault::BadRuns => RefusalKind::BadRuns,
            RecordFault::TooWide => RefusalKind::TooWide,
            RecordFault::Digits(fault) => return fault.refusal(),
            RecordFault::Elements(fault) => return fault.refusal(),
        };
        Refusal { kind, place: None }
    }
}

impl fmt::Display for RecordFault {
    ghost output = { λ fault. Some (record_fault_text fault) };

    fn fmt<W: fmt::Write>(&self, f: &mut fmt::Formatter<W>) -> fmt::Result {
        self.refusal().fmt(f)
    }
}

/// Why the records of an input are refused: an error of reading it (`InputFault`), or of a record.
#[derive(Clone, Copy, Debug, PartialEq, Eq)]
pub enum RecordsFault {
    /// A read failed.
    ReadFault,
    /// The input has more than `INPUT_LIMIT` bytes.
    InputSize,
    /// The first faulty record: its index, from 0, and its error.
    Record(usize, RecordFault),
    /// An allocation failed.
    NoMemory,
}

// The errors of lower layers as errors of the records or of one record. The clauses `from_gives` name a definition of
// specs/input/Faults, or `NoMemory` itself.

impl From<InputFault> for RecordsFault {
    ghost from_gives = { λ fault records. records ≡ of_input fault };

    fn from(fault: InputFault) -> RecordsFault {
        match fault {
            InputFault::ReadFault => RecordsFault::ReadFault,
            InputFault::InputSize => RecordsFault::InputSize,
            InputFault::NoMemory => RecordsFault::NoMemory,
        }
    }
}

impl From<AllocError> for RecordsFault {
    ghost use Rattle.csv_records.specs.declared.input.fault.RecordsFault.TheVariants.{NoMemory};

    ghost from_gives = { λ refused records. records ≡ NoMemory };

    fn from(_: AllocError) -> RecordsFault {
        RecordsFault::NoMemory
    }
}

/// Why a record is refused.
#[derive(Clone, Copy, Debug, PartialEq, Eq)]
pub enum RecordRefusal {
    /// It has a fault.
    Record(RecordFault),
    /// An allocation failed.
    NoMemory,
}

impl From<RecordFault> for RecordRefusal {
    ghost from_gives = { λ fault refusal. refusal ≡ of_record fault };

    fn from(fault: RecordFault) -> RecordRefusal {
        RecordRefusal::Record(fault)
    }
}

impl From<AllocError> for RecordRefusal {
    ghost from_gives = { λ refused refusal. refusal ≡ no_room };

    fn from(_: AllocError) -> RecordRefusal {
        RecordRefusal::NoMemory
    }
}

impl RecordRefusal {
    /// The error of the input if its record at this index is refused.
    pub fn at(self, index: usize) -> RecordsFault
        ensures { result ≡ refusal_at index self }
    {
        match self {
            RecordRefusal::Record(fault) => RecordsFault::Record(index, fault),
            RecordRefusal::NoMemory => RecordsFault::NoMemory,
        }
    }
}
