//! Why a command refuses its whole input.
ghost use Rattle.std.specs.Prelude.{Some, ◌≡◌};
ghost use Rattle.digits_core.specs.Refusals.{refusal_text};
ghost use Rattle.command_runs.specs.Faults.{bad_grid, command_fault_text, command_refusal_text, failed_write, no_memory, of_answers, of_images, of_live, of_prints, of_records, of_rows, of_sheets};

use crate::answers::rows::RowsFault;
use crate::answers::serving::AnswerFault;
use crate::live::fault::LiveFault;
use csv_records::{RecordFault, RecordsFault};
use digits_core::{Failed, Refusal, RefusalKind};
use sheet_core::{BadGrid, PbmFault, PrintFault, SheetFault};
use std::alloc::AllocError;
use std::fmt;
use thiserror::Error;

/// Why a command refuses its whole input. The error of the same name in a lower layer says more.
#[derive(Clone, Copy, Debug, PartialEq, Eq, Error)]
pub enum CommandFault {
    /// A read of the input failed.
    ReadFault,
    /// A write of the output failed.
    WriteFault,
    /// The fault of the record at this index, as `RecordsFault::Record`.
    Record(usize, RecordFault),
    /// A growth was refused.
    NoMemory,
    /// The input is longer than `INPUT_LIMIT` of csv_records.
    InputSize,
    /// The numbers of the grid do not fit together.
    BadGrid,
    /// The label at this index, from 0, is the first that cannot be printed: `SheetFault::LabelKind`.
    LabelKind(usize),
    /// The label at this index, from 0, is the first that cannot be printed: `SheetFault::LabelWidth`.
    LabelWidth(usize),
    /// `PbmFault::NotP4`.
    NotP4,
    /// `PbmFault::PbmHeader`.
    PbmHeader,
    /// `PbmFault::Truncated`.
    Truncated,
    /// `PbmFault::PbmSize`, or the size of an image differs from the grid's.
    PbmSize,
    /// A thread could not be started.
    NoThread,
}

impl CommandFault {
    /// The refusal in the line on standard error. For a record, its index comes first.
    pub fn refusal(self) -> Refusal
        ensures { refusal_text result.kind result.place ≡ command_refusal_text self }
    {
        let (kind, place) = match self {
            CommandFault::ReadFault => (RefusalKind::ReadFault, None),
            CommandFault::WriteFault => (RefusalKind::WriteFault, None),
            CommandFault::Record(_, fault) => return fault.refusal(),
            CommandFault::NoMemory => (RefusalKind::NoMemory, None),
            CommandFault::InputSize => (RefusalKind::InputSize, None),
            CommandFault::BadGrid => (RefusalKind::BadGrid, None),
            CommandFault::LabelKind(index) => (RefusalKind::LabelKind, Some(index)),
            CommandFault::LabelWidth(index) => (RefusalKind::LabelWidth, Some(index)),
            CommandFault::NotP4 => (RefusalKind::NotP4, None),
            CommandFault::PbmHeader => (RefusalKind::PbmHeader, None),
            CommandFault::Truncated => (RefusalKind::Truncated, None),
            CommandFault::PbmSize => (RefusalKind::PbmSize, None),
            CommandFault::NoThread => (RefusalKind::NoThread, None),
        };
        Refusal { kind, place }
    }
}

impl fmt::Display for CommandFault {
    ghost output = { λ fault. Some (command_fault_text fault) };

    fn fmt<W: fmt::Write>(&self, f: &mut fmt::Formatter<W>) -> fmt::Result {
        match self {
            CommandFault::Record(index, fault) => write!(f, "record {index}: {fault}"),
            other => other.refusal().fmt(f),
        }
    }
}

// The errors of the lower layers, as errors of the command. specs/Faults has the same tables; the clauses
// `from_gives` name them.

impl From<AllocError> for CommandFault {
    ghost from_gives = { λ refused command. command ≡ no_memory };

    fn from(_: AllocError) -> CommandFault {
        CommandFault::NoMemory
    }
}

impl From<Failed> for CommandFault {
    ghost from_gives = { λ failed command. command ≡ failed_write };

    fn from(_: Failed) -> CommandFault {
        CommandFault::WriteFault
    }
}

impl From<BadGrid> for CommandFault {
    ghost from_gives = { λ refused command. command ≡ bad_grid };

    fn from(_: BadGrid) -> CommandFault {
        CommandFault::BadGrid
    }
}

impl From<RecordsFault> for CommandFault {
    ghost from_gives = { λ fault command. command ≡ of_records fault };

    fn from(fault: RecordsFault) -> CommandFault {
        match fault {
            RecordsFault::ReadFault => CommandFault::ReadFault,
            RecordsFault::InputSize => CommandFault::InputSize,
            RecordsFault::Record(index, fault) => CommandFault::Record(index, fault),
            RecordsFault::NoMemory => CommandFault::NoMemory,
        }
    }
}

impl From<RowsFault> for CommandFault {
    ghost from_gives = { λ fault command. command ≡ of_rows fault };

    fn from(fault: RowsFault) -> CommandFault {
        match fault {
            RowsFault::Records(fault) => CommandFault::from(fault),
            RowsFault::NoThread => CommandFault::NoThread,
        }
    }
}

impl From<AnswerFault> for CommandFault {
    ghost from_gives = { λ fault command. command ≡ of_answers fault };

    fn from(fault: AnswerFault) -> CommandFault {
        match fault {
            AnswerFault::NoThread => CommandFault::NoThread,
            AnswerFault::NoMemory => CommandFault::NoMemory,
        }
    }
}

impl From<LiveFault> for CommandFault {
    ghost from_gives = { λ fault command. command ≡ of_live fault };

    fn from(fault: LiveFault) -> CommandFault {
        match fault {
            LiveFault::ReadFault => CommandFault::ReadFault,
            LiveFault::WriteFault => CommandFault::WriteFault,
            LiveFault::NoMemory => CommandFault::NoMemory,
            LiveFault::NoThread => CommandFault::NoThread,
        }
    }
}

impl From<SheetFault> for CommandFault {
    ghost from_gives = { λ fault command. command ≡ of_sheets fault };

    fn from(fault: SheetFault) -> CommandFault {
        match fault {
            SheetFault::LabelKind(index) => CommandFault::LabelKind(index),
            SheetFault::LabelWidth(index) => CommandFault::LabelWidth(index),
            SheetFault::NoMemory => CommandFault::NoMemory,
        }
    }
}

impl From<PrintFault> for CommandFault {
    ghost from_gives = { λ fault command. command ≡ of_prints fault };

    fn from(fault: PrintFault) -> CommandFault {
        match fault {
            PrintFault::Sheet(fault) => CommandFault::from(fault),
            PrintFault::WriteFault => CommandFault::WriteFault,
        }
    }
}

impl From<PbmFault> for CommandFault {
    ghost from_gives = { λ fault command. command ≡ of_images fault };

    fn from(fault: PbmFault) -> CommandFault {
        match fault {
            PbmFault::NotP4 => CommandFault::NotP4,
            PbmFault::PbmHeader => CommandFault::PbmHeader,
            PbmFault::Truncated => CommandFault::Truncated,
            PbmFault::PbmSize => CommandFault::PbmSize,
            PbmFault::ReadFault => CommandFault::ReadFault,
            PbmFault::NoMemory => CommandFault::NoMemory,
        }
    }
}
