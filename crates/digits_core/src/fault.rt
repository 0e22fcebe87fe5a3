//! Why a text is no number.
ghost use Rattle.std.specs.Prelude.{Some, ◌≡◌};
ghost use Rattle.digits_core.specs.Faults.{digit_fault_text};
ghost use Rattle.digits_core.specs.Refusals.{refusal_text};

use crate::refusal::{Refusal, RefusalKind};
use std::fmt;

/// Why a text is no number of the required kind.
#[derive(Clone, Copy, Debug, PartialEq, Eq)]
pub enum DigitFault {
    /// Its length is not allowed.
    Length,
    /// The byte at this offset is no ASCII digit. It is the first such byte.
    NotDigit(usize),
    /// Its last digit is not the check digit of those before it.
    CheckDigit,
}

impl DigitFault {
    /// The refusal that an output line reports.
    pub fn refusal(self) -> Refusal
        ensures { refusal_text result.kind result.place ≡ digit_fault_text self }
    {
        let (kind, place) = match self {
            DigitFault::Length => (RefusalKind::Length, None),
            DigitFault::NotDigit(place) => (RefusalKind::NotDigit, Some(place)),
            DigitFault::CheckDigit => (RefusalKind::CheckDigit, None),
        };
        Refusal { kind, place }
    }
}

impl fmt::Display for DigitFault {
    ghost output = { λ fault. Some (digit_fault_text fault) };

    fn fmt<W: fmt::Write>(&self, f: &mut fmt::Formatter<W>) -> fmt::Result {
        self.refusal().fmt(f)
    }
}
