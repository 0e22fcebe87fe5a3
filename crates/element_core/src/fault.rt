//! Why a text or a list of pairs is no list of elements.

ghost use Rattle.std.specs.Prelude.{Some, ◌≡◌};
ghost use Rattle.digits_core.specs.Refusals.{refusal_text};
ghost use Rattle.element_core.specs.Faults.{element_fault_text};

use digits_core::{Refusal, RefusalKind};
use std::fmt;

/// The first error of a text, with the offset of the element's AI in bytes; or of a list of pairs, with the index of
/// the pair.
#[derive(Clone, Copy, Debug, PartialEq, Eq)]
pub enum ElementFault {
    /// There is no element.
    Empty,
    /// There is no AI of the table here.
    UnknownAi(usize),
    /// The value is too short, or its length is between the least and the greatest but not allowed; in a pair, any
    /// wrong length.
    ValueLength(usize),
    /// The value has a byte that its part does not allow, or breaks another rule of its part.
    ValueCharacter(usize),
    /// The value's check digit or check characters are wrong.
    ValueCheckDigit(usize),
    /// The value names a day or a time that does not exist.
    ValueDate(usize),
    /// The value is longer than its greatest length.
    MissingSeparator(usize),
    /// There are more than 192 bytes.
    TooLong,
}

impl ElementFault {
    /// The refusal that an output line reports.
    pub fn refusal(self) -> Refusal
        ensures { refusal_text result.kind result.place ≡ element_fault_text self }
    {
        let (kind, place) = match self {
            ElementFault::Empty => (RefusalKind::Empty, None),
            ElementFault::UnknownAi(place) => (RefusalKind::UnknownAi, Some(place)),
            ElementFault::ValueLength(place) => (RefusalKind::ValueLength, Some(place)),
            ElementFault::ValueCharacter(place) => (RefusalKind::ValueCharacter, Some(place)),
            ElementFault::ValueCheckDigit(place) => (RefusalKind::ValueCheckDigit, Some(place)),
            ElementFault::ValueDate(place) => (RefusalKind::ValueDate, Some(place)),
            ElementFault::MissingSeparator(place) => (RefusalKind::MissingSeparator, Some(place)),
            ElementFault::TooLong => (RefusalKind::TooLong, None),
        };
        Refusal { kind, place }
    }
}

impl fmt::Display for ElementFault {
    ghost output = { λ fault. Some (element_fault_text fault) };

    fn fmt<W: fmt::Write>(&self, f: &mut fmt::Formatter<W>) -> fmt::Result {
        self.refusal().fmt(f)
    }
}
