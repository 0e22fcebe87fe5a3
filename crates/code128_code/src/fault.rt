//! Why values have no element string, and why elements cannot be encoded.
ghost use Rattle.std.specs.Prelude.{Some, ◌≡◌};
ghost use Rattle.digits_core.specs.Refusals.{refusal_text, refusal_words};
ghost use Rattle.digits_core.specs.declared.refusal.RefusalKind.TheVariants as refusal;
ghost use Rattle.code128_code.specs.Faults.{code128_fault_text};

use digits_core::{Refusal, RefusalKind};
use std::fmt;

/// Why the values of a Code 128 symbol have no text: the first of these tests that they fail. If several values have
/// no meaning, the error is that of the first.
#[derive(Clone, Copy, Debug, PartialEq, Eq)]
pub enum Code128Fault {
    /// The check character is wrong.
    CheckCharacter,
    /// The first value is not FNC1, so the symbol is no GS1-128.
    NotGs1,
    /// A value is FNC2, FNC3 or FNC4.
    FunctionCharacter,
    /// A SHIFT has no value 0 to 95 after it.
    CodeSet,
}

impl Code128Fault {
    /// The refusal that an output line reports.
    pub fn refusal(self) -> Refusal
        ensures { refusal_text result.kind result.place ≡ code128_fault_text self }
    {
        let kind = match self {
            Code128Fault::CheckCharacter => RefusalKind::CheckCharacter,
            Code128Fault::NotGs1 => RefusalKind::NotGs1,
            Code128Fault::FunctionCharacter => RefusalKind::FunctionCharacter,
            Code128Fault::CodeSet => RefusalKind::CodeSet,
        };
        Refusal { kind, place: None }
    }
}

impl fmt::Display for Code128Fault {
    ghost output = { λ fault. Some (code128_fault_text fault) };

    fn fmt<W: fmt::Write>(&self, f: &mut fmt::Formatter<W>) -> fmt::Result {
        self.refusal().fmt(f)
    }
}

/// The canonical text of elements has more than 48 bytes, the limit of one symbol (GS1 General Specifications,
/// section 5.4).
#[derive(Clone, Copy, Debug, PartialEq, Eq)]
pub struct TooManyCharacters;

impl TooManyCharacters {
    /// The refusal that an output line reports.
    pub fn refusal(self) -> Refusal
        ensures { refusal_text result.kind result.place ≡ refusal_words refusal.TooManyCharacters }
    {
        Refusal {
            kind: RefusalKind::TooManyCharacters,
            place: None,
        }
    }
}

impl fmt::Display for TooManyCharacters {
    ghost output = { λ _. Some (refusal_words refusal.TooManyCharacters) };

    fn fmt<W: fmt::Write>(&self, f: &mut fmt::Formatter<W>) -> fmt::Result {
        self.refusal().fmt(f)
    }
}
