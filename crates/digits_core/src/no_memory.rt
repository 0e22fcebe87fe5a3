//! The error for refused memory.
ghost use Rattle.std.specs.Prelude.{Some, ◌≡◌};
ghost use Rattle.digits_core.specs.Refusals.{refusal_text, refusal_words};
ghost use Rattle.digits_core.specs.declared.refusal.RefusalKind.TheVariants as refusal;

use crate::refusal::{Refusal, RefusalKind};
use std::alloc::AllocError;
use std::fmt;

/// Memory was refused.
#[derive(Clone, Copy, Debug, PartialEq, Eq)]
pub struct NoMemory;

impl From<AllocError> for NoMemory {
    fn from(_: AllocError) -> NoMemory {
        NoMemory
    }
}

impl NoMemory {
    /// The refusal that an output line reports.
    pub fn refusal(self) -> Refusal
        ensures { refusal_text result.kind result.place ≡ refusal_words refusal.NoMemory }
    {
        Refusal {
            kind: RefusalKind::NoMemory,
            place: None,
        }
    }
}

impl fmt::Display for NoMemory {
    ghost output = { λ _. Some (refusal_words refusal.NoMemory) };

    fn fmt<W: fmt::Write>(&self, f: &mut fmt::Formatter<W>) -> fmt::Result {
        self.refusal().fmt(f)
    }
}
