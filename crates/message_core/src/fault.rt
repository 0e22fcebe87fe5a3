//! Why a message has no elements.
ghost use Rattle.std.specs.Prelude.{◌≡◌};
ghost use Rattle.digits_core.specs.Refusals.{refusal_text};
ghost use Rattle.message_core.specs.Faults.{message_fault_text};

use digits_core::{DigitFault, Refusal, RefusalKind};
use element_core::ElementFault;

/// Why a message has no elements.
#[derive(Clone, Copy, Debug, PartialEq, Eq)]
pub enum MessageFault {
    /// Its digits are no GTIN.
    Digits(DigitFault),
    /// Its elements have this error.
    Elements(ElementFault),
    /// It does not begin like any message that is read, or is no Digital Link although its beginning requires one.
    Kind,
}

impl MessageFault {
    /// The refusal that an output line reports.
    pub fn refusal(self) -> Refusal
        ensures { refusal_text result.kind result.place ≡ message_fault_text self }
    {
        match self {
            MessageFault::Digits(fault) => fault.refusal(),
            MessageFault::Elements(fault) => fault.refusal(),
            MessageFault::Kind => Refusal {
                kind: RefusalKind::Kind,
                place: None,
            },
        }
    }
}
