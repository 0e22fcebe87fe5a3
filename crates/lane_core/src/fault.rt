//! The faults of `Deliverer::take_in`.
ghost use Rattle.std.specs.Prelude.{Some, ◌≡◌};
ghost use Rattle.digits_core.specs.Refusals.{refusal_text};
ghost use Rattle.lane_core.specs.Faults.{take_fault_text};

use crate::delivery::Delivery;
use digits_core::{Refusal, RefusalKind};
use std::fmt;

/// Why a delivery is not taken in. The error returns the delivery.
#[derive(Debug, Drop)]
pub enum TakeFault {
    /// Its lane does not exist, or its number came before.
    Stranger(Delivery),
    /// Memory to keep it was refused.
    NoMemory(Delivery),
}

impl TakeFault {
    /// The fault as a refusal, which has no place.
    pub fn refusal(&self) -> Refusal
        ensures { refusal_text result.kind result.place ≡ take_fault_text self.now }
    {
        let kind = match self {
            TakeFault::Stranger(_) => RefusalKind::Stranger,
            TakeFault::NoMemory(_) => RefusalKind::NoMemory,
        };
        Refusal { kind, place: None }
    }
}

impl fmt::Display for TakeFault {
    ghost output = { λ fault. Some (take_fault_text fault) };

    fn fmt<W: fmt::Write>(&self, f: &mut fmt::Formatter<W>) -> fmt::Result {
        self.refusal().fmt(f)
    }
}
