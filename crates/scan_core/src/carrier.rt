//! The carriers that a row can show.
ghost use Rattle.std.specs.Prelude.{Some, ◌≡◌, ◌≢◌, ℕ, IfNone, IfSome};
ghost use Rattle.scan_core.specs.Showing.{HasSize, kind_of};

use ean_code::Kind;

/// A kind of symbol that a row can show.
#[derive(Clone, Copy, Debug, PartialEq, Eq)]
pub enum Carrier {
    /// EAN-13 (ISO/IEC 15420), which includes UPC-A: 59 runs, 95 modules wide.
    Ean13,
    /// EAN-8 (ISO/IEC 15420): 43 runs, 67 modules wide.
    Ean8,
    /// UPC-E (ISO/IEC 15420): 33 runs, 51 modules wide.
    UpcE,
    /// ITF-14 (ISO/IEC 16390): 77 runs, 135 modules wide if a wide element is three modules.
    Itf14,
    /// GS1-128 (ISO/IEC 15417). With k start, data and check characters, k from 3 to 98, it has 6k + 7 runs and is
    /// 11k + 13 modules wide.
    Gs1128,
}

impl Carrier {
    /// The kind of its symbols, if they show only a GTIN.
    pub fn kind(self) -> Option<Kind>
        ensures { result ≡ kind_of self }
    {
        match self {
            Carrier::Ean13 => Some(Kind::Ean13),
            Carrier::Ean8 => Some(Kind::Ean8),
            Carrier::UpcE => Some(Kind::UpcE),
            Carrier::Itf14 => Some(Kind::Itf14),
            Carrier::Gs1128 => None,
        }
    }

    /// The carrier whose symbols are of this kind.
    fn of_kind(kind: Kind) -> Carrier
        ensures { kind_of result ≡ Some kind }
    {
        match kind {
            Kind::Ean13 => Carrier::Ean13,
            Kind::Ean8 => Carrier::Ean8,
            Kind::UpcE => Carrier::UpcE,
            Kind::Itf14 => Carrier::Itf14,
        }
    }
}

/// A carrier whose symbols have as many runs as the row.
#[derive(Clone, Copy)]
pub(crate) struct Candidate {
    pub(crate) carrier: Carrier,
    /// How many modules wide these symbols are.
    pub(crate) count: u16,
}

/// The carrier whose symbols all have this many runs.
pub(crate) fn fixed_candidate(run_count: usize) -> Option<Candidate>
    ensures found { IfSome result (λ c. HasSize (kind_of c.carrier) run_count c.count) }
    ensures fixed { IfSome result (λ c. c.carrier ≢ Carrier.Gs1128) }
    ensures none { IfNone result ((c : Carrier) (N : ℕ) → c ≢ Carrier.Gs1128 → HasSize (kind_of c) run_count N → ⊥) }
{
    let kind = Kind::of_width_count(run_count)?;
    Some(Candidate {
        carrier: Carrier::of_kind(kind),
        count: kind.module_count(),
    })
}

/// GS1-128, if its symbols have this many runs.
pub(crate) fn gs1128_candidate(run_count: usize) -> Option<Candidate>
    ensures found { IfSome result (λ c. HasSize (kind_of c.carrier) run_count c.count) }
    ensures gs1128 { IfSome result (λ c. c.carrier ≡ Carrier.Gs1128) }
    ensures none { IfNone result ((N : ℕ) → HasSize (kind_of Carrier.Gs1128) run_count N → ⊥) }
{
    if run_count < 25 || 595 < run_count || run_count % 6 != 1 {
        return None;
    }
    let characters = (run_count - 7) / 6;
    Some(Candidate {
        carrier: Carrier::Gs1128,
        count: 11 * characters as u16 + 13,
    })
}
