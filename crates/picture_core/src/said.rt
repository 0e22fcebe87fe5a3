//! What symbols say.
ghost use Rattle.std.specs.Prelude.{◌≡◌, IfSome, IsTrue};
ghost use Rattle.scan_core.specs.Answers.{IsAnswer};
ghost use Rattle.scan_core.specs.declared.answer.Answer.TheVariants.{Read};
ghost use Rattle.picture_core.specs.Saids.{IsRefusal, IsSaid};

use element_core::{Elements, Year, one_list_or_fault};
use scan_core::{Answer, Carrier, RowFault, read_widths};

/// What a symbol says: the answer to widths of a row.
#[derive(Drop)]
pub struct Said {
    pub carrier: Carrier,
    pub elements: Elements,
    pub ghost of_widths: { IsSaid carrier elements },
}

/// Why widths are no symbol, under a reference year.
#[derive(Clone, Copy)]
pub struct Refused {
    pub fault: RowFault,
    pub year: Year,
    pub ghost of_widths: { IsRefusal year fault },
}

/// How many tests of a row come before the one that it failed.
fn tests_before(fault: RowFault) -> u8 {
    match fault {
        RowFault::Blank => 0,
        RowFault::RunCount => 1,
        RowFault::QuietZone => 2,
        RowFault::Modules => 3,
        RowFault::Pattern => 4,
        RowFault::SymbolCheckDigit => 5,
        RowFault::Code128(_) => 6,
        RowFault::Elements(_) => 7,
    }
}

/// The refusal that came furthest.
#[derive(Clone, Copy)]
pub(crate) struct Furthest {
    pub(crate) refused: Option<Refused>,
}

impl Furthest {
    pub(crate) fn none() -> Furthest {
        Furthest { refused: None }
    }

    /// The refusal, if it is of this year.
    pub(crate) fn refused_in(&self, year: Year) -> Option<Refused>
        ensures { IfSome result (λ refused. IsRefusal year refused.fault) }
    {
        let Some(refused) = self.refused else {
            return None;
        };
        if refused.year == year {
            Some(refused)
        } else {
            None
        }
    }

    /// Notes a refusal.
    fn add(&mut self, refused: Refused) {
        let is_further = match self.refused {
            Some(other) => tests_before(refused.fault) > tests_before(other.fault),
            None => true,
        };
        if is_further {
            self.refused = Some(refused);
        }
    }
}

/// Whether both are the same elements under the same year.
fn are_same(one: &Elements, other: &Elements) -> bool
    ensures { IsTrue result → one.now ≡ other.now }
{
    one_list_or_fault();
    if one.year() != other.year() {
        return false;
    }
    one.text().as_slice() == other.text().as_slice()
}

impl Said {
    /// What widths say, if they are read. If they are refused, that is noted.
    pub(crate) fn of_widths(widths: &[u16], year: Year, furthest: &mut Furthest) -> Option<Said>
        ensures { IfSome result (λ said. IsAnswer widths.now year (Read said.carrier said.elements)) }
    {
        match read_widths(widths, year) {
            Ok(Answer::Read { carrier, elements }) => Some(Said { carrier, elements }),
            Ok(Answer::Refused(fault)) => {
                furthest.add(Refused { fault, year });
                None
            }
            Err(_) => None,
        }
    }

    /// Whether both say the same.
    pub(crate) fn says_as(&self, other: &Said) -> bool
        ensures carrier { IsTrue result → self.now.carrier ≡ other.now.carrier }
        ensures elements { IsTrue result → self.now.elements ≡ other.now.elements }
    {
        self.carrier == other.carrier && are_same(&self.elements, &other.elements)
    }

    /// Whether widths say this.
    pub(crate) fn is_said_by(&self, widths: &[u16], year: Year) -> bool
        ensures { IsTrue result → IsAnswer widths.now year (Read self.now.carrier self.now.elements) }
    {
        let mut furthest = Furthest::none();
        match Said::of_widths(widths, year, &mut furthest) {
            Some(again) => again.says_as(self),
            None => false,
        }
    }
}

/// Notes why a whole row is refused, if it has as many runs as a symbol.
pub(crate) fn note_row(widths: &[u16], year: Year, furthest: &mut Furthest) {
    let mut whole = Furthest::none();
    let _ = Said::of_widths(widths, year, &mut whole);
    if let Some(refused) = whole.refused {
        if tests_before(refused.fault) > tests_before(RowFault::RunCount) {
            furthest.add(refused);
        }
    }
}

/// Whether both say the same, or both nothing.
pub(crate) fn says_as(one: &Option<Said>, other: &Option<Said>) -> bool {
    match (one, other) {
        (Some(one), Some(other)) => one.says_as(other),
        (None, None) => true,
        _ => false,
    }
}
