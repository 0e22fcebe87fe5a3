//! Reads element strings from the left (GS1 General Specifications, section 7.8).

ghost use Rattle.std.specs.Prelude.{◌≡◌, ◌<◌, ◌≤◌, [], ◌∷◌, ◌++◌, IfErr, List, OnOk, is_some};
ghost use Rattle.element_core.specs.Elements.{Entry, FirstFault, IsElements};
ghost use Rattle.element_core.specs.Table.{predefined_length};
ghost use Rattle.element_core.specs.inner.Reading.{IsNext};

use crate::fault::ElementFault;
use crate::front::element_at;
use crate::terms::Year;

/// Takes the elements of a text one after another.
pub(crate) trait TakesElements {
    // It has taken these elements.
    ghost Holds: { Self → List Entry → Type 0 };

    /// Takes one more element. Its AI may or may not have values of a predefined length.
    fn take(&mut self, ai: &[u8], value: &[u8], predefined: bool)
        requires next { IsNext Holds self.old (record { ai = ai.now; value = value.now }) }
        requires predefined { predefined ≡ is_some (predefined_length ai.now) }
        ensures { (list : List Entry) → Holds self.old list → Holds self.new (list ++ (record { ai = ai.now; value = value.now } ∷ [])) };
}

/// Hands the elements of a text to the taker, or returns the first error of the text.
pub(crate) fn read_elements<T: TakesElements>(
    text: &[u8],
    year: Year,
    taken: &mut T,
) -> Result<(), ElementFault>
    requires { T.Holds taken.old [] }
    ensures ok { OnOk result ((list : List Entry) × IsElements year text.now list × T.Holds taken.new list) }
    ensures err { IfErr result (λ f. FirstFault year text.now f) }
{
    if text.len() > 192 {
        return Err(ElementFault::TooLong);
    }
    if text.is_empty() {
        return Err(ElementFault::Empty);
    }
    let mut rest = text;
    while !rest.is_empty() {
        let front = element_at(year, text.len() - rest.len(), rest)?;
        taken.take(front.ai, front.value, front.family.predefined);
        rest = front.rest;
    }
    Ok(())
}
