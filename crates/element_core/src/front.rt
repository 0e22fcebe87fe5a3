//! The element at the front of a text.

ghost use Rattle.std.specs.Prelude.{◌≡◌, ◌+◌, ◌≤◌, length, take, drop, [], Some, None, IfOk, IfErr, IfSome, MatchOption, is_some, ◌<◌};
ghost use Rattle.element_core.specs.Elements.{Entry, field_of, value_in};
ghost use Rattle.element_core.specs.inner.Elements.{fault_at};
ghost use Rattle.element_core.specs.Fronts.{Begins, after_separator};
ghost use Rattle.element_core.specs.Shown.{shown_elements};
ghost use Rattle.element_core.specs.Table.{predefined_length, row_at};
ghost use Rattle.element_core.specs.inner.Walks.{IsFrontOfText, elements_from};
ghost use Rattle.element_core.specs.inner.Families.{family_of, row_with};

use crate::family::{AiFamily, family_at, is_read_by};
use crate::fault::ElementFault;
use crate::terms::Year;
use crate::text::SEPARATOR;
use crate::value::{greatest_length, row_fault};

/// An element and what is after it.
#[derive(Clone, Copy)]
pub struct Front<'a> {
    /// The family of its AI.
    pub family: AiFamily,
    pub ai: &'a [u8],
    pub value: &'a [u8],
    /// What stands after it and its separator.
    pub rest: &'a [u8],
}

/// How many bytes stand up to the next separator or to the end.
fn field_length(text: &[u8]) -> usize
    ensures { result ≡ length (field_of text.now) }
{
    for (i, b) in text.iter().enumerate() {
        if *b == SEPARATOR {
            return i;
        }
    }
    text.len()
}

/// The text without a separator at its front, if there is one.
fn skip_separator(text: &[u8]) -> &[u8]
    ensures { result.now ≡ after_separator text.now }
{
    match text {
        [SEPARATOR, rest @ ..] => rest,
        _ => text,
    }
}

/// The length of the value at the front of the text.
fn value_length(family: &AiFamily, text: &[u8]) -> usize
    requires { length family.now.parts.now ≤ 5 }
    ensures { result ≡ length (value_in (row_with family.now []) (field_of text.now)) }
{
    if family.predefined {
        let greatest = greatest_length(family.parts);
        if greatest < text.len() {
            return field_length(&text[..greatest]);
        }
    }
    field_length(text)
}

/// The value at the front of the text, and what is after it.
fn value_of<'a>(family: &AiFamily, text: &'a [u8]) -> (&'a [u8], &'a [u8])
    requires { length family.now.parts.now ≤ 5 }
    ensures value { result.0.now ≡ value_in (row_with family.now []) (field_of text.now) }
    ensures after { result.1.now ≡ drop (length result.0.now) text.now }
{
    text.split_at(value_length(family, text))
}

/// The AI, the value and the rest of a text that begins with an AI of the table. The value need not be valid for the
/// AI.
pub(crate) fn front_of(text: &[u8]) -> Option<Front<'_>>
    ensures front { MatchOption result (row_at text.now ≡ None) (λ f. IsFrontOfText text.now f) }
    ensures elements { shown_elements text.now ≡ elements_from result }
    ensures few { IfSome result (λ f. length f.family.parts.now ≤ 5) }
    ensures within { IfSome result (λ f. length f.ai.now + length f.value.now + length f.rest.now ≤ length text.now) }
    ensures some { IfSome result (λ f. 0 < length f.ai.now) }
{
    let family = family_at(text)?;
    let (ai, tail) = text.split_at(family.least.len());
    let (value, after) = value_of(&family, tail);
    let rest = skip_separator(after);
    Some(Front {
        family,
        ai,
        value,
        rest,
    })
}

/// The element at the front of a text, or the error there.
pub(crate) fn element_at<'a>(
    year: Year,
    place: usize,
    text: &'a [u8],
) -> Result<Front<'a>, ElementFault>
    ensures found { IfOk result
        (λ f. Begins year (record { ai = f.ai.now; value = f.value.now }) text.now f.rest.now) }
    ensures fault { IfErr result (λ e. fault_at year place text.now ≡ Some e) }
    ensures predefined { IfOk result (λ f. f.family.predefined ≡ is_some (predefined_length f.ai.now)) }
    ensures shorter { IfOk result (λ f. length f.rest.now < length text.now) }
{
    let Some(front) = front_of(text) else {
        return Err(ElementFault::UnknownAi(place));
    };
    if !is_read_by(year, &front.family) {
        return Err(ElementFault::UnknownAi(place));
    }
    let too_long = ElementFault::MissingSeparator(place);
    match row_fault(
        year.reference(),
        place,
        too_long,
        front.family.parts,
        front.value,
    ) {
        Some(fault) => Err(fault),
        None => Ok(front),
    }
}
