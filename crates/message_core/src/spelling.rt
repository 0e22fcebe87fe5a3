//! Element strings as people and scanners write them.
ghost use Rattle.std.specs.Prelude.{◌≡◌, ◌≤◌, length, IfErr, IfOk};
ghost use Rattle.element_core.specs.Elements.{FirstFault, IsElements};
ghost use Rattle.message_core.specs.Spellings.{spelled, without_separator};

use crate::head::begins_separated;
use element_core::{ElementFault, Elements, Text, Year};

/// A text without the separator at its front, if there is one.
fn without_separator(text: &[u8]) -> &[u8]
    ensures { result.now ≡ without_separator text.now }
{
    if begins_separated(text) {
        &text[1..]
    } else {
        text
    }
}

/// A text with the separators in it.
fn spelled(text: &[u8]) -> Text
    requires { length text.now ≤ 192 }
    ensures { result.items ≡ spelled text.now }
{
    let mut whole = Text::new();
    for byte in text {
        whole.push(if *byte == b'^' { 29 } else { *byte });
    }
    whole
}

/// The elements of a text whose separator is byte 29 or `^`. More than 192 bytes are `TooLong`.
pub fn read_spelled(text: &[u8], year: Year) -> Result<Elements, ElementFault>
    ensures ok { IfOk result (λ es. (es.year ≡ year) × IsElements year (spelled text.now) es.list) }
    ensures err { IfErr result (FirstFault year (spelled text.now)) }
{
    if text.len() > 192 {
        return Err(ElementFault::TooLong);
    }
    Elements::parse(spelled(text).as_slice(), year)
}

/// The elements of a message, without the separator that may be at its front.
pub(crate) fn read_elements(text: &[u8], year: Year) -> Result<Elements, ElementFault>
    ensures ok { IfOk result (λ es. (es.year ≡ year) × IsElements year (spelled (without_separator text.now)) es.list) }
    ensures err { IfErr result (FirstFault year (spelled (without_separator text.now))) }
{
    read_spelled(without_separator(text), year)
}
