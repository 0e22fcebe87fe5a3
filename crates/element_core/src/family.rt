//! Families of AIs, and the family of the AI at the front of a text.

ghost use Rattle.std.specs.Prelude.{◌≡◌, ◌||◌, option_map, length, IfSome, ◌≤◌, if◌then◌else◌};
ghost use Rattle.element_core.specs.Table.{row_at};
ghost use Rattle.element_core.specs.inner.Families.{is_in_family, row_by, row_with};

use crate::first_digits::families_with;
use crate::part::Part;
use crate::terms::Terms;

/// AIs that differ only in digits. Each digit lies between those of the least and the greatest AI.
#[derive(Clone, Copy)]
pub struct AiFamily {
    /// The least AI, in ASCII digits.
    pub least: &'static [u8],
    /// The greatest AI, as long as the least.
    pub greatest: &'static [u8],
    /// The parts of the value, one to five.
    pub parts: &'static [Part],
    /// Whether the first two digits say how long an element is.
    pub predefined: bool,
    /// Whether the AIs are in the profile.
    pub profile: bool,
}

/// Whether the text begins with an AI of the family.
fn is_in_family(least: &[u8], greatest: &[u8], text: &[u8]) -> bool
    ensures { result ≡ is_in_family least.now greatest.now text.now }
{
    for (i, a) in least.iter().enumerate() {
        if i >= greatest.len() || i >= text.len() || text[i] < *a || greatest[i] < text[i] {
            return false;
        }
    }
    true
}

/// The first of the families that has the AI at the front of the text.
fn first_with(table: &[AiFamily], text: &[u8]) -> Option<AiFamily>
    ensures row { option_map (λ f. row_with f text.now) result ≡ row_by text.now table.now }
    ensures within { IfSome result (λ f. length f.least.now ≤ length text.now) }
{
    for family in table {
        if is_in_family(family.least, family.greatest, text) {
            return Some(*family);
        }
    }
    None
}

/// Whether the AIs of a family are accepted.
pub(crate) fn is_read_by(terms: Terms, family: &AiFamily) -> bool
    ensures { result ≡ (terms.every || family.now.profile) }
{
    terms.every() || family.profile
}

/// The family of the AI at the front of the text.
pub(crate) fn family_at(text: &[u8]) -> Option<AiFamily>
    ensures row { option_map (λ f. row_with f text.now) result ≡ row_at text.now }
    ensures within { IfSome result (λ f. length f.least.now ≤ length text.now) }
    ensures short { IfSome result (λ f. length f.least.now ≤ 4) }
    ensures few { IfSome result (λ f. length f.parts.now ≤ 5) }
    ensures two { IfSome result (λ f. length f.parts.now ≤ (if f.profile then 2 else 5)) }
{
    match text {
        [first, second, ..] => first_with(families_with(*first, *second), text),
        _ => None,
    }
}
