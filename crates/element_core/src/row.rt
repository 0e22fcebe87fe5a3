//! Rows of the table of AIs.

ghost use Rattle.std.specs.Prelude.{◌≡◌, option_map};
ghost use Rattle.element_core.specs.Terms.{profile_row_at};
ghost use Rattle.element_core.specs.Rows.{table_row};

use crate::family::family_at;
use crate::part::Part;
use crate::text::{Text, copied};
use arrayvec::ArrayVec;

/// An Application Identifier with its allowed values (GS1 General Specifications, section 3.2).
#[derive(Drop)]
pub struct AiRow {
    /// The AI: two to four ASCII digits.
    pub ai: Text,
    /// The parts of its value, one or two.
    pub parts: ArrayVec<Part, 2>,
    /// Whether its first two digits determine the length of the element, so that no separator need follow.
    pub predefined: bool,
}

/// The row of the AI at the front of the bytes. None if there is no AI of the table.
pub fn ai_row(bytes: &[u8]) -> Option<AiRow>
    ensures { option_map table_row result ≡ profile_row_at bytes.now }
{
    let family = family_at(bytes)?;
    if !family.profile {
        return None;
    }
    let mut parts = ArrayVec::new();
    let _ = parts.try_extend_from_slice(family.parts);
    Some(AiRow {
        ai: copied(&bytes[..family.least.len()]),
        parts,
        predefined: family.predefined,
    })
}
