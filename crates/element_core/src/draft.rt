//! Builds a canonical text.

ghost use Rattle.std.specs.Prelude.{◌≡◌, ◌≤◌, ◌++◌, [], length};
ghost use Rattle.element_core.specs.inner.Growing.{separator_if};

use crate::reading::TakesElements;
use crate::text::{SEPARATOR, Text};

/// A canonical text that grows by elements.
#[derive(Drop)]
pub(crate) struct Draft {
    pub(crate) text: Text,
    /// Whether a separator is due before another element.
    separate: bool,
}

impl Draft {
    /// The text of no elements.
    pub(crate) fn new() -> Draft
        ensures text { result.text.items ≡ [] }
        ensures gap { separator_if result.separate ≡ [] }
    {
        Draft {
            text: Text::new(),
            separate: false,
        }
    }
}

impl TakesElements for Draft {
    ghost use Rattle.std.specs.Prelude.{◌≡◌};
    ghost use Rattle.element_core.specs.Elements.{canonical};
    ghost use Rattle.element_core.specs.inner.Growing.{last_gap, separator_if};

    ghost Holds = { λ draft list. (draft.text.items ≡ canonical list) × (last_gap list ≡ separator_if draft.separate) };

    fn take(&mut self, ai: &[u8], value: &[u8], predefined: bool) {
        append(&mut self.text, self.separate, ai, value);
        self.separate = !predefined;
    }
}

/// Puts an element at the end of a canonical text, after a separator if one is due.
pub(crate) fn append(text: &mut Text, separate: bool, ai: &[u8], value: &[u8])
    requires { length (text.old.items ++ separator_if separate ++ (ai.now ++ value.now)) ≤ 192 }
    ensures { text.new.items ≡ text.old.items ++ separator_if separate ++ (ai.now ++ value.now) }
{
    if separate {
        text.push(SEPARATOR);
    }
    let _ = text.try_extend_from_slice(ai);
    let _ = text.try_extend_from_slice(value);
}

/// How many bytes a separator takes, if one is due.
pub(crate) fn gap_length(separate: bool) -> usize
    ensures { result ≡ length (separator_if separate) }
{
    if separate { 1 } else { 0 }
}
