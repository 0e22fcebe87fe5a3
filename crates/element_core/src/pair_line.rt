//! Elements as pairs: of each its AI, `=` and its value, with a tab between each two.

ghost use Rattle.std.specs.Prelude.{◌≡◌, ◌+◌, ◌<◌, ◌≤◌, ◌∷◌, ◌++◌, length, All};
ghost use Rattle.arrayvec.specs.ArrayString.{array_string_len};
ghost use Rattle.element_core.specs.Elements.{pairs_text};
ghost use Rattle.element_core.specs.Shown.{shown_elements};
ghost use Rattle.element_core.specs.inner.Walks.{AreAscii};

use crate::front::front_of;
use crate::hri::push_bytes;
use arrayvec::ArrayString;

/// Puts a pair at the end: the AI, `=`, then the value.
pub(crate) fn push_pair(line: &mut ArrayString<288>, ai: &[u8], value: &[u8])
    requires ai { All (λ b. b < 128) ai.now }
    requires value { All (λ b. b < 128) value.now }
    requires room { array_string_len line.old + length ai.now + length value.now + 1 ≤ 288 }
    ensures { line.new.bytes ≡ line.old.bytes ++ (ai.now ++ (61 ∷ value.now)) }
{
    push_bytes(line, ai);
    line.push('=');
    push_bytes(line, value);
}

/// The pairs of the elements that stand in a text.
pub(crate) fn pairs_of(text: &[u8]) -> ArrayString<288>
    requires ascii { AreAscii (shown_elements text.now) }
    requires room { length (pairs_text (shown_elements text.now)) ≤ 288 }
    ensures { result.bytes ≡ pairs_text (shown_elements text.now) }
{
    let mut line = ArrayString::new();
    let Some(first) = front_of(text) else {
        return line;
    };
    push_pair(&mut line, first.ai, first.value);
    let mut rest = first.rest;
    while let Some(front) = front_of(rest) {
        line.push('\t');
        push_pair(&mut line, front.ai, front.value);
        rest = front.rest;
    }
    line
}
