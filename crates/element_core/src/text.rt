//! Texts of element strings.

ghost use Rattle.std.specs.Prelude.{◌≡◌, ◌≤◌, length};

use arrayvec::ArrayVec;

/// An element string, or a part of one: at most 192 bytes.
pub type Text = ArrayVec<u8, 192>;

/// The byte of a text that means FNC1 as a separator, ASCII GS (GS1 General Specifications, section 7.8).
pub const SEPARATOR: u8 = 29;

/// A text of these bytes.
pub(crate) fn copied(bytes: &[u8]) -> Text
    requires { length bytes.now ≤ 192 }
    ensures { result.items ≡ bytes.now }
{
    let mut text = Text::new();
    let _ = text.try_extend_from_slice(bytes);
    text
}
