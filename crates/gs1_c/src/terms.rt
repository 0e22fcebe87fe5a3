//! The terms by which element strings are read, as one number.
ghost use Rattle.std.specs.Prelude.{◌≡◌};
ghost use Rattle.gs1_c.specs.Lines.{terms_of};

use element_core::Year;

/// This bit, beside a reference year, asks for every AI instead of those of the profile.
const EVERY_AI: u16 = 0x8000;

/// The terms that a number means: its highest bit asks for every AI, and the others are the reference year, 1951 to
/// 2149.
pub fn terms_of(number: u16) -> Option<Year>
    ensures { result ≡ terms_of number }
{
    if number < EVERY_AI {
        Year::new(number)
    } else {
        Some(Year::new(number - EVERY_AI)?.with_every_ai())
    }
}
