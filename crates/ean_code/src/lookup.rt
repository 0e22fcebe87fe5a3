//! The character of a number set by its widths. tables/lookups makes the table.
ghost use Rattle.std.specs.Prelude.{◌≡◌, ◌≢◌, ◌<◌, ℕ, Bool, IfNone, IfSome};
ghost use Rattle.ean_code.specs.NumberSets.{character_of, left_widths};
ghost use Rattle.ean_code.specs.Widths.{packed_widths};

/// The entry of widths that no character has.
const NONE: u8 = 255;

/// At the packed widths of each character its digit, and ten more in number set B.
#[rattlefmt::skip]
static CHARACTERS: [u8; 256] = [
    255, 255, 255, 6, 255, 255, 10, 255, 255, 4, 255, 255, 13, 255, 255, 255,
    255, 255, 8, 255, 255, 11, 255, 255, 5, 255, 255, 255, 255, 255, 255, 255,
    255, 7, 255, 255, 15, 255, 255, 255, 255, 255, 255, 255, 255, 255, 255, 255,
    3, 255, 255, 255, 255, 255, 255, 255, 255, 255, 255, 255, 255, 255, 255, 255,
    255, 255, 19, 255, 255, 2, 255, 255, 17, 255, 255, 255, 255, 255, 255, 255,
    255, 12, 255, 255, 1, 255, 255, 255, 255, 255, 255, 255, 255, 255, 255, 255,
    14, 255, 255, 255, 255, 255, 255, 255, 255, 255, 255, 255, 255, 255, 255, 255,
    255, 255, 255, 255, 255, 255, 255, 255, 255, 255, 255, 255, 255, 255, 255, 255,
    255, 9, 255, 255, 18, 255, 255, 255, 255, 255, 255, 255, 255, 255, 255, 255,
    0, 255, 255, 255, 255, 255, 255, 255, 255, 255, 255, 255, 255, 255, 255, 255,
    255, 255, 255, 255, 255, 255, 255, 255, 255, 255, 255, 255, 255, 255, 255, 255,
    255, 255, 255, 255, 255, 255, 255, 255, 255, 255, 255, 255, 255, 255, 255, 255,
    16, 255, 255, 255, 255, 255, 255, 255, 255, 255, 255, 255, 255, 255, 255, 255,
    255, 255, 255, 255, 255, 255, 255, 255, 255, 255, 255, 255, 255, 255, 255, 255,
    255, 255, 255, 255, 255, 255, 255, 255, 255, 255, 255, 255, 255, 255, 255, 255,
    255, 255, 255, 255, 255, 255, 255, 255, 255, 255, 255, 255, 255, 255, 255, 255,
];

/// The character of number set A or B with these four widths (ISO/IEC 15420, symbol character encodation): whether it
/// is of number set B, and its digit 0 to 9. None if no character has them. The widths are packed: each width in
/// modules less one in two bits, the first space's highest.
pub fn character(packed: u8) -> Option<(bool, u8)>
    ensures found { IfSome result (λ c. (c.1 < 10) × (packed_widths (left_widths (character_of c)) ≡ packed)) }
    ensures none { IfNone result ((c : Bool × ℕ) → c.1 < 10 → packed_widths (left_widths (character_of c)) ≢ packed) }
{
    let entry = CHARACTERS[packed as usize];
    if entry == NONE {
        return None;
    }
    Some((entry >= 10, entry % 10))
}
