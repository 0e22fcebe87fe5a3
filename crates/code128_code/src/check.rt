//! The symbol check character.
ghost use Rattle.std.specs.Prelude.{◌≡◌, ◌≤◌, length};
ghost use Rattle.code128_code.specs.Symbols.{mod103};

/// The value 0 to 102 of the check character of a start character and data values, at most 96 of
/// them (ISO/IEC 15417, symbol check character).
pub fn check_character(start: u8, values: &[u8]) -> u8
    requires { length values.now ≤ 96 }
    ensures value { result ≡ mod103 start values.now }
    ensures valid { result ≤ 102 }
{
    let mut sum = u32::from(start);
    let mut place = 1;
    for value in values {
        sum += place * u32::from(*value);
        place += 1;
    }
    (sum % 103) as u8
}
