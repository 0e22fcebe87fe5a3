//! Where the number in a value is.
ghost use Rattle.std.specs.Prelude.{◌≡◌, ◌≤◌, IfSome, option_map};
ghost use Rattle.answer_core.specs.Numbers.{number_at};
ghost use Rattle.answer_core.specs.inner.Numbers.{first_and_decimals};

/// Where a number is in a value.
#[derive(Clone, Copy)]
pub(crate) struct NumberPlace {
    /// How many digits of a currency come before it: none or three.
    pub first: u8,
    /// How many of its digits are decimals.
    pub decimals: u8,
}

/// The place of the number in the values of an AI, if they have one. Counts, measures, amounts, percentages and the
/// price of a unit do (GS1 General Specifications, sections 3.6, 3.7 and 3.9).
pub(crate) fn number_at(ai: &[u8]) -> Option<NumberPlace>
    ensures value { option_map first_and_decimals result ≡ number_at ai.now }
    ensures short { IfSome result (λ p. p.first ≤ 3) }
{
    match ai {
        [b'3', b'0' | b'7'] => Some(NumberPlace {
            first: 0,
            decimals: 0,
        }),
        [b'3', b'1'..=b'6', _, decimals @ b'0'..=b'9']
        | [
            b'3',
            b'9',
            b'0' | b'2' | b'4' | b'5',
            decimals @ b'0'..=b'9',
        ] => Some(NumberPlace {
            first: 0,
            decimals: decimals - b'0',
        }),
        [b'3', b'9', b'1' | b'3', decimals @ b'0'..=b'9'] => Some(NumberPlace {
            first: 3,
            decimals: decimals - b'0',
        }),
        // The standard does not say how many decimals the price of a unit has.
        b"8005" => Some(NumberPlace {
            first: 0,
            decimals: 0,
        }),
        _ => None,
    }
}
