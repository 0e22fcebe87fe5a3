//! The characters that check the others of a text.

ghost use Rattle.std.specs.Prelude.{◌≡◌, ◌≤◌, ◌<◌, ◌%◌, length};
ghost use Rattle.digits_core.specs.Digits.{digits_of, weighted};
ghost use Rattle.element_core.specs.Checks.{account_number, begins_as_iban, character_value, check_letter, ends_in_check_letters, is_checked_by, is_iban, prime_weight, prime_weighted, written};

use crate::part::Check;

/// The sum of the digits that the bytes show, each times its weight: 1 for the last, then 3 and 1
/// in turn (GS1 General Specifications, section 7.9.1).
fn weighted_sum(bytes: &[u8]) -> u32
    requires { length bytes.now ≤ 255 }
    ensures { result ≡ weighted (digits_of bytes.now) }
{
    let mut sum = 0;
    for (i, byte) in bytes.iter().enumerate() {
        let digit = u32::from(byte.saturating_sub(b'0'));
        sum += if (bytes.len() - i - 1) % 2 == 0 {
            digit
        } else {
            3 * digit
        };
    }
    sum
}

/// The place of a character among the 82.
fn character_value(byte: u8) -> u32
    ensures value { result ≡ character_value byte }
    ensures small { result ≤ 255 }
{
    u32::from(match byte {
        0..=34 => byte.saturating_sub(33),
        35..=63 => byte.saturating_sub(35),
        64..=90 => byte - 36,
        95 => 55,
        _ => byte - 41,
    })
}

/// The weights of characters, from the last.
static PRIMES: [u8; 23] = [
    2, 3, 5, 7, 11, 13, 17, 19, 23, 29, 31, 37, 41, 43, 47, 53, 59, 61, 67, 71, 73, 79, 83,
];

/// The weight of a character with this many after it.
fn prime_weight(after: usize) -> u32
    ensures value { result ≡ prime_weight after }
    ensures small { result ≤ 83 }
{
    if after < 23 {
        u32::from(PRIMES[after])
    } else {
        0
    }
}

/// The characters, each times its weight.
fn prime_weighted_sum(text: &[u8]) -> u32
    requires { length text.now ≤ 255 }
    ensures { result ≡ prime_weighted text.now }
{
    let mut sum = 0;
    for (i, byte) in text.iter().enumerate() {
        sum += prime_weight(text.len() - i - 1) * character_value(*byte);
    }
    sum
}

/// The characters that check others.
static LETTERS: [u8; 32] = *b"23456789ABCDEFGHJKLMNPQRSTUVWXYZ";

/// One of them.
fn check_letter(value: u32) -> u8
    requires { value < 32 }
    ensures { result ≡ check_letter value }
{
    LETTERS[value as usize]
}

/// Whether the last two characters check those before them.
fn ends_in_check_letters(text: &[u8]) -> bool
    requires { length text.now ≤ 255 }
    ensures { result ≡ ends_in_check_letters text.now }
{
    if text.len() < 2 {
        return false;
    }
    let (others, last) = text.split_at(text.len() - 2);
    let value = prime_weighted_sum(others) % 1021;
    last == [check_letter(value / 32), check_letter(value % 32)].as_slice()
}

/// A number with a digit or a letter written behind it.
fn written(number: u32, byte: u8) -> u32
    requires { number < 97 }
    ensures value { result ≡ written number byte }
    ensures small { result < 10000 }
{
    if byte <= b'9' {
        10 * number + u32::from(byte.saturating_sub(b'0'))
    } else {
        100 * number + u32::from(byte.saturating_sub(55))
    }
}

/// The remainder, modulo 97, of a number with digits and letters written behind it.
fn account_remainder(before: u32, text: &[u8]) -> u32
    requires { before < 97 }
    ensures value { result ≡ account_number before text.now % 97 }
    ensures small { result < 97 }
{
    let mut number = before;
    for byte in text {
        number = written(number, *byte) % 97;
    }
    number
}

/// Whether a text begins with a country and two digits, and does not end there.
fn begins_as_iban(text: &[u8]) -> bool
    ensures { result ≡ begins_as_iban text.now }
{
    match text {
        [a, b, c, d, _, ..] => {
            matches!(*a, b'A'..=b'Z')
                && matches!(*b, b'A'..=b'Z')
                && c.is_ascii_digit()
                && d.is_ascii_digit()
        }
        _ => false,
    }
}

/// Whether the number of an account leaves 1.
fn is_iban(text: &[u8]) -> bool
    ensures { result ≡ is_iban text.now }
{
    if !begins_as_iban(text) {
        return false;
    }
    let (first, account) = text.split_at(4);
    account_remainder(account_remainder(0, account), first) == 1
}

/// Whether the characters that check others are right.
pub(crate) fn is_checked_by(check: Check, text: &[u8]) -> bool
    requires { length text.now ≤ 255 }
    ensures { result ≡ is_checked_by check text.now }
{
    match check {
        Check::Unchecked => true,
        Check::Digit => weighted_sum(text) % 10 == 0,
        Check::Characters => ends_in_check_letters(text),
        Check::Iban => is_iban(text),
    }
}
