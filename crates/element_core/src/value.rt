//! Tests the value of an element.

ghost use Rattle.std.specs.Prelude.{◌≡◌, ◌≤◌, [], length, take, drop};
ghost use Rattle.std.specs.List.{list_all};
ghost use Rattle.element_core.specs.Elements.{belongs, each_part, has_characters, has_whole_steps, is_capital_or_digit, is_character, is_of_64, row_fault};
ghost use Rattle.element_core.specs.Table.{least_of, greatest_of};
ghost use Rattle.element_core.specs.inner.PartTests.{has_date, part_fault, passes, value_fault};

use crate::checks::is_checked_by;
use crate::date::are_digits;
use crate::fault::ElementFault;
use crate::named::is_named;
use crate::part::{Part, PartFormat};
use crate::rules::follows;
use crate::year::ReferenceYear;

/// Whether a byte is a digit or a capital letter.
fn is_capital_or_digit(b: u8) -> bool
    ensures { result ≡ is_capital_or_digit b }
{
    matches!(b, b'0'..=b'9' | b'A'..=b'Z')
}

/// Whether a byte is one of the 64 characters.
fn is_of_64(b: u8) -> bool
    ensures { result ≡ is_of_64 b }
{
    matches!(b, b'-' | b'0'..=b'9' | b'A'..=b'Z' | b'_' | b'a'..=b'z')
}

/// Whether a byte is one of the 82 characters.
fn is_character(b: u8) -> bool
    ensures { result ≡ is_character b }
{
    matches!(b, b'!'..=b'"' | b'%'..=b'?' | b'A'..=b'Z' | b'_' | b'a'..=b'z')
}

/// Whether a part of this format may have the byte.
fn belongs(format: PartFormat, b: u8) -> bool
    ensures { result ≡ belongs format b }
{
    match format {
        PartFormat::Numeric => matches!(b, b'0'..=b'9'),
        PartFormat::Alphanumeric => is_character(b),
        PartFormat::Component => b == b'#' || b == b'-' || b == b'/' || is_capital_or_digit(b),
        PartFormat::Base64Url => b == b'=' || is_of_64(b),
        PartFormat::Capitals => is_capital_or_digit(b),
        PartFormat::YesNo => matches!(b, b'0'..=b'1'),
        PartFormat::Winding => matches!(b, b'0'..=b'1' | b'9'),
        PartFormat::Sex => matches!(b, b'0'..=b'2' | b'9'),
        PartFormat::Zero => b == b'0',
        PartFormat::Hyphen => b == b'-',
        PartFormat::Importer => is_of_64(b),
    }
}

/// Whether the bytes beyond the least number are whole steps.
fn has_whole_steps(part: &Part, bytes: &[u8]) -> bool
    ensures { result ≡ has_whole_steps part.now bytes.now }
{
    part.step <= 1
        || bytes.len().saturating_sub(usize::from(part.least)) % usize::from(part.step) == 0
}

/// Whether each byte is one of the 82 characters.
fn are_characters(bytes: &[u8]) -> bool
    ensures { result ≡ list_all is_character bytes.now }
{
    bytes.iter().all(|byte| is_character(*byte))
}

/// Whether each byte belongs to the format.
fn each_belongs(format: PartFormat, bytes: &[u8]) -> bool
    ensures { result ≡ list_all (belongs format) bytes.now }
{
    for b in bytes {
        if !belongs(format, *b) {
            return false;
        }
    }
    true
}

/// Whether each byte belongs to the format. It chooses the test once for the two most frequent formats, and for each
/// byte for the others.
fn all_belong(format: PartFormat, bytes: &[u8]) -> bool
    ensures { result ≡ list_all (belongs format) bytes.now }
{
    match format {
        PartFormat::Numeric => are_digits(bytes),
        PartFormat::Alphanumeric => are_characters(bytes),
        _ => each_belongs(format, bytes),
    }
}

/// Whether each byte belongs to the part, and the bytes obey its rule.
fn has_characters(part: &Part, bytes: &[u8]) -> bool
    ensures { result ≡ has_characters part.now bytes.now }
{
    all_belong(part.format, bytes) && follows(part.rule, bytes)
}

/// Whether the days and the time that the part names exist.
fn has_date(year: ReferenceYear, part: &Part, bytes: &[u8]) -> bool
    ensures { result ≡ has_date year part.now bytes.now }
{
    is_named(year, part.rule, bytes)
}

/// What belongs to the part, and what is after it.
fn split<'a>(part: &Part, value: &'a [u8]) -> (&'a [u8], &'a [u8])
    ensures front { result.0.now ≡ take part.now.greatest value.now }
    ensures rest { result.1.now ≡ drop part.now.greatest value.now }
    ensures short { length result.0.now ≤ 255 }
{
    let n = part.greatest as usize;
    if value.len() <= n {
        value.split_at(value.len())
    } else {
        value.split_at(n)
    }
}

/// A test of each part of a value.
#[derive(Clone, Copy)]
pub enum PartTest {
    /// Its length is allowed, between its least and its greatest.
    WholeSteps,
    /// Its characters are allowed and obey its rule.
    Characters,
    /// Its check digit or its check characters are right.
    CheckDigit,
    /// The days and the time that it names exist, by the reference year.
    Dates(ReferenceYear),
}

/// Whether the bytes of a part pass a test.
fn passes(test: &PartTest, part: &Part, bytes: &[u8]) -> bool
    requires { length bytes.now ≤ 255 }
    ensures { result ≡ passes test.now part.now bytes.now }
{
    match test {
        PartTest::WholeSteps => has_whole_steps(part, bytes),
        PartTest::Characters => has_characters(part, bytes),
        PartTest::CheckDigit => is_checked_by(part.check, bytes),
        PartTest::Dates(year) => has_date(*year, part, bytes),
    }
}

/// Whether each part of a value passes a test.
fn each_part(test: &PartTest, parts: &[Part], value: &[u8]) -> bool
    ensures { result ≡ each_part (passes test.now) parts.now value.now }
{
    let mut rest = value;
    for part in parts {
        let (front, after) = split(part, rest);
        if !passes(test, part, front) {
            return false;
        }
        rest = after;
    }
    true
}

/// The first test that a value fails whose length is right.
fn value_fault(
    year: ReferenceYear,
    place: usize,
    parts: &[Part],
    value: &[u8],
) -> Option<ElementFault>
    ensures { result ≡ value_fault year place parts.now value.now }
{
    if !each_part(&PartTest::Characters, parts, value) {
        return Some(ElementFault::ValueCharacter(place));
    }
    if !each_part(&PartTest::CheckDigit, parts, value) {
        return Some(ElementFault::ValueCheckDigit(place));
    }
    if !each_part(&PartTest::Dates(year), parts, value) {
        return Some(ElementFault::ValueDate(place));
    }
    None
}

/// The least number of bytes of a value.
fn least_length(parts: &[Part]) -> usize
    requires { length parts.now ≤ 5 }
    ensures { result ≡ least_of parts.now }
{
    let mut sum = 0;
    for part in parts {
        sum += usize::from(part.least);
    }
    sum
}

/// The greatest number of bytes of a value.
pub(crate) fn greatest_length(parts: &[Part]) -> usize
    requires { length parts.now ≤ 5 }
    ensures { result ≡ greatest_of parts.now }
{
    let mut sum = 0;
    for part in parts {
        sum += usize::from(part.greatest);
    }
    sum
}

/// The first test that a value of one part fails; most values have one. `too_long` is the error if it is too long.
fn part_fault(
    year: ReferenceYear,
    place: usize,
    too_long: ElementFault,
    part: &Part,
    value: &[u8],
) -> Option<ElementFault>
    ensures { result ≡ part_fault year place too_long part.now value.now }
{
    if value.len() < usize::from(part.least) {
        return Some(ElementFault::ValueLength(place));
    }
    if usize::from(part.greatest) < value.len() {
        return Some(too_long);
    }
    if !has_whole_steps(part, value) {
        return Some(ElementFault::ValueLength(place));
    }
    if !has_characters(part, value) {
        return Some(ElementFault::ValueCharacter(place));
    }
    if !is_checked_by(part.check, value) {
        return Some(ElementFault::ValueCheckDigit(place));
    }
    if !has_date(year, part, value) {
        return Some(ElementFault::ValueDate(place));
    }
    None
}

/// The first test that a value fails, beginning with its length. `too_long` is the error if it is too long.
pub(crate) fn row_fault(
    year: ReferenceYear,
    place: usize,
    too_long: ElementFault,
    parts: &[Part],
    value: &[u8],
) -> Option<ElementFault>
    requires { length parts.now ≤ 5 }
    ensures { result ≡ row_fault year place too_long parts.now value.now }
{
    if let [part] = parts {
        return part_fault(year, place, too_long, part, value);
    }
    if value.len() < least_length(parts) {
        return Some(ElementFault::ValueLength(place));
    }
    if greatest_length(parts) < value.len() {
        return Some(too_long);
    }
    if !each_part(&PartTest::WholeSteps, parts, value) {
        return Some(ElementFault::ValueLength(place));
    }
    value_fault(year, place, parts, value)
}
