//! The kinds of texts that `check` knows, and their lines.
ghost use Rattle.std.specs.Prelude.{◌≡◌, codes};
ghost use Rattle.element_core.specs.Elements.{hri};
ghost use Rattle.element_core.specs.Lines.{IsElementsLine, line_text};
ghost use Rattle.message_core.specs.Spellings.{spelled};
ghost use Rattle.csv_records.specs.check.Checks.{IsLineAs, IsUpceLine, check_kind_named};

use element_core::{Form, Line, Year, digit_line, gtin_line};
use message_core::{read_spelled, read_upce};

/// What a text is checked as.
#[derive(Clone, Copy, Debug, PartialEq, Eq)]
pub enum CheckKind {
    /// 1 to 17 digits that lack a check digit.
    Digit,
    /// A GTIN of 8, 12, 13 or 14 digits.
    Gtin,
    /// UPC-E written as the digit 0, six digits and the check digit.
    Upce,
    /// An element string, in which `^` is the separator.
    Text,
}

/// The kind of check that a record names.
pub fn kind_named(name: &[u8]) -> Option<CheckKind>
    ensures { result ≡ check_kind_named name.now }
{
    match name {
        b"digit" => Some(CheckKind::Digit),
        b"gtin" => Some(CheckKind::Gtin),
        b"upce" => Some(CheckKind::Upce),
        b"text" => Some(CheckKind::Text),
        _ => None,
    }
}

/// The line of the GTIN that UPC-E digits mean, or of their error.
fn upce_line(text: &[u8]) -> Line
    ensures { IsUpceLine text.now (line_text result) }
{
    match read_upce(text) {
        Ok(gtin) => Line::of_gtin(&gtin),
        Err(fault) => Line::refused(fault.refusal()),
    }
}

/// The line of the elements of a text, or of its first fault.
fn text_line(field: &[u8], year: Year) -> Line
    ensures { IsElementsLine (codes "hri") hri year (spelled field.now) (line_text result) }
{
    match read_spelled(field, year) {
        Ok(elements) => Line::of_elements("hri", &elements, Form::HumanReadable),
        Err(fault) => Line::refused(fault.refusal()),
    }
}

/// The line of a text of a kind, by a reference year.
pub fn line_of(kind: CheckKind, text: &[u8], year: Year) -> Line
    ensures { IsLineAs year kind text.now (line_text result) }
{
    match kind {
        CheckKind::Digit => digit_line(text),
        CheckKind::Gtin => gtin_line(text),
        CheckKind::Upce => upce_line(text),
        CheckKind::Text => text_line(text, year),
    }
}
