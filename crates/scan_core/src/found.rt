//! What is found in a row, before its elements are computed.
ghost use Rattle.std.specs.Prelude.{◌≡◌, ◌++◌, ◌∷◌, List, OnOk, string_bytes, true, ℕ};
ghost use Rattle.element_core.specs.Lines.{line_text};
ghost use Rattle.element_core.specs.Terms.{Terms};
ghost use Rattle.scan_core.specs.Answers.{IsAnswer};
ghost use Rattle.scan_core.specs.Reading.{IsFound};
ghost use Rattle.scan_core.specs.Faults.{row_fault_text};
ghost use Rattle.scan_core.specs.Lines.{identifier, said};
ghost use Rattle.scan_core.specs.inner.Kept.{AreElementsIf, AreElementsOf};
ghost use Rattle.scan_core.specs.inner.Reading.{IsReadAs, text_in};

use crate::answer::Answer;
use crate::carrier::Carrier;
use crate::fault::RowFault;
use arrayvec::ArrayString;
use code128_code::{Values, text_of};
use digits_core::Gtin;
use element_core::{Elements, Form, Line, Year, elements_line, push_gtin_element, write_hri};
use std::alloc::AllocError;

/// What is found in a row: the symbol that it shows, or why it is refused. It determines the answer to the row.
///
/// It is little more than half as large as an answer, since the characters of a symbol take less room than their text
/// may.
#[derive(Debug, Drop)]
pub enum Found {
    /// A symbol of EAN, UPC or ITF-14, of this GTIN.
    Number(Carrier, Gtin),
    /// A symbol of Code 128, of these values.
    Characters(Carrier, Values),
    /// Why the row is refused, whatever the reference year.
    Refused(RowFault),
}

/// The elements that the values of a Code 128 symbol mean, with dates by the reference year.
fn elements_of(values: &Values, year: Year) -> Result<Elements, RowFault>
    ensures { IsReadAs year (text_in values.now) result }
{
    let text = text_of(values)?;
    Ok(Elements::parse(text.as_slice(), year)?)
}

/// Appends the line of a symbol of EAN, UPC or ITF-14.
#[inline(never)]
fn push_number(
    carrier: Carrier,
    gtin: &Gtin,
    form: Form,
    text: &mut String,
) -> Result<(), AllocError>
    ensures { (year : Terms) → OnOk result ((answer : Answer)
        × ((runs : List ℕ) → IsFound runs (Found.Number carrier gtin.now) → IsAnswer runs year answer)
        × (string_bytes text.new ≡ string_bytes text.old ++ said form answer)) }
{
    push_gtin_element(carrier.identifier(), gtin, form, text)
}

/// Appends the line of a symbol of Code 128, with dates by the reference year.
#[inline(never)]
fn push_characters(
    carrier: Carrier,
    values: &Values,
    year: Year,
    form: Form,
    text: &mut String,
) -> Result<(), AllocError>
    ensures { OnOk result ((answer : Answer)
        × ((runs : List ℕ) → IsFound runs (Found.Characters carrier values.now) → IsAnswer runs year answer)
        × (string_bytes text.new ≡ string_bytes text.old ++ said form answer)) }
{
    match &text_of(values) {
        Ok(read) => elements_line(carrier.identifier(), form, read.as_slice(), year).push(text),
        Err(fault) => push_refusal(RowFault::Code128(*fault), text),
    }
}

/// Appends the line of a symbol of Code 128 with these elements, in the human-readable form.
pub(crate) fn push_said(carrier: Carrier, said: &str, text: &mut String) -> Result<(), AllocError>
    ensures { OnOk result (string_bytes text.new ≡ string_bytes text.old ++ (identifier carrier ++ (32 ∷ said.now))) }
{
    text.push_str(carrier.identifier())?;
    text.push(' ')?;
    text.push_str(said)
}

/// Appends the elements of a Code 128 symbol to a text in the human-readable form, with dates by the reference year.
/// Returns whether there are any.
#[inline(never)]
fn put_elements(values: &Values, year: Year, said: &mut ArrayString<288>) -> bool
    ensures { result ≡ true → AreElementsOf year values.now said.new.bytes }
{
    match &text_of(values) {
        Ok(text) => write_hri(text.as_slice(), year, said).is_ok(),
        Err(_) => false,
    }
}

/// Appends the line of a row that is refused.
#[inline(never)]
fn push_refusal(fault: RowFault, text: &mut String) -> Result<(), AllocError>
    ensures { OnOk result (string_bytes text.new ≡ string_bytes text.old ++ row_fault_text fault) }
{
    Line::refused(fault.refusal()).push(text)
}

impl Found {
    /// The answer to the row in which this was found, with dates by the reference year.
    pub fn answer(&self, year: Year) -> Answer
        ensures { (runs : List ℕ) → IsFound runs self.now → IsAnswer runs year result }
    {
        match self {
            Found::Number(carrier, gtin) => Answer::Read {
                carrier: *carrier,
                elements: Elements::of_gtin(gtin, year),
            },
            Found::Characters(carrier, values) => match elements_of(values, year) {
                Ok(elements) => Answer::Read {
                    carrier: *carrier,
                    elements,
                },
                Err(fault) => Answer::Refused(fault),
            },
            Found::Refused(fault) => Answer::Refused(*fault),
        }
    }

    /// Writes the elements of characters to a text in the human-readable form, with dates by the reference year.
    /// Returns the year if there are any.
    pub(crate) fn say(&self, year: Year, said: &mut ArrayString<288>) -> Option<Year>
        ensures { AreElementsIf result self.now said.new.bytes }
    {
        match self {
            Found::Characters(_, values) => {
                if put_elements(values, year, said) {
                    Some(year)
                } else {
                    None
                }
            }
            _ => None,
        }
    }

    /// The line of the answer to the row in which this was found, with its elements in a form. It writes elements
    /// while it reads them, and a GTIN as its digits.
    pub fn line(&self, year: Year, form: Form) -> Line
        ensures { (answer : Answer) × ((runs : List ℕ) → IsFound runs self.now → IsAnswer runs year answer) × (line_text result ≡ said form answer) }
    {
        match self {
            Found::Number(carrier, gtin) => Line::of_gtin_element(carrier.identifier(), gtin, form),
            Found::Characters(carrier, values) => match &text_of(values) {
                Ok(text) => elements_line(carrier.identifier(), form, text.as_slice(), year),
                Err(fault) => Line::refused(fault.refusal()),
            },
            Found::Refused(fault) => Line::refused(fault.refusal()),
        }
    }

    /// Appends that line. Each case appends its own line, since a line that is returned is copied. Each is a function
    /// of its own, since a function clears the room of all its lines when it begins.
    pub(crate) fn push_line(
        &self,
        year: Year,
        form: Form,
        text: &mut String,
    ) -> Result<(), AllocError>
        ensures { OnOk result ((answer : Answer) × ((runs : List ℕ) → IsFound runs self.now → IsAnswer runs year answer)
            × (string_bytes text.new ≡ string_bytes text.old ++ said form answer)) }
    {
        match self {
            Found::Number(carrier, gtin) => push_number(*carrier, gtin, form, text),
            Found::Characters(carrier, values) => {
                push_characters(*carrier, values, year, form, text)
            }
            Found::Refused(fault) => push_refusal(*fault, text),
        }
    }
}
