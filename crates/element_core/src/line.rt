//! The lines of answers.

ghost use Rattle.std.specs.Prelude.{Some, ◌≡◌, ◌∷◌, ◌++◌, [], OnOk, string_bytes};
ghost use Rattle.digits_core.specs.Refusals.{refusal_text};
ghost use Rattle.element_core.specs.Elements.{IsElements, canonical, gtin_entry};
ghost use Rattle.element_core.specs.Terms.{Terms};
ghost use Rattle.element_core.specs.Lines.{IsDigitLine, IsElementsLine, elements_text, gtin_line, line_of_gtin, line_text};

use crate::elements::Elements;
use crate::form::Form;
use crate::hri::{ascii_str, push_bytes, write_hri};
use crate::terms::Year;
use arrayvec::ArrayString;
use digits_core::{Gtin, Refusal, payload_digit};
use std::alloc::AllocError;
use std::fmt;
use std::fmt::Write;

/// A line of an answer.
#[derive(Drop)]
pub enum Line {
    /// A word, a space and the content.
    Said {
        word: &'static str,
        text: ArrayString<288>,
    },
    /// Why there is no content.
    Refused(Refusal),
}

impl fmt::Display for Line {
    ghost output = { λ line. Some (line_text line) };

    fn fmt<W: fmt::Write>(&self, f: &mut fmt::Formatter<W>) -> fmt::Result {
        match self {
            Line::Said { word, text } => {
                let said = text.as_str();
                write!(f, "{word} {said}")
            }
            Line::Refused(why) => why.fmt(f),
        }
    }
}

impl Line {
    /// A refusal.
    pub fn refused(refusal: Refusal) -> Line
        ensures { line_text result ≡ refusal_text refusal.kind refusal.place }
    {
        Line::Refused(refusal)
    }

    /// A word, and the elements of a list in a form.
    pub fn of_elements(word: &'static str, elements: &Elements, form: Form) -> Line
        ensures { line_text result ≡ word.now ++ (32 ∷ elements_text form elements.now.list) }
    {
        let text = match form {
            Form::HumanReadable => elements.hri(),
            Form::Pairs => elements.pairs(),
        };
        Line::Said { word, text }
    }

    /// `gtin` and the 14 digits of a GTIN.
    pub fn of_gtin(gtin: &Gtin) -> Line
        ensures { line_text result ≡ line_of_gtin gtin.now }
    {
        let mut text = ArrayString::new();
        push_bytes(&mut text, &gtin.digits14());
        Line::Said { word: "gtin", text }
    }

    /// A word, and the one element of a GTIN in a form: AI 01 and its 14 digits.
    pub fn of_gtin_element(word: &'static str, gtin: &Gtin, form: Form) -> Line
        ensures text { line_text result ≡ word.now ++ (32 ∷ elements_text form (gtin_entry gtin.now ∷ [])) }
        ensures reads { (year : Terms) → IsElements year (canonical (gtin_entry gtin.now ∷ [])) (gtin_entry gtin.now ∷ []) }
    {
        let mut shown = ArrayString::new();
        shown.push_str(match form {
            Form::HumanReadable => "(01)",
            Form::Pairs => "01=",
        });
        push_bytes(&mut shown, &gtin.digits14());
        Line::Said { word, text: shown }
    }

    /// Appends the line to a text.
    pub fn push(&self, text: &mut String) -> Result<(), AllocError>
        ensures { OnOk result (string_bytes text.new ≡ string_bytes text.old ++ line_text self.now) }
    {
        match self {
            Line::Said { word, text: said } => {
                text.push_str(word)?;
                text.push(' ')?;
                text.push_str(said.as_str())
            }
            Line::Refused(why) => write!(text, "{why}"),
        }
    }
}

/// Appends a word, and the one element of a GTIN in a form: AI 01 and its 14 digits. It does so without a `Line`.
#[inline]
pub fn push_gtin_element(
    word: &str,
    gtin: &Gtin,
    form: Form,
    text: &mut String,
) -> Result<(), AllocError>
    ensures text { OnOk result (string_bytes text.new ≡ string_bytes text.old ++ (word.now ++ (32 ∷ elements_text form (gtin_entry gtin.now ∷ [])))) }
    ensures reads { (year : Terms) → IsElements year (canonical (gtin_entry gtin.now ∷ [])) (gtin_entry gtin.now ∷ []) }
{
    let digits = gtin.digits14();
    text.push_str(word)?;
    text.push_str(match form {
        Form::HumanReadable => " (01)",
        Form::Pairs => " 01=",
    })?;
    text.push_str(ascii_str(&digits))
}

/// The line of the GTIN of 8, 12, 13 or 14 digits, or of their error.
pub fn gtin_line(text: &[u8]) -> Line
    ensures { line_text result ≡ gtin_line text.now }
{
    match Gtin::read(text) {
        Ok(gtin) => Line::of_gtin(&gtin),
        Err(fault) => Line::refused(fault.refusal()),
    }
}

/// The line of the check digit of 1 to 17 digits that lack it, or of their error.
pub fn digit_line(text: &[u8]) -> Line
    ensures { IsDigitLine text.now (line_text result) }
{
    match payload_digit(text) {
        Ok(digit) => {
            let mut text = ArrayString::new();
            push_bytes(&mut text, &[b'0' + digit]);
            Line::Said {
                word: "digit",
                text,
            }
        }
        Err(fault) => Line::refused(fault.refusal()),
    }
}

/// The line of an element string, with a word and its elements in a form, or of its first error. It writes the
/// human-readable form while it reads the string.
pub fn elements_line(word: &'static str, form: Form, text: &[u8], year: Year) -> Line
    ensures { IsElementsLine word.now (elements_text form) year text.now (line_text result) }
{
    match form {
        Form::HumanReadable => {
            let mut said = ArrayString::new();
            match write_hri(text, year, &mut said) {
                Ok(()) => Line::Said { word, text: said },
                Err(fault) => Line::refused(fault.refusal()),
            }
        }
        Form::Pairs => match &Elements::parse(text, year) {
            Ok(elements) => Line::of_elements(word, elements, form),
            Err(fault) => Line::refused(fault.refusal()),
        },
    }
}
