//! Reads messages.
ghost use Rattle.std.specs.Prelude.{◌≡◌};
ghost use Rattle.element_core.specs.Lines.{line_text};
ghost use Rattle.message_core.specs.Heads.{head_of};
ghost use Rattle.message_core.specs.Messages.{IsEanUpcSaid, IsHeadSaid, IsMessage, IsMessageLine, IsStringSaid, IsSymbolSaid, gtin_said, heard, message_text, sized_said, word_by};

use crate::fault::MessageFault;
use crate::head::{Head, behind_identifier, head_of};
use crate::link::link_said;
use crate::spelling::read_elements;
use crate::symbology::Symbology;
use crate::upce::upce_said;
use digits_core::{DigitFault, Gtin};
use element_core::{Elements, Form, Line, Year};

/// The elements of a GTIN's digits.
fn gtin_said(digits: &[u8], year: Year) -> Result<Elements, MessageFault>
    ensures { heard result ≡ gtin_said digits.now }
{
    match Gtin::read(digits) {
        Ok(gtin) => Ok(Elements::of_gtin(&gtin, year)),
        Err(fault) => Err(MessageFault::Digits(fault)),
    }
}

/// The same for an EAN-13, a UPC-A or a UPC-E: a GTIN of 13 or of 12 digits, or the eight digits of a UPC-E as they
/// are printed under the symbol. The GTIN of a UPC-E has other digits.
fn ean_upc_said(digits: &[u8], year: Year) -> Result<Elements, MessageFault>
    ensures { IsEanUpcSaid digits.now (heard result) }
{
    match digits.len() {
        8 => upce_said(digits, year),
        14 => Err(MessageFault::Digits(DigitFault::Length)),
        _ => gtin_said(digits, year),
    }
}

/// The same for a symbol with this many digits.
fn sized_said(size: usize, digits: &[u8], year: Year) -> Result<Elements, MessageFault>
    ensures { heard result ≡ sized_said size digits.now }
{
    if digits.len() != size {
        return Err(MessageFault::Digits(DigitFault::Length));
    }
    gtin_said(digits, year)
}

/// The elements of an element string.
fn elements_said(text: &[u8], year: Year) -> Result<Elements, MessageFault>
    ensures { IsStringSaid year text.now (heard result) }
{
    match read_elements(text, year) {
        Ok(elements) => Ok(elements),
        Err(fault) => Err(MessageFault::Elements(fault)),
    }
}

/// The elements of a symbol of this symbology.
fn symbol_said(symbology: Symbology, said: &[u8], year: Year) -> Result<Elements, MessageFault>
    ensures { IsSymbolSaid symbology year said.now (heard result) }
{
    match symbology {
        Symbology::EanUpc => ean_upc_said(said, year),
        Symbology::Ean8 => sized_said(8, said, year),
        Symbology::Itf14 => sized_said(14, said, year),
        Symbology::Gs1128
        | Symbology::DataBar
        | Symbology::DataMatrix
        | Symbology::QrCode
        | Symbology::DotCode => elements_said(said, year),
        Symbology::LinkDataMatrix | Symbology::LinkQrCode => link_said(said, year),
    }
}

/// The elements of a message without blanks at its end, by its head.
fn head_said(head: Option<Head>, text: &[u8], year: Year) -> Result<Elements, MessageFault>
    ensures { IsHeadSaid year text.now head (heard result) }
{
    match head {
        Some(Head::Symbology(symbology)) => symbol_said(symbology, behind_identifier(text), year),
        Some(Head::Separator) => elements_said(text, year),
        Some(Head::Digits) => gtin_said(text, year),
        Some(Head::Link) => link_said(text, year),
        None => Err(MessageFault::Kind),
    }
}

/// The identifier that the scanner sent, or `-` if it sent none.
fn word_by(head: Option<Head>) -> &'static str
    ensures { result.now ≡ word_by head }
{
    match head {
        Some(Head::Symbology(symbology)) => symbology.identifier(),
        _ => "-",
    }
}

/// The meaning of a message.
#[derive(Debug, Drop)]
pub struct Message {
    /// How it began: with the identifier of a symbology, or without one.
    pub head: Option<Head>,
    /// Its elements, or why it has none.
    pub said: Result<Elements, MessageFault>,
}

/// Reads a message, as a scanner sends it: a symbology identifier (GS1 General Specifications, section 5.1.3), and
/// behind it
/// - the digits of a GTIN: 12 or 13, or the 8 of a UPC-E (`]E0`); 8 (`]E4`); 14 (`]I1`);
/// - an element string, whose separator is byte 29 or `^` (`]C1`, `]e0`, `]d2`, `]Q3`, `]J1`);
/// - a Digital Link (`]Q1`, `]d1`).
///
/// Without an identifier it is an element string if it begins with a separator, a GTIN of 8, 12, 13 or 14 digits if
/// it begins with eight digits, and a Digital Link if it begins with `http://` or `https://`. Eight digits that begin
/// with 0 may be an EAN-8 or a UPC-E, so they are `refused 40 Kind`, like any other text.
///
/// Blanks, tabs and line ends behind it are ignored, and so is one separator before an element string. The place of
/// an error is the offset in bytes from there; in a Digital Link it is the index of the element, from 0.
///
/// # Examples
///
/// A scanner has read a GS1 DataMatrix, whose identifier is `]d2`:
///
/// ```
/// use message_core::{Message, read_message};
/// let year = element_core::Year::new(2026).ok_or("a year")?;
/// let Message { said, .. } = read_message(b"]d2010950110153000317261231", year);
/// assert_eq!(rt; said?.hri().as_str(), "(01)09501101530003(17)261231");
/// ```
pub fn read_message(text: &[u8], year: Year) -> Message
    ensures { IsMessage year text.now result.head (heard result.said) }
{
    let text = text.trim_ascii_end();
    let head = head_of(text);
    Message {
        head,
        said: head_said(head, text, year),
    }
}

impl Message {
    /// The line of the message: the identifier that the scanner sent, or `-`, and the elements in a form; or the
    /// refusal.
    pub fn line(&self, form: Form) -> Line
        ensures { line_text result ≡ message_text self.now.head form (heard self.now.said) }
    {
        match &self.said {
            Ok(elements) => Line::of_elements(word_by(self.head), elements, form),
            Err(fault) => Line::refused(fault.refusal()),
        }
    }
}

/// The line of a message.
pub fn message_line(form: Form, text: &[u8], year: Year) -> Line
    ensures { IsMessageLine form year text.now (line_text result) }
{
    read_message(text, year).line(form)
}
