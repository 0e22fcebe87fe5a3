//! Which symbol was read, and its identifier.
ghost use Rattle.std.specs.Prelude.{◌≡◌};
ghost use Rattle.answer_core.specs.Symbols.{as_four, begins_zeros, carrier_symbol, ean_upc_symbol, identified_symbol, sent_identifier, sent_symbol, symbol_number};

use message_core::{Head, Symbology};
use scan_core::Carrier;

/// A kind of symbol. Its number, from 0 in this order, is part of the layout of an answer.
#[derive(Clone, Copy, Debug, PartialEq, Eq)]
pub enum SymbolKind {
    /// Unknown: there was no identifier.
    Unknown,
    Ean13,
    UpcA,
    UpcE,
    Ean8,
    Itf14,
    Gs1128,
    DataBar,
    DataMatrix,
    QrCode,
    DotCode,
}

impl SymbolKind {
    /// Its number, 0 to 10.
    pub fn number(self) -> u8
        ensures { result ≡ symbol_number self }
    {
        self as u8
    }
}

/// Whether an element string begins with a GTIN of 12 digits.
fn begins_zeros(text: &[u8]) -> bool
    ensures { result ≡ begins_zeros text.now }
{
    match text {
        [_, _, b'0', b'0', ..] => true,
        _ => false,
    }
}

/// The symbol in a row with this element string. An EAN-13 with a GTIN of 12 digits is a UPC-A: both have the same
/// bars (ISO/IEC 15420).
pub(crate) fn carrier_symbol(carrier: Carrier, text: &[u8]) -> SymbolKind
    ensures { result ≡ carrier_symbol carrier text.now }
{
    match carrier {
        Carrier::Ean13 if begins_zeros(text) => SymbolKind::UpcA,
        Carrier::Ean13 => SymbolKind::Ean13,
        Carrier::Ean8 => SymbolKind::Ean8,
        Carrier::UpcE => SymbolKind::UpcE,
        Carrier::Itf14 => SymbolKind::Itf14,
        Carrier::Gs1128 => SymbolKind::Gs1128,
    }
}

/// The symbol of the digits that a scanner sent behind `]E0`. A scanner may widen a UPC-E to the 12 or 13 digits of a UPC-A.
fn ean_upc_symbol(digits: &[u8]) -> SymbolKind
    ensures { result ≡ ean_upc_symbol digits.now }
{
    match digits {
        [_, _, _, _, _, _, _, _] => SymbolKind::UpcE,
        [_, _, _, _, _, _, _, _, _, _, _, _] | [b'0', ..] => SymbolKind::UpcA,
        _ => SymbolKind::Ean13,
    }
}

/// The symbol that a scanner read, by the head of its message and the digits behind it.
pub(crate) fn sent_symbol(head: Option<Head>, text: &[u8]) -> SymbolKind
    ensures { result ≡ sent_symbol head text.now }
{
    let Some(Head::Symbology(symbology)) = head else {
        return SymbolKind::Unknown;
    };
    match symbology {
        Symbology::EanUpc => ean_upc_symbol(&text[text.len().min(3)..]),
        Symbology::Ean8 => SymbolKind::Ean8,
        Symbology::Itf14 => SymbolKind::Itf14,
        Symbology::Gs1128 => SymbolKind::Gs1128,
        Symbology::DataBar => SymbolKind::DataBar,
        Symbology::DataMatrix | Symbology::LinkDataMatrix => SymbolKind::DataMatrix,
        Symbology::QrCode | Symbology::LinkQrCode => SymbolKind::QrCode,
        Symbology::DotCode => SymbolKind::DotCode,
    }
}

/// An identifier of three bytes, and a 0 behind it; four zeros for any other.
pub(crate) fn as_four(identifier: &[u8]) -> [u8; 4]
    ensures { result ≡ as_four identifier.now }
{
    match identifier {
        [a, b, c] => [*a, *b, *c, 0],
        _ => [0; 4],
    }
}

/// The identifier that a scanner sent, with a 0 behind it; four zeros if it sent none.
pub(crate) fn sent_identifier(head: Option<Head>) -> [u8; 4]
    ensures { result ≡ sent_identifier head }
{
    match head {
        Some(Head::Symbology(symbology)) => as_four(symbology.identifier().as_bytes()),
        _ => [0; 4],
    }
}

/// The symbol of an identifier and an element string. For `]E0` it is a guess: an EAN-13, or a UPC-A if the GTIN has
/// 12 digits.
pub(crate) fn identified_symbol(identifier: [u8; 4], text: &[u8]) -> SymbolKind
    ensures { result ≡ identified_symbol identifier text.now }
{
    match Symbology::named(&identifier[..3]) {
        None => SymbolKind::Unknown,
        Some(Symbology::EanUpc) => carrier_symbol(Carrier::Ean13, text),
        Some(symbology) => sent_symbol(Some(Head::Symbology(symbology)), text),
    }
}
