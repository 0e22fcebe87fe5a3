//! What a barcode means, as a struct.
ghost use Rattle.std.specs.Prelude.{◌≡◌, ◌∷◌, []};
ghost use Rattle.answer_core.specs.Answers.{IsNamed, TellsElements, TellsNone, TellsNothing, TellsRefusal, place_number};
ghost use Rattle.answer_core.specs.inner.Answers.{IsNamedAs, IsShort};
ghost use Rattle.answer_core.specs.Reads.{TellsLine};
ghost use Rattle.answer_core.specs.Refusals.{refusal_number};
ghost use Rattle.digits_core.specs.Refusals.{refusal_text};
ghost use Rattle.digits_core.specs.declared.refusal.RefusalKind.TheVariants as refusal;
ghost use Rattle.answer_core.specs.declared.symbol.SymbolKind.TheVariants as kind;

use crate::gtin::gtin_index;
use crate::place::{MOST_ELEMENTS, Place, put_places};
use crate::symbol::SymbolKind;
use digits_core::{Refusal, RefusalKind};
use element_core::{Elements, Year};

/// No place.
pub(crate) const NO_PLACE: u16 = 65_535;

/// No GTIN.
pub(crate) const NO_GTIN: u8 = 255;

/// What a barcode means, or why it means nothing. Only the first `length` bytes of the text and the first `count`
/// elements are written, and no byte behind them.
#[repr(C)]
#[derive(Clone, Copy)]
pub struct Answer {
    /// The number of the error, or 0.
    pub fault: u16,
    /// The place of the error, or 65,535 if it has none.
    pub place: u16,
    /// The number of the kind of symbol, by `SymbolKind`.
    pub symbol: u8,
    /// How many elements there are.
    pub count: u8,
    /// How many bytes the text has.
    pub length: u8,
    /// The index of the element of AI 01; 255 if there is none, or if there are two with different values.
    pub gtin: u8,
    /// The symbology identifier, three bytes and a 0; or four zeros if there is none.
    pub identifier: [u8; 4],
    /// The element string of these elements, with separators only where they are required.
    pub text: [u8; 192],
    /// Where the elements are in the text.
    pub elements: [Place; MOST_ELEMENTS],
}

// Programs in other languages read it by this size.
const _: () = prove!(size_of::<Answer>() == 1068);

/// The number of a refusal (docs/FAULTS.md).
fn refusal_number(kind: RefusalKind) -> u16
    ensures { result ≡ refusal_number kind }
{
    kind as u16 + 1
}

/// The place of a refusal, or 65,535.
fn place_number(place: Option<usize>) -> u16
    ensures { result ≡ place_number place }
{
    match place {
        Some(place) if place < 65_535 => place as u16,
        _ => NO_PLACE,
    }
}

impl Answer {
    /// An empty answer.
    pub fn new() -> Answer
        ensures none { TellsNone result }
        ensures named { IsNamed kind.Unknown (0 ∷ 0 ∷ 0 ∷ 0 ∷ []) result }
    {
        Answer {
            fault: 0,
            place: NO_PLACE,
            symbol: 0,
            count: 0,
            length: 0,
            gtin: NO_GTIN,
            identifier: [0; 4],
            text: [0; 192],
            elements: [Place::new(); MOST_ELEMENTS],
        }
    }

    /// Writes an error.
    pub(crate) fn refuse(&mut self, refusal: Refusal)
        ensures told { TellsRefusal refusal.kind refusal.place self.new }
        ensures kept { IsNamedAs self.old self.new }
    {
        self.fault = refusal_number(refusal.kind);
        self.place = place_number(refusal.place);
        self.count = 0;
        self.length = 0;
        self.gtin = NO_GTIN;
    }

    /// Writes an error that fits on a line.
    pub(crate) fn refuse_said(&mut self, refusal: Refusal)
        requires { IsShort (refusal_text refusal.kind refusal.place) }
        ensures told { TellsLine (refusal_text refusal.kind refusal.place) self.new }
        ensures kept { IsNamedAs self.old self.new }
    {
        self.refuse(refusal);
    }

    /// Writes an error of a text or a line, and no symbol.
    pub(crate) fn tell_nothing(&mut self, kind: RefusalKind)
        ensures { TellsNothing kind self.new }
    {
        self.name(SymbolKind::Unknown, [0; 4]);
        self.refuse(Refusal { kind, place: None });
    }

    /// Writes the error of a year that is no reference year.
    pub fn refuse_terms(&mut self)
        ensures { TellsNothing refusal.Words self.new }
    {
        self.tell_nothing(RefusalKind::Words);
    }

    /// Writes elements, with their days by the terms.
    pub(crate) fn tell(&mut self, elements: &Elements, terms: Year)
        ensures told { TellsElements terms elements.now.list self.new }
        ensures kept { IsNamedAs self.old self.new }
    {
        let text = elements.bytes();
        self.text[..text.len()].copy_from_slice(text);
        self.length = text.len() as u8;
        self.fault = 0;
        self.place = NO_PLACE;
        self.count = put_places(text, terms, &mut self.elements);
        self.gtin = gtin_index(text, &self.elements[..usize::from(self.count)]);
    }

    /// Writes which symbol was read.
    pub(crate) fn name(&mut self, symbol: SymbolKind, identifier: [u8; 4])
        ensures { IsNamed symbol identifier self.new }
    {
        self.symbol = symbol.number();
        self.identifier = identifier;
    }
}
