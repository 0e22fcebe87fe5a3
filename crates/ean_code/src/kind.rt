//! The kinds of symbol that show a GTIN: the table of the symbologies.
ghost use Rattle.std.specs.Prelude.{◌≡◌, ◌≢◌, IfNone, IfSome};
ghost use Rattle.ean_code.specs.Spelling.{IsSpelled};
ghost use Rattle.ean_code.specs.Symbols.{kind_identifier, module_count, width_count};
ghost use Rattle.ean_code.specs.Widths.{AreWidths};

use crate::modules::Modules;
use crate::reading::Spelled;
use crate::symbologies::{ean8, ean13, itf14, upce};

/// A kind of symbol that shows a GTIN.
#[derive(Clone, Copy, Debug, PartialEq, Eq)]
pub enum Kind {
    /// EAN-13, which includes UPC-A.
    Ean13,
    /// EAN-8.
    Ean8,
    /// UPC-E.
    UpcE,
    /// ITF-14.
    Itf14,
}

impl Kind {
    /// The kind whose symbols have this many widths.
    pub fn of_width_count(count: usize) -> Option<Kind>
        ensures found { IfSome result (λ kind. width_count kind ≡ count) }
        ensures none { IfNone result ((kind : Kind) → width_count kind ≢ count) }
    {
        match count {
            ean13::WIDTH_COUNT => Some(Kind::Ean13),
            ean8::WIDTH_COUNT => Some(Kind::Ean8),
            upce::WIDTH_COUNT => Some(Kind::UpcE),
            itf14::WIDTH_COUNT => Some(Kind::Itf14),
            _ => None,
        }
    }

    /// How many modules wide its symbols are.
    pub fn module_count(self) -> u16
        ensures { result ≡ module_count self }
    {
        match self {
            Kind::Ean13 => ean13::MODULE_COUNT,
            Kind::Ean8 => ean8::MODULE_COUNT,
            Kind::UpcE => upce::MODULE_COUNT,
            Kind::Itf14 => itf14::MODULE_COUNT,
        }
    }

    /// The identifier that a reader sends before the text of its symbols (GS1 General Specifications, section 5.1.3).
    pub fn identifier(self) -> &'static str
        ensures { result.now ≡ kind_identifier self }
    {
        match self {
            Kind::Ean13 => ean13::IDENTIFIER,
            Kind::Ean8 => ean8::IDENTIFIER,
            Kind::UpcE => upce::IDENTIFIER,
            Kind::Itf14 => itf14::IDENTIFIER,
        }
    }

    /// What its symbol with these modules spells, read only forwards.
    pub fn read(self, modules: &Modules) -> Spelled
        ensures { IsSpelled self modules.now result }
    {
        self.read_widths(modules.widths())
    }

    /// What its symbol with these widths in modules spells, read only forwards.
    pub fn read_widths(self, widths: &[u8]) -> Spelled
        requires { AreWidths widths.now }
        ensures { IsSpelled self widths.now result }
    {
        match self {
            Kind::Ean13 => ean13::read_ean13_widths(widths),
            Kind::Ean8 => ean8::read_ean8_widths(widths),
            Kind::UpcE => upce::read_upce_widths(widths),
            Kind::Itf14 => itf14::read_itf14_widths(widths),
        }
    }
}
