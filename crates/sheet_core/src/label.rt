//! Labels.
ghost use Rattle.std.specs.Prelude.{◌≡◌, ◌≤◌, ◌↔◌, ℕ, List, IfNone, IfSome, IsTrue, drop};
ghost use Rattle.digits_core.specs.Digits.{padded};
ghost use Rattle.ean_code.specs.Spelling.{IsSpelled};
ghost use Rattle.ean_code.specs.declared.kind.Kind.TheVariants.{Ean13, Ean8, Itf14};
ghost use Rattle.ean_code.specs.declared.reading.Spelled.TheVariants.{Found};
ghost use Rattle.element_core.specs.Elements.{canonical};
ghost use Rattle.sheet_core.specs.Labels.{Drawn, FitsCell, IsDrawn, IsLabelSymbol, IsPrintedGs1128, carrier_of, content_of, gtin_label, gtin_text, label_kind, label_text, lent};

use crate::grid::Grid;
use crate::kind::{GtinKind, LabelKind};
use crate::symbol::{DrawnSymbol, total};
use code128_code::encode;
use digits_core::Gtin;
use ean_code::{Modules, ean8, ean13, itf14, upce};
use element_core::{Elements, Text};
use scan_core::Carrier;

/// What is printed in a cell.
#[derive(Drop)]
pub enum Label {
    /// An EAN-13 (ISO/IEC 15420), for a GTIN of at most 13 digits.
    Ean13(Gtin),
    /// A UPC-A (ISO/IEC 15420), for a GTIN of at most 12 digits.
    UpcA(Gtin),
    /// An EAN-8 (ISO/IEC 15420), for a GTIN of 8 digits.
    Ean8(Gtin),
    /// A UPC-E (ISO/IEC 15420), for a GTIN of 12 digits that can be written with six.
    UpcE(Gtin),
    /// An ITF-14 (ISO/IEC 16390), for any GTIN. A wide element is three modules.
    Itf14(Gtin),
    /// A GS1-128 (ISO/IEC 15417), for elements whose canonical text has at most 48 characters.
    Gs1128(Elements),
}

/// The content of a label.
#[derive(Clone, Copy)]
pub enum Content<'a> {
    /// The element of a GTIN.
    Gtin(&'a Gtin),
    /// Elements.
    Elements(&'a Elements),
}

/// The element string of a GTIN.
fn gtin_text(gtin: &Gtin) -> Text
    ensures { result.items ≡ gtin_text gtin.now }
{
    let mut text = Text::new();
    let _ = text.try_extend_from_slice(b"01");
    let _ = text.try_extend_from_slice(&gtin.digits14());
    text
}

/// The EAN-13 of a GTIN of at most 13 digits.
fn ean13_of(gtin: &Gtin) -> Option<Modules>
    ensures some { IfSome result (λ modules. IsSpelled Ean13 modules (Found gtin.now)) }
    ensures none { IfNone result ((modules : List ℕ) → IsSpelled Ean13 modules (Found gtin.now) → ⊥) }
{
    // Its contract says that the check digit is right.
    let _ = gtin.digits14();
    ean13(gtin)
}

/// The EAN-8 of a GTIN of 8 digits.
fn ean8_of(gtin: &Gtin) -> Option<Modules>
    ensures some { IfSome result (λ modules. IsSpelled Ean8 modules (Found gtin.now)) }
    ensures none { IfNone result ((modules : List ℕ) → IsSpelled Ean8 modules (Found gtin.now) → ⊥) }
{
    // Its contract says that the check digit is right.
    let _ = gtin.digits14();
    ean8(gtin)
}

/// The EAN-13 of a GTIN of at most 12 digits.
fn upca(gtin: &Gtin) -> Option<Modules>
    ensures some { IfSome result (λ modules. (gtin.now ≡ padded (drop 2 gtin.now)) × IsSpelled Ean13 modules (Found gtin.now)) }
    ensures none { IfNone result ((modules : List ℕ) → (gtin.now ≡ padded (drop 2 gtin.now)) × IsSpelled Ean13 modules (Found gtin.now) → ⊥) }
{
    if gtin.as12().is_none() {
        return None;
    }
    ean13(gtin)
}

/// The ITF-14 of a GTIN.
fn itf14_of(gtin: &Gtin) -> Modules
    ensures { IsSpelled Itf14 result (Found gtin.now) }
{
    // Its contract says that the check digit is right.
    let _ = gtin.digits14();
    itf14(gtin)
}

/// The GS1-128 of elements, if their canonical text has at most 48 characters.
fn gs1128(elements: &Elements) -> Option<Modules>
    ensures some { IfSome result (IsPrintedGs1128 (canonical elements.now.list)) }
    ensures none { IfNone result ((modules : List ℕ) → IsPrintedGs1128 (canonical elements.now.list) modules → ⊥) }
{
    match encode(elements) {
        Ok(modules) => Some(modules),
        Err(_) => None,
    }
}

impl Label {
    /// The label of a GTIN.
    pub fn of_gtin(kind: GtinKind, gtin: Gtin) -> Label
        ensures { result ≡ gtin_label kind gtin }
    {
        match kind {
            GtinKind::Ean13 => Label::Ean13(gtin),
            GtinKind::UpcA => Label::UpcA(gtin),
            GtinKind::Ean8 => Label::Ean8(gtin),
            GtinKind::UpcE => Label::UpcE(gtin),
            GtinKind::Itf14 => Label::Itf14(gtin),
        }
    }

    /// Its kind and its content.
    fn parts(&self) -> (LabelKind, Content<'_>)
        ensures kind { result.0 ≡ label_kind self.now }
        ensures content { lent result.1 ≡ content_of self.now }
    {
        match self {
            Label::Ean13(gtin) => (LabelKind::Gtin(GtinKind::Ean13), Content::Gtin(gtin)),
            Label::UpcA(gtin) => (LabelKind::Gtin(GtinKind::UpcA), Content::Gtin(gtin)),
            Label::Ean8(gtin) => (LabelKind::Gtin(GtinKind::Ean8), Content::Gtin(gtin)),
            Label::UpcE(gtin) => (LabelKind::Gtin(GtinKind::UpcE), Content::Gtin(gtin)),
            Label::Itf14(gtin) => (LabelKind::Gtin(GtinKind::Itf14), Content::Gtin(gtin)),
            Label::Gs1128(elements) => (LabelKind::Gs1128, Content::Elements(elements)),
        }
    }

    /// Its kind.
    pub fn kind(&self) -> LabelKind
        ensures { result ≡ label_kind self.now }
    {
        self.parts().0
    }

    /// Its content.
    pub fn content(&self) -> Content<'_>
        ensures { lent result ≡ content_of self.now }
    {
        self.parts().1
    }

    /// The content of the label as an element string (GS1 General Specifications, section 7.8).
    pub fn text(&self) -> Text
        ensures { result.items ≡ label_text self.now }
    {
        match self.content() {
            Content::Gtin(gtin) => gtin_text(gtin),
            Content::Elements(elements) => elements.text(),
        }
    }

    /// The carrier that its symbol reads as.
    pub fn carrier(&self) -> Carrier
        ensures { result ≡ carrier_of self.now }
    {
        self.kind().symbology().carrier
    }

    /// The modules of the label's symbol, if it has one.
    fn modules(&self) -> Option<Modules>
        ensures some { IfSome result (IsLabelSymbol self.now) }
        ensures none { IfNone result ((modules : List ℕ) → IsLabelSymbol self.now modules → ⊥) }
    {
        match self {
            Label::Ean13(gtin) => ean13_of(gtin),
            Label::UpcA(gtin) => upca(gtin),
            Label::Ean8(gtin) => ean8_of(gtin),
            Label::UpcE(gtin) => upce(gtin),
            Label::Itf14(gtin) => Some(itf14_of(gtin)),
            Label::Gs1128(elements) => gs1128(elements),
        }
    }

    /// The label's symbol with its quiet zones, if it has one (GS1 General Specifications, sections 5.2 to 5.4).
    pub fn symbol(&self) -> Option<DrawnSymbol>
        ensures some { IfSome result (IsDrawn self.now) }
        ensures none { IfNone result ((s : Drawn) → IsDrawn self.now s → ⊥) }
    {
        let modules = self.modules()?;
        let symbology = self.kind().symbology();
        Some(DrawnSymbol {
            modules,
            quiet_left: symbology.quiet_left,
            quiet_right: symbology.quiet_right,
        })
    }

    /// The same for a label that has a symbol.
    pub(crate) fn drawn(&self) -> DrawnSymbol
        requires { (s : Drawn) × IsDrawn self.now s }
        ensures { IsDrawn self.now result }
    {
        let Some(modules) = self.modules() else {
            unreachable!()
        };
        let symbology = self.kind().symbology();
        DrawnSymbol {
            modules,
            quiet_left: symbology.quiet_left,
            quiet_right: symbology.quiet_right,
        }
    }

    /// Whether the label's symbol with its quiet zones fits a cell, if it has a symbol.
    pub(crate) fn fits(&self, grid: &Grid) -> Option<bool>
        ensures some { IfSome result (λ fits. (s : Drawn) × IsDrawn self.now s × (IsTrue fits ↔ FitsCell grid.now s)) }
        ensures none { IfNone result ((s : Drawn) → IsDrawn self.now s → ⊥) }
    {
        let modules = self.modules()?;
        let symbology = self.kind().symbology();
        let width = u32::from(symbology.quiet_left)
            + total(&modules)
            + u32::from(symbology.quiet_right);
        Some(width * u32::from(grid.module_dots) <= u32::from(grid.cell_width))
    }
}
