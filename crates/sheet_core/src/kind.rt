//! Kinds of labels.
ghost use Rattle.std.specs.Prelude.{◌≡◌, ◌≤◌};
ghost use Rattle.std.specs.List.{find};
ghost use Rattle.std.specs.Str.{bytes_eq};
ghost use Rattle.sheet_core.specs.Kinds.{symbology_of, kind_named};

use scan_core::Carrier;

/// The symbol that a GTIN is printed as.
#[derive(Clone, Copy, Debug, PartialEq, Eq)]
pub enum GtinKind {
    /// An EAN-13.
    Ean13,
    /// A UPC-A.
    UpcA,
    /// An EAN-8.
    Ean8,
    /// A UPC-E.
    UpcE,
    /// An ITF-14.
    Itf14,
}

/// The symbol that a label's content is printed as.
#[derive(Clone, Copy, Debug, PartialEq, Eq)]
pub enum LabelKind {
    /// A GTIN, as one of its kinds.
    Gtin(GtinKind),
    /// Elements, as a GS1-128.
    Gs1128,
}

/// The name of a kind of label, and how it is drawn.
#[derive(Clone, Copy, Debug)]
pub struct Symbology {
    /// Its name.
    pub name: &'static str,
    /// The carrier that its symbol reads as.
    pub carrier: Carrier,
    /// The nominal quiet zone left of the symbol, in modules.
    pub quiet_left: u8,
    /// The nominal quiet zone right of the symbol, in modules.
    pub quiet_right: u8,
}

impl Symbology {
    fn new(name: &'static str, carrier: Carrier, quiet_left: u8, quiet_right: u8) -> Symbology
        ensures name { result.name.now ≡ name.now }
        ensures carrier { result.carrier ≡ carrier }
        ensures left { result.quiet_left ≡ quiet_left }
        ensures right { result.quiet_right ≡ quiet_right }
    {
        Symbology {
            name,
            carrier,
            quiet_left,
            quiet_right,
        }
    }
}

/// The kinds.
const KINDS: [LabelKind; 6] = [
    LabelKind::Gtin(GtinKind::Ean13),
    LabelKind::Gtin(GtinKind::UpcA),
    LabelKind::Gtin(GtinKind::Ean8),
    LabelKind::Gtin(GtinKind::UpcE),
    LabelKind::Gtin(GtinKind::Itf14),
    LabelKind::Gs1128,
];

/// The first of these kinds that has this name.
fn named_in(kinds: &[LabelKind], name: &[u8]) -> Option<LabelKind>
    ensures { result ≡ find (λ kind. bytes_eq (symbology_of kind).name name.now) kinds.now }
{
    kinds
        .iter()
        .copied()
        .find(|kind| kind.symbology().name.as_bytes() == name)
}

impl LabelKind {
    /// The name, the carrier and the nominal quiet zones (GS1 General Specifications, sections 5.2 to
    /// 5.4).
    pub fn symbology(self) -> Symbology
        ensures name { result.name.now ≡ (symbology_of self).name }
        ensures carrier { result.carrier ≡ (symbology_of self).carrier }
        ensures left { result.quiet_left ≡ (symbology_of self).quiet_left }
        ensures right { result.quiet_right ≡ (symbology_of self).quiet_right }
        ensures few { (result.quiet_left ≤ 11) × (result.quiet_right ≤ 11) }
    {
        match self {
            LabelKind::Gtin(GtinKind::Ean13) => Symbology::new("ean13", Carrier::Ean13, 11, 7),
            LabelKind::Gtin(GtinKind::UpcA) => Symbology::new("upca", Carrier::Ean13, 9, 9),
            LabelKind::Gtin(GtinKind::Ean8) => Symbology::new("ean8", Carrier::Ean8, 7, 7),
            LabelKind::Gtin(GtinKind::UpcE) => Symbology::new("upce", Carrier::UpcE, 9, 7),
            LabelKind::Gtin(GtinKind::Itf14) => Symbology::new("itf14", Carrier::Itf14, 10, 10),
            LabelKind::Gs1128 => Symbology::new("gs1128", Carrier::Gs1128, 10, 10),
        }
    }

    /// The kind of this name.
    pub fn named(name: &[u8]) -> Option<LabelKind>
        ensures { result ≡ kind_named name.now }
    {
        named_in(&KINDS, name)
    }
}
