//! Symbology identifiers, which a scanner sends before the text of a symbol.
ghost use Rattle.std.specs.Prelude.{◌≡◌};
ghost use Rattle.message_core.specs.Symbologies.{identifier_of, symbology_named};

/// The kinds of symbols whose text is accepted, by their identifiers (ISO/IEC 15424; GS1 General Specifications,
/// section 5.1.3).
#[derive(Clone, Copy, Debug, PartialEq, Eq)]
pub enum Symbology {
    /// EAN-13, UPC-A and UPC-E.
    EanUpc,
    /// EAN-8.
    Ean8,
    /// ITF-14.
    Itf14,
    /// GS1-128.
    Gs1128,
    /// GS1 DataBar.
    DataBar,
    /// GS1 DataMatrix.
    DataMatrix,
    /// GS1 QR code.
    QrCode,
    /// GS1 DotCode.
    DotCode,
    /// Data Matrix of a Digital Link.
    LinkDataMatrix,
    /// QR code of a Digital Link.
    LinkQrCode,
}

impl Symbology {
    /// The symbology of this identifier.
    pub fn named(identifier: &[u8]) -> Option<Symbology>
        ensures { result ≡ symbology_named identifier.now }
    {
        match identifier {
            b"]E0" => Some(Symbology::EanUpc),
            b"]E4" => Some(Symbology::Ean8),
            b"]I1" => Some(Symbology::Itf14),
            b"]C1" => Some(Symbology::Gs1128),
            b"]e0" => Some(Symbology::DataBar),
            b"]d2" => Some(Symbology::DataMatrix),
            b"]Q3" => Some(Symbology::QrCode),
            b"]J1" => Some(Symbology::DotCode),
            b"]d1" => Some(Symbology::LinkDataMatrix),
            b"]Q1" => Some(Symbology::LinkQrCode),
            _ => None,
        }
    }

    /// Its identifier.
    pub fn identifier(self) -> &'static str
        ensures { result.now ≡ identifier_of self }
    {
        match self {
            Symbology::EanUpc => "]E0",
            Symbology::Ean8 => "]E4",
            Symbology::Itf14 => "]I1",
            Symbology::Gs1128 => "]C1",
            Symbology::DataBar => "]e0",
            Symbology::DataMatrix => "]d2",
            Symbology::QrCode => "]Q3",
            Symbology::DotCode => "]J1",
            Symbology::LinkDataMatrix => "]d1",
            Symbology::LinkQrCode => "]Q1",
        }
    }
}
