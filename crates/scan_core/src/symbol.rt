//! Which symbol modules are, and its content.
ghost use Rattle.std.specs.Prelude.{◌≡◌, List, Some, false, true, ℕ};
ghost use Rattle.ean_code.specs.Spelling.{IsSpelled};
ghost use Rattle.ean_code.specs.Symbols.{IsNumberSymbol};
ghost use Rattle.ean_code.specs.Widths.{AreModules};
ghost use Rattle.ean_code.specs.declared.kind.Kind.{Kind};
ghost use Rattle.scan_core.specs.Reading.{IsSymbolAs, ReadSymbol};
ghost use Rattle.scan_core.specs.inner.Reading.{found_of};
ghost use Rattle.scan_core.specs.Showing.{IsSymbol, Way, along, kind_of};

use crate::carrier::Carrier;
use crate::fault::RowFault;
use crate::found::Found;
use code128_code::values_of;
use ean_code::Spelled;

/// Writes the symbol of EAN, UPC or ITF-14 that was read, if there was one. Returns whether there was.
fn put_number(carrier: Carrier, spelled: Spelled, found: &mut Found) -> bool
    ensures found { (kind : Kind) (modules : List ℕ) → IsSpelled kind modules spelled → result ≡ true
        → (symbol : ReadSymbol) × IsSymbolAs (Some kind) modules symbol × (found.new ≡ found_of carrier symbol) }
    ensures none { (kind : Kind) (modules : List ℕ) → IsSpelled kind modules spelled → result ≡ false
        → ((digits : List ℕ) × IsNumberSymbol kind modules digits) → ⊥ }
{
    match spelled {
        Spelled::NoPattern => return false,
        Spelled::BadCheck => *found = Found::Refused(RowFault::SymbolCheckDigit),
        Spelled::Found(gtin) => *found = Found::Number(carrier, gtin),
    }
    true
}

/// Writes the symbol of the carrier that the modules are, read from the left. Returns whether they are one.
fn read_symbol(carrier: Carrier, modules: &[u8], found: &mut Found) -> bool
    requires { AreModules modules.now }
    ensures found { result ≡ true → (symbol : ReadSymbol) × IsSymbolAs (kind_of carrier) modules.now symbol
        × (found.new ≡ found_of carrier symbol) }
    ensures none { result ≡ false → IsSymbol (kind_of carrier) modules.now → ⊥ }
{
    match carrier.kind() {
        Some(kind) => put_number(carrier, kind.read_widths(modules), found),
        None => match values_of(modules) {
            Some(values) => {
                *found = Found::Characters(carrier, values);
                true
            }
            None => false,
        },
    }
}

/// Writes the symbol of the carrier that the modules are, read from the left or else from the right. Returns whether
/// they are one. If they are none from the left, it reverses them.
pub(crate) fn read_some_way(carrier: Carrier, modules: &mut [u8], found: &mut Found) -> bool
    requires { AreModules modules.old }
    ensures found { result ≡ true → (way : Way) × (symbol : ReadSymbol)
        × IsSymbolAs (kind_of carrier) (along way modules.old) symbol × (found.new ≡ found_of carrier symbol) }
    ensures none { result ≡ false → (way : Way) → IsSymbol (kind_of carrier) (along way modules.old) → ⊥ }
{
    if read_symbol(carrier, modules, found) {
        return true;
    }
    modules.reverse();
    read_symbol(carrier, modules, found)
}
