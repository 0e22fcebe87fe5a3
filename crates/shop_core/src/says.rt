//! The content of a symbol.
ghost use Rattle.std.specs.Prelude.{◌≡◌, ◌↔◌, IsTrue};
ghost use Rattle.shop_core.specs.Drawings.{IsOf};

use element_core::{Elements, Year, one_list_or_fault};
use scan_core::Window;
use sheet_core::{Content, Label};

/// Whether both are the same elements with the same year.
fn are_same(one: &Elements, other: &Elements) -> bool
    ensures { IsTrue result ↔ (one.now ≡ other.now) }
{
    one_list_or_fault();
    if one.year() != other.year() {
        return false;
    }
    one.text().as_slice() == other.text().as_slice()
}

/// Whether a symbol of a row is a label's.
pub(crate) fn is_of(label: &Label, year: Year, window: &Window) -> bool
    ensures { IsTrue result ↔ IsOf label.now year window.now }
{
    if label.carrier() != window.carrier {
        return false;
    }
    match label.content() {
        Content::Gtin(gtin) => are_same(&Elements::of_gtin(gtin, year), &window.elements),
        Content::Elements(elements) => are_same(elements, &window.elements),
    }
}
