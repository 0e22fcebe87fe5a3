//! Draws the GS1-128 symbol of a list of elements.
ghost use Rattle.std.specs.Prelude.{◌≡◌, ◌↔◌, ◌<◌, ◌≤◌, ◌∷◌, IfOk, IsErr, length};
ghost use Rattle.element_core.specs.Elements.{canonical};
ghost use Rattle.code128_code.specs.Coding.{data_values};
ghost use Rattle.code128_code.specs.Symbols.{AreValues, IsCode128Symbol, mod103};
ghost use Rattle.code128_code.specs.Texts.{IsGs1Symbol};

use crate::check::check_character;
use crate::coding::values_of;
use crate::fault::TooManyCharacters;
use crate::patterns::{push_character, push_characters, push_stop};
use crate::special_values::START_C;
use arrayvec::ArrayVec;
use ean_code::Modules;
use element_core::Elements;

/// The symbol of a start character, data values and a check character.
fn symbol(start: u8, values: &[u8], check: u8) -> Modules
    requires start_least { 103 ≤ start }
    requires start_greatest { start ≤ 105 }
    requires some { 1 ≤ length values.now }
    requires few { length values.now ≤ 96 }
    requires valid { AreValues values.now }
    requires check_valid { check ≤ 102 }
    ensures { IsCode128Symbol start values.now check result }
{
    let mut widths = ArrayVec::new();
    push_character(&mut widths, start);
    push_characters(&mut widths, values);
    push_character(&mut widths, check);
    push_stop(&mut widths);
    Modules::of(widths.as_slice()).unwrap()
}

/// The GS1-128 symbol of elements (GS1 General Specifications, section 5.4): start character C, FNC1, the canonical
/// text in code sets C and B, and the check character. The rule for code sets is fixed; the symbol is not always the
/// shortest.
///
/// The error is `TooManyCharacters`, exactly if the canonical text has more than 48 bytes.
pub fn encode(elements: &Elements) -> Result<Modules, TooManyCharacters>
    ensures drawn { IfOk result (λ m. let values = data_values (canonical elements.now.list)
        in IsCode128Symbol 105 values (mod103 105 values) m) }
    ensures says { IfOk result (λ m. IsGs1Symbol m (canonical elements.now.list)) }
    ensures refused { IsErr result ↔ (48 < length (canonical elements.now.list)) }
{
    let text = elements.text();
    if text.len() > 48 {
        return Err(TooManyCharacters);
    }
    let values = values_of(text.as_slice());
    let check = check_character(START_C, values.as_slice());
    Ok(symbol(START_C, values.as_slice(), check))
}
