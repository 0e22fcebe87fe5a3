//! The text of the values of a symbol.
ghost use Rattle.std.specs.Prelude.{◌≡◌, ◌↔◌, ◌+◌, ◌<◌, ◌≤◌, ◌∷◌, ℕ, List, true, false, IfErr, IfOk, IsTrue, OnOk, Err, Ok, length, slice_get, Some};
ghost use Rattle.arrayvec.specs.ArrayVec.{array_vec_len};
ghost use Rattle.code128_code.specs.inner.Steps.{all_said};
ghost use Rattle.code128_code.specs.Texts.{set_of, shifted_byte, symbol_text, text_from};

use crate::check::check_character;
use crate::code_set::CodeSet;
use crate::fault::Code128Fault;
use crate::meanings::{Meaning, byte_of_a, meaning_of};
use crate::special_values::{FNC1, START_A, START_B};
use crate::symbol_values::Values;
use element_core::Text;

/// The text of the data values so far.
#[derive(Drop)]
struct Reader {
    text: Text,
    set: CodeSet,
    /// Whether the value before the next one was a SHIFT.
    shifted: bool,
}

/// The byte of a value after a SHIFT in a code set.
fn byte_after_shift(set: CodeSet, value: u8) -> u8
    requires { value < 96 }
    ensures { result ≡ shifted_byte set value }
{
    match set {
        CodeSet::A => value + 32,
        CodeSet::B => byte_of_a(value),
        CodeSet::C => byte_of_a(value),
    }
}

/// Reads a value after a SHIFT.
fn take_shifted(reader: &mut Reader, value: u8) -> Result<(), Code128Fault>
    requires shifted { reader.old.shifted ≡ true }
    requires room { array_vec_len reader.old.text + 2 ≤ 192 }
    ensures ok { OnOk result ((rest : List ℕ)
        → all_said reader.new rest ≡ all_said reader.old (value ∷ rest)) }
    ensures len { array_vec_len reader.new.text ≤ array_vec_len reader.old.text + 2 }
    ensures err { IfErr result (λ f. (rest : List ℕ) → all_said reader.old (value ∷ rest) ≡ Err f) }
{
    if value >= 96 {
        return Err(Code128Fault::CodeSet);
    }
    reader.text.push(byte_after_shift(reader.set, value));
    reader.shifted = false;
    Ok(())
}

/// Reads a value.
fn take(reader: &mut Reader, value: u8) -> Result<(), Code128Fault>
    requires room { array_vec_len reader.old.text + 2 ≤ 192 }
    ensures ok { OnOk result ((rest : List ℕ)
        → all_said reader.new rest ≡ all_said reader.old (value ∷ rest)) }
    ensures len { array_vec_len reader.new.text ≤ array_vec_len reader.old.text + 2 }
    ensures err { IfErr result (λ f. (rest : List ℕ) → all_said reader.old (value ∷ rest) ≡ Err f) }
{
    if reader.shifted {
        return take_shifted(reader, value);
    }
    match meaning_of(reader.set, value) {
        Meaning::Byte(byte) => {
            reader.text.push(byte);
            Ok(())
        }
        Meaning::Digits(number) => {
            reader.text.push(b'0' + number / 10);
            reader.text.push(b'0' + number % 10);
            Ok(())
        }
        Meaning::Latch(set) => {
            reader.set = set;
            Ok(())
        }
        Meaning::Shift => {
            reader.shifted = true;
            Ok(())
        }
        Meaning::Function => Err(Code128Fault::FunctionCharacter),
    }
}

/// The text of values from a code set on.
fn text_from(set: CodeSet, values: &[u8]) -> Result<Text, Code128Fault>
    requires { length values.now ≤ 95 }
    ensures ok { IfOk result (λ text. text_from set values.now ≡ Ok text.items) }
    ensures err { IfErr result (λ f. text_from set values.now ≡ Err f) }
    ensures len { IfOk result (λ text. array_vec_len text ≤ 190) }
{
    let mut reader = Reader {
        text: Text::new(),
        set,
        shifted: false,
    };
    for value in values {
        take(&mut reader, *value)?;
    }
    if reader.shifted {
        return Err(Code128Fault::CodeSet);
    }
    Ok(reader.text)
}

/// The code set of a start character.
fn start_set(start: u8) -> CodeSet
    ensures { result ≡ set_of start }
{
    if start == START_A {
        CodeSet::A
    } else if start == START_B {
        CodeSet::B
    } else {
        CodeSet::C
    }
}

/// Whether the first value is FNC1.
fn is_gs1(values: &[u8]) -> bool
    ensures { IsTrue result ↔ (slice_get values.now 0 ≡ Some 102) }
{
    values.first() == Some(&FNC1)
}

/// The text of a GS1-128 symbol: that of the values after the first one, which is FNC1, at most 190 bytes. A later
/// FNC1 is a separator, byte 29 (GS1 General Specifications, section 5.4).
///
/// The error is `CheckCharacter` if the check character is wrong, then `NotGs1` if the first value is not FNC1, then
/// that of the first value without a meaning in its code set: `FunctionCharacter` for FNC2, FNC3, FNC4 and for a
/// value that is no data value, `CodeSet` for a SHIFT without a value 0 to 95 after it.
pub fn text_of(values: &Values) -> Result<Text, Code128Fault>
    ensures text { IfOk result (λ text.
        symbol_text values.now.start values.now.values.items values.now.check ≡ Ok text.items) }
    ensures fault { IfErr result (λ f.
        symbol_text values.now.start values.now.values.items values.now.check ≡ Err f) }
    ensures fits { IfOk result (λ text. array_vec_len text ≤ 190) }
{
    let data = values.values.as_slice();
    if check_character(values.start, data) != values.check {
        return Err(Code128Fault::CheckCharacter);
    }
    if !is_gs1(data) {
        return Err(Code128Fault::NotGs1);
    }
    text_from(start_set(values.start), &data[1..])
}
