//! The calls that fill an answer of the caller's (`struct gs1_answer` of gs1.h), and the one that writes its line.
//! The former return the number of the error, or 0.
//!
//! A year that is no reference year is error 42 (`Words`). They write nothing behind the text and the elements of an
//! answer.
ghost use Rattle.std.specs.Prelude.{◌≡◌, ◌++◌, drop, length, map, min, take};
ghost use Rattle.answer_core.specs.Composed.{IsComposedAnswer, entry_given};
ghost use Rattle.answer_core.specs.Conflicts.{conflicts};
ghost use Rattle.answer_core.specs.Formats.{entries_in};
ghost use Rattle.answer_core.specs.GtinForms.{gtin_in, short_gtin};
ghost use Rattle.answer_core.specs.GtinUses.{gtin_use};
ghost use Rattle.answer_core.specs.Reads.{IsDataAnswer, IsGtinAnswer, IsMessageAnswer, IsStringAnswer};
ghost use Rattle.answer_core.specs.Rows.{IsDotsAnswer, IsWidthsAnswer};
ghost use Rattle.answer_core.specs.Texts.{IsTextAnswer};
ghost use Rattle.digits_core.specs.Buffers.{IsPut};
ghost use Rattle.gs1_c.specs.Values.{IsAnsweredBy, form_numbered, use_number, line_by};

use crate::buffer::put_refused;
use crate::terms::terms_of;
use answer_core::{Answer, Conflict, Given};
use digits_core::RefusalKind;
use element_core::Form;

/// Reads a text of a scanner, as `gs1_c_scan`. For `]E0` the kind of symbol is a guess: a scanner may send a UPC-E as
/// the 12 digits of a UPC-A.
#[unsafe(no_mangle)]
pub extern "C" fn gs1_c_read_message(text: &[u8], year: u16, answer: &mut Answer) -> u32
    ensures told { IsAnsweredBy year (λ terms a. IsMessageAnswer terms text.now a) answer.new }
    ensures fault { result ≡ answer.new.fault }
{
    match terms_of(year) {
        Some(terms) => answer.read_message(text, terms),
        None => answer.refuse_terms(),
    }
    u32::from(answer.fault)
}

/// Reads an element string, in which byte 29 is the separator.
#[unsafe(no_mangle)]
pub extern "C" fn gs1_c_read_elements(text: &[u8], year: u16, answer: &mut Answer) -> u32
    ensures told { IsAnsweredBy year (λ terms a. IsStringAnswer terms text.now a) answer.new }
    ensures fault { result ≡ answer.new.fault }
{
    match terms_of(year) {
        Some(terms) => answer.read_elements(text, terms),
        None => answer.refuse_terms(),
    }
    u32::from(answer.fault)
}

/// Reads the GTIN of 8, 12, 13 or 14 digits, as the element of AI 01.
#[unsafe(no_mangle)]
pub extern "C" fn gs1_c_read_gtin(digits: &[u8], year: u16, answer: &mut Answer) -> u32
    ensures told { IsAnsweredBy year (λ terms a. IsGtinAnswer terms digits.now a) answer.new }
    ensures fault { result ≡ answer.new.fault }
{
    match terms_of(year) {
        Some(terms) => answer.read_gtin(digits, terms),
        None => answer.refuse_terms(),
    }
    u32::from(answer.fault)
}

/// Reads a text as people type, print and paste it, in UTF-8: a printed element string with each AI in parentheses or
/// brackets, the text of a scanner, an element string with a separator, or a number with blanks and hyphens.
#[unsafe(no_mangle)]
pub extern "C" fn gs1_c_read_text(text: &[u8], year: u16, answer: &mut Answer) -> u32
    ensures told { IsAnsweredBy year (λ terms a. IsTextAnswer terms text.now a) answer.new }
    ensures fault { result ≡ answer.new.fault }
{
    match terms_of(year) {
        Some(terms) => answer.read_text(text, terms),
        None => answer.refuse_terms(),
    }
    u32::from(answer.fault)
}

/// Reads a row, given as the widths of its runs in dots, light first and last. The kind of symbol is known exactly.
#[unsafe(no_mangle)]
pub extern "C" fn gs1_c_read_row(widths: &[u16], year: u16, answer: &mut Answer) -> u32
    ensures told { IsAnsweredBy year (λ terms a. IsWidthsAnswer terms widths.now a) answer.new }
    ensures fault { result ≡ answer.new.fault }
{
    match terms_of(year) {
        Some(terms) => answer.read_widths(widths, terms),
        None => answer.refuse_terms(),
    }
    u32::from(answer.fault)
}

/// Reads a row of `count` packed dots, as `gs1_c_dots` takes them.
#[unsafe(no_mangle)]
pub extern "C" fn gs1_c_read_dots(bits: &[u8], count: u32, year: u16, answer: &mut Answer) -> u32
    ensures told { IsAnsweredBy year (λ terms a. IsDotsAnswer terms bits.now count a) answer.new }
    ensures fault { result ≡ answer.new.fault }
{
    match terms_of(year) {
        Some(terms) => answer.read_dots(bits, count, terms),
        None => answer.refuse_terms(),
    }
    u32::from(answer.fault)
}

/// Answers elements that are given: each an AI and a value. The place of an error is the index of its element.
#[unsafe(no_mangle)]
pub extern "C" fn gs1_c_compose(elements: &[Given], year: u16, answer: &mut Answer) -> u32
    ensures told { IsAnsweredBy year (λ terms a. IsComposedAnswer terms (map entry_given elements.now) a) answer.new }
    ensures fault { result ≡ answer.new.fault }
{
    match terms_of(year) {
        Some(terms) => answer.compose(elements, terms),
        None => answer.refuse_terms(),
    }
    u32::from(answer.fault)
}

/// The number of what an answer's GTIN identifies, by `GtinUse`; 0 if it has no GTIN. It accepts any bytes as an
/// answer.
#[unsafe(no_mangle)]
pub extern "C" fn gs1_c_use_of_gtin(answer: &Answer) -> u32
    ensures { result ≡ use_number (gtin_use (gtin_in answer.now)) }
{
    match answer.gtin_use() {
        Some(found) => u32::from(found.number()),
        None => 0,
    }
}

/// An answer's GTIN as 8, 12, 13 or 14 digits; no bytes if it has none, or one that needs more digits. It accepts any
/// bytes as an answer.
#[unsafe(no_mangle)]
pub extern "C" fn gs1_c_gtin_as(answer: &Answer, digits: u32, out: &mut [u8]) -> usize
    ensures { IsPut (short_gtin digits (gtin_in answer.now)) out.old out.new result }
{
    answer.put_gtin(digits, out)
}

/// Reads the answer back from its line, with the elements as data, as `gs1_c_format` writes it. Any other text is
/// error 40 (`Kind`).
#[unsafe(no_mangle)]
pub extern "C" fn gs1_c_read_data(line: &[u8], year: u16, answer: &mut Answer) -> u32
    ensures told { IsAnsweredBy year (λ terms a. IsDataAnswer terms line.now a) answer.new }
    ensures fault { result ≡ answer.new.fault }
{
    match terms_of(year) {
        Some(terms) => answer.read_data(line, terms),
        None => answer.refuse_terms(),
    }
    u32::from(answer.fault)
}

/// The form that a number means: 0, the elements as data; 1, as people read them.
fn form_numbered(number: u32) -> Option<Form>
    ensures { result ≡ form_numbered number }
{
    match number {
        0 => Some(Form::Pairs),
        1 => Some(Form::HumanReadable),
        _ => None,
    }
}

/// The line of an answer: its identifier, or `-`, and its elements in a form; or its error. It accepts any bytes as
/// an answer. A number that is no form is error 40 (`Kind`).
#[unsafe(no_mangle)]
pub extern "C" fn gs1_c_format(answer: &Answer, form: u32, out: &mut [u8]) -> usize
    ensures { IsPut (line_by (form_numbered form) answer.now) out.old out.new result }
{
    match form_numbered(form) {
        Some(form) => answer.put_line(form, out),
        None => put_refused(RefusalKind::Kind, out),
    }
}

/// Writes the conflicts of an answer's elements, in the order of the elements, as many as there is room for, and
/// returns how many it wrote. A conflict is an element that needs another one, excludes one that is there, or differs
/// from an earlier one of the same AI; or a code that is in no list (GS1 General Specifications, section 4.13). It
/// accepts any bytes as an answer.
#[unsafe(no_mangle)]
pub extern "C" fn gs1_c_conflicts(answer: &Answer, out: &mut [Conflict]) -> usize
    ensures count { result ≡ min (length (conflicts (entries_in answer.now))) (length out.old) }
    ensures front { out.new ≡ take (length out.old) (conflicts (entries_in answer.now)) ++ drop (length (conflicts (entries_in answer.now))) out.old }
{
    answer.conflicts(out)
}
