//! The calls that write the elements of an answer as a text that reads back as the same elements. They accept any
//! bytes as an answer; if its elements are not valid under the terms, they return the error.
ghost use Rattle.std.specs.Prelude.{◌≡◌, List, ℕ};
ghost use Rattle.answer_core.specs.Written.{link_text, scan_text, written_text};
ghost use Rattle.digits_core.specs.Buffers.{IsPut};
ghost use Rattle.gs1_c.specs.Lines.{IsLineUnder};
ghost use Rattle.message_core.specs.Symbologies.{symbology_named};

use crate::buffer::put_refused;
use crate::terms::terms_of;
use answer_core::Answer;
use digits_core::RefusalKind;

/// The text that a scanner sends for a symbol with these elements: the identifier, `]C1`, `]e0`, `]d2`, `]Q3` or
/// `]J1`, and the element string (GS1 General Specifications, section 5.1.3); or the error of the answer. Any other
/// identifier is error 40 (`Kind`).
#[unsafe(no_mangle)]
pub extern "C" fn gs1_c_scan_text(
    answer: &Answer,
    identifier: &[u8],
    year: u16,
    out: &mut [u8],
) -> usize
    ensures { (line : List ℕ) × IsLineUnder year (λ terms it. it ≡ written_text (scan_text terms (symbology_named identifier.now)) answer.now) line
        × IsPut line out.old out.new result }
{
    match terms_of(year) {
        Some(terms) => answer.put_scan(identifier, terms, out),
        None => put_refused(RefusalKind::Words, out),
    }
}

/// The Digital Link of these elements with a stem, such as `https://id.gs1.org`. The path has the first key and its
/// qualifiers, the query has the others (GS1 Digital Link: URI syntax, section 4). Or the error of the answer.
/// Without a key, or with a stem that no path may follow, it is error 40 (`Kind`).
#[unsafe(no_mangle)]
pub extern "C" fn gs1_c_link(answer: &Answer, stem: &[u8], year: u16, out: &mut [u8]) -> usize
    ensures { (line : List ℕ) × IsLineUnder year (λ terms it. it ≡ written_text (link_text terms stem.now) answer.now) line
        × IsPut line out.old out.new result }
{
    match terms_of(year) {
        Some(terms) => answer.put_link(stem, terms, out),
        None => put_refused(RefusalKind::Words, out),
    }
}
