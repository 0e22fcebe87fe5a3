//! The lines of answers to rows and to element strings.
ghost use Rattle.std.specs.Prelude.{◌≤◌, List, ℕ, length};
ghost use Rattle.digits_core.specs.Buffers.{IsPut};
ghost use Rattle.gs1_c.specs.Lines.{IsDotsLine, IsRowLine, IsTextLine};
ghost use Rattle.gs1_c.specs.inner.Lines.{IsFoundLine};

use crate::buffer::{put_line, put_refusal, put_refused};
use crate::terms::terms_of;
use crate::value::{gs1_c_read_dots, gs1_c_read_elements};
use answer_core::Answer;
use digits_core::RefusalKind;
use element_core::{Form, Year};
use scan_core::{Found, RunFault, find_widths};

/// Puts the line of what was found in a row, with its elements in a form, or why there is no row. It writes the line
/// without an `Answer`, since filling one takes more time.
fn put_found(found: &Result<Found, RunFault>, terms: Year, form: Form, out: &mut [u8]) -> usize
    ensures { (line : List ℕ) × IsFoundLine form terms found.now line × IsPut line out.old out.new result }
{
    match found {
        Ok(found) => put_line(&found.line(terms, form), out),
        Err(fault) => put_refusal(fault.refusal(), out),
    }
}

/// Puts the line of a row, given as widths, with its elements in a form.
pub fn put_row(widths: &[u16], year: u16, form: Form, out: &mut [u8]) -> usize
    ensures { (line : List ℕ) × IsRowLine form year widths.now line × IsPut line out.old out.new result }
{
    let Some(terms) = terms_of(year) else {
        return put_refused(RefusalKind::Words, out);
    };
    put_found(&find_widths(widths), terms, form, out)
}

/// The same for a row of packed dots.
pub fn put_dots(bits: &[u8], count: u32, year: u16, form: Form, out: &mut [u8]) -> usize
    ensures { (line : List ℕ) × IsDotsLine form year bits.now count line × IsPut line out.old out.new result }
{
    let mut answer = Answer::new();
    gs1_c_read_dots(bits, count, year, &mut answer);
    answer.put_line(form, out)
}

/// The same for an element string, with a word in front.
pub fn put_text(word: &[u8], text: &[u8], year: u16, form: Form, out: &mut [u8]) -> usize
    requires { length word.now ≤ 4 }
    ensures { (line : List ℕ) × IsTextLine word.now form year text.now line × IsPut line out.old out.new result }
{
    let mut answer = Answer::new();
    gs1_c_read_elements(text, year, &mut answer);
    answer.put_worded(word, form, out)
}
