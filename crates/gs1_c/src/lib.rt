//! The functions of the library for C and for all that call C. Each writes its answer, a line of ASCII bytes, into
//! the caller's buffer, and takes no memory.
//!
//! Each function returns how many bytes its line has. If `out` has room for all of them, they are at its front;
//! otherwise `out` is unchanged, and the number is the buffer size required. An error is a line too: `refused`, a
//! number, a name and, if it has one, a place.
//!
//! A `year` is the reference year of dates, 1951 to 2149. If its highest bit is set, the function reads every
//! Application Identifier, otherwise those of the profile. Any other number is `refused 42 Words`.
#![tactic(auto)]

ghost use Rattle.std.specs.Prelude.{◌≡◌, [], IsTrue, List, ℕ, codes, length, not};
ghost use Rattle.answer_core.specs.Units.{unit_of};
ghost use Rattle.digits_core.specs.Buffers.{IsPut};
ghost use Rattle.element_core.specs.Lines.{IsDigitLine, gtin_line};
ghost use Rattle.gs1_c.specs.Dates.{IsDateLine};
ghost use Rattle.gs1_c.specs.Found.{AreDotSymbolsPut, AreSymbolsPut};
ghost use Rattle.gs1_c.specs.Labels.{IsLabelBytes, one_cell};
ghost use Rattle.gs1_c.specs.Lines.{IsDotsLine, IsRowLine, IsTextLine};
ghost use Rattle.gs1_c.specs.Pictures.{ArePictureLinesPut, room_count};
ghost use Rattle.gs1_c.specs.Scanned.{IsScanLine};
ghost use Rattle.gs1_c.specs.Shown.{IsFirstElement, ShownAgain, line_elements};
ghost use Rattle.gs1_c.specs.Status.{IsStatus};
ghost use Rattle.gs1_c.specs.Symbols.{IsSymbolLineBy};
ghost use Rattle.gs1_c.specs.Titles.{title_of};

mod answer;
mod batch;
mod buffer;
mod dates;
mod drawing;
mod found;
mod label;
mod line;
mod next;
mod picture;
mod status;
mod symbol;
mod terms;
#[cfg(test)]
mod tests;
mod titles;
mod value;
mod writing;

use answer::{put_dots, put_row, put_text};
use answer_core::{Answer, put, unit_of};
use buffer::{put_line, put_refusal, put_refused};
use dates::put_date;
use digits_core::RefusalKind;
use element_core::{Form, digit_line, gtin_line};
use found::{put_dot_symbols, put_symbols};
use label::{kind_numbered, put_image};
use next::{ElementPlace, first_element};
use picture::{given_level, put_picture};
use picture_core::{Reading, words_for};
use sheet_core::Grid;
use status::status_of;
use symbol::put_symbol;
use terms::terms_of;
use titles::title_of;
use value::gs1_c_read_message;

/// The GTIN of 8, 12, 13 or 14 digits (GS1 General Specifications, section 7.9) with all 14 digits, as
/// `gtin 09501101530003`; or its error.
#[unsafe(no_mangle)]
pub extern "C" fn gs1_c_gtin(text: &[u8], out: &mut [u8]) -> usize
    ensures { IsPut (gtin_line text.now) out.old out.new result }
{
    put_line(&gtin_line(text), out)
}

/// The check digit of 1 to 17 digits that lack it (GS1 General Specifications, section 7.9), as `digit 3`; or their
/// error.
#[unsafe(no_mangle)]
pub extern "C" fn gs1_c_digit(text: &[u8], out: &mut [u8]) -> usize
    ensures { (line : List ℕ) × IsDigitLine text.now line × IsPut line out.old out.new result }
{
    put_line(&digit_line(text), out)
}

/// The elements of an element string, in which byte 29 is the separator (GS1 General Specifications, section 7.8), as
/// `hri (10)AB(17)261231`; or its first error. Dates follow the reference year, 1951 to 2149; any other year is
/// `refused 42 Words`.
#[unsafe(no_mangle)]
pub extern "C" fn gs1_c_text(text: &[u8], year: u16, out: &mut [u8]) -> usize
    ensures { (line : List ℕ) × IsTextLine (codes "hri") Form.HumanReadable year text.now line × IsPut line out.old out.new result }
{
    put_text(b"hri", text, year, Form::HumanReadable, out)
}

/// Reads a row, given as the widths of its runs in dots. Light and dark alternate; the first and the last run are
/// light. The line has the symbology identifier and the elements of the row's symbol, as `]E0 (01)09501101530003`; or
/// the reason why the row is refused. Dates follow the reference year, 1951 to 2149; any other year is
/// `refused 42 Words`.
#[unsafe(no_mangle)]
pub extern "C" fn gs1_c_row(widths: &[u16], year: u16, out: &mut [u8]) -> usize
    ensures { (line : List ℕ) × IsRowLine Form.HumanReadable year widths.now line × IsPut line out.old out.new result }
{
    put_row(widths, year, Form::HumanReadable, out)
}

/// Reads a row, as `gs1_c_row`, with the elements as data: for each its AI, `=` and its value, separated by tabs, as
/// `]E0 01=09501101530003`. Different lists of elements have different lines.
#[unsafe(no_mangle)]
pub extern "C" fn gs1_c_row_elements(widths: &[u16], year: u16, out: &mut [u8]) -> usize
    ensures { (line : List ℕ) × IsRowLine Form.Pairs year widths.now line × IsPut line out.old out.new result }
{
    put_row(widths, year, Form::Pairs, out)
}

/// The elements of an element string, as `gs1_c_text`, as data: for each its AI, `=` and its value, separated by
/// tabs, as `data 10=AB<TAB>17=261231`. Different lists of elements have different lines.
#[unsafe(no_mangle)]
pub extern "C" fn gs1_c_text_elements(text: &[u8], year: u16, out: &mut [u8]) -> usize
    ensures { (line : List ℕ) × IsTextLine (codes "data") Form.Pairs year text.now line × IsPut line out.old out.new result }
{
    put_text(b"data", text, year, Form::Pairs, out)
}

/// The day and the time of an element (GS1 General Specifications, section 7.12). The element is its AI, `=` and its
/// value, as `gs1_c_row_elements` writes it. The line is `date 2026-12-31` for `17=261231`,
/// `date 2026-12-31 23:59:00` for `7003=2612312359`, and `none` for an AI that has no date. Day 00 is the last day of
/// its month. If the text is no element, the line is its first error, at place 0. Any year except 1951 to 2149 is
/// `refused 42 Words`.
#[unsafe(no_mangle)]
pub extern "C" fn gs1_c_date(text: &[u8], year: u16, out: &mut [u8]) -> usize
    ensures { (line : List ℕ) × IsDateLine year text.now line × IsPut line out.old out.new result }
{
    let Some(terms) = terms_of(year) else {
        return put_refused(RefusalKind::Words, out);
    };
    put_date(text, terms, out)
}

/// Reads the text that a scanner sends: a symbology identifier (ISO/IEC 15424), and behind it
/// - the digits of a GTIN: `]E0` 12 or 13, or the 8 of a UPC-E; `]E4` 8; `]I1` 14;
/// - an element string in which byte 29 or `^` is the separator: `]C1`, `]e0`, `]d2`, `]Q3`, `]J1`;
/// - a GS1 Digital Link: `]Q1`, `]d1`.
///
/// Without an identifier it is an element string if it begins with a separator, a GTIN if it begins with eight
/// digits, and a Digital Link if it begins with `http://` or `https://`. Any other text is `refused 40 Kind`. Before
/// that, a year that is no reference year is `refused 42 Words`.
///
/// The line has the identifier, or `-`, and the elements as data, as `]C1 10=AB<TAB>17=261231`; or the error. The
/// place of an error is an offset behind the identifier and a separator there; in a Digital Link it is the index of
/// the element. Blanks, tabs and line ends at the end are ignored.
#[unsafe(no_mangle)]
pub extern "C" fn gs1_c_scan(text: &[u8], year: u16, out: &mut [u8]) -> usize
    ensures { (line : List ℕ) × IsScanLine year text.now line × IsPut line out.old out.new result }
{
    let mut answer = Answer::new();
    gs1_c_read_message(text, year, &mut answer);
    answer.put_line(Form::Pairs, out)
}

/// Finds every symbol of a row, given as `gs1_c_row` takes it. A symbol is a window of the row's runs that begins and
/// ends with a light run and is read as a row. There is a line for each, from left to right, with the index of its
/// first run, the number of its runs and what `gs1_c_row` answers for them, as `0 61 ]E0 (01)09501101530003`. Each
/// line ends with a line feed. A row without a symbol has no line.
///
/// The return value is the size of all lines. Those that `out` has room for are at its front, from the left, each
/// whole or not at all; the bytes behind them are unchanged.
#[unsafe(no_mangle)]
pub extern "C" fn gs1_c_find(widths: &[u16], year: u16, out: &mut [u8]) -> usize
    ensures { AreSymbolsPut year widths.now out.old out.new result }
{
    let Some(terms) = terms_of(year) else {
        return put_refused(RefusalKind::Words, out);
    };
    put_symbols(widths, terms, out)
}

/// Reads a row of `count` packed dots, as `gs1_c_row` reads its widths. The first dot of a byte is its high bit, and
/// 1 is dark, as in PBM. Bits behind the last dot are ignored. More dots than `bits` has are `refused 18 BadRuns`,
/// and more than 65,535 `refused 17 TooWide`.
#[unsafe(no_mangle)]
pub extern "C" fn gs1_c_dots(bits: &[u8], count: u32, year: u16, out: &mut [u8]) -> usize
    ensures { (line : List ℕ) × IsDotsLine Form.HumanReadable year bits.now count line × IsPut line out.old out.new result }
{
    put_dots(bits, count, year, Form::HumanReadable, out)
}

/// Reads a row of packed dots, as `gs1_c_dots`, with the elements as data, as in `gs1_c_row_elements`.
#[unsafe(no_mangle)]
pub extern "C" fn gs1_c_dots_elements(bits: &[u8], count: u32, year: u16, out: &mut [u8]) -> usize
    ensures { (line : List ℕ) × IsDotsLine Form.Pairs year bits.now count line × IsPut line out.old out.new result }
{
    put_dots(bits, count, year, Form::Pairs, out)
}

/// Finds every symbol of a row of `count` packed dots, given as `gs1_c_dots` takes them. The lines are those of
/// `gs1_c_find` for the row's widths. More dots than `bits` has are `refused 18 BadRuns`, and more than 65,535
/// `refused 17 TooWide`.
///
/// The return value is the size of all lines, as for `gs1_c_find`.
#[unsafe(no_mangle)]
pub extern "C" fn gs1_c_find_dots(bits: &[u8], count: u32, year: u16, out: &mut [u8]) -> usize
    ensures { AreDotSymbolsPut year bits.now count out.old out.new result }
{
    let Some(terms) = terms_of(year) else {
        return put_refused(RefusalKind::Words, out);
    };
    put_dot_symbols(bits, count, terms, out)
}

/// How many words `gs1_c_picture` needs to read a picture of this size: 6 for each dot of the width and of the
/// height, and 4 for each block. A block has 8 by 8 dots in small pictures and 32 by 32 in large ones. 0 if a side
/// has more than 65,535 dots.
#[unsafe(no_mangle)]
pub extern "C" fn gs1_c_picture_room(width: u32, height: u32) -> usize
    ensures { result ≡ room_count width height }
{
    if width > 65535 || height > 65535 {
        return 0;
    }
    words_for(width as u16, height as u16)
}

/// Finds the symbols of a picture, given as grey values, 0 black, in `height` rows of `width` dots. Each row begins
/// `stride` values behind the one above. Dots below the level are dark. With level 0 it chooses the level itself and
/// looks for symbols at any angle.
///
/// The line of a symbol has the x and the y of its four corners, clockwise from the upper left, in 1/256 dot from the
/// upper left of the picture; then how many rows show it, and what `gs1_c_row_elements` answers for these, as
/// `38400 20480 111360 20480 111360 51200 38400 51200 120 ]E0 01=09501101530003`. Each line ends with a line feed.
/// The lines are in reading order. If there was no room for more symbols, a line such as `dropped 3` has the least
/// number that was left out.
///
/// If the picture shows no symbol, the line is `none`, or the refusal of the row that came furthest, as
/// `refused 21 QuietZone`. A side of more than 65,535 dots is `refused 17 TooWide`. A stride below the width, or
/// fewer values than the rows have, is `refused 18 BadRuns`. Fewer words than `gs1_c_picture_room` returns, or fewer
/// than `width + 2` widths, are `refused 43 NoMemory`.
///
/// The return value is the size of all lines, as for `gs1_c_find`. The words and the widths are working memory; their
/// content does not matter.
#[unsafe(no_mangle)]
pub extern "C" fn gs1_c_picture(
    grey: &[u8],
    width: u32,
    height: u32,
    stride: usize,
    level: u8,
    year: u16,
    words: &mut [u32],
    widths: &mut [u16],
    out: &mut [u8],
) -> usize
    ensures { ArePictureLinesPut (record { values = grey.now; width = width; height = height; stride = stride }) level year
        (length words.old) (length widths.old) out.old out.new result }
{
    let Some(terms) = terms_of(year) else {
        return put_refused(RefusalKind::Words, out);
    };
    let reading = Reading {
        year: terms,
        level: given_level(level),
    };
    put_picture(grey, width, height, stride, reading, words, widths, out)
}

/// The image of a label as PBM (netpbm, pbm(5)), of `width` by `height` dots, with modules of `module_dots` dots; or
/// why it cannot be printed. The kinds for a GTIN are 0 EAN-13, 1 UPC-A, 2 EAN-8, 3 UPC-E and 5 ITF-14; the kind for
/// an element string is 4 GS1-128.
///
/// A module has 1 to 8 dots. The width is 1 to 4,096. The height is more than two modules and at most 1,024.
/// Otherwise the answer is `refused 25 BadGrid`. The symbol begins after its nominal left quiet zone. Its bars fill
/// all rows except one module's height at the top and at the bottom.
#[unsafe(no_mangle)]
pub extern "C" fn gs1_c_label(
    kind: u32,
    text: &[u8],
    year: u16,
    module_dots: u16,
    width: u16,
    height: u16,
    out: &mut [u8],
) -> usize
    ensures { (bytes : List ℕ) × IsLabelBytes kind year text.now (one_cell module_dots width height) bytes
        × IsPut bytes out.old out.new result }
{
    let Some(kind) = kind_numbered(kind) else {
        return put_refused(RefusalKind::Kind, out);
    };
    let Some(terms) = terms_of(year) else {
        return put_refused(RefusalKind::Words, out);
    };
    match Grid::new(module_dots, width, height, 1, 1) {
        Ok(grid) => put_image(kind, text, terms, grid, out),
        Err(fault) => put_refusal(fault.refusal(), out),
    }
}

/// The symbol of a label in modules, for programs that draw it. The line has `symbol`, the text under the bars, the
/// nominal quiet zones on the left and on the right, and a digit for the width of each run, a bar first and last, as
/// `symbol 96385074 7 7 1111412...`; or why there is none. The kinds are those of `gs1_c_label`.
///
/// The text under the bars has the digits of the number as its kind writes them, all eight for a UPC-E. For an
/// element string it has the elements with each AI in parentheses (GS1 General Specifications, sections 4.14 and 5.2
/// to 5.4).
#[unsafe(no_mangle)]
pub extern "C" fn gs1_c_symbol(kind: u32, text: &[u8], year: u16, out: &mut [u8]) -> usize
    ensures { (line : List ℕ) × IsSymbolLineBy kind year text.now line × IsPut line out.old out.new result }
{
    match (kind_numbered(kind), terms_of(year)) {
        (None, _) => put_refused(RefusalKind::Kind, out),
        (_, None) => put_refused(RefusalKind::Words, out),
        (Some(kind), Some(terms)) => put_symbol(kind, text, terms, out),
    }
}

/// The number of the error in a line, as 2 for `refused 2 NotDigit 12`; 0 for a line that does not begin with
/// `refused` and a space.
#[unsafe(no_mangle)]
pub extern "C" fn gs1_c_status(line: &[u8]) -> u32
    ensures { IsStatus line.now result }
{
    status_of(line)
}

/// Finds the first element in a line of elements as data, and returns whether there is one. It is the first word with
/// an `=`; words end at spaces, tabs and line feeds. The further elements are behind the `end` of the place. If there
/// is none, the place is unchanged.
#[unsafe(no_mangle)]
pub extern "C" fn gs1_c_next(line: &[u8], place: &mut ElementPlace) -> bool
    ensures some { IsTrue result → IsFirstElement line.now place.new }
    ensures none { IsTrue (not result) → line_elements line.now ≡ [] }
    ensures unchanged { IsTrue (not result) → place.new ≡ place.old }

    // What is put as pairs behind a word without `=` is found again.
    ensures again { ShownAgain }
{
    match first_element(line) {
        Some(found) => {
            *place = found;
            true
        }
        None => false,
    }
}

/// The data title of an AI, in UTF-8 (GS1 General Specifications, section 3.2), as `BATCH/LOT` for `10`. It has no
/// bytes if there is no such AI, or if the AI has no title.
#[unsafe(no_mangle)]
pub extern "C" fn gs1_c_title(ai: &[u8], out: &mut [u8]) -> usize
    ensures { IsPut (title_of ai.now) out.old out.new result }
{
    put(title_of(ai), out)
}

/// The unit of the numbers of an AI, in UTF-8 (GS1 General Specifications, section 3.6), as `kg` for `3103`. It has no
/// bytes if they have none.
#[unsafe(no_mangle)]
pub extern "C" fn gs1_c_unit(ai: &[u8], out: &mut [u8]) -> usize
    ensures { IsPut (unit_of ai.now) out.old out.new result }
{
    put(unit_of(ai), out)
}
