//! The lines of the symbols of a picture.
ghost use Rattle.std.specs.Prelude.{true, false, None, Some, ◌≡◌, ◌+◌, ◌*◌, ◌++◌, ◌<◌, ◌≤◌, ◌^◌, ◌∷◌, [], ℕ, IfErr, IfOk, OnOk, length, map};
ghost use Rattle.digits_core.specs.Buffers.{pasted, IsPut};
ghost use Rattle.picture_core.specs.Pictures.{IsPicture};
ghost use Rattle.gs1_c.specs.Found.{ArePut};
ghost use Rattle.gs1_c.specs.Pictures.{AreReadLinesPut, AreShownPut, IsPictureFault, dropped_line, given_level, numbers_text, placed_line, placed_line_in, placed_numbers, reason_text};

use crate::buffer::put_refusal;
use crate::line::{push, push_number, put_fitting};
use answer_core::put;
use arrayvec::ArrayVec;
use itoa::Buffer;
use picture_core::{Picture, Reading, Refused, Room, SeenSymbol, Shown, read_picture};
use scan_core::RunFault;

/// More bytes than any line has: nine numbers, an identifier and the elements, with the separators between them.
const MOST: usize = 700;

/// The corners of a symbol, and how many rows show it.
fn numbers_of(symbol: &SeenSymbol) -> [u32; 9]
    ensures { result ≡ placed_numbers symbol.now }
{
    let corners = symbol.corners;
    [
        corners.upper_left.x,
        corners.upper_left.y,
        corners.upper_right.x,
        corners.upper_right.y,
        corners.lower_right.x,
        corners.lower_right.y,
        corners.lower_left.x,
        corners.lower_left.y,
        symbol.rows,
    ]
}

/// Puts numbers at the end of a line, each followed by a space.
fn push_numbers(line: &mut ArrayVec<u8, MOST>, numbers: &[u32])
    requires { length line.old.items + 41 * length numbers.now ≤ 700 }
    ensures put { line.new.items ≡ line.old.items ++ numbers_text numbers.now }
    ensures few { length line.new.items ≤ length line.old.items + 41 * length numbers.now }
{
    'numbers: for number in numbers {
        push_number(line, *number as usize);
    }
}

/// The line of a symbol.
fn line_of(symbol: &SeenSymbol) -> ArrayVec<u8, MOST>
    ensures line { result.items ≡ placed_line symbol.now }
    ensures few { length result.items ≤ 700 }
{
    let mut line = ArrayVec::new();
    push_numbers(&mut line, &numbers_of(symbol));
    push(&mut line, symbol.said.carrier.identifier().as_bytes());
    push(&mut line, b" ");
    push(&mut line, symbol.said.elements.pairs().as_bytes());
    push(&mut line, b"\n");
    line
}

/// Puts the line of a symbol, if there is one, into `out` from `at` on if there is room for it, and returns where the
/// line ends.
fn put_placed(symbol: &Option<SeenSymbol>, at: usize, out: &mut [u8]) -> usize
    requires { at + 700 < 2 ^ 64 }
    ensures end { result ≡ at + length (placed_line_in symbol.now) }
    ensures few { result ≤ at + 700 }
    ensures put { at + length (placed_line_in symbol.now) ≤ length out.old → out.new ≡ pasted out.old at (placed_line_in symbol.now) }
    ensures unchanged { length out.old < at + length (placed_line_in symbol.now) → out.new ≡ out.old }
{
    match symbol {
        Some(symbol) => put_fitting(line_of(symbol).as_slice(), at, out),
        None => at,
    }
}

/// Puts the lines of symbols, as many as there is room for, and returns how many bytes all of them have.
fn put_all(symbols: &[Option<SeenSymbol>], out: &mut [u8]) -> usize
    requires { length symbols.now ≤ 192 }
    ensures put { ArePut (map placed_line_in symbols.now) out.old out.new result }
    ensures few { result ≤ 700 * 192 }
{
    let mut end = 0;
    'symbols: for symbol in symbols {
        end = put_placed(symbol, end, out);
    }
    end
}

/// The line that says how many symbols were dropped, if any were.
fn line_of_dropped(dropped: u32) -> ArrayVec<u8, 60>
    ensures line { result.items ≡ dropped_line dropped }
    ensures few { length result.items ≤ 60 }
{
    let mut line = ArrayVec::new();
    if dropped == 0 {
        return line;
    }
    push(&mut line, b"dropped ");
    push(&mut line, Buffer::new().format(dropped).as_bytes());
    push(&mut line, b"\n");
    line
}

/// Puts the reason why a picture shows nothing.
fn put_reason(refused: &Option<Refused>, out: &mut [u8]) -> usize
    ensures { IsPut (reason_text refused.now) out.old out.new result }
{
    match refused {
        Some(refused) => put_refusal(refused.fault.refusal(), out),
        None => put(b"none", out),
    }
}

/// Whether a picture shows nothing, and nothing was dropped.
fn shows_nothing(shown: &Shown) -> bool
    ensures nothing { result ≡ true → (shown.now.symbols.items ≡ []) × (shown.now.dropped ≡ 0) }
    ensures some { result ≡ false → 0 < length shown.now.symbols.items + shown.now.dropped }
{
    shown.symbols.len() == 0 && shown.dropped == 0
}

/// Puts what a picture shows.
fn put_shown(shown: &Shown, out: &mut [u8]) -> usize
    ensures { AreShownPut shown.now out.old out.new result }
{
    if shows_nothing(shown) {
        return put_reason(&shown.refused, out);
    }
    let end = put_all(shown.symbols.as_slice(), out);
    put_fitting(line_of_dropped(shown.dropped).as_slice(), end, out)
}

/// The level that a number means.
pub fn given_level(level: u8) -> Option<u8>
    ensures { result ≡ given_level level }
{
    if level == 0 { None } else { Some(level) }
}

/// The picture of these values, or their error.
fn picture_of<'a>(
    grey: &'a [u8],
    width: u32,
    height: u32,
    stride: usize,
) -> Result<Picture<'a>, RunFault>
    ensures ok { IfOk result (λ p. p ≡ record { values = grey.now; width = width; height = height; stride = stride }) }
    ensures some { OnOk result (IsPicture (length grey.now) width height stride) }
    ensures err { IfErr result (λ fault. (words : ℕ) (widths : ℕ)
        → IsPictureFault (record { values = grey.now; width = width; height = height; stride = stride }) words widths (Some fault)) }
{
    if width > 65535 || height > 65535 {
        return Err(RunFault::TooWide);
    }
    match Picture::new(grey, width as usize, height as usize, stride) {
        Some(picture) => Ok(picture),
        None => Err(RunFault::BadRuns),
    }
}

/// Puts what a picture shows, or why it cannot be read in this much memory.
pub fn put_picture(
    grey: &[u8],
    width: u32,
    height: u32,
    stride: usize,
    reading: Reading,
    words: &mut [u32],
    widths: &mut [u16],
    out: &mut [u8],
) -> usize
    ensures { AreReadLinesPut (record { values = grey.now; width = width; height = height; stride = stride }) reading.level reading.year
        (length words.old) (length widths.old) out.old out.new result }
{
    let picture = match picture_of(grey, width, height, stride) {
        Ok(picture) => picture,
        Err(fault) => return put_refusal(fault.refusal(), out),
    };
    let Some(mut room) = Room::new(width as u16, height as u16, words, widths) else {
        return put_refusal(RunFault::NoMemory.refusal(), out);
    };
    let mut shown = Shown::new();
    read_picture(&picture, reading, &mut room, &mut shown);
    put_shown(&shown, out)
}
