//! The lines of the symbols of a row.
ghost use Rattle.std.specs.Prelude.{None, ◌≡◌, ◌+◌, ◌++◌, ◌<◌, ◌≤◌, ◌^◌, ◌∷◌, [], List, length, map};
ghost use Rattle.std.specs.Fmt.{decimal};
ghost use Rattle.digits_core.specs.Buffers.{pasted};
ghost use Rattle.gs1_c.specs.Found.{ArePackedSymbolsPut, ArePut, AreDatedSymbolsPut, symbol_line};
ghost use Rattle.gs1_c.specs.Lines.{packed_fault};
ghost use Rattle.scan_core.specs.Row.{runs_fault};
ghost use Rattle.scan_core.specs.Windows.{AreTold};
ghost use Rattle.scan_core.specs.declared.window.Window.{Window};

use crate::buffer::put_refusal;
use crate::line::{push, push_number, put_fitting};
use answer_core::dots_in;
use arrayvec::ArrayVec;
use digits_core::put_at;
use element_core::Year;
use itoa::Buffer;
use scan_core::{DotSymbols, SymbolSearch, Symbols, Window, row_or_fault, symbols_are_told};

/// More bytes than any line has: two numbers, an identifier and the elements, with the separators between them.
const MOST: usize = 400;

/// The line of a symbol.
fn line_of(window: &Window) -> ArrayVec<u8, MOST>
    ensures line { result.items ≡ symbol_line window.now }
    ensures few { length result.items ≤ 400 }
{
    let mut line = ArrayVec::new();
    push_number(&mut line, window.first);
    push_number(&mut line, window.count);
    push(&mut line, window.carrier.identifier().as_bytes());
    push(&mut line, b" ");
    push(&mut line, window.elements.hri().as_bytes());
    push(&mut line, b"\n");
    line
}

/// Puts a number and a space into `out` from `at` on, and returns where they end.
fn put_number(number: usize, at: usize, out: &mut [u8]) -> usize
    requires { at + 41 ≤ length out.old }
    ensures end { result ≡ at + length (decimal number ++ 32 ∷ []) }
    ensures few { result ≤ at + 41 }
    ensures put { out.new ≡ pasted out.old at (decimal number ++ 32 ∷ []) }
{
    let mut digits = Buffer::new();
    let space = put_at(digits.format(number).as_bytes(), at, out);
    put_at(b" ", space, out)
}

/// Puts the line of a symbol into `out` from `at` on, and returns where it ends. `out` has room for the longest line.
fn put_whole(window: &Window, at: usize, out: &mut [u8]) -> usize
    requires { at + 400 ≤ length out.old }
    ensures end { result ≡ at + length (symbol_line window.now) }
    ensures few { result ≤ at + 400 }
    ensures put { out.new ≡ pasted out.old at (symbol_line window.now) }
{
    let count = put_number(window.first, at, out);
    let carrier = put_number(window.count, count, out);
    let space = put_at(window.carrier.identifier().as_bytes(), carrier, out);
    let said = put_at(b" ", space, out);
    let end = said + window.elements.put_hri(said, out);
    put_at(b"\n", end, out)
}

/// Puts the line of a symbol into `out` from `at` on if there is room for it, and returns where the line ends.
///
/// It makes the line first, which takes longer, and its buffer is not in the caller's stack frame.
#[inline(never)]
fn put_made(window: &Window, at: usize, out: &mut [u8]) -> usize
    requires { at + 400 < 2 ^ 64 }
    ensures end { result ≡ at + length (symbol_line window.now) }
    ensures few { result ≤ at + 400 }
    ensures put { at + length (symbol_line window.now) ≤ length out.old → out.new ≡ pasted out.old at (symbol_line window.now) }
    ensures unchanged { length out.old < at + length (symbol_line window.now) → out.new ≡ out.old }
{
    put_fitting(line_of(window).as_slice(), at, out)
}

/// The same, without making the line first if there is room for any line.
fn put_symbol(window: &Window, at: usize, out: &mut [u8]) -> usize
    requires { at + 400 < 2 ^ 64 }
    ensures end { result ≡ at + length (symbol_line window.now) }
    ensures few { result ≤ at + 400 }
    ensures put { at + length (symbol_line window.now) ≤ length out.old → out.new ≡ pasted out.old at (symbol_line window.now) }
    ensures unchanged { length out.old < at + length (symbol_line window.now) → out.new ≡ out.old }
{
    if at + MOST <= out.len() {
        return put_whole(window, at, out);
    }
    put_made(window, at, out)
}

/// Puts the lines of the symbols that the search still finds, as many as there is room for, and returns how many
/// bytes all of them have.
fn put_told<S: SymbolSearch>(search: &mut S, out: &mut [u8]) -> usize
    requires { length (S.rest search.old).runs ≤ 65537 }
    ensures { (ws : List Window) × AreTold (S.rest search.old) ws × ArePut (map symbol_line ws) out.old out.new result }
{
    let mut end = 0;
    'symbols: while let Some(window) = &search.next_symbol() {
        end = put_symbol(window, end, out);
    }
    end
}

/// Puts the lines of the symbols in the row of these widths, or the error of the widths.
pub fn put_symbols(widths: &[u16], year: Year, out: &mut [u8]) -> usize
    ensures { AreDatedSymbolsPut year widths.now (runs_fault widths.now) out.old out.new result }
{
    symbols_are_told();
    row_or_fault();
    match Symbols::of_widths(widths, year) {
        Ok(mut search) => put_told(&mut search, out),
        Err(fault) => put_refusal(fault.refusal(), out),
    }
}

/// The same for the row of this many packed dots.
pub fn put_dot_symbols(bits: &[u8], count: u32, year: Year, out: &mut [u8]) -> usize
    ensures { ArePackedSymbolsPut year bits.now count (packed_fault (length bits.now) count) out.old out.new result }
{
    symbols_are_told();
    match dots_in(bits, count) {
        Ok(dots) => {
            let mut search = DotSymbols::of_dots(bits, dots, year);
            put_told(&mut search, out)
        }
        Err(fault) => put_refusal(fault.refusal(), out),
    }
}
