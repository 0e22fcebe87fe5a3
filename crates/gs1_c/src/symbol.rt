//! The symbols of single labels, for programs that draw them.
ghost use Rattle.std.specs.Prelude.{◌≡◌, ◌+◌, ◌++◌, ◌≤◌, ℕ, List, length};
ghost use Rattle.digits_core.specs.Buffers.{IsPut};
ghost use Rattle.digits_core.specs.Digits.{ascii_of};
ghost use Rattle.digits_core.specs.Upce.{IsFirstUpceOf};
ghost use Rattle.ean_code.specs.Widths.{AreModules};
ghost use Rattle.sheet_core.specs.Labels.{Drawn, IsDrawn};
ghost use Rattle.gs1_c.specs.Labels.{IsKindSaid};
ghost use Rattle.gs1_c.specs.Symbols.{IsSymbolLineOf, IsUnderBars, IsUpceUnder, drawn_text};

use crate::buffer::put_refusal;
use crate::label::label_of;
use crate::line::{push, push_number};
use answer_core::put;
use arrayvec::ArrayVec;
use digits_core::{Gtin, upce_suppress};
use element_core::Year;
use sheet_core::{DrawnSymbol, Label, LabelKind, SheetFault};

/// More bytes than any line has: a word, the text under the bars, two quiet zones and 595 widths.
const MOST: usize = 1000;

/// Puts the eight digits of a UPC-E at the end of a line.
fn push_upce(line: &mut ArrayVec<u8, MOST>, gtin: &Gtin)
    requires room { length line.old.items + 288 ≤ 1000 }
    requires spelled { (six : List ℕ) × (check : ℕ) × IsFirstUpceOf six check gtin.now }
    ensures put { (under : List ℕ) × IsUpceUnder gtin.now under × (line.new.items ≡ line.old.items ++ under) }
    ensures few { length line.new.items ≤ length line.old.items + 288 }
{
    match upce_suppress(gtin) {
        Some(spelled) => {
            push(line, b"0");
            push(line, &spelled.0);
            push(line, &[spelled.1]);
        }
        None => unreachable!(),
    }
}

/// Puts the text under the bars of a label at the end of a line.
fn push_under(line: &mut ArrayVec<u8, MOST>, label: &Label)
    requires room { length line.old.items + 288 ≤ 1000 }
    requires drawn { (s : Drawn) × IsDrawn label.now s }
    ensures put { (under : List ℕ) × IsUnderBars label.now under × (line.new.items ≡ line.old.items ++ under) }
    ensures few { length line.new.items ≤ length line.old.items + 288 }
{
    match label {
        Label::Ean13(gtin) => push(line, &gtin.digits14()[1..]),
        Label::UpcA(gtin) => push(line, &gtin.digits14()[2..]),
        Label::Ean8(gtin) => push(line, &gtin.digits14()[6..]),
        Label::UpcE(gtin) => push_upce(line, gtin),
        Label::Itf14(gtin) => push(line, &gtin.digits14()),
        Label::Gs1128(elements) => push(line, elements.hri().as_bytes()),
    }
}

/// Puts a digit for each width at the end of a line.
fn push_widths(line: &mut ArrayVec<u8, MOST>, widths: &[u8])
    requires room { length line.old.items + length widths.now ≤ 1000 }
    requires widths { AreModules widths.now }
    ensures { line.new.items ≡ line.old.items ++ ascii_of widths.now }
{
    'widths: for width in widths {
        line.push(b'0' + *width);
    }
}

/// Puts a drawn symbol, in modules, at the end of a line.
fn push_drawn(line: &mut ArrayVec<u8, MOST>, symbol: &DrawnSymbol)
    requires room { length line.old.items + 700 ≤ 1000 }
    ensures { line.new.items ≡ line.old.items ++ drawn_text symbol.now }
{
    push_number(line, usize::from(symbol.quiet_left()));
    push_number(line, usize::from(symbol.quiet_right()));
    push_widths(line, symbol.widths());
}

/// Puts the line of a label's symbol, or that it has none.
fn put_drawn(label: &Label, out: &mut [u8]) -> usize
    ensures { (line : List ℕ) × IsSymbolLineOf label.now line × IsPut line out.old out.new result }
{
    let Some(symbol) = label.symbol() else {
        return put_refusal(SheetFault::LabelKind(0).refusal(), out);
    };
    let mut line = ArrayVec::new();
    push(&mut line, b"symbol ");
    push_under(&mut line, label);
    push(&mut line, b" ");
    push_drawn(&mut line, &symbol);
    put(line.as_slice(), out)
}

/// Puts the line of the symbol of the label of this kind that a text makes, or why there is none.
pub fn put_symbol(kind: LabelKind, text: &[u8], terms: Year, out: &mut [u8]) -> usize
    ensures { (line : List ℕ) × IsKindSaid IsSymbolLineOf terms kind text.now line × IsPut line out.old out.new result }
{
    match label_of(kind, text, terms) {
        Ok(label) => put_drawn(&label, out),
        Err(refusal) => put_refusal(refusal, out),
    }
}
