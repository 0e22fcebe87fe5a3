//! Lines of dots, packed with a byte's high bit first.
ghost use Rattle.std.specs.Prelude.{◌≡◌, ◌+◌, ◌-◌, ◌*◌, ◌/◌, ◌^◌, ◌<◌, ◌≤◌, ◌==◌, ◌&&◌, ◌||◌, ℕ, List, false, true, length, map, nat_le, nat_lt, replicate, slice_index_or, sum};
ghost use Rattle.std.specs.List.{AllByRecursion, AllZip};
ghost use Rattle.std.specs.Int.{bit_at};
ghost use Rattle.scan_core.specs.Bits.{dot_at};
ghost use Rattle.scan_core.specs.Row.{dots_from};
ghost use Rattle.sheet_core.specs.Bitmaps.{stride};
ghost use Rattle.sheet_core.specs.Labels.{Drawn, FitsCell, IsDrawn};
ghost use Rattle.sheet_core.specs.inner.Lines.{IsBarLine};

use crate::grid::Grid;
use crate::label::Label;
use crate::sheet::stride;
use arrayvec::ArrayVec;

/// The bytes of the widest line of a grid, 16,384 dots.
const LONGEST: usize = 2_048;

/// A line of light dots.
pub(crate) fn light_line(width: u16) -> ArrayVec<u8, LONGEST>
    requires { width ≤ 16384 }
    ensures { result.items ≡ replicate (stride width) 0 }
{
    let mut line = ArrayVec::new();
    for _ in 0..stride(width) {
        line.push(0);
    }
    line
}

/// The bits of a byte's dots from one index up to another, the first dot in the high bit.
fn bits_of(from: usize, end: usize) -> u8
    requires order { from ≤ end }
    requires within { end ≤ 8 }
    ensures { (k : ℕ) → k < 8 → (bit_at result (7 - k) == 1) ≡ (nat_le from k && nat_lt k end) }
{
    ((0xFFu16 >> from) - (0xFFu16 >> end)) as u8
}

/// Makes at most eight dots dark, `count` from dot `from` on, in two bytes. It has no loop, whose end the processor
/// would mispredict for half of all bars.
fn darken_few(line: &mut [u8], from: usize, count: usize)
    requires few { count ≤ 8 }
    requires within { from / 8 + 1 < length line.old }
    requires small { from < 2 ^ 16 }
    ensures { (k : ℕ) → dot_at line.new k ≡ ((nat_le from k && nat_lt k (from + count)) || dot_at line.old k) }
{
    let first = from / 8;
    let skipped = from % 8;
    let end = skipped + count;
    line[first] |= bits_of(skipped, end.min(8));
    line[first + 1] |= bits_of(0, end.saturating_sub(8));
}

/// Makes `count` dots of a line dark, from dot `from` on, byte by byte.
pub fn darken(line: &mut [u8], from: usize, count: usize)
    requires within { from + count ≤ 8 * length line.old }
    requires few { from + count < 2 ^ 16 }
    ensures { (k : ℕ) → dot_at line.new k ≡ ((nat_le from k && nat_lt k (from + count)) || dot_at line.old k) }
{
    if count <= 8 && from / 8 + 1 < line.len() {
        return darken_few(line, from, count);
    }
    let end = from + count;
    for i in from / 8..(end + 7) / 8 {
        let bits = bits_of(from.max(8 * i) - 8 * i, end.min(8 * i + 8) - 8 * i);
        line[i] |= bits;
    }
}

/// Draws the bars of a symbol from dot `from` on, each module `dots` wide.
fn draw(line: &mut [u8], from: usize, modules: &[u8], dots: usize)
    requires within { from + dots * sum modules.now ≤ 8 * length line.old }
    requires few { from + dots * sum modules.now < 2 ^ 16 }
    ensures { (k : ℕ) → dot_at line.new k
        ≡ ((nat_le from k && slice_index_or (dots_from true (map (λ m. dots * m) modules.now)) (k - from) false) || dot_at line.old k) }
{
    let mut at = from;
    let mut dark = true;
    for module in modules {
        let width = usize::from(*module) * dots;
        if dark {
            darken(line, at, width);
        }
        at += width;
        dark = !dark;
    }
}

/// Draws a bar row of a row of cells onto light dots.
pub(crate) fn draw_line(line: &mut [u8], grid: &Grid, labels: &[Label])
    requires light { line.old ≡ replicate (stride (grid.now.columns * grid.now.width)) 0 }
    requires few { length labels.now ≤ grid.now.columns }
    requires symbols { (symbols : List Drawn) × AllZip IsDrawn labels.now symbols × AllByRecursion (FitsCell grid.now) symbols }
    ensures { (symbols : List Drawn) → AllZip IsDrawn labels.now symbols → IsBarLine grid.now symbols line.new }
{
    let width = usize::from(grid.cell_width);
    let dots = usize::from(grid.module_dots);
    let mut at = 0usize;
    for label in labels {
        let symbol = label.drawn();
        let from = at + usize::from(symbol.quiet_left) * dots;
        draw(line, from, symbol.modules.widths(), dots);
        at += width;
    }
}
