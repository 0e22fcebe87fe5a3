//! Cuts rows of packed dots into runs.
ghost use Rattle.std.specs.Prelude.{◌≡◌, ◌<◌, ◌≤◌, ◌+◌, ◌*◌, ◌++◌, ◌∷◌, [], List, ℕ, IfOk, OnErr, OnOk, length};
ghost use Rattle.scan_core.specs.Bits.{dots_at};
ghost use Rattle.scan_core.specs.inner.Cutting.{Cut, IsFrontOf, IsRowOf};

use crate::bits::{others_from, zeros_before};
use arrayvec::ArrayVec;

/// There is no room for a run.
#[derive(Clone, Copy)]
pub(crate) struct NoRoom;

/// A list that takes the runs of a row, from the left.
pub(crate) trait RunList {
    // The runs in it.
    ghost runs: { Self → List ℕ };
    // It may have no room for another run.
    ghost MayBeFull: { Self → Type 0 };

    /// Puts a run at the end.
    fn put(&mut self, width: u16) -> Result<(), NoRoom>
        ensures put { OnOk result (runs self.new ≡ runs self.old ++ width ∷ []) }
        ensures unchanged { OnErr result (runs self.new ≡ runs self.old) }
        ensures full { OnErr result (MayBeFull self.new) };
}

impl<const MOST: usize> RunList for ArrayVec<u16, MOST> {
    ghost runs = { λ list. list.items };

    ghost MayBeFull = { λ list. length list.items ≡ MOST };

    fn put(&mut self, width: u16) -> Result<(), NoRoom> {
        self.try_push(width).map_err(|_| NoRoom)
    }
}

/// The run of the last dot so far, and how many dots it has so far.
#[derive(Drop)]
struct Run {
    width: usize,
    dark: bool,
}

/// Cuts the dots of the row from dot `at` up to the end of their eight bytes. Returns the index of the next dot.
fn cut_word<R: RunList>(
    bits: &[u8],
    from: usize,
    at: usize,
    width: usize,
    run: &mut Run,
    list: &mut R,
) -> Result<usize, NoRoom>
    requires within { from + width ≤ 8 * length bits.now }
    requires few { width ≤ 65535 }
    requires more { at < width }
    requires cut { Cut (R.runs list.old) run.old.width run.old.dark at (dots_at bits.now from at) }
    ensures on { IfOk result (λ end. at < end) }
    ensures in_row { IfOk result (λ end. end ≤ width) }
    ensures cut { IfOk result (λ end. Cut (R.runs list.new) run.new.width run.new.dark end (dots_at bits.now from end)) }
    ensures front { OnErr result (IsFrontOf (R.runs list.new) (dots_at bits.now from width)) }
    ensures full { OnErr result (R.MayBeFull list.new) }
{
    let mut left = (64 - (from % 8 + at) % 8).min(width - at);
    let end = at + left;
    let mut others = others_from(bits, from, at, run.dark);
    'runs: loop {
        let same = zeros_before(others);
        if left <= same {
            break;
        }
        list.put((run.width + same) as u16)?;
        run.width = 0;
        run.dark = !run.dark;
        others = !others << same;
        left -= same;
    }
    run.width += left;
    Ok(end)
}

/// Cuts the row of `width` dots of packed bytes, from dot `from` on, into runs, from the left, as long as there is
/// room for them. The first dot of a byte is its high bit; 1 is dark.
pub(crate) fn cut_into<R: RunList>(
    bits: &[u8],
    from: usize,
    width: usize,
    list: &mut R,
) -> Result<(), NoRoom>
    requires within { from + width ≤ 8 * length bits.now }
    requires few { width ≤ 65535 }
    requires empty { R.runs list.old ≡ [] }
    ensures all { OnOk result (IsRowOf (R.runs list.new) (dots_at bits.now from width)) }
    ensures front { OnErr result (IsFrontOf (R.runs list.new) (dots_at bits.now from width)) }
    ensures full { OnErr result (R.MayBeFull list.new) }
{
    let mut run = Run {
        width: 0,
        dark: false,
    };
    let mut at = 0;
    'words: while at < width {
        at = cut_word(bits, from, at, width, &mut run, list)?;
    }
    list.put(run.width as u16)?;
    if run.dark {
        list.put(0)?;
    }
    Ok(())
}
