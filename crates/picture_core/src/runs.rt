//! The runs of a picture's own rows.
ghost use Rattle.std.specs.Prelude.{◌≡◌, ◌+◌, ◌<◌, ◌≤◌, length, sum, take};
ghost use Rattle.scan_core.specs.Row.{IsRow, dots_of};
ghost use Rattle.picture_core.specs.Rows.{dark_dots};

/// Puts the widths of the runs of a row, light first and last, at the front of `widths`: dots below the level are dark. How many
/// they are.
pub(crate) fn put_runs(row: &[u8], level: u8, widths: &mut [u16]) -> usize
    requires few { length row.now ≤ 65535 }
    requires room { length row.now + 2 ≤ length widths.old }
    ensures within { result ≤ length widths.new }
    ensures few { result ≤ 65537 }
    ensures row { IsRow (take result widths.new) }
    ensures dots { dots_of (take result widths.new) ≡ dark_dots level row.now }
{
    let mut count = 0;
    let mut is_dark = false;
    let mut width = 0u16;
    'dots: for grey in row {
        if (*grey < level) == is_dark {
            width += 1;
        } else {
            widths[count] = width;
            count += 1;
            is_dark = !is_dark;
            width = 1;
        }
    }
    widths[count] = width;
    count += 1;
    if is_dark {
        widths[count] = 0;
        count += 1;
    }
    count
}

/// Whether two rows have the same dark dots.
pub(crate) fn are_alike(one: &[u8], other: &[u8], level: u8) -> bool {
    let mut alike = one.len() == other.len();
    for (a, b) in one.iter().zip(other.iter()) {
        alike &= (*a < level) == (*b < level);
    }
    alike
}

/// Whether a dot from one to another is dark.
pub(crate) fn is_dark_between(row: &[u8], left: usize, right: usize, level: u8) -> bool {
    let Some(part) = row.get(left..right) else {
        return false;
    };
    for grey in part {
        if *grey < level {
            return true;
        }
    }
    false
}

/// How many dots some runs of a row have together.
pub(crate) fn dots_in(runs: &[u16]) -> u32
    requires { length runs.now ≤ 65537 }
    ensures { result ≡ sum runs.now }
{
    let mut dots = 0;
    for run in runs {
        dots += u32::from(*run);
    }
    dots
}

/// How many dots the first runs of a row have together; none of a row that has fewer.
pub(crate) fn dots_before(runs: &[u16], count: usize) -> Option<u32> {
    if count > 65_537 {
        return None;
    }
    Some(dots_in(runs.get(..count)?))
}
