//! The symbols that the own rows of a picture show.
ghost use Rattle.std.specs.Prelude.{◌+◌, ◌<◌, ◌≤◌, ◌^◌, length};
ghost use Rattle.picture_core.specs.inner.Bounds.{IsBounded};

use crate::area::{Area, Size};
use crate::count::added;
use crate::frame::{Spot, UNIT, UPRIGHT};
use crate::lean::Lean;
use crate::own_row::{OwnRow, OwnRows};
use crate::reader::Reader;
use crate::runs::{are_alike, dots_before, is_dark_between, put_runs};
use crate::said::{Furthest, Said, note_row, says_as};
use crate::shown::Shown;
use crate::symbol::SeenSymbol;
use arrayvec::ArrayVec;
use scan_core::{SymbolSearch, Symbols, Window};

/// A symbol that rows show one below the other, and its sides as far as they reach in any of these, in dots.
#[derive(Default, Drop)]
struct Band {
    said: Option<Said>,
    left: u32,
    right: u32,
    /// The first row and the last one.
    first: OwnRow,
    last: OwnRow,
    lean: Lean,
    rows: u32,
    /// How many rows say something else there.
    against: u32,
}

/// The middle of the bars of a row and how far down it is, in 1/16 dot.
fn middle_of(at: OwnRow) -> i64 {
    (i64::from(at.left) + i64::from(at.right)) * 8
}

fn place_in(at: OwnRow) -> i64 {
    i64::from(at.y) * 16
}

/// The most dots of a side.
const MOST_DOTS: u32 = 65_536;

/// Dots in 1/256 dot.
fn in_units(dots: u32) -> i64
    ensures { IsBounded (2 ^ 24) result }
{
    i64::from(dots.min(MOST_DOTS)) * UNIT
}

/// The corners of the bars of a row.
fn spots_of(at: OwnRow) -> [Spot; 4] {
    let left = in_units(at.left);
    let right = in_units(at.right);
    let top = in_units(at.y);
    let bottom = top + UNIT;
    [
        Spot { x: left, y: top },
        Spot { x: right, y: top },
        Spot {
            x: right,
            y: bottom,
        },
        Spot { x: left, y: bottom },
    ]
}

/// The most rows, damaged ones, that a symbol may go unread and be the same: this many, or a quarter of its width.
const MOST_UNREAD: u32 = 16;

/// How many rows read a symbol for each that reads something else there.
const ROWS_AGAINST: u64 = 4;

impl Band {
    fn stands_at(&self, at: OwnRow) -> bool {
        let eighth = at.right.abs_diff(at.left) / 8;
        self.last.left.abs_diff(at.left) < eighth && self.last.right.abs_diff(at.right) < eighth
    }

    fn add(&mut self, at: OwnRow) {
        self.left = self.left.min(at.left);
        self.right = self.right.max(at.right);
        self.last = at;
        self.lean.add(middle_of(at), place_in(at));
        self.rows = added(self.rows, 1);
    }

    /// The next row, y, is as its last one.
    fn repeat(&mut self, y: u32) {
        self.last.y = y;
        self.lean.add(middle_of(self.last), place_in(self.last));
        self.rows = added(self.rows, 1);
    }

    /// Whether it goes on in a row: it went unread for few rows, and the row is not light where it stood.
    fn goes_on(&self, row: &[u8], level: u8, y: u32) -> bool {
        let width = self.last.right.abs_diff(self.last.left);
        y.abs_diff(self.last.y) <= MOST_UNREAD.max(width / 4)
            && is_dark_between(
                row,
                self.last.left as usize,
                self.last.right as usize,
                level,
            )
    }

    /// Its upright box: as far as the dots at its ends.
    fn upright(&self) -> Area {
        Area {
            frame: UPRIGHT,
            left: in_units(self.left),
            right: in_units(self.right),
            top: in_units(self.first.y),
            bottom: in_units(self.last.y) + UNIT,
        }
    }

    /// Its box along the bars, if they lean so far that rows show it.
    fn leaning(&self) -> Option<Area> {
        let slope = self.lean.slope()?;
        if slope == 0 {
            return None;
        }
        let [a, b, c, d] = spots_of(self.first);
        let [e, f, g, h] = spots_of(self.last);
        let frame = UPRIGHT.sheared(-slope);
        Some(Area::around(frame, &[a, b, c, d, e, f, g, h]))
    }

    /// Its box, whose corners in the picture have the bars of its first and of its last row between them.
    fn area(&self, size: Size) -> Area {
        if let Some(area) = self.leaning() {
            let corners = area.corners(size);
            if corners.hold_bars(self.first) && corners.hold_bars(self.last) {
                return area;
            }
        }
        self.upright()
    }

    /// The symbol, if enough rows show it: two, or the only one, and four for each that says something else.
    fn symbol(self, height: usize, size: Size) -> Option<SeenSymbol> {
        let area = self.area(size);
        let Band {
            said,
            left: _,
            right: _,
            first,
            last,
            lean: _,
            rows,
            against,
        } = self;
        let said = said?;
        if (rows < 2 && height > 1) || u64::from(rows) < u64::from(against) * ROWS_AGAINST {
            return None;
        }
        Some(SeenSymbol {
            said,
            rows,
            corners: area.corners(size),
            own_rows: Some(OwnRows { first, last }),
            lines: None,
            area,
        })
    }
}

/// The most symbols that rows show side by side.
const MOST_BANDS: usize = 64;

/// The symbols that may go on in the next row.
#[derive(Drop)]
struct Bands {
    all: ArrayVec<Band, MOST_BANDS>,
    /// The most symbols of a row for which there was no room.
    dropped: u32,
}

impl Bands {
    /// Row y is as the one above: what that said is said again.
    fn repeat(&mut self, y: u32) {
        for band in self.all.as_mut_slice().iter_mut() {
            if band.last.y.checked_add(1) == Some(y) {
                band.repeat(y);
            }
        }
    }

    /// Shows those that do not go on in a row.
    fn end_at(&mut self, reader: &Reader, row: &[u8], y: u32, shown: &mut Shown) {
        let mut place = 0;
        for _ in 0..MOST_BANDS {
            let Some(band) = self.all.as_slice().get(place) else {
                return;
            };
            if band.goes_on(row, reader.level, y) {
                place += 1;
            } else {
                let band = self.all.remove(place);
                show(band, reader, shown);
            }
        }
    }

    /// Shows all that are left.
    fn end(&mut self, reader: &Reader, shown: &mut Shown) {
        for _ in 0..MOST_BANDS {
            if let Some(band) = self.all.pop() {
                show(band, reader, shown);
            }
        }
        shown.drop_more(self.dropped);
    }

    /// The most rows that say something else at a place where a row says this. Each of them has one more against it.
    fn count_against(&mut self, said: &Option<Said>, at: OwnRow) -> u32 {
        let mut most = 0;
        for band in self.all.as_mut_slice().iter_mut() {
            if band.stands_at(at) && !says_as(&band.said, said) {
                band.against = added(band.against, 1);
                most = band.rows.max(most);
            }
        }
        most
    }

    /// A row says this at a place; whether there was room for it.
    fn add(&mut self, said: Option<Said>, at: OwnRow) -> bool {
        let against = self.count_against(&said, at);
        for band in self.all.as_mut_slice().iter_mut() {
            if band.stands_at(at) && says_as(&band.said, &said) {
                band.add(at);
                band.against = band.against.max(against);
                return true;
            }
        }
        self.all
            .try_push(Band {
                said,
                left: at.left,
                right: at.right,
                first: at,
                last: at,
                lean: Lean::of_row(middle_of(at), place_in(at)),
                rows: 1,
                against,
            })
            .is_ok()
    }
}

/// Shows a symbol, if enough rows do.
fn show(band: Band, reader: &Reader, shown: &mut Shown) {
    if let Some(symbol) = band.symbol(reader.picture.height(), Size::of(reader.picture)) {
        shown.push(symbol);
    }
}

/// Where a window of a row's runs stands.
fn place_of(runs: &[u16], y: u32, window: &Window) -> Option<OwnRow> {
    let first = u32::try_from(window.first).ok()?;
    let count = u32::try_from(window.count).ok()?;
    let left = dots_before(runs, window.first.checked_add(1)?)?;
    let right = dots_before(
        runs,
        window.first.checked_add(window.count.checked_sub(1)?)?,
    )?;
    Some(OwnRow {
        y,
        first,
        count,
        left,
        right,
    })
}

/// The runs of a window.
fn part_of<'a>(runs: &'a [u16], window: &Window) -> Option<&'a [u16]> {
    runs.get(window.first..)?.get(..window.count)
}

/// Notes the symbols of a row.
fn add_symbols(reader: &Reader, runs: &[u16], y: u32, bands: &mut Bands, furthest: &mut Furthest) {
    let Ok(mut search) = Symbols::of_widths(runs, reader.year) else {
        return;
    };
    let mut dropped = 0u32;
    let mut is_read = false;
    for _ in 0..runs.len() {
        let Some(window) = search.next_symbol() else {
            break;
        };
        is_read = true;
        let Some(at) = place_of(runs, y, &window) else {
            continue;
        };
        let Some(part) = part_of(runs, &window) else {
            continue;
        };
        if let Some(said) = Said::of_widths(part, reader.year, furthest) {
            if !bands.add(Some(said), at) {
                dropped = added(dropped, 1);
            }
        }
    }
    bands.dropped = bands.dropped.max(dropped);
    if !is_read {
        note_row(runs, reader.year, furthest);
    }
}

/// What the own rows of a picture show, by two rows at least, or by the one that it has. Its bands are not on the stack while stripes
/// are read.
#[inline(never)]
pub(crate) fn read_own_rows(
    reader: &Reader,
    widths: &mut [u16],
    shown: &mut Shown,
    furthest: &mut Furthest,
)
    requires room { reader.now.picture.now.width + 2 ≤ length widths.old }
{
    let picture = reader.picture;
    let mut bands = Bands {
        all: ArrayVec::new(),
        dropped: 0,
    };
    for y in 0..picture.height() {
        let row = picture.row(y);
        let number = y as u32;
        if y > 0 && are_alike(picture.row(y - 1), row, reader.level) {
            bands.repeat(number);
            continue;
        }
        let count = put_runs(row, reader.level, widths);
        bands.end_at(reader, row, number, shown);
        add_symbols(reader, &widths[..count], number, &mut bands, furthest);
    }
    bands.end(reader, shown);
}
