//! Looks at the patches of stripes of a picture.

use crate::area::{Area, Size};
use crate::frame::{Frame, ONE, Spot, over};
use crate::grid::Grid;
use crate::patch::{across, along, grid_over};
use crate::reader::Reader;
use crate::room::RowRoom;
use crate::said::Furthest;
use crate::seen_line::{Cleared, Sampling, SeenLine, SeenLines};
use crate::shown::Shown;
use crate::stripes::Blocks;
use crate::symbol::SeenSymbol;
use crate::tally::{Seen, Tally};
use crate::turning::{Sighted, Taken, line_shows, read_bars};
use line_reader::Turn;

/// How a patch is looked at: how many lines a dot apart are taken in the mean, how many such rows at most, whether they go along the
/// middles of the stripes, how close samples are, which blur is taken out, whether the bars are light and what is between them dark, by how much values
/// come back where they turn, and whether an end is where the way is steepest.
#[derive(Clone, Copy)]
pub(crate) struct Look {
    pub(crate) lines: u32,
    pub(crate) rows: u32,
    pub(crate) is_aslant: bool,
    pub(crate) sampling: Sampling,
    pub(crate) cleared: Cleared,
    pub(crate) is_inverted: bool,
    pub(crate) turn: Turn,
    pub(crate) by_slope: bool,
}

const USUAL: Look = Look {
    lines: 2,
    rows: 100,
    is_aslant: false,
    sampling: Sampling::Halves,
    cleared: Cleared::Nothing,
    is_inverted: false,
    turn: Turn {
        part: 164,
        least: 1536,
    },
    by_slope: false,
};

/// Where values turn that come back by a little.
const FINE: Turn = Turn {
    part: 98,
    least: 922,
};

/// Where values turn that come back by nearly half, so not at a light line through a bar that a dead dot of a printer left.
const COARSE: Turn = Turn {
    part: 430,
    least: 1536,
};

/// Where the mean of lines turns that comes back by even less.
const FINER: Turn = Turn {
    part: 40,
    least: 300,
};

/// The looks, each if those before found nothing.
pub(crate) const LOOKS: [Look; 11] = [
    Look {
        rows: 24,
        sampling: Sampling::Dots,
        ..USUAL
    },
    USUAL,
    Look {
        lines: 3,
        rows: 70,
        is_aslant: true,
        turn: Turn {
            part: 131,
            least: 1229,
        },
        ..USUAL
    },
    Look {
        lines: 3,
        rows: 40,
        is_inverted: true,
        ..USUAL
    },
    Look {
        lines: 9,
        rows: 40,
        is_aslant: true,
        turn: Turn {
            part: 256,
            least: 1536,
        },
        ..USUAL
    },
    Look {
        lines: 9,
        rows: 40,
        is_aslant: true,
        sampling: Sampling::Dots,
        cleared: Cleared::Small,
        ..USUAL
    },
    Look {
        lines: 3,
        rows: 80,
        turn: Turn {
            part: 115,
            least: 1075,
        },
        by_slope: true,
        ..USUAL
    },
    Look {
        lines: 1,
        turn: FINE,
        ..USUAL
    },
    Look {
        lines: 9,
        rows: 24,
        is_aslant: true,
        sampling: Sampling::Dots,
        cleared: Cleared::Large,
        ..USUAL
    },
    Look {
        lines: 3,
        is_aslant: true,
        turn: FINER,
        ..USUAL
    },
    Look {
        lines: 3,
        rows: 60,
        turn: COARSE,
        ..USUAL
    },
];

impl Look {
    /// Whether it may have taken these lines.
    pub(crate) fn may_take(&self, line: &SeenLine) -> bool {
        self.lines == u32::from(line.lines)
            && self.sampling == line.sampling
            && self.cleared == line.cleared
            && self.is_inverted == line.is_inverted
    }
}

/// Notes what a row of a grid says; what that took.
fn read_row(
    reader: &Reader,
    grid: &Grid,
    row: u32,
    look: &Look,
    room: &mut RowRoom,
    tally: &mut Tally,
    furthest: &mut Furthest,
) -> Taken {
    let v = grid.v_of(row);
    let (from, line) = grid.lines_of(reader.picture, v, look);
    let sighted = Sighted {
        u: from >> 8,
        v,
        step: grid.step,
    };
    read_bars(reader, &line, look, sighted, room, tally, furthest)
}

/// How far what was seen reaches across rows, in 1/65536 dot.
#[derive(Clone, Copy)]
struct Reach {
    top: i64,
    bottom: i64,
}

impl Reach {
    /// From one place to another, and half a dot beyond both.
    fn of(one: i64, other: i64) -> Reach {
        Reach {
            top: one.min(other).saturating_sub(ONE / 2),
            bottom: one.max(other).saturating_add(ONE / 2),
        }
    }

    /// With another one.
    fn with(self, other: Reach) -> Reach {
        Reach {
            top: self.top.min(other.top),
            bottom: self.bottom.max(other.bottom),
        }
    }

    /// The place that is so many steps below the top.
    fn v_at(self, steps: u8) -> i64 {
        let height = self.bottom.saturating_sub(self.top);
        let way = over(height.saturating_mul(i64::from(steps)), i64::from(STEPS));
        self.top.saturating_add(way)
    }
}

/// As far as it is half a row to the next one.
fn reach_of_rows(seen: &Seen, grid: &Grid) -> Reach {
    Reach {
        top: seen.first.v.saturating_sub(grid.step / 2),
        bottom: seen.last.v.saturating_add(grid.step / 2),
    }
}

/// The corners of what rows show, from the first of them to the last.
fn spots_of(seen: &Seen, grid: &Grid, reach: Reach) -> [Spot; 4] {
    let top = reach.top >> 8;
    let bottom = reach.bottom >> 8;
    [
        grid.frame.spot_at(seen.first.left, top),
        grid.frame.spot_at(seen.first.right, top),
        grid.frame.spot_at(seen.last.right, bottom),
        grid.frame.spot_at(seen.last.left, bottom),
    ]
}

/// How many steps are made through what was seen, whose lines are asked whether they show it.
const STEPS: u8 = 31;

/// Two groups of lines that show what was seen, from one of their ends, and where they are: the first such in a reach and the next one
/// that is beside it.
fn lines_from(
    reader: &Reader,
    grid: &Grid,
    seen: &Seen,
    look: &Look,
    room: &mut RowRoom,
    reach: Reach,
    is_turned: bool,
) -> Option<(SeenLines, Reach)> {
    let said = seen.said.as_ref()?;
    let mut found: Option<(SeenLine, i64)> = None;
    for step in 0..STEPS + 1 {
        let v = reach.v_at(if is_turned {
            STEPS.saturating_sub(step)
        } else {
            step
        });
        let line = line_in(reader, grid, look, v, is_turned);
        let is_beside = match found {
            Some((first, _)) => first.is_before(&line),
            None => true,
        };
        if !is_beside || line_shows(reader.picture, reader.year, said, &line, room).is_none() {
            continue;
        }
        match found {
            Some((first, place)) => {
                let lines = SeenLines {
                    first,
                    x: line.x,
                    y: line.y,
                    dots: line.dots,
                };
                return Some((lines, Reach::of(place, v)));
            }
            None => found = Some((line, v)),
        }
    }
    None
}

/// The lines of a place across rows, or if they are turned round from their other ends.
fn line_in(reader: &Reader, grid: &Grid, look: &Look, v: i64, is_turned: bool) -> SeenLine {
    let (_, line) = grid.lines_of(reader.picture, v, look);
    if is_turned { line.turned_round() } else { line }
}

/// Two groups of lines in a reach that show what was seen. Ends between turns show it from one side.
fn lines_in(
    reader: &Reader,
    grid: &Grid,
    seen: &Seen,
    look: &Look,
    room: &mut RowRoom,
    reach: Reach,
) -> Option<(SeenLines, Reach)> {
    let lines = lines_from(reader, grid, seen, look, room, reach, false);
    if lines.is_some() {
        return lines;
    }
    lines_from(reader, grid, seen, look, room, reach, true)
}

/// Those between its first row and its last one, or else up to the rows beside them.
fn lines_of(
    reader: &Reader,
    grid: &Grid,
    seen: &Seen,
    look: &Look,
    room: &mut RowRoom,
) -> Option<(SeenLines, Reach)> {
    let top = seen.first.v;
    let bottom = seen.last.v;
    let lines = lines_in(reader, grid, seen, look, room, Reach { top, bottom });
    if lines.is_some() {
        return lines;
    }
    let reach = Reach {
        top: top.saturating_sub(grid.step),
        bottom: bottom.saturating_add(grid.step),
    };
    lines_in(reader, grid, seen, look, room, reach)
}

/// How often the way from a row that shows a symbol to the next one, which does not, is halved.
const HALVINGS: u8 = 3;

/// Whether the lines of a place across rows show what was seen, from one of their ends.
fn is_shown_at(
    reader: &Reader,
    grid: &Grid,
    seen: &Seen,
    look: &Look,
    room: &mut RowRoom,
    v: i64,
) -> bool {
    let Some(said) = seen.said.as_ref() else {
        return false;
    };
    let (_, line) = grid.lines_of(reader.picture, v, look);
    line_shows(reader.picture, reader.year, said, &line, room).is_some()
        || line_shows(
            reader.picture,
            reader.year,
            said,
            &line.turned_round(),
            room,
        )
        .is_some()
}

/// Where what was seen ends between a row that shows it and the next one.
fn end_of(
    reader: &Reader,
    grid: &Grid,
    seen: &Seen,
    look: &Look,
    room: &mut RowRoom,
    shown: i64,
    next: i64,
) -> i64 {
    let mut inside = shown;
    let mut outside = next;
    for _ in 0..HALVINGS {
        let middle = inside.saturating_add(outside) / 2;
        if is_shown_at(reader, grid, seen, look, room, middle) {
            inside = middle;
        } else {
            outside = middle;
        }
    }
    inside.saturating_add(outside) / 2
}

/// How far what was seen reaches, to an eighth of the way from row to row, or half of it if that is two dots or less.
fn reach_of(reader: &Reader, grid: &Grid, seen: &Seen, look: &Look, room: &mut RowRoom) -> Reach {
    if grid.step <= 2 * ONE {
        return reach_of_rows(seen, grid);
    }
    let first = seen.first.v;
    let last = seen.last.v;
    let above = first.saturating_sub(grid.step);
    let below = last.saturating_add(grid.step);
    Reach {
        top: end_of(reader, grid, seen, look, room, first, above),
        bottom: end_of(reader, grid, seen, look, room, last, below),
    }
}

/// The symbol that was seen on these lines, in a box along its bars: as the rows show these, or else as the stripes go.
fn placed(
    seen: &mut Seen,
    grid: &Grid,
    stripes: Frame,
    lines: SeenLines,
    reach: Reach,
    size: Size,
) -> Option<SeenSymbol> {
    let said = seen.said.take()?;
    let frame = match seen.lean.slope() {
        Some(slope) => grid.frame.sheared(slope.saturating_neg()),
        None => stripes,
    };
    let area = Area::around(frame, &spots_of(seen, grid, reach));
    Some(SeenSymbol {
        said,
        rows: seen.rows,
        corners: area.corners(size),
        own_rows: None,
        lines: Some(lines),
        area,
    })
}

/// Whether something was seen that is not near a symbol which is found.
fn is_open(seen: &Seen, grid: &Grid, shown: &Shown) -> bool {
    let [upper_left, _, lower_right, _] = spots_of(seen, grid, reach_of_rows(seen, grid));
    seen.said.is_some() && !shown.is_near(upper_left) && !shown.is_near(lower_right)
}

/// Adds what the rows of a grid show to what is found; what that took, and whether rows say something and nothing is found. If a symbol
/// is found, another one may still be seen in part.
#[inline(never)]
fn read_grid(
    reader: &Reader,
    grid: &Grid,
    stripes: Frame,
    look: &Look,
    room: &mut RowRoom,
    shown: &mut Shown,
    furthest: &mut Furthest,
) -> (Taken, bool) {
    let mut tally = Tally::new();
    let mut taken = Taken::default();
    for row in 0..grid.count {
        let row = read_row(reader, grid, row, look, room, &mut tally, furthest);
        taken = taken.with(row);
    }
    let size = Size::of(reader.picture);
    let found = shown.found;
    let sure = tally.sure(grid.step);
    for (seen, is_sure) in tally.all_mut().iter_mut().zip(sure.iter()) {
        if *is_sure {
            let Some((lines, reach)) = lines_of(reader, grid, seen, look, room) else {
                continue;
            };
            let reach = reach.with(reach_of(reader, grid, seen, look, room));
            if let Some(symbol) = placed(seen, grid, stripes, lines, reach, size) {
                shown.join(symbol, size);
            }
        }
    }
    if tally.is_short() {
        shown.drop_more(1);
    }
    if shown.found == found {
        return (taken, tally.says());
    }
    taken.parts = 0;
    for seen in tally.all() {
        if is_open(seen, grid, shown) {
            taken.parts = taken.rows;
        }
    }
    (taken, false)
}

/// If rows say something, and too few of them, so many times as many are looked at.
const MORE_ROWS: u32 = 4;

/// Reads a patch, and adds what it shows to what is found; what that took.
pub(crate) fn read_patch(
    reader: &Reader,
    blocks: &Blocks,
    patch: &[u32],
    look: &Look,
    room: &mut RowRoom,
    shown: &mut Shown,
    furthest: &mut Furthest,
) -> Taken {
    let stripes = across(blocks, patch);
    let frame = if look.is_aslant {
        along(blocks, patch, stripes)
    } else {
        stripes
    };
    let grid = grid_over(blocks, patch, frame, look.rows);
    let (taken, is_unsure) = read_grid(reader, &grid, stripes, look, room, shown, furthest);
    if !is_unsure || grid.step <= ONE {
        return taken;
    }
    let rows = look.rows.saturating_mul(MORE_ROWS);
    let grid = grid_over(blocks, patch, frame, rows);
    let (more, _) = read_grid(reader, &grid, stripes, look, room, shown, furthest);
    Taken {
        dots: taken.dots.saturating_add(more.dots),
        ..more
    }
}
