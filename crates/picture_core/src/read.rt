//! Reads pictures.
ghost use Rattle.std.specs.Prelude.{◌≡◌, ◌≤◌, [], IfSome, OnSome};
ghost use Rattle.picture_core.specs.Saids.{IsRefusal};
ghost use Rattle.picture_core.specs.Told.{IsReadingOf};

use crate::bands::read_own_rows;
use crate::level::{level_of, middle_level};
use crate::look::{LOOKS, read_patch};
use crate::patch::{is_sparse, share_of, take_patch};
use crate::picture::Picture;
use crate::reader::Reader;
use crate::room::{Room, RowRoom};
use crate::said::{Furthest, Refused};
use crate::shown::{MOST, Shown};
use crate::stripes::Blocks;
use crate::symbol::SeenSymbol;
use crate::telling::tell;
use crate::turning::Taken;
use arrayvec::ArrayVec;
use element_core::Year;

/// The fewest blocks of a patch.
const FEWEST_BLOCKS: usize = 6;

/// The first looks leave a patch if none of its rows has as many ends. The fewest bars of a symbol have 34, and some may be missing.
const FIRST_LOOKS: usize = 2;

const FEWEST_ENDS: usize = 20;

/// If less than so much of the changes of a patch goes one way, of 100, it is mixed: for the first looks, and for the
/// others.
const FIRST_SHARE: u64 = 62;

const LATE_SHARE: u64 = 68;

/// The box around a patch that may be of a symbol is at most so many times its blocks: of one that is mixed, and of others,
/// at which only the first looks are taken if it is larger.
const MIXED: i64 = 3;

const SPARSE: i64 = 7;

/// How many dots looks take before no more patch is looked at, beside a quarter of those that the picture has.
const MOST_TAKEN: usize = 2_000_000;

/// Leaves the blocks that are outside of what is found.
fn leave_unknown(blocks: &mut Blocks, shown: &Shown) {
    for number in 0..blocks.len() {
        if !blocks.block(number).is_striped() {
            continue;
        }
        if shown.is_near(blocks.centre(number)) {
            blocks.clear(number);
        }
    }
}

/// Leaves the blocks of a patch.
fn leave_patch(blocks: &mut Blocks, patch: &[u32]) {
    for number in patch {
        blocks.clear(*number as usize);
    }
}

/// Whether a patch is more like print than like a symbol.
fn is_unlikely(blocks: &Blocks, patch: &[u32], is_late: bool) -> bool {
    let least = if is_late { LATE_SHARE } else { FIRST_SHARE };
    if share_of(blocks, patch) < least {
        return is_sparse(blocks, patch, MIXED);
    }
    is_late && is_sparse(blocks, patch, SPARSE)
}

/// Notes of a patch whether part of a symbol was seen there, and leaves it if one of the first looks saw that there is
/// none.
fn note_patch(blocks: &mut Blocks, patch: &[u32], taken: Taken, is_first: bool) {
    for number in patch {
        blocks.mark(*number as usize, taken.show_part());
    }
    if is_first && taken.show_nothing(FEWEST_ENDS) {
        leave_patch(blocks, patch);
    }
}

/// Adds what the stripes of a picture show, outside of what is found. What was seen in a patch is on the stack here alone.
#[inline(never)]
fn read_stripes(
    reader: &Reader,
    row: &mut RowRoom,
    queue: &mut [u32],
    blocks: &mut Blocks,
    shown: &mut Shown,
    furthest: &mut Furthest,
) {
    // How many dots may still be taken.
    let mut left = reader.picture.width() * reader.picture.height() / 4 + MOST_TAKEN;
    // The most blocks of a patch that showed a symbol.
    let mut most = 0;
    for (before, look) in LOOKS.iter().enumerate() {
        // If there is no room for more symbols, a look would count those again that the one before dropped.
        if shown.dropped > 0 {
            break;
        }
        let number = before as u32 + 1;
        leave_unknown(blocks, shown);
        let is_found = before > 0 && !shown.symbols.is_empty();
        for first in 0..blocks.len() {
            if left == 0 || !blocks.is_left(first, number) {
                continue;
            }
            let count = take_patch(blocks, first, number, queue).min(queue.len());
            let patch = &queue[..count];
            let is_late = before >= FIRST_LOOKS;
            let is_other = if is_found {
                is_late || count < most
            } else {
                is_unlikely(&*blocks, patch, is_late)
            };
            if count < FEWEST_BLOCKS || (is_other && !blocks.shows_part(first)) {
                leave_patch(blocks, patch);
                continue;
            }
            let found = shown.found;
            let taken = read_patch(reader, &*blocks, patch, look, row, shown, furthest);
            note_patch(blocks, patch, taken, !is_late);
            if shown.found > found {
                most = most.max(count);
            }
            left -= taken.dots.min(left);
        }
    }
}

/// How a picture is read.
#[derive(Clone, Copy)]
pub struct Reading {
    /// The year by which dates are read.
    pub year: Year,
    /// The grey value below which dots are dark. If there is none, the picture says it, and stripes are looked at that its own rows do
    /// not read.
    pub level: Option<u8>,
}

/// The level that is given, or else that of the picture.
fn level_in(picture: &Picture, level: Option<u8>) -> u8
    ensures { IfSome level (λ given. result ≡ given) }
{
    match level {
        Some(level) => level,
        None => level_of(picture),
    }
}

/// If there is no symbol, why.
fn refused_of(
    symbols: &ArrayVec<Option<SeenSymbol>, MOST>,
    furthest: &Furthest,
    year: Year,
) -> Option<Refused>
    ensures refused { IfSome result (λ refused. IsRefusal year refused.fault) }
    ensures none { OnSome result (symbols.now.items ≡ []) }
{
    if symbols.is_empty() {
        return furthest.refused_in(year);
    }
    None
}

/// Puts every symbol that a picture shows into `shown`; what that held before does not matter.
pub fn read_picture(picture: &Picture, reading: Reading, room: &mut Room, shown: &mut Shown)
    requires { picture.now.width ≤ room.old.width }
    ensures { IsReadingOf picture.now reading.level reading.year shown.new }
{
    let mut level = level_in(picture, reading.level);
    let reader = Reader {
        picture: &*picture,
        level,
        year: reading.year,
    };
    let mut furthest = Furthest::none();
    shown.clear();
    read_own_rows(&reader, room.widths, shown, &mut furthest);
    if reading.level.is_none() {
        let mut blocks = Blocks::of_picture(picture, room.cos, room.sin, room.taken);
        read_stripes(
            &reader,
            &mut room.row,
            room.queue,
            &mut blocks,
            shown,
            &mut furthest,
        );
    }
    // Where bars are as narrow as dots, most dots are neither dark nor light.
    if reading.level.is_none() && shown.found == 0 {
        level = middle_level(picture);
        let reader = Reader { level, ..reader };
        read_own_rows(&reader, room.widths, shown, &mut Furthest::none());
    }
    tell(
        picture,
        level,
        reading.year,
        shown,
        reading.level,
        room.widths,
        &mut room.row,
    );
    shown.level = level;
    shown.refused = refused_of(&shown.symbols, &furthest, reading.year);
}
