//! Reads the widths of a field sixteen bytes at a time, if each has one or two digits, as in most rows.
//!
//! A width is before each space. In each lane of a vector, it reads the two bytes before the lane as a number, and
//! then collects the lanes at spaces. So no branch waits for the length of a width. A field with any other byte or
//! word is left to `read_widths`, which reads it word by word and finds its error.
ghost use Rattle.std.specs.Prelude.{◌≡◌, ◌==◌, ◌<◌, ◌≤◌, ◌+◌, ◌/◌, ◌++◌, ◌-◌, ◌∷◌, Bool, false, drop, get_or, length, List, map, IfSome, [], replicate, sum, take, true, Ok, ◌*◌, ℕ};
ghost use Rattle.std.specs.Simd.Lanes.{Each1, mask_l};
ghost use Rattle.std.specs.List.{list_all};
ghost use Rattle.csv_records.specs.inner.FrontWidths.{has_wide};
ghost use Rattle.csv_records.specs.inner.Kept.{at_set_bits};
ghost use Rattle.csv_records.specs.inner.LaneValues.{are_fine, digit_of, fine_lanes, lane_values, puts};
ghost use Rattle.csv_records.specs.lanes.Widths.{are_widths, widths_in, words_of};

use crate::lanes::gather::gather;
use scan_core::WritesWidths;
use std::alloc::AllocError;
use std::simd::prelude::*;

/// The longest field that it reads into a list. Its widths need less memory than a pool of rows keeps.
const LONGEST: usize = 1_920;

/// The longest field that it reads into a row: its widths are together at most 65,535 dots.
const LONGEST_IN_ROW: usize = 640;

/// The lanes of `now` moved by one place, by two or by three, and the last of `before` in front of them.
#[inline(always)]
fn moved_by_one(before: u8x16, now: u8x16) -> u8x16
    ensures { result ≡ take 16 (drop 15 (before ++ now)) }
{
    before.shuffle(
        now,
        [
            15, 16, 17, 18, 19, 20, 21, 22, 23, 24, 25, 26, 27, 28, 29, 30,
        ],
    )
}

#[inline(always)]
fn moved_by_two(before: u8x16, now: u8x16) -> u8x16
    ensures { result ≡ take 16 (drop 14 (before ++ now)) }
{
    before.shuffle(
        now,
        [
            14, 15, 16, 17, 18, 19, 20, 21, 22, 23, 24, 25, 26, 27, 28, 29,
        ],
    )
}

#[inline(always)]
fn moved_by_three(before: u8x16, now: u8x16) -> u8x16
    ensures { result ≡ take 16 (drop 13 (before ++ now)) }
{
    before.shuffle(
        now,
        [
            13, 14, 15, 16, 17, 18, 19, 20, 21, 22, 23, 24, 25, 26, 27, 28,
        ],
    )
}

/// Each byte less 48: a digit's value, and above 9 for any other byte.
#[inline(always)]
fn digits_of(bytes: u8x16) -> u8x16
    ensures { result ≡ map digit_of bytes }
{
    bytes - u8x16::splat(b'0')
}

/// In each lane, the width of the digits before it: the last digit, plus ten times the one before it if that is a
/// digit.
#[inline(always)]
fn values_of(before: u8x16, digits: u8x16) -> u8x16
    ensures { result ≡ lane_values (get_or before 14 0) (get_or before 15 0) digits }
{
    let one = moved_by_one(before, digits);
    let two = moved_by_two(before, digits);
    let none = u8x16::splat(0);
    let tens = two.simd_le(u8x16::splat(9)).select(two, none);
    let twice = tens + tens;
    let four = twice + twice;
    one + ((four + four) + twice)
}

/// 255 in each lane that is a digit, or a space behind one or two digits, else 0.
#[inline(always)]
fn fine_lanes(before: u8x16, digits: u8x16, bytes: u8x16) -> u8x16
    ensures { (prior : List ℕ) → before ≡ map digit_of prior → Each1 (λ b. b < 256) prior → digits ≡ map digit_of bytes
        → result ≡ fine_lanes (get_or prior 13 0) (get_or prior 14 0) (get_or prior 15 0) bytes }
{
    let all = u8x16::splat(255);
    let none = u8x16::splat(0);
    let nine = u8x16::splat(9);
    let not_three = moved_by_three(before, digits)
        .simd_le(nine)
        .select(none, all);
    let few = moved_by_two(before, digits)
        .simd_le(nine)
        .select(not_three, all);
    let some = moved_by_one(before, digits).simd_le(nine).select(few, none);
    let space = bytes.simd_eq(u8x16::splat(b' ')).select(some, none);
    digits.simd_le(nine).select(all, space)
}

/// Whether each lane is 255.
#[inline(always)]
fn are_all(lanes: u8x16) -> bool
    ensures { result ≡ true → list_all (λ x. x == 255) lanes ≡ true }
{
    lanes.simd_ne(u8x16::splat(255)).to_bitmask() == 0
}

/// The lanes that are spaces, as the bits of a mask.
#[inline(always)]
fn spaces(bytes: u8x16) -> u64
    ensures value { result ≡ mask_l (map (λ b. b == 32) bytes) }
    ensures few { result < 65536 }
{
    bytes.simd_eq(u8x16::splat(b' ')).to_bitmask()
}

/// Puts eight lanes into their places.
#[inline(always)]
fn put_eight(lanes: u16x8, widths: &mut [u16], at: usize)
    requires room { at + 8 ≤ length widths.old }
    ensures put { widths.new ≡ take at widths.old ++ (lanes ++ drop (at + 8) widths.old) }
{
    lanes.copy_to_slice(&mut widths[at..at + 8]);
}

/// The first eight lanes, and the others.
#[inline(always)]
fn lower_half(lanes: u8x16) -> u16x8
    ensures { result ≡ take 8 lanes }
{
    lanes.cast::<u16>().extract::<0, 8>()
}

#[inline(always)]
fn upper_half(lanes: u8x16) -> u16x8
    ensures { result ≡ take 8 (drop 8 lanes) }
{
    lanes.cast::<u16>().extract::<8, 8>()
}

/// Writes the lanes at the set bits of a mask from `at` on, and returns how many they are. Up to 16 places behind
/// them get values without meaning.
#[inline(always)]
fn put_lanes(values: u8x16, mask: u64, widths: &mut [u16], at: usize) -> usize
    requires room { at + 16 ≤ length widths.old }
    requires mask { mask < 65536 }
    ensures same { length widths.new ≡ length widths.old }
    ensures put { (bits : List Bool) → length bits ≡ 16 → mask ≡ mask_l bits
        → (take (at + result) widths.new ≡ take at widths.old ++ at_set_bits bits values) × (result ≡ length (at_set_bits bits values)) }
{
    let gathered = gather(values, mask);
    let first = (mask % 256).count_ones() as usize;
    put_eight(lower_half(gathered), widths, at);
    put_eight(upper_half(gathered), widths, at + first);
    first + (mask / 256).count_ones() as usize
}

/// Writes the widths that end in a block from `at` on, and returns how many they are. None if the block has a byte
/// that is not fine. `before` has the digits of the block before it.
#[inline(always)]
fn put_block(before: u8x16, bytes: u8x16, widths: &mut [u16], at: usize) -> Option<usize>
    requires room { at + 16 ≤ length widths.old }
    ensures bytes { Each1 (λ b. b < 256) bytes }
    ensures few { IfSome result (λ count. count ≤ 16) }
    ensures same { length widths.new ≡ length widths.old }
    ensures put { (prior : List ℕ) → before ≡ map digit_of prior → Each1 (λ b. b < 256) prior → IfSome result (λ count.
        (are_fine (get_or prior 13 0) (get_or prior 14 0) (get_or prior 15 0) bytes ≡ true)
        × (take (at + count) widths.new ≡ take at widths.old ++ puts (get_or prior 14 0) (get_or prior 15 0) bytes)
        × (count ≡ length (puts (get_or prior 14 0) (get_or prior 15 0) bytes))) }
{
    let digits = digits_of(bytes);
    if !are_all(fine_lanes(before, digits, bytes)) {
        return None;
    }
    Some(put_lanes(values_of(before, digits), spaces(bytes), widths, at))
}

/// The end of a text, with a space behind it and then zeros, so that its last width ends in it too.
#[inline(always)]
fn last_block(text: &[u8]) -> [u8; 16]
    requires short { length text.now < 16 }
    ensures { result ≡ text.now ++ (32 ∷ replicate (15 - length text.now) 48) }
{
    let mut block = [b'0'; 16];
    block[..text.len()].copy_from_slice(text);
    block[text.len()] = b' ';
    block
}

/// Writes the widths of a field to the first places, and returns how many they are, if each has one or two digits.
fn put_widths(field: &[u8], widths: &mut [u16]) -> Option<usize>
    requires room { length field.now / 2 + 16 ≤ length widths.old }
    ensures same { length widths.new ≡ length widths.old }
    ensures few { IfSome result (λ count. count ≤ length widths.new) }
    ensures put { IfSome result (λ count. (are_widths (words_of field.now) ≡ true) × (take count widths.new ≡ widths_in field.now)
        × (sum (widths_in field.now) ≤ 99 * length field.now + 99) × (has_wide (widths_in field.now) ≡ false)) }
{
    // There is no digit before the first block.
    let mut before = digits_of(u8x16::splat(b' '));
    let mut at = 0;
    let mut done = 0;
    'blocks: while field.len() - done >= 16 {
        let bytes = u8x16::from_slice(&field[done..]);
        let digits = digits_of(bytes);
        let Some(count) = put_block(before, bytes, widths, at) else {
            return None;
        };
        before = digits;
        at += count;
        done += 16;
    }
    let last = u8x16::from_array(last_block(&field[done..]));
    let Some(count) = put_block(before, last, widths, at) else {
        return None;
    };
    Some(at + count)
}

/// Reads the widths of a field, if it is not long and each width has one or two digits. Otherwise there are none.
pub fn read_short_widths(widths: &mut Vec<u16>, field: &[u8]) -> Result<bool, AllocError>
    ensures read { result ≡ Ok true → (are_widths (words_of field.now) ≡ true) × (widths.new.items ≡ widths_in field.now) × (has_wide (widths_in field.now) ≡ false) }
    ensures none { result ≡ Ok false → widths.new.items ≡ [] }
{
    if field.len() <= LONGEST {
        widths.resize(field.len() / 2 + 16, 0)?;
        if let Some(count) = put_widths(field, widths.as_mut_slice()) {
            widths.truncate(count);
            return Ok(true);
        }
    }
    widths.clear();
    Ok(false)
}

/// A field of which each width has one or two digits.
#[derive(Clone, Copy)]
pub struct ShortWidths<'a> {
    pub field: &'a [u8],
}

impl<'a> WritesWidths for ShortWidths<'a> {
    ghost Writes = { λ short widths. (are_widths (words_of short.field.now) ≡ true) × (widths ≡ widths_in short.field.now) };

    fn write(&self, places: &mut [u16]) -> Option<usize> {
        if places.len() < self.field.len() / 2 + 16 || LONGEST_IN_ROW < self.field.len() {
            return None;
        }
        put_widths(self.field, places)
    }
}
