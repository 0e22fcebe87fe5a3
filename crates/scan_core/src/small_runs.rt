//! Rounds sixteen runs at a time, if no limit is above 255 dots, as in most rows: each byte of a vector is a run.
//!
//! It compares each limit with all sixteen, as `modules_of` of rounding.rt does with one. A table of widths would
//! need fewer steps for a block, but each row would need its own table, and most rows have few blocks.
ghost use Rattle.std.specs.Prelude.{◌≡◌, ◌+◌, ◌++◌, ◌≤◌, cond, drop, length, map, nat_le, take, true};
ghost use Rattle.std.specs.Simd.Lanes.{zip2};
ghost use Rattle.scan_core.specs.inner.RunLanes.{AreSmall, above_one, are_near, modules_or_none, passed, reaches};

use crate::rounding::Limits;
use std::simd::prelude::*;

/// 1 in each lane whose width reaches the limit beside it, else 0.
#[inline(always)]
fn reached(widths: u8x16, limits: u8x16) -> u8x16
    ensures { result ≡ zip2 reaches limits widths }
{
    limits
        .simd_le(widths)
        .select(u8x16::splat(1), u8x16::splat(0))
}

/// How many limits above one module each width reaches.
#[inline(always)]
fn above_one(widths: u8x16, limits: Limits) -> u8x16
    requires small { AreSmall limits }
    ensures { result ≡ map (above_one limits) widths }
{
    reached(widths, u8x16::splat(limits.two as u8))
        + reached(widths, u8x16::splat(limits.three as u8))
        + reached(widths, u8x16::splat(limits.four as u8))
}

/// How many limits each width is past.
#[inline(always)]
fn passed(widths: u8x16, limits: Limits) -> u8x16
    requires small { AreSmall limits }
    ensures { result ≡ map (passed limits) widths }
{
    reached(widths, u8x16::splat(limits.past_one as u8))
        + reached(widths, u8x16::splat(limits.past_two as u8))
        + reached(widths, u8x16::splat(limits.past_three as u8))
        + reached(widths, u8x16::splat(limits.past_four as u8))
}

/// The number of modules of each run, 0 if it is near none.
#[inline(always)]
fn modules_of_each(widths: u8x16, limits: Limits) -> u8x16
    requires small { AreSmall limits }
    ensures { result ≡ map (modules_or_none limits) widths }
{
    let above = above_one(widths, limits);
    let none = u8x16::splat(0);
    let found = above
        .simd_eq(passed(widths, limits))
        .select(above + u8x16::splat(1), none);
    u8x16::splat(limits.one as u8)
        .simd_le(widths)
        .select(found, none)
}

/// Whether no lane is 0.
#[inline(always)]
fn are_near(modules: u8x16) -> bool
    ensures { result ≡ are_near modules }
{
    modules.simd_eq(u8x16::splat(0)).to_bitmask() == 0
}

/// Widths as bytes, those above 255 as 255.
#[inline(always)]
fn as_bytes(widths: u16x16) -> u8x16
    ensures { result ≡ map (λ w. cond (nat_le w 255) w 255) widths }
{
    let most = u16x16::splat(255);
    widths.simd_le(most).select(widths, most).cast::<u8>()
}

/// Puts sixteen lanes into their places.
#[inline(always)]
fn put_lanes(lanes: u8x16, modules: &mut [u8], at: usize)
    requires room { at + 16 ≤ length modules.old }
    ensures put { modules.new ≡ take at modules.old ++ (lanes ++ drop (at + 16) modules.old) }
{
    lanes.copy_to_slice(&mut modules[at..at + 16]);
}

/// Writes the modules of sixteen runs. Returns whether each run has some.
#[inline(always)]
fn round_block(inner: &[u16], at: usize, limits: Limits, modules: &mut [u8]) -> bool
    requires room { at + 16 ≤ length inner.now }
    requires places { length modules.old ≡ length inner.now }
    requires small { AreSmall limits }
    ensures put { modules.new ≡ take at modules.old
        ++ (map (modules_or_none limits) (take 16 (drop at inner.now)) ++ drop (at + 16) modules.old) }
    ensures near { result ≡ are_near (map (modules_or_none limits) (take 16 (drop at inner.now))) }
{
    let found = modules_of_each(as_bytes(u16x16::from_slice(&inner[at..])), limits);
    put_lanes(found, modules, at);
    are_near(found)
}

/// Writes the number of modules of each run. Returns whether each run has one. It rounds the last sixteen together,
/// some of them a second time.
pub(crate) fn round_small(inner: &[u16], limits: Limits, modules: &mut [u8]) -> bool
    requires many { 16 ≤ length inner.now }
    requires places { length modules.old ≡ length inner.now }
    requires small { AreSmall limits }
    ensures places { length modules.new ≡ length inner.now }
    ensures put { result ≡ true → modules.new ≡ map (modules_or_none limits) inner.now }
    ensures near { result ≡ are_near (map (modules_or_none limits) inner.now) }
{
    let mut done = 0;
    'blocks: while inner.len() - done > 16 {
        if !round_block(inner, done, limits, modules) {
            return false;
        }
        done += 16;
    }
    round_block(inner, inner.len() - 16, limits, modules)
}
