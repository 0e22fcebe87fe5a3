//! The rows of the lanes in a turn, and their deliveries until the turn is written.
ghost use Rattle.std.specs.Prelude.{◌<◌, IfOk, vec_len};
ghost use Rattle.command_runs.specs.inner.Turns.{AreEnded, AreFresh, IsEnded, TakesNumber, TakesNumberOf};

use lane_core::Delivery;
use scan_core::RowPool;
use std::alloc::{AllocError, Global};

/// The rows of a lane in a turn, and their deliveries.
#[derive(Drop)]
pub struct Waiting {
    /// The number of the turn's first row.
    pub first: u32,
    /// The number of the next row.
    pub next: u32,
    /// The deliveries of the turn so far, in the order of their numbers.
    pub deliveries: Vec<Delivery>,
}

/// The lanes before anything has come.
pub fn make_lanes(alloc: Global, count: u8) -> Result<Vec<Waiting>, AllocError>
    ensures { IfOk result (λ lanes. AreFresh count lanes.items) }
{
    let mut lanes = Vec::with_capacity(alloc, usize::from(count))?;
    for _lane in 0..count {
        lanes.push(Waiting {
            first: 0,
            next: 0,
            deliveries: Vec::new(alloc),
        })?;
    }
    Ok(lanes)
}

/// The lane's next number, for one more row, with room for its delivery. None if the lane has used all its numbers,
/// as many as `serve_traffic` has tickets for it (`most_rows` in specs/live/Replies).
fn take_number(waiting: &mut Waiting) -> Result<Option<u32>, AllocError>
    ensures { TakesNumber result waiting.old waiting.new }
{
    let number = waiting.next;
    if number == u32::MAX {
        return Ok(None);
    }
    // The rows of the turn with this one. `first` is never above `number`, though no `requires` says so.
    let turn = number.saturating_sub(waiting.first) as usize + 1;
    waiting.deliveries.reserve(turn)?;
    waiting.next = number + 1;
    Ok(Some(number))
}

/// The next number of this lane, by `take_number`.
pub fn next_number(lanes: &mut Vec<Waiting>, lane: u8) -> Result<Option<u32>, AllocError>
    requires { lane < vec_len lanes.old }
    ensures { TakesNumberOf lane result lanes.old.items lanes.new.items }
{
    take_number(&mut lanes[usize::from(lane)])
}

/// Ends a lane's turn after all its deliveries were written. The memory of their rows goes to the pool.
fn end_lane(waiting: &mut Waiting, pool: &mut RowPool)
    ensures { IsEnded waiting.old waiting.new }
{
    waiting.first = waiting.next;
    'rows: while let Some(delivery) = waiting.deliveries.pop() {
        pool.put_back(delivery.into_row());
    }
}

/// Ends the turn of each lane, by `end_lane`.
pub fn end_turn(lanes: &mut Vec<Waiting>, pool: &mut RowPool)
    ensures { AreEnded lanes.old.items lanes.new.items }
{
    for index in 0..lanes.len() {
        end_lane(&mut lanes[index], pool);
    }
}
