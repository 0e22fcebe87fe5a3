//! A row that is held back at the gate is not delivered, and holds no other lane back.

use crate::tests::equal::{is_equal, is_true};
use crate::tests::rows::{EAN8, EAN13, row};
use hub_core::Shape;
use scan_core::Carrier;
use std::process::Abort;
use std::sync::Wait;
use std::test::Fail;
use std::thread::Threads;
use test_doubles::{Closed, LaneGate, OpenHub, is_answer};

/// That the row of the held lane alone is left to settle.
fn settles_the_held<R: Wait + AllocGlobal + Abort>(
    rt: &R,
    hub: Closed,
    held: u8,
    carrier: Carrier,
) -> Result<(), Fail> {
    let lists = hub.settle(rt, rt.alloc())?;
    assert_eq!(*rt; lists.len(), 2);
    is_equal(rt, lists[0].len() + lists[1].len(), 1);
    let list = lists.get(usize::from(held)).ok_or("a list")?;
    is_true(rt, is_answer(list.get(0), held, 0, carrier));
    Ok(())
}

/// The two lanes submit a row each.
fn submit_two<R: Wait + AllocGlobal>(rt: &R, hub: &mut OpenHub) -> Result<(), Fail> {
    let alloc = rt.alloc();
    hub.submit(rt, alloc, 0, row(alloc, EAN13)?)?;
    hub.submit(rt, alloc, 1, row(alloc, EAN8)?)?;
    Ok(())
}

/// A hub of two lanes and two workers, each lane with a row: an EAN-13, and an EAN-8.
fn with_two_rows<R: Wait + AllocGlobal>(rt: &R) -> Result<OpenHub, Fail> {
    let alloc = rt.alloc();
    let shape = Shape {
        lanes: 2,
        workers: 2,
        capacity: 2,
        limit: 1,
    };
    let mut hub = OpenHub::new(rt, alloc, shape)?;
    submit_two(rt, &mut hub)?;
    Ok(hub)
}

/// That one lane's row is delivered while the other's is held.
fn holds<R: Threads + Wait + Sync + AllocGlobal + Abort>(
    rt: &R,
    held: u8,
    free: u8,
    carriers: (Carrier, Carrier),
) -> Result<(), Fail> {
    let alloc = rt.alloc();
    let gate = LaneGate::new(held);
    let hub = with_two_rows(rt)?;
    let (hub, polled, is_held) = hub.poll_and_open(rt, alloc, &gate, (free, held))?;
    is_true(rt, is_answer(polled.as_ref(), free, 0, carriers.0));
    is_true(rt, is_held);
    is_equal(rt, gate.limits_met(), 0);
    settles_the_held(rt, hub.close(alloc)?, held, carriers.1)
}

#[test]
fn a_held_row_is_not_delivered_and_holds_no_other_lane(rt: HostRuntime) -> Result<(), Fail> {
    holds(&rt, 0, 1, (Carrier::Ean8, Carrier::Ean13))?;
    holds(&rt, 1, 0, (Carrier::Ean13, Carrier::Ean8))
}
