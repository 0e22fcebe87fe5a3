//! Feeds served by workers beside each other.

use crate::tests::equal::{is_equal, is_true};
use crate::tests::rows::{EAN8, EAN13, GS1_128, row, year_of};
use hub_core::{Gate, OpenGate, serve};
use lane_core::{Delivery, Ticket};
use scan_core::Runs;
use std::alloc::Global;
use std::process::Abort;
use std::sync::Wait;
use std::test::Fail;
use std::thread::Threads;
use test_doubles::{Holding, Meeting};

// The first row of the first lane.
const FIRST: Ticket = Ticket { lane: 0, number: 0 };

/// A feed of these rows.
fn feed(alloc: Global, rows: &[&[u16]]) -> Result<Vec<Runs>, Fail> {
    let mut feed = Vec::new(alloc);
    for widths in rows {
        feed.push(row(alloc, widths)?)?;
    }
    Ok(feed)
}

/// Feeds of these rows.
fn feeds(alloc: Global, lanes: &[&[&[u16]]]) -> Result<Vec<Vec<Runs>>, Fail> {
    let mut feeds = Vec::new(alloc);
    for rows in lanes {
        feeds.push(feed(alloc, rows)?)?;
    }
    Ok(feeds)
}

/// The front of a delivery's answer.
fn front(alloc: Global, delivery: &Delivery) -> Result<String, Fail> {
    let answer = format!(in alloc; "{:?}", delivery.answer())?;
    let front = answer.as_str().split(',').next().ok_or("answer")?;
    Ok(String::from_str(alloc, front)?)
}

/// The line of a delivery: its lane and number, how many runs its row has, and the front of its answer.
fn line(alloc: Global, place: usize, delivery: &Delivery) -> Result<String, Fail> {
    let Ticket { lane, number } = delivery.ticket();
    let count = delivery.row().widths().len();
    let front = front(alloc, delivery)?;
    Ok(format!(in alloc; "{place}: {lane}/{number} {count} {front}\n")?)
}

/// A line for each delivery.
fn shown(alloc: Global, lists: &[Vec<Delivery>]) -> Result<String, Fail> {
    let mut text = String::new(alloc);
    for (place, list) in lists.iter().enumerate() {
        for delivery in list {
            text.push_str(line(alloc, place, delivery)?.as_str())?;
        }
    }
    Ok(text)
}

/// The lines of the deliveries of these rows, or the line of the fault.
fn answered<R: Threads + Wait + AllocGlobal + Sync, G: Gate + Sync>(
    rt: &R,
    lanes: &[&[&[u16]]],
    workers: u8,
    gate: &G,
) -> Result<String, Fail> {
    let alloc = rt.alloc();
    let year = year_of(2026)?;
    match serve(rt, alloc, feeds(alloc, lanes)?, workers, year, gate) {
        Ok(lists) => shown(alloc, lists.as_slice()),
        Err(fault) => Ok(fault.to_string(alloc)?),
    }
}

#[test]
fn two_workers_run_beside_each_other(rt: HostRuntime) -> Result<(), Fail> {
    let gate = Holding::new(rt.alloc(), &[2], FIRST, Ticket { lane: 0, number: 1 })?;
    let found = answered(&rt, &[&[EAN13, EAN8]], 2, &gate)?;
    is_true(&rt, gate.saw_each_once());
    is_equal(
        &rt,
        found.as_str(),
        "0: 0/0 61 Read { carrier: Ean13\n\
         0: 0/1 45 Read { carrier: Ean8\n",
    );
    Ok(())
}

#[test]
fn one_worker_reads_one_row_at_a_time(rt: HostRuntime) -> Result<(), Fail> {
    // Nobody else reads, so the second row comes to the gate only after the first has waited to its limit.
    let gate = Holding::new(rt.alloc(), &[2], FIRST, Ticket { lane: 0, number: 1 })?;
    let gate = gate.with_limit(100_000);
    answered(&rt, &[&[EAN13, EAN8]], 1, &gate)?;
    is_true(&rt, gate.counted_each_once());
    is_true(&rt, !gate.saw_each_once());
    Ok(())
}

#[test]
fn a_worker_that_is_held_holds_no_other_row(rt: HostRuntime) -> Result<(), Fail> {
    let gate = Holding::new(rt.alloc(), &[3], FIRST, Ticket { lane: 0, number: 2 })?;
    let found = answered(&rt, &[&[EAN13, EAN8, GS1_128]], 2, &gate)?;
    is_true(&rt, gate.saw_each_once());
    is_equal(
        &rt,
        found.as_str(),
        "0: 0/0 61 Read { carrier: Ean13\n\
         0: 0/1 45 Read { carrier: Ean8\n\
         0: 0/2 45 Read { carrier: Gs1128\n",
    );
    Ok(())
}

#[test]
fn sixteen_workers_run_beside_each_other(rt: HostRuntime) -> Result<(), Fail> {
    let lane: &[&[u16]] = &[EAN8];
    let gate = Meeting::of(rt.alloc(), 16)?;
    answered(&rt, &[lane; 16], 16, &gate)?;
    is_true(&rt, gate.has_met());
    Ok(())
}

/// How many rows each of sixteen lanes is fed.
fn count_of(lane: u8) -> u16 {
    u16::from(lane) * 40
}

/// The widths of a lane's row of this number.
fn widths_of(lane: u8, number: u16) -> &'static [u16] {
    if (u32::from(lane) + u32::from(number)) % 3 == 0 {
        EAN13
    } else {
        EAN8
    }
}

/// The feed of a lane, of this many rows.
fn long_feed(alloc: Global, lane: u8, count: u16) -> Result<Vec<Runs>, Fail> {
    let mut feed = Vec::new(alloc);
    for number in 0..count {
        feed.push(row(alloc, widths_of(lane, number))?)?;
    }
    Ok(feed)
}

/// The feeds of sixteen lanes.
fn long_feeds(alloc: Global) -> Result<Vec<Vec<Runs>>, Fail> {
    let mut feeds = Vec::new(alloc);
    for lane in 0..16 {
        feeds.push(long_feed(alloc, lane, count_of(lane))?)?;
    }
    Ok(feeds)
}

/// That a lane's deliveries are those of its feed of this many rows, in their order.
fn are_of_the_feed<R: Abort>(rt: &R, lane: u8, count: u16, list: &[Delivery]) -> Result<(), Fail> {
    is_equal(rt, list.len(), usize::from(count));
    for number in 0..count {
        let delivery = list.get(usize::from(number)).ok_or("a delivery")?;
        is_equal(rt, delivery.ticket().number, u32::from(number));
        is_equal(rt, delivery.row().widths(), widths_of(lane, number));
    }
    Ok(())
}

/// That this many workers serve the sixteen feeds, each in its order.
fn serve_in_order<R: Threads + Wait + AllocGlobal + Sync + Abort>(
    rt: &R,
    workers: u8,
) -> Result<(), Fail> {
    let alloc = rt.alloc();
    let year = year_of(2026)?;
    let lists = serve(rt, alloc, long_feeds(alloc)?, workers, year, &OpenGate)?;
    is_equal(rt, lists.len(), 16);
    for lane in 0..16 {
        let list = lists.get(usize::from(lane)).ok_or("a list")?;
        are_of_the_feed(rt, lane, count_of(lane), list.as_slice())?;
    }
    Ok(())
}

#[test]
fn many_rows_and_workers_change_no_order(rt: HostRuntime) -> Result<(), Fail> {
    let worker_counts: &[u8] = &[1, 4, 5, 9, 16];
    for &workers in worker_counts {
        serve_in_order(&rt, workers)?;
    }
    Ok(())
}

/// The deliveries of one lane with this many rows, whose two workers pass this gate.
fn served_past<R: Threads + Wait + AllocGlobal + Sync, G: Gate + Sync>(
    rt: &R,
    count: u16,
    gate: &G,
) -> Result<Vec<Vec<Delivery>>, Fail> {
    let alloc = rt.alloc();
    let year = year_of(2026)?;
    let mut feeds = Vec::new(alloc);
    feeds.push(long_feed(alloc, 0, count)?)?;
    Ok(serve(rt, alloc, feeds, 2, year, gate)?)
}

#[test]
fn a_held_row_holds_none_of_three_thousand(rt: HostRuntime) -> Result<(), Fail> {
    let last = Ticket {
        lane: 0,
        number: 3_000,
    };
    let gate = Holding::new(rt.alloc(), &[3_001], FIRST, last)?;
    let lists = served_past(&rt, 3_001, &gate)?;
    is_true(&rt, gate.saw_each_once());
    let list = lists.get(0).ok_or("a list")?;
    are_of_the_feed(&rt, 0, 3_001, list.as_slice())
}

/// That this many workers serve no such lanes.
fn is_refused<R: Threads + Wait + AllocGlobal + Sync + Abort>(
    rt: &R,
    lanes: &[&[&[u16]]],
    workers: u8,
) -> Result<(), Fail> {
    let found = answered(rt, lanes, workers, &OpenGate)?;
    assert_eq!(*rt; found.as_str(), "refused 33 BadCount", "{workers} workers");
    Ok(())
}

#[test]
fn counts_are_1_to_16(rt: HostRuntime) -> Result<(), Fail> {
    let some: &[&[u16]] = &[EAN13];
    let none: &[&[u16]] = &[];
    let seventeen: &[&[&[u16]]] = &[none; 17];
    let cases: &[(&[&[&[u16]]], u8)] = &[
        (&[some], 0),
        (&[some], 17),
        (&[some], 255),
        (&[], 1),
        (seventeen, 1),
    ];
    for (lanes, workers) in cases {
        is_refused(&rt, lanes, *workers)?;
    }
    Ok(())
}

// A row without a dark dot.
const BLANK: &[u16] = &[100];

// The rows of three lanes, and the lines of their deliveries.
const THREE_LANES: &[&[&[u16]]] = &[&[], &[EAN8], &[EAN13, BLANK, EAN13, EAN8, BLANK]];

const THREE_LANES_ANSWERED: &str = "1: 1/0 45 Read { carrier: Ean8\n\
                                    2: 2/0 61 Read { carrier: Ean13\n\
                                    2: 2/1 1 Refused(Blank)\n\
                                    2: 2/2 61 Read { carrier: Ean13\n\
                                    2: 2/3 45 Read { carrier: Ean8\n\
                                    2: 2/4 1 Refused(Blank)\n";

/// That this many workers answer the three lanes.
fn serves_three_lanes<R: Threads + Wait + AllocGlobal + Sync + Abort>(
    rt: &R,
    workers: u8,
) -> Result<(), Fail> {
    let alloc = rt.alloc();
    let year = year_of(2026)?;
    let fed = feeds(alloc, THREE_LANES)?;
    let lists = serve(rt, alloc, fed, workers, year, &OpenGate)?;
    is_equal(rt, lists.len(), 3);
    let text = shown(alloc, lists.as_slice())?;
    assert_eq!(*rt; text.as_str(), THREE_LANES_ANSWERED, "{workers} workers");
    Ok(())
}

#[test]
fn any_number_of_workers_serves_the_same(rt: HostRuntime) -> Result<(), Fail> {
    let worker_counts: &[u8] = &[1, 2, 3, 5, 9, 16];
    for &workers in worker_counts {
        serves_three_lanes(&rt, workers)?;
    }
    Ok(())
}
