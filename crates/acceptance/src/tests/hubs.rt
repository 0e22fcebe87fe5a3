//! The hub's calls one by one, on one thread.

use crate::tests::equal::{is_equal, is_true};
use crate::tests::rows::{EAN8, EAN13, GS1_128, row, year_of};
use element_core::Year;
use hub_core::{Collected, Handed, Hub, HubFault, Shape, SubmitFault, Worked};
use lane_core::{Delivery, Ticket};
use scan_core::{Carrier, Runs};
use std::process::Abort;
use std::sync::Wait;
use std::test::Fail;
use test_doubles::{Closed, OpenHub, is_answer};

/// How many lanes and workers a hub has at most.
const MOST: u8 = 16;

/// The carriers of the three rows, in the order in which they are submitted.
const ALL: &[Carrier] = &[Carrier::Ean13, Carrier::Ean8, Carrier::Gs1128];

/// How often a row is submitted before the test gives up.
const TRIES: u32 = 100;

/// A shape whose lanes and workers are as many.
fn shape(count: u8, capacity: u16, limit: u32) -> Shape {
    Shape {
        lanes: count,
        workers: count,
        capacity,
        limit,
    }
}

/// A call of a hub's, and what it answers.
#[derive(Drop)]
enum Step {
    /// A lane submits a row: the ticket, or the line of the refusal.
    Submit(usize, &'static [u16], &'static str),
    /// A worker works once.
    Work(usize, Worked),
    /// The deliverer collects.
    Collect(Collected),
    /// Whether a lane's next delivery is that of this number and this carrier.
    Next(u8, u32, Carrier, bool),
    /// The deliverer hands a lane its next delivery.
    Hand(u8, Handed),
    /// A lane polls the delivery of this number and this carrier.
    Poll(u8, u32, Carrier),
    /// A lane has submitted this many rows.
    Issued(usize, u32),
}

/// That a lane that submits a row is answered by this: the ticket, or the line of the refusal.
fn submits<R: Wait + AllocGlobal + Abort>(
    rt: &R,
    hub: &mut OpenHub,
    lane: usize,
    widths: &[u16],
    told: &str,
) -> Result<(), Fail> {
    let alloc = rt.alloc();
    let found = hub.submit(rt, alloc, lane, row(alloc, widths)?)?;
    is_equal(rt, found.as_str(), told);
    Ok(())
}

/// That a lane polls the delivery of this number and this carrier.
fn polls<R: Abort>(
    rt: &R,
    hub: &mut OpenHub,
    lane: u8,
    number: u32,
    carrier: Carrier,
) -> Result<(), Fail> {
    let found = hub.poll(usize::from(lane))?;
    is_true(rt, is_answer(found.as_ref(), lane, number, carrier));
    Ok(())
}

/// That a step has its answer.
fn take<R: Wait + AllocGlobal + Abort>(rt: &R, hub: &mut OpenHub, step: &Step) -> Result<(), Fail> {
    match step {
        Step::Submit(lane, widths, told) => submits(rt, hub, *lane, widths, told)?,
        Step::Work(worker, told) => is_equal(rt, hub.work(rt, *worker)?, *told),
        Step::Collect(told) => is_equal(rt, hub.collect(rt), *told),
        Step::Next(lane, number, carrier, told) => {
            is_equal(rt, hub.has_next(*lane, *number, *carrier)?, *told);
        }
        Step::Hand(lane, told) => is_equal(rt, hub.hand(*lane)?, *told),
        Step::Poll(lane, number, carrier) => polls(rt, hub, *lane, *number, *carrier)?,
        Step::Issued(lane, count) => is_equal(rt, hub.issued(*lane)?, *count),
    }
    Ok(())
}

/// That each step has its answer, in turn.
fn follow<R: Wait + AllocGlobal + Abort>(
    rt: &R,
    hub: &mut OpenHub,
    steps: &[Step],
) -> Result<(), Fail> {
    for step in steps {
        take(rt, hub, step)?;
    }
    Ok(())
}

/// A hub of this shape that has answered these steps.
fn after<R: Wait + AllocGlobal + Abort>(
    rt: &R,
    shape: Shape,
    steps: &[Step],
) -> Result<OpenHub, Fail> {
    let mut hub = OpenHub::new(rt, rt.alloc(), shape)?;
    follow(rt, &mut hub, steps)?;
    Ok(hub)
}

/// That a lane's list has the deliveries of these carriers, from this number on.
fn are_answers<R: Abort>(
    rt: &R,
    lists: &[Vec<Delivery>],
    lane: u8,
    first: u32,
    carriers: &[Carrier],
) -> Result<(), Fail> {
    let list = lists.get(usize::from(lane)).ok_or("a list")?;
    is_equal(rt, list.len(), carriers.len());
    for (delivery, (number, carrier)) in list.iter().zip((first..).zip(carriers)) {
        is_true(rt, is_answer(Some(delivery), lane, number, *carrier));
    }
    Ok(())
}

/// That the hub is settled with this many lists, each with the deliveries of these carriers, from this number
/// on.
fn settles<R: Wait + AllocGlobal + Abort>(
    rt: &R,
    hub: Closed,
    lanes: u8,
    first: u32,
    carriers: &[Carrier],
) -> Result<(), Fail> {
    let lists = hub.settle(rt, rt.alloc())?;
    is_equal(rt, lists.len(), usize::from(lanes));
    for lane in 0..lanes {
        are_answers(rt, lists.as_slice(), lane, first, carriers)?;
    }
    Ok(())
}

/// That a hub is settled, once it is closed, as `settles` says.
fn is_settled<R: Wait + AllocGlobal + Abort>(
    rt: &R,
    hub: OpenHub,
    lanes: u8,
    first: u32,
    carriers: &[Carrier],
) -> Result<(), Fail> {
    settles(rt, hub.close(rt.alloc())?, lanes, first, carriers)
}

#[test]
fn two_lanes_share_two_workers(rt: HostRuntime) -> Result<(), Fail> {
    after(
        &rt,
        shape(2, 2, 2),
        &[
            Step::Submit(0, EAN13, "0/0"),
            Step::Submit(1, EAN8, "1/0"),
            Step::Submit(0, GS1_128, "refused 34 Full 45"),
            Step::Work(1, Worked::Posted),
            Step::Work(0, Worked::Posted),
            Step::Work(0, Worked::Nothing),
            Step::Submit(0, GS1_128, "0/1"),
            Step::Work(0, Worked::Held),
            Step::Work(0, Worked::Held),
            Step::Collect(Collected::Taken),
            Step::Next(0, 0, Carrier::Ean13, true),
            Step::Next(1, 0, Carrier::Ean8, false),
            Step::Work(0, Worked::Posted),
            Step::Collect(Collected::Taken),
            Step::Collect(Collected::Taken),
            Step::Collect(Collected::Nothing),
            Step::Next(0, 0, Carrier::Ean13, true),
            Step::Next(1, 0, Carrier::Ean8, true),
            Step::Submit(0, EAN8, "refused 35 Spent 45"),
            Step::Issued(0, 2),
            Step::Issued(1, 1),
        ],
    )?;
    Ok(())
}

#[test]
fn one_lane_polls_all_before_it_is_settled(rt: HostRuntime) -> Result<(), Fail> {
    let hub = after(
        &rt,
        shape(1, 1, 2),
        &[
            Step::Submit(0, EAN13, "0/0"),
            Step::Submit(0, EAN8, "refused 34 Full 45"),
            Step::Work(0, Worked::Posted),
            Step::Submit(0, EAN8, "0/1"),
            Step::Work(0, Worked::Held),
            Step::Collect(Collected::Taken),
            Step::Work(0, Worked::Posted),
            Step::Collect(Collected::Taken),
            Step::Hand(0, Handed::Given),
            Step::Hand(0, Handed::RingFull),
            Step::Poll(0, 0, Carrier::Ean13),
            Step::Hand(0, Handed::Given),
            Step::Hand(0, Handed::Nothing),
            Step::Submit(0, GS1_128, "refused 35 Spent 45"),
        ],
    )?;
    let mut hub = hub.close(rt.alloc())?;
    polls_the_last(&rt, &mut hub)?;
    settles(&rt, hub, 1, 2, &[])
}

/// That the one lane polls its second row's delivery, and is done then.
fn polls_the_last<R: Abort>(rt: &R, hub: &mut Closed) -> Result<(), Fail> {
    is_true(rt, !hub.is_done(0)?);
    let last = hub.poll(0)?;
    is_true(rt, is_answer(last.as_ref(), 0, 1, Carrier::Ean8));
    is_true(rt, hub.is_done(0)?);
    is_true(rt, hub.poll(0)?.is_none());
    Ok(())
}

#[test]
fn settles_what_no_lane_has_polled(rt: HostRuntime) -> Result<(), Fail> {
    let mut hub = after(
        &rt,
        shape(1, 3, 3),
        &[
            Step::Submit(0, EAN13, "0/0"),
            Step::Submit(0, EAN8, "0/1"),
            Step::Submit(0, GS1_128, "0/2"),
        ],
    )?;
    is_true(&rt, hub.poll(0)?.is_none());
    is_settled(&rt, hub, 1, 0, ALL)
}

/// Each lane submits the row, and the workers work.
fn submit_to_each<R: Wait + AllocGlobal>(
    rt: &R,
    hub: &mut OpenHub,
    count: u8,
    widths: &[u16],
) -> Result<(), Fail> {
    let alloc = rt.alloc();
    for lane in 0..count {
        hub.submit(rt, alloc, usize::from(lane), row(alloc, widths)?)?;
        hub.work(rt, usize::from(count - 1 - lane))?;
    }
    Ok(())
}

/// That this many deliveries are collected.
fn collects<R: Wait + AllocGlobal + Abort>(
    rt: &R,
    hub: &mut OpenHub,
    count: u32,
) -> Result<(), Fail> {
    for _ in 0..count {
        take(rt, hub, &Step::Collect(Collected::Taken))?;
    }
    Ok(())
}

/// That each lane is handed its first delivery and polls it.
fn polls_of_each<R: Wait + AllocGlobal + Abort>(
    rt: &R,
    hub: &mut OpenHub,
    count: u8,
) -> Result<(), Fail> {
    for lane in 0..count {
        take(rt, hub, &Step::Hand(lane, Handed::Given))?;
        take(rt, hub, &Step::Poll(lane, 0, Carrier::Ean13))?;
    }
    Ok(())
}

/// That two deliveries for each lane are collected, and each lane polls its first.
fn delivers_to_each<R: Wait + AllocGlobal + Abort>(
    rt: &R,
    hub: &mut OpenHub,
    count: u8,
) -> Result<(), Fail> {
    collects(rt, hub, 2 * u32::from(count))?;
    polls_of_each(rt, hub, count)
}

/// A hub of this many lanes and workers, each lane with three rows.
fn with_three_of_each<R: Wait + AllocGlobal + Abort>(rt: &R, count: u8) -> Result<OpenHub, Fail> {
    let mut hub = OpenHub::new(rt, rt.alloc(), shape(count, 64, 3))?;
    for widths in [EAN13, EAN8, GS1_128] {
        submit_to_each(rt, &mut hub, count, widths)?;
    }
    Ok(hub)
}

/// That a hub of this many lanes and workers answers three rows of each lane, one of which it polls.
fn answers_each_lane<R: Wait + AllocGlobal + Abort>(rt: &R, count: u8) -> Result<(), Fail> {
    let mut hub = with_three_of_each(rt, count)?;
    delivers_to_each(rt, &mut hub, count)?;
    is_settled(rt, hub, count, 1, &[Carrier::Ean8, Carrier::Gs1128])
}

#[test]
fn hubs_of_each_size_answer_each_lane(rt: HostRuntime) -> Result<(), Fail> {
    let counts: &[u8] = &[1, 3, 16];
    for &count in counts {
        answers_each_lane(&rt, count)?;
    }
    Ok(())
}

/// One round of the largest hub: every worker works once, one delivery is collected, and each lane is
/// handed one.
fn turn<R: Wait>(rt: &R, hub: &mut OpenHub) -> Result<(), Fail> {
    for worker in 0..MOST {
        hub.work(rt, usize::from(worker))?;
    }
    hub.collect(rt);
    for lane in 0..MOST {
        hub.hand(lane)?;
    }
    Ok(())
}

/// The lane's ticket for the row, which it submits again after a round while the queue is full, and how
/// many rounds that were.
fn submitted<R: Wait>(
    rt: &R,
    hub: &mut OpenHub,
    lane: u8,
    mut row: Runs,
) -> Result<(Ticket, u32), Fail> {
    for rounds in 0..TRIES {
        match hub.offer(rt, usize::from(lane), row)? {
            Ok(ticket) => return Ok((ticket, rounds)),
            Err(SubmitFault::Full(back)) => row = back,
            Err(SubmitFault::Spent(_)) => return Err(Fail::from("spent")),
        }
        turn(rt, hub)?;
    }
    Err(Fail::from("full"))
}

/// That each lane of the largest hub has its three tickets in order. Only the very first row is submitted
/// at once.
fn submits_three_of_each<R: Wait + AllocGlobal + Abort>(
    rt: &R,
    hub: &mut OpenHub,
) -> Result<(), Fail> {
    let alloc = rt.alloc();
    let rows: &[(u32, &[u16])] = &[(0, EAN13), (1, EAN8), (2, GS1_128)];
    for lane in 0..MOST {
        for &(number, widths) in rows {
            let (ticket, rounds) = submitted(rt, hub, lane, row(alloc, widths)?)?;
            is_equal(rt, ticket, Ticket { lane, number });
            is_equal(rt, rounds > 0, ticket != Ticket { lane: 0, number: 0 });
        }
    }
    Ok(())
}

/// The largest hub with the smallest queues, each lane with its three tickets.
fn with_the_smallest_queues<R: Wait + AllocGlobal + Abort>(rt: &R) -> Result<OpenHub, Fail> {
    let mut hub = OpenHub::new(rt, rt.alloc(), shape(MOST, 1, 3))?;
    submits_three_of_each(rt, &mut hub)?;
    Ok(hub)
}

#[test]
fn the_largest_hub_with_the_smallest_queues_answers_each_row(rt: HostRuntime) -> Result<(), Fail> {
    let hub = with_the_smallest_queues(&rt)?;
    is_settled(&rt, hub, MOST, 0, ALL)
}

/// That each lane of the largest hub is spent.
fn are_spent<R: Wait + AllocGlobal + Abort>(rt: &R, hub: &mut OpenHub) -> Result<(), Fail> {
    for lane in 0..MOST {
        submits(rt, hub, usize::from(lane), EAN13, "refused 35 Spent 61")?;
    }
    Ok(())
}

#[test]
fn a_spent_lane_of_the_largest_hub_keeps_its_answers(rt: HostRuntime) -> Result<(), Fail> {
    let mut hub = with_the_smallest_queues(&rt)?;
    are_spent(&rt, &mut hub)?;
    is_settled(&rt, hub, MOST, 0, ALL)
}

#[test]
fn a_spent_lane_is_told_before_a_full_queue(rt: HostRuntime) -> Result<(), Fail> {
    after(
        &rt,
        shape(2, 1, 1),
        &[
            Step::Submit(0, EAN13, "0/0"),
            Step::Submit(0, GS1_128, "refused 35 Spent 45"),
            Step::Submit(1, EAN8, "refused 34 Full 45"),
            Step::Work(0, Worked::Posted),
            Step::Submit(0, GS1_128, "refused 35 Spent 45"),
            Step::Submit(1, EAN8, "1/0"),
            Step::Issued(0, 1),
            Step::Issued(1, 1),
        ],
    )?;
    Ok(())
}

/// That three lists have a delivery each: of an EAN-13, an EAN-8 and a GS1-128.
fn are_of_three_lanes<R: Abort>(rt: &R, lists: &[Vec<Delivery>]) -> Result<(), Fail> {
    are_answers(rt, lists, 0, 0, &[Carrier::Ean13])?;
    are_answers(rt, lists, 1, 0, &[Carrier::Ean8])?;
    are_answers(rt, lists, 2, 0, &[Carrier::Gs1128])
}

#[test]
fn seats_are_settled_in_any_order(rt: HostRuntime) -> Result<(), Fail> {
    let alloc = rt.alloc();
    let hub = after(
        &rt,
        shape(3, 4, 1),
        &[
            Step::Submit(0, EAN13, "0/0"),
            Step::Submit(1, EAN8, "1/0"),
            Step::Submit(2, GS1_128, "2/0"),
            Step::Work(2, Worked::Posted),
        ],
    )?;
    let lists = hub.close(alloc)?.turned().settle(&rt, alloc)?;
    is_equal(&rt, lists.len(), 3);
    are_of_three_lanes(&rt, lists.as_slice())
}

#[test]
fn a_hub_that_did_nothing_is_settled(rt: HostRuntime) -> Result<(), Fail> {
    let hub = after(&rt, shape(3, 2, 1), &[])?;
    is_settled(&rt, hub, 3, 0, &[])
}

/// Whether there is no hub of a shape.
fn is_refused<R: Wait + AllocGlobal>(rt: &R, shape: Shape, year: Year) -> bool {
    matches!(
        Hub::new(rt, rt.alloc(), shape, year),
        Err(HubFault::BadCount)
    )
}

#[test]
fn shapes_have_limits(rt: HostRuntime) -> Result<(), Fail> {
    let year = year_of(2026)?;
    let counts: &[(u8, u8, u16, u32)] = &[
        (0, 1, 1, 1),
        (17, 1, 1, 1),
        (1, 0, 1, 1),
        (1, 17, 1, 1),
        (1, 1, 0, 1),
        (1, 1, 1_025, 1),
        (1, 1, 1, 0),
    ];
    for &(lanes, workers, capacity, limit) in counts {
        let shape = Shape {
            lanes,
            workers,
            capacity,
            limit,
        };
        assert!(rt; is_refused(&rt, shape, year), "{shape:?}");
    }
    Ok(())
}

#[test]
fn the_largest_shape_has_a_hub(rt: HostRuntime) -> Result<(), Fail> {
    OpenHub::new(&rt, rt.alloc(), shape(16, 1_024, u32::MAX))?;
    Ok(())
}

#[test]
fn faults_of_hubs_are_named(rt: HostRuntime) -> Result<(), Fail> {
    let alloc = rt.alloc();
    let text = format!(in alloc; "{} {}", HubFault::BadCount, HubFault::NoMemory)?;
    is_equal(
        &rt,
        text.as_str(),
        "refused 33 BadCount refused 43 NoMemory",
    );
    Ok(())
}
