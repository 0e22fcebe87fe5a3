//! The tickets of a lane, deliveries out of order, and the machine event by event.
ghost use Rattle.std.specs.Prelude.{◌<◌, IfOk, length};
ghost use Rattle.lane_core.specs.ReorderBuffer.{lanes_of};

use crate::tests::equal::{is_equal, is_true};
use crate::tests::rows::{EAN8, EAN13, row, year_of};
use element_core::Year;
use lane_core::{
    Deliverer, Delivery, Event, Job, NoMemory, Place, TakeFault, Ticket, Ticketer, World, decode,
};
use scan_core::{Answer, Carrier};
use std::alloc::Global;
use std::process::Abort;
use std::test::Fail;

/// The delivery of an EAN-13 row under the ticket.
fn delivery(alloc: Global, lane: u8, number: u32) -> Result<Delivery, Fail> {
    let year = year_of(2026)?;
    Ok(decode(Job {
        ticket: Ticket { lane, number },
        row: row(alloc, EAN13)?,
        year,
    }))
}

/// Whether it is the lane's delivery of that number.
fn is_number(found: Option<Delivery>, lane: u8, number: u32) -> bool {
    match found {
        Some(delivery) => delivery.ticket() == Ticket { lane, number },
        None => false,
    }
}

/// Whether it came back as a stranger.
fn is_stranger(taken: Result<(), TakeFault>) -> bool {
    matches!(taken, Err(TakeFault::Stranger(_)))
}

#[test]
fn issues_each_number_once(rt: HostRuntime) -> Result<(), Fail> {
    let mut two = Ticketer::new(3, 2);
    is_equal(&rt, two.issue(), Some(Ticket { lane: 3, number: 0 }));
    is_equal(&rt, two.issue(), Some(Ticket { lane: 3, number: 1 }));
    is_equal(&rt, two.issue(), None);
    is_equal(&rt, two.issue(), None);
    let mut none = Ticketer::new(3, 0);
    is_equal(&rt, none.issue(), None);
    Ok(())
}

/// Whether the delivery is taken in, or else comes back as a stranger.
fn is_taken(deliverer: &mut Deliverer, delivery: Delivery) -> bool
    requires { 0 < lanes_of deliverer.old }
    ensures { 0 < lanes_of deliverer.new }
{
    !is_stranger(deliverer.take_in(delivery))
}

/// That the delivery of this lane and number is taken in, or else comes back as a stranger.
fn takes<R: AllocGlobal + Abort>(
    rt: &R,
    deliverer: &mut Deliverer,
    lane: u8,
    number: u32,
    wanted: bool,
) -> Result<(), Fail>
    requires { 0 < lanes_of deliverer.old }
    ensures { 0 < lanes_of deliverer.new }
{
    let found = is_taken(deliverer, delivery(rt.alloc(), lane, number)?);
    is_equal(rt, found, wanted);
    Ok(())
}

/// Whether lane 0 is given this number next.
fn gives(deliverer: &mut Deliverer, number: u32) -> bool
    requires { 0 < lanes_of deliverer.old }
    ensures { 0 < lanes_of deliverer.new }
{
    is_number(deliverer.take_next(0), 0, number)
}

/// That a new deliverer of one lane takes each delivery once, and gives them by their numbers.
fn hands_two<R: AllocGlobal + Abort>(rt: &R, deliverer: &mut Deliverer) -> Result<(), Fail>
    requires { 0 < lanes_of deliverer.old }
{
    takes(rt, deliverer, 0, 1, true)?;
    is_true(rt, deliverer.next(0).is_none());
    takes(rt, deliverer, 0, 0, true)?;
    takes(rt, deliverer, 0, 0, false)?;
    takes(rt, deliverer, 5, 0, false)?;
    is_true(rt, gives(deliverer, 0));
    is_true(rt, gives(deliverer, 1));
    is_true(rt, deliverer.take_next(0).is_none());
    Ok(())
}

#[test]
fn hands_deliveries_by_number(rt: HostRuntime) -> Result<(), Fail> {
    let mut deliverer = Deliverer::new(rt.alloc(), 1).ok().ok_or("deliverer")?;
    hands_two(&rt, &mut deliverer)
}

#[test]
fn takes_one_out_of_turn(rt: HostRuntime) -> Result<(), Fail> {
    let alloc = rt.alloc();
    let mut deliverer = Deliverer::new(alloc, 1).ok().ok_or("deliverer")?;
    takes(&rt, &mut deliverer, 0, 3, true)?;
    is_true(&rt, deliverer.next(0).is_none());
    is_true(&rt, is_number(deliverer.take_any(), 0, 3));
    is_true(&rt, deliverer.take_any().is_none());
    takes(&rt, &mut deliverer, 0, 3, false)
}

/// A world of one lane.
fn one_lane(alloc: Global, workers: u32) -> Result<World, Fail>
    ensures { IfOk result (λ world. 0 < length world.lanes) }
{
    let year = year_of(2026)?;
    match World::new(alloc, 1, workers, year) {
        Ok(world) => Ok(world),
        Err(_) => Err(Fail::from("memory")),
    }
}

/// Whether the event was done.
fn done(world: &mut World, event: Event) -> Result<bool, Fail>
    requires { 0 < length world.old.lanes }
    ensures { 0 < length world.new.lanes }
{
    match world.step(event) {
        Ok(done) => Ok(done),
        Err(_) => Err(Fail::from("memory")),
    }
}

/// That the event is done, or that it is not.
fn does<R: Abort>(rt: &R, world: &mut World, event: Event, wanted: bool) -> Result<(), Fail>
    requires { 0 < length world.old.lanes }
    ensures { 0 < length world.new.lanes }
{
    let is_done = done(world, event)?;
    is_equal(rt, is_done, wanted);
    Ok(())
}

/// Whether the lane has polled these numbers, each answered as the carrier's.
fn has_polled(world: &World, lane: u8, carriers: &[Carrier]) -> bool
    requires { lane < length world.now.lanes }
{
    let polled = world.polled(lane);
    polled.len() == carriers.len()
        && polled.iter().zip(carriers.iter()).all(|(delivery, wanted)| {
            matches!(delivery.answer(), Answer::Read { carrier, .. } if carrier == *wanted)
        })
}

/// Two rows are submitted.
fn submit_both(alloc: Global, world: &mut World) -> Result<bool, Fail>
    requires { 0 < length world.old.lanes }
    ensures { 0 < length world.new.lanes }
{
    let first = done(world, Event::Submit(0, row(alloc, EAN13)?))?;
    Ok(first && done(world, Event::Submit(0, row(alloc, EAN8)?))?)
}

/// Two rows are submitted and taken, and the second is posted and collected.
fn bring_the_second(alloc: Global, world: &mut World) -> Result<bool, Fail>
    requires { 0 < length world.old.lanes }
    ensures { 0 < length world.new.lanes }
{
    let submitted = submit_both(alloc, world)?;
    let taken = done(world, Event::Take(0))? && done(world, Event::Take(1))?;
    Ok(submitted && taken && done(world, Event::Post(1))? && done(world, Event::Collect)?)
}

/// The first is posted and collected, and both are handed.
fn hand_both(world: &mut World) -> Result<bool, Fail>
    requires { 0 < length world.old.lanes }
    ensures { 0 < length world.new.lanes }
{
    let collected = done(world, Event::Post(0))? && done(world, Event::Collect)?;
    Ok(collected && done(world, Event::Hand(0))? && done(world, Event::Hand(0))?)
}

/// That the lane polls the two in their order, and takes no row once it is closed.
fn polls_both<R: AllocGlobal + Abort>(rt: &R, world: &mut World) -> Result<(), Fail>
    requires { 0 < length world.old.lanes }
{
    does(rt, world, Event::Poll(0), true)?;
    is_true(rt, has_polled(world, 0, &[Carrier::Ean13]));
    does(rt, world, Event::Close(0), true)?;
    does(rt, world, Event::Submit(0, row(rt.alloc(), EAN8)?), false)?;
    does(rt, world, Event::Poll(0), true)?;
    does(rt, world, Event::Poll(0), false)?;
    is_true(rt, has_polled(world, 0, &[Carrier::Ean13, Carrier::Ean8]));
    Ok(())
}

/// That none is handed before the first is collected, and both are then.
fn hands_both<R: AllocGlobal + Abort>(rt: &R, world: &mut World) -> Result<(), Fail>
    requires { 0 < length world.old.lanes }
    ensures { 0 < length world.new.lanes }
{
    is_true(rt, bring_the_second(rt.alloc(), world)?);
    does(rt, world, Event::Hand(0), false)?;
    is_true(rt, hand_both(world)?);
    Ok(())
}

#[test]
fn polls_in_order_what_was_posted_out_of_order(rt: HostRuntime) -> Result<(), Fail> {
    let mut world = one_lane(rt.alloc(), 2)?;
    hands_both(&rt, &mut world)?;
    polls_both(&rt, &mut world)
}

/// That lane 0's ticket of this number is in this place.
fn is_at<R: Abort>(rt: &R, world: &World, number: u32, wanted: Option<Place>) {
    is_equal(rt, world.place(Ticket { lane: 0, number }), wanted);
}

/// That the two tickets are in their places until the first is polled.
fn are_at_each_place<R: AllocGlobal + Abort>(rt: &R, world: &mut World) -> Result<(), Fail>
    requires { 0 < length world.old.lanes }
    ensures { 0 < length world.new.lanes }
{
    is_at(rt, world, 0, None);
    is_true(rt, bring_the_second(rt.alloc(), world)?);
    is_at(rt, world, 0, Some(Place::Worker));
    is_at(rt, world, 1, Some(Place::Waiting));
    is_true(rt, hand_both(world)?);
    is_at(rt, world, 1, Some(Place::Outbox));
    does(rt, world, Event::Poll(0), true)?;
    is_at(rt, world, 0, Some(Place::Polled));
    Ok(())
}

#[test]
fn tells_where_each_ticket_is(rt: HostRuntime) -> Result<(), Fail> {
    let mut world = one_lane(rt.alloc(), 2)?;
    are_at_each_place(&rt, &mut world)?;
    is_equal(&rt, world.issued(0), 2);
    is_true(&rt, !world.is_closed(0));
    Ok(())
}

/// That a new world of one lane does none of these but the close of its lane.
fn does_the_close<R: Abort>(rt: &R, world: &mut World) -> Result<(), Fail>
    requires { 0 < length world.old.lanes }
{
    does(rt, world, Event::Post(0), false)?;
    does(rt, world, Event::Collect, false)?;
    does(rt, world, Event::Poll(0), false)?;
    does(rt, world, Event::Take(7), false)?;
    does(rt, world, Event::Close(4), false)?;
    does(rt, world, Event::Close(0), true)?;
    does(rt, world, Event::Close(0), false)
}

#[test]
fn passes_over_what_cannot_be_done(rt: HostRuntime) -> Result<(), Fail> {
    let mut world = one_lane(rt.alloc(), 1)?;
    does_the_close(&rt, &mut world)
}

/// That a job has this ticket, the EAN-8 row and this year.
fn is_job<R: Abort>(rt: &R, job: &Job, ticket: Ticket, year: Year) {
    is_equal(rt, job.ticket, ticket);
    is_equal(rt, job.row.widths(), EAN8);
    is_equal(rt, job.year, year);
}

/// The same of a delivery.
fn is_delivery<R: Abort>(rt: &R, delivery: &Delivery, ticket: Ticket, year: Year) {
    is_equal(rt, delivery.ticket(), ticket);
    is_equal(rt, delivery.row().widths(), EAN8);
    is_equal(rt, delivery.year(), year);
}

#[test]
fn gives_a_job_and_its_parts_back(rt: HostRuntime) -> Result<(), Fail> {
    let alloc = rt.alloc();
    let year = year_of(2026)?;
    let ticket = Ticket { lane: 2, number: 9 };
    let job = Job {
        ticket,
        row: row(alloc, EAN8)?,
        year,
    };
    is_job(&rt, &job, ticket, year);
    let delivery = decode(job);
    is_delivery(&rt, &delivery, ticket, year);
    let text = format!(in alloc; "{} {}", TakeFault::Stranger(delivery), NoMemory)?;
    is_equal(
        &rt,
        text.as_str(),
        "refused 32 Stranger refused 43 NoMemory",
    );
    Ok(())
}
