//! Makes the library calls that take memory, and repeats each if memory was refused: the output is the same whichever
//! call was refused, once in a run. It also calls `serve`, and reports its first refusal.
#![tactic(auto)]

ghost use Rattle.std.specs.Prelude.{◌≡◌, ◌<◌, IfSome, length};
ghost use Rattle.lane_core.specs.ReorderBuffer.{lanes_of};

use digits_core::{FromReader, Gtin, Sink, ToWriter};
use element_core::Year;
use hub_core::{Collected, ServeFault, Shape, serve};
use lane_core::{Deliverer, Delivery, Event, Job, TakeFault, Ticket, World, decode};
use scan_core::Runs;
use sheet_core::{Grid, Label, PrintFault, Sheet, SheetFault, print_pbm, print_sheets, read_pbm};
use std::alloc::Global;
use std::io::{self, Read};
use std::process::ExitCode;
use std::sync::Wait;
use std::thread::Threads;
use test_doubles::{Holding, OpenHub};

// 9501101530003 as EAN-13 and 96385074 as EAN-8, their light ends included, at one dot a module.
const EAN13: &[u16] = &[
    11, 1, 1, 1, 1, 2, 3, 1, 1, 1, 2, 3, 1, 2, 2, 2, 2, 2, 2, 1, 1, 1, 2, 3, 2, 2, 2, 1, 1, 1, 1,
    1, 1, 1, 2, 3, 1, 1, 4, 1, 1, 3, 2, 1, 1, 3, 2, 1, 1, 3, 2, 1, 1, 1, 4, 1, 1, 1, 1, 1, 7,
];

const EAN8: &[u16] = &[
    7, 1, 1, 1, 3, 1, 1, 2, 1, 1, 1, 4, 1, 4, 1, 1, 1, 2, 1, 3, 1, 1, 1, 1, 1, 1, 2, 3, 1, 3, 2, 1,
    1, 1, 3, 1, 2, 1, 1, 3, 2, 1, 1, 1, 7,
];

// Two images of one row; the second is dark.
const IMAGES: &[u8] = b"P4\n8 1\n\x00P4\n8 1\n\xFF";

/// The row of these widths.
fn row(alloc: Global, widths: &[u16]) -> Option<Runs> {
    match Runs::of_widths(alloc, widths) {
        Ok(row) => Some(row),
        Err(_) => Runs::of_widths(alloc, widths).ok(),
    }
}

/// Performs the event. Returns whether it happened.
fn step(world: &mut World, event: Event) -> bool
    ensures { length world.new.lanes ≡ length world.old.lanes }
{
    match world.step(event) {
        Ok(done) => done,
        Err(event) => world.step(event).unwrap_or(false),
    }
}

/// A machine of one lane and two workers.
fn new_world(alloc: Global, year: Year) -> Option<World>
    ensures { IfSome result (λ world. length world.lanes ≡ 1) }
{
    match World::new(alloc, 1, 2, year) {
        Ok(world) => Some(world),
        Err(_) => World::new(alloc, 1, 2, year).ok(),
    }
}

/// Runs the state machine with one lane. Of two rows the second is posted first, so that the first `Hand` finds
/// nothing. Returns how many of the 14 events happened.
fn run_events(world: &mut World, first: Runs, second: Runs) -> u32
    ensures { length world.new.lanes ≡ length world.old.lanes }
{
    let mut done = 0u32;
    done = done.saturating_add(u32::from(step(world, Event::Submit(0, first))));
    done = done.saturating_add(u32::from(step(world, Event::Submit(0, second))));
    done = done.saturating_add(u32::from(step(world, Event::Take(0))));
    done = done.saturating_add(u32::from(step(world, Event::Take(1))));
    done = done.saturating_add(u32::from(step(world, Event::Post(1))));
    done = done.saturating_add(u32::from(step(world, Event::Collect)));
    done = done.saturating_add(u32::from(step(world, Event::Hand(0))));
    done = done.saturating_add(u32::from(step(world, Event::Post(0))));
    done = done.saturating_add(u32::from(step(world, Event::Collect)));
    done = done.saturating_add(u32::from(step(world, Event::Hand(0))));
    done = done.saturating_add(u32::from(step(world, Event::Hand(0))));
    done = done.saturating_add(u32::from(step(world, Event::Poll(0))));
    done = done.saturating_add(u32::from(step(world, Event::Close(0))));
    done.saturating_add(u32::from(step(world, Event::Poll(0))))
}

/// How many events of the state machine happened, and how many deliveries the lane polled.
fn run_machine(alloc: Global, year: Year) -> Option<(u32, usize)> {
    let first = row(alloc, EAN13)?;
    let second = row(alloc, EAN8)?;
    let mut world = new_world(alloc, year)?;
    let done = run_events(&mut world, first, second);
    Some((done, world.polled(0).len()))
}

/// The delivery of lane 0's row of this number.
fn delivery(alloc: Global, number: u32, year: Year) -> Option<Delivery> {
    let row = row(alloc, EAN13)?;
    let ticket = Ticket { lane: 0, number };
    Some(decode(Job { ticket, row, year }))
}

/// Takes the delivery in. Returns whether it succeeded.
fn take_in(deliverer: &mut Deliverer, delivery: Delivery) -> bool
    ensures { lanes_of deliverer.new ≡ lanes_of deliverer.old }
{
    match deliverer.take_in(delivery) {
        Ok(()) => true,
        Err(TakeFault::NoMemory(delivery)) => deliverer.take_in(delivery).is_ok(),
        Err(TakeFault::Stranger(_)) => false,
    }
}

/// A deliverer of one lane.
fn new_deliverer(alloc: Global) -> Option<Deliverer>
    ensures { IfSome result (λ d. lanes_of d ≡ 1) }
{
    match Deliverer::new(alloc, 1) {
        Ok(deliverer) => Some(deliverer),
        Err(_) => Deliverer::new(alloc, 1).ok(),
    }
}

/// The number of the lane's next delivery, which is taken out.
fn take_next(deliverer: &mut Deliverer) -> Option<u32>
    requires { 0 < lanes_of deliverer.old }
    ensures { lanes_of deliverer.new ≡ lanes_of deliverer.old }
{
    deliverer
        .take_next(0)
        .map(|delivery| delivery.ticket().number)
}

/// Takes in the deliveries 2, 1, 0 and 0 again. Returns how many it took in.
fn take_in_each(alloc: Global, year: Year, deliverer: &mut Deliverer) -> Option<u32>
    ensures { lanes_of deliverer.new ≡ lanes_of deliverer.old }
{
    let mut taken = u32::from(take_in(deliverer, delivery(alloc, 2, year)?));
    taken = taken.saturating_add(u32::from(take_in(deliverer, delivery(alloc, 1, year)?)));
    taken = taken.saturating_add(u32::from(take_in(deliverer, delivery(alloc, 0, year)?)));
    taken = taken.saturating_add(u32::from(take_in(deliverer, delivery(alloc, 0, year)?)));
    Some(taken)
}

/// How many deliveries it took in, and what the lane gets then.
fn run_deliverer(alloc: Global, year: Year) -> Option<(u32, [Option<u32>; 4])> {
    let mut deliverer = new_deliverer(alloc)?;
    let taken = take_in_each(alloc, year, &mut deliverer)?;
    let first = take_next(&mut deliverer);
    let second = take_next(&mut deliverer);
    let third = take_next(&mut deliverer);
    let fourth = take_next(&mut deliverer);
    Some((taken, [first, second, third, fourth]))
}

/// What happens to the next delivery of a hub. If memory is refused, it stays in hand, and a further call may collect
/// it.
fn collect<R: Wait>(rt: &R, hub: &mut OpenHub, again: bool) -> Collected {
    match hub.collect(rt) {
        Collected::NoMemory if again => hub.collect(rt),
        other => other,
    }
}

/// Sends three rows through a hub. Row 0 is collected, row 1 stays in a worker's hand, and row 2 is posted, so it
/// comes before its lane's next and needs memory. Returns what happened to it when it was collected, or none if a row
/// was refused memory.
fn send<R: Wait>(rt: &R, alloc: Global, hub: &mut OpenHub, again: bool) -> Option<Collected> {
    hub.offer(rt, 0, row(alloc, EAN13)?).ok()?.ok()?;
    hub.work(rt, 0).ok()?;
    hub.offer(rt, 0, row(alloc, EAN8)?).ok()?.ok()?;
    hub.work(rt, 0).ok()?;
    hub.offer(rt, 0, row(alloc, EAN13)?).ok()?.ok()?;
    hub.work(rt, 1).ok()?;
    collect(rt, hub, true);
    hub.work(rt, 1).ok()?;
    Some(collect(rt, hub, again))
}

/// Sends three rows through a hub with one lane, and settles it. Returns what happened to the last delivery when it
/// was collected, and how many deliveries `settle` returned, 0 if it was refused twice. None if the hub, a row or the
/// closing of the lane was refused memory.
fn try_hub<R: Wait>(rt: &R, alloc: Global, again: bool) -> Option<(Collected, usize)> {
    let shape = Shape {
        lanes: 1,
        workers: 2,
        capacity: 1,
        limit: 3,
    };
    let mut hub = OpenHub::new(rt, alloc, shape).ok()?;
    let collected = send(rt, alloc, &mut hub, again)?;
    let settled = match hub.close(alloc).ok()?.settle(rt, alloc) {
        Ok(lists) => lists.first().map_or(0, |list| list.len()),
        Err(_) => 0,
    };
    Some((collected, settled))
}

/// The same, once more from the beginning if there was none.
fn run_hub<R: Wait>(rt: &R, alloc: Global, again: bool) -> Option<(Collected, usize)> {
    match try_hub(rt, alloc, again) {
        Some(found) => Some(found),
        None => try_hub(rt, alloc, again),
    }
}

/// Sheets of the labels.
fn sheets(alloc: Global, labels: &[Label], grid: Grid) -> Option<Vec<Sheet>> {
    match print_sheets(alloc, labels, grid) {
        Ok(sheets) => Some(sheets),
        Err(SheetFault::NoMemory) => print_sheets(alloc, labels, grid).ok(),
        Err(_) => None,
    }
}

/// How many runs the sheet's second row has.
fn count_runs(alloc: Global, sheet: &Sheet) -> Option<usize> {
    if sheet.height() < 2 {
        return None;
    }
    match sheet.row(alloc, 1) {
        Ok(row) => Some(row.widths().len()),
        Err(_) => Some(sheet.row(alloc, 1).ok()?.widths().len()),
    }
}

/// Writes the images of the labels. Returns whether it succeeded.
fn write_images<W: Sink>(alloc: Global, labels: &[Label], grid: Grid, sink: &mut W) -> bool {
    match print_pbm(alloc, labels, grid, sink) {
        Ok(()) => true,
        Err(PrintFault::Sheet(SheetFault::NoMemory)) => {
            print_pbm(alloc, labels, grid, sink).is_ok()
        }
        Err(_) => false,
    }
}

/// How many sheets a file of images has.
fn count_sheets(alloc: Global, images: &[u8]) -> Option<usize> {
    let sheets = match read_pbm(alloc, &mut FromReader::new(images)) {
        Ok(sheets) => sheets,
        Err(_) => read_pbm(alloc, &mut FromReader::new(images)).ok()?,
    };
    Some(sheets.len())
}

/// Serves three rows of a lane; the second is posted before the first. Returns how many deliveries there are.
fn served<R: Threads + Wait + Sync>(
    rt: &R,
    alloc: Global,
    year: Year,
) -> Result<usize, ServeFault> {
    let first = Ticket { lane: 0, number: 0 };
    let last = Ticket { lane: 0, number: 2 };
    let gate = Holding::new(alloc, &[3], first, last)?;
    let mut feed = Vec::new(alloc);
    for widths in [EAN13, EAN8, EAN13] {
        let row = Runs::of_widths(alloc, widths)
            .ok()
            .ok_or(ServeFault::NoMemory)?;
        if feed.push(row).is_err() {
            return Err(ServeFault::NoMemory);
        }
    }
    let mut feeds = Vec::new(alloc);
    if feeds.push(feed).is_err() {
        return Err(ServeFault::NoMemory);
    }
    let lists = serve(rt, alloc, feeds, 2, year, &gate)?;
    Ok(lists.first().map_or(0, |list| list.len()))
}

/// Without input it repeats each call that was refused. With input it serves three rows, and ends as a command does.
fn main(rt: HostRuntime) -> io::Result<ExitCode> {
    let alloc = rt.alloc();
    let (Some(year), Ok(gtin), Ok(grid)) = (
        Year::new(2026),
        Gtin::read(b"9501101530003"),
        Grid::new(1, 113, 3, 1, 1),
    ) else {
        return Ok(ExitCode::from(2));
    };
    let mut byte = [0u8; 1];
    if rt.reader().read(&mut byte)? > 0 {
        match served(&rt, alloc, year) {
            Ok(count) => println!(rt; "served: {count}")?,
            Err(fault) => {
                eprintln!(rt; "{fault}")?;
                return Ok(ExitCode::from(1));
            }
        }
        return Ok(ExitCode::SUCCESS);
    }
    println!(rt; "machine: {:?}", run_machine(alloc, year))?;
    println!(rt; "deliverer: {:?}", run_deliverer(alloc, year))?;
    println!(rt; "hub: {:?}", run_hub(&rt, alloc, true))?;
    let in_hand = run_hub(&rt, alloc, false).map(|found| found.1);
    println!(rt; "hub with a delivery in hand: {in_hand:?}")?;
    let labels = [Label::Ean13(gtin)];
    for sheet in &sheets(alloc, &labels, grid).unwrap_or(Vec::new(alloc)) {
        let runs = count_runs(alloc, sheet);
        println!(rt;
            "sheet: {} by {}, {runs:?} runs",
            sheet.width(),
            sheet.height()
        )?;
    }
    let written = write_images(alloc, &labels, grid, &mut ToWriter::new(io::writer(&rt)));
    println!(rt; "images written: {written}")?;
    println!(rt; "images read: {:?}", count_sheets(alloc, IMAGES))?;
    Ok(ExitCode::SUCCESS)
}
