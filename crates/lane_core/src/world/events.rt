//! `World::step`, and a function for each event. Its clauses are those of `step` for this event.
ghost use Rattle.std.specs.Prelude.{◌≡◌, IfErr, IfOk, OnErr, false, length, true};
ghost use Rattle.lane_core.specs.Contents.{IsEnabled, Steps, takes_memory};

use super::World;
use crate::delivery::decode;
use crate::event::Event;
use crate::fault::TakeFault;
use crate::job::Job;
use crate::ticket::Ticket;
use digits_core::NoMemory;
use scan_core::Runs;
use std::mem;

impl World {
    /// Performs the event. Returns true if it did, false if the event was not possible and changed nothing.
    ///
    /// If memory for a possible event is refused, it returns the event, and nothing has changed.
    pub fn step(&mut self, event: Event) -> Result<bool, Event>
        ensures steps { IfOk result (λ done. Steps self.old event done self.new) }
        ensures disabled { IfOk result (λ done. done ≡ false → self.new ≡ self.old) }
        ensures refused { IfErr result (λ back. (back ≡ event) × IsEnabled self.old event) }
        ensures growth { IfErr result (λ back. takes_memory back ≡ true) }
        ensures unchanged { OnErr result (self.new ≡ self.old) }
        ensures lanes { length self.new.lanes ≡ length self.old.lanes }
    {
        match event {
            Event::Submit(lane, row) => self.submit(lane, row),
            Event::Take(worker) => Ok(self.take(worker)),
            Event::Post(worker) => match self.post(worker) {
                Ok(done) => Ok(done),
                Err(NoMemory) => Err(Event::Post(worker)),
            },
            Event::Collect => match self.collect() {
                Ok(done) => Ok(done),
                Err(NoMemory) => Err(Event::Collect),
            },
            Event::Hand(lane) => match self.hand(lane) {
                Ok(done) => Ok(done),
                Err(NoMemory) => Err(Event::Hand(lane)),
            },
            Event::Poll(lane) => Ok(self.poll(lane)),
            Event::Close(lane) => Ok(self.close(lane)),
        }
    }

    /// `Event::Submit`. False if the lane does not exist, is closed or has issued all its tickets.
    fn submit(&mut self, lane: u8, row: Runs) -> Result<bool, Event>
        ensures steps { IfOk result (λ done. Steps self.old (Event.Submit lane row) done self.new) }
        ensures disabled { IfOk result (λ done. done ≡ false → self.new ≡ self.old) }
        ensures refused { IfErr result (λ back. (back ≡ Event.Submit lane row) × IsEnabled self.old (Event.Submit lane row)) }
        ensures unchanged { OnErr result (self.new ≡ self.old) }
        ensures lanes { length self.new.lanes ≡ length self.old.lanes }
    {
        let at = lane as usize;
        if at >= self.lanes.len() {
            return Ok(false);
        }
        if self.lanes[at].closed {
            return Ok(false);
        }
        // A `Ticketer` would end one ticket earlier: its limit is a `u32`, and the machine's is 2 ^ 32.
        let issued = self.lanes[at].issued;
        if issued > u64::from(u32::MAX) {
            return Ok(false);
        }
        let ticket = Ticket {
            lane,
            number: issued as u32,
        };
        let job = Job {
            ticket,
            row,
            year: self.year,
        };
        match self.jobs.push_back(job) {
            Ok(()) => {
                self.lanes[at].issued = issued + 1;
                Ok(true)
            }
            Err(failed) => Err(Event::Submit(lane, failed.value.row)),
        }
    }

    /// `Event::Take`. False if the worker does not exist or has a job, or if no job is queued.
    fn take(&mut self, worker: u32) -> bool
        ensures steps { Steps self.old (Event.Take worker) result self.new }
        ensures disabled { result ≡ false → self.new ≡ self.old }
        ensures lanes { length self.new.lanes ≡ length self.old.lanes }
    {
        let at = worker as usize;
        if at >= self.workers.len() {
            return false;
        }
        if self.workers[at].is_some() {
            return false;
        }
        let Some(job) = self.jobs.pop_front() else {
            return false;
        };
        self.workers[at] = Some(job);
        true
    }

    /// `Event::Post`. False if the worker does not exist or has no job.
    fn post(&mut self, worker: u32) -> Result<bool, NoMemory>
        ensures steps { IfOk result (λ done. Steps self.old (Event.Post worker) done self.new) }
        ensures disabled { IfOk result (λ done. done ≡ false → self.new ≡ self.old) }
        ensures refused { OnErr result (IsEnabled self.old (Event.Post worker)) }
        ensures unchanged { OnErr result (self.new ≡ self.old) }
        ensures lanes { length self.new.lanes ≡ length self.old.lanes }
    {
        let at = worker as usize;
        if at >= self.workers.len() {
            return Ok(false);
        }
        if self.workers[at].is_none() {
            return Ok(false);
        }
        self.results.reserve(1)?;
        let Some(job) = mem::replace(&mut self.workers[at], None) else {
            // Never happens: it was there above.
            return Ok(false);
        };
        self.results.push_back_reserved(decode(job));
        Ok(true)
    }

    /// `Event::Collect`. False if no delivery is queued.
    fn collect(&mut self) -> Result<bool, NoMemory>
        ensures steps { IfOk result (λ done. Steps self.old Event.Collect done self.new) }
        ensures disabled { IfOk result (λ done. done ≡ false → self.new ≡ self.old) }
        ensures refused { OnErr result (IsEnabled self.old Event.Collect) }
        ensures unchanged { OnErr result (self.new ≡ self.old) }
        ensures lanes { length self.new.lanes ≡ length self.old.lanes }
    {
        let Some(delivery) = self.results.pop_front() else {
            return Ok(false);
        };
        match self.deliverer.take_in(delivery) {
            Ok(()) => Ok(true),
            Err(TakeFault::NoMemory(delivery)) => {
                self.results.push_front_reserved(delivery);
                Err(NoMemory)
            }
            // Never happens: by the invariant, one of the lanes issued its ticket, once.
            Err(TakeFault::Stranger(_)) => unreachable!(),
        }
    }

    /// `Event::Hand`. False if the lane does not exist or the delivery of its next number does not wait.
    fn hand(&mut self, lane: u8) -> Result<bool, NoMemory>
        ensures steps { IfOk result (λ done. Steps self.old (Event.Hand lane) done self.new) }
        ensures disabled { IfOk result (λ done. done ≡ false → self.new ≡ self.old) }
        ensures refused { OnErr result (IsEnabled self.old (Event.Hand lane)) }
        ensures unchanged { OnErr result (self.new ≡ self.old) }
        ensures lanes { length self.new.lanes ≡ length self.old.lanes }
    {
        let at = lane as usize;
        if at >= self.lanes.len() {
            return Ok(false);
        }
        if self.deliverer.next(lane).is_none() {
            return Ok(false);
        }
        let outbox = &mut self.lanes[at].handed;
        outbox.reserve(1)?;
        let Some(delivery) = self.deliverer.take_next(lane) else {
            // Never happens: it waited above.
            return Ok(false);
        };
        outbox.push_reserved(delivery);
        Ok(true)
    }

    /// `Event::Poll`. False if the lane does not exist or its outbox is empty.
    fn poll(&mut self, lane: u8) -> bool
        ensures steps { Steps self.old (Event.Poll lane) result self.new }
        ensures disabled { result ≡ false → self.new ≡ self.old }
        ensures lanes { length self.new.lanes ≡ length self.old.lanes }
    {
        let at = lane as usize;
        if at >= self.lanes.len() {
            return false;
        }
        let polled = self.lanes[at].polled;
        if polled >= self.lanes[at].handed.len() {
            return false;
        }
        self.lanes[at].polled = polled + 1;
        true
    }

    /// `Event::Close`. False if the lane does not exist or is closed.
    fn close(&mut self, lane: u8) -> bool
        ensures steps { Steps self.old (Event.Close lane) result self.new }
        ensures disabled { result ≡ false → self.new ≡ self.old }
        ensures lanes { length self.new.lanes ≡ length self.old.lanes }
    {
        let at = lane as usize;
        if at >= self.lanes.len() {
            return false;
        }
        if self.lanes[at].closed {
            return false;
        }
        self.lanes[at].closed = true;
        true
    }
}
