//! Gives each lane its deliveries in the order of their numbers, whatever order they arrive in.
ghost use Rattle.std.specs.Prelude.{◌≡◌, ◌<◌, ◌≤◌, ◌↔◌, [], replicate, true, false, IsSome, IfErr, IfOk, IfNone, IfSome, OnErr, OnOk};
ghost use Rattle.lane_core.specs.declared.next_slot.NextSlot.TheVariants.{Missing};
ghost use Rattle.lane_core.specs.inner.NextSlots.{Advances, AreIndexed};
ghost use Rattle.lane_core.specs.ReorderBuffer.{lanes_of, new_buffer, was_taken, has_next, TakesIn, ComesBack, WaitsAsNext, GivesNext, GivesAny};

use crate::delivery::Delivery;
use crate::fault::TakeFault;
use crate::next_slot::{NextSlot, take_first};
use crate::ticket::Ticket;
use digits_core::NoMemory;
use std::alloc::{AllocError, Global};
use std::collections::{BTreeMap, BTreeSet};
use std::marker::Model;

/// Keeps deliveries until it gives them to their lane, each lane's by number from 0.
///
/// Its memory grows with the lanes, with the deliveries that wait and with those that were taken out of turn, not
/// with those that have passed through. A call searches `later` and `known` for at most one ticket; `take_any` goes
/// through the slots if `later` is empty.
#[derive(Debug, Drop)]
pub struct Deliverer {
    /// Each lane's next number. A `u64`, since it is 2 ^ 32 after a lane's last number.
    nexts: Vec<u64>,
    /// The state of each lane's next number.
    slots: Vec<NextSlot>,
    /// The deliveries with later numbers that wait.
    later: BTreeMap<Ticket, Delivery>,
    /// The tickets of later numbers that came, even if their deliveries no longer wait.
    known: BTreeSet<Ticket>,
}

impl Model for Deliverer {
    ghost use Rattle.lane_core.specs.ReorderBuffer.{ReorderBuffer};
    ghost use Rattle.lane_core.specs.inner.NextSlots.{AreKept};
    ghost use Rattle.lane_core.specs.NextSlots.{buffer_by_slots};

    ghost Value = { ReorderBuffer };

    ghost view = { λ d. buffer_by_slots d.nexts.items d.slots.items d.later.entries d.known.keys };

    ghost invariant = { λ d. AreKept d.nexts.items d.slots.items d.later.entries d.known.keys };
}

/// Slots of lanes whose first number has not come. `idle_workers` and `open_lanes` of world.rt have loops of the same
/// form.
fn missing_slots(alloc: Global, count: u16) -> Result<Vec<NextSlot>, AllocError>
    ensures { IfOk result (λ slots. slots.items ≡ replicate count Missing) }
{
    let mut slots = Vec::with_capacity(alloc, usize::from(count))?;
    for _i in 0..count {
        slots.push_reserved(NextSlot::Missing);
    }
    Ok(slots)
}

/// The state of the lane's number `next`, which becomes the lane's next number and so leaves the later ones.
fn slot_of(
    later: &mut BTreeMap<Ticket, Delivery>,
    known: &mut BTreeSet<Ticket>,
    lane: u8,
    next: u64,
) -> NextSlot
    requires { AreIndexed later.old.entries known.old.keys }
    ensures { Advances lane next later.old.entries known.old.keys later.new.entries known.new.keys result }
{
    let Ok(number) = u32::try_from(next) else {
        // The lane has no more tickets: `next` is 2 ^ 32.
        return NextSlot::Missing;
    };
    let ticket = Ticket { lane, number };
    if !known.remove(&ticket) {
        return NextSlot::Missing;
    }
    match later.remove(&ticket) {
        Some(delivery) => NextSlot::Here(delivery),
        None => NextSlot::Out,
    }
}

impl Deliverer {
    /// A deliverer for this many lanes; each lane's next number is 0. There are at most 256 lanes, since a ticket has
    /// its lane as a `u8`.
    pub fn new(alloc: Global, lanes: u16) -> Result<Deliverer, NoMemory>
        requires { lanes ≤ 256 }
        ensures { IfOk result (λ d. d ≡ new_buffer lanes) }
    {
        Ok(Deliverer {
            nexts: vec![in alloc; 0; usize::from(lanes)]?,
            slots: missing_slots(alloc, lanes)?,
            later: BTreeMap::new(alloc),
            known: BTreeSet::new(alloc),
        })
    }

    /// Whether a delivery with this ticket came before.
    fn was_taken(&self, ticket: Ticket) -> bool
        requires { ticket.lane < lanes_of self.now }
        ensures { result ≡ was_taken self.now ticket.lane ticket.number }
    {
        let lane = usize::from(ticket.lane);
        let number = u64::from(ticket.number);
        let given = number < self.nexts[lane];
        let is_next = number == self.nexts[lane];
        let has_come = !matches!(self.slots[lane], NextSlot::Missing);
        // `|` and `&` do not branch: the contract is proved as one equation.
        given | (is_next & has_come) | self.known.contains(&ticket)
    }

    /// Keeps the delivery until its lane gets it.
    ///
    /// If the delivery is refused, the error returns it and nothing changes. A `Stranger` is refused before memory is
    /// taken. A lane's next number needs no memory.
    pub fn take_in(&mut self, delivery: Delivery) -> Result<(), TakeFault>
        ensures taken { OnOk result (TakesIn self.old delivery self.new) }
        ensures refused { IfErr result (ComesBack self.old delivery) }
        ensures unchanged { OnErr result (self.new ≡ self.old) }
        ensures lanes { lanes_of self.new ≡ lanes_of self.old }
    {
        let ticket = delivery.ticket();
        let lane = usize::from(ticket.lane);
        if lane >= self.nexts.len() || self.was_taken(ticket) {
            return Err(TakeFault::Stranger(delivery));
        }
        if u64::from(ticket.number) == self.nexts[lane] {
            self.slots[lane] = NextSlot::Here(delivery);
            return Ok(());
        }
        let Ok(_) = self.known.insert(ticket) else {
            return Err(TakeFault::NoMemory(delivery));
        };
        match self.later.insert(ticket, delivery) {
            Ok(_) => Ok(()),
            Err(failed) => {
                self.known.remove(&ticket);
                Err(TakeFault::NoMemory(failed.value.1))
            }
        }
    }

    /// The delivery of the lane's next number, if it waits.
    pub fn next(&self, lane: u8) -> Option<&Delivery>
        requires { lane < lanes_of self.now }
        ensures some { IfSome result (λ x. WaitsAsNext self.now lane x.now) }
        ensures exactly { IsSome result ↔ (has_next self.now lane ≡ true) }
    {
        match &self.slots[usize::from(lane)] {
            NextSlot::Here(delivery) => Some(delivery),
            _ => None,
        }
    }

    /// Gives the lane the delivery of its next number, if it waits; otherwise nothing changes.
    pub fn take_next(&mut self, lane: u8) -> Option<Delivery>
        requires { lane < lanes_of self.old }
        ensures some { IfSome result (λ x. GivesNext self.old lane x self.new) }
        ensures none { IfNone result ((has_next self.old lane ≡ false) × (self.new ≡ self.old)) }
        ensures lanes { lanes_of self.new ≡ lanes_of self.old }
    {
        let index = usize::from(lane);
        let delivery = self.slots[index].take(NextSlot::Missing)?;
        let next = self.nexts[index] + 1;
        self.nexts[index] = next;
        if self.known.is_empty() {
            // The common case: no later number was taken in, so the slot stays `Missing`.
            return Some(delivery);
        }
        self.slots[index] = slot_of(&mut self.later, &mut self.known, lane, next);
        Some(delivery)
    }

    /// Takes out a delivery that waits, of any lane; none if nothing waits. Its number still counts as taken in, and
    /// its lane gets neither it nor any later number.
    pub fn take_any(&mut self) -> Option<Delivery>
        ensures some { IfSome result (λ x. GivesAny self.old x self.new) }
        ensures none { IfNone result (((self.old).waiting ≡ []) × (self.new ≡ self.old)) }
        ensures lanes { lanes_of self.new ≡ lanes_of self.old }
    {
        match self.later.pop_first() {
            Some((_, delivery)) => Some(delivery),
            None => take_first(self.slots.as_mut_slice()),
        }
    }
}
