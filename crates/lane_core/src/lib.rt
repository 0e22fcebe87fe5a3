//! Tickets, jobs and deliveries; the deliverer, which gives each lane its deliveries in the order of their numbers;
//! and the state machine of lanes, workers and one deliverer.
//!
//! `tests/using/items.txt` lists the public items, and `tests/using/run` fails if the two differ.
#![tactic(auto)]

mod deliverer;
mod delivery;
mod event;
mod fault;
mod job;
mod lane;
mod laws;
mod next_slot;
mod place;
mod ticket;
mod ticketer;
mod world;

pub use deliverer::Deliverer;
pub use delivery::{Delivery, decode};
pub use digits_core::NoMemory;
pub use event::Event;
pub use fault::TakeFault;
pub use job::{Job, Plain};
pub use laws::{
    all_found, claims_settle, deliveries_are_read, done_stays_done, events_are_done, kept_whole,
    lists_grow, lost_is_none, nothing_after_close, one_place, polled_are_read, polled_in_order,
    queues_keep, received_first, same_lists, tickets_once,
};
pub use place::Place;
pub use ticket::Ticket;
pub use ticketer::Ticketer;
pub use world::World;
