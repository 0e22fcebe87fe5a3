//! The scanning hub: workers read the rows of lanes in parallel, and each lane gets its answers in order.
//!
//! `tests/using/items.txt` lists the public items, and `tests/using/run` fails if the two differ.
#![tactic(auto)]

mod calling_thread;
mod closed_lane;
mod collected_by_lane;
mod deliverer_seat;
mod drain;
mod ended;
mod fault;
mod feeds;
mod gate;
mod hub;
mod lane_seat;
mod laws;
mod lists;
mod pace;
mod parts;
mod rule;
mod serving;
mod shape;
mod signals;
mod traffic;
mod traffic_serving;
mod unsettled;
mod worker_seat;
mod worker_threads;

pub use closed_lane::ClosedLane;
pub use deliverer_seat::{Collected, DelivererSeat, Handed};
pub use ended::Ended;
pub use fault::{HubFault, NotBegun, ServeFault, SubmitFault};
pub use feeds::{Feeds, feeds_are_given};
pub use gate::{Gate, OpenGate};
pub use hub::Hub;
pub use lane_seat::LaneSeat;
pub use laws::{
    answers_are_read, deliverer_keeps_all, deliveries_by_place, headline, polled_first,
    served_by_place, tickets_are_kept, worker_keeps_all,
};
pub use parts::Parts;
pub use rule::{OneForOne, Trace};
pub use serving::serve;
pub use shape::Shape;
pub use signals::Signals;
pub use traffic::Traffic;
pub use traffic_serving::serve_traffic;
pub use unsettled::Unsettled;
pub use worker_seat::{Worked, WorkerSeat};
pub use worker_threads::run_workers;
