//! `World::place`, which looks for a ticket in each place of a world.
ghost use Rattle.std.specs.Prelude.{◌≡◌, ◌≤◌, IfNone, IfSome, option_to_list};
ghost use Rattle.lane_core.specs.Contents.{HoldsOfShown};
ghost use Rattle.lane_core.specs.Machine.{issued_of};
ghost use Rattle.lane_core.specs.Tickets.{is_among, is_held_by};
ghost use Rattle.lane_core.specs.Whereabouts.{IsAt};

use super::World;
use crate::delivery::Delivery;
use crate::job::Job;
use crate::place::Place;
use crate::ticket::Ticket;
use std::collections::VecDeque;

/// Whether one of the jobs has the ticket.
fn is_job_of(jobs: &VecDeque<Job>, ticket: Ticket) -> bool
    ensures { result ≡ is_among ticket.lane ticket.number jobs.now.items }
{
    jobs.iter().any(|job| job.ticket == ticket)
}

/// Whether one of the deliveries has the ticket.
fn is_result_of(results: &VecDeque<Delivery>, ticket: Ticket) -> bool
    ensures { result ≡ is_among ticket.lane ticket.number results.now.items }
{
    results.iter().any(|delivery| delivery.ticket() == ticket)
}

/// Whether there is a job and it has the ticket.
fn has_ticket(job: &Option<Job>, ticket: Ticket) -> bool
    ensures { result ≡ is_among ticket.lane ticket.number (option_to_list job.now) }
{
    match job {
        Some(job) => job.ticket == ticket,
        None => false,
    }
}

/// Whether a worker holds the ticket's job.
fn is_held(workers: &[Option<Job>], ticket: Ticket) -> bool
    ensures { result ≡ is_held_by ticket.lane ticket.number workers.now }
{
    workers.iter().any(|job| has_ticket(job, ticket))
}

impl World {
    /// Where the ticket is; none if it was not issued.
    pub fn place(&self, ticket: Ticket) -> Option<Place>
        ensures found { IfSome result (λ place. HoldsOfShown self.now (λ s. IsAt s ticket.lane ticket.number place)) }
        ensures none { IfNone result (HoldsOfShown self.now (λ s. issued_of s ticket.lane ≤ ticket.number)) }
    {
        let at = ticket.lane as usize;
        if at >= self.lanes.len() {
            return None;
        }
        let index = ticket.number as usize;
        if index as u64 >= self.lanes[at].issued {
            return None;
        }
        if index < self.lanes[at].polled {
            return Some(Place::Polled);
        }
        if index < self.lanes[at].handed.len() {
            return Some(Place::Outbox);
        }
        if is_job_of(&self.jobs, ticket) {
            return Some(Place::JobQueue);
        }
        if is_held(&self.workers, ticket) {
            return Some(Place::Worker);
        }
        if is_result_of(&self.results, ticket) {
            return Some(Place::ResultQueue);
        }
        // It is in exactly one place, by the law `tickets_once`, and only this one is left.
        Some(Place::Waiting)
    }
}
