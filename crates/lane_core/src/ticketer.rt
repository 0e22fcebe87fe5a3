//! The tickets of a lane.
ghost use Rattle.std.specs.Prelude.{None, Some, ◌≡◌, ◌<◌, ◌≤◌, ◌+◌};
ghost use Rattle.lane_core.specs.Issuing.{issuing, ticket_of};

use crate::ticket::Ticket;
use std::marker::Model;

/// Issues a lane's tickets, numbered from 0, each once.
///
/// It is for programs that number rows themselves. `Hub::submit` and `World::submit` number a row only if the queue
/// accepts it; `issue` cannot do that.
#[derive(Debug, Drop)]
pub struct Ticketer {
    lane: u8,
    limit: u32,
    issued: u32,
}

impl Model for Ticketer {
    ghost use Rattle.std.specs.Prelude.{◌≤◌};
    ghost use Rattle.lane_core.specs.Issuing.{Issuing, issuing};

    ghost Value = { Issuing };

    ghost view = { λ t. issuing t.lane t.limit t.issued };

    ghost invariant = { λ t. t.issued ≤ t.limit };
}

impl Ticketer {
    /// A lane with `limit` tickets, none of them issued yet.
    pub fn new(lane: u8, limit: u32) -> Ticketer
        ensures { result ≡ issuing lane limit 0 }
    {
        Ticketer {
            lane,
            limit,
            issued: 0,
        }
    }

    /// The next ticket; none, from then on, if all were issued.
    pub fn issue(&mut self) -> Option<Ticket>
        ensures issued { self.old.issued < self.old.limit → (result ≡ Some (ticket_of self.old.lane self.old.issued)) × (self.new ≡ issuing self.old.lane self.old.limit (self.old.issued + 1)) }
        ensures spent { self.old.limit ≤ self.old.issued → (result ≡ None) × (self.new ≡ self.old) }
    {
        if self.issued >= self.limit {
            return None;
        }
        let number = self.issued;
        self.issued += 1;
        Some(Ticket {
            lane: self.lane,
            number,
        })
    }
}
