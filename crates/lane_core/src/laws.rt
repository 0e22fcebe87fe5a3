//! Laws about the state machine and about lists of tickets. Each is the contract of a function that does nothing. The
//! file of specs/ that the lines below import has its definition; the comment there and the one here must agree.
ghost use Rattle.lane_core.specs.History.{DoneStaysDone, EventsAreDone, ListsGrow, NothingAfterClose, PolledInOrder, QueuesKeep};
ghost use Rattle.lane_core.specs.Reading.{DeliveriesAreRead, PolledAreRead};
ghost use Rattle.lane_core.specs.Settling.{AllFound, ClaimsSettle, KeptWhole, ReceivedFirst, SameLists};
ghost use Rattle.lane_core.specs.Whereabouts.{LostIsNone, OnePlace, TicketsOnce};

/// Each issued ticket is in exactly one place, and no other ticket is in any place.
pub fn tickets_once()
    ensures { TicketsOnce }
{}

/// Each event happens exactly if its condition holds, in any state.
pub fn events_are_done()
    ensures { EventsAreDone }
{}

/// No ticket is in two places, so it is only where `World::place` finds it.
pub fn one_place()
    ensures { OnePlace }
{}

/// Both queues lose nothing and add nothing.
pub fn queues_keep()
    ensures { QueuesKeep }
{}

/// What a lane has submitted has the numbers 0, 1, 2 and so on and the machine's year. What it has polled is a prefix
/// of it.
pub fn polled_in_order()
    ensures { PolledInOrder }
{}

/// What a lane has submitted and polled stays; more may follow.
pub fn lists_grow()
    ensures { ListsGrow }
{}

/// A closed lane stays closed and submits nothing more.
pub fn nothing_after_close()
    ensures { NothingAfterClose }
{}

/// A closed lane that has polled as many deliveries as it submitted rows has polled all of them, and polls nothing
/// more.
pub fn done_stays_done()
    ensures { DoneStaysDone }
{}

/// A lane's numbers in order, from any number on, are all kept.
pub fn kept_whole()
    ensures { KeptWhole }
{}

/// Two lists of one lane's numbers in order, from one number on, are one list if they have the same items.
pub fn same_lists()
    ensures { SameLists }
{}

/// If all lanes together received only what they submitted, and each lane received its own numbers from 0 on in
/// order, then each received a prefix of its own rows.
pub fn received_first()
    ensures { ReceivedFirst }
{}

/// If queues, workers and deliverer lose nothing and nothing was set aside, then everything that was submitted is in
/// some place.
pub fn all_found()
    ensures { AllFound }
{}

/// The answers of deliveries with one reference year are the answers to their rows.
pub fn deliveries_are_read()
    ensures { DeliveriesAreRead }
{}

/// The answers of what a lane has polled are the answers to the first of its rows, in order.
pub fn polled_are_read()
    ensures { PolledAreRead }
{}

/// If everything that the lanes had not polled was found, and each lane got of it at most what it was due, then each
/// got exactly what it had not polled.
pub fn claims_settle()
    ensures { ClaimsSettle }
{}

/// If nothing was lost, each issued ticket is in exactly one place, and no other ticket is in any place.
pub fn lost_is_none()
    ensures { LostIsNone }
{}
