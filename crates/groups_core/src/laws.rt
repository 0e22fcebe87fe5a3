//! Laws about the state machine. Each is the contract of a function that does nothing.
ghost use Rattle.groups_core.specs.Laws.{AlwaysGoesOn, MarksAreNeeded, OwnAnswers};

/// Whatever arrives again, late, out of order or never, and even if somebody reuses a series, each till has returned
/// the answers to the first of its own rows, in order and each once, if marks distinguish the rows of one name.
pub fn own_answers()
    ensures { OwnAnswers }
{}

/// From every state, a till returns the answer to its next row after the row is submitted, answered and read: no
/// loss, and nothing that anybody has written, stops a lane for ever.
pub fn always_goes_on()
    ensures { AlwaysGoesOn }
{}

/// Without such marks the first law is false: a till may return the answer to another till's row.
pub fn marks_are_needed()
    ensures { MarksAreNeeded }
{}
