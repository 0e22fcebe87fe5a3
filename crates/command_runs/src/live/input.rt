//! A live input: the rows in the lines of a wire, and the lines of the answers.
ghost use Rattle.std.specs.Prelude.{◌≡◌, [], IfErr, IfOk, Ok, OnOk, false, length, true};
ghost use Rattle.hub_core.specs.Traffics.{IsLed, IsOwedNothing, Stays, StaysOwedNothing};
ghost use Rattle.command_runs.specs.inner.Came.{HasBegun, HoldsOn, TakesLine, after_line};
ghost use Rattle.command_runs.specs.inner.Finish.{is_finished};
ghost use Rattle.command_runs.specs.inner.Meaning.{IsHeld};
ghost use Rattle.command_runs.specs.inner.Turns.{AreEnded};

use crate::live::fault::{LiveFault, is_open};
use crate::live::pending::{PendingReply, push_replies};
use crate::live::record::{LineFault, Notice, Record, next_record};
use crate::live::terms::LiveTerms;
use crate::live::waiting::{Waiting, end_turn, make_lanes, next_number};
use hub_core::Traffic;
use lane_core::Delivery;
use scan_core::{RowPool, Runs};
use std::alloc::{AllocError, Global};
use std::convert::Infallible;
use wire_core::{Lines, Wire, write_all};

/// How many records a turn answers at most, so that the waiting rows have a limit. The number is a choice for speed,
/// since a turn ends with a write: no proof depends on it.
const TURN: usize = 1_024;

/// The live input has stopped: `Live::stopped` says why.
#[derive(Clone, Copy, Debug, PartialEq, Eq)]
pub struct Stopped;

/// What a live input took of the bytes that have come: at most one line.
#[derive(Debug, Drop)]
pub enum NextLine {
    /// Nothing: no complete line is left.
    Nothing,
    /// A line without a row: it is empty, or its record gets no ticket.
    Line,
    /// A line with a row of this lane.
    Row(u8, Runs),
}

/// A live input: a wire that carries records and their answers, and how far it has come.
#[derive(Drop)]
pub struct Live<W> {
    /// The wire.
    pub wire: W,
    alloc: Global,
    terms: LiveTerms,
    /// The lines of a turn, while they are written.
    text: String,
    /// The rows of each lane in this turn, and their deliveries.
    lanes: Vec<Waiting>,
    /// The replies to the turn's records, in their order.
    replies: Vec<PendingReply>,
    /// The memory of rows that have their answers.
    pool: RowPool,
    /// Bytes from the wire that were not taken yet.
    lines: Lines,
    /// Why it takes nothing more, once it has stopped.
    pub stopped: Option<LiveFault>,
}

impl<W: Wire> Live<W> {
    /// A live input. It has read nothing yet. If memory is refused, it returns the wire.
    pub fn new(alloc: Global, terms: LiveTerms, wire: W) -> Result<Live<W>, W>
        requires { W.Did wire wire [] }
        ensures ok { IfOk result (HasBegun ⟦<Live<W> as Traffic>⟧.Came terms wire) }
        ensures err { IfErr result (λ w. w ≡ wire) }
    {
        let Ok(lanes) = make_lanes(alloc, terms.lanes) else {
            return Err(wire);
        };
        let Ok(lines) = Lines::new(alloc) else {
            return Err(wire);
        };
        let Ok(pool) = RowPool::new(alloc) else {
            return Err(wire);
        };
        Ok(Live {
            wire,
            alloc,
            terms,
            text: String::new(alloc),
            lanes,
            replies: Vec::new(alloc),
            pool,
            lines,
            stopped: None,
        })
    }

    /// Keeps the reply to the record that is held, and returns what its line has. `take_line` then takes the line.
    fn keep(&mut self, found: Record) -> Result<NextLine, AllocError>
        requires { IsHeld (length self.old.lanes.items) self.old.lines found }
        ensures takes { TakesLine ⟦<Live<W> as Traffic>⟧.Came result self.old (after_line result self.new) }
        ensures holds { HoldsOn self.old self.new }
    {
        // First, so that a row gets no number if its reply finds no room.
        self.replies.reserve(1)?;
        match found {
            Record::Blank => Ok(NextLine::Line),
            Record::Notice(notice) => {
                self.replies.push_reserved(PendingReply::Notice(notice));
                Ok(NextLine::Line)
            }
            Record::Row(lane, row) => match next_number(&mut self.lanes, lane)? {
                Some(number) => {
                    self.replies.push_reserved(PendingReply::Row(lane, number));
                    Ok(NextLine::Row(lane, row))
                }
                None => {
                    let spent = Notice::Refused(Some(lane), LineFault::Spent);
                    self.replies.push_reserved(PendingReply::Notice(spent));
                    Ok(NextLine::Line)
                }
            },
        }
    }

    /// Takes the next complete line, if there is one, and keeps the reply to its record. If memory is refused, the
    /// line stays.
    fn take_line(&mut self) -> Result<NextLine, AllocError>
        requires { IsLed ⟦<Live<W> as Traffic>⟧.Came self.old }
        ensures takes { TakesLine ⟦<Live<W> as Traffic>⟧.Came result self.old self.new }
        ensures stopped { self.new.stopped ≡ self.old.stopped }
    {
        let Some((count, found)) = next_record(
            self.alloc,
            &mut self.pool,
            self.terms.lanes,
            &self.lines,
        )?
        else {
            return Ok(NextLine::Nothing);
        };
        match self.keep(found) {
            Ok(taken) => {
                self.lines.take_line(count);
                Ok(taken)
            }
            Err(refused) => Err(refused),
        }
    }

    /// Writes the lines of the turn, whose rows have all come back, and ends the turn: it keeps none of its
    /// deliveries. It writes nothing after a read or a write has failed, or if memory for the lines is refused.
    fn write_turn(&mut self) -> Result<(), Stopped>
        requires { IsOwedNothing ⟦<Live<W> as Traffic>⟧.Came self.old }
        ensures came { StaysOwedNothing ⟦<Live<W> as Traffic>⟧.Came self.old self.new }
        ensures written { OnOk result (self.new.replies.items ≡ []) }
        ensures ended { OnOk result (AreEnded self.old.lanes.items self.new.lanes.items) }
    {
        if !is_open(self.stopped) {
            return Err(Stopped);
        }
        let Ok(()) = push_replies(
            &mut self.text,
            &self.terms,
            self.lanes.as_slice(),
            self.replies.as_slice(),
        ) else {
            self.stopped = Some(LiveFault::NoMemory);
            return Err(Stopped);
        };
        match write_all(&mut self.wire, self.text.as_bytes()) {
            Ok(()) => {
                self.replies.clear();
                end_turn(&mut self.lanes, &mut self.pool);
                Ok(())
            }
            Err(_) => {
                self.stopped = Some(LiveFault::WriteFault);
                Err(Stopped)
            }
        }
    }

    /// Reads once, unless there is still a complete line to take. Returns false at the end of the input.
    fn read_on(&mut self) -> Result<bool, Stopped>
        requires { self.old.replies.items ≡ [] }
        ensures came { Stays ⟦<Live<W> as Traffic>⟧.Came self.old self.new }
        ensures ended { result ≡ Ok false → is_finished self.new ≡ true }
    {
        let None = self.stopped else {
            return Err(Stopped);
        };
        let None = self.lines.line() else {
            return Ok(true);
        };
        if self.lines.has_ended() {
            return Ok(false);
        }
        match self.lines.read(&mut self.wire) {
            Ok(()) => Ok(true),
            Err(_) => {
                self.stopped = Some(LiveFault::ReadFault);
                Err(Stopped)
            }
        }
    }
}

impl<W: Wire> Traffic for Live<W> {
    ghost use Rattle.command_runs.specs.inner.Came.{HasLived};
    ghost use Rattle.command_runs.specs.inner.Finish.{is_finished};

    type WaitFault = Stopped;

    type BringFault = Infallible;

    ghost Came = { λ start s given brought. HasLived W.Did W.read_failed W.write_failed W.at_end start s given brought };

    ghost has_ended = { λ s. is_finished s };

    ghost Leaves = { λ s t. ⊥ };

    /// Waking a worker takes longer than reading a row that comes alone. No proof depends on it: the answers are the
    /// same.
    fn lets_caller_read(&self) -> bool {
        true
    }

    fn next(&mut self) -> Option<(u8, Runs)> {
        // Empty lines have no reply, so the loop has a limit of its own.
        'lines: for _ in 0..TURN {
            if self.stopped.is_some() || self.replies.len() >= TURN {
                return None;
            }
            match self.take_line() {
                Ok(NextLine::Nothing) => return None,
                Ok(NextLine::Line) => {}
                Ok(NextLine::Row(lane, row)) => return Some((lane, row)),
                Err(_) => {
                    self.stopped = Some(LiveFault::NoMemory);
                    return None;
                }
            }
        }
        None
    }

    fn bring(&mut self, delivery: Delivery) -> Result<(), Infallible> {
        let index = usize::from(delivery.ticket().lane);
        // `next_number` made the room.
        self.lanes[index].deliveries.push_reserved(delivery);
        Ok(())
    }

    fn wait(&mut self) -> Result<bool, Stopped> {
        self.write_turn()?;
        self.read_on()
    }
}
