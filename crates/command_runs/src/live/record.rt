//! What a line of a live input means.
ghost use Rattle.std.specs.Prelude.{◌≡◌, ◌∷◌, [], IfOk, Some};
ghost use Rattle.command_runs.specs.inner.Meaning.{HoldsNext, IsRecord, ReadAs};
ghost use Rattle.command_runs.specs.live.Text.{fields_meant, line_fault_text, line_meant, message_meant, record_in, without_return};
ghost use Rattle.digits_core.specs.Refusals.{refusal_text};

use csv_records::{RecordFault, RecordRefusal, lane_in, read_runs};
use digits_core::{Refusal, RefusalKind};
use memchr::memchr;
use message_core::is_message;
use scan_core::{RowPool, Runs};
use std::alloc::{AllocError, Global};
use std::fmt;
use wire_core::{Lines, MOST_LINE};

/// Why a record is refused.
#[derive(Clone, Copy, Debug, PartialEq, Eq)]
pub enum LineFault {
    /// It has a fault.
    Record(RecordFault),
    /// Its line has more than `MOST_LINE` bytes.
    InputSize,
    /// Its lane has had all its tickets.
    Spent,
}

impl LineFault {
    /// The refusal that the answer to the record reports.
    fn refusal(self) -> Refusal
        ensures { refusal_text result.kind result.place ≡ line_fault_text self }
    {
        let kind = match self {
            LineFault::Record(fault) => return fault.refusal(),
            LineFault::InputSize => RefusalKind::InputSize,
            LineFault::Spent => RefusalKind::Spent,
        };
        Refusal { kind, place: None }
    }
}

impl fmt::Display for LineFault {
    ghost output = { λ fault. Some (line_fault_text fault) };

    fn fmt<W: fmt::Write>(&self, f: &mut fmt::Formatter<W>) -> fmt::Result {
        self.refusal().fmt(f)
    }
}

/// What is reported of a record that gets no ticket. In specs/ it is a `Told`, by `told_of`.
#[derive(Debug, Drop)]
pub enum Notice {
    /// A message of a scanner: its lane, and its text.
    Message(u8, Vec<u8>),
    /// The lane, if the record has a valid one, and why it gets no ticket.
    Refused(Option<u8>, LineFault),
}

/// What a line means.
#[derive(Debug, Drop)]
pub enum Record {
    /// It is empty.
    Blank,
    /// A row of a lane.
    Row(u8, Runs),
    /// A record without a row.
    Notice(Notice),
}

/// The record of two fields. `read_fields` of answers/lines.rt reads them for the command `lanes`, whose refusal has
/// no lane.
fn read_row(pool: &mut RowPool, lanes: u8, lane: &[u8], widths: &[u8]) -> Result<Record, AllocError>
    ensures { IfOk result (ReadAs lanes (fields_meant lanes (lane.now ∷ widths.now ∷ []))) }
{
    let Some(lane) = lane_in(lane, lanes) else {
        return Ok(Record::Notice(Notice::Refused(None, LineFault::Record(RecordFault::BadLane))));
    };
    match read_runs(pool, widths) {
        Ok(row) => Ok(Record::Row(lane, row)),
        Err(RecordRefusal::Record(fault)) => {
            Ok(Record::Notice(Notice::Refused(Some(lane), LineFault::Record(fault))))
        }
        Err(RecordRefusal::NoMemory) => Err(AllocError),
    }
}

/// The record of a lane and a message of a scanner. It refuses a wrong lane as `read_row` does.
fn read_message(alloc: Global, lanes: u8, lane: &[u8], text: &[u8]) -> Result<Record, AllocError>
    ensures { IfOk result (ReadAs lanes (message_meant lanes lane.now text.now)) }
{
    let Some(lane) = lane_in(lane, lanes) else {
        return Ok(Record::Notice(Notice::Refused(None, LineFault::Record(RecordFault::BadLane))));
    };
    Ok(Record::Notice(Notice::Message(lane, text.to_vec(alloc)?)))
}

/// The record of a line of 1 to `MOST_LINE` bytes. `read_line` of answers/lines.rt reads one that is no message.
fn read_record(
    alloc: Global,
    pool: &mut RowPool,
    lanes: u8,
    line: &[u8],
) -> Result<Record, AllocError>
    ensures { IfOk result (ReadAs lanes (record_in lanes line.now)) }
{
    match memchr(b',', line) {
        Some(comma) => {
            let lane = &line[..comma];
            let text = &line[comma + 1..];
            // This comes first, since a message may have commas.
            if is_message(text) {
                return read_message(alloc, lanes, lane, text);
            }
            match memchr(b',', text) {
                Some(_) => Ok(Record::Notice(Notice::Refused(
                    None,
                    LineFault::Record(RecordFault::Csv),
                ))),
                None => read_row(pool, lanes, lane, text),
            }
        }
        None => Ok(Record::Notice(Notice::Refused(None, LineFault::Record(RecordFault::Csv)))),
    }
}

/// The line without a carriage return at its end.
pub fn without_return(line: &[u8]) -> &[u8]
    ensures { result.now ≡ without_return line.now }
{
    match line.split_last() {
        Some((last, front)) => { if *last == b'\r' { front } else { line } }
        None => line,
    }
}

/// What a line means that was not cut: `Blank`, if it has no byte except a carriage return at its end.
fn line_record(
    alloc: Global,
    pool: &mut RowPool,
    lanes: u8,
    line: &[u8],
) -> Result<Record, AllocError>
    ensures { IfOk result (λ found. IsRecord lanes found (line_meant lanes line.now)) }
{
    let line = without_return(line);
    if line.is_empty() {
        return Ok(Record::Blank);
    }
    // `Lines` cuts a line only if it holds too much of it when it reads: a whole line may be too long.
    if line.len() > MOST_LINE {
        return Ok(Record::Notice(Notice::Refused(None, LineFault::InputSize)));
    }
    read_record(alloc, pool, lanes, line)
}

/// How many bytes the next line has, and its record. None if no complete line is held.
pub fn next_record(
    alloc: Global,
    pool: &mut RowPool,
    lanes: u8,
    lines: &Lines,
) -> Result<Option<(usize, Record)>, AllocError>
    ensures { IfOk result (HoldsNext lanes lines.now) }
{
    let Some(line) = lines.line() else {
        return Ok(None);
    };
    if lines.is_cut() {
        return Ok(Some((
            line.len(),
            Record::Notice(Notice::Refused(None, LineFault::InputSize)),
        )));
    }
    let record = line_record(alloc, pool, lanes, line)?;
    Ok(Some((line.len(), record)))
}
