//! Reads rows from records while workers answer them.
ghost use Rattle.std.specs.Prelude.{◌≡◌, IfErr, IfOk, string_bytes, true};
ghost use Rattle.hub_core.specs.Serving.{AreSeatCounts};
ghost use Rattle.command_runs.specs.Runs.{TellsFault};
ghost use Rattle.command_runs.specs.answers.Rows.{AnswersRows, RefusesRows};
ghost use Rattle.command_runs.specs.inner.RowReaders.{is_over};
ghost use Rattle.command_runs.specs.inner.ServedRows.{AreAnswered, BeginsUnanswered, TellsOfRows};

use crate::answers::report::joined;
use crate::answers::row_reader::{Course, RowReader};
use crate::answers::serving::{AnswerFault, fault_of, make_texts, push_answer_of};
use csv_records::RecordsFault;
use digits_core::Source;
use element_core::Year;
use hub_core::{Ended, Gate, NotBegun, Traffic, answers_are_read, serve_traffic};
use lane_core::Delivery;
use scan_core::{RowPool, Runs};
use std::alloc::{AllocError, Global};
use std::sync::Wait;
use std::thread::Threads;

/// Why the rows of records have no answers.
#[derive(Clone, Copy, Debug, PartialEq, Eq)]
pub enum RowsFault {
    /// The records are refused, or memory is.
    Records(RecordsFault),
    /// A thread could not be started.
    NoThread,
}

/// Why `wait` fails: the input is refused, and its reader has the reason.
#[derive(Clone, Copy, Debug, PartialEq, Eq)]
struct Refused;

/// The records of a source, and the lines of the rows that have come back.
#[derive(Drop)]
struct RecordRows<'a, S> {
    rows: RowReader<'a, S>,
    /// The lines of each lane.
    texts: Vec<String>,
    /// The memory of rows that have their answers.
    pool: RowPool,
}

impl<'a, S: Source> Traffic for RecordRows<'a, S> {
    ghost use Rattle.std.specs.Prelude.{◌≡◌};
    ghost use Rattle.command_runs.specs.inner.ServedRows.{HasGiven, is_ended};

    type WaitFault = Refused;

    type BringFault = AllocError;

    ghost Came = { λ start s given brought. HasGiven S.left S.failed start s given brought };

    ghost has_ended = { λ s. is_ended s.rows.course };

    ghost Leaves = { λ s t. t.rows ≡ s.rows };

    fn next(&mut self) -> Option<(u8, Runs)> {
        self.rows.next_row(&mut self.pool)
    }

    fn bring(&mut self, delivery: Delivery) -> Result<(), AllocError> {
        push_answer_of(&mut self.texts, &delivery)?;
        self.pool.put_back(delivery.into_row());
        Ok(())
    }

    fn wait(&mut self) -> Result<bool, Refused> {
        match self.rows.course {
            Course::Ended => Ok(false),
            // The input is refused. No other state is possible, since `next` has given no row.
            _ => Err(Refused),
        }
    }
}

/// Serves the rows of a reader. Returns the reader and, if all its rows have answers, the lines of each lane.
fn serve_rows<'a, R: Threads + Wait + Sync, S: Source, G: Gate + Sync>(
    rt: &R,
    alloc: Global,
    lanes: u8,
    workers: u8,
    year: Year,
    rows: RowReader<'a, S>,
    texts: Vec<String>,
    pool: RowPool,
    gate: &G,
) -> (RowReader<'a, S>, Result<Vec<String>, AnswerFault>)
    requires counts { AreSeatCounts lanes workers }
    requires fresh { BeginsUnanswered S.left S.failed lanes rows texts.items }
    ensures same_reference { result.0.input.source.ghost_name ≡ rows.entry.input.source.ghost_name }
    ensures answered { AreAnswered S.left S.failed lanes year rows.entry.input.source result.0 result.1 }
{
    let traffic = RecordRows { rows, texts, pool };
    // A law from which the clause `answered` follows; the call does nothing.
    answers_are_read();
    match serve_traffic(rt, alloc, traffic, lanes, workers, year, gate) {
        Ok((traffic, Ended::Done)) => (traffic.rows, Ok(traffic.texts)),
        // Memory was refused, or a record was: `tell_fault` looks at the reader first.
        Ok((traffic, _)) => (traffic.rows, Err(AnswerFault::NoMemory)),
        Err(
            NotBegun {
                fault,
                input: traffic,
            },
        ) => (traffic.rows, Err(fault_of(fault))),
    }
}

/// The result if rows could not be served for this reason, after `pass_rows`. If the reader refuses the input, its
/// reason comes first. If the source has no record, the report is empty: there was nothing to answer.
fn tell_fault<S: Source>(
    alloc: Global,
    rows: &RowReader<'_, S>,
    fault: AnswerFault,
) -> Result<String, RowsFault>
    requires { is_over rows.now.course ≡ true }
    ensures { TellsOfRows S.left S.failed rows.now result }
{
    match rows.course {
        Course::Refused(refused) => Err(RowsFault::Records(refused)),
        Course::Ended if rows.count == 0 => Ok(String::new(alloc)),
        Course::Ended => match fault {
            AnswerFault::NoThread => Err(RowsFault::NoThread),
            AnswerFault::NoMemory => Err(RowsFault::Records(RecordsFault::NoMemory)),
        },
        Course::Lines | Course::LastLine | Course::Csv(_) => unreachable!(),
    }
}

/// The lines of the answers to the rows that a source has for each lane, lane by lane and by number. All rows go
/// through one hub with this many workers and this gate (`serve_traffic` of hub_core).
///
/// The source has CSV records of two fields: a lane, and the widths of a row in dots, separated by single spaces. It
/// reads no record while a row waits for room in the hub. The error is that of the first faulty record, unless a read
/// fails, the input is too long or memory is refused. `NoThread` is the error only if no record is faulty and there
/// is a row.
pub fn answer_records<R: Threads + Wait + Sync, S: Source, G: Gate + Sync>(
    rt: &R,
    alloc: Global,
    lanes: u8,
    workers: u8,
    year: Year,
    source: &mut S,
    gate: &G,
) -> Result<String, RowsFault>
    requires counts { AreSeatCounts lanes workers }
    ensures report { IfOk result (λ lines. AnswersRows lanes year (S.left source.old) (S.left source.new) (string_bytes lines)) }
    ensures refused { IfErr result (RefusesRows lanes (S.left source.old) (S.left source.new)) }
    ensures fault { TellsFault S.failed source.old source.new result (RowsFault.Records RecordsFault.ReadFault) }
{
    let (Ok(texts), Ok(pool)) = (make_texts(alloc, lanes), RowPool::new(alloc)) else {
        return Err(RowsFault::Records(RecordsFault::NoMemory));
    };
    let rows = RowReader::new(alloc, lanes, source);
    let (mut rows, lines) = serve_rows(rt, alloc, lanes, workers, year, rows, texts, pool, gate);
    let told = match lines {
        Ok(texts) => match joined(alloc, texts) {
            Ok(lines) => Ok(lines),
            Err(_) => Err(RowsFault::Records(RecordsFault::NoMemory)),
        },
        Err(fault) => {
            rows.pass_rows();
            tell_fault(alloc, &rows, fault)
        }
    };
    // Taken out of the reader: the clauses about `source` follow from this.
    let _source = rows.into_source();
    told
}
