//! Reads the rows from the records of a source, one after another.
ghost use Rattle.std.specs.Prelude.{None, ◌≡◌, ◌≢◌, true};
ghost use Rattle.command_runs.specs.inner.Lines.{line_start};
ghost use Rattle.command_runs.specs.inner.RowReaders.{GoesOnAs, GoesToCsv};

use crate::answers::held_input::HeldInput;
use crate::answers::lines::{are_plain, read_line};
use crate::live::record::without_return;
use csv_records::{RecordRefusal, Records, RecordsFault, next_row};
use digits_core::{InputFault, Source};
use memchr::memchr;
use scan_core::{RowPool, Runs};
use std::alloc::Global;

/// If more bytes than this of one line are held, `csv` reads it and all that follows, because each new piece moves
/// and searches all held bytes again. The number is a choice for speed and need not be `CHUNK` of held_input.rt: the
/// records are the same with any number.
const LONG: usize = 65_536;

/// How far the reading of records has come.
#[derive(Drop)]
pub enum Course {
    /// Each held line is a record. If a line came before, its line feed is held too: behind it no bytes count as a
    /// byte order mark.
    Lines,
    /// The source has ended. The last line is held; it has no line feed and may be empty.
    LastLine,
    /// The source has ended, and `csv` reads what was held and what came after it. In a box, since its reader is too
    /// large to move.
    Csv(Box<Records>),
    /// All records were read.
    Ended,
    /// The input is refused for this reason.
    Refused(RecordsFault),
}

/// Reads the records of a source, and returns the row of each.
#[derive(Drop)]
pub struct RowReader<'a, S> {
    alloc: Global,
    lanes: u8,
    input: HeldInput<'a, S>,
    /// How many rows it has returned: the index of the next record.
    pub count: usize,
    /// How far the reading has come, or why it has stopped.
    pub course: Course,
}

/// Where the first held line begins: behind the line feed of the line before it, if that is held.
fn line_start(bytes: &[u8]) -> usize
    ensures { result ≡ line_start bytes.now }
{
    match bytes.first() {
        Some(b'\n') => 1,
        _ => 0,
    }
}

/// Hands `csv` the held bytes and all that still come.
fn give_to_csv<S: Source>(alloc: Global, input: &mut HeldInput<'_, S>) -> Result<Course, InputFault>
    ensures { GoesToCsv S.left S.failed input.old result input.new }
{
    match input.read_rest(alloc) {
        Ok(bytes) => match Box::new(alloc, Records::new(alloc, bytes)) {
            Ok(records) => Ok(Course::Csv(records)),
            Err(_) => Err(InputFault::NoMemory),
        },
        Err(fault) => Err(fault),
    }
}

/// How the reading continues if no whole line is held: with `csv`, if more than `LONG` bytes are held or if these
/// with the next piece fail `are_plain`; with the last line, if nothing more comes; otherwise with lines.
fn next_course<S: Source>(alloc: Global, input: &mut HeldInput<'_, S>) -> Result<Course, InputFault>
    ensures { GoesOnAs S.left S.failed input.old result input.new }
{
    if input.held().len() > LONG {
        return give_to_csv(alloc, input);
    }
    match input.read_piece() {
        Ok(true) if are_plain(input.held()) => Ok(Course::Lines),
        Ok(true) => give_to_csv(alloc, input),
        Ok(false) => Ok(Course::LastLine),
        Err(fault) => Err(fault),
    }
}

impl<'a, S: Source> RowReader<'a, S> {
    ghost use Rattle.command_runs.specs.inner.RowReaders.{BeginsRows, GivesNextRow, GoesOnFrom, IsAtLastLine, PassesRows, ReadsLine, StaysAtLines, TellsRow, WasRead, WhyRefused, is_over};

    /// A reader for this many lanes. It has read nothing of the source yet.
    pub fn new(alloc: Global, lanes: u8, source: &'a mut S) -> RowReader<'a, S>
        ensures same_reference { result.input.source.ghost_name ≡ source.entry.ghost_name }
        ensures gave { BeginsRows S.left S.failed lanes source.entry result }
    {
        RowReader {
            alloc,
            lanes,
            input: HeldInput::new(alloc, source),
            count: 0,
            course: Course::Lines,
        }
    }

    /// Why the input is refused if its next record is. It first reads the rest of the source; if that fails, it
    /// reports that error instead of the record's.
    fn why_refused(&mut self, refusal: RecordRefusal) -> RecordsFault
        ensures { WhyRefused S.left S.failed self.old refusal self.new result }
    {
        match self.course {
            Course::Lines => match self.input.pass_rest() {
                Ok(()) => refusal.at(self.count),
                Err(fault) => RecordsFault::from(fault),
            },
            // After the lines, the input was read to its end.
            _ => refusal.at(self.count),
        }
    }

    /// The row of a record. If the record is refused, the whole input is, and there is no row.
    fn tell(&mut self, row: Result<(u8, Runs), RecordRefusal>) -> Option<(u8, Runs)>
        ensures tells { TellsRow S.left S.failed self.old row result self.new }
        ensures over { result ≡ None → is_over self.new.course ≡ true }
    {
        match row {
            Ok(row) => {
                // `KeepsRows` bounds the count, but only inside the clause: for the code alone it could overflow.
                self.count = self.count.saturating_add(1);
                Some(row)
            }
            Err(refusal) => {
                let why = self.why_refused(refusal);
                self.course = Course::Refused(why);
                None
            }
        }
    }

    /// The row of the next line that is not empty, or why it is refused. None if no such line is held with its line
    /// feed.
    fn next_line(&mut self, pool: &mut RowPool) -> Option<Result<(u8, Runs), RecordRefusal>>
        requires { self.old.course ≡ Course.Lines }
        ensures stays { StaysAtLines self.old result self.new }
        ensures reads { ReadsLine S.left S.failed self.old result self.new }
    {
        'lines: loop {
            let held = self.input.held();
            let start = line_start(held);
            let Some(length) = memchr(b'\n', &held[start..]) else {
                return None;
            };
            let end = start + length;
            let line = without_return(&held[start..end]);
            if !line.is_empty() {
                let row = read_line(pool, self.lanes, line);
                self.input.give_up(end);
                return Some(row);
            }
            self.input.give_up(end);
        }
    }

    /// The row of the last line, which has no line feed, or why the line is refused; none if it is empty.
    fn last_line(&mut self, pool: &mut RowPool) -> Option<Result<(u8, Runs), RecordRefusal>>
        requires { self.old.course ≡ Course.LastLine }
        ensures reads { ReadsLine S.left S.failed self.old result self.new }
        ensures ended { self.new.course ≡ Course.Ended }
    {
        self.course = Course::Ended;
        let held = self.input.held();
        let line = without_return(&held[line_start(held)..]);
        if line.is_empty() {
            return None;
        }
        Some(read_line(pool, self.lanes, line))
    }

    /// Continues with `next_course` if no whole line is held. If that fails, the input is refused.
    fn go_on(&mut self)
        requires { IsAtLastLine self.old }
        ensures { GoesOnFrom S.left S.failed self.old self.new }
    {
        self.course = match next_course(self.alloc, &mut self.input) {
            Ok(course) => course,
            Err(fault) => Course::Refused(RecordsFault::from(fault)),
        };
    }

    /// The row of the next record, once the reading is past the lines.
    fn row_behind_lines(&mut self, pool: &mut RowPool) -> Option<(u8, Runs)>
        requires read { WasRead S.left S.failed self.old }
        requires behind { self.old.course ≢ Course.Lines }
        ensures gives { GivesNextRow S.left S.failed self.old result self.new }
        ensures over { result ≡ None → is_over self.new.course ≡ true }
    {
        match &mut self.course {
            Course::LastLine => match self.last_line(pool) {
                Some(row) => self.tell(row),
                None => None,
            },
            Course::Csv(records) => match next_row(pool, self.lanes, records) {
                Ok(Some(row)) => self.tell(Ok(row)),
                Ok(None) => {
                    self.course = Course::Ended;
                    None
                }
                Err(refusal) => self.tell(Err(refusal)),
            },
            Course::Ended | Course::Refused(_) => None,
            Course::Lines => unreachable!(),
        }
    }

    /// The row of the next record, and its lane. None if there are no more records, or if the input is refused.
    pub fn next_row(&mut self, pool: &mut RowPool) -> Option<(u8, Runs)>
        requires { WasRead S.left S.failed self.old }
        ensures gives { GivesNextRow S.left S.failed self.old result self.new }
        ensures over { result ≡ None → is_over self.new.course ≡ true }
    {
        'pieces: while let Course::Lines = self.course {
            if let Some(row) = self.next_line(pool) {
                return self.tell(row);
            }
            self.go_on();
        }
        self.row_behind_lines(pool)
    }

    /// Reads all rows that are left.
    pub fn pass_rows(&mut self)
        requires { WasRead S.left S.failed self.old }
        ensures same_reference { self.new.input.source.ghost_name ≡ self.old.input.source.ghost_name }
        ensures passes { PassesRows S.left S.failed self.old self.new }
        ensures over { is_over self.new.course ≡ true }
    {
        let mut pool = RowPool::none(self.alloc);
        // The loop ends, since there is at most one more record than there are bytes.
        'rows: while let Some((_, row)) = self.next_row(&mut pool) {
            pool.put_back(row);
        }
    }

    /// The source. It is not read any more.
    pub fn into_source(self) -> &'a mut S
        ensures same_reference { result.ghost_name ≡ self.entry.input.source.ghost_name }
        ensures same { result.now ≡ self.entry.input.source.now }
    {
        let input = self.input;
        input.source
    }
}
