//! The lines of a plain text: they are its records, with their meaning.
ghost use Rattle.std.specs.Prelude.{◌≡◌, ◌<◌, ◌∷◌, [], None, false, true, length};
ghost use Rattle.command_runs.specs.inner.Lines.{IsReturnAt};
ghost use Rattle.command_runs.specs.inner.RowReaders.{IsMeant};
ghost use Rattle.command_runs.specs.live.Laws.{IsPlain, ReturnsEndLines};
ghost use Rattle.command_runs.specs.live.Text.{fields_in};
ghost use Rattle.csv.specs.Reading.{strip_bom};
ghost use Rattle.memchr.specs.Find.{IsFirstByte, is_byte};

use csv_records::{RecordFault, RecordRefusal, lane_in, read_runs};
use memchr::{memchr, memchr2};
use scan_core::{RowPool, Runs};

/// Whether the bytes may begin with a byte order mark, `EF BB BF`.
fn may_have_mark(bytes: &[u8]) -> bool
    ensures { result ≡ false → strip_bom bytes.now ≡ bytes.now }
{
    !bytes.is_empty() && bytes[0] == 0xEF
}

/// Whether a carriage return is at this place, and a line feed or no byte after it.
fn is_return(bytes: &[u8], place: usize) -> bool
    requires { place < length bytes.now }
    ensures { result ≡ true → IsReturnAt bytes.now place }
{
    bytes[place] == b'\r' && (place + 1 == bytes.len() || bytes[place + 1] == b'\n')
}

/// Whether there is no quote, and each carriage return is before a line feed or is the last byte. One pass looks for
/// both.
fn are_lines(bytes: &[u8]) -> bool
    ensures quotes { result ≡ true → IsFirstByte (is_byte 34) bytes.now None }
    ensures returns { result ≡ true → ReturnsEndLines bytes.now }
{
    let mut from = 0;
    'each: while from < bytes.len() {
        let Some(at) = memchr2(b'\r', b'"', &bytes[from..]) else {
            return true;
        };
        let place = from + at;
        if !is_return(bytes, place) {
            return false;
        }
        from = place + 1;
    }
    true
}

/// Whether the bytes are a plain text (`IsPlain`): then its records are its lines (`lines_are_records`). False
/// promises nothing, as in `is_return` and `are_lines`: `csv` reads every text.
pub fn are_plain(bytes: &[u8]) -> bool
    ensures { result ≡ true → IsPlain bytes.now }
{
    !may_have_mark(bytes) && are_lines(bytes)
}

/// The lane and the row of two fields, as `read_record` of csv_records reads those of a record. `read_row` of
/// live/record.rt reads them too; its refusal names the lane.
fn read_fields(
    pool: &mut RowPool,
    lanes: u8,
    first: &[u8],
    second: &[u8],
) -> Result<(u8, Runs), RecordRefusal>
    ensures { IsMeant lanes (first.now ∷ second.now ∷ []) result }
{
    let lane = lane_in(first, lanes).ok_or(RecordFault::BadLane)?;
    let runs = read_runs(pool, second)?;
    Ok((lane, runs))
}

/// The lane and the row of a line. `read_record` of live/record.rt reads lines that may also be messages.
pub fn read_line(pool: &mut RowPool, lanes: u8, line: &[u8]) -> Result<(u8, Runs), RecordRefusal>
    ensures { IsMeant lanes (fields_in line.now) result }
{
    let Some(comma) = memchr(b',', line) else {
        return Err(RecordRefusal::Record(RecordFault::Csv));
    };
    let second = &line[comma + 1..];
    match read_fields(pool, lanes, &line[..comma], second) {
        Ok(row) => Ok(row),
        // Only a refused record is searched for a second comma: widths have none.
        Err(RecordRefusal::Record(fault)) => match memchr(b',', second) {
            Some(_) => Err(RecordRefusal::Record(RecordFault::Csv)),
            None => Err(RecordRefusal::Record(fault)),
        },
        Err(RecordRefusal::NoMemory) => Err(RecordRefusal::NoMemory),
    }
}
