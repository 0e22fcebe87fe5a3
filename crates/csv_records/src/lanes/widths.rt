//! Reads fields: a number of a few digits, and the widths of a row.
ghost use Rattle.std.specs.Prelude.{None, Some, ◌==◌, ◌≡◌, ◌≤◌, ◌*◌, ◌-◌, true, false, length, ◌<◌, IfNone, IfOk, IfSome, List, OnOk, [], ℕ};
ghost use Rattle.std.specs.List.{count_by};
ghost use Rattle.std.specs.Char.{is_ascii_digit};
ghost use Rattle.csv_records.specs.inner.FrontWidths.{BeginsWithDigits, IsFirstWidth, capped, has_wide};
ghost use Rattle.csv_records.specs.lanes.Widths.{number_in, are_widths, field_fault, of_runs, widths_in, words_of};
ghost use Rattle.csv_records.specs.declared.input.fault.RecordFault.{RecordFault};

use crate::input::fault::{RecordFault, RecordRefusal};
use crate::lanes::short_widths::{ShortWidths, read_short_widths};
use scan_core::{RowPool, RunFault, Runs};

/// The number of a text of one to `most` digits. `most` is at most 5, since the proof bounds the number by
/// `front_small`, the lemma for widths. The loop of `width_of_any_length` reads digits in the same way.
pub fn number_in(text: &[u8], most: usize) -> Option<u32>
    requires { most ≤ 5 }
    ensures { result ≡ number_in most text.now }
{
    if text.is_empty() || text.len() > most {
        return None;
    }
    let mut number = 0;
    for digit in text {
        if !digit.is_ascii_digit() {
            return None;
        }
        number = number * 10 + u32::from(*digit - b'0');
    }
    Some(number)
}

/// The width at the front of a text, byte by byte, with the clauses of `first_width`. It reads digits as `number_in`
/// does.
fn width_of_any_length(text: &[u8]) -> Option<(u32, &[u8])>
    ensures some { IfSome result (λ width. IsFirstWidth text.now width.0 width.1.now) }
    ensures small { IfSome result (λ width. width.0 < 100000) }
    ensures none { IfNone result (are_widths (words_of text.now) ≡ false) }
{
    let mut width = 0;
    'digits: for (length, byte) in text.iter().enumerate() {
        if *byte == b' ' && length > 0 {
            return Some((width, &text[length + 1..]));
        }
        if length == 5 || !byte.is_ascii_digit() {
            return None;
        }
        width = width * 10 + u32::from(*byte - b'0');
    }
    if text.is_empty() {
        return None;
    }
    Some((width, &[]))
}

/// The width at the front of a text, up to its first space or its end, and the text after this space, which is empty
/// if there is no space.
fn first_width(text: &[u8]) -> Option<(u32, &[u8])>
    ensures some { IfSome result (λ width. IsFirstWidth text.now width.0 width.1.now) }
    ensures small { IfSome result (λ width. width.0 < 100000) }
    ensures none { IfNone result (are_widths (words_of text.now) ≡ false) }
{
    match text {
        // Most widths have one or two digits. `width_of_any_length` would find these too, but slower.
        [digit, space, after @ ..] if *space == b' ' && digit.is_ascii_digit() => {
            Some((u32::from(*digit - b'0'), after))
        }
        [tens, units, space, after @ ..]
            if *space == b' ' && tens.is_ascii_digit() && units.is_ascii_digit() => {
            Some((
                u32::from(*tens - b'0') * 10 + u32::from(*units - b'0'),
                after,
            ))
        }
        _ => width_of_any_length(text),
    }
}

/// How many spaces a text of at most 255 bytes has. It counts them in one byte, so that the processor adds many at
/// once.
fn count_spaces(text: &[u8]) -> u8
    requires few { length text.now ≤ 255 }
    ensures { result ≡ count_by (λ b. b == 32) text.now }
{
    let mut spaces = 0;
    for byte in text {
        spaces += u8::from(*byte == b' ');
    }
    spaces
}

/// How many words a field has, by its spaces.
fn count_words(field: &[u8]) -> usize
    ensures { result ≡ length (words_of field.now) }
{
    let mut spaces = 0;
    for part in field.chunks(255) {
        spaces += usize::from(count_spaces(part));
    }
    spaces + 1
}

/// A zero and a space, as the bytes of a number: the low one first.
const ZERO_AND_SPACE: u16 = 0x2030;

/// The width of a digit before a space; above 9 if it is no digit or no space follows. One subtraction tests both.
fn width_of_digit(digit: u8, space: u8) -> u16
    ensures shown { result ≤ 9 → (is_ascii_digit digit ≡ true) × (space ≡ 32) × (result ≡ digit - 48) }
    ensures each { is_ascii_digit digit ≡ true → space ≡ 32 → result ≡ digit - 48 }
{
    u16::from_le_bytes([digit, space]).wrapping_sub(ZERO_AND_SPACE)
}

/// The first `N` widths of a text, if each is one digit before a space. The loop has no early exit, so that the
/// processor does many at once.
fn digits<const N: usize>(text: &[u8]) -> Option<[u16; N]>
    ensures begins { IfSome result (BeginsWithDigits text.now) }
    ensures few { IfSome result (λ widths. (length widths ≡ N) × (2 * N ≤ length text.now)) }
    ensures none { IfNone result ((widths : List ℕ) → length widths ≡ N → 2 * N ≤ length text.now → BeginsWithDigits text.now widths → ⊥) }
{
    if text.len() / 2 < N {
        return None;
    }
    let mut widths = [0; N];
    let mut each = true;
    'widths: for i in 0..N {
        let width = width_of_digit(text[2 * i], text[2 * i + 1]);
        widths[i] = width;
        each &= width <= 9;
    }
    each.then_some(widths)
}

/// The widths of a field, read word by word into empty memory, and whether one of them is above 65,535. It stores
/// these as 65,535, to fit a `u16`. The clause `refused` is that of `read_runs`.
fn read_any_widths(room: Vec<u16>, field: &[u8]) -> Result<(Vec<u16>, bool), RecordRefusal>
    requires empty { room.items ≡ [] }
    ensures words { OnOk result (are_widths (words_of field.now) ≡ true) }
    ensures widths { IfOk result (λ read. read.0.items ≡ capped (widths_in field.now)) }
    ensures wide { IfOk result (λ read. read.1 ≡ has_wide (widths_in field.now)) }
    ensures refused { (f : RecordFault) → result ≡ Err (RecordRefusal.Record f)
        → field_fault field.now ≡ Some f }
{
    let count = count_words(field);
    let mut widths = room;
    widths.reserve(count)?;
    let mut rest = field;
    let mut is_wide = false;
    'words: while widths.len() < count {
        // It reads eight or two widths of one digit at once, each with its space. Eight `u16` fill a vector of 128
        // bits.
        rest = if let Some(eight) = digits::<8>(rest) {
            widths.extend_from_slice(&eight)?;
            &rest[16..]
        } else if let Some(two) = digits::<2>(rest) {
            widths.extend_from_slice(&two)?;
            &rest[4..]
        } else {
            let Some((width, after)) = first_width(rest) else {
                return Err(RecordRefusal::Record(RecordFault::BadRuns));
            };
            is_wide |= width > 65_535;
            widths.push_reserved(width.min(65_535) as u16);
            after
        };
    }
    Ok((widths, is_wide))
}

/// The widths of a field, as `read_any_widths` reads them.
fn read_widths(pool: &mut RowPool, field: &[u8]) -> Result<(Vec<u16>, bool), RecordRefusal>
    ensures words { OnOk result (are_widths (words_of field.now) ≡ true) }
    ensures widths { IfOk result (λ read. read.0.items ≡ capped (widths_in field.now)) }
    ensures wide { IfOk result (λ read. read.1 ≡ has_wide (widths_in field.now)) }
    ensures refused { (f : RecordFault) → result ≡ Err (RecordRefusal.Record f)
        → field_fault field.now ≡ Some f }
{
    let mut widths = pool.take_widths();
    if read_short_widths(&mut widths, field)? {
        return Ok((widths, false));
    }
    read_any_widths(widths, field)
}

/// Why a record is refused whose widths are no row.
fn refused(fault: RunFault) -> RecordRefusal
    ensures record { (f : RecordFault) → result ≡ RecordRefusal.Record f → of_runs (Some fault) ≡ Some f }
    ensures memory { fault ≡ RunFault.NoMemory → result ≡ RecordRefusal.NoMemory }
{
    match fault {
        RunFault::BadRuns => RecordRefusal::Record(RecordFault::BadRuns),
        RunFault::TooWide => RecordRefusal::Record(RecordFault::TooWide),
        RunFault::NoMemory => RecordRefusal::NoMemory,
    }
}

/// The row of a field, read into a list first.
fn read_long_runs(pool: &mut RowPool, field: &[u8]) -> Result<Runs, RecordRefusal>
    ensures ok { IfOk result (λ runs. runs ≡ widths_in field.now) }
    ensures taken { OnOk result (field_fault field.now ≡ None) }
    ensures refused { (f : RecordFault) → result ≡ Err (RecordRefusal.Record f)
        → field_fault field.now ≡ Some f }
{
    let (widths, is_wide) = read_widths(pool, field)?;
    match Runs::from_widths(pool, widths) {
        Ok(runs) => {
            // `BadRuns` comes before `TooWide`, so only here is a wide width an error.
            if is_wide {
                Err(RecordRefusal::Record(RecordFault::TooWide))
            } else {
                Ok(runs)
            }
        }
        Err(fault) => Err(refused(fault)),
    }
}

/// The row of a field.
pub fn read_runs(pool: &mut RowPool, field: &[u8]) -> Result<Runs, RecordRefusal>
    ensures ok { IfOk result (λ runs. runs ≡ widths_in field.now) }
    ensures taken { OnOk result (field_fault field.now ≡ None) }
    ensures refused { (f : RecordFault) → result ≡ Err (RecordRefusal.Record f)
        → field_fault field.now ≡ Some f }
{
    match Runs::written_by(pool, &ShortWidths { field }) {
        Ok(Some(runs)) => Ok(runs),
        Ok(None) => read_long_runs(pool, field),
        Err(fault) => Err(refused(fault)),
    }
}
