//! The days and the time in an element, as numbers.
ghost use Rattle.std.specs.Prelude.{◌≡◌, ◌≤◌, is_some, ℕ, Option};
ghost use Rattle.element_core.specs.Days.{IsDay};
ghost use Rattle.answer_core.specs.Named.{bit, day_numbers, time_numbers};

use jiff::civil::Date;

/// A day, or three zeros.
#[repr(C)]
#[derive(Clone, Copy, Default)]
pub struct Day {
    pub year: u16,
    /// 1 to 12.
    pub month: u8,
    /// 1 to 31.
    pub day: u8,
}

/// A date in numbers; zeros if there is none.
pub(crate) fn day_of(date: Option<Date>) -> Day
    ensures { (day : Option (ℕ × ℕ × ℕ)) → IsDay date day → result ≡ day_numbers day }
{
    match date {
        None => Day {
            year: 0,
            month: 0,
            day: 0,
        },
        Some(date) => Day {
            year: date.year().unsigned_abs(),
            month: date.month().unsigned_abs(),
            day: date.day().unsigned_abs(),
        },
    }
}

/// 1 if there is a date, else 0.
pub(crate) fn has_day(date: Option<Date>) -> u8
    ensures value { (day : Option (ℕ × ℕ × ℕ)) → IsDay date day → result ≡ bit (is_some day) }
    ensures few { result ≤ 1 }
{
    match date {
        None => 0,
        Some(_) => 1,
    }
}

/// 1 if there is a time, else 0.
pub(crate) fn has_time(time: Option<[u8; 3]>) -> u8
    ensures value { result ≡ bit (is_some time) }
    ensures few { result ≤ 1 }
{
    match time {
        None => 0,
        Some(_) => 1,
    }
}

/// The hours, the minutes and the seconds; zeros if there is no time.
pub(crate) fn time_of(time: Option<[u8; 3]>) -> [u8; 3]
    ensures { result ≡ time_numbers time }
{
    match time {
        None => [0; 3],
        Some(time) => time,
    }
}
