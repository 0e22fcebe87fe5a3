//! The rows of the tests, from outside.

use element_core::Year;
use scan_core::Runs;
use std::alloc::Global;
use std::test::Fail;

// 9501101530003 as EAN-13, its light ends included, at one dot a module.
pub const EAN13: &[u16] = &[
    11, 1, 1, 1, 1, 2, 3, 1, 1, 1, 2, 3, 1, 2, 2, 2, 2, 2, 2, 1, 1, 1, 2, 3, 2, 2, 2, 1, 1, 1, 1,
    1, 1, 1, 2, 3, 1, 1, 4, 1, 1, 3, 2, 1, 1, 3, 2, 1, 1, 3, 2, 1, 1, 1, 4, 1, 1, 1, 1, 1, 7,
];

// 96385074 as EAN-8.
pub const EAN8: &[u16] = &[
    7, 1, 1, 1, 3, 1, 1, 2, 1, 1, 1, 4, 1, 4, 1, 1, 1, 2, 1, 3, 1, 1, 1, 1, 1, 1, 2, 3, 1, 3, 2, 1,
    1, 1, 3, 1, 2, 1, 1, 3, 2, 1, 1, 1, 7,
];

// (422)528 as GS1-128.
pub const GS1_128: &[u16] = &[
    10, 2, 1, 1, 2, 3, 2, 4, 1, 1, 1, 3, 1, 1, 1, 2, 1, 3, 3, 3, 2, 1, 1, 2, 2, 3, 2, 2, 1, 1, 2,
    1, 2, 1, 4, 2, 1, 2, 3, 3, 1, 1, 1, 2, 10,
];

// 09501101530003 as ITF-14.
pub const ITF14: &[u16] = &[
    10, 1, 1, 1, 1, 1, 1, 1, 3, 3, 1, 3, 3, 1, 1, 3, 1, 1, 1, 3, 3, 1, 3, 1, 1, 3, 3, 1, 1, 1, 1,
    1, 1, 3, 3, 1, 3, 1, 1, 3, 1, 3, 1, 1, 3, 3, 3, 1, 3, 3, 1, 1, 1, 1, 1, 1, 1, 1, 1, 3, 3, 3, 3,
    1, 1, 1, 3, 1, 3, 3, 1, 3, 1, 1, 1, 3, 1, 1, 10,
];

// 09501101530004 as ITF-14, whose check digit is wrong.
pub const ITF14_WRONG: &[u16] = &[
    10, 1, 1, 1, 1, 1, 1, 1, 3, 3, 1, 3, 3, 1, 1, 3, 1, 1, 1, 3, 3, 1, 3, 1, 1, 3, 3, 1, 1, 1, 1,
    1, 1, 3, 3, 1, 3, 1, 1, 3, 1, 3, 1, 1, 3, 3, 3, 1, 3, 3, 1, 1, 1, 1, 1, 1, 1, 1, 1, 3, 3, 3, 3,
    1, 1, 1, 1, 1, 1, 3, 3, 3, 1, 1, 3, 3, 1, 1, 10,
];

/// The row of these widths.
pub fn row(alloc: Global, widths: &[u16]) -> Result<Runs, Fail> {
    Ok(Runs::of_widths(alloc, widths).ok().ok_or("row")?)
}

/// The reference year of this number.
pub fn year_of(number: u16) -> Result<Year, Fail> {
    Ok(Year::new(number).ok_or("year")?)
}
