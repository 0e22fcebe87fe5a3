//! Lists of elements: how many there are, each of them, its day and its time, and their human-readable line.

use crate::tests::equal::is_equal;
use crate::tests::rows::year_of;
use element_core::{Element, Elements, write_hri};
use std::alloc::Global;
use std::process::Abort;
use std::test::Fail;

/// The elements of a text in 2026.
fn parsed(text: &[u8]) -> Result<Elements, Fail> {
    parsed_in(2026, text)
}

/// The elements of a text under a reference year.
fn parsed_in(reference: u16, text: &[u8]) -> Result<Elements, Fail> {
    let year = year_of(reference)?;
    Ok(Elements::parse(text, year).ok().ok_or("a list")?)
}

/// Element `i` of a list.
fn element(elements: &Elements, i: usize) -> Result<Element, Fail> {
    if i >= elements.len() {
        return Err(Fail::from("an element"));
    }
    Ok(elements.element(i))
}

/// That an element has this AI and this value, and whether it has a date.
fn is_element<R: Abort>(rt: &R, found: &Element, ai: &str, value: &str, is_dated: bool) {
    is_equal(rt, found.ai.as_slice(), ai.as_bytes());
    is_equal(rt, found.value.as_slice(), value.as_bytes());
    is_equal(rt, found.date.is_some(), is_dated);
}

#[test]
fn elements_are_found_in_their_text(rt: HostRuntime) -> Result<(), Fail> {
    let elements = parsed(b"21A1\x1D0109501101530003\x1D17260100\x1D")?;
    is_equal(&rt, elements.len(), 3);
    is_equal(
        &rt,
        elements.text().as_slice(),
        b"21A1\x1D010950110153000317260100".as_slice(),
    );
    is_element(&rt, &element(&elements, 0)?, "21", "A1", false);
    is_element(&rt, &element(&elements, 1)?, "01", "09501101530003", false);
    is_element(&rt, &element(&elements, 2)?, "17", "260100", true);
    Ok(())
}

/// A text 48 times.
fn repeated(alloc: Global, text: &str) -> Result<String, Fail> {
    let mut all = String::new(alloc);
    for _ in 0..48 {
        all.push_str(text)?;
    }
    Ok(all)
}

/// That elements have this human-readable line.
fn has_line<R: Abort>(rt: &R, elements: &Elements, wanted: &str) {
    is_equal(rt, elements.hri().as_str(), wanted);
    let mut line = elements.pairs();
    is_equal(
        rt,
        write_hri(elements.bytes(), elements.year(), &mut line),
        Ok(()),
    );
    is_equal(rt, line.as_str(), wanted);
}

#[test]
fn the_most_elements_fill_the_line(rt: HostRuntime) -> Result<(), Fail> {
    let alloc = rt.alloc();
    let elements = parsed(repeated(alloc, "2007")?.as_str().as_bytes())?;
    is_equal(&rt, elements.len(), 48);
    is_element(&rt, &element(&elements, 47)?, "20", "07", false);
    has_line(&rt, &elements, repeated(alloc, "(20)07")?.as_str());
    Ok(())
}

/// That the elements of a text have this human-readable line and these pairs.
fn has_pairs<R: Abort>(rt: &R, text: &[u8], line: &str, pairs: &str) -> Result<(), Fail> {
    let elements = parsed(text)?;
    is_equal(rt, elements.hri().as_str(), line);
    is_equal(rt, elements.pairs().as_str(), pairs);
    Ok(())
}

#[test]
fn pairs_tell_what_a_line_does_not(rt: HostRuntime) -> Result<(), Fail> {
    has_pairs(&rt, b"10A(17)261231", "(10)A(17)261231", "10=A(17)261231")?;
    has_pairs(
        &rt,
        b"10A\x1D17261231",
        "(10)A(17)261231",
        "10=A\t17=261231",
    )?;
    has_pairs(
        &rt,
        b"0109501101530003",
        "(01)09501101530003",
        "01=09501101530003",
    )
}

/// The year, the month and the day of an element.
fn day_of(element: &Element) -> Option<(i16, i8, i8)> {
    let date = element.date?;
    Some((date.year(), date.month(), date.day()))
}

/// That an element has this day and this time.
fn is_at<R: Abort>(rt: &R, found: &Element, day: Option<(i16, i8, i8)>, time: Option<[u8; 3]>) {
    is_equal(rt, day_of(found), day);
    is_equal(rt, found.time, time);
}

#[test]
fn an_element_has_its_time(rt: HostRuntime) -> Result<(), Fail> {
    let lines: &[(&[u8], Option<(i16, i8, i8)>, Option<[u8; 3]>)] = &[
        (b"70032601021530", Some((2026, 1, 2)), Some([15, 30, 0])),
        (b"800826010215", Some((2026, 1, 2)), Some([15, 0, 0])),
        (b"80082601021530", Some((2026, 1, 2)), Some([15, 30, 0])),
        (b"8008260102153045", Some((2026, 1, 2)), Some([15, 30, 45])),
        (
            b"8008261231235959",
            Some((2026, 12, 31)),
            Some([23, 59, 59]),
        ),
        (b"17260102", Some((2026, 1, 2)), None),
        (b"10A", None, None),
    ];
    for &(line, day, time) in lines {
        let element = element(&parsed(line)?, 0)?;
        is_at(&rt, &element, day, time);
    }
    Ok(())
}

#[test]
fn an_element_has_its_day_by_the_reference_year(rt: HostRuntime) -> Result<(), Fail> {
    let cases: &[(u16, &[u8; 8], (i16, i8, i8))] = &[
        (2026, b"17260200", (2026, 2, 28)),
        (2026, b"17240229", (2024, 2, 29)),
        (2026, b"17760101", (2076, 1, 1)),
        (2026, b"17770101", (1977, 1, 1)),
        (2080, b"17291231", (2129, 12, 31)),
        (2080, b"17301231", (2130, 12, 31)),
        (2080, b"17311231", (2031, 12, 31)),
        (2026, b"17000229", (2000, 2, 29)),
    ];
    for &(reference, text, day) in cases {
        let element = element(&parsed_in(reference, text)?, 0)?;
        is_equal(&rt, day_of(&element), Some(day));
    }
    Ok(())
}

#[test]
fn a_year_of_two_digits_is_the_nearest(rt: HostRuntime) -> Result<(), Fail> {
    // From 49 years before the reference year to 50 years after it, whatever the century.
    let cases: &[(u16, &[u8; 8], i16)] = &[
        (1951, b"17010101", 2001),
        (1951, b"17020101", 1902),
        (1999, b"17490101", 2049),
        (1999, b"17500101", 1950),
        (2000, b"17500101", 2050),
        (2000, b"17510101", 1951),
        (2049, b"17990101", 2099),
        (2049, b"17000101", 2000),
        (2050, b"17000101", 2100),
        (2050, b"17010101", 2001),
        (2099, b"17490101", 2149),
        (2099, b"17500101", 2050),
        (2100, b"17500101", 2150),
        (2100, b"17510101", 2051),
        (2148, b"17980101", 2198),
        (2148, b"17990101", 2099),
        (2149, b"17990101", 2199),
    ];
    for &(reference, text, year) in cases {
        let element = element(&parsed_in(reference, text)?, 0)?;
        is_equal(&rt, day_of(&element), Some((year, 1, 1)));
    }
    Ok(())
}
