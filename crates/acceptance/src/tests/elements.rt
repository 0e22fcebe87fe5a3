//! Elements that are given as pairs, and rows of the table of AIs.

use crate::tests::equal::is_equal;
use crate::tests::rows::year_of;
use element_core::{Check, Elements, Pair, Part, PartFormat, Rule, Text, ai_row};
use std::alloc::Global;
use std::process::Abort;
use std::test::Fail;

// A value of 90 characters, the most that AI 91 takes.
const NINETY: &str =
    "ABCDEFGHIJABCDEFGHIJABCDEFGHIJABCDEFGHIJABCDEFGHIJABCDEFGHIJABCDEFGHIJABCDEFGHIJABCDEFGHIJ";

fn text(bytes: &str) -> Result<Text, Fail> {
    let mut text = Text::new();
    text.try_extend_from_slice(bytes.as_bytes())
        .ok()
        .ok_or("at most 192 bytes")?;
    Ok(text)
}

/// The pair of an AI and a value.
fn pair(ai: &str, value: &str) -> Result<Pair, Fail> {
    Ok(Pair {
        ai: text(ai)?,
        value: text(value)?,
    })
}

/// The list of these pairs.
fn list_of(alloc: Global, pairs: &[(&str, &str)]) -> Result<Vec<Pair>, Fail> {
    let mut list = Vec::new(alloc);
    for (ai, value) in pairs {
        list.push(pair(ai, value)?)?;
    }
    Ok(list)
}

/// The human-readable line of pairs in 2026, or the line of their fault.
fn line(alloc: Global, pairs: &[(&str, &str)]) -> Result<String, Fail> {
    let list = list_of(alloc, pairs)?;
    match Elements::of_pairs(list.as_slice(), year_of(2026)?) {
        Ok(elements) => Ok(String::from_str(alloc, elements.hri().as_str())?),
        Err(fault) => Ok(fault.to_string(alloc)?),
    }
}

/// That pairs have this line.
fn says<R: AllocGlobal + Abort>(rt: &R, pairs: &[(&str, &str)], wanted: &str) -> Result<(), Fail> {
    let found = line(rt.alloc(), pairs)?;
    is_equal(rt, found.as_str(), wanted);
    Ok(())
}

#[test]
fn pairs_are_elements_or_have_a_first_fault(rt: HostRuntime) -> Result<(), Fail> {
    let cases: &[(&[(&str, &str)], &str)] = &[
        (&[("10", "AB"), ("17", "261231")], "(10)AB(17)261231"),
        (&[], "refused 4 Empty"),
        (&[("0109", "501101530003")], "refused 5 UnknownAi 0"),
        (&[("10", "AB"), ("03", "1")], "refused 5 UnknownAi 1"),
        (&[("01", "950110153000")], "refused 6 ValueLength 0"),
        (
            &[("10", "123456789012345678901")],
            "refused 6 ValueLength 0",
        ),
        (&[("10", "A\x1DB")], "refused 7 ValueCharacter 0"),
        (&[("01", "09501101530004")], "refused 8 ValueCheckDigit 0"),
        (&[("17", "261301")], "refused 9 ValueDate 0"),
        (&[("8008", "26010215"), ("10", "A")], "(8008)26010215(10)A"),
        (&[("8008", "260102153")], "refused 6 ValueLength 0"),
        (&[("8008", "26010215304")], "refused 6 ValueLength 0"),
        (&[("8008", "260102153045123")], "refused 6 ValueLength 0"),
        (&[("7003", "26010215301")], "refused 6 ValueLength 0"),
        (&[("7003", "2601021560")], "refused 9 ValueDate 0"),
        (
            &[("91", NINETY), ("92", NINETY), ("93", NINETY)],
            "refused 11 TooLong",
        ),
    ];
    for (pairs, expected) in cases {
        says(&rt, pairs, expected)?;
    }
    Ok(())
}

/// That the row of the AI that a text begins with is predefined, or is not, and has these parts.
fn has_parts<R: Abort>(
    rt: &R,
    text: &str,
    is_predefined: bool,
    parts: &[Part],
) -> Result<(), Fail> {
    let row = ai_row(text.as_bytes()).ok_or("a row")?;
    is_equal(rt, row.predefined, is_predefined);
    is_equal(rt, row.parts.as_slice(), parts);
    Ok(())
}

#[test]
fn the_row_of_an_ai_has_its_parts(rt: HostRuntime) -> Result<(), Fail> {
    let row = ai_row(b"0109501101530003").ok_or("01")?;
    is_equal(&rt, row.ai.as_slice(), b"01".as_slice());
    let gtin = Part {
        format: PartFormat::Numeric,
        least: 14,
        greatest: 14,
        step: 1,
        check: Check::Digit,
        rule: Rule::Free,
    };
    has_parts(&rt, "0109501101530003", true, &[gtin])
}

#[test]
fn the_row_of_an_ai_has_two_parts(rt: HostRuntime) -> Result<(), Fail> {
    let number = Part {
        format: PartFormat::Numeric,
        least: 13,
        greatest: 13,
        step: 1,
        check: Check::Digit,
        rule: Rule::Free,
    };
    let serial = Part {
        format: PartFormat::Alphanumeric,
        least: 0,
        greatest: 17,
        step: 1,
        check: Check::Unchecked,
        rule: Rule::Free,
    };
    has_parts(&rt, "253", false, &[number, serial])
}

#[test]
fn the_row_of_an_ai_has_a_date_and_time(rt: HostRuntime) -> Result<(), Fail> {
    let produced = Part {
        format: PartFormat::Numeric,
        least: 8,
        greatest: 12,
        step: 2,
        check: Check::Unchecked,
        rule: Rule::DayAndTime,
    };
    has_parts(&rt, "8008", false, &[produced])
}

#[test]
fn a_text_with_no_ai_has_no_row(rt: HostRuntime) -> Result<(), Fail> {
    let texts: &[&str] = &["", "1", "03", "3106", "7002", "8006"];
    for &text in texts {
        assert!(rt; ai_row(text.as_bytes()).is_none());
    }
    Ok(())
}
