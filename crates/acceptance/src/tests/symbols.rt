//! Symbols: their modules, and the values and texts of those of Code 128.

use crate::tests::equal::{is_equal, is_true};
use crate::tests::numbers::gtin_of;
use crate::tests::rows::year_of;
use arrayvec::ArrayVec;
use code128_code::{
    Code128Fault, TooManyCharacters, Values, character, check_character, encode, text_of, values,
};
use ean_code::{Modules, Spelled, ean8, ean13, itf14, read_itf14, upce};
use element_core::Elements;
use std::process::Abort;
use std::test::Fail;

// (422)528: start C, FNC1, 42, 25, 28, the check character 66 and stop.
const COUNTRY: [u8; 43] = [
    2, 1, 1, 2, 3, 2, 4, 1, 1, 1, 3, 1, 1, 1, 2, 1, 3, 3, 3, 2, 1, 1, 2, 2, 3, 2, 2, 1, 1, 2, 1, 2,
    1, 4, 2, 1, 2, 3, 3, 1, 1, 1, 2,
];

/// The elements of a text.
fn elements_of(text: &[u8]) -> Result<Elements, Fail> {
    let year = year_of(2026)?;
    let elements = Elements::parse(text, year)?;
    Ok(elements)
}

/// The values of a symbol, its check character right or wrong.
pub fn shown(start: u8, data: &[u8], check: u8) -> Values {
    let mut values = ArrayVec::new();
    let _ = values.try_extend_from_slice(data);
    Values {
        start,
        values,
        check,
    }
}

/// The sum of the widths.
fn total(modules: &Modules) -> usize {
    let mut sum: usize = 0;
    for width in modules.widths() {
        sum = sum.saturating_add(usize::from(*width));
    }
    sum
}

/// That the modules are the symbol of these values between start C and this check character, and say the
/// text.
fn is_read_again<R: Abort>(
    rt: &R,
    modules: &Modules,
    text: &[u8],
    data: &[u8],
    check: u8,
) -> Result<(), Fail> {
    let found = values(modules).ok_or("a symbol")?;
    is_equal(rt, found.start, 105);
    is_equal(rt, found.values.as_slice(), data);
    is_equal(rt, found.check, check);
    let said = text_of(&found)?;
    is_equal(rt, said.as_slice(), text);
    Ok(())
}

/// That a text is encoded as these values and this check character, and read again.
fn is_encoded<R: Abort>(rt: &R, text: &[u8], data: &[u8], check: u8) -> Result<(), Fail> {
    if data.len() > 96 {
        return Err(Fail::from("at most 96 values"));
    }
    is_equal(rt, check_character(105, data), check);
    let modules = encode(&elements_of(text)?)?;
    is_read_again(rt, &modules, text, data, check)?;
    let characters = data.len() + 2;
    is_equal(rt, modules.widths().len(), 6 * characters + 7);
    is_equal(rt, total(&modules), 11 * characters + 13);
    Ok(())
}

#[test]
fn encodes_and_reads_again(rt: HostRuntime) -> Result<(), Fail> {
    let texts: &[(&[u8], &[u8], u8)] = &[
        (b"0109501101530003", &[102, 1, 9, 50, 11, 1, 53, 0, 3], 71),
        (b"422528", &[102, 42, 25, 28], 66),
        (
            b"10AB\x1d17261231",
            &[102, 10, 100, 33, 34, 102, 99, 17, 26, 12, 31],
            81,
        ),
        (
            b"1726123110AB",
            &[102, 17, 26, 12, 31, 10, 100, 33, 34],
            101,
        ),
        (b"10A12345", &[102, 10, 100, 33, 17, 99, 23, 45], 5),
        (b"70032601021530", &[102, 70, 3, 26, 1, 2, 15, 30], 101),
    ];
    for &(text, data, check) in texts {
        is_encoded(&rt, text, data, check)?;
    }
    Ok(())
}

#[test]
fn draws_the_printed_widths(rt: HostRuntime) -> Result<(), Fail> {
    let mut modules = encode(&elements_of(b"422528")?)?;
    is_equal(&rt, modules.widths(), COUNTRY.as_slice());
    modules.reverse();
    is_true(&rt, values(&modules).is_none());
    let drawn = Modules::of(&COUNTRY).ok_or("modules")?;
    is_true(&rt, values(&drawn).is_some());
    Ok(())
}

#[test]
fn finds_characters_by_their_widths(rt: HostRuntime) -> Result<(), Fail> {
    // 211232, the start character C, and widths that no character has.
    is_equal(&rt, character(0b01_00_00_01_10_01), Some(105));
    is_equal(&rt, character(0), None);
    is_equal(&rt, character(4096), None);
    Ok(())
}

#[test]
fn encodes_48_characters(rt: HostRuntime) -> Result<(), Fail> {
    let mut text = [b'A'; 49];
    text[0] = b'9';
    text[1] = b'1';
    let modules = encode(&elements_of(&text[..48])?)?;
    // 49 data characters, start and check character: 51 of eleven modules, and thirteen.
    is_equal(&rt, total(&modules), 574);
    is_true(&rt, encode(&elements_of(&text)?) == Err(TooManyCharacters));
    let fault = TooManyCharacters.to_string(rt.alloc())?;
    is_equal(&rt, fault.as_str(), "refused 12 TooManyCharacters");
    Ok(())
}

#[test]
fn says_the_text_in_each_code_set(rt: HostRuntime) -> Result<(), Fail> {
    let symbols: &[(u8, &[u8], u8, &[u8])] = &[
        (105, &[102], 1, b""),
        (105, &[102, 102], 102, b"\x1d"),
        (105, &[102, 20, 11, 102], 70, b"2011\x1d"),
        (103, &[102, 33, 98, 65, 33], 63, b"AaA"),
        (103, &[102, 93], 82, b"\x1d"),
        (104, &[102, 33, 101, 33, 99], 69, b"AA"),
    ];
    for &(start, data, check, text) in symbols {
        let said = text_of(&shown(start, data, check))?;
        is_equal(&rt, said.as_slice(), text);
    }
    Ok(())
}

#[test]
fn refuses_values_without_a_text(rt: HostRuntime) -> Result<(), Fail> {
    let symbols: &[(u8, &[u8], u8, Code128Fault, &str)] = &[
        (
            105,
            &[12],
            15,
            Code128Fault::CheckCharacter,
            "refused 13 CheckCharacter",
        ),
        (
            104,
            &[102, 100],
            96,
            Code128Fault::CheckCharacter,
            "refused 13 CheckCharacter",
        ),
        (105, &[12], 14, Code128Fault::NotGs1, "refused 14 NotGs1"),
        (
            104,
            &[102, 100],
            97,
            Code128Fault::FunctionCharacter,
            "refused 15 FunctionCharacter",
        ),
        (
            104,
            &[102, 98],
            93,
            Code128Fault::CodeSet,
            "refused 16 CodeSet",
        ),
        (
            104,
            &[102, 98, 96],
            72,
            Code128Fault::CodeSet,
            "refused 16 CodeSet",
        ),
        (
            103,
            &[102, 98, 98, 101],
            69,
            Code128Fault::CodeSet,
            "refused 16 CodeSet",
        ),
    ];
    for &(start, data, check, fault, line) in symbols {
        let found = text_of(&shown(start, data, check)).err().ok_or("a fault")?;
        is_true(&rt, found == fault);
        is_equal(&rt, found.to_string(rt.alloc())?.as_str(), line);
    }
    Ok(())
}

/// Whether the modules are these widths, written as groups of digits.
fn has_widths(modules: Option<Modules>, groups: &str) -> bool {
    let Some(modules) = modules else {
        return false;
    };
    let mut widths = modules.widths().iter();
    for digit in groups.bytes() {
        if digit.is_ascii_digit() {
            match widths.next() {
                Some(width) if *width == digit - b'0' => {}
                _ => return false,
            }
        }
    }
    widths.next().is_none()
}

#[test]
fn draws_symbols_of_numbers(rt: HostRuntime) -> Result<(), Fail> {
    let gtin = gtin_of(b"9501101530003")?;
    is_true(
        &rt,
        has_widths(
            ean13(&gtin),
            "111 1231 1123 1222 2221 1123 2221 11111 1231 1411 3211 3211 3211 1411 111",
        ),
    );
    is_true(&rt, ean8(&gtin).is_none() && upce(&gtin).is_none());
    let gtin = gtin_of(b"96385074")?;
    is_true(
        &rt,
        has_widths(
            ean8(&gtin),
            "111 3112 1114 1411 1213 11111 1231 3211 1312 1132 111",
        ),
    );
    let gtin = gtin_of(b"012345000065")?;
    is_true(
        &rt,
        has_widths(upce(&gtin), "111 1222 2122 1411 2311 1321 1114 111111"),
    );
    Ok(())
}

#[test]
fn draws_itf14_and_reads_it_in_one_direction(rt: HostRuntime) -> Result<(), Fail> {
    let gtin = gtin_of(b"09501101530003")?;
    let mut drawn = itf14(&gtin);
    is_true(&rt, read_itf14(&drawn) == Spelled::Found(gtin));
    drawn.reverse();
    is_true(&rt, read_itf14(&drawn) == Spelled::NoPattern);
    is_true(
        &rt,
        has_widths(
            Some(itf14(&gtin)),
            "1111 1113313311 3111331311 3311111133 1311313113 3313311111 1111333311 1313313111 311",
        ),
    );
    Ok(())
}
