//! Numbers: outside vectors, and each refusal once.

use crate::tests::equal::{is_equal, is_true};
use digits_core::{Gtin, check_digit, upce_expand, upce_suppress};
use std::process::Abort;
use std::test::Fail;

/// The number of these digits.
pub fn gtin_of(digits: &[u8]) -> Result<Gtin, Fail> {
    Ok(Gtin::read(digits).ok().ok_or("a number")?)
}

#[test]
fn reads_numbers(rt: HostRuntime) -> Result<(), Fail> {
    is_equal(&rt, check_digit(b"950110153000"), 3);
    let gtin = gtin_of(b"9501101530003")?;
    is_equal(
        &rt,
        gtin.digits14().as_slice(),
        b"09501101530003".as_slice(),
    );
    let thirteen = gtin.as13().ok_or("13 digits")?;
    is_equal(&rt, thirteen.as_slice(), b"9501101530003".as_slice());
    is_true(&rt, gtin.as12().is_none() && gtin.as8().is_none());
    Ok(())
}

#[test]
fn reads_a_number_of_eight_digits(rt: HostRuntime) -> Result<(), Fail> {
    let gtin = gtin_of(b"96385074")?;
    let eight = gtin.as8().ok_or("8 digits")?;
    let twelve = gtin.as12().ok_or("12 digits")?;
    is_equal(&rt, eight.as_slice(), b"96385074".as_slice());
    is_equal(&rt, twelve.as_slice(), b"000096385074".as_slice());
    Ok(())
}

#[test]
fn refuses_what_is_no_number(rt: HostRuntime) -> Result<(), Fail> {
    let texts: &[(&[u8], &str)] = &[
        (b"123", "refused 1 Length"),
        (b"950110153000X", "refused 2 NotDigit 12"),
        (b"9501101530004", "refused 3 CheckDigit"),
    ];
    for &(text, fault) in texts {
        let found = Gtin::read(text).err().ok_or("a fault")?;
        is_equal(&rt, found.to_string(rt.alloc())?.as_str(), fault);
    }
    Ok(())
}

/// That a number is suppressed to these six digits and this check digit.
fn is_suppressed<R: Abort>(rt: &R, gtin: &Gtin, six: &[u8; 6], check: u8) -> Result<(), Fail> {
    let (again, last) = upce_suppress(gtin).ok_or("six digits")?;
    is_equal(rt, again.as_slice(), six.as_slice());
    is_equal(rt, last, check);
    Ok(())
}

#[test]
fn suppresses_zeros(rt: HostRuntime) -> Result<(), Fail> {
    let cases: &[([u8; 6], u8, &[u8; 14])] = &[
        (*b"123450", b'5', b"00012000003455"),
        (*b"123453", b'1', b"00012300000451"),
        (*b"123454", b'3', b"00012340000053"),
        (*b"123459", b'6', b"00012345000096"),
        (*b"123456", b'5', b"00012345000065"),
        (*b"120000", b'3', b"00012000000003"),
    ];
    for &(six, check, digits) in cases {
        let gtin = upce_expand(six, check).ok_or("a number")?;
        is_equal(&rt, gtin.digits14().as_slice(), digits.as_slice());
        is_suppressed(&rt, &gtin, &six, check)?;
    }
    Ok(())
}

#[test]
fn suppresses_to_one_form_or_none(rt: HostRuntime) -> Result<(), Fail> {
    let gtin = upce_expand(*b"120003", b'3').ok_or("a number")?;
    let (first, _) = upce_suppress(&gtin).ok_or("six digits")?;
    is_equal(&rt, first.as_slice(), b"120000".as_slice());
    is_true(&rt, upce_expand(*b"123456", b'4').is_none());
    let gtin = gtin_of(b"9501101530003")?;
    is_true(&rt, upce_suppress(&gtin).is_none());
    Ok(())
}
