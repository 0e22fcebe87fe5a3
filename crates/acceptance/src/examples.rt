//! The examples of ten docstrings: those of the calls that most callers need first. A test has the same lines as the
//! docstring of the call that it names. tests/tables/examples_test.py compares them.

use std::test::Fail;

/// `digits_core::check_digit`
#[test]
fn appends_a_check_digit(rt: HostRuntime) -> Result<(), Fail> {
    use digits_core::check_digit;
    let digit = check_digit(b"950110153000");
    assert_eq!(rt; digit, 3);
    Ok(())
}

/// `element_core::Elements::parse`
#[test]
fn reads_an_element_string(rt: HostRuntime) -> Result<(), Fail> {
    use element_core::{Elements, Year};
    let year = Year::new(2026).ok_or("a year")?;
    let elements = Elements::parse(b"01095011015300031726123110AB-1", year)?;
    let line = elements.hri();
    assert_eq!(rt; line.as_str(), "(01)09501101530003(17)261231(10)AB-1");
    Ok(())
}

/// `element_core::Elements::element`
#[test]
fn looks_for_a_date(rt: HostRuntime) -> Result<(), Fail> {
    use element_core::{Elements, Year};
    let year = Year::new(2026).ok_or("a year")?;
    let elements = Elements::parse(b"010950110153000317261231", year)?;
    let mut expires = None;
    for i in 0..elements.len() {
        expires = expires.or(elements.element(i).date);
    }
    let date = expires.ok_or("no date")?;
    assert_eq!(rt; (date.year(), date.month(), date.day()), (2026, 12, 31));
    Ok(())
}

/// `message_core::read_message`
#[test]
fn reads_a_text_of_a_scanner(rt: HostRuntime) -> Result<(), Fail> {
    use message_core::{Message, read_message};
    let year = element_core::Year::new(2026).ok_or("a year")?;
    let Message { said, .. } = read_message(b"]d2010950110153000317261231", year);
    assert_eq!(rt; said?.hri().as_str(), "(01)09501101530003(17)261231");
    Ok(())
}

/// `scan_core::read_widths`
#[test]
fn reads_widths(rt: HostRuntime) -> Result<(), Fail> {
    use scan_core::{Answer, read_widths};
    let widths = [
        7, 1, 1, 1, 3, 1, 1, 2, 1, 1, 1, 4, 1, 4, 1, 1, 1, 2, 1, 3, 1, 1, 1, 1, 1, 1, 2, 3, 1, 3,
        2, 1, 1, 1, 3, 1, 2, 1, 1, 3, 2, 1, 1, 1, 7,
    ];
    let year = element_core::Year::new(2026).ok_or("a year")?;
    let Answer::Read { elements, .. } = read_widths(&widths, year)? else {
        return Err(Fail::from("no symbol"));
    };
    assert_eq!(rt; elements.hri().as_str(), "(01)00000096385074");
    Ok(())
}

/// `scan_core::read_dots`
#[test]
fn reads_dots(rt: HostRuntime) -> Result<(), Fail> {
    use scan_core::{Answer, read_dots};
    let bits = b"\x00\x15\x8A\x76\x66\x53\x99\x54\xE8\x5C\xB9\x72\x85\x40\x00";
    let year = element_core::Year::new(2026).ok_or("a year")?;
    let Answer::Read { elements, .. } = read_dots(bits, 113, year) else {
        return Err(Fail::from("no symbol"));
    };
    assert_eq!(rt; elements.hri().as_str(), "(01)09501101530003");
    Ok(())
}

/// `sheet_core::label_pbm`
#[test]
fn draws_a_label(rt: HostRuntime) -> Result<(), Fail> {
    use sheet_core::{Grid, Label, label_pbm};
    let label = Label::Ean13(digits_core::Gtin::read(b"9501101530003")?);
    let grid = Grid::new(1, 113, 3, 1, 1)?;
    let mut image = [0; 54];
    let size = label_pbm(&label, grid, &mut image)?;
    assert_eq!(rt; size, 54);
    assert_eq!(rt; &image[..9], b"P4\n113 3\n".as_slice());
    let bars = b"\x00\x15\x8A\x76\x66\x53\x99\x54\xE8\x5C\xB9\x72\x85\x40\x00";
    assert_eq!(rt; &image[24..39], bars.as_slice());
    Ok(())
}

/// `hub_core::serve`
#[test]
fn serves_a_lane(rt: HostRuntime) -> Result<(), Fail> {
    use hub_core::{OpenGate, serve};
    let (alloc, year) = (rt.alloc(), element_core::Year::new(2026).ok_or("a year")?);
    let bits = b"\x00\x15\x8A\x76\x66\x53\x99\x54\xE8\x5C\xB9\x72\x85\x40\x00";
    let lane = vec![in alloc; scan_core::Runs::cut(alloc, bits, 0, 113)?]?;
    let lists = serve(&rt, alloc, vec![in alloc; lane]?, 2, year, &OpenGate)?;
    let delivery = lists.first().ok_or("no lane")?.first().ok_or("no answer")?;
    let mut line = String::new(alloc);
    delivery.push_answer(element_core::Form::HumanReadable, &mut line)?;
    assert_eq!(rt; line.as_str(), "]E0 (01)09501101530003");
    Ok(())
}

/// `answer_core::Answer::read_message`
#[test]
fn answers_a_text(rt: HostRuntime) -> Result<(), Fail> {
    use answer_core::Answer;
    let year = element_core::Year::new(2026).ok_or("a year")?;
    let mut answer = Answer::new();
    answer.read_message(b"]d2010950110153000317261231", year);
    assert_eq!(rt; (answer.fault, answer.count, answer.gtin), (0, 2, 0));
    Ok(())
}

/// `answer_core::Answer::put_line`
#[test]
fn writes_the_line_of_an_answer(rt: HostRuntime) -> Result<(), Fail> {
    use answer_core::Answer;
    let year = element_core::Year::new(2026).ok_or("a year")?;
    let mut answer = Answer::new();
    answer.read_message(b"]d2010950110153000317261231", year);
    let mut line = [0; 292];
    let size = answer.put_line(element_core::Form::HumanReadable, &mut line);
    let text = line.get(..size).ok_or("more than 292 bytes")?;
    assert_eq!(rt; text, b"]d2 (01)09501101530003(17)261231".as_slice());
    Ok(())
}

/// `answer_core::Answer::compose`
#[test]
fn composes_an_answer_of_two_elements(rt: HostRuntime) -> Result<(), Fail> {
    use answer_core::{Answer, Given};
    let year = element_core::Year::new(2026).ok_or("a year")?;
    let lot = Given {
        ai: b"10",
        value: b"AB",
    };
    let expiry = Given {
        ai: b"17",
        value: b"261231",
    };
    let mut answer = Answer::new();
    answer.compose(&[lot, expiry], year);
    assert_eq!(rt; (answer.fault, answer.count, answer.length), (0, 2, 13));
    Ok(())
}
