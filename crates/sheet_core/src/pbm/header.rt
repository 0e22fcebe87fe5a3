//! The header of a PBM image, byte by byte.
ghost use Rattle.std.specs.Prelude.{◌≡◌, ◌≤◌, ◌<◌, None, Some, true, false, IfNone, IfSome, IsTrue};
ghost use Rattle.sheet_core.specs.pbm.Headers.{grown, is_line_end, is_size, is_white, number_step, header_step};
ghost use Rattle.sheet_core.specs.inner.Headers.{is_reached, is_reached_by, may_be_width};
ghost use Rattle.element_core.specs.Elements.{is_digit};

use crate::fault::PbmFault;
use crate::pbm::state::{Size, State, Step};

fn is_white(byte: u8) -> bool
    ensures { result ≡ is_white byte }
{
    byte == b' ' || byte == b'\t' || byte == b'\n' || byte == b'\r'
}

fn is_line_end(byte: u8) -> bool
    ensures { result ≡ is_line_end byte }
{
    byte == b'\n' || byte == b'\r'
}

fn is_digit(byte: u8) -> bool
    ensures { result ≡ is_digit byte }
{
    b'0' <= byte && byte <= b'9'
}

/// A number with one more digit. A number above 65,535 stays above it.
fn grown(number: u32, digit: u8) -> u32
    requires digit { 48 ≤ digit }
    requires small { number ≤ 65536 }
    ensures value { result ≡ grown number digit }
    ensures small { result ≤ 65536 }
{
    (10 * number + u32::from(digit - b'0')).min(65_536)
}

/// The number as a width or a height, if it is within the limits.
fn as_size(number: u32) -> Option<u16>
    ensures some { IfSome result (λ n. (n ≡ number) × (is_size number ≡ true)) }
    ensures none { IfNone result (is_size number ≡ false) }
{
    if 1 <= number && number <= 65_535 {
        Some(number as u16)
    } else {
        None
    }
}

/// The step for a byte after a digit of the width.
fn width_step(number: u32, byte: u8) -> Step
    requires { number ≤ 65536 }
    ensures value { result ≡ number_step None number byte }
    ensures reached { IsTrue (is_reached_by result) }
{
    if is_digit(byte) {
        return Step::Goes(State::Number(None, grown(number, byte)));
    }
    if !is_white(byte) && byte != b'#' {
        return Step::Refused(PbmFault::PbmHeader);
    }
    let Some(width) = as_size(number) else {
        return Step::Refused(PbmFault::PbmSize);
    };
    if byte == b'#' {
        return Step::Goes(State::Comment(Some(width)));
    }
    Step::Goes(State::Blanks(Some(width), true))
}

/// The step for a byte after a digit of the height.
fn height_step(width: u16, number: u32, byte: u8) -> Step
    requires width { is_size width ≡ true }
    requires number { number ≤ 65536 }
    ensures value { result ≡ number_step (Some width) number byte }
    ensures reached { IsTrue (is_reached_by result) }
{
    if is_digit(byte) {
        return Step::Goes(State::Number(Some(width), grown(number, byte)));
    }
    if !is_white(byte) {
        return Step::Refused(PbmFault::PbmHeader);
    }
    let Some(height) = as_size(number) else {
        return Step::Refused(PbmFault::PbmSize);
    };
    Step::Done(Size { width, height })
}

/// The step for a byte in the blanks before a number.
fn blank_step(width: Option<u16>, some: bool, byte: u8) -> Step
    requires { IsTrue (may_be_width width) }
    ensures value { result ≡ header_step (State.Blanks width some) byte }
    ensures reached { IsTrue (is_reached_by result) }
{
    if is_white(byte) {
        Step::Goes(State::Blanks(width, true))
    } else if byte == b'#' {
        Step::Goes(State::Comment(width))
    } else if some && is_digit(byte) {
        Step::Goes(State::Number(width, u32::from(byte - b'0')))
    } else {
        Step::Refused(PbmFault::PbmHeader)
    }
}

/// The step for a byte of a header that has come so far.
pub fn step(state: State, byte: u8) -> Step
    requires { IsTrue (is_reached state) }
    ensures value { result ≡ header_step state byte }
    ensures reached { IsTrue (is_reached_by result) }
{
    match state {
        State::Start => {
            if byte == b'P' {
                Step::Goes(State::Magic)
            } else {
                Step::Refused(PbmFault::NotP4)
            }
        }
        State::Magic => {
            if byte == b'4' {
                Step::Goes(State::Blanks(None, false))
            } else {
                Step::Refused(PbmFault::NotP4)
            }
        }
        State::Blanks(width, some) => blank_step(width, some, byte),
        State::Comment(width) => {
            if is_line_end(byte) {
                Step::Goes(State::Blanks(width, true))
            } else {
                Step::Goes(State::Comment(width))
            }
        }
        State::Number(None, number) => width_step(number, byte),
        State::Number(Some(width), number) => height_step(width, number, byte),
    }
}
