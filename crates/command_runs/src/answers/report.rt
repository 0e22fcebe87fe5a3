//! The lines of answers to rows.
ghost use Rattle.std.specs.Prelude.{◌≡◌, ◌∷◌, ◌++◌, [], IfOk, OnOk, decimal, map, string_bytes};
ghost use Rattle.std.specs.List.{concat};
ghost use Rattle.command_runs.specs.inner.AnswerLines.{AddsAnswer};

use element_core::Form;
use itoa::{Buffer, write_digits};
use lane_core::Delivery;
use std::alloc::{AllocError, Global};
use std::str::from_utf8_unchecked;

/// Appends a number in decimal digits, and a space.
pub fn push_number(text: &mut String, number: usize) -> Result<(), AllocError>
    ensures { OnOk result (string_bytes text.new ≡ string_bytes text.old ++ decimal number ++ (32 ∷ [])) }
{
    // Faster than `Buffer`, and most lanes have one digit.
    if number < 10 {
        text.push(char::from(b'0' + number as u8))?;
        return text.push(' ');
    }
    let mut digits = Buffer::new();
    text.push_str(digits.format(number))?;
    text.push(' ')
}

/// The longest text of a lane and a number, with a space behind each.
const FRONT: usize = 15;

/// Appends a lane and a number in decimal digits, each followed by a space, in one step.
fn push_front(text: &mut String, lane: u8, number: u32) -> Result<(), AllocError>
    ensures { OnOk result (string_bytes text.new ≡ string_bytes text.old ++ (decimal lane ++ (32 ∷ (decimal number ++ (32 ∷ []))))) }
{
    let mut front = [b' '; FRONT];
    let middle = write_digits(u64::from(number), &mut front, FRONT - 1);
    let start = write_digits(u64::from(lane), &mut front, middle - 1);
    // Digits and spaces are ASCII.
    text.push_str(unsafe { from_utf8_unchecked(&front[start..]) })
}

/// Appends the line of the answer to a delivery, with this lane and number.
pub fn push_line(
    text: &mut String,
    form: Form,
    lane: u8,
    number: u32,
    delivery: &Delivery,
) -> Result<(), AllocError>
    ensures { OnOk result (AddsAnswer form lane number delivery.now text.old text.new) }
{
    push_front(text, lane, number)?;
    delivery.push_answer(form, text)?;
    text.push('\n')
}

/// The texts one after the other.
pub fn joined(alloc: Global, texts: Vec<String>) -> Result<String, AllocError>
    ensures { IfOk result (λ text. string_bytes text ≡ concat (map string_bytes texts.items)) }
{
    let mut whole = String::new(alloc);
    for text in texts {
        whole.push_str(text.as_str())?;
    }
    Ok(whole)
}
