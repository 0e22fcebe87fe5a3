//! The values that encode an element string.
ghost use Rattle.std.specs.Prelude.{◌≡◌, ◌↔◌, ◌≤◌, ◌<◌, ◌++◌, IsTrue, drop, length, slice_index};
ghost use Rattle.std.specs.List.{list_all};
ghost use Rattle.arrayvec.specs.ArrayVec.{array_vec_len};
ghost use Rattle.code128_code.specs.Coding.{data_values, digits_ahead, is_coded_byte, pair};
ghost use Rattle.code128_code.specs.inner.Steps.{all_coded, begins_pair, change, has_even_run};

use crate::meanings::SEPARATOR;
use crate::special_values::{CODE_B, CODE_C, FNC1};
use arrayvec::ArrayVec;

/// The values of the text so far.
#[derive(Drop)]
struct Coder {
    values: ArrayVec<u8, 96>,
    /// Whether the code set is C; otherwise it is B.
    in_c: bool,
}

/// How many digits are at the front without a break.
fn run_length(text: &[u8]) -> usize
    ensures value { result ≡ digits_ahead text.now }
    ensures within { result ≤ length text.now }
{
    for i in 0..text.len() {
        if !text[i].is_ascii_digit() {
            return i;
        }
    }
    text.len()
}

/// Whether the front has an even number of digits, at least four.
fn is_even_run(text: &[u8]) -> bool
    ensures { result ≡ has_even_run text.now }
{
    let digits = run_length(text);
    digits >= 4 && digits % 2 == 0
}

/// Whether the front has two digits.
fn is_pair(text: &[u8]) -> bool
    ensures { IsTrue result ↔ (2 ≤ digits_ahead text.now) }
{
    if text.len() < 2 {
        return false;
    }
    if !text[0].is_ascii_digit() {
        return false;
    }
    text[1].is_ascii_digit()
}

/// The value of the two digits at the front.
fn pair_at_front(text: &[u8]) -> u8
    requires { 2 ≤ digits_ahead text.now }
    ensures { result ≡ pair (slice_index text.now 0) (slice_index text.now 1) }
{
    10 * (text[0] - b'0') + (text[1] - b'0')
}

/// Whether the two digits at the front become one value, in code set C.
fn takes_pair(in_c: bool, text: &[u8]) -> bool
    ensures { result ≡ begins_pair in_c text.now }
{
    if in_c {
        is_pair(text)
    } else {
        is_even_run(text)
    }
}

/// Changes to code set C, or otherwise to B, unless it is in use.
fn change_to(coder: &mut Coder, in_c: bool)
    requires room { array_vec_len coder.old.values < 96 }
    ensures values { coder.new.values.items ≡ coder.old.values.items ++ change coder.old.in_c in_c }
    ensures set { coder.new.in_c ≡ in_c }
{
    if coder.in_c != in_c {
        coder.values.push(if in_c { CODE_C } else { CODE_B });
        coder.in_c = in_c;
    }
}

/// Encodes the beginning of a text, and returns how many bytes that took.
fn put_front(coder: &mut Coder, text: &[u8]) -> usize
    requires some { 0 < length text.now }
    requires valid { IsTrue (list_all is_coded_byte text.now) }
    requires room { length (all_coded coder.old text.now) ≤ 96 }
    ensures whole { all_coded coder.new (drop result text.now) ≡ all_coded coder.old text.now }
    ensures some { 1 ≤ result }
    ensures within { result ≤ length text.now }
{
    if text[0] == SEPARATOR {
        coder.values.push(FNC1);
        return 1;
    }
    let in_c = takes_pair(coder.in_c, text);
    change_to(coder, in_c);
    if in_c {
        coder.values.push(pair_at_front(text));
        return 2;
    }
    coder.values.push(text[0] - 32);
    1
}

/// The data values of an element string: FNC1 and the text, from code set C on.
pub(crate) fn values_of(text: &[u8]) -> ArrayVec<u8, 96>
    requires few { length text.now ≤ 48 }
    requires valid { IsTrue (list_all is_coded_byte text.now) }
    requires digits { 2 ≤ digits_ahead text.now }
    ensures values { result.items ≡ data_values text.now }
    ensures few { array_vec_len result ≤ 49 }
{
    let mut coder = Coder {
        values: ArrayVec::new(),
        in_c: true,
    };
    coder.values.push(FNC1);
    let mut rest = text;
    while !rest.is_empty() {
        let taken = put_front(&mut coder, rest);
        rest = &rest[taken..];
    }
    coder.values
}
