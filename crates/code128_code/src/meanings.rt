//! The meanings of symbol characters' values in the code sets.
ghost use Rattle.std.specs.Prelude.{◌≡◌, ◌<◌};
ghost use Rattle.code128_code.specs.Texts.{byte_a, meaning, special};
ghost use Rattle.code128_code.specs.declared.code_set.CodeSet.TheVariants.{C};

use crate::code_set::CodeSet;
use crate::special_values::{CODE_A, CODE_B, CODE_C, FNC1, SHIFT};

/// The byte that FNC1 means in a GS1-128 symbol after the first value: the separator, ASCII GS.
pub(crate) const SEPARATOR: u8 = 29;

/// What a value means in a code set (ISO/IEC 15417, code set tables).
#[derive(Clone, Copy, Debug, PartialEq, Eq)]
pub enum Meaning {
    /// One byte.
    Byte(u8),
    /// The two digits of a number below 100.
    Digits(u8),
    /// Another code set from the next value on.
    Latch(CodeSet),
    /// The other one of code sets A and B, for the next value only.
    Shift,
    /// FNC2, FNC3 or FNC4, which no GS1-128 symbol has.
    Function,
}

/// The byte of a value 0 to 95 in code set A.
pub(crate) fn byte_of_a(value: u8) -> u8
    requires { value < 96 }
    ensures { result ≡ byte_a value }
{
    if value < 64 { value + 32 } else { value - 64 }
}

/// The meaning of a value from 96 on in code sets A and B: `change` changes to the other of the two.
fn special_meaning(value: u8, change: u8, other: CodeSet) -> Meaning
    ensures { result ≡ special value change other }
{
    if value == SHIFT {
        Meaning::Shift
    } else if value == CODE_C {
        Meaning::Latch(CodeSet::C)
    } else if value == change {
        Meaning::Latch(other)
    } else if value == FNC1 {
        Meaning::Byte(SEPARATOR)
    } else {
        Meaning::Function
    }
}

fn meaning_in_c(value: u8) -> Meaning
    ensures { result ≡ meaning C value }
{
    if value < 100 {
        Meaning::Digits(value)
    } else if value == CODE_B {
        Meaning::Latch(CodeSet::B)
    } else if value == CODE_A {
        Meaning::Latch(CodeSet::A)
    } else if value == FNC1 {
        Meaning::Byte(SEPARATOR)
    } else {
        Meaning::Function
    }
}

/// The meaning of a value in a code set.
pub(crate) fn meaning_of(set: CodeSet, value: u8) -> Meaning
    ensures { result ≡ meaning set value }
{
    match set {
        CodeSet::A if value < 96 => Meaning::Byte(byte_of_a(value)),
        CodeSet::A => special_meaning(value, CODE_B, CodeSet::B),
        CodeSet::B if value < 96 => Meaning::Byte(value + 32),
        CodeSet::B => special_meaning(value, CODE_A, CodeSet::A),
        CodeSet::C => meaning_in_c(value),
    }
}
