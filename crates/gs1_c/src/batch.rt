//! The calls that answer the lines of a text, in order. Each returns how many lines it answered, and reports how many
//! bytes these have.
//!
//! A line ends with a line feed, with or without a carriage return before it; the last line may end with the text. If
//! there are more lines than answers, the call answers the first ones.
ghost use Rattle.answer_core.specs.Lines.{AreLinesAnswered};
ghost use Rattle.answer_core.specs.declared.lines.LineKind.TheVariants as kind;
ghost use Rattle.gs1_c.specs.Lines.{terms_of};

use crate::terms::terms_of;
use answer_core::{Answer, LineKind, read_lines};

/// Answers the lines of a text, each as `gs1_c_read_message` does.
#[unsafe(no_mangle)]
pub extern "C" fn gs1_c_read_messages(
    text: &[u8],
    year: u16,
    answers: &mut [Answer],
    used: &mut usize,
) -> usize
    ensures { AreLinesAnswered kind.Message (terms_of year) text.now answers.old answers.new result used.new }
{
    let answered = read_lines(LineKind::Message, text, &terms_of(year), answers);
    *used = answered.used;
    answered.count
}

/// Answers the lines of a text, each as `gs1_c_read_gtin` does.
#[unsafe(no_mangle)]
pub extern "C" fn gs1_c_read_gtins(
    text: &[u8],
    year: u16,
    answers: &mut [Answer],
    used: &mut usize,
) -> usize
    ensures { AreLinesAnswered kind.Gtin (terms_of year) text.now answers.old answers.new result used.new }
{
    let answered = read_lines(LineKind::Gtin, text, &terms_of(year), answers);
    *used = answered.used;
    answered.count
}
