//! Answers the lines of a text.
ghost use Rattle.std.specs.Prelude.{◌≡◌, ◌<◌, ◌-◌, ◌∷◌, [], IfSome, MatchOption, drop, length};
ghost use Rattle.std.specs.Str.Lines.{lines, strip_carriage_return};
ghost use Rattle.answer_core.specs.Lines.{AreLinesAnswered, IsLineAnswer};

use crate::answer::Answer;
use element_core::Year;
use message_core::cut_at;

/// What each line of a text is.
#[derive(Clone, Copy, Debug, PartialEq, Eq)]
pub enum LineKind {
    /// A text of a scanner.
    Message,
    /// The digits of a GTIN.
    Gtin,
}

/// The first lines of a text, those that got an answer.
#[derive(Clone, Copy, Debug, PartialEq, Eq)]
pub struct Answered {
    /// How many they are.
    pub count: usize,
    /// How many bytes they have, including line ends.
    pub used: usize,
}

/// A line without the carriage return at its end.
fn without_return(line: &[u8]) -> &[u8]
    ensures { result.now ≡ strip_carriage_return line.now }
{
    let count = line.len();
    if count > 0 && line[count - 1] == b'\r' {
        &line[..count - 1]
    } else {
        line
    }
}

/// The first line of a text and the text behind it, if there is a line. A line ends with a line feed, with or without
/// a carriage return before it; the last line may end with the text.
fn first_line(text: &[u8]) -> Option<(&[u8], &[u8])>
    ensures lines { MatchOption result (lines text.now ≡ []) (λ r. lines text.now ≡ r.0.now ∷ lines r.1.now) }
    ensures shorter { IfSome result (λ r. length r.1.now < length text.now) }
    ensures behind { IfSome result (λ r. r.1.now ≡ drop (length text.now - length r.1.now) text.now) }
{
    match cut_at(b'\n', text) {
        Some((line, rest)) => Some((without_return(line), rest)),
        None if text.is_empty() => None,
        None => Some((text, &text[text.len()..])),
    }
}

impl Answer {
    /// Reads a line. Without terms, the answer is that the year is no reference year.
    fn read_line(&mut self, kind: LineKind, line: &[u8], terms: &Option<Year>)
        ensures { IsLineAnswer kind terms.now line.now self.new }
    {
        let Some(terms) = terms else {
            return self.refuse_terms();
        };
        match kind {
            LineKind::Message => self.read_message(line, *terms),
            LineKind::Gtin => self.read_gtin(line, *terms),
        }
    }
}

/// Answers the lines of a text one by one, from the first, as many as there is room for. A line ends with a line
/// feed, with or without a carriage return before it; the last line may end with the text.
pub fn read_lines(
    kind: LineKind,
    text: &[u8],
    terms: &Option<Year>,
    answers: &mut [Answer],
) -> Answered
    ensures { AreLinesAnswered kind terms.now text.now answers.old answers.new result.count result.used }
{
    let mut rest = text;
    let mut count = 0;
    while count < answers.len() {
        let Some((line, behind)) = first_line(rest) else {
            break;
        };
        answers[count].read_line(kind, line, terms);
        count += 1;
        rest = behind;
    }
    Answered {
        count,
        used: text.len() - rest.len(),
    }
}
