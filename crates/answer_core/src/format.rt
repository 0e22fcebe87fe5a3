//! The line of an answer.
ghost use Rattle.std.specs.Prelude.{◌≡◌, ◌≤◌, ◌+◌, ◌*◌, ◌∷◌, ◌++◌, [], IfSome, MatchOption, length, map};
ghost use Rattle.digits_core.specs.Buffers.{IsPut, pasted};
ghost use Rattle.answer_core.specs.Formats.{before_zero, fault_words, format_text, placed_words, word_or_dash, worded_text};
ghost use Rattle.element_core.specs.Lines.{elements_text};
ghost use Rattle.answer_core.specs.Places.{entry_at};
ghost use Rattle.answer_core.specs.Refusals.{refusal_numbered};
ghost use Rattle.answer_core.specs.inner.Formats.{first_opening, next_opening, opened, sign_of};

use crate::answer::{Answer, NO_PLACE};
use crate::buffer::{put, put_words};
use crate::gtin::span;
use crate::place::{MOST_ELEMENTS, Place};
use digits_core::{RefusalKind, put_at};
use element_core::Form;
use itoa::Buffer;

/// The refusals in the order of their numbers, from 1.
const REFUSALS: [RefusalKind; 44] = [
    RefusalKind::Length,
    RefusalKind::NotDigit,
    RefusalKind::CheckDigit,
    RefusalKind::Empty,
    RefusalKind::UnknownAi,
    RefusalKind::ValueLength,
    RefusalKind::ValueCharacter,
    RefusalKind::ValueCheckDigit,
    RefusalKind::ValueDate,
    RefusalKind::MissingSeparator,
    RefusalKind::TooLong,
    RefusalKind::TooManyCharacters,
    RefusalKind::CheckCharacter,
    RefusalKind::NotGs1,
    RefusalKind::FunctionCharacter,
    RefusalKind::CodeSet,
    RefusalKind::TooWide,
    RefusalKind::BadRuns,
    RefusalKind::Blank,
    RefusalKind::RunCount,
    RefusalKind::QuietZone,
    RefusalKind::Modules,
    RefusalKind::Pattern,
    RefusalKind::SymbolCheckDigit,
    RefusalKind::BadGrid,
    RefusalKind::LabelKind,
    RefusalKind::LabelWidth,
    RefusalKind::NotP4,
    RefusalKind::PbmHeader,
    RefusalKind::Truncated,
    RefusalKind::PbmSize,
    RefusalKind::Stranger,
    RefusalKind::BadCount,
    RefusalKind::Full,
    RefusalKind::Spent,
    RefusalKind::NoThread,
    RefusalKind::ReadFault,
    RefusalKind::WriteFault,
    RefusalKind::Csv,
    RefusalKind::Kind,
    RefusalKind::BadLane,
    RefusalKind::Words,
    RefusalKind::NoMemory,
    RefusalKind::InputSize,
];

/// The refusal with this number, if there is one.
fn refusal_numbered(number: u16) -> Option<RefusalKind>
    ensures { result ≡ refusal_numbered number }
{
    let index = usize::from(number.checked_sub(1)?);
    if index < REFUSALS.len() {
        Some(REFUSALS[index])
    } else {
        None
    }
}

/// The delimiters of a form: before the first element, before each other, and behind an AI.
#[derive(Clone, Copy)]
struct Signs {
    first: &'static [u8],
    next: &'static [u8],
    sign: u8,
}

/// How the elements of a form are written.
fn signs_of(form: Form) -> Signs
    ensures first { result.first.now ≡ first_opening form }
    ensures next { result.next.now ≡ next_opening form }
    ensures sign { result.sign ≡ sign_of form }
    ensures short { (length result.first.now ≤ 1) × (length result.next.now ≤ 1) }
{
    match form {
        Form::HumanReadable => Signs {
            first: b"(",
            next: b"(",
            sign: b')',
        },
        Form::Pairs => Signs {
            first: b"",
            next: b"\t",
            sign: b'=',
        },
    }
}

/// The first of some elements, and the places of the others.
#[derive(Clone, Copy)]
pub(crate) struct Split<'a> {
    pub(crate) ai: &'a [u8],
    pub(crate) value: &'a [u8],
    pub(crate) rest: &'a [Place],
}

/// The element at the first of some places, if there is one.
pub(crate) fn split_first<'a>(text: &'a [u8], places: &'a [Place]) -> Option<Split<'a>>
    ensures elements { MatchOption result (places.now ≡ []) (λ s. map (entry_at text.now) places.now
        ≡ record { ai = s.ai.now; value = s.value.now } ∷ map (entry_at text.now) s.rest.now) }
    ensures shorter { IfSome result (λ s. length s.rest.now + 1 ≡ length places.now) }
    ensures few { IfSome result (λ s. (length s.ai.now ≤ length text.now) × (length s.value.now ≤ length text.now)) }
{
    match places {
        [] => None,
        [place, rest @ ..] => Some(Split {
            ai: span(text, place.ai, place.value),
            value: span(text, place.value, place.end),
            rest,
        }),
    }
}

/// How many bytes the elements at these places have in a form.
fn elements_length(form: Form, text: &[u8], places: &[Place]) -> usize
    requires text { length text.now ≤ 192 }
    requires few { length places.now ≤ 48 }
    ensures length { result ≡ length (opened form (first_opening form) (map (entry_at text.now) places.now)) }
    ensures few { result ≤ 18528 }
{
    let signs = signs_of(form);
    let mut count = 0;
    let mut opening = signs.first;
    let mut rest = places;
    while let Some(first) = split_first(text, rest) {
        count += opening.len() + first.ai.len() + 1 + first.value.len();
        opening = signs.next;
        rest = first.rest;
    }
    count
}

/// Puts the elements at these places into `out` from an index on, and returns the index behind them.
fn put_elements(form: Form, text: &[u8], places: &[Place], at: usize, out: &mut [u8]) -> usize
    requires { at + length (opened form (first_opening form) (map (entry_at text.now) places.now)) ≤ length out.old }
    ensures end { result ≡ at + length (opened form (first_opening form) (map (entry_at text.now) places.now)) }
    ensures put { out.new ≡ pasted out.old at (opened form (first_opening form) (map (entry_at text.now) places.now)) }
{
    let signs = signs_of(form);
    let mut end = at;
    let mut opening = signs.first;
    let mut rest = places;
    while let Some(first) = split_first(text, rest) {
        end = put_element(opening, first.ai, signs.sign, first.value, end, out);
        opening = signs.next;
        rest = first.rest;
    }
    end
}

/// Puts an element behind its opening into `out` from an index on, and returns the index behind it.
fn put_element(
    opening: &[u8],
    ai: &[u8],
    sign: u8,
    value: &[u8],
    at: usize,
    out: &mut [u8],
) -> usize
    requires { at + length (opening.now ++ (ai.now ++ (sign ∷ value.now))) ≤ length out.old }
    ensures end { result ≡ at + length (opening.now ++ (ai.now ++ (sign ∷ value.now))) }
    ensures put { out.new ≡ pasted out.old at (opening.now ++ (ai.now ++ (sign ∷ value.now))) }
{
    let open = put_at(opening, at, out);
    let code = put_at(ai, open, out);
    let mark = put_at(&[sign], code, out);
    put_at(value, mark, out)
}

/// How many bytes are before the first 0.
fn before_zero(bytes: &[u8]) -> usize
    ensures { result ≡ length (before_zero bytes.now) }
{
    let mut count = 0;
    let mut rest = bytes;
    while let [byte, more @ ..] = rest {
        if *byte == 0 {
            return count;
        }
        count += 1;
        rest = more;
    }
    count
}

/// The identifier up to its first 0; `-` if it is empty.
fn word_of(identifier: &[u8]) -> &[u8]
    ensures { result.now ≡ word_or_dash (before_zero identifier.now) }
{
    let count = before_zero(identifier);
    if count == 0 {
        b"-"
    } else {
        &identifier[..count]
    }
}

/// Puts the words of an error into `out`, and its place if it has one.
pub(crate) fn put_fault(fault: u16, place: u16, out: &mut [u8]) -> usize
    ensures { IsPut (placed_words (fault_words (refusal_numbered fault)) place) out.old out.new result }
{
    let words = match refusal_numbered(fault) {
        Some(kind) => kind.words().as_bytes(),
        None => b"refused",
    };
    if place == NO_PLACE {
        return put(words, out);
    }
    let mut digits = Buffer::new();
    put_words(words, digits.format(place).as_bytes(), out)
}

/// Puts a word, a space and the elements at these places into `out`, in a form.
fn put_said(word: &[u8], form: Form, text: &[u8], places: &[Place], out: &mut [u8]) -> usize
    requires word { length word.now ≤ 4 }
    requires text { length text.now ≤ 192 }
    requires few { length places.now ≤ 48 }
    ensures { IsPut (word.now ++ (32 ∷ elements_text form (map (entry_at text.now) places.now))) out.old out.new result }
{
    let first = word.len() + 1;
    let count = first + elements_length(form, text, places);
    if count <= out.len() {
        let space = put_at(word, 0, out);
        put_at(b" ", space, out);
        put_elements(form, text, places, first, out);
    }
    count
}

impl Answer {
    /// Puts the line of this answer at the front of `out` if there is room for it, and returns its size. The line has
    /// the identifier, or `-`, and the elements in a form; or the error. It accepts any bytes as an answer. It uses
    /// the first 192 bytes of the text and the first 48 elements. A place that is no span of the text counts as an
    /// empty AI or value.
    ///
    /// # Examples
    ///
    /// The line that `gs1_hub` writes for the same text:
    ///
    /// ```
    /// use answer_core::Answer;
    /// let year = element_core::Year::new(2026).ok_or("a year")?;
    /// let mut answer = Answer::new();
    /// answer.read_message(b"]d2010950110153000317261231", year);
    /// let mut line = [0; 292];
    /// let size = answer.put_line(element_core::Form::HumanReadable, &mut line);
    /// let text = line.get(..size).ok_or("more than 292 bytes")?;
    /// assert_eq!(rt; text, b"]d2 (01)09501101530003(17)261231".as_slice());
    /// ```
    pub fn put_line(&self, form: Form, out: &mut [u8]) -> usize
        ensures { IsPut (format_text form self.now) out.old out.new result }
    {
        self.put_worded(word_of(&self.identifier), form, out)
    }

    /// The same with this word instead of the identifier.
    pub fn put_worded(&self, word: &[u8], form: Form, out: &mut [u8]) -> usize
        requires { length word.now ≤ 4 }
        ensures { IsPut (worded_text word.now form self.now) out.old out.new result }
    {
        if self.fault != 0 {
            return put_fault(self.fault, self.place, out);
        }
        let length = usize::from(self.length).min(self.text.len());
        let count = usize::from(self.count).min(MOST_ELEMENTS);
        put_said(
            word,
            form,
            &self.text[..length],
            &self.elements[..count],
            out,
        )
    }
}
