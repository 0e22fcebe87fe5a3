//! Answers texts as people type, print and paste them.
ghost use Rattle.std.specs.Prelude.{◌≡◌, ◌==◌, ◌≤◌, IfNone, IfSome, None, Some, false, length, true};
ghost use Rattle.std.specs.List.{list_all};
ghost use Rattle.element_core.specs.Pairs.{entries_of, list_fault};
ghost use Rattle.message_core.specs.Links.{fits};
ghost use Rattle.message_core.specs.Spellings.{spelled};
ghost use Rattle.answer_core.specs.Answers.{TellsRefusal};
ghost use Rattle.answer_core.specs.Gaps.{without_gaps};
ghost use Rattle.answer_core.specs.Printed.{printed};
ghost use Rattle.answer_core.specs.Reads.{IsStringAnswer};
ghost use Rattle.answer_core.specs.Texts.{IsNumberAnswer, IsPrintedAnswer, IsTextAnswer, TellsPrintedFault, TellsPlaced, has_separator, is_no_gtin, is_read, text_kind};
ghost use Rattle.answer_core.specs.declared.gap.GapPlace.TheVariants as gap;
ghost use Rattle.answer_core.specs.inner.Answers.{IsNamedAs};

use crate::answer::Answer;
use crate::gap::{GapPlace, byte_at, trimmed, without_gaps};
use crate::printed::{Marks, are_plain, begins_marked, put_all_printed, start_of};
use crate::symbol::SymbolKind;
use digits_core::{Refusal, RefusalKind};
use element_core::{ElementFault, Elements, Pair, Year};
use message_core::{Pairs, are_digits, is_message, read_spelled};

/// How a text is read.
#[derive(Clone, Copy, Debug, PartialEq, Eq)]
pub enum TextKind {
    /// As a printed element string with each AI in parentheses.
    Parentheses,
    /// As one with each AI in brackets.
    Brackets,
    /// As the text of a scanner.
    Sent,
    /// As an element string whose separator is byte 29 or `^`.
    Separated,
    /// As a number.
    Number,
}

/// Whether a text has a separator.
fn has_separator(text: &[u8]) -> bool
    ensures { result ≡ has_separator text.now }
{
    text.iter().any(|byte| *byte == 29 || *byte == b'^')
}

/// How a text without gaps at its ends is read.
fn text_kind(text: &[u8]) -> TextKind
    ensures { result ≡ text_kind text.now }
{
    let first = byte_at(text, 0);
    if first == b'(' {
        TextKind::Parentheses
    } else if first == b'[' {
        TextKind::Brackets
    } else if is_message(text) && !first.is_ascii_digit() {
        TextKind::Sent
    } else if has_separator(text) {
        TextKind::Separated
    } else {
        TextKind::Number
    }
}

/// The elements of a printed text, if they fit and have no error.
fn read_elements(marks: Marks, text: &[u8], terms: Year, pairs: &mut Pairs) -> Option<Elements>
    ensures some { IfSome result (λ elements. elements.list ≡ printed marks text.now) }
    ensures read { IfSome result (λ elements. is_read terms marks text.now ≡ true) }
    ensures none { IfNone result (is_read terms marks text.now ≡ false) }
{
    if !begins_marked(marks, text, terms) {
        return None;
    }
    if !put_all_printed(marks, text, terms, pairs) {
        return None;
    }
    match Elements::of_pairs(pairs.as_slice(), terms) {
        Ok(elements) => Some(elements),
        Err(_) => None,
    }
}

/// Whether all bytes are zeros.
pub(crate) fn are_zeros(digits: &[u8]) -> bool
    ensures { result ≡ list_all (λ b. b == 48) digits.now }
{
    digits.iter().all(|byte| *byte == b'0')
}

/// Whether digits are no certain GTIN: only zeros, or eight digits that begin with 0.
fn is_no_gtin(digits: &[u8]) -> bool
    requires { length digits.now ≤ 192 }
    ensures { result ≡ is_no_gtin digits.now }
{
    !digits.is_empty()
        && (are_zeros(digits) || are_digits(digits) && digits.len() == 8 && digits[0] == b'0')
}

impl Answer {
    /// Writes the error of printed elements.
    fn refuse_placed(&mut self, fault: ElementFault, pairs: &[Pair], terms: Year)
        requires fault { list_fault terms (entries_of pairs.now) ≡ Some fault }
        requires few { length pairs.now ≤ 48 }
        ensures told { TellsPlaced terms (entries_of pairs.now) (list_fault terms (entries_of pairs.now)) self.new }
        ensures kept { IsNamedAs self.old self.new }
    {
        let Refusal { kind, place } = fault.refusal();
        let place = match place {
            Some(i) => Some(start_of(pairs, i)),
            None => None,
        };
        self.refuse(Refusal { kind, place });
    }

    /// Writes that a text is not printed in this way.
    pub(crate) fn refuse_whole(&mut self, kind: RefusalKind)
        ensures told { TellsRefusal kind None self.new }
        ensures kept { IsNamedAs self.old self.new }
    {
        self.refuse(Refusal { kind, place: None });
    }

    /// Writes the error of a printed text, if any two to four digits between the characters count as an AI.
    fn refuse_printed(&mut self, marks: Marks, text: &[u8], terms: Year, pairs: &mut Pairs)
        ensures told { TellsPrintedFault terms marks text.now self.new }
        ensures kept { IsNamedAs self.old self.new }
    {
        if !put_all_printed(marks, text, terms, pairs) {
            return self.refuse_whole(RefusalKind::TooLong);
        }
        let pairs = pairs.as_slice();
        if !begins_marked(marks, text, terms) || !are_plain(marks, pairs) {
            return self.refuse_whole(RefusalKind::UnknownAi);
        }
        match Elements::of_pairs(pairs, terms) {
            Ok(elements) => self.tell(&elements, terms),
            Err(fault) => self.refuse_placed(fault, pairs, terms),
        }
    }

    /// Reads a printed element string.
    fn read_printed(&mut self, opening: u8, closing: u8, text: &[u8], terms: Year)
        ensures { IsPrintedAnswer opening closing terms text.now self.new }
    {
        self.name(SymbolKind::Unknown, [0; 4]);
        let known = Marks {
            opening,
            closing,
            known: true,
        };
        let any = Marks {
            known: false,
            ..known
        };
        let mut pairs = Pairs::new();
        match read_elements(known, text, terms, &mut pairs) {
            Some(elements) => self.tell(&elements, terms),
            None => self.refuse_printed(any, text, terms, &mut pairs),
        }
    }

    /// Reads an element string whose separator is byte 29 or `^`.
    fn read_spelled(&mut self, text: &[u8], terms: Year)
        ensures { IsStringAnswer terms (spelled text.now) self.new }
    {
        self.name(SymbolKind::Unknown, [0; 4]);
        match &read_spelled(text, terms) {
            Ok(elements) => self.tell(elements, terms),
            Err(fault) => self.refuse_said(fault.refusal()),
        }
    }

    /// Reads a GTIN with blanks and hyphens in it.
    fn read_number(&mut self, text: &[u8], terms: Year)
        ensures { IsNumberAnswer terms (without_gaps gap.Number text.now) self.new }
    {
        match without_gaps(GapPlace::Number, text) {
            Some(digits) if is_no_gtin(digits.as_slice()) => self.tell_nothing(RefusalKind::Kind),
            Some(digits) => self.read_gtin(digits.as_slice(), terms),
            None => self.read_gtin(&[], terms),
        }
    }

    /// Reads a text as people type, print and paste it, in UTF-8:
    ///
    /// - an element string with each AI of the table in parentheses, or each in brackets, before its value, which
    ///   ends before the next AI (GS1 General Specifications, section 4.14);
    /// - the text of a scanner, as `read_message` reads it: behind an identifier or a separator, or a GS1 Digital
    ///   Link;
    /// - an element string with a separator, byte 29 or `^`;
    /// - otherwise a GTIN of 8, 12, 13 or 14 digits with blanks and hyphens, such as an ISBN.
    ///
    /// It ignores white space at the ends of a text, around printed values, and within values that have only digits.
    /// The place of a printed element is its offset in the text of all elements with a separator between each two. If
    /// the elements are refused and there are parentheses or brackets that are not around AIs, the error is 5
    /// (`UnknownAi`). Zeros alone, and eight digits that begin with 0, are error 40 (`Kind`).
    pub fn read_text(&mut self, text: &[u8], terms: Year)
        ensures { IsTextAnswer terms text.now self.new }
    {
        let text = trimmed(GapPlace::Ends, text);
        match text_kind(text) {
            TextKind::Parentheses => self.read_printed(b'(', b')', text, terms),
            TextKind::Brackets => self.read_printed(b'[', b']', text, terms),
            TextKind::Sent => self.read_message(text, terms),
            TextKind::Separated => self.read_spelled(text, terms),
            TextKind::Number => self.read_number(text, terms),
        }
    }
}
