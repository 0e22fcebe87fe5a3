//! Reads lines of answers back.
ghost use Rattle.std.specs.Prelude.{◌≡◌, ◌≤◌, IfSome, true};
ghost use Rattle.digits_core.specs.declared.refusal.RefusalKind.TheVariants as refusal;
ghost use Rattle.element_core.specs.Pairs.{entry_of};
ghost use Rattle.element_core.specs.declared.form.Form.TheVariants as form;
ghost use Rattle.message_core.specs.Links.{fits_entry};
ghost use Rattle.answer_core.specs.Formats.{format_text};
ghost use Rattle.answer_core.specs.Answers.{IsError, TellsNothing};
ghost use Rattle.answer_core.specs.Reads.{IsAnswerBy, IsDataAnswer, NamesItself};

use crate::answer::{Answer, NO_GTIN, NO_PLACE};
use crate::symbol::{SymbolKind, as_four, identified_symbol};
use digits_core::RefusalKind;
use element_core::{Elements, Form, Pair, Year};
use message_core::{Pairs, cut_at, put_pair, text_of};

/// The most bytes of a line, for an answer that one of the calls filled.
const MOST_LINE: usize = 292;

/// The number of these digits, if it is below 65,535.
fn number_of(digits: &[u8]) -> Option<u16> {
    let mut number: u32 = 0;
    for digit in digits {
        if !digit.is_ascii_digit() || number >= u32::from(NO_PLACE) {
            return None;
        }
        number = number * 10 + u32::from(*digit - b'0');
    }
    if number < u32::from(NO_PLACE) {
        Some(number as u16)
    } else {
        None
    }
}

/// The number and the place of the error in a line, behind `refused `: a number, a name and, if it has one, a place.
fn error_of(words: &[u8]) -> Option<(u16, u16)> {
    let (number, name) = cut_at(b' ', words)?;
    let place = match cut_at(b' ', name) {
        Some((_, place)) => number_of(place)?,
        None => NO_PLACE,
    };
    Some((number_of(number)?, place))
}

/// The pair of a field: the text before its first `=`, and the text behind it.
fn pair_of(field: &[u8]) -> Option<Pair>
    ensures { IfSome result (λ p. fits_entry (entry_of p) ≡ true) }
{
    let (ai, value) = cut_at(b'=', field)?;
    Some(Pair {
        ai: text_of(ai)?,
        value: text_of(value)?,
    })
}

/// The pairs of fields between tabs, if they are pairs and not too many.
fn pairs_of(fields: &[u8]) -> Option<Pairs> {
    let mut pairs = Pairs::new();
    let mut rest = fields;
    while let Some((field, more)) = cut_at(b'\t', rest) {
        if !put_pair(&mut pairs, pair_of(field)) {
            return None;
        }
        rest = more;
    }
    if !put_pair(&mut pairs, pair_of(rest)) {
        return None;
    }
    Some(pairs)
}

impl Answer {
    /// Writes that a line is not that of an answer.
    fn refuse_line(&mut self)
        ensures { TellsNothing refusal.Kind self.new }
    {
        self.tell_nothing(RefusalKind::Kind);
    }

    /// Writes an error.
    fn tell_error(&mut self, fault: u16, place: u16)
        requires { fault ≡ 0 → ⊥ }
        ensures told { IsError self.new }
        ensures named { NamesItself self.new }
    {
        self.name(SymbolKind::Unknown, [0; 4]);
        self.fault = fault;
        self.place = place;
        self.count = 0;
        self.length = 0;
        self.gtin = NO_GTIN;
    }

    /// Writes what a line seems to mean: its error, or its identifier and its elements.
    fn read_parts(&mut self, line: &[u8], terms: Year)
        ensures told { IsAnswerBy terms self.new }
        ensures named { NamesItself self.new }
    {
        let Some((word, said)) = cut_at(b' ', line) else {
            return self.refuse_line();
        };
        if word == b"refused".as_slice() {
            return match error_of(said) {
                None | Some((0, _)) => self.refuse_line(),
                Some((fault, place)) => self.tell_error(fault, place),
            };
        }
        let Some(pairs) = pairs_of(said) else {
            return self.refuse_line();
        };
        match &Elements::of_pairs(pairs.as_slice(), terms) {
            Ok(elements) => {
                let identifier = as_four(word);
                self.name(identified_symbol(identifier, elements.bytes()), identifier);
                self.tell(elements, terms);
            }
            Err(_) => self.refuse_line(),
        }
    }

    /// Whether this is the line of the answer, with the elements as data.
    fn has_data(&self, line: &[u8]) -> bool
        ensures { result ≡ true → format_text form.Pairs self.now ≡ line.now }
    {
        let mut out = [0; MOST_LINE];
        let count = self.put_line(Form::Pairs, &mut out);
        count <= MOST_LINE && &out[..count] == line
    }

    /// Reads an answer back from its line, with the elements as data (`gs1_format`, and `live --elements` behind its
    /// lane and number). Any other text is error 40 (`Kind`).
    pub fn read_data(&mut self, line: &[u8], terms: Year)
        ensures { IsDataAnswer terms line.now self.new }
    {
        self.read_parts(line, terms);
        if !self.has_data(line) {
            self.refuse_line();
        }
    }
}
