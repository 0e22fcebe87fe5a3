//! Answers texts.
ghost use Rattle.std.specs.Prelude.{◌≡◌, Err};
ghost use Rattle.message_core.specs.Faults.{heard, message_fault_text};
ghost use Rattle.message_core.specs.declared.fault.MessageFault.{MessageFault};
ghost use Rattle.answer_core.specs.inner.Answers.{IsNamedAs, IsShort};
ghost use Rattle.answer_core.specs.Reads.{IsGtinAnswer, IsMessageAnswer, IsStringAnswer, TellsOutcome};

use crate::answer::Answer;
use crate::symbol::{SymbolKind, sent_identifier, sent_symbol};
use digits_core::Gtin;
use element_core::{Elements, Year};
use message_core::{Message, MessageFault, read_message};

impl Answer {
    /// Writes what a message means.
    fn tell_said(&mut self, said: &Result<Elements, MessageFault>, terms: Year)
        requires { (fault : MessageFault) → heard said.now ≡ Err fault → IsShort (message_fault_text fault) }
        ensures told { TellsOutcome terms (heard said.now) self.new }
        ensures kept { IsNamedAs self.old self.new }
    {
        match said {
            Ok(elements) => self.tell(elements, terms),
            Err(fault) => self.refuse_said(fault.refusal()),
        }
    }

    /// Reads a text of a scanner, as `read_message` of message_core does.
    ///
    /// # Examples
    ///
    /// A text with two elements, the first of which is the GTIN:
    ///
    /// ```
    /// use answer_core::Answer;
    /// let year = element_core::Year::new(2026).ok_or("a year")?;
    /// let mut answer = Answer::new();
    /// answer.read_message(b"]d2010950110153000317261231", year);
    /// assert_eq!(rt; (answer.fault, answer.count, answer.gtin), (0, 2, 0));
    /// ```
    pub fn read_message(&mut self, text: &[u8], terms: Year)
        ensures { IsMessageAnswer terms text.now self.new }
    {
        let Message { head, said } = read_message(text, terms);
        self.name(
            sent_symbol(head, text.trim_ascii_end()),
            sent_identifier(head),
        );
        self.tell_said(&said, terms);
    }

    /// Reads an element string, in which byte 29 is the separator (GS1 General Specifications, section 7.8).
    pub fn read_elements(&mut self, text: &[u8], terms: Year)
        ensures { IsStringAnswer terms text.now self.new }
    {
        self.name(SymbolKind::Unknown, [0; 4]);
        match &Elements::parse(text, terms) {
            Ok(elements) => self.tell(elements, terms),
            Err(fault) => self.refuse_said(fault.refusal()),
        }
    }

    /// Reads the GTIN of 8, 12, 13 or 14 digits (GS1 General Specifications, section 7.9), as the element of AI 01.
    pub fn read_gtin(&mut self, digits: &[u8], terms: Year)
        ensures { IsGtinAnswer terms digits.now self.new }
    {
        self.name(SymbolKind::Unknown, [0; 4]);
        match &Gtin::read(digits) {
            Ok(gtin) => self.tell(&Elements::of_gtin(gtin, terms), terms),
            Err(fault) => self.refuse_said(fault.refusal()),
        }
    }
}
