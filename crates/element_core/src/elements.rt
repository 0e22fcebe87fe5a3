//! Lists of elements.

ghost use Rattle.std.specs.Prelude.{◌≡◌, ◌+◌, ◌<◌, ◌≤◌, [], ◌∷◌, length, slice_get, List, Some, IfOk, IfErr, IsOk, OnOk, None, Err, IsTrue};
ghost use Rattle.digits_core.specs.Buffers.{pasted};
ghost use Rattle.element_core.specs.Days.{IsDay};
ghost use Rattle.element_core.specs.Rows.{entry_in};
ghost use Rattle.element_core.specs.Elements.{Entry, IsElements, FirstFault, canonical, entry_day, entry_time, gtin_entry, hri, is_printable, pairs_text};

use crate::draft::{Draft, append, gap_length};
use crate::element::{Element, named_of_element};
use crate::fault::ElementFault;
use crate::hri::{put_line, write_line};
use crate::pair_line::pairs_of;
use crate::pairs::{Pair, first_fault, needs_separator};
use crate::reading::read_elements;
use crate::shown_list::{count_of, element_of};
use crate::terms::Year;
use crate::text::{Text, copied};
use arrayvec::ArrayString;
use digits_core::Gtin;
use std::marker::Model;

/// A valid list of elements under its reference year.
#[derive(Debug, Drop)]
pub struct Elements {
    /// The canonical text.
    text: Text,
    year: Year,
}

// Each hand-over of an answer copies this many bytes.
const _: () = prove!(size_of::<Elements>() == 208);

impl Model for Elements {
    ghost use Rattle.element_core.specs.Elements.{Listing};

    ghost Value = { Listing };

    ghost use Rattle.element_core.specs.Listings.{listing};
    ghost use Rattle.element_core.specs.inner.Listings.{IsListing};

    ghost view = { listing };

    ghost invariant = { IsListing };
}

impl Elements {
    ghost use Rattle.element_core.specs.Pairs.{entries_of, list_fault};
    ghost use Rattle.element_core.specs.Shown.{shown_elements};
    ghost use Rattle.element_core.specs.declared.fault.ElementFault.{ElementFault};

    /// The elements of a text, or its first error (GS1 General Specifications, section 7.8).
    ///
    /// One separator is skipped after each value, even after a value of predefined length, and at the end of the
    /// text. If there are several errors, it reports the first from the left.
    ///
    /// # Examples
    ///
    /// A label has a GTIN, an expiry date and a batch number. Print the line below its bars:
    ///
    /// ```
    /// use element_core::{Elements, Year};
    /// let year = Year::new(2026).ok_or("a year")?;
    /// let elements = Elements::parse(b"01095011015300031726123110AB-1", year)?;
    /// let line = elements.hri();
    /// assert_eq!(rt; line.as_str(), "(01)09501101530003(17)261231(10)AB-1");
    /// ```
    pub fn parse(text: &[u8], year: Year) -> Result<Elements, ElementFault>
        // What is read is the list of the text, and nothing else is refused.
        ensures ok { IfOk result (λ es. (es.year ≡ year) × IsElements year text.now es.list) }
        ensures only { (list : List Entry) → IsElements year text.now list
            → IfOk result (λ es. es.list ≡ list) × IsOk result }

        // What is refused has this first fault, and nothing else is read.
        ensures err { IfErr result (λ f. FirstFault year text.now f) }
        ensures exact { (f : ElementFault) → FirstFault year text.now f → result ≡ Err f }
    {
        Elements::read(text, year)
    }

    /// The elements of a text, read from the left, or its first fault.
    fn read(text: &[u8], year: Year) -> Result<Elements, ElementFault>
        ensures ok { IfOk result (λ es. (es.year ≡ year) × IsElements year text.now es.list) }
        ensures err { IfErr result (λ f. FirstFault year text.now f) }
    {
        let mut draft = Draft::new();
        read_elements(text, year, &mut draft)?;
        Ok(Elements {
            text: draft.text,
            year,
        })
    }

    /// The elements of pairs. The error for no pairs is `Empty`. Otherwise it is that of the first faulty pair, with
    /// its index, or `TooLong`.
    pub fn of_pairs(pairs: &[Pair], year: Year) -> Result<Elements, ElementFault>
        ensures ok { IfOk result (λ es. (es.year ≡ year) × (es.list ≡ entries_of pairs.now)) }
        ensures only { OnOk result (list_fault year (entries_of pairs.now) ≡ None) }
        ensures err { IfErr result (λ f. list_fault year (entries_of pairs.now) ≡ Some f) }
    {
        if pairs.is_empty() {
            return Err(ElementFault::Empty);
        }
        if let Some(fault) = first_fault(year, pairs) {
            return Err(fault);
        }
        let mut out = Text::new();
        let mut separate = false;
        for pair in pairs {
            let ai = pair.ai.as_slice();
            let value = pair.value.as_slice();
            if 192 < out.len() + gap_length(separate) + ai.len() + value.len() {
                return Err(ElementFault::TooLong);
            }
            append(&mut out, separate, ai, value);
            separate = needs_separator(ai);
        }
        Ok(Elements { text: out, year })
    }

    /// The one element of a GTIN: AI 01 and its 14 digits.
    pub fn of_gtin(gtin: &Gtin, year: Year) -> Elements
        ensures year { result.year ≡ year }
        ensures list { result.list ≡ gtin_entry gtin.now ∷ [] }
        ensures reads { IsElements year (canonical result.list) result.list }
    {
        let mut text = Text::new();
        append(&mut text, false, b"01", &gtin.digits14());
        Elements { text, year }
    }

    /// How many elements there are.
    pub fn len(&self) -> usize
        ensures count { result ≡ length self.now.list }
        ensures few { result ≤ 48 }
    {
        count_of(self.text.as_slice())
    }

    /// The reference year.
    pub fn year(&self) -> Year
        ensures { result ≡ self.now.year }
    {
        self.year
    }

    /// The canonical text: a separator stands exactly after each element whose length is not
    /// predefined and that is not the last.
    pub fn text(&self) -> Text
        ensures canonical { result.items ≡ canonical self.now.list }
        ensures reads { IsElements self.now.year result.items self.now.list }
        ensures printable { IsTrue (is_printable result.items) }
    {
        copied(self.text.as_slice())
    }

    /// The canonical text where it stands, to walk over by `first_element`.
    pub fn bytes(&self) -> &[u8]
        ensures canonical { result.now ≡ canonical self.now.list }
        ensures elements { shown_elements result.now ≡ self.now.list }
        ensures few { length result.now ≤ 192 }
        ensures most { length self.now.list ≤ 48 }
    {
        self.text.as_slice()
    }

    /// The element at an index below the number of elements.
    ///
    /// # Examples
    ///
    /// When does an article expire? Look for an element with a date:
    ///
    /// ```
    /// use element_core::{Elements, Year};
    /// let year = Year::new(2026).ok_or("a year")?;
    /// let elements = Elements::parse(b"010950110153000317261231", year)?;
    /// let mut expires = None;
    /// for i in 0..elements.len() {
    ///     expires = expires.or(elements.element(i).date);
    /// }
    /// let date = expires.ok_or("no date")?;
    /// assert_eq!(rt; (date.year(), date.month(), date.day()), (2026, 12, 31));
    /// ```
    pub fn element(&self, i: usize) -> Element
        requires { i < length self.now.list }
        ensures entry { slice_get self.now.list i ≡ Some (entry_in result) }
        ensures date { IsDay result.date (entry_day self.now.year (entry_in result)) }
        ensures time { result.time ≡ entry_time (entry_in result) }
    {
        let Some(front) = element_of(self.text.as_slice(), i) else {
            unreachable!();
        };
        let named = named_of_element(front.ai, front.value, self.year);
        Element {
            ai: copied(front.ai),
            value: copied(front.value),
            date: named.date,
            time: named.time,
        }
    }

    /// The human-readable interpretation: of each element the AI in parentheses, then the value.
    pub fn hri(&self) -> ArrayString<288>
        ensures { result.bytes ≡ hri self.now.list }
    {
        let mut line = ArrayString::new();
        write_line(self.text.as_slice(), &mut line);
        line
    }

    /// Puts the human-readable interpretation into `out` from `at` on if there is room for all of it;
    /// else `out` is as it was. The answer is how many bytes it has, at most 288.
    pub fn put_hri(&self, at: usize, out: &mut [u8]) -> usize
        ensures count { result ≡ length (hri self.now.list) }
        ensures few { result ≤ 288 }
        ensures put { at + result ≤ length out.old → out.new ≡ pasted out.old at (hri self.now.list) }
        ensures unchanged { length out.old < at + result → out.new ≡ out.old }
    {
        put_line(self.text.as_slice(), at, out)
    }

    /// The elements as pairs: of each its AI, `=` and its value, with a tab between each two. Different
    /// lists of elements have different pairs.
    pub fn pairs(&self) -> ArrayString<288>
        ensures { result.bytes ≡ pairs_text self.now.list }
    {
        pairs_of(self.text.as_slice())
    }
}
