//! Writes the elements of an answer as texts: what a scanner sends, and Digital Links.
ghost use Rattle.std.specs.Prelude.{◌≡◌, ◌≤◌, ◌+◌, ◌++◌, IfErr, IfOk, OnOk, None, Some, length, map, take};
ghost use Rattle.digits_core.specs.Buffers.{IsPut};
ghost use Rattle.element_core.specs.Pairs.{entries_of, list_fault};
ghost use Rattle.message_core.specs.Faults.{message_fault_text};
ghost use Rattle.message_core.specs.Symbologies.{symbology_named};
ghost use Rattle.answer_core.specs.Places.{entry_at};
ghost use Rattle.answer_core.specs.Written.{carries_elements, is_stem, link_of, link_text, parted_text, scan_text, sent, stem_link, writing_text, written_text};
ghost use Rattle.answer_core.specs.inner.Written.{parted_of};

use crate::answer::Answer;
use crate::buffer::{put_both, put_refusal};
use crate::coded::{Coded, LinkSigns, push_elements};
use crate::format::{put_fault, split_first};
use crate::order::{LinkOrder, link_order};
use crate::place::{MOST_ELEMENTS, Place};
use arrayvec::ArrayVec;
use element_core::{ElementFault, Elements, Pair, Text, Year};
use message_core::{MessageFault, Symbology, has_no, is_uri, without_slash};
use std::array;

/// A text of these bytes.
fn text_of(bytes: &[u8]) -> Text
    requires { length bytes.now ≤ 192 }
    ensures { result.items ≡ bytes.now }
{
    let mut text = Text::new();
    let _ = text.try_extend_from_slice(bytes);
    text
}

/// The elements at these places, or their error.
fn elements_at(text: &[u8], places: &[Place], terms: Year) -> Result<Elements, ElementFault>
    requires text { length text.now ≤ 192 }
    requires few { length places.now ≤ 48 }
    ensures ok { IfOk result (λ es. es.list ≡ map (entry_at text.now) places.now) }
    ensures only { OnOk result (list_fault terms (map (entry_at text.now) places.now) ≡ None) }
    ensures err { IfErr result (λ f. list_fault terms (map (entry_at text.now) places.now) ≡ Some f) }
{
    let mut pairs: [Pair; MOST_ELEMENTS] = array::from_fn(|_| Pair {
        ai: Text::new(),
        value: Text::new(),
    });
    let mut count = 0;
    let mut rest = places;
    while let Some(first) = split_first(text, rest) {
        pairs[count] = Pair {
            ai: text_of(first.ai),
            value: text_of(first.value),
        };
        count += 1;
        rest = first.rest;
    }
    Elements::of_pairs(&pairs[..count], terms)
}

/// Whether symbols of a symbology carry element strings.
fn carries_elements(symbology: Symbology) -> bool
    ensures { result ≡ carries_elements symbology }
{
    match symbology {
        Symbology::Gs1128
        | Symbology::DataBar
        | Symbology::DataMatrix
        | Symbology::QrCode
        | Symbology::DotCode => true,
        _ => false,
    }
}

/// Whether a path may follow this URI: it has neither `?` nor `#`.
fn is_stem(stem: &[u8]) -> bool
    ensures { result ≡ is_stem stem.now }
{
    is_uri(stem) && has_no(b'?', stem) && has_no(b'#', stem)
}

/// Puts the reason why there is no text.
fn put_message_fault(fault: MessageFault, out: &mut [u8]) -> usize
    ensures { IsPut (message_fault_text fault) out.old out.new result }
{
    put_refusal(fault.refusal(), out)
}

/// Puts the identifier of a symbology and the element string of the elements at these places, or their error.
fn put_sent(
    symbology: Symbology,
    text: &[u8],
    places: &[Place],
    terms: Year,
    out: &mut [u8],
) -> usize
    requires text { length text.now ≤ 192 }
    requires few { length places.now ≤ 48 }
    ensures { IsPut (writing_text (sent terms symbology (map (entry_at text.now) places.now))) out.old out.new result }
{
    match &elements_at(text, places, terms) {
        Ok(elements) => put_both(symbology.identifier().as_bytes(), elements.bytes(), out),
        Err(fault) => put_message_fault(MessageFault::Elements(*fault), out),
    }
}

/// The places of the path and of the query of a link.
fn all_places(order: &LinkOrder) -> ArrayVec<Place, MOST_ELEMENTS>
    requires { length order.now.path.items + length order.now.query.items ≤ 48 }
    ensures { result.items ≡ order.now.path.items ++ order.now.query.items }
{
    let mut all = ArrayVec::new();
    let _ = all.try_extend_from_slice(order.path.as_slice());
    let _ = all.try_extend_from_slice(order.query.as_slice());
    all
}

/// The path and the query of a link.
fn coded_parts(text: &[u8], order: &LinkOrder) -> Coded
    requires { length (parted_text (parted_of text.now order.now)) ≤ 672 }
    ensures { result.items ≡ parted_text (parted_of text.now order.now) }
{
    let path = LinkSigns {
        first: b'/',
        next: b'/',
        between: b'/',
    };
    let query = LinkSigns {
        first: b'?',
        next: b'&',
        between: b'=',
    };
    let mut line = ArrayVec::new();
    push_elements(path, text, order.path.as_slice(), &mut line);
    push_elements(query, text, order.query.as_slice(), &mut line);
    line
}

/// Puts a stem and the path and the query of a link, or the error of its elements.
fn put_ordered(stem: &[u8], text: &[u8], order: &LinkOrder, terms: Year, out: &mut [u8]) -> usize
    requires text { length text.now ≤ 192 }
    requires few { length order.now.path.items + length order.now.query.items ≤ 48 }
    ensures { IsPut (writing_text (link_of terms stem.now (parted_of text.now order.now))) out.old out.new result }
{
    match elements_at(text, all_places(order).as_slice(), terms) {
        Ok(_) => put_both(stem, coded_parts(text, order).as_slice(), out),
        Err(fault) => put_message_fault(MessageFault::Elements(fault), out),
    }
}

/// Puts the link of the elements at these places with a stem, or why there is none.
fn put_stem_link(stem: &[u8], text: &[u8], places: &[Place], terms: Year, out: &mut [u8]) -> usize
    requires text { length text.now ≤ 192 }
    requires few { length places.now ≤ 48 }
    ensures { IsPut (writing_text (stem_link terms stem.now (map (entry_at text.now) places.now))) out.old out.new result }
{
    if !is_stem(stem) {
        return put_message_fault(MessageFault::Kind, out);
    }
    match &link_order(text, places) {
        Some(order) => put_ordered(stem, text, order, terms, out),
        None => put_message_fault(MessageFault::Kind, out),
    }
}

impl Answer {
    /// The bytes of its text.
    pub(crate) fn text_bytes(&self) -> &[u8]
        ensures bytes { result.now ≡ take self.now.length self.now.text }
        ensures few { length result.now ≤ 192 }
    {
        &self.text[..usize::from(self.length).min(self.text.len())]
    }

    /// The places of its elements.
    pub(crate) fn places(&self) -> &[Place]
        ensures places { result.now ≡ take self.now.count self.now.elements }
        ensures few { length result.now ≤ 48 }
    {
        &self.elements[..usize::from(self.count).min(MOST_ELEMENTS)]
    }

    /// Puts the text that a scanner sends for a symbol with these elements: a symbology identifier and the element
    /// string (GS1 General Specifications, section 5.1.3); or the error of the answer. The identifier must be that of
    /// a symbology whose symbols carry element strings; any other is error 40 (`Kind`). If the elements are not valid
    /// under the terms, it puts their error.
    pub fn put_scan(&self, identifier: &[u8], terms: Year, out: &mut [u8]) -> usize
        ensures { IsPut (written_text (scan_text terms (symbology_named identifier.now)) self.now) out.old out.new result }
    {
        if self.fault != 0 {
            return put_fault(self.fault, self.place, out);
        }
        match Symbology::named(identifier) {
            Some(symbology) if carries_elements(symbology) => {
                put_sent(symbology, self.text_bytes(), self.places(), terms, out)
            }
            _ => put_message_fault(MessageFault::Kind, out),
        }
    }

    /// Puts the Digital Link of these elements with a stem, such as `https://id.gs1.org` (GS1 Digital Link: URI
    /// syntax, section 4). The path has the first key and its qualifiers, the query the others. Or it puts the error
    /// of the answer. Without a key, or with a stem that is no URI of the web or has a query, this is error 40
    /// (`Kind`). If the elements are not valid under the terms, it puts their error.
    pub fn put_link(&self, stem: &[u8], terms: Year, out: &mut [u8]) -> usize
        ensures { IsPut (written_text (link_text terms stem.now) self.now) out.old out.new result }
    {
        if self.fault != 0 {
            return put_fault(self.fault, self.place, out);
        }
        if let Err(fault) = elements_at(self.text_bytes(), self.places(), terms) {
            return put_message_fault(MessageFault::Elements(fault), out);
        }
        put_stem_link(
            without_slash(stem),
            self.text_bytes(),
            self.places(),
            terms,
            out,
        )
    }
}
