//! Elements that contradict each other, or have codes outside the standard's lists.
ghost use Rattle.std.specs.Prelude.{◌≡◌, ◌≤◌, ◌+◌, ◌++◌, [], IfSome, MatchOption, drop, filter_map, length, map, min, take};
ghost use Rattle.std.specs.List.{cons_option};
ghost use Rattle.answer_core.specs.Conflicts.{breach, breaches, conflict, conflict_number, conflicts, conflicts_of, differing, index_of, is_other, is_other_value, miscoded, stands_in};
ghost use Rattle.answer_core.specs.Formats.{entries_in};
ghost use Rattle.answer_core.specs.Places.{entry_at};
ghost use Rattle.answer_core.specs.inner.Associations.{association_of};
ghost use Rattle.answer_core.specs.inner.Conflicts.{AreAdded};

use crate::answer::Answer;
use crate::association::{Association, associations_from};
use crate::code::{coding_of, first, unknown_code};
use crate::format::split_first;
use crate::gtin::span;
use crate::listed::is_listed;
use crate::place::{MOST_ELEMENTS, Place};
use digits_core::put_at;

/// What is wrong with an element. Its number, from 1 in this order, is part of the layout of a conflict.
#[derive(Clone, Copy, Debug, PartialEq, Eq)]
pub enum ConflictKind {
    /// It needs one of several elements, and none of them is there.
    Needs,
    /// It excludes an element that is there.
    Excludes,
    /// An earlier element has the same AI and another value.
    Differs,
    /// A code is not that of a country (ISO 3166).
    Country,
    /// A code is not that of a currency (ISO 4217).
    Currency,
    /// Its first four characters are not the beginning of a GS1 Company Prefix.
    CompanyPrefix,
    /// Its GTIN identifies no trade item: it is that of a shop or a coupon, or zeros alone.
    TradeItem,
}

impl ConflictKind {
    /// Its number, 1 to 7.
    pub fn number(self) -> u8
        ensures { result ≡ conflict_number self }
    {
        self as u8 + 1
    }
}

/// What is wrong with an element of an answer.
#[repr(C)]
#[derive(Clone, Copy)]
pub struct Conflict {
    /// The number of its kind, by `ConflictKind`.
    pub kind: u8,
    /// The index of the element.
    pub element: u8,
    /// The index of the element that it excludes, or that has another value; 255 if there is none.
    pub other: u8,
    /// The AIs of which it needs one, as `01,02,310n`, in which `n` stands for any digit; or the code that is in no
    /// list. Zeros follow.
    pub text: [u8; 45],
}

// Programs in other languages read it by this size.
const _: () = prove!(size_of::<Conflict>() == 48);

impl Conflict {
    /// A conflict of the element with this index.
    fn new(kind: ConflictKind, element: u8, other: u8, text: &[u8]) -> Conflict
        ensures { result ≡ conflict kind element other text.now }
    {
        let mut conflict = Conflict {
            kind: kind.number(),
            element,
            other,
            text: [0; 45],
        };
        put_at(first(44, text), 0, &mut conflict.text);
        conflict
    }
}

/// Whether the element at a place has another AI, and this AI is in the list.
fn is_other(ai: &[u8], list: &[u8], text: &[u8], place: &Place) -> bool
    ensures { result ≡ is_other ai.now list.now (entry_at text.now place.now) }
{
    let other = span(text, place.ai, place.value);
    other != ai && is_listed(other, list)
}

/// The index of the first element with another AI that is in the list; 255 if there is none.
fn other_listed(ai: &[u8], list: &[u8], text: &[u8], places: &[Place]) -> u8
    requires { length places.now ≤ 48 }
    ensures { result ≡ index_of (is_other ai.now list.now) 0 (map (entry_at text.now) places.now) }
{
    let mut index: u8 = 0;
    let mut rest = places;
    while let [place, more @ ..] = rest {
        if is_other(ai, list, text, place) {
            return index;
        }
        index += 1;
        rest = more;
    }
    255
}

/// Whether the element at a place has the same AI and another value.
fn is_other_value(ai: &[u8], value: &[u8], text: &[u8], place: &Place) -> bool
    ensures { result ≡ is_other_value ai.now value.now (entry_at text.now place.now) }
{
    span(text, place.ai, place.value) == ai && span(text, place.value, place.end) != value
}

/// The index of the first element of the same AI with another value; 255 if there is none.
fn other_value(ai: &[u8], value: &[u8], text: &[u8], places: &[Place]) -> u8
    requires { length places.now ≤ 48 }
    ensures { result ≡ index_of (is_other_value ai.now value.now) 0 (map (entry_at text.now) places.now) }
{
    let mut index: u8 = 0;
    let mut rest = places;
    while let [place, more @ ..] = rest {
        if is_other_value(ai, value, text, place) {
            return index;
        }
        index += 1;
        rest = more;
    }
    255
}

/// Whether one of the elements has this AI.
fn stands_in(ai: &[u8], text: &[u8], places: &[Place]) -> bool
    ensures { result ≡ stands_in ai.now (map (entry_at text.now) places.now) }
{
    let mut rest = places;
    while let [place, more @ ..] = rest {
        if span(text, place.ai, place.value) == ai {
            return true;
        }
        rest = more;
    }
    false
}

/// The requirement of an association of AIs that an element does not meet, if any.
fn breach(
    association: &Association,
    ai: &[u8],
    index: u8,
    text: &[u8],
    places: &[Place],
) -> Option<Conflict>
    requires { length places.now ≤ 48 }
    ensures { result ≡ breach (map (entry_at text.now) places.now) index ai.now (association_of association.now) }
{
    if !is_listed(ai, association.ais) {
        return None;
    }
    let other = other_listed(ai, association.others, text, places);
    match (association.excludes, other) {
        (true, 255) => None,
        (true, _) => Some(Conflict::new(ConflictKind::Excludes, index, other, b"")),
        (false, 255) => Some(Conflict::new(ConflictKind::Needs, index, 255, association.others)),
        (false, _) => None,
    }
}

/// The conflict of an element with an earlier one.
fn differing(ai: &[u8], value: &[u8], index: u8, text: &[u8], before: &[Place]) -> Option<Conflict>
    requires { length before.now ≤ 48 }
    ensures { result ≡ differing (map (entry_at text.now) before.now) index ai.now value.now }
{
    match other_value(ai, value, text, before) {
        255 => None,
        other => Some(Conflict::new(ConflictKind::Differs, index, other, b"")),
    }
}

/// The conflict of an element with the lists of codes.
fn miscoded(ai: &[u8], value: &[u8], index: u8) -> Option<Conflict>
    ensures { result ≡ miscoded index ai.now value.now }
{
    let (kind, coding) = coding_of(ai)?;
    let code = unknown_code(coding, value);
    if code.is_empty() {
        return None;
    }
    Some(Conflict::new(kind, index, 255, code))
}

/// Adds a conflict, if there is one and room for it, and returns the index behind it.
fn add(found: Option<Conflict>, at: usize, out: &mut [Conflict]) -> usize
    requires { at ≤ length out.old }
    ensures { AreAdded (cons_option found []) at out.old out.new result }
{
    match found {
        Some(conflict) if at < out.len() => {
            out[at] = conflict;
            at + 1
        }
        _ => at,
    }
}

/// The requirement of the first association that is not met, and the other associations.
#[derive(Clone, Copy)]
struct FirstBreach<'a> {
    found: Option<Conflict>,
    rest: &'a [Association],
}

/// The same for some associations, if there is one.
fn first_breach<'a>(
    list: &'a [Association],
    ai: &[u8],
    index: u8,
    text: &[u8],
    places: &[Place],
) -> Option<FirstBreach<'a>>
    requires { length places.now ≤ 48 }
    ensures breaches { MatchOption result (list.now ≡ []) (λ s. filter_map (breach (map (entry_at text.now) places.now) index ai.now) (map association_of list.now)
        ≡ cons_option s.found (filter_map (breach (map (entry_at text.now) places.now) index ai.now) (map association_of s.rest.now))) }
    ensures shorter { IfSome result (λ s. length s.rest.now + 1 ≡ length list.now) }
{
    match list {
        [] => None,
        [association, rest @ ..] => Some(FirstBreach {
            found: breach(association, ai, index, text, places),
            rest,
        }),
    }
}

/// Adds the requirements of associations that an element does not meet.
fn add_breaches(
    list: &[Association],
    ai: &[u8],
    index: u8,
    text: &[u8],
    places: &[Place],
    at: usize,
    out: &mut [Conflict],
) -> usize
    requires few { length places.now ≤ 48 }
    requires at { at ≤ length out.old }
    ensures { AreAdded (filter_map (breach (map (entry_at text.now) places.now) index ai.now) (map association_of list.now)) at out.old out.new result }
{
    let mut end = at;
    let mut rest = list;
    while let Some(first) = first_breach(rest, ai, index, text, places) {
        end = add(first.found, end, out);
        rest = first.rest;
    }
    end
}

/// Adds the requirements of the first element of an AI that the others do not meet.
fn add_asked(
    ai: &[u8],
    index: u8,
    text: &[u8],
    places: &[Place],
    at: usize,
    out: &mut [Conflict],
) -> usize
    requires few { length places.now ≤ 48 }
    requires index { index ≤ length places.now }
    requires at { at ≤ length out.old }
    ensures { AreAdded (breaches (map (entry_at text.now) places.now) index ai.now) at out.old out.new result }
{
    if stands_in(ai, text, &places[..usize::from(index)]) {
        return at;
    }
    add_breaches(associations_from(ai), ai, index, text, places, at, out)
}

/// Adds the conflicts of the element with this index.
fn add_conflicts(
    ai: &[u8],
    value: &[u8],
    index: u8,
    text: &[u8],
    places: &[Place],
    at: usize,
    out: &mut [Conflict],
) -> usize
    requires few { length places.now ≤ 48 }
    requires index { index ≤ length places.now }
    requires at { at ≤ length out.old }
    ensures { AreAdded (conflicts_of (map (entry_at text.now) places.now) index (record { ai = ai.now; value = value.now })) at out.old out.new result }
{
    let before = &places[..usize::from(index)];
    let asked = add_asked(ai, index, text, places, at, out);
    let end = add(differing(ai, value, index, text, before), asked, out);
    add(miscoded(ai, value, index), end, out)
}

/// Adds the conflicts of each element.
fn add_all(text: &[u8], places: &[Place], out: &mut [Conflict]) -> usize
    requires { length places.now ≤ 48 }
    ensures { AreAdded (conflicts (map (entry_at text.now) places.now)) 0 out.old out.new result }
{
    let mut index: u8 = 0;
    let mut end = 0;
    let mut rest = places;
    while let Some(first) = split_first(text, rest) {
        end = add_conflicts(first.ai, first.value, index, text, places, end, out);
        index += 1;
        rest = first.rest;
    }
    end
}

impl Answer {
    /// Writes the conflicts of the elements to the front of `out`, as many as there is room for, and returns how many
    /// it wrote. It accepts any bytes as an answer, as `put_line` does.
    pub fn conflicts(&self, out: &mut [Conflict]) -> usize
        ensures count { result ≡ min (length (conflicts (entries_in self.now))) (length out.old) }
        ensures front { out.new ≡ take (length out.old) (conflicts (entries_in self.now)) ++ drop (length (conflicts (entries_in self.now))) out.old }
    {
        let length = usize::from(self.length).min(self.text.len());
        let count = usize::from(self.count).min(MOST_ELEMENTS);
        add_all(&self.text[..length], &self.elements[..count], out)
    }
}
