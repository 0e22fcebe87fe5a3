//! The pairs of a Digital Link.
ghost use Rattle.std.specs.Prelude.{◌≡◌, ◌==◌, ◌∷◌, [], ◌++◌, ◌<◌, ◌≤◌, codes, length, false, true, IfNone, IfSome};
ghost use Rattle.std.specs.Str.{bytes_eq};
ghost use Rattle.element_core.specs.Pairs.{entries_of, entry_of};
ghost use Rattle.message_core.specs.Links.{fits_all, fits_entry, fourteen, is_ai, parameters, path_entries, path_entry, query_entries, query_entry, segments};
ghost use Rattle.message_core.specs.Collecting.{Puts};

use crate::coding::decoded;
use crate::cut::{before, behind, first_part};
use crate::head::are_digits;
use element_core::{Pair, Text};
use std::array;
use std::marker::Model;

/// At most 48 pairs: no more fit into 192 bytes, with a separator between each two.
#[derive(Drop)]
pub struct Pairs {
    items: [Pair; 48],
    count: usize,
}

impl Model for Pairs {
    ghost use Rattle.message_core.specs.Collecting.{Collected};

    ghost Value = { Collected };

    ghost use Rattle.std.specs.Prelude.{◌≡◌, ◌≤◌, length, take, true};
    ghost use Rattle.element_core.specs.Pairs.{entries_of};

    ghost view = { λ p. record { list = entries_of (take p.count p.items) } };

    ghost use Rattle.message_core.specs.Links.{fits_all};

    ghost invariant = { λ p. (p.count ≤ 48) × (length p.items ≡ 48) × (fits_all (entries_of (take p.count p.items)) ≡ true) };
}

impl Pairs {
    /// No pairs.
    pub fn new() -> Pairs
        ensures { result.list ≡ [] }
    {
        Pairs {
            items: array::from_fn(|_| Pair {
                ai: Text::new(),
                value: Text::new(),
            }),
            count: 0,
        }
    }

    /// Takes all pairs out.
    pub fn clear(&mut self)
        ensures { self.new.list ≡ [] }
    {
        self.count = 0;
    }

    /// Whether there is no room for one more.
    fn is_full(&self) -> bool
        ensures full { result ≡ (length self.now.list == 48) }
        ensures room { length self.now.list ≤ 48 }
    {
        self.count == 48
    }

    /// Puts a pair at the end.
    fn push(&mut self, pair: Pair)
        requires room { length self.old.list < 48 }
        requires fits { fits_entry (entry_of pair) ≡ true }
        ensures { self.new.list ≡ self.old.list ++ entry_of pair ∷ [] }
    {
        let count = self.count;
        self.items[count] = pair;
        self.count = count + 1;
    }

    /// The pairs.
    pub fn as_slice(&self) -> &[Pair]
        ensures list { entries_of result.now ≡ self.now.list }
        ensures few { length self.now.list ≤ 48 }
        ensures fits { fits_all self.now.list ≡ true }
    {
        &self.items[..self.count]
    }
}

/// A text of these bytes, if they are at most 192.
pub fn text_of(bytes: &[u8]) -> Option<Text>
    ensures some { IfSome result (λ text. text.items ≡ bytes.now) }
    ensures few { IfSome result (λ text. length text.items ≤ 192) }
    ensures none { IfNone result (192 < length bytes.now) }
{
    let mut text = Text::new();
    if text.try_extend_from_slice(bytes).is_err() {
        return None;
    }
    Some(text)
}

/// A GTIN of 8, 12 or 13 digits with zeros before it.
fn fourteen(value: Text) -> Text
    requires { length value.items ≤ 192 }
    ensures value { result.items ≡ fourteen value.items }
    ensures few { length result.items ≤ 192 }
{
    let zeros = match value.len() {
        8 => 6,
        12 => 2,
        13 => 1,
        _ => return value,
    };
    let mut text = Text::new();
    let _ = text.try_extend_from_slice(&[b'0'; 6][..zeros]);
    let _ = text.try_extend_from_slice(value.as_slice());
    text
}

/// Whether an AI is that of a GTIN.
fn is_gtin(ai: &[u8]) -> bool
    ensures { result ≡ bytes_eq ai.now (codes "01") }
{
    match ai {
        b"01" => true,
        _ => false,
    }
}

/// The pair of an AI in the path and its value.
fn path_pair(ai: &[u8], value: &[u8]) -> Option<Pair>
    ensures some { IfSome result (λ p. entry_of p ≡ path_entry ai.now value.now) }
    ensures fits { IfSome result (λ p. fits_entry (entry_of p) ≡ true) }
    ensures none { IfNone result (fits_entry (path_entry ai.now value.now) ≡ false) }
{
    let value = decoded(b'+', value)?;
    Some(Pair {
        value: if is_gtin(ai) { fourteen(value) } else { value },
        ai: text_of(ai)?,
    })
}

/// The pair of a parameter whose name is an AI.
fn query_pair(parameter: &[u8]) -> Option<Pair>
    ensures some { IfSome result (λ p. entry_of p ≡ query_entry parameter.now) }
    ensures fits { IfSome result (λ p. fits_entry (entry_of p) ≡ true) }
    ensures none { IfNone result (fits_entry (query_entry parameter.now) ≡ false) }
{
    Some(Pair {
        value: decoded(b' ', behind(b'=', parameter))?,
        ai: text_of(before(b'=', parameter))?,
    })
}

/// Whether a name must be an AI: it has only digits.
fn is_ai(name: &[u8]) -> bool
    ensures { result ≡ is_ai name.now }
{
    !name.is_empty() && are_digits(name)
}

/// Puts a pair at the end, if there is one and room for it.
pub fn put_pair(pairs: &mut Pairs, pair: Option<Pair>) -> bool
    requires { IfSome pair (λ p. fits_entry (entry_of p) ≡ true) }
    ensures put { IfSome pair (λ p. Puts result pairs.old.list pairs.new.list (entry_of p ∷ [])) }
    ensures none { IfNone pair (result ≡ false) }
{
    let Some(pair) = pair else {
        return false;
    };
    if pairs.is_full() {
        return false;
    }
    pairs.push(pair);
    true
}

/// Puts an AI of the path and its value at the end, if they fit.
fn put_segments(pairs: &mut Pairs, ai: &[u8], value: &[u8]) -> bool
    ensures { Puts result pairs.old.list pairs.new.list (path_entry ai.now value.now ∷ []) }
{
    put_pair(pairs, path_pair(ai, value))
}

/// Puts the AI of a parameter and its value at the end, if they fit.
fn put_parameter(pairs: &mut Pairs, parameter: &[u8]) -> bool
    ensures { Puts result pairs.old.list pairs.new.list (query_entries (parameter.now ∷ [])) }
{
    if !is_ai(before(b'=', parameter)) {
        return true;
    }
    put_pair(pairs, query_pair(parameter))
}

/// Puts the elements of a path from its key on at the end, if they fit.
pub(crate) fn put_path(pairs: &mut Pairs, path: &[u8]) -> bool
    ensures { Puts result pairs.old.list pairs.new.list (path_entries (segments path.now)) }
{
    let mut rest = path;
    loop {
        let (ai, behind) = first_part(b'/', rest);
        let Some(behind) = behind else {
            return true;
        };
        let (value, left) = first_part(b'/', behind);
        if !put_segments(pairs, ai, value) {
            return false;
        }
        let Some(left) = left else {
            return true;
        };
        rest = left;
    }
}

/// Puts the elements of a query at the end, if they fit.
pub(crate) fn put_query(pairs: &mut Pairs, query: &[u8]) -> bool
    ensures { Puts result pairs.old.list pairs.new.list (query_entries (parameters query.now)) }
{
    let mut rest = query;
    loop {
        let (parameter, left) = first_part(b'&', rest);
        if !put_parameter(pairs, parameter) {
            return false;
        }
        let Some(left) = left else {
            return true;
        };
        rest = left;
    }
}
