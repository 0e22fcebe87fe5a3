//! The order of the elements in a Digital Link.
ghost use Rattle.std.specs.Prelude.{◌≡◌, ◌≤◌, ◌+◌, ◌++◌, ◌∷◌, [], IfSome, length, map, option_map};
ghost use Rattle.std.specs.List.{position_or_len};
ghost use Rattle.answer_core.specs.Places.{entry_at};
ghost use Rattle.answer_core.specs.Written.{is_at_place, is_key_entry, moved, moved_at, parted, qualifies, with_qualifiers};
ghost use Rattle.answer_core.specs.inner.Written.{parted_of};

use crate::gtin::span;
use crate::place::{MOST_ELEMENTS, Place};
use arrayvec::ArrayVec;
use message_core::{is_key, place_by};

/// The places of the elements of a link.
#[derive(Drop)]
pub(crate) struct LinkOrder {
    /// Those in its path: a key, and then its qualifiers.
    pub(crate) path: ArrayVec<Place, MOST_ELEMENTS>,
    /// Those in its query.
    pub(crate) query: ArrayVec<Place, MOST_ELEMENTS>,
}

/// The index of the first element whose AI is a key, or how many there are.
fn index_of_key(text: &[u8], places: &[Place]) -> usize
    ensures { result ≡ position_or_len is_key_entry (map (entry_at text.now) places.now) }
{
    let mut index = 0;
    let mut rest = places;
    while let [place, more @ ..] = rest {
        if is_key(span(text, place.ai, place.value)) {
            return index;
        }
        index += 1;
        rest = more;
    }
    index
}

/// Whether a qualifier is at this place.
fn is_at_place(at: u8, place: Option<u8>) -> bool
    ensures { result ≡ is_at_place at place }
{
    match place {
        Some(place) => place == at,
        None => false,
    }
}

/// The index of the first element that is the qualifier of a key at this place, or how many there are.
fn index_of_qualifier(key: &[u8], at: u8, text: &[u8], places: &[Place]) -> usize
    ensures { result ≡ position_or_len (qualifies key.now at) (map (entry_at text.now) places.now) }
{
    let mut index = 0;
    let mut rest = places;
    while let [place, more @ ..] = rest {
        if is_at_place(at, place_by(key, span(text, place.ai, place.value))) {
            return index;
        }
        index += 1;
        rest = more;
    }
    index
}

impl LinkOrder {
    /// Moves the element with this index from the query to the end of the path, if there is one.
    fn move_at(&mut self, index: usize, text: &[u8])
        requires { length self.old.path.items + length self.old.query.items ≤ 48 }
        ensures moved { parted_of text.now self.new ≡ moved_at index (parted_of text.now self.old) }
        ensures few { length self.new.path.items + length self.new.query.items ≡ length self.old.path.items + length self.old.query.items }
    {
        if index < self.query.len() {
            let place = self.query.remove(index);
            self.path.push(place);
        }
    }

    /// The index in the query of the first qualifier of a key at a place.
    fn place_of_qualifier(&self, key: &[u8], at: u8, text: &[u8]) -> usize
        ensures { result ≡ position_or_len (qualifies key.now at) (parted_of text.now self.now).query }
    {
        index_of_qualifier(key, at, text, self.query.as_slice())
    }

    /// Moves the first qualifier of a key at a place.
    fn qualify(&mut self, key: &[u8], at: u8, text: &[u8])
        requires { length self.old.path.items + length self.old.query.items ≤ 48 }
        ensures moved { parted_of text.now self.new ≡ moved (qualifies key.now at) (parted_of text.now self.old) }
        ensures few { length self.new.path.items + length self.new.query.items ≡ length self.old.path.items + length self.old.query.items }
    {
        let index = self.place_of_qualifier(key, at, text);
        self.move_at(index, text);
    }

    /// Moves the qualifiers of a key.
    fn qualify_all(&mut self, key: &[u8], text: &[u8])
        requires { length self.old.path.items + length self.old.query.items ≤ 48 }
        ensures moved { parted_of text.now self.new ≡ with_qualifiers key.now (parted_of text.now self.old) }
        ensures few { length self.new.path.items + length self.new.query.items ≡ length self.old.path.items + length self.old.query.items }
    {
        self.qualify(key, 0, text);
        self.qualify(key, 1, text);
        self.qualify(key, 2, text);
        if self.path.len() == 1 {
            self.qualify(key, 3, text);
        }
    }
}

/// The places of elements in the order of a link. It is empty if no element is a key.
pub(crate) fn link_order(text: &[u8], places: &[Place]) -> Option<LinkOrder>
    requires { length places.now ≤ 48 }
    ensures order { option_map (parted_of text.now) result ≡ parted (map (entry_at text.now) places.now) }
    ensures few { IfSome result (λ order. length order.path.items + length order.query.items ≡ length places.now) }
{
    let mut order = LinkOrder {
        path: ArrayVec::new(),
        query: ArrayVec::new(),
    };
    let _ = order.query.try_extend_from_slice(places);
    order.move_at(index_of_key(text, places), text);
    let [key, ..] = order.path.as_slice() else {
        return None;
    };
    let key = span(text, key.ai, key.value);
    order.qualify_all(key, text);
    Some(order)
}
