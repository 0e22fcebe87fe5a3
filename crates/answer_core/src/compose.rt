//! Answers elements that are given as pairs of an AI and a value.
ghost use Rattle.std.specs.Prelude.{◌≡◌, IfNone, IfSome, false, map, true, ◌∷◌, []};
ghost use Rattle.element_core.specs.Pairs.{entry_of};
ghost use Rattle.message_core.specs.Collecting.{Puts};
ghost use Rattle.message_core.specs.Links.{fits, fits_entry};
ghost use Rattle.answer_core.specs.Composed.{IsComposedAnswer, entry_given};

use crate::answer::Answer;
use crate::symbol::SymbolKind;
use digits_core::RefusalKind;
use element_core::{Elements, Pair, Year};
use message_core::{Pairs, put_pair, text_of};

/// An AI and a value. They need not belong together.
#[repr(C)]
#[derive(Clone, Copy)]
pub struct Given<'a> {
    pub ai: &'a [u8],
    pub value: &'a [u8],
}

/// The pair that is given, if neither text has more than 192 bytes.
fn pair_given(given: &Given) -> Option<Pair>
    ensures some { IfSome result (λ p. entry_of p ≡ entry_given given.now) }
    ensures fits { IfSome result (λ p. fits_entry (entry_of p) ≡ true) }
    ensures none { IfNone result (fits_entry (entry_given given.now) ≡ false) }
{
    Some(Pair {
        ai: text_of(given.ai)?,
        value: text_of(given.value)?,
    })
}

/// Puts a pair at the end, if it fits.
fn put_given(pairs: &mut Pairs, given: &Given) -> bool
    ensures { Puts result pairs.old.list pairs.new.list (entry_given given.now ∷ []) }
{
    put_pair(pairs, pair_given(given))
}

/// Replaces the elements by those that are given, if they fit.
fn put_all_given(all: &[Given], pairs: &mut Pairs) -> bool
    ensures put { result ≡ true → pairs.new.list ≡ map entry_given all.now }
    ensures full { result ≡ false → fits (map entry_given all.now) ≡ false }
{
    pairs.clear();
    let mut rest = all;
    while let [given, more @ ..] = rest {
        if !put_given(pairs, given) {
            return false;
        }
        rest = more;
    }
    true
}

impl Answer {
    /// Writes the elements that are given, or the error of the first wrong one, with its index as the place. If there
    /// are more than 48, or one has more than 192 bytes, the error is 11 (`TooLong`).
    ///
    /// # Examples
    ///
    /// The element string has a separator behind a value of any length, unless it is the last:
    ///
    /// ```
    /// use answer_core::{Answer, Given};
    /// let year = element_core::Year::new(2026).ok_or("a year")?;
    /// let lot = Given { ai: b"10", value: b"AB" };
    /// let expiry = Given { ai: b"17", value: b"261231" };
    /// let mut answer = Answer::new();
    /// answer.compose(&[lot, expiry], year);
    /// assert_eq!(rt; (answer.fault, answer.count, answer.length), (0, 2, 13));
    /// ```
    pub fn compose(&mut self, elements: &[Given], terms: Year)
        ensures { IsComposedAnswer terms (map entry_given elements.now) self.new }
    {
        self.name(SymbolKind::Unknown, [0; 4]);
        let mut pairs = Pairs::new();
        if !put_all_given(elements, &mut pairs) {
            return self.refuse_whole(RefusalKind::TooLong);
        }
        match &Elements::of_pairs(pairs.as_slice(), terms) {
            Ok(elements) => self.tell(elements, terms),
            Err(fault) => self.refuse(fault.refusal()),
        }
    }
}
