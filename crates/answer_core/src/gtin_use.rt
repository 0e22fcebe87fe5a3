//! What a GTIN identifies, by its first digits. tables/ais makes the arrays of tables/prefixes.tsv.
ghost use Rattle.std.specs.Prelude.{◌≡◌, map};
ghost use Rattle.answer_core.specs.GtinUses.{gtin_use, gtin_use_number, is_no_item, use_in, no_item, prefixes, short_prefixes};
ghost use Rattle.answer_core.specs.inner.GtinUses.{prefixes_of};

use crate::code::first;
use crate::listed::is_listed;
use crate::text::are_zeros;

/// What a GTIN identifies. Its number, from 1 in this order, is that of `enum gs1_gtin_use` in gs1.h.
#[derive(Clone, Copy, Debug, PartialEq, Eq)]
pub enum GtinUse {
    /// A trade item.
    TradeItem,
    /// What a company or the shops of a region number themselves: it is a restricted circulation number.
    InStore,
    /// A coupon or a refund receipt.
    Coupon,
    /// A serial publication. The number holds its ISSN.
    Issn,
    /// Printed music. The number is its ISMN.
    Ismn,
    /// A book. The number is its ISBN.
    Isbn,
    /// Nothing, since all its digits are zeros.
    Zeros,
}

impl GtinUse {
    /// Its number, 1 to 7.
    pub fn number(self) -> u8
        ensures { result ≡ gtin_use_number self }
    {
        self as u8 + 1
    }
}

/// The first digits of numbers of one use.
#[derive(Clone, Copy)]
struct NumberPrefixes {
    gtin_use: GtinUse,
    /// A list of four characters each, in which `n` stands for any digit.
    words: &'static [u8],
}

/// Those of a GTIN of 13 digits.
#[rattlefmt::skip]
const PREFIXES: [NumberPrefixes; 5] = [
    NumberPrefixes { gtin_use: GtinUse::InStore, words: b"02nn,04nn,2nnn" },
    NumberPrefixes { gtin_use: GtinUse::Coupon, words: b"05nn,980n,981n,982n,983n,984n,99nn" },
    NumberPrefixes { gtin_use: GtinUse::Issn, words: b"977n" },
    NumberPrefixes { gtin_use: GtinUse::Ismn, words: b"9790" },
    NumberPrefixes { gtin_use: GtinUse::Isbn, words: b"978n,979n" },
];

/// Those of a GTIN of 8 digits.
#[rattlefmt::skip]
const SHORT_PREFIXES: [NumberPrefixes; 1] = [
    NumberPrefixes { gtin_use: GtinUse::InStore, words: b"0nnn,2nnn" },
];

fn prefixes() -> &'static [NumberPrefixes]
    ensures { map prefixes_of result.now ≡ prefixes }
{
    &PREFIXES
}

fn short_prefixes() -> &'static [NumberPrefixes]
    ensures { map prefixes_of result.now ≡ short_prefixes }
{
    &SHORT_PREFIXES
}

/// The use of the numbers that begin with these four digits.
fn use_in(list: &[NumberPrefixes], digits: &[u8]) -> GtinUse
    ensures { result ≡ use_in digits.now (map prefixes_of list.now) }
{
    let mut rest = list;
    while let [prefixes, more @ ..] = rest {
        if is_listed(digits, prefixes.words) {
            return prefixes.gtin_use;
        }
        rest = more;
    }
    GtinUse::TradeItem
}

/// What a GTIN of 14 digits identifies, if there are so many.
pub(crate) fn gtin_use(digits: &[u8]) -> Option<GtinUse>
    ensures { result ≡ gtin_use digits.now }
{
    if digits.len() != 14 {
        return None;
    }
    if are_zeros(digits) {
        return Some(GtinUse::Zeros);
    }
    if are_zeros(&digits[1..6]) {
        return Some(use_in(short_prefixes(), &digits[6..10]));
    }
    Some(use_in(prefixes(), &digits[1..5]))
}

/// Whether numbers of a use identify no trade item. Those of publications do.
fn is_no_item(found: Option<GtinUse>) -> bool
    ensures { result ≡ is_no_item found }
{
    match found {
        Some(GtinUse::InStore | GtinUse::Coupon | GtinUse::Zeros) => true,
        _ => false,
    }
}

/// The GTIN at the beginning of a value if it identifies no trade item; empty if it does.
pub(crate) fn no_item(value: &[u8]) -> &[u8]
    ensures { result.now ≡ no_item value.now }
{
    let gtin = first(14, value);
    if is_no_item(gtin_use(gtin)) {
        gtin
    } else {
        b""
    }
}
