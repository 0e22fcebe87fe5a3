//! What a picture shows.
ghost use Rattle.std.specs.Prelude.{◌≡◌, ◌<◌, ◌+◌, ◌++◌, ◌∷◌, [], Some, length};
ghost use Rattle.arrayvec.specs.ArrayVec.{array_vec_len};

use crate::area::Size;
use crate::count::added;
use crate::frame::Spot;
use crate::said::Refused;
use crate::symbol::SeenSymbol;
use arrayvec::ArrayVec;

/// The most symbols of a picture that are reported.
pub const MOST: usize = 192;

/// What a picture shows.
#[derive(Drop)]
pub struct Shown {
    /// The grey value below which the dots of the picture's own rows are dark.
    pub level: u8,
    /// Its symbols in the order of reading. Each place of the list has one.
    pub symbols: ArrayVec<Option<SeenSymbol>, MOST>,
    /// How many symbols were found, each as often as it was; those too that are not reported.
    pub found: u32,
    /// How many of them are not reported though there was room: they are part of another one or contradict it, or the picture did not
    /// show them when they were looked up once more.
    pub left_out: u32,
    /// How many more there was no room for, at least.
    pub dropped: u32,
    /// If there is no symbol, why: of the rows that were looked at the refusal that came furthest.
    pub refused: Option<Refused>,
    ghost counted: { found < 4294967295 → found ≡ length symbols.items + left_out + dropped },
}

/// The place of a symbol that is the same or a part of it.
fn place_of(all: &[Option<SeenSymbol>], symbol: &SeenSymbol) -> Option<usize> {
    for (place, other) in all.iter().enumerate() {
        if let Some(other) = other {
            if symbol.is_also(other) {
                return Some(place);
            }
        }
    }
    None
}

/// Whether a symbol says something else of the place of one of these.
fn is_against_one(all: &[Option<SeenSymbol>], symbol: &SeenSymbol) -> bool {
    for other in all {
        if let Some(other) = other {
            if symbol.is_against(other) {
                return true;
            }
        }
    }
    false
}

impl Shown {
    /// Room for what a picture shows, which takes some 70 kB.
    pub fn new() -> Shown {
        Shown {
            level: 0,
            symbols: ArrayVec::new(),
            found: 0,
            left_out: 0,
            dropped: 0,
            refused: None,
        }
    }

    /// Takes out all that it holds.
    pub(crate) fn clear(&mut self)
        ensures symbols { self.new.symbols.items ≡ [] }
        ensures found { self.new.found ≡ 0 }
        ensures left_out { self.new.left_out ≡ 0 }
        ensures dropped { self.new.dropped ≡ 0 }
    {
        self.symbols.clear();
        self.found = 0;
        self.left_out = 0;
        self.dropped = 0;
        self.refused = None;
    }

    /// Whether a place is on one of the symbols or about its quiet zones.
    pub(crate) fn is_near(&self, spot: Spot) -> bool {
        for symbol in self.symbols.as_slice() {
            if let Some(symbol) = symbol {
                if symbol.area.is_near(spot) {
                    return true;
                }
            }
        }
        false
    }

    /// Counts symbols for which there was no room.
    pub(crate) fn drop_more(&mut self, count: u32)
        ensures { self.old.dropped + count < 4294967296 → self.new.dropped ≡ self.old.dropped + count }
    {
        self.found = added(self.found, count);
        self.dropped = added(self.dropped, count);
    }

    /// Counts a symbol that is not added.
    fn leave_out(&mut self) {
        self.found = added(self.found, 1);
        self.left_out = added(self.left_out, 1);
    }

    /// Takes a symbol out.
    fn take_out(&mut self, place: usize) -> Option<SeenSymbol>
        requires { place < length self.old.symbols.items }
    {
        let taken = self.symbols.remove(place);
        self.left_out = added(self.left_out, 1);
        taken
    }

    /// Adds a symbol, or counts it if there is no room for it.
    pub(crate) fn push(&mut self, symbol: SeenSymbol)
        ensures room { array_vec_len self.old.symbols < 192 → self.new.symbols.items ≡ self.old.symbols.items ++ Some symbol ∷ [] }
        ensures counted { self.old.dropped < 4294967295 → array_vec_len self.old.symbols ≡ 192 → self.new.dropped ≡ self.old.dropped + 1 }
    {
        if self.symbols.try_push(Some(symbol)).is_err() {
            self.drop_more(1);
        } else {
            self.found = added(self.found, 1);
        }
    }

    /// Adds a symbol, if it may be one of those that are found; if one of them says something else it stands.
    pub(crate) fn join(&mut self, mut symbol: SeenSymbol, size: Size) {
        if is_against_one(self.symbols.as_slice(), &symbol) {
            self.leave_out();
            return;
        }
        for _ in 0..MOST {
            let Some(same) = place_of(self.symbols.as_slice(), &symbol) else {
                break;
            };
            if same < self.symbols.len() {
                if let Some(other) = self.take_out(same) {
                    symbol.take_in(&other);
                }
            }
        }
        symbol.corners = symbol.area.corners(size);
        self.push(symbol);
    }
}
