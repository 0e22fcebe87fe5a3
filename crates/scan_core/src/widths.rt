//! The widths of a row, without a memory block of their own if they are few.
ghost use Rattle.std.specs.Prelude.{◌≡◌, ◌≤◌, ◌++◌, ◌∷◌, [], IfOk, IfSome, List, OnErr, OnOk, length, reverse, sum, take, true, ℕ};

use crate::cut::{NoRoom, RunList};
use std::alloc::{AllocError, Global};
use std::marker::Model;
use std::mem;

/// How many widths fit in without their own memory: most rows have fewer.
pub(crate) const FEW: usize = 208;

/// Writes the widths of a row into the row's own memory.
pub trait WritesWidths {
    // These are the widths that it writes.
    ghost Writes: { Self → List ℕ → Type 0 };

    /// Writes the widths, together at most 65,535 dots, to the first places. Returns how many they are; none if it
    /// does not write them all.
    fn write(&self, places: &mut [u16]) -> Option<usize>
        ensures same { length places.new ≡ length places.old }
        ensures within { IfSome result (λ count. count ≤ length places.new) }
        ensures written { IfSome result (λ count. Writes self.now (take count places.new)) }
        ensures narrow { IfSome result (λ count. sum (take count places.new) ≤ 65535) };
}

/// The widths of a row. Up to 208 are stored inline, so that a row is one block of memory; more have a block of their
/// own.
#[derive(Debug, Drop)]
pub(crate) struct Widths {
    /// How many stand in `few`, if `many` is empty.
    count: usize,
    few: [u16; FEW],
    many: Vec<u16>,
}

impl Model for Widths {
    ghost use Rattle.std.specs.Prelude.{◌==◌, ◌≤◌, if◌then◌else◌, take, vec_capacity, vec_len};
    ghost use Rattle.scan_core.specs.inner.Place.{Place};

    ghost Value = { Place };

    ghost view = { λ w. record {
      list = if vec_len w.many == 0 then take w.count w.few else w.many.items;
      room = vec_capacity w.many;
    } };

    ghost invariant = { λ w. w.count ≤ 208 };
}

impl Widths {
    /// No widths.
    pub(crate) fn new(alloc: Global) -> Widths
        ensures list { result.list ≡ [] }
    {
        Widths {
            count: 0,
            few: [0; FEW],
            many: Vec::new(alloc),
        }
    }

    /// The widths.
    pub(crate) fn as_slice(&self) -> &[u16]
        ensures { result.now ≡ self.now.list }
    {
        if self.many.is_empty() {
            &self.few[..self.count]
        } else {
            self.many.as_slice()
        }
    }

    /// How many widths their own memory has room for.
    pub(crate) fn room(&self) -> usize
        ensures { result ≡ self.now.room }
    {
        self.many.capacity()
    }

    /// Reverses the widths.
    pub(crate) fn reverse(&mut self)
        ensures { self.new.list ≡ reverse self.old.list }
    {
        if self.many.is_empty() {
            self.few[..self.count].reverse();
        } else {
            self.many.as_mut_slice().reverse();
        }
    }

    /// Replaces the widths by these.
    fn put_few(&mut self, widths: &[u16])
        requires { length widths.now ≤ 208 }
        ensures { self.new.list ≡ widths.now }
    {
        self.many.clear();
        self.count = widths.len();
        self.few[..self.count].copy_from_slice(widths);
    }

    /// Replaces the widths by these. If there is no memory, they stay.
    pub(crate) fn put_slice(&mut self, widths: &[u16]) -> Result<(), AllocError>
        ensures { OnOk result (self.new.list ≡ widths.now) }
    {
        if widths.len() <= FEW {
            self.put_few(widths);
            return Ok(());
        }
        self.many.clear();
        self.many.extend_from_slice(widths)
    }

    /// Replaces the widths by these. Returns the memory that is no longer needed: that of the argument if they are
    /// few, otherwise that of the earlier widths.
    pub(crate) fn put_vec(&mut self, widths: Vec<u16>) -> Vec<u16>
        ensures { self.new.list ≡ widths.items }
    {
        if widths.len() <= FEW {
            self.put_few(widths.as_slice());
            widths
        } else {
            mem::replace(&mut self.many, widths)
        }
    }

    /// Replaces the widths by those that this writes. Returns whether it writes them.
    pub(crate) fn put_written<W: WritesWidths>(&mut self, writer: &W) -> bool
        ensures written { result ≡ true → W.Writes writer.now self.new.list }
        ensures narrow { result ≡ true → sum self.new.list ≤ 65535 }
    {
        self.many.clear();
        self.count = 0;
        match writer.write(&mut self.few) {
            Some(count) => {
                self.count = count;
                true
            }
            None => false,
        }
    }

    /// Puts a width at the end, in their own memory.
    fn push_many(&mut self, width: u16) -> Result<(), AllocError>
        ensures put { OnOk result (self.new.list ≡ self.old.list ++ width ∷ []) }
        ensures unchanged { OnErr result (self.new.list ≡ self.old.list) }
    {
        if self.many.is_empty() {
            self.many.extend_from_slice(&self.few[..self.count])?;
        }
        self.many.push(width)?;
        Ok(())
    }
}

impl RunList for Widths {
    ghost use Rattle.std.specs.Prelude.{⊤};

    ghost runs = { λ widths. widths.list };

    // Memory can be refused at any length.
    ghost MayBeFull = { λ widths. ⊤ };

    fn put(&mut self, width: u16) -> Result<(), NoRoom> {
        if self.many.is_empty() && self.count < FEW {
            self.few[self.count] = width;
            self.count += 1;
            return Ok(());
        }
        self.push_many(width).map_err(|_| NoRoom)
    }
}
