//! A wire that records its calls.
ghost use Rattle.std.specs.Prelude.{◌≡◌, ◌<◌, ◌≤◌, ◌∷◌, ◌++◌, [], OnErr, OnOk, Ok, false};
ghost use Rattle.test_doubles.specs.declared.recorded.Happened.{Happened};
ghost use Rattle.test_doubles.specs.Recorded.{events_of};

use digits_core::Failed;
use std::alloc::{AllocError, Global};
use wire_core::Wire;

/// A read that returned these bytes, or a write that took them.
#[derive(Debug, Drop, PartialEq, Eq)]
pub enum Happened {
    /// A read returned these bytes.
    Read(Vec<u8>),
    /// A write took these bytes.
    Wrote(Vec<u8>),
}

/// A wire in memory. It gives and takes a few bytes at a time, records its calls, and fails after a number of calls.
/// It also fails if memory is refused, and then at each further call.
#[derive(Drop)]
pub struct Recorded<'a> {
    alloc: Global,
    left: &'a [u8],
    most: usize,
    calls_left: usize,
    happened: Vec<Happened>,
    read_failed: bool,
    write_failed: bool,
}

impl<'a> Recorded<'a> {
    /// A wire that has done nothing. It gives these bytes, one to `most` at each read, takes as many at each write,
    /// and fails after this many calls.
    pub fn new(alloc: Global, bytes: &'a [u8], most: usize, calls: usize) -> Recorded<'a>
        ensures fresh { ⟦<Recorded<'a> as Wire>⟧.Did result result [] }
        ensures readable { ⟦<Recorded<'a> as Wire>⟧.read_failed result ≡ false }
        ensures writable { ⟦<Recorded<'a> as Wire>⟧.write_failed result ≡ false }
    {
        Recorded {
            alloc,
            left: bytes,
            most,
            calls_left: calls,
            happened: Vec::new(alloc),
            read_failed: false,
            write_failed: false,
        }
    }

    /// Its reads and writes, in order.
    pub fn happened(&self) -> &[Happened]
        ensures { result.now ≡ self.now.happened.items }
    {
        self.happened.as_slice()
    }

    /// How many of this many bytes one call moves.
    fn count_of(&self, bytes: usize) -> usize
        ensures few { result ≤ bytes }
        ensures some { 0 < bytes → 0 < result }
    {
        bytes.min(self.most.max(1))
    }

    /// Records a call, unless it is one that fails. After one that fails, all fail.
    fn keep(&mut self, call: Result<Happened, AllocError>) -> Result<(), Failed>
        ensures kept { OnOk result ((happened : Happened) × (call ≡ Ok happened) × (self.new.happened.items ≡ self.old.happened.items ++ happened ∷ [])) }
        ensures none { OnErr result (self.new.happened.items ≡ self.old.happened.items) }
        ensures left { self.new.left ≡ self.old.left }
        ensures failed { (self.new.read_failed ≡ self.old.read_failed) × (self.new.write_failed ≡ self.old.write_failed) }
    {
        let left = self.calls_left;
        self.calls_left = 0;
        let Ok(happened) = call else {
            return Err(Failed);
        };
        if left == 0 {
            return Err(Failed);
        }
        let Ok(()) = self.happened.push(happened) else {
            return Err(Failed);
        };
        self.calls_left = left - 1;
        Ok(())
    }
}

impl<'a> Wire for Recorded<'a> {
    ghost use Rattle.std.specs.Prelude.{◌≡◌, ◌++◌, []};

    ghost Did = { λ start wire events. events_of wire.happened.items ≡ events_of start.happened.items ++ events };

    ghost read_failed = { λ wire. wire.read_failed };

    ghost write_failed = { λ wire. wire.write_failed };

    ghost at_end = { λ wire. wire.left.now ≡ [] };

    fn read(&mut self, buf: &mut [u8]) -> Result<usize, Failed> {
        let count = self.count_of(self.left.len().min(buf.len()));
        let (piece, left) = self.left.split_at(count);
        let kept = piece.to_vec(self.alloc).map(Happened::Read);
        if self.keep(kept).is_err() {
            self.read_failed = true;
            return Err(Failed);
        }
        buf[..count].copy_from_slice(piece);
        self.left = left;
        Ok(count)
    }

    fn write(&mut self, bytes: &[u8]) -> Result<usize, Failed> {
        let count = self.count_of(bytes.len());
        let kept = bytes[..count].to_vec(self.alloc).map(Happened::Wrote);
        if self.keep(kept).is_err() {
            self.write_failed = true;
            return Err(Failed);
        }
        Ok(count)
    }
}
