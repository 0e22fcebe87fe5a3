//! The bytes of an image that were read and are still needed.
ghost use Rattle.std.specs.Prelude.{◌≡◌, ◌<◌, ◌≤◌, ◌-◌, [], true, IfOk, OnErr, OnOk, drop, length, slice_range};
ghost use Rattle.std.specs.Io.KnownBytes.{Keeps};
ghost use Rattle.sheet_core.specs.inner.Held.{ReadsBehind};

use digits_core::{Failed, NoMemory, Source};
use std::alloc::Global;
use std::marker::Model;

/// How many bytes it holds at most. A row of dots has at most 8,192.
const ROOM: usize = 65_536;

/// At most `ROOM` bytes of an image, which `ImageRows` has read.
#[derive(Drop)]
pub struct Held {
    /// The bytes that are held are those from `start` to `end`. The next ones go behind them.
    bytes: Vec<u8>,
    start: usize,
    end: usize,
}

impl Model for Held {
    ghost use Rattle.std.specs.Prelude.{ℕ, List, ◌≡◌, ◌≤◌, length, slice_range};

    ghost Value = { List ℕ };

    ghost view = { λ h. slice_range h.bytes.items h.start h.end };

    ghost invariant = { λ h. (h.start ≤ h.end) × (h.end ≤ length h.bytes.items) × (length h.bytes.items ≡ 65536) };
}

/// Moves the bytes from `start` to `end` to the front. Not `drain`, which moves byte by byte.
fn move_to_front(bytes: &mut Vec<u8>, start: usize, end: usize)
    requires ordered { start ≤ end }
    requires within { end ≤ length bytes.old.items }
    ensures same { slice_range bytes.new.items 0 (end - start) ≡ slice_range bytes.old.items start end }
    ensures len { length bytes.new.items ≡ length bytes.old.items }
{
    bytes.copy_within(start..end, 0);
}

impl Held {
    /// Nothing is held.
    pub fn new(alloc: Global) -> Result<Held, NoMemory>
        ensures { IfOk result (λ h. h ≡ []) }
    {
        match vec![in alloc; 0; ROOM] {
            Ok(bytes) => Ok(Held {
                bytes,
                start: 0,
                end: 0,
            }),
            Err(_) => Err(NoMemory),
        }
    }

    /// How many bytes are held.
    pub(crate) fn len(&self) -> usize
        ensures { result ≡ length self.now }
    {
        self.end - self.start
    }

    /// The bytes that are held.
    pub(crate) fn as_slice(&self) -> &[u8]
        ensures { result.now ≡ self.now }
    {
        &self.bytes.as_slice()[self.start..self.end]
    }

    /// Releases the first bytes that are held, this many.
    pub(crate) fn give_up(&mut self, count: usize)
        requires { count ≤ length self.old }
        ensures { self.new ≡ drop count self.old }
    {
        self.start += count;
    }

    /// Reads at most this many bytes behind those that are held. Returns how many.
    pub(crate) fn read<S: Source>(&mut self, source: &mut S, most: usize) -> Result<usize, Failed>
        requires { length self.old < 65536 }
        ensures ok { IfOk result (λ count. ReadsBehind (S.left source.old) (S.left source.new) self.old count most self.new) }
        ensures works { OnOk result (S.failed source.new ≡ S.failed source.old) }
        ensures kept { OnErr result (Keeps (S.left source.old) (S.left source.new)) }
        ensures fails { OnErr result (S.failed source.new ≡ true) }
    {
        move_to_front(&mut self.bytes, self.start, self.end);
        self.end -= self.start;
        self.start = 0;
        let room = most.min(ROOM - self.end);
        let piece = &mut self.bytes.as_mut_slice()[self.end..self.end + room];
        let count = source.read(piece)?;
        self.end += count;
        Ok(count)
    }
}
