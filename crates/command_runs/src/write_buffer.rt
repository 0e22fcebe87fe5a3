//! The bytes that wait to be written.
ghost use Rattle.std.specs.Prelude.{◌≡◌, ◌+◌, ◌≤◌, ◌++◌, ◌==◌, [], drop, length};

use std::marker::Model;

/// How many bytes wait at most, a choice for speed. Contracts see it as 65536, and tests/commands/failures_test.py
/// breaks an output off around it.
pub const ROOM: usize = 65_536;

/// At most `ROOM` bytes that wait. They are in an array, since an `ArrayVec` sets each byte to 0 that it drops.
#[derive(Drop)]
pub struct WriteBuffer {
    bytes: [u8; ROOM],
    len: usize,
}

impl Model for WriteBuffer {
    ghost use Rattle.std.specs.Prelude.{ℕ, List, ◌≤◌, take};

    ghost Value = { List ℕ };

    ghost view = { λ b. take b.len b.bytes };

    ghost invariant = { λ b. b.len ≤ 65536 };
}

impl WriteBuffer {
    /// Nothing waits.
    pub fn new() -> WriteBuffer
        ensures { result ≡ [] }
    {
        WriteBuffer {
            bytes: [0; ROOM],
            len: 0,
        }
    }

    /// How many bytes wait.
    pub fn len(&self) -> usize
        ensures value { result ≡ length self.now }
        ensures bound { result ≤ 65536 }
    {
        self.len
    }

    /// Whether nothing waits.
    pub fn is_empty(&self) -> bool
        ensures { result ≡ (length self.now == 0) }
    {
        self.len() == 0
    }

    /// The bytes that wait.
    pub fn as_slice(&self) -> &[u8]
        ensures value { result.now ≡ self.now }
    {
        &self.bytes[..self.len]
    }

    /// Drops this many bytes from the front.
    pub fn drop_front(&mut self, count: usize)
        requires { count ≤ length self.old }
        ensures { self.new ≡ drop count self.old }
    {
        let len = self.len;
        self.bytes.copy_within(count..len, 0);
        self.len = len - count;
    }

    /// Appends bytes, for which there is room.
    pub fn append(&mut self, more: &[u8])
        requires { length self.old + length more.now ≤ 65536 }
        ensures { self.new ≡ self.old ++ more.now }
    {
        let len = self.len;
        self.bytes[len..len + more.len()].copy_from_slice(more);
        self.len = len + more.len();
    }
}
