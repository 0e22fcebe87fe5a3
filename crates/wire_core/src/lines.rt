//! The lines of an input that arrives in pieces.
ghost use Rattle.std.specs.Prelude.{◌≡◌, ◌≤◌, ◌||◌, ◌<◌, ◌+◌, nat_lt, drop, if◌then◌else◌, vec_capacity, ◌∷◌, [], ℕ, List, None, Some, true, IfNone, IfOk, IfSome, OnErr, OnOk, length};
ghost use Rattle.wire_core.specs.Events.{Ends};
ghost use Rattle.wire_core.specs.Events.Event.{Read};
ghost use Rattle.wire_core.specs.Lines.{arrived, first_line, held_line, most_line, nothing_held, with_room, without_line};

use crate::wire::Wire;
use digits_core::Failed;
use memchr::memchr;
use std::alloc::{AllocError, Global};
use std::marker::Model;

/// The most bytes of a line, without the line feed and a carriage return before it: `most_line` in specs/. The widths
/// of a symbol are always shorter.
pub const MOST_LINE: usize = 65_536;

/// The most bytes of one read, a choice for speed: it need not be `MOST_LINE` or the `CHUNK` of another crate. The
/// invariant of `Lines` has this number and the next too.
const CHUNK: usize = 65_536;

/// The most bytes that are held: a line with its carriage return, and the bytes of one more read.
const ROOM: usize = MOST_LINE + 1 + CHUNK;

/// The bytes of an input that have come but were not taken yet. If a line is too long, its beginning is dropped, so
/// that the held bytes have a limit.
#[derive(Drop)]
pub struct Lines {
    /// The held bytes, from `start` on.
    bytes: Vec<u8>,
    start: usize,
    /// A buffer for reads.
    chunk: Vec<u8>,
    is_cut: bool,
    has_ended: bool,
}

impl Model for Lines {
    ghost use Rattle.std.specs.Prelude.{◌≡◌, ◌≤◌, drop, length, vec_capacity};
    ghost use Rattle.wire_core.specs.Lines.{Held};

    ghost Value = { Held };

    ghost view = { λ s. record { rest = drop s.start s.bytes.items; is_cut = s.is_cut; has_ended = s.has_ended } };

    // The two numbers are ROOM and CHUNK.
    ghost invariant = { λ s. (s.start ≤ length s.bytes.items) × (131073 ≤ vec_capacity s.bytes) × (length s.chunk.items ≡ 65536) };
}

/// As `first_line` in specs/.
fn first_line(bytes: &[u8], are_last: bool) -> Option<&[u8]>
    ensures some { IfSome result (λ line. first_line bytes.now are_last ≡ Some line.now) }
    ensures none { IfNone result (first_line bytes.now are_last ≡ None) }
{
    match memchr(b'\n', bytes) {
        Some(end) => Some(&bytes[..end]),
        None if are_last => Some(bytes),
        None => None,
    }
}

/// Keeps the bytes from `start` on. It drops all of them if they are too many for a line, or if the line's beginning
/// was dropped before. Returns whether it was dropped. `is_too_long` and `with_room` in specs/ say the same.
fn keep_rest(bytes: &mut Vec<u8>, start: usize, is_cut: bool) -> bool
    requires { start ≤ length bytes.old.items }
    ensures cut { result ≡ (is_cut || nat_lt (most_line + 1) (length (drop start bytes.old.items))) }
    ensures rest { bytes.new.items ≡ (if result then [] else drop start bytes.old.items) }
    ensures few { length bytes.new.items ≤ most_line + 1 }
    ensures capacity { vec_capacity bytes.new ≡ vec_capacity bytes.old }
{
    if is_cut || bytes.len() - start > MOST_LINE + 1 {
        bytes.clear();
        return true;
    }
    // As in `HeldInput` of command_runs: `drain` would move the bytes one by one.
    let len = bytes.len();
    bytes.copy_within(start..len, 0);
    bytes.truncate(len - start);
    false
}

impl Lines {
    /// Before any byte has come. It takes the memory for all held bytes.
    pub fn new(alloc: Global) -> Result<Lines, AllocError>
        ensures { IfOk result (λ lines. lines ≡ nothing_held) }
    {
        Ok(Lines {
            bytes: Vec::with_capacity(alloc, ROOM)?,
            start: 0,
            chunk: Vec::from_elem(alloc, 0u8, CHUNK)?,
            is_cut: false,
            has_ended: false,
        })
    }

    /// The next line without its line feed; if its beginning was dropped, the rest of it. None if more bytes must
    /// come first, and at the end of the input.
    pub fn line(&self) -> Option<&[u8]>
        ensures some { IfSome result (λ line. held_line self.now ≡ Some line.now) }
        ensures none { IfNone result (held_line self.now ≡ None) }
    {
        let rest = &self.bytes.as_slice()[self.start..];
        let are_last = self.has_ended && (self.is_cut || !rest.is_empty());
        first_line(rest, are_last)
    }

    /// Whether the beginning of the line was dropped because it is too long.
    pub fn is_cut(&self) -> bool
        ensures { result ≡ self.now.is_cut }
    {
        self.is_cut
    }

    /// Whether the input has ended.
    pub fn has_ended(&self) -> bool
        ensures { result ≡ self.now.has_ended }
    {
        self.has_ended
    }

    /// Takes the line, which has this many bytes, and its line feed.
    pub fn take_line(&mut self, count: usize)
        requires { (line : List ℕ) × (held_line self.old ≡ Some line) × (length line ≡ count) }
        ensures { self.new ≡ without_line self.old }
    {
        self.start = self.bytes.len().min(self.start + count + 1);
        self.is_cut = false;
    }

    /// Reads once more. Call it only if the input has not ended and no line is held: otherwise the law
    /// `lines_are_pieces` says nothing.
    pub fn read<W: Wire>(&mut self, wire: &mut W) -> Result<(), Failed>
        ensures ok { (bytes : List ℕ) × OnOk result (self.new ≡ arrived self.old bytes) × Ends W.Did W.read_failed W.write_failed wire.old (λ _. Read bytes ∷ []) result wire.new }
        ensures err { OnErr result (self.new ≡ with_room self.old) }
        ensures end { OnOk result (self.new.has_ended ≡ true → W.at_end wire.new) }
    {
        self.is_cut = keep_rest(&mut self.bytes, self.start, self.is_cut);
        self.start = 0;
        let count = wire.read(self.chunk.as_mut_slice())?;
        let came = &self.chunk.as_slice()[..count];
        // This does not fail: there is `ROOM`.
        let _ = self.bytes.extend_from_slice(came);
        self.has_ended = count == 0;
        Ok(())
    }
}
