//! A buffer before an input: it holds the bytes that have come until the reader releases them. `Lines` of wire_core
//! does the same for a wire, and drops the beginning of a line that is too long.
ghost use Rattle.std.specs.Prelude.{◌≡◌, ◌+◌, ◌≤◌, length, true};

use csv_records::INPUT_LIMIT;
use digits_core::{InputFault, Source};
use std::alloc::Global;
use std::mem;

/// How many bytes it reads at a time, a choice for speed: the `CHUNK` of another crate may differ. Contracts see it
/// as 65536. docs/ARCHITECTURE.md and `LONG` of row_reader.rt give it too.
const CHUNK: usize = 65_536;

/// An input, and the bytes of it that are held.
#[derive(Drop)]
pub struct HeldInput<'a, S> {
    /// The source of the bytes.
    pub source: &'a mut S,
    /// How many bytes may still come before the input is too long.
    room: usize,
    /// The bytes that are held are those from `start` to `end`. The next piece goes behind them.
    bytes: Vec<u8>,
    start: usize,
    end: usize,
    ghost ok: { (start ≤ end) × (end ≤ length bytes.items) },
}

impl<'a, S: Source> HeldInput<'a, S> {
    ghost use Rattle.command_runs.specs.inner.HeldInputs.{GivesUp, HoldsMore, HoldsNothing, MakesRoom, PassesRest, ReadsRest, held_of};

    /// The input of this source. It holds nothing yet.
    pub fn new(alloc: Global, source: &'a mut S) -> HeldInput<'a, S>
        ensures { HoldsNothing S.left S.failed source.entry result }
    {
        HeldInput {
            source,
            room: INPUT_LIMIT,
            bytes: Vec::new(alloc),
            start: 0,
            end: 0,
        }
    }

    /// The bytes that are held.
    pub fn held(&self) -> &[u8]
        ensures { result.now ≡ held_of self.now }
    {
        &self.bytes.as_slice()[self.start..self.end]
    }

    /// Releases the first bytes that are held, this many.
    pub fn give_up(&mut self, count: usize)
        requires { count ≤ length (held_of self.old) }
        ensures { GivesUp count self.old self.new }
    {
        self.start += count;
    }

    /// Moves the held bytes to the front and makes room for a piece behind them. Returns false if memory is refused.
    fn make_room(&mut self) -> bool
        ensures kept { MakesRoom self.old self.new }
        ensures room { result ≡ true → self.new.end + 65536 ≤ length self.new.bytes.items }
    {
        // Not `drain`, which moves byte by byte; `keep_rest` of wire_core does the same.
        self.bytes.copy_within(self.start..self.end, 0);
        self.end -= self.start;
        self.start = 0;
        let least = self.end + CHUNK;
        self.bytes.len() >= least || self.bytes.resize(least, 0).is_ok()
    }

    /// Reads the next piece behind the held bytes. Returns false at the end of the input.
    pub fn read_piece(&mut self) -> Result<bool, InputFault>
        ensures { HoldsMore S.left S.failed self.old result self.new }
    {
        if !self.make_room() {
            return Err(InputFault::NoMemory);
        }
        let piece = &mut self.bytes.as_mut_slice()[self.end..self.end + CHUNK];
        let Ok(count) = self.source.read(piece) else {
            return Err(InputFault::ReadFault);
        };
        if count > self.room {
            return Err(InputFault::InputSize);
        }
        self.room -= count;
        self.end += count;
        Ok(count > 0)
    }

    /// The held bytes, and all that still come.
    pub fn read_rest(&mut self, alloc: Global) -> Result<Vec<u8>, InputFault>
        ensures { ReadsRest S.left S.failed self.old result self.new }
    {
        'pieces: while self.read_piece()? {}
        // `read_piece` has moved the held bytes to the front.
        self.bytes.truncate(self.end);
        (self.start, self.end) = (0, 0);
        Ok(mem::replace(&mut self.bytes, Vec::new(alloc)))
    }

    /// Reads to the end of the input and drops everything.
    pub fn pass_rest(&mut self) -> Result<(), InputFault>
        ensures { PassesRest S.left S.failed self.old result self.new }
    {
        'pieces: while self.read_piece()? {
            let held = self.held().len();
            self.give_up(held);
        }
        Ok(())
    }
}
