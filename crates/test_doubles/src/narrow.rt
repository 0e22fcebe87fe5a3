//! A sink that takes few bytes.
ghost use Rattle.std.specs.Prelude.{◌≡◌, [], Some, false};

use digits_core::{Failed, Sink};
use std::alloc::Global;

/// Takes one byte at a time as long as it has room, and then fails. It also fails if memory is refused.
#[derive(Drop)]
pub struct Narrow {
    taken: Vec<u8>,
    room: usize,
    has_failed: bool,
}

impl Narrow {
    /// A sink with room for this many bytes. It has taken none and has not failed.
    pub fn new(alloc: Global, room: usize) -> Narrow
        ensures taken { ⟦<Narrow as Sink>⟧.taken result ≡ Some [] }
        ensures sound { ⟦<Narrow as Sink>⟧.failed result ≡ false }
    {
        Narrow {
            taken: Vec::new(alloc),
            room,
            has_failed: false,
        }
    }

    /// The bytes that it took.
    pub fn taken(&self) -> &[u8]
        ensures { ⟦<Narrow as Sink>⟧.taken self.now ≡ Some result.now }
    {
        self.taken.as_slice()
    }
}

impl Sink for Narrow {
    ghost taken = { λ s. Some s.taken.items };

    ghost failed = { λ s. s.has_failed };

    fn write(&mut self, bytes: &[u8]) -> Result<usize, Failed> {
        if !self.has_failed && bytes.is_empty() {
            return Ok(0);
        }
        if self.has_failed || self.taken.len() >= self.room || self.taken.push(bytes[0]).is_err() {
            self.has_failed = true;
            return Err(Failed);
        }
        Ok(1)
    }
}
