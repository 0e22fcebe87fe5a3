//! A source that fails.
ghost use Rattle.std.specs.Prelude.{◌≡◌, Some, false};

use digits_core::{Failed, Source};

/// Returns some bytes, one at a time, and then fails.
#[derive(Drop)]
pub struct Breaking<'a> {
    left: &'a [u8],
    has_failed: bool,
}

impl<'a> Breaking<'a> {
    /// A source of these bytes that has not failed.
    pub fn new(bytes: &'a [u8]) -> Breaking<'a>
        ensures left { ⟦<Breaking<'a> as Source>⟧.left result ≡ Some bytes.now }
        ensures sound { ⟦<Breaking<'a> as Source>⟧.failed result ≡ false }
    {
        Breaking {
            left: bytes,
            has_failed: false,
        }
    }
}

impl<'a> Source for Breaking<'a> {
    ghost left = { λ s. Some s.left.now };

    ghost failed = { λ s. s.has_failed };

    fn read(&mut self, buf: &mut [u8]) -> Result<usize, Failed> {
        match self.left.split_first() {
            Some((first, left)) if !self.has_failed && !buf.is_empty() => {
                buf[0] = *first;
                self.left = left;
                Ok(1)
            }
            _ => {
                self.has_failed = true;
                Err(Failed)
            }
        }
    }
}
