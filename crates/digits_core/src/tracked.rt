//! A source made of any reader, and a sink made of any writer.
ghost use Rattle.std.specs.Prelude.{◌≡◌, false, true};

use crate::sink::Sink;
use crate::source::{Failed, Source};
use std::io::{Read, Write};
use std::marker::Model;

/// A reader or a writer, and whether it has failed. After a failure it gets no further calls.
#[derive(Drop)]
pub struct Tracked<T> {
    inner: T,
    has_failed: bool,
}

/// A source made of any reader. An interruption is a failure. After a failure, the reader is not read again.
pub type FromReader<R> = Tracked<R>;

/// A sink made of any writer. An interruption is a failure, and so is a write that takes none of one or more bytes.
/// After a failure, the writer gets no more bytes.
pub type ToWriter<W> = Tracked<W>;

impl<T> Model for Tracked<T> {
    ghost use Rattle.digits_core.specs.Bytes.{Tracked};

    ghost Value = { Tracked T };

    ghost view = { λ s. record { inner = s.inner; has_failed = s.has_failed } };
}

impl<T> Tracked<T> {
    /// One that has not failed.
    pub fn new(inner: T) -> Tracked<T>
        ensures { result ≡ record { inner = inner; has_failed = false } }
    {
        Tracked {
            inner,
            has_failed: false,
        }
    }

    /// Remembers that it has failed.
    fn fail(&mut self) -> Failed
        ensures { self.new ≡ record { inner = self.old.inner; has_failed = true } }
    {
        self.has_failed = true;
        Failed
    }
}

impl<W: Write> Tracked<W> {
    /// The writer.
    pub fn into_inner(self) -> W
        ensures { result ≡ self.inner }
    {
        let Tracked {
            inner,
            has_failed: _,
        } = self;
        inner
    }
}

impl<R: Read> Source for Tracked<R> {
    ghost left = { λ s. R.remaining s.inner };

    ghost failed = { λ s. s.has_failed };

    fn read(&mut self, buf: &mut [u8]) -> Result<usize, Failed> {
        if self.has_failed {
            return Err(Failed);
        }
        match self.inner.read(buf) {
            Ok(count) => Ok(count),
            Err(_) => Err(self.fail()),
        }
    }
}

impl<W: Write> Sink for Tracked<W> {
    ghost taken = { λ s. W.contents s.inner };

    ghost failed = { λ s. s.has_failed };

    fn write(&mut self, bytes: &[u8]) -> Result<usize, Failed> {
        if self.has_failed {
            return Err(Failed);
        }
        match self.inner.write(bytes) {
            Ok(count) if count > 0 || bytes.is_empty() => Ok(count),
            _ => Err(self.fail()),
        }
    }
}
