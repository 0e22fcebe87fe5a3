//! Readers and writers that wait even if another program has made a pipe non-blocking (`O_NONBLOCK`).
ghost use Rattle.std.specs.Prelude.{◌≡◌};
ghost use Rattle.std.specs.Io.{ReadsAtMost, WritesAtMost};
ghost use Rattle.std.specs.Io.KnownBytes.{ReadConsumes, WriteAppends};

use std::io::{self, ErrorKind, Read, Write};
use std::thread;
use std::time::{Clock, Duration};

/// A reader or a writer that waits while the inner one has no bytes, or no room, yet.
#[derive(Drop)]
pub struct Patient<'a, C, T> {
    clock: &'a C,
    inner: T,
}

impl<'a, C: Clock, T> Patient<'a, C, T> {
    /// Wraps this reader or writer.
    pub fn new(clock: &'a C, inner: T) -> Patient<'a, C, T>
        ensures { result.inner ≡ inner }
    {
        Patient { clock, inner }
    }
}

/// A read. If it would block, it tries again after a millisecond.
fn read_waiting<C: Clock, R: Read>(clock: &C, reader: &mut R, buf: &mut [u8]) -> io::Result<usize>
    ensures bound { ReadsAtMost result buf.new }
    ensures bytes { ReadConsumes (R.remaining reader.old) (R.remaining reader.new) result buf.new }
{
    for _ in 0..u64::MAX {
        match reader.read(buf) {
            Err(error) if error.kind() == ErrorKind::WouldBlock => {
                thread::sleep(clock, Duration::from_millis(1));
            }
            done => return done,
        }
    }
    Err(io::Error::from(ErrorKind::WouldBlock))
}

/// A write. If it would block, it tries again after a millisecond.
fn write_waiting<C: Clock, W: Write>(clock: &C, writer: &mut W, bytes: &[u8]) -> io::Result<usize>
    ensures bound { WritesAtMost result bytes.now }
    ensures bytes { WriteAppends (W.contents writer.old) (W.contents writer.new) result bytes.now }
{
    for _ in 0..u64::MAX {
        match writer.write(bytes) {
            Err(error) if error.kind() == ErrorKind::WouldBlock => {
                thread::sleep(clock, Duration::from_millis(1));
            }
            done => return done,
        }
    }
    Err(io::Error::from(ErrorKind::WouldBlock))
}

impl<'a, C: Clock, R: Read> Read for Patient<'a, C, R> {
    ghost remaining = { λ s. R.remaining s.inner };

    fn read(&mut self, buf: &mut [u8]) -> io::Result<usize> {
        read_waiting(self.clock, &mut self.inner, buf)
    }
}

impl<'a, C: Clock, W: Write> Write for Patient<'a, C, W> {
    ghost contents = { λ s. W.contents s.inner };

    fn write(&mut self, bytes: &[u8]) -> io::Result<usize> {
        write_waiting(self.clock, &mut self.inner, bytes)
    }

    fn flush(&mut self) -> io::Result<()> {
        self.inner.flush()
    }
}
