//! A buffer in front of a sink.
ghost use Rattle.std.specs.Prelude.{◌≡◌, [], false, OnOk};
ghost use Rattle.command_runs.specs.inner.Buffers.{KeepsBytes, TellsFailure, taken_and_waiting};

use crate::write_buffer::{ROOM, WriteBuffer};
use digits_core::{Failed, Sink};
use std::marker::Model;

/// A sink that collects up to `ROOM` bytes before it writes them to another sink, so that many small writes become
/// few large ones. Bytes that wait count as written; at the end, only `flush` writes them. Once the other sink has
/// failed, it gets no more bytes.
#[derive(Drop)]
pub struct Buffered<W: Sink> {
    sink: W,
    waiting: WriteBuffer,
    has_failed: bool,
}

impl<W: Sink> Model for Buffered<W> {
    ghost use Rattle.std.specs.Prelude.{◌≡◌};
    ghost use Rattle.command_runs.specs.inner.Buffers.{SinkAndWaiting};

    ghost Value = { SinkAndWaiting W };

    ghost view = { λ s. record { sink = s.sink; waiting = s.waiting } };

    ghost invariant = { λ s. s.has_failed ≡ W.failed s.sink };
}

impl<W: Sink> Buffered<W> {
    /// An empty buffer in front of a sink that has not failed.
    pub fn new(sink: W) -> Buffered<W>
        requires { W.failed sink ≡ false }
        ensures { result ≡ record { sink = sink; waiting = [] } }
    {
        Buffered {
            sink,
            waiting: WriteBuffer::new(),
            has_failed: false,
        }
    }

    /// Writes the bytes that wait. If a write fails, those that it did not take still wait.
    pub fn flush(&mut self) -> Result<(), Failed>
        ensures bytes { KeepsBytes W.taken self.old self.new }
        ensures empty { OnOk result (self.new.waiting ≡ []) }
        ensures faults { TellsFailure W.failed self.old.sink result self.new.sink }
    {
        if self.has_failed {
            return Err(Failed);
        }
        'writes: while !self.waiting.is_empty() {
            let Ok(count) = self.sink.write(self.waiting.as_slice()) else {
                self.has_failed = true;
                return Err(Failed);
            };
            self.waiting.drop_front(count);
        }
        Ok(())
    }

    /// The sink, without the bytes that wait.
    pub fn into_inner(self) -> W
        ensures { result ≡ self.sink }
    {
        let Buffered {
            sink,
            waiting: _,
            has_failed: _,
        } = self;
        sink
    }
}

impl<W: Sink> Sink for Buffered<W> {
    ghost taken = { taken_and_waiting W.taken };

    ghost failed = { λ s. W.failed s.sink };

    fn write(&mut self, bytes: &[u8]) -> Result<usize, Failed> {
        if self.has_failed {
            return Err(Failed);
        }
        if self.waiting.len() == ROOM {
            self.flush()?;
        }
        let count = bytes.len().min(ROOM - self.waiting.len());
        self.waiting.append(&bytes[..count]);
        Ok(count)
    }
}
