//! A wire made of any reader and any writer.
ghost use Rattle.std.specs.Prelude.{◌≡◌};
ghost use Rattle.wire_core.specs.Events.{AllWasRead};

use crate::wire::Wire;
use digits_core::{Failed, Sink, Source};

/// A source and a sink as one wire. The bytes that the source gave and the sink took are known as far as these report
/// them. Which came first is not known.
#[derive(Drop)]
pub struct Wired<S: Source, W: Sink> {
    source: S,
    sink: W,
}

impl<S: Source, W: Sink> Wired<S, W> {
    ghost use Rattle.std.specs.Prelude.{[]};

    /// A wire that reads from the source and writes to the sink.
    pub fn new(source: S, sink: W) -> Wired<S, W>
        ensures source { result.source ≡ source }
        ensures sink { result.sink ≡ sink }
        ensures fresh { ⟦<Wired<S, W> as Wire>⟧.Did result result [] }
    {
        Wired { source, sink }
    }
}

/// A law: if a wire of a source has ended, its reads have returned all bytes of the source, if these are known.
pub fn all_was_read<S: Source, W: Sink>()
    ensures { AllWasRead ⟦<Wired<S, W> as Wire>⟧.Did ⟦<Wired<S, W> as Wire>⟧.at_end (λ wire. S.left wire.source) }
{}

impl<S: Source, W: Sink> Wire for Wired<S, W> {
    ghost use Rattle.std.specs.Io.KnownBytes.{Appends, Consumes, IsAtEnd};
    ghost use Rattle.wire_core.specs.Events.{was_read, was_written};

    ghost Did = { λ start wire events. Consumes (S.left start.source) (S.left wire.source) (was_read events) × Appends (W.taken start.sink) (W.taken wire.sink) (was_written events) };

    ghost read_failed = { λ wire. S.failed wire.source };

    ghost write_failed = { λ wire. W.failed wire.sink };

    ghost at_end = { λ wire. IsAtEnd (S.left wire.source) };

    fn read(&mut self, buf: &mut [u8]) -> Result<usize, Failed> {
        self.source.read(buf)
    }

    fn write(&mut self, bytes: &[u8]) -> Result<usize, Failed> {
        self.sink.write(bytes)
    }
}
