//! The trait for reads and writes in one order, and a function that writes all bytes.
ghost use Rattle.std.specs.Prelude.{◌≡◌, ◌<◌, ◌≤◌, ◌∷◌, ◌++◌, [], ℕ, List, Bool, length, take, IfOk, OnOk, OnErr};
ghost use Rattle.wire_core.specs.Events.{Ends, Event, TellsFaults, Writes};
ghost use Rattle.wire_core.specs.Events.Event.{Read, Wrote};

use digits_core::Failed;

/// A reader and a writer whose calls are in one order.
pub trait Wire {
    // These reads and writes, in their order, led from the first state to the second.
    ghost Did: { Self → Self → List Event → Type 0 };
    // Whether a read has failed.
    ghost read_failed: { Self → Bool };
    // Whether a write has failed.
    ghost write_failed: { Self → Bool };
    // Nothing more comes.
    ghost at_end: { Self → Type 0 };

    /// Reads into the front of `buf` and returns how many bytes, as `digits_core::Source::read` does. But a call
    /// after a failure may succeed.
    fn read(&mut self, buf: &mut [u8]) -> Result<usize, Failed>
        ensures few { IfOk result (λ n. n ≤ length buf.new) }
        ensures ends { Ends Did read_failed write_failed self.old (λ n. Read (take n buf.new) ∷ []) result self.new }
        ensures end { IfOk result (λ n. n ≡ 0 → 0 < length buf.new → at_end self.new) };

    /// Writes a prefix of the bytes and returns its length, as `digits_core::Sink::write` does. But a call after a
    /// failure may succeed.
    fn write(&mut self, bytes: &[u8]) -> Result<usize, Failed>
        ensures few { IfOk result (λ n. n ≤ length bytes.now) }
        ensures some { IfOk result (λ n. 0 < length bytes.now → 0 < n) }
        ensures ends { Ends Did write_failed read_failed self.old (λ n. Wrote (take n bytes.now) ∷ []) result self.new }
        ensures end { at_end self.old → at_end self.new };
}

/// Writes all the bytes, as `digits_core::write_all` does to a sink.
pub fn write_all<W: Wire>(wire: &mut W, bytes: &[u8]) -> Result<(), Failed>
    ensures ok { OnOk result (Writes W.Did wire.old bytes.now wire.new) }
    ensures err { OnErr result ((done rest : List ℕ) × Writes W.Did wire.old done wire.new × (done ++ rest ≡ bytes.now)) }
    ensures faults { TellsFaults W.write_failed W.read_failed wire.old result wire.new }
    ensures end { W.at_end wire.old → W.at_end wire.new }
{
    let mut rest = bytes;
    'writes: while !rest.is_empty() {
        let count = wire.write(rest)?;
        rest = &rest[count..];
    }
    Ok(())
}
