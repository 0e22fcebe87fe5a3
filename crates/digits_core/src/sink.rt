//! Writers that report which bytes they took, and whether they have failed.
ghost use Rattle.std.specs.Prelude.{◌≡◌, ◌↔◌, ◌<◌, ◌≤◌, ℕ, List, Option, Bool, true, false, length, IfOk, OnOk, OnErr, IsErr, IsTrue};
ghost use Rattle.std.specs.Io.KnownBytes.{Appends, WriteAppends};
ghost use Rattle.digits_core.specs.Bytes.{TookFront};

use crate::source::Failed;

/// A writer that knows which bytes it took and whether it has failed.
pub trait Sink {
    // The bytes that it took, if they are known.
    ghost taken: { Self → Option (List ℕ) };
    // An `Err` sets it for good, and nothing else does.
    ghost failed: { Self → Bool };

    /// Writes a prefix of the bytes and returns its length, at least one unless there are no bytes. After a failure,
    /// every further write fails.
    fn write(&mut self, bytes: &[u8]) -> Result<usize, Failed>
        ensures bound { IfOk result (λ n. n ≤ length bytes.now) }
        ensures some { IfOk result (λ n. 0 < length bytes.now → 0 < n) }
        ensures bytes { WriteAppends (taken self.old) (taken self.new) result bytes.now }
        ensures ok { OnOk result (failed self.new ≡ failed self.old) }
        ensures err { OnErr result (failed self.new ≡ true) }
        ensures again { IsTrue (failed self.old) → IsErr result };
}

/// Writes all the bytes, in as many writes as necessary. After an `Err`, a prefix of them was written.
pub fn write_all<W: Sink>(sink: &mut W, bytes: &[u8]) -> Result<(), Failed>
    ensures ok { OnOk result (Appends (W.taken sink.old) (W.taken sink.new) bytes.now) }
    ensures err { OnErr result (TookFront (W.taken sink.old) (W.taken sink.new) bytes.now) }
    ensures fault { W.failed sink.old ≡ false → (IsErr result ↔ (W.failed sink.new ≡ true)) }
{
    let mut rest = bytes;
    'writes: while !rest.is_empty() {
        let count = sink.write(rest)?;
        rest = &rest[count..];
    }
    Ok(())
}
