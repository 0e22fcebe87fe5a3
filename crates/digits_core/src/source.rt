//! Readers that report which bytes they have, and whether they have failed.
ghost use Rattle.std.specs.Prelude.{◌≡◌, ◌↔◌, ◌≤◌, ℕ, List, Option, Bool, true, false, length, IfOk, OnOk, OnErr, IsErr, IsErrOf, IsTrue, Some};
ghost use Rattle.std.specs.Io.KnownBytes.{ReadConsumes};
ghost use Rattle.digits_core.specs.Faults.{input_fault_text};
ghost use Rattle.digits_core.specs.Refusals.{refusal_text};
ghost use Rattle.digits_core.specs.Bytes.{GaveAll, GaveAtMost, GaveMoreThan};

use crate::refusal::{Refusal, RefusalKind};
use std::alloc::Global;
use std::fmt;

/// A read or a write failed. The reader or the writer has failed from then on.
#[derive(Clone, Copy, Debug, PartialEq, Eq)]
pub struct Failed;

/// A reader that knows which bytes it still has and whether it has failed.
pub trait Source {
    // The bytes that reads will give from here on, if they are known.
    ghost left: { Self → Option (List ℕ) };
    // An `Err` sets it for good, and nothing else does.
    ghost failed: { Self → Bool };

    /// Reads into the front of `buf` and returns how many bytes. 0 is the end, unless `buf` is empty. An interruption
    /// is a failure. After a failure, every further read fails.
    fn read(&mut self, buf: &mut [u8]) -> Result<usize, Failed>
        ensures bound { IfOk result (λ n. n ≤ length buf.new) }
        ensures bytes { ReadConsumes (left self.old) (left self.new) result buf.new }
        ensures ok { OnOk result (failed self.new ≡ failed self.old) }
        ensures err { OnErr result (failed self.new ≡ true) }
        ensures again { IsTrue (failed self.old) → IsErr result };
}

// How many bytes it reads at a time.
const CHUNK: usize = 65_536;

/// Why an input could not be read to its end.
#[derive(Clone, Copy, Debug, PartialEq, Eq)]
pub enum InputFault {
    /// A read failed.
    ReadFault,
    /// It has more bytes than the limit.
    InputSize,
    /// Memory was refused.
    NoMemory,
}

impl InputFault {
    /// The refusal that an output line reports.
    pub fn refusal(self) -> Refusal
        ensures { refusal_text result.kind result.place ≡ input_fault_text self }
    {
        let kind = match self {
            InputFault::ReadFault => RefusalKind::ReadFault,
            InputFault::InputSize => RefusalKind::InputSize,
            InputFault::NoMemory => RefusalKind::NoMemory,
        };
        Refusal { kind, place: None }
    }
}

impl fmt::Display for InputFault {
    ghost output = { λ fault. Some (input_fault_text fault) };

    fn fmt<W: fmt::Write>(&self, f: &mut fmt::Formatter<W>) -> fmt::Result {
        self.refusal().fmt(f)
    }
}

/// All bytes that a source still has, at most `limit`. It stops after the read that exceeds the limit, so the call
/// ends even if the source is endless.
pub fn read_all<S: Source>(
    alloc: Global,
    source: &mut S,
    limit: usize,
) -> Result<Vec<u8>, InputFault>
    ensures ok { IfOk result (λ v. GaveAll (S.left source.old) (S.left source.new) v.items) }
    ensures size { IfOk result (λ v. length v.items ≤ limit) }
    ensures long { IsErrOf result InputFault.InputSize
        → GaveMoreThan limit (S.left source.old) (S.left source.new) }
    ensures short { IsErrOf result InputFault.ReadFault
        → GaveAtMost limit (S.left source.old) (S.left source.new) }
    ensures fault { S.failed source.old ≡ false
        → (IsErrOf result InputFault.ReadFault ↔ (S.failed source.new ≡ true)) }
{
    let mut bytes = Vec::new(alloc);
    let mut chunk = [0u8; CHUNK];
    'reads: loop {
        let Ok(count) = source.read(&mut chunk) else {
            return Err(InputFault::ReadFault);
        };
        if count == 0 {
            return Ok(bytes);
        }
        if count > limit - bytes.len() {
            return Err(InputFault::InputSize);
        }
        if bytes.extend_from_slice(&chunk[..count]).is_err() {
            return Err(InputFault::NoMemory);
        }
    }
}
