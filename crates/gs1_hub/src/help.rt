//! Writes the texts of `--help` and `--version`.
ghost use Rattle.std.specs.Prelude.{◌≡◌, ◌↔◌, true, false, IfErr, IsErr, OnErr, OnOk};
ghost use Rattle.std.specs.Io.KnownBytes.{Appends};
ghost use Rattle.digits_core.specs.Bytes.{TookFront};
ghost use Rattle.command_runs.specs.Faults.{failed_write};

use command_runs::CommandFault;
use digits_core::{Sink, write_all};

/// Writes the text; if a write fails, a prefix of it was written.
pub fn write_help<W: Sink>(text: &str, sink: &mut W) -> Result<(), CommandFault>
    ensures ok { OnOk result (Appends (W.taken sink.old) (W.taken sink.new) text.now) }
    ensures cut { OnErr result (TookFront (W.taken sink.old) (W.taken sink.new) text.now) }
    ensures fault { IfErr result (λ f. f ≡ failed_write) }
    ensures write { W.failed sink.old ≡ false → (IsErr result ↔ (W.failed sink.new ≡ true)) }
{
    write_all(sink, text.as_bytes())?;
    Ok(())
}
