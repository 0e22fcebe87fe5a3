//! Writes lines into the caller's buffer.
ghost use Rattle.digits_core.specs.Buffers.{IsPut};
ghost use Rattle.digits_core.specs.Refusals.{refusal_words};
ghost use Rattle.element_core.specs.Lines.{line_text};

pub use answer_core::put_refusal;
use answer_core::{put, put_words};
use digits_core::RefusalKind;
use element_core::Line;

/// Puts a refusal without a place at the front of `out` if there is room for it, and returns how many bytes it has.
pub fn put_refused(kind: RefusalKind, out: &mut [u8]) -> usize
    ensures { IsPut (refusal_words kind) out.old out.new result }
{
    put(kind.words().as_bytes(), out)
}

/// The same for a line.
pub fn put_line(line: &Line, out: &mut [u8]) -> usize
    ensures { IsPut (line_text line.now) out.old out.new result }
{
    match line {
        Line::Said { word, text } => put_words(word.as_bytes(), text.as_bytes(), out),
        Line::Refused(refusal) => put_refusal(*refusal, out),
    }
}
