//! Writes sheets as PBM images.
ghost use Rattle.std.specs.Prelude.{◌≡◌, ◌≤◌, ◌<◌, ◌+◌, ◌++◌, ◌↔◌, true, false, IsErr, OnErr, OnOk, length};
ghost use Rattle.std.specs.Fmt.{decimal};
ghost use Rattle.std.specs.Io.KnownBytes.{Appends};
ghost use Rattle.arrayvec.specs.ArrayVec.{array_vec_len};
ghost use Rattle.digits_core.specs.Bytes.{TookFront};
ghost use Rattle.sheet_core.specs.pbm.Headers.{header_text};
ghost use Rattle.sheet_core.specs.pbm.Images.{image, pbm_of};

use crate::fault::WriteFault;
use crate::sheet::Sheet;
use arrayvec::ArrayVec;
use digits_core::{Failed, Sink, write_all};

/// The longest header that it writes: `P4`, two numbers of five digits and three blanks.
const HEADER: usize = 15;

/// Appends a number without leading zeros.
fn push_number(text: &mut ArrayVec<u8, HEADER>, number: u16)
    requires { array_vec_len text.old + length (decimal number) ≤ 15 }
    ensures { text.new.items ≡ text.old.items ++ decimal number }
{
    if number >= 10 {
        push_number(text, number / 10);
    }
    text.push(b'0' + (number % 10) as u8);
}

/// The header of an image of this size, in dots.
pub(crate) fn header(width: u16, height: u16) -> ArrayVec<u8, HEADER>
    ensures { result.items ≡ header_text width height }
{
    let mut text = ArrayVec::new();
    text.push(b'P');
    text.push(b'4');
    text.push(b'\n');
    push_number(&mut text, width);
    text.push(b' ');
    push_number(&mut text, height);
    text.push(b'\n');
    text
}

/// Writes a sheet as an image.
fn write_image<W: Sink>(sheet: &Sheet, writer: &mut W) -> Result<(), Failed>
    ensures ok { OnOk result (Appends (W.taken writer.old) (W.taken writer.new) (image sheet.now)) }
    ensures err { OnErr result (TookFront (W.taken writer.old) (W.taken writer.new) (image sheet.now)) }
    ensures fault { W.failed writer.old ≡ false → (IsErr result ↔ (W.failed writer.new ≡ true)) }
{
    write_all(writer, header(sheet.width, sheet.height).as_slice())?;
    write_all(writer, sheet.bytes.as_slice())
}

/// Writes sheets as PBM images, one after the other with nothing between them (netpbm, pbm(5)). After `WriteFault`, a
/// prefix of the bytes was written.
pub fn write_pbm<W: Sink>(sheets: &[Sheet], writer: &mut W) -> Result<(), WriteFault>
    ensures ok { OnOk result (Appends (W.taken writer.old) (W.taken writer.new) (pbm_of sheets.now)) }
    ensures err { OnErr result (TookFront (W.taken writer.old) (W.taken writer.new) (pbm_of sheets.now)) }
    ensures fault { W.failed writer.old ≡ false → (IsErr result ↔ (W.failed writer.new ≡ true)) }
{
    for sheet in sheets {
        if write_image(sheet, writer).is_err() {
            return Err(WriteFault);
        }
    }
    Ok(())
}
