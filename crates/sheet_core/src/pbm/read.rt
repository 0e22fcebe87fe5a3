//! Reads sheets from PBM images.
ghost use Rattle.std.specs.Prelude.{[], ◌≡◌, ◌∷◌, ◌++◌, List, ◌≤◌, ◌<◌, ◌↔◌, true, false, Ok, Err, IfErr, IfOk, IsErrOf, IsTrue, OnOk, MatchOption, MatchResult, ◌*◌, ◌-◌, ◌%◌, ◌^◌, length};
ghost use Rattle.std.specs.Io.KnownBytes.{Consumes, IsAtEnd, Keeps};
ghost use Rattle.sheet_core.specs.Bitmaps.{Bitmap, stride, pad};
ghost use Rattle.sheet_core.specs.pbm.Headers.{header_of, is_size};
ghost use Rattle.sheet_core.specs.inner.Images.{FailsFor, StopsBefore};
ghost use Rattle.sheet_core.specs.pbm.Images.{ReadsBytes, image_of, images_of, unpadded};

use crate::fault::PbmFault;
use crate::pbm::header::step;
use crate::pbm::state::{Size, State, Step};
use crate::sheet::{Sheet, stride};
use digits_core::{Failed, NoMemory, Source};
use std::alloc::Global;

/// How many bytes of an image it reads at a time, at most.
const PIECE: usize = 65_536;

/// The next byte, or none at the end.
pub(crate) fn next<R: Source>(reader: &mut R) -> Result<Option<u8>, Failed>
    ensures byte { MatchResult result
        (λ next. (R.failed reader.new ≡ R.failed reader.old) × MatchOption next
        (Consumes (R.left reader.old) (R.left reader.new) [] × IsAtEnd (R.left reader.new))
        (λ b. Consumes (R.left reader.old) (R.left reader.new) (b ∷ [])))
        (λ e. (R.failed reader.new ≡ true) × Keeps (R.left reader.old) (R.left reader.new)) }
{
    let mut buffer = [0u8; 1];
    let count = reader.read(&mut buffer)?;
    if count == 0 {
        return Ok(None);
    }
    Ok(Some(buffer[0]))
}

/// The size in a header that begins with this byte. It reads no byte after the one that decides.
pub(crate) fn read_header<R: Source>(reader: &mut R, first: u8) -> Result<Size, PbmFault>
    ensures read { ReadsBytes (λ bytes. header_of (first ∷ bytes)) (R.left reader.old) (R.left reader.new) result }
    ensures size { IfOk result (λ size. IsTrue (is_size size.width) × IsTrue (is_size size.height)) }
    ensures failed { FailsFor (R.failed reader.old) (R.failed reader.new) result }
{
    let mut state = State::Start;
    let mut byte = first;
    for k in 0..4096u16 {
        match step(state, byte) {
            Step::Done(size) => return Ok(size),
            Step::Refused(fault) => return Err(fault),
            Step::Goes(reached) => state = reached,
        }
        match next(reader)? {
            None => return Err(PbmFault::Truncated),
            Some(b) => byte = b,
        }
    }
    Err(PbmFault::PbmHeader)
}

/// Reads exactly this many bytes and replaces the content of the list by them. It reuses the memory of the list, and
/// takes more as bytes come.
fn read_bytes<R: Source>(bytes: &mut Vec<u8>, reader: &mut R, count: usize) -> Result<(), PbmFault>
    ensures ok { OnOk result (Consumes (R.left reader.old) (R.left reader.new) bytes.new.items) }
    ensures count { OnOk result (length bytes.new.items ≡ count) }
    ensures stopped { IfErr result (StopsBefore count (R.left reader.old) (R.left reader.new)) }
    ensures failed { FailsFor (R.failed reader.old) (R.failed reader.new) result }
{
    bytes.truncate(count);
    let mut filled = 0;
    'reads: while filled < count {
        if filled == bytes.len() {
            let more = (count - filled).min(PIECE);
            if bytes.resize(filled + more, 0).is_err() {
                return Err(PbmFault::NoMemory);
            }
        }
        let read = reader.read(&mut bytes.as_mut_slice()[filled..])?;
        if read == 0 {
            return Err(PbmFault::Truncated);
        }
        filled += read;
    }
    Ok(())
}

/// The byte with this many low bits set to 0.
fn without_low_bits(byte: u8, count: usize) -> u8
    requires { count ≤ 7 }
    ensures { result ≡ byte - byte % 2 ^ count }
{
    byte >> count << count
}

/// Sets the pad bits of rows to 0.
fn clear_pads(bytes: &mut [u8], size: Size)
    requires wide { 1 ≤ size.width }
    requires count { length bytes.old ≡ stride size.width * size.height }
    ensures { bytes.new ≡ unpadded size.width bytes.old }
{
    let stride = stride(size.width);
    let pad = 8 * stride - usize::from(size.width);
    if pad == 0 {
        return;
    }
    for row in 0..usize::from(size.height) {
        let last = stride * row + (stride - 1);
        bytes[last] = without_low_bits(bytes[last], pad);
    }
}

/// The sheet of an image that begins with this byte, in the memory of this list. It reads no byte after the one that
/// decides.
fn read_image<R: Source>(room: Vec<u8>, reader: &mut R, first: u8) -> Result<Sheet, PbmFault>
    ensures read { ReadsBytes (λ bytes. image_of (first ∷ bytes)) (R.left reader.old) (R.left reader.new) result }
    ensures failed { FailsFor (R.failed reader.old) (R.failed reader.new) result }
{
    let size = read_header(reader, first)?;
    let count = stride(size.width) * usize::from(size.height);
    let mut bytes = room;
    read_bytes(&mut bytes, reader, count)?;
    clear_pads(bytes.as_mut_slice(), size);
    Ok(Sheet {
        width: size.width,
        height: size.height,
        bytes,
    })
}

/// Takes the sheets of images, one after another.
pub trait SheetIntake {
    /// What it makes of the sheets.
    type Made;

    // This is what it makes of these sheets.
    ghost makes: { Self → List Bitmap → Self.Made → Type 0 };

    /// Takes one more sheet.
    fn take(&self, made: &mut Self::Made, sheet: &Sheet) -> Result<(), NoMemory>
        requires { (sheets : List Bitmap) × makes self.now sheets made.old }
        ensures { OnOk result ((sheets : List Bitmap) → makes self.now sheets made.old
            → makes self.now (sheets ++ sheet.now ∷ []) made.new) };
}

/// Reads all PBM images from the reader (netpbm, pbm(5)). It passes each sheet to the intake before it reads the next
/// one into the same memory. It accepts at most 4,096 images, each with a header of at most 4,096 bytes. An empty
/// input has none.
///
/// The first byte that is wrong refuses the whole input, with `NotP4`, `PbmHeader` or `PbmSize`, and no byte after it
/// is read. An end within an image is `Truncated`. It takes memory as bytes come.
pub fn read_sheets<R: Source, I: SheetIntake>(
    alloc: Global,
    reader: &mut R,
    intake: &I,
    made: &mut I::Made,
) -> Result<(), PbmFault>
    requires { I.makes intake.now [] made.old }
    ensures ok { OnOk result ((sheets : List Bitmap) × ReadsBytes images_of (R.left reader.old) (R.left reader.new) (Ok sheets)
        × I.makes intake.now sheets made.new) }
    ensures end { OnOk result (IsAtEnd (R.left reader.new)) }
    ensures err { IfErr result (λ fault. ReadsBytes images_of (R.left reader.old) (R.left reader.new) (Err fault)) }
    ensures fault { R.failed reader.old ≡ false
        → (IsErrOf result PbmFault.ReadFault ↔ (R.failed reader.new ≡ true)) }
{
    let mut room = Vec::new(alloc);
    for _ in 0..4096u16 {
        let Some(first) = next(reader)? else {
            return Ok(());
        };
        let sheet = read_image(room, reader, first)?;
        match intake.take(made, &sheet) {
            Ok(()) => {}
            Err(_) => return Err(PbmFault::NoMemory),
        }
        room = sheet.into_bytes();
    }
    match next(reader)? {
        None => Ok(()),
        Some(_) => Err(PbmFault::PbmSize),
    }
}

/// Keeps a copy of each sheet.
#[derive(Clone, Copy)]
struct AllSheets {
    alloc: Global,
}

impl SheetIntake for AllSheets {
    type Made = Vec<Sheet>;

    ghost makes = { λ intake sheets made. made.items ≡ sheets };

    fn take(&self, made: &mut Vec<Sheet>, sheet: &Sheet) -> Result<(), NoMemory> {
        let copy = sheet.copy(self.alloc)?;
        if made.push(copy).is_err() {
            return Err(NoMemory);
        }
        Ok(())
    }
}

/// The sheets of all PBM images from the reader, with the errors of `read_sheets`.
pub fn read_pbm<R: Source>(alloc: Global, reader: &mut R) -> Result<Vec<Sheet>, PbmFault>
    ensures ok { IfOk result (λ sheets. ReadsBytes images_of (R.left reader.old) (R.left reader.new) (Ok sheets.items)) }
    ensures end { OnOk result (IsAtEnd (R.left reader.new)) }
    ensures err { IfErr result (λ fault. ReadsBytes images_of (R.left reader.old) (R.left reader.new) (Err fault)) }
    ensures fault { R.failed reader.old ≡ false
        → (IsErrOf result PbmFault.ReadFault ↔ (R.failed reader.new ≡ true)) }
{
    let mut sheets = Vec::new(alloc);
    read_sheets(alloc, reader, &AllSheets { alloc }, &mut sheets)?;
    Ok(sheets)
}
