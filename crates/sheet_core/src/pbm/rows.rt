//! Reads PBM images row by row: no image is held.
ghost use Rattle.std.specs.Prelude.{[], ◌≡◌, ◌<◌, ◌≤◌, ◌+◌, ◌*◌, IfOk, IfSome, OnOk, length};
ghost use Rattle.scan_core.specs.Row.{IsRow};
ghost use Rattle.sheet_core.specs.Bitmaps.{stride};

use crate::fault::PbmFault;
use crate::pbm::held::Held;
use crate::pbm::read::{next, read_header};
use crate::pbm::state::Size;
use crate::sheet::stride;
use digits_core::{NoMemory, Source};
use scan_core::Runs;
use std::alloc::Global;

/// How many images a file has at most.
const MOST_IMAGES: u16 = 4096;

/// A reader of PBM images (netpbm, pbm(5)) that passes their rows or cuts dots of them, from the top. It holds at
/// most 64 KiB of an image.
///
/// It accepts the images of `read_pbm`, and reads no byte after the one that refuses them.
#[derive(Drop)]
pub struct ImageRows<'a, S> {
    source: &'a mut S,
    /// How many images have begun.
    begun: u16,
    /// The size of the last of them.
    size: Size,
    /// How many bytes of it the source still has.
    left: usize,
    /// Its next bytes, that were read already.
    held: Held,
    ghost ok: { begun ≤ 4096 },
}

impl<'a, S: Source> ImageRows<'a, S> {
    ghost use Rattle.sheet_core.specs.pbm.Rows.{BeginsNext, EndsImage, GoesOnBy, HasSheets, MayStop, ReadSheets, ShowsDots};

    /// The images of this source. Nothing is read or held yet.
    pub fn new(held: Held, source: &'a mut S) -> ImageRows<'a, S>
        requires { held ≡ [] }
        ensures sheets { HasSheets S.left S.failed source.entry result [] }
        ensures source { result.source ≡ source.entry }
    {
        ImageRows {
            source,
            begun: 0,
            size: Size {
                width: 1,
                height: 1,
            },
            left: 0,
            held,
        }
    }

    /// How many images have begun. The clauses `read` and `stop` say what the source gave, whatever it was.
    pub fn begun(&self) -> u16
        ensures value { result ≡ self.now.begun }
        ensures read { ReadSheets S.left S.failed self.now }
        ensures stop { MayStop S.left S.failed self.now }
    {
        self.begun
    }

    /// Begins the next image, once all rows of the last one are passed. None at the end of the input.
    pub fn next_image(&mut self) -> Result<Option<Size>, PbmFault>
        ensures next { BeginsNext S.left S.failed self.old result self.new }
        ensures size { IfOk result (λ next. IfSome next (λ size. size ≡ self.new.size)) }
        ensures begun { IfOk result (λ next. IfSome next (λ size. self.new.begun ≡ self.old.begun + 1)) }
    {
        let Some(first) = next(self.source)? else {
            return Ok(None);
        };
        if self.begun == MOST_IMAGES {
            return Err(PbmFault::PbmSize);
        }
        let size = read_header(self.source, first)?;
        self.begun += 1;
        self.size = size;
        self.left = stride(size.width) * usize::from(size.height);
        Ok(Some(size))
    }

    /// Reads more of the image behind what is held.
    fn fill(&mut self) -> Result<(), PbmFault>
        requires some { 0 < self.old.left }
        requires room { length self.old.held < 65536 }
        ensures on { GoesOnBy S.left S.failed 0 self.old result self.new }
        ensures more { OnOk result (self.new.left < self.old.left) }
    {
        let count = self.held.read(self.source, self.left)?;
        if count == 0 {
            return Err(PbmFault::Truncated);
        }
        self.left -= count;
        Ok(())
    }

    /// Passes this many bytes of the image.
    fn pass(&mut self, count: usize) -> Result<(), PbmFault>
        requires { count ≤ length self.old.held + self.old.left }
        ensures { GoesOnBy S.left S.failed count self.old result self.new }
    {
        let mut rest = count;
        'pieces: while self.held.len() < rest {
            let held = self.held.len();
            rest -= held;
            self.held.give_up(held);
            self.fill()?;
        }
        self.held.give_up(rest);
        Ok(())
    }

    /// Passes this many rows of the image.
    fn pass_rows(&mut self, rows: u16) -> Result<(), PbmFault>
        requires { stride self.old.size.width * rows ≤ length self.old.held + self.old.left }
        ensures { GoesOnBy S.left S.failed (stride self.old.size.width * rows) self.old result self.new }
    {
        self.pass(stride(self.size.width) * usize::from(rows))
    }

    /// Passes the rows that are left of the image.
    pub fn pass_rest(&mut self) -> Result<(), PbmFault>
        ensures { EndsImage S.left S.failed self.old result self.new }
    {
        let held = self.held.len();
        self.held.give_up(held);
        let left = self.left;
        self.pass(left)
    }

    /// Reads until the next row is held.
    fn hold_row(&mut self) -> Result<(), PbmFault>
        requires { stride self.old.size.width ≤ length self.old.held + self.old.left }
        ensures on { GoesOnBy S.left S.failed 0 self.old result self.new }
        ensures held { OnOk result (stride self.new.size.width ≤ length self.new.held) }
    {
        let row = stride(self.size.width);
        'pieces: while self.held.len() < row {
            self.fill()?;
        }
        Ok(())
    }

    /// Passes this many rows of the image, and reads until the next one is held.
    pub fn to_row(&mut self, rows: u16) -> Result<(), PbmFault>
        requires { stride self.old.size.width * rows + stride self.old.size.width ≤ length self.old.held + self.old.left }
        ensures on { GoesOnBy S.left S.failed (stride self.old.size.width * rows) self.old result self.new }
        ensures held { OnOk result (stride self.new.size.width ≤ length self.new.held) }
    {
        self.pass_rows(rows)?;
        self.hold_row()
    }

    /// The runs of `count` dots of the next row, from dot `x` on. The row must be held.
    pub fn cut(&self, alloc: Global, x: u16, count: u16) -> Result<Runs, NoMemory>
        requires held { stride self.now.size.width ≤ length self.now.held }
        requires columns { x + count ≤ self.now.size.width }
        ensures dots { IfOk result (λ r. ShowsDots self.now.size self.now.held x count r) }
        ensures row { IfOk result IsRow }
    {
        match Runs::cut(
            alloc,
            self.held.as_slice(),
            usize::from(x),
            usize::from(count),
        ) {
            Ok(runs) => Ok(runs),
            Err(_) => Err(NoMemory),
        }
    }

    /// The source. It is not read any more.
    pub fn into_source(self) -> &'a mut S
        ensures same_reference { result.ghost_name ≡ self.entry.source.ghost_name }
        ensures same { result.now ≡ self.entry.source.now }
    {
        self.source
    }
}
