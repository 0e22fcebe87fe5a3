//! The rows of sheets: each column of cells is a lane. They are read one after another, and no image is held.
ghost use Rattle.std.specs.Prelude.{[], ◌≡◌};
ghost use Rattle.command_runs.specs.Columns.{has_size};
ghost use Rattle.command_runs.specs.inner.CellRows.{AtSheets, BeginsSheet, PassesImages};

use digits_core::Source;
use scan_core::Runs;
use sheet_core::{Grid, ImageRows, PbmFault, grids_keep_limits};
use std::alloc::Global;

/// How far the reading of images has come.
#[derive(Clone, Copy, Debug, PartialEq, Eq)]
pub enum Course {
    /// Each image that has begun was read, and has the size of the grid.
    Sheets,
    /// The middle row of a row of cells is held. The images so far have the size of the grid.
    Cells,
    /// All images were read, and each has the size of the grid.
    Ended,
    /// All images were read, and one has another size.
    Unfit,
    /// The images are refused for this reason, or memory is.
    Refused(PbmFault),
}

/// Whether an image of this size has the size of the grid.
fn is_of_size(grid: Grid, width: u16, height: u16) -> bool
    ensures { result ≡ has_size grid (record { width = width; height = height; bytes = [] }) }
{
    // A law from which it follows that neither product overflows.
    grids_keep_limits(&grid);
    let wide = grid.columns() * grid.cell_width();
    let high = grid.rows() * grid.cell_height();
    width == wide && height == high
}

/// Passes all images that are left. Returns whether each has the size of the grid.
pub fn pass_images<S: Source>(grid: Grid, images: &mut ImageRows<'_, S>) -> Result<bool, PbmFault>
    ensures { PassesImages S.left S.failed grid images.old result images.new }
{
    let mut fit = true;
    'sheets: while let Some(size) = images.next_image()? {
        fit &= is_of_size(grid, size.width, size.height);
        images.pass_rest()?;
    }
    Ok(fit)
}

/// Begins the next image and goes to the middle row of its first cells. If it has another size than the grid, passes
/// it and all others.
fn begin_sheet<S: Source>(grid: Grid, images: &mut ImageRows<'_, S>) -> Result<Course, PbmFault>
    requires { AtSheets S.left S.failed images.old }
    ensures { BeginsSheet S.left S.failed grid images.old result images.new }
{
    let Some(size) = images.next_image()? else {
        return Ok(Course::Ended);
    };
    if !is_of_size(grid, size.width, size.height) {
        images.pass_rest()?;
        pass_images(grid, images)?;
        return Ok(Course::Unfit);
    }
    grids_keep_limits(&grid);
    images.to_row(grid.cell_height() / 2)?;
    Ok(Course::Cells)
}

/// Reads the middle rows of the cells of images, from left to right and from the top, sheet after sheet.
#[derive(Drop)]
pub struct CellRows<'a, S> {
    alloc: Global,
    pub grid: Grid,
    pub images: ImageRows<'a, S>,
    /// The row of cells whose middle row is held, and the column of its next cell.
    row: u16,
    column: u16,
    /// How far the reading has come, or why it has stopped.
    pub course: Course,
}

impl<'a, S: Source> CellRows<'a, S> {
    ghost use Rattle.std.specs.Prelude.{◌≡◌, ◌<◌};
    ghost use Rattle.command_runs.specs.inner.CellRows.{AtSheets, BeginsCells, GaveCells, GivesNextCell, GivesOn, GaveSome};

    /// The cells of these images, of which none has begun.
    pub fn new(alloc: Global, grid: Grid, images: ImageRows<'a, S>) -> CellRows<'a, S>
        ensures grid { result.grid ≡ grid }
        ensures images { result.images ≡ images.entry }
        ensures course { result.course ≡ Course.Sheets }
    {
        CellRows {
            alloc,
            grid,
            images,
            row: 0,
            column: 0,
            course: Course::Sheets,
        }
    }

    /// Goes to the first cell of the next image.
    fn begin(&mut self)
        requires { AtSheets S.left S.failed self.old.images }
        ensures begins { BeginsCells S.left S.failed self.old self.new }
        ensures grid { self.new.grid ≡ self.old.grid }
        ensures column { self.new.column < self.new.grid.columns }
    {
        grids_keep_limits(&self.grid);
        self.row = 0;
        self.column = 0;
        match begin_sheet(self.grid, &mut self.images) {
            Ok(course) => self.course = course,
            Err(fault) => self.course = Course::Refused(fault),
        }
    }

    /// Goes to the first cell of the next row of cells.
    fn leave_row(&mut self)
        requires read { GaveSome S.left S.failed self.old }
        requires cells { self.old.course ≡ Course.Cells }
        requires all { self.old.column ≡ self.old.grid.columns }
        ensures on { GivesOn S.left S.failed self.old self.new }
        ensures grid { self.new.grid ≡ self.old.grid }
        ensures column { self.new.course ≡ Course.Cells → self.new.column < self.new.grid.columns }
    {
        grids_keep_limits(&self.grid);
        if self.row + 1 < self.grid.rows() {
            self.row += 1;
            self.column = 0;
            match self.images.to_row(self.grid.cell_height()) {
                Ok(()) => {}
                Err(fault) => self.course = Course::Refused(fault),
            }
        } else {
            match self.images.pass_rest() {
                Ok(()) => self.begin(),
                Err(fault) => self.course = Course::Refused(fault),
            }
        }
    }

    /// Goes to the next cell, if all cells of the row of cells were given.
    fn go_on(&mut self)
        requires { GaveSome S.left S.failed self.old }
        ensures on { GivesOn S.left S.failed self.old self.new }
        ensures grid { self.new.grid ≡ self.old.grid }
        ensures column { self.new.course ≡ Course.Cells → self.new.column < self.new.grid.columns }
    {
        match self.course {
            Course::Sheets => self.begin(),
            Course::Cells if self.column >= self.grid.columns() => self.leave_row(),
            _ => {}
        }
    }

    /// The middle row of the next cell, and its column. None if there are no more cells, or if the images are
    /// refused.
    pub fn next_cell(&mut self) -> Option<(u8, Runs)>
        requires { GaveSome S.left S.failed self.old }
        ensures gives { GivesNextCell S.left S.failed self.old result self.new }
        ensures grid { self.new.grid ≡ self.old.grid }
    {
        self.go_on();
        let Course::Cells = self.course else {
            return None;
        };
        grids_keep_limits(&self.grid);
        let wide = self.grid.cell_width();
        match self.images.cut(self.alloc, self.column * wide, wide) {
            Ok(runs) => {
                let column = self.column as u8;
                self.column += 1;
                Some((column, runs))
            }
            Err(_) => {
                // A law from which the clause `gives` follows.
                let _begun = self.images.begun();
                self.course = Course::Refused(PbmFault::NoMemory);
                None
            }
        }
    }

    /// The source. It is not read any more.
    pub fn into_source(self) -> &'a mut S
        ensures same_reference { result.ghost_name ≡ self.entry.images.source.ghost_name }
        ensures same { result.now ≡ self.entry.images.source.now }
    {
        self.images.into_source()
    }
}
