//! Answers the rows of cells while images are read.
ghost use Rattle.std.specs.Prelude.{◌≡◌, ◌≢◌, IfErr, IfOk, string_bytes};
ghost use Rattle.hub_core.specs.Serving.{AreSeatCounts};
ghost use Rattle.command_runs.specs.Grids.{cells_of};
ghost use Rattle.command_runs.specs.Runs.{TellsFault};
ghost use Rattle.command_runs.specs.commands.Scans.{RefusesImages, WritesImages};
ghost use Rattle.command_runs.specs.inner.ServedCells.{AreCellsAnswered, BeginsCellsUnanswered, TellsOfCells, TellsOfLines};

use crate::answers::report::joined;
use crate::answers::serving::{AnswerFault, fault_of, make_texts, push_answer_of};
use crate::columns::{CellRows, Course, pass_images};
use crate::fault::CommandFault;
use command_line::ScanOptions;
use digits_core::Source;
use element_core::Year;
use hub_core::{Ended, Gate, NotBegun, Traffic, answers_are_read, serve_traffic};
use lane_core::Delivery;
use scan_core::Runs;
use sheet_core::{Grid, Held, ImageRows, grids_keep_limits};
use std::alloc::{AllocError, Global};
use std::sync::Wait;
use std::thread::Threads;

/// Why `wait` fails: the images are refused, and their reader has the reason.
#[derive(Clone, Copy, Debug, PartialEq, Eq)]
struct Refused;

/// The cells of a source, and the lines of those that have come back. `RecordRows` differs in its reader.
#[derive(Drop)]
struct SheetRows<'a, S> {
    cells: CellRows<'a, S>,
    /// The lines of each lane.
    texts: Vec<String>,
}

impl<'a, S: Source> Traffic for SheetRows<'a, S> {
    ghost use Rattle.std.specs.Prelude.{◌≡◌};
    ghost use Rattle.command_runs.specs.inner.ServedCells.{HasGivenCells, have_ended};

    type WaitFault = Refused;

    type BringFault = AllocError;

    ghost Came = { λ start s given brought. HasGivenCells S.left S.failed start s given brought };

    ghost has_ended = { λ s. have_ended s.cells.course };

    ghost Leaves = { λ s t. t.cells ≡ s.cells };

    fn next(&mut self) -> Option<(u8, Runs)> {
        self.cells.next_cell()
    }

    fn bring(&mut self, delivery: Delivery) -> Result<(), AllocError> {
        push_answer_of(&mut self.texts, &delivery)
    }

    fn wait(&mut self) -> Result<bool, Refused> {
        match self.cells.course {
            Course::Ended => Ok(false),
            // The images are refused. No other state is possible, since `next` has given no row.
            _ => Err(Refused),
        }
    }
}

/// Serves the cells of a reader. Returns the reader and, if all its cells have answers, the lines of each lane.
fn serve_cells<'a, R: Threads + Wait + Sync, S: Source, G: Gate + Sync>(
    rt: &R,
    alloc: Global,
    lanes: u8,
    workers: u8,
    year: Year,
    cells: CellRows<'a, S>,
    texts: Vec<String>,
    gate: &G,
) -> (CellRows<'a, S>, Result<Vec<String>, AnswerFault>)
    requires counts { AreSeatCounts lanes workers }
    requires fresh { BeginsCellsUnanswered S.left S.failed lanes cells texts.items }
    ensures same_reference { result.0.images.source.ghost_name ≡ cells.entry.images.source.ghost_name }
    ensures answered { AreCellsAnswered S.left S.failed year cells.entry.images.source cells.entry.grid result.0 result.1 }
{
    let traffic = SheetRows { cells, texts };
    // A law from which the clause `answered` follows; the call does nothing.
    answers_are_read();
    match serve_traffic(rt, alloc, traffic, lanes, workers, year, gate) {
        Ok((traffic, Ended::Done)) => (traffic.cells, Ok(traffic.texts)),
        // Memory was refused, or an image was: `tell_fault` looks at the reader first.
        Ok((traffic, _)) => (traffic.cells, Err(AnswerFault::NoMemory)),
        Err(
            NotBegun {
                fault,
                input: traffic,
            },
        ) => (traffic.cells, Err(fault_of(fault))),
    }
}

/// The result if not all cells have answers, for this reason. If the images are refused, their fault comes first. If
/// there is no image, the report is empty: there was nothing to answer.
fn tell_fault<S: Source>(
    alloc: Global,
    cells: &mut CellRows<'_, S>,
    fault: AnswerFault,
) -> Result<String, CommandFault>
    ensures tells { TellsOfCells S.left S.failed cells.old result cells.new }
{
    // Laws from which the clause follows.
    grids_keep_limits(&cells.grid);
    let _before = cells.images.begun();
    match cells.course {
        Course::Sheets => {}
        Course::Refused(refused) => return Err(CommandFault::from(refused)),
        Course::Unfit => return Err(CommandFault::PbmSize),
        Course::Cells => return Err(CommandFault::NoMemory),
        Course::Ended => return Err(CommandFault::NoMemory),
    }
    let passed = pass_images(cells.grid, &mut cells.images);
    let begun = cells.images.begun();
    match passed {
        Err(refused) => Err(CommandFault::from(refused)),
        Ok(false) => Err(CommandFault::PbmSize),
        Ok(true) if begun == 0 => Ok(String::new(alloc)),
        Ok(true) => match fault {
            AnswerFault::NoThread => Err(CommandFault::NoThread),
            AnswerFault::NoMemory => Err(CommandFault::NoMemory),
        },
    }
}

/// The lines of all lanes if all cells have answers, or else what `tell_fault` tells.
fn tell<S: Source>(
    alloc: Global,
    cells: &mut CellRows<'_, S>,
    lines: Result<Vec<String>, AnswerFault>,
) -> Result<String, CommandFault>
    ensures tells { TellsOfLines S.left S.failed cells.old lines result cells.new }
{
    match lines {
        Ok(texts) => {
            // Laws from which the clause follows.
            grids_keep_limits(&cells.grid);
            let _begun = cells.images.begun();
            match joined(alloc, texts) {
                Ok(text) => Ok(text),
                Err(_) => Err(CommandFault::NoMemory),
            }
        }
        Err(fault) => tell_fault(alloc, cells, fault),
    }
}

/// The lines of the answers to the middle rows of the cells of images: column `c` is lane `c`, and its rows are those
/// of its cells, from top to bottom, sheet after sheet. All go through one hub (`serve_traffic` of hub_core).
///
/// It refuses images as `read_pbm` does, and once all are read, an image whose size differs from the grid's.
/// `NoThread` is possible only if there is an image.
pub fn answer_cells<R: Threads + Wait + Sync, S: Source, G: Gate + Sync>(
    rt: &R,
    alloc: Global,
    options: ScanOptions,
    grid: Grid,
    source: &mut S,
    gate: &G,
) -> Result<String, CommandFault>
    requires { grid ≡ cells_of options.grid }
    ensures report { IfOk result (λ lines. WritesImages options (S.left source.old) (S.left source.new) (string_bytes lines)) }
    ensures refused { IfErr result (RefusesImages options (S.left source.old) (S.left source.new)) }
    ensures other { IfErr result (λ f. f ≢ CommandFault.WriteFault) }
    ensures fault { TellsFault S.failed source.old source.new result CommandFault.ReadFault }
{
    grids_keep_limits(&grid);
    let lanes = grid.columns() as u8;
    let Ok(texts) = make_texts(alloc, lanes) else {
        return Err(CommandFault::NoMemory);
    };
    let Ok(held) = Held::new(alloc) else {
        return Err(CommandFault::NoMemory);
    };
    let images = ImageRows::new(held, source);
    let cells = CellRows::new(alloc, grid, images);
    let (mut cells, lines) = serve_cells(
        rt,
        alloc,
        lanes,
        options.workers,
        options.year,
        cells,
        texts,
        gate,
    );
    let told = tell(alloc, &mut cells, lines);
    let _source = cells.into_source();
    told
}
