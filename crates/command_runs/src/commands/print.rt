//! The command `print`: records of a kind and a text in, the images of their labels out, or a line for each label.
ghost use Rattle.command_runs.specs.Runs.{Ran};
ghost use Rattle.command_runs.specs.commands.Prints.{OnePrint, print_command};
ghost use Rattle.command_runs.specs.inner.Prints.{LeavesPrinted};

use crate::fault::CommandFault;
use crate::grid::grid_of;
use command_line::{Output, PrintOptions};
use csv_records::{label_lines, read_labels};
use digits_core::{Sink, Source, write_all};
use element_core::one_list_or_fault;
use sheet_core::{Grid, Label, check_labels, one_printed, print_pbm};
use std::alloc::Global;

/// Writes labels as images or as lines, as the options ask. It refuses the same labels either way.
fn write_labels<W: Sink>(
    alloc: Global,
    options: PrintOptions,
    grid: Grid,
    labels: &[Label],
    sink: &mut W,
) -> Result<(), CommandFault>
    ensures { LeavesPrinted grid options.output labels.now W.taken W.failed sink.old sink.new result }
{
    match options.output {
        Output::Lines => {
            check_labels(labels, &grid)?;
            let cells = usize::from(grid.columns()) * usize::from(grid.rows());
            let text = label_lines(alloc, labels, cells, options.year)?;
            write_all(sink, text.as_str().as_bytes())?;
        }
        Output::Images => print_pbm(alloc, labels, grid, sink)?,
    }
    Ok(())
}

/// Prints the labels of a source (`read_labels`): the images of their sheets, or a line for each label, as the
/// options ask. It refuses a grid outside the limits before it reads any input. If a label cannot be printed, it
/// writes nothing.
pub fn run_print<S: Source, W: Sink>(
    alloc: Global,
    options: PrintOptions,
    source: &mut S,
    sink: &mut W,
) -> Result<(), CommandFault>
    ensures { Ran (print_command options) S.left S.failed W.taken W.failed source.old source.new sink.old sink.new result }
{
    let grid = grid_of(options.grid)?;
    let labels = read_labels(alloc, options.year, source)?;
    write_labels(alloc, options, grid, labels.as_slice(), sink)
}

/// A law: for the same bytes, `print` writes at most one text, if only texts of bytes count (`OnePrint` says why).
pub fn one_print()
    ensures { OnePrint }
{
    one_list_or_fault();
    one_printed();
}
