//! Labels as dots on sheets, and sheets as PBM images.
#![tactic(auto)]

mod fault;
mod grid;
mod kind;
mod label;
mod label_image;
mod laws;
mod line;
mod pbm;
mod print;
mod sheet;
mod symbol;

pub use digits_core::NoMemory;
pub use fault::{BadGrid, PbmFault, PrintFault, SheetFault, WriteFault};
pub use grid::Grid;
pub use kind::{GtinKind, LabelKind, Symbology};
pub use label::{Content, Label};
pub use label_image::label_pbm;
pub use laws::{
    bar_rows_answer, bar_rows_show, drawn_is_read, empty_cells_are_blank, files_are_read,
    files_are_refused, grids_keep_limits, headers_are_read, headers_are_refused, one_bitmap,
    one_drawn, one_list_of_sheets, one_printed, printed_is_read, written_is_read,
};
pub use line::darken;
pub use pbm::held::Held;
pub use pbm::print::print_pbm;
pub use pbm::read::{SheetIntake, read_pbm, read_sheets};
pub use pbm::rows::ImageRows;
pub use pbm::write::write_pbm;
pub use print::{check_labels, print_sheets};
pub use sheet::Sheet;
pub use symbol::DrawnSymbol;
