//! The options of the command `live`.
ghost use Rattle.std.specs.Prelude.{◌≡◌};
ghost use Rattle.command_line.specs.Arguments.{asks_elements};

use crate::commands::lanes::options::LaneOptions;
use element_core::Form;

/// The options of the command `live`.
#[derive(Clone, Copy, Debug, PartialEq, Eq)]
pub struct LiveOptions {
    /// The rows: of how many lanes, by how many workers, and by which reference year.
    pub rows: LaneOptions,
    /// How the elements of an answer are written.
    pub form: Form,
}

impl LiveOptions {
    /// These rows. If `elements` is set, answers have separate elements instead of the human-readable text.
    pub fn new(rows: LaneOptions, elements: bool) -> LiveOptions
        ensures rows { result.rows ≡ rows }
        ensures form { asks_elements result.form ≡ elements }
    {
        let form = if elements {
            Form::Pairs
        } else {
            Form::HumanReadable
        };
        LiveOptions { rows, form }
    }
}
