//! Records with a kind and a text, each a label with a line.
pub mod label_lines;
mod label_record;
pub mod labels;
