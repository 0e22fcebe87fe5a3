//! Records with a kind and a text, each answered by a line.
pub mod answer;
pub mod lines;
