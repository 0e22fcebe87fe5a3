//! Sheets as PBM images.
pub mod header;
pub mod held;
pub mod print;
pub mod read;
pub mod rows;
pub mod state;
pub mod write;
