//! Records with a lane and the widths of a row.
pub mod feeds;
mod gather;
mod short_widths;
pub mod widths;
