//! The tests, a module for each subject.

mod adapters;
mod code_sets;
mod commands;
mod element_lists;
mod elements;
mod equal;
mod held;
mod hubs;
mod lanes;
mod numbers;
mod rows;
mod runs;
mod serving;
mod sheets;
mod symbols;
