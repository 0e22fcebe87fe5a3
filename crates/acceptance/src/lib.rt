//! What the crates do together, against values from outside: tests alone.
#![tactic(auto)]

#[cfg(test)]
mod examples;
#[cfg(test)]
mod tests;
