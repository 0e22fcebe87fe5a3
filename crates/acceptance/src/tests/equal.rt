//! Assertions for all tests: their code is proved here once, that of `assert_eq!` and `assert!` at each place. These stand
//! where the code behind them needs the fact.

use std::fmt::Debug;
use std::process::Abort;

/// That what is found is what is wanted.
pub fn is_equal<R: Abort, T: PartialEq + Debug + Drop>(rt: &R, found: T, wanted: T) {
    assert_eq!(*rt; found, wanted);
}

/// That a fact is true.
pub fn is_true<R: Abort>(rt: &R, fact: bool) {
    assert!(*rt; fact);
}
