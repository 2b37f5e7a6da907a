// The calls for C and other languages: numbers and rows of numbers alone. Each but the version's makes the call of its crate and hands the
// answer over number by number, so that a function has a parameter for each number and each row; library/claimtotals.h says what each is.

#![tactic(auto)]

pub mod curve;
pub mod laws;
pub mod layers;
pub mod level;
pub mod reader;
pub mod starts;
pub mod version;
