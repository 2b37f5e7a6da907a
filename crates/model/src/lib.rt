// What a job is made of. The numbers may have any content: the curve call refuses what lies outside the paper's limits.

#![tactic(auto)]

pub mod limits; // limits.rt: the limits, and their tests
pub mod refusal; // refusal.rt: why a call refuses, and where

// The law of the number of claims: order k, divisor D, and the terms A_1..A_4 and B_1..B_4, of which those past k are zero. Two arrays,
// as the definition `law_of` has two lists, and C hands over two.
#[derive(Clone, Copy, Debug, Default, PartialEq, Eq)]
pub struct Law {
    pub order: u64,
    pub divisor: u64,
    pub a: [i64; 4],
    pub b: [i64; 4],
}

// The chance that the total is zero, in units: it lies from `low` to `high`.
#[derive(Clone, Copy, Debug, Default, PartialEq, Eq)]
pub struct Start {
    pub low: u64,
    pub high: u64,
}

// A job but for the row of its table: `last` is the last total, X, and `zero` the weight of severity 0, that of the claims which close at
// nothing.
#[derive(Clone, Copy, Debug, Default, PartialEq, Eq)]
pub struct Job {
    pub law: Law,
    pub start: Start,
    pub last: u64,
    pub zero: u64,
}
