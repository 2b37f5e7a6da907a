// Bytes as text: what stands before and after a byte, lines, and the numbers that words are.

#![tactic(auto)]

pub mod lines;
pub mod numbers;
