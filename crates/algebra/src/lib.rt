// No code: specs/ and proofs/ hold the mathematics that the other crates cite.

#![tactic(auto)]
