// No code: specs/ has the paper's cases as one table, proofs/ the proof that each of them holds.

#![tactic(auto)]
