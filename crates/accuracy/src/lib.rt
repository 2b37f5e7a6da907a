// No code: specs/ has the statements of demand 3, proofs/ their proofs.

#![tactic(auto)]
