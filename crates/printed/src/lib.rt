// No code: specs/ says what the program's text is worth, proofs/ shows it.

#![tactic(auto)]
