// No code: specs/ defines the exact amounts, proofs/ shows Sundt's recursion for them.

#![tactic(auto)]
