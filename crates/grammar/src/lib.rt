// What a sheet is, line by line, and which sheets are taken: the definitions are in specs/. The crate `sheet` has the code.

#![tactic(auto)]
