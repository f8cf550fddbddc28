// The statement: the three demands as theorems. Definitions in specs/, each demand in a file of its name; the proofs cite the laws of the crates below.
#![tactic(auto)]
