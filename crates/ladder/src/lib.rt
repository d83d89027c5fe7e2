// The ladder with unlimited lists: definitions in specs/, theorems in proofs/, no code.
#![tactic(auto)]
