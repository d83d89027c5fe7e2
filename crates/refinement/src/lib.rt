#![tactic(auto)]

// The compact watch is the ladder with unlimited lists: definitions in specs/, theorems in proofs/, no code.
