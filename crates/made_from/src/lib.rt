#![tactic(auto)]

// The cards that the maker gives: definitions in specs/, theorems in proofs/, no code.
