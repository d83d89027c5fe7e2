// The whole-run claim: definitions in specs/, the theorem in proofs/, no code.
#![tactic(auto)]
