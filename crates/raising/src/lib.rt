// A watch whose starts are raised by a count: definitions in specs/, the theorem in proofs/, no code.
#![tactic(auto)]
