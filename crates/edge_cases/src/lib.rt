#![tactic(auto)]

// The cases of document 01's edges M1 to M12: their list in specs/, its theorem in proofs/, no code.
