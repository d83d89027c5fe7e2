// What the printing program prints meets demand 3: definitions in specs/, the theorem in proofs/, no code.
#![tactic(auto)]
