// Tests and tables over the places 0 .. n-1: definitions in specs/, laws in proofs/, no code.
#![tactic(auto)]
