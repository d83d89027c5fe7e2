// Lists of a rack's calls (document 02, A.1): definitions in specs/, the theorems in proofs/, no code.
#![tactic(auto)]
