// The value that document 01 gave a byte, and that no report, count or collision changed with it (document 02, A.4): definitions in specs/,
// theorems in proofs/, no code.
#![tactic(auto)]
