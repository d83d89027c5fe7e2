#![tactic(auto)]

// What holds of parking and resuming together (document 02, A.5): no code, proofs alone.
