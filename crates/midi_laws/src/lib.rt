#![tactic(auto)]

// What holds of every Standard MIDI File that is read (document 02, A.2 and A.6): no code, definitions and proofs alone.
