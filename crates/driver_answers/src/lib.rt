// Answers of calls on standard output: each function writes its value's numbers, 8 bytes each, little-endian (differential/calls.py). They hand nothing
// back, and no contract can say what is written; `option_numbers` says which numbers stand for an Option.
#![tactic(auto)]

pub mod numbers; // numbers.rt: numbers, buffers and lists
pub mod values; // values.rt: cards, watches, answers to a byte and racks
