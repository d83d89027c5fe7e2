// Values of documents 01 and 02 as numbers, one behind another: each function reads the value at the front. differential/calls.py has the order
// of a value's numbers.
#![tactic(auto)]

pub mod cards; // cards.rt: keys, fingerprints, cards and half-made cards
pub mod watches; // watches.rt: stages, watches and answers to a byte
pub mod racks; // racks.rt: a rack's places, its labels and racks
