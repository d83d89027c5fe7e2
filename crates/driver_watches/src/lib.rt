// The calls of cards and watches, for the driver: each reads its values, makes the call and writes all that it hands back. The functions hand nothing
// back; differential/calls.py has the table of calls.
#![tactic(auto)]

pub mod cards; // cards.rt: the maker's calls, and cards from records
pub mod watches; // watches.rt: strokes, scans and resumptions
pub mod walks; // walks.rt: what a stroke is made of
pub mod records; // records.rt: records and what is read from MIDI files, into a buffer that is lent
