// The calls of racks, for the driver: each reads its values, makes the call and writes all that it hands back. The functions hand nothing back;
// differential/calls.py has the table of calls.
#![tactic(auto)]

pub mod racks; // racks.rt: racks
pub mod places; // places.rt: a rack's places, names and reports
