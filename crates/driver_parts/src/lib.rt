// The calls of what watches, records and programs are made of, for the driver: each reads its values, makes the call and writes all that it hands
// back. The functions hand nothing back; differential/calls.py has the table of calls.
#![tactic(auto)]

pub mod prints; // prints.rt: fingerprints and powers
pub mod stages; // stages.rt: single stages
pub mod fields_of; // fields_of.rt: the parts of records
pub mod reports; // reports.rt: the printing program's steps and lines
pub mod searches; // searches.rt: the plain search, and values that hold nothing
