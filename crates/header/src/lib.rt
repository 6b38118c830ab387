// What the rules ask of single members, and number 7: the header of a MUD file.
#![tactic(auto)]

pub mod asked;
pub mod header;
pub mod strings;
