// One entry of an access list: the members that it may have (number 9), and what they must be (number 10). Entries stand
// at depth 10 of the file's 16, and what is in them deeper.
#![tactic(auto)]

mod known; // number 9
pub mod members; // some members of one object
pub mod places; // where all of them stand
mod ports;
mod sound; // number 10
