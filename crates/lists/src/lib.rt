// Number 8: policies, lists, types and names. Depths are those of the file's 16: its members stand at 15, and so on inwards.
#![tactic(auto)]

mod elements; // the first that passes a test
pub mod index; // the lists of the file, gathered once
pub mod named; // lists by their names
pub mod names; // named arrays
pub mod policies; // number 8 as a whole
