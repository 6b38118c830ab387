// The leaves: bytes, fixed words, decimal numbers, dotted quads and networks of a lent text, and what is written into one.
#![tactic(auto)]

pub mod bytes;
pub mod networks;
pub mod numbers;
pub mod words;
pub mod written;
