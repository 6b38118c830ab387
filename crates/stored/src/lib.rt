// The bytes of a table: a stored table's verdict on a flow, and a line written as text.
#![tactic(auto)]

pub mod answer;
pub mod chunks;
pub mod groups;
pub mod lines;
pub mod verdict;
pub mod write;

// A range is one word, low * BASE + high.
const BASE: u64 = 4294967296;
