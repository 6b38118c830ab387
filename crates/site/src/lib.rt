// The site table: which networks the names of a site stand for.
#![tactic(auto)]

pub mod lines;
pub mod table;
pub mod url;
