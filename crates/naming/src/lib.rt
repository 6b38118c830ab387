// Which networks of the site a name of the file stands for, as words and as masks of 64 bits.
#![tactic(auto)]

pub mod masks;
pub mod networks;
pub mod wanted;
