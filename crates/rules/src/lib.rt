// The entries of a file, and the defaults after them, as rules in words.
#![tactic(auto)]

pub mod defaults;
pub mod names;
mod parts;
mod ports;
pub mod rows;

use flows::Direction;
use naming::networks::Site;

// What a rule goes by beside its entry: the direction of the list, the site, and where the file's own URL stands.
#[derive(Clone, Copy)]
pub struct Setting<'a> {
    pub direction: Direction,
    pub site: &'a Site<'a>,
    pub url: usize,
}
