// The lists of the file by their names, gathered once into a lent buffer, so that a list that a policy names is found without
// walking over the others. They stand from word 1555 on, above the rules (builder, specs/Encoding), as `values::names` keeps them.
#![tactic(auto, using(crate::proofs::Gathering::gathering, crate::proofs::Gathering::adding))]

ghost use Rattle.std.specs.Prelude.{◌≤◌, length};
ghost use Rattle.values.specs.Tree.{tree_of, elements_from};
ghost use Rattle.values.specs.Names.{Rising};
ghost use Rattle.lists.specs.Lists.{lists_of};
ghost use Rattle.lists.specs.Index.{Onward, Indexed, Above};

use super::policies::lists_of;
use jsontext::Next;
use jsontext::space::skip;
use text::bytes::byte_at;
use values::Entry;
use values::names::enter;
use values::walk::{member, next_element};

// Where the names begin: above the networks and the rules (builder).
pub(crate) const NAMES_FROM: usize = 1555;

// An index is up to where the names stand; without room for all there is none. It goes beside `area` and is no struct with it:
// the area is lent, and callers are told what it holds after a call (`area.new`), which the struct would have to tell as well.

// The first word above the names, among n.
pub fn above(index: Option<usize>, n: usize) -> usize
    ensures { Above index n result }
{
    index.map_or(0, |hi| hi.min(n))
}

// One list more. One without a name that is a string is never named.
fn add_list(s: &[u8], at: usize, area: &mut [u64], hi: usize) -> Option<usize>
    requires { (1555 ≤ hi) × (hi ≤ length area.old) × Rising s.now area.old 1555 hi }
    ensures { Onward s.now at area.old hi area.new result }
{
    let k = skip(s, at);
    let Some(p) = member(s, k, 13, b"name") else {
        return Some(hi);
    };
    if byte_at(s, p) != b'"' {
        return Some(hi);
    }
    match enter(s, p + 1, k, area, NAMES_FROM, hi) {
        Entry::Known => Some(hi),
        Entry::Kept => Some(hi + 1),
        Entry::Full => None,
    }
}

// The lists from the one that begins at a place on.
fn gather_from(s: &[u8], at: usize, area: &mut [u64]) -> Option<usize>
    requires { 1555 ≤ length area.old }
    ensures { Indexed s.now (elements_from 13 s.now at) area.new result }
{
    let mut j = at;
    let mut hi = NAMES_FROM;
    loop {
        hi = add_list(s, j, area, hi)?;
        let Ok(Next::More(k)) = next_element(s, j, 13) else {
            return Some(hi);
        };
        j = k;
    }
}

pub fn gather(s: &[u8], area: &mut [u64]) -> Option<usize>
    ensures { Indexed s.now (lists_of (tree_of 16 s.now)) area.new result }
{
    if area.len() < NAMES_FROM {
        return None;
    }
    match lists_of(s, skip(s, 0)) {
        None => Some(NAMES_FROM),
        Some(at) => gather_from(s, at, area),
    }
}
