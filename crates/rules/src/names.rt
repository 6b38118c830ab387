// The names of an entry, as masks over the site's lines: one word for each name that is given, one after the other.
#![tactic(auto, using(crate::proofs::RowLaws::rowing))]

ghost use Rattle.std.specs.Prelude.{◌≡◌, [], ◌∷◌, ◌≤◌, ◌+◌, length, option_to_list};
ghost use Rattle.std.specs.List.{flat_map};
ghost use Rattle.text.specs.Written.{Put};
ghost use Rattle.values.specs.Decode.{bytes_at};
ghost use Rattle.values.specs.Tree.{tree_at, seen};
ghost use Rattle.naming.specs.Named.{names};
ghost use Rattle.naming.specs.Masks.{named_mask};
ghost use Rattle.naming.specs.Wanted.{kind_of, test_of};
ghost use Rattle.rules.specs.Names.{mask_if, mud_masks, host_mask, mask_words};

use crate::Setting;
use entries::places::{Ipv4, Matches, Mud, mud_at, sides_of};
use naming::masks::mask;
use naming::networks::Site;
use naming::wanted::Wanted;
use values::strings::string_place;

// A word at a place, if the buffer has it; the place after it. Buffer and place are no struct: each contract would name both
// fields, before and after, for what `Put` says in four words.
pub fn put_word(work: &mut [u64], at: usize, x: u64) -> usize
    requires { at ≤ 5000 }
    ensures put { Put work.old at (x ∷ []) result work.new }
    ensures value { result ≡ at + 1 }
{
    if at < work.len() {
        work[at] = x;
    }
    at + 1
}

pub(crate) fn put_words(work: &mut [u64], at: usize, words: &[u64]) -> usize
    requires { (at ≤ 4000) × (length words.now ≤ 1000) }
    ensures put { Put work.old at words.now result work.new }
    ensures value { result ≡ at + length words.now }
{
    for (k, x) in words.iter().enumerate() {
        put_word(work, at + k, *x);
    }
    at + words.len()
}

// The masks that are there, one after the other; the place after them.
fn put_masks(work: &mut [u64], at: usize, masks: &[Option<u64>]) -> usize
    requires { (at ≤ 4000) × (length masks.now ≤ 100) }
    ensures put { Put work.old at (flat_map option_to_list masks.now) result work.new }
    ensures upper_bound { result ≤ at + length masks.now }
{
    let mut p = at;
    for m in masks {
        if let Some(x) = m {
            p = put_word(work, p, *x);
        }
    }
    p
}

// A mask where the member was found.
fn mask_if(s: &[u8], site: &Site, found: Option<usize>, wanted: Wanted) -> Option<u64>
    ensures { option_to_list result ≡ mask_if (seen (tree_at 7 s.now) found) (named_mask (names (kind_of wanted) (test_of s.now wanted) site.now) site.now) }
{
    found?;
    Some(mask(s, wanted, site))
}

// The masks of the members of `ietf-mud:mud`; the last three go by the file's own URL.
fn mud_masks(m: &Mud, to: &Setting) -> [Option<u64>; 6]
    ensures { flat_map option_to_list result ≡ mud_masks to.now.site.now (bytes_at m.now.s.now to.now.url) (seen (tree_at 8 m.now.s.now) m.now.found) }
{
    let s = m.s;
    let site = to.site;
    [
        mask_if(
            s,
            site,
            m.manufacturer,
            Wanted::Maker(string_place(s, m.manufacturer)),
        ),
        mask_if(s, site, m.model, Wanted::Model(string_place(s, m.model))),
        mask_if(
            s,
            site,
            m.controller,
            Wanted::Class(string_place(s, m.controller)),
        ),
        mask_if(s, site, m.kin, Wanted::Kin(to.url)),
        mask_if(s, site, m.local, Wanted::Local),
        mask_if(s, site, m.mine, Wanted::Mine(to.url)),
    ]
}

// The mask of the DNS name on the remote's side.
fn host_mask(ipv4: &Ipv4, to: &Setting) -> Option<u64>
    ensures { option_to_list result ≡ host_mask to.now.direction to.now.site.now (seen (tree_at 8 ipv4.now.s.now) ipv4.now.found) }
{
    let host = sides_of(ipv4, to.direction).name;
    mask_if(
        ipv4.s,
        to.site,
        host,
        Wanted::Host(string_place(ipv4.s, host)),
    )
}

// All names that the matches give; the place after their masks.
pub fn put_names(work: &mut [u64], at: usize, m: &Matches, to: &Setting) -> usize
    requires { at ≤ 2000 }
    ensures put { Put work.old at (mask_words to.now.direction to.now.site.now (bytes_at m.now.s.now to.now.url) (seen (tree_at 9 m.now.s.now) m.now.found)) result work.new }
    ensures upper_bound { result ≤ at + 7 }
{
    let mud = mud_at(m.s, m.mud);
    let p = put_masks(work, at, &mud_masks(&mud, to));
    put_masks(work, p, &[host_mask(&m.ipv4, to)])
}
