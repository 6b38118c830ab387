// Number 8: the policies of both directions, and the lists that they name.
#![tactic(auto, using(crate::proofs::Gathering::indexing), unfolding(crate::specs::Lists::policy_name, crate::specs::Lists::policy_shape, crate::specs::Lists::policy_ok, crate::specs::Lists::lists_of, crate::specs::Lists::both_ok, crate::specs::Lists::policy_lists, crate::specs::Lists::direction_ok, values::specs::Rules::all))]

ghost use Rattle.std.specs.Prelude.{◌≡◌};
ghost use Rattle.values.specs.Tree.{tree_at, tree_of, lookup, seen, elements_from, items_from};
ghost use Rattle.values.specs.Rules.{all};
ghost use Rattle.lists.specs.Lists.{policy_name, policy_shape, policy_ok, policy_lists, lists_of, named_ok, direction_ok, both_ok, policies_ok};
ghost use Rattle.lists.specs.Index.{Indexed};

use super::index::above;
use super::named::{names_list, nested_at};
use super::names::is_nested;
use flows::Direction;
use jsontext::Next;
use jsontext::space::skip;
use values::plain;
use values::walk::{member, next_element};

pub fn policy_of(s: &[u8], mud: usize, d: Direction) -> Option<usize>
    ensures { lookup (policy_name d) (tree_at 15 s.now mud) ≡ seen (tree_at 14 s.now) result }
{
    match d {
        Direction::FromDevice => member(s, mud, 15, b"from-device-policy"),
        Direction::ToDevice => member(s, mud, 15, b"to-device-policy"),
    }
}

fn is_policy(s: &[u8], at: usize, area: &mut [u64]) -> bool
    ensures { result ≡ policy_shape (tree_at 14 s.now at) }
{
    plain::is_object(s, at, 14) && is_nested(s, at, 14, b"access-lists", b"access-list", area)
}

fn may_be_policy(s: &[u8], mud: usize, d: Direction, area: &mut [u64]) -> bool
    ensures { result ≡ policy_ok d (tree_at 15 s.now mud) }
{
    policy_of(s, mud, d).is_none_or(|p| is_policy(s, p, area))
}

// The elements of a policy's array, each of which names a list.
pub fn policy_lists(s: &[u8], mud: usize, d: Direction) -> Option<usize>
    ensures { policy_lists d (tree_at 15 s.now mud) ≡ items_from 11 s.now result }
{
    nested_at(
        s,
        policy_of(s, mud, d)?,
        14,
        b"access-lists",
        b"access-list",
    )
}

// The lists of the file, by the place of its outermost value.
pub fn lists_of(s: &[u8], at: usize) -> Option<usize>
    ensures { lists_of (tree_at 16 s.now at) ≡ items_from 13 s.now result }
{
    nested_at(s, at, 16, b"ietf-access-control-list:acls", b"acl")
}

fn all_name_lists(
    s: &[u8],
    at: usize,
    lists: Option<usize>,
    area: &mut [u64],
    index: Option<usize>,
) -> bool
    requires { Indexed s.now (items_from 13 s.now lists) area.old index }
    ensures value { result ≡ all (named_ok (items_from 13 s.now lists)) (elements_from 11 s.now at) }
    ensures indexed { Indexed s.now (items_from 13 s.now lists) area.new index }
{
    let mut j = at;
    loop {
        if !names_list(s, lists, skip(s, j), area, index) {
            return false;
        }
        let Ok(Next::More(k)) = next_element(s, j, 11) else {
            return true;
        };
        j = k;
    }
}

fn is_direction(
    s: &[u8],
    file: usize,
    mud: usize,
    d: Direction,
    area: &mut [u64],
    index: Option<usize>,
) -> bool
    requires { Indexed s.now (lists_of (tree_at 16 s.now file)) area.old index }
    ensures value { result ≡ direction_ok d (tree_at 16 s.now file) (tree_at 15 s.now mud) }
    ensures indexed { Indexed s.now (lists_of (tree_at 16 s.now file)) area.new index }
{
    let free = above(index, area.len());
    if !may_be_policy(s, mud, d, &mut area[free..]) {
        return false;
    }
    // A `match`: `is_none_or` was tried, and after a closure that writes nothing is known of what it wrote.
    match policy_lists(s, mud, d) {
        None => true,
        Some(at) => all_name_lists(s, at, lists_of(s, file), area, index),
    }
}

fn are_both(s: &[u8], file: usize, mud: usize, area: &mut [u64], index: Option<usize>) -> bool
    requires { Indexed s.now (lists_of (tree_at 16 s.now file)) area.old index }
    ensures value { result ≡ both_ok (tree_at 16 s.now file) (tree_at 15 s.now mud) }
    ensures indexed { Indexed s.now (lists_of (tree_at 16 s.now file)) area.new index }
{
    is_direction(s, file, mud, Direction::FromDevice, area, index)
        && is_direction(s, file, mud, Direction::ToDevice, area, index)
}

// What `area` held above the names of the lists is lost; its length changes the time that this takes, and never the answer.
pub fn are_policies(s: &[u8], area: &mut [u64], index: Option<usize>) -> bool
    requires { Indexed s.now (lists_of (tree_of 16 s.now)) area.old index }
    ensures value { result ≡ policies_ok (tree_of 16 s.now) }
    ensures indexed { Indexed s.now (lists_of (tree_of 16 s.now)) area.new index }
{
    let file = skip(s, 0);
    let free = above(index, area.len());
    if !is_nested(
        s,
        file,
        16,
        b"ietf-access-control-list:acls",
        b"acl",
        &mut area[free..],
    ) {
        return false;
    }
    // A `match`, as in `is_direction`.
    match member(s, file, 16, b"ietf-mud:mud") {
        None => false,
        Some(mud) => are_both(s, file, mud, area, index),
    }
}
