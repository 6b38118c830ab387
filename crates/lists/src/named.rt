// Lists by their names.
#![tactic(auto, using(crate::proofs::Laws::listing), unfolding(crate::specs::Lists::list_ok, crate::specs::Lists::list_named, crate::specs::Lists::named_ok, crate::specs::Lists::nested, values::specs::Rules::first_with))]

ghost use Rattle.std.specs.Prelude.{◌≡◌, ◌-◌};
ghost use Rattle.values.specs.Decode.{bytes_at};
ghost use Rattle.values.specs.Tree.{tree_at, seen, elements_from, items_from};
ghost use Rattle.values.specs.Rules.{first_with};
ghost use Rattle.lists.specs.Lists.{is_named, nested, has_type, list_ok, list_named, named_ok};
ghost use Rattle.lists.specs.Index.{Indexed};

use super::elements::first_element;
use super::index::{NAMES_FROM, above};
use super::names::{is_nested, name_of};
use text::bytes::byte_at;
use values::names::find;
use values::strings::{same_string, string_is};
use values::walk::{first_item, inner, member};

// Whether the element at a place has the name whose first character stands at `i`.
fn is_named(s: &[u8], at: usize, i: usize) -> bool
    ensures { result ≡ is_named (bytes_at s.now i) (tree_at 13 s.now at) }
{
    member(s, at, 13, b"name").is_some_and(|p| byte_at(s, p) == b'"' && same_string(s, p + 1, i))
}

// The list that an element of a policy names, by walking over the lists.
fn walk_to(s: &[u8], lists: Option<usize>, n: usize) -> Option<usize>
    ensures { list_named (items_from 13 s.now lists) (tree_at 11 s.now n) ≡ seen (tree_at 13 s.now) result }
{
    let i = name_of(s, n, 11);
    first_element(s, lists?, 13, |p| is_named(s, p, i))
}

// The list that an element of a policy names.
pub fn list_of(
    s: &[u8],
    lists: Option<usize>,
    n: usize,
    area: &[u64],
    index: Option<usize>,
) -> Option<usize>
    requires { Indexed s.now (items_from 13 s.now lists) area.now index }
    ensures { list_named (items_from 13 s.now lists) (tree_at 11 s.now n) ≡ seen (tree_at 13 s.now) result }
{
    match index {
        Some(hi) => find(s, name_of(s, n, 11), area, NAMES_FROM, hi),
        None => walk_to(s, lists, n),
    }
}

// The elements of the array `name` in the object `outer`, if there are any: where the first begins.
pub fn nested_at(s: &[u8], at: usize, depth: usize, outer: &[u8], name: &[u8]) -> Option<usize>
    ensures { nested outer.now name.now (tree_at depth s.now at) ≡ items_from (depth - 1 - 1 - 1) s.now result }
{
    let o = member(s, at, depth, outer)?;
    let d = inner(depth);
    let p = member(s, o, d, name)?;
    first_item(s, p, inner(d))
}

pub fn has_type(s: &[u8], at: usize, kind: &[u8]) -> bool
    ensures { result ≡ has_type kind.now (tree_at 13 s.now at) }
{
    member(s, at, 13, b"type").is_some_and(|p| byte_at(s, p) == b'"' && string_is(s, p + 1, kind))
}

fn is_list(s: &[u8], at: usize, area: &mut [u64]) -> bool
    ensures { result ≡ list_ok (tree_at 13 s.now at) }
{
    if has_type(s, at, b"ipv4-acl-type") {
        is_nested(s, at, 13, b"aces", b"ace", area)
    } else {
        has_type(s, at, b"ipv6-acl-type")
    }
}

// Whether an element of a policy names a list that there is, and that is one. What `area` held above the names is lost.
pub fn names_list(
    s: &[u8],
    lists: Option<usize>,
    n: usize,
    area: &mut [u64],
    index: Option<usize>,
) -> bool
    requires { Indexed s.now (items_from 13 s.now lists) area.old index }
    ensures value { result ≡ named_ok (items_from 13 s.now lists) (tree_at 11 s.now n) }
    ensures indexed { Indexed s.now (items_from 13 s.now lists) area.new index }
{
    let Some(at) = list_of(s, lists, n, area, index) else {
        return false;
    };
    let free = above(index, area.len());
    is_list(s, at, &mut area[free..])
}
