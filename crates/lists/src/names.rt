// Names of the elements of an array: each a string, none twice.
#![tactic(auto, using(crate::proofs::Laws::naming), unfolding(crate::specs::Lists::has_string_name, crate::specs::Lists::named_array, crate::specs::Lists::inner_ok, crate::specs::Lists::nested_ok))]

ghost use Rattle.std.specs.Prelude.{◌≡◌, ◌≤◌, length};
ghost use Rattle.values.specs.Decode.{bytes_at};
ghost use Rattle.values.specs.Tree.{tree_at, items, elements_after};
ghost use Rattle.values.specs.Rules.{all};
ghost use Rattle.values.specs.Names.{Rising};
ghost use Rattle.header.specs.Asked.{is_among};
ghost use Rattle.lists.specs.Lists.{has_string_name, name_of, names_of, all_different, named_array, inner_ok, nested_ok};
ghost use Rattle.lists.specs.Names.{again_of, Added};

use super::elements::first_element;
use header::asked::{Asked, must_be};
use jsontext::Next;
use jsontext::space::skip;
use values::names::{enter, grown};
use values::strings::{same_string, string_place};
use values::walk::{first_item, inner, member, next_element};
use values::{Entry, plain};

// The first character of an element's name; the end of the text, where nothing stands, if it has none.
pub fn name_of(s: &[u8], at: usize, depth: usize) -> usize
    ensures { bytes_at s.now result ≡ name_of (tree_at depth s.now at) }
{
    string_place(s, member(s, at, depth, b"name"))
}

// Whether an element after the one at a place has the name whose first character stands at `i`.
fn is_later(s: &[u8], at: usize, depth: usize, i: usize) -> bool
    ensures { result ≡ is_among (bytes_at s.now i) (names_of (elements_after depth s.now at)) }
{
    let Ok(Next::More(k)) = next_element(s, at, depth) else {
        return false;
    };
    first_element(s, k, depth, |p| same_string(s, i, name_of(s, p, depth))).is_some()
}

// Whether an element's name stands twice, after it was entered among those before it.
fn is_again(s: &[u8], at: usize, depth: usize, i: usize, r: Entry) -> bool
    ensures { result ≡ again_of (is_among (bytes_at s.now i) (names_of (elements_after depth s.now at))) r }
{
    match r {
        Entry::Known => true,
        Entry::Kept => false,
        Entry::Full => is_later(s, at, depth, i),
    }
}

// One name more, beside `hi` that are kept: how many there are with it, or None where it stands twice.
fn add_name(s: &[u8], at: usize, depth: usize, area: &mut [u64], hi: usize) -> Option<usize>
    requires { (hi ≤ length area.old) × Rising s.now area.old 0 hi }
    ensures { Added depth s.now at area.old hi area.new result }
{
    let i = name_of(s, skip(s, at), depth);
    let r = enter(s, i, at, area, 0, hi);
    if is_again(s, at, depth, i, r) {
        None
    } else {
        Some(grown(hi, r))
    }
}

// What `area` held is lost; of any length the answer is the same, and with as many places as elements it comes quickly.
fn all_different(s: &[u8], at: usize, depth: usize, area: &mut [u64]) -> bool
    ensures { result ≡ all_different (names_of (items (tree_at depth s.now at))) }
{
    let Some(first) = first_item(s, at, depth) else {
        return true;
    };
    let d = inner(depth);
    let mut j = first;
    let mut hi = 0;
    loop {
        let Some(n) = add_name(s, j, d, area, hi) else {
            return false;
        };
        hi = n;
        let Ok(Next::More(k)) = next_element(s, j, d) else {
            return true;
        };
        j = k;
    }
}

fn has_name(s: &[u8], at: usize, depth: usize) -> bool
    ensures { result ≡ has_string_name (tree_at depth s.now at) }
{
    must_be(s, at, depth, b"name", Asked::Text)
}

fn all_have_names(s: &[u8], at: usize, depth: usize) -> bool
    ensures { result ≡ all has_string_name (items (tree_at depth s.now at)) }
{
    let Some(first) = first_item(s, at, depth) else {
        return true;
    };
    let d = inner(depth);
    first_element(s, first, d, |p| !has_name(s, p, d)).is_none()
}

// An array of objects, each with a string as its name, no name twice.
fn is_named_array(s: &[u8], at: usize, depth: usize, area: &mut [u64]) -> bool
    ensures { result ≡ named_array (tree_at depth s.now at) }
{
    plain::is_array(s, at, depth)
        && all_have_names(s, at, depth)
        && all_different(s, at, depth, area)
}

fn is_inner(s: &[u8], at: usize, depth: usize, name: &[u8], area: &mut [u64]) -> bool
    ensures { result ≡ inner_ok name.now (tree_at depth s.now at) }
{
    plain::is_object(s, at, depth)
        && member(s, at, depth, name).is_none_or(|p| is_named_array(s, p, inner(depth), area))
}

// An object that may have a member `outer`, which is an object that may have a member `name`, a named array.
pub fn is_nested(
    s: &[u8],
    at: usize,
    depth: usize,
    outer: &[u8],
    name: &[u8],
    area: &mut [u64],
) -> bool
    ensures { result ≡ nested_ok outer.now name.now (tree_at depth s.now at) }
{
    member(s, at, depth, outer).is_none_or(|p| is_inner(s, p, inner(depth), name, area))
}
